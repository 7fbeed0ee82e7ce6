//! A cluster over a folder, from its opening to its end.

ghost use Rattle.std.specs.Prelude.{◌≡◌, if◌then◌else◌, length, None, IfOk};
ghost use Rattle.rr_types.specs.Nodes.{has_member, with_member};
ghost use Rattle.rr_client.specs.Seating.{AreStopped, left_out_in};

use crate::beside::run_beside;
use crate::collecting::{collect_all, left_out_in, open_slots, seat_all};
use crate::error::{ClusterError, error_of};
use crate::guest::{Guest, Nobody, Overseer, Place, Returned};
use crate::host::{GuestRuntime, Host, Steering};
use crate::options::Options;
use crate::patience::looks_in;
use crate::promises::promises_of;
use rr_disk::{Disk, Reopen};
use rr_folders::{Folders, Lockable, Locks, MarkWriter, Reasons, open_folders};
use rr_threads::Switches;
use rr_types::{NodeId, NodeSet, Nodes};
use std::alloc::Global;
use std::fs::OpenFile;
use std::io::{Read, Seek, Write};
use std::os::unix::fs::FileExt;
use std::rt::Files;
use std::thread::Threads;
use std::time::Duration;

/// The least and the greatest tick, in milliseconds.
const LEAST_TICK: u64 = 10;

const MOST_TICK: u64 = 10_000;

// Which nodes were stopped before a run's begin. Only `stop_all` gives this.
#[derive(Debug, Drop)]
struct Stopped {
    nodes: NodeSet,
}

// That the switch of a node was turned off. Only `stop` gives this.
#[derive(Debug, Drop)]
struct Off {
    node: NodeId,
}

// Turns the switch of a node off.
fn stop(switches: &Switches, node: NodeId) -> Off
    ensures { result.node ≡ node }
{
    switches.stop(node);
    Off { node }
}

// Turns the switch of a node off if it is left out, and tells the nodes that are stopped by then.
fn stop_left_out(switches: &Switches, without: NodeSet, stopped: NodeSet, node: NodeId) -> NodeSet
    ensures { result ≡ (if has_member without node then with_member stopped node else stopped) }
{
    if without.contains(node) {
        let off = stop(switches, node);
        stopped.with(off.node)
    } else {
        stopped
    }
}

// Turns the switches of nodes off. A node whose switch is off at the begin of a run is left out.
#[tactic(auto, using(crate::proofs::Stops::none_stopped))]
fn stop_all(nodes: Nodes, without: NodeSet, switches: &Switches) -> Stopped
    ensures { AreStopped nodes without result.nodes }
{
    let mut stopped = NodeSet::empty();
    'nodes: for index in 0..nodes.count() {
        let Some(node) = NodeId::new(nodes, index) else {
            unreachable!()
        };
        stopped = stop_left_out(switches, without, stopped, node);
    }
    Stopped { nodes: stopped }
}

// The switches of a run that begins without some nodes.
fn open_switches(alloc: Global, nodes: Nodes, options: &Options) -> Result<Switches, ClusterError> {
    let tick = Duration::from_millis(options.tick);
    let switches = Switches::new(alloc, nodes)?.with_tick(tick);
    let _stopped = stop_all(nodes, options.without, &switches);
    Ok(switches)
}

// The locks and the reasons of folders that are open.
#[derive(Drop)]
struct House<F: Drop> {
    locks: Locks<F>,
    reasons: Reasons,
}

// The guests at their nodes, over disks that are open, until all are done. The folders are locked meanwhile.
fn run_over<
    F: Read + Write + Seek + FileExt + OpenFile + Drop,
    D: Disk + Reopen + Drop + Send,
    R: Files + GuestRuntime + Threads + Sync,
    G: Guest + Drop + Send,
    O: Overseer,
>(
    host: &Host<'_, R>,
    house: &House<F>,
    options: &Options,
    disks: Vec<D>,
    places: Vec<Place<G>>,
    overseer: &mut O,
) -> Result<Vec<Returned<G>>, ClusterError>
    requires alike { (one other : D) → D.tells one → D.tells other }
    requires none_left_out { left_out_in options.now.without places.items ≡ None }
    ensures all { IfOk result (λ guests. length guests.items ≡ length places.items) }
    ensures none_left_out { IfOk result (λ _. left_out_in options.now.without places.items ≡ None) }
{
    let alloc = host.rt().alloc();
    let (promises, disks) = promises_of(alloc, host.nodes(), options.without, disks)?;
    let slots = open_slots(alloc, places.len())?;
    let looks = looks_in(options.patience);
    let rows = seat_all(&*host, house.locks.dir(), looks, &promises, &slots, places)?;
    match run_beside(host, disks, rows, &slots, overseer) {
        Err(refusal) => Err(ClusterError::Run { refusal }),
        Ok(()) => collect_all(host, &house.reasons, slots),
    }
}

// The first node that is left out and that a guest asks.
fn first_left_out<G>(without: NodeSet, places: &Vec<Place<G>>) -> Option<u8>
    ensures { result ≡ left_out_in without places.now.items }
{
    left_out_in(without, places.as_slice())
}

/// Opens the cluster of so many nodes in the folder DIR, or makes it where there is none, and runs its nodes in threads. Each guest
/// asks its node, in a thread of its own. Once all guests have returned, the nodes end, and the guests come back in the order of
/// their places, each with what it gave. What they were acknowledged is on the disks.
///
/// Nodes that `options` leaves out stay down until a guest starts them, and their folders aren't touched before. While it runs, no other
/// program opens the folder. A node has 64 guests at most. A node that fails goes down alone. Where no guest may start a node any more,
/// those of nodes that are down are done.
///
/// # Errors
/// `BadTick`; `NoNode`; `LeftOut`; `InUse`, `Failed`, `Refused`, `Unopened`, of the folder; `Numbers`; `OutOfMemory`; `Run`, where the
/// nodes' run has failed. An error of a guest is told in its own `Returned`.
pub fn run_cluster<
    F: Read + Write + Seek + FileExt + OpenFile + Drop + Send + Lockable,
    R: Files<File = F> + GuestRuntime + Threads + Sync + MarkWriter<Handle = F>,
    G: Guest + Drop + Send,
>(
    rt: &R,
    nodes: Nodes,
    dir: &str,
    options: &Options,
    places: Vec<Place<G>>,
) -> Result<Vec<Returned<G>>, ClusterError>
    ensures all { IfOk result (λ guests. length guests.items ≡ length places.items) }
    ensures none_left_out { IfOk result (λ _. left_out_in options.now.without places.items ≡ None) }
{
    run_overseen(rt, nodes, dir, options, places, &mut Nobody)
}

/// Runs a cluster as `run_cluster` does, while an overseer oversees it in the thread that calls. The run lasts until the overseer has
/// returned, too.
///
/// # Errors
/// As of `run_cluster`. Before nodes run the overseer isn't called.
pub fn run_overseen<
    F: Read + Write + Seek + FileExt + OpenFile + Drop + Send + Lockable,
    R: Files<File = F> + GuestRuntime + Threads + Sync + MarkWriter<Handle = F>,
    G: Guest + Drop + Send,
    O: Overseer,
>(
    rt: &R,
    nodes: Nodes,
    dir: &str,
    options: &Options,
    places: Vec<Place<G>>,
    overseer: &mut O,
) -> Result<Vec<Returned<G>>, ClusterError>
    ensures all { IfOk result (λ guests. length guests.items ≡ length places.items) }
    ensures none_left_out { IfOk result (λ _. left_out_in options.now.without places.items ≡ None) }
{
    let tick = options.tick;
    if tick < LEAST_TICK || tick > MOST_TICK {
        return Err(ClusterError::BadTick { tick });
    }
    if let Some(node) = first_left_out(options.without, &places) {
        return Err(ClusterError::LeftOut { node });
    }
    let steering = Steering::new(open_switches(rt.alloc(), nodes, options)?);
    let host = Host::new(rt, nodes, &steering);
    let Folders {
        locks,
        disks,
        reasons,
    } = match open_folders(rt, nodes, dir, options.without) {
        Ok(folders) => folders,
        Err(closed) => return Err(error_of(rt.alloc(), closed)),
    };
    let house = House { locks, reasons };
    let ran = run_over(&host, &house, options, disks, places, overseer);
    drop(house);
    ran
}
