//! An overseer beside the threads of the nodes.
//!
//! No contract says that a thread runs, nor knows what lies in a slot. Whether a guest of a slot may ask has its clause (`is_asking`). That
//! nodes run, that an overseer oversees them, and that starts end once no guest may ask is read: `run_beside`, `close_behind`.

ghost use Rattle.std.specs.Prelude.{◌≡◌};
ghost use Rattle.std.specs.Thread.{IsSend, IsSync};
ghost use Rattle.rr_client.specs.Standings.{is_asking, is_down};

use crate::guest::{Guest, Overseer};
use crate::host::{GuestRuntime, Host, Standing};
use crate::seated::{Resting, Seated, Slot};
use rr_disk::{Disk, Reopen};
use rr_threads::run_switched;
use rr_turn::Open;
use rr_types::{NodeId, Refusal};
use std::sync::Wait;
use std::thread;
use std::thread::{JoinHandle, Scope, Threads};
use std::time::Clock;

// Whether a node is down, and isn't to come up.
fn is_down(standing: &Standing) -> bool
    ensures { result ≡ is_down standing.now }
{
    matches!(standing, Standing::Down | Standing::Failed(_))
}

// Whether the guest of a slot asks, or may be called again without another's doing.
fn is_asking<G>(slot: &Option<Resting<G>>, standing: &Standing) -> bool
    ensures { result ≡ is_asking slot.now standing.now }
{
    match slot {
        None => true,
        Some(resting) => !resting.is_done && !is_down(standing),
    }
}

// The node of the guest that lies in a slot.
fn node_of<G>(slot: &Option<Resting<G>>) -> Option<NodeId> {
    match slot {
        None => None,
        Some(resting) => Some(resting.node),
    }
}

// Whether the guest of a slot may ask, by what its node is.
fn may_ask<G, H: Wait>(host: &Host<'_, H>, slot: &Slot<G>) -> bool {
    let resting = slot.lock(host.rt());
    match node_of(&*resting) {
        None => true,
        Some(node) => is_asking(&*resting, &host.standing(node)),
    }
}

// Whether a guest may ask: no slot's was found not to, or a node was started meanwhile.
fn may_any_ask<G, H: Wait>(host: &Host<'_, H>, slots: &[Slot<G>]) -> bool {
    let starts = host.starts();
    for slot in slots {
        if may_ask(host, slot) {
            return true;
        }
    }
    host.starts() != starts
}

// Waits until no guest may ask. Then nobody starts a node any more, and the guests of those that are down are done.
fn close_behind<G, H: Wait>(host: &Host<'_, H>, slots: &[Slot<G>]) {
    for _ in host.rt().forever() {
        if host.is_over() || !may_any_ask(host, slots) {
            break;
        }
        host.wait();
    }
    host.close();
}

// Runs the nodes until their guests are done.
fn run_nodes<
    D: Disk + Reopen + Drop + Send,
    R: GuestRuntime + Threads + Sync,
    G: Guest + Drop + Send,
>(host: &Host<'_, R>, disks: Vec<D>, rows: Vec<Vec<Seated<'_, G, R>>>) -> Result<(), Refusal>
    requires alike { (one other : D) → D.tells one → D.tells other }
{
    let rt = host.rt();
    let ran = run_switched(
        rt,
        rt.alloc(),
        host.nodes(),
        disks,
        rows,
        &Open,
        host.switches(),
    );
    host.end();
    ran
}

// Starts the nodes' thread, if it can be made.
fn start_nodes<
    's,
    E,
    D: Disk + Reopen + Drop + Send + 's,
    R: GuestRuntime + Threads + Sync + 's,
    G: Guest + Drop + Send + 's,
>(
    scope: &Scope<'s, E>,
    host: &'s Host<'s, R>,
    disks: Vec<D>,
    rows: Vec<Vec<Seated<'s, G, R>>>,
) -> Option<JoinHandle<Result<(), Refusal>>>
    requires alike { (one other : D) → D.tells one → D.tells other }
{
    let started = scope.spawn(
        move ||
            requires { (one other : D) → D.tells one → D.tells other }
        { run_nodes(host, disks, rows) },
    );
    match started {
        Ok(thread) => Some(thread),
        Err(_) => None,
    }
}

/// Runs the nodes of a host over these disks for the guests of these rows, while an overseer oversees them. Behind it nodes are started as
/// long as a guest may do so. It is `OutOfMemory`, where no thread can be made, or as of `run_switched`.
pub(crate) fn run_beside<
    D: Disk + Reopen + Drop + Send,
    R: GuestRuntime + Threads + Sync,
    G: Guest + Drop + Send,
    O: Overseer,
>(
    host: &Host<'_, R>,
    disks: Vec<D>,
    rows: Vec<Vec<Seated<'_, G, R>>>,
    slots: &[Slot<G>],
    overseer: &mut O,
) -> Result<(), Refusal>
    requires alike { (one other : D) → D.tells one → D.tells other }
{
    thread::scope(
        thread::scope_env(),
        host.rt(),
        move |scope|
            requires { IsSend D.row × IsSend G.row × IsSync R.row × ((one other : D) → D.tells one → D.tells other) }
        {
            let Some(nodes) = start_nodes(scope, host, disks, rows) else {
                return Err(Refusal::OutOfMemory);
            };
            overseer.oversee(host);
            close_behind(host, slots);
            nodes.join(host.rt())
        },
    )
}
