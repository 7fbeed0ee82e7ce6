//! Runs of 1 to 7 nodes, for clients of any kind.
//!
//! No contract says that a thread runs. That each node gets one, and which refusal a run has, is read: `start_node`, `start_all`, `run_scope`.

ghost use Rattle.std.specs.Prelude.{◌≡◌, ◌<◌, true, false, length, map, All, Ok, IfOk};
ghost use Rattle.std.specs.Duration.{as_nanos};
ghost use Rattle.std.specs.List.{range_with_len};
ghost use Rattle.std.specs.Thread.{IsSend};
ghost use Rattle.rr_types.specs.Nodes.{has_member};
ghost use Rattle.rr_threads.specs.Beginnings.{node_of, mail_of, is_left_out, IsOpened};
ghost use Rattle.rr_threads.specs.Ways.{AreWired};

use crate::agreeing::{Agreed, all_agree};
use crate::beginning::{Begun, LeftOut};
use crate::client::Client;
use crate::disputing::DIFFERENT;
use crate::lives::{open_part, run_lives};
use crate::ready::Ready;
use crate::recorder::Recorder;
use crate::running::Running;
use crate::shared::Shared;
use crate::switches::Switches;
use crate::wires::Mail;
use crate::wiring::open_mails;
use rr_disk::{Disk, Reopen};
use rr_turn::Turnstile;
use rr_types::{NodeId, NodeSet, Nodes, Refusal};
use std::alloc::Global;
use std::sync::Wait;
use std::thread;
use std::thread::{Scope, Threads};
use std::time::{Clock, Duration};

/// How long after a tick of a node the next is due where nothing else is asked for, in milliseconds.
const TICK: u64 = 50;

/// How long after a tick of a node the next is due where nothing else is asked for: 50 milliseconds.
pub fn usual_tick() -> Duration
    ensures { as_nanos result ≡ 50_000_000 }
{
    Duration::from_millis(TICK)
}

/// Begins a node: opens it of this disk, which a refusal ends, or leaves it out.
fn begin_node<D: Disk + Drop, T: Turnstile>(
    turnstile: &T,
    alloc: Global,
    nodes: Nodes,
    without: NodeSet,
    node: NodeId,
    disk: D,
    mail: Mail,
) -> Result<Begun<D>, Refusal>
    requires exists { node < nodes }
    requires alike { (one other : D) → D.tells one → D.tells other }
    ensures left_out { has_member without node ≡ true → result ≡ Ok (Begun.LeftOut (record { node = node; disk = disk; mail = mail })) }
    ensures up { has_member without node ≡ false → IfOk result (IsOpened nodes node mail) }
    ensures whose { IfOk result (λ begun. (node_of begun ≡ node) × (mail_of begun ≡ mail) × (is_left_out begun ≡ has_member without node)) }
{
    if without.contains(node) {
        return Ok(Begun::LeftOut(LeftOut { node, disk, mail }));
    }
    match open_part(turnstile, alloc, nodes, node, Ready::first(disk), mail) {
        Ok(part) => Ok(Begun::Up(part)),
        Err(unopened) => Err(unopened.refusal),
    }
}

/// Begins the nodes of these disks, the lowest first, each with its clients: those of a set are left out, and the others opened.
fn open_parts<D: Disk + Drop, T: Turnstile, C: Drop>(
    turnstile: &T,
    alloc: Global,
    nodes: Nodes,
    without: NodeSet,
    disks: Vec<D>,
    clients: Vec<Vec<C>>,
) -> Result<Vec<(Begun<D>, Vec<C>)>, Refusal>
    requires alike { (one other : D) → D.tells one → D.tells other }
    requires disks { length disks.items ≡ nodes }
    requires clients { length clients.items ≡ nodes }
    ensures nodes { IfOk result (λ parts. map (λ p. node_of p.0) parts.items ≡ range_with_len 0 nodes) }
    ensures left_out { IfOk result (λ parts. All (λ p. is_left_out p.0 ≡ has_member without (node_of p.0)) parts.items) }
    ensures wired { IfOk result (λ parts. AreWired (map (λ p. mail_of p.0) parts.items)) }
    ensures clients { IfOk result (λ parts. map (λ p. p.1) parts.items ≡ clients.items) }
{
    let mails = open_mails(alloc, nodes)?;
    let mut disks = disks.into_iter();
    let mut clients = clients.into_iter();
    let mut parts = Vec::new(alloc);
    let mut index = 0u8;
    for mail in mails {
        let Some(node) = NodeId::new(nodes, index) else {
            unreachable!()
        };
        let Some(disk) = disks.next() else {
            unreachable!()
        };
        let Some(own) = clients.next() else {
            unreachable!()
        };
        let begun = begin_node(turnstile, alloc, nodes, without, node, disk, mail)?;
        parts.push((begun, own))?;
        index += 1;
    }
    Ok(parts)
}

/// Starts a node's thread.
fn start_node<
    's,
    'x: 's,
    E,
    D: Disk + Reopen + Drop + Send + 's,
    T: Turnstile + Sync + 's,
    R: Threads + Wait + Clock + Sync + 's,
    C: Client + Drop + Send + 's,
>(
    scope: &Scope<'s, E>,
    rt: &'s R,
    alloc: Global,
    shared: &'s Shared<'x, T>,
    begun: Begun<D>,
    clients: Vec<C>,
) -> bool
    requires alike { (one other : D) → D.tells one → D.tells other }
{
    let started = scope.spawn(
        move ||
            requires { (one other : D) → D.tells one → D.tells other }
        { run_lives(rt, alloc, shared, begun, clients) },
    );
    started.is_ok()
}

/// Starts a thread for each node. Where one can't be made, the run is over.
fn start_all<
    's,
    'x: 's,
    E,
    D: Disk + Reopen + Drop + Send + 's,
    T: Turnstile + Sync + 's,
    R: Threads + Wait + Clock + Sync + 's,
    C: Client + Drop + Send + 's,
>(
    scope: &Scope<'s, E>,
    rt: &'s R,
    alloc: Global,
    shared: &'s Shared<'x, T>,
    parts: Vec<(Begun<D>, Vec<C>)>,
)
    requires alike { (one other : D) → D.tells one → D.tells other }
{
    for (begun, clients) in parts {
        let node = begun.node();
        if !start_node(scope, rt, alloc, shared, begun, clients) {
            shared.running.fail(rt, node, Refusal::OutOfMemory);
        }
    }
}

/// All nodes at once, which agree.
fn run_scope<
    's,
    'x,
    D: Disk + Reopen + Drop + Send,
    T: Turnstile + Sync,
    R: Threads + Wait + Clock + Sync,
    C: Client + Drop + Send,
>(rt: &'s R, alloc: Global, shared: &'s Shared<'x, T>, agreed: Agreed<D, C>)
    requires alike { (one other : D) → D.tells one → D.tells other }
{
    thread::scope(
        thread::scope_env(),
        rt,
        |scope|
            requires { IsSend D.row × IsSend C.row × ((one other : D) → D.tells one → D.tells other) }
        { start_all(scope, rt, alloc, shared, agreed.into_parts()) },
    );
}

/// How many clients these are.
fn count_clients<D: Disk, C>(parts: &[(Begun<D>, Vec<C>)]) -> usize {
    let mut count = 0usize;
    for (_, clients) in parts {
        count = count.saturating_add(clients.len());
    }
    count
}

/// Runs these nodes over these disks as `run_clients` does, with a recorder or with switches or with neither. Those of a set are left
/// out at the begin: they are down, and their disks aren't opened before they are started. The next tick of a node is due so long after
/// one.
pub fn run_all<
    D: Disk + Reopen + Drop + Send,
    T: Turnstile + Sync,
    R: Threads + Wait + Clock + Sync,
    C: Client + Drop + Send,
>(
    rt: &R,
    alloc: Global,
    nodes: Nodes,
    without: NodeSet,
    disks: Vec<D>,
    clients: Vec<Vec<C>>,
    turnstile: &T,
    recorder: Option<&Recorder>,
    switches: Option<&Switches>,
    tick: Duration,
) -> Result<(), Refusal>
    requires alike { (one other : D) → D.tells one → D.tells other }
    ensures counts { IfOk result (λ _. (length disks.items ≡ nodes) × (length clients.items ≡ nodes)) }
{
    let count = usize::from(nodes.count());
    if disks.len() != count || clients.len() != count {
        return Err(Refusal::BadNodes);
    }
    let parts = open_parts(turnstile, alloc, nodes, without, disks, clients)?;
    let Some(agreed) = all_agree(parts) else {
        return Err(DIFFERENT);
    };
    let shared = Shared {
        nodes,
        tick,
        running: Running::new(alloc, count_clients(agreed.parts()))?,
        recorder,
        switches,
        turnstile,
    };
    run_scope(rt, alloc, &shared, agreed);
    let Shared {
        nodes: _,
        tick: _,
        running,
        recorder: _,
        switches: _,
        turnstile: _,
    } = shared;
    match running.into_refusal() {
        Some(refusal) => Err(refusal),
        None => Ok(()),
    }
}

/// Runs nodes in threads over these disks, the first of them node 0's, until each client is done. A node's clients stand at its
/// place.
///
/// # Errors
/// `BadNodes`, unless there are a disk and a place for clients for each node. Of several others the lowest node's:
/// - `OutOfMemory`;
/// - `Device`, where a device call failed or the clock can't be read;
/// - `Damaged`, of a disk that holds no facts, and `Damaged { area: 0, offset: 0 }` where two disks decide an instance differently,
///   as far as their decided lists go;
/// - `TooLarge`, where a node's journal or its facts are at their end;
/// - `SeatsTaken`, of a node with more than 64 clients;
/// - what a client's `run` gives;
/// - `BadEvent` of the event for which the tape has no place, with a recorder, which wants fresh disks.
pub fn run_clients<
    D: Disk + Reopen + Drop + Send,
    T: Turnstile + Sync,
    R: Threads + Wait + Clock + Sync,
    C: Client + Drop + Send,
>(
    rt: &R,
    alloc: Global,
    nodes: Nodes,
    disks: Vec<D>,
    clients: Vec<Vec<C>>,
    turnstile: &T,
    recorder: Option<&Recorder>,
) -> Result<(), Refusal>
    requires alike { (one other : D) → D.tells one → D.tells other }
    ensures counts { IfOk result (λ _. (length disks.items ≡ nodes) × (length clients.items ≡ nodes)) }
{
    let tick = usual_tick();
    let without = NodeSet::empty();
    run_all(
        rt, alloc, nodes, without, disks, clients, turnstile, recorder, None, tick,
    )
}

/// Runs nodes as `run_clients` does, while a host stops and starts them by their switches. A node that is started has its disk opened
/// again, and recovers from it as at the beginning. A node whose switch is off at the begin is left out: its disk isn't opened, nor
/// compared with others, before it is started. The run lasts until each client is done, also those of nodes that are down. The switches
/// say how often nodes tick. A node that fails goes down alone, as one that is stopped, and so does one whose disk is refused at a
/// start: the switches say why.
///
/// # Errors
/// As of `run_clients` before the nodes are up. Afterwards `OutOfMemory`, where a thread can't be made, and what a client's `run` gives.
pub fn run_switched<
    D: Disk + Reopen + Drop + Send,
    T: Turnstile + Sync,
    R: Threads + Wait + Clock + Sync,
    C: Client + Drop + Send,
>(
    rt: &R,
    alloc: Global,
    nodes: Nodes,
    disks: Vec<D>,
    clients: Vec<Vec<C>>,
    turnstile: &T,
    switches: &Switches,
) -> Result<(), Refusal>
    requires alike { (one other : D) → D.tells one → D.tells other }
    ensures counts { IfOk result (λ _. (length disks.items ≡ nodes) × (length clients.items ≡ nodes)) }
{
    run_all(
        rt,
        alloc,
        nodes,
        switches.those_off(nodes),
        disks,
        clients,
        turnstile,
        None,
        Some(switches),
        switches.tick(),
    )
}
