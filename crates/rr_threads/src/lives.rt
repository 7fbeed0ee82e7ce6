//! The lives of a node: from each start to the stop behind it.
//!
//! A thread's result is known by no contract, nor is what a switch says. So that a life follows each start, with the disk and the clients
//! of the one before, and that a run is over where one can't begin is read: `live`, `leave_all`, `run_lives`.

ghost use Rattle.std.specs.Prelude.{◌≡◌, ◌⊎◌, ◌<◌, ◌≤◌, None, Some, Ok, IfOk, IfErr};

use crate::beginning::{Begun, LeftOut};
use crate::client::Client;
use crate::node_run::{Part, Remains, run_part};
use crate::ready::{Ready, Unready};
use crate::shared::{Shared, Start};
use crate::wires::Mail;
use rr_disk::{Disk, Reopen};
use rr_turn::{Turnstile, recover_through};
use rr_types::{NodeId, Nodes, Refusal};
use std::alloc::Global;
use std::sync::Wait;
use std::thread::Threads;
use std::time::Clock;

/// A node that isn't opened, as its disk is refused.
#[derive(Drop)]
pub struct Unopened<D> {
    pub refusal: Refusal,
    pub disk: D,
    pub mail: Mail,
}

/// Opens a node of a disk that is ready for a start, with the turnstile before each device call. The refusals are those of
/// `recover_through`.
pub fn open_part<D: Disk + Drop, T: Turnstile>(
    turnstile: &T,
    alloc: Global,
    nodes: Nodes,
    node: NodeId,
    ready: Ready<D>,
    mail: Mail,
) -> Result<Part<D>, Unopened<D>>
    requires exists { node < nodes }
    requires alike { (one other : D) → D.tells one → D.tells other }
    ensures whose { IfOk result (λ part. (part.start ≡ ready.start) × (part.node ≡ node) × (part.journal.node ≡ node) × (part.journal.nodes ≡ nodes)) }
    ensures mail { IfOk result (λ part. part.mail ≡ mail) }
    ensures kept { IfErr result (λ unopened. unopened.mail ≡ mail) }
{
    let (start, disk) = ready.into_parts();
    match recover_through(turnstile, alloc, nodes, node, disk) {
        Ok((core, journal)) => Ok(Part {
            start,
            node,
            core,
            journal,
            mail,
        }),
        Err((refusal, disk)) => Err(Unopened {
            refusal,
            disk,
            mail,
        }),
    }
}

/// What comes of the start of a node that is down.
#[derive(Drop)]
enum Started<D: Disk> {
    Up(Part<D>),
    /// Its disk is refused.
    Unopened(Unopened<D>),
    /// The run is over: the node's disk or its mail is lost.
    Over,
}

/// Opens a node of its disk, which is opened again before, for this start.
fn open_anew<D: Disk + Reopen + Drop, T: Turnstile>(
    alloc: Global,
    shared: &Shared<'_, T>,
    start: Start,
    node: NodeId,
    disk: D,
    mail: Mail,
) -> Result<Part<D>, Unopened<D>>
    requires exists { node < shared.now.nodes }
    requires alike { (one other : D) → D.tells one → D.tells other }
    ensures whose { IfOk result (λ part. (part.start ≡ start) × (part.node ≡ node)) }
    ensures mail { IfOk result (λ part. part.mail ≡ mail) }
    ensures kept { IfErr result (λ unopened. unopened.mail ≡ mail) }
{
    match Ready::again(start, disk) {
        Ok(ready) => open_part(shared.turnstile, alloc, shared.nodes, node, ready, mail),
        Err(Unready { refusal, disk }) => Err(Unopened {
            refusal,
            disk,
            mail,
        }),
    }
}

/// Opens a node again of what is left of it, for this start.
fn open_again<D: Disk + Reopen + Drop, T: Turnstile>(
    alloc: Global,
    shared: &Shared<'_, T>,
    start: Start,
    node: NodeId,
    disk: Option<D>,
    mail: Option<Mail>,
) -> Started<D>
    requires alike { (one other : D) → D.tells one → D.tells other }
    ensures up { (part : Part D) → result ≡ Started.Up part → (part.start ≡ start) × (part.node ≡ node) × (mail ≡ Some part.mail) }
    ensures kept { (unopened : Unopened D) → result ≡ Started.Unopened unopened → mail ≡ Some unopened.mail }
    ensures over { result ≡ Started.Over → (disk ≡ None) ⊎ ((mail ≡ None) ⊎ (shared.now.nodes ≤ node)) }
{
    let (Some(node), Some(disk), Some(mail)) = (NodeId::new(shared.nodes, node.index()), disk, mail)
    else {
        return Started::Over;
    };
    match open_anew(alloc, shared, start, node, disk, mail) {
        Ok(part) => Started::Up(part),
        Err(unopened) => Started::Unopened(unopened),
    }
}

/// What is left of a node that is down with all that it has.
fn remain_whole<D, C>(disk: D, mail: Mail, clients: Vec<C>) -> Remains<D, C>
    ensures { result ≡ record { disk = Some disk; mail = Some mail; clients = clients } }
{
    Remains {
        disk: Some(disk),
        mail: Some(mail),
        clients,
    }
}

/// A node whose disk is refused fails. It stays down with what it has, so that it can be started again.
fn stay_unopened<D: Drop, T, R: Wait, C: Drop>(
    rt: &R,
    shared: &Shared<'_, T>,
    node: NodeId,
    unopened: Unopened<D>,
    clients: Vec<C>,
) -> Remains<D, C>
    ensures held { (result.disk ≡ Some unopened.disk) × (result.mail ≡ Some unopened.mail) }
    ensures clients { result.clients ≡ clients }
{
    let Unopened {
        refusal,
        disk,
        mail,
    } = unopened;
    shared.fail(rt, node, refusal);
    remain_whole(disk, mail, clients)
}

/// The first life of a node, until it goes down. One that is left out is down from the begin. It is `OutOfMemory` or `SeatsTaken`.
fn live_first<
    D: Disk + Drop + Send,
    T: Turnstile + Sync,
    R: Threads + Wait + Clock + Sync,
    C: Client + Drop + Send,
>(
    rt: &R,
    alloc: Global,
    shared: &Shared<'_, T>,
    begun: Begun<D>,
    clients: Vec<C>,
) -> Result<Remains<D, C>, Refusal>
    ensures left_out { (left : LeftOut D) → begun ≡ Begun.LeftOut left
        → result ≡ Ok (record { disk = Some left.disk; mail = Some left.mail; clients = clients }) }
{
    match begun {
        Begun::Up(part) => run_part(rt, alloc, shared, part, clients),
        Begun::LeftOut(left) => {
            let LeftOut {
                node: _,
                disk,
                mail,
            } = left;
            Ok(remain_whole(disk, mail, clients))
        }
    }
}

/// Runs a node through its lives: until the run is over, or it is down and isn't started any more. Then its clients are done. It is
/// `OutOfMemory` or `SeatsTaken`, of a life that can't begin.
fn live<
    D: Disk + Reopen + Drop + Send,
    T: Turnstile + Sync,
    R: Threads + Wait + Clock + Sync,
    C: Client + Drop + Send,
>(
    rt: &R,
    alloc: Global,
    shared: &Shared<'_, T>,
    begun: Begun<D>,
    clients: Vec<C>,
) -> Result<(), Refusal>
    requires alike { (one other : D) → D.tells one → D.tells other }
{
    let node = begun.node();
    let mut remains = live_first(rt, alloc, shared, begun, clients)?;
    for _ in rt.forever() {
        let Remains {
            disk,
            mut mail,
            clients,
        } = remains;
        let gone = shared.note_down(node);
        let Some(start) = shared.next_life(rt, node, gone, &mut mail) else {
            leave_all(rt, shared, clients);
            return Ok(());
        };
        match open_again(alloc, shared, start, node, disk, mail) {
            Started::Up(next) => remains = run_part(rt, alloc, shared, next, clients)?,
            Started::Unopened(unopened) => {
                remains = stay_unopened(rt, shared, node, unopened, clients);
            }
            Started::Over => return Ok(()),
        }
    }
    Ok(())
}

/// These clients are done.
fn leave_all<T, R: Wait, C: Drop>(rt: &R, shared: &Shared<'_, T>, clients: Vec<C>) {
    for client in clients {
        shared.running.leave(rt, client);
    }
}

/// Runs one of the nodes of a run for these clients through its lives. Where one of these can't begin, the run is over.
pub fn run_lives<
    D: Disk + Reopen + Drop + Send,
    T: Turnstile + Sync,
    R: Threads + Wait + Clock + Sync,
    C: Client + Drop + Send,
>(rt: &R, alloc: Global, shared: &Shared<'_, T>, begun: Begun<D>, clients: Vec<C>)
    requires alike { (one other : D) → D.tells one → D.tells other }
{
    let node = begun.node();
    if let Err(refusal) = live(rt, alloc, shared, begun, clients) {
        shared.running.fail(rt, node, refusal);
        shared.note_down(node);
    }
}
