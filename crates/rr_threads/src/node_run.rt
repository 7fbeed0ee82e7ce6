//! The threads of a node.
//!
//! No contract says that a thread runs, nor what it gives at its end. So which threads are started and joined, and that they work over what
//! they are given, is read: the calls named `start_..` and `join..`, `run_threads` and `run_crew`.

ghost use Rattle.std.specs.Prelude.{◌≡◌, ◌&&◌, [], is_ok, is_some, length, map, vec_len, IfOk};
ghost use Rattle.std.specs.List.{range_with_len};
ghost use Rattle.std.specs.Thread.{IsSend};
ghost use Rattle.rr_turn.specs.Listed.{listed};
ghost use Rattle.rr_threads.specs.Joins.{AreJoined};

use crate::client::{Client, serve};
use crate::desk::{Counter, Desk};
use crate::flushing::{Flusher, flush_all};
use crate::node_loop::{Runner, run_node};
use crate::publishing::{publish_all, publish_first};
use crate::shared::{Shared, Start};
use crate::wires::{Mail, NodeEnds};
use rr_core::Core;
use rr_disk::Disk;
use rr_journal::{Journal, Synced};
use rr_turn::{Chase, Follower, Locked, Turnstile, Unflushed};
use rr_types::{Group, NodeId, Refusal};
use rr_window::{Giver, NewList, Seat, Seats, Taker, WindowName, hand_over};
use std::alloc::{AllocError, Global};
use std::marker::Brand;
use std::sync::Wait;
use std::thread;
use std::thread::{JoinHandle, Scope, Threads};
use std::time::Clock;

/// A node that is up, before its threads start, and by which start.
#[derive(Drop)]
pub struct Part<D: Disk> {
    pub start: Start,
    pub node: NodeId,
    pub core: Core,
    pub journal: Journal<D>,
    pub mail: Mail,
}

/// What is left of a node that has gone down, and its clients that aren't done. Its disk or its mail is missing where a thread
/// couldn't be made, and then the run is over.
#[derive(Drop)]
pub struct Remains<D, C> {
    pub disk: Option<D>,
    pub mail: Option<Mail>,
    pub clients: Vec<C>,
}

/// The hand-overs between the loop of a node and its flusher: of groups, and of what became of them.
#[derive(Drop)]
struct HandOvers {
    groups: (Giver<Group>, Taker<Group>),
    backs: (
        Giver<Result<Synced, Unflushed>>,
        Taker<Result<Synced, Unflushed>>,
    ),
}

/// Makes the hand-overs of a node. It is `OutOfMemory`.
fn open_hand_overs(alloc: Global) -> Result<HandOvers, Refusal>
    ensures groups { IfOk result (λ made. made.groups.0.queue ≡ made.groups.1.queue) }
    ensures backs { IfOk result (λ made. made.backs.0.queue ≡ made.backs.1.queue) }
{
    let groups = hand_over(alloc)?;
    match hand_over(alloc) {
        Ok(backs) => Ok(HandOvers { groups, backs }),
        Err(_) => Err(Refusal::OutOfMemory),
    }
}

/// A client of a node, the place of its counter, and its seat.
#[derive(Drop)]
struct Seated<W: WindowName, C> {
    place: usize,
    seat: Seat<W>,
    client: C,
}

/// The ends of a node's window: its follower, each client with its seat, and the seats that are left.
struct Ends<W: WindowName, C> {
    follower: Follower<W>,
    seated: Vec<Seated<W, C>>,
    seats: Seats<W>,
}

/// Each client with a counter's place of its own and a seat. It is `OutOfMemory`, or `SeatsTaken` of more than 64.
#[tactic(auto, using(crate::proofs::Places::place_more, crate::proofs::Places::left_fewer))]
fn seat_all<W: WindowName, C: Drop>(
    alloc: Global,
    seats: &Seats<W>,
    clients: Vec<C>,
) -> Result<Vec<Seated<W, C>>, Refusal>
    ensures places { IfOk result (λ seated. map (λ s. s.place) seated.items ≡ range_with_len 0 (length seated.items)) }
    ensures clients { IfOk result (λ seated. map (λ s. s.client) seated.items ≡ clients.items) }
{
    let mut seated = Vec::new(alloc);
    for client in clients {
        let place = seated.len();
        let seat = seats.take()?;
        seated.push(Seated {
            place,
            seat,
            client,
        })?;
    }
    Ok(seated)
}

/// Opens the window of a node. It is `OutOfMemory` or `SeatsTaken`.
fn open_ends<W: WindowName, C: Drop, R: Wait>(
    rt: &R,
    alloc: Global,
    list: NewList,
    clients: Vec<C>,
) -> Result<Ends<W, C>, Refusal>
    requires { list ≡ W.book }
    ensures fresh { IfOk result (λ ends. listed ends.follower ≡ []) }
    ensures clients { IfOk result (λ ends. map (λ s. s.client) ends.seated.items ≡ clients.items) }
    ensures places { IfOk result (λ ends. map (λ s. s.place) ends.seated.items ≡ range_with_len 0 (length ends.seated.items)) }
{
    let (follower, seats) = Follower::<W>::open(alloc, list)?;
    match seat_all(alloc, &seats, clients) {
        Ok(seated) => Ok(Ends {
            follower,
            seated,
            seats,
        }),
        Err(refusal) => {
            follower.close(rt);
            Err(refusal)
        }
    }
}

/// A counter for each of `count` clients.
fn counters_for<W: WindowName>(alloc: Global, count: usize) -> Result<Vec<Counter<W>>, Refusal>
    ensures { IfOk result (λ counters. vec_len counters ≡ count) }
{
    let mut counters = Vec::new(alloc);
    for made in 0..count {
        counters.push(Counter::new())?;
    }
    Ok(counters)
}

/// A node that is up, shared out among its threads.
#[derive(Drop)]
struct Crew<D: Disk> {
    start: Start,
    node: NodeId,
    core: Core,
    flusher: Flusher<D>,
    runner: Runner,
}

/// Shares a node out among its threads.
fn share_out<D: Disk>(part: Part<D>, hand_overs: HandOvers) -> Crew<D>
    requires groups { hand_overs.groups.0.queue ≡ hand_overs.groups.1.queue }
    requires backs { hand_overs.backs.0.queue ≡ hand_overs.backs.1.queue }
    ensures joined { AreJoined result.flusher result.runner }
    ensures whose { (result.start ≡ part.start) × (result.node ≡ part.node) × (result.core ≡ part.core) }
    ensures holds { (result.flusher.journal ≡ part.journal) × (result.runner.ends.mail ≡ part.mail) }
{
    let Part {
        start,
        node,
        core,
        journal,
        mail,
    } = part;
    let HandOvers { groups, backs } = hand_overs;
    let (group_giver, group_taker) = groups;
    let (back_giver, back_taker) = backs;
    Crew {
        start,
        node,
        core,
        flusher: Flusher {
            journal,
            groups: group_taker,
            backs: back_giver,
        },
        runner: Runner {
            ends: NodeEnds {
                mail,
                groups: group_giver,
                backs: back_taker,
            },
            chase: Chase::new(),
        },
    }
}

/// Starts a flusher's thread, if it can be made.
fn start_flusher<
    's,
    'x: 's,
    E,
    W: WindowName + Send + Sync + 's,
    D: Disk + Drop + Send + 's,
    T: Turnstile + Sync + 's,
    R: Wait + Sync + 's,
>(
    scope: &Scope<'s, E>,
    rt: &'s R,
    alloc: Global,
    shared: &'s Shared<'x, T>,
    desk: &'s Desk<W>,
    flusher: Flusher<D>,
) -> Option<JoinHandle<D>> {
    match scope.spawn(move || flush_all(rt, alloc, shared, desk, flusher)) {
        Ok(thread) => Some(thread),
        Err(_) => None,
    }
}

/// Starts the thread of a node's loop, if it can be made.
fn start_loop<
    's,
    'x: 's,
    E,
    W: WindowName + Send + Sync + 's,
    T: Turnstile + Sync + 's,
    R: Wait + Clock + Sync + 's,
>(
    scope: &Scope<'s, E>,
    rt: &'s R,
    shared: &'s Shared<'x, T>,
    desk: &'s Desk<W>,
    runner: Runner,
) -> Option<JoinHandle<Mail>> {
    match scope.spawn(move || run_node(rt, shared, desk, runner)) {
        Ok(thread) => Some(thread),
        Err(_) => None,
    }
}

/// Starts a client's thread, if it can be made.
fn start_client<
    's,
    'x: 's,
    E,
    W: WindowName + Send + Sync + 's,
    T: Turnstile + Sync + 's,
    R: Wait + Sync + 's,
    C: Client + Drop + Send + 's,
>(
    scope: &Scope<'s, E>,
    rt: &'s R,
    shared: &'s Shared<'x, T>,
    desk: &'s Desk<W>,
    seated: Seated<W, C>,
) -> Option<JoinHandle<Option<C>>> {
    let Seated {
        place,
        seat,
        client,
    } = seated;
    match scope.spawn(move || serve(rt, shared, desk, place, seat, client)) {
        Ok(thread) => Some(thread),
        Err(_) => None,
    }
}

/// Starts the threads of all clients. It is `OutOfMemory`, also where one couldn't be made.
fn start_clients<
    's,
    'x: 's,
    E,
    W: WindowName + Send + Sync + 's,
    T: Turnstile + Sync + 's,
    R: Wait + Sync + 's,
    C: Client + Drop + Send + 's,
>(
    scope: &Scope<'s, E>,
    rt: &'s R,
    alloc: Global,
    shared: &'s Shared<'x, T>,
    desk: &'s Desk<W>,
    seated: Vec<Seated<W, C>>,
) -> Result<Vec<JoinHandle<Option<C>>>, Refusal>
    ensures { IfOk result (λ threads. length threads.items ≡ length seated.items) }
{
    let mut threads = Vec::new(alloc);
    for client in seated {
        match start_client(scope, rt, shared, desk, client) {
            Some(thread) => threads.push(thread)?,
            None => return Err(Refusal::OutOfMemory),
        }
    }
    Ok(threads)
}

/// What a thread gives at its end, if there is one.
fn join<T: Drop, R: Threads>(rt: &R, thread: Option<JoinHandle<T>>) -> Option<T> {
    match thread {
        Some(thread) => Some(thread.join(rt)),
        None => None,
    }
}

/// The clients that aren't done when their threads end. It is `OutOfMemory`.
fn join_clients<C: Drop, R: Threads>(
    rt: &R,
    alloc: Global,
    threads: Vec<JoinHandle<Option<C>>>,
) -> Result<Vec<C>, Refusal> {
    let mut clients = Vec::new(alloc);
    for thread in threads {
        if let Some(client) = thread.join(rt) {
            clients.push(client)?;
        }
    }
    Ok(clients)
}

/// The threads of a node that is up, beside the publisher's.
struct Threading<D, C> {
    flusher: Option<JoinHandle<D>>,
    runner: Option<JoinHandle<Mail>>,
    clients: Result<Vec<JoinHandle<Option<C>>>, Refusal>,
}

impl<D: Drop, C: Drop> Threading<D, C> {
    /// Whether each thread could be made.
    fn is_whole(&self) -> bool
        ensures { result ≡ (is_some self.now.flusher && is_some self.now.runner && is_ok self.now.clients) }
    {
        self.flusher.is_some() && self.runner.is_some() && self.clients.is_ok()
    }

    /// Waits until they end.
    fn join<R: Threads>(self, rt: &R, alloc: Global) -> Result<Remains<D, C>, Refusal> {
        let Threading {
            flusher,
            runner,
            clients,
        } = self;
        let disk = join(rt, flusher);
        let mail = join(rt, runner);
        let clients = join_clients(rt, alloc, clients?)?;
        Ok(Remains {
            disk,
            mail,
            clients,
        })
    }
}

/// Runs the threads of a node that is up, until it goes down. The publisher's loop runs in the thread that calls. It is
/// `OutOfMemory`.
fn run_threads<
    's,
    'x,
    W: WindowName + Send + Sync,
    D: Disk + Drop + Send,
    T: Turnstile + Sync,
    R: Threads + Wait + Clock + Sync,
    C: Client + Drop + Send,
>(
    rt: &'s R,
    alloc: Global,
    shared: &'s Shared<'x, T>,
    desk: &'s Desk<W>,
    flusher: Flusher<D>,
    runner: Runner,
    follower: &mut Follower<W>,
    seated: Vec<Seated<W, C>>,
) -> Result<Remains<D, C>, Refusal>
    requires { AreJoined flusher runner }
{
    thread::scope(
        thread::scope_env(),
        rt,
        |scope|
            requires { IsSend D.row × IsSend C.row }
        {
            let threading = Threading {
                flusher: start_flusher(scope, rt, alloc, shared, desk, flusher),
                runner: start_loop(scope, rt, shared, desk, runner),
                clients: start_clients(scope, rt, alloc, shared, desk, seated),
            };
            if !threading.is_whole() {
                shared.running.fail(rt, desk.node, Refusal::OutOfMemory);
            }
            publish_all(rt, alloc, shared, desk, follower);
            desk.ring_all();
            threading.join(rt, alloc)
        },
    )
}

/// Runs the threads of a node at the ends of its window, and closes that. It is `OutOfMemory`.
fn run_crew<
    W: WindowName + Send + Sync,
    D: Disk + Drop + Send,
    T: Turnstile + Sync,
    R: Threads + Wait + Clock + Sync,
    C: Client + Drop + Send,
>(
    rt: &R,
    alloc: Global,
    shared: &Shared<'_, T>,
    crew: Crew<D>,
    ends: Ends<W, C>,
    counters: Vec<Counter<W>>,
) -> Result<Remains<D, C>, Refusal>
    requires joined { AreJoined crew.flusher crew.runner }
    requires fresh { listed ends.follower ≡ [] }
{
    let Crew {
        start,
        node,
        core,
        flusher,
        runner,
    } = crew;
    let Ends {
        mut follower,
        seated,
        seats: _seats,
    } = ends;
    let first = publish_first(rt, &core, &mut follower);
    let desk: Desk<W> = Desk::new(node, start, Locked::new(core), counters);
    match first {
        Ok(published) => desk.note_up(shared, published),
        Err(refusal) => {
            shared.fail(rt, node, refusal);
        }
    }
    let remains = run_threads(
        rt,
        alloc,
        shared,
        &desk,
        flusher,
        runner,
        &mut follower,
        seated,
    );
    follower.close(rt);
    remains
}

/// Opens the window of a node that is up, and runs its threads. It is `OutOfMemory` or `SeatsTaken`.
fn run_window<
    W: WindowName + Send + Sync,
    D: Disk + Drop + Send,
    T: Turnstile + Sync,
    R: Threads + Wait + Clock + Sync,
    C: Client + Drop + Send,
>(
    rt: &R,
    alloc: Global,
    shared: &Shared<'_, T>,
    part: Part<D>,
    clients: Vec<C>,
    list: NewList,
) -> Result<Remains<D, C>, Refusal>
    requires { list ≡ W.book }
{
    let hand_overs = open_hand_overs(alloc)?;
    let counters = counters_for(alloc, clients.len())?;
    match open_ends::<W, C, R>(rt, alloc, list, clients) {
        Ok(ends) => {
            let crew = share_out(part, hand_overs);
            run_crew(rt, alloc, shared, crew, ends, counters)
        }
        Err(refusal) => Err(refusal),
    }
}

/// Runs a node that is up for these clients, until it goes down. It is `OutOfMemory` or `SeatsTaken`.
pub fn run_part<
    D: Disk + Drop + Send,
    T: Turnstile + Sync,
    R: Threads + Wait + Clock + Sync,
    C: Client + Drop + Send,
>(
    rt: &R,
    alloc: Global,
    shared: &Shared<'_, T>,
    part: Part<D>,
    clients: Vec<C>,
) -> Result<Remains<D, C>, Refusal> {
    run_window::<Brand, D, T, R, C>(rt, alloc, shared, part, clients, NewList::new())
}
