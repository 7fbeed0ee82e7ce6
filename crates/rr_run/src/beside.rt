//! A talk beside the threads of the nodes.

ghost use Rattle.std.specs.Prelude.{◌≡◌, if◌then◌else◌, None, Some};
ghost use Rattle.std.specs.Thread.{IsSend, IsSync};
ghost use Rattle.rr_shell.specs.Talks.{Talks};
ghost use Rattle.rr_run.specs.Endings.{refusal_of};

use crate::deciding::{Decided, decide};
use crate::ending::Ended;
use crate::post::Post;
use crate::teller::Teller;
use rr_disk::{Disk, Reopen};
use rr_shell::{Asked, Prompting, Stop, Trouble, talk};
use rr_stream::Sink;
use rr_threads::run_switched;
use rr_turn::Open;
use rr_types::{NodeId, Nodes, Refusal};
use std::sync::Wait;
use std::thread;
use std::thread::{Scope, Threads};
use std::time::Clock;

// Work that is done during a run. After a thread's scope, a reference is known only by what comes back from the scope,
// by this trait.
trait Work {
    type Output;

    ghost can_run: { Self → Type 0 };

    ghost gives: { Self → Self.Output → Type 0 };

    fn run(self) -> Self::Output
        requires { can_run self }
        ensures { gives self result };
}

// A closure that is lent.
#[derive(Drop)]
struct Lent<'a, F> {
    work: &'a mut F,
}

impl<'a, F: FnMut() -> A, A> Work for Lent<'a, F> {
    type Output = (&'a mut F, A);

    ghost can_run = { λ l. F.pre l.work.now };

    ghost gives = { λ l r. (r.0.ghost_name ≡ l.work.ghost_name) × F.step l.work.now r.1 r.0.now };

    fn run(self) -> (&'a mut F, A) {
        let Lent { work } = self;
        let given = work();
        (work, given)
    }
}

// Runs something, and notes that it has ended, by its refusal if it has one.
fn end_behind<R: Wait, F: FnOnce() -> Result<(), Refusal>>(rt: &R, post: &Post, run: F) -> Ended
    requires { F.pre run }
    ensures { (ran : _) × F.post run ran × (result.refusal ≡ refusal_of ran) }
{
    match run() {
        Ok(()) => post.end(rt, None),
        Err(refusal) => post.end(rt, Some(refusal)),
    }
}

// Runs the nodes until nothing is asked any more, or the run fails.
fn run_nodes<D: Disk + Reopen + Drop + Send, R: AllocGlobal + Threads + Wait + Clock + Sync>(
    rt: &R,
    nodes: Nodes,
    disks: Vec<D>,
    clients: Vec<Vec<Teller<'_>>>,
    post: &Post,
) -> Ended
    requires alike { (one other : D) → D.tells one → D.tells other }
{
    let switches = &post.switches;
    end_behind(
        rt,
        post,
        ||
            requires { (one other : D) → D.tells one → D.tells other }
        { run_switched(rt, rt.alloc(), nodes, disks, clients, &Open, switches) },
    )
}

// Where the nodes' thread isn't started, the run has ended.
fn end_unless<R: Wait>(rt: &R, post: &Post, is_started: bool) -> Option<Ended>
    ensures { result ≡ (if is_started then None else Some (record { refusal = Some Refusal.OutOfMemory })) }
{
    if is_started {
        None
    } else {
        Some(post.end(rt, Some(Refusal::OutOfMemory)))
    }
}

// Starts the nodes' thread. Where none can be made, the run has ended.
fn start_nodes<
    's,
    E,
    D: Disk + Reopen + Drop + Send + 's,
    R: AllocGlobal + Threads + Wait + Clock + Sync + 's,
>(
    scope: &Scope<'s, E>,
    rt: &'s R,
    nodes: Nodes,
    disks: Vec<D>,
    clients: Vec<Vec<Teller<'s>>>,
    post: &'s Post,
)
    requires alike { (one other : D) → D.tells one → D.tells other }
{
    let started = scope.spawn(
        move ||
            requires { (one other : D) → D.tells one → D.tells other }
        { run_nodes(rt, nodes, disks, clients, post) },
    );
    let _ended = end_unless(rt, post, started.is_ok());
}

// Does some work while the nodes run. Then they come to their end.
fn run_beside<
    D: Disk + Reopen + Drop + Send,
    R: AllocGlobal + Threads + Wait + Clock + Sync,
    T: Work<Output = A> + Drop,
    A,
>(rt: &R, nodes: Nodes, disks: Vec<D>, clients: Vec<Vec<Teller<'_>>>, post: &Post, work: T) -> A
    requires alike { (one other : D) → D.tells one → D.tells other }
    requires runs { T.can_run work }
    ensures { T.gives work result }
{
    thread::scope(
        thread::scope_env(),
        rt,
        move |scope|
            requires { IsSend D.row × IsSync R.row × ((one other : D) → D.tells one → D.tells other) × T.can_run work }
            ensures { T.gives work result }
        {
            start_nodes(scope, rt, nodes, disks, clients, post);
            let given = work.run();
            post.close();
            given
        },
    )
}

// Takes back what was lent. This use ties a reference that comes back to the one that was lent.
fn take_back<T>(lent: &mut T)
    ensures { lent.new ≡ lent.old }
{}

// Calls a closure while the nodes run.
fn call_beside<
    D: Disk + Reopen + Drop + Send,
    R: AllocGlobal + Threads + Wait + Clock + Sync,
    C: FnMut() -> A,
    A,
>(
    rt: &R,
    nodes: Nodes,
    disks: Vec<D>,
    clients: Vec<Vec<Teller<'_>>>,
    post: &Post,
    work: &mut C,
) -> A
    requires alike { (one other : D) → D.tells one → D.tells other }
    requires callable { C.pre work.old }
    ensures { C.step work.old result work.new }
{
    let (work, given) = run_beside(rt, nodes, disks, clients, post, Lent { work });
    take_back(work);
    given
}

/// Talks while the nodes run, first to this node.
pub(crate) fn talk_beside<
    D: Disk + Reopen + Drop + Send,
    R: AllocGlobal + Threads + Wait + Clock + Sync,
    I: Prompting,
    O: Sink + Send,
    A: Asked + Send + Drop,
>(
    rt: &R,
    nodes: Nodes,
    first: NodeId,
    disks: Vec<D>,
    clients: Vec<Vec<Teller<'_>>>,
    post: &Post,
    json: bool,
    strict: bool,
    asked: A,
    input: &mut I,
    out: &mut O,
) -> Result<Option<Trouble>, Stop>
    requires alike { (one other : D) → D.tells one → D.tells other }
    ensures { Talks A.did json strict nodes first (I.reading input.old) (I.reading input.new) (O.printing out.old) (O.printing out.new) result }
{
    let alloc = rt.alloc();
    let mut asked = asked;
    call_beside(
        rt,
        nodes,
        disks,
        clients,
        post,
        &mut || talk(
            alloc, nodes, first, json, strict, &mut asked, rt, input, out,
        ),
    )
}

/// Has the nodes decide while they run, until so many instances are decided.
pub(crate) fn decide_beside<
    D: Disk + Reopen + Drop + Send,
    R: AllocGlobal + Threads + Wait + Clock + Sync,
    A: Asked,
>(
    rt: &R,
    nodes: Nodes,
    disks: Vec<D>,
    clients: Vec<Vec<Teller<'_>>>,
    post: &Post,
    asked: A,
    least: u64,
) -> (Result<Decided, Refusal>, A)
    requires alike { (one other : D) → D.tells one → D.tells other }
{
    let mut asked = asked;
    let decided = call_beside(
        rt,
        nodes,
        disks,
        clients,
        post,
        &mut || decide(&mut asked, nodes, least),
    );
    (decided, asked)
}
