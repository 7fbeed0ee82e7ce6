//! A run in which a node is stopped while many commands are decided.

use super::asking::{TURNS, disks_for, node_of, numbered, rest};
use rr_text::Answer;
use rr_threads::{Client, Handle, Switches, run_switched};
use rr_turn::{Place, Turnstile};
use rr_types::{Command, Name, NodeId, Nodes, Op, Refusal, RequestNo, Value};
use rr_window::WindowName;
use std::alloc::Global;
use std::process::Abort;
use std::sync::Wait;
use std::sync::atomic::{AtomicBool, AtomicU64, Ordering};
use std::thread::{Parker, Threads};
use std::time::{Clock, Duration};

/// How many commands are decided while the node is down: at one a tick they would take longer than a test may.
const COMMANDS: u64 = 2_000;

/// How many while it is held up: its inbox has room for the messages of some 60. The others it may get at one a tick.
const FEW: u64 = 120;

/// How many where a tick is as long as `LONG_TICK`: the same as for `COMMANDS`.
const SOME: u64 = 400;

/// A tick that is long enough to hold a node up for more than one and fewer than five, in milliseconds.
const LONG_TICK: u64 = 200;

/// For so long, in milliseconds, who proposes is held up.
const HOLD: u64 = 300;

/// Before so many calls on its disk the node has few of the commands: nine calls are its opening, and four a flush.
const CALLS: u64 = 49;

/// The node that proposes in the first rounds.
const PROPOSER: u8 = 1;

/// How a node comes to be behind, and what happens while it catches up.
#[derive(Clone, Copy, Debug, PartialEq, Eq)]
enum Course {
    /// It is stopped, and started once the commands are decided.
    Started,
    /// The same, and it is stopped and started again while it catches up.
    StoppedAgain,
    /// It is stopped, started at once, and its opening is held up until the commands are decided.
    HeldUp,
    /// The same. Who proposes is held up then, so that it hears of the last decision by another node before the last proposal.
    DecisionFirst,
}

impl Course {
    fn is_held_up(self) -> bool {
        matches!(self, Course::HeldUp | Course::DecisionFirst)
    }

    /// The number of the last command.
    fn last(self) -> u64 {
        match self {
            Course::Started | Course::StoppedAgain => COMMANDS,
            Course::HeldUp => FEW,
            Course::DecisionFirst => SOME,
        }
    }
}

/// The course, the switches, the node that is stopped, and how many commands and looks were answered as they have to be.
#[derive(Drop)]
struct Shared {
    course: Course,
    switches: Switches,
    node: NodeId,
    right: AtomicU64,
    /// Whether the opening of the node is held up.
    is_held: AtomicBool,
    /// Whether all commands are decided.
    are_decided: AtomicBool,
    /// Whether the loop of the node that proposes is held up.
    is_resting: AtomicBool,
    /// How many calls on its disk the node was about to make since all commands are decided.
    calls: AtomicU64,
}

impl Shared {
    fn new(alloc: Global, course: Course, nodes: Nodes, node: NodeId) -> Result<Shared, Refusal> {
        let switches = Switches::new(alloc, nodes)?;
        let switches = if course == Course::DecisionFirst {
            switches.with_tick(Duration::from_millis(LONG_TICK))
        } else {
            switches
        };
        Ok(Shared {
            course,
            switches,
            node,
            right: AtomicU64::new(0),
            is_held: AtomicBool::new(false),
            are_decided: AtomicBool::new(false),
            is_resting: AtomicBool::new(false),
            calls: AtomicU64::new(0),
        })
    }

    /// Waits until a flag stands so.
    fn wait_for<R: Wait>(&self, rt: &R, flag: &AtomicBool, wanted: bool) {
        for _ in 0..TURNS {
            if flag.load(Ordering::SeqCst) == wanted {
                break;
            }
            rest(rt);
        }
    }

    /// Waits until the node is down.
    fn wait_until_down<R: Wait>(&self, rt: &R) {
        for _ in 0..TURNS {
            if !self.switches.is_on(self.node) && !self.switches.is_up(self.node) {
                break;
            }
            self.switches.wait(rt);
        }
    }
}

/// Holds up the opening of the node, as long as that is held, and then for a while who proposes; or stops the node while it
/// catches up.
#[derive(Drop)]
struct Gate<'s, R> {
    rt: &'s R,
    shared: &'s Shared,
}

impl<'s, R: Wait> Gate<'s, R> {
    /// The node is about to call its disk.
    fn pass_node(&self) {
        let shared = self.shared;
        shared.wait_for(self.rt, &shared.is_held, false);
        let counts = shared.course == Course::StoppedAgain
            && shared.are_decided.load(Ordering::SeqCst);
        if counts && shared.calls.fetch_add(1, Ordering::SeqCst) == CALLS {
            shared.switches.stop(shared.node);
        }
    }

    /// The node that proposes has answered a submit.
    fn pass_proposer(&self) {
        let shared = self.shared;
        shared.is_resting.store(true, Ordering::SeqCst);
        shared.wait_for(self.rt, &shared.is_held, false);
        Parker::new().park_timeout(self.rt, Duration::from_millis(HOLD));
    }
}

impl<'s, R: Wait> Turnstile for Gate<'s, R> {
    fn pass(&self, node: NodeId, place: Place) {
        if node.index() == self.shared.node.index() {
            self.pass_node();
        } else if node.index() == PROPOSER && place == Place::AfterSubmit {
            self.pass_proposer();
        }
    }
}

/// Whose client it is: of another node, which stops the node and starts it; of the node itself, and how many lives it has had;
/// or of the node that proposes.
#[derive(Drop)]
enum Role {
    Host,
    Own(u32),
    Proposer,
}

/// A client, and what it shares with the others.
#[derive(Drop)]
struct Guest<'s> {
    shared: &'s Shared,
    role: Role,
}

/// The command of this number: it claims the name `a`, gives it a value, or claims the name `b`, as the last.
fn command(seq: u64, last: u64) -> Result<Command, Refusal> {
    let value = Value::new(b"x")?;
    let op = if seq == 0 {
        Op::Claim(Name::new(b"a")?, value)
    } else if seq == last {
        Op::Claim(Name::new(b"b")?, value)
    } else {
        Op::Update(Name::new(b"a")?, value)
    };
    let request = RequestNo { client: 7, seq };
    Ok(Command { request, op })
}

/// Asks for a command, and counts its acknowledgement.
fn ask<W: WindowName, T: Turnstile, R: Wait>(
    shared: &Shared,
    handle: &mut Handle<'_, '_, W, T, R>,
    seq: u64,
) -> Result<(), Refusal> {
    let answer = handle.submit_within(TURNS, &command(seq, shared.course.last())?);
    if matches!(answer, Answer::Acknowledged { .. }) {
        shared.right.fetch_add(1, Ordering::SeqCst);
    }
    Ok(())
}

/// Stops the node, has all commands decided, starts the node if it wasn't started before, and asks for nothing more.
fn ask_all<W: WindowName, T: Turnstile, R: Wait>(
    shared: &Shared,
    handle: &mut Handle<'_, '_, W, T, R>,
) -> Result<(), Refusal> {
    shared.switches.stop(shared.node);
    shared.wait_until_down(handle.rt());
    if shared.course.is_held_up() {
        shared.is_held.store(true, Ordering::SeqCst);
        shared.switches.start(shared.node);
    }
    for seq in 0..=shared.course.last() {
        ask(shared, handle, seq)?;
    }
    shared.are_decided.store(true, Ordering::SeqCst);
    if shared.course == Course::DecisionFirst {
        shared.wait_for(handle.rt(), &shared.is_resting, true);
    }
    shared.is_held.store(false, Ordering::SeqCst);
    shared.switches.start(shared.node);
    if shared.course == Course::StoppedAgain {
        shared.wait_until_down(handle.rt());
        shared.switches.start(shared.node);
    }
    Ok(())
}

/// Looks at the last name until it is bound, or the node goes down.
fn look_for_the_last<W: WindowName, T: Turnstile, R: Wait>(
    shared: &Shared,
    handle: &mut Handle<'_, '_, W, T, R>,
) -> Result<(), Refusal> {
    let name = Name::new(b"b")?;
    for _ in 0..TURNS {
        if matches!(handle.look(&name), Answer::Bound { .. }) {
            shared.right.fetch_add(1, Ordering::SeqCst);
            break;
        }
        if handle.is_over() {
            return Err(Refusal::Down);
        }
        rest(handle.rt());
    }
    Ok(())
}

/// Waits until the node goes down.
fn wait_for_the_end<W: WindowName, T: Turnstile, R: Wait>(
    handle: &mut Handle<'_, '_, W, T, R>,
) -> Result<(), Refusal> {
    for _ in 0..TURNS {
        if handle.is_over() {
            break;
        }
        rest(handle.rt());
    }
    Err(Refusal::Down)
}

impl<'s> Client for Guest<'s> {
    fn run<W: WindowName, T: Turnstile, R: Wait>(
        &mut self,
        handle: &mut Handle<'_, '_, W, T, R>,
    ) -> Result<(), Refusal> {
        let shared = self.shared;
        match self.role {
            Role::Host => ask_all(shared, handle),
            Role::Own(0) => {
                self.role = Role::Own(1);
                wait_for_the_end(handle)
            }
            Role::Own(_) => look_for_the_last(shared, handle),
            Role::Proposer => {
                shared.wait_for(handle.rt(), &shared.are_decided, true);
                ask(shared, handle, 0)
            }
        }
    }
}

/// Whose client the node at `place` has, if it has one.
fn role_at(place: u8, index: u8, course: Course) -> Option<Role> {
    if place == 0 {
        Some(Role::Host)
    } else if place == index {
        Some(Role::Own(0))
    } else if course == Course::DecisionFirst {
        Some(Role::Proposer)
    } else {
        None
    }
}

/// Of three nodes the one with this number comes to be behind on this course: how many commands and looks were answered as they have
/// to be.
fn right_answers<R: Threads + Wait + Clock + Abort + AllocGlobal + Sync>(
    rt: &R,
    index: u8,
    course: Course,
) -> Result<u64, Refusal> {
    let nodes = numbered(rt, 3);
    let shared = Shared::new(rt.alloc(), course, nodes, node_of(rt, nodes, index))?;
    let mut clients = Vec::new(rt.alloc());
    for place in 0..3u8 {
        let mut own = Vec::new(rt.alloc());
        if let Some(role) = role_at(place, index, course) {
            let shared = &shared;
            own.push(Guest { shared, role })?;
        }
        clients.push(own)?;
    }
    let disks = disks_for(rt, nodes);
    let gate = Gate {
        rt,
        shared: &shared,
    };
    let switches = &shared.switches;
    run_switched(rt, rt.alloc(), nodes, disks, clients, &gate, switches)?;
    Ok(shared.right.load(Ordering::SeqCst))
}

#[test]
fn a_started_node_catches_up_where_nothing_is_asked_any_more(rt: HostRuntime) {
    assert!(rt; right_answers(&rt, 2, Course::Started).expect(&rt, "a run") == COMMANDS + 2);
}

#[test]
fn a_started_coordinator_catches_up_too(rt: HostRuntime) {
    assert!(rt; right_answers(&rt, 1, Course::Started).expect(&rt, "a run") == COMMANDS + 2);
}

/// In its next life it begins with what it had heard.
#[test]
fn a_node_that_is_stopped_while_it_catches_up_goes_on(rt: HostRuntime) {
    assert!(rt; right_answers(&rt, 2, Course::StoppedAgain).expect(&rt, "a run") == COMMANDS + 2);
}

#[test]
fn a_coordinator_that_is_stopped_while_it_catches_up_goes_on(rt: HostRuntime) {
    assert!(rt; right_answers(&rt, 1, Course::StoppedAgain).expect(&rt, "a run") == COMMANDS + 2);
}

/// The inbox of a node that is held up has no room for what comes last. It is late, and put again.
#[test]
fn a_node_hears_what_found_no_room_in_its_inbox(rt: HostRuntime) {
    assert!(rt; right_answers(&rt, 2, Course::HeldUp).expect(&rt, "a run") == FEW + 2);
}

/// Of what is late the decision comes by one node, and some ticks later the proposal of its instance by another.
#[test]
fn a_node_that_hears_the_last_decision_first_catches_up_too(rt: HostRuntime) {
    assert!(rt; right_answers(&rt, 2, Course::DecisionFirst).expect(&rt, "a run") == SOME + 3);
}
