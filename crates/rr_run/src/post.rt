//! Where a shell leaves what it asks, and the nodes' clients the answers.

ghost use Rattle.std.specs.Prelude.{◌≡◌, IfSome};
ghost use Rattle.rr_run.specs.Boards.{any_call};
ghost use Rattle.rr_run.specs.Questions.{node_of};

use crate::asking::{Question, Told};
use crate::board::Board;
use crate::disputes::Disputed;
use crate::ending::{Ended, Ending, Seen};
use rr_threads::{Dispute, Switches};
use rr_types::{Command, Name, NodeId, NodeSet, Nodes, Op, Refusal, Value, made_of};
use std::alloc::Global;
use std::mem;
use std::sync::atomic::{AtomicBool, Ordering};
use std::sync::{Mutex, Wait};
use std::thread::Parker;
use std::time::Duration;

/// The longest rest of a thread that is rung for all that comes, in microseconds.
const REST: u64 = 50_000;

/// How long a shell that watches waits between two looks for changes, in microseconds.
const WATCH_REST: u64 = 20_000;

/// That there is something that a node's client is to see. Only a board gives this, once there is.
#[derive(Drop)]
pub(crate) struct Cause {
    node: NodeId,
}

/// What lies there.
#[derive(Drop)]
enum Slip {
    Nothing,
    Asked(Question),
    Answered(Told),
}

/// What a shell and the clients of the nodes share: one question or its answer, how the run has ended, their bells, and the
/// switches of the nodes.
#[derive(Drop)]
pub(crate) struct Post {
    pub(crate) switches: Switches,
    slip: Mutex<Slip>,
    ending: Ending,
    is_closed: AtomicBool,
    shell: Parker,
    clients: Vec<Parker>,
}

// Switches of nodes that tick so often. Those of nodes that are left out are off.
fn switches_without(
    alloc: Global,
    nodes: Nodes,
    tick: Duration,
    without: NodeSet,
) -> Result<Switches, Refusal> {
    let switches = Switches::new(alloc, nodes)?.with_tick(tick);
    for index in 0..nodes.count() {
        if let Some(node) = NodeId::new(nodes, index) {
            if without.contains(node) {
                switches.stop(node);
            }
        }
    }
    Ok(switches)
}

impl Post {
    /// A post for `nodes` nodes, of which nothing is asked yet, and which tick so often. Those that are left out are to be down.
    pub(crate) fn new(
        alloc: Global,
        nodes: Nodes,
        tick: Duration,
        without: NodeSet,
    ) -> Result<Post, Refusal> {
        let mut clients = Vec::new(alloc);
        for _ in 0..nodes.count() {
            clients.push(Parker::new())?;
        }
        Ok(Post {
            switches: switches_without(alloc, nodes, tick, without)?,
            slip: Mutex::new(Slip::Nothing),
            ending: Ending::new(),
            is_closed: AtomicBool::new(false),
            shell: Parker::new(),
            clients,
        })
    }

    /// What is asked of this node.
    pub(crate) fn take_question<R: Wait>(&self, rt: &R, node: NodeId) -> Option<Question>
        ensures { IfSome result (λ question. node_of question ≡ node) }
    {
        let mut slip = self.slip.lock(rt);
        let question = match &*slip {
            Slip::Asked(question) => *question,
            _ => return None,
        };
        if question.node().index() != node.index() {
            return None;
        }
        *slip = Slip::Nothing;
        Some(question)
    }

    /// Leaves what is told, and rings for the shell.
    pub(crate) fn answer<R: Wait>(&self, rt: &R, told: Told) {
        *self.slip.lock(rt) = Slip::Answered(told);
        self.shell.unpark();
    }

    /// A node's client waits until it is rung for, or a while.
    pub(crate) fn wait_at<R: Wait>(&self, rt: &R, node: NodeId) {
        if let Some(bell) = self.clients.get(usize::from(node.index())) {
            bell.park_timeout(rt, Duration::from_micros(REST));
        }
    }

    /// Whether nothing is asked any more.
    pub(crate) fn is_closed(&self) -> bool {
        self.is_closed.load(Ordering::SeqCst)
    }

    /// Nothing is asked any more, and no node is started.
    pub(crate) fn close(&self) {
        self.is_closed.store(true, Ordering::SeqCst);
        self.switches.close();
        for bell in &self.clients {
            bell.unpark();
        }
    }

    /// The run has ended, by a refusal or without one. Nothing is answered any more.
    pub(crate) fn end<R: Wait>(&self, rt: &R, refusal: Option<Refusal>) -> Ended
        ensures { result.refusal ≡ refusal }
    {
        let ended = self.ending.note(rt, refusal);
        self.switches.close();
        self.shell.unpark();
        ended
    }

    /// The dispute over which a node went down, the lowest one's, if one went down over one and hasn't been started since.
    pub(crate) fn disputed<R: Wait>(&self, rt: &R, nodes: Nodes) -> Option<Disputed> {
        made_of!(Command, Name, Op, Value);
        for index in 0..nodes.count() {
            let node = NodeId::new(nodes, index)?;
            if let Some(dispute) = self.switches.dispute(rt, node) {
                return Some(Disputed { node, dispute });
            }
        }
        None
    }

    /// The refusal by which the run has ended, if one has; or else that by which a node went down, the lowest one's.
    pub(crate) fn into_refusal<R: Wait>(self, rt: &R, nodes: Nodes) -> Option<Refusal> {
        let Post {
            switches,
            slip: _,
            ending,
            is_closed: _,
            shell: _,
            clients: _,
        } = self;
        match ending.into_refusal() {
            Some(refusal) => Some(refusal),
            None => first_failure(rt, nodes, &switches),
        }
    }
}

// The refusal by which the lowest node went down that went down by one and hasn't been started since.
fn first_failure<R: Wait>(rt: &R, nodes: Nodes, switches: &Switches) -> Option<Refusal> {
    for index in 0..nodes.count() {
        let node = NodeId::new(nodes, index)?;
        if let Some(refusal) = switches.failure(rt, node) {
            return Some(refusal);
        }
    }
    None
}

/// A shell at a post, as its board.
#[derive(Drop)]
pub(crate) struct AtPost<'x> {
    pub(crate) post: &'x Post,
}

impl Board for AtPost<'_> {
    ghost gives = { any_call };

    fn is_on(&self, node: NodeId) -> bool {
        self.post.switches.is_on(node)
    }

    fn is_up(&self, node: NodeId) -> bool {
        self.post.switches.is_up(node)
    }

    fn have_all_begun(&self) -> bool {
        self.post.switches.have_all_begun()
    }

    fn failure<R: Wait>(&self, rt: &R, node: NodeId) -> Option<Refusal> {
        self.post.switches.failure(rt, node)
    }

    fn dispute<R: Wait>(&self, rt: &R, node: NodeId) -> Option<Dispute> {
        self.post.switches.dispute(rt, node)
    }

    fn turn_off(&mut self, node: NodeId) -> Cause {
        self.post.switches.stop(node);
        Cause { node }
    }

    fn turn_on(&mut self, node: NodeId) {
        self.post.switches.start(node);
    }

    fn leave<R: Wait>(&mut self, rt: &R, question: &Question) -> Cause {
        *self.post.slip.lock(rt) = Slip::Asked(*question);
        Cause {
            node: question.node(),
        }
    }

    fn ring(&mut self, cause: &Cause) {
        if let Some(bell) = self.post.clients.get(usize::from(cause.node.index())) {
            bell.unpark();
        }
    }

    fn look_at_end(&self) -> Seen {
        self.post.ending.look(false)
    }

    fn look_at(&self, node: NodeId) -> Seen {
        let is_gone = !self.is_on(node) && !self.is_up(node);
        self.post.ending.look(is_gone)
    }

    fn take<R: Wait>(&mut self, rt: &R, seen: &Seen) -> Option<Told> {
        let mut slip = self.post.slip.lock(rt);
        match mem::replace(&mut *slip, Slip::Nothing) {
            Slip::Answered(told) => Some(told),
            // (the question is withdrawn: the node's next life would answer it)
            _ if seen.is_gone() => Some(Told::Gone),
            other => {
                *slip = other;
                None
            }
        }
    }

    fn ending(&self) -> Refusal {
        self.post.ending.refusal()
    }

    fn rest<R: Wait>(&self, rt: &R) {
        self.post
            .shell
            .park_timeout(rt, Duration::from_micros(REST));
    }

    fn wait<R: Wait>(&self, rt: &R) {
        self.post.switches.wait(rt);
    }

    fn linger<R: Wait>(&self, rt: &R) {
        self.post
            .shell
            .park_timeout(rt, Duration::from_micros(WATCH_REST));
    }
}
