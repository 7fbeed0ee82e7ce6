//! The board by which a shell asks the clients of nodes, and stops and starts the nodes.

ghost use Rattle.std.specs.Prelude.{◌≡◌, true, false, None, IfOk, IfErr, IfSome, OnOk};
ghost use Rattle.rr_run.specs.Boards.{Call, finds_on, finds_up, finds_begun, finds_failed, finds_disputed, turns_off, turns_on, leaves, rings, takes, misses, finds_over, ends, IsTold, IsUnanswered, IsTurned, IsSwitched, IsCutOff};
ghost use Rattle.rr_run.specs.Questions.{node_of};

use crate::asking::{Question, Told};
use crate::ending::Seen;
use crate::post::Cause;
use rr_threads::Dispute;
use rr_types::{NodeId, Refusal};
use std::sync::Wait;

/// Where a shell leaves a question and takes the answer, with the bells of the nodes' clients, and the switches of the nodes. A
/// function over any board makes calls of it by these functions alone, so its clauses can name the calls that it made.
pub(crate) trait Board {
    /// That a call may have brought the board from one state to another, and was answered so. A call that only looks leaves it as it is.
    ghost gives: { Self → Call → Self → Type 0 };

    /// Whether a node hasn't been stopped since it was last started.
    fn is_on(&self, node: NodeId) -> bool
        ensures { gives self.now (finds_on node result) self.now };

    /// Whether a node is up.
    fn is_up(&self, node: NodeId) -> bool
        ensures { gives self.now (finds_up node result) self.now };

    /// Whether all nodes have begun: each is up, or has gone down again.
    fn have_all_begun(&self) -> bool
        ensures { gives self.now (finds_begun result) self.now };

    /// The refusal by which a node went down, if it went down by one and hasn't been started since.
    fn failure<R: Wait>(&self, rt: &R, node: NodeId) -> Option<Refusal>
        ensures { gives self.now (finds_failed node result) self.now };

    /// The decisions over which a node went down, if it has heard one against its own and hasn't been started since.
    fn dispute<R: Wait>(&self, rt: &R, node: NodeId) -> Option<Dispute>
        ensures { gives self.now (finds_disputed node result) self.now };

    /// A node is to go down.
    fn turn_off(&mut self, node: NodeId) -> Cause
        ensures off { gives self.old (turns_off node) self.new }
        ensures node { result.node ≡ node };

    /// A node is to come up.
    fn turn_on(&mut self, node: NodeId)
        ensures { gives self.old (turns_on node) self.new };

    /// Leaves a question.
    fn leave<R: Wait>(&mut self, rt: &R, question: &Question) -> Cause
        ensures left { gives self.old (leaves question.now) self.new }
        ensures node { result.node ≡ node_of question.now };

    /// Rings for a node's client, behind what it is to see.
    fn ring(&mut self, cause: &Cause)
        ensures { gives self.old (rings cause.now.node) self.new };

    /// Whether the run has ended by now, so that nothing is told any more.
    fn look_at_end(&self) -> Seen
        ensures { gives self.now (finds_over result.has_ended) self.now };

    /// The same behind a look at a node, whether it is down, so that it tells nothing any more.
    fn look_at(&self, node: NodeId) -> Seen
        ensures { gives self.now (finds_over result.has_ended) self.now };

    /// Takes what is told, once it lies there. It is looked for behind this look at the end of the run: where that saw the end, and
    /// nothing lies there, nothing is told any more. Where it saw that the node is down, and nothing lies there, that is told.
    fn take<R: Wait>(&mut self, rt: &R, seen: &Seen) -> Option<Told>
        ensures told { IfSome result (λ told. gives self.old (takes told) self.new) }
        ensures none { result ≡ None → gives self.old (misses seen.now.has_ended) self.new };

    /// The refusal by which the run has ended; `Down`, where it has ended without one.
    fn ending(&self) -> Refusal
        ensures { gives self.now (ends result) self.now };

    /// Waits until something is told, or a while.
    fn rest<R: Wait>(&self, rt: &R);

    /// Waits until a node comes up or goes down, or a while.
    fn wait<R: Wait>(&self, rt: &R);

    /// Waits a while, where the shell watches.
    fn linger<R: Wait>(&self, rt: &R);
}

/// Waits until all nodes have begun, so that they can be asked.
///
/// # Errors
/// The refusal by which the run has ended; `Down`, where it has ended without one.
pub(crate) fn wait_until_begun<B: Board, R: Wait>(board: &B, rt: &R) -> Result<(), Refusal>
    ensures ok { OnOk result (B.gives board.now (finds_begun true) board.now) }
    ensures err { IfErr result (λ e. IsCutOff B.gives e board.now) }
{
    for _ in rt.forever() {
        if board.have_all_begun() {
            return Ok(());
        }
        if board.look_at_end().has_ended() {
            return Err(board.ending());
        }
        board.wait(rt);
    }
    unreachable!()
}

/// Asks a node's client, and waits for the answer.
///
/// # Errors
/// As of `wait_until_begun`.
pub(crate) fn ask<B: Board, R: Wait>(
    board: &mut B,
    rt: &R,
    question: &Question,
) -> Result<Told, Refusal>
    ensures ok { IfOk result (λ told. IsTold B.gives question.now told board.old board.new) }
    ensures err { IfErr result (λ e. IsUnanswered B.gives question.now e board.old board.new) }
{
    let left = board.leave(rt, question);
    board.ring(&left);
    for _ in rt.forever() {
        let seen = board.look_at(question.node());
        if let Some(told) = board.take(rt, &seen) {
            return Ok(told);
        }
        if seen.has_ended() {
            return Err(board.ending());
        }
        board.rest(rt);
    }
    unreachable!()
}

// Turns a node's switch.
fn turn<B: Board>(board: &mut B, node: NodeId, is_on: bool)
    ensures { IsTurned B.gives node is_on board.old board.new }
{
    if is_on {
        board.turn_on(node);
    } else {
        let cause = board.turn_off(node);
        board.ring(&cause);
    }
}

/// Stops a node or starts it, and waits until it is down or up. Answers whether it is: a node that is started may fail.
///
/// # Errors
/// As of `wait_until_begun`.
pub(crate) fn switch<B: Board, R: Wait>(
    board: &mut B,
    rt: &R,
    node: NodeId,
    is_on: bool,
) -> Result<bool, Refusal>
    ensures ok { IfOk result (λ is_so. IsSwitched B.gives node is_on is_so board.old board.new) }
    ensures stop { is_on ≡ false → IfOk result (λ is_so. is_so ≡ true) }
    ensures err { IfErr result (λ e. IsTurned B.gives node is_on board.old board.new × IsCutOff B.gives e board.new) }
{
    turn(board, node, is_on);
    for _ in rt.forever() {
        if board.is_up(node) == is_on {
            return Ok(true);
        }
        if is_on && !board.is_on(node) {
            return Ok(false);
        }
        if board.look_at_end().has_ended() {
            return Err(board.ending());
        }
        board.wait(rt);
    }
    unreachable!()
}
