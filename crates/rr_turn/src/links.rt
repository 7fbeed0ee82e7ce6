//! What a node's thread calls.

ghost use Rattle.std.specs.Prelude.{◌≡◌, [], Some, None, IfOk, IfErr, IfNone, IfSome, IsSome, OnOk};
ghost use Rattle.rr_types.specs.declared.input.Input.TheVariants as told;
ghost use Rattle.rr_types.specs.declared.refusal.Refusal.TheVariants.{RoundsOut};
ghost use Rattle.rr_model.specs.NodeStep.{node_step, refusal_of, next_leaving, message_left, group_taken, running_group, marked_running};
ghost use Rattle.rr_types.specs.Inputs.{HearsNothing};
ghost use Rattle.std.specs.Duration.{as_nanos};
ghost use Rattle.rr_turn.specs.Asked.{Call, reads_clock, rests, goes_on, tells, hears, marks, groups, leaves, puts, puts_late, rings, sees, takes, comes, hands, wakes_flusher, wakes_publisher, notices, counts, wants, refuses, passes};

use crate::bells::{FlusherRung, PublisherRung, Rung};
use crate::flusher::Unflushed;
use crate::locked::Locked;
use crate::sent::Sent;
use rr_journal::Synced;
use rr_types::{Command, Group, Input, Message, NodeId, Refusal};
use std::time::Duration;

/// What a node's thread has of the node and of others: the events that it has the node make, which may be recorded; the ends of inboxes
/// and hand-overs; bells; the node's clients; the clock, and its own rest. A function over any such links can change them by these calls
/// alone. So its clauses can name the calls that it made, in their order.
///
/// An error of an event is that of the node, or that the event has no place on the tape; then it may have been made.
pub trait Links {
    /// That a call may have brought the links from one state to another.
    ghost gives: { Self → Call → Self → Type 0 };

    /// The node is told this, which is no message.
    fn tell(&mut self, locked: &mut Locked, input: &Input<Message>) -> Result<(), Refusal>
        requires { HearsNothing input.now }
        ensures call { gives self.old (tells locked.old input.now result) self.new }
        ensures step { OnOk result ((locked.new ≡ node_step input.now locked.old) × (refusal_of input.now locked.old ≡ None)) }
        ensures rounds { IfErr result (λ e. e ≡ RoundsOut → (locked.new ≡ locked.old) × (refusal_of input.now locked.old ≡ Some RoundsOut)) };

    /// The node hears a message.
    fn hear(&mut self, locked: &mut Locked, sent: &Sent) -> Result<(), Refusal>
        ensures call { OnOk result (gives self.old (hears locked.old sent.now) self.new) }
        ensures step { OnOk result (locked.new ≡ node_step (told.Hear sent.now.message) locked.old) };

    /// The node's running group, synced, is marked.
    fn mark(&mut self, locked: &mut Locked, synced: Synced) -> Result<(), Refusal>
        ensures call { OnOk result (gives self.old (marks locked.old synced) self.new) }
        ensures step { OnOk result ((locked.new ≡ marked_running locked.old) × (running_group locked.old ≡ Some synced.group)) };

    /// The node's oldest staged facts are its running group from now on. It is `Busy` while a group runs.
    fn group(&mut self, locked: &mut Locked) -> Result<Option<Group>, Refusal>
        ensures call { gives self.old (groups locked.old result) self.new }
        ensures none { IfOk result (λ g. g ≡ None → (locked.new ≡ locked.old) × (locked.old.staged ≡ [])) }
        ensures some { IfOk result (λ g. IsSome g → (locked.new ≡ group_taken locked.old) × (g ≡ running_group locked.new)) };

    /// The oldest message that may leave does.
    fn send(&mut self, locked: &mut Locked) -> Result<Option<Sent>, Refusal>
        ensures call { IfOk result (λ s. gives self.old (leaves locked.old s) self.new) }
        ensures none { IfOk result (λ s. IfNone s ((next_leaving locked.old ≡ None) × (locked.new ≡ locked.old))) }
        ensures some { IfOk result (λ s. IfSome s (λ sent. (next_leaving locked.old ≡ Some sent.message) × (locked.new ≡ message_left locked.old))) };

    /// Puts a message into a node's inbox. Where that is full it is late, or lost.
    fn put(&mut self, to: NodeId, sent: Sent)
        ensures { gives self.old (puts to sent) self.new };

    /// Puts what is late into the inboxes.
    fn put_late(&mut self)
        ensures { gives self.old puts_late self.new };

    /// Rings for a node's thread.
    fn ring(&mut self, node: NodeId) -> Rung
        ensures call { gives self.old (rings node) self.new }
        ensures rung { result.node ≡ node };

    /// Whether nothing waits in the own inbox. To ask is cheaper than to make room for a message.
    fn is_idle(&mut self) -> bool
        ensures { gives self.old (sees result) self.new };

    /// Takes the oldest message of the own inbox.
    fn take(&mut self) -> Option<Sent>
        ensures { gives self.old (takes result) self.new };

    /// Takes what came back from the flusher.
    fn back(&mut self) -> Option<Result<Synced, Unflushed>>
        ensures { gives self.old (comes result) self.new };

    /// Gives a group to the flusher.
    fn give(&mut self, group: Group)
        ensures { gives self.old (hands group) self.new };

    /// Rings for the flusher.
    fn wake_flusher(&mut self) -> FlusherRung
        ensures { gives self.old wakes_flusher self.new };

    /// Rings for the publisher.
    fn wake_publisher(&mut self) -> PublisherRung
        ensures { gives self.old wakes_publisher self.new };

    /// Whether a client wanted a submit since the last call.
    fn is_wanted(&mut self) -> bool
        ensures { gives self.old (notices result) self.new };

    /// How many clients the node has.
    fn clients(&mut self) -> usize
        ensures { gives self.old (counts result) self.new };

    /// The command that the client at this place wants to be submitted, if there is one. It waits for the reply from now on.
    fn take_wanted(&mut self, place: usize) -> Option<Command>
        ensures { gives self.old (wants place result) self.new };

    /// The client at this place is told that its command is refused.
    fn refuse(&mut self, place: usize, refusal: Refusal)
        ensures { gives self.old (refuses place refusal) self.new };

    /// The node has answered so many submits.
    fn pass_submits(&mut self, count: usize)
        ensures { gives self.old (passes count) self.new };

    /// What the clock tells. It is `Device` where it can't be read.
    fn read_clock(&mut self) -> Result<Duration, Refusal>
        ensures { IfOk result (λ now. gives self.old (reads_clock (as_nanos now)) self.new) };

    /// Rests until someone rings for the thread, for so long at most; or returns at once, since what is waited for often comes soon.
    fn rest(&mut self, most: Duration)
        ensures { gives self.old (rests (as_nanos most)) self.new };

    /// A look has found something to do. So some more looks come before the next rest.
    fn go_on(&mut self)
        ensures { gives self.old goes_on self.new };
}
