//! What lies under a node's lock.

ghost use Rattle.std.specs.Prelude.{◌≡◌, ◌≢◌, ◌⊎◌, [], true, None, Some, Err, IfOk, IfErr, IfSome, IsSome, MatchOption, OnOk, OnErr};
ghost use Rattle.rr_model.specs.NodeState.{decided_prefix};
ghost use Rattle.rr_model.specs.NodeStep.{node_step, input_refusal, refusal_of, group_taken, running_group, group_put_back, marked_running, next_leaving, message_left, next_acknowledged, acknowledged};
ghost use Rattle.rr_types.specs.Promises.{all_fit};
ghost use Rattle.rr_types.specs.Registry.{reply_of};
ghost use Rattle.rr_core.specs.Marks.{IsFreeOrBacked};
ghost use Rattle.rr_core.specs.Covered.{LeavesCovered};

use rr_core::{Cleared, Core};
use rr_journal::Synced;
use rr_types::{Group, Input, Message, NodeId, Refusal, Reply, RequestNo};
use std::marker::Model;

/// A node as its threads share it, one at a time. Whenever none of them is inside a call, each message that may leave is
/// the node's own, and is free or backed by a marked fact. Contracts see it as the node's state.
#[derive(Drop)]
pub struct Locked {
    core: Core,
}

impl Model for Locked {
    ghost use Rattle.rr_model.specs.NodeState.{NodeState};
    ghost use Rattle.rr_core.specs.Covered.{LeavesCovered};

    ghost Value = { NodeState };

    ghost view = { λ l. l.core };

    ghost invariant = { λ l. LeavesCovered l.core };
}

impl Locked {
    /// A node that has come up.
    pub fn new(core: Core) -> Locked
        ensures { result ≡ core }
    {
        core.leaves_covered();
        Locked { core }
    }

    /// Its core, to be read.
    pub fn core(&self) -> &Core
        ensures { result.now ≡ self.now }
    {
        &self.core
    }

    /// Which node it is.
    pub fn node(&self) -> NodeId
        ensures { result ≡ self.now.node }
    {
        self.core.node()
    }

    /// What the type keeps: each message that may leave is the node's own, and is free or backed by a marked fact. It
    /// does nothing when it runs.
    pub fn leaves_covered(&self)
        ensures { LeavesCovered self.now }
    {
        self.core.leaves_covered();
    }

    /// The kept reply to a request, which is that of the decided prefix of the marked facts.
    pub fn reply(&self, request: RequestNo) -> Option<Reply>
        ensures { result ≡ reply_of (decided_prefix self.now) request }
    {
        self.core.reply(request)
    }

    /// The node is told this. A new command while all instances are decided here is `ListFull`, an advance out of the last
    /// round `RoundsOut`, both even where memory runs out. It is `TooLarge` where a fact would have no number.
    pub fn step(&mut self, input: &Input<Message>) -> Result<(), Refusal>
        ensures ok { OnOk result (self.new ≡ node_step input.now self.old) }
        ensures allowed { OnOk result (refusal_of input.now self.old ≡ None) }
        ensures order { (e : Refusal) → input_refusal input.now self.old ≡ Some e → result ≡ Err e }
        ensures refused { IfErr result (λ e. (e ≡ Refusal.OutOfMemory) ⊎ (refusal_of input.now self.old ≡ Some e)) }
        ensures err { OnErr result (self.new ≡ self.old) }
    {
        let told = self.core.step(input);
        self.core.leaves_covered();
        told
    }

    /// The oldest staged facts, at most 64, as the group that runs from then on. `None`: nothing is staged. It is
    /// `Busy` while a group runs.
    pub fn take_group(&mut self) -> Result<Option<Group>, Refusal>
        ensures none { IfOk result (λ g. g ≡ None → (self.new ≡ self.old) × (self.old.staged ≡ [])) }
        ensures some { IfOk result (λ g. IsSome g → (self.new ≡ group_taken self.old) × (g ≡ running_group self.new)) }
        ensures there { IfOk result (λ g. IsSome g → self.old.staged ≢ []) }
        ensures free { OnOk result (self.old.running ≡ None) }
        ensures err { OnErr result (self.new ≡ self.old) }
        ensures refused { IfErr result (λ e. (e ≡ Refusal.OutOfMemory) ⊎ ((e ≡ Refusal.Busy) × IsSome self.old.running)) }
    {
        let taken = self.core.take_group();
        self.core.leaves_covered();
        taken
    }

    /// The running group is staged again, as before it was taken. It takes no memory. Another group is
    /// `StrangeMark`, and handed back.
    pub fn put_back(&mut self, group: Group) -> Result<(), (Refusal, Group)>
        ensures ok { OnOk result (self.new ≡ group_put_back self.old) }
        ensures own { OnOk result (running_group self.old ≡ Some group) }
        ensures strange { IfErr result (λ back. (back.0 ≡ Refusal.StrangeMark) × (back.1 ≡ group) × (running_group self.old ≢ Some group)) }
        ensures err { OnErr result (self.new ≡ self.old) }
    {
        let told = self.core.put_back(group);
        self.core.leaves_covered();
        told
    }

    /// A synced group is marked; its facts fit those marked before. One that isn't this node's running group is
    /// `StrangeMark`. It is handed back where it isn't marked.
    pub fn mark(&mut self, synced: Synced) -> Result<(), (Refusal, Synced)>
        ensures ok { OnOk result (self.new ≡ marked_running self.old) }
        ensures own { OnOk result ((synced.node ≡ self.old.node) × (running_group self.old ≡ Some synced.group)) }
        ensures fits { OnOk result (all_fit self.old.nodes self.old.node self.old.marked synced.group.facts ≡ true) }
        ensures back { IfErr result (λ back. back.1 ≡ synced) }
        ensures refused { IfErr result (λ back. (back.0 ≡ Refusal.OutOfMemory) ⊎ ((back.0 ≡ Refusal.StrangeMark) × ((synced.node ≢ self.old.node) ⊎ (running_group self.old ≢ Some synced.group)))) }
        ensures err { OnErr result (self.new ≡ self.old) }
    {
        let told = self.core.mark(synced);
        self.core.leaves_covered();
        told
    }

    /// The oldest owed message that may leave: it is free, or the fact that backs it is marked. It takes no memory.
    pub fn next_message(&mut self) -> Option<Cleared>
        ensures taken { MatchOption result
            ((next_leaving self.old ≡ None) × (self.new ≡ self.old))
            (λ m. (next_leaving self.old ≡ Some m) × (self.new ≡ message_left self.old)) }
        ensures backed { IfSome result (IsFreeOrBacked (record { node = self.old.node; end = self.old.marked_end }) self.old.owed) }
    {
        let message = self.core.next_message();
        self.core.leaves_covered();
        message
    }

    /// The oldest waiting request that the decided prefix holds, with its reply there, stops waiting. It takes no
    /// memory.
    pub fn acknowledge(&mut self) -> Option<(RequestNo, Reply)>
        ensures { MatchOption result
            ((next_acknowledged self.old ≡ None) × (self.new ≡ self.old))
            (λ a. (next_acknowledged self.old ≡ Some a.0) × (reply_of (decided_prefix self.old) a.0 ≡ Some a.1) × (self.new ≡ acknowledged self.old)) }
    {
        let next = self.core.next_ack();
        self.core.leaves_covered();
        next
    }
}
