//! The core of a node: a state machine without input and output.

ghost use Rattle.std.specs.Prelude.{◌≡◌, ◌≢◌, ◌^◌, ◌<◌, ◌≤◌, ◌⊎◌, true, None, Some, Err, [], length, slice_get, IfOk, IfErr, IfSome, IsSome, MatchOption, OnOk, OnErr};
ghost use Rattle.rr_model.specs.NodeState.{decided_prefix};
ghost use Rattle.rr_model.specs.NodeStep.{node_step, input_refusal, refusal_of, group_taken, running_group, group_put_back, marked_running, next_leaving, message_left, next_acknowledged, acknowledged, started};
ghost use Rattle.rr_types.specs.declared.refusal.Refusal.{Refusal};
ghost use Rattle.rr_types.specs.Promises.{all_fit};
ghost use Rattle.rr_types.specs.Registry.{registry_of, reply_of};
ghost use Rattle.rr_core.specs.Steps.{combined};
ghost use Rattle.rr_core.specs.Changes.{is_repeated};
ghost use Rattle.rr_core.specs.Taken.{CanBeTaken};
ghost use Rattle.rr_core.specs.Covered.{LeavesCovered};
ghost use Rattle.rr_core.specs.Marks.{IsFreeOrBacked, mark_of};

use crate::cleared::Cleared;
use crate::group::{commands_after, is_running_group, mark_running, put_back, take_group};
use crate::input::{input_refusal, input_step};
use crate::leaving::{Searched, is_any_answered, take_acknowledged, take_leaving};
use crate::mark::Mark;
use crate::prefix::registry_of_prefix;
use crate::start::started;
use crate::state::State;
use crate::step::Changes;
use rr_journal::{Opened, Synced};
use rr_registry::{Entries, Registry};
use rr_types::{
    Command, Group, Input, Instance, Message, NodeId, NodeSet, Nodes, Promise, Refusal, Reply,
    RequestNo,
};
use std::alloc::{AllocError, Global};
use std::marker::Model;

/// A node that is up, as a value: it is told what happens, stages facts, and owes messages and
/// acknowledgements. After each refusal it is as it was.
#[derive(Drop)]
pub struct Core {
    alloc: Global,
    state: Box<State>,
    // behind the marked facts
    mark: Mark,
    // what the last step changed, whose memory the next one takes; none where that step was refused
    room: Option<Box<Changes>>,
    registry: Registry,
    searched: Searched,
}

impl Model for Core {
    ghost use Rattle.rr_model.specs.NodeState.{NodeState};
    ghost use Rattle.std.specs.Prelude.{◌≡◌};
    ghost use Rattle.rr_core.specs.Kept.{IsKept};
    ghost use Rattle.rr_core.specs.Marks.{mark_of};
    ghost use Rattle.rr_core.specs.Searched.{IsSearched};

    ghost Value = { NodeState };

    ghost view = { λ c. c.state.value };

    ghost invariant = { λ c. IsKept c.state.value c.registry × IsSearched c.searched.count c.searched.is_stale c.state.value × (c.mark ≡ mark_of c.state.value) };
}

/// The state of a node after its opening.
fn start_state(alloc: Global, opened: &Opened) -> Result<State, AllocError>
    ensures ok { IfOk result (λ s. s ≡ started opened.now.nodes opened.now.node opened.now.promise opened.now.next) }
    ensures mark { IfOk result (λ s. mark_of s ≡ record { node = opened.now.node; end = opened.now.next }) }
{
    started(
        alloc,
        opened.nodes(),
        opened.node(),
        opened.promise(),
        opened.next(),
    )
}

impl Core {
    /// A node after its opening, with the promise that this opening found, and the number of the next fact: it owes
    /// the restatement of its open instances.
    pub fn start(alloc: Global, opened: &Opened) -> Result<Core, AllocError>
        ensures ok { IfOk result (λ core. core ≡ started opened.now.nodes opened.now.node opened.now.promise opened.now.next) }
    {
        // That a promise ascends and that a fact's number has 64 bits is told by these calls alone.
        let _entries = opened.promise().entries();
        let _next = opened.next();
        let state = start_state(alloc, opened)?;
        match registry_of_prefix(&state, alloc) {
            Ok(registry) => Ok(Core {
                alloc,
                state: Box::new(alloc, state)?,
                mark: Mark::opened(opened),
                room: None,
                registry,
                searched: Searched {
                    count: 0,
                    is_stale: false,
                },
            }),
            Err(refusal) => Err(refusal),
        }
    }

    /// The room of the last step, for another.
    fn take_room(&mut self) -> Result<Box<Changes>, AllocError>
        ensures same { self.new ≡ self.old }
    {
        match self.room.take() {
            Some(room) => Ok(room),
            None => {
                let room = Box::new(self.alloc, Changes::none(self.alloc, &self.state))?;
                Ok(room)
            }
        }
    }

    /// The core takes on what a step has changed.
    fn commit(&mut self, changes: Box<Changes>) -> Result<(), AllocError>
        requires { CanBeTaken self.old changes.value }
        ensures ok { OnOk result (self.new ≡ combined self.old changes.value) }
        ensures err { OnErr result (self.new ≡ self.old) }
    {
        if is_any_answered(&changes.waiting, &self.registry) {
            self.searched.is_stale = true;
        }
        let mut changes = changes;
        let absorbed = self.state.absorb(self.alloc, &mut changes);
        self.room = Some(changes);
        absorbed
    }

    /// Whether an input is a command whose request the decided prefix holds.
    #[tactic(auto, using(crate::proofs::TakenLemmas::held))]
    fn is_repeated(&self, input: &Input<Message>) -> bool
        ensures { result ≡ is_repeated input.now self.now }
    {
        match input {
            Input::Submit(command) => self.registry.reply(command.request).is_some(),
            _ => false,
        }
    }

    /// The node is told this. It is refused for what it is even where memory runs out: a new command while all instances
    /// are decided here is `ListFull`, and an advance out of the last round `RoundsOut`. It is `TooLarge` where a fact
    /// would have no number.
    pub fn step(&mut self, input: &Input<Message>) -> Result<(), Refusal>
        ensures ok { OnOk result (self.new ≡ node_step input.now self.old) }
        ensures allowed { OnOk result (refusal_of input.now self.old ≡ None) }
        ensures order { (e : Refusal) → input_refusal input.now self.old ≡ Some e → result ≡ Err e }
        ensures refused { IfErr result (λ e. (e ≡ Refusal.OutOfMemory) ⊎ (refusal_of input.now self.old ≡ Some e)) }
        ensures err { OnErr result (self.new ≡ self.old) }
    {
        if let Some(refusal) = input_refusal(&self.state, input) {
            return Err(refusal);
        }
        let is_held = self.is_repeated(input);
        let room = self.take_room()?;
        match input_step(&self.state, room, self.alloc, input, is_held) {
            Ok(changes) => Ok(self.commit(changes)?),
            Err(refusal) => Err(refusal),
        }
    }

    /// The oldest staged facts, at most 64, as the group that runs from then on. `None`: nothing is staged. It is
    /// `Busy` while a group runs.
    pub fn take_group(&mut self) -> Result<Option<Group>, Refusal>
        ensures none { IfOk result (λ g. g ≡ None → (self.new ≡ self.old) × (self.old.staged ≡ [])) }
        ensures some { IfOk result (λ g. IsSome g → (self.new ≡ group_taken self.old) × (g ≡ running_group self.new)) }
        ensures there { IfOk result (λ g. IsSome g → self.old.staged ≢ []) }
        ensures free { OnOk result (self.old.running ≡ None) }
        ensures err { OnErr result (self.new ≡ self.old) }
        ensures refused { IfErr result (λ e. (e ≡ Refusal.OutOfMemory) ⊎ ((e ≡ Refusal.Busy) × IsSome self.old.running)) }
    {
        take_group(&mut self.state, self.alloc)
    }

    /// The running group is staged again, as before it was taken. It takes no memory. Another group is
    /// `StrangeMark`, and handed back.
    pub fn put_back(&mut self, group: Group) -> Result<(), (Refusal, Group)>
        ensures ok { OnOk result (self.new ≡ group_put_back self.old) }
        ensures own { OnOk result (running_group self.old ≡ Some group) }
        ensures strange { IfErr result (λ back. (back.0 ≡ Refusal.StrangeMark) × (back.1 ≡ group) × (running_group self.old ≢ Some group)) }
        ensures err { OnErr result (self.new ≡ self.old) }
    {
        if !is_running_group(&self.state, &group) {
            return Err((Refusal::StrangeMark, group));
        }
        put_back(&mut self.state);
        Ok(())
    }

    /// The running group, synced, is marked: its facts, which fit those marked before, are promised for good. Another
    /// group is `StrangeMark`.
    #[tactic(auto, using(crate::proofs::MarkLemmas::runs))]
    pub(crate) fn mark_group(&mut self, synced: &Synced) -> Result<(), Refusal>
        requires { synced.now.node ≡ self.old.node }
        ensures ok { OnOk result (self.new ≡ marked_running self.old) }
        ensures own { OnOk result (running_group self.old ≡ Some synced.now.group) }
        ensures fits { OnOk result (all_fit self.old.nodes self.old.node self.old.marked synced.now.group.facts ≡ true) }
        ensures refused { IfErr result (λ e. (e ≡ Refusal.OutOfMemory) ⊎ ((e ≡ Refusal.StrangeMark) × (running_group self.old ≢ Some synced.now.group))) }
        ensures err { OnErr result (self.new ≡ self.old) }
    {
        if !is_running_group(&self.state, synced.group()) {
            return Err(Refusal::StrangeMark);
        }
        let more = commands_after(&self.state, self.alloc)?;
        match self.registry.apply_all(&more) {
            Ok(()) => {
                self.mark = mark_running(&mut self.state, synced);
                Ok(())
            }
            Err(_) => Err(Refusal::OutOfMemory),
        }
    }

    /// A synced group is marked; its facts fit those marked before. One that isn't this node's running group is
    /// `StrangeMark`. It is handed back where it isn't marked.
    pub fn mark(&mut self, synced: Synced) -> Result<(), (Refusal, Synced)>
        ensures ok { OnOk result (self.new ≡ marked_running self.old) }
        ensures own { OnOk result ((synced.node ≡ self.old.node) × (running_group self.old ≡ Some synced.group)) }
        ensures fits { OnOk result (all_fit self.old.nodes self.old.node self.old.marked synced.group.facts ≡ true) }
        ensures back { IfErr result (λ back. back.1 ≡ synced) }
        ensures refused { IfErr result (λ back. (back.0 ≡ Refusal.OutOfMemory) ⊎ ((back.0 ≡ Refusal.StrangeMark) × ((synced.node ≢ self.old.node) ⊎ (running_group self.old ≢ Some synced.group)))) }
        ensures err { OnErr result (self.new ≡ self.old) }
    {
        if synced.node().index() != self.node().index() {
            return Err((Refusal::StrangeMark, synced));
        }
        match self.mark_group(&synced) {
            Ok(()) => {
                drop(synced.into_group());
                Ok(())
            }
            Err(refusal) => Err((refusal, synced)),
        }
    }

    /// The promise of the marked facts.
    pub fn marked_promise(&self, alloc: Global) -> Result<Promise, AllocError>
        ensures ok { IfOk result (λ promise. promise ≡ self.now.marked) }
    {
        let entries = self.state.instances.marked_entries(alloc)?;
        Ok(Promise::new(entries))
    }

    /// The oldest owed message that may leave: it is free, or the fact that backs it is marked. It takes no
    /// memory.
    #[tactic(auto, using(crate::proofs::MarkLemmas::left_kept))]
    pub fn next_message(&mut self) -> Option<Cleared>
        ensures taken { MatchOption result
            ((next_leaving self.old ≡ None) × (self.new ≡ self.old))
            (λ m. (next_leaving self.old ≡ Some m) × (self.new ≡ message_left self.old)) }
        ensures backed { IfSome result (IsFreeOrBacked (mark_of self.old) self.old.owed) }
    {
        take_leaving(&mut self.state, &self.mark)
    }

    /// The oldest waiting request that the decided prefix holds, with its reply there. It takes no memory.
    pub fn next_ack(&mut self) -> Option<(RequestNo, Reply)>
        ensures { MatchOption result
            ((next_acknowledged self.old ≡ None) × (self.new ≡ self.old))
            (λ a. (next_acknowledged self.old ≡ Some a.0) × (reply_of (decided_prefix self.old) a.0 ≡ Some a.1) × (self.new ≡ acknowledged self.old)) }
    {
        take_acknowledged(&mut self.state, &self.registry, &mut self.searched)
    }

    /// The registry's reply to a request, where the decided prefix holds it. It takes no memory. A host that serves
    /// several waiting clients asks it for each, and one that compares what it said with what was decided.
    pub fn reply(&self, request: RequestNo) -> Option<Reply>
        ensures { result ≡ reply_of (decided_prefix self.now) request }
    {
        self.registry.reply(request)
    }

    /// A law for the holder of a core between its calls: each owed message is the node's own, and one that may
    /// leave is free or backed by a marked fact. It does nothing when it runs.
    #[tactic(auto, using(crate::proofs::CoveredLemmas::all_covered))]
    pub fn leaves_covered(&self)
        ensures { LeavesCovered self.now }
    {
        self.state.owed.owes_own();
    }

    /// How many nodes there are.
    pub fn nodes(&self) -> Nodes
        ensures { result ≡ self.now.nodes }
    {
        self.state.nodes
    }

    /// Which node this is.
    pub fn node(&self) -> NodeId
        ensures { result ≡ self.now.node }
    {
        self.state.node
    }

    /// How many facts are marked.
    pub fn facts(&self) -> u64
        ensures { result ≡ self.now.marked_end }
    {
        self.state.marked_end
    }

    /// The nodes that it suspects to be down.
    pub fn suspects(&self) -> NodeSet
        ensures { result ≡ self.now.suspects }
    {
        self.state.suspects.output()
    }

    /// How many commands the decided prefix has.
    pub fn decided_count(&self) -> usize
        ensures { result ≡ length (decided_prefix self.now) }
    {
        self.state.instances.prefix_len()
    }

    /// The command at a place of the decided prefix. It takes no memory.
    pub fn decided(&self, place: Instance) -> Option<Command>
        ensures { result ≡ slice_get (decided_prefix self.now) place }
    {
        self.state.instances.command_at(place.number() as usize)
    }

    /// The command at a place of the decided prefix, for a caller that counts through it: `place` need not be the
    /// number of an instance. It takes no memory.
    pub fn decided_at(&self, place: usize) -> Option<Command>
        ensures { result ≡ slice_get (decided_prefix self.now) place }
    {
        self.state.instances.command_at(place)
    }

    /// The bound names of the decided prefix, in byte order, each with its holding.
    #[tactic(auto, using(crate::proofs::MarkLemmas::bindings_are))]
    pub fn bindings(&self) -> Entries<'_>
        ensures { result ≡ registry_of (decided_prefix self.now) }
    {
        self.registry.entries()
    }
}
