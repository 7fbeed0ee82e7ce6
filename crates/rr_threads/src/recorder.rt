//! The tape of a run, under a lock of its own.
//!
//! No contract knows what lies under the lock. That `into_tape` gives what was recorded there is read.

ghost use Rattle.std.specs.Prelude.{◌≡◌, ◌&&◌, is_some, [], Some, None, IfOk, IfErr, IfNone, IfSome, IsSome, OnOk};
ghost use Rattle.rr_types.specs.Registry.{reply_of};
ghost use Rattle.rr_types.specs.declared.input.Input.TheVariants as told;
ghost use Rattle.rr_types.specs.declared.refusal.Refusal.TheVariants.{RoundsOut};
ghost use Rattle.rr_model.specs.NodeState.{decided_prefix};
ghost use Rattle.rr_model.specs.NodeStep.{node_step, refusal_of, group_taken, running_group, marked_running, next_acknowledged, acknowledged};
ghost use Rattle.rr_types.specs.Inputs.{HearsNothing};
ghost use Rattle.rr_threads.specs.Lacking.{may_lack};

use rr_journal::Synced;
use rr_text::Tape;
use rr_turn::{Locked, Recording, Sent, ack_on, hear_on, input_on, mark_on, take_on};
use rr_types::{Group, Input, Message, Nodes, Refusal, Reply, RequestNo};
use std::alloc::Global;
use std::sync::{Mutex, Wait};

/// Records the events of a run, of all its nodes, as they are made.
#[derive(Drop)]
pub struct Recorder {
    recording: Mutex<Recording>,
}

impl Recorder {
    /// A recorder of a run of these nodes.
    pub fn new(alloc: Global, nodes: Nodes) -> Recorder {
        Recorder {
            recording: Mutex::new(Recording::new(alloc, nodes)),
        }
    }

    /// What is recorded.
    pub(crate) fn recording(&self) -> &Mutex<Recording> {
        &self.recording
    }

    /// The tape.
    pub fn into_tape(self) -> Tape {
        let Recorder { recording } = self;
        recording.into_inner().into_tape()
    }
}

/// Has a node make its events, and records each in the same section where there is a recorder. Each call is that of the node, recorded or
/// not. An error is that of the node, or that the event has no place on the tape; then it may have been made.
#[derive(Drop)]
pub struct Scribe<'x, R> {
    rt: &'x R,
    pub(crate) recorder: Option<&'x Recorder>,
}

impl<'x, R> Scribe<'x, R> {
    /// One that records there, if there is a recorder.
    pub fn new(rt: &'x R, recorder: Option<&'x Recorder>) -> Scribe<'x, R>
        ensures { is_some result.recorder ≡ is_some recorder.entry }
    {
        Scribe { rt, recorder }
    }

    /// Whether a tape may lack an event that is refused so: it may have been made, and have no place.
    pub fn lacks(&self, refusal: &Refusal) -> bool
        ensures { result ≡ (is_some self.now.recorder && may_lack refusal.now) }
    {
        self.recorder.is_some() && may_lack(refusal)
    }
}

// Whether an event that is refused so may have been made, and have no place on its tape.
fn may_lack(refusal: &Refusal) -> bool
    ensures { result ≡ may_lack refusal.now }
{
    match refusal {
        Refusal::OutOfMemory => true,
        Refusal::BadEvent(_) => true,
        _ => false,
    }
}

impl<'x, R: Wait> Scribe<'x, R> {
    /// The node is told this, which is no message.
    pub fn tell(&self, locked: &mut Locked, input: &Input<Message>) -> Result<(), Refusal>
        requires { HearsNothing input.now }
        ensures step { OnOk result ((locked.new ≡ node_step input.now locked.old) × (refusal_of input.now locked.old ≡ None)) }
        ensures rounds { IfErr result (λ e. e ≡ RoundsOut → (locked.new ≡ locked.old) × (refusal_of input.now locked.old ≡ Some RoundsOut)) }
    {
        match self.recorder {
            None => locked.step(input),
            Some(recorder) => input_on(locked, &mut recorder.recording().lock(self.rt), input),
        }
    }

    /// The node hears a message.
    pub fn hear(&self, locked: &mut Locked, sent: &Sent) -> Result<(), Refusal>
        ensures { OnOk result (locked.new ≡ node_step (told.Hear sent.now.message) locked.old) }
    {
        match self.recorder {
            None => locked.step(&sent.input()),
            Some(recorder) => hear_on(locked, &mut recorder.recording().lock(self.rt), sent),
        }
    }

    /// The node's running group, synced, is marked.
    pub fn mark(&self, locked: &mut Locked, synced: Synced) -> Result<(), Refusal>
        ensures { OnOk result ((locked.new ≡ marked_running locked.old) × (running_group locked.old ≡ Some synced.group)) }
    {
        match self.recorder {
            None => match locked.mark(synced) {
                Ok(()) => Ok(()),
                Err((refusal, _)) => Err(refusal),
            },
            Some(recorder) => mark_on(locked, &mut recorder.recording().lock(self.rt), synced),
        }
    }

    /// The node's oldest staged facts are its running group from now on. It is `Busy` while a group runs.
    pub fn group(&self, locked: &mut Locked) -> Result<Option<Group>, Refusal>
        ensures none { IfOk result (λ g. g ≡ None → (locked.new ≡ locked.old) × (locked.old.staged ≡ [])) }
        ensures some { IfOk result (λ g. IsSome g → (locked.new ≡ group_taken locked.old) × (g ≡ running_group locked.new)) }
    {
        match self.recorder {
            None => locked.take_group(),
            Some(recorder) => take_on(locked, &mut recorder.recording().lock(self.rt)),
        }
    }

    /// The oldest waiting request that the decided prefix has stops waiting.
    pub fn acknowledge(&self, locked: &mut Locked) -> Result<Option<(RequestNo, Reply)>, Refusal>
        ensures none { IfOk result (λ a. IfNone a ((next_acknowledged locked.old ≡ None) × (locked.new ≡ locked.old))) }
        ensures some { IfOk result (λ a. IfSome a (λ a. (next_acknowledged locked.old ≡ Some a.0) × (reply_of (decided_prefix locked.old) a.0 ≡ Some a.1) × (locked.new ≡ acknowledged locked.old))) }
    {
        match self.recorder {
            None => Ok(locked.acknowledge()),
            Some(recorder) => ack_on(locked, &mut recorder.recording().lock(self.rt)),
        }
    }
}
