//! A node that is up: its core, its journal, the job that runs, and how it follows the others.

ghost use Rattle.std.specs.Prelude.{◌≡◌, ◌+◌, None, Some, length, IfOk, IfErr, IfSome, OnOk, OnErr, MatchOption, MatchResult};
ghost use Rattle.std.specs.Option.{option_map_or};
ghost use Rattle.rr_types.specs.declared.input.Input.TheVariants as told;
ghost use Rattle.rr_types.specs.Registry.{reply_of};
ghost use Rattle.rr_model.specs.NodeState.{decided_prefix};
ghost use Rattle.rr_model.specs.NodeStep.{node_step, refusal_of, running_group, group_put_back, next_acknowledged, acknowledged};
ghost use Rattle.rr_frame.specs.Snapshots.{IsSnapshot};
ghost use Rattle.rr_frame.specs.MessageFormat.{message_bytes};
ghost use Rattle.rr_host.specs.Disks.{called, noted};
ghost use Rattle.rr_host.specs.Chases.{heard_of, chase_of, chase_sent};
ghost use Rattle.rr_host.specs.Jobs.{StepsOn, HasFailed, IsOfSwitch};
ghost use Rattle.rr_host.specs.Ups.{Refuses, RefusesAny, heard_by, StopsAtOne, StopsIn, heard, again_of, heard_again, is_catching_up, found_in, Advances, Beats, StopsBeat, Ticks, StopsTick, Leaves, IsRefused, Marks, Begins, Flushes};

use crate::chase::{Chase, Hearing};
use crate::disk::{HostDisk, Written};
use crate::flush::{Flush, step_on, switch_on};
use crate::standstill::{Found, Standstill};
use bytes::Bytes;
use rr_core::Core;
use rr_frame::{Snapshot, encode};
use rr_journal::{Body, Job, Journal, SwitchJob, Synced};
use rr_types::{
    Command, Group, Input, Message, NodeId, Nodes, Op, Promise, Refusal, Reply, RequestNo, made_of,
    majority,
};
use std::alloc::Global;
use std::mem;

/// Why a call at a node that is up stopped.
#[derive(Clone, Copy, Debug)]
pub enum Stop {
    /// The call was refused, and nothing has changed.
    Refused(Refusal),
    /// A device call has failed: the node can't go on.
    Fallen(Refusal),
}

/// What leaves a node.
pub enum Leaving {
    /// Nothing.
    Nothing,
    /// A message for the node itself, which has heard it.
    Own,
    /// These bytes, for another node.
    Out(NodeId, Bytes),
}

/// A node that is up. It can't be dropped: its job is spent or given up.
pub struct Up {
    core: Core,
    journal: Journal<HostDisk>,
    flush: Flush,
    chase: Chase,
    standstill: Standstill,
}

/// What a node finds at a tick.
fn found_in(core: &Core) -> Found
    ensures { result ≡ found_in core.now }
{
    let suspects = core.suspects().without(core.node());
    Found {
        decided: core.decided_count(),
        facts: core.facts(),
        has_majority: u32::from(majority(core.nodes())) + suspects.bits().count_ones()
            <= u32::from(core.nodes().count()),
    }
}

impl Up {
    /// A node that has just come up.
    pub fn new(core: Core, journal: Journal<HostDisk>) -> Up
        ensures core { result.core ≡ core }
        ensures journal { result.journal ≡ journal }
        ensures rests { result.flush ≡ Flush.Resting }
    {
        Up {
            core,
            journal,
            flush: Flush::Resting,
            chase: Chase::new(),
            standstill: Standstill::new(),
        }
    }

    /// Its core.
    pub fn core(&self) -> &Core
        ensures { result.now ≡ self.now.core }
    {
        &self.core
    }

    /// Its journal.
    pub fn journal(&self) -> &Journal<HostDisk>
        ensures { result.now ≡ self.now.journal }
    {
        &self.journal
    }

    /// Whatever runs is given up.
    pub fn give_up(self) {
        let Up {
            core: _,
            journal,
            flush,
            chase: _,
            standstill: _,
        } = self;
        flush.abandon();
        drop(journal.into_disk());
    }

    /// The write that the host is asked for.
    pub fn written(&self) -> Option<&Written>
        ensures { MatchOption result (self.now.journal.disk.written ≡ None) (λ w. self.now.journal.disk.written ≡ Some w.now) }
    {
        self.journal.disk().written()
    }

    /// The node is told this.
    pub fn tell(&mut self, input: &Input<Message>) -> Result<(), Refusal>
        ensures ok { OnOk result (self.new ≡ record self.old { core = node_step input.now self.old.core }) }
        ensures err { OnErr result (self.new ≡ self.old) }
        ensures cause { MatchResult result (λ _. refusal_of input.now self.old.core ≡ None) (Refuses input.now self.old.core) }
    {
        self.core.step(input)
    }

    /// The node hears a message.
    fn hear_one(&mut self, message: &Message) -> Result<(), Refusal>
        ensures ok { OnOk result (self.new ≡ record self.old { core = node_step (told.Hear message.now) self.old.core }) }
        ensures err { OnErr result (self.new ≡ self.old) }
        ensures cause { IfErr result (Refuses (told.Hear message.now) self.old.core) }
    {
        made_of!(Body, Command, Op);
        self.tell(&Input::Hear(*message))
    }

    /// A message comes: the node hears it, or what its chase has it hear.
    ///
    /// # Errors
    /// Those of the core. Where it hears two messages the first may be heard then.
    pub fn hear(&mut self, message: &Message) -> Result<(), Refusal>
        ensures ok { OnOk result (self.new ≡ heard message.now self.old) }
        ensures err { IfErr result (λ e. StopsIn (heard_of (length (decided_prefix self.old.core)) message.now.body self.old.chase) message.now self.old.core self.new.core e) }
        ensures rest { self.new ≡ record self.old { core = self.new.core; chase = chase_of (length (decided_prefix self.old.core)) message.now.body message.now self.old.chase } }
    {
        let decided = self.core.decided_count() as u64;
        let hearing = self.chase.meet(decided, message);
        self.hear_by(&hearing, message)
    }

    /// What a chase answered to a message is heard.
    fn hear_by(&mut self, hearing: &Hearing, message: &Message) -> Result<(), Refusal>
        ensures ok { OnOk result (self.new ≡ record self.old { core = heard_by hearing.now message.now self.old.core }) }
        ensures err { IfErr result (λ e. StopsIn hearing.now message.now self.old.core self.new.core e) }
        ensures rest { self.new ≡ record self.old { core = self.new.core } }
    {
        match hearing {
            Hearing::Alone => self.hear_one(message),
            Hearing::Nothing => Ok(()),
            Hearing::After(held) => self.hear_both(held, message),
            Hearing::Before(next) => self.hear_both(message, next),
        }
    }

    /// The node hears two messages.
    fn hear_both(&mut self, first: &Message, second: &Message) -> Result<(), Refusal>
        ensures ok { OnOk result (self.new ≡ record self.old { core = node_step (told.Hear second.now) (node_step (told.Hear first.now) self.old.core) }) }
        ensures err { IfErr result (StopsAtOne first.now second.now self.old.core self.new.core) }
        ensures rest { self.new ≡ record self.old { core = self.new.core } }
    {
        match self.hear_one(first) {
            Ok(()) => self.hear_one(second),
            Err(refusal) => Err(refusal),
        }
    }

    /// A tick of the host's clock: the node hears its key again, or what was held back, and ticks unless it is catching up. Where it
    /// gets no further it enters the next round.
    ///
    /// # Errors
    /// Those of the core. A first part of this may have been done then.
    pub fn tick(&mut self) -> Result<(), Refusal>
        ensures ok { OnOk result (Ticks self.old self.new) }
        ensures err { IfErr result (StopsTick self.old self.new) }
    {
        match self.hear_again() {
            Err(refusal) => Err(refusal),
            Ok(true) => Ok(()),
            Ok(false) => self.beat(),
        }
    }

    /// The node hears its key again, or what was held back. Answers whether it is catching up.
    fn hear_again(&mut self) -> Result<bool, Refusal>
        ensures ok { OnOk result (self.new ≡ heard_again self.old) }
        ensures gaining { IfOk result (λ gains. gains ≡ is_catching_up self.old) }
        ensures err { IfErr result (λ e. (self.new.core ≡ self.old.core) × RefusesAny (again_of self.old) self.old.core e) }
        ensures rest { self.new ≡ record self.old { core = self.new.core; chase = self.new.chase } }
    {
        let decided = self.core.decided_count() as u64;
        let again = self.chase.again(decided);
        let is_gaining = self.chase.is_gaining(decided);
        self.hear_any(&again)?;
        Ok(is_gaining)
    }

    /// The node hears a message, if there is one.
    fn hear_any(&mut self, message: &Option<Message>) -> Result<(), Refusal>
        ensures ok { OnOk result (self.new ≡ record self.old { core = option_map_or (λ m. node_step (told.Hear m) self.old.core) message.now self.old.core }) }
        ensures err { OnErr result (self.new ≡ self.old) }
        ensures cause { IfErr result (RefusesAny message.now self.old.core) }
    {
        match message {
            None => Ok(()),
            Some(message) => self.hear_one(message),
        }
    }

    /// The node ticks, and advances where it has got no further.
    fn beat(&mut self) -> Result<(), Refusal>
        ensures ok { OnOk result (Beats self.old self.new) }
        ensures err { IfErr result (StopsBeat self.old.core self.new.core) }
        ensures rest { self.new ≡ record self.old { core = self.new.core; standstill = self.new.standstill } }
    {
        match self.tell(&Input::Tick) {
            Err(refusal) => Err(refusal),
            Ok(()) => {
                let is_due = self.standstill.count(found_in(&self.core));
                self.advance_if(is_due)
            }
        }
    }

    /// The node enters the next round of its lowest open instance, if that has one and it is time to.
    fn advance_if(&mut self, is_due: bool) -> Result<(), Refusal>
        ensures ok { OnOk result (Advances is_due self.old.core self.new.core) }
        ensures err { IfErr result (λ e. (self.new.core ≡ self.old.core) × Refuses told.Advance self.old.core e) }
        ensures rest { self.new ≡ record self.old { core = self.new.core } }
    {
        if !is_due {
            return Ok(());
        }
        match self.tell(&Input::Advance) {
            Ok(()) => Ok(()),
            Err(Refusal::RoundsOut) => Ok(()),
            Err(refusal) => Err(refusal),
        }
    }

    /// The oldest message that may leave, of which the fact behind it is synced. One for the node itself is heard.
    ///
    /// # Errors
    /// Those of the core, and `OutOfMemory`. The message is lost then, as a network may lose one.
    pub fn next_message(&mut self, alloc: Global) -> Result<Leaving, Refusal>
        ensures { Leaves self.old result self.new }
    {
        match self.core.next_message() {
            None => Ok(Leaving::Nothing),
            Some(cleared) => {
                let message = cleared.as_message();
                if message.to.index() == self.core.node().index() {
                    self.hear_own(message)
                } else {
                    self.send_out(alloc, message)
                }
            }
        }
    }

    // A message that has left is for the node itself.
    fn hear_own(&mut self, message: &Message) -> Result<Leaving, Refusal>
        ensures ok { IfOk result (λ leaving. (leaving ≡ Leaving.Own) × (self.new ≡ record self.old { core = node_step (told.Hear message.now) self.old.core })) }
        ensures err { OnErr result (self.new ≡ self.old) }
        ensures cause { IfErr result (Refuses (told.Hear message.now) self.old.core) }
    {
        match self.hear_one(message) {
            Ok(()) => Ok(Leaving::Own),
            Err(refusal) => Err(refusal),
        }
    }

    // A message that has left is for another node.
    fn send_out(&mut self, alloc: Global, message: &Message) -> Result<Leaving, Refusal>
        ensures ok { IfOk result (λ leaving. leaving ≡ Leaving.Out message.now.to (message_bytes message.now)) }
        ensures err { IfErr result (λ e. e ≡ Refusal.OutOfMemory) }
        ensures chase { self.new ≡ record self.old { chase = chase_sent message.now.body self.old.chase } }
    {
        self.chase.note(message);
        let bytes = encode(alloc, message)?;
        Ok(Leaving::Out(message.to, bytes))
    }

    /// The oldest request that waits here and is decided, with the registry's reply to it.
    pub fn next_ack(&mut self) -> Option<(RequestNo, Reply)>
        ensures { MatchOption result
            ((next_acknowledged self.old.core ≡ None) × (self.new ≡ self.old))
            (λ a. (next_acknowledged self.old.core ≡ Some a.0) × (reply_of (decided_prefix self.old.core) a.0 ≡ Some a.1)
            × (self.new ≡ record self.old { core = acknowledged self.old.core })) }
    {
        self.core.next_ack()
    }

    /// A group that is synced is marked.
    ///
    /// # Errors
    /// `OutOfMemory`; `StrangeMark` for a group that isn't the running one. It waits on then.
    pub fn mark(&mut self) -> Result<(), Refusal>
        ensures ok { OnOk result (Marks self.old self.new) }
        ensures err { OnErr result (self.new ≡ self.old) }
    {
        match mem::replace(&mut self.flush, Flush::Resting) {
            Flush::Flushed(synced) => match self.core.mark(synced) {
                Ok(()) => Ok(()),
                Err((refusal, synced)) => {
                    self.runs_next(Flush::Flushed(synced));
                    Err(refusal)
                }
            },
            other => {
                self.runs_next(other);
                Ok(())
            }
        }
    }

    /// This job runs from now on, or none, where none did.
    fn runs_next(&mut self, flush: Flush)
        requires { self.old.flush ≡ Flush.Resting }
        ensures { self.new ≡ record self.old { flush = flush } }
    {
        match mem::replace(&mut self.flush, flush) {
            Flush::Resting => (),
            other => {
                other.abandon();
                unreachable!()
            }
        }
    }

    /// The oldest staged facts go to the disk, where no job runs: the host is asked for the first write.
    pub fn flush(&mut self, alloc: Global) -> Result<(), Stop>
        ensures ok { OnOk result (Flushes self.old self.new) }
        ensures refused { IfErr result (λ stop. IsRefused stop → self.new ≡ self.old) }
    {
        match self.flush {
            Flush::Resting => self.begin(alloc),
            _ => Ok(()),
        }
    }

    // The same where no job runs.
    fn begin(&mut self, alloc: Global) -> Result<(), Stop>
        requires { self.old.flush ≡ Flush.Resting }
        ensures ok { OnOk result (Begins self.old self.new) }
        ensures refused { IfErr result (λ stop. IsRefused stop → self.new ≡ self.old) }
    {
        match self.core.take_group() {
            Err(refusal) => Err(Stop::Refused(refusal)),
            Ok(None) => Ok(()),
            Ok(Some(group)) => match self.journal.begin(alloc, group) {
                Ok(job) => self.write_body(job),
                Err((refusal, group)) => {
                    put_back(&mut self.core, group);
                    Err(Stop::Refused(refusal))
                }
            },
        }
    }

    // The body of a flush is written.
    fn write_body(&mut self, job: Job<Body>) -> Result<(), Stop>
        requires { self.old.flush ≡ Flush.Resting }
        ensures ok { OnOk result (self.new ≡ record self.old {
          flush = Flush.BodyOut job;
          journal = record self.old.journal { disk = called (noted job.area (job.gate + 1) job.body self.old.journal.disk) };
        }) }
        ensures fallen { IfErr result (λ stop. IsRefused stop → ⊥) }
    {
        match job.step(&mut self.journal) {
            Ok(job) => {
                self.runs_next(Flush::BodyOut(job));
                Ok(())
            }
            Err(refusal) => Err(Stop::Fallen(refusal)),
        }
    }

    /// The host has made the write that was due, and synced it. The job goes on up to its next write, or to its end.
    ///
    /// # Errors
    /// `Failed` and `Device`: the node can't go on.
    pub fn done(&mut self) -> Result<(), Refusal>
        ensures ok { OnOk result (StepsOn self.old.journal self.old.flush self.new.flush self.new.journal) }
        ensures err { IfErr result HasFailed }
        ensures rest { self.new ≡ record self.old { flush = self.new.flush; journal = self.new.journal } }
    {
        let flush = mem::replace(&mut self.flush, Flush::Resting);
        match step_on(&mut self.journal, flush) {
            Ok(next) => {
                self.runs_next(next);
                Ok(())
            }
            Err(refusal) => Err(refusal),
        }
    }

    /// A switch to a snapshot of what is marked begins, where no job runs.
    ///
    /// # Errors
    /// `Busy` while a job runs, and those of `Journal::begin_snapshot`.
    pub fn snapshot(&mut self, alloc: Global) -> Result<(), Stop>
        ensures ok { OnOk result ((self.old.flush ≡ Flush.Resting) × IsOfSwitch self.new.flush) }
        ensures same { (self.new.core ≡ self.old.core) × (self.new.chase ≡ self.old.chase) × (self.new.standstill ≡ self.old.standstill) }
        ensures refused { IfErr result (λ stop. IsRefused stop → self.new ≡ self.old) }
    {
        match self.flush {
            Flush::Resting => self.begin_switch(alloc),
            _ => Err(Stop::Refused(Refusal::Busy)),
        }
    }

    // The same where no job runs.
    fn begin_switch(&mut self, alloc: Global) -> Result<(), Stop>
        requires { self.old.flush ≡ Flush.Resting }
        ensures ok { OnOk result (IsOfSwitch self.new.flush) }
        ensures same { (self.new.core ≡ self.old.core) × (self.new.chase ≡ self.old.chase) × (self.new.standstill ≡ self.old.standstill) }
        ensures refused { IfErr result (λ stop. IsRefused stop → self.new ≡ self.old) }
    {
        match begin_snapshot(alloc, &self.core, &mut self.journal) {
            Err(refusal) => Err(Stop::Refused(refusal)),
            Ok(job) => match switch_on(&mut self.journal, job) {
                Err(refusal) => Err(Stop::Fallen(refusal)),
                Ok(next) => {
                    self.runs_next(next);
                    Ok(())
                }
            },
        }
    }
}

/// The group that the core has just given goes back to it.
fn put_back(core: &mut Core, group: Group)
    ensures { running_group core.old ≡ Some group → core.new ≡ group_put_back core.old }
{
    let _own = core.put_back(group);
}

/// The promise, where a snapshot can have it.
fn lawful(nodes: Nodes, node: NodeId, epoch: u64, next: u64, promise: Promise) -> Option<Promise>
    ensures fits { IfSome result (λ p. IsSnapshot (record { node = node; nodes = nodes; epoch = epoch; next = next; entries = p })) }
    ensures same { IfSome result (λ p. p ≡ promise) }
{
    match Snapshot::new(nodes, node, epoch, next, promise) {
        Ok(snapshot) => Some(snapshot.into_promise()),
        Err(_) => None,
    }
}

/// Begins a switch to a snapshot of what a core has marked.
///
/// # Errors
/// `Failed` where the journal is another node's, or has more on its disk, and those of `Journal::begin_snapshot`.
fn begin_snapshot(
    alloc: Global,
    core: &Core,
    journal: &mut Journal<HostDisk>,
) -> Result<SwitchJob, Refusal>
    ensures refused { OnErr result (journal.new ≡ journal.old) }
    ensures whole { OnOk result ((core.now.node ≡ journal.old.node) × (core.now.marked_end ≡ journal.old.next)) }
{
    let (nodes, node) = journal.owner();
    let next = journal.facts();
    if core.node().index() != node.index() || core.facts() != next {
        return Err(Refusal::Failed);
    }
    let Some(epoch) = journal.epoch().checked_add(1) else {
        return Err(Refusal::TooLarge);
    };
    let promise = core.marked_promise(alloc)?;
    match lawful(nodes, node, epoch, next, promise) {
        None => Err(Refusal::Failed),
        Some(promise) => match journal.begin_snapshot(alloc, promise) {
            Ok(job) => Ok(job),
            Err(refusal) => Err(refusal),
        },
    }
}
