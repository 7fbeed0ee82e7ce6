//! A node that is up: its core over the areas of its disk, and the job that runs.

ghost use Rattle.std.specs.Prelude.{◌≡◌, ◌≢◌, ℕ, true, [], Ok, Err, Some, OnOk, IfErr};
ghost use Rattle.std.specs.Option.{option_map_or};
ghost use Rattle.rr_model.specs.NodeState.{NodeState};
ghost use Rattle.rr_model.specs.NodeStep.{running_group, group_put_back};
ghost use Rattle.rr_node.specs.declared.event.Outcome.TheVariants.{Quiet};
ghost use Rattle.rr_node.specs.Stances.{stance_by, synced_by, gives_nothing};
ghost use Rattle.rr_node.specs.Views.{IsServing, IsFlushOf, CarriesOn, CarriesFailing, FailsOn, IsDue, StepsOn, flush_of, quiet};

use crate::doing::{Doing, NodeDisk};
use crate::event::{Outcome, Stance};
use rr_core::Core;
use rr_journal::{Body, BodyOut, BodySafe, GateSet, Job, Journal, SwitchJob, Switching, Synced};
use rr_types::{Fact, Group, Input, Message, NodeEvent, Refusal};
use std::alloc::Global;
use std::mem;

/// The job that runs: none, the flush of a group in one of its states, a synced group that isn't marked yet, or a
/// switch to a snapshot.
pub enum Flush {
    Resting,
    Body(Job<Body>),
    BodyOut(Job<BodyOut>),
    BodySafe(Job<BodySafe>),
    GateSet(Job<GateSet>),
    Flushed(Synced),
    Switching(SwitchJob),
}

impl Flush {
    /// What its node waits for.
    fn stance(&self) -> Stance
        ensures { result ≡ stance_by (flush_of self.now) }
    {
        match self {
            Flush::Resting => Stance::Resting,
            Flush::Body(_) => Stance::Calling,
            Flush::BodyOut(_) => Stance::Calling,
            Flush::BodySafe(_) => Stance::Calling,
            Flush::GateSet(_) => Stance::Calling,
            Flush::Flushed(_) => Stance::Flushed,
            Flush::Switching(_) => Stance::Calling,
        }
    }

    /// What is left of a job is given up with its node.
    fn abandon(self) {
        match self {
            Flush::Resting => (),
            Flush::Body(job) => job.abandon(),
            Flush::BodyOut(job) => job.abandon(),
            Flush::BodySafe(job) => job.abandon(),
            Flush::GateSet(job) => job.abandon(),
            Flush::Flushed(synced) => drop(synced.into_group()),
            Flush::Switching(job) => job.abandon(),
        }
    }
}

/// A node that is up. It can't be dropped: its job is spent or given up.
pub struct Serving {
    core: Core,
    slots: Journal<NodeDisk>,
    flush: Flush,
}

impl Serving {
    /// A node that has just come up.
    pub fn new(core: Core, slots: Journal<NodeDisk>) -> Serving
        ensures { result ≡ record { core = core; slots = slots; flush = Flush.Resting } }
    {
        Serving {
            core,
            slots,
            flush: Flush::Resting,
        }
    }

    /// The disk.
    pub fn disk(&self) -> &NodeDisk
        ensures { result.now ≡ self.now.slots.disk }
    {
        self.slots.disk()
    }

    /// What the node waits for.
    pub fn stance(&self) -> Stance
        ensures { result ≡ stance_by (flush_of self.now.flush) }
    {
        self.flush.stance()
    }

    /// The facts of a group that is synced and not marked yet.
    pub fn synced(&self) -> &[Fact]
        requires { IsFlushOf self.now.core self.now.slots self.now.flush }
        ensures { result.now ≡ synced_by (option_map_or (λ facts. facts) self.now.core.running []) (flush_of self.now.flush) }
    {
        match &self.flush {
            Flush::Flushed(synced) => synced.group().facts(),
            _ => &[],
        }
    }

    /// The disk; a job that runs is given up.
    pub fn into_disk(self) -> NodeDisk
        ensures { result ≡ self.slots.disk }
    {
        let Serving {
            core: _,
            slots,
            flush,
        } = self;
        flush.abandon();
        slots.into_disk()
    }

    /// An event that gives nothing but, perhaps, a refusal, and is no device call.
    pub fn take_in(&mut self, alloc: Global, event: &NodeEvent<Message>) -> Result<(), Refusal>
        requires own { IsServing self.old.core.nodes self.old.core.node self.old }
        requires gives { gives_nothing event.now ≡ true }
        requires other { event.now ≢ NodeEvent.Device }
        ensures { CarriesOn event.now self.old (quiet result) (Doing.Serving self.new) }
    {
        match event {
            NodeEvent::Told(input) => self.tell(input),
            NodeEvent::Take => self.take(alloc),
            NodeEvent::Mark => self.mark(),
            NodeEvent::Snap => self.snap(alloc),
            NodeEvent::Restart => Err(Refusal::Busy),
            NodeEvent::Device | NodeEvent::Send | NodeEvent::Acknowledge => unreachable!(),
        }
    }

    /// The core is told an input.
    fn tell(&mut self, input: &Input<Message>) -> Result<(), Refusal>
        ensures { CarriesOn (NodeEvent.Told input.now) self.old (quiet result) (Doing.Serving self.new) }
    {
        self.core.step(input)
    }

    /// The oldest message that may leave goes.
    pub fn send(&mut self) -> Result<Outcome, Refusal>
        ensures { CarriesOn NodeEvent.Send self.old result (Doing.Serving self.new) }
    {
        match self.core.next_message() {
            Some(cleared) => Ok(Outcome::Left(cleared.message())),
            None => Ok(Outcome::Quiet),
        }
    }

    /// The oldest decided request that waits is acknowledged.
    pub fn reply(&mut self) -> Result<Outcome, Refusal>
        ensures { CarriesOn NodeEvent.Acknowledge self.old result (Doing.Serving self.new) }
    {
        match self.core.next_ack() {
            Some((request, reply)) => Ok(Outcome::Replied(request, reply)),
            None => Ok(Outcome::Quiet),
        }
    }

    /// A flush of the staged facts begins.
    pub fn take(&mut self, alloc: Global) -> Result<(), Refusal>
        ensures { CarriesOn NodeEvent.Take self.old (quiet result) (Doing.Serving self.new) }
    {
        match self.flush {
            Flush::Resting => self.begin(alloc),
            _ => Err(Refusal::Busy),
        }
    }

    /// A flush of the staged facts begins where none runs.
    fn begin(&mut self, alloc: Global) -> Result<(), Refusal>
        requires { self.old.flush ≡ Flush.Resting }
        ensures { CarriesOn NodeEvent.Take self.old (quiet result) (Doing.Serving self.new) }
    {
        match self.core.take_group() {
            Err(refusal) => Err(refusal),
            Ok(None) => Ok(()),
            Ok(Some(group)) => match self.slots.begin(alloc, group) {
                Ok(job) => {
                    self.runs_next(Flush::Body(job));
                    Ok(())
                }
                Err((refusal, group)) => {
                    put_back(&mut self.core, group);
                    Err(refusal)
                }
            },
        }
    }

    /// This job runs from now on, or none, where none did.
    fn runs_next(&mut self, flush: Flush)
        requires { self.old.flush ≡ Flush.Resting }
        ensures { self.new ≡ record self.old { flush = flush } }
    {
        match mem::replace(&mut self.flush, flush) {
            Flush::Resting => (),
            other => {
                other.abandon();
                unreachable!()
            }
        }
    }

    /// The synced group is marked.
    pub fn mark(&mut self) -> Result<(), Refusal>
        ensures { CarriesOn NodeEvent.Mark self.old (quiet result) (Doing.Serving self.new) }
    {
        match mem::replace(&mut self.flush, Flush::Resting) {
            Flush::Flushed(synced) => match self.core.mark(synced) {
                Ok(()) => Ok(()),
                Err((refusal, synced)) => {
                    self.runs_next(Flush::Flushed(synced));
                    Err(refusal)
                }
            },
            other => {
                self.runs_next(other);
                Ok(())
            }
        }
    }

    /// A switch to a snapshot of the marked facts begins.
    pub fn snap(&mut self, alloc: Global) -> Result<(), Refusal>
        requires { IsServing self.old.core.nodes self.old.core.node self.old }
        ensures { CarriesOn NodeEvent.Snap self.old (quiet result) (Doing.Serving self.new) }
    {
        match self.flush {
            Flush::Resting => self.begin_switch(alloc),
            _ => Err(Refusal::Busy),
        }
    }

    /// A switch begins where no job runs.
    fn begin_switch(&mut self, alloc: Global) -> Result<(), Refusal>
        requires own { IsServing self.old.core.nodes self.old.core.node self.old }
        requires rests { self.old.flush ≡ Flush.Resting }
        ensures { CarriesOn NodeEvent.Snap self.old (quiet result) (Doing.Serving self.new) }
    {
        let promise = self.core.marked_promise(alloc)?;
        match self.slots.begin_snapshot(alloc, promise) {
            Ok(job) => {
                self.runs_next(Flush::Switching(job));
                Ok(())
            }
            Err(refusal) => Err(refusal),
        }
    }

    /// The next device call of the job. Where it is refused, the node has failed, and no job runs.
    pub fn flush_on(&mut self) -> Result<(), Refusal>
        ensures ok { OnOk result (CarriesOn NodeEvent.Device self.old (Ok Quiet) (Doing.Serving self.new)) }
        ensures err { IfErr result (λ e. CarriesOn NodeEvent.Device self.old (Err e) (Doing.Faulted self.new.slots.disk)) }
    {
        let flush = mem::replace(&mut self.flush, Flush::Resting);
        let next = step_on(&mut self.slots, flush)?;
        self.runs_next(next);
        Ok(())
    }

    /// The next device call of the job fails with this fill; where none is due nothing happens.
    pub fn fail(self, fill: Vec<u8>) -> (Doing, Result<Outcome, Refusal>)
        ensures { (n p : ℕ) → CarriesFailing n p fill.items (Doing.Serving self) result.1 result.0 }
    {
        let Serving { core, slots, flush } = self;
        match flush {
            Flush::Resting => up(core, slots, Flush::Resting, Ok(Outcome::Quiet)),
            Flush::Flushed(synced) => up(core, slots, Flush::Flushed(synced), Ok(Outcome::Quiet)),
            due => fail_due(slots, due, fill),
        }
    }
}

/// The next device call of a job, and the job after it.
fn step_on(slots: &mut Journal<NodeDisk>, flush: Flush) -> Result<Flush, Refusal>
    ensures steps { (core : NodeState) → StepsOn core slots.old flush result slots.new }
    ensures fails { FailsOn slots.old flush slots.new }
{
    match flush {
        Flush::Resting => Ok(Flush::Resting),
        Flush::Flushed(synced) => Ok(Flush::Flushed(synced)),
        Flush::Body(job) => match job.step(slots) {
            Ok(job) => Ok(Flush::BodyOut(job)),
            Err(refusal) => Err(refusal),
        },
        Flush::BodyOut(job) => match job.step(slots) {
            Ok(job) => Ok(Flush::BodySafe(job)),
            Err(refusal) => Err(refusal),
        },
        Flush::BodySafe(job) => match job.step(slots) {
            Ok(job) => Ok(Flush::GateSet(job)),
            Err(refusal) => Err(refusal),
        },
        Flush::GateSet(job) => match job.step(slots) {
            Ok(synced) => Ok(Flush::Flushed(synced)),
            Err(refusal) => Err(refusal),
        },
        Flush::Switching(job) => switch_on(slots, job),
    }
}

/// The next device call of a switch, and the switch after it, or no job.
fn switch_on(slots: &mut Journal<NodeDisk>, job: SwitchJob) -> Result<Flush, Refusal>
    ensures steps { (core : NodeState) → StepsOn core slots.old (Flush.Switching job) result slots.new }
    ensures fails { FailsOn slots.old (Flush.Switching job) slots.new }
{
    match job.step(slots) {
        Ok(Switching::More(job)) => Ok(Flush::Switching(job)),
        Ok(Switching::Done) => Ok(Flush::Resting),
        Err(refusal) => Err(refusal),
    }
}

/// The node is up, and has answered so.
fn up(
    core: Core,
    slots: Journal<NodeDisk>,
    flush: Flush,
    answer: Result<Outcome, Refusal>,
) -> (Doing, Result<Outcome, Refusal>)
    ensures { result ≡ (Doing.Serving (record { core = core; slots = slots; flush = flush }), answer) }
{
    (Doing::Serving(Serving { core, slots, flush }), answer)
}

/// A device call has failed: the node has failed too.
fn fallen(slots: Journal<NodeDisk>, refusal: Refusal) -> (Doing, Result<Outcome, Refusal>)
    ensures { result ≡ (Doing.Faulted slots.disk, Err refusal) }
{
    (Doing::Faulted(slots.into_disk()), Err(refusal))
}

/// The device call that is due fails with this fill.
fn fail_due(
    mut slots: Journal<NodeDisk>,
    flush: Flush,
    fill: Vec<u8>,
) -> (Doing, Result<Outcome, Refusal>)
    requires { IsDue flush }
    ensures { (core : NodeState) (n p : ℕ) → CarriesFailing n p fill.items (Doing.Serving (record { core = core; slots = slots; flush = flush })) result.1 result.0 }
{
    slots.fail_next(fill);
    if let Ok(left) = step_on(&mut slots, flush) {
        left.abandon();
    }
    fallen(slots, Refusal::Device)
}

/// The group that the core has just given goes back to it.
fn put_back(core: &mut Core, group: Group)
    ensures { running_group core.old ≡ Some group → core.new ≡ group_put_back core.old }
{
    let _own = core.put_back(group);
}
