//! What a node does: nothing, an opening, or its service.

ghost use Rattle.std.specs.Prelude.{◌≡◌, ◌≢◌, ◌<◌, ◌↔◌, ℕ, true, None, Some, Err, is_some, IsTrue, IfSome, IfOk};
ghost use Rattle.rr_types.specs.Registry.{registry_of};
ghost use Rattle.rr_model.specs.NodeState.{decided_prefix};
ghost use Rattle.rr_types.specs.declared.refusal.Refusal.TheVariants.{Device};
ghost use Rattle.rr_journal.specs.Openings.{Settling};
ghost use Rattle.rr_journal.specs.OpeningStates.{OpeningState};
ghost use Rattle.rr_node.specs.Seats as seats;
ghost use Rattle.rr_node.specs.Seats.{crashed, seat_step};
ghost use Rattle.rr_types.specs.declared.event.NodeEvent.{NodeEvent};
ghost use Rattle.rr_types.specs.declared.message.Message.{Message};
ghost use Rattle.rr_node.specs.declared.serving.Serving.{Serving};
ghost use Rattle.rr_node.specs.Stances.{event_of, is_plain, is_quiet, refusal_at};
ghost use Rattle.rr_node.specs.Views.{NodeDisk, Carries, CarriesFailing, CarriesQuietly, HasEnded, Closes, Serves, IsServing, IsSteady, Takes, areas_of, calls_of, doing_of, due_of, seat_of};

use crate::event::{Act, BoundNames, Outcome};
use crate::serving::Serving;
use core::mem::replace_with;
use rr_core::{Core, Opening};
use rr_disk::{FailingDisk, MemDisk};
use rr_journal::{Journal, Stepped};
use rr_types::{Message, NodeEvent, NodeId, Nodes, Refusal};
use std::alloc::{AllocError, Global};

/// A node's disk: in memory, with calls that fail on demand.
pub type NodeDisk = FailingDisk<MemDisk>;

/// What a node does. Each way has the disk.
pub enum Doing {
    /// It is down.
    Stopped(NodeDisk),
    /// A device call of it has failed.
    Faulted(NodeDisk),
    /// It opens its disk.
    Opening(Opening<NodeDisk>),
    /// It is up.
    Serving(Serving),
}

impl Doing {
    /// The disk.
    pub fn disk(&self) -> &NodeDisk
        ensures areas { result.now.below.areas ≡ areas_of self.now }
        ensures due { result.now.due ≡ due_of self.now }
        ensures calls { result.now.calls ≡ calls_of self.now }
    {
        match self {
            Doing::Stopped(disk) => disk,
            Doing::Faulted(disk) => disk,
            Doing::Opening(opening) => opening.disk(),
            Doing::Serving(serving) => serving.disk(),
        }
    }

    /// The disk; whatever ran over it is given up.
    pub fn into_disk(self) -> NodeDisk
        ensures areas { result.below.areas ≡ areas_of self }
        ensures due { result.due ≡ due_of self }
        ensures calls { result.calls ≡ calls_of self }
        ensures serving { (s : Serving) → self ≡ Doing.Serving s → result ≡ s.slots.disk }
        ensures opening { (o : OpeningState NodeDisk) → self ≡ Doing.Opening o → result ≡ o.disk }
    {
        match self {
            Doing::Stopped(disk) => disk,
            Doing::Faulted(disk) => disk,
            Doing::Opening(opening) => opening.into_disk(),
            Doing::Serving(serving) => serving.into_disk(),
        }
    }

    /// The refusal of an event that the node doesn't take: of all but a restart while it is down or has failed, of all
    /// but its device calls while it opens, and of none while it serves. What is refused so moves nothing.
    pub fn refusal_of(&self, event: &NodeEvent<Message>) -> Option<Refusal>
        ensures refused { (n p : ℕ) → IfSome result (λ e. seat_step event.now (seat_of n p self.now) ≡ (Err e, seat_of n p self.now)) }
        ensures taken { result ≡ None → Takes event.now (doing_of self.now) }
    {
        match self {
            Doing::Stopped(_) => match event {
                NodeEvent::Restart => None,
                _ => Some(Refusal::Down),
            },
            Doing::Faulted(_) => match event {
                NodeEvent::Restart => None,
                _ => Some(Refusal::Failed),
            },
            Doing::Opening(_) => match event {
                NodeEvent::Device => None,
                NodeEvent::Restart => Some(Refusal::Busy),
                _ => Some(Refusal::Down),
            },
            Doing::Serving(_) => None,
        }
    }

    /// The refusal of an act that the node doesn't take.
    fn refusal_of_act(&self, act: Act) -> Option<Refusal>
        ensures { result ≡ refusal_at (event_of act) (doing_of self.now) }
    {
        match self {
            Doing::Stopped(_) => match act {
                Act::Restart => None,
                _ => Some(Refusal::Down),
            },
            Doing::Faulted(_) => match act {
                Act::Restart => None,
                _ => Some(Refusal::Failed),
            },
            Doing::Opening(_) => match act {
                Act::Device => None,
                Act::Restart => Some(Refusal::Busy),
                _ => Some(Refusal::Down),
            },
            Doing::Serving(_) => None,
        }
    }
}

/// An event that gives nothing but, perhaps, a refusal, at a node that is up, which stays in its place. `None`: it may
/// give more, or the node isn't up, and nothing has changed.
pub fn go_on_quietly(
    alloc: Global,
    doing: &mut Doing,
    event: &NodeEvent<Message>,
) -> Option<Result<(), Refusal>>
    requires { (s : Serving) → doing.old ≡ Doing.Serving s → IsServing s.core.nodes s.core.node s }
    ensures taken { is_some result ≡ is_quiet event.now (doing_of doing.old) }
    ensures carries { CarriesQuietly event.now doing.old result doing.new }
{
    match doing {
        Doing::Serving(serving) => match event {
            NodeEvent::Send | NodeEvent::Acknowledge => None,
            NodeEvent::Device => Some(device_on(doing)),
            _ => Some(serving.take_in(alloc, event)),
        },
        _ => None,
    }
}

/// An act that gives nothing but, perhaps, a refusal: one that the node doesn't take, or any but a send and an
/// acknowledgement at a node that is up. `None`: it may give more, or an opening begins or goes on, and nothing has changed.
pub fn go_on_by(alloc: Global, doing: &mut Doing, act: Act) -> Option<Result<(), Refusal>>
    requires { (s : Serving) → doing.old ≡ Doing.Serving s → IsServing s.core.nodes s.core.node s }
    ensures taken { is_some result ≡ is_plain (event_of act) (doing_of doing.old) }
    ensures carries { CarriesQuietly (event_of act) doing.old result doing.new }
{
    match doing {
        Doing::Serving(serving) => match act {
            Act::Take => Some(serving.take(alloc)),
            Act::Device => Some(device_on(doing)),
            Act::Mark => Some(serving.mark()),
            Act::Send | Act::Acknowledge => None,
            Act::Snap => Some(serving.snap(alloc)),
            Act::Restart => Some(Err(Refusal::Busy)),
        },
        _ => match doing.refusal_of_act(act) {
            Some(refusal) => Some(Err(refusal)),
            None => None,
        },
    }
}

/// The next device call of the job of a node that is up. Where it is refused, the node has failed.
fn device_on(doing: &mut Doing) -> Result<(), Refusal>
    requires { (s : Serving) × (doing.old ≡ Doing.Serving s) }
    ensures { CarriesQuietly NodeEvent.Device doing.old (Some result) doing.new }
{
    match doing {
        Doing::Serving(serving) => match serving.flush_on() {
            Ok(()) => Ok(()),
            Err(refusal) => {
                fall(doing);
                Err(refusal)
            }
        },
        _ => unreachable!(),
    }
}

/// An event that a node takes. A node that is up stays in its place.
pub fn go_on(
    alloc: Global,
    nodes: Nodes,
    node: NodeId,
    doing: &mut Doing,
    event: &NodeEvent<Message>,
) -> Result<Outcome, Refusal>
    requires steady { IsSteady nodes node doing.old }
    requires exists { node < nodes }
    requires taken { Takes event.now (doing_of doing.old) }
    ensures { Carries nodes node event.now doing.old result doing.new }
{
    match doing {
        Doing::Serving(serving) => match event {
            NodeEvent::Send => serving.send(),
            NodeEvent::Acknowledge => serving.reply(),
            _ => go_on_up(alloc, doing, event),
        },
        Doing::Opening(_) => open_on(alloc, doing),
        _ => start_up(nodes, node, doing),
    }
}

/// An event that gives nothing but, perhaps, a refusal, at a node that is up.
fn go_on_up(
    alloc: Global,
    doing: &mut Doing,
    event: &NodeEvent<Message>,
) -> Result<Outcome, Refusal>
    requires own { (s : Serving) → doing.old ≡ Doing.Serving s → IsServing s.core.nodes s.core.node s }
    requires gives { is_quiet event.now (doing_of doing.old) ≡ true }
    ensures { (n p : ℕ) → Carries n p event.now doing.old result doing.new }
{
    match go_on_quietly(alloc, doing, event) {
        Some(Ok(())) => Ok(Outcome::Quiet),
        Some(Err(refusal)) => Err(refusal),
        None => unreachable!(),
    }
}

/// By an event that it takes, a node that is down or has failed begins an opening.
fn start_up(nodes: Nodes, node: NodeId, doing: &mut Doing) -> Result<Outcome, Refusal>
    requires exists { node < nodes }
    requires down { (s : Serving) → doing.old ≢ Doing.Serving s }
    requires waits { (o : OpeningState NodeDisk) → doing.old ≢ Doing.Opening o }
    ensures { (event : NodeEvent Message) → Takes event (doing_of doing.old) → Carries nodes node event doing.old result doing.new }
{
    replace_with(
        doing,
        (),
        |doing, _| -> (Doing, Result<Outcome, Refusal>)
            requires { (node < nodes) × ((s : Serving) → doing ≢ Doing.Serving s) × ((o : OpeningState NodeDisk) → doing ≢ Doing.Opening o) }
            ensures { (event : NodeEvent Message) → Takes event (doing_of doing) → Carries nodes node event doing result.1 result.0 }
        { open_up(nodes, node, doing) },
    )
}

/// A device call has failed: the node has failed too.
fn fall(doing: &mut Doing)
    ensures serving { (s : Serving) → doing.old ≡ Doing.Serving s → doing.new ≡ Doing.Faulted s.slots.disk }
    ensures opening { (o : OpeningState NodeDisk) → doing.old ≡ Doing.Opening o → doing.new ≡ Doing.Faulted o.disk }
{
    replace_with(
        doing,
        (),
        |doing, _| -> (Doing, ())
            ensures serving { (s : Serving) → doing ≡ Doing.Serving s → result.0 ≡ Doing.Faulted s.slots.disk }
            ensures opening { (o : OpeningState NodeDisk) → doing ≡ Doing.Opening o → result.0 ≡ Doing.Faulted o.disk }
        { (Doing::Faulted(doing.into_disk()), ()) },
    )
}

/// The same of a node that is taken and given back.
fn open_up(nodes: Nodes, node: NodeId, doing: Doing) -> (Doing, Result<Outcome, Refusal>)
    requires exists { node < nodes }
    requires down { (s : Serving) → doing ≢ Doing.Serving s }
    requires waits { (o : OpeningState NodeDisk) → doing ≢ Doing.Opening o }
    ensures { (event : NodeEvent Message) → Takes event (doing_of doing) → Carries nodes node event doing result.1 result.0 }
{
    match doing {
        Doing::Stopped(disk) => (restart(nodes, node, disk), Ok(Outcome::Quiet)),
        Doing::Faulted(disk) => (restart(nodes, node, disk), Ok(Outcome::Quiet)),
        _ => {
            drop(doing.into_disk());
            unreachable!()
        }
    }
}

/// An opening of the disk begins.
fn restart(nodes: Nodes, node: NodeId, disk: NodeDisk) -> Doing
    requires { node < nodes }
    ensures doing { doing_of result ≡ seats.Opening Settling }
    ensures areas { areas_of result ≡ disk.below.areas }
    ensures calls { calls_of result ≡ disk.calls }
    ensures steady { disk.due ≡ None → IsSteady nodes node result }
{
    Doing::Opening(Opening::start(nodes, node, disk))
}

/// The next device call of a node fails with this fill. A node that is down or has failed refuses it, and where
/// no call is due nothing happens.
pub fn fail(
    alloc: Global,
    nodes: Nodes,
    node: NodeId,
    doing: &mut Doing,
    fill: Vec<u8>,
) -> Result<Outcome, Refusal>
    ensures { CarriesFailing nodes node fill.items doing.old result doing.new }
{
    match doing {
        Doing::Stopped(_) => Err(Refusal::Down),
        Doing::Faulted(_) => Err(Refusal::Failed),
        _ => replace_with(
            doing,
            fill,
            |doing, fill| -> (Doing, Result<Outcome, Refusal>)
                ensures { CarriesFailing nodes node fill.items doing result.1 result.0 }
            { fail_call(alloc, nodes, node, doing, fill) },
        ),
    }
}

/// The next device call of a node that opens or serves fails with this fill, if one is due.
fn fail_call(
    alloc: Global,
    nodes: Nodes,
    node: NodeId,
    doing: Doing,
    fill: Vec<u8>,
) -> (Doing, Result<Outcome, Refusal>)
    ensures { CarriesFailing nodes node fill.items doing result.1 result.0 }
{
    match doing {
        Doing::Stopped(disk) => (Doing::Stopped(disk), Err(Refusal::Down)),
        Doing::Faulted(disk) => (Doing::Faulted(disk), Err(Refusal::Failed)),
        Doing::Opening(opening) => (
            Doing::Faulted(opening.fail(alloc, fill)),
            Err(Refusal::Device),
        ),
        Doing::Serving(serving) => serving.fail(fill),
    }
}

/// A crash: whatever runs is given up, and each area keeps what the cuts and the fill leave of it.
pub fn crash(doing: &mut Doing, cut_first: u64, cut_second: u64, fill: &[u8])
    ensures left { (n p : ℕ) → seat_of n p doing.new ≡ crashed cut_first cut_second fill.now (seat_of n p doing.old) }
    ensures due { due_of doing.new ≡ due_of doing.old }
    ensures down { (n p : ℕ) → due_of doing.old ≡ None → IsSteady n p doing.new }
{
    stop(doing);
    match doing {
        Doing::Stopped(disk) => disk.crash(cut_first, cut_second, fill),
        _ => unreachable!(),
    }
}

/// Whatever runs is given up: the node is down.
fn stop(doing: &mut Doing)
    ensures down { (disk : NodeDisk) × (doing.new ≡ Doing.Stopped disk) × (disk.below.areas ≡ areas_of doing.old) × (disk.due ≡ due_of doing.old) × (disk.calls ≡ calls_of doing.old) }
    ensures opening { (o : OpeningState NodeDisk) → doing.old ≡ Doing.Opening o → doing.new ≡ Doing.Stopped o.disk }
{
    match doing {
        Doing::Stopped(_) => (),
        _ => replace_with(
            doing,
            (),
            |doing, _| -> (Doing, ())
                ensures down { (disk : NodeDisk) × (result.0 ≡ Doing.Stopped disk) × (disk.below.areas ≡ areas_of doing) × (disk.due ≡ due_of doing) × (disk.calls ≡ calls_of doing) }
                ensures opening { (o : OpeningState NodeDisk) → doing ≡ Doing.Opening o → result.0 ≡ Doing.Stopped o.disk }
            { (Doing::Stopped(doing.into_disk()), ()) },
        ),
    }
}

/// The next device call of an opening, which stays in its place until it ends.
fn open_on(alloc: Global, doing: &mut Doing) -> Result<Outcome, Refusal>
    requires { (o : OpeningState NodeDisk) × (doing.old ≡ Doing.Opening o) }
    ensures { (n p : ℕ) → Carries n p NodeEvent.Device doing.old result doing.new }
{
    match doing {
        Doing::Opening(opening) => match opening.step_on(alloc) {
            Ok(Stepped::More) => Ok(Outcome::Quiet),
            Ok(Stepped::Ended) => close(alloc, doing),
            Err(refusal) => {
                if is_device(refusal) {
                    fall(doing);
                } else {
                    stop(doing);
                }
                Err(refusal)
            }
        },
        _ => unreachable!(),
    }
}

/// An opening ends, which has found its end.
fn close(alloc: Global, doing: &mut Doing) -> Result<Outcome, Refusal>
    requires { (o : OpeningState NodeDisk) × (doing.old ≡ Doing.Opening o) × HasEnded o }
    ensures { (o : OpeningState NodeDisk) → doing.old ≡ Doing.Opening o → Closes o result doing.new }
{
    replace_with(
        doing,
        (),
        |doing, _| -> (Doing, Result<Outcome, Refusal>)
            requires { (o : OpeningState NodeDisk) × (doing ≡ Doing.Opening o) × HasEnded o }
            ensures { (o : OpeningState NodeDisk) → doing ≡ Doing.Opening o → Closes o result.1 result.0 }
        { close_up(alloc, doing) },
    )
}

/// The same of a node that is taken and given back.
fn close_up(alloc: Global, doing: Doing) -> (Doing, Result<Outcome, Refusal>)
    requires { (o : OpeningState NodeDisk) × (doing ≡ Doing.Opening o) × HasEnded o }
    ensures { (o : OpeningState NodeDisk) → doing ≡ Doing.Opening o → Closes o result.1 result.0 }
{
    match doing {
        Doing::Opening(opening) => match opening.close(alloc) {
            Ok((core, slots)) => serve(alloc, core, slots),
            Err((refusal, disk)) => (Doing::Stopped(disk), Err(refusal)),
        },
        _ => {
            drop(doing.into_disk());
            unreachable!()
        }
    }
}

/// Whether a refusal is a device's.
fn is_device(refusal: Refusal) -> bool
    ensures { IsTrue result ↔ (refusal ≡ Device) }
{
    matches!(refusal, Refusal::Device)
}

/// The node starts to serve.
fn serve(alloc: Global, core: Core, slots: Journal<NodeDisk>) -> (Doing, Result<Outcome, Refusal>)
    ensures { (n p : ℕ) → Serves n p core slots result.1 result.0 }
{
    match bound_names(alloc, &core) {
        Ok(names) => {
            let number = slots.facts();
            let decided = core.decided_count() as u64;
            (
                Doing::Serving(Serving::new(core, slots)),
                Ok(Outcome::Opened(number, decided, names)),
            )
        }
        Err(_) => { (Doing::Stopped(slots.into_disk()), Err(Refusal::OutOfMemory)) }
    }
}

/// The registry of the node's decided prefix.
fn bound_names(alloc: Global, core: &Core) -> Result<BoundNames, AllocError>
    ensures ok { IfOk result (λ names. names ≡ registry_of (decided_prefix core.now)) }
{
    let mut entries = Vec::new(alloc);
    for entry in core.bindings() {
        entries.push(entry)?;
    }
    Ok(BoundNames::new(entries))
}
