//! A node that opens its disk, alone.

ghost use Rattle.std.specs.Prelude.{◌≡◌, ◌⊎◌, ◌+◌, ℕ, Ok, IfOk, MatchOption};
ghost use Rattle.rr_types.specs.Registry.{Bindings};
ghost use Rattle.rr_types.specs.declared.event.NodeEvent.TheVariants as event;
ghost use Rattle.rr_node.specs.declared.event.Outcome.TheVariants.{Quiet, Opened};
ghost use Rattle.rr_node.specs.Runs.{IsSpelt};
ghost use Rattle.rr_node.specs.Seats.{Stopped, seat_step};
ghost use Rattle.rr_sim.specs.Openings.{HasOpened, IsInSome, IsOpening, Opens};

use crate::cluster::shown;
use rr_node::{BoundNames, Node, Outcome};
use rr_text::ReportLine;
use rr_types::{NodeEvent, NodeId, Refusal};
use std::alloc::{AllocError, Global};

/// The device calls of an opening that formats its disk; one that finds it formatted makes no more.
const CALLS_OF_AN_OPENING: usize = 9;

/// How an opening ended: the number of the next fact, the length of the decided prefix, and its registry.
type Ended = (u64, u64, BoundNames);

/// Opens the disk of a node as a crash has left it, and gives the line by which a report tells of that.
///
/// # Errors
/// Also where a write finds no memory.
pub(crate) fn open(alloc: Global, node: NodeId, mut seat: Node) -> Result<ReportLine, AllocError>
    requires stands { (n : ℕ) × (p : ℕ) × IsInSome n p seat }
    requires down { seat.doing ≡ Stopped }
    ensures opens { IfOk result (λ line. Opens node seat line) }
{
    // a node that is down takes a restart
    let _ = seat.step(alloc, &NodeEvent::Restart);
    for _call in 0..CALLS_OF_AN_OPENING {
        if let Some((facts, decided, names)) = open_on(alloc, &mut seat)? {
            let bindings = shown(alloc, &names)?;
            return Ok(ReportLine::Restart {
                node,
                facts,
                decided,
                bindings,
            });
        }
    }
    unreachable!()
}

/// Makes the next device call of an opening, and says how it has ended if that was the last.
fn open_on(alloc: Global, seat: &mut Node) -> Result<Option<Ended>, AllocError>
    requires { (n : ℕ) × (p : ℕ) × (left : ℕ) × IsOpening n p (left + 1) seat.old }
    ensures calls { (n p left : ℕ) → IsOpening n p (left + 1) seat.old → IfOk result (λ ended. MatchOption ended
        ((seat_step event.Device seat.old ≡ (Ok Quiet, seat.new)) × IsOpening n p left seat.new)
        (λ x. (seat_step event.Device seat.old ≡ (Ok (Opened x.0 x.1 x.2), seat.new)) × HasOpened seat.new.doing)) }
    ensures spelt { IsSpelt seat.new.doing }
{
    match seat.step(alloc, &NodeEvent::Device) {
        Ok(outcome) => Ok(ended_by(outcome)),
        Err(refusal) => Err(want_of_memory(refusal)),
    }
}

/// The refusal of an opening that finds no memory. What a crash leaves is never refused for another reason; a write that
/// finds none is refused by the device.
fn want_of_memory(refusal: Refusal) -> AllocError
    requires { (refusal ≡ Refusal.OutOfMemory) ⊎ (refusal ≡ Refusal.Device) }
{
    match refusal {
        Refusal::OutOfMemory | Refusal::Device => AllocError,
        _ => unreachable!(),
    }
}

/// The end of an opening that an outcome tells of.
fn ended_by(outcome: Outcome) -> Option<Ended>
    ensures { MatchOption result ((facts decided : ℕ) (names : Bindings) → outcome ≡ Opened facts decided names → ⊥) (λ x. outcome ≡ Opened x.0 x.1 x.2) }
{
    match outcome {
        Outcome::Opened(facts, decided, names) => Some((facts, decided, names)),
        _ => None,
    }
}
