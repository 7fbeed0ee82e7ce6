//! Snapshots that a flusher writes.

ghost use Rattle.std.specs.Prelude.{◌≡◌, IfOk, IfSome, IsSome};
ghost use Rattle.rr_frame.specs.Snapshots.{IsSnapshot};
ghost use Rattle.rr_threads.specs.Snapshotting.{IsBegun, HoldsMarked, IsWritten};

use crate::desk::{Desk, Due};
use crate::switching::make_all;
use rr_core::Core;
use rr_disk::Disk;
use rr_frame::Snapshot;
use rr_journal::{Journal, SwitchJob};
use rr_turn::Turnstile;
use rr_types::{NodeId, Nodes, Promise, Refusal};
use rr_window::WindowName;
use std::alloc::Global;
use std::sync::Wait;

/// The promise, where a snapshot can have it.
fn lawful(nodes: Nodes, node: NodeId, epoch: u64, next: u64, promise: Promise) -> Option<Promise>
    ensures fits { IfSome result (λ p. IsSnapshot (record { node = node; nodes = nodes; epoch = epoch; next = next; entries = p })) }
    ensures same { IfSome result (λ p. p ≡ promise) }
{
    match Snapshot::new(nodes, node, epoch, next, promise) {
        Ok(snapshot) => Some(snapshot.into_promise()),
        Err(_) => None,
    }
}

/// Begins a switch to a snapshot of what the node has marked, once one is due. None: the journal has more on its disk than that. It is
/// `Failed` where no snapshot can have the node's promise, and else as of `Journal::begin_snapshot`.
fn begin<D: Disk>(
    _due: Due,
    alloc: Global,
    core: &Core,
    journal: &mut Journal<D>,
) -> Result<Option<SwitchJob>, Refusal>
    ensures whole { IfOk result (λ job. IsSome job → (core.now.node ≡ journal.old.node) × (core.now.marked_end ≡ journal.old.next)) }
    ensures begun { IfOk result (λ job. IsBegun journal.old job journal.new) }
    ensures held { IfOk result (λ job. IfSome job (HoldsMarked core.now journal.old)) }
{
    let (nodes, node) = journal.owner();
    let next = journal.facts();
    if core.node().index() != node.index() || core.facts() != next {
        return Ok(None);
    }
    let Some(epoch) = journal.epoch().checked_add(1) else {
        return Err(Refusal::TooLarge);
    };
    let promise = core.marked_promise(alloc)?;
    match lawful(nodes, node, epoch, next, promise) {
        None => Err(Refusal::Failed),
        Some(promise) => match journal.begin_snapshot(alloc, promise) {
            Ok(job) => Ok(Some(job)),
            Err(refusal) => Err(refusal),
        },
    }
}

/// Writes a snapshot, where one is asked for and the node has marked all that its journal has. Answers whether it did. It notes the
/// snapshot, and rings for who waits for it, behind the last device call.
pub fn write_next<W: WindowName, D: Disk, T: Turnstile, R: Wait>(
    rt: &R,
    alloc: Global,
    turnstile: &T,
    desk: &Desk<W>,
    journal: &mut Journal<D>,
) -> Result<bool, Refusal>
    ensures { IfOk result (λ is_written. IsWritten is_written journal.old journal.new) }
{
    let Some(due) = desk.snapshots.next(rt) else {
        return Ok(false);
    };
    let begun = {
        let locked = desk.locked.lock(rt);
        begin(due, alloc, locked.core(), journal)
    };
    match begun {
        Err(refusal) => Err(refusal),
        Ok(None) => Ok(false),
        Ok(Some(job)) => {
            let switched = make_all(turnstile, desk.node, journal, job, due)?;
            desk.snapshots.note(rt, switched);
            desk.ring_all();
            Ok(true)
        }
    }
}
