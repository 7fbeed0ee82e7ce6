//! Groups go to the flusher and come back.

ghost use Rattle.std.specs.Prelude.{◌≡◌, Option, is_some, IfOk};
ghost use Rattle.rr_model.specs.NodeState.{NodeState};
ghost use Rattle.rr_journal.specs.Flushes.{Kept};
ghost use Rattle.rr_turn.specs.Looks.{MarksGroup, Groups, Marks, Flushes};

use crate::flusher::Unflushed;
use crate::links::Links;
use crate::locked::Locked;
use rr_journal::Synced;
use rr_types::{Group, Refusal};
use std::sync::{Mutex, Wait};

/// The node's group, synced, is marked. Answers whether more is decided by it.
fn mark<L: Links>(locked: &mut Locked, links: &mut L, synced: Synced) -> Result<bool, Refusal>
    ensures { IfOk result (λ more. MarksGroup L.gives locked.old synced more links.old links.new) }
{
    let before = locked.core().decided_count();
    links.mark(locked, synced)?;
    Ok(before < locked.core().decided_count())
}

/// As `mark`, in one section of the node's lock.
fn mark_in<L: Links, R: Wait>(
    rt: &R,
    node: &Mutex<Locked>,
    links: &mut L,
    synced: Synced,
) -> Result<bool, Refusal>
    ensures { IfOk result (λ more. (s : NodeState) × MarksGroup L.gives s synced more links.old links.new) }
{
    let mut locked = node.lock(rt);
    mark(&mut *locked, links, synced)
}

/// What comes back from the flusher is marked, and the publisher is rung where more is decided. Answers whether
/// something came. A group that wasn't flushed ends the run: the refusal is that of its flush.
pub fn mark_next<L: Links, R: Wait>(
    rt: &R,
    node: &Mutex<Locked>,
    links: &mut L,
) -> Result<bool, Refusal>
    ensures { IfOk result (λ has. (back : Option Kept) × (has ≡ is_some back) × Marks L.gives back links.old links.new) }
{
    match links.back() {
        None => Ok(false),
        Some(Ok(synced)) => {
            if mark_in(rt, node, links, synced)? {
                links.wake_publisher();
            }
            Ok(true)
        }
        Some(Err(Unflushed::Refused(refusal, _))) => Err(refusal),
        Some(Err(Unflushed::Failed(refusal))) => Err(refusal),
    }
}

/// The node's oldest staged facts, as a group; none where a group runs.
fn take<L: Links>(locked: &mut Locked, links: &mut L) -> Result<Option<Group>, Refusal>
    ensures { IfOk result (λ g. Groups L.gives locked.old g links.old links.new) }
{
    match links.group(locked) {
        Ok(group) => Ok(group),
        Err(Refusal::Busy) => Ok(None),
        Err(refusal) => Err(refusal),
    }
}

/// As `take`, in one section of the node's lock.
fn take_in<L: Links, R: Wait>(
    rt: &R,
    node: &Mutex<Locked>,
    links: &mut L,
) -> Result<Option<Group>, Refusal>
    ensures { IfOk result (λ g. (s : NodeState) × Groups L.gives s g links.old links.new) }
{
    let mut locked = node.lock(rt);
    take(&mut *locked, links)
}

/// The oldest staged facts go to the flusher, who is rung. Answers whether there were any.
pub fn flush_next<L: Links, R: Wait>(
    rt: &R,
    node: &Mutex<Locked>,
    links: &mut L,
) -> Result<bool, Refusal>
    ensures { IfOk result (λ has. Flushes L.gives has links.old links.new) }
{
    match take_in(rt, node, links)? {
        None => Ok(false),
        Some(group) => {
            links.give(group);
            links.wake_flusher();
            Ok(true)
        }
    }
}
