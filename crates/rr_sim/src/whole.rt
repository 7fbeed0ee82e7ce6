//! A whole sweep.

ghost use Rattle.std.specs.Prelude.{◌≡◌, ◌⊎◌, ◌↔◌, ◌<◌, ◌≤◌, ℕ, None, Some, length, ◌++◌, MatchOption, OnOk, IfOk, IfErr, IsErrOf};
ghost use Rattle.std.specs.List.{AllByRecursion};
ghost use Rattle.rr_text.specs.Scheduled.{IsEvent};
ghost use Rattle.rr_sim.specs.Clusters.{first_fault};
ghost use Rattle.rr_sim.specs.Sweeps.{IsSweep};

use crate::simulator::accepted;
use crate::sweeping::{SweepLine, Sweeping};
use rr_text::{Event, Schedule};
use rr_types::{Nodes, Refusal};
use std::alloc::{AllocError, Global};

/// The most events of a schedule that is swept: with a crash and an opening they make a million.
pub const MAX_SWEPT_EVENTS: usize = 999_989;

/// The refusal of events that are too many for a sweep: `BadEvent` of the line of the first that is one too many.
pub fn swept_too_far(events: &[Event]) -> Option<Refusal>
    ensures { MatchOption result (length events.now ≤ 999989) (λ e. (999989 < length events.now) × (e ≡ Refusal.BadEvent 999991)) }
{
    if events.len() > MAX_SWEPT_EVENTS {
        Some(Refusal::BadEvent(999_991))
    } else {
        None
    }
}

/// Sweeps a schedule on `nodes` nodes that are all down at first, over empty disks. For each of its device calls, in order,
/// and each ending it gives a line: what the node restarts with after a crash that ends the call so. Each line is the last one
/// of the report on the events up to the call, the crash and the opening of the node.
///
/// # Errors
/// `BadNodes` outside 1 to 7; `BadEvent` of the line of the first event whose node isn't there, else of line 999,991
/// where there are more than 999,989 events; `OutOfMemory`, also where memory runs out for an event or an opening.
pub fn sweep(
    alloc: Global,
    nodes: u8,
    schedule: &Schedule,
    seed: u64,
) -> Result<Vec<SweepLine>, Refusal>
    ensures bad_nodes { IsErrOf result Refusal.BadNodes ↔ ((nodes < 1) ⊎ (7 < nodes)) }
    ensures bad_event { (line : ℕ) → IsErrOf result (Refusal.BadEvent line) ↔ ((1 ≤ nodes) × (nodes ≤ 7)
        × ((first_fault nodes 2 schedule.now.events ≡ Some line)
        ⊎ ((first_fault nodes 2 schedule.now.events ≡ None) × (999989 < length schedule.now.events) × (line ≡ 999991)))) }
    ensures lines { IfOk result (λ lines. IsSweep nodes schedule.now.events seed lines.items) }
    ensures else_memory { IfErr result (λ e. (e ≡ Refusal.OutOfMemory) ⊎ (e ≡ Refusal.BadNodes) ⊎ ((line : ℕ) × (e ≡ Refusal.BadEvent line))) }
{
    let count = accepted(nodes, schedule)?;
    let events = schedule.events();
    match swept_too_far(events) {
        Some(refusal) => Err(refusal),
        None => Ok(sweep_events(alloc, count, events, seed)?),
    }
}

/// Sweeps the events of a schedule on `nodes` nodes.
fn sweep_events(
    alloc: Global,
    nodes: Nodes,
    events: &[Event],
    seed: u64,
) -> Result<Vec<SweepLine>, AllocError>
    requires few { nodes ≤ 7 }
    requires short { length events.now ≤ 999989 }
    requires ranges { (m : ℕ) × AllByRecursion (IsEvent m) events.now }
    requires here { first_fault nodes 2 events.now ≡ None }
    ensures lines { IfOk result (λ lines. IsSweep nodes events.now seed lines.items) }
{
    let mut sweeping = Sweeping::new(alloc, nodes, seed)?;
    let mut lines = Vec::new(alloc);
    let mut line = 2u64;
    for event in events {
        let more = sweeping.step(alloc, line, event)?;
        append(&mut lines, more)?;
        line += 1;
    }
    Ok(lines)
}

/// Appends lines.
fn append(lines: &mut Vec<SweepLine>, more: Vec<SweepLine>) -> Result<(), AllocError>
    ensures ok { OnOk result (lines.new.items ≡ lines.old.items ++ more.items) }
{
    for line in more {
        lines.push(line)?;
    }
    Ok(())
}
