//! Has nodes decide instances by commands that change nothing, until enough are decided.

ghost use Rattle.std.specs.Prelude.{◌≡◌, ◌≤◌, IfOk};

use rr_shell::{Asked, Outcome};
use rr_text::Answer;
use rr_types::{NodeId, Nodes, Refusal};

/// After how many commands in a row that aren't acknowledged it is given up. A node's client waits some five seconds for each.
const PATIENCE: u32 = 12;

/// What has come of it.
#[derive(Clone, Copy, Debug)]
pub(crate) enum Decided {
    /// So many instances are decided: enough.
    Enough(u64),
    /// So many are, and no more for a while.
    Stuck(u64),
    /// So many are, and the list has no room.
    Full(u64),
}

// The first node from this place on, around, that isn't stopped.
fn next_on<A: Asked>(asked: &A, nodes: Nodes, from: u8) -> Option<NodeId> {
    for step in 0..nodes.count() {
        let index = (u32::from(from) + u32::from(step)) % u32::from(nodes.count());
        if let Some(node) = NodeId::new(nodes, index as u8) {
            if asked.is_on(node) {
                return Some(node);
            }
        }
    }
    None
}

// How many instances a node knows to be decided.
fn decided_at<A: Asked>(asked: &mut A, node: NodeId) -> Result<u64, Refusal> {
    let status = asked.status(node)?;
    match &status.summary {
        Some(summary) => Ok(summary.decided),
        None => Ok(0),
    }
}

// Whether a command was acknowledged.
fn is_acknowledged(outcome: &Outcome) -> bool {
    matches!(outcome, Outcome::Answered(Answer::Acknowledged { .. }))
}

/// Has nodes decide until one of them knows that at least so many instances are decided.
///
/// # Errors
/// The refusal by which the run has ended; `Down`, where it has ended without one. Those of reserving request numbers.
pub(crate) fn decide<A: Asked>(asked: &mut A, nodes: Nodes, least: u64) -> Result<Decided, Refusal>
    ensures { IfOk result (λ d. (count : _) → d ≡ Decided.Enough count → least ≤ count) }
{
    asked.wait_until_ready()?;
    let (mut at, mut idle, mut known) = (0u8, 0u32, 0u64);
    for _ in 0..u64::MAX {
        if idle >= PATIENCE {
            break;
        }
        let Some(node) = next_on(asked, nodes, at) else {
            return Ok(Decided::Stuck(known));
        };
        at = node.index();
        known = known.max(decided_at(asked, node)?);
        if known >= least {
            return Ok(Decided::Enough(known));
        }
        let outcome = asked.sync(node)?;
        if matches!(outcome, Outcome::ListFull | Outcome::Whole) {
            return Ok(Decided::Full(known));
        }
        if is_acknowledged(&outcome) {
            idle = 0;
        } else {
            idle += 1;
            at = node.index() + 1;
        }
    }
    Ok(Decided::Stuck(known))
}
