//! What a node owes after its opening.

ghost use Rattle.std.specs.Prelude.{◌≡◌, IfOk};
ghost use Rattle.rr_model.specs.NodeState.{open_instances};
ghost use Rattle.rr_model.specs.NodeParts.{restate_all};
ghost use Rattle.rr_core.specs.Steps.{combined, IsFitting};
ghost use Rattle.rr_model.specs.NodeStep.{started};

use crate::restating::restate_all;
use crate::state::State;
use crate::step::{Changes, Step};
use rr_types::{NodeId, Nodes, Promise};
use std::alloc::{AllocError, Global};

/// A node after its opening, of what its facts promise and the number of the next one: it owes the restatement of its open
/// instances.
#[tactic(auto, unfolding(rr_model::specs::NodeStep::started))]
pub fn started(
    alloc: Global,
    nodes: Nodes,
    node: NodeId,
    promise: &Promise,
    next: u64,
) -> Result<State, AllocError>
    ensures ok { IfOk result (λ s. s ≡ started nodes node promise.now next) }
{
    let mut state = State::restored(alloc, nodes, node, promise, next)?;
    let mut changes = restatement(&state, alloc)?;
    state.absorb(alloc, &mut changes)?;
    Ok(state)
}

/// What the restatement of the open instances changes.
fn restatement(state: &State, alloc: Global) -> Result<Box<Changes>, AllocError>
    ensures ok { IfOk result (λ c. combined state.now c.value ≡ restate_all (open_instances state.now) state.now) }
    ensures fits { IfOk result (λ c. IsFitting state.now c.value) }
{
    let mut step = Step::new(Box::new(alloc, Changes::none(alloc, state))?, state);
    let open = step.open_instances();
    restate_all(&mut step, open.as_slice())?;
    Ok(step.into_changes())
}
