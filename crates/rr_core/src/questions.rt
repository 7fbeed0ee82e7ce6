//! Questions: what the first undecided instance has decided elsewhere.

ghost use Rattle.std.specs.Prelude.{◌≡◌, ◌<◌, ◌&&◌, not, [], ◌∷◌, None, OnOk, if◌then◌else◌};
ghost use Rattle.rr_types.specs.Limits.{instance_count};
ghost use Rattle.rr_model.specs.NodeState.{first_undecided, others};
ghost use Rattle.rr_model.specs.NodeStep.{is_list_full, is_behind, ask};
ghost use Rattle.rr_core.specs.Steps.{stepped};

use crate::step::Step;
use rr_types::{Body, Instance, NodeId};
use std::alloc::AllocError;

/// The node asks another what the first undecided instance has decided.
pub fn ask(step: &mut Step<'_>, to: NodeId) -> Result<(), AllocError>
    requires { first_undecided step.old.state < instance_count }
    ensures ok { OnOk result (step.new ≡ stepped (ask (to ∷ [])) step.old) }
{
    match Instance::new(step.first_undecided()) {
        Some(first) => step.owe(Body::Ask(first), None, to),
        None => unreachable!(),
    }
}

/// Where the node is behind, it asks every other node.
pub fn ask_if_behind(step: &mut Step<'_>) -> Result<(), AllocError>
    ensures ok { OnOk result (step.new ≡ stepped (λ s. if not (is_list_full s) && is_behind s then ask (others s) s else s) step.old) }
{
    match Instance::new(step.first_undecided()) {
        None => Ok(()),
        Some(first) => {
            // A node restates nothing of an instance that it has decided, and answers only an estimate or a question.
            // So one that missed the decision asks for it.
            if step.round(first) > 0 || step.has_decided_above(first) {
                step.owe_others(Body::Ask(first), None)
            } else {
                Ok(())
            }
        }
    }
}
