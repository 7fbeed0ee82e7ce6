//! A client's command.

ghost use Rattle.std.specs.Prelude.{◌≡◌, OnOk};
ghost use Rattle.rr_model.specs.NodeState.{decided_prefix};
ghost use Rattle.rr_core.specs.Steps.{stepped};
ghost use Rattle.rr_types.specs.Registry.{has_request};
ghost use Rattle.rr_model.specs.NodeStep.{submitted, submit_refusal};

use crate::state::State;
use crate::step::Step;
use rr_types::{Body, Command, Refusal};
use std::alloc::AllocError;

/// Why a submit is refused: a new request, with all instances decided here. It takes no memory.
pub fn submit_refusal(state: &State, command: &Command) -> Option<Refusal>
    ensures { result ≡ submit_refusal command.now state.now }
{
    if state.is_list_full()
        && !state.is_decided_request(command.request)
        && !state.is_waiting(command.request)
    {
        Some(Refusal::ListFull)
    } else {
        None
    }
}

/// A submit: a request that is new waits, is pooled and sent to each other node. `is_held`: whether
/// the decided prefix holds it.
#[tactic(auto, using(crate::proofs::InputLemmas::others_after_pool_add, crate::proofs::InputLemmas::others_after_wait_for), unfolding(rr_model::specs::NodeStep::submitted))]
pub fn submitted(step: &mut Step<'_>, command: &Command, is_held: bool) -> Result<(), AllocError>
    requires { is_held ≡ has_request (decided_prefix step.old.state) command.now.request }
    ensures ok { OnOk result (step.new ≡ stepped (submitted command.now) step.old) }
{
    let request = command.request;
    let is_known = is_held || step.is_waiting(request);
    step.wait_for(request)?;
    if is_known {
        return Ok(());
    }
    step.pool_add(command)?;
    step.owe_others(Body::Request(*command), None)
}
