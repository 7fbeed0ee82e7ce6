//! A tick and an advance.

ghost use Rattle.std.specs.Prelude.{◌≡◌, None, OnOk};
ghost use Rattle.rr_core.specs.Steps.{stepped};
ghost use Rattle.rr_model.specs.NodeStep.{ticked_on, advanced, advance_refusal};

use crate::entering::enter;
use crate::questions::ask_if_behind;
use crate::restating::restate_all;
use crate::state::State;
use crate::step::Step;
use rr_types::{Body, Refusal, Round};
use std::alloc::AllocError;

/// A tick: a beat, the detector's suspects, the restatement of the open instances, and where the node is
/// behind a question.
#[tactic(auto, using(crate::proofs::InputLemmas::everyone_after_owe), unfolding(rr_model::specs::NodeStep::ticked_on))]
pub fn ticked_on(step: &mut Step<'_>) -> Result<(), AllocError>
    ensures ok { OnOk result (step.new ≡ stepped ticked_on step.old) }
{
    step.tick_watches();
    let late = step.late_nodes();
    let open = step.open_instances();
    step.owe_others(Body::Beat, None)?;
    step.owe_everyone(Body::Suspects(late), None)?;
    restate_all(step, open.as_slice())?;
    ask_if_behind(step)
}

/// The lowest open instance that has a round enters the next one.
#[tactic(auto, using(crate::proofs::InputLemmas::below_last_round), unfolding(rr_model::specs::NodeStep::advanced))]
pub fn advanced(step: &mut Step<'_>) -> Result<(), AllocError>
    requires { advance_refusal step.old.state ≡ None }
    ensures ok { OnOk result (step.new ≡ stepped advanced step.old) }
{
    match step.lowest_in_round() {
        None => Ok(()),
        Some(instance) => {
            let round = step.round(instance);
            enter(step, instance, Round::at(round + 1), None)
        }
    }
}

/// Why an advance is refused: its instance is in the last round. It takes no memory.
pub fn advance_refusal(state: &State) -> Option<Refusal>
    ensures { result ≡ advance_refusal state.now }
{
    match state.lowest_in_round() {
        Some(instance) if state.round(instance) == rr_types::MAX_ROUND => Some(Refusal::RoundsOut),
        _ => None,
    }
}
