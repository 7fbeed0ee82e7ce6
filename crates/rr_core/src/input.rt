//! An input: why it is refused, or what it changes.

ghost use Rattle.std.specs.Prelude.{◌≡◌, ◌^◌, ◌≤◌, ◌⊎◌, None, Some, IfOk, IfErr, OnOk};
ghost use Rattle.rr_model.specs.NodeState.{next_number};
ghost use Rattle.rr_model.specs.NodeDue.{settle};
ghost use Rattle.rr_model.specs.NodeStep.{taken_in, input_refusal, refusal_of};
ghost use Rattle.rr_core.specs.Steps.{stepped};
ghost use Rattle.rr_core.specs.Changes.{is_repeated, IsSettled, IsStep};

use crate::due::settle;
use crate::hear::heard;
use crate::state::State;
use crate::step::{Changes, Step};
use crate::submit::{submit_refusal, submitted};
use crate::tick::{advance_refusal, advanced, ticked_on};
use rr_types::{Input, Message, Refusal};
use std::alloc::{AllocError, Global};

/// Why an input is refused for what it is. It takes no memory.
pub fn input_refusal(state: &State, input: &Input<Message>) -> Option<Refusal>
    ensures { result ≡ input_refusal input.now state.now }
{
    match input {
        Input::Submit(command) => submit_refusal(state, command),
        Input::Advance => advance_refusal(state),
        Input::Hear(_) | Input::Suspect(_) | Input::Tick => None,
    }
}

/// What an input does at once.
#[tactic(auto, unfolding(rr_model::specs::NodeStep::taken_in))]
fn take_in(
    step: &mut Step<'_>,
    alloc: Global,
    input: &Input<Message>,
    is_held: bool,
) -> Result<(), AllocError>
    requires allowed { input_refusal input.now step.old.state ≡ None }
    requires held { is_held ≡ is_repeated input.now step.old.state }
    ensures ok { OnOk result (step.new ≡ stepped (taken_in input.now) step.old) }
{
    match input {
        Input::Submit(command) => submitted(step, command, is_held),
        Input::Hear(message) => heard(step, alloc, message),
        Input::Suspect(suspects) => {
            step.suspect(*suspects);
            Ok(())
        }
        Input::Tick => ticked_on(step),
        Input::Advance => advanced(step),
    }
}

/// All that is due is done: what the step has changed then, if the next fact has a number.
#[tactic(auto, using(crate::proofs::InputSteps::settled))]
fn finish(mut step: Step<'_>) -> Result<Box<Changes>, Refusal>
    ensures ok { IfOk result (λ c. IsSettled step.entry.base step.entry.state c.value) }
    ensures refused { IfErr result (λ e. (e ≡ Refusal.OutOfMemory) ⊎ ((e ≡ Refusal.TooLarge) × (2 ^ 64 ≤ next_number (settle step.entry.state)))) }
{
    settle(&mut step)?;
    if step.next_number() > u128::from(u64::MAX) {
        return Err(Refusal::TooLarge);
    }
    Ok(step.into_changes())
}

/// What an input that isn't refused for what it is changes, in the room of other changes. `is_held`: whether it is a
/// command whose request the decided prefix holds. It is `TooLarge` where a fact would have no number.
#[tactic(auto, using(crate::proofs::InputSteps::is_step))]
pub fn input_step(
    state: &State,
    room: Box<Changes>,
    alloc: Global,
    input: &Input<Message>,
    is_held: bool,
) -> Result<Box<Changes>, Refusal>
    requires allowed { input_refusal input.now state.now ≡ None }
    requires held { is_held ≡ is_repeated input.now state.now }
    ensures ok { IfOk result (λ c. IsStep input.now state.now c.value) }
    ensures refused { IfErr result (λ e. (e ≡ Refusal.OutOfMemory) ⊎ (refusal_of input.now state.now ≡ Some e)) }
{
    let mut step = Step::new(room, state);
    take_in(&mut step, alloc, input, is_held)?;
    finish(step)
}
