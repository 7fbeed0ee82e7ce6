//! Entering a round: with which estimate, and what becomes of the round before.

ghost use Rattle.std.specs.Prelude.{◌≡◌, ◌<◌, true, None, Some, OnOk};
ghost use Rattle.rr_types.specs.Standings.{round_of, is_undecided};
ghost use Rattle.rr_model.specs.NodeState.{standing_at};
ghost use Rattle.rr_model.specs.NodeParts.{free_command, enter, leave_round, enter_with, entering_estimate};
ghost use Rattle.rr_core.specs.Steps.{stepped};

use crate::step::Step;
use rr_types::{Body, Command, Estimate, Fact, Instance, Round, coordinator};
use std::alloc::AllocError;

/// The first pool command that is no estimate of an open instance but this one.
#[tactic(auto, using(crate::proofs::RoundLemmas::first_free_is))]
fn free_command(step: &Step<'_>, instance: Instance) -> Option<Command>
    ensures { result ≡ free_command step.now.state instance }
{
    let open = step.open_instances();
    match step.first_free(open.as_slice(), instance) {
        Some(command) => Some(*command),
        None => None,
    }
}

/// The estimate with which an instance enters a round above its own, if there is one.
fn entering_estimate(
    step: &Step<'_>,
    instance: Instance,
    round: Round,
    heard: Option<Command>,
) -> Option<Estimate>
    requires { round_of (standing_at step.now.state instance) < round }
    ensures { result ≡ entering_estimate instance round heard step.now.state }
{
    if let Some(at) = step.open(instance) {
        // Estimate and stamp outlive the round. They carry what a majority may have adopted into the rounds that
        // follow (Chandra and Toueg 1996).
        return Some(Estimate::at(round, at.stamp(), at.estimate()));
    }
    match free_command(step, instance) {
        Some(command) => Some(Estimate::at(round, 0, command)),
        None => match heard {
            Some(command) => Some(Estimate::at(round, 0, command)),
            None => None,
        },
    }
}

/// Owes the coordinator of the present round a refusal, where the node leaves that round without adoption.
#[tactic(auto, using(crate::proofs::RoundLemmas::not_left))]
fn leave_round(step: &mut Step<'_>, instance: Instance) -> Result<(), AllocError>
    ensures ok { OnOk result (step.new ≡ stepped (leave_round instance) step.old) }
{
    match step.open(instance) {
        None => Ok(()),
        Some(at) => {
            let round = at.round();
            let to = coordinator(round, step.nodes());
            // A node that has adopted owes its Ack, and sends no Nack after it. The other order may happen, unlike
            // in Chandra and Toueg (1996): a Nack waits for no fact, and a crash may lose the entering of the next
            // round.
            if at.stamp() < round.number() && to != step.node() {
                step.owe(Body::Nack(instance, round), None, to)
            } else {
                Ok(())
            }
        }
    }
}

/// Stages the entering of a round with this estimate, and owes the estimate to the round's coordinator.
fn enter_with(step: &mut Step<'_>, instance: Instance, estimate: Estimate) -> Result<(), AllocError>
    requires undecided { is_undecided (standing_at step.old.state instance) ≡ true }
    ensures ok { OnOk result (step.new ≡ stepped (enter_with instance estimate) step.old) }
{
    let number = step.next_number();
    let to = coordinator(estimate.round(), step.nodes());
    // The estimate leaves once its round is on disk. After a crash a node that forgot it could acknowledge an earlier
    // round, although a later coordinator has counted its estimate (Aguilera, Chen and Toueg 2000).
    step.stage(&Fact::Enter(instance, estimate))?;
    step.owe(Body::Estimate(instance, estimate), Some(number), to)
}

/// An instance that no fact names enters round 1 with the command that the pool has for it.
#[tactic(auto, using(crate::proofs::RoundLemmas::unnamed_undecided))]
pub fn begin(step: &mut Step<'_>, instance: Instance, command: &Command) -> Result<(), AllocError>
    requires unnamed { standing_at step.old.state instance ≡ None }
    requires free { free_command step.old.state instance ≡ Some command.now }
    ensures ok { OnOk result (step.new ≡ stepped (enter instance 1 None) step.old) }
{
    let estimate = Estimate::at(Round::at(1), 0, *command);
    enter_with(step, instance, estimate)?;
    Ok(())
}

/// The instance enters a round above its own, with its estimate, a free command of the pool or the one heard.
#[tactic(auto, using(crate::proofs::RoundLemmas::left_undecided), unfolding(rr_model::specs::NodeParts::enter))]
pub fn enter(
    step: &mut Step<'_>,
    instance: Instance,
    round: Round,
    heard: Option<Command>,
) -> Result<(), AllocError>
    requires above { round_of (standing_at step.old.state instance) < round }
    requires undecided { is_undecided (standing_at step.old.state instance) ≡ true }
    ensures ok { OnOk result (step.new ≡ stepped (enter instance round heard) step.old) }
{
    match entering_estimate(step, instance, round, heard) {
        None => Ok(()),
        Some(estimate) => {
            leave_round(step, instance)?;
            enter_with(step, instance, estimate)
        }
    }
}
