//! Restating where open instances stand: the estimate or the acknowledgement, and the proposal.

ghost use Rattle.std.specs.Prelude.{◌≡◌, OnOk, Some};
ghost use Rattle.rr_model.specs.NodeState.{standing_at};
ghost use Rattle.rr_model.specs.NodeParts.{restate, restate_all, backing_at};
ghost use Rattle.rr_core.specs.Steps.{stepped};
ghost use Rattle.rr_core.specs.Rounds.{owe_coordinator};
ghost use Rattle.rr_types.specs.declared.promise.Standing.TheVariants as stands;

use crate::step::Step;
use rr_state::Backing;
use rr_types::{Body, Command, Estimate, Instance, Op, OpenStanding, coordinator, made_of};
use std::alloc::AllocError;

/// The numbers that back the messages of an instance; 0 where no fact names it.
fn backing_or_none(step: &Step<'_>, instance: Instance) -> Backing
    ensures entered { result.entered ≡ backing_at (λ b. b.entered) step.now.state instance }
    ensures proposed { result.proposed ≡ backing_at (λ b. b.proposed) step.now.state instance }
    ensures adopted { result.adopted ≡ backing_at (λ b. b.adopted) step.now.state instance }
{
    match step.backing(instance) {
        Some(backing) => backing,
        None => Backing::none(),
    }
}

/// Owes the coordinator the estimate of an open instance, or the acknowledgement where it has adopted.
#[tactic(auto, unfolding(crate::specs::Rounds::owe_coordinator))]
fn owe_coordinator(
    step: &mut Step<'_>,
    instance: Instance,
    at: &OpenStanding,
    backing: &Backing,
) -> Result<(), AllocError>
    requires entered { backing.now.entered ≡ backing_at (λ b. b.entered) step.old.state instance }
    requires adopted { backing.now.adopted ≡ backing_at (λ b. b.adopted) step.old.state instance }
    ensures ok { OnOk result (step.new ≡ stepped (owe_coordinator instance at.now) step.old) }
{
    let round = at.round();
    let to = coordinator(round, step.nodes());
    if at.stamp() < round.number() {
        let estimate = Estimate::at(round, at.stamp(), at.estimate());
        step.owe(
            Body::Estimate(instance, estimate),
            Some(backing.entered),
            to,
        )
    } else {
        step.owe(Body::Ack(instance, round), Some(backing.adopted), to)
    }
}

/// Restates where an open instance stands.
#[tactic(auto, using(crate::proofs::RoundLemmas::restate_silent))]
fn restate_open(
    step: &mut Step<'_>,
    instance: Instance,
    at: &OpenStanding,
) -> Result<(), AllocError>
    requires { standing_at step.old.state instance ≡ Some (stands.Open at.now) }
    ensures ok { OnOk result (step.new ≡ stepped (restate instance) step.old) }
{
    let backing = backing_or_none(step, instance);
    owe_coordinator(step, instance, at, &backing)?;
    match at.proposal_ref() {
        None => Ok(()),
        Some(command) => {
            let body = Body::Proposal(instance, at.round(), *command);
            step.owe_everyone(body, Some(backing.proposed))?;
            Ok(())
        }
    }
}

/// Restates where an instance stands, if it has a round.
#[tactic(auto, using(crate::proofs::RoundLemmas::not_restated))]
fn restate(step: &mut Step<'_>, instance: Instance) -> Result<(), AllocError>
    ensures ok { OnOk result (step.new ≡ stepped (restate instance) step.old) }
{
    match step.open(instance) {
        None => Ok(()),
        Some(at) => {
            made_of!(Command, Op);
            let at = *at;
            restate_open(step, instance, &at)
        }
    }
}

/// Restates where these instances stand, in order.
pub fn restate_all(step: &mut Step<'_>, instances: &[Instance]) -> Result<(), AllocError>
    ensures ok { OnOk result (step.new ≡ stepped (restate_all instances.now) step.old) }
{
    // Messages get lost, and a crash loses those that were owed. So an estimate, an Ack or a proposal is owed again at
    // each tick and after an opening, while its instance is open (after the retransmission of Aguilera, Chen and Toueg
    // 2000).
    for instance in instances {
        restate(step, *instance)?;
    }
    Ok(())
}
