//! A message: what each kind of it does.

ghost use Rattle.std.specs.Prelude.{◌≡◌, true, OnOk};
ghost use Rattle.rr_types.specs.Standings.{is_undecided};
ghost use Rattle.rr_model.specs.NodeState.{standing_at};
ghost use Rattle.rr_core.specs.Steps.{stepped};
ghost use Rattle.rr_model.specs.NodeStep.{catch_up, acknowledge, take_proposal, take_estimate, heard_body, heard};
ghost use Rattle.rr_types.specs.declared.message.Body.TheVariants as say;

use crate::decisions::{answer, hear_ask, hear_decision};
use crate::entering::enter;
use crate::questions::ask;
use crate::step::Step;
use rr_types::{
    Body, Command, Estimate, Fact, Instance, Message, NodeId, Refusal, Round, coordinator,
};
use std::alloc::{AllocError, Global};

/// Where a round lies above the instance's, the instance enters it.
fn catch_up(
    step: &mut Step<'_>,
    instance: Instance,
    round: Round,
    command: &Command,
) -> Result<(), AllocError>
    requires { is_undecided (standing_at step.old.state instance) ≡ true }
    ensures ok { OnOk result (step.new ≡ stepped (catch_up instance round command.now) step.old) }
{
    if step.round(instance) < round.number() {
        enter(step, instance, round, Some(*command))
    } else {
        Ok(())
    }
}

fn acknowledge(
    step: &mut Step<'_>,
    instance: Instance,
    round: Round,
    to: NodeId,
) -> Result<(), AllocError>
    ensures ok { OnOk result (step.new ≡ stepped (acknowledge instance round to) step.old) }
{
    let adopted = match step.backing(instance) {
        Some(backing) => backing.adopted,
        None => 0,
    };
    // It leaves once the adoption is on disk. Otherwise a crash could make the node forget what the coordinator has
    // counted (Aguilera, Chen and Toueg 2000).
    step.owe(Body::Ack(instance, round), Some(adopted), to)
}

/// A proposal of the present round is adopted once; an acknowledgement is owed each time.
#[tactic(auto, unfolding(rr_model::specs::NodeStep::take_proposal))]
fn take_proposal(
    step: &mut Step<'_>,
    instance: Instance,
    round: Round,
    command: &Command,
    from: NodeId,
) -> Result<(), AllocError>
    ensures ok { OnOk result (step.new ≡ stepped (take_proposal instance round command.now from) step.old) }
{
    if step.round(instance) != round.number() {
        return Ok(());
    }
    // Adoption stamps the estimate with its round, so a smaller stamp means: not adopted yet (Chandra and Toueg 1996,
    // phase 3). A further copy is only acknowledged again. The first acknowledgement may be lost, or a coordinator
    // that crashed has forgotten it (Aguilera, Chen and Toueg 2000).
    if step.stamp(instance) < round.number() {
        step.stage(&Fact::Adopt(instance, round, *command))?;
    }
    acknowledge(step, instance, round, from)
}

/// An estimate of the present round is kept.
fn take_estimate(
    step: &mut Step<'_>,
    alloc: Global,
    instance: Instance,
    from: NodeId,
    estimate: &Estimate,
) -> Result<(), AllocError>
    ensures ok { OnOk result (step.new ≡ stepped (take_estimate instance from estimate.now) step.old) }
{
    if step.round(instance) == estimate.round().number() {
        step.count_estimate(alloc, instance, from, estimate)
    } else {
        Ok(())
    }
}

#[tactic(auto, using(crate::proofs::InputLemmas::undecided_first, crate::proofs::InputLemmas::pooled_undecided), unfolding(rr_model::specs::NodeStep::heard_body))]
fn hear_estimate(
    step: &mut Step<'_>,
    alloc: Global,
    from: NodeId,
    instance: Instance,
    estimate: &Estimate,
) -> Result<(), AllocError>
    ensures ok { OnOk result (step.new ≡ stepped (heard_body from (say.Estimate instance estimate.now)) step.old) }
{
    if !step.is_undecided(instance) {
        return answer(step, instance, from);
    }
    if !step.is_open(instance) {
        return ask(step, from);
    }
    let command = estimate.command_ref();
    let nodes = step.nodes();
    if coordinator(estimate.round(), nodes).index() != step.node().index() {
        return Ok(());
    }
    step.pool_add(command)?;
    catch_up(step, instance, estimate.round(), command)?;
    take_estimate(step, alloc, instance, from, estimate)
}

#[tactic(auto, using(crate::proofs::InputLemmas::undecided_first, crate::proofs::InputLemmas::pooled_undecided), unfolding(rr_model::specs::NodeStep::heard_body))]
fn hear_proposal(
    step: &mut Step<'_>,
    from: NodeId,
    instance: Instance,
    round: Round,
    command: &Command,
) -> Result<(), AllocError>
    ensures ok { OnOk result (step.new ≡ stepped (heard_body from (say.Proposal instance round command.now)) step.old) }
{
    if !step.is_undecided(instance) {
        return Ok(());
    }
    if !step.is_open(instance) {
        return ask(step, from);
    }
    let nodes = step.nodes();
    if coordinator(round, nodes).index() != from.index() {
        return Ok(());
    }
    step.pool_add(command)?;
    catch_up(step, instance, round, command)?;
    take_proposal(step, instance, round, command, from)
}

#[tactic(auto, unfolding(rr_model::specs::NodeStep::heard_body))]
fn hear_ack(
    step: &mut Step<'_>,
    alloc: Global,
    from: NodeId,
    instance: Instance,
    round: Round,
) -> Result<(), AllocError>
    ensures ok { OnOk result (step.new ≡ stepped (heard_body from (say.Ack instance round)) step.old) }
{
    if step.is_open(instance) && step.has_proposed(instance, round) {
        step.count_ack(alloc, instance, from)
    } else {
        Ok(())
    }
}

#[tactic(auto, unfolding(rr_model::specs::NodeStep::heard_body))]
fn hear_nack(
    step: &mut Step<'_>,
    alloc: Global,
    from: NodeId,
    instance: Instance,
    round: Round,
) -> Result<(), AllocError>
    ensures ok { OnOk result (step.new ≡ stepped (heard_body from (say.Nack instance round)) step.old) }
{
    if step.is_open(instance) && step.has_proposed(instance, round) {
        step.count_nack(alloc, instance, from)
    } else {
        Ok(())
    }
}

/// What a message says.
#[tactic(auto, unfolding(rr_model::specs::NodeStep::heard_body))]
fn hear_body(
    step: &mut Step<'_>,
    alloc: Global,
    from: NodeId,
    body: &Body,
) -> Result<(), AllocError>
    ensures ok { OnOk result (step.new ≡ stepped (heard_body from body.now) step.old) }
{
    match body {
        Body::Estimate(instance, estimate) => {
            hear_estimate(step, alloc, from, *instance, estimate)
        }
        Body::Proposal(instance, round, command) => {
            hear_proposal(step, from, *instance, *round, command)
        }
        Body::Ack(instance, round) => hear_ack(step, alloc, from, *instance, *round),
        Body::Decision(instance, command) => hear_decision(step, from, *instance, command),
        Body::Request(command) => step.pool_add(command),
        Body::Nack(instance, round) => hear_nack(step, alloc, from, *instance, *round),
        Body::Beat => {
            step.beat(from);
            Ok(())
        }
        Body::Suspects(set) => {
            step.reduce(from, *set);
            Ok(())
        }
        Body::Ask(instance) => hear_ask(step, from, *instance),
    }
}

/// A message; one for another node is dropped.
pub fn heard(step: &mut Step<'_>, alloc: Global, message: &Message) -> Result<(), AllocError>
    ensures ok { OnOk result (step.new ≡ stepped (heard message.now) step.old) }
{
    if message.to.index() == step.node().index() {
        hear_body(step, alloc, message.from, &message.body)
    } else {
        Ok(())
    }
}
