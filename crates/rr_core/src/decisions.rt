//! Decisions: the node takes one and owes it to each other node; where it has one, it owes it to a node that needs it.

ghost use Rattle.std.specs.Prelude.{◌≡◌, true, OnOk};
ghost use Rattle.rr_types.specs.declared.message.Body.TheVariants as say;
ghost use Rattle.rr_types.specs.Standings.{is_undecided};
ghost use Rattle.rr_model.specs.NodeState.{standing_at};
ghost use Rattle.rr_model.specs.NodeParts.{conclude};
ghost use Rattle.rr_model.specs.NodeStep.{answer, heard_body};
ghost use Rattle.rr_core.specs.Steps.{stepped};

use crate::step::Step;
use rr_types::{Body, Command, Fact, Instance, NodeId};
use std::alloc::AllocError;

/// Decides on a command, and owes the decision to each other node.
pub fn conclude(
    step: &mut Step<'_>,
    instance: Instance,
    command: &Command,
) -> Result<(), AllocError>
    requires undecided { is_undecided (standing_at step.old.state instance) ≡ true }
    ensures ok { OnOk result (step.new ≡ stepped (conclude instance command.now) step.old) }
{
    let number = step.next_number();
    step.stage(&Fact::Decide(instance, *command))?;
    // Who decides tells every other node, as in the broadcast of Chandra and Toueg (1996). So a decision can spread
    // although its coordinator crashes. Decisions may be lost and aren't restated: `answer` gives one to a node that
    // asks, or sends an estimate.
    step.owe_others(Body::Decision(instance, *command), Some(number))?;
    Ok(())
}

/// A node that has decided the instance owes the decision.
pub fn answer(step: &mut Step<'_>, instance: Instance, to: NodeId) -> Result<(), AllocError>
    ensures ok { OnOk result (step.new ≡ stepped (answer instance to) step.old) }
{
    match step.decision(instance) {
        None => Ok(()),
        Some(command) => {
            let decided = match step.backing(instance) {
                Some(backing) => backing.decided,
                None => 0,
            };
            step.owe(Body::Decision(instance, command), Some(decided), to)
        }
    }
}

/// A decision that is heard is taken where the instance has none, and passed on.
#[tactic(auto, unfolding(rr_model::specs::NodeStep::heard_body))]
pub fn hear_decision(
    step: &mut Step<'_>,
    from: NodeId,
    instance: Instance,
    command: &Command,
) -> Result<(), AllocError>
    ensures ok { OnOk result (step.new ≡ stepped (heard_body from (say.Decision instance command.now)) step.old) }
{
    if step.is_undecided(instance) {
        conclude(step, instance, command)
    } else {
        Ok(())
    }
}

/// A question that is heard is answered where its instance has decided.
#[tactic(auto, unfolding(rr_model::specs::NodeStep::heard_body))]
pub fn hear_ask(step: &mut Step<'_>, from: NodeId, instance: Instance) -> Result<(), AllocError>
    ensures ok { OnOk result (step.new ≡ stepped (heard_body from (say.Ask instance)) step.old) }
{
    answer(step, instance, from)
}
