//! Proposing a command in a round.

ghost use Rattle.std.specs.Prelude.{◌≡◌, OnOk};
ghost use Rattle.rr_model.specs.NodeParts.{propose};
ghost use Rattle.rr_core.specs.Steps.{stepped};

use crate::step::Step;
use rr_types::{Body, Command, Fact, Instance, Round};
use std::alloc::AllocError;

/// Proposes a command in a round, to every node.
pub fn propose(
    step: &mut Step<'_>,
    instance: Instance,
    round: Round,
    command: &Command,
) -> Result<(), AllocError>
    ensures ok { OnOk result (step.new ≡ stepped (propose instance round command.now) step.old) }
{
    let number = step.next_number();
    step.stage(&Fact::Propose(instance, round, *command))?;
    step.owe_everyone(Body::Proposal(instance, round, *command), Some(number))?;
    Ok(())
}
