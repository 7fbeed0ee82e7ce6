//! Estimates: of open instances, and the one with which an instance enters a round.

ghost use Rattle.std.specs.Prelude.{◌≡◌, ◌-◌, length, slice_get, find, option_map, false, Some};
ghost use Rattle.std.specs.Option.{option_map_or};
ghost use Rattle.rr_core.specs.Places.{is_estimate_of, is_estimate_beside, is_free, leaves_estimate, enters_with};

use crate::known::is_among;
use crate::step::Step;
use rr_state::Values;
use rr_types::{Command, Fact, Instance, OpenStanding, RequestNo};

/// Whether a command is the estimate of an instance.
#[tactic(auto, unfolding(crate::specs::Places::is_estimate_of))]
pub fn is_estimate_of(step: &Step<'_>, instance: Instance, command: &Command) -> bool
    ensures { result ≡ is_estimate_of step.now.state.rows instance command.now }
{
    match step.open(instance) {
        None => false,
        Some(at) => at.estimate_ref().is_same(command),
    }
}

/// Whether a command is the estimate of one of these instances but one.
#[tactic(auto, unfolding(crate::specs::Places::is_estimate_beside))]
pub fn is_estimate_beside(
    step: &Step<'_>,
    instances: &[Instance],
    instance: Instance,
    command: &Command,
) -> bool
    ensures { result ≡ is_estimate_beside step.now.state.rows instances.now instance command.now }
{
    for other in instances {
        if *other != instance && is_estimate_of(step, *other, command) {
            return true;
        }
    }
    false
}

/// Whether a command has none of the request numbers that were taken, and is no estimate of one of these instances
/// but one.
#[tactic(auto, unfolding(crate::specs::Places::is_free))]
fn is_free(
    step: &Step<'_>,
    instances: &[Instance],
    instance: Instance,
    taken: &[RequestNo],
    command: &Command,
) -> bool
    ensures { result ≡ is_free step.now.state.rows instances.now instance taken.now command.now }
{
    !is_among(taken, command.request) && !is_estimate_beside(step, instances, instance, command)
}

/// The first free command of these, lent.
pub fn first_free_of<'a>(
    step: &Step<'_>,
    instances: &[Instance],
    instance: Instance,
    taken: &[RequestNo],
    pool: &'a [Command],
) -> Option<&'a Command>
    ensures { option_map (λ v. v.now) result ≡ find (is_free step.now.state.rows instances.now instance taken.now) pool.now }
{
    for command in pool {
        if is_free(step, instances, instance, taken, command) {
            return Some(command);
        }
    }
    None
}

/// The first free command of the pool, lent.
pub fn first_free_in<'a>(
    step: &Step<'_>,
    instances: &[Instance],
    instance: Instance,
    taken: &[RequestNo],
    pool: Values<'a, Command>,
) -> Option<&'a Command>
    ensures { option_map (λ v. v.now) result ≡ find (is_free step.now.state.rows instances.now instance taken.now) pool.entry }
{
    let mut left = pool;
    while let Some(command) = left.next_ref() {
        if is_free(step, instances, instance, taken, command) {
            return Some(command);
        }
    }
    None
}

/// Whether a fact leaves an instance that stands so its estimate, or decides on that.
pub fn leaves_estimate(at: &OpenStanding, fact: &Fact) -> bool
    ensures { result ≡ leaves_estimate fact.now (Some at.now.estimate) }
{
    match fact {
        Fact::Enter(_, estimate) => at.estimate_ref().is_same(estimate.command_ref()),
        Fact::Propose(..) => true,
        Fact::Adopt(_, _, command) => at.estimate_ref().is_same(command),
        Fact::Decide(_, command) => at.estimate_ref().is_same(command),
    }
}

/// Whether a fact enters a round with the last of these commands.
pub fn enters_with_last(fact: &Fact, commands: &[Command]) -> bool
    ensures { result ≡ option_map_or (enters_with fact.now) (slice_get commands.now (length commands.now - 1)) false }
{
    let Some(last) = commands.last() else {
        return false;
    };
    match fact {
        Fact::Enter(_, estimate) => estimate.command_ref().is_same(last),
        Fact::Propose(..) | Fact::Adopt(..) | Fact::Decide(..) => false,
    }
}
