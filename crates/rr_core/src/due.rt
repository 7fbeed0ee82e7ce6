//! What a node does of its own accord, one thing after another until nothing is due.

ghost use Rattle.std.specs.Prelude.{◌≡◌, ◌<◌, false, length, IsTrue, IfSome, OnOk, option_map, Some};
ghost use Rattle.rr_types.specs.declared.promise.Standing.TheVariants as stands;
ghost use Rattle.rr_types.specs.Standings.{round_of};
ghost use Rattle.rr_model.specs.NodeState.{open_instances};
ghost use Rattle.rr_model.specs.NodeDue.{due_of_coordinator, due_of_participant, due_of_row, first_due, due, carry_out, settle};
ghost use Rattle.rr_core.specs.Steps.{stepped, IsSpent};
ghost use Rattle.rr_core.specs.Dues.{meaning_of, due_in, MovesBelowLast, CanBeCarriedOut};

use crate::decisions::conclude;
use crate::entering::{begin, enter};
use crate::proposing::propose;
use crate::step::Step;
use rr_state::{Row, Tally};
use rr_types::{Command, Instance, Op, OpenStanding, Refusal, Round, coordinator, made_of};
use std::alloc::AllocError;

/// The most turns until nothing is due.
const TURNS: u64 = 1 << 54;

/// What a node does of its own accord for an instance.
#[derive(Clone, Copy, Debug)]
pub enum Due {
    /// It enters round 1 with this command of the pool.
    Begin(Instance, Command),
    /// It proposes this command in the present round.
    Offer(Instance, Round, Command),
    /// It decides on this command.
    Conclude(Instance, Command),
    /// It enters the next round.
    MoveOn(Instance),
}

/// The same with the command lent. Mostly nothing is due, and a command is large.
#[derive(Clone, Copy, Debug)]
enum Found<'a> {
    Begin(Instance, &'a Command),
    Offer(Instance, Round, &'a Command),
    Conclude(Instance, &'a Command),
    MoveOn(Instance),
}

impl<'a> Found<'a> {
    /// What was found, with a copy of the command.
    fn due(&self) -> Due
        ensures { result ≡ due_in self.now }
    {
        made_of!(Op);
        match self {
            Found::Begin(instance, command) => Due::Begin(*instance, **command),
            Found::Offer(instance, round, command) => Due::Offer(*instance, *round, **command),
            Found::Conclude(instance, command) => Due::Conclude(*instance, **command),
            Found::MoveOn(instance) => Due::MoveOn(*instance),
        }
    }
}

#[tactic(auto, using(rr_state::proofs::TallyLemmas::joined_empty))]
fn due_of_coordinator<'a>(
    step: &Step<'_>,
    instance: Instance,
    tally: &'a Tally,
    at: &'a OpenStanding,
) -> Option<Found<'a>>
    ensures value { option_map (λ f. meaning_of (due_in f)) result ≡ due_of_coordinator step.now.state instance tally.now at.now.round at.now.proposal }
    ensures moves { IfSome result (λ f. MovesBelowLast at.now.round (due_in f)) }
{
    made_of!(Op);
    let round = at.round();
    match at.proposal_ref() {
        // Of a majority's estimates, that of the greatest stamp. If an earlier round could have decided, it is that
        // round's command (Chandra and Toueg 1996, phase 2).
        None => match tally.pick(step.nodes()) {
            Some(command) => Some(Found::Offer(instance, round, command)),
            None => None,
        },
        Some(command) => {
            // A majority has adopted the proposal on their disks, so each later coordinator that proposes has heard
            // one of these nodes. The rule is phase 4 of Chandra and Toueg (1996).
            if tally.is_acknowledged(step.nodes()) {
                return Some(Found::Conclude(instance, command));
            }
            // Where nobody refused, the answers are the acknowledgements.
            if tally.nacks.bits() == 0 {
                return None;
            }
            // A majority has answered, and somebody refused. Waiting for more answers could last for ever.
            if tally.is_answered(step.nodes()) && round.number() < rr_types::MAX_ROUND {
                Some(Found::MoveOn(instance))
            } else {
                None
            }
        }
    }
}

fn due_of_participant<'a>(step: &Step<'_>, instance: Instance, round: Round) -> Option<Found<'a>>
    ensures value { option_map (λ f. meaning_of (due_in f)) result ≡ due_of_participant step.now.state instance round }
    ensures moves { IfSome result (λ f. MovesBelowLast round (due_in f)) }
{
    let is_suspected = step.suspects().contains(coordinator(round, step.nodes()));
    if is_suspected && round.number() < rr_types::MAX_ROUND {
        Some(Found::MoveOn(instance))
    } else {
        None
    }
}

/// Whether anybody has answered in a round.
fn has_answers(tally: &Tally) -> bool
    ensures { result ≡ false → (length tally.now.estimates ≡ 0) × (tally.now.acks ≡ 0) × (tally.now.nacks ≡ 0) }
{
    tally.estimates.len() > 0 || tally.acks.bits() > 0 || tally.nacks.bits() > 0
}

#[tactic(auto, using(crate::proofs::DueLemmas::not_due))]
fn due_of_open<'a>(
    step: &Step<'_>,
    instance: Instance,
    tally: &'a Tally,
    at: &'a OpenStanding,
) -> Option<Found<'a>>
    ensures value { option_map (λ f. meaning_of (due_in f)) result ≡ due_of_row step.now.state instance tally.now (stands.Open at.now) }
    ensures moves { IfSome result (λ f. MovesBelowLast at.now.round (due_in f)) }
{
    // Most rows wait: nobody has answered, and nobody is suspected.
    if step.suspects().bits() == 0 && !has_answers(tally) {
        return None;
    }
    let round = at.round();
    if coordinator(round, step.nodes()).index() == step.node().index() {
        due_of_coordinator(step, instance, tally, at)
    } else {
        due_of_participant(step, instance, round)
    }
}

#[tactic(auto, using(crate::proofs::DueLemmas::decided_waits))]
fn due_of_row<'a>(step: &Step<'_>, instance: Instance, row: &'a Row) -> Option<Found<'a>>
    ensures value { option_map (λ f. meaning_of (due_in f)) result ≡ due_of_row step.now.state instance row.now.tally row.now.standing }
    ensures moves { IfSome result (λ f. MovesBelowLast (round_of (Some row.now.standing)) (due_in f)) }
{
    match row.open() {
        None => None,
        Some((at, tally)) => due_of_open(step, instance, tally, at),
    }
}

/// The first of the open instances, which these are, for which something is due. The pool is searched at most once: a
/// command is free for each instance that no fact names, or for none. It also tells whether the pool is known to have none.
#[tactic(auto, using(crate::proofs::DueLemmas::first_due_more, crate::proofs::DueLemmas::first_due_here, crate::proofs::DueLemmas::spent_by, crate::proofs::DueLemmas::spent_for))]
fn first_due<'a>(step: &'a Step<'_>, instances: &[Instance]) -> (Option<Found<'a>>, bool)
    requires { instances.now ≡ open_instances step.now.state }
    ensures value { option_map (λ f. meaning_of (due_in f)) result.0 ≡ first_due step.now.state instances.now }
    ensures ready { IfSome result.0 (λ f. CanBeCarriedOut step.now.state (due_in f)) }
    ensures spent { IsTrue result.1 → IsSpent step.now.state.rows step.now.state.pool }
{
    let mut is_pool_spent = step.is_spent();
    for instance in instances {
        match step.row(*instance) {
            Some(row) => {
                if let Some(found) = due_of_row(step, *instance, row) {
                    return (Some(found), is_pool_spent);
                }
            }
            None => {
                if !is_pool_spent {
                    if let Some(command) = step.first_free(instances, *instance) {
                        return (Some(Found::Begin(*instance, command)), false);
                    }
                    is_pool_spent = true;
                }
            }
        }
    }
    (None, is_pool_spent)
}

/// What is due: the lowest open instance to which anything applies. What is found can be carried out.
/// It also tells whether the pool is known to have no command for an instance that no fact names.
#[tactic(auto, unfolding(rr_model::specs::NodeDue::due))]
fn find_due<'a>(step: &'a Step<'_>) -> (Option<Found<'a>>, bool)
    ensures value { option_map (λ f. meaning_of (due_in f)) result.0 ≡ due step.now.state }
    ensures ready { IfSome result.0 (λ f. CanBeCarriedOut step.now.state (due_in f)) }
    ensures spent { IsTrue result.1 → IsSpent step.now.state.rows step.now.state.pool }
{
    let open = step.open_instances();
    first_due(step, open.as_slice())
}

/// The node does what is due.
#[tactic(auto, unfolding(rr_model::specs::NodeDue::carry_out))]
fn carry_out(step: &mut Step<'_>, due: Due) -> Result<(), AllocError>
    requires { CanBeCarriedOut step.old.state due }
    ensures ok { OnOk result (step.new ≡ stepped (carry_out (meaning_of due)) step.old) }
{
    match due {
        Due::Begin(instance, command) => begin(step, instance, &command),
        Due::Offer(instance, round, command) => propose(step, instance, round, &command),
        Due::Conclude(instance, command) => conclude(step, instance, &command),
        Due::MoveOn(instance) => {
            let round = step.round(instance);
            enter(step, instance, Round::at(round + 1), None)
        }
    }
}

/// The node does what is due until nothing is.
#[tactic(auto, using(crate::proofs::DueLemmas::settled, crate::proofs::DueLemmas::settle_more, crate::proofs::DueLemmas::settle_none), unfolding(rr_model::specs::NodeDue::settle))]
pub fn settle(step: &mut Step<'_>) -> Result<(), AllocError>
    ensures ok { OnOk result (step.new ≡ stepped settle step.old) }
{
    // A turn uses up one of an instance's steps, at most two a round. All instances together have at most 2^53, so the
    // turns suffice.
    if step.is_settled() {
        return Ok(());
    }
    for turn in 0..TURNS {
        let (found, is_spent) = find_due(step);
        match found {
            Some(found) => {
                let due = found.due();
                match carry_out(step, due) {
                    Ok(()) => (),
                    Err(refusal) => return Err(refusal),
                }
            }
            None => {
                step.note_settled(is_spent);
                return Ok(());
            }
        }
    }
    Ok(())
}
