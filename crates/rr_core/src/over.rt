//! The rows of a state, with those that a step has changed, the newest first.

ghost use Rattle.std.specs.Prelude.{◌≡◌, ◌≤◌, ◌<◌, ◌&&◌, ◌==◌, nat_lt, true, false, IsTrue, List, None, Some, find, option_map, MatchOption, IfSome, IfOk, OnOk, OnErr};
ghost use Rattle.std.specs.List.{list_any};
ghost use Rattle.rr_types.specs.declared.command.RequestNo.{RequestNo};
ghost use Rattle.rr_types.specs.Facts.{instance_of, after_fact};
ghost use Rattle.rr_types.specs.Standings.{round_of, IsInRound};
ghost use Rattle.rr_types.specs.Limits.{instance_count};
ghost use Rattle.rr_model.specs.NodeState as model;
ghost use Rattle.rr_model.specs.NodeState.{row_of, put_row, is_decided, undecided_from, lowest_undecided};
ghost use Rattle.rr_model.specs.NodeParts.{rows_after};
ghost use Rattle.rr_state.specs.Rowed.{has_decided};
ghost use Rattle.rr_core.specs.Steps.{put_rows, KeepsDecision, KeepsStanding, KeepDecisions};

use crate::rows::{find_row, has_decided_request};
use crate::state::State;
use rr_state::{OpenInstances, Row, is_any_decided};
use rr_types::{Fact, Instance, OPEN_INSTANCES, RequestNo};
use std::alloc::{AllocError, Global};

/// The row of an instance.
#[tactic(auto, using(crate::proofs::OverLemmas::row_changed, crate::proofs::OverLemmas::row_same))]
pub fn row_over<'a>(base: &'a State, changed: &'a [Row], instance: Instance) -> Option<&'a Row>
    ensures { MatchOption result (row_of (put_rows changed.now base.now.rows) instance ≡ None) (λ r. row_of (put_rows changed.now base.now.rows) instance ≡ Some r.now) }
{
    match find_row(changed, instance) {
        Some(row) => Some(row),
        None => base.row(instance),
    }
}

/// The newest changed row comes first. It replaces the one before it where that is of the same instance. Most steps
/// change one row, so they get room for one.
#[tactic(auto, using(crate::proofs::OverLemmas::replaced_rows, crate::proofs::OverLemmas::replaced_keep))]
pub fn put_newest(changed: &mut Vec<Row>, row: Row) -> Result<(), AllocError>
    ensures rows { OnOk result ((rows : List model.Row) → put_rows changed.new.items rows ≡ put_row row (put_rows changed.old.items rows)) }
    ensures keep { OnOk result ((rows : List model.Row) → KeepDecisions changed.old.items rows → KeepsDecision (put_rows changed.old.items rows) row → KeepDecisions changed.new.items rows) }
    ensures kept { OnErr result (changed.new.items ≡ changed.old.items) }
{
    if changed.len() > 0 && changed[0].instance == row.instance {
        changed[0] = row;
        return Ok(());
    }
    if changed.len() == 0 {
        changed.reserve_exact(1)?;
    }
    changed.insert(0, row)?;
    Ok(())
}

/// The newest changed row takes a fact on, which has this number, where it is of the fact's instance. It tells whether it is.
/// The row needs no new box then.
pub fn change_newest(
    base: &State,
    changed: &mut Vec<Row>,
    alloc: Global,
    number: u128,
    fact: &Fact,
) -> Result<bool, AllocError>
    requires round { IsInRound (option_map (λ r. r.standing) (row_of (put_rows changed.old.items base.now.rows) (instance_of fact.now))) fact.now }
    requires keeps { KeepsStanding (option_map (λ r. r.standing) (row_of (put_rows changed.old.items base.now.rows) (instance_of fact.now))) (after_fact (option_map (λ r. r.standing) (row_of (put_rows changed.old.items base.now.rows) (instance_of fact.now))) fact.now) }
    requires decided { KeepDecisions changed.old.items base.now.rows }
    ensures rows { IfOk result (λ is_newest. IsTrue is_newest → put_rows changed.new.items base.now.rows ≡ rows_after number fact.now (put_rows changed.old.items base.now.rows)) }
    ensures keep { IfOk result (λ is_newest. IsTrue is_newest → KeepDecisions changed.new.items base.now.rows) }
    ensures stay { IfOk result (λ is_newest. IsTrue is_newest → (q : RequestNo) → list_any (has_decided q) (put_rows changed.old.items base.now.rows) ≡ true → list_any (has_decided q) (put_rows changed.new.items base.now.rows) ≡ true) }
    ensures other { IfOk result (λ is_newest. is_newest ≡ false → changed.new.items ≡ changed.old.items) }
    ensures kept { OnErr result (changed.new.items ≡ changed.old.items) }
{
    if changed.len() == 0 || changed[0].instance != fact.instance() {
        return Ok(false);
    }
    changed[0].take_on(alloc, number, fact)?;
    Ok(true)
}

/// Whether a row of this instance has decided.
fn is_decided_at(rows: &[Row], number: u32) -> bool
    ensures value { result ≡ list_any (λ r. r.instance == number && is_decided r) rows.now }
    ensures range { IsTrue result → number < instance_count }
{
    for row in rows {
        if row.instance.number() == number && row.is_decided() {
            return true;
        }
    }
    false
}

/// The lowest undecided instance from `from` on.
#[tactic(auto, using(crate::proofs::OverLemmas::from_base, crate::proofs::OverLemmas::lowest_open, crate::proofs::OverLemmas::next_base, crate::proofs::OverLemmas::none_between))]
pub fn undecided_over(base: &State, changed: &[Row], from: u32) -> u32
    requires range { from ≤ instance_count }
    requires keep { KeepDecisions changed.now base.now.rows }
    ensures value { result ≡ undecided_from from (put_rows changed.now base.now.rows) }
    ensures range { result ≤ instance_count }
    ensures above { from ≤ result }
{
    let mut lowest = base.undecided_from(from);
    while is_decided_at(changed, lowest) {
        lowest = base.undecided_from(lowest + 1);
    }
    lowest
}

/// The open instances, ascending: those of the state, where no changed row has decided.
pub fn open_over(base: &State, changed: &[Row]) -> OpenInstances
    requires { KeepDecisions changed.now base.now.rows }
    ensures { result ≡ lowest_undecided 8 0 (put_rows changed.now base.now.rows) }
{
    if is_any_decided(changed) {
        lowest_over(base, changed)
    } else {
        base.window()
    }
}

/// The eight lowest undecided instances, ascending.
#[tactic(auto, using(crate::proofs::RowLemmas::lowest_next, crate::proofs::RowLemmas::lowest_done, crate::proofs::RowLemmas::push_next))]
fn lowest_over(base: &State, changed: &[Row]) -> OpenInstances
    requires { KeepDecisions changed.now base.now.rows }
    ensures { result ≡ lowest_undecided 8 0 (put_rows changed.now base.now.rows) }
{
    let mut found = OpenInstances::new();
    let mut from = 0;
    for _turn in 0..OPEN_INSTANCES {
        match Instance::new(undecided_over(base, changed, from)) {
            None => return found,
            Some(instance) => {
                found.push(instance);
                from = instance.number() + 1;
            }
        }
    }
    found
}

/// Whether an instance is one of the `count` lowest undecided ones.
#[tactic(auto, using(crate::proofs::RowLemmas::lowest_next, crate::proofs::RowLemmas::lowest_end))]
fn is_lowest_over(base: &State, changed: &[Row], count: usize, instance: Instance) -> bool
    requires { KeepDecisions changed.now base.now.rows }
    ensures { result ≡ list_any (λ j. j == instance) (lowest_undecided count 0 (put_rows changed.now base.now.rows)) }
{
    let mut from = 0;
    for _turn in 0..count {
        match Instance::new(undecided_over(base, changed, from)) {
            None => return false,
            Some(lowest) => {
                if lowest == instance {
                    return true;
                }
                from = lowest.number() + 1;
            }
        }
    }
    false
}

/// Whether an instance is one of these.
fn is_one_of(instances: &[Instance], instance: Instance) -> bool
    ensures { result ≡ list_any (λ j. j == instance) instances.now }
{
    for other in instances {
        if *other == instance {
            return true;
        }
    }
    false
}

/// Whether an instance is open: by the state, where no changed row has decided.
pub fn is_open_over(base: &State, changed: &[Row], instance: Instance) -> bool
    requires { KeepDecisions changed.now base.now.rows }
    ensures { result ≡ list_any (λ j. j == instance) (lowest_undecided 8 0 (put_rows changed.now base.now.rows)) }
{
    // That the rows ascend is told by this call alone.
    let _row = base.row(instance);
    if is_any_decided(changed) {
        is_lowest_over(base, changed, OPEN_INSTANCES, instance)
    } else {
        is_one_of(base.open(), instance)
    }
}

/// Whether an instance has a round.
fn has_round_over(base: &State, changed: &[Row], instance: Instance) -> bool
    ensures { result ≡ nat_lt 0 (round_of (option_map (λ r. r.standing) (row_of (put_rows changed.now base.now.rows) instance))) }
{
    match row_over(base, changed, instance) {
        Some(row) => row.round() > 0,
        None => false,
    }
}

/// The first of the `count` lowest undecided instances that has a round.
#[tactic(auto, using(crate::proofs::RowLemmas::lowest_next, crate::proofs::RowLemmas::lowest_end))]
pub fn lowest_in_round_over(base: &State, changed: &[Row], count: usize) -> Option<Instance>
    requires { KeepDecisions changed.now base.now.rows }
    ensures value { result ≡ find (λ i. nat_lt 0 (round_of (option_map (λ r. r.standing) (row_of (put_rows changed.now base.now.rows) i)))) (lowest_undecided count 0 (put_rows changed.now base.now.rows)) }
    ensures round { IfSome result (λ i. 0 < round_of (option_map (λ r. r.standing) (row_of (put_rows changed.now base.now.rows) i))) }
{
    let mut from = 0;
    for _turn in 0..count {
        match Instance::new(undecided_over(base, changed, from)) {
            None => return None,
            Some(lowest) => {
                if has_round_over(base, changed, lowest) {
                    return Some(lowest);
                }
                from = lowest.number() + 1;
            }
        }
    }
    None
}

/// Whether an instance has decided a command with this request number.
#[tactic(auto, using(crate::proofs::OverLemmas::request_changed))]
pub fn is_decided_request_over(base: &State, changed: &[Row], request: RequestNo) -> bool
    requires { KeepDecisions changed.now base.now.rows }
    ensures { result ≡ list_any (has_decided request) (put_rows changed.now base.now.rows) }
{
    has_decided_request(changed, request) || base.is_decided_request(request)
}

/// Whether a row of an instance above `first` has decided.
pub fn has_decided_above(rows: &[Row], first: Instance) -> bool
    ensures { result ≡ list_any (λ r. nat_lt first r.instance && is_decided r) rows.now }
{
    for row in rows {
        if first.number() < row.instance.number() && row.is_decided() {
            return true;
        }
    }
    false
}

/// Whether an instance above `first` has decided.
pub fn has_decided_above_over(base: &State, changed: &[Row], first: Instance) -> bool
    requires { KeepDecisions changed.now base.now.rows }
    ensures { result ≡ list_any (λ r. nat_lt first r.instance && is_decided r) (put_rows changed.now base.now.rows) }
{
    has_decided_above(changed, first) || base.has_decided_above(first)
}
