//! Whether two groups are one: number and facts.

ghost use Rattle.std.specs.Prelude.{◌≡◌, ◌↔◌, IsTrue};
ghost use Rattle.rr_state.specs.Same.{is_same_estimate, is_same_fact, are_same_facts};

use rr_types::{Estimate, Fact};

fn is_same_estimate(estimate: &Estimate, other: &Estimate) -> bool
    ensures { result ≡ is_same_estimate estimate.now other.now }
{
    estimate.round().number() == other.round().number()
        && estimate.stamp() == other.stamp()
        && estimate.command_ref().is_same(other.command_ref())
}

/// Whether two facts are one.
fn is_same_fact(fact: &Fact, other: &Fact) -> bool
    ensures { result ≡ is_same_fact fact.now other.now }
{
    match (fact, other) {
        (Fact::Enter(i, estimate), Fact::Enter(j, other)) => {
            i.number() == j.number() && is_same_estimate(estimate, other)
        }
        (Fact::Propose(i, r, command), Fact::Propose(j, q, other)) => {
            i.number() == j.number() && r.number() == q.number() && command.is_same(other)
        }
        (Fact::Adopt(i, r, command), Fact::Adopt(j, q, other)) => {
            i.number() == j.number() && r.number() == q.number() && command.is_same(other)
        }
        (Fact::Decide(i, command), Fact::Decide(j, other)) => {
            i.number() == j.number() && command.is_same(other)
        }
        _ => false,
    }
}

#[tactic(auto, using(crate::proofs::SameLemmas::same_more, crate::proofs::SameLemmas::same_lengths))]
fn compare_facts(facts: &[Fact], others: &[Fact]) -> bool
    ensures { result ≡ are_same_facts facts.now others.now }
{
    if facts.len() != others.len() {
        return false;
    }
    for index in 0..facts.len() {
        if !is_same_fact(&facts[index], &others[index]) {
            return false;
        }
    }
    true
}

/// Whether two lists of facts are one.
#[tactic(auto, using(crate::proofs::SameLemmas::facts_are, crate::proofs::SameLemmas::facts_are_same))]
pub fn are_same_facts(facts: &[Fact], others: &[Fact]) -> bool
    ensures { IsTrue result ↔ (facts.now ≡ others.now) }
{
    compare_facts(facts, others)
}
