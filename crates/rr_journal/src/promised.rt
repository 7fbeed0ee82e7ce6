//! A promise while facts are read.

ghost use Rattle.std.specs.Prelude.{◌≡◌, true, IfOk};
ghost use Rattle.rr_types.specs.Facts.{instance_of};
ghost use Rattle.rr_types.specs.Standings.{fits};
ghost use Rattle.rr_types.specs.Promises.{standing_in, take_on, take_on_all, all_fit};

use crate::entries::Entries;
use rr_types::{Fact, NodeId, Nodes, Standing};
use std::alloc::{AllocError, Global};

/// Takes a fact on, if it fits the promise.
#[tactic(auto, using(rr_types::proofs::StandingLemmas::fits_in_round))]
fn take_on(
    alloc: Global,
    nodes: Nodes,
    node: NodeId,
    entries: &mut Entries,
    fact: &Fact,
) -> Result<bool, AllocError>
    ensures fits { IfOk result (λ b. b ≡ fits nodes node (standing_in entries.old (instance_of fact.now)) fact.now) }
    ensures ok { IfOk result (λ b. b ≡ true → entries.new ≡ take_on entries.old fact.now) }
{
    let instance = fact.instance();
    let standing = entries.standing(instance);
    if !fact.fits(nodes, node, &standing) {
        return Ok(false);
    }
    if let Some(standing) = Standing::after(&standing, fact) {
        entries.set(alloc, instance, &standing)?;
    }
    Ok(true)
}

/// Takes facts on, oldest first, if each fits the promise before it.
pub fn take_on_all(
    alloc: Global,
    nodes: Nodes,
    node: NodeId,
    entries: &mut Entries,
    facts: &[Fact],
) -> Result<bool, AllocError>
    ensures fits { IfOk result (λ b. b ≡ all_fit nodes node entries.old facts.now) }
    ensures ok { IfOk result (λ b. b ≡ true → entries.new ≡ take_on_all entries.old facts.now) }
{
    for fact in facts {
        match take_on(alloc, nodes, node, entries, fact) {
            Ok(true) => {}
            Ok(false) => return Ok(false),
            Err(e) => return Err(e),
        }
    }
    Ok(true)
}
