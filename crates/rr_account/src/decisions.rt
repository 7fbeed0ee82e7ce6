//! Which event decided an instance.

ghost use Rattle.std.specs.Prelude.{◌≡◌, ◌≢◌, ◌⊎◌, ◌<◌, ◌-◌, ℕ, true, false, nat_le, length, slice_get, Some, OnOk, IfSome, IfOk, IfErr};
ghost use Rattle.std.specs.Ordering.{nat_cmp};
ghost use Rattle.std.specs.BTreeSet.{contains};
ghost use Rattle.rr_types.specs.Nodes.{has_member};
ghost use Rattle.rr_types.specs.Rounds.{majority_of};
ghost use Rattle.rr_model.specs.Lawful.{HasMajority, count_below};
ghost use Rattle.rr_account.specs.Decisions.{HasHeard, HeardFrom, Completes, AreDecisionsOf, AreDecisions};

use crate::account::Account;
use crate::beside::Besides;
use crate::reasons::{Reason, reasons_of};
use crate::seen::{Seen, seen_in, sent_in};
use rr_types::{Instance, Message, NodeId, NodeSet, Nodes, Refusal, Round, majority};
use std::alloc::{AllocError, Global};
use std::collections::BTreeSet;

// Whether a set has the node of this number.
fn has(nodes: Nodes, set: NodeSet, index: u8) -> bool
    requires { index < nodes }
    ensures { result ≡ has_member set index }
{
    match NodeId::new(nodes, index) {
        Some(node) => set.contains(node),
        None => unreachable!(),
    }
}

// Whether a set has a majority of all nodes.
fn is_majority(nodes: Nodes, set: NodeSet) -> bool
    ensures { result ≡ nat_le (majority_of nodes) (count_below (has_member set) nodes) }
{
    let mut count = 0u8;
    for index in 0..nodes.count() {
        if has(nodes, set, index) {
            count += 1;
        }
    }
    count >= majority(nodes)
}

// The nodes whose acknowledgements of the round were heard, with the one that is heard by an event, if it is.
fn joined(seen: &Seen, node: NodeId, instance: Instance, round: Round, set: NodeSet) -> NodeSet
    ensures { (x : ℕ) → has_member result x ≡ true → (has_member set x ≡ true) ⊎ (seen.now ≡ Seen.Acked node x instance round) }
{
    match seen {
        Seen::Acked(by, from, of, at) => {
            if *by == node && *of == instance && *at == round {
                set.with(*from)
            } else {
                set
            }
        }
        _ => set,
    }
}

// Whether a node opens at an event.
fn is_opened(seen: &Seen, node: NodeId) -> bool
    ensures { result ≡ false → seen.now ≢ Seen.Opened node }
{
    match seen {
        Seen::Opened(opened) => *opened == node,
        _ => false,
    }
}

// What the event of a place is, if there is one.
fn seen_at(seen: &[Seen], place: usize) -> Option<Seen>
    ensures { result ≡ slice_get seen.now place }
{
    match seen.get(place) {
        Some(it) => Some(*it),
        None => None,
    }
}

// The nodes whose acknowledgements of a round a node has heard from the place before this one on, by those that it has from this one
// on. None: it opens there.
fn heard_before(
    seen: &[Seen],
    left: usize,
    place: usize,
    node: NodeId,
    instance: Instance,
    round: Round,
    set: NodeSet,
) -> Option<NodeSet>
    requires some { 0 < left }
    requires heard { HeardFrom seen.now left place node instance round set }
    ensures { IfSome result (λ more. HeardFrom seen.now (left - 1) place node instance round more) }
{
    let Some(it) = seen_at(seen, left - 1) else {
        return None;
    };
    if is_opened(&it, node) {
        return None;
    }
    Some(joined(&it, node, instance, round, set))
}

// Whether a majority of all nodes has acknowledged a round by the event of a place, of what a node has heard since it opened. From
// that event on back, the acknowledgements that are needed are near.
fn is_acknowledged(
    nodes: Nodes,
    seen: &[Seen],
    place: usize,
    node: NodeId,
    instance: Instance,
    round: Round,
) -> bool
    requires { place < length seen.now }
    ensures { result ≡ true → HasMajority nodes (λ x. HasHeard seen.now place node instance round x) }
{
    let mut set = NodeSet::empty();
    let mut left = place + 1;
    while left > 0 {
        let Some(more) = heard_before(seen, left, place, node, instance, round, set) else {
            return false;
        };
        set = more;
        left -= 1;
        if is_majority(nodes, set) {
            return true;
        }
    }
    false
}

// The instance of the acknowledgement that is heard at a place, where a majority of all nodes is complete with it.
fn completed_at(nodes: Nodes, seen: &[Seen], place: usize) -> Option<Instance>
    ensures { IfSome result (λ i. Completes nodes seen.now place i) }
{
    if place >= seen.len() {
        return None;
    }
    let Some(it) = seen_at(seen, place) else {
        return None;
    };
    match it {
        Seen::Acked(node, from, instance, round) => {
            let _from = from;
            if is_acknowledged(nodes, seen, place, node, instance, round) {
                Some(instance)
            } else {
                None
            }
        }
        _ => None,
    }
}

// At which events nodes stage a decision, by those beside them.
fn deciding(
    alloc: Global,
    account: &Account,
    reasons: &[Reason],
    wire: &[Message],
    besides: Besides,
) -> Result<Vec<bool>, Refusal>
    ensures { IfErr result (λ e. e ≡ Refusal.OutOfMemory) }
{
    let mut besides = besides;
    let mut all = Vec::new(alloc);
    let mut line = 2u64;
    for (event, reason) in account.events().iter().zip(reasons) {
        all.push(besides.go_on(alloc, line, event, *reason, wire)?)?;
        line = line.saturating_add(1);
    }
    Ok(all)
}

// The instance that is decided at a place, if one is: a decision is staged there, and a majority is complete.
fn decided_at(nodes: Nodes, seen: &[Seen], staged: &[bool], place: usize) -> Option<Instance>
    ensures { IfSome result (λ i. Completes nodes seen.now place i) }
{
    match staged.get(place) {
        Some(true) => completed_at(nodes, seen, place),
        _ => None,
    }
}

// The instance, where it isn't among those that were decided before. It is among them then.
fn unless_before(
    decided: Option<Instance>,
    before: &mut BTreeSet<u32>,
) -> Result<Option<Instance>, AllocError>
    ensures first { IfOk result (λ first. (i : ℕ) → first ≡ Some i → (decided ≡ Some i) × (contains nat_cmp before.old i ≡ false) × (contains nat_cmp before.new i ≡ true)) }
    ensures keeps { OnOk result ((i : ℕ) → contains nat_cmp before.old i ≡ true → contains nat_cmp before.new i ≡ true) }
{
    match decided {
        Some(instance) => {
            if before.insert(instance.number())? {
                Ok(Some(instance))
            } else {
                Ok(None)
            }
        }
        None => Ok(None),
    }
}

// The instances that events decide, in turn.
fn decided_in(
    alloc: Global,
    nodes: Nodes,
    seen: &[Seen],
    staged: &[bool],
) -> Result<Vec<Option<Instance>>, AllocError>
    ensures { IfOk result (λ all. AreDecisionsOf nodes seen.now all.items) }
{
    let mut all = Vec::new(alloc);
    let mut before = BTreeSet::new(alloc);
    for place in 0..seen.len() {
        let decided = decided_at(nodes, seen, staged, place);
        let first = unless_before(decided, &mut before)?;
        all.push(first)?;
    }
    Ok(all)
}

/// The instance that each event of an account decides, if it decides one, by the nodes beside the run.
pub(crate) fn decisions_of(
    alloc: Global,
    account: &Account,
    besides: Besides,
) -> Result<Vec<Option<Instance>>, Refusal>
    ensures ok { IfOk result (λ decided. AreDecisions account.now decided.items) }
    ensures err { IfErr result (λ e. e ≡ Refusal.OutOfMemory) }
{
    let wire = sent_in(alloc, account.lines())?;
    let wire = wire.as_slice();
    let reasons = reasons_of(alloc, account.lines(), account.outcomes())?;
    let seen = seen_in(alloc, account.events(), reasons.as_slice(), wire)?;
    let staged = deciding(alloc, account, reasons.as_slice(), wire, besides)?;
    let nodes = account.schedule().nodes();
    let decided = decided_in(alloc, nodes, seen.as_slice(), staged.as_slice())?;
    Ok(decided)
}
