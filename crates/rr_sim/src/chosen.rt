//! The decided list of a wire: the commands chosen for instance 0, 1 and so on.
//!
//! Two passes go over the wire, one for who acknowledged what and one for the proposals. A message costs a few look-ups
//! in a tree, and an instance one more.

ghost use Rattle.std.specs.Prelude.{◌≡◌, ℕ, IfSome, IsSome, IfOk};
ghost use Rattle.std.specs.Ordering.{nat_cmp};
ghost use Rattle.std.specs.BTreeMap.{get};
ghost use Rattle.rr_model.specs.Sound.{IsChosen, IsDecidedList};
ghost use Rattle.rr_types.specs.declared.command.Command.{Command};
ghost use Rattle.rr_sim.specs.Chosen.{has_ack, has_acked, is_majority, chosen_by};

use rr_types::{Body, Command, Message, Nodes, majority};
use std::alloc::{AllocError, Global};
use std::collections::{BTreeMap, BTreeSet};

/// Who acknowledged what: instance, round and node.
fn acks_on(alloc: Global, wire: &[Message]) -> Result<BTreeSet<(u64, u32, u8)>, AllocError>
    ensures acks { IfOk result (λ acks. (i r q : ℕ) → has_ack acks i r q ≡ has_acked wire.now i r q) }
{
    let mut acks = BTreeSet::new(alloc);
    for message in wire {
        if let Body::Ack(instance, round) = message.body {
            let instance = u64::from(instance.number());
            acks.insert((instance, round.number(), message.from.index()))?;
        }
    }
    Ok(acks)
}

/// Whether a majority has acknowledged the round.
fn is_acked(nodes: Nodes, acks: &BTreeSet<(u64, u32, u8)>, instance: u64, round: u32) -> bool
    ensures { result ≡ is_majority nodes (has_ack acks.now instance round) }
{
    let mut count = 0u8;
    for node in 0..nodes.count() {
        if acks.contains(&(instance, round, node)) {
            count += 1;
        }
    }
    count >= majority(nodes)
}

/// The instance and the command of a proposal whose round is acknowledged by a majority.
fn chosen_by(nodes: Nodes, acks: &BTreeSet<(u64, u32, u8)>, body: &Body) -> Option<(u64, Command)>
    ensures { result ≡ chosen_by nodes (has_ack acks.now) body.now }
{
    match body {
        Body::Proposal(of, round, command) => {
            let instance = u64::from(of.number());
            if is_acked(nodes, acks, instance, round.number()) {
                Some((instance, *command))
            } else {
                None
            }
        }
        _ => None,
    }
}

/// The commands that are chosen, by their instances.
fn chosen_on(
    alloc: Global,
    nodes: Nodes,
    wire: &[Message],
) -> Result<BTreeMap<u64, Command>, AllocError>
    ensures chosen { IfOk result (λ found. (i : ℕ) → IfSome (get nat_cmp found i) (λ v. IsChosen nodes wire.now i v)) }
    ensures all { IfOk result (λ found. (i : ℕ) (v : Command) → IsChosen nodes wire.now i v → IsSome (get nat_cmp found i)) }
{
    let acks = acks_on(alloc, wire)?;
    let mut found = BTreeMap::new(alloc);
    for message in wire {
        if let Some((instance, command)) = chosen_by(nodes, &acks, &message.body) {
            found.insert(instance, command)?;
        }
    }
    Ok(found)
}

/// The longest list whose place i holds a command chosen for instance i.
pub fn decided_list(
    alloc: Global,
    nodes: Nodes,
    wire: &[Message],
) -> Result<Vec<Command>, AllocError>
    ensures list { IfOk result (λ list. IsDecidedList nodes wire.now list.items) }
{
    let found = chosen_on(alloc, nodes, wire)?;
    let mut list = Vec::new(alloc);
    while let Some(command) = found.get(&(list.len() as u64)) {
        list.push(*command)?;
    }
    Ok(list)
}
