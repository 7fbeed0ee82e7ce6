//! Nodes, sets of nodes, majorities and coordinators.

ghost use Rattle.std.specs.Prelude.{◌≡◌, ◌^◌, ◌<◌, ◌≤◌, ◌↔◌, ◌⊎◌, IsOk, IfOk, IsErrOf, IsSome, IfSome};
ghost use Rattle.rr_types.specs.Rounds.{majority_of, coordinator_of};
ghost use Rattle.rr_types.specs.Nodes.{has_member, with_member, without_member, joined};
ghost use Rattle.rr_types.specs.Limits.{max_nodes};

use crate::refusal::Refusal;
use crate::round::Round;
use std::marker::Model;

/// The greatest number of nodes.
pub const MAX_NODES: u8 = 7;

/// How many nodes there are: 1 to 7. The nodes are numbered from 0.
#[derive(Clone, Copy, Debug, PartialEq, Eq)]
pub struct Nodes {
    count: u8,
}

impl Model for Nodes {
    ghost use Rattle.std.specs.Prelude.{ℕ, ◌≤◌};
    ghost use Rattle.rr_types.specs.Limits.{max_nodes};

    ghost Value = { ℕ };

    ghost view = { λ n. n.count };

    ghost invariant = { λ n. (1 ≤ n.count) × (n.count ≤ max_nodes) };

    ghost inverse = { λ n. record { count = n } };
}

impl Nodes {
    /// A number of nodes from 1 to 7; another number is `BadNodes`.
    pub fn new(count: u8) -> Result<Nodes, Refusal>
        ensures valid { IsOk result ↔ ((1 ≤ count) × (count ≤ max_nodes)) }
        ensures value { IfOk result (λ n. n ≡ count) }
        ensures refused { IsErrOf result Refusal.BadNodes ↔ ((count < 1) ⊎ (max_nodes < count)) }
    {
        if 1 <= count && count <= MAX_NODES {
            Ok(Nodes { count })
        } else {
            Err(Refusal::BadNodes)
        }
    }

    /// The number, from 1 to 7.
    pub fn count(self) -> u8
        ensures value { result ≡ self }
        ensures range { (1 ≤ result) × (result ≤ max_nodes) }
    {
        self.count
    }
}

/// One of the nodes: 0 to 6. Which of these exist is said by `Nodes`.
#[derive(Clone, Copy, Debug, PartialEq, Eq, PartialOrd, Ord)]
pub struct NodeId {
    index: u8,
}

impl Model for NodeId {
    ghost use Rattle.std.specs.Prelude.{ℕ, ◌<◌};
    ghost use Rattle.rr_types.specs.Limits.{max_nodes};

    ghost Value = { ℕ };

    ghost view = { λ p. p.index };

    ghost invariant = { λ p. p.index < max_nodes };

    ghost inverse = { λ n. record { index = n } };
}

impl NodeId {
    /// The node with this number, where `nodes` has it.
    pub fn new(nodes: Nodes, index: u8) -> Option<NodeId>
        ensures valid { IsSome result ↔ (index < nodes) }
        ensures value { IfSome result (λ p. p ≡ index) }
    {
        if index < nodes.count() {
            Some(NodeId { index })
        } else {
            None
        }
    }

    /// The node with this number, 0 to 6, however many nodes there are.
    pub fn at(index: u8) -> Option<NodeId>
        ensures valid { IsSome result ↔ (index < max_nodes) }
        ensures value { IfSome result (λ p. p ≡ index) }
    {
        if index < MAX_NODES {
            Some(NodeId { index })
        } else {
            None
        }
    }

    /// Its number, from 0 to 6.
    pub fn index(self) -> u8
        ensures value { result ≡ self }
        ensures range { result < max_nodes }
    {
        self.index
    }
}

/// A set of nodes, as what a failure detector suspects.
#[derive(Clone, Copy, Debug, PartialEq, Eq)]
pub struct NodeSet {
    bits: u8,
}

impl Model for NodeSet {
    ghost use Rattle.std.specs.Prelude.{ℕ, ◌<◌};

    ghost Value = { ℕ };

    ghost view = { λ s. s.bits };

    ghost invariant = { λ s. s.bits < 128 };

    ghost inverse = { λ n. record { bits = n } };
}

impl NodeSet {
    /// No node.
    pub fn empty() -> NodeSet
        ensures { result ≡ 0 }
    {
        NodeSet { bits: 0 }
    }

    /// The set in which node p is bit p; `None` where a bit above the last node's is set.
    pub fn from_bits(nodes: Nodes, bits: u8) -> Option<NodeSet>
        ensures valid { IsSome result ↔ (bits < 2 ^ nodes) }
        ensures value { IfSome result (λ s. s ≡ bits) }
    {
        if bits < (1 << nodes.count()) {
            Some(NodeSet { bits })
        } else {
            None
        }
    }

    /// The set as bits: node p is bit p.
    pub fn bits(self) -> u8
        ensures value { result ≡ self }
        ensures range { result < 128 }
    {
        self.bits
    }

    /// Whether the set has this node.
    pub fn contains(self, node: NodeId) -> bool
        ensures { result ≡ has_member self node }
    {
        (self.bits >> node.index()) % 2 == 1
    }

    /// The set with this node too.
    pub fn with(self, node: NodeId) -> NodeSet
        ensures { result ≡ with_member self node }
    {
        if self.contains(node) {
            self
        } else {
            NodeSet {
                bits: self.bits + (1 << node.index()),
            }
        }
    }

    /// The set without this node.
    pub fn without(self, node: NodeId) -> NodeSet
        ensures { result ≡ without_member self node }
    {
        if self.contains(node) {
            NodeSet {
                bits: self.bits - (1 << node.index()),
            }
        } else {
            self
        }
    }

    /// The nodes of both sets.
    #[tactic(auto, using(crate::proofs::NodeLemmas::joined_more), unfolding(crate::specs::Nodes::joined))]
    pub fn joined(self, other: NodeSet) -> NodeSet
        ensures { result ≡ joined self other }
    {
        let mut all = self;
        let mut left = MAX_NODES;
        while left > 0 {
            left -= 1;
            let node = NodeId { index: left };
            if other.contains(node) {
                all = all.with(node);
            }
        }
        all
    }
}

/// More than half of the nodes: two majorities have a node in common.
pub fn majority(nodes: Nodes) -> u8
    ensures { result ≡ majority_of nodes }
{
    nodes.count() / 2 + 1
}

/// The coordinator of a round, which moves from node to node (Chandra and Toueg 1996).
pub fn coordinator(round: Round, nodes: Nodes) -> NodeId
    ensures value { result ≡ coordinator_of round nodes }
    ensures exists { result < nodes }
{
    NodeId {
        index: (round.number() % u32::from(nodes.count())) as u8,
    }
}
