//! The detector: what it knows of each node.

ghost use Rattle.std.specs.Prelude.{◌≡◌, ◌≤◌, length, replicate};
ghost use Rattle.rr_model.specs.NodeDetector.{new_watch, all_ticked, heard_beat, late_nodes};

use crate::watch::Watch;
use rr_types::{NodeId, NodeSet, Nodes};
use std::marker::Model;

/// What is known of each of the nodes. Behind them the array holds fresh watches, so that equal knowledge is
/// equal fields.
#[derive(Clone, Copy, Debug)]
pub struct Heartbeat {
    nodes: Nodes,
    watches: [Watch; 7],
}

impl Model for Heartbeat {
    ghost use Rattle.std.specs.Prelude.{◌-◌, ◌++◌, List, length, take, replicate};
    ghost use Rattle.rr_model.specs.NodeState.{Watch};
    ghost use Rattle.rr_model.specs.NodeDetector.{new_watch};
    ghost use Rattle.rr_state.specs.Padded.{IsPadded, inverse_view};

    ghost Value = { List Watch };

    ghost view = { λ h. take h.nodes h.watches };

    ghost invariant = { λ h. IsPadded h.nodes h.watches };

    ghost inverse = { λ ws. record { nodes = length ws; watches = ws ++ replicate (7 - length ws) new_watch } };

    ghost inverse_ok = { λ h i. inverse_view h i };
}

#[tactic(auto, using(crate::proofs::WatchLemmas::tick_more))]
fn tick_each(watches: &mut [Watch])
    ensures { watches.new ≡ all_ticked watches.old }
{
    for index in 0..watches.len() {
        watches[index] = watches[index].ticked();
    }
}

#[tactic(auto, using(crate::proofs::WatchLemmas::beat_at, crate::proofs::WatchLemmas::beat_past))]
fn beat_one(watches: &mut [Watch], node: NodeId)
    ensures { watches.new ≡ heard_beat node watches.old }
{
    let index = usize::from(node.index());
    if index < watches.len() {
        watches[index] = watches[index].beaten();
    }
}

fn late_nodes(watches: &[Watch]) -> NodeSet
    requires { length watches.now ≤ 7 }
    ensures { result ≡ late_nodes 7 watches.now }
{
    let mut late = NodeSet::empty();
    for index in 0..watches.len() {
        let Some(node) = NodeId::at(index as u8) else {
            unreachable!()
        };
        if watches[index].is_late() {
            late = late.with(node);
        }
    }
    late
}

impl Heartbeat {
    /// Nothing heard yet: four ticks without a beat are borne of each node.
    pub fn new(nodes: Nodes) -> Heartbeat
        ensures { result ≡ replicate nodes new_watch }
    {
        let _count = nodes.count();
        let fresh = Watch::new();
        Heartbeat {
            nodes,
            watches: [fresh; 7],
        }
    }

    /// A tick passes.
    pub fn tick(&mut self)
        ensures { self.new ≡ all_ticked self.old }
    {
        let count = usize::from(self.nodes.count());
        tick_each(&mut self.watches[..count]);
    }

    /// A beat of a node comes. One from a node that isn't there changes nothing.
    pub fn heard(&mut self, node: NodeId)
        ensures { self.new ≡ heard_beat node self.old }
    {
        let count = usize::from(self.nodes.count());
        beat_one(&mut self.watches[..count], node);
    }

    /// The nodes that are suspected: more ticks than are borne have come since their last beats. No node has the
    /// number 7, so none is left out: it is for the node whose detector this is to disregard itself.
    pub fn suspects(&self) -> NodeSet
        ensures value { result ≡ late_nodes 7 self.now }
        ensures few { length self.now ≤ 7 }
    {
        let count = usize::from(self.nodes.count());
        late_nodes(&self.watches[..count])
    }
}
