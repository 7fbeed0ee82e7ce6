//! Tapes.

ghost use Rattle.std.specs.Prelude.{◌≡◌};
ghost use Rattle.rr_text.specs.Taped.{IsTape};

use crate::tape_event::TapeEvent;
use rr_types::Nodes;
use std::marker::Model;

/// A tape: how many nodes there are, and up to a million events at them. All nodes begin up, without facts.
#[derive(Debug, Drop)]
pub struct Tape {
    nodes: Nodes,
    events: Vec<TapeEvent>,
}

impl Model for Tape {
    ghost use Rattle.rr_text.specs.Taped.{Taped, IsTape};

    ghost Value = { Taped };

    ghost view = { λ t. record { nodes = t.nodes; events = t.events.items } };

    ghost invariant = { λ t. IsTape (record { nodes = t.nodes; events = t.events.items }) };
}

impl Tape {
    /// The tape of these nodes and events, which are events of these nodes. It keeps the vector.
    pub fn of_parts(nodes: Nodes, events: Vec<TapeEvent>) -> Tape
        requires { IsTape (record { nodes = nodes; events = events.items }) }
        ensures { result ≡ record { nodes = nodes; events = events.items } }
    {
        Tape { nodes, events }
    }

    /// How many nodes there are.
    pub fn nodes(&self) -> Nodes
        ensures { result ≡ self.now.nodes }
    {
        self.nodes
    }

    /// The events, in their order.
    pub fn events(&self) -> &[TapeEvent]
        ensures value { result.now ≡ self.now.events }
        ensures valid { IsTape self.now }
    {
        let events = &self.events;
        events
    }
}
