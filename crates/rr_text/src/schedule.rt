//! Schedules.

ghost use Rattle.std.specs.Prelude.{◌≡◌};
ghost use Rattle.rr_text.specs.Scheduled.{IsSchedule};

use crate::event::Event;
use rr_types::Nodes;
use std::marker::Model;

/// The most events of a schedule.
pub const MAX_EVENTS: usize = 1_000_000;

/// A schedule: how many nodes there are, and up to a million events at them.
#[derive(Debug, Drop)]
pub struct Schedule {
    nodes: Nodes,
    events: Vec<Event>,
}

impl Model for Schedule {
    ghost use Rattle.rr_text.specs.Scheduled.{Scheduled, IsSchedule};

    ghost Value = { Scheduled };

    ghost view = { λ s. record { nodes = s.nodes; events = s.events.items } };

    ghost invariant = { λ s. IsSchedule (record { nodes = s.nodes; events = s.events.items }) };
}

impl Schedule {
    /// The schedule of these nodes and events, which are events of these nodes. It keeps the vector.
    pub fn of_parts(nodes: Nodes, events: Vec<Event>) -> Schedule
        requires { IsSchedule (record { nodes = nodes; events = events.items }) }
        ensures { result ≡ record { nodes = nodes; events = events.items } }
    {
        Schedule { nodes, events }
    }

    /// How many nodes there are.
    pub fn nodes(&self) -> Nodes
        ensures { result ≡ self.now.nodes }
    {
        self.nodes
    }

    /// The events, in their order.
    pub fn events(&self) -> &[Event]
        ensures value { result.now ≡ self.now.events }
        ensures valid { IsSchedule self.now }
    {
        let events = &self.events;
        events
    }
}
