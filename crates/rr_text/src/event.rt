//! The events of a schedule.

ghost use Rattle.std.specs.Prelude.{◌≡◌};
ghost use Rattle.rr_text.specs.Events.{event_of, told_at, kind_of, kind_at_node, kind_of_input};

use crate::kind::EventKind;
use rr_types::{Input, NodeEvent, NodeId};
use std::marker::Model;

/// What a crash or a failed write leaves in places that no sync covers: these bytes in turn, repeated.
/// No bytes: what a read gives there, or what was written.
#[derive(Debug, Drop)]
pub struct Fill {
    bytes: Vec<u8>,
}

impl Model for Fill {
    ghost use Rattle.std.specs.Prelude.{ℕ, List};

    ghost Value = { List ℕ };

    ghost view = { λ f. f.bytes.items };
}

impl Fill {
    /// The fill of these bytes. It keeps the vector.
    pub fn new(bytes: Vec<u8>) -> Fill
        ensures { result ≡ bytes.items }
    {
        Fill { bytes }
    }

    /// Its bytes.
    pub fn as_bytes(&self) -> &[u8]
        ensures { result.now ≡ self.now }
    {
        let bytes = &self.bytes;
        bytes
    }
}

/// An event of a schedule: what happens at which node.
#[derive(Debug, Drop)]
pub struct Event {
    pub node: NodeId,
    pub what: Happening,
}

/// What happens at a node by an event of a schedule.
#[derive(Debug, Drop)]
pub enum Happening {
    /// An event of the node. It hears a message by the message's number on the wire, from 0.
    At(NodeEvent<u32>),
    /// The next device call of the node's opening or job fails: a write leaves the fill in its range.
    Fail(Fill),
    /// The node crashes: area 0 keeps `cut_0` bytes and area 1 `cut_1`, as far as their syncs leave the
    /// choice, and loose places take the fill.
    Crash { cut_0: u32, cut_1: u32, fill: Fill },
}

impl Event {
    /// An event of a node.
    pub fn at(node: NodeId, event: NodeEvent<u32>) -> Event
        ensures { result ≡ event_of node event }
    {
        Event {
            node,
            what: Happening::At(event),
        }
    }

    /// A node is told this.
    pub fn told(node: NodeId, input: Input<u32>) -> Event
        ensures { result ≡ told_at node input }
    {
        Event::at(node, NodeEvent::Told(input))
    }
}

impl Happening {
    /// Its kind.
    pub fn kind(&self) -> EventKind
        ensures { result ≡ kind_of self.now }
    {
        match self {
            Happening::At(event) => kind_at_node(event),
            Happening::Fail(_) => EventKind::Fail,
            Happening::Crash { .. } => EventKind::Crash,
        }
    }
}

/// The kind of an event of a node.
fn kind_at_node(event: &NodeEvent<u32>) -> EventKind
    ensures { result ≡ kind_at_node event.now }
{
    match event {
        NodeEvent::Told(input) => kind_of_input(input),
        NodeEvent::Take => EventKind::Take,
        NodeEvent::Device => EventKind::Device,
        NodeEvent::Mark => EventKind::Mark,
        NodeEvent::Send => EventKind::Send,
        NodeEvent::Acknowledge => EventKind::Ack,
        NodeEvent::Snap => EventKind::Snap,
        NodeEvent::Restart => EventKind::Restart,
    }
}

/// The kind of what a node is told.
fn kind_of_input(input: &Input<u32>) -> EventKind
    ensures { result ≡ kind_of_input input.now }
{
    match input {
        Input::Submit(_) => EventKind::Submit,
        Input::Hear(_) => EventKind::Hear,
        Input::Suspect(_) => EventKind::Suspect,
        Input::Tick => EventKind::Tick,
        Input::Advance => EventKind::Advance,
    }
}
