//! The events of a tape.

ghost use Rattle.std.specs.Prelude.{◌≡◌};
ghost use Rattle.rr_text.specs.TapeReading.{as_recorded};

use crate::event::{Event, Happening};
use rr_types::{Input, Message, NodeEvent, NodeId, Reply, RequestNo};

/// An event of a tape, at one node.
#[derive(Clone, Copy, Debug)]
pub struct TapeEvent {
    pub node: NodeId,
    pub what: Recorded,
}

/// What a tape has of an event: an input, or an output with what it was.
#[derive(Clone, Copy, Debug)]
pub enum Recorded {
    /// The node was told this. A message that it heard is named by its number on the wire, from 0.
    Told(Input<u32>),
    /// The node began to flush a group of facts.
    Take,
    /// The node marked its synced group.
    Mark,
    /// The node put a message on the wire: its number, from 0, and the message, which is from the node.
    Sent { number: u32, message: Message },
    /// The node acknowledged a request.
    Acked { request: RequestNo, reply: Reply },
}

/// The event of a tape that an event of a schedule is; `None` where a tape records it otherwise or not at all.
pub fn as_recorded(event: &Event) -> Option<TapeEvent>
    ensures { result ≡ as_recorded event.now }
{
    let what = match &event.what {
        Happening::At(NodeEvent::Told(input)) => Recorded::Told(*input),
        Happening::At(NodeEvent::Take) => Recorded::Take,
        Happening::At(NodeEvent::Mark) => Recorded::Mark,
        _ => return None,
    };
    Some(TapeEvent {
        node: event.node,
        what,
    })
}
