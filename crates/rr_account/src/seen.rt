//! What the events of a run are to decisions: acknowledgements that are heard, and openings that end.

ghost use Rattle.std.specs.Prelude.{◌≡◌, ◌++◌, map, option_map, slice_get, OnOk, IfOk};
ghost use Rattle.std.specs.List.{flat_map, zip};
ghost use Rattle.rr_account.specs.Decisions.{sent_on, acked_by, seen_of};

use crate::reasons::Reason;
use rr_text::{Event, Happening, ReportLine};
use rr_types::{
    Body, Command, Estimate, Input, Instance, Message, NodeEvent, NodeId, Op, Round, made_of,
};
use std::alloc::{AllocError, Global};

/// What an event is to decisions.
#[derive(Clone, Copy)]
pub(crate) enum Seen {
    /// The first node hears an acknowledgement of the second, of this round of this instance.
    Acked(NodeId, NodeId, Instance, Round),
    /// The node has opened. What it heard before is forgotten.
    Opened(NodeId),
    /// Something else.
    Other,
}

// Appends the message that a line of a report tells as sent, if it tells one.
fn push_sent(wire: &mut Vec<Message>, line: &ReportLine) -> Result<(), AllocError>
    ensures { OnOk result (wire.new.items ≡ wire.old.items ++ sent_on line.now) }
{
    made_of!(Body, Command, Estimate, Message, Op);
    match line {
        ReportLine::Send { message, .. } => Ok(wire.push(*message)?),
        _ => Ok(()),
    }
}

/// The messages that lines of a report tell as sent.
pub(crate) fn sent_in(alloc: Global, lines: &[ReportLine]) -> Result<Vec<Message>, AllocError>
    ensures { IfOk result (λ wire. wire.items ≡ flat_map sent_on lines.now) }
{
    let mut wire = Vec::new(alloc);
    for line in lines {
        push_sent(&mut wire, line)?;
    }
    Ok(wire)
}

// What it is that a node hears this message.
fn acked_by(node: NodeId, message: Option<&Message>) -> Seen
    ensures { result ≡ acked_by node (option_map (λ m. m.now) message.entry) }
{
    match message {
        Some(message) => match &message.body {
            Body::Ack(instance, round) => Seen::Acked(node, message.from, *instance, *round),
            _ => Seen::Other,
        },
        None => Seen::Other,
    }
}

// What an event is of which this is said, where these messages were sent.
fn seen_of(event: &Event, reason: Reason, wire: &[Message]) -> Seen
    ensures { result ≡ seen_of event.now reason wire.now }
{
    match &event.what {
        Happening::At(NodeEvent::Told(Input::Hear(number))) => {
            if reason.is_done() {
                acked_by(event.node, wire.get(*number as usize))
            } else {
                Seen::Other
            }
        }
        Happening::At(NodeEvent::Device) => {
            if reason.is_told() {
                Seen::Opened(event.node)
            } else {
                Seen::Other
            }
        }
        _ => Seen::Other,
    }
}

/// What each event is of which this is said in turn, where these messages were sent.
pub(crate) fn seen_in(
    alloc: Global,
    events: &[Event],
    reasons: &[Reason],
    wire: &[Message],
) -> Result<Vec<Seen>, AllocError>
    ensures { IfOk result (λ seen. seen.items ≡ map (λ it. seen_of it.0 it.1 wire.now) (zip events.now reasons.now)) }
{
    events
        .iter()
        .zip(reasons)
        .map(|(event, reason)| seen_of(event, *reason, wire))
        .collect(alloc)
}
