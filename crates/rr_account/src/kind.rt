//! The kinds of events and of messages.

ghost use Rattle.std.specs.Prelude.{◌≡◌};
ghost use Rattle.rr_account.specs.Counts.{is_event_kind, is_message_kind};

use rr_text::{Event, EventKind};
use rr_types::{Body, MessageKind};

/// All kinds of events.
pub(crate) const EVENT_KINDS: [EventKind; 14] = [
    EventKind::Submit,
    EventKind::Hear,
    EventKind::Suspect,
    EventKind::Tick,
    EventKind::Advance,
    EventKind::Take,
    EventKind::Device,
    EventKind::Fail,
    EventKind::Mark,
    EventKind::Send,
    EventKind::Ack,
    EventKind::Snap,
    EventKind::Crash,
    EventKind::Restart,
];

/// Whether an event is of this kind.
pub(crate) fn is_event_kind(kind: EventKind, event: &Event) -> bool
    ensures { result ≡ is_event_kind kind event.now }
{
    match event.what.kind() {
        EventKind::Submit => matches!(kind, EventKind::Submit),
        EventKind::Hear => matches!(kind, EventKind::Hear),
        EventKind::Suspect => matches!(kind, EventKind::Suspect),
        EventKind::Tick => matches!(kind, EventKind::Tick),
        EventKind::Advance => matches!(kind, EventKind::Advance),
        EventKind::Take => matches!(kind, EventKind::Take),
        EventKind::Device => matches!(kind, EventKind::Device),
        EventKind::Fail => matches!(kind, EventKind::Fail),
        EventKind::Mark => matches!(kind, EventKind::Mark),
        EventKind::Send => matches!(kind, EventKind::Send),
        EventKind::Ack => matches!(kind, EventKind::Ack),
        EventKind::Snap => matches!(kind, EventKind::Snap),
        EventKind::Crash => matches!(kind, EventKind::Crash),
        EventKind::Restart => matches!(kind, EventKind::Restart),
    }
}

/// All kinds of messages.
pub(crate) const MESSAGE_KINDS: [MessageKind; 9] = [
    MessageKind::Estimate,
    MessageKind::Proposal,
    MessageKind::Ack,
    MessageKind::Decision,
    MessageKind::Request,
    MessageKind::Nack,
    MessageKind::Beat,
    MessageKind::Suspects,
    MessageKind::Ask,
];

/// Whether a message says a thing of this kind.
pub(crate) fn is_message_kind(kind: MessageKind, body: &Body) -> bool
    ensures { result ≡ is_message_kind kind body.now }
{
    match body {
        Body::Estimate(_, _) => matches!(kind, MessageKind::Estimate),
        Body::Proposal(_, _, _) => matches!(kind, MessageKind::Proposal),
        Body::Ack(_, _) => matches!(kind, MessageKind::Ack),
        Body::Decision(_, _) => matches!(kind, MessageKind::Decision),
        Body::Request(_) => matches!(kind, MessageKind::Request),
        Body::Nack(_, _) => matches!(kind, MessageKind::Nack),
        Body::Beat => matches!(kind, MessageKind::Beat),
        Body::Suspects(_) => matches!(kind, MessageKind::Suspects),
        Body::Ask(_) => matches!(kind, MessageKind::Ask),
    }
}
