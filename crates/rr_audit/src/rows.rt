//! An event of a tape in the words of a schedule, and its line of a report.

ghost use Rattle.std.specs.Prelude.{◌≡◌};
ghost use Rattle.rr_audit.specs.Rows.{as_scheduled, as_reported};

use rr_text::{Event, Recorded, ReportLine, TapeEvent};
use rr_types::NodeEvent;

/// The event of a schedule that an event of a tape is. A tape also has what was sent or acknowledged, which a schedule leaves out.
pub fn as_scheduled(event: &TapeEvent) -> Event
    ensures { result ≡ as_scheduled event.now }
{
    let what = match event.what {
        Recorded::Told(input) => NodeEvent::Told(input),
        Recorded::Take => NodeEvent::Take,
        Recorded::Mark => NodeEvent::Mark,
        Recorded::Sent { .. } => NodeEvent::Send,
        Recorded::Acked { .. } => NodeEvent::Acknowledge,
    };
    Event::at(event.node, what)
}

/// The line of a report that an event of a tape is: a message that was sent, or an acknowledgement.
pub fn as_reported(event: &TapeEvent) -> Option<ReportLine>
    ensures { result ≡ as_reported event.now }
{
    match event.what {
        Recorded::Sent { number, message } => Some(ReportLine::Send {
            number: u64::from(number),
            message,
        }),
        Recorded::Acked { request, reply } => Some(ReportLine::Ack {
            node: event.node,
            request,
            reply,
        }),
        _ => None,
    }
}
