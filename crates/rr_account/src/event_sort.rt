//! Which events are counted, by what is said of them.

ghost use Rattle.std.specs.Prelude.{◌≡◌, count_by, zip};
ghost use Rattle.rr_account.specs.Counts.{is_before_the_call, is_made, is_made_and_fails, makes_call, is_counted};

use crate::kind::is_event_kind;
use crate::reasons::Reason;
use rr_text::{Event, EventKind, Happening};
use rr_types::{NodeEvent, Refusal};

/// Which events are counted.
#[derive(Clone, Copy)]
pub(crate) enum EventSort {
    /// Those of a kind of which the report has a line that is no refusal.
    Told(EventKind),
    /// Those of a kind that were refused.
    Refused(EventKind),
    /// Those of a kind that came to nothing.
    Idle(EventKind),
    /// Those that made a device call.
    Calls,
}

// Whether a node refuses a device call for this before it makes it.
fn is_before_the_call(refusal: Refusal) -> bool
    ensures { result ≡ is_before_the_call refusal }
{
    matches!(refusal, Refusal::Down | Refusal::Failed)
}

// Whether a device call that was due was made.
fn is_made(reason: Reason) -> bool
    ensures { result ≡ is_made reason }
{
    match reason {
        Reason::Told | Reason::Done => true,
        Reason::Refused(refusal) => !is_before_the_call(refusal),
        Reason::Idle(_) => false,
    }
}

// Whether a device call that was to fail was made.
fn is_made_and_fails(reason: Reason) -> bool
    ensures { result ≡ is_made_and_fails reason }
{
    matches!(reason, Reason::Refused(Refusal::Device))
}

// Whether an event made a device call.
fn makes_call(event: &Event, reason: Reason) -> bool
    ensures { result ≡ makes_call event.now reason }
{
    match &event.what {
        Happening::At(NodeEvent::Device) => is_made(reason),
        Happening::Fail(_) => is_made_and_fails(reason),
        _ => false,
    }
}

// Whether an event is one of those that are counted.
fn is_counted(sort: EventSort, event: &Event, reason: Reason) -> bool
    ensures { result ≡ is_counted sort (event.now, reason) }
{
    match sort {
        EventSort::Told(kind) => is_event_kind(kind, event) && reason.is_told(),
        EventSort::Refused(kind) => is_event_kind(kind, event) && reason.is_refused(),
        EventSort::Idle(kind) => is_event_kind(kind, event) && reason.is_idle(),
        EventSort::Calls => makes_call(event, reason),
    }
}

/// How many of the events, of which this is said in turn, are counted.
pub(crate) fn count_of(events: &[Event], reasons: &[Reason], sort: EventSort) -> u64
    ensures { result ≡ count_by (is_counted sort) (zip events.now reasons.now) }
{
    let count = events
        .iter()
        .zip(reasons)
        .filter(|(event, reason)| is_counted(sort, event, **reason))
        .count();
    count as u64
}
