//! How often each message was heard.

ghost use Rattle.std.specs.Prelude.{◌≡◌, ◌<◌, ◌+◌, ◌-◌, ◌^◌, ◌&&◌, ◌==◌, nat_lt, if◌then◌else◌, ℕ, length, slice_index, count_by, zip, filter_map, IfOk};
ghost use Rattle.rr_account.specs.Counts.{heard_in, times, times_told, is_sent_kind, count_messages, count_heard, count_never, count_again, again_by, stopped};

use crate::kind::is_message_kind;
use crate::reasons::Reason;
use rr_text::{Event, Happening, ReportLine};
use rr_types::{Input, MessageKind, NodeEvent};
use std::alloc::{AllocError, Global};

// The number of the message that an event heard. A hearing that was refused or came to nothing is none.
fn heard_in(event: &Event, reason: Reason) -> Option<u32>
    ensures { result ≡ heard_in event.now reason }
{
    match &event.what {
        Happening::At(NodeEvent::Told(Input::Hear(message))) => {
            if reason.is_done() {
                Some(*message)
            } else {
                None
            }
        }
        _ => None,
    }
}

/// The numbers of the messages that events heard, of which this is said in turn, one for each time.
pub(crate) fn hearings(
    alloc: Global,
    events: &[Event],
    reasons: &[Reason],
) -> Result<Vec<u32>, AllocError>
    ensures { IfOk result (λ heard. heard.items ≡ filter_map (λ it. heard_in it.0 it.1) (zip events.now reasons.now)) }
{
    events
        .iter()
        .zip(reasons)
        .filter_map(|(event, reason)| heard_in(event, *reason))
        .collect(alloc)
}

// More than each of the numbers.
fn above(numbers: &[u32]) -> usize
    ensures { (k : ℕ) → k < length numbers.now → slice_index numbers.now k < result }
{
    let mut bound = 0usize;
    for number in numbers {
        bound = bound.max(*number as usize + 1);
    }
    bound
}

// One hearing more of a message.
fn count_hearing(counts: &mut [u64], number: u32)
    requires within { number < length counts.old }
    requires room { slice_index counts.old number < 2 ^ 64 - 1 }
    ensures { (k : ℕ) → slice_index counts.new k ≡ slice_index counts.old k + (if number == k then 1 else 0) }
{
    counts[number as usize] += 1;
}

/// How often each message is among those that were heard, by its number.
pub(crate) fn times_heard(alloc: Global, heard: &[u32]) -> Result<Vec<u64>, AllocError>
    ensures { IfOk result (λ counts. (k : ℕ) → slice_index counts.items k ≡ times heard.now k) }
{
    let mut counts = vec![in alloc; 0u64; above(heard)]?;
    for number in heard {
        count_hearing(counts.as_mut_slice(), *number);
    }
    Ok(counts)
}

// How often the message was heard of which a line tells that it was sent.
fn times_told(counts: &[u64], line: &ReportLine) -> u64
    ensures { result ≡ times_told (slice_index counts.now) line.now }
{
    match line {
        ReportLine::Send { number, .. } => match counts.get(*number as usize) {
            Some(count) => *count,
            None => 0,
        },
        _ => 0,
    }
}

// Whether a line of a report tells that a message of a kind was sent.
fn is_sent(line: &ReportLine, kind: MessageKind) -> bool
    ensures { result ≡ is_sent_kind kind line.now }
{
    match line {
        ReportLine::Send { message, .. } => is_message_kind(kind, &message.body),
        _ => false,
    }
}

/// How many lines of a report tell of a message of a kind that was sent.
pub(crate) fn count_messages(lines: &[ReportLine], kind: MessageKind) -> u64
    ensures { result ≡ count_messages kind lines.now }
{
    let mut count = 0u64;
    for line in lines {
        if is_sent(line, kind) {
            count += 1;
        }
    }
    count
}

/// How many messages of a kind were heard.
pub(crate) fn count_heard(lines: &[ReportLine], counts: &[u64], kind: MessageKind) -> u64
    ensures { result ≡ count_heard kind (slice_index counts.now) lines.now }
{
    let heard = lines
        .iter()
        .filter(|line| is_sent(line, kind) && times_told(counts, line) > 0)
        .count();
    heard as u64
}

/// How many messages of a kind were never heard.
pub(crate) fn count_never(lines: &[ReportLine], counts: &[u64], kind: MessageKind) -> u64
    ensures { result ≡ count_never kind (slice_index counts.now) lines.now }
{
    let never = lines
        .iter()
        .filter(|line| is_sent(line, kind) && times_told(counts, line) == 0)
        .count();
    never as u64
}

// How often a message of a kind was heard again of which a line tells that it was sent.
fn again_by(line: &ReportLine, counts: &[u64], kind: MessageKind) -> u64
    ensures { result ≡ again_by kind (slice_index counts.now) line.now }
{
    if is_sent(line, kind) {
        times_told(counts, line).saturating_sub(1)
    } else {
        0
    }
}

/// How often a message of a kind was heard that was heard before. The sum stops at the greatest number of 64 bits.
pub(crate) fn count_again(lines: &[ReportLine], counts: &[u64], kind: MessageKind) -> u64
    ensures { result ≡ stopped (count_again kind (slice_index counts.now) lines.now) }
{
    let mut again = 0u64;
    for line in lines {
        again = again.saturating_add(again_by(line, counts, kind));
    }
    again
}
