//! Statistics of a run: what happened, and how often.

ghost use Rattle.std.specs.Prelude.{◌≡◌, ◌++◌, ℕ, map, slice_index, OnOk, IfOk, IfErr};
ghost use Rattle.std.specs.List.{AllByRecursion, flat_map};
ghost use Rattle.rr_account.specs.Counts.{count_events, event_kinds, message_kinds, reasons_of, hearings, times, refuses, count_refusals, refusals_by, said_in, AreRefusals, HasEventCounts, HasMessageCounts, AreStatistics};

use crate::account::Account;
use crate::event_sort::{EventSort, count_of};
use crate::heard::{count_again, count_heard, count_messages, count_never, hearings, times_heard};
use crate::kind::{EVENT_KINDS, MESSAGE_KINDS, is_event_kind};
use crate::reasons::{Reason, reasons_of};
use crate::rounds::rounds_taken;
use rr_text::{Event, EventKind, ReportLine};
use rr_types::{MessageKind, Refusal};
use std::alloc::{AllocError, Global};

/// The events of a kind: how many there are, how many have a line in the report that is no refusal, how many were
/// refused, and how many came to nothing.
#[derive(Clone, Copy)]
pub struct EventCount {
    pub kind: EventKind,
    pub events: u64,
    pub told: u64,
    pub refused: u64,
    pub idle: u64,
}

/// The messages of a kind: how many were sent, how many of these were heard, how often one was heard that was heard
/// before, and how many were never heard.
#[derive(Clone, Copy)]
pub struct MessageCount {
    pub kind: MessageKind,
    pub sent: u64,
    pub heard: u64,
    pub again: u64,
    pub never: u64,
}

/// The refusals of a name.
#[derive(Clone, Copy)]
pub struct RefusalCount {
    pub name: &'static str,
    pub refusals: u64,
}

/// How often what happened in a run. A decided instance took as many rounds as the highest of its rounds in a message has.
#[derive(Drop)]
pub struct Statistics {
    pub nodes: u8,
    pub decided: u64,
    pub rounds: u64,
    pub device_calls: u64,
    pub events: Vec<EventCount>,
    pub messages: Vec<MessageCount>,
    pub refusals: Vec<RefusalCount>,
}

/// How often what happened in the run of an account.
///
/// # Errors
/// `OutOfMemory`.
pub fn statistics_of(alloc: Global, account: &Account) -> Result<Statistics, Refusal>
    ensures ok { IfOk result (λ s. AreStatistics account.now s) }
    ensures err { IfErr result (λ e. e ≡ Refusal.OutOfMemory) }
{
    let reasons = reasons_of(alloc, account.lines(), account.outcomes())?;
    let counts = times_in(alloc, account, reasons.as_slice())?;
    let events = event_counts(alloc, account, reasons.as_slice())?;
    let messages = message_counts(alloc, account, counts.as_slice())?;
    let refusals = refusal_counts(alloc, account.lines())?;
    let rounds = rounds_taken(alloc, account.decided().len(), account.lines())?;
    Ok(Statistics {
        nodes: account.schedule().nodes().count(),
        decided: account.decided().len() as u64,
        rounds,
        device_calls: count_of(account.events(), reasons.as_slice(), EventSort::Calls),
        events,
        messages,
        refusals,
    })
}

// How often each message was heard, by its number, where this is said of the events in turn.
fn times_in(alloc: Global, account: &Account, reasons: &[Reason]) -> Result<Vec<u64>, AllocError>
    requires { reasons.now ≡ reasons_of account.now }
    ensures { IfOk result (λ counts. (k : ℕ) → slice_index counts.items k ≡ times (hearings account.now) k) }
{
    let heard = hearings(alloc, account.events(), reasons)?;
    times_heard(alloc, heard.as_slice())
}

// The counts of all kinds of events, of which this is said in turn.
fn event_counts(
    alloc: Global,
    account: &Account,
    reasons: &[Reason],
) -> Result<Vec<EventCount>, AllocError>
    requires { reasons.now ≡ reasons_of account.now }
    ensures kinds { IfOk result (λ rows. map (λ r. r.kind) rows.items ≡ event_kinds) }
    ensures events { IfOk result (λ rows. AllByRecursion (HasEventCounts account.now) rows.items) }
{
    let mut rows = Vec::new(alloc);
    for kind in &EVENT_KINDS {
        rows.push(event_count(account, reasons, *kind))?;
    }
    Ok(rows)
}

// The counts of a kind of events, of which this is said in turn.
fn event_count(account: &Account, reasons: &[Reason], kind: EventKind) -> EventCount
    requires { reasons.now ≡ reasons_of account.now }
    ensures kind { result.kind ≡ kind }
    ensures counts { HasEventCounts account.now result }
{
    let events = account.events();
    EventCount {
        kind,
        events: count_events(events, kind),
        told: count_of(events, reasons, EventSort::Told(kind)),
        refused: count_of(events, reasons, EventSort::Refused(kind)),
        idle: count_of(events, reasons, EventSort::Idle(kind)),
    }
}

// How many of the events are of a kind.
fn count_events(events: &[Event], kind: EventKind) -> u64
    ensures { result ≡ count_events kind events.now }
{
    let mut count = 0u64;
    for event in events {
        if is_event_kind(kind, event) {
            count += 1;
        }
    }
    count
}

// The counts of all kinds of messages, where each message was heard so often.
fn message_counts(
    alloc: Global,
    account: &Account,
    counts: &[u64],
) -> Result<Vec<MessageCount>, AllocError>
    requires { (k : ℕ) → slice_index counts.now k ≡ times (hearings account.now) k }
    ensures kinds { IfOk result (λ rows. map (λ r. r.kind) rows.items ≡ message_kinds) }
    ensures messages { IfOk result (λ rows. AllByRecursion (HasMessageCounts account.now) rows.items) }
{
    let mut rows = Vec::new(alloc);
    for kind in &MESSAGE_KINDS {
        rows.push(message_count(account, counts, *kind))?;
    }
    Ok(rows)
}

// The counts of a kind of messages, where each message was heard so often.
fn message_count(account: &Account, counts: &[u64], kind: MessageKind) -> MessageCount
    requires { (k : ℕ) → slice_index counts.now k ≡ times (hearings account.now) k }
    ensures kind { result.kind ≡ kind }
    ensures counts { HasMessageCounts account.now result }
{
    let lines = account.lines();
    MessageCount {
        kind,
        sent: count_messages(lines, kind),
        heard: count_heard(lines, counts, kind),
        again: count_again(lines, counts, kind),
        never: count_never(lines, counts, kind),
    }
}

// A refusal of each name, in the order of their numbers.
const EACH_REFUSAL: [Refusal; 18] = [
    Refusal::OutOfMemory,
    Refusal::Device,
    Refusal::Damaged { area: 0, offset: 0 },
    Refusal::Failed,
    Refusal::Down,
    Refusal::BadNodes,
    Refusal::BadName,
    Refusal::BadValue,
    Refusal::ListFull,
    Refusal::RoundsOut,
    Refusal::Malformed(0),
    Refusal::StrangeMark,
    Refusal::Busy,
    Refusal::BadEvent(0),
    Refusal::SeatsTaken,
    Refusal::TooLarge,
    Refusal::AuditNo(0),
    Refusal::NoGuard,
];

// Whether a line of a report refuses an event, by a refusal of the name that this one has.
fn refuses(line: &ReportLine, refusal: Refusal) -> bool
    ensures { result ≡ refuses refusal line.now }
{
    match line {
        ReportLine::Refuse { refusal: told, .. } => told.number() == refusal.number(),
        _ => false,
    }
}

// How many lines of a report do.
fn count_refusals(lines: &[ReportLine], refusal: Refusal) -> u64
    ensures { result ≡ count_refusals refusal lines.now }
{
    let count = lines.iter().filter(|line| refuses(line, refusal)).count();
    count as u64
}

// Appends the row of the name of a refusal, where lines refuse by it.
fn push_refusals(
    rows: &mut Vec<RefusalCount>,
    lines: &[ReportLine],
    refusal: Refusal,
) -> Result<(), AllocError>
    ensures { OnOk result (map said_in rows.new.items ≡ map said_in rows.old.items ++ refusals_by lines.now refusal) }
{
    let refusals = count_refusals(lines, refusal);
    if refusals > 0 {
        let name = refusal.name();
        rows.push(RefusalCount { name, refusals })?;
    }
    Ok(())
}

// The rows of the names of these refusals.
fn rows_of(
    alloc: Global,
    lines: &[ReportLine],
    refusals: &[Refusal],
) -> Result<Vec<RefusalCount>, AllocError>
    ensures { IfOk result (λ rows. map said_in rows.items ≡ flat_map (refusals_by lines.now) refusals.now) }
{
    let mut rows = Vec::new(alloc);
    for refusal in refusals {
        push_refusals(&mut rows, lines, *refusal)?;
    }
    Ok(rows)
}

// The refusals of each name that there are, in the order of their numbers.
fn refusal_counts(alloc: Global, lines: &[ReportLine]) -> Result<Vec<RefusalCount>, AllocError>
    ensures { IfOk result (λ rows. AreRefusals lines.now rows.items) }
{
    rows_of(alloc, lines, &EACH_REFUSAL)
}
