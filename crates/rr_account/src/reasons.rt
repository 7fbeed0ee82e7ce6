//! What came of an event, in plain words.

ghost use Rattle.std.specs.Prelude.{◌≡◌, ◌≤◌, slice_get, IfOk, IfErr};
ghost use Rattle.rr_account.specs.Accounts.{lines_told};
ghost use Rattle.rr_account.specs.Counts.{said_by, reason_of, reasons_behind, is_told, is_done, is_refused, is_idle};
ghost use Rattle.rr_account.specs.Texts.{IsNoteOn};

use crate::outcome::{Idle, Outcome};
use rr_text::text_schedule::push_event;
use rr_text::text_word::{push_bytes, push_number};
use rr_text::{Event, EventKind, ReportLine};
use rr_types::Refusal;
use std::alloc::{AllocError, Global};
use std::io;
use std::io::Write;

/// What is said of an event.
#[derive(Clone, Copy)]
pub(crate) enum Reason {
    /// The report has a line of it.
    Told,
    /// It was done, and the report has no line of it.
    Done,
    /// It was refused.
    Refused(Refusal),
    /// It came to nothing.
    Idle(Idle),
}

impl Reason {
    /// What is said of the event of a line of a report.
    pub(crate) fn of_line(line: &ReportLine) -> Reason
        ensures { result ≡ said_by line.now }
    {
        match line {
            ReportLine::Refuse { refusal, .. } => Reason::Refused(*refusal),
            _ => Reason::Told,
        }
    }

    /// Whether the report has a line of it, which is no refusal.
    pub(crate) fn is_told(&self) -> bool
        ensures { result ≡ is_told self.now }
    {
        matches!(self, Reason::Told)
    }

    /// Whether it was done, and the report has no line of it.
    pub(crate) fn is_done(&self) -> bool
        ensures { result ≡ is_done self.now }
    {
        matches!(self, Reason::Done)
    }

    /// Whether it was refused.
    pub(crate) fn is_refused(&self) -> bool
        ensures { result ≡ is_refused self.now }
    {
        matches!(self, Reason::Refused(_))
    }

    /// Whether it came to nothing.
    pub(crate) fn is_idle(&self) -> bool
        ensures { result ≡ is_idle self.now }
    {
        matches!(self, Reason::Idle(_))
    }
}

/// What is said of an event of which this came, where the report has so many lines of the events before it.
pub(crate) fn reason_at(lines: &[ReportLine], told: usize, outcome: Outcome) -> Reason
    ensures { result ≡ reason_of outcome (slice_get lines.now told) }
{
    match outcome {
        Outcome::Quiet => Reason::Done,
        Outcome::Idle(idle) => Reason::Idle(idle),
        Outcome::Told => match lines.get(told) {
            Some(line) => Reason::of_line(line),
            None => Reason::Told,
        },
    }
}

// How many lines a report has of an event of which this came.
fn lines_told(outcome: Outcome) -> usize
    ensures value { result ≡ lines_told outcome }
    ensures one { result ≤ 1 }
{
    match outcome {
        Outcome::Told => 1,
        Outcome::Quiet | Outcome::Idle(_) => 0,
    }
}

/// What is said of each of the events of which these came, and which have these lines in the report.
pub(crate) fn reasons_of(
    alloc: Global,
    lines: &[ReportLine],
    outcomes: &[Outcome],
) -> Result<Vec<Reason>, AllocError>
    ensures { IfOk result (λ reasons. reasons.items ≡ reasons_behind lines.now 0 outcomes.now) }
{
    let mut reasons = Vec::new(alloc);
    let mut told = 0usize;
    for outcome in outcomes {
        reasons.push(reason_at(lines, told, *outcome))?;
        told += lines_told(*outcome);
    }
    Ok(reasons)
}

/// The note on the event of a line: its line, its text, and what it did or why it was refused or came to nothing.
pub(crate) fn note_of(
    alloc: Global,
    line: u64,
    event: &Event,
    reason: Reason,
) -> Result<Vec<u8>, Refusal>
    ensures ok { IfOk result (λ note. IsNoteOn line event.now note.items) }
    ensures err { IfErr result (λ e. e ≡ Refusal.OutOfMemory) }
{
    let mut note = Vec::new(alloc);
    push_bytes(&mut note, b"line ")?;
    push_number(&mut note, line)?;
    push_bytes(&mut note, b": ")?;
    push_event(&mut note, event)?;
    let tail = tail_of(alloc, event, reason)?;
    push_bytes(&mut note, tail.as_slice())?;
    Ok(note)
}

// What a note has behind the text of an event: a colon, a space and the words, where there are any.
fn tail_of(alloc: Global, event: &Event, reason: Reason) -> Result<Vec<u8>, Refusal>
    ensures { IfErr result (λ e. e ≡ Refusal.OutOfMemory) }
{
    let mut tail = Vec::new(alloc);
    if let Some(words) = reason_text(alloc, event, reason)? {
        push_bytes(&mut tail, b": ")?;
        push_bytes(&mut tail, words.as_slice())?;
    }
    Ok(tail)
}

/// What an event did, or why it was refused or came to nothing. `None` where its line of the report says it.
pub(crate) fn reason_text(
    alloc: Global,
    event: &Event,
    reason: Reason,
) -> Result<Option<Vec<u8>>, Refusal>
    ensures { IfErr result (λ e. e ≡ Refusal.OutOfMemory) }
{
    let mut text = Vec::new(alloc);
    let reasoned = match reason {
        Reason::Told => return Ok(None),
        Reason::Done => push_done(&mut text, event),
        Reason::Refused(refusal) => push_refused(&mut text, event, refusal),
        Reason::Idle(idle) => push_idle(&mut text, event, idle),
    };
    match reasoned {
        Ok(()) => Ok(Some(text)),
        Err(_) => Err(Refusal::OutOfMemory),
    }
}

// Words that may stand around the number of a node.
#[derive(Clone, Copy)]
enum Words {
    // The whole text.
    Plain(&'static str),
    // What stands before the number of the node, and behind it.
    Around(&'static str, &'static str),
}

// Appends words, with this node's number where they stand around one.
fn push_words(text: &mut Vec<u8>, words: Words, node: u8) -> io::Result<()> {
    match words {
        Words::Plain(words) => write!(text, "{words}"),
        Words::Around(front, back) => write!(text, "{front}{node}{back}"),
    }
}

// What an event did.
fn done_words(event: &Event) -> Words {
    match event.what.kind() {
        EventKind::Submit => Words::Around("node ", " takes the request"),
        EventKind::Hear => Words::Around("node ", " hears it"),
        EventKind::Suspect => Words::Around("the suspects of node ", " are these now"),
        EventKind::Tick => Words::Around("the detector of node ", " ticks"),
        EventKind::Advance => Words::Around(
            "the lowest open instance of node ",
            " that has a round, if any, enters the next",
        ),
        EventKind::Take => Words::Around("node ", " begins to flush its staged facts"),
        EventKind::Device => Words::Around("node ", " makes its next device call"),
        EventKind::Mark => Words::Around("the synced group of node ", " is marked"),
        EventKind::Snap => Words::Around("node ", " begins to switch to a snapshot"),
        EventKind::Crash => Words::Around("node ", " is down"),
        EventKind::Restart => Words::Around("node ", " begins to open its disk"),
        EventKind::Fail | EventKind::Send | EventKind::Ack => Words::Plain("done"),
    }
}

// Appends what an event did.
fn push_done(text: &mut Vec<u8>, event: &Event) -> io::Result<()> {
    push_words(text, done_words(event), event.node.index())
}

// Appends why an event was refused.
fn push_refused(text: &mut Vec<u8>, event: &Event, refusal: Refusal) -> io::Result<()> {
    let node = event.node.index();
    let words = match (refusal, event.what.kind()) {
        (Refusal::Down, _) => Words::Around("node ", " is down or opens its disk"),
        (Refusal::Failed, _) => Words::Around(
            "a device call of node ",
            " has failed, and it waits for a restart",
        ),
        (Refusal::Busy, EventKind::Restart) => {
            Words::Around("node ", " is up or opens its disk already")
        }
        (Refusal::Busy, _) => Words::Around("a flush or a switch of node ", " isn't over"),
        (Refusal::Device, _) => Words::Around("the device call failed, and so has node ", ""),
        (Refusal::Damaged { area, offset }, _) => {
            return write!(
                text,
                "area {area} of node {node} is damaged at byte {offset}"
            );
        }
        (Refusal::OutOfMemory, _) => Words::Plain("memory was wanting"),
        (Refusal::ListFull, _) => Words::Around("node ", " has decided all instances"),
        (Refusal::RoundsOut, _) => Words::Plain("the instance is in its last round"),
        (Refusal::TooLarge, _) => {
            Words::Plain("the area, the epoch or the facts' numbers would pass their limit")
        }
        (other, _) => return write!(text, "{other}"),
    };
    push_words(text, words, node)
}

// Appends why an event came to nothing.
fn push_idle(text: &mut Vec<u8>, event: &Event, idle: Idle) -> io::Result<()> {
    let words = match idle {
        Idle::NoMessage(message, sent) => {
            return write!(
                text,
                "message {message} isn't on the wire, {sent} were sent"
            );
        }
        Idle::OtherAddressee(message, to) => {
            return write!(text, "message {message} is for node {to}");
        }
        Idle::NothingStaged => Words::Around("node ", " has no fact to flush"),
        Idle::NoCallDue => Words::Around("no device call of node ", " is due"),
        Idle::NothingSynced => Words::Around("node ", " has no synced group to mark"),
        Idle::NothingToSend => Words::Around("no message of node ", " may leave"),
        Idle::NothingToAcknowledge => {
            Words::Around("no request that waits at node ", " is decided")
        }
    };
    push_words(text, words, event.node.index())
}
