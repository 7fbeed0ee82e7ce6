//! A report as JSON, an object a line.

ghost use Rattle.std.specs.Prelude.{◌≡◌, ◌++◌, ◌∷◌, [], ◌+◌, ◌≤◌, ℕ, List, Bool, Option, option_map, take, length, map, codes, if◌then◌else◌, OnOk, IfOk, IfErr};
ghost use Rattle.std.specs.List.{flat_map};
ghost use Rattle.rr_json.specs.Json.{opened};
ghost use Rattle.rr_json.specs.Objects.{line_front, report_objects};
ghost use Rattle.rr_text.specs.declared.report.ReportLine.{ReportLine};
ghost use Rattle.rr_account.specs.Counts.{is_idle};
ghost use Rattle.rr_account.specs.Objects.{note_member, event_object, happening_front, lines_of, IsAnObject, IsExplanation};

use crate::account::Account;
use crate::reasons::{Reason, reason_text};
use rr_json::{
    push_begun, push_decided_objects, push_end, push_label, push_line_front, push_open,
    push_report_objects, push_words_member,
};
use rr_text::text_schedule::push_event;
use rr_text::text_word::{push_byte, push_number};
use rr_text::{Event, ReportLine};
use rr_types::Refusal;
use std::alloc::{AllocError, Global};

/// The report of an account as JSON, an object for each line.
///
/// # Errors
/// `OutOfMemory`.
pub fn json_report(alloc: Global, account: &Account) -> Result<Vec<u8>, Refusal>
    ensures ok { IfOk result (λ text. text.items ≡ report_objects account.now.report) }
    ensures err { IfErr result (λ e. e ≡ Refusal.OutOfMemory) }
{
    let mut text = Vec::new(alloc);
    push_report_objects(alloc, &mut text, account.report())?;
    Ok(text)
}

// Appends words for people as a member, where there are any.
fn push_note_member(out: &mut Vec<u8>, note: &Option<Vec<u8>>) -> Result<(), AllocError>
    ensures ok { OnOk result (out.new.items ≡ out.old.items ++ note_member (option_map (λ w. w.items) note.now)) }
{
    match note {
        Some(words) => push_words_member(out, b"note", words.as_slice()),
        None => Ok(()),
    }
}

/// Appends an event on line `at` of the schedule, with a note.
pub(crate) fn push_event_object(
    alloc: Global,
    out: &mut Vec<u8>,
    at: u64,
    event: &Event,
    note: &Option<Vec<u8>>,
) -> Result<(), AllocError>
    ensures ok { OnOk result (out.new.items ≡ out.old.items ++ event_object at event.now (option_map (λ w. w.items) note.now)) }
{
    let mut words = Vec::new(alloc);
    push_event(&mut words, event)?;
    push_begun(out, b"line")?;
    push_number(out, at)?;
    push_words_member(out, b"text", words.as_slice())?;
    push_note_member(out, note)?;
    push_byte(out, b'}')
}

/// Appends the beginning of the object of an event: that of its line of the report, or the kind of an event that has none.
pub(crate) fn push_front(
    alloc: Global,
    out: &mut Vec<u8>,
    line: Option<&ReportLine>,
    idle: bool,
) -> Result<(), AllocError>
    ensures ok { OnOk result (out.new.items ≡ out.old.items ++ happening_front (option_map (λ l. l.now) line.entry) idle) }
{
    match (line, idle) {
        (Some(line), _) => push_line_front(alloc, out, line),
        (None, true) => push_open(out, b"idle"),
        (None, false) => push_open(out, b"done"),
    }
}

// Appends the object of an event on line `at` of the schedule, with its line of the report, where it has one.
fn push_happening(
    alloc: Global,
    out: &mut Vec<u8>,
    at: u64,
    event: &Event,
    line: Option<&ReportLine>,
    reason: Reason,
) -> Result<(), Refusal>
    ensures ok { OnOk result (IsAnObject at event.now (option_map (λ l. l.now) line.entry) (is_idle reason) out.old.items out.new.items) }
    ensures err { IfErr result (λ e. e ≡ Refusal.OutOfMemory) }
{
    let note = reason_text(alloc, event, reason)?;
    push_front(alloc, out, line, reason.is_idle())?;
    push_label(out, b"event")?;
    push_event_object(alloc, out, at, event, &note)?;
    push_end(out)?;
    Ok(())
}

/// The line behind the first `told` lines of a report, if an event has one; and how many lines are told then.
pub(crate) fn next_line(
    lines: &[ReportLine],
    told: usize,
    is_told: bool,
) -> (Option<&ReportLine>, usize)
    ensures line { take result.1 lines.now ≡ take told lines.now ++ lines_of (option_map (λ l. l.now) result.0) }
    ensures counted { told + (if is_told then 1 else 0) ≤ length lines.now → result.1 ≡ told + (if is_told then 1 else 0) }
{
    if is_told && told < lines.len() {
        (Some(&lines[told]), told + 1)
    } else {
        (None, told)
    }
}

/// What came of each event of an account as JSON, an object each: its line of the report with the event, or the event
/// alone. Then come the objects of the decided list.
///
/// # Errors
/// `OutOfMemory`.
pub fn json_explanation(alloc: Global, account: &Account) -> Result<Vec<u8>, Refusal>
    ensures ok { IfOk result (λ text. IsExplanation account.now text.items) }
    ensures err { IfErr result (λ e. e ≡ Refusal.OutOfMemory) }
{
    let lines = account.lines();
    let mut text = Vec::new(alloc);
    let mut told = 0usize;
    let mut at = 2u64;
    for event in account.events() {
        let (is_told, reason) = account.happening(at, told);
        let (line, next) = next_line(lines, told, is_told);
        push_happening(alloc, &mut text, at, event, line, reason)?;
        told = next;
        at += 1;
    }
    push_decided_objects(&mut text, account.decided())?;
    Ok(text)
}
