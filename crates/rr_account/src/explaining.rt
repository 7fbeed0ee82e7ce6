//! A report with a note on each event: what it did, or why it was refused or came to nothing.

ghost use Rattle.std.specs.Prelude.{◌≡◌, ◌≤◌, ◌+◌, ◌-◌, ◌++◌, ◌∷◌, [], ℕ, List, take, length, slice_get, slice_range, Some, if◌then◌else◌, OnOk, IfOk, IfErr};
ghost use Rattle.rr_text.specs.declared.event.Event.{Event};
ghost use Rattle.rr_account.specs.declared.outcome.Outcome.{Outcome};
ghost use Rattle.rr_account.specs.Accounts.{lines_told};
ghost use Rattle.rr_account.specs.Texts.{IsNoteOn, note_line, IsNoted, IsExplained, told_lines};

use crate::account::Account;
use crate::note::push_note;
use crate::reasons::note_of;
use rr_text::text_report::{push_decided_list, push_report_lines};
use rr_text::{Event, ReportLine};
use rr_types::Refusal;
use std::alloc::Global;

/// The report of an account with notes. A note begins with four spaces, the event's line and its text. There is one for
/// each event, in their order: behind its line of the report, where it has one. The other lines are those of the report.
///
/// # Errors
/// `OutOfMemory`.
pub fn explanation(alloc: Global, account: &Account) -> Result<Vec<u8>, Refusal>
    ensures ok { IfOk result (λ text. IsExplained account.now text.items) }
    ensures err { IfErr result (λ e. e ≡ Refusal.OutOfMemory) }
{
    let lines = account.lines();
    let mut text = Vec::new(alloc);
    let mut told = 0;
    let mut line = 2u64;
    for event in account.events() {
        let next = push_happening(alloc, &mut text, account, line, event, told)?;
        told = next;
        line += 1;
    }
    push_report_lines(&mut text, &lines[told..])?;
    push_decided_list(&mut text, account.decided())?;
    Ok(text)
}

// Appends the event's line of the report, if it has one, and the note on the event, which is on line `line` of the
// schedule. The text has `told` lines of the report before; gives how many it has then.
fn push_happening(
    alloc: Global,
    text: &mut Vec<u8>,
    account: &Account,
    line: u64,
    event: &Event,
    told: usize,
) -> Result<usize, Refusal>
    requires { told ≤ length account.now.report.lines }
    ensures range { IfOk result (λ next. next ≤ length account.now.report.lines) }
    ensures ok { IfOk result (λ next. (events : List Event) → line ≡ 2 + length events → IsNoted events (told_lines (take told account.now.report.lines)) text.old.items → IsNoted (events ++ event.now ∷ []) (told_lines (take next account.now.report.lines)) text.new.items) }
    ensures noted { IfOk result (λ next. (words : List ℕ) × IsNoteOn line event.now words
        × (text.new.items ≡ text.old.items ++ (told_lines (slice_range account.now.report.lines told next) ++ note_line words))) }
    ensures counted { IfOk result (λ next. (outcome : Outcome) → slice_get account.now.outcomes (line - 2) ≡ Some outcome
        → told + lines_told outcome ≤ length account.now.report.lines → next ≡ told + lines_told outcome) }
    ensures err { IfErr result (λ e. e ≡ Refusal.OutOfMemory) }
{
    let (is_told, reason) = account.happening(line, told);
    let next = push_told(text, account.lines(), told, is_told)?;
    let note = note_of(alloc, line, event, reason)?;
    push_note(text, note.as_slice())?;
    Ok(next)
}

// Appends the line after the first `told` lines of the report, if the event has a line. Gives how many lines of the
// report the text has then.
fn push_told(
    text: &mut Vec<u8>,
    lines: &[ReportLine],
    told: usize,
    is_told: bool,
) -> Result<usize, Refusal>
    requires { told ≤ length lines.now }
    ensures range { IfOk result (λ next. (told ≤ next) × (next ≤ length lines.now)) }
    ensures counted { IfOk result (λ next. told + (if is_told then 1 else 0) ≤ length lines.now → next ≡ told + (if is_told then 1 else 0)) }
    ensures ok { IfOk result (λ next. text.new.items ≡ text.old.items ++ told_lines (slice_range lines.now told next)) }
    ensures err { IfErr result (λ e. e ≡ Refusal.OutOfMemory) }
{
    let next = if is_told && told < lines.len() {
        told + 1
    } else {
        told
    };
    push_report_lines(text, &lines[told..next])?;
    Ok(next)
}
