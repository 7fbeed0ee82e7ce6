//! The data of a page: what came of the events on some lines, with what they decide.

ghost use Rattle.std.specs.Prelude.{◌≡◌, ◌++◌, option_map, OnOk, IfOk, IfErr};
ghost use Rattle.rr_account.specs.Counts.{is_idle};
ghost use Rattle.rr_account.specs.Decisions.{AreDecisions};
ghost use Rattle.rr_account.specs.Pages.{page_head, decides_member, decided_on, IsPageObject, IsPageObjectWithin, IsPageData};

use crate::account::Account;
use crate::beside::Besides;
use crate::decisions::decisions_of;
use crate::json::{next_line, push_event_object, push_front};
use crate::reasons::{Reason, reason_text};
use rr_json::{push_decided_objects, push_end, push_label, push_number_member, push_open};
use rr_text::{Event, ReportLine};
use rr_types::{Instance, Nodes, Refusal};
use std::alloc::{AllocError, Global};

// Appends the object with which the data begin: how many nodes there are.
fn push_head(out: &mut Vec<u8>, nodes: Nodes) -> Result<(), AllocError>
    ensures ok { OnOk result (out.new.items ≡ out.old.items ++ page_head nodes) }
{
    push_open(out, b"run")?;
    push_number_member(out, b"nodes", u64::from(nodes.count()))?;
    push_end(out)
}

// Appends the instance that an event decides as a member, if it decides one.
fn push_decides(out: &mut Vec<u8>, decides: Option<Instance>) -> Result<(), AllocError>
    ensures ok { OnOk result (out.new.items ≡ out.old.items ++ decides_member decides) }
{
    match decides {
        Some(instance) => push_number_member(out, b"decides", u64::from(instance.number())),
        None => Ok(()),
    }
}

// Appends the object of an event on line `at` of the schedule, with its line of the report, where it has one, and what it decides.
fn push_page_object(
    alloc: Global,
    out: &mut Vec<u8>,
    at: u64,
    event: &Event,
    line: Option<&ReportLine>,
    reason: Reason,
    decides: Option<Instance>,
) -> Result<(), Refusal>
    ensures ok { OnOk result (IsPageObject at event.now (option_map (λ l. l.now) line.entry) (is_idle reason) decides out.old.items out.new.items) }
    ensures err { IfErr result (λ e. e ≡ Refusal.OutOfMemory) }
{
    let note = reason_text(alloc, event, reason)?;
    push_front(alloc, out, line, reason.is_idle())?;
    push_decides(out, decides)?;
    push_label(out, b"event")?;
    push_event_object(alloc, out, at, event, &note)?;
    push_end(out)?;
    Ok(())
}

// The same where the event lies within lines; else nothing.
fn push_within(
    alloc: Global,
    out: &mut Vec<u8>,
    from: u64,
    to: u64,
    at: u64,
    event: &Event,
    line: Option<&ReportLine>,
    reason: Reason,
    decides: Option<Instance>,
) -> Result<(), Refusal>
    ensures ok { OnOk result (IsPageObjectWithin from to at event.now (option_map (λ l. l.now) line.entry) (is_idle reason) decides out.old.items out.new.items) }
    ensures err { IfErr result (λ e. e ≡ Refusal.OutOfMemory) }
{
    if from <= at && at <= to {
        push_page_object(alloc, out, at, event, line, reason, decides)
    } else {
        Ok(())
    }
}

// The instance that the event of a line decides, if it decides one.
fn decided_on(decided: &[Option<Instance>], line: u64) -> Option<Instance>
    ensures { result ≡ decided_on decided.now line }
{
    match decided.get(line.saturating_sub(2) as usize) {
        Some(instance) => *instance,
        None => None,
    }
}

// The data of a page about the events from a line to another, by the instances that each event decides.
fn data_by(
    alloc: Global,
    account: &Account,
    decided: &[Option<Instance>],
    from: u64,
    to: u64,
) -> Result<Vec<u8>, Refusal>
    requires { AreDecisions account.now decided.now }
    ensures ok { IfOk result (λ text. IsPageData account.now from to text.items) }
    ensures err { IfErr result (λ e. e ≡ Refusal.OutOfMemory) }
{
    let lines = account.lines();
    let mut text = Vec::new(alloc);
    push_head(&mut text, account.schedule().nodes())?;
    let mut told = 0usize;
    let mut at = 2u64;
    for event in account.events() {
        let (is_told, reason) = account.happening(at, told);
        let (line, next) = next_line(lines, told, is_told);
        let decides = decided_on(decided, at);
        push_within(alloc, &mut text, from, to, at, event, line, reason, decides)?;
        told = next;
        at += 1;
    }
    push_decided_objects(&mut text, account.decided())?;
    Ok(text)
}

/// The data of the page of a run, of the events from a line to another: a line of JSON with the number of nodes, and those that an
/// explanation has of these events and of the decided list. An event that decides an instance names it.
///
/// # Errors
/// `OutOfMemory`.
pub fn page_data(alloc: Global, account: &Account, from: u64, to: u64) -> Result<Vec<u8>, Refusal>
    ensures ok { IfOk result (λ text. IsPageData account.now from to text.items) }
    ensures err { IfErr result (λ e. e ≡ Refusal.OutOfMemory) }
{
    let besides = Besides::of_run(alloc, account.schedule().nodes())?;
    let decided = decisions_of(alloc, account, besides)?;
    data_by(alloc, account, decided.as_slice(), from, to)
}

/// The data of the page of a tape, likewise.
///
/// # Errors
/// `OutOfMemory`.
pub fn tape_page_data(
    alloc: Global,
    account: &Account,
    from: u64,
    to: u64,
) -> Result<Vec<u8>, Refusal>
    ensures ok { IfOk result (λ text. IsPageData account.now from to text.items) }
    ensures err { IfErr result (λ e. e ≡ Refusal.OutOfMemory) }
{
    let besides = Besides::of_tape(alloc, account.schedule().nodes())?;
    let decided = decisions_of(alloc, account, besides)?;
    data_by(alloc, account, decided.as_slice(), from, to)
}
