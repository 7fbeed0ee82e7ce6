//! The account of a tape.

ghost use Rattle.std.specs.Prelude.{◌≡◌, ◌++◌, map, OnOk, IfOk, IfErr};
ghost use Rattle.std.specs.List.{flat_map};
ghost use Rattle.rr_audit.specs.Audits.{sent_by};
ghost use Rattle.rr_audit.specs.Rows.{as_scheduled};
ghost use Rattle.rr_account.specs.TapeAccounts.{came_of, line_on, IsTapeAccount};

use crate::account::Account;
use crate::outcome::Outcome;
use rr_audit::{as_reported, as_scheduled};
use rr_sim::decided_list;
use rr_text::{Event, Recorded, Report, ReportLine, Schedule, Tape, TapeEvent};
use rr_types::{Body, Command, Estimate, Message, Op, Refusal, made_of};
use std::alloc::{AllocError, Global};

// The events of a schedule that events of a tape are.
fn scheduled_events(alloc: Global, events: &[TapeEvent]) -> Result<Vec<Event>, AllocError>
    ensures { IfOk result (λ v. v.items ≡ map as_scheduled events.now) }
{
    let mut scheduled = Vec::new(alloc);
    for event in events {
        scheduled.push(as_scheduled(event))?;
    }
    Ok(scheduled)
}

// What came of an event of a tape: a report has a line of it, or it was done.
fn came_of(event: &TapeEvent) -> Outcome
    ensures { result ≡ came_of event.now }
{
    match as_reported(event) {
        Some(_) => Outcome::Told,
        None => Outcome::Quiet,
    }
}

// What came of events of a tape.
fn outcomes_on(alloc: Global, events: &[TapeEvent]) -> Result<Vec<Outcome>, AllocError>
    ensures { IfOk result (λ v. v.items ≡ map came_of events.now) }
{
    let mut outcomes = Vec::new(alloc);
    for event in events {
        outcomes.push(came_of(event))?;
    }
    Ok(outcomes)
}

// Appends the line of a report that an event of a tape is, if it is one.
fn push_line_on(lines: &mut Vec<ReportLine>, event: &TapeEvent) -> Result<(), AllocError>
    ensures { OnOk result (lines.new.items ≡ lines.old.items ++ line_on event.now) }
{
    if let Some(line) = as_reported(event) {
        lines.push(line)?;
    }
    Ok(())
}

// The lines of a report that events of a tape are.
fn lines_on(alloc: Global, events: &[TapeEvent]) -> Result<Vec<ReportLine>, AllocError>
    ensures { IfOk result (λ v. v.items ≡ flat_map line_on events.now) }
{
    let mut lines = Vec::new(alloc);
    for event in events {
        push_line_on(&mut lines, event)?;
    }
    Ok(lines)
}

// Appends the message that an event of a tape sends, if it sends one.
fn push_sent(wire: &mut Vec<Message>, event: &TapeEvent) -> Result<(), AllocError>
    ensures { OnOk result (wire.new.items ≡ wire.old.items ++ sent_by event.now) }
{
    made_of!(Body, Command, Estimate, Message, Op);
    match &event.what {
        Recorded::Sent { message, .. } => Ok(wire.push(*message)?),
        _ => Ok(()),
    }
}

// The messages that events of a tape send.
fn wire_on(alloc: Global, events: &[TapeEvent]) -> Result<Vec<Message>, AllocError>
    ensures { IfOk result (λ v. v.items ≡ flat_map sent_by events.now) }
{
    let mut wire = Vec::new(alloc);
    for event in events {
        push_sent(&mut wire, event)?;
    }
    Ok(wire)
}

// The schedule of the events of a tape.
fn schedule_on(alloc: Global, tape: &Tape) -> Result<Schedule, AllocError>
    ensures { IfOk result (λ s. s ≡ record { nodes = tape.now.nodes; events = map as_scheduled tape.now.events }) }
{
    let events = scheduled_events(alloc, tape.events())?;
    Ok(Schedule::of_parts(tape.nodes(), events))
}

/// The account of a tape, as of a run by these events: what it has of each event, and the list that its messages decide. Whether
/// nodes can do these events, an audit says.
///
/// # Errors
/// `OutOfMemory`.
pub fn account_of_tape(alloc: Global, tape: &Tape) -> Result<Account, Refusal>
    ensures ok { IfOk result (λ account. IsTapeAccount tape.now account) }
    ensures err { IfErr result (λ e. e ≡ Refusal.OutOfMemory) }
{
    let schedule = schedule_on(alloc, tape)?;
    let outcomes = outcomes_on(alloc, tape.events())?;
    let lines = lines_on(alloc, tape.events())?;
    let wire = wire_on(alloc, tape.events())?;
    let decided = decided_list(alloc, tape.nodes(), wire.as_slice())?;
    Ok(Account::new(schedule, outcomes, Report::new(lines, decided)))
}
