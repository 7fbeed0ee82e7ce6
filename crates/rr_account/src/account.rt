//! The account of a run.

ghost use Rattle.std.specs.Prelude.{◌≡◌, ◌≤◌, ◌+◌, ◌-◌, length, slice_get, Some, if◌then◌else◌};
ghost use Rattle.rr_account.specs.declared.outcome.Outcome as came;
ghost use Rattle.rr_account.specs.Accounts.{lines_told};
ghost use Rattle.rr_account.specs.Counts.{reason_of};

use crate::outcome::Outcome;
use crate::reasons::{Reason, reason_at};
use rr_text::{Event, Report, ReportLine, Schedule};
use rr_types::Command;
use std::marker::Model;

/// The account of a run: its schedule, what came of each event in turn, and its report.
#[derive(Drop)]
pub struct Account {
    schedule: Schedule,
    outcomes: Vec<Outcome>,
    report: Report,
}

impl Model for Account {
    ghost use Rattle.rr_account.specs.Accounts.{Accounted};

    ghost Value = { Accounted };

    ghost view = { λ a.
        record { schedule = a.schedule; outcomes = a.outcomes.items; report = a.report } };
}

impl Account {
    /// The account of these. It keeps them.
    pub fn new(schedule: Schedule, outcomes: Vec<Outcome>, report: Report) -> Account
        ensures { result ≡ record { schedule = schedule; outcomes = outcomes.items; report = report } }
    {
        Account {
            schedule,
            outcomes,
            report,
        }
    }

    /// The schedule.
    pub fn schedule(&self) -> &Schedule
        ensures { result.now ≡ self.now.schedule }
    {
        &self.schedule
    }

    /// The events of the schedule.
    pub fn events(&self) -> &[Event]
        ensures value { result.now ≡ self.now.schedule.events }
        ensures short { length result.now ≤ 1000000 }
    {
        self.schedule.events()
    }

    /// What came of each event, in turn.
    pub fn outcomes(&self) -> &[Outcome]
        ensures { result.now ≡ self.now.outcomes }
    {
        let outcomes = &self.outcomes;
        outcomes
    }

    /// The lines of the report.
    pub fn lines(&self) -> &[ReportLine]
        ensures { result.now ≡ self.now.report.lines }
    {
        self.report.lines()
    }

    /// The decided commands.
    pub fn decided(&self) -> &[Command]
        ensures { result.now ≡ self.now.report.decided }
    {
        self.report.decided()
    }

    /// The report.
    pub fn report(&self) -> &Report
        ensures { result.now ≡ self.now.report }
    {
        &self.report
    }

    /// What came of the event of a line of the schedule.
    pub fn outcome_of(&self, line: u64) -> Outcome
        ensures { (outcome : came.Outcome) → slice_get self.now.outcomes (line - 2) ≡ Some outcome → result ≡ outcome }
    {
        // Line 1 of a schedule has the number of nodes, so the first event stands on line 2.
        match self.outcomes.get(line.saturating_sub(2) as usize) {
            Some(outcome) => *outcome,
            None => Outcome::Quiet,
        }
    }

    /// Whether the event on line `line` of the schedule has a line in the report, and what is said of the event. The
    /// events before it have `told` lines there.
    pub(crate) fn happening(&self, line: u64, told: usize) -> (bool, Reason)
        ensures told { (outcome : came.Outcome) → slice_get self.now.outcomes (line - 2) ≡ Some outcome
            → told + lines_told outcome ≤ length self.now.report.lines → (if result.0 then 1 else 0) ≡ lines_told outcome }
        ensures reason { (outcome : came.Outcome) → slice_get self.now.outcomes (line - 2) ≡ Some outcome
            → result.1 ≡ reason_of outcome (slice_get self.now.report.lines told) }
    {
        let outcome = self.outcome_of(line);
        let lines = self.report.lines();
        let is_told = matches!(outcome, Outcome::Told) && told < lines.len();
        (is_told, reason_at(lines, told, outcome))
    }

    /// The event that line `number` of the report, counted from 1, tells of, and the event's line in the schedule.
    pub fn behind_line(&self, number: u64) -> Option<(u64, &Event)> {
        let mut told = 0u64;
        let mut line = 2u64;
        for event in self.events() {
            if let Outcome::Told = self.outcome_of(line) {
                told = told.saturating_add(1);
                if told == number {
                    return Some((line, event));
                }
            }
            line = line.saturating_add(1);
        }
        None
    }
}
