//! Whether bytes are a schedule or a tape.

ghost use Rattle.std.specs.Prelude.{◌≡◌, ◌≢◌, Ok};
ghost use Rattle.rr_text.specs.Lines.{IsFault};
ghost use Rattle.rr_text.specs.Scheduled.{IsEvent};
ghost use Rattle.rr_text.specs.ScheduleTexts.{event_line};
ghost use Rattle.rr_text.specs.Taped.{IsTapeEvent};
ghost use Rattle.rr_text.specs.TapeTexts.{tape_line};
ghost use Rattle.rr_cli.specs.Recognised.{IsRecognised};

use crate::refusals::TextKind;
use rr_text::{Schedule, Tape};
use rr_types::Refusal;
use std::alloc::Global;

/// What bytes are.
#[derive(Drop)]
pub(crate) enum Recognised {
    /// A schedule. Bytes that could also be a tape are a schedule.
    Schedule,
    /// This tape.
    Tape(Tape),
    /// Neither. The fault is that of the reading which got further.
    Neither(TextKind, Refusal),
}

// Whether a fault of a tape lies on a later line than that of a schedule.
fn is_later(of_tape: &Refusal, of_schedule: &Refusal) -> bool {
    match (of_tape, of_schedule) {
        (Refusal::BadEvent(line), Refusal::BadEvent(other)) => *line > *other,
        _ => false,
    }
}

// The fault that is told of bytes that are neither.
fn told_fault(of_schedule: Refusal, of_tape: Refusal, bytes: &[u8]) -> Recognised
    requires schedule { IsFault IsEvent event_line bytes.now of_schedule }
    requires no_schedule { of_schedule ≢ Refusal.OutOfMemory }
    requires tape { IsFault IsTapeEvent tape_line bytes.now of_tape }
    requires no_tape { of_tape ≢ Refusal.OutOfMemory }
    ensures { IsRecognised bytes.now (Ok result) }
{
    if is_later(&of_tape, &of_schedule) {
        Recognised::Neither(TextKind::Tape, of_tape)
    } else {
        Recognised::Neither(TextKind::Schedule, of_schedule)
    }
}

// What bytes are that are no schedule, as this fault says.
fn recognise_tape(alloc: Global, bytes: &[u8], of_schedule: Refusal) -> Result<Recognised, Refusal>
    requires fault { IsFault IsEvent event_line bytes.now of_schedule }
    requires other { of_schedule ≢ Refusal.OutOfMemory }
    ensures { IsRecognised bytes.now result }
{
    match Tape::parse(alloc, bytes) {
        Ok(tape) => Ok(Recognised::Tape(tape)),
        Err(of_tape) => match of_tape {
            Refusal::OutOfMemory => Err(Refusal::OutOfMemory),
            _ => Ok(told_fault(of_schedule, of_tape, bytes)),
        },
    }
}

/// What bytes are: a schedule, or else a tape, or neither.
///
/// # Errors
/// `OutOfMemory`.
pub(crate) fn recognise(alloc: Global, bytes: &[u8]) -> Result<Recognised, Refusal>
    ensures { IsRecognised bytes.now result }
{
    match Schedule::parse(alloc, bytes) {
        Ok(_schedule) => Ok(Recognised::Schedule),
        Err(of_schedule) => match of_schedule {
            Refusal::OutOfMemory => Err(Refusal::OutOfMemory),
            _ => recognise_tape(alloc, bytes, of_schedule),
        },
    }
}
