//! The sweep of a schedule, whose lines are printed as they come.

ghost use Rattle.std.specs.Prelude.{◌≡◌, ◌≤◌, ◌++◌, ◌∷◌, [], ℕ, List, OnOk, IfOk, IfErr};
ghost use Rattle.std.specs.Io.KnownBytes.{Appends, Keeps};
ghost use Rattle.rr_text.specs.declared.event.Event.{Event as SomeEvent};
ghost use Rattle.rr_text.specs.Scheduled.{IsSchedule};
ghost use Rattle.rr_text.specs.ScheduleTexts.{schedule_text};
ghost use Rattle.rr_sim.specs.declared.sweeping.SweepLine.{SweepLine as SomeLine};
ghost use Rattle.rr_sim.specs.Sweeps.{HasSwept, IsNext};
ghost use Rattle.rr_stream.specs.Files.{file_at};
ghost use Rattle.rr_cli.specs.Ends.{sweep_text, EndsOnSweep, EndsOnSeed, EndsOnInput};
ghost use Rattle.rr_cli.specs.Refusals.{status_of};
ghost use Rattle.rr_cli.specs.Sweeping.{IsPrintedBy, StopsSweep, StopsAtEvent, StopsPrinting};

use crate::input::STANDARD_INPUT;
use crate::random_schedule::number_in;
use crate::refusals::{TextKind, end_by_fault, end_by_refusal};
use crate::streams::{end_by_stream, end_by_text, end_by_unprinted};
use rr_sim::{MAX_SWEPT_EVENTS, SweepLine, Sweeping, push_sweep_lines, swept_too_far};
use rr_stream::{FileReader, Sink, Source, print_all, read_all};
use rr_text::{Event, Schedule};
use rr_types::Refusal;
use std::alloc::Global;
use std::io;
use std::io::Write;

/// Why a sweep is broken off.
pub(crate) enum Stop {
    /// Memory ran out.
    Refused(Refusal),
    /// Standard output failed.
    Unprinted(io::Error),
}

// Sweeps the schedule on standard input, with the seed that a word writes.
pub(crate) fn sweep_by_word<I: Source, O: Sink, E: Write>(
    alloc: Global,
    seed: &str,
    input: &mut I,
    out: &mut O,
    err: &mut E,
) -> u8
    ensures ends { EndsOnSeed (λ on. EndsOnInput on (I.reading input.old) (I.reading input.new)) seed.now result (O.printing out.old) (O.printing out.new) }
    ensures quiet { result ≡ 0 → Keeps (E.contents err.old) (E.contents err.new) }
{
    match number_in(seed, 0, u64::MAX) {
        Some(seed) => sweep_input(alloc, seed, input, out, err),
        None => end_without_seed(err),
    }
}

// Sweeps the schedule in a file, with the seed that a word writes.
pub(crate) fn sweep_file<F: FileReader, O: Sink, E: Write>(
    alloc: Global,
    files: &mut F,
    path: &str,
    seed: &str,
    out: &mut O,
    err: &mut E,
) -> u8
    ensures ends { EndsOnSeed (λ on. EndsOnInput on (file_at (F.held files.old) path.now) (file_at (F.held files.new) path.now)) seed.now result (O.printing out.old) (O.printing out.new) }
    ensures quiet { result ≡ 0 → Keeps (E.contents err.old) (E.contents err.new) }
{
    let Some(seed) = number_in(seed, 0, u64::MAX) else {
        return end_without_seed(err);
    };
    match files.read_file(alloc, path) {
        Ok(bytes) => sweep_bytes(alloc, path, bytes.as_slice(), seed, out, err),
        Err(failure) => end_by_stream(err, path, &failure),
    }
}

// Sweeps the schedule on standard input.
fn sweep_input<I: Source, O: Sink, E: Write>(
    alloc: Global,
    seed: u64,
    input: &mut I,
    out: &mut O,
    err: &mut E,
) -> u8
    ensures ends { EndsOnInput (EndsOnSweep seed) (I.reading input.old) (I.reading input.new) result (O.printing out.old) (O.printing out.new) }
    ensures quiet { result ≡ 0 → Keeps (E.contents err.old) (E.contents err.new) }
{
    match read_all(alloc, input) {
        Ok(bytes) => sweep_bytes(alloc, STANDARD_INPUT, bytes.as_slice(), seed, out, err),
        Err(failure) => end_by_stream(err, STANDARD_INPUT, &failure),
    }
}

// Sweeps the schedule that the bytes are.
fn sweep_bytes<O: Sink, E: Write>(
    alloc: Global,
    name: &str,
    bytes: &[u8],
    seed: u64,
    out: &mut O,
    err: &mut E,
) -> u8
    ensures ends { EndsOnSweep seed bytes.now result (O.printing out.old) (O.printing out.new) }
    ensures quiet { result ≡ 0 → Keeps (E.contents err.old) (E.contents err.new) }
{
    match Schedule::parse(alloc, bytes) {
        Ok(schedule) => match swept_too_far(schedule.events()) {
            Some(refusal) => end_too_far(err, name, &refusal),
            None => sweep_schedule(alloc, &schedule, seed, out, err),
        },
        Err(refusal) => end_by_fault(alloc, err, TextKind::Schedule, name, bytes, &refusal),
    }
}

// Ends by a schedule of this name that has too many events for a sweep.
fn end_too_far<E: Write>(err: &mut E, name: &str, refusal: &Refusal) -> u8
    ensures { result ≡ status_of refusal.now }
{
    let ending = end_by_refusal(err, refusal);
    let most = MAX_SWEPT_EVENTS;
    let _ = writeln!(err, "{name}: a sweep takes {most} events at most");
    ending
}

// Sweeps a schedule, and prints the lines of each device call as it is made.
fn sweep_schedule<O: Sink, E: Write>(
    alloc: Global,
    schedule: &Schedule,
    seed: u64,
    out: &mut O,
    err: &mut E,
) -> u8
    ensures ends { (bytes : List ℕ) → IsSchedule schedule.now → bytes ≡ schedule_text schedule.now → EndsOnSweep seed bytes result (O.printing out.old) (O.printing out.new) }
    ensures quiet { result ≡ 0 → Keeps (E.contents err.old) (E.contents err.new) }
{
    match print_sweep(alloc, schedule, seed, out) {
        Ok(()) => end_by_text(out, err, b""),
        Err(Stop::Refused(refusal)) => {
            out.tell_progress(1, 1);
            end_by_refusal(err, &refusal)
        }
        Err(Stop::Unprinted(error)) => {
            out.tell_progress(1, 1);
            end_by_unprinted(err, &error)
        }
    }
}

// Prints the lines of a sweep as they come.
fn print_sweep<O: Sink>(
    alloc: Global,
    schedule: &Schedule,
    seed: u64,
    out: &mut O,
) -> Result<(), Stop>
    ensures ok { OnOk result (IsPrintedBy schedule.now.nodes seed schedule.now.events (O.printing out.old) (O.printing out.new)) }
    ensures err { IfErr result (λ stop. StopsSweep schedule.now.nodes seed schedule.now.events stop (O.printing out.old) (O.printing out.new)) }
{
    let mut sweeping = match Sweeping::new(alloc, schedule.nodes(), seed) {
        Ok(sweeping) => sweeping,
        Err(_) => return Err(Stop::Refused(Refusal::OutOfMemory)),
    };
    let mut line = 2u64;
    let last = (schedule.events().len() as u64).saturating_add(1);
    for event in schedule.events() {
        print_event(alloc, &mut sweeping, line, last, event, out)?;
        line += 1;
    }
    Ok(())
}

// Makes the event of a line, and prints the lines of the sweep that it has.
fn print_event<O: Sink>(
    alloc: Global,
    sweeping: &mut Sweeping,
    line: u64,
    last: u64,
    event: &Event,
    out: &mut O,
) -> Result<(), Stop>
    requires { (n : ℕ) × (m : ℕ) × (seed : ℕ) × (events : List SomeEvent) × (lines : List SomeLine) × IsNext n m seed events lines line event.now sweeping.old }
    ensures ok { (n m seed : ℕ) (events : List SomeEvent) (lines : List SomeLine) → IsNext n m seed events lines line event.now sweeping.old
        → OnOk result ((more : List SomeLine) × HasSwept n m seed (events ++ event.now ∷ []) (lines ++ more) sweeping.new
        × Appends (O.printing out.old).contents (O.printing out.new).contents (sweep_text more)) }
    ensures err { (n m seed : ℕ) (events : List SomeEvent) (lines : List SomeLine) → IsNext n m seed events lines line event.now sweeping.old
        → IfErr result (λ stop. StopsAtEvent n seed (events ++ event.now ∷ []) lines stop (O.printing out.old) (O.printing out.new)) }
    ensures faults { (O.printing out.old).faults ≤ (O.printing out.new).faults }
{
    let lines = match sweeping.step(alloc, line, event) {
        Ok(lines) => lines,
        Err(_) => return Err(Stop::Refused(Refusal::OutOfMemory)),
    };
    if lines.is_empty() {
        return Ok(());
    }
    print_lines(alloc, lines.as_slice(), line, last, out)
}

// Prints at once the lines of a sweep that the event of a line has, and tells how far that is on the way to the last one.
fn print_lines<O: Sink>(
    alloc: Global,
    lines: &[SweepLine],
    line: u64,
    last: u64,
    out: &mut O,
) -> Result<(), Stop>
    ensures ok { OnOk result (Appends (O.printing out.old).contents (O.printing out.new).contents (sweep_text lines.now)) }
    ensures err { IfErr result (λ stop. StopsPrinting (sweep_text lines.now) stop (O.printing out.old) (O.printing out.new)) }
    ensures faults { (O.printing out.old).faults ≤ (O.printing out.new).faults }
{
    let mut text = Vec::new(alloc);
    if let Err(_) = push_sweep_lines(&mut text, lines) {
        return Err(Stop::Refused(Refusal::OutOfMemory));
    }
    match print_all(out, text.as_slice()) {
        Ok(()) => {
            out.tell_progress(line, last);
            Ok(())
        }
        Err(error) => Err(Stop::Unprinted(error)),
    }
}

// Ends where no seed is named, which the command line doesn't let through.
pub(crate) fn end_without_seed<E: Write>(err: &mut E) -> u8
    ensures { result ≡ 2 }
{
    let _ = writeln!(err, "rr: sweep: the seed is missing or out of its range");
    2
}
