//! The report of a random schedule as JSON.

ghost use Rattle.std.specs.Prelude.{◌≡◌, ◌≤◌, true, None, Some, IfOk, IfErr};
ghost use Rattle.rr_text.specs.ScheduleTexts.{schedule_text};
ghost use Rattle.rr_json.specs.Objects.{report_objects};
ghost use Rattle.rr_sim.specs.Clusters.{IsOnlyOneIfClean};
ghost use Rattle.rr_sim.specs.Headline.{IsRunOfTheWorld, AgreesWithOneList, KeepsRealTime};
ghost use Rattle.rr_cli.specs.Randoms.{IsDrawnText};
ghost use Rattle.rr_cli.specs.RandomObjects.{AreDrawnObjects};

use crate::random_schedule::RandomNumbers;
use rr_json::push_report_objects;
use rr_lively::{Recipe, lively_schedule};
use rr_sim::{random, simulate};
use rr_stream::Sink;
use rr_text::{Report, Schedule};
use rr_types::Refusal;
use std::alloc::{AllocError, Global};

// The lively schedule of these numbers.
fn drawn_lively<O: Sink>(
    alloc: Global,
    numbers: RandomNumbers,
    faults: u32,
    out: &mut O,
) -> Result<Schedule, Refusal>
    requires { numbers.steps ≤ 999930 }
    ensures ok { IfOk result (λ s. IsDrawnText true (Some faults) numbers.nodes numbers.seed numbers.steps (schedule_text s)) }
    ensures err { IfErr result (λ e. e ≡ Refusal.OutOfMemory) }
    ensures unprinted { O.printing out.new ≡ O.printing out.old }
{
    let recipe = Recipe {
        nodes: numbers.nodes,
        seed: numbers.seed,
        steps: numbers.steps,
        faults,
    };
    let text = lively_schedule(alloc, recipe, out)?;
    Schedule::parse(alloc, text.as_slice())
}

// The schedule of these numbers, lively or not.
fn drawn_schedule<O: Sink>(
    alloc: Global,
    numbers: RandomNumbers,
    out: &mut O,
) -> Result<Schedule, Refusal>
    requires { numbers.steps ≤ 999930 }
    ensures ok { IfOk result (λ s. IsDrawnText true numbers.faults numbers.nodes numbers.seed numbers.steps (schedule_text s)) }
    ensures err { IfErr result (λ e. e ≡ Refusal.OutOfMemory) }
    ensures unprinted { O.printing out.new ≡ O.printing out.old }
{
    match numbers.faults {
        None => Ok(random(alloc, numbers.nodes, numbers.seed, numbers.steps, out)?),
        Some(faults) => drawn_lively(alloc, numbers, faults, out),
    }
}

// The report of the run of a schedule, on as many nodes as it has.
fn run_of(alloc: Global, schedule: &Schedule) -> Result<Report, Refusal>
    ensures world { IfOk result (λ report. IsRunOfTheWorld schedule.now.nodes schedule.now.events report) }
    ensures one_list { IfOk result (λ report. AgreesWithOneList schedule.now.events report) }
    ensures real_time { IfOk result (λ report. KeepsRealTime schedule.now.nodes schedule.now.events report) }
    ensures clean { IfOk result (λ report. IsOnlyOneIfClean schedule.now.nodes schedule.now.events report) }
    ensures err { IfErr result (λ e. e ≡ Refusal.OutOfMemory) }
{
    let nodes = schedule.nodes().count();
    simulate(alloc, nodes, schedule)
}

// A report as JSON.
fn objects_of(alloc: Global, report: &Report) -> Result<Vec<u8>, AllocError>
    ensures { IfOk result (λ text. text.items ≡ report_objects report.now) }
{
    let mut text = Vec::new(alloc);
    push_report_objects(alloc, &mut text, report)?;
    Ok(text)
}

/// The report of the run of the schedule of these numbers, as JSON: an object for each line. The schedule is drawn, and
/// then run from the beginning. Those who watch `out` are told how far the drawing is; `out` takes nothing.
///
/// # Errors
/// `OutOfMemory`.
pub(crate) fn drawn_objects<O: Sink>(
    alloc: Global,
    numbers: RandomNumbers,
    out: &mut O,
) -> Result<Vec<u8>, Refusal>
    requires { numbers.steps ≤ 999930 }
    ensures ok { IfOk result (λ text. AreDrawnObjects numbers.faults numbers.nodes numbers.seed numbers.steps text.items) }
    ensures err { IfErr result (λ e. e ≡ Refusal.OutOfMemory) }
    ensures unprinted { O.printing out.new ≡ O.printing out.old }
{
    let schedule = drawn_schedule(alloc, numbers, out)?;
    let report = run_of(alloc, &schedule)?;
    let text = objects_of(alloc, &report)?;
    Ok(text)
}
