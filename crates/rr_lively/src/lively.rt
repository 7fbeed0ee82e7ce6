//! A lively schedule told as text, with the report of its run.

ghost use Rattle.std.specs.Prelude.{◌≡◌, ◌≤◌, ◌+◌, ◌*◌, false, Ok, OnOk, IfOk};
ghost use Rattle.rr_lively.specs.Lively.{IsSoFar, IsLively, IsLivelySchedule};

use crate::random_run::RandomRun;
use crate::run::Run;
use crate::stances::node_at;
use rand_core::SeedableRng;
use rand_core::utils::NextWord;
use rand_pcg::Pcg32;
use rr_stream::{Sink, tell_step};
use rr_text::Event;
use rr_types::{NodeEvent, NodeId, Nodes};
use std::alloc::{AllocError, Global};

/// How many steps in a thousand have a fault where nothing else is asked for.
pub const DEFAULT_FAULTS: u32 = 10;

/// What a lively schedule is drawn by: how many nodes it has, the seed of its words, how many steps are drawn, and how many
/// in a thousand of them have a fault.
#[derive(Clone, Copy, Debug)]
pub struct Recipe {
    pub nodes: Nodes,
    pub seed: u64,
    pub steps: u32,
    pub faults: u32,
}

/// The device calls of an opening that formats its disk.
const CALLS_OF_AN_OPENING: u32 = 9;

/// How often a step may draw: for each of seven nodes three events that would change nothing, and then one that does.
const DRAWS: u32 = 22;

/// Each node opens its disk.
fn open_all(alloc: Global, nodes: Nodes, run: &mut Run) -> Result<(), AllocError>
    requires so_far { IsSoFar nodes run.old.line run.old.cluster run.old.schedule.items run.old.report.items }
    requires line { run.old.line ≡ 2 }
    requires few { nodes ≤ 7 }
    ensures so_far { OnOk result (IsSoFar nodes run.new.line run.new.cluster run.new.schedule.items run.new.report.items) }
    ensures line { OnOk result (run.new.line ≤ 2 + 10 * nodes) }
{
    for index in 0..nodes.count() {
        open(alloc, nodes, node_at(nodes, u32::from(index)), run)?;
    }
    Ok(())
}

/// A node opens its disk.
fn open(alloc: Global, nodes: Nodes, node: NodeId, run: &mut Run) -> Result<(), AllocError>
    requires so_far { IsSoFar nodes run.old.line run.old.cluster run.old.schedule.items run.old.report.items }
    requires line { run.old.line ≤ 100 }
    ensures so_far { OnOk result (IsSoFar nodes run.new.line run.new.cluster run.new.schedule.items run.new.report.items) }
    ensures line { OnOk result (run.new.line ≤ run.old.line + 10) }
{
    run.happen(alloc, nodes, &Event::at(node, NodeEvent::Restart))?;
    for _call in 0..CALLS_OF_AN_OPENING {
        run.happen(alloc, nodes, &Event::at(node, NodeEvent::Device))?;
    }
    Ok(())
}

/// An event happens, and the drawing learns what came of it. Says whether it stands in the schedule.
fn make(
    alloc: Global,
    nodes: Nodes,
    event: &Event,
    drawing: &mut RandomRun,
    run: &mut Run,
) -> Result<bool, AllocError>
    requires so_far { IsSoFar nodes run.old.line run.old.cluster run.old.schedule.items run.old.report.items }
    requires line { run.old.line ≤ 1000001 }
    ensures so_far { OnOk result (IsSoFar nodes run.new.line run.new.cluster run.new.schedule.items run.new.report.items) }
    ensures line { OnOk result (run.new.line ≤ run.old.line + 1) }
    ensures none { result ≡ Ok false → run.new.line ≡ run.old.line }
{
    let is_kept = run.happen(alloc, nodes, event)?;
    drawing.learn(run.cluster(), event, is_kept)?;
    Ok(is_kept)
}

/// A step: by chance an event with a fault, or else one without. An event that changes nothing is drawn again.
fn go_on(
    alloc: Global,
    nodes: Nodes,
    faults: u32,
    words: (u32, u32),
    drawing: &mut RandomRun,
    run: &mut Run,
) -> Result<(), AllocError>
    requires so_far { IsSoFar nodes run.old.line run.old.cluster run.old.schedule.items run.old.report.items }
    requires line { run.old.line ≤ 1000001 }
    ensures so_far { OnOk result (IsSoFar nodes run.new.line run.new.cluster run.new.schedule.items run.new.report.items) }
    ensures line { OnOk result (run.new.line ≤ run.old.line + 1) }
{
    let (first, second) = words;
    let from = node_at(nodes, first / 1000);
    if first % 1000 < faults {
        if let Some(event) = drawing.fault(alloc, run.cluster(), from, second)? {
            make(alloc, nodes, &event, drawing, run)?;
            return Ok(());
        }
    }
    for _draw in 0..DRAWS {
        let event = drawing.plan(run.cluster(), from, second)?;
        if make(alloc, nodes, &event, drawing, run)? {
            return Ok(());
        }
    }
    Ok(())
}

/// A lively schedule as it is drawn, with its run. The sink is told how far it is.
fn drawn_run<O: Sink>(alloc: Global, recipe: Recipe, out: &mut O) -> Result<Run, AllocError>
    requires { recipe.steps ≤ 999930 }
    ensures so_far { IfOk result (λ run. IsSoFar recipe.nodes run.line run.cluster run.schedule.items run.report.items) }
    ensures line { IfOk result (λ run. run.line ≤ 2 + 10 * recipe.nodes + recipe.steps) }
    ensures unprinted { O.printing out.new ≡ O.printing out.old }
{
    let Recipe {
        nodes,
        seed,
        steps,
        faults,
    } = recipe;
    let mut run = Run::new(alloc, nodes)?;
    open_all(alloc, nodes, &mut run)?;
    let mut drawing = RandomRun::new(alloc, nodes)?;
    let mut generator = Pcg32::seed_from_u64(seed);
    for step in 0..steps {
        tell_step(u64::from(step), u64::from(step), u64::from(steps), out);
        let words = (generator.next_word(), generator.next_word());
        go_on(alloc, nodes, faults, words, &mut drawing, &mut run)?;
    }
    Ok(run)
}

/// The text of a lively schedule, a line `report`, and the text of the report of its run. After the openings of the
/// nodes, each step draws an event among those that do something at that moment. `faults` steps in a thousand draw a
/// crash within a device call, a failing call, a suspicion or the like. The same recipe gives the same text. Those who
/// watch `out` are told how far it is; `out` takes nothing.
///
/// # Errors
/// Also where memory runs out for an event of the run.
pub fn lively_run<O: Sink>(
    alloc: Global,
    recipe: Recipe,
    out: &mut O,
) -> Result<Vec<u8>, AllocError>
    requires { recipe.steps ≤ 999930 }
    ensures ok { IfOk result (λ text. IsLively recipe.nodes recipe.steps text.items) }
    ensures unprinted { O.printing out.new ≡ O.printing out.old }
{
    let run = drawn_run(alloc, recipe, out);
    out.tell_progress(1, 1);
    let text = run?.into_text(alloc, recipe.nodes)?;
    Ok(text)
}

/// The text of that schedule alone.
///
/// # Errors
/// Also where memory runs out for an event of the run.
pub fn lively_schedule<O: Sink>(
    alloc: Global,
    recipe: Recipe,
    out: &mut O,
) -> Result<Vec<u8>, AllocError>
    requires { recipe.steps ≤ 999930 }
    ensures ok { IfOk result (λ text. IsLivelySchedule recipe.nodes recipe.steps text.items) }
    ensures unprinted { O.printing out.new ≡ O.printing out.old }
{
    let run = drawn_run(alloc, recipe, out);
    out.tell_progress(1, 1);
    Ok(run?.into_schedule(recipe.nodes))
}
