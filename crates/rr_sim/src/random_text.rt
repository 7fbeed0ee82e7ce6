//! A random schedule told as text: each event is drawn, made and told before the next.

ghost use Rattle.std.specs.Prelude.{◌≡◌, ◌≤◌, [], ◌++◌, OnOk, IfOk};
ghost use Rattle.std.specs.List.{flat_map};
ghost use Rattle.rr_text.specs.Lines.{nodes_line};
ghost use Rattle.rr_text.specs.ScheduleTexts.{event_line};
ghost use Rattle.rr_sim.specs.Random.{openings, opened};
ghost use Rattle.rr_sim.specs.Told.{told, DrawsAll, IsRandomRun};

use crate::chosen::decided_list;
use crate::cluster::Cluster;
use crate::random_events::{draw, opened, openings};
use rand_core::SeedableRng;
use rand_pcg::Pcg32;
use rr_stream::{Sink, tell_step};
use rr_text::text_report::push_decided_list;
use rr_text::text_schedule::{push_event_line, push_event_lines, push_nodes_line};
use rr_types::Nodes;
use std::alloc::{AllocError, Global};

/// The texts of a schedule and of the report of its run.
#[derive(Drop)]
struct Texts {
    schedule: Vec<u8>,
    report: Vec<u8>,
}

/// Draws `steps` events after the openings, makes each and tells it, and tells the sink how far it is.
fn tell_drawn<O: Sink>(
    alloc: Global,
    nodes: Nodes,
    steps: u32,
    generator: &mut Pcg32,
    cluster: &mut Cluster,
    texts: &mut Texts,
    out: &mut O,
) -> Result<(), AllocError>
    requires few { nodes ≤ 7 }
    requires start { cluster.old ≡ record (opened nodes) { lines = [] } }
    requires told { texts.old.report.items ≡ told (opened nodes).lines }
    ensures ok { OnOk result (DrawsAll nodes steps generator.old cluster.new texts.old.schedule.items texts.new.schedule.items texts.new.report.items) }
    ensures unprinted { O.printing out.new ≡ O.printing out.old }
{
    let mut line = 2 + 10 * u64::from(nodes.count());
    for step in 0..steps {
        tell_step(u64::from(step), u64::from(step), u64::from(steps), out);
        let event = draw(alloc, nodes, generator, cluster.wire())?;
        cluster.step_in_memory(alloc, line, &event)?;
        push_event_line(&mut texts.schedule, &event)?;
        cluster.tell(&mut texts.report)?;
        line += 1;
    }
    Ok(())
}

/// The texts of the openings of nodes, and of what their report has.
fn told_openings(alloc: Global, nodes: Nodes, cluster: &mut Cluster) -> Result<Texts, AllocError>
    requires { cluster.old ≡ opened nodes }
    ensures schedule { IfOk result (λ texts. texts.schedule.items ≡ nodes_line nodes ++ flat_map event_line (openings nodes)) }
    ensures report { IfOk result (λ texts. texts.report.items ≡ told (opened nodes).lines) }
    ensures kept { OnOk result (cluster.new ≡ record (opened nodes) { lines = [] }) }
{
    let events = openings(alloc, nodes)?;
    let mut schedule = Vec::new(alloc);
    push_nodes_line(&mut schedule, nodes)?;
    push_event_lines(&mut schedule, events.as_slice())?;
    let mut report = Vec::new(alloc);
    cluster.tell(&mut report)?;
    Ok(Texts { schedule, report })
}

/// The text of a random schedule, a line `report`, and the text of the report of its run. The schedule is that of
/// `random`, and it is run once, as it is drawn. Those who watch `out` are told how far the run is; `out` takes
/// nothing.
///
/// # Errors
/// Also where memory runs out for an event of the run.
pub fn random_run<O: Sink>(
    alloc: Global,
    nodes: Nodes,
    seed: u64,
    steps: u32,
    out: &mut O,
) -> Result<Vec<u8>, AllocError>
    requires { steps ≤ 999930 }
    ensures ok { IfOk result (λ text. IsRandomRun nodes seed steps text.items) }
    ensures unprinted { O.printing out.new ≡ O.printing out.old }
{
    let events = openings(alloc, nodes)?;
    let mut cluster = opened(alloc, nodes, events.as_slice())?;
    let mut texts = told_openings(alloc, nodes, &mut cluster)?;
    let mut generator = Pcg32::seed_from_u64(seed);
    let drawn = tell_drawn(
        alloc,
        nodes,
        steps,
        &mut generator,
        &mut cluster,
        &mut texts,
        out,
    );
    out.tell_progress(1, 1);
    drawn?;
    let decided = decided_list(alloc, nodes, cluster.wire())?;
    let Texts {
        mut schedule,
        mut report,
    } = texts;
    push_decided_list(&mut report, decided.as_slice())?;
    schedule.extend_from_slice(b"report\n")?;
    schedule.extend_from_slice(report.as_slice())?;
    Ok(schedule)
}
