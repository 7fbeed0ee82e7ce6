//! A run told as text: each line of a schedule is read, its event made, and what the report has of it appended.

ghost use Rattle.std.specs.Prelude.{◌≡◌, ◌≤◌, [], ◌++◌, OnOk, IfOk, IfErr};
ghost use Rattle.rr_text.specs.Lines.{nodes_line, IsStop, IsFault};
ghost use Rattle.rr_text.specs.Scheduled.{IsEvent};
ghost use Rattle.rr_text.specs.ScheduleTexts.{event_line};
ghost use Rattle.rr_sim.specs.Told.{TellsAll, IsReportOn};

use crate::chosen::decided_list;
use crate::cluster::Cluster;
use rr_stream::{Sink, tell_step};
use rr_text::text_parse::{first_line, next_event};
use rr_text::text_report::push_decided_list;
use rr_types::{Nodes, Refusal};
use std::alloc::Global;

/// Tells the sink how far a run is that reads its events from the bytes: it is at this line, with the rest to read. The sink
/// takes nothing.
pub fn tell_read<O: Sink>(line: u64, rest: &[u8], bytes: &[u8], out: &mut O)
    ensures { O.printing out.new ≡ O.printing out.old }
{
    let read = bytes.len().saturating_sub(rest.len());
    tell_step(line, read as u64, bytes.len() as u64, out);
}

/// Makes the events of the lines, appends what the report has of them to the text, and tells the sink how far it is.
fn tell_events<O: Sink>(
    alloc: Global,
    nodes: Nodes,
    bytes: &[u8],
    cluster: &mut Cluster,
    text: &mut Vec<u8>,
    out: &mut O,
) -> Result<(), Refusal>
    requires { cluster.old.lines ≡ [] }
    ensures ok { OnOk result (TellsAll nodes bytes.now cluster.old cluster.new text.old.items text.new.items) }
    ensures err { IfErr result (λ e. IsStop (IsEvent nodes) event_line bytes.now e) }
    ensures unprinted { O.printing out.new ≡ O.printing out.old }
{
    let mut line = 2u64;
    let mut rest = bytes;
    while let Some((event, behind)) = next_event(alloc, nodes, rest, line)? {
        tell_read(line, rest, bytes, out);
        cluster.step_told(alloc, line, &event, text)?;
        rest = behind;
        line += 1;
    }
    Ok(())
}

/// The text of the report on a schedule on `nodes` nodes, whose lines after the first are `bytes`. The nodes are freed
/// before the decided list is made, since memory use would peak with both at once.
fn report_behind<O: Sink>(
    alloc: Global,
    nodes: Nodes,
    bytes: &[u8],
    out: &mut O,
) -> Result<Vec<u8>, Refusal>
    ensures ok { IfOk result (λ text. IsReportOn (nodes_line nodes ++ bytes.now) text.items) }
    ensures err { IfErr result (λ e. IsStop (IsEvent nodes) event_line bytes.now e) }
    ensures unprinted { O.printing out.new ≡ O.printing out.old }
{
    let _count = nodes.count();
    let mut cluster = Cluster::new(alloc, nodes)?;
    let mut text = Vec::new(alloc);
    tell_events(alloc, nodes, bytes, &mut cluster, &mut text, out)?;
    let wire = cluster.into_wire();
    let decided = decided_list(alloc, nodes, wire.as_slice())?;
    push_decided_list(&mut text, decided.as_slice())?;
    Ok(text)
}

/// The text of the report on the schedule whose text the bytes are. Of the schedule and the report only one line at a
/// time is kept as a value. Those who watch `out` are told how far the run is; `out` takes nothing.
///
/// # Errors
/// `BadNodes` and `BadEvent` for bytes that are no schedule, as from `Schedule::parse`; `OutOfMemory`.
pub fn report_on<O: Sink>(alloc: Global, bytes: &[u8], out: &mut O) -> Result<Vec<u8>, Refusal>
    ensures ok { IfOk result (λ text. IsReportOn bytes.now text.items) }
    ensures fault { IfErr result (λ e. IsFault IsEvent event_line bytes.now e) }
    ensures unprinted { O.printing out.new ≡ O.printing out.old }
{
    match first_line(bytes) {
        Err(refusal) => Err(refusal),
        Ok((nodes, rest)) => {
            let report = report_behind(alloc, nodes, rest, out);
            out.tell_progress(1, 1);
            report
        }
    }
}
