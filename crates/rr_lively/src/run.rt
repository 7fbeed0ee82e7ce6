//! A schedule as it is drawn, with its run: each event is made and told before the next is drawn.

ghost use Rattle.std.specs.Prelude.{◌≡◌, ◌↔◌, ◌≤◌, ◌+◌, ◌^◌, ◌<◌, false, IsTrue, Ok, OnOk, IfOk};
ghost use Rattle.rr_text.specs.Scheduled.{IsEvent};
ghost use Rattle.rr_text.specs.Words.{IsFill};
ghost use Rattle.rr_lively.specs.Lively.{IsSoFar, MayStay, IsLivelyRun, IsScheduleTo};

use rr_sim::{Cluster, Stance, decided_list};
use rr_text::text_report::push_decided_list;
use rr_text::text_schedule::{push_event_line, push_nodes_line};
use rr_text::{Event, Fill, Happening, command_law};
use rr_types::{Input, NodeEvent, Nodes};
use std::alloc::{AllocError, Global};

/// The nodes behind the events so far, the line of the next event, and the texts of the schedule and of its report.
#[derive(Drop)]
pub(crate) struct Run {
    cluster: Cluster,
    line: u64,
    schedule: Vec<u8>,
    report: Vec<u8>,
}

/// Whether a fill has one byte, as each that is drawn.
fn has_one_byte(fill: &Fill) -> bool
    ensures { IsTrue result → IsFill fill.now }
{
    match fill.as_bytes() {
        [byte] => {
            let _byte = *byte;
            true
        }
        _ => false,
    }
}

/// Whether an event is at one of `nodes` nodes, and suspects no node outside them. What is read here is in its range.
fn is_event(nodes: Nodes, event: &Event) -> bool
    ensures { IsTrue result → IsEvent nodes event.now }
{
    if event.node.index() >= nodes.count() {
        return false;
    }
    match &event.what {
        Happening::At(NodeEvent::Told(Input::Suspect(set))) => {
            u32::from(set.bits()) < 1 << nodes.count()
        }
        Happening::At(NodeEvent::Told(Input::Submit(command))) => {
            command_law(command);
            true
        }
        Happening::At(NodeEvent::Told(Input::Hear(message))) => {
            let _message = *message;
            true
        }
        Happening::At(_) => true,
        Happening::Fail(fill) => has_one_byte(fill),
        Happening::Crash { cut_0, cut_1, fill } => {
            let _cuts = (*cut_0, *cut_1);
            has_one_byte(fill)
        }
    }
}

/// Whether an event that the report tells nothing of has left everything as it was. The nodes are those behind it.
pub fn may_stay(cluster: &Cluster, event: &Event) -> bool
    ensures { IsTrue result ↔ MayStay cluster.now event.now }
{
    match event.what {
        Happening::At(NodeEvent::Send | NodeEvent::Acknowledge) => true,
        Happening::At(NodeEvent::Take) => match cluster.node(event.node) {
            Some(seat) => seat.stance() == Stance::Resting,
            None => false,
        },
        _ => false,
    }
}

impl Run {
    /// A run of `nodes` nodes, all down, over empty disks.
    pub(crate) fn new(alloc: Global, nodes: Nodes) -> Result<Run, AllocError>
        ensures so_far { IfOk result (λ run. IsSoFar nodes run.line run.cluster run.schedule.items run.report.items) }
        ensures line { IfOk result (λ run. run.line ≡ 2) }
    {
        let mut schedule = Vec::new(alloc);
        push_nodes_line(&mut schedule, nodes)?;
        Ok(Run {
            cluster: Cluster::new(alloc, nodes)?,
            line: 2,
            schedule,
            report: Vec::new(alloc),
        })
    }

    /// The nodes behind the events so far.
    pub(crate) fn cluster(&self) -> &Cluster {
        &self.cluster
    }

    /// Makes an event happen, and adds it to the schedule unless it is no event of these nodes, or changes nothing.
    /// Answers whether it was added.
    pub(crate) fn happen(
        &mut self,
        alloc: Global,
        nodes: Nodes,
        event: &Event,
    ) -> Result<bool, AllocError>
        requires so_far { IsSoFar nodes self.old.line self.old.cluster self.old.schedule.items self.old.report.items }
        requires line { self.old.line < 1000002 }
        ensures so_far { OnOk result (IsSoFar nodes self.new.line self.new.cluster self.new.schedule.items self.new.report.items) }
        ensures line { OnOk result (self.new.line ≤ self.old.line + 1) }
        ensures none { result ≡ Ok false → self.new.line ≡ self.old.line }
    {
        if !is_event(nodes, event) {
            return Ok(false);
        }
        let told = self.report.len();
        self.cluster.step_in_memory(alloc, self.line, event)?;
        self.cluster.tell(&mut self.report)?;
        if self.report.len() == told && may_stay(&self.cluster, event) {
            return Ok(false);
        }
        push_event_line(&mut self.schedule, event)?;
        self.line += 1;
        Ok(true)
    }

    /// The text of the schedule, a line `report`, and the text of the report of its run.
    pub(crate) fn into_text(self, alloc: Global, nodes: Nodes) -> Result<Vec<u8>, AllocError>
        requires so_far { IsSoFar nodes self.line self.cluster self.schedule.items self.report.items }
        requires line { self.line ≤ 1000002 }
        requires some { 1 ≤ nodes }
        requires few { nodes ≤ 7 }
        ensures ok { IfOk result (λ text. IsLivelyRun nodes self.line text.items) }
    {
        let Run {
            cluster,
            line: _,
            mut schedule,
            mut report,
        } = self;
        let decided = decided_list(alloc, nodes, cluster.wire())?;
        push_decided_list(&mut report, decided.as_slice())?;
        schedule.extend_from_slice(b"report\n")?;
        schedule.extend_from_slice(report.as_slice())?;
        Ok(schedule)
    }

    /// The text of the schedule alone.
    pub(crate) fn into_schedule(self, nodes: Nodes) -> Vec<u8>
        requires so_far { IsSoFar nodes self.line self.cluster self.schedule.items self.report.items }
        requires line { self.line ≤ 1000002 }
        requires some { 1 ≤ nodes }
        requires few { nodes ≤ 7 }
        ensures { IsScheduleTo nodes self.line result.items }
    {
        let _count = nodes.count();
        let Run { schedule, .. } = self;
        schedule
    }
}
