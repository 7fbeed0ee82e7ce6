//! A run that goes on: the events of a schedule as they are read, and those that are added.

ghost use Rattle.std.specs.Prelude.{◌≡◌, ◌≤◌, ◌+◌, ◌<◌, ◌++◌, IsTrue, OnOk, IfOk};
ghost use Rattle.rr_text.specs.Scheduled.{IsEvent};
ghost use Rattle.rr_lively.specs.Lively.{IsSoFar};
ghost use Rattle.rr_lively.specs.Finishes.{IsAdded, Adds};

use crate::plan::Plan;
use crate::run::may_stay;
use rr_sim::Cluster;
use rr_text::text_schedule::push_event_line;
use rr_text::{Event, Happening};
use rr_types::{Input, NodeEvent, Nodes};
use std::alloc::{AllocError, Global};

/// The nodes behind the events so far, the line of the next event, and the texts of the schedule and of its report.
#[derive(Drop)]
pub(crate) struct Going {
    pub(crate) cluster: Cluster,
    pub(crate) line: u64,
    pub(crate) schedule: Vec<u8>,
    pub(crate) report: Vec<u8>,
}

/// Whether an event is at one of `nodes` nodes, suspects no node outside them, and is neither a fault nor a client's. What is
/// read here is in its range.
fn is_added(nodes: Nodes, event: &Event) -> bool
    ensures { IsTrue result → IsAdded nodes event.now }
{
    if event.node.index() >= nodes.count() {
        return false;
    }
    match &event.what {
        Happening::At(NodeEvent::Told(Input::Suspect(set))) => {
            u32::from(set.bits()) < 1 << nodes.count()
        }
        Happening::At(NodeEvent::Told(Input::Hear(message))) => {
            let _message = *message;
            true
        }
        Happening::At(NodeEvent::Told(Input::Submit(_)) | NodeEvent::Snap) => false,
        Happening::At(_) => true,
        Happening::Fail(_) | Happening::Crash { .. } => false,
    }
}

impl Going {
    /// Makes an event happen, and adds it to the schedule if it is one that may be added to it and changes something.
    #[tactic(auto, using(crate::proofs::FinishLaws::adds_none, crate::proofs::FinishLaws::adds_one))]
    pub(crate) fn add(
        &mut self,
        alloc: Global,
        nodes: Nodes,
        event: &Event,
        plan: &mut Plan,
    ) -> Result<(), AllocError>
        requires so_far { IsSoFar nodes self.old.line self.old.cluster self.old.schedule.items self.old.report.items }
        requires line { self.old.line < 1000002 }
        ensures so_far { OnOk result (IsSoFar nodes self.new.line self.new.cluster self.new.schedule.items self.new.report.items) }
        ensures line { OnOk result (self.new.line ≤ self.old.line + 1) }
        ensures adds { OnOk result (Adds nodes self.old.schedule.items self.new.schedule.items) }
    {
        if !is_added(nodes, event) {
            return Ok(());
        }
        let told = self.report.len();
        plan.foresee(&self.cluster, event)?;
        self.cluster.step_in_memory(alloc, self.line, event)?;
        plan.learn(&self.cluster, event)?;
        self.cluster.tell(&mut self.report)?;
        if self.report.len() == told && may_stay(&self.cluster, event) {
            return Ok(());
        }
        push_event_line(&mut self.schedule, event)?;
        self.line += 1;
        Ok(())
    }
}
