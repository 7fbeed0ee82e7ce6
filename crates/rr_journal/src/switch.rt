//! The job of a switch.

ghost use Rattle.std.specs.Prelude.{◌≡◌, ◌⊎◌, ℕ, ◌+◌, ◌≤◌, List, true, false, Some, IfOk, IfErr, OnOk, Ok, Err};
ghost use Rattle.rr_types.specs.declared.fact.Fact.{Fact};
ghost use Rattle.rr_types.specs.declared.refusal.Refusal.TheVariants.{Device, Failed};
ghost use Rattle.rr_types.specs.Counts.{counted, Grew};
ghost use Rattle.rr_journal.specs.Moments.{EachHolds};
ghost use Rattle.rr_journal.specs.Held.{Holds};
ghost use Rattle.rr_journal.specs.Stages.{first_stage, stage_behind, Gave};
ghost use Rattle.rr_journal.specs.Switches.{due_call};
ghost use Rattle.rr_journal.specs.SwitchTable.{GoesOn, IsSwitching, StandsBehind};

use crate::journal::Journal;
use crate::stage::Stage;
use crate::switch_call::make;
use rr_disk::{Area, Disk};
use rr_types::{NodeId, Nodes, Refusal};
use std::marker::Model;

/// A switch to a snapshot in the area that isn't active, of six device calls, or of four where that area begins
/// with a closed gate. A step spends it, whatever it answers; `abandon` spends it when its node has crashed or
/// failed. It can't be dropped otherwise.
#[derive(Debug)]
pub struct SwitchJob {
    nodes: Nodes,
    node: NodeId,
    area: Area,
    epoch: u64,
    next: u64,
    body: Vec<u8>,
    stage: Stage,
}

impl Model for SwitchJob {
    ghost use Rattle.rr_journal.specs.Switches.{Switch};

    ghost Value = { Switch };

    ghost view = { λ j. record { nodes = j.nodes; node = j.node; area = j.area; epoch = j.epoch; next = j.next; body = j.body.items; stage = j.stage } };
}

/// What a step of a switch gives.
pub enum Switching {
    /// More device calls are due.
    More(SwitchJob),
    /// The other area is active.
    Done,
}

impl SwitchJob {
    // A switch to this area and epoch, before its first device call.
    pub(crate) fn new(
        nodes: Nodes,
        node: NodeId,
        area: Area,
        epoch: u64,
        next: u64,
        body: Vec<u8>,
        closes: bool,
    ) -> SwitchJob
        ensures { result ≡ record { nodes = nodes; node = node; area = area; epoch = epoch; next = next; body = body.items; stage = first_stage closes } }
    {
        SwitchJob {
            nodes,
            node,
            area,
            epoch,
            next,
            body,
            stage: Stage::first(closes),
        }
    }

    // The area that it writes.
    pub(crate) fn area(&self) -> Area
        ensures { result ≡ self.now.area }
    {
        self.area
    }

    // What it writes behind the area's first gate.
    pub(crate) fn body(&self) -> &[u8]
        ensures { result.now ≡ self.now.body }
    {
        &self.body
    }

    // How far it has come.
    pub(crate) fn stage(&self) -> Stage
        ensures { result ≡ self.now.stage }
    {
        self.stage
    }

    // The same switch at another stage.
    fn at(self, stage: Stage) -> SwitchJob
        ensures { result ≡ record self { stage = stage } }
    {
        let SwitchJob {
            nodes,
            node,
            area,
            epoch,
            next,
            body,
            stage: _,
        } = self;
        SwitchJob {
            nodes,
            node,
            area,
            epoch,
            next,
            body,
            stage,
        }
    }

    /// Spends the switch. Nothing more of it will be done.
    pub fn abandon(self) {
        let SwitchJob {
            nodes: _,
            node: _,
            area: _,
            epoch: _,
            next: _,
            body: _,
            stage: _,
        } = self;
    }

    /// Makes the next device call. With the last one the other area is active, and the journal continues there
    /// after the snapshot.
    ///
    /// # Errors
    /// `Failed` if the journal has failed already, and nothing has changed then; `Device`, and the journal notes it.
    pub fn step<D: Disk>(self, journal: &mut Journal<D>) -> Result<Switching, Refusal>
        ensures done { IfOk result (λ s. (journal.old.failed ≡ false) × GoesOn self journal.old s journal.new
            × Gave D.write_gives D.sync_gives (due_call self) journal.old.disk (Ok tt) journal.new.disk) }
        ensures refused { IfErr result (λ e. ((e ≡ Failed) × (journal.old.failed ≡ true) × (journal.new ≡ journal.old))
            ⊎ ((e ≡ Device) × (journal.old.failed ≡ false) × (journal.new ≡ record journal.old { disk = journal.new.disk; failed = true })
            × Gave D.write_gives D.sync_gives (due_call self) journal.old.disk (Err Device) journal.new.disk × Grew (D.faults journal.old.disk) (D.faults journal.new.disk))) }
        ensures calls { journal.old.failed ≡ false → D.calls journal.new.disk ≡ counted (D.calls journal.old.disk) }
        ensures faults { D.faults journal.old.disk ≤ D.faults journal.new.disk }
        ensures tells { D.tells journal.old.disk → D.tells journal.new.disk }
        ensures table { D.tells journal.old.disk → (facts : List Fact) → IsSwitching journal.old self facts (D.areas journal.old.disk)
            → EachHolds (Holds self.nodes self.node) (D.areas journal.old.disk) facts
            × EachHolds (Holds self.nodes self.node) (D.areas journal.new.disk) facts
            × IfOk result (λ s. StandsBehind journal.new s facts (D.areas journal.new.disk)) }
    {
        match make(journal, &self) {
            Ok(()) => Ok(self.go_on(journal)),
            Err(refusal) => {
                self.abandon();
                Err(refusal)
            }
        }
    }

    // What comes behind the device call that was due.
    fn go_on<D: Disk>(self, journal: &mut Journal<D>) -> Switching
        ensures goes { GoesOn self journal.old result journal.new }
        ensures disk { journal.new.disk ≡ journal.old.disk }
    {
        match self.stage.next() {
            Some(stage) => Switching::More(self.at(stage)),
            None => {
                journal.note_switch(self.area, self.epoch, self.body.len() as u64);
                self.abandon();
                Switching::Done
            }
        }
    }
}
