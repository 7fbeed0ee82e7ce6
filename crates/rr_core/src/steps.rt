//! The steps of a node's opening, one device call each.

ghost use Rattle.std.specs.Prelude.{◌≡◌, ◌⊎◌, ◌↔◌, ◌≤◌, List, None, Some, IsSome, OnErr, IfOk, IfErr};
ghost use Rattle.rr_types.specs.declared.fact.Fact.{Fact};
ghost use Rattle.rr_types.specs.declared.refusal.Refusal.TheVariants.{OutOfMemory, Device};
ghost use Rattle.rr_types.specs.Counts.{counted};
ghost use Rattle.rr_journal.specs.CrashedDisks.{MayStand, IsReading, AddsNone};
ghost use Rattle.rr_journal.specs.Held.{Holds};
ghost use Rattle.rr_journal.specs.Fronts.{KnowsOther};
ghost use Rattle.rr_journal.specs.OpeningCourse.{found_from, StaysOnCourse, IsRefused, IsUntouched};
ghost use Rattle.rr_journal.specs.OpeningSteps.{Steps, MaySnap};
ghost use Rattle.rr_journal.specs.declared.opening.End.{End};
ghost use Rattle.rr_journal.specs.StepsInPlace.{journal_of, as_progress, BeginsAgain};
ghost use Rattle.rr_model.specs.NodeStep.{started};
ghost use Rattle.rr_journal.specs.OpeningTable.{OpensWith, ComesToAny, ComesTo, IsKept, disk_after};
ghost use Rattle.rr_journal.specs.Phases.{phase_of};
ghost use Rattle.rr_core.specs.Recoveries.{as_step, Recovers, StartsAtEnd, RestsAtEnd, CountsAtEnd};

use crate::node_core::Core;
use crate::opening::Opening;
use crate::recovery::{measure, start_core};
use rr_disk::Disk;
use rr_journal::{Journal, Stepped};
use rr_types::Refusal;
use std::alloc::Global;

/// What a step of an opening gives.
pub enum Progress<D: Disk> {
    /// More device calls are due.
    More(Opening<D>),
    /// The node's core, and the areas of its disk.
    Done(Core, Journal<D>),
}

impl<D: Disk> Opening<D> {
    /// Makes the next device call. At the end the core starts from the promise of the facts that the disk holds. A
    /// refused opening hands its disk back.
    ///
    /// # Errors
    /// `OutOfMemory`, `Device`; `Damaged`, of a disk that holds no facts; `TooLarge`, where an area of version 1 has no
    /// next epoch.
    pub fn step(self, alloc: Global) -> Result<Progress<D>, (Refusal, D)>
        ensures exact { Recovers D.read_gives D.write_gives D.sync_gives self result }
        ensures core { IfOk result (λ progress. StartsAtEnd progress) }
        ensures call { D.calls (disk_after (as_step result)) ≡ counted (D.calls self.disk) }
        ensures faults { D.faults self.disk ≤ D.faults (disk_after (as_step result)) }
        ensures cause { IfErr result (λ r. IsRefused D.faults self.disk r) }
        ensures tells { D.tells self.disk → D.tells (disk_after (as_step result)) }
        ensures course { D.tells self.disk → StaysOnCourse D.areas self (as_step result) }
        ensures rests { D.tells self.disk → IfOk result (λ progress. RestsAtEnd D.areas progress) }
        ensures comes { D.tells self.disk → IfOk (as_step result) (λ progress. ComesToAny D.areas progress) }
        ensures number { D.tells self.disk → IfOk result (λ progress. CountsAtEnd D.areas progress) }
        ensures untouched { D.tells self.disk → IsUntouched (phase_of self.phase) (D.areas self.disk) (D.areas (disk_after (as_step result))) }
        ensures images { D.tells self.disk → MayStand (D.areas self.disk) → IsReading (phase_of self.phase) → AddsNone (D.areas self.disk) (D.areas (disk_after (as_step result))) }
        ensures table { D.tells self.disk → (facts : List Fact) → OpensWith self.nodes self.node facts self.phase (D.areas self.disk)
            → IfOk (as_step result) (λ progress. ComesTo D.areas facts progress) }
        ensures undamaged { D.tells self.disk → (facts : List Fact) → OpensWith self.nodes self.node facts self.phase (D.areas self.disk)
            → IfErr result (λ r. (r.0 ≡ OutOfMemory) ⊎ (r.0 ≡ Device)) }
        ensures kept { D.tells self.disk → (facts : List Fact) → OpensWith self.nodes self.node facts self.phase (D.areas self.disk)
            → IsKept (Holds self.nodes self.node) facts (D.areas self.disk) (D.areas (disk_after (as_step result))) }
        ensures snapshot { IfOk (as_step result) (λ progress. MaySnap progress) }
        ensures fronts { D.tells self.disk → IfOk (as_step result) (λ progress. KnowsOther D.areas progress) }
    {
        let Opening {
            journal,
            nodes,
            node,
        } = self;
        match journal.step(alloc) {
            Ok(rr_journal::Progress::More(journal)) => Ok(Progress::More(Opening {
                journal,
                nodes,
                node,
            })),
            Ok(rr_journal::Progress::Done(journal, opened)) => {
                match start_core(alloc, journal, opened) {
                    Ok((core, slots)) => Ok(Progress::Done(core, slots)),
                    Err(wanting) => Err(wanting),
                }
            }
            Err(refused) => Err(refused),
        }
    }

    /// Makes the next device call in place. The end that the last call finds stays in the opening, for `close`. An opening that
    /// was refused, or has found its end, would begin anew over its disk, without an end.
    ///
    /// # Errors
    /// As of `step`, but memory for the core is taken by `close`.
    pub fn step_on(&mut self, alloc: Global) -> Result<Stepped, Refusal>
        ensures exact { Steps D.read_gives D.write_gives D.sync_gives self.old (as_progress self.new result) }
        ensures call { D.calls (disk_after (as_progress self.new result)) ≡ counted (D.calls self.old.disk) }
        ensures faults { D.faults self.old.disk ≤ D.faults (disk_after (as_progress self.new result)) }
        ensures cause { IfErr (as_progress self.new result) (λ r. IsRefused D.faults self.old.disk r) }
        ensures tells { D.tells self.old.disk → D.tells (disk_after (as_progress self.new result)) }
        ensures course { D.tells self.old.disk → StaysOnCourse D.areas self.old (as_progress self.new result) }
        ensures comes { D.tells self.old.disk → IfOk (as_progress self.new result) (λ progress. ComesToAny D.areas progress) }
        ensures untouched { D.tells self.old.disk → IsUntouched (phase_of self.old.phase) (D.areas self.old.disk) (D.areas (disk_after (as_progress self.new result))) }
        ensures images { D.tells self.old.disk → MayStand (D.areas self.old.disk) → IsReading (phase_of self.old.phase) → AddsNone (D.areas self.old.disk) (D.areas (disk_after (as_progress self.new result))) }
        ensures table { D.tells self.old.disk → (facts : List Fact) → OpensWith self.old.nodes self.old.node facts self.old.phase (D.areas self.old.disk)
            → IfOk (as_progress self.new result) (λ progress. ComesTo D.areas facts progress) }
        ensures undamaged { D.tells self.old.disk → (facts : List Fact) → OpensWith self.old.nodes self.old.node facts self.old.phase (D.areas self.old.disk)
            → IfErr (as_progress self.new result) (λ r. (r.0 ≡ OutOfMemory) ⊎ (r.0 ≡ Device)) }
        ensures kept { D.tells self.old.disk → (facts : List Fact) → OpensWith self.old.nodes self.old.node facts self.old.phase (D.areas self.old.disk)
            → IsKept (Holds self.old.nodes self.old.node) facts (D.areas self.old.disk) (D.areas (disk_after (as_progress self.new result))) }
        ensures snapshot { IfOk (as_progress self.new result) (λ progress. MaySnap progress) }
        ensures fronts { D.tells self.old.disk → IfOk (as_progress self.new result) (λ progress. KnowsOther D.areas progress) }
        ensures whose { (self.new.nodes ≡ self.old.nodes) × (self.new.node ≡ self.old.node) }
        ensures again { BeginsAgain D.areas self.new result }
        ensures ended { IfOk result (λ stepped. IsSome self.new.end ↔ (stepped ≡ Stepped.Ended)) }
        ensures endless { OnErr result (self.new.end ≡ None) }
    {
        let stepped = self.journal.step_on(alloc);
        measure(self.journal.disk());
        stepped
    }

    /// The core that starts from the end that the opening has found, and the areas of its disk. A refused start hands the
    /// disk back.
    ///
    /// # Errors
    /// `OutOfMemory`.
    pub fn close(self, alloc: Global) -> Result<(Core, Journal<D>), (Refusal, D)>
        requires { IsSome self.end }
        ensures ok { (end : End) → self.end ≡ Some end → IfOk result (λ r. (r.0 ≡ started self.nodes self.node end.promise end.next) × (r.0.marked ≡ end.promise) × (r.1 ≡ journal_of self end)) }
        ensures err { IfErr result (λ r. (r.0 ≡ OutOfMemory) × (r.1 ≡ self.disk)) }
    {
        let Opening {
            journal,
            nodes: _,
            node: _,
        } = self;
        let (journal, opened) = journal.close();
        match start_core(alloc, journal, opened) {
            Ok((core, slots)) => Ok((core, slots)),
            Err(wanting) => Err(wanting),
        }
    }
}
