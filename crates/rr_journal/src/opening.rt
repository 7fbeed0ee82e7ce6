//! The opening of a journal, one device call a step.

ghost use Rattle.std.specs.Prelude.{◌≡◌, ◌⊎◌, ◌↔◌, ℕ, ◌+◌, ◌<◌, ◌≤◌, ◌^◌, true, false, List, length, None, IsSome, Ok, Err, OnOk, OnErr, IfOk, IfErr};
ghost use Rattle.rr_types.specs.declared.fact.Fact.{Fact};
ghost use Rattle.rr_types.specs.declared.refusal.Refusal.TheVariants.{OutOfMemory, Device};
ghost use Rattle.rr_disk.specs.Areas.{Areas, extent_of};
ghost use Rattle.rr_types.specs.Counts.{counted, Grew};
ghost use Rattle.rr_disk.specs.Failing.{FailingRead, FailingWrite, FailingSync};
ghost use Rattle.rr_frame.specs.Snapshots.{IsSnapshot};
ghost use Rattle.rr_journal.specs.Calls.{must_close, after_call};
ghost use Rattle.rr_journal.specs.CrashedDisks.{MayStand, EachHoldsSome, SomeHolds, IsOpenWithOneOf, IsReading, AddsNone, AddsSameAlone};
ghost use Rattle.rr_journal.specs.Image.{Outdated, found};
ghost use Rattle.rr_journal.specs.Openings.{Settling, ReadingSecond, Rewriting, Done, Refused, snapshot_with, due_call, after_found, after_opening_call};
ghost use Rattle.rr_journal.specs.Fronts.{front_beside, KnowsFronts, KnowsRead, KnowsOther};
ghost use Rattle.rr_journal.specs.Phases.{phase_of, Follows};
ghost use Rattle.rr_journal.specs.OpeningCourse.{calls_left, found_from, calls_from, EndsBy, StaysOnCourse, IsRefused, IsDue, IsUntouched, IsAsBefore, IsLeftAlone, IsDone};
ghost use Rattle.rr_journal.specs.OpeningStates.{OpeningState, IsOwn};
ghost use Rattle.rr_journal.specs.OpeningSteps.{Steps, MaySnap, MayGoOn};
ghost use Rattle.rr_journal.specs.OpeningTable.{IsReadBy, IsLeftBy, IsResting, Rests, contents, OpensAny, OpensWith, GoesOnAny, GoesOnWith, ComesToAny, ComesTo, IsKept, disk_after};
ghost use Rattle.rr_journal.specs.OpenDisks.{IsOpenWith, IsOpenAtRest, IsReady, disk_behind};
ghost use Rattle.rr_journal.specs.Held.{Holds};
ghost use Rattle.rr_journal.specs.Stages.{calls_from as stage_calls};
ghost use Rattle.rr_journal.specs.StepsInPlace.{ended_by, as_progress, BeginsAgain};
ghost use Rattle.rr_journal.specs.declared.opening.Phase.{Phase};
ghost use Rattle.rr_journal.specs.OtherAreas.{other_area, IsOtherKnown};
ghost use Rattle.rr_journal.specs.Rewrites.{IsRewriting, writes_anew, area_anew, area_kept, content_anew};

use crate::content::OPEN_GATE;
use crate::image::{Image, take_image};
use crate::journal::Journal;
use crate::opened::Opened;
use crate::rewrite::Rewrite;
use rr_disk::{Area, Disk, FailingDisk};
use rr_types::{NodeId, Nodes, Promise, Refusal};
use std::alloc::Global;
use std::marker::Model;
use std::mem;

/// How far an opening has come: the device call that is due.
#[derive(Debug, Drop)]
enum Phase {
    Settling,
    ReadingFirst,
    /// With the bytes of area 0.
    ReadingSecond(Vec<u8>),
    /// An area is written anew: no area is formatted, or the active one has version 1.
    Rewriting(Rewrite),
}

/// Whether each area has to be closed before it is written anew, as far as an opening has read them.
#[derive(Clone, Copy, Debug)]
struct Fronts {
    first: bool,
    second: bool,
}

impl Fronts {
    /// Whether the area beside this one has to be closed.
    fn beside(self, area: Area) -> bool
        ensures { result ≡ front_beside area self }
    {
        match area {
            Area::First => self.second,
            Area::Second => self.first,
        }
    }
}

/// An opening of a node's disk: it syncs and reads both areas. Where neither is formatted it formats the first; where
/// the active one has version 1 it writes a snapshot of version 2 to the other, which is active from then on.
#[derive(Drop)]
pub struct Opening<D: Disk> {
    disk: D,
    nodes: Nodes,
    node: NodeId,
    phase: Phase,
    fronts: Fronts,
    /// What the last step found, if it was the last one.
    end: Option<End>,
}

impl<D: Disk> Model for Opening<D> {
    ghost use Rattle.rr_journal.specs.OpeningStates.{OpeningState, IsOwn};

    ghost Value = { OpeningState D };

    ghost view = { λ o. record { disk = o.disk; nodes = o.nodes; node = o.node; phase = o.phase; fronts = o.fronts; end = o.end } };

    ghost invariant = { λ o. IsOwn o.nodes o.node o.phase };
}

/// What the last step of an opening found: where the journal appends, and the promise and the number of its facts.
#[derive(Debug, Drop)]
struct End {
    area: Area,
    epoch: u64,
    gate: u64,
    promise: Promise,
    next: u64,
}

/// How an opening stands behind a step in place.
#[derive(Clone, Copy, Debug)]
pub enum Stepped {
    /// More device calls are due.
    More,
    /// It has found its end, which lies in it until `close`.
    Ended,
}

/// What a step of an opening gives.
pub enum Progress<D: Disk> {
    /// More device calls are due.
    More(Opening<D>),
    /// The journal, and the end of its opening.
    Done(Journal<D>, Opened),
}

impl<D: Disk> Opening<D> {
    /// Begins an opening. No device call is made yet.
    pub fn start(nodes: Nodes, node: NodeId, disk: D) -> Opening<D>
        ensures whose { (result.nodes ≡ nodes) × (result.node ≡ node) }
        ensures disk { result.disk ≡ disk }
        ensures phase { phase_of result.phase ≡ Settling }
        ensures rests { length (D.areas disk).first.cells < 2 ^ 64 → length (D.areas disk).second.cells < 2 ^ 64 → OpensAny nodes node result.phase (D.areas disk) }
        ensures table { (facts : List Fact) → length (D.areas disk).first.cells < 2 ^ 64 → length (D.areas disk).second.cells < 2 ^ 64
            → Holds nodes node (contents (D.areas disk)) facts → OpensWith nodes node facts result.phase (D.areas disk) }
        ensures some { length (D.areas disk).first.cells < 2 ^ 64 → length (D.areas disk).second.cells < 2 ^ 64 → MayStand (D.areas disk) → EachHoldsSome (Holds nodes node) (D.areas disk)
            → (facts : List Fact) × SomeHolds (Holds nodes node) (D.areas disk) facts × OpensWith nodes node facts result.phase (D.areas disk) }
    {
        Opening {
            disk,
            nodes,
            node,
            phase: Phase::Settling,
            fronts: Fronts {
                first: true,
                second: true,
            },
            end: None,
        }
    }

    /// The disk that is opened.
    pub fn disk(&self) -> &D
        ensures { result.now ≡ self.now.disk }
    {
        &self.disk
    }

    /// Gives the opening up, and the disk back.
    pub fn into_disk(self) -> D
        ensures { result ≡ self.disk }
    {
        let Opening {
            disk,
            nodes: _,
            node: _,
            phase: _,
            fronts: _,
            end: _,
        } = self;
        disk
    }

    /// Makes the next device call, where the node is one of its nodes. A refused opening hands its disk back.
    ///
    /// # Errors
    /// `OutOfMemory`, `Device`; `Damaged`, of a disk that holds no facts; `TooLarge`, where an area of version 1 has no
    /// next epoch.
    pub fn step(self, alloc: Global) -> Result<Progress<D>, (Refusal, D)>
        requires { self.node < self.nodes }
        ensures exact { Steps D.read_gives D.write_gives D.sync_gives self result }
        ensures call { D.calls (disk_after result) ≡ counted (D.calls self.disk) }
        ensures faults { D.faults self.disk ≤ D.faults (disk_after result) }
        ensures cause { IfErr result (λ r. IsRefused D.faults self.disk r) }
        ensures tells { D.tells self.disk → D.tells (disk_after result) }
        ensures course { D.tells self.disk → StaysOnCourse D.areas self result }
        ensures due { IsDue (phase_of self.phase) }
        ensures untouched { D.tells self.disk → IsUntouched (phase_of self.phase) (D.areas self.disk) (D.areas (disk_after result)) }
        ensures images { D.tells self.disk → MayStand (D.areas self.disk) → IsReading (phase_of self.phase) → AddsNone (D.areas self.disk) (D.areas (disk_after result)) }
        ensures rests { D.tells self.disk → OpensAny self.nodes self.node self.phase (D.areas self.disk) → IfOk result (λ progress. ComesToAny D.areas progress) }
        ensures table { D.tells self.disk → (facts : List Fact) → OpensWith self.nodes self.node facts self.phase (D.areas self.disk)
            → IfOk result (λ progress. ComesTo D.areas facts progress) }
        ensures undamaged { D.tells self.disk → (facts : List Fact) → OpensWith self.nodes self.node facts self.phase (D.areas self.disk)
            → IfErr result (λ r. (r.0 ≡ OutOfMemory) ⊎ (r.0 ≡ Device)) }
        ensures kept { D.tells self.disk → (facts : List Fact) → OpensWith self.nodes self.node facts self.phase (D.areas self.disk)
            → IsKept (Holds self.nodes self.node) facts (D.areas self.disk) (D.areas (disk_after result)) }
        ensures fronts { D.tells self.disk → KnowsFronts (phase_of self.phase) self.fronts (D.areas self.disk) → IfOk result (λ progress. KnowsOther D.areas progress) }
        ensures snapshot { IfOk result (λ progress. MaySnap progress) }
    {
        let mut opening = self;
        match opening.step_on(alloc) {
            Err(refusal) => Err((refusal, opening.into_disk())),
            Ok(Stepped::More) => Ok(Progress::More(opening)),
            Ok(Stepped::Ended) => {
                let (journal, opened) = opening.close();
                Ok(Progress::Done(journal, opened))
            }
        }
    }

    /// Makes the next device call in place, where the node is one of its nodes. The end that the last call finds stays in the
    /// opening, for `close`. An opening that was refused, or has found its end, would begin anew over its disk, without an end.
    ///
    /// # Errors
    /// As of `step`.
    pub fn step_on(&mut self, alloc: Global) -> Result<Stepped, Refusal>
        requires { self.old.node < self.old.nodes }
        ensures exact { Steps D.read_gives D.write_gives D.sync_gives self.old (as_progress self.new result) }
        ensures call { D.calls (disk_after (as_progress self.new result)) ≡ counted (D.calls self.old.disk) }
        ensures faults { D.faults self.old.disk ≤ D.faults (disk_after (as_progress self.new result)) }
        ensures cause { IfErr (as_progress self.new result) (λ r. IsRefused D.faults self.old.disk r) }
        ensures tells { D.tells self.old.disk → D.tells (disk_after (as_progress self.new result)) }
        ensures course { D.tells self.old.disk → StaysOnCourse D.areas self.old (as_progress self.new result) }
        ensures due { IsDue (phase_of self.old.phase) }
        ensures untouched { D.tells self.old.disk → IsUntouched (phase_of self.old.phase) (D.areas self.old.disk) (D.areas (disk_after (as_progress self.new result))) }
        ensures images { D.tells self.old.disk → MayStand (D.areas self.old.disk) → IsReading (phase_of self.old.phase) → AddsNone (D.areas self.old.disk) (D.areas (disk_after (as_progress self.new result))) }
        ensures rests { D.tells self.old.disk → OpensAny self.old.nodes self.old.node self.old.phase (D.areas self.old.disk) → IfOk (as_progress self.new result) (λ progress. ComesToAny D.areas progress) }
        ensures table { D.tells self.old.disk → (facts : List Fact) → OpensWith self.old.nodes self.old.node facts self.old.phase (D.areas self.old.disk)
            → IfOk (as_progress self.new result) (λ progress. ComesTo D.areas facts progress) }
        ensures undamaged { D.tells self.old.disk → (facts : List Fact) → OpensWith self.old.nodes self.old.node facts self.old.phase (D.areas self.old.disk)
            → IfErr (as_progress self.new result) (λ r. (r.0 ≡ OutOfMemory) ⊎ (r.0 ≡ Device)) }
        ensures kept { D.tells self.old.disk → (facts : List Fact) → OpensWith self.old.nodes self.old.node facts self.old.phase (D.areas self.old.disk)
            → IsKept (Holds self.old.nodes self.old.node) facts (D.areas self.old.disk) (D.areas (disk_after (as_progress self.new result))) }
        ensures fronts { D.tells self.old.disk → KnowsFronts (phase_of self.old.phase) self.old.fronts (D.areas self.old.disk) → IfOk (as_progress self.new result) (λ progress. KnowsOther D.areas progress) }
        ensures snapshot { IfOk (as_progress self.new result) (λ progress. MaySnap progress) }
        ensures whose { (self.new.nodes ≡ self.old.nodes) × (self.new.node ≡ self.old.node) }
        ensures again { BeginsAgain D.areas self.new result }
        ensures ended { IfOk result (λ stepped. IsSome self.new.end ↔ (stepped ≡ Stepped.Ended)) }
        ensures endless { OnErr result (self.new.end ≡ None) }
    {
        make_step(
            alloc,
            &mut self.disk,
            self.nodes,
            self.node,
            &mut self.phase,
            &mut self.fronts,
            &mut self.end,
        )
    }

    /// The journal of an opening that has found its end, and this end.
    pub fn close(self) -> (Journal<D>, Opened)
        requires { IsSome self.end }
        ensures { ended_by self self.end ≡ Progress.Done result.0 result.1 }
    {
        let Opening {
            disk,
            nodes,
            node,
            phase: _,
            fronts,
            end,
        } = self;
        let Some(
            End {
                area,
                epoch,
                gate,
                promise,
                next,
            },
        ) = end
        else {
            unreachable!()
        };
        let closes_other = fronts.beside(area);
        (
            Journal::new(disk, nodes, node, area, epoch, gate, next, closes_other),
            Opened {
                nodes,
                node,
                promise,
                next,
            },
        )
    }

    /// Makes all device calls that are left: the journal, and the end of its opening. A refused opening hands its
    /// disk back.
    ///
    /// # Errors
    /// As of `step`.
    pub fn finish(self, alloc: Global) -> Result<(Journal<D>, Opened), (Refusal, D)>
        requires { self.node < self.nodes }
        ensures calls { D.calls (disk_behind result) ≤ D.calls self.disk + calls_left (phase_of self.phase) }
        ensures faults { D.faults self.disk ≤ D.faults (disk_behind result) }
        ensures cause { IfErr result (λ r. IsRefused D.faults self.disk r) }
        ensures tells { D.tells self.disk → D.tells (disk_behind result) }
        ensures ends { D.tells self.disk → EndsBy (found_from self.nodes self.node (phase_of self.phase) (D.areas self.disk)) result }
        ensures counted { D.tells self.disk → D.calls (disk_behind result) ≤ D.calls self.disk + length (calls_from self.nodes self.node (phase_of self.phase) (D.areas self.disk)) }
        ensures done { D.tells self.disk → OnOk result (IsDone (calls_from self.nodes self.node (phase_of self.phase) (D.areas self.disk)) D.areas D.calls self.disk (disk_behind result)) }
        ensures untouched { D.tells self.disk → writes_anew (found_from self.nodes self.node (phase_of self.phase) (D.areas self.disk)) ≡ false
            → IsAsBefore (D.areas self.disk) (D.areas (disk_behind result)) }
        ensures beside { D.tells self.disk → (area : Area) → area ≡ area_kept (found_from self.nodes self.node (phase_of self.phase) (D.areas self.disk))
            → IsLeftAlone (extent_of (D.areas self.disk) area) (extent_of (D.areas (disk_behind result)) area) }
        ensures journal { IfOk result (λ r. IsReady self.nodes self.node r) }
        ensures rests { D.tells self.disk → OpensAny self.nodes self.node self.phase (D.areas self.disk) → IfOk result (λ r. IsOpenAtRest D.areas r) }
        ensures table { D.tells self.disk → (facts : List Fact) → OpensWith self.nodes self.node facts self.phase (D.areas self.disk)
            → IfOk result (λ r. IsOpenWith D.areas facts r) }
        ensures undamaged { D.tells self.disk → (facts : List Fact) → OpensWith self.nodes self.node facts self.phase (D.areas self.disk)
            → IfErr result (λ r. (r.0 ≡ OutOfMemory) ⊎ (r.0 ≡ Device)) }
        ensures kept { D.tells self.disk → (facts : List Fact) → OpensWith self.nodes self.node facts self.phase (D.areas self.disk)
            → IsKept (Holds self.nodes self.node) facts (D.areas self.disk) (D.areas (disk_behind result)) }
        ensures fronts { D.tells self.disk → KnowsFronts (phase_of self.phase) self.fronts (D.areas self.disk) → IfOk result (λ r. IsOtherKnown D.areas r.0) }
    {
        let mut opening = self;
        loop {
            match opening.step(alloc) {
                Err(refused) => return Err(refused),
                Ok(Progress::More(next)) => opening = next,
                Ok(Progress::Done(journal, opened)) => return Ok((journal, opened)),
            }
        }
    }
}

impl<D: Disk> Journal<D> {
    /// Opens the disk of one of the nodes by all steps of an `Opening`: the journal, and the end of its opening. A
    /// refused opening hands its disk back.
    ///
    /// # Errors
    /// `OutOfMemory`, `Device`; `Damaged`, of a disk that holds no facts; `TooLarge`, where an area of version 1 has no
    /// next epoch.
    pub fn open(
        alloc: Global,
        nodes: Nodes,
        node: NodeId,
        disk: D,
    ) -> Result<(Journal<D>, Opened), (Refusal, D)>
        requires { node < nodes }
        ensures calls { D.calls (disk_behind result) ≤ D.calls disk + 9 }
        ensures faults { D.faults disk ≤ D.faults (disk_behind result) }
        ensures cause { IfErr result (λ r. IsRefused D.faults disk r) }
        ensures tells { D.tells disk → D.tells (disk_behind result) }
        ensures ends { D.tells disk → EndsBy (found_from nodes node Settling (D.areas disk)) result }
        ensures counted { D.tells disk → D.calls (disk_behind result) ≤ D.calls disk + length (calls_from nodes node Settling (D.areas disk)) }
        ensures done { D.tells disk → OnOk result (IsDone (calls_from nodes node Settling (D.areas disk)) D.areas D.calls disk (disk_behind result)) }
        ensures untouched { D.tells disk → writes_anew (found_from nodes node Settling (D.areas disk)) ≡ false → IsAsBefore (D.areas disk) (D.areas (disk_behind result)) }
        ensures beside { D.tells disk → (area : Area) → area ≡ area_kept (found_from nodes node Settling (D.areas disk))
            → IsLeftAlone (extent_of (D.areas disk) area) (extent_of (D.areas (disk_behind result)) area) }
        ensures images { D.tells disk → length (D.areas disk).first.cells < 2 ^ 64 → length (D.areas disk).second.cells < 2 ^ 64 → MayStand (D.areas disk)
            → AddsSameAlone nodes node (D.areas disk) (D.areas (disk_behind result)) }
        ensures some { D.tells disk → length (D.areas disk).first.cells < 2 ^ 64 → length (D.areas disk).second.cells < 2 ^ 64 → MayStand (D.areas disk) → EachHoldsSome (Holds nodes node) (D.areas disk)
            → IfOk result (λ r. IsOpenWithOneOf D.areas (Holds nodes node) (D.areas disk) r) × IfErr result (λ r. (r.0 ≡ OutOfMemory) ⊎ (r.0 ≡ Device)) }
        ensures journal { IfOk result (λ r. IsReady nodes node r) }
        ensures rests { D.tells disk → length (D.areas disk).first.cells < 2 ^ 64 → length (D.areas disk).second.cells < 2 ^ 64 → IfOk result (λ r. IsOpenAtRest D.areas r) }
        ensures table { D.tells disk → (facts : List Fact) → length (D.areas disk).first.cells < 2 ^ 64 → length (D.areas disk).second.cells < 2 ^ 64
            → Holds nodes node (contents (D.areas disk)) facts → IfOk result (λ r. IsOpenWith D.areas facts r) }
        ensures undamaged { D.tells disk → (facts : List Fact) → length (D.areas disk).first.cells < 2 ^ 64 → length (D.areas disk).second.cells < 2 ^ 64
            → Holds nodes node (contents (D.areas disk)) facts → IfErr result (λ r. (r.0 ≡ OutOfMemory) ⊎ (r.0 ≡ Device)) }
        ensures kept { D.tells disk → (facts : List Fact) → length (D.areas disk).first.cells < 2 ^ 64 → length (D.areas disk).second.cells < 2 ^ 64
            → Holds nodes node (contents (D.areas disk)) facts → IsKept (Holds nodes node) facts (D.areas disk) (D.areas (disk_behind result)) }
        ensures fronts { D.tells disk → IfOk result (λ r. IsOtherKnown D.areas r.0) }
    {
        Opening::start(nodes, node, disk).finish(alloc)
    }
}

impl<D: Disk> Opening<FailingDisk<D>> {
    /// Makes the next device call fail, as `FailingDisk::fail_next` says, and hands the disk back.
    pub fn fail(self, alloc: Global, fill: Vec<u8>) -> FailingDisk<D>
        ensures { Refused (FailingRead D.read_gives) (FailingWrite D.write_gives) (FailingSync D.sync_gives)
            (due_call (phase_of self.phase)) (record self.disk { due = Some fill.items }) Device result }
    {
        let Opening {
            mut disk,
            nodes: _,
            node: _,
            phase,
            fronts: _,
            end: _,
        } = self;
        disk.fail_next(fill);
        let _refused = call(alloc, &mut disk, &phase);
        disk
    }
}

// Makes the next device call of an opening.
fn make_step<D: Disk>(
    alloc: Global,
    disk: &mut D,
    nodes: Nodes,
    node: NodeId,
    phase: &mut Phase,
    fronts: &mut Fronts,
    end: &mut Option<End>,
) -> Result<Stepped, Refusal>
    requires exists { node < nodes }
    requires own { IsOwn nodes node phase.old }
    ensures exact { Steps D.read_gives D.write_gives D.sync_gives (record { disk = disk.old; nodes = nodes; node = node; phase = phase.old; fronts = fronts.old; end = end.old }) (as_progress (record { disk = disk.new; nodes = nodes; node = node; phase = phase.new; fronts = fronts.new; end = end.new }) result) }
    ensures call { D.calls (disk_after (as_progress (record { disk = disk.new; nodes = nodes; node = node; phase = phase.new; fronts = fronts.new; end = end.new }) result)) ≡ counted (D.calls disk.old) }
    ensures faults { D.faults disk.old ≤ D.faults (disk_after (as_progress (record { disk = disk.new; nodes = nodes; node = node; phase = phase.new; fronts = fronts.new; end = end.new }) result)) }
    ensures cause { IfErr (as_progress (record { disk = disk.new; nodes = nodes; node = node; phase = phase.new; fronts = fronts.new; end = end.new }) result) (λ r. IsRefused D.faults disk.old r) }
    ensures tells { D.tells disk.old → D.tells (disk_after (as_progress (record { disk = disk.new; nodes = nodes; node = node; phase = phase.new; fronts = fronts.new; end = end.new }) result)) }
    ensures course { D.tells disk.old → StaysOnCourse D.areas (record { disk = disk.old; nodes = nodes; node = node; phase = phase.old; fronts = fronts.old; end = end.old }) (as_progress (record { disk = disk.new; nodes = nodes; node = node; phase = phase.new; fronts = fronts.new; end = end.new }) result) }
    ensures due { IsDue (phase_of phase.old) }
    ensures untouched { D.tells disk.old → IsUntouched (phase_of phase.old) (D.areas disk.old) (D.areas (disk_after (as_progress (record { disk = disk.new; nodes = nodes; node = node; phase = phase.new; fronts = fronts.new; end = end.new }) result))) }
    ensures images { D.tells disk.old → MayStand (D.areas disk.old) → IsReading (phase_of phase.old) → AddsNone (D.areas disk.old) (D.areas (disk_after (as_progress (record { disk = disk.new; nodes = nodes; node = node; phase = phase.new; fronts = fronts.new; end = end.new }) result))) }
    ensures rests { D.tells disk.old → OpensAny nodes node phase.old (D.areas disk.old) → IfOk (as_progress (record { disk = disk.new; nodes = nodes; node = node; phase = phase.new; fronts = fronts.new; end = end.new }) result) (λ progress. ComesToAny D.areas progress) }
    ensures table { D.tells disk.old → (facts : List Fact) → OpensWith nodes node facts phase.old (D.areas disk.old)
        → IfOk (as_progress (record { disk = disk.new; nodes = nodes; node = node; phase = phase.new; fronts = fronts.new; end = end.new }) result) (λ progress. ComesTo D.areas facts progress) }
    ensures undamaged { D.tells disk.old → (facts : List Fact) → OpensWith nodes node facts phase.old (D.areas disk.old)
        → IfErr (as_progress (record { disk = disk.new; nodes = nodes; node = node; phase = phase.new; fronts = fronts.new; end = end.new }) result) (λ r. (r.0 ≡ OutOfMemory) ⊎ (r.0 ≡ Device)) }
    ensures kept { D.tells disk.old → (facts : List Fact) → OpensWith nodes node facts phase.old (D.areas disk.old)
        → IsKept (Holds nodes node) facts (D.areas disk.old) (D.areas (disk_after (as_progress (record { disk = disk.new; nodes = nodes; node = node; phase = phase.new; fronts = fronts.new; end = end.new }) result))) }
    ensures fronts { D.tells disk.old → KnowsFronts (phase_of phase.old) fronts.old (D.areas disk.old) → IfOk (as_progress (record { disk = disk.new; nodes = nodes; node = node; phase = phase.new; fronts = fronts.new; end = end.new }) result) (λ progress. KnowsOther D.areas progress) }
    ensures snapshot { IfOk (as_progress (record { disk = disk.new; nodes = nodes; node = node; phase = phase.new; fronts = fronts.new; end = end.new }) result) (λ progress. MaySnap progress) }
    ensures own { IsOwn nodes node phase.new }
    ensures again { BeginsAgain D.areas (record { disk = disk.new; nodes = nodes; node = node; phase = phase.new; fronts = fronts.new; end = end.new }) result }
    ensures ended { IfOk result (λ stepped. IsSome end.new ↔ (stepped ≡ Stepped.Ended)) }
    ensures endless { OnErr result (end.new ≡ None) }
{
    *end = None;
    let called = call(alloc, disk, phase);
    match called {
        Err(refusal) => {
            *phase = Phase::Settling;
            Err(refusal)
        }
        Ok(read) => {
            *fronts = fronts_behind(phase, &read, *fronts);
            match leave(alloc, nodes, node, phase, read) {
                Err(refusal) => Err(refusal),
                Ok(Next::Phase(next)) => {
                    *phase = next;
                    Ok(Stepped::More)
                }
                Ok(Next::Open(area, epoch, gate, promise, next)) => {
                    *end = Some(End {
                        area,
                        epoch,
                        gate,
                        promise,
                        next,
                    });
                    Ok(Stepped::Ended)
                }
            }
        }
    }
}

/// What comes behind a device call that succeeded. The phase is left for the first.
fn leave(
    alloc: Global,
    nodes: Nodes,
    node: NodeId,
    phase: &mut Phase,
    read: Vec<u8>,
) -> Result<Next, Refusal>
    requires exists { node < nodes }
    requires own { IsOwn nodes node phase.old }
    ensures left { phase.new ≡ Phase.Settling }
    ensures own { IfOk result (λ next. MayGoOn nodes node next) }
    ensures exact { Follows result (phase_of phase.old) (after_opening_call nodes node read.items (phase_of phase.old)) }
    ensures rests { (old new : Areas) → OpensAny nodes node phase.old old → IsReadBy (due_call (phase_of phase.old)) old read.items
        → new ≡ after_call (due_call (phase_of phase.old)) old → IfOk result (λ next. GoesOnAny nodes node next new) }
    ensures table { (facts : List Fact) (old new : Areas) → OpensWith nodes node facts phase.old old → IsReadBy (due_call (phase_of phase.old)) old read.items
        → new ≡ after_call (due_call (phase_of phase.old)) old → IfOk result (λ next. GoesOnWith nodes node facts next new) }
    ensures undamaged { (facts : List Fact) (old : Areas) → OpensWith nodes node facts phase.old old → IsReadBy (due_call (phase_of phase.old)) old read.items
        → IfErr result (λ e. e ≡ OutOfMemory) }
{
    go_on(
        alloc,
        nodes,
        node,
        mem::replace(phase, Phase::Settling),
        read,
    )
}

/// What comes behind a device call.
#[derive(Debug, Drop)]
enum Next {
    Phase(Phase),
    Open(Area, u64, u64, Promise, u64),
}

/// Makes the device call that is due; a read gives its bytes.
fn call<D: Disk>(alloc: Global, disk: &mut D, phase: &Phase) -> Result<Vec<u8>, Refusal>
    ensures due { IsDue (phase_of phase.now) }
    ensures done { IfOk result (λ v. Done D.read_gives D.write_gives D.sync_gives (due_call (phase_of phase.now)) disk.old v disk.new) }
    ensures refused { IfErr result (λ e. Refused D.read_gives D.write_gives D.sync_gives (due_call (phase_of phase.now)) disk.old e disk.new) }
    ensures cause { IfErr result (λ e. (e ≡ OutOfMemory) ⊎ ((e ≡ Device) × Grew (D.faults disk.old) (D.faults disk.new))) }
    ensures counts { (D.calls disk.new ≡ counted (D.calls disk.old)) × (D.faults disk.old ≤ D.faults disk.new) }
    ensures tells { D.tells disk.old → D.tells disk.new }
    ensures areas { D.tells disk.old → OnOk result (D.areas disk.new ≡ after_call (due_call (phase_of phase.now)) (D.areas disk.old)) }
    ensures read { D.tells disk.old → IfOk result (λ v. IsReadBy (due_call (phase_of phase.now)) (D.areas disk.old) v.items) }
    ensures left { D.tells disk.old → OnErr result (IsLeftBy (due_call (phase_of phase.now)) (D.areas disk.old) (D.areas disk.new)) }
{
    match phase {
        Phase::Settling => done(alloc, disk.sync()),
        Phase::ReadingFirst => disk.read(alloc, Area::First, 0, u64::MAX),
        Phase::ReadingSecond(_) => disk.read(alloc, Area::Second, 0, u64::MAX),
        Phase::Rewriting(rewrite) => write_on(alloc, disk, rewrite),
    }
}

/// Makes the device call that is due in the writing of an area.
fn write_on<D: Disk>(alloc: Global, disk: &mut D, rewrite: &Rewrite) -> Result<Vec<u8>, Refusal>
    ensures due { writes_anew rewrite.now.found ≡ true }
    ensures done { IfOk result (λ v. Done D.read_gives D.write_gives D.sync_gives (due_call (Rewriting rewrite.now.found (stage_calls (area_anew rewrite.now.found) rewrite.now.body rewrite.now.stage))) disk.old v disk.new) }
    ensures refused { IfErr result (λ e. Refused D.read_gives D.write_gives D.sync_gives (due_call (Rewriting rewrite.now.found (stage_calls (area_anew rewrite.now.found) rewrite.now.body rewrite.now.stage))) disk.old e disk.new) }
    ensures cause { IfErr result (λ e. (e ≡ Device) × Grew (D.faults disk.old) (D.faults disk.new)) }
    ensures counts { (D.calls disk.new ≡ counted (D.calls disk.old)) × (D.faults disk.old ≤ D.faults disk.new) }
    ensures tells { D.tells disk.old → D.tells disk.new }
    ensures areas { D.tells disk.old → OnOk result (D.areas disk.new ≡ after_call (due_call (Rewriting rewrite.now.found (stage_calls (area_anew rewrite.now.found) rewrite.now.body rewrite.now.stage))) (D.areas disk.old)) }
    ensures read { D.tells disk.old → IfOk result (λ v. IsReadBy (due_call (Rewriting rewrite.now.found (stage_calls (area_anew rewrite.now.found) rewrite.now.body rewrite.now.stage))) (D.areas disk.old) v.items) }
    ensures left { D.tells disk.old → OnErr result (IsLeftBy (due_call (Rewriting rewrite.now.found (stage_calls (area_anew rewrite.now.found) rewrite.now.body rewrite.now.stage))) (D.areas disk.old) (D.areas disk.new)) }
{
    rewrite.call(disk)?;
    Ok(Vec::new(alloc))
}

fn done(alloc: Global, called: Result<(), Refusal>) -> Result<Vec<u8>, Refusal>
    ensures ok { OnOk result (called ≡ Ok tt) }
    ensures err { IfErr result (λ e. called ≡ Err e) }
{
    called?;
    Ok(Vec::new(alloc))
}

/// What is known of both areas behind a device call that succeeded.
fn fronts_behind(phase: &Phase, read: &[u8], fronts: Fronts) -> Fronts
    ensures { (old new : Areas) → KnowsFronts (phase_of phase.now) fronts old → IsReadBy (due_call (phase_of phase.now)) old read.now
        → new ≡ after_call (due_call (phase_of phase.now)) old → KnowsRead (phase_of phase.now) result new }
{
    match phase {
        Phase::ReadingFirst => Fronts {
            first: must_close(read),
            second: fronts.second,
        },
        Phase::ReadingSecond(_) => Fronts {
            first: fronts.first,
            second: must_close(read),
        },
        _ => fronts,
    }
}

/// What comes behind a device call that succeeded.
fn go_on(
    alloc: Global,
    nodes: Nodes,
    node: NodeId,
    phase: Phase,
    read: Vec<u8>,
) -> Result<Next, Refusal>
    requires exists { node < nodes }
    requires own { IsOwn nodes node phase }
    ensures own { IfOk result (λ next. MayGoOn nodes node next) }
    ensures exact { Follows result (phase_of phase) (after_opening_call nodes node read.items (phase_of phase)) }
    ensures rests { (old new : Areas) → OpensAny nodes node phase old → IsReadBy (due_call (phase_of phase)) old read.items
        → new ≡ after_call (due_call (phase_of phase)) old → IfOk result (λ next. GoesOnAny nodes node next new) }
    ensures table { (facts : List Fact) (old new : Areas) → OpensWith nodes node facts phase old → IsReadBy (due_call (phase_of phase)) old read.items
        → new ≡ after_call (due_call (phase_of phase)) old → IfOk result (λ next. GoesOnWith nodes node facts next new) }
    ensures undamaged { (facts : List Fact) (old : Areas) → OpensWith nodes node facts phase old → IsReadBy (due_call (phase_of phase)) old read.items
        → IfErr result (λ e. e ≡ OutOfMemory) }
{
    match phase {
        Phase::Settling => Ok(Next::Phase(Phase::ReadingFirst)),
        Phase::ReadingFirst => Ok(Next::Phase(Phase::ReadingSecond(read))),
        Phase::ReadingSecond(first) => with_areas(alloc, nodes, node, first, read),
        Phase::Rewriting(rewrite) => Ok(rewrite_on(alloc, rewrite)),
    }
}

/// What comes behind a device call that succeeded in the writing of an area.
fn rewrite_on(alloc: Global, rewrite: Rewrite) -> Next
    ensures own { (n p : ℕ) → IsSnapshot (snapshot_with n p (content_anew rewrite.found)) → MayGoOn n p result }
    ensures exact { (n p : ℕ) (read : List ℕ) → Follows (Ok result) (Rewriting rewrite.found (stage_calls (area_anew rewrite.found) rewrite.body rewrite.stage))
        (after_opening_call n p read (Rewriting rewrite.found (stage_calls (area_anew rewrite.found) rewrite.body rewrite.stage))) }
    ensures rests { (n p : ℕ) (old new : Areas) → IsRewriting n p rewrite old
        → new ≡ after_call (due_call (Rewriting rewrite.found (stage_calls (area_anew rewrite.found) rewrite.body rewrite.stage))) old → GoesOnAny n p result new }
    ensures table { (n p : ℕ) (facts : List Fact) (old new : Areas) (rewrites : IsRewriting n p rewrite old) → Holds n p rewrites.start facts
        → new ≡ after_call (due_call (Rewriting rewrite.found (stage_calls (area_anew rewrite.found) rewrite.body rewrite.stage))) old → GoesOnWith n p facts result new }
{
    match rewrite.stage().next() {
        Some(stage) => Next::Phase(Phase::Rewriting(rewrite.at(stage))),
        None => {
            let (area, epoch, gate, promise, next) = rewrite.into_end(alloc);
            Next::Open(area, epoch, gate, promise, next)
        }
    }
}

/// Both areas are read: the disk is open, or an area has to be written anew.
fn with_areas(
    alloc: Global,
    nodes: Nodes,
    node: NodeId,
    first: Vec<u8>,
    second: Vec<u8>,
) -> Result<Next, Refusal>
    requires { node < nodes }
    ensures own { IfOk result (λ next. MayGoOn nodes node next) }
    ensures exact { Follows result (ReadingSecond first.items) (after_found nodes node first.items second.items (found nodes node first.items second.items)) }
    ensures rests { (both : Areas) (rests : IsResting both) → first.items ≡ rests.start.of_first → second.items ≡ rests.start.of_second → IfOk result (λ next. GoesOnAny nodes node next both) }
    ensures table { (facts : List Fact) (both : Areas) (rests : Rests nodes node facts both) → first.items ≡ rests.start.of_first → second.items ≡ rests.start.of_second
        → IfOk result (λ next. GoesOnWith nodes node facts next both) }
    ensures undamaged { (facts : List Fact) (both : Areas) (rests : Rests nodes node facts both) → first.items ≡ rests.start.of_first → second.items ≡ rests.start.of_second
        → IfErr result (λ e. e ≡ OutOfMemory) }
{
    let fronts = fronts_of(&first, &second);
    match take_image(alloc, nodes, node, first, second) {
        Err(refusal) => Err(refusal),
        Ok(Image::Active(area, content)) => {
            let epoch = content.epoch();
            let gate = content.gate();
            let number = content.next();
            Ok(Next::Open(area, epoch, gate, content.into_promise(), number))
        }
        Ok(Image::Unformatted) => {
            let rewrite = Rewrite::formatting(alloc, nodes, node, fronts.first)?;
            Ok(Next::Phase(Phase::Rewriting(rewrite)))
        }
        Ok(Image::Outdated(area, content)) => {
            let closes = fronts.beside(area);
            let rewrite = Rewrite::migration(alloc, nodes, node, area, content, closes)?;
            Ok(Next::Phase(Phase::Rewriting(rewrite)))
        }
    }
}

/// Whether each area has to be closed before it is written anew, by the bytes of both.
fn fronts_of(first: &[u8], second: &[u8]) -> Fronts
    ensures { result ≡ record { first = must_close first.now; second = must_close second.now } }
{
    Fronts {
        first: must_close(first),
        second: must_close(second),
    }
}

/// An area that is empty or looks formatted is closed first.
fn must_close(area: &[u8]) -> bool
    ensures { result ≡ must_close area.now }
{
    match area {
        [] => true,
        [gate, ..] => *gate == OPEN_GATE,
    }
}
