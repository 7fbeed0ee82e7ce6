//! A whole opening of a node, and the start of its core.

ghost use Rattle.std.specs.Prelude.{◌≡◌, ◌⊎◌, ◌+◌, ◌<◌, ◌≤◌, ◌^◌, false, List, length, IfOk, IfErr, OnOk};
ghost use Rattle.rr_types.specs.declared.fact.Fact.{Fact};
ghost use Rattle.rr_types.specs.declared.refusal.Refusal.TheVariants.{OutOfMemory, Device};
ghost use Rattle.rr_disk.specs.Areas.{extent_of};
ghost use Rattle.rr_model.specs.NodeStep.{started};
ghost use Rattle.rr_journal.specs.CrashedDisks.{MayStand, EachHoldsSome, IsOpenWithOneOf, AddsSameAlone};
ghost use Rattle.rr_journal.specs.Held.{Holds};
ghost use Rattle.rr_journal.specs.OpenDisks.{IsOpenWith, IsReady, disk_behind};
ghost use Rattle.rr_journal.specs.OpeningCourse.{found_from, calls_from, EndsBy, IsDone, IsRefused, IsAsBefore, IsLeftAlone};
ghost use Rattle.rr_journal.specs.Openings.{Settling};
ghost use Rattle.rr_journal.specs.OpeningTable.{contents, IsKept};
ghost use Rattle.rr_journal.specs.OtherAreas.{IsOtherKnown};
ghost use Rattle.rr_journal.specs.Rewrites.{writes_anew, area_kept};
ghost use Rattle.rr_core.specs.Known.{HoldSoMany};
ghost use Rattle.rr_core.specs.Recoveries.{as_opened, IsStarted, StandsFor};

use crate::node_core::Core;
use rr_disk::{Area, Disk};
use rr_journal::{Journal, Opened};
use rr_types::{NodeId, Nodes, Refusal};
use std::alloc::Global;

/// Opens one of the nodes by all steps of an opening, over a kind of disk that tells its bytes always or never: its core, and the
/// areas of its disk. A refused opening hands its disk back.
///
/// # Errors
/// `OutOfMemory`; `Device`, where a device call failed; `Damaged`, of a disk that holds no facts; `TooLarge`, where an
/// area of version 1 has no next epoch.
pub fn recover<D: Disk>(
    alloc: Global,
    nodes: Nodes,
    node: NodeId,
    disk: D,
) -> Result<(Core, Journal<D>), (Refusal, D)>
    requires exists { node < nodes }
    requires alike { (one other : D) → D.tells one → D.tells other }
    ensures core { IfOk result (λ r. IsStarted r.0 r.1) }
    ensures calls { D.calls (disk_behind (as_opened result)) ≤ D.calls disk + 9 }
    ensures faults { D.faults disk ≤ D.faults (disk_behind (as_opened result)) }
    ensures cause { IfErr result (λ r. IsRefused D.faults disk r) }
    ensures tells { D.tells disk → D.tells (disk_behind (as_opened result)) }
    ensures ends { D.tells disk → EndsBy (found_from nodes node Settling (D.areas disk)) (as_opened result) }
    ensures rests { D.tells disk → IfOk result (λ r. StandsFor D.areas r.0.marked r.1) }
    ensures number { D.tells disk → IfOk result (λ r. HoldSoMany nodes node (D.areas r.1.disk) r.0.marked_end) }
    ensures counted { D.tells disk → D.calls (disk_behind (as_opened result)) ≤ D.calls disk + length (calls_from nodes node Settling (D.areas disk)) }
    ensures done { D.tells disk → OnOk result (IsDone (calls_from nodes node Settling (D.areas disk)) D.areas D.calls disk (disk_behind (as_opened result))) }
    ensures untouched { D.tells disk → writes_anew (found_from nodes node Settling (D.areas disk)) ≡ false
        → IsAsBefore (D.areas disk) (D.areas (disk_behind (as_opened result))) }
    ensures beside { D.tells disk → (area : Area) → area ≡ area_kept (found_from nodes node Settling (D.areas disk))
        → IsLeftAlone (extent_of (D.areas disk) area) (extent_of (D.areas (disk_behind (as_opened result))) area) }
    ensures images { D.tells disk → MayStand (D.areas disk) → AddsSameAlone nodes node (D.areas disk) (D.areas (disk_behind (as_opened result))) }
    ensures some { D.tells disk → MayStand (D.areas disk) → EachHoldsSome (Holds nodes node) (D.areas disk)
        → IfOk (as_opened result) (λ r. IsOpenWithOneOf D.areas (Holds nodes node) (D.areas disk) r) × IfErr result (λ r. (r.0 ≡ OutOfMemory) ⊎ (r.0 ≡ Device)) }
    ensures ready { IfOk (as_opened result) (λ r. IsReady nodes node r) }
    ensures table { D.tells disk → (facts : List Fact) → Holds nodes node (contents (D.areas disk)) facts → IfOk (as_opened result) (λ r. IsOpenWith D.areas facts r) }
    ensures undamaged { D.tells disk → (facts : List Fact) → Holds nodes node (contents (D.areas disk)) facts → IfErr result (λ r. (r.0 ≡ OutOfMemory) ⊎ (r.0 ≡ Device)) }
    ensures kept { D.tells disk → (facts : List Fact) → Holds nodes node (contents (D.areas disk)) facts
        → IsKept (Holds nodes node) facts (D.areas disk) (D.areas (disk_behind (as_opened result))) }
    ensures fronts { D.tells disk → IfOk result (λ r. IsOtherKnown D.areas r.1) }
{
    measure(&disk);
    match Journal::open(alloc, nodes, node, disk) {
        Ok((journal, opened)) => match start_core(alloc, journal, opened) {
            Ok((core, slots)) => Ok((core, slots)),
            Err(wanting) => Err(wanting),
        },
        Err(refused) => Err(refused),
    }
}

/// The lengths of both areas have numbers of 64 bits.
pub(crate) fn measure<D: Disk>(disk: &D)
    ensures { D.tells disk.now → (length (D.areas disk.now).first.cells < 2 ^ 64) × (length (D.areas disk.now).second.cells < 2 ^ 64) }
{
    let _first = disk.len(Area::First);
    let _second = disk.len(Area::Second);
}

/// Starts the core of what an opening found. A refused start hands the disk back.
pub(crate) fn start_core<D: Disk>(
    alloc: Global,
    journal: Journal<D>,
    opened: Opened,
) -> Result<(Core, Journal<D>), (Refusal, D)>
    ensures ok { IfOk result (λ r. (r.0 ≡ started opened.nodes opened.node opened.promise opened.next) × (r.0.marked ≡ opened.promise) × (r.1 ≡ journal)) }
    ensures err { IfErr result (λ r. (r.0 ≡ OutOfMemory) × (r.1 ≡ journal.disk)) }
{
    let started = Core::start(alloc, &opened);
    drop(opened);
    match started {
        Ok(core) => Ok((core, journal)),
        Err(_) => Err((Refusal::OutOfMemory, journal.into_disk())),
    }
}
