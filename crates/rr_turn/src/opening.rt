//! The opening of a node that runs in threads.

ghost use Rattle.std.specs.Prelude.{◌≡◌, ◌⊎◌, ◌+◌, ◌<◌, ◌≤◌, List, IfOk, IfErr};
ghost use Rattle.rr_types.specs.declared.fact.Fact.{Fact};
ghost use Rattle.rr_types.specs.declared.refusal.Refusal.TheVariants.{OutOfMemory, Device};
ghost use Rattle.rr_journal.specs.Held.{Holds};
ghost use Rattle.rr_journal.specs.OpenDisks.{IsOpenWith, disk_behind};
ghost use Rattle.rr_journal.specs.OpeningCourse.{calls_left, found_from, EndsBy, IsRefused};
ghost use Rattle.rr_journal.specs.OpeningTable.{contents, OpensWith, IsKept};
ghost use Rattle.rr_journal.specs.Openings.{Settling};
ghost use Rattle.rr_journal.specs.Phases.{phase_of};
ghost use Rattle.rr_core.specs.Recoveries.{as_opened, IsStarted};

use crate::turnstile::{Place, Turnstile};
use rr_core::{Core, Opening, Progress};
use rr_disk::Disk;
use rr_journal::Journal;
use rr_types::{NodeId, Nodes, Refusal};
use std::alloc::Global;

/// Opens a node as `recover` does, with the turnstile before each device call. A refused opening hands its disk back.
///
/// # Errors
/// `OutOfMemory`; `Device`, where a device call failed; `Damaged`, of a disk that holds no facts; `TooLarge`, where an
/// area of version 1 has no next epoch.
pub fn recover_through<D: Disk, T: Turnstile>(
    turnstile: &T,
    alloc: Global,
    nodes: Nodes,
    node: NodeId,
    disk: D,
) -> Result<(Core, Journal<D>), (Refusal, D)>
    requires exists { node < nodes }
    requires alike { (one other : D) → D.tells one → D.tells other }
    ensures core { IfOk result (λ r. IsStarted r.0 r.1) }
    ensures whose { IfOk result (λ r. (r.1.nodes ≡ nodes) × (r.1.node ≡ node)) }
    ensures calls { D.calls (disk_behind (as_opened result)) ≤ D.calls disk + 9 }
    ensures cause { IfErr result (λ r. IsRefused D.faults disk r) }
    ensures tells { D.tells disk → D.tells (disk_behind (as_opened result)) }
    ensures ends { D.tells disk → EndsBy (found_from nodes node Settling (D.areas disk)) (as_opened result) }
    ensures table { D.tells disk → (facts : List Fact) → Holds nodes node (contents (D.areas disk)) facts → IfOk (as_opened result) (λ r. IsOpenWith D.areas facts r) }
    ensures undamaged { D.tells disk → (facts : List Fact) → Holds nodes node (contents (D.areas disk)) facts → IfErr result (λ r. (r.0 ≡ OutOfMemory) ⊎ (r.0 ≡ Device)) }
    ensures kept { D.tells disk → (facts : List Fact) → Holds nodes node (contents (D.areas disk)) facts
        → IsKept (Holds nodes node) facts (D.areas disk) (D.areas (disk_behind (as_opened result))) }
{
    finish(turnstile, alloc, node, Opening::start(nodes, node, disk))
}

// Makes all device calls that are left of an opening of this node, with the turnstile before each.
fn finish<D: Disk, T: Turnstile>(
    turnstile: &T,
    alloc: Global,
    node: NodeId,
    opening: Opening<D>,
) -> Result<(Core, Journal<D>), (Refusal, D)>
    ensures core { IfOk result (λ r. IsStarted r.0 r.1) }
    ensures whose { IfOk result (λ r. (r.1.nodes ≡ opening.nodes) × (r.1.node ≡ opening.node)) }
    ensures calls { D.calls (disk_behind (as_opened result)) ≤ D.calls opening.disk + calls_left (phase_of opening.phase) }
    ensures cause { IfErr result (λ r. IsRefused D.faults opening.disk r) }
    ensures tells { D.tells opening.disk → D.tells (disk_behind (as_opened result)) }
    ensures ends { D.tells opening.disk → EndsBy (found_from opening.nodes opening.node (phase_of opening.phase) (D.areas opening.disk)) (as_opened result) }
    ensures table { D.tells opening.disk → (facts : List Fact) → OpensWith opening.nodes opening.node facts opening.phase (D.areas opening.disk)
        → IfOk (as_opened result) (λ r. IsOpenWith D.areas facts r) }
    ensures undamaged { D.tells opening.disk → (facts : List Fact) → OpensWith opening.nodes opening.node facts opening.phase (D.areas opening.disk)
        → IfErr result (λ r. (r.0 ≡ OutOfMemory) ⊎ (r.0 ≡ Device)) }
    ensures kept { D.tells opening.disk → (facts : List Fact) → OpensWith opening.nodes opening.node facts opening.phase (D.areas opening.disk)
        → IsKept (Holds opening.nodes opening.node) facts (D.areas opening.disk) (D.areas (disk_behind (as_opened result))) }
{
    let mut rest = opening;
    loop {
        turnstile.pass(node, Place::BeforeDevice);
        match rest.step(alloc) {
            Err(refused) => return Err(refused),
            Ok(Progress::More(next)) => rest = next,
            Ok(Progress::Done(core, journal)) => return Ok((core, journal)),
        }
    }
}
