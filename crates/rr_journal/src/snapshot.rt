//! The beginning of a switch: a snapshot for the area that isn't active.

ghost use Rattle.std.specs.Prelude.{◌≡◌, ◌⊎◌, ◌+◌, ◌^◌, ◌<◌, ◌≤◌, List, true, false, length, IfOk, IfErr, OnOk};
ghost use Rattle.rr_types.specs.declared.fact.Fact.{Fact};
ghost use Rattle.rr_types.specs.declared.refusal.Refusal.TheVariants.{OutOfMemory, Failed, Busy, TooLarge};
ghost use Rattle.rr_types.specs.Promises.{promise_of};
ghost use Rattle.rr_disk.specs.Crash.{Images, restarted};
ghost use Rattle.rr_frame.specs.Snapshots.{IsSnapshot};
ghost use Rattle.rr_frame.specs.SnapshotFormat.{snapshot_bytes, IsLawfulSnapshot};
ghost use Rattle.rr_journal.specs.Calls.{frame_bytes};
ghost use Rattle.rr_journal.specs.OtherAreas.{other_area};
ghost use Rattle.rr_journal.specs.Stages.{first_stage};
ghost use Rattle.rr_journal.specs.Switches.{snapshot_of};
ghost use Rattle.rr_journal.specs.SwitchTable.{IsSlotsOver, IsSwitching};

use crate::journal::{Journal, frame};
use crate::switch::SwitchJob;
use rr_disk::{Area, Disk};
use rr_frame::{Snapshot, encode_snapshot};
use rr_types::{NodeId, Nodes, Promise, Refusal};
use std::alloc::Global;

/// The most bytes of a payload behind the first gate of an area, which has 4,294,967,295 bytes at most.
const LARGEST_PAYLOAD: usize = 0xFFFF_FFFF - 6;

impl<D: Disk> Journal<D> {
    /// Begins a switch to a snapshot of this promise of the synced facts in the area that isn't active. The promise
    /// is one that a snapshot of the node can hold, as the promise of its facts is.
    ///
    /// # Errors
    /// `Failed` after a device failure, `Busy` while a job runs, `TooLarge` where the snapshot would pass byte
    /// 4,294,967,295 of the area or its epoch 2^64 - 1, `OutOfMemory`. Nothing has changed then.
    #[tactic(auto, using(crate::proofs::SwitchLaws::begins_of))]
    pub fn begin_snapshot(&mut self, alloc: Global, promise: Promise) -> Result<SwitchJob, Refusal>
        requires { IsSnapshot (snapshot_of self.old promise) }
        ensures ok { IfOk result (λ job. (self.old.failed ≡ false) × (self.old.busy ≡ false) × (self.old.epoch + 1 < 2 ^ 64)
            × (6 + length (snapshot_bytes (snapshot_of self.old promise)) < 2 ^ 32) × (self.new ≡ record self.old { busy = true })
            × (job ≡ record {
              nodes = self.old.nodes;
              node = self.old.node;
              area = other_area self.old.area;
              epoch = self.old.epoch + 1;
              next = self.old.next;
              body = frame_bytes (snapshot_bytes (snapshot_of self.old promise));
              stage = first_stage self.old.closes_other;
            })) }
        ensures lawful { OnOk result (IsLawfulSnapshot (snapshot_of self.old promise)) }
        ensures refused { IfErr result (λ e. (self.new ≡ self.old) × ((e ≡ OutOfMemory) ⊎ ((e ≡ Failed) × (self.old.failed ≡ true)) ⊎ ((e ≡ Busy) × (self.old.busy ≡ true))
            ⊎ ((e ≡ TooLarge) × ((2 ^ 64 ≤ self.old.epoch + 1) ⊎ (2 ^ 32 ≤ 6 + length (snapshot_bytes (snapshot_of self.old promise))))))) }
        ensures order { IfErr result (λ e. (self.old.failed ≡ true → e ≡ Failed) × (self.old.failed ≡ false → self.old.busy ≡ true → e ≡ Busy)) }
        ensures table { (start : Images) (facts : List Fact) → D.areas self.old.disk ≡ restarted start → IsSlotsOver self.old start facts → promise ≡ promise_of facts
            → IfOk result (λ job. IsSwitching self.new job facts (D.areas self.new.disk)) }
    {
        if self.has_failed() {
            return Err(Refusal::Failed);
        }
        if self.is_busy() {
            return Err(Refusal::Busy);
        }
        let epoch = self.epoch();
        if epoch == u64::MAX {
            return Err(Refusal::TooLarge);
        }
        let (nodes, node) = self.owner();
        let next = self.facts();
        let body = snapshot_frame(alloc, nodes, node, epoch + 1, next, promise)?;
        self.note_job();
        Ok(SwitchJob::new(
            nodes,
            node,
            beside(self.area()),
            epoch + 1,
            next,
            body,
            self.closes_other(),
        ))
    }
}

// The other of the two areas.
pub(crate) fn beside(area: Area) -> Area
    ensures { result ≡ other_area area }
{
    match area {
        Area::First => Area::Second,
        Area::Second => Area::First,
    }
}

/// What stands behind the gate of a snapshot's frame.
///
/// # Errors
/// `TooLarge` where the frame would pass byte 4,294,967,295, `OutOfMemory`.
fn snapshot_frame(
    alloc: Global,
    nodes: Nodes,
    node: NodeId,
    epoch: u64,
    next: u64,
    promise: Promise,
) -> Result<Vec<u8>, Refusal>
    requires { IsSnapshot (record { node = node; nodes = nodes; epoch = epoch; next = next; entries = promise }) }
    ensures ok { IfOk result (λ body. (body.items ≡ frame_bytes (snapshot_bytes (record { node = node; nodes = nodes; epoch = epoch; next = next; entries = promise })))
        × (6 + length (snapshot_bytes (record { node = node; nodes = nodes; epoch = epoch; next = next; entries = promise })) < 2 ^ 32)) }
    ensures lawful { OnOk result (IsLawfulSnapshot (record { node = node; nodes = nodes; epoch = epoch; next = next; entries = promise })) }
    ensures err { IfErr result (λ e. (e ≡ OutOfMemory)
        ⊎ ((e ≡ TooLarge) × (2 ^ 32 ≤ 6 + length (snapshot_bytes (record { node = node; nodes = nodes; epoch = epoch; next = next; entries = promise }))))) }
{
    let snapshot = match Snapshot::new(nodes, node, epoch, next, promise) {
        Ok(snapshot) => snapshot,
        Err(_) => unreachable!(),
    };
    frame_of(alloc, &snapshot)
}

// What stands behind the gate of a snapshot's frame. The errors are those of `snapshot_frame`.
#[tactic(auto, using(crate::proofs::SnapshotLaws::many_entries))]
pub(crate) fn frame_of(alloc: Global, snapshot: &Snapshot) -> Result<Vec<u8>, Refusal>
    ensures ok { IfOk result (λ body. (body.items ≡ frame_bytes (snapshot_bytes snapshot.now)) × (6 + length (snapshot_bytes snapshot.now) < 2 ^ 32)) }
    ensures lawful { OnOk result (IsLawfulSnapshot snapshot.now) }
    ensures err { IfErr result (λ e. (e ≡ OutOfMemory) ⊎ ((e ≡ TooLarge) × (2 ^ 32 ≤ 6 + length (snapshot_bytes snapshot.now)))) }
{
    let payload = encode_snapshot(alloc, snapshot)?;
    if payload.len() > LARGEST_PAYLOAD {
        return Err(Refusal::TooLarge);
    }
    frame(alloc, payload)
}
