//! The device calls of a flush.

ghost use Rattle.std.specs.Prelude.{◌≡◌, ◌⊎◌, ℕ, ◌≤◌, true, false, length, IfErr, OnOk, OnErr};
ghost use Rattle.rr_types.specs.declared.refusal.Refusal.TheVariants.{Device, Failed};
ghost use Rattle.rr_disk.specs.Areas.{Torn, extent_of, replaced, written, synced};
ghost use Rattle.rr_types.specs.Counts.{counted, Grew};

use crate::journal::Journal;
use rr_disk::{Area, Disk};
use rr_types::Refusal;

/// Writes to the journal's disk.
///
/// # Errors
/// `Failed` if the journal has failed already, and nothing has changed then; `Device`, and the journal notes it.
pub fn write<D: Disk>(
    journal: &mut Journal<D>,
    area: Area,
    at: u64,
    bytes: &[u8],
) -> Result<(), Refusal>
    ensures done { OnOk result ((journal.old.failed ≡ false) × (journal.new ≡ record journal.old { disk = journal.new.disk })
        × D.write_gives journal.old.disk area at bytes.now result journal.new.disk) }
    ensures refused { IfErr result (λ e. ((e ≡ Failed) × (journal.old.failed ≡ true) × (journal.new ≡ journal.old))
        ⊎ ((e ≡ Device) × (journal.old.failed ≡ false) × (journal.new ≡ record journal.old { disk = journal.new.disk; failed = true })
        × D.write_gives journal.old.disk area at bytes.now result journal.new.disk
        × Grew (D.faults journal.old.disk) (D.faults journal.new.disk))) }
    ensures calls { journal.old.failed ≡ false → D.calls journal.new.disk ≡ counted (D.calls journal.old.disk) }
    ensures faults { D.faults journal.old.disk ≤ D.faults journal.new.disk }
    ensures tells { D.tells journal.old.disk → D.tells journal.new.disk }
    ensures ok { D.tells journal.old.disk → OnOk result ((at ≤ length (extent_of (D.areas journal.old.disk) area).cells)
        × (D.areas journal.new.disk ≡ replaced (D.areas journal.old.disk) area (written at bytes.now (extent_of (D.areas journal.old.disk) area)))) }
    ensures err { D.tells journal.old.disk → OnErr result ((D.areas journal.new.disk ≡ D.areas journal.old.disk)
        ⊎ (Torn at (length bytes.now) (extent_of (D.areas journal.old.disk) area) (extent_of (D.areas journal.new.disk) area)
        × (D.areas journal.new.disk ≡ replaced (D.areas journal.old.disk) area (extent_of (D.areas journal.new.disk) area)))) }
{
    if journal.has_failed() {
        return Err(Refusal::Failed);
    }
    match journal.disk.write_at(area, at, bytes) {
        Ok(()) => Ok(()),
        Err(e) => {
            journal.note_failure();
            Err(e)
        }
    }
}

/// Syncs the journal's disk. The errors are those of `write`; nothing on the disk has changed then.
pub fn sync<D: Disk>(journal: &mut Journal<D>) -> Result<(), Refusal>
    ensures done { OnOk result ((journal.old.failed ≡ false) × (journal.new ≡ record journal.old { disk = journal.new.disk })
        × D.sync_gives journal.old.disk result journal.new.disk) }
    ensures refused { IfErr result (λ e. ((e ≡ Failed) × (journal.old.failed ≡ true) × (journal.new ≡ journal.old))
        ⊎ ((e ≡ Device) × (journal.old.failed ≡ false) × (journal.new ≡ record journal.old { disk = journal.new.disk; failed = true })
        × D.sync_gives journal.old.disk result journal.new.disk
        × Grew (D.faults journal.old.disk) (D.faults journal.new.disk))) }
    ensures calls { journal.old.failed ≡ false → D.calls journal.new.disk ≡ counted (D.calls journal.old.disk) }
    ensures faults { D.faults journal.old.disk ≤ D.faults journal.new.disk }
    ensures tells { D.tells journal.old.disk → D.tells journal.new.disk }
    ensures ok { D.tells journal.old.disk → OnOk result (D.areas journal.new.disk ≡ synced (D.areas journal.old.disk)) }
    ensures err { D.tells journal.old.disk → OnErr result (D.areas journal.new.disk ≡ D.areas journal.old.disk) }
{
    if journal.has_failed() {
        return Err(Refusal::Failed);
    }
    match journal.disk.sync() {
        Ok(()) => Ok(()),
        Err(e) => {
            journal.note_failure();
            Err(e)
        }
    }
}
