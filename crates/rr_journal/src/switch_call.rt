//! The device calls of a switch.

ghost use Rattle.std.specs.Prelude.{◌≡◌, ◌⊎◌, ◌≤◌, true, false, OnOk, OnErr, IfErr, Ok, Err};
ghost use Rattle.rr_types.specs.declared.refusal.Refusal.TheVariants.{Device, Failed};
ghost use Rattle.rr_types.specs.Counts.{counted, Grew};
ghost use Rattle.rr_journal.specs.Calls.{after_call};
ghost use Rattle.rr_journal.specs.OpeningTable.{IsLeftBy};
ghost use Rattle.rr_journal.specs.Stages.{Gave};
ghost use Rattle.rr_journal.specs.Switches.{due_call};

use crate::journal::Journal;
use crate::switch::SwitchJob;
use rr_disk::Disk;
use rr_types::Refusal;

/// Makes the device call that is due in a switch.
///
/// # Errors
/// `Failed` if the journal has failed already, and nothing has changed then; `Device`, and the journal notes it.
pub fn make<D: Disk>(journal: &mut Journal<D>, job: &SwitchJob) -> Result<(), Refusal>
    ensures done { OnOk result ((journal.old.failed ≡ false) × (journal.new ≡ record journal.old { disk = journal.new.disk })
        × Gave D.write_gives D.sync_gives (due_call job.now) journal.old.disk (Ok tt) journal.new.disk) }
    ensures refused { IfErr result (λ e. ((e ≡ Failed) × (journal.old.failed ≡ true) × (journal.new ≡ journal.old))
        ⊎ ((e ≡ Device) × (journal.old.failed ≡ false) × (journal.new ≡ record journal.old { disk = journal.new.disk; failed = true })
        × Gave D.write_gives D.sync_gives (due_call job.now) journal.old.disk (Err Device) journal.new.disk × Grew (D.faults journal.old.disk) (D.faults journal.new.disk))) }
    ensures calls { journal.old.failed ≡ false → D.calls journal.new.disk ≡ counted (D.calls journal.old.disk) }
    ensures faults { D.faults journal.old.disk ≤ D.faults journal.new.disk }
    ensures tells { D.tells journal.old.disk → D.tells journal.new.disk }
    ensures ok { D.tells journal.old.disk → OnOk result (D.areas journal.new.disk ≡ after_call (due_call job.now) (D.areas journal.old.disk)) }
    ensures err { D.tells journal.old.disk → OnErr result ((D.areas journal.new.disk ≡ D.areas journal.old.disk)
        ⊎ IsLeftBy (due_call job.now) (D.areas journal.old.disk) (D.areas journal.new.disk)) }
{
    if journal.has_failed() {
        return Err(Refusal::Failed);
    }
    match job.stage().call(&mut journal.disk, job.area(), job.body()) {
        Ok(()) => Ok(()),
        Err(e) => {
            journal.note_failure();
            Err(e)
        }
    }
}
