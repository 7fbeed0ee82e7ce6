//! The device calls by which a snapshot is written.

ghost use Rattle.std.specs.Prelude.{◌≡◌, ◌⊎◌, true, IfOk, IfErr, OnOk};
ghost use Rattle.rr_types.specs.declared.refusal.Refusal.TheVariants.{Device, Failed};
ghost use Rattle.rr_threads.specs.Snapshotting.{IsMade};

use crate::desk::Due;
use rr_disk::Disk;
use rr_journal::{Journal, SwitchJob, Switching};
use rr_turn::{Place, Turnstile};
use rr_types::{NodeId, Refusal};

/// The most device calls of a switch.
const CALLS: u8 = 6;

/// That a snapshot is written which was due: all device calls of its switch were made. Only `make_all` gives this.
#[derive(Drop)]
pub struct Switched {
    due: Due,
}

impl Switched {
    /// The snapshot that was due.
    pub fn due(&self) -> Due
        ensures { result ≡ self.now.due }
    {
        self.due
    }
}

/// Makes the device calls of a switch for a snapshot that is due, with the turnstile before each.
///
/// # Errors
/// `Failed` if the journal had failed before, `Device`.
#[tactic(auto, using(crate::proofs::Stages::next_is_nearer, crate::proofs::Stages::some_left, crate::proofs::Stages::few_left))]
pub fn make_all<D: Disk, T: Turnstile>(
    turnstile: &T,
    node: NodeId,
    journal: &mut Journal<D>,
    job: SwitchJob,
    due: Due,
) -> Result<Switched, Refusal>
    ensures made { OnOk result (IsMade job journal.old journal.new) }
    ensures due { IfOk result (λ switched. switched.due ≡ due) }
    ensures cause { IfErr result (λ e. (e ≡ Device) ⊎ ((e ≡ Failed) × (journal.old.failed ≡ true))) }
{
    let mut job = job;
    for turn in 0..CALLS {
        turnstile.pass(node, Place::BeforeDevice);
        match job.step(journal) {
            Err(refusal) => return Err(refusal),
            Ok(Switching::Done) => return Ok(Switched { due }),
            Ok(Switching::More(next)) => job = next,
        }
    }
    job.abandon();
    unreachable!()
}
