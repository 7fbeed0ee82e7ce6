//! What a flusher does with a group.

ghost use Rattle.std.specs.Prelude.{◌≡◌, ◌⊎◌, ◌++◌, [], true, false, List, length, IfOk, IfErr, OnOk, OnErr};
ghost use Rattle.rr_types.specs.declared.fact.Fact.{Fact};
ghost use Rattle.rr_types.specs.Promises.{all_fit};
ghost use Rattle.rr_disk.specs.Crash.{Images, restarted};
ghost use Rattle.rr_journal.specs.Held.{Holds};
ghost use Rattle.rr_journal.specs.Moments.{IsAt, EachHolds, EachHoldsEither, body_due, group_safe};
ghost use Rattle.rr_journal.specs.Journals.{IsOver, once_flushed};
ghost use Rattle.rr_types.specs.Counts.{counted};
ghost use Rattle.rr_types.specs.declared.refusal.Refusal.TheVariants.{OutOfMemory, Device, Failed, Busy, TooLarge};
ghost use Rattle.rr_turn.specs.Flushed.{HasFailed, HasMore, IsBehind, IfRefused, IfFailed};

use crate::turnstile::{Place, Turnstile};
use rr_disk::Disk;
use rr_journal::{Body, Job, Journal, Synced};
use rr_types::{Group, NodeId, Refusal};
use std::alloc::Global;

/// Why a group isn't flushed.
#[derive(Debug, Drop)]
pub enum Unflushed {
    /// No flush of it began; here it is, to be staged again.
    Refused(Refusal, Group),
    /// A device call of its flush failed. A crash may leave it or not.
    Failed(Refusal),
}

/// The four device calls of a flush, with the turnstile before each. Then each image that a crash may leave holds the
/// facts from before and the group's. Where a call failed, it holds these or only the facts from before.
///
/// # Errors
/// `Failed` if the journal has failed already, and nothing has changed then; `Device`, and the journal notes it.
pub fn flush<D: Disk, T: Turnstile>(
    turnstile: &T,
    node: NodeId,
    journal: &mut Journal<D>,
    job: Job<Body>,
) -> Result<Synced, Refusal>
    ensures done { IfOk result (λ synced. (synced ≡ record { node = job.node; group = job.group }) × (journal.old.failed ≡ false)
        × (journal.new ≡ record (once_flushed job journal.old) { disk = journal.new.disk })) }
    ensures calls { IfOk result (λ synced. D.calls journal.new.disk ≡ counted (counted (counted (counted (D.calls journal.old.disk))))) }
    ensures refused { IfErr result (λ e. ((e ≡ Failed) × (journal.old.failed ≡ true) × (journal.new ≡ journal.old))
        ⊎ ((e ≡ Device) × HasFailed D.faults journal.old journal.new)) }
    ensures tells { D.tells journal.old.disk → D.tells journal.new.disk }
    ensures table { D.tells journal.old.disk → (start : Images) (facts : List Fact)
        → IsAt body_due (Holds job.nodes job.node) job start facts (D.areas journal.old.disk)
        → OnOk result (EachHolds (Holds job.nodes job.node) (D.areas journal.new.disk) (facts ++ job.group.facts))
        × OnOk result (D.areas journal.new.disk ≡ group_safe job start)
        × OnErr result (EachHoldsEither (Holds job.nodes job.node) (D.areas journal.new.disk) facts job.group.facts) }
{
    turnstile.pass(node, Place::BeforeDevice);
    let out = job.step(journal)?;
    turnstile.pass(node, Place::BeforeDevice);
    let safe = out.step(journal)?;
    turnstile.pass(node, Place::BeforeDevice);
    let set = safe.step(journal)?;
    turnstile.pass(node, Place::BeforeDevice);
    set.step(journal)
}

/// Flushes a group. Let the journal's disk, and each image that a crash may leave, hold the facts that the group
/// follows. Afterwards they hold these and the group's facts. Where a device call failed, each image holds either these
/// or only the facts from before. A flush that doesn't begin changes nothing, and hands the group back.
pub fn carry<D: Disk, T: Turnstile>(
    turnstile: &T,
    node: NodeId,
    alloc: Global,
    journal: &mut Journal<D>,
    group: Group,
) -> Result<Synced, Unflushed>
    ensures synced { IfOk result (λ synced. (synced ≡ record { node = journal.old.node; group = group }) × (journal.old.failed ≡ false) × (journal.old.busy ≡ false)) }
    ensures goes_on { IfOk result (λ synced. IsBehind group journal.old journal.new) }
    ensures calls { IfOk result (λ synced. D.calls journal.new.disk ≡ counted (counted (counted (counted (D.calls journal.old.disk))))) }
    ensures refused { IfErr result (λ u. IfRefused u (λ e g. (g ≡ group) × (journal.new ≡ journal.old))) }
    ensures cause { IfErr result (λ u. IfRefused u (λ e g. (e ≡ OutOfMemory) ⊎ (e ≡ TooLarge) ⊎ ((e ≡ Failed) × (journal.old.failed ≡ true)) ⊎ ((e ≡ Busy) × (journal.old.busy ≡ true)))) }
    ensures failed { IfErr result (λ u. IfFailed u (λ e. (e ≡ Device) × HasFailed D.faults journal.old journal.new)) }
    ensures tells { D.tells journal.old.disk → D.tells journal.new.disk }
    ensures table { D.tells journal.old.disk → (start : Images) (facts : List Fact) → D.areas journal.old.disk ≡ restarted start → IsOver journal.old start facts
        → all_fit journal.old.nodes journal.old.node [] (facts ++ group.facts) ≡ true → group.serial ≡ length facts
        → OnOk result (EachHolds (Holds journal.old.nodes journal.old.node) (D.areas journal.new.disk) (facts ++ group.facts) × HasMore D.areas journal.new facts group.facts)
        × IfErr result (λ u. IfFailed u (λ e. EachHoldsEither (Holds journal.old.nodes journal.old.node) (D.areas journal.new.disk) facts group.facts)) }
{
    match journal.begin(alloc, group) {
        Err((refusal, group)) => Err(Unflushed::Refused(refusal, group)),
        Ok(job) => match flush(turnstile, node, journal, job) {
            Ok(synced) => Ok(synced),
            Err(refusal) => Err(Unflushed::Failed(refusal)),
        },
    }
}
