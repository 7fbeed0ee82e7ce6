//! The job of a node that is up, between two requests to the host.

ghost use Rattle.std.specs.Prelude.{IfOk, IfErr};
ghost use Rattle.rr_host.specs.Jobs.{StepsOn, HasFailed};

use crate::disk::HostDisk;
use rr_journal::{BodyOut, GateSet, Job, Journal, SwitchJob, Switching, Synced};
use rr_types::Refusal;

/// The job that runs: none; the flush of a group whose body the host writes; the same whose gate the host writes; a group that is
/// synced and not marked yet; or a switch to a snapshot.
pub enum Flush {
    Resting,
    BodyOut(Job<BodyOut>),
    GateSet(Job<GateSet>),
    Flushed(Synced),
    Switching(SwitchJob),
}

impl Flush {
    /// What is left of a job is given up with its node.
    pub fn abandon(self) {
        match self {
            Flush::Resting => (),
            Flush::BodyOut(job) => job.abandon(),
            Flush::GateSet(job) => job.abandon(),
            Flush::Flushed(synced) => drop(synced.into_group()),
            Flush::Switching(job) => job.abandon(),
        }
    }
}

/// The host has made the write that was due, and synced it: the job goes on up to the next write, or to its end.
///
/// # Errors
/// `Failed` and `Device`: the job is spent, and the journal can't go on.
pub fn step_on(journal: &mut Journal<HostDisk>, flush: Flush) -> Result<Flush, Refusal>
    ensures ok { IfOk result (λ next. StepsOn journal.old flush next journal.new) }
    ensures err { IfErr result HasFailed }
{
    match flush {
        Flush::Resting => Ok(Flush::Resting),
        Flush::Flushed(synced) => Ok(Flush::Flushed(synced)),
        Flush::BodyOut(job) => open_gate(journal, job),
        Flush::GateSet(job) => match job.step(journal) {
            Ok(synced) => Ok(Flush::Flushed(synced)),
            Err(refusal) => Err(refusal),
        },
        Flush::Switching(job) => switch_on(journal, job),
    }
}

// The body is safe, and the host is asked to open the gate before it.
fn open_gate(journal: &mut Journal<HostDisk>, job: Job<BodyOut>) -> Result<Flush, Refusal>
    ensures ok { IfOk result (λ next. StepsOn journal.old (Flush.BodyOut job) next journal.new) }
    ensures err { IfErr result HasFailed }
{
    match job.step(journal) {
        Err(refusal) => Err(refusal),
        Ok(job) => match job.step(journal) {
            Ok(job) => Ok(Flush::GateSet(job)),
            Err(refusal) => Err(refusal),
        },
    }
}

/// A switch goes on up to its next write, or to its end.
pub fn switch_on(journal: &mut Journal<HostDisk>, job: SwitchJob) -> Result<Flush, Refusal>
    ensures ok { IfOk result (λ next. StepsOn journal.old (Flush.Switching job) next journal.new) }
    ensures err { IfErr result HasFailed }
{
    match switch_step(journal, job) {
        Ok(Flush::Switching(job)) => {
            if journal.disk().written().is_some() {
                return Ok(Flush::Switching(job));
            }
            switch_step(journal, job)
        }
        said => said,
    }
}

// The next device call of a switch.
fn switch_step(journal: &mut Journal<HostDisk>, job: SwitchJob) -> Result<Flush, Refusal>
    ensures ok { IfOk result (λ next. StepsOn journal.old (Flush.Switching job) next journal.new) }
    ensures err { IfErr result HasFailed }
{
    match job.step(journal) {
        Ok(Switching::More(job)) => Ok(Flush::Switching(job)),
        Ok(Switching::Done) => Ok(Flush::Resting),
        Err(refusal) => Err(refusal),
    }
}
