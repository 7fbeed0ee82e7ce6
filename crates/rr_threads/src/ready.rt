//! Disks that are ready for a start of their nodes.
//!
//! No contract knows what lies at a disk's place. That a start behind a run's begin opens the disk there again is read: `Ready::again`.

ghost use Rattle.std.specs.Prelude.{◌≡◌, ◌⊎◌, IfOk, IfErr};
ghost use Rattle.rr_types.specs.declared.refusal.Refusal.TheVariants.{Device, OutOfMemory};

use crate::shared::Start;
use rr_disk::{Disk, Reopen};
use rr_types::Refusal;

/// A disk that is ready for this start of its node. Only `first` and `again` give this.
#[derive(Drop)]
pub struct Ready<D> {
    start: Start,
    disk: D,
}

/// A disk that can't be opened again.
#[derive(Drop)]
pub struct Unready<D> {
    pub refusal: Refusal,
    pub disk: D,
}

impl<D> Ready<D> {
    /// A disk at a run's begin, as it was given to the run.
    pub fn first(disk: D) -> Ready<D>
        ensures { (result.start.moves ≡ 0) × (result.disk ≡ disk) }
    {
        Ready {
            start: Start::first(),
            disk,
        }
    }

    /// The start and the disk.
    pub fn into_parts(self) -> (Start, D)
        ensures { (result.0 ≡ self.start) × (result.1 ≡ self.disk) }
    {
        let Ready { start, disk } = self;
        (start, disk)
    }
}

impl<D: Disk + Reopen> Ready<D> {
    /// A disk at a later start. It is opened again, as it lies at its place by then. A refused one is handed back.
    ///
    /// # Errors
    /// As of `Reopen::reopen`.
    pub fn again(start: Start, disk: D) -> Result<Ready<D>, Unready<D>>
        ensures start { IfOk result (λ ready. ready.start ≡ start) }
        ensures same { D.tells disk → IfOk result (λ ready. D.areas ready.disk ≡ D.areas disk) }
        ensures kept { D.tells disk → IfErr result (λ unready. D.areas unready.disk ≡ D.areas disk) }
        ensures cause { IfErr result (λ unready. (unready.refusal ≡ OutOfMemory) ⊎ (unready.refusal ≡ Device)) }
    {
        let mut disk = disk;
        match disk.reopen() {
            Ok(()) => Ok(Ready { start, disk }),
            Err(refusal) => Err(Unready { refusal, disk }),
        }
    }
}
