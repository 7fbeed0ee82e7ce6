//! Disks that are opened again.

ghost use Rattle.std.specs.Prelude.{◌≡◌, ◌⊎◌, IfErr};
ghost use Rattle.rr_types.specs.declared.refusal.Refusal.TheVariants.{Device, OutOfMemory};

use crate::area_file::AreaFile;
use crate::disk::Disk;
use crate::file::FileDisk;
use crate::memory::MemDisk;
use rr_types::Refusal;

/// A disk that can be opened again where its node starts again: what lies at its place by then counts.
pub trait Reopen: Disk {
    /// Opens it again, as it lies at its place now. A disk that tells its bytes has those that it had.
    ///
    /// # Errors
    /// `OutOfMemory`; `Device` where what lies there can't be opened, or isn't this disk any more. Then it may be tried again.
    fn reopen(&mut self) -> Result<(), Refusal>
        ensures same { Self.tells self.old → Self.areas self.new ≡ Self.areas self.old }
        ensures tells { Self.tells self.old → Self.tells self.new }
        ensures cause { IfErr result (λ e. (e ≡ OutOfMemory) ⊎ (e ≡ Device)) };
}

/// It has no place beside itself, and stays as it is.
impl Reopen for MemDisk {
    fn reopen(&mut self) -> Result<(), Refusal> {
        Ok(())
    }
}

/// Its files stay open: it knows no names by which they could be opened again.
impl<F: AreaFile + Drop> Reopen for FileDisk<F> {
    fn reopen(&mut self) -> Result<(), Refusal> {
        Ok(())
    }
}
