//! The interface to a disk.

ghost use Rattle.std.specs.Prelude.{◌≡◌, ℕ, ◌+◌, ◌<◌, ◌≤◌, ◌^◌, ◌⊎◌, List, length, IfOk, IfErr, OnOk, OnErr, MatchResult, Result, Vec};
ghost use Rattle.std.specs.declared.alloc.Global.{Global};
ghost use Rattle.rr_types.specs.declared.refusal.Refusal.{Refusal};
ghost use Rattle.rr_types.specs.declared.refusal.Refusal.TheVariants.{Device, OutOfMemory};
ghost use Rattle.rr_disk.specs.declared.area.Area.{Area};
ghost use Rattle.rr_disk.specs.Areas.{Areas, IsTorn, extent_of, replaced, read_of, written, synced};
ghost use Rattle.rr_types.specs.Counts.{counted, Grew};

use crate::area::Area;
use rr_types::Refusal;
use std::alloc::Global;

/// A disk of two areas. `read`, `write_at` and `sync` are device calls: each is counted, and each may fail,
/// which is counted as a fault and answered `Device`. Counts stop at 2^64 - 1.
pub trait Disk {
    /// That the disk tells its bytes: the clauses on its areas speak of such a disk alone.
    ghost tells: { Self → Type 0 };

    /// What a read of each area gives, what is loose there, and the safe length.
    ghost areas: { Self → Areas };

    /// How many device calls were made.
    ghost calls: { Self → ℕ };

    /// How many device calls failed.
    ghost faults: { Self → ℕ };

    /// What exactly a read of an area, at an offset, of a number of bytes gives, and the disk after it.
    ghost read_gives: { Self → Area → ℕ → ℕ → Result (Vec ℕ Global) Refusal → Self → Type 0 };

    /// What exactly a write to an area, at an offset, of some bytes gives, and the disk after it.
    ghost write_gives: { Self → Area → ℕ → List ℕ → Result (Unit {0}) Refusal → Self → Type 0 };

    /// What exactly a sync gives, and the disk after it.
    ghost sync_gives: { Self → Result (Unit {0}) Refusal → Self → Type 0 };

    /// The bytes of an area from an offset on: `count` of them, or as many as there are.
    ///
    /// # Errors
    /// `OutOfMemory`, `Device`; nothing has changed then.
    fn read(&mut self, alloc: Global, area: Area, at: u64, count: u64) -> Result<Vec<u8>, Refusal>
        ensures bytes { tells self.old → IfOk result (λ v. v.items ≡ read_of at count (extent_of (areas self.old) area)) }
        ensures same { tells self.old → areas self.new ≡ areas self.old }
        ensures cause { IfErr result (λ e. (e ≡ OutOfMemory) ⊎ ((e ≡ Device) × Grew (faults self.old) (faults self.new))) }
        ensures call { calls self.new ≡ counted (calls self.old) }
        ensures faults { faults self.old ≤ faults self.new }
        ensures tells { tells self.old → tells self.new }
        ensures exact { read_gives self.old area at count result self.new };

    /// Writes over what is there and past the end. The range is loose until the next sync.
    ///
    /// # Errors
    /// `Device`. A write that starts past the end fails too, and changes nothing. After any other failed write the
    /// range may hold any bytes, and the area may have grown as far as its end.
    fn write_at(&mut self, area: Area, at: u64, bytes: &[u8]) -> Result<(), Refusal>
        ensures ok { tells self.old → OnOk result ((at ≤ length (extent_of (areas self.old) area).cells)
            × (areas self.new ≡ replaced (areas self.old) area (written at bytes.now (extent_of (areas self.old) area)))) }
        ensures err { tells self.old → OnErr result (IsTorn area at (length bytes.now) (areas self.old) (areas self.new)) }
        ensures cause { IfErr result (λ e. (e ≡ Device) × Grew (faults self.old) (faults self.new)) }
        ensures call { calls self.new ≡ counted (calls self.old) }
        ensures faults { faults self.old ≤ faults self.new }
        ensures tells { tells self.old → tells self.new }
        ensures fits { OnOk result (at + length bytes.now < 2 ^ 64) }
        ensures exact { write_gives self.old area at bytes.now result self.new };

    /// Makes nothing loose and the present lengths safe, in both areas.
    ///
    /// # Errors
    /// `Device`; nothing has changed then.
    fn sync(&mut self) -> Result<(), Refusal>
        ensures ok { tells self.old → OnOk result (areas self.new ≡ synced (areas self.old)) }
        ensures err { tells self.old → OnErr result (areas self.new ≡ areas self.old) }
        ensures cause { IfErr result (λ e. (e ≡ Device) × Grew (faults self.old) (faults self.new)) }
        ensures call { calls self.new ≡ counted (calls self.old) }
        ensures faults { faults self.old ≤ faults self.new }
        ensures tells { tells self.old → tells self.new }
        ensures exact { sync_gives self.old result self.new };

    /// The length of an area. It is no device call.
    fn len(&self, area: Area) -> u64
        ensures { tells self.now → result ≡ length (extent_of (areas self.now) area).cells };
}
