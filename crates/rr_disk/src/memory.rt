//! A disk in memory.

ghost use Rattle.std.specs.Prelude.{◌≡◌, ℕ, ◌+◌, ◌<◌, ◌≤◌, ◌⊎◌, ◌^◌, [], List, length, IfOk, IfErr, OnOk, OnErr};
ghost use Rattle.rr_disk.specs.Areas.{extent_of, bytes_of};
ghost use Rattle.rr_disk.specs.Crash.{Images, IsCrashImage, IsNamed, restarted, crash_images};
ghost use Rattle.rr_disk.specs.Memory.{MemoryRead, MemoryWrite, MemorySync};

use crate::area::Area;
use crate::disk::Disk;
use crate::strip::Strip;
use rr_types::Refusal;
use std::alloc::{AllocError, Global};
use std::marker::Model;

/// A disk in memory, which tells its bytes. No call fails but a write that starts past the end or finds no
/// memory to grow. Then what there is of its range is loose, and nothing else has changed. A call costs no
/// more than the bytes that it reads or writes; a write apart from others that no sync has settled costs the gap too.
#[derive(Debug, Drop)]
pub struct MemDisk {
    first: Strip,
    second: Strip,
    calls: u64,
    faults: u64,
}

impl Model for MemDisk {
    ghost use Rattle.rr_disk.specs.Memory.{MemoryState};

    ghost Value = { MemoryState };

    ghost view = { λ d. record { areas = record { first = d.first; second = d.second }; calls = d.calls; faults = d.faults } };
}

impl MemDisk {
    /// A disk whose areas are empty.
    pub fn new(alloc: Global) -> MemDisk
        ensures { result ≡ record { areas = restarted (record { of_first = []; of_second = [] }); calls = 0; faults = 0 } }
    {
        MemDisk {
            first: Strip::new(alloc),
            second: Strip::new(alloc),
            calls: 0,
            faults: 0,
        }
    }

    /// A copy of it, with what is loose and its counts.
    ///
    /// # Errors
    /// Where memory runs out.
    pub fn copied(&self, alloc: Global) -> Result<MemDisk, AllocError>
        ensures { IfOk result (λ copy. copy ≡ self.now) }
    {
        Ok(MemDisk {
            first: self.first.copied(alloc)?,
            second: self.second.copied(alloc)?,
            calls: self.calls,
            faults: self.faults,
        })
    }

    /// A disk with these bytes in its areas, nothing of them loose.
    ///
    /// # Errors
    /// Where memory runs out.
    pub fn with_areas(alloc: Global, first: &[u8], second: &[u8]) -> Result<MemDisk, AllocError>
        ensures { IfOk result (λ d. d ≡ record { areas = restarted (record { of_first = first.now; of_second = second.now }); calls = 0; faults = 0 }) }
    {
        let mut disk = MemDisk::new(alloc);
        disk.first = Strip::with_bytes(alloc, first)?;
        disk.second = Strip::with_bytes(alloc, second)?;
        Ok(disk)
    }

    /// A law of it, and nothing else: its bytes as they stand are among the images that a crash may leave.
    pub fn may_stand(&self)
        ensures { IsCrashImage self.now.areas (record { of_first = bytes_of self.now.areas.first; of_second = bytes_of self.now.areas.second }) }
    {
        self.first.may_stand();
        self.second.may_stand();
    }

    /// What a crash leaves: the length of each area becomes its cut, brought into the range from the safe to the
    /// present length. The loose positions below the new lengths, area 0 first, ascending, take the bytes of the
    /// fill in turn, repeated; with an empty fill they keep what a read gave. Afterwards nothing is loose and the
    /// lengths are safe. It is no device call.
    pub fn crash(&mut self, cut_first: u64, cut_second: u64, fill: &[u8])
        ensures image { self.new ≡ record self.old { areas = restarted (crash_images cut_first cut_second fill.now self.old.areas) } }
        ensures among { IsCrashImage self.old.areas (crash_images cut_first cut_second fill.now self.old.areas) }
        ensures named { (images : Images) → IsCrashImage self.old.areas images → IsNamed self.old.areas images }
    {
        let filled = self.first.crash(cut_first, fill, 0);
        let _also_filled = self.second.crash(cut_second, fill, filled);
    }
}

impl Disk for MemDisk {
    ghost tells = { λ _. Unit {0} };

    ghost areas = { λ d. d.areas };

    ghost calls = { λ d. d.calls };

    ghost faults = { λ d. d.faults };

    ghost read_gives = { MemoryRead };

    ghost write_gives = { MemoryWrite };

    ghost sync_gives = { MemorySync };

    fn read(&mut self, alloc: Global, area: Area, at: u64, count: u64) -> Result<Vec<u8>, Refusal> {
        self.calls = self.calls.saturating_add(1);
        let strip = match area {
            Area::First => &self.first,
            Area::Second => &self.second,
        };
        Ok(strip.read(alloc, at, count)?)
    }

    fn write_at(&mut self, area: Area, at: u64, bytes: &[u8]) -> Result<(), Refusal> {
        self.calls = self.calls.saturating_add(1);
        let written = match area {
            Area::First => self.first.write(at, bytes),
            Area::Second => self.second.write(at, bytes),
        };
        if written.is_err() {
            self.faults = self.faults.saturating_add(1);
        }
        written
    }

    fn sync(&mut self) -> Result<(), Refusal> {
        self.calls = self.calls.saturating_add(1);
        self.first.settle();
        self.second.settle();
        Ok(())
    }

    fn len(&self, area: Area) -> u64 {
        match area {
            Area::First => self.first.len(),
            Area::Second => self.second.len(),
        }
    }
}
