//! A disk whose calls fail on demand.

ghost use Rattle.std.specs.Prelude.{◌≡◌, ℕ, ◌+◌, ◌<◌, ◌≤◌, ◌⊎◌, ◌^◌, [], List, length, Some, None, IfOk, IfErr, OnOk, OnErr, MatchResult, Result};
ghost use Rattle.rr_types.specs.declared.refusal.Refusal.{Refusal};
ghost use Rattle.rr_disk.specs.Areas.{Areas, IsTorn};
ghost use Rattle.rr_disk.specs.Crash.{restarted, crash_images};
ghost use Rattle.rr_disk.specs.Failing.{FailingRead, FailingWrite, FailingSync, OneByOne, overwrites, repeated};

use crate::area::Area;
use crate::cells::fill_byte;
use crate::disk::Disk;
use crate::memory::MemDisk;
use rr_types::Refusal;
use std::alloc::{AllocError, Global};
use std::marker::Model;

/// A disk whose calls fail on demand, over any other. Its counts are its own.
#[derive(Debug, Drop)]
pub struct FailingDisk<D> {
    below: D,
    due: Option<Vec<u8>>,
    calls: u64,
    faults: u64,
}

impl<D> Model for FailingDisk<D> {
    ghost use Rattle.std.specs.Prelude.{option_map};
    ghost use Rattle.rr_disk.specs.Failing.{FailingState};

    ghost Value = { FailingState D };

    ghost view = { λ d. record { below = d.below; due = option_map (λ v. v.items) d.due; calls = d.calls; faults = d.faults } };
}

impl<D> FailingDisk<D> {
    /// Over this disk. No failure is due.
    pub fn new(below: D) -> FailingDisk<D>
        ensures { result ≡ record { below = below; due = None; calls = 0; faults = 0 } }
    {
        FailingDisk {
            below,
            due: None,
            calls: 0,
            faults: 0,
        }
    }

    /// Makes the next device call fail. A failing write leaves in its range the fill, repeated from its first
    /// byte, or with an empty fill the bytes themselves; a failing read or sync changes nothing.
    pub fn fail_next(&mut self, fill: Vec<u8>)
        ensures { self.new ≡ record self.old { due = Some fill.items } }
    {
        self.due = Some(fill);
    }

    /// The disk below.
    pub fn below(&self) -> &D
        ensures { result.now ≡ self.now.below }
    {
        &self.below
    }

    /// Gives the disk below back.
    pub fn into_below(self) -> D
        ensures { result ≡ self.below }
    {
        let FailingDisk {
            below,
            due: _,
            calls: _,
            faults: _,
        } = self;
        below
    }
}

impl FailingDisk<MemDisk> {
    /// A copy of it, with what is loose and its counts, at which no failure is due.
    ///
    /// # Errors
    /// Where memory runs out.
    pub fn copied(&self, alloc: Global) -> Result<FailingDisk<MemDisk>, AllocError>
        ensures { IfOk result (λ copy. copy ≡ record self.now { due = None }) }
    {
        Ok(FailingDisk {
            below: self.below.copied(alloc)?,
            due: None,
            calls: self.calls,
            faults: self.faults,
        })
    }

    /// What a crash leaves, as `MemDisk::crash` says. A failure that is due stays due.
    pub fn crash(&mut self, cut_first: u64, cut_second: u64, fill: &[u8])
        ensures { self.new ≡ record self.old { below = record self.old.below { areas = restarted (crash_images cut_first cut_second fill.now self.old.below.areas) } } }
    {
        self.below.crash(cut_first, cut_second, fill);
    }
}

impl<D: Disk> Disk for FailingDisk<D> {
    ghost tells = { λ d. D.tells d.below };

    ghost areas = { λ d. D.areas d.below };

    ghost calls = { λ d. d.calls };

    ghost faults = { λ d. d.faults };

    ghost read_gives = { FailingRead D.read_gives };

    ghost write_gives = { FailingWrite D.write_gives };

    ghost sync_gives = { FailingSync D.sync_gives };

    fn read(&mut self, alloc: Global, area: Area, at: u64, count: u64) -> Result<Vec<u8>, Refusal> {
        self.calls = self.calls.saturating_add(1);
        if self.due.take().is_some() {
            self.faults = self.faults.saturating_add(1);
            return Err(Refusal::Device);
        }
        match self.below.read(alloc, area, at, count) {
            Ok(bytes) => Ok(bytes),
            Err(Refusal::Device) => {
                self.faults = self.faults.saturating_add(1);
                Err(Refusal::Device)
            }
            Err(e) => Err(e),
        }
    }

    fn write_at(&mut self, area: Area, at: u64, bytes: &[u8]) -> Result<(), Refusal> {
        self.calls = self.calls.saturating_add(1);
        match self.due.take() {
            None => match self.below.write_at(area, at, bytes) {
                Ok(()) => Ok(()),
                Err(e) => {
                    self.faults = self.faults.saturating_add(1);
                    Err(e)
                }
            },
            Some(fill) => {
                self.faults = self.faults.saturating_add(1);
                write_failing(&mut self.below, area, at, bytes, &fill);
                Err(Refusal::Device)
            }
        }
    }

    fn sync(&mut self) -> Result<(), Refusal> {
        self.calls = self.calls.saturating_add(1);
        if self.due.take().is_some() {
            self.faults = self.faults.saturating_add(1);
            return Err(Refusal::Device);
        }
        match self.below.sync() {
            Ok(()) => Ok(()),
            Err(e) => {
                self.faults = self.faults.saturating_add(1);
                Err(e)
            }
        }
    }

    fn len(&self, area: Area) -> u64 {
        self.below.len(area)
    }
}

// Writes the bytes, and then the fill over them.
fn write_failing<D: Disk>(disk: &mut D, area: Area, at: u64, bytes: &[u8], fill: &[u8])
    ensures exact { (mid : D) × (r : Result (Unit {0}) Refusal) × D.write_gives disk.old area at bytes.now r mid
        × MatchResult r (λ _. OneByOne D.write_gives area at (overwrites fill.now (length bytes.now)) mid disk.new) (λ _. disk.new ≡ mid) }
    ensures tells { D.tells disk.old → D.tells disk.new }
    ensures torn { D.tells disk.old → IsTorn area at (length bytes.now) (D.areas disk.old) (D.areas disk.new) }
{
    match disk.write_at(area, at, bytes) {
        Ok(()) => {
            if !fill.is_empty() {
                overwrite(disk, area, at, fill, bytes.len());
            }
        }
        Err(_) => {}
    }
}

// Writes `count` bytes of the fill, repeated as needed, one at a time, up to the first write that fails.
fn overwrite<D: Disk>(disk: &mut D, area: Area, at: u64, fill: &[u8], count: usize)
    requires { at + count < 2 ^ 64 }
    ensures exact { OneByOne D.write_gives area at (repeated fill.now 0 count) disk.old disk.new }
    ensures tells { D.tells disk.old → D.tells disk.new }
    ensures torn { D.tells disk.old → (start : Areas) → IsTorn area at count start (D.areas disk.old) → IsTorn area at count start (D.areas disk.new) }
{
    for k in 0..count {
        let byte = fill_byte(fill, k as u128, 0);
        if disk.write_at(area, at + k as u64, &[byte]).is_err() {
            return;
        }
    }
}
