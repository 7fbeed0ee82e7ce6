//! A disk whose device calls the host makes.

ghost use Rattle.std.specs.Prelude.{◌≡◌, ◌+◌, ◌^◌, ◌<◌, [], length, None, Some, IfOk, IfErr, MatchOption};
ghost use Rattle.rr_disk.specs.Crash.{restarted};
ghost use Rattle.rr_host.specs.Disks.{noted, HostRead, HostWrite, HostSync};

use rr_disk::{Area, Disk};
use rr_types::Refusal;
use std::alloc::Global;
use std::marker::Model;

/// A write that the host has still to make, before it syncs the area.
#[derive(Debug, Drop)]
pub struct Written {
    area: Area,
    at: u64,
    bytes: Vec<u8>,
}

impl Model for Written {
    ghost use Rattle.rr_host.specs.Disks.{Asked};

    ghost Value = { Asked };

    ghost view = { λ w. record { area = w.area; at = w.at; bytes = w.bytes.items } };
}

impl Written {
    /// The area.
    pub fn area(&self) -> Area
        ensures { result ≡ self.now.area }
    {
        self.area
    }

    /// The place of the first byte.
    pub fn at(&self) -> u64
        ensures { result ≡ self.now.at }
    {
        self.at
    }

    /// The bytes.
    pub fn bytes(&self) -> &[u8]
        ensures { result.now ≡ self.now.bytes }
    {
        &self.bytes
    }
}

/// A disk that belongs to the host, and tells no bytes. A write is noted, and the host is asked for it: until the next sync a
/// crash may leave anything in its range all the same. Each area is read once, whole, and then let go.
#[derive(Drop)]
pub struct HostDisk {
    alloc: Global,
    first: Option<Vec<u8>>,
    second: Option<Vec<u8>>,
    first_len: u64,
    second_len: u64,
    written: Option<Written>,
    calls: u64,
    faults: u64,
    syncs: u64,
}

impl Model for HostDisk {
    ghost use Rattle.std.specs.Prelude.{option_map};
    ghost use Rattle.rr_host.specs.Disks.{DiskState};

    ghost Value = { DiskState };

    ghost view = { λ d. record {
      first = option_map (λ v. v.items) d.first;
      second = option_map (λ v. v.items) d.second;
      first_len = d.first_len;
      second_len = d.second_len;
      written = d.written;
      calls = d.calls;
      faults = d.faults;
      syncs = d.syncs;
    } };
}

impl HostDisk {
    /// The disk whose areas have these bytes. The host is asked for nothing yet.
    pub fn new(alloc: Global, first: Vec<u8>, second: Vec<u8>) -> HostDisk
        ensures bytes { (result.first ≡ Some first.items) × (result.second ≡ Some second.items) }
        ensures rests { (result.written ≡ None) × (result.calls ≡ 0) × (result.faults ≡ 0) × (result.syncs ≡ 0) }
    {
        HostDisk {
            alloc,
            first_len: first.len() as u64,
            second_len: second.len() as u64,
            first: Some(first),
            second: Some(second),
            written: None,
            calls: 0,
            faults: 0,
            syncs: 0,
        }
    }

    /// The write that the host is asked for.
    pub fn written(&self) -> Option<&Written>
        ensures { MatchOption result (self.now.written ≡ None) (λ w. self.now.written ≡ Some w.now) }
    {
        self.written.as_ref()
    }

    /// How many syncs were made.
    pub fn syncs(&self) -> u64
        ensures { result ≡ self.now.syncs }
    {
        self.syncs
    }

    // Notes a write. Nothing has changed where it gives `None`: memory is wanting, another write waits, or its end has no number.
    fn note(&mut self, area: Area, at: u64, bytes: &[u8]) -> Option<()>
        ensures { MatchOption result (self.new ≡ self.old) (λ _. (self.old.written ≡ None) × (at + length bytes.now < 2 ^ 64) × (self.new ≡ noted area at bytes.now self.old)) }
    {
        if self.written.is_some() {
            return None;
        }
        let Some(end) = at.checked_add(bytes.len() as u64) else {
            return None;
        };
        let Ok(bytes) = copied(self.alloc, bytes) else {
            return None;
        };
        match area {
            Area::First => self.first_len = self.first_len.max(end),
            Area::Second => self.second_len = self.second_len.max(end),
        }
        self.written = Some(Written { area, at, bytes });
        Some(())
    }
}

/// A copy of some bytes.
pub(crate) fn copied(alloc: Global, bytes: &[u8]) -> Result<Vec<u8>, Refusal>
    ensures ok { IfOk result (λ copy. copy.items ≡ bytes.now) }
    ensures err { IfErr result (λ e. e ≡ Refusal.OutOfMemory) }
{
    let mut copy = Vec::new(alloc);
    copy.extend_from_slice(bytes)?;
    Ok(copy)
}

impl Disk for HostDisk {
    ghost tells = { λ _. ⊥ };

    ghost areas = { λ _. restarted (record { of_first = []; of_second = [] }) };

    ghost calls = { λ d. d.calls };

    ghost faults = { λ d. d.faults };

    ghost read_gives = { HostRead };

    ghost write_gives = { HostWrite };

    ghost sync_gives = { HostSync };

    fn read(
        &mut self,
        _alloc: Global,
        area: Area,
        at: u64,
        count: u64,
    ) -> Result<Vec<u8>, Refusal> {
        self.calls = self.calls.saturating_add(1);
        let held = match area {
            Area::First => self.first.take(),
            Area::Second => self.second.take(),
        };
        match held {
            Some(bytes) if at == 0 && bytes.len() as u64 <= count => Ok(bytes),
            _ => {
                self.faults = self.faults.saturating_add(1);
                Err(Refusal::Device)
            }
        }
    }

    fn write_at(&mut self, area: Area, at: u64, bytes: &[u8]) -> Result<(), Refusal> {
        self.calls = self.calls.saturating_add(1);
        match self.note(area, at, bytes) {
            Some(()) => Ok(()),
            None => {
                self.faults = self.faults.saturating_add(1);
                Err(Refusal::Device)
            }
        }
    }

    fn sync(&mut self) -> Result<(), Refusal> {
        self.calls = self.calls.saturating_add(1);
        self.syncs = self.syncs.saturating_add(1);
        self.written = None;
        Ok(())
    }

    fn len(&self, area: Area) -> u64 {
        match area {
            Area::First => self.first_len,
            Area::Second => self.second_len,
        }
    }
}
