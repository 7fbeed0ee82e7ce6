//! A node's disk at home: it is opened again at each start of its node.

ghost use Rattle.std.specs.Prelude.{◌≡◌, ◌⊎◌, [], None, IfErr};
ghost use Rattle.rr_types.specs.declared.refusal.Refusal.TheVariants.{Device, OutOfMemory};
ghost use Rattle.rr_disk.specs.Crash.{restarted};
ghost use Rattle.rr_folders.specs.Returns.{Called, LetsGo, Reopened};

use rr_disk::{Area, Disk, Reopen};
use rr_types::Refusal;
use std::alloc::Global;
use std::marker::Model;

/// Where a disk lies. Whoever lets a disk go there can come back to it later, if it is the same one then.
pub trait Home<D> {
    ghost use Rattle.std.specs.Prelude.{◌≡◌, ◌⊎◌, IfErr, Result};
    ghost use Rattle.rr_types.specs.declared.refusal.Refusal.{Refusal};
    ghost use Rattle.rr_types.specs.declared.refusal.Refusal.TheVariants.{Device, OutOfMemory};

    /// That letting this disk go may have brought it from one state to another.
    ghost leaves: { Self → D → Self → Type 0 };

    /// That a return to it, which gave this, may have.
    ghost enters: { Self → Result D Refusal → Self → Type 0 };

    /// Lets the disk go that was open.
    fn leave(&mut self, disk: D)
        ensures { leaves self.old disk self.new };

    /// Opens the disk as it lies there now.
    ///
    /// # Errors
    /// `OutOfMemory`; `Device` where what lies there can't be opened, or isn't this disk any more.
    fn enter(&mut self) -> Result<D, Refusal>
        ensures gives { enters self.old result self.new }
        ensures cause { IfErr result (λ e. (e ≡ OutOfMemory) ⊎ (e ≡ Device)) };
}

/// A disk that lies at home. While it isn't open, each of its device calls fails. It is open from the beginning, or from when it is opened
/// again.
pub struct HomeDisk<D: Disk + Drop, H: Home<D> + Drop> {
    home: H,
    disk: Option<D>,
    calls: u64,
    faults: u64,
}

impl<D: Disk + Drop, H: Home<D> + Drop> Model for HomeDisk<D, H> {
    ghost use Rattle.rr_folders.specs.Returns.{HomeState};

    ghost Value = { HomeState D H };

    ghost view = { λ d. record { home = d.home; disk = d.disk; calls = d.calls; faults = d.faults } };
}

impl<D: Disk + Drop, H: Home<D> + Drop> HomeDisk<D, H> {
    /// At this home, where this disk is open. None: it isn't yet.
    pub(crate) fn new(home: H, disk: Option<D>) -> HomeDisk<D, H>
        ensures { result ≡ record { home = home; disk = disk; calls = 0; faults = 0 } }
    {
        HomeDisk {
            home,
            disk,
            calls: 0,
            faults: 0,
        }
    }

    // Lets the disk go, if it is open.
    fn let_go(&mut self)
        ensures gone { LetsGo H.leaves self.old.disk self.old.home self.new.home }
        ensures closed { self.new.disk ≡ None }
        ensures counts { (self.new.calls ≡ self.old.calls) × (self.new.faults ≡ self.old.faults) }
    {
        if let Some(disk) = self.disk.take() {
            self.home.leave(disk);
        }
    }
}

impl<D: Disk + Drop, H: Home<D> + Drop> Disk for HomeDisk<D, H> {
    ghost tells = { λ _. ⊥ };

    ghost areas = { λ _. restarted (record { of_first = []; of_second = [] }) };

    ghost calls = { λ d. d.calls };

    ghost faults = { λ d. d.faults };

    ghost read_gives = { λ old area at count result new. Called (λ d r e. D.read_gives d area at count r e) old result new };

    ghost write_gives = { λ old area at bytes result new. Called (λ d r e. D.write_gives d area at bytes r e) old result new };

    ghost sync_gives = { λ old result new. Called (λ d r e. D.sync_gives d r e) old result new };

    fn read(&mut self, alloc: Global, area: Area, at: u64, count: u64) -> Result<Vec<u8>, Refusal> {
        self.calls = self.calls.saturating_add(1);
        let read = match &mut self.disk {
            Some(disk) => disk.read(alloc, area, at, count),
            None => Err(Refusal::Device),
        };
        if matches!(&read, Err(Refusal::Device)) {
            self.faults = self.faults.saturating_add(1);
        }
        read
    }

    fn write_at(&mut self, area: Area, at: u64, bytes: &[u8]) -> Result<(), Refusal> {
        self.calls = self.calls.saturating_add(1);
        let written = match &mut self.disk {
            Some(disk) => disk.write_at(area, at, bytes),
            None => Err(Refusal::Device),
        };
        if written.is_err() {
            self.faults = self.faults.saturating_add(1);
        }
        written
    }

    fn sync(&mut self) -> Result<(), Refusal> {
        self.calls = self.calls.saturating_add(1);
        let synced = match &mut self.disk {
            Some(disk) => disk.sync(),
            None => Err(Refusal::Device),
        };
        if synced.is_err() {
            self.faults = self.faults.saturating_add(1);
        }
        synced
    }

    fn len(&self, area: Area) -> u64 {
        match &self.disk {
            Some(disk) => disk.len(area),
            None => 0,
        }
    }
}

/// By any fault it stays closed, and may be tried again.
impl<D: Disk + Drop, H: Home<D> + Drop> Reopen for HomeDisk<D, H> {
    fn reopen(&mut self) -> Result<(), Refusal>
        ensures same { ⊥ → restarted (record { of_first = []; of_second = [] }) ≡ restarted (record { of_first = []; of_second = [] }) }
        ensures tells { ⊥ → ⊥ }
        ensures cause { IfErr result (λ e. (e ≡ OutOfMemory) ⊎ (e ≡ Device)) }
        ensures exact { Reopened H.leaves H.enters self.old result self.new }
    {
        self.let_go();
        match self.home.enter() {
            Ok(disk) => {
                self.disk = Some(disk);
                Ok(())
            }
            Err(refusal) => Err(refusal),
        }
    }
}

impl<D: Disk + Drop, H: Home<D> + Drop> Drop for HomeDisk<D, H> {
    fn drop(mut self) {
        self.let_go();
        let HomeDisk {
            home: _,
            disk: _,
            calls: _,
            faults: _,
        } = self;
    }
}
