//! A disk whose node's mark says how far it came.

ghost use Rattle.std.specs.Prelude.{◌≡◌, [], true, false, IfOk, IfErr, OnOk, OnErr};
ghost use Rattle.rr_types.specs.declared.refusal.Refusal.TheVariants.{Device};
ghost use Rattle.rr_disk.specs.Crash.{restarted};
ghost use Rattle.rr_folders.specs.Marks.{MarkedRead, MarkedWrite, MarkedSync, WasPut, opens_area};

use crate::cluster::{Course, Digest, Identity, Reached};
use crate::mark_file::MarkKeeper;
use crate::tip::{OPEN, Tip, settled};
use rr_disk::{Area, Disk};
use rr_types::{Refusal, made_of};
use std::alloc::Global;
use std::marker::Model;

/// By how many bytes an area is longer than its mark says, until the mark is put anew.
const FAR: u64 = 262_144;

/// A disk under a journal, whose node's mark says how far its active area came. Before a switch opens the first gate of the other area,
/// the mark names both areas; once that lasts, it names the new one, and only then the switch is over. At each opening, at the end
/// of its life and now and then between, it names the last gate that lasts.
///
/// It follows the journal by its calls. An opening syncs and reads both areas: one that finds less than the mark says is refused.
pub struct MarkedDisk<D: Disk + Drop, K: MarkKeeper + Drop> {
    below: D,
    keeper: K,
    // what the mark says
    course: Option<Course>,
    // how far the active area came, as far as it lasts
    tip: Option<Tip>,
    // how far area 0 came, until an opening has read area 1
    first: Option<Tip>,
    // what stands behind a gate that is closed still, and what stands behind one that was opened since the last sync
    written: Option<Tip>,
    opened: Option<Tip>,
    // whether an area's first gate was opened, and the mark doesn't name that area alone
    switching: bool,
    calls: u64,
    faults: u64,
}

impl<D: Disk + Drop, K: MarkKeeper + Drop> Model for MarkedDisk<D, K> {
    ghost use Rattle.rr_folders.specs.Marks.{MarkedState};

    ghost Value = { MarkedState D K };

    ghost view = { λ d. record { below = d.below; keeper = d.keeper; switching = d.switching; calls = d.calls; faults = d.faults } };
}

// Whether a write opens the first gate of an area.
fn opens_area(at: u64, bytes: &[u8]) -> bool
    ensures { result ≡ opens_area at bytes.now }
{
    match bytes {
        [gate] => at == 0 && *gate == OPEN,
        _ => false,
    }
}

// The newer of what two areas hold, unless they have one epoch.
fn newer(first: Option<Tip>, second: Option<Tip>) -> Option<Tip> {
    match (first, second) {
        (Some(first), Some(second)) => {
            if first.epoch == second.epoch {
                None
            } else if first.epoch < second.epoch {
                Some(second)
            } else {
                Some(first)
            }
        }
        (Some(first), None) => Some(first),
        (None, second) => second,
    }
}

// Whether an area that came this far is as far as it is to.
fn is_as_far(reached: Reached, to: Reached) -> bool {
    reached.epoch == to.epoch && reached.length >= to.length
}

// Whether no switch is under way in a course, and it is at this epoch.
fn is_at(course: Course, epoch: u64) -> bool {
    course.from.epoch == epoch && course.to.epoch == epoch
}

impl<D: Disk + Drop, K: MarkKeeper + Drop> MarkedDisk<D, K> {
    /// Over this disk, whose mark says this. Of an area that it names, so much may be known.
    pub(crate) fn new(
        below: D,
        keeper: K,
        course: Option<Course>,
        known: Option<Tip>,
    ) -> MarkedDisk<D, K>
        ensures { result ≡ record { below = below; keeper = keeper; switching = false; calls = 0; faults = 0 } }
    {
        MarkedDisk {
            below,
            keeper,
            course,
            tip: known,
            first: None,
            written: None,
            opened: None,
            switching: false,
            calls: 0,
            faults: 0,
        }
    }

    // Puts a mark.
    fn put(&mut self, course: Course) -> Result<(), Refusal>
        ensures put { OnOk result (WasPut K.puts self.old.keeper self.new.keeper) }
        ensures same { self.new ≡ record self.old { keeper = self.new.keeper } }
    {
        match self.keeper.put(course) {
            Ok(()) => {
                self.course = Some(course);
                Ok(())
            }
            Err(refusal) => Err(refusal),
        }
    }

    // Puts a mark that names the active area alone.
    fn put_tip(&mut self) -> Result<(), Refusal>
        ensures put { OnOk result (WasPut K.puts self.old.keeper self.new.keeper) }
        ensures same { self.new ≡ record self.old { keeper = self.new.keeper } }
    {
        match &self.tip {
            Some(tip) => {
                let reached = tip.reached()?;
                self.put(settled(reached))
            }
            None => Err(Refusal::Device),
        }
    }

    // Puts a mark that names the active area, and the one whose first gate is to be opened.
    fn announce(&mut self, area: Area) -> Result<(), Refusal>
        ensures put { OnOk result (WasPut K.puts self.old.keeper self.new.keeper) }
        ensures same { self.new ≡ record self.old { keeper = self.new.keeper } }
    {
        let to = match &self.written {
            Some(next) if next.area == area => next.reached()?,
            _ => return Err(Refusal::Device),
        };
        let from = match &self.tip {
            Some(tip) => tip.reached()?,
            None => to,
        };
        self.put(Course { from, to })
    }

    // Whether the active area came further than the mark says, by so many bytes at least.
    fn is_further(&self, by: u64) -> bool {
        match (&self.tip, self.course) {
            (None, _) => false,
            (Some(tip), None) => tip.version > 1,
            (Some(tip), Some(course)) => {
                is_at(course, tip.epoch) && tip.gate >= course.to.length.saturating_add(by)
            }
        }
    }

    // Puts the last mark of a disk that is let go.
    fn put_last(&mut self) {
        if !self.switching && self.is_further(1) {
            let _ = self.put_tip();
        }
    }

    // How far the active area came, as far as it lasts.
    fn came(&self) -> Option<Course> {
        match &self.tip {
            Some(tip) if !self.switching && self.is_further(1) => match tip.reached() {
                Ok(reached) => Some(settled(reached)),
                Err(_) => self.course,
            },
            _ => self.course,
        }
    }

    /// Lets it go, and gives how far it came, if that is known: its mark may not say so. The last mark is put where it may be, as where its folder is
    /// still in its place.
    pub(crate) fn leave(mut self, may_mark: bool) -> Option<Course> {
        made_of!(Course, Reached, Digest, Identity);
        let came = self.came();
        if may_mark {
            self.put_last();
        }
        let MarkedDisk {
            below: _,
            keeper: _,
            course: _,
            tip: _,
            first: _,
            written: _,
            opened: _,
            switching: _,
            calls: _,
            faults: _,
        } = self;
        came
    }

    // Follows a write that was made.
    fn follow(&mut self, area: Area, at: u64, bytes: &[u8])
        ensures { self.new ≡ self.old }
    {
        if at == 1 {
            self.written = Tip::of_body(area, bytes);
            return;
        }
        let Some(tip) = &self.tip else {
            return;
        };
        if tip.area != area {
            return;
        }
        if at == tip.gate {
            if matches!(bytes, [OPEN]) {
                self.opened = self.written.take();
            }
        } else if at > tip.gate && at - tip.gate == 1 {
            self.written = tip.behind(bytes);
        }
    }

    // Follows a sync that was made: what was opened lasts.
    fn settle(&mut self) -> Result<(), Refusal>
        ensures put { OnOk result (self.old.switching ≡ true → WasPut K.puts self.old.keeper self.new.keeper) }
        ensures settled { OnOk result (self.new.switching ≡ false) }
        ensures same { self.new ≡ record self.old { keeper = self.new.keeper; switching = self.new.switching } }
    {
        if let Some(tip) = self.opened.take() {
            self.tip = Some(tip);
        }
        if self.switching {
            self.put_tip()?;
            self.switching = false;
        } else if self.is_further(FAR) {
            let _ = self.put_tip();
        }
        Ok(())
    }

    // Puts the mark of a disk whose opening found its active area so far, unless it says the same: refused, where the mark says more.
    fn refresh(&mut self) -> Result<(), Refusal>
        ensures { self.new ≡ record self.old { keeper = self.new.keeper } }
    {
        let (reached, is_marked) = match &self.tip {
            Some(tip) => (tip.reached()?, tip.version > 1),
            None if self.course.is_none() => return Ok(()),
            None => return Err(Refusal::Device),
        };
        // a mark that names this area alone holds on where none can be put
        let may_stay = match self.course {
            None => true,
            Some(course) => {
                if !is_as_far(reached, course.to) && !is_as_far(reached, course.from) {
                    return Err(Refusal::Device);
                }
                if is_at(course, reached.epoch) && reached.length == course.to.length {
                    return Ok(());
                }
                is_at(course, reached.epoch)
            }
        };
        if !is_marked {
            return Ok(());
        }
        match self.put(settled(reached)) {
            Err(_) if may_stay => Ok(()),
            put => put,
        }
    }

    // Follows a read of a whole area, as an opening makes it, of area 0 first.
    fn look(&mut self, area: Area, at: u64, bytes: &[u8]) -> Result<(), Refusal>
        ensures { self.new ≡ record self.old { keeper = self.new.keeper } }
    {
        if at > 0 {
            return Ok(());
        }
        let found = Tip::found(area, bytes, &self.tip);
        match area {
            Area::First => {
                self.first = found;
                Ok(())
            }
            Area::Second => {
                let first = self.first.take();
                self.tip = newer(first, found);
                self.written = None;
                self.refresh()
            }
        }
    }
}

impl<D: Disk + Drop, K: MarkKeeper + Drop> Disk for MarkedDisk<D, K> {
    ghost tells = { λ _. ⊥ };

    ghost areas = { λ _. restarted (record { of_first = []; of_second = [] }) };

    ghost calls = { λ d. d.calls };

    ghost faults = { λ d. d.faults };

    ghost read_gives = { MarkedRead K.puts D.read_gives };

    ghost write_gives = { MarkedWrite K.puts D.write_gives };

    ghost sync_gives = { MarkedSync K.puts D.sync_gives };

    fn read(&mut self, alloc: Global, area: Area, at: u64, count: u64) -> Result<Vec<u8>, Refusal> {
        self.calls = self.calls.saturating_add(1);
        match self.below.read(alloc, area, at, count) {
            Ok(bytes) => match self.look(area, at, bytes.as_slice()) {
                Ok(()) => Ok(bytes),
                Err(_) => {
                    self.faults = self.faults.saturating_add(1);
                    Err(Refusal::Device)
                }
            },
            Err(Refusal::OutOfMemory) => Err(Refusal::OutOfMemory),
            Err(_) => {
                self.faults = self.faults.saturating_add(1);
                Err(Refusal::Device)
            }
        }
    }

    fn write_at(&mut self, area: Area, at: u64, bytes: &[u8]) -> Result<(), Refusal> {
        self.calls = self.calls.saturating_add(1);
        let opens = opens_area(at, bytes);
        if opens && self.announce(area).is_err() {
            self.faults = self.faults.saturating_add(1);
            return Err(Refusal::Device);
        }
        match self.below.write_at(area, at, bytes) {
            Ok(()) => {
                if opens {
                    self.opened = self.written.take();
                    self.switching = true;
                } else {
                    self.follow(area, at, bytes);
                }
                Ok(())
            }
            Err(_) => {
                self.faults = self.faults.saturating_add(1);
                Err(Refusal::Device)
            }
        }
    }

    fn sync(&mut self) -> Result<(), Refusal> {
        self.calls = self.calls.saturating_add(1);
        let synced = match self.below.sync() {
            Ok(()) => self.settle(),
            Err(refusal) => Err(refusal),
        };
        if synced.is_err() {
            self.faults = self.faults.saturating_add(1);
            return Err(Refusal::Device);
        }
        Ok(())
    }

    fn len(&self, area: Area) -> u64 {
        self.below.len(area)
    }
}

impl<D: Disk + Drop, K: MarkKeeper + Drop> Drop for MarkedDisk<D, K> {
    fn drop(mut self) {
        self.put_last();
        let MarkedDisk {
            below: _,
            keeper: _,
            course: _,
            tip: _,
            first: _,
            written: _,
            opened: _,
            switching: _,
            calls: _,
            faults: _,
        } = self;
    }
}
