//! A disk that keeps nothing.

ghost use Rattle.std.specs.Prelude.{[]};
ghost use Rattle.rr_disk.specs.Crash.{restarted};

use rr_disk::{Area, Disk};
use rr_types::Refusal;
use std::alloc::Global;

/// A disk that keeps nothing and tells no bytes. Each of its calls is done, but a write past all numbers.
#[derive(Debug, Drop)]
pub struct Nowhere {
    calls: u64,
    faults: u64,
}

impl Nowhere {
    /// No call of it is made yet.
    pub fn new() -> Nowhere {
        Nowhere {
            calls: 0,
            faults: 0,
        }
    }
}

impl Disk for Nowhere {
    ghost tells = { λ _. ⊥ };

    ghost areas = { λ _. restarted (record { of_first = []; of_second = [] }) };

    ghost calls = { λ d. d.calls };

    ghost faults = { λ d. d.faults };

    ghost read_gives = { λ _ _ _ _ _ _. Unit {0} };

    ghost write_gives = { λ _ _ _ _ _ _. Unit {0} };

    ghost sync_gives = { λ _ _ _. Unit {0} };

    fn read(
        &mut self,
        alloc: Global,
        _area: Area,
        _at: u64,
        _count: u64,
    ) -> Result<Vec<u8>, Refusal> {
        self.calls = self.calls.saturating_add(1);
        Ok(Vec::new(alloc))
    }

    fn write_at(&mut self, _area: Area, at: u64, bytes: &[u8]) -> Result<(), Refusal> {
        self.calls = self.calls.saturating_add(1);
        if at.checked_add(bytes.len() as u64).is_some() {
            Ok(())
        } else {
            self.faults = self.faults.saturating_add(1);
            Err(Refusal::Device)
        }
    }

    fn sync(&mut self) -> Result<(), Refusal> {
        self.calls = self.calls.saturating_add(1);
        Ok(())
    }

    fn len(&self, _area: Area) -> u64 {
        0
    }
}
