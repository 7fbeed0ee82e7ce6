//! A disk that keeps nothing and is asked nothing: on a tape, a group is synced where it is marked.

ghost use Rattle.std.specs.Prelude.{◌≡◌, ◌+◌, ◌^◌, ◌≤◌, [], false, length, MatchResult};
ghost use Rattle.rr_disk.specs.Crash.{restarted};

use rr_disk::{Area, Disk};
use rr_journal::{Opened, Synced};
use rr_types::{Group, NodeId, Nodes, Promise, Refusal};
use std::alloc::Global;

/// A disk that keeps nothing and tells no bytes. Each of its calls is done, but a write past all numbers.
#[derive(Drop)]
struct PaperDisk {
    calls: u64,
    faults: u64,
}

impl Disk for PaperDisk {
    ghost tells = { λ _. ⊥ };

    ghost areas = { λ _. restarted (record { of_first = []; of_second = [] }) };

    ghost calls = { λ d. d.calls };

    ghost faults = { λ d. d.faults };

    ghost read_gives = { λ old area at count result new. MatchResult result (λ _. Unit {0}) (λ _. ⊥) };

    ghost write_gives = { λ old area at bytes result new. MatchResult result (λ _. Unit {0}) (λ _. 2 ^ 64 ≤ at + length bytes) };

    ghost sync_gives = { λ old result new. MatchResult result (λ _. Unit {0}) (λ _. ⊥) };

    fn read(
        &mut self,
        alloc: Global,
        _area: Area,
        _at: u64,
        _count: u64,
    ) -> Result<Vec<u8>, Refusal> {
        self.calls = self.calls.saturating_add(1);
        Ok(Vec::new(alloc))
    }

    fn write_at(&mut self, _area: Area, at: u64, bytes: &[u8]) -> Result<(), Refusal> {
        self.calls = self.calls.saturating_add(1);
        if at.checked_add(bytes.len() as u64).is_some() {
            Ok(())
        } else {
            self.faults = self.faults.saturating_add(1);
            Err(Refusal::Device)
        }
    }

    fn sync(&mut self) -> Result<(), Refusal> {
        self.calls = self.calls.saturating_add(1);
        Ok(())
    }

    fn len(&self, _area: Area) -> u64 {
        0
    }
}

// No call of it is made.
fn blank() -> PaperDisk {
    PaperDisk {
        calls: 0,
        faults: 0,
    }
}

/// The end of an opening over no facts.
pub fn opened(alloc: Global, nodes: Nodes, node: NodeId) -> Opened
    ensures { result ≡ record { nodes = nodes; node = node; promise = []; next = 0 } }
{
    let promise = Promise::new(Vec::new(alloc));
    Opened::on_trust(&blank(), nodes, node, promise, 0)
}

/// The group, synced.
pub fn synced(node: NodeId, group: Group) -> Synced
    ensures { result ≡ record { node = node; group = group } }
{
    Synced::on_trust(&blank(), node, group)
}
