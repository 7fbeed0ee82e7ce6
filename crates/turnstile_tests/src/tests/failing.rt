//! Runs in which the disk of a node fails while the others go on.

use super::asking::{OPENING_CALLS, Shared, askers, claims, node_of, numbered};
use rr_disk::{AreaFile, FileDisk};
use rr_text::{Answers, Script};
use rr_threads::{Switches, run_clients, run_script, run_switched};
use rr_turn::{Open, Place, Turnstile};
use rr_types::{NodeId, Nodes, Refusal};
use std::alloc::Global;
use std::io;
use std::io::ErrorKind;
use std::process::Abort;
use std::sync::Wait;
use std::sync::atomic::Ordering;
use std::thread::Threads;
use std::time::Clock;

/// A file in memory whose writes fail after the next `left`.
#[derive(Drop)]
struct WornFile {
    bytes: Vec<u8>,
    left: u32,
}

fn failure() -> io::Error {
    io::Error::from(ErrorKind::Unsupported)
}

impl AreaFile for WornFile {
    ghost gives = { λ _ _ _. Unit {0} };

    fn read_at(&mut self, at: u64, bytes: &mut [u8]) -> io::Result<()> {
        let mut place = at as usize;
        for byte in bytes {
            *byte = match self.bytes.get(place) {
                Some(held) => *held,
                None => return Err(failure()),
            };
            place = place.saturating_add(1);
        }
        Ok(())
    }

    fn write_at(&mut self, at: u64, bytes: &[u8]) -> io::Result<()> {
        self.left = match self.left.checked_sub(1) {
            Some(left) => left,
            None => return Err(failure()),
        };
        let mut place = at as usize;
        for byte in bytes {
            match self.bytes.get_mut(place) {
                Some(held) => *held = *byte,
                None => {
                    if self.bytes.push(*byte).is_err() {
                        return Err(failure());
                    }
                }
            }
            place = place.saturating_add(1);
        }
        Ok(())
    }

    fn sync(&mut self) -> io::Result<()> {
        Ok(())
    }

    fn length(&self) -> io::Result<u64> {
        Ok(self.bytes.len() as u64)
    }
}

/// A disk on which each file's writes fail after the first `left`.
fn worn_disk(rt: &impl Abort, alloc: Global, left: u32) -> FileDisk<WornFile> {
    let first = WornFile {
        bytes: Vec::new(alloc),
        left,
    };
    let second = WornFile {
        bytes: Vec::new(alloc),
        left,
    };
    FileDisk::over(first, second).expect(rt, "a disk")
}

/// Runs a script on three nodes. Each file of a node's disk takes the number of writes given for the node. (The clients of a script
/// are those of `rr run`, which look for a reply up to 10,000,000 times: no test can bound that.)
fn ran<R: Threads + Wait + Clock + Abort + AllocGlobal + Sync>(
    rt: &R,
    writes: [u32; 3],
) -> Result<Answers, Refusal> {
    let text =
        b"submit 0 7 1 claim a x\nsubmit 1 8 1 claim b x\nsubmit 2 9 1 claim c x\nlook 2 c\n";
    let nodes = Nodes::new(3)?;
    let script = Script::parse(rt.alloc(), nodes, text)?;
    let mut disks = Vec::new(rt.alloc());
    for left in writes {
        disks.push(worn_disk(rt, rt.alloc(), left))?;
    }
    run_script(rt, rt.alloc(), disks, &script, &Open, None)
}

/// An opening writes three times: a closed gate, a snapshot, the gate.
const OPENING: u32 = 3;

#[test]
fn disks_that_last_answer(rt: HostRuntime) {
    let answers = ran(&rt, [1_000_000, 1_000_000, 1_000_000]).expect(&rt, "answers");
    let text = answers.text(rt.alloc()).expect(&rt, "memory");
    let wanted = "ack 0 7.1 claimed\nack 1 8.1 claimed\nack 2 9.1 claimed\nlook 2 c 9:x\n";
    assert!(rt; text.as_slice() == wanted.as_bytes());
}

#[test]
fn a_disk_that_fails_in_a_flush_ends_the_run(rt: HostRuntime) {
    for writes in 0..4u32 {
        let ran = ran(&rt, [1_000_000, OPENING + writes, 1_000_000]);
        assert!(rt; matches!(ran, Err(Refusal::Device)));
    }
}

#[test]
fn a_disk_that_fails_in_an_opening_ends_the_run(rt: HostRuntime) {
    for writes in 0..OPENING {
        let ran = ran(&rt, [1_000_000, 1_000_000, writes]);
        assert!(rt; matches!(ran, Err(Refusal::Device)));
    }
}

/// Holds each flush of the last of three nodes until the clients of the others have their replies.
#[derive(Drop)]
struct UntilOthers<'s, R> {
    rt: &'s R,
    shared: &'s Shared,
}

impl<'s, R: Wait> Turnstile for UntilOthers<'s, R> {
    fn pass(&self, node: NodeId, place: Place) {
        let shared = self.shared;
        if place == Place::AfterSubmit || node.index() != 2 {
            return;
        }
        if shared.first_calls.fetch_add(1, Ordering::SeqCst) >= OPENING_CALLS {
            shared.wait_for(self.rt, &shared.right, 2);
        }
    }
}

/// Three nodes, the last of which can't write after its opening. The others acknowledge their claims before it fails.
fn others_go_on<R: Threads + Wait + Clock + Abort + AllocGlobal + Sync>(
    rt: &R,
) -> Result<bool, Refusal> {
    let nodes = numbered(rt, 3);
    let shared = Shared::new(claims(rt, rt.alloc(), nodes)?);
    let clients = askers(rt.alloc(), nodes, &shared)?;
    let mut disks = Vec::new(rt.alloc());
    for left in [1_000_000, 1_000_000, OPENING] {
        disks.push(worn_disk(rt, rt.alloc(), left))?;
    }
    let turnstile = UntilOthers {
        rt,
        shared: &shared,
    };
    let ran = run_clients(rt, rt.alloc(), nodes, disks, clients, &turnstile, None);
    Ok(matches!(ran, Err(Refusal::Device)) && shared.came_to(2))
}

#[test]
fn nodes_acknowledge_beside_one_whose_disk_fails(rt: HostRuntime) {
    assert!(rt; others_go_on(&rt).expect(&rt, "memory"));
}

/// Three nodes with switches, the last of which can't write after its opening. It goes down alone, and the others acknowledge their claims.
fn one_fails_alone<R: Threads + Wait + Clock + Abort + AllocGlobal + Sync>(
    rt: &R,
) -> Result<bool, Refusal> {
    let nodes = numbered(rt, 3);
    let shared = Shared::new(claims(rt, rt.alloc(), nodes)?);
    let clients = askers(rt.alloc(), nodes, &shared)?;
    let mut disks = Vec::new(rt.alloc());
    for left in [1_000_000, 1_000_000, OPENING] {
        disks.push(worn_disk(rt, rt.alloc(), left))?;
    }
    let switches = Switches::new(rt.alloc(), nodes)?;
    switches.close();
    run_switched(rt, rt.alloc(), nodes, disks, clients, &Open, &switches)?;
    let first = switches.failure(rt, node_of(rt, nodes, 0));
    let last = switches.failure(rt, node_of(rt, nodes, 2));
    Ok(first.is_none() && matches!(last, Some(Refusal::Device)) && shared.came_to(2))
}

#[test]
fn a_node_with_a_switch_fails_alone(rt: HostRuntime) {
    assert!(rt; one_fails_alone(&rt).expect(&rt, "a run that goes on"));
}
