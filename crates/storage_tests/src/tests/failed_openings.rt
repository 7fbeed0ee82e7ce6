//! Openings of which one device call is refused, of a disk that crashes then.

ghost use Rattle.std.specs.Prelude.{◌<◌};

use super::expected::{alone, assert_numbers};
use super::journal::after;
use rr_disk::{Area, FailingDisk, MemDisk};
use rr_journal::{Journal, Opening};
use std::alloc::Global;
use std::process::Abort;

/// How many device calls an opening makes that formats a disk, and one of a disk that is formatted.
const CALLS: [usize; 2] = [9, 3];

/// The disk behind an opening of node 0 of 1 whose call behind `before` others is refused, and a crash. A write that is
/// refused, and what no sync covers, may leave this byte anywhere.
fn crashed(
    rt: &impl Abort,
    alloc: Global,
    disk: FailingDisk<MemDisk>,
    before: usize,
    byte: u8,
) -> FailingDisk<MemDisk> {
    let (nodes, node) = alone(rt);
    let opening = after(rt, alloc, Opening::start(nodes, node, disk), before);
    let mut disk = opening.fail(alloc, [byte].to_vec(alloc).expect(rt, "memory"));
    disk.crash(u64::MAX, 0, &[byte]);
    disk
}

/// Asserts that the disk opens as one without facts, and gives it back.
fn opened(rt: &impl Abort, alloc: Global, disk: FailingDisk<MemDisk>) -> FailingDisk<MemDisk> {
    let (nodes, node) = alone(rt);
    match Journal::open(alloc, nodes, node, disk) {
        Ok((journal, opened)) => {
            assert!(rt; matches!(journal.area(), Area::First));
            let found = (journal.epoch(), journal.facts());
            assert_numbers(rt, found, (1, 0), "epoch and facts");
            let entries = opened.promise().entries().len() as u64;
            assert_numbers(rt, (opened.next(), entries), (0, 0), "the promise");
            journal.into_disk()
        }
        Err((_, _)) => rt.panic("a disk without damage"),
    }
}

/// Each call of the opening that formats a disk, and each of the next one, is refused once: the disk opens then with area 0 active.
#[test]
fn each_call_of_an_opening_is_refused_once(rt: HostRuntime) {
    let alloc = rt.alloc();
    for byte in [0xA5, 0] {
        for before in 0..CALLS[0] {
            let disk = FailingDisk::new(MemDisk::new(alloc));
            let disk = crashed(&rt, alloc, disk, before, byte);
            let mut disk = opened(&rt, alloc, disk);
            disk.crash(u64::MAX, 0, &[byte]);
            for again in 0..CALLS[1] {
                disk = crashed(&rt, alloc, disk, again, byte);
            }
            drop(opened(&rt, alloc, disk));
        }
    }
}
