//! Switches from one area to the other, and back.

ghost use Rattle.rr_frame.specs.Snapshots.{IsSnapshot};
ghost use Rattle.rr_journal.specs.Switches.{snapshot_of};

use super::expected::{alone, assert_reads};
use rr_disk::{Area, MemDisk};
use rr_journal::{Journal, SwitchJob, Switching};
use rr_types::Promise;
use std::alloc::Global;
use std::process::Abort;

fn opened(rt: &impl Abort, alloc: Global, disk: MemDisk) -> (Journal<MemDisk>, Promise)
    ensures { IsSnapshot (snapshot_of result.0 result.1) }
{
    let (nodes, node) = alone(rt);
    let (slots, opened) = Journal::open(alloc, nodes, node, disk).expect(rt, "an opening");
    (slots, opened.into_promise())
}

fn made(rt: &impl Abort, job: SwitchJob, slots: &mut Journal<MemDisk>) -> SwitchJob {
    match job.step(slots).expect(rt, "a call") {
        Switching::More(job) => job,
        Switching::Done => rt.panic("a call less"),
    }
}

fn ended(rt: &impl Abort, job: SwitchJob, slots: &mut Journal<MemDisk>) {
    match job.step(slots).expect(rt, "a call") {
        Switching::More(job) => {
            job.abandon();
            assert!(rt; false, "a call more");
        }
        Switching::Done => (),
    }
}

fn switched(rt: &impl Abort, alloc: Global, slots: &mut Journal<MemDisk>, promise: Promise)
    requires { IsSnapshot (snapshot_of slots.old promise) }
{
    let job = slots.begin_snapshot(alloc, promise).expect(rt, "a switch");
    let job = made(rt, job, slots);
    let job = made(rt, job, slots);
    let job = made(rt, job, slots);
    let job = made(rt, job, slots);
    let job = made(rt, job, slots);
    ended(rt, job, slots)
}

/// The disk behind a switch from one of its areas to the other.
fn switched_over(rt: &impl Abort, alloc: Global, disk: MemDisk, from: Area, to: Area) -> MemDisk {
    let (mut slots, promise) = opened(rt, alloc, disk);
    assert!(rt; slots.area() == from);
    switched(rt, alloc, &mut slots, promise);
    assert!(rt; slots.area() == to);
    slots.into_disk()
}

#[test]
fn a_switch_takes_six_calls(rt: HostRuntime) {
    let alloc = rt.alloc();
    let disk = MemDisk::new(alloc);
    let disk = switched_over(&rt, alloc, disk, Area::First, Area::Second);
    let mut disk = switched_over(&rt, alloc, disk, Area::Second, Area::First);
    // The epochs.
    assert_reads(
        &rt,
        alloc,
        &mut disk,
        Area::First,
        8,
        &[0, 0, 0, 0, 0, 0, 0, 3],
    );
    assert_reads(
        &rt,
        alloc,
        &mut disk,
        Area::Second,
        8,
        &[0, 0, 0, 0, 0, 0, 0, 2],
    );
}
