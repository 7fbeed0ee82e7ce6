//! What the areas of small disks tell, with values worked out by hand.

use super::expected::{assert_length, write};
use super::samples::{area, behind, changed, cut, snapshot};
use rr_disk::{Area, Disk, FailingDisk, MemDisk};
use rr_frame::Version;
use rr_journal::{AreaReport, inspect, inspect_bytes};
use rr_types::{NodeId, Nodes, Refusal};
use std::alloc::Global;
use std::process::Abort;

/// Area 1 with a snapshot of epoch 2 and two facts, by which instance 0 is in round 1.
const OPEN_INSTANCE: [u8; 77] = [
    0xA5, 0, 0, 0, 0x47, 2, 0, 1, 0, 0, 0, 0, 0, 0, 0, 2, 0, 0, 0, 0, 0, 0, 0, 2, 0, 0, 0, 1, 0, 0,
    0, 0, 2, 0, 0, 0, 1, 0, 0, 0, 0, 0, 0, 0, 7, 0, 0, 0, 0, 0, 0, 0, 1, 1, 1, 0x61, 1, 0x78, 1, 0,
    0, 0, 7, 0, 0, 0, 0, 0, 0, 0, 1, 1, 1, 0x61, 1, 0x78, 0,
];

/// What an area of this epoch tells of node `node` of `nodes`.
fn told(
    rt: &impl Abort,
    epoch: u64,
    node: u8,
    nodes: u8,
    next: u64,
    decided: u64,
) -> Option<AreaReport> {
    let nodes = Nodes::new(nodes).expect(rt, "nodes");
    let node = NodeId::new(nodes, node).expect(rt, "a node");
    Some(AreaReport {
        version: Version::Two,
        epoch,
        node,
        nodes,
        next,
        decided,
    })
}

/// Area 0 behind a second switch: a snapshot of epoch 3 and four facts, over the bytes of `AREA`.
fn second_snapshot(rt: &impl Abort, alloc: Global) -> Vec<u8> {
    let third = changed(rt, alloc, snapshot(), 15, 3);
    [third.as_slice(), behind(area(), third.len())]
        .concat(alloc)
        .expect(rt, "memory")
}

/// Asserts that an inspection says that this area is broken at this offset.
fn assert_broken(rt: &impl Abort, alloc: Global, areas: (&[u8], &[u8]), (area, offset): (u8, u64)) {
    let (first, second) = areas;
    let told = inspect_bytes(alloc, first, second);
    assert_eq!(rt; told, Err(Refusal::Damaged { area, offset }));
}

/// Asserts the same of area 0 of a run with one byte changed, beside these bytes.
fn assert_bent(rt: &impl Abort, alloc: Global, bend: (usize, u8), second: &[u8], offset: u64) {
    let (place, byte) = bend;
    let first = changed(rt, alloc, area(), place, byte);
    assert_broken(rt, alloc, (&first, second), (0, offset));
}

/// Asserts what an inspection tells of these bytes.
fn assert_told(
    rt: &impl Abort,
    alloc: Global,
    first: &[u8],
    second: &[u8],
    wanted: (Option<AreaReport>, Option<AreaReport>),
) {
    let told = inspect_bytes(alloc, first, second).expect(rt, "memory");
    assert_eq!(rt; told, wanted);
}

/// What area 0 of a node alone tells behind four facts, by which it has decided a command.
fn four(rt: &impl Abort) -> Option<AreaReport> {
    told(rt, 1, 0, 1, 4, 1)
}

/// What its front tells, without the facts.
fn none(rt: &impl Abort) -> Option<AreaReport> {
    told(rt, 1, 0, 1, 0, 0)
}

/// What the snapshot behind these facts tells.
fn of_snapshot(rt: &impl Abort) -> Option<AreaReport> {
    told(rt, 2, 0, 1, 4, 1)
}

#[test]
fn tells_of_both_areas(rt: HostRuntime) {
    let alloc = rt.alloc();
    assert_told(&rt, alloc, &[], &[], (None, None));
    assert_told(&rt, alloc, &[0xA5], &[0, 0xA5], (None, None));
    assert_told(&rt, alloc, area(), &[], (four(&rt), None));
    assert_told(&rt, alloc, &[0, 7], area(), (None, four(&rt)));
    assert_told(
        &rt,
        alloc,
        area(),
        snapshot(),
        (none(&rt), of_snapshot(&rt)),
    );
    assert_told(
        &rt,
        alloc,
        snapshot(),
        area(),
        (of_snapshot(&rt), none(&rt)),
    );
    let third = told(&rt, 3, 0, 1, 4, 1);
    assert_told(
        &rt,
        alloc,
        &second_snapshot(&rt, alloc),
        snapshot(),
        (third, of_snapshot(&rt)),
    );
    let open = told(&rt, 2, 0, 1, 2, 0);
    assert_told(&rt, alloc, area(), &OPEN_INSTANCE, (none(&rt), open));
}

/// The same of an area of version 1.
fn in_version_1(told: Option<AreaReport>) -> Option<AreaReport> {
    match told {
        Some(mut told) => {
            told.version = Version::One;
            Some(told)
        }
        None => None,
    }
}

#[test]
fn reads_version_1_within_its_limits(rt: HostRuntime) {
    let alloc = rt.alloc();
    let old = changed(&rt, rt.alloc(), area(), 5, 1);
    let told = in_version_1(four(&rt));
    assert_told(&rt, alloc, &old, &[], (told, None));
    let told = in_version_1(none(&rt));
    assert_told(&rt, alloc, &old, snapshot(), (told, of_snapshot(&rt)));
    assert_bent(&rt, alloc, (5, 3), &[], 0);
    // The first fact enters instance 65,536, which version 2 has, and the second proposes in instance 0.
    assert_bent(&rt, alloc, (45, 1), &[], 73);
    assert_broken(
        &rt,
        alloc,
        (&changed(&rt, alloc, &old, 45, 1), &[]),
        (0, 28),
    );
}

#[test]
fn measures_each_area_by_itself(rt: HostRuntime) {
    let alloc = rt.alloc();
    let other = changed(&rt, alloc, area(), 7, 3);
    let other = changed(&rt, alloc, &other, 6, 1);
    let fact = told(&rt, 1, 1, 3, 0, 0);
    assert_told(&rt, alloc, &other, snapshot(), (fact, of_snapshot(&rt)));
    let cut = changed(&rt, alloc, &other, 73, 0);
    let alone = told(&rt, 1, 1, 3, 1, 0);
    assert_told(&rt, alloc, &cut, &[], (alone, None));
}

#[test]
fn says_where_a_cut_area_is_broken(rt: HostRuntime) {
    let alloc = rt.alloc();
    assert_broken(&rt, alloc, (cut(area(), 155), &[]), (0, 114));
    for length in 156..193 {
        assert_broken(&rt, alloc, (cut(area(), length), &[]), (0, 155));
        assert_broken(&rt, alloc, (&[], cut(area(), length)), (1, 155));
    }
    assert_broken(&rt, alloc, (area(), cut(snapshot(), 50)), (1, 0));
    // Two areas of one epoch.
    assert_broken(&rt, alloc, (area(), area()), (1, 0));
}

#[test]
fn says_where_a_bent_area_is_broken(rt: HostRuntime) {
    let alloc = rt.alloc();
    for bend in [(159, 33), (167, 4), (170, 5)] {
        assert_bent(&rt, alloc, bend, &[], 155);
    }
    assert_bent(&rt, alloc, (6, 2), &[], 0);
    assert_bent(&rt, alloc, (6, 2), snapshot(), 0);
}

/// Asserts what an inspection tells of area 0 of a run with one byte changed, alone.
fn assert_bent_told(rt: &impl Abort, alloc: Global, bend: (usize, u8), wanted: Option<AreaReport>) {
    let (place, byte) = bend;
    let first = changed(rt, alloc, area(), place, byte);
    assert_told(rt, alloc, &first, &[], (wanted, None));
}

#[test]
fn reads_up_to_a_closed_gate(rt: HostRuntime) {
    let alloc = rt.alloc();
    assert_bent_told(&rt, alloc, (155, 0), told(&rt, 1, 0, 1, 3, 0));
    assert_bent_told(&rt, alloc, (28, 0xA4), none(&rt));
    assert_bent_told(&rt, alloc, (0, 0), None);
}

#[test]
fn passes_over_later_frames_of_the_other_area(rt: HostRuntime) {
    let alloc = rt.alloc();
    for length in 29..193 {
        let wanted = (none(&rt), of_snapshot(&rt));
        assert_told(&rt, alloc, cut(area(), length), snapshot(), wanted);
    }
    assert_broken(&rt, alloc, (cut(area(), 28), snapshot()), (0, 0));
}

/// Asserts what an inspection tells of a disk.
fn assert_disk_told<D: Disk>(rt: &impl Abort, alloc: Global, disk: &mut D) {
    let seen = (told(rt, 1, 0, 1, 0, 0), told(rt, 2, 0, 1, 4, 1));
    assert_eq!(rt; inspect(alloc, disk).expect(rt, "memory"), seen);
}

#[test]
fn only_reads_a_disk(rt: HostRuntime) {
    let alloc = rt.alloc();
    let mut disk = FailingDisk::new(MemDisk::new(alloc));
    write(&rt, &mut disk, Area::First, 0, area());
    write(&rt, &mut disk, Area::Second, 0, snapshot());
    assert_disk_told(&rt, alloc, &mut disk);
    assert_length(&rt, &disk, Area::First, 193);
    assert_length(&rt, &disk, Area::Second, 51);
    disk.fail_next(Vec::new(alloc));
    assert!(rt; inspect(alloc, &mut disk) == Err(Refusal::Device));
    assert_disk_told(&rt, alloc, &mut disk);
}
