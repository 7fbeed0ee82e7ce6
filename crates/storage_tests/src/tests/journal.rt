//! Openings of areas and of disks, with each answer by hand.

ghost use Rattle.std.specs.Prelude.{◌<◌};

use super::expected::{all, alone, assert_front, assert_length, assert_numbers, assert_same};
use super::samples::{area, behind, changed, cut, put_at, snapshot};
use rr_disk::{Area, Disk, FailingDisk, MemDisk};
use rr_frame::{Version, decode_group};
use rr_journal::{Image, Journal, Opening, Progress, read_image};
use rr_types::{
    Command, Estimate, Fact, Group, Instance, Name, NodeId, Nodes, Op, Promise, Refusal, RequestNo,
    Round, Value,
};
use std::alloc::Global;
use std::process::Abort;

/// What two areas mean to node 0 of 1.
pub fn opened(alloc: Global, first: &[u8], second: &[u8]) -> Result<Image, Refusal> {
    let nodes = Nodes::new(1)?;
    let node = NodeId::new(nodes, 0).ok_or(Refusal::BadNodes)?;
    read_image(alloc, nodes, node, first, second)
}

/// The number of facts and the place of the last gate of area 0, where it is active.
fn facts(alloc: Global, first: &[u8]) -> Option<(u64, u64)> {
    match opened(alloc, first, &[]) {
        Ok(Image::Active(Area::First, content)) => Some((content.next(), content.gate())),
        _ => None,
    }
}

fn is_damaged(alloc: Global, first: &[u8], offset: u64) -> bool {
    match opened(alloc, first, &[]) {
        Err(
            Refusal::Damaged {
                area,
                offset: found,
            },
        ) => area == 0 && found == offset,
        _ => false,
    }
}

/// Asserts that area 0 is damaged at this offset.
fn assert_damaged(rt: &impl Abort, alloc: Global, first: &[u8], offset: u64) {
    assert!(rt;
        is_damaged(alloc, first, offset),
        "an area without damage at {offset}"
    );
}

/// Asserts that area 0 is active, with this number of facts and this place of its last gate.
fn assert_facts(rt: &impl Abort, alloc: Global, first: &[u8], wanted: (u64, u64)) {
    assert_eq!(rt; facts(alloc, first), Some(wanted));
}

#[test]
fn areas_cut_short(rt: HostRuntime) {
    assert_facts(&rt, rt.alloc(), area(), (4, 192));
    assert_damaged(&rt, rt.alloc(), cut(area(), 155), 114);
    for length in 156..193 {
        assert_damaged(&rt, rt.alloc(), cut(area(), length), 155);
    }
}

#[test]
fn areas_with_one_byte_damaged(rt: HostRuntime) {
    let alloc = rt.alloc();
    for (place, value, offset) in [
        (159, 33, 155),
        (167, 4, 155),
        (170, 5, 155),
        (6, 2, 0),
        (5, 3, 0),
    ] {
        let bytes = changed(&rt, alloc, area(), place, value);
        assert_damaged(&rt, alloc, &bytes, offset);
    }
}

#[test]
fn areas_with_one_gate_closed(rt: HostRuntime) {
    let alloc = rt.alloc();
    let bytes = changed(&rt, alloc, area(), 28, 0xA4);
    assert_facts(&rt, alloc, &bytes, (0, 28));
    let bytes = changed(&rt, alloc, area(), 0, 0);
    assert!(rt; matches!(opened(alloc, &bytes, &[]), Ok(Image::Unformatted)));
    let bytes = changed(&rt, alloc, area(), 155, 0);
    for length in 156..194 {
        assert_facts(&rt, alloc, cut(&bytes, length), (3, 155));
    }
}

/// Whether two areas are broken at the first byte of one of them.
fn is_broken(alloc: Global, first: &[u8], second: &[u8], broken: u8) -> bool {
    match opened(alloc, first, second) {
        Err(Refusal::Damaged { area, offset: 0 }) => area == broken,
        _ => false,
    }
}

/// Asserts that two areas are broken at the first byte of this one.
fn assert_broken(rt: &impl Abort, alloc: Global, first: &[u8], second: &[u8], broken: u8) {
    assert!(rt;
        is_broken(alloc, first, second, broken),
        "area {broken} isn't broken"
    );
}

/// Asserts that area 1 is active, with epoch 2.
fn assert_second(rt: &impl Abort, alloc: Global, first: &[u8], second: &[u8]) {
    match opened(alloc, first, second) {
        Ok(Image::Active(Area::Second, content)) => assert_eq!(rt; content.epoch(), 2),
        _ => assert!(rt; false, "area 1 isn't active"),
    }
}

/// Two formatted areas of one epoch; an area of a later epoch, of which the other's first frame alone counts.
#[test]
fn two_areas(rt: HostRuntime) {
    let alloc = rt.alloc();
    assert_broken(&rt, alloc, area(), area(), 1);
    let later = changed(&rt, alloc, area(), 15, 2);
    assert_second(&rt, alloc, cut(area(), 100), &later);
    // The other area may be of version 1.
    let old = changed(&rt, alloc, area(), 5, 1);
    assert_second(&rt, alloc, &old, &later);
    let other = changed(&rt, alloc, &later, 6, 1);
    assert_broken(&rt, alloc, area(), &other, 1);
    assert_broken(&rt, alloc, &other, &other, 0);
}

/// Asserts that an area of version 1 is active, with epoch 1 and four facts.
fn assert_outdated(rt: &impl Abort, alloc: Global, first: &[u8], second: &[u8], active: Area) {
    match opened(alloc, first, second) {
        Ok(Image::Outdated(area, content)) => {
            assert!(rt; area == active, "the other area is active");
            assert_eq!(rt;
                (content.epoch(), content.next(), content.gate()),
                (1, 4, 192)
            );
        }
        _ => assert!(rt; false, "another image"),
    }
}

/// An active area of version 1 is read within its own limits, and told from one of version 2.
#[test]
fn areas_of_version_1(rt: HostRuntime) {
    let alloc = rt.alloc();
    let old = changed(&rt, alloc, area(), 5, 1);
    assert_outdated(&rt, alloc, &old, &[], Area::First);
    assert_outdated(&rt, alloc, &[0], &old, Area::Second);
    assert_damaged(&rt, alloc, cut(&old, 191), 155);
    // Version 2 alone has instance 65,536.
    let far = changed(&rt, alloc, area(), 45, 1);
    assert_damaged(&rt, alloc, &far, 73);
    let far = changed(&rt, alloc, &far, 5, 1);
    assert_damaged(&rt, alloc, &far, 28);
}

/// A group of one fact, the first of `AREA`: the node enters round 1 of instance 0 with `7.1 claim a x`.
fn entered(rt: &impl Abort, alloc: Global) -> Group {
    decode_group(alloc, Version::Two, behind(cut(area(), 73), 33)).expect(rt, "a group")
}

/// The disk behind a flush of that group over an empty one, which opens with no facts.
fn flushed(rt: &impl Abort, alloc: Global, nodes: Nodes, node: NodeId) -> MemDisk
    requires { node < nodes }
{
    let opening = Journal::open(alloc, nodes, node, MemDisk::new(alloc));
    let (mut journal, opened) = opening.expect(rt, "an opening");
    assert_eq!(rt;
        (
            journal.facts(),
            opened.next(),
            opened.promise().entries().len()
        ),
        (0, 0, 0)
    );
    let begun = journal.begin(alloc, entered(rt, alloc));
    let job = begun.expect(rt, "a flush");
    let job = job.step(&mut journal).expect(rt, "a write");
    let job = job.step(&mut journal).expect(rt, "a sync");
    let job = job.step(&mut journal).expect(rt, "a write");
    let synced = job.step(&mut journal).expect(rt, "a sync");
    assert_eq!(rt; (synced.into_group().serial(), journal.facts()), (0, 1));
    journal.into_disk()
}

/// Asserts that a promise is to be in round 1 of instance 0, with stamp 0.
fn assert_entered(rt: &impl Abort, promise: &Promise) {
    match promise.entries() {
        [entry] => match entry.open() {
            Some(open) => {
                assert_eq!(rt;
                    (entry.instance.number(), open.round().number(), open.stamp()),
                    (0, 1, 0)
                );
            }
            None => rt.panic("a decision"),
        },
        _ => assert!(rt; false, "another promise"),
    }
}

/// A fact that a flush wrote is there when the disk is opened again.
#[test]
fn a_disk_is_opened_twice(rt: HostRuntime) {
    let alloc = rt.alloc();
    let (nodes, node) = alone(&rt);
    let disk = flushed(&rt, alloc, nodes, node);
    let (journal, opened) = Journal::open(alloc, nodes, node, disk).expect(&rt, "an opening");
    assert_numbers(&rt, (journal.facts(), opened.next()), (1, 1), "facts");
    assert_eq!(rt; (opened.nodes().count(), opened.node().index()), (1, 0));
    assert_entered(&rt, opened.promise());
    // The frames of `AREA` up to its first group, and a closed gate behind it.
    assert_front(&rt, alloc, &mut journal.into_disk(), cut(area(), 73));
}

/// The opening behind a device call that isn't its last.
pub fn more<D: Disk + Drop>(rt: &impl Abort, alloc: Global, opening: Opening<D>) -> Opening<D>
    requires { opening.node < opening.nodes }
    ensures { result.node < result.nodes }
{
    match opening.step(alloc) {
        Ok(Progress::More(next)) => next,
        Ok(Progress::Done(_, _)) => rt.panic("a call more"),
        Err((_, _)) => rt.panic("a call without a fault"),
    }
}

/// The empty disk that an opening hands back, as its first sync failed.
fn handed_back(rt: &impl Abort, alloc: Global, nodes: Nodes, node: NodeId) -> FailingDisk<MemDisk>
    requires { node < nodes }
{
    let mut disk = FailingDisk::new(MemDisk::new(alloc));
    disk.fail_next(Vec::new(alloc));
    match Journal::open(alloc, nodes, node, disk) {
        Err((Refusal::Device, disk)) => disk,
        _ => rt.panic("an opening whose sync failed"),
    }
}

/// A refused opening hands the disk back, which can be opened then: an empty one by nine device calls.
#[test]
fn a_refused_opening_is_repeated(rt: HostRuntime) {
    let alloc = rt.alloc();
    let (nodes, node) = alone(&rt);
    let disk = handed_back(&rt, alloc, nodes, node);
    assert_length(&rt, disk.below(), Area::First, 0);
    let opening = after(&rt, alloc, Opening::start(nodes, node, disk), 8);
    let (journal, opened) = opening.finish(alloc).expect(&rt, "an opening");
    assert_eq!(rt; (opened.next(), opened.promise().entries().len()), (0, 0));
    assert_front(&rt, alloc, &mut journal.into_disk(), cut(area(), 28));
}

/// The disk of node 0 of 1 with `AREA` in version 1, and these bytes beside it.
fn old_disk(rt: &impl Abort, alloc: Global, second: &[u8]) -> MemDisk {
    let first = changed(rt, alloc, area(), 5, 1);
    MemDisk::with_areas(alloc, &first, second).expect(rt, "memory")
}

/// Asserts that a disk holds the four facts in both areas: in version 1, and behind the snapshot of version 2.
fn assert_migrated(rt: &impl Abort, alloc: Global, disk: MemDisk) {
    let mut disk = disk;
    let first = all(rt, alloc, &mut disk, Area::First);
    assert_same(rt, &first, &changed(rt, alloc, area(), 5, 1), "area 0");
    let second = all(rt, alloc, &mut disk, Area::Second);
    assert_same(rt, cut(&second, 51), snapshot(), "area 1");
}

/// The disk behind an opening of this one whose last device call comes behind `before` others, with four facts in epoch 2.
fn of_four(rt: &impl Abort, alloc: Global, disk: MemDisk, before: usize) -> MemDisk {
    let (nodes, node) = alone(rt);
    let opening = Opening::start(nodes, node, disk);
    let journal = last(rt, alloc, after(rt, alloc, opening, before));
    let found = (journal.facts(), journal.epoch());
    assert_numbers(rt, found, (4, 2), "facts and epoch");
    assert!(rt; matches!(journal.area(), Area::Second), "area 0");
    journal.into_disk()
}

/// An opening of such a disk ends with its last device call, and the disk is opened again by three.
fn migrates(rt: &impl Abort, alloc: Global, second: &[u8], before: usize) {
    let disk = of_four(rt, alloc, old_disk(rt, alloc, second), before);
    assert_migrated(rt, alloc, of_four(rt, alloc, disk, 2));
}

/// The opening after `calls` more device calls, none of which is its last.
pub fn after<D: Disk + Drop>(
    rt: &impl Abort,
    alloc: Global,
    opening: Opening<D>,
    calls: usize,
) -> Opening<D>
    requires { opening.node < opening.nodes }
    ensures { result.node < result.nodes }
{
    let mut opening = opening;
    for _ in 0..calls {
        opening = more(rt, alloc, opening);
    }
    opening
}

/// The journal behind the last device call of an opening.
fn last<D: Disk + Drop>(rt: &impl Abort, alloc: Global, opening: Opening<D>) -> Journal<D>
    requires { opening.node < opening.nodes }
{
    match opening.step(alloc) {
        Ok(Progress::Done(journal, opened)) => {
            assert_eq!(rt; (opened.next(), opened.promise().entries().len()), (4, 1));
            journal
        }
        Ok(Progress::More(_)) => rt.panic("a call less"),
        Err((_, _)) => rt.panic("a call without a fault"),
    }
}

/// By three device calls and four where the other area begins with a closed gate; else by three and six.
#[test]
fn a_disk_of_version_1_is_migrated(rt: HostRuntime) {
    let alloc = rt.alloc();
    migrates(&rt, alloc, &[], 8);
    migrates(&rt, alloc, &[0xA5], 8);
    migrates(&rt, alloc, &[0], 6);
    migrates(&rt, alloc, &[0; 200], 6);
}

/// The disk of version 1 behind an opening whose call behind `before` others failed.
fn failed(rt: &impl Abort, alloc: Global, before: usize) -> FailingDisk<MemDisk> {
    let (nodes, node) = alone(rt);
    let disk = FailingDisk::new(old_disk(rt, alloc, &[]));
    let opening = after(rt, alloc, Opening::start(nodes, node, disk), before);
    opening.fail(alloc, [0xA5].to_vec(alloc).expect(rt, "memory"))
}

/// Where a call of it fails, whatever that leaves, the next opening finds the same facts.
#[test]
fn a_migration_is_repeated(rt: HostRuntime) {
    let alloc = rt.alloc();
    for before in 0..9 {
        let (nodes, node) = alone(&rt);
        let disk = failed(&rt, alloc, before);
        let (journal, opened) = Journal::open(alloc, nodes, node, disk).expect(&rt, "an opening");
        let found = (journal.facts(), journal.epoch());
        assert_numbers(&rt, found, (4, 2), "facts and epoch");
        let entries = opened.promise().entries().len() as u64;
        assert_numbers(&rt, (opened.next(), entries), (4, 1), "the promise");
    }
}

/// `AREA` in version 1 and in the last epoch.
fn of_last_epoch(rt: &impl Abort, alloc: Global) -> Vec<u8> {
    let mut first = changed(rt, alloc, area(), 5, 1);
    for place in 8..16 {
        put_at(&mut first, place, 0xFF);
    }
    first
}

/// Without a next epoch it is refused, and nothing is written.
#[test]
fn the_last_epoch_has_no_migration(rt: HostRuntime) {
    let alloc = rt.alloc();
    let (nodes, node) = alone(&rt);
    let first = of_last_epoch(&rt, alloc);
    let disk = MemDisk::with_areas(alloc, &first, &[]).expect(&rt, "memory");
    match Journal::open(alloc, nodes, node, disk) {
        Err((Refusal::TooLarge, disk)) => {
            let mut disk = disk;
            let bytes = all(&rt, alloc, &mut disk, Area::First);
            assert_same(&rt, &bytes, &first, "area 0");
            assert_length(&rt, &disk, Area::Second, 0);
        }
        _ => rt.panic("a migration without an epoch"),
    }
}
