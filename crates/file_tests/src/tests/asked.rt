//! What a disk of files asks of them, and what a power cut leaves after a sync that failed. What is expected
//! follows from the rules: a sync asks nothing of a file in which nothing was written. After an opening or a
//! failure it writes both files back.

use super::expected::{assert_refused, assert_same, write};
use super::recorded::Asked::{Read, Sync, Write};
use super::recorded::{Asked, Recorded};
use rr_disk::{Area, Disk, FileDisk};
use std::alloc::Global;
use std::process::Abort;

type Fresh = FileDisk<Recorded>;

/// A disk of two empty files. The first sync of the second one may fail.
fn disk(rt: &impl Abort, alloc: Global, fails: bool) -> Fresh {
    FileDisk::over(Recorded::new(alloc, false), Recorded::new(alloc, fails)).expect(rt, "a disk")
}

/// The files of a disk were asked this.
fn assert_asked(rt: &impl Abort, disk: Fresh, first: &[Asked], second: &[Asked]) {
    let (one, other) = disk.into_files();
    assert_same(rt, one.asked(), first, "asked of area 0");
    assert_same(rt, other.asked(), second, "asked of area 1");
}

/// A power cut leaves these bytes of the files of a disk.
fn assert_firm(rt: &impl Abort, disk: Fresh, first: &[u8], second: &[u8]) {
    let (one, other) = disk.into_files();
    assert_same(rt, one.firm(), first, "left of area 0");
    assert_same(rt, other.firm(), second, "left of area 1");
}

#[test]
fn a_sync_asks_what_is_needed(rt: HostRuntime) {
    let mut disk = disk(&rt, rt.alloc(), false);
    write(&rt, &mut disk, Area::First, 0, &[1, 2, 3]);
    write(&rt, &mut disk, Area::First, 1, &[4]);
    // The first sync writes both files back, and the second has nothing.
    disk.sync().expect(&rt, "a sync");
    // Nothing was written.
    disk.sync().expect(&rt, "a sync");
    write(&rt, &mut disk, Area::Second, 0, &[5]);
    disk.sync().expect(&rt, "a sync");
    let first = [Write(0, 3), Write(1, 1), Read(0, 3), Write(0, 3), Sync];
    assert_asked(&rt, disk, &first, &[Sync, Write(0, 1), Sync]);
}

#[test]
fn a_sync_behind_a_failure_writes_back(rt: HostRuntime) {
    let mut disk = disk(&rt, rt.alloc(), true);
    write(&rt, &mut disk, Area::First, 0, &[1, 2, 3]);
    write(&rt, &mut disk, Area::Second, 0, &[4, 5]);
    assert_refused(&rt, disk.sync(), "a sync that fails");
    disk.sync().expect(&rt, "a sync");
    assert_firm(&rt, disk, &[1, 2, 3], &[4, 5]);
}

/// A disk whose area 0 has these bytes, behind a sync.
fn synced(rt: &impl Abort, alloc: Global, bytes: &[u8]) -> Fresh {
    let mut disk = disk(rt, alloc, false);
    write(rt, &mut disk, Area::First, 0, bytes);
    disk.sync().expect(rt, "a sync");
    disk
}

#[test]
fn a_large_file_is_written_back_by_blocks(rt: HostRuntime) {
    let bytes = [7u8; 16385];
    let wanted = [
        Write(0, 16385),
        Read(0, 16384),
        Write(0, 16384),
        Read(16384, 1),
        Write(16384, 1),
        Sync,
    ];
    assert_asked(&rt, synced(&rt, rt.alloc(), &bytes), &wanted, &[Sync]);
    assert_firm(&rt, synced(&rt, rt.alloc(), &bytes), &bytes, &[]);
}

#[test]
fn a_write_past_the_end_asks_nothing(rt: HostRuntime) {
    let mut disk = disk(&rt, rt.alloc(), false);
    let written = disk.write_at(Area::Second, 1, &[1]);
    assert_refused(&rt, written, "a write past the end");
    assert_asked(&rt, disk, &[], &[]);
}
