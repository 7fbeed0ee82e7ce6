//! Small disks, with values worked out by hand.

use super::expected::{all, assert_device, assert_length, assert_reads, assert_same, write};
use rr_disk::{Area, Disk, FailingDisk, MemDisk};

#[test]
fn a_crash_fills_loose_bytes_in_turn(rt: HostRuntime) {
    let alloc = rt.alloc();
    let mut disk = MemDisk::new(alloc);
    write(&rt, &mut disk, Area::First, 0, &[1, 2, 3]);
    disk.sync().expect(&rt, "a sync");
    write(&rt, &mut disk, Area::First, 1, &[8, 9]);
    write(&rt, &mut disk, Area::Second, 0, &[7, 7]);
    let back = disk.read(alloc, Area::First, 1, 9).expect(&rt, "a read");
    assert_same(&rt, &back, &[8, 9], "the back of area 0");
    disk.crash(2, 1, &[0xA5, 0x5A]);
    assert_length(&rt, &disk, Area::First, 3);
    let first = all(&rt, alloc, &mut disk, Area::First);
    assert_same(&rt, &first, &[1, 0xA5, 0x5A], "area 0");
    let second = all(&rt, alloc, &mut disk, Area::Second);
    assert_same(&rt, &second, &[0xA5], "area 1");
    let written = disk.write_at(Area::Second, 2, &[1]);
    assert_device(&rt, written, "a write past the end");
}

#[test]
fn a_failing_write_leaves_its_fill(rt: HostRuntime) {
    let alloc = rt.alloc();
    let mut disk = FailingDisk::new(MemDisk::new(alloc));
    write(&rt, &mut disk, Area::First, 0, &[1, 2]);
    disk.fail_next([0xAA, 0xBB].to_vec(alloc).expect(&rt, "memory"));
    let written = disk.write_at(Area::First, 1, &[3, 4, 5]);
    assert_device(&rt, written, "a failing write");
    let first = all(&rt, alloc, &mut disk, Area::First);
    assert_same(&rt, &first, &[1, 0xAA, 0xBB, 0xAA], "area 0");
    disk.fail_next(Vec::new(alloc));
    assert_device(&rt, disk.sync(), "a failing sync");
    disk.fail_next(Vec::new(alloc));
    let written = disk.write_at(Area::First, 0, &[6]);
    assert_device(&rt, written, "a failing write");
    let mut below = disk.into_below();
    assert_reads(&rt, alloc, &mut below, Area::First, 0, &[6]);
}
