//! What `rr show` and `rr migrate` tell of disks that fail, and of a file that may not be read.

use rr_cli::{execute, migrate_disk, show_disk};
use rr_disk::{Area, Disk, FailingDisk, MemDisk};
use rr_run::{Lockable, MarkWriter};
use rr_stream::{Counted, HostFiles};
use rr_types::{NodeId, Nodes, Refusal};
use std::alloc::Global;
use std::fs;
use std::fs::Permissions;
use std::os::unix::fs::{FileExt, PermissionsExt};
use std::process::Abort;
use std::rt::Files;

/// An area of a node alone before its first fact.
static FORMATTED: [u8; 29] = [
    0xA5, 0, 0, 0, 0x17, 2, 0, 1, 0, 0, 0, 0, 0, 0, 0, 1, 0, 0, 0, 0, 0, 0, 0, 0, 0, 0, 0, 0, 0,
];

/// The other area behind a switch: a snapshot with epoch 2 behind four facts, by which the node decided one command.
static SNAPSHOT: [u8; 51] = [
    0xA5, 0, 0, 0, 0x2D, 2, 0, 1, 0, 0, 0, 0, 0, 0, 0, 2, 0, 0, 0, 0, 0, 0, 0, 4, 0, 0, 0, 1, 0, 0,
    0, 0, 1, 0, 0, 0, 7, 0, 0, 0, 0, 0, 0, 0, 1, 1, 1, 0x61, 1, 0x78, 0,
];

/// The bytes of the area before its first fact. (A test that names a table itself is proved over each of its bytes.)
fn formatted() -> &'static [u8] {
    &FORMATTED
}

/// The bytes of the area behind the switch.
fn snapshot() -> &'static [u8] {
    &SNAPSHOT
}

/// A disk in memory, with the bytes of `snapshot()` in the area `place`.
fn disk(rt: &impl Abort, alloc: Global, place: Area) -> FailingDisk<MemDisk> {
    let mut disk = FailingDisk::new(MemDisk::new(alloc));
    disk.write_at(place, 0, snapshot()).expect(rt, "a write");
    disk
}

#[test]
fn tells_disks_of_any_kind(rt: HostRuntime) {
    let mut disk = disk(&rt, rt.alloc(), Area::Second);
    let text = "area 0 unformatted\narea 1 epoch 2 node 0 of 1 facts 4 decided 1\n";
    let shown = show_disk(rt.alloc(), &mut disk).expect(&rt, "a text");
    assert!(rt; shown.as_slice() == text.as_bytes());
    disk.fail_next(Vec::new(rt.alloc()));
    assert!(rt; matches!(show_disk(rt.alloc(), &mut disk), Err(Refusal::Device)));
}

/// What `rr migrate` tells of the disk of a node alone, and the disk behind it.
fn migrated(
    rt: &impl Abort,
    alloc: Global,
    disk: FailingDisk<MemDisk>,
) -> Result<(Vec<u8>, FailingDisk<MemDisk>), Refusal> {
    let nodes = Nodes::new(1).expect(rt, "nodes");
    let node = NodeId::new(nodes, 0).expect(rt, "a node");
    migrate_disk(alloc, nodes, node, disk)
}

#[test]
fn migrates_disks_of_any_kind(rt: HostRuntime) {
    let text = "area 0 epoch 2 node 0 of 1 facts 4 decided 1\narea 1 unformatted\n";
    let migrated_disk = migrated(&rt, rt.alloc(), disk(&rt, rt.alloc(), Area::First));
    let (told, behind) = migrated_disk.expect(&rt, "a text");
    assert!(rt; told.as_slice() == text.as_bytes());
    assert_eq!(rt; behind.len(Area::First), snapshot().len() as u64);
    let mut failing = FailingDisk::new(MemDisk::new(rt.alloc()));
    failing.fail_next(Vec::new(rt.alloc()));
    assert!(rt; matches!(migrated(&rt, rt.alloc(), failing), Err(Refusal::Device)));
}

/// Asserts that `rr show` tells a folder as a fault of the device.
fn assert_device<R: Files + AllocGlobal + MarkWriter + Abort>(rt: &R, folder: &str)
where
    R::File: FileExt + Lockable,
{
    let mut out = Counted::new(Vec::new(rt.alloc()));
    let mut err = Vec::new(rt.alloc());
    let words = ["rr", "show", folder];
    let status = execute(
        rt,
        &words,
        &mut HostFiles::new(rt),
        &mut Counted::new(&b""[..]),
        &mut out,
        &mut err,
    );
    assert_eq!(rt; status, 5);
    assert!(rt; err.as_slice().starts_with(b"rr: 2 Device\n"));
    assert!(rt; out.into_inner().is_empty());
}

/// Makes a folder of two areas, the first of which may not be read.
fn make_unreadable<R: Files + AllocGlobal + Abort>(rt: &R, folder: &str) {
    let _ = fs::remove_dir_all(rt, folder);
    fs::create_dir(rt, folder).expect(rt, "a folder");
    fs::write(rt, "rr_cli_not_readable/a0", formatted()).expect(rt, "a file");
    fs::write(rt, "rr_cli_not_readable/a1", snapshot()).expect(rt, "a file");
    fs::set_permissions(rt, "rr_cli_not_readable/a0", Permissions::from_mode(0)).expect(
        rt,
        "a permission",
    );
}

/// A file that may not be read is a fault of the device. A user who may read any file sees nothing of that.
#[test]
fn tells_a_file_that_may_not_be_read(rt: HostRuntime) {
    let folder = "rr_cli_not_readable";
    make_unreadable(&rt, folder);
    if fs::read(&rt, "rr_cli_not_readable/a0").is_err() {
        assert_device(&rt, folder);
    }
    fs::remove_dir_all(&rt, folder).expect(&rt, "the folder goes");
}
