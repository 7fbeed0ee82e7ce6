//! A disk over real files, in a folder of its own that each test makes anew.

use super::expected::{assert_length, assert_reads, assert_refused, assert_same, write};
use rr_disk::{Area, Disk, FileDisk, OpenedFile};
use rr_types::Refusal;
use std::alloc::AllocGlobal;
use std::fs;
use std::fs::OpenFile;
use std::io::{Read, Seek, Write};
use std::os::unix::fs::FileExt;
use std::process::Abort;
use std::rt::Files;

/// The disk of a folder, which is made where it is missing.
fn opened<F, R>(rt: &R, folder: &str) -> FileDisk<OpenedFile<F>>
where
    F: Read + Write + Seek + FileExt + OpenFile + Drop,
    R: Files<File = F> + AllocGlobal + Abort,
{
    FileDisk::open(rt, folder, true).expect(rt, "an opening")
}

/// Removes what an earlier run left of a folder.
fn clear<R: Files + AllocGlobal>(rt: &R, folder: &str) {
    let _ = fs::remove_dir_all(rt, folder);
}

/// Removes a folder.
fn remove<R: Files + AllocGlobal + Abort>(rt: &R, folder: &str) {
    fs::remove_dir_all(rt, folder).expect(rt, "the folder goes");
}

/// Makes an empty folder.
fn make<R: Files + AllocGlobal + Abort>(rt: &R, folder: &str) {
    fs::create_dir(rt, folder).expect(rt, "a folder");
}

/// Makes a file of these bytes.
fn put<R: Files + AllocGlobal + Abort>(rt: &R, path: &str, bytes: &[u8]) {
    fs::write(rt, path, bytes).expect(rt, "a file");
}

/// Asserts that nothing is there.
fn assert_none<R: Files + AllocGlobal + Abort>(rt: &R, path: &str) {
    assert!(rt; !fs::exists(rt, path).expect(rt, "a look"), "none was made");
}

/// Asserts that a folder isn't opened.
fn assert_closed<R: Files + AllocGlobal + Abort>(rt: &R, folder: &str, make: bool, what: &str)
where
    R::File: FileExt,
{
    let refused = FileDisk::open(rt, folder, make).err();
    assert_eq!(rt; refused, Some(Refusal::Device), "{what}");
}

/// Asserts that a folder isn't opened to read it.
fn assert_unread<R: Files + AllocGlobal + Abort>(rt: &R, folder: &str, what: &str)
where
    R::File: FileExt,
{
    assert!(rt; FileDisk::open_read_only(rt, folder).is_err(), "{what}");
}

#[test]
fn writes_within_its_length(rt: HostRuntime) {
    let folder = "rr_disk_within";
    clear(&rt, folder);
    let mut disk = opened(&rt, folder);
    let written = disk.write_at(Area::First, 1, &[1]);
    assert_refused(&rt, written, "a write past the end");
    assert_length(&rt, &disk, Area::First, 0);
    write(&rt, &mut disk, Area::First, 0, &[1, 2, 3]);
    write(&rt, &mut disk, Area::First, 2, &[4, 5]);
    assert_length(&rt, &disk, Area::First, 4);
    drop(disk);
    let bytes = fs::read(&rt, "rr_disk_within/a0").expect(&rt, "a read");
    assert_same(&rt, &bytes, &[1, 2, 4, 5], "the file of area 0");
    remove(&rt, folder);
}

#[test]
fn reads_what_was_written(rt: HostRuntime) {
    let folder = "rr_disk_read";
    clear(&rt, folder);
    let alloc = rt.alloc();
    let mut disk = opened(&rt, folder);
    write(&rt, &mut disk, Area::First, 0, &[1, 2, 4, 5]);
    disk.sync().expect(&rt, "a sync");
    assert_reads(&rt, alloc, &mut disk, Area::First, (1, 2), &[2, 4]);
    assert_reads(&rt, alloc, &mut disk, Area::First, (3, u64::MAX), &[5]);
    assert_reads(&rt, alloc, &mut disk, Area::First, (9, 2), &[]);
    drop(disk);
    remove(&rt, folder);
}

#[test]
fn finds_what_was_written_again(rt: HostRuntime) {
    let folder = "rr_disk_kept";
    let deep = "rr_disk_kept/a/b";
    clear(&rt, folder);
    let alloc = rt.alloc();
    let mut disk = opened(&rt, deep);
    write(&rt, &mut disk, Area::First, 0, &[1, 2]);
    write(&rt, &mut disk, Area::Second, 0, &[7]);
    drop(disk);
    let mut again = FileDisk::open(&rt, deep, false).expect(&rt, "an opening");
    assert_length(&rt, &again, Area::First, 2);
    assert_reads(&rt, alloc, &mut again, Area::Second, (0, 9), &[7]);
    let mut made = opened(&rt, deep);
    assert_reads(&rt, alloc, &mut made, Area::First, (0, 9), &[1, 2]);
    drop((again, made));
    remove(&rt, folder);
}

#[test]
fn refuses_what_is_no_folder_of_two_files(rt: HostRuntime) {
    let folder = "rr_disk_refused";
    clear(&rt, folder);
    assert_closed(&rt, folder, false, "no folder");
    assert_none(&rt, folder);
    make(&rt, folder);
    assert_closed(&rt, folder, false, "an empty folder");
    put(&rt, "rr_disk_refused/a0", b"x");
    assert_closed(&rt, folder, false, "one file");
    assert_none(&rt, "rr_disk_refused/a1");
    make(&rt, "rr_disk_refused/a1");
    for make in [false, true] {
        assert_closed(&rt, folder, make, "a folder as a file");
        assert_closed(&rt, "rr_disk_refused/a0", make, "a file as a folder");
    }
    remove(&rt, folder);
}

#[test]
fn a_file_that_was_cut_is_a_fault(rt: HostRuntime) {
    let folder = "rr_disk_cut";
    clear(&rt, folder);
    let mut disk = opened(&rt, folder);
    write(&rt, &mut disk, Area::First, 0, &[1, 2, 3]);
    put(&rt, "rr_disk_cut/a0", b"");
    let read = disk.read(rt.alloc(), Area::First, 0, 3);
    assert!(rt; matches!(read, Err(Refusal::Device)));
    drop(disk);
    remove(&rt, folder);
}

#[test]
fn opened_to_read_it_changes_nothing(rt: HostRuntime) {
    let folder = "rr_disk_seen";
    clear(&rt, folder);
    assert_unread(&rt, folder, "no folder");
    assert_none(&rt, folder);
    make(&rt, folder);
    put(&rt, "rr_disk_seen/a0", b"xyz");
    assert_unread(&rt, folder, "one file");
    put(&rt, "rr_disk_seen/a1", b"");
    let mut disk = FileDisk::open_read_only(&rt, folder).expect(&rt, "an opening");
    let written = disk.write_at(Area::Second, 0, &[1]);
    assert_refused(&rt, written, "a write");
    assert_refused(&rt, disk.sync(), "a sync");
    assert_reads(&rt, rt.alloc(), &mut disk, Area::First, (0, 9), b"xyz");
    assert_length(&rt, &disk, Area::Second, 0);
    drop(disk);
    remove(&rt, folder);
}
