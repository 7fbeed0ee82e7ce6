//! What the tests expect, each in a function of its own: a call costs the proof of a test far less than an assertion in it.

use rr_disk::{Area, Disk};
use rr_types::Refusal;
use std::alloc::Global;
use std::fmt::Debug;
use std::process::Abort;

/// Asserts that two slices are the same, and tells both where they are not.
pub fn assert_same<T: PartialEq + Debug>(rt: &impl Abort, found: &[T], wanted: &[T], what: &str) {
    assert_eq!(rt; found, wanted, "{what}");
}

/// Asserts that a call was refused, as a device call that failed.
pub fn assert_refused(rt: &impl Abort, found: Result<(), Refusal>, what: &str) {
    assert_eq!(rt; found, Err(Refusal::Device), "{what}");
}

/// Writes these bytes to an area.
pub fn write<D: Disk>(rt: &impl Abort, disk: &mut D, area: Area, at: u64, bytes: &[u8]) {
    disk.write_at(area, at, bytes).expect(rt, "a write");
}

/// Asserts that a read of an area at an offset gives these bytes.
pub fn assert_reads<D: Disk>(
    rt: &impl Abort,
    alloc: Global,
    disk: &mut D,
    area: Area,
    (at, count): (u64, u64),
    wanted: &[u8],
) {
    let bytes = disk.read(alloc, area, at, count).expect(rt, "a read");
    assert_same(rt, &bytes, wanted, "what a read gives");
}

/// Asserts that an area has so many bytes.
pub fn assert_length<D: Disk>(rt: &impl Abort, disk: &D, area: Area, wanted: u64) {
    assert_eq!(rt; disk.len(area), wanted, "the length of an area");
}
