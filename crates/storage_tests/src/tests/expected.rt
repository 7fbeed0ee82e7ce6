//! What the tests expect, each in a function of its own: a call costs the proof of a test far less than an assertion in it.

ghost use Rattle.std.specs.Prelude.{◌<◌};

use super::samples::{behind, cut};
use rr_disk::{Area, Disk};
use rr_types::{NodeId, Nodes, Refusal};
use std::alloc::Global;
use std::process::Abort;

/// One node, and how many there are.
pub fn alone(rt: &impl Abort) -> (Nodes, NodeId)
    ensures { result.1 < result.0 }
{
    let nodes = Nodes::new(1).expect(rt, "nodes");
    let node = NodeId::new(nodes, 0).expect(rt, "a node");
    (nodes, node)
}

/// Asserts that bytes are these, and tells both where they are not.
pub fn assert_same(rt: &impl Abort, found: &[u8], wanted: &[u8], what: &str) {
    assert_eq!(rt; found, wanted, "{what}");
}

/// Asserts that numbers are these.
pub fn assert_numbers(rt: &impl Abort, found: (u64, u64), wanted: (u64, u64), what: &str) {
    assert_eq!(rt; found, wanted, "{what}");
}

/// Asserts that a call was refused, as a device call that failed.
pub fn assert_device(rt: &impl Abort, found: Result<(), Refusal>, what: &str) {
    assert_eq!(rt; found, Err(Refusal::Device), "{what}");
}

/// Writes these bytes to an area.
pub fn write<D: Disk>(rt: &impl Abort, disk: &mut D, area: Area, at: u64, bytes: &[u8]) {
    disk.write_at(area, at, bytes).expect(rt, "a write");
}

/// All bytes of an area.
pub fn all<D: Disk>(rt: &impl Abort, alloc: Global, disk: &mut D, area: Area) -> Vec<u8> {
    disk.read(alloc, area, 0, u64::MAX).expect(rt, "a read")
}

/// Asserts that a read of an area from an offset on gives these bytes.
pub fn assert_reads<D: Disk>(
    rt: &impl Abort,
    alloc: Global,
    disk: &mut D,
    area: Area,
    at: u64,
    wanted: &[u8],
) {
    let bytes = disk
        .read(alloc, area, at, wanted.len() as u64)
        .expect(rt, "a read");
    assert_same(rt, &bytes, wanted, "what a read gives");
}

/// Asserts that an area has this length.
pub fn assert_length<D: Disk>(rt: &impl Abort, disk: &D, area: Area, wanted: u64) {
    assert_eq!(rt; disk.len(area), wanted, "the length of an area");
}

/// Asserts that area 0 has these bytes and a closed gate, and that area 1 is empty.
pub fn assert_front<D: Disk>(rt: &impl Abort, alloc: Global, disk: &mut D, wanted: &[u8]) {
    let bytes = all(rt, alloc, disk, Area::First);
    assert_same(rt, cut(&bytes, wanted.len()), wanted, "area 0");
    assert_same(rt, behind(&bytes, wanted.len()), &[0], "the last gate");
    assert_length(rt, disk, Area::Second, 0);
}
