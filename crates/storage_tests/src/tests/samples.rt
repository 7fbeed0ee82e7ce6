//! The areas of two runs, worked out by hand, and ways to bend them: one run decided one command; the other then switched to a
//! snapshot, which stands in area 1.

use std::alloc::Global;
use std::process::Abort;

/// Area 0 of node 0 of 1 behind four facts: it entered round 1 of instance 0 with `7.1 claim a x`, proposed
/// it, adopted it and decided. The gates stand at 0, 28, 73, 114, 155 and 192.
static AREA: [u8; 193] = [
    0xA5, 0, 0, 0, 0x17, 2, 0, 1, 0, 0, 0, 0, 0, 0, 0, 1, 0, 0, 0, 0, 0, 0, 0, 0, 0, 0, 0, 0, 0xA5,
    0, 0, 0, 0x28, 0, 0, 0, 0, 0, 0, 0, 0, 0, 1, 1, 0, 0, 0, 0, 0, 0, 0, 1, 0, 0, 0, 0, 0, 0, 0, 7,
    0, 0, 0, 0, 0, 0, 0, 1, 1, 1, 0x61, 1, 0x78, 0xA5, 0, 0, 0, 0x24, 0, 0, 0, 0, 0, 0, 0, 1, 0, 1,
    2, 0, 0, 0, 0, 0, 0, 0, 1, 0, 0, 0, 7, 0, 0, 0, 0, 0, 0, 0, 1, 1, 1, 0x61, 1, 0x78, 0xA5, 0, 0,
    0, 0x24, 0, 0, 0, 0, 0, 0, 0, 2, 0, 1, 3, 0, 0, 0, 0, 0, 0, 0, 1, 0, 0, 0, 7, 0, 0, 0, 0, 0, 0,
    0, 1, 1, 1, 0x61, 1, 0x78, 0xA5, 0, 0, 0, 0x20, 0, 0, 0, 0, 0, 0, 0, 3, 0, 1, 4, 0, 0, 0, 0, 0,
    0, 0, 7, 0, 0, 0, 0, 0, 0, 0, 1, 1, 1, 0x61, 1, 0x78, 0,
];

/// Area 1 behind a switch: the snapshot of node 0 of 1 with epoch 2 behind four facts, by which
/// instance 0 has decided `7.1 claim a x`, and a closed gate.
static SNAPSHOT: [u8; 51] = [
    0xA5, 0, 0, 0, 0x2D, 2, 0, 1, 0, 0, 0, 0, 0, 0, 0, 2, 0, 0, 0, 0, 0, 0, 0, 4, 0, 0, 0, 1, 0, 0,
    0, 0, 1, 0, 0, 0, 7, 0, 0, 0, 0, 0, 0, 0, 1, 1, 1, 0x61, 1, 0x78, 0,
];

/// The bytes of area 0. (A test that names a table itself is proved over each of its bytes.)
pub fn area() -> &'static [u8] {
    &AREA
}

/// The bytes of area 1 behind the switch.
pub fn snapshot() -> &'static [u8] {
    &SNAPSHOT
}

/// The front of bytes up to a place, or all of them.
pub fn cut(bytes: &[u8], place: usize) -> &[u8] {
    match bytes.split_at_checked(place) {
        Some((front, _)) => front,
        None => bytes,
    }
}

/// The bytes from a place on, if there are any.
pub fn behind(bytes: &[u8], place: usize) -> &[u8] {
    match bytes.split_at_checked(place) {
        Some((_, back)) => back,
        None => &[],
    }
}

/// A copy of bytes, with another byte at a place.
pub fn changed(rt: &impl Abort, alloc: Global, bytes: &[u8], place: usize, byte: u8) -> Vec<u8> {
    let mut bytes = bytes.to_vec(alloc).expect(rt, "memory");
    put_at(&mut bytes, place, byte);
    bytes
}

/// Puts a byte at a place of these, where there is one.
pub fn put_at(bytes: &mut [u8], place: usize, byte: u8) {
    if let Some(at) = bytes.get_mut(place) {
        *at = byte;
    }
}
