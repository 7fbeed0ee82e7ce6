//! The areas of two runs with each byte at each of its values, and cut at each place.
//!
//! One run decided one command; the other then switched to a snapshot, which stands in area 1.

use super::expected::{all, alone, assert_numbers, assert_same, write};
use super::journal::{after, opened};
use super::samples::{area, changed, cut, put_at, snapshot};
use rr_disk::{Area, Disk, MemDisk};
use rr_frame::{Reader, Version, decode_group, decode_snapshot, encode_group, encode_snapshot};
use rr_journal::{Image, Opening, frame};
use rr_types::{Command, Name, Op, Promise, Refusal, RequestNo, Value};
use std::alloc::Global;
use std::process::Abort;

/// The payload of the frame whose gate stands at a place.
fn payload_at(bytes: &[u8], gate: usize) -> Option<&[u8]> {
    let (_, frame) = bytes.split_at_checked(gate)?;
    let (_, behind) = frame.split_at_checked(1)?;
    let mut reader = Reader::new(behind);
    let count = reader.u32().ok()?;
    reader.take(count as usize).ok()
}

/// The version of an area and the spelling of what is read of a frame: of its first, where no version is known yet, or of a
/// group. The versions have one spelling of a snapshot, but for its number.
fn respelled(
    alloc: Global,
    version: Option<Version>,
    payload: &[u8],
) -> Result<(Version, Vec<u8>), Refusal> {
    match version {
        None => {
            let (version, snapshot) = decode_snapshot(alloc, payload)?;
            let mut again = encode_snapshot(alloc, &snapshot)?;
            put_at(&mut again, 0, version.number());
            Ok((version, again))
        }
        Some(version) => {
            let group = decode_group(alloc, version, payload)?;
            Ok((version, encode_group(alloc, &group)?))
        }
    }
}

/// Asserts that the frames up to the last gate of an area are the spelling of what is read there.
fn assert_spelled(
    rt: &impl Abort,
    alloc: Global,
    bytes: &[u8],
    last: usize,
) -> Result<(), Refusal> {
    let mut gate = 0;
    let mut version = None;
    for _ in 0..bytes.len() {
        if gate == last {
            return Ok(());
        }
        let Some(payload) = payload_at(bytes, gate) else {
            break;
        };
        let (read, again) = respelled(alloc, version, payload)?;
        assert_same(rt, &again, payload, "a frame");
        version = Some(read);
        gate = gate.saturating_add(payload.len()).saturating_add(5);
    }
    rt.panic("no frame ends at the last gate")
}

/// The active area of an image, and the place of its last gate, if an area is active.
fn last_gate(image: &Image) -> Option<(Area, u64)> {
    match image {
        Image::Unformatted => None,
        Image::Active(area, content) => Some((*area, content.gate())),
        Image::Outdated(area, content) => Some((*area, content.gate())),
    }
}

/// Asserts that two areas are broken at a gate, or hold what they spell, or are unformatted.
fn assert_exact(
    rt: &impl Abort,
    alloc: Global,
    first: &[u8],
    second: &[u8],
) -> Result<(), Refusal> {
    match opened(alloc, first, second) {
        Ok(image) => match last_gate(&image) {
            None => assert!(rt; is_blank(first) && is_blank(second)),
            Some((Area::First, gate)) => assert_spelled(rt, alloc, first, gate as usize)?,
            Some((Area::Second, gate)) => assert_spelled(rt, alloc, second, gate as usize)?,
        },
        Err(Refusal::Damaged { area, offset }) => assert!(rt; is_gate(area, offset)),
        Err(refusal) => return Err(refusal),
    }
    Ok(())
}

/// Whether a gate of this area stands at an offset, before the last one of area 1.
fn is_gate(area: u8, offset: u64) -> bool {
    match area {
        0 => [0, 28, 73, 114, 155, 192].contains(&offset),
        1 => [0, 50].contains(&offset),
        _ => false,
    }
}

/// Whether an area isn't formatted.
fn is_blank(bytes: &[u8]) -> bool {
    bytes.len() < 2 || bytes[0] != 0xA5
}

/// Asserts that instance 0 has decided `7.1 claim a x`, and that nothing else is promised.
fn assert_one_decided(rt: &impl Abort, promise: &Promise) -> Result<(), Refusal> {
    let command = Command {
        request: RequestNo { client: 7, seq: 1 },
        op: Op::Claim(Name::new(b"a")?, Value::new(b"x")?),
    };
    match promise.entries() {
        [entry] => {
            assert_eq!(rt; entry.instance.number(), 0);
            match entry.decision() {
                Some(decided) => assert!(rt; decided.is_same(&command)),
                None => rt.panic("no decision"),
            }
        }
        _ => assert!(rt; false, "another promise"),
    }
    Ok(())
}

/// Asserts that an area is active with this epoch and this last gate behind four facts, by which one command is decided.
fn assert_holds(rt: &impl Abort, image: Image, active: Area, epoch: u64, gate: u64) {
    match image {
        Image::Active(area, content) => {
            assert!(rt; area == active, "the other area is active");
            assert_eq!(rt;
                (content.epoch(), content.next(), content.gate()),
                (epoch, 4, gate)
            );
            assert_one_decided(rt, &content.into_promise()).expect(rt, "memory");
        }
        _ => assert!(rt; false, "no area is active"),
    }
}

#[test]
fn what_the_areas_hold(rt: HostRuntime) {
    let alloc = rt.alloc();
    let image = opened(alloc, area(), &[]).expect(&rt, "memory");
    assert_holds(&rt, image, Area::First, 1, 192);
    let image = opened(alloc, area(), snapshot()).expect(&rt, "memory");
    assert_holds(&rt, image, Area::Second, 2, 50);
}

/// The snapshot before the groups of area 0.
#[test]
fn what_the_first_frame_holds(rt: HostRuntime) {
    let payload = payload_at(area(), 0).expect(&rt, "a frame");
    let (_, first) = decode_snapshot(rt.alloc(), payload).expect(&rt, "memory");
    assert_numbers(
        &rt,
        (first.epoch(), first.next()),
        (1, 0),
        "epoch and facts",
    );
    assert_eq!(rt; (first.node().index(), first.nodes().count()), (0, 1));
    assert!(rt; first.promise().entries().is_empty(), "a promise");
}

/// An area whose first byte is no open gate is formatted anew: its gate is opened by the sixth
/// device call.
#[test]
fn an_unformatted_area_is_formatted_anew(rt: HostRuntime) {
    let alloc = rt.alloc();
    let mut disk = MemDisk::new(alloc);
    let closed = changed(&rt, alloc, area(), 0, 0);
    write(&rt, &mut disk, Area::First, 0, &closed);
    disk.sync().expect(&rt, "a sync");
    let (nodes, node) = alone(&rt);
    let opening = after(&rt, alloc, Opening::start(nodes, node, disk), 6);
    let bytes = all(&rt, alloc, &mut opening.into_disk(), Area::First);
    // The snapshot of epoch 1 and its open gate; the next gate is closed, and nothing behind it has
    // changed.
    let expected = changed(&rt, alloc, area(), 28, 0);
    assert_same(&rt, &bytes, &expected, "area 0");
}

/// Asserts the same of area 0 alone, and beside the area with the snapshot.
fn assert_first(rt: &impl Abort, alloc: Global, first: &[u8]) {
    assert_exact(rt, alloc, first, &[]).expect(rt, "memory");
    assert_exact(rt, alloc, first, snapshot()).expect(rt, "memory");
}

#[test]
fn each_byte_of_area_0(rt: HostRuntime) {
    let alloc = rt.alloc();
    for (place, _) in area().iter().enumerate() {
        assert_first(&rt, alloc, cut(area(), place));
        for byte in 0..=255 {
            assert_first(&rt, alloc, &changed(&rt, alloc, area(), place, byte));
        }
    }
}

/// Asserts the same of the area with the snapshot, beside area 0.
fn assert_second(rt: &impl Abort, alloc: Global, second: &[u8]) {
    assert_exact(rt, alloc, area(), second).expect(rt, "memory");
}

#[test]
fn each_byte_of_area_1(rt: HostRuntime) {
    let alloc = rt.alloc();
    for (place, _) in snapshot().iter().enumerate() {
        assert_second(&rt, alloc, cut(snapshot(), place));
        for byte in 0..=255 {
            assert_second(&rt, alloc, &changed(&rt, alloc, snapshot(), place, byte));
        }
    }
}
