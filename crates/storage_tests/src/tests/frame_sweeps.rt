//! Spelled examples of each kind, with each byte at each of its values, and cut at each place.

use super::expected::assert_same;
use super::samples::put_at;
use rr_frame::{
    Snapshot, Version, decode_fact, decode_group, decode_snapshot, encode_fact, encode_group,
    encode_snapshot,
};
use rr_types::{Command, Op, Refusal, Standing, made_of};
use std::alloc::Global;
use std::process::Abort;

/// Which decoder reads an example, and in which version.
#[derive(Clone, Copy)]
pub(crate) enum Form {
    Fact(Version),
    Group(Version),
    Snapshot,
}

/// Instance 258 enters round 3 with `7.1 claim a x`, adopted in round 2.
const ENTER: [u8; 30] = [
    1, 0, 0, 1, 2, 0, 0, 0, 3, 0, 0, 0, 2, 0, 0, 0, 7, 0, 0, 0, 0, 0, 0, 0, 1, 1, 1, 97, 1, 120,
];

/// Where its fields begin.
const ENTER_FIELDS: [usize; 11] = [0, 1, 5, 9, 13, 17, 25, 26, 27, 28, 29];

/// In the last round of the last instance `7.2 update a-9` is proposed; its value is empty.
const PROPOSE: [u8; 27] = [
    2, 0, 15, 255, 255, 127, 255, 255, 255, 0, 0, 0, 7, 0, 0, 0, 0, 0, 0, 0, 2, 2, 3, 97, 45, 57, 0,
];

/// Where its fields begin.
const PROPOSE_FIELDS: [usize; 9] = [0, 1, 5, 9, 13, 21, 22, 23, 26];

/// In round 1 of instance 0 `7.3 release a` is adopted.
const ADOPT: [u8; 24] = [
    3, 0, 0, 0, 0, 0, 0, 0, 1, 0, 0, 0, 7, 0, 0, 0, 0, 0, 0, 0, 3, 3, 1, 97,
];

/// Where its fields begin.
const ADOPT_FIELDS: [usize; 8] = [0, 1, 5, 9, 13, 21, 22, 23];

/// Instance 0 decides `7.2 transfer a 9`.
const DECIDE: [u8; 24] = [
    4, 0, 0, 0, 0, 0, 0, 0, 7, 0, 0, 0, 0, 0, 0, 0, 2, 4, 1, 97, 0, 0, 0, 9,
];

/// Where its fields begin.
const DECIDE_FIELDS: [usize; 8] = [0, 1, 5, 9, 17, 18, 19, 20];

/// A group of these four facts; the first has number 3.
const GROUP: [u8; 115] = [
    0, 0, 0, 0, 0, 0, 0, 3, 0, 4, 1, 0, 0, 1, 2, 0, 0, 0, 3, 0, 0, 0, 2, 0, 0, 0, 7, 0, 0, 0, 0, 0,
    0, 0, 1, 1, 1, 97, 1, 120, 2, 0, 15, 255, 255, 127, 255, 255, 255, 0, 0, 0, 7, 0, 0, 0, 0, 0,
    0, 0, 2, 2, 3, 97, 45, 57, 0, 3, 0, 0, 0, 0, 0, 0, 0, 1, 0, 0, 0, 7, 0, 0, 0, 0, 0, 0, 0, 3, 3,
    1, 97, 4, 0, 0, 0, 0, 0, 0, 0, 7, 0, 0, 0, 0, 0, 0, 0, 2, 4, 1, 97, 0, 0, 0, 9,
];

/// Where its fields begin.
const GROUP_FIELDS: [usize; 38] = [
    0, 8, 10, 11, 15, 19, 23, 27, 35, 36, 37, 38, 39, 40, 41, 45, 49, 53, 61, 62, 63, 66, 67, 68,
    72, 76, 80, 88, 89, 90, 91, 92, 96, 100, 108, 109, 110, 111,
];

/// In version 1, in the last round of the last instance `7.2 update a-9` is proposed.
const OLD_PROPOSE: [u8; 27] = [
    2, 0, 0, 255, 255, 127, 255, 255, 255, 0, 0, 0, 7, 0, 0, 0, 0, 0, 0, 0, 2, 2, 3, 97, 45, 57, 0,
];

/// A group of version 1, of the facts `ENTER`, `OLD_PROPOSE` and `ADOPT`. Its fields begin where those of `GROUP` do.
const OLD_GROUP: [u8; 91] = [
    0, 0, 0, 0, 0, 0, 0, 3, 0, 3, 1, 0, 0, 1, 2, 0, 0, 0, 3, 0, 0, 0, 2, 0, 0, 0, 7, 0, 0, 0, 0, 0,
    0, 0, 1, 1, 1, 97, 1, 120, 2, 0, 0, 255, 255, 127, 255, 255, 255, 0, 0, 0, 7, 0, 0, 0, 0, 0, 0,
    0, 2, 2, 3, 97, 45, 57, 0, 3, 0, 0, 0, 0, 0, 0, 0, 1, 0, 0, 0, 7, 0, 0, 0, 0, 0, 0, 0, 3, 3, 1,
    97,
];

/// In version 1, the snapshot of node 1 of 3 with epoch 5 behind nine facts. Instance 0 has decided `7.1 claim a x`.
/// Instance 2 is in round 4, in which that was adopted and the node proposed `7.3 release a`. The last instance is in
/// its last round with `7.2 update a-9`, never adopted, and no proposal.
const OLD_SNAPSHOT: [u8; 123] = [
    1, 1, 3, 0, 0, 0, 0, 0, 0, 0, 5, 0, 0, 0, 0, 0, 0, 0, 9, 0, 0, 0, 3, 0, 0, 0, 0, 1, 0, 0, 0, 7,
    0, 0, 0, 0, 0, 0, 0, 1, 1, 1, 97, 1, 120, 0, 0, 0, 2, 2, 0, 0, 0, 4, 0, 0, 0, 4, 0, 0, 0, 7, 0,
    0, 0, 0, 0, 0, 0, 1, 1, 1, 97, 1, 120, 1, 0, 0, 0, 7, 0, 0, 0, 0, 0, 0, 0, 3, 3, 1, 97, 0, 0,
    255, 255, 2, 127, 255, 255, 255, 0, 0, 0, 0, 0, 0, 0, 7, 0, 0, 0, 0, 0, 0, 0, 2, 2, 3, 97, 45,
    57, 0, 0,
];

/// Where its fields begin.
const OLD_SNAPSHOT_FIELDS: [usize; 43] = [
    0, 1, 2, 3, 11, 19, 23, 27, 28, 32, 40, 41, 42, 43, 44, 45, 49, 50, 54, 58, 62, 70, 71, 72, 73,
    74, 75, 76, 80, 88, 89, 90, 91, 95, 96, 100, 104, 108, 116, 117, 118, 121, 122,
];

/// The snapshot of node 1 of 3 with epoch 5 behind nine facts. Instance 0 has decided
/// `7.1 claim a x`. Instance 2 is in round 4, in which `7.2 transfer a 9` was adopted and the node
/// proposed `7.3 release a`. The last instance is in its last round with `7.2 update a-9`, never
/// adopted, and no proposal.
const SNAPSHOT: [u8; 125] = [
    2, 1, 3, 0, 0, 0, 0, 0, 0, 0, 5, 0, 0, 0, 0, 0, 0, 0, 9, 0, 0, 0, 3, 0, 0, 0, 0, 1, 0, 0, 0, 7,
    0, 0, 0, 0, 0, 0, 0, 1, 1, 1, 97, 1, 120, 0, 0, 0, 2, 2, 0, 0, 0, 4, 0, 0, 0, 4, 0, 0, 0, 7, 0,
    0, 0, 0, 0, 0, 0, 2, 4, 1, 97, 0, 0, 0, 9, 1, 0, 0, 0, 7, 0, 0, 0, 0, 0, 0, 0, 3, 3, 1, 97, 0,
    15, 255, 255, 2, 127, 255, 255, 255, 0, 0, 0, 0, 0, 0, 0, 7, 0, 0, 0, 0, 0, 0, 0, 2, 2, 3, 97,
    45, 57, 0, 0,
];

/// Where its fields begin.
const SNAPSHOT_FIELDS: [usize; 42] = [
    0, 1, 2, 3, 11, 19, 23, 27, 28, 32, 40, 41, 42, 43, 44, 45, 49, 50, 54, 58, 62, 70, 71, 72, 73,
    77, 78, 82, 90, 91, 92, 93, 97, 98, 102, 106, 110, 118, 119, 120, 123, 124,
];

/// Reads bytes, and writes what was read; a snapshot with the first byte of its version.
pub(crate) fn rewritten(alloc: Global, form: Form, bytes: &[u8]) -> Result<Vec<u8>, Refusal> {
    made_of!(Command, Op, Standing);
    match form {
        Form::Fact(version) => encode_fact(alloc, &decode_fact(version, bytes)?),
        Form::Group(version) => encode_group(alloc, &decode_group(alloc, version, bytes)?),
        Form::Snapshot => {
            let (version, snapshot) = decode_snapshot(alloc, bytes)?;
            let mut again = encode_snapshot(alloc, &snapshot)?;
            if let Some(first) = again.first_mut() {
                *first = version.number();
            }
            Ok(again)
        }
    }
}

/// Asserts that bytes are refused within them, or are the spelling of what is read of them.
fn assert_exact(rt: &impl Abort, alloc: Global, form: Form, bytes: &[u8]) -> Result<(), Refusal> {
    match rewritten(alloc, form, bytes) {
        Ok(again) => assert_same(rt, &again, bytes, "an example"),
        Err(Refusal::Malformed(offset)) => assert!(rt; offset <= bytes.len() as u64),
        Err(refusal) => return Err(refusal),
    }
    Ok(())
}

/// Asserts that bytes are refused at this offset.
fn assert_refused(rt: &impl Abort, alloc: Global, form: Form, bytes: &[u8], offset: usize) {
    let refused = rewritten(alloc, form, bytes).err();
    assert_eq!(rt; refused, Some(Refusal::Malformed(offset as u64)));
}

/// Where the field begins that has this place.
fn field_of(fields: &[usize], place: usize) -> usize {
    let mut found = 0;
    for start in fields {
        if *start <= place {
            found = *start;
        }
    }
    found
}

/// The bytes are exact with each byte at a place.
fn sweep_place(rt: &impl Abort, alloc: Global, form: Form, bytes: &mut [u8], place: usize) {
    for byte in 0..=255 {
        put_at(bytes, place, byte);
        assert_exact(rt, alloc, form, bytes).expect(rt, "memory");
    }
}

/// The example is exact, also with each byte at each value; cut, it is refused at the cut field.
fn sweep(rt: &impl Abort, alloc: Global, form: Form, example: &[u8], fields: &[usize]) {
    let mut bytes = example.to_vec(alloc).expect(rt, "memory");
    for (place, kept) in example.iter().enumerate() {
        assert_refused(rt, alloc, form, &example[..place], field_of(fields, place));
        sweep_place(rt, alloc, form, &mut bytes, place);
        put_at(&mut bytes, place, *kept);
    }
    let again = rewritten(alloc, form, example).expect(rt, "memory");
    assert_same(rt, &again, example, "an example");
    bytes.push(0).expect(rt, "memory");
    assert_refused(rt, alloc, form, &bytes, example.len());
}

#[test]
fn each_byte_and_each_cut_of_facts(rt: HostRuntime) {
    let rows: [(&[u8], &[usize]); 4] = [
        (&ENTER, &ENTER_FIELDS),
        (&PROPOSE, &PROPOSE_FIELDS),
        (&ADOPT, &ADOPT_FIELDS),
        (&DECIDE, &DECIDE_FIELDS),
    ];
    for (example, fields) in rows {
        sweep(&rt, rt.alloc(), Form::Fact(Version::Two), example, fields);
    }
}

#[test]
fn each_byte_and_each_cut_of_a_group(rt: HostRuntime) {
    let form = Form::Group(Version::Two);
    sweep(&rt, rt.alloc(), form, &GROUP, &GROUP_FIELDS);
}

#[test]
fn each_byte_and_each_cut_of_a_snapshot(rt: HostRuntime) {
    sweep(&rt, rt.alloc(), Form::Snapshot, &SNAPSHOT, &SNAPSHOT_FIELDS);
}

#[test]
fn each_byte_and_each_cut_of_facts_of_version_1(rt: HostRuntime) {
    let rows: [(&[u8], &[usize]); 3] = [
        (&ENTER, &ENTER_FIELDS),
        (&OLD_PROPOSE, &PROPOSE_FIELDS),
        (&ADOPT, &ADOPT_FIELDS),
    ];
    for (example, fields) in rows {
        sweep(&rt, rt.alloc(), Form::Fact(Version::One), example, fields);
    }
}

#[test]
fn each_byte_and_each_cut_of_a_group_of_version_1(rt: HostRuntime) {
    let form = Form::Group(Version::One);
    sweep(&rt, rt.alloc(), form, &OLD_GROUP, &GROUP_FIELDS);
}

#[test]
fn each_byte_and_each_cut_of_a_snapshot_of_version_1(rt: HostRuntime) {
    let fields = &OLD_SNAPSHOT_FIELDS;
    sweep(&rt, rt.alloc(), Form::Snapshot, &OLD_SNAPSHOT, fields);
}
