//! Spelled examples, faults and their offsets.

use super::expected::assert_same;
use super::frame_sweeps::{Form, rewritten};
use super::samples::changed;
use rr_frame::{
    Reader, Snapshot, Version, decode_fact, decode_group, decode_snapshot, encode_fact,
    encode_snapshot, put_command, read_command,
};
use rr_types::{
    Command, Estimate, Fact, Group, Instance, Name, NodeId, Nodes, Op, Promise, Refusal, RequestNo,
    Round, Value,
};
use std::alloc::Global;
use std::process::Abort;

/// A group of one fact with number 3: instance 0 decides `7.1 claim a x`.
static DECIDED: [u8; 32] = [
    0, 0, 0, 0, 0, 0, 0, 3, 0, 1, 4, 0, 0, 0, 0, 0, 0, 0, 7, 0, 0, 0, 0, 0, 0, 0, 1, 1, 1, 0x61, 1,
    0x78,
];

/// The empty snapshot of epoch 1 of node 0 of 1.
static EMPTY: [u8; 23] = [
    2, 0, 1, 0, 0, 0, 0, 0, 0, 0, 1, 0, 0, 0, 0, 0, 0, 0, 0, 0, 0, 0, 0,
];

/// The snapshot of node 0 of 1 with epoch 2 behind two facts: it proposed `7.1 claim a x` in round 1.
static PROPOSED: [u8; 71] = [
    2, 0, 1, 0, 0, 0, 0, 0, 0, 0, 2, 0, 0, 0, 0, 0, 0, 0, 2, 0, 0, 0, 1, 0, 0, 0, 0, 2, 0, 0, 0, 1,
    0, 0, 0, 0, 0, 0, 0, 7, 0, 0, 0, 0, 0, 0, 0, 1, 1, 1, 0x61, 1, 0x78, 1, 0, 0, 0, 7, 0, 0, 0, 0,
    0, 0, 0, 1, 1, 1, 0x61, 1, 0x78,
];

/// The bytes of that group. (A test that names a table itself is proved over each of its bytes.)
fn decided() -> &'static [u8] {
    &DECIDED
}

/// The bytes of the empty snapshot.
fn empty() -> &'static [u8] {
    &EMPTY
}

/// The bytes of the snapshot with a proposal.
fn proposed() -> &'static [u8] {
    &PROPOSED
}

/// Asserts that bytes are read as a fact in version 2, and refused at this offset in version 1.
fn assert_new(rt: &impl Abort, bytes: &[u8], offset: u64) {
    assert!(rt; decode_fact(Version::Two, bytes).is_ok(), "no fact");
    assert_malformed(rt, decode_fact(Version::One, bytes).err(), offset);
}

/// Asserts that a refusal is that of bytes with a fault at this offset.
fn assert_malformed(rt: &impl Abort, found: Option<Refusal>, offset: u64) {
    assert_eq!(rt; found, Some(Refusal::Malformed(offset)));
}

/// Whether bytes are refused at this offset.
fn is_refused(alloc: Global, form: Form, bytes: &[u8], offset: u64) -> bool {
    matches!(rewritten(alloc, form, bytes), Err(Refusal::Malformed(found)) if found == offset)
}

/// Asserts of each of these places, with another byte and an offset, that the example with that byte there is refused at that
/// offset.
fn assert_faults(
    rt: &impl Abort,
    alloc: Global,
    form: Form,
    example: &[u8],
    faults: &[(usize, u8, u64)],
) {
    for (place, value, offset) in faults {
        let bytes = changed(rt, alloc, example, *place, *value);
        assert!(rt;
            is_refused(alloc, form, &bytes, *offset),
            "{value} at {place}"
        );
    }
}

/// The bytes of a command.
fn spelled(rt: &impl Abort, alloc: Global, command: &Command) -> Vec<u8> {
    let mut bytes = Vec::new(alloc);
    put_command(&mut bytes, command).expect(rt, "memory");
    bytes
}

#[test]
fn a_transfer_is_spelled_in_19_bytes(rt: HostRuntime) {
    let command = Command {
        request: RequestNo { client: 7, seq: 2 },
        op: Op::Transfer(Name::new(b"a").expect(&rt, "memory"), 9),
    };
    let bytes = spelled(&rt, rt.alloc(), &command);
    let wanted = [0, 0, 0, 7, 0, 0, 0, 0, 0, 0, 0, 2, 4, 1, 0x61, 0, 0, 0, 9];
    assert_same(&rt, &bytes, &wanted, "a transfer");
    let mut reader = Reader::new(&bytes);
    let read = read_command(Version::Two, &mut reader)
        .ok()
        .expect(&rt, "a command");
    assert!(rt; read.is_same(&command));
    assert_eq!(rt; reader.left(), 0);
}

/// The fact that instance 0 enters round 1 with `7.1 claim a x`.
fn entering(rt: &impl Abort) -> Fact {
    let name = Name::new(b"a").expect(rt, "memory");
    let value = Value::new(b"x").expect(rt, "memory");
    let command = Command {
        request: RequestNo { client: 7, seq: 1 },
        op: Op::Claim(name, value),
    };
    let instance = Instance::new(0).expect(rt, "an instance");
    let round = Round::new(1).expect(rt, "a round");
    let estimate = Estimate::new(round, 0, command).expect(rt, "an estimate");
    Fact::Enter(instance, estimate)
}

#[test]
fn a_fact_is_read_as_it_was_written(rt: HostRuntime) {
    let bytes = encode_fact(rt.alloc(), &entering(&rt)).expect(&rt, "memory");
    let wanted = [
        1, 0, 0, 0, 0, 0, 0, 0, 1, 0, 0, 0, 0, 0, 0, 0, 7, 0, 0, 0, 0, 0, 0, 0, 1, 1, 1, 0x61, 1,
        0x78,
    ];
    assert_same(&rt, &bytes, &wanted, "a fact");
    assert!(rt; matches!(decode_fact(Version::Two, &bytes), Ok(Fact::Enter(_, _))));
    // A stamp that is not below its round.
    let bent = changed(&rt, rt.alloc(), &bytes, 12, 1);
    assert_malformed(&rt, decode_fact(Version::Two, &bent).err(), 9);
}

#[test]
fn faults_of_a_group(rt: HostRuntime) {
    let alloc = rt.alloc();
    let form = Form::Group(Version::Two);
    let faults = [
        (9, 0, 8),
        (9, 65, 8),
        (10, 5, 10),
        (11, 255, 11),
        (27, 5, 27),
        (28, 0, 28),
        (29, 0x41, 29),
        (30, 65, 30),
        (30, 2, 31),
    ];
    assert_faults(&rt, alloc, form, decided(), &faults);
    let longer = [decided(), [0].as_slice()]
        .concat(alloc)
        .expect(&rt, "memory");
    assert!(rt; is_refused(alloc, form, &longer, 32));
    assert!(rt; is_refused(alloc, form, &[], 0));
}

/// Asserts that a snapshot is spelled so.
fn assert_written(rt: &impl Abort, alloc: Global, snapshot: &Snapshot, wanted: &[u8]) {
    let bytes = encode_snapshot(alloc, snapshot).expect(rt, "memory");
    assert_same(rt, &bytes, wanted, "a snapshot");
}

/// The snapshot that is read of bytes of a version. Asserts that it is written as the snapshot with a proposal.
fn read_proposed(rt: &impl Abort, alloc: Global, version: Version, bytes: &[u8]) -> Snapshot {
    let (found, read) = decode_snapshot(alloc, bytes).expect(rt, "memory");
    assert_eq!(rt; found, version);
    assert_written(rt, alloc, &read, proposed());
    read
}

/// The empty snapshot of epoch 1 of node 0 of 1.
fn made(rt: &impl Abort, alloc: Global) -> Snapshot {
    let node = NodeId::at(0).expect(rt, "a node");
    let nodes = Nodes::new(1).expect(rt, "nodes");
    let promise = Promise::new(Vec::new(alloc));
    let made = Snapshot::new(nodes, node, 1, 0, promise);
    made.ok().expect(rt, "a snapshot")
}

#[test]
fn snapshots(rt: HostRuntime) {
    let alloc = rt.alloc();
    assert_written(&rt, alloc, &made(&rt, alloc), empty());
    let read = read_proposed(&rt, alloc, Version::Two, proposed());
    assert_eq!(rt; (read.epoch(), read.next()), (2, 2));
    assert_eq!(rt; read.promise().entries().len(), 1);
}

#[test]
fn faults_of_a_snapshot(rt: HostRuntime) {
    // Version, node and count, epoch 0, entries before the first fact, kind, round 0, stamp above the round, flag.
    let faults = [
        (0, 0, 0),
        (0, 3, 0),
        (1, 1, 2),
        (2, 8, 2),
        (10, 0, 3),
        (18, 0, 19),
        (27, 3, 27),
        (31, 0, 28),
        (35, 2, 32),
        (53, 2, 53),
    ];
    assert_faults(&rt, rt.alloc(), Form::Snapshot, proposed(), &faults);
}

/// A group of one fact: instance 0 decides `7.1 claim`, of a name of `count` letters b.
fn of_long_name(rt: &impl Abort, alloc: Global, count: u8) -> Vec<u8> {
    let mut bytes = changed(rt, alloc, decided(), 28, count);
    bytes.truncate(29);
    bytes
        .resize(29 + usize::from(count), b'b')
        .expect(rt, "memory");
    bytes.push(0).expect(rt, "memory");
    bytes
}

#[test]
fn names_are_as_long_as_the_version_has_them(rt: HostRuntime) {
    let alloc = rt.alloc();
    for (version, longest) in [(Version::One, 32), (Version::Two, 64)] {
        let bytes = of_long_name(&rt, alloc, longest);
        assert!(rt; decode_group(alloc, version, &bytes).is_ok());
        let longer = of_long_name(&rt, alloc, longest + 1);
        assert!(rt; is_refused(alloc, Form::Group(version), &longer, 28));
    }
}

#[test]
fn facts_of_version_1(rt: HostRuntime) {
    let alloc = rt.alloc();
    // Instances 65,535 and 65,536 decide `7.3 release b`; instance 0 decides `7.2 transfer a 9`.
    let last = [
        4, 0, 0, 255, 255, 0, 0, 0, 7, 0, 0, 0, 0, 0, 0, 0, 3, 3, 1, 0x62,
    ];
    let far = [
        4, 0, 1, 0, 0, 0, 0, 0, 7, 0, 0, 0, 0, 0, 0, 0, 3, 3, 1, 0x62,
    ];
    let transfer = [
        4, 0, 0, 0, 0, 0, 0, 0, 7, 0, 0, 0, 0, 0, 0, 0, 2, 4, 1, 0x61, 0, 0, 0, 9,
    ];
    let again = rewritten(alloc, Form::Fact(Version::One), &last).expect(&rt, "lawful");
    assert_same(&rt, &again, &last, "a fact of version 1");
    assert_new(&rt, &far, 1);
    assert_new(&rt, &transfer, 17);
}

#[test]
fn groups_of_version_1(rt: HostRuntime) {
    let alloc = rt.alloc();
    assert!(rt; decode_group(alloc, Version::One, decided()).is_ok());
    let far = changed(&rt, alloc, decided(), 12, 1);
    assert!(rt; is_refused(alloc, Form::Group(Version::One), &far, 11));
    assert!(rt; decode_group(alloc, Version::Two, &far).is_ok());
}

#[test]
fn a_snapshot_of_version_1(rt: HostRuntime) {
    let alloc = rt.alloc();
    let old = changed(&rt, alloc, proposed(), 0, 1);
    drop(read_proposed(&rt, alloc, Version::One, &old));
}

#[test]
fn faults_of_a_snapshot_of_version_1(rt: HostRuntime) {
    // Instance 65,536, a transfer, a name of 33 bytes, a proposal that is a transfer.
    let faults = [(24, 1, 23), (48, 4, 48), (49, 33, 49), (66, 4, 66)];
    let old = changed(&rt, rt.alloc(), proposed(), 0, 1);
    assert_faults(&rt, rt.alloc(), Form::Snapshot, &old, &faults);
    let far = changed(&rt, rt.alloc(), proposed(), 24, 1);
    assert!(rt; decode_snapshot(rt.alloc(), &far).is_ok());
}
