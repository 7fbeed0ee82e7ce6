use super::expected::assert_same;
use rr_frame::{decode, encode};
use rr_types::{
    Body, Command, Estimate, Instance, Message, Name, NodeId, NodeSet, Nodes, Op, Refusal,
    RequestNo, Round, Value,
};
use std::alloc::Global;
use std::process::Abort;

/// The acknowledgement of round 1 of instance 0, from node 2 to node 1.
static ACK: [u8; 12] = [2, 2, 1, 3, 0, 0, 0, 0, 0, 0, 0, 1];

/// The estimate `7.1 claim a x` with stamp 0 in round 1 of instance 0, from node 0 to itself.
static ESTIMATE: [u8; 33] = [
    2, 0, 0, 1, 0, 0, 0, 0, 0, 0, 0, 1, 0, 0, 0, 0, 0, 0, 0, 7, 0, 0, 0, 0, 0, 0, 0, 1, 1, 1, b'a',
    1, b'x',
];

/// In round 258 of instance 5 node 1 proposes `7.1 claim a x` to node 2.
static PROPOSAL: [u8; 29] = [
    2, 1, 2, 2, 0, 0, 0, 5, 0, 0, 1, 2, 0, 0, 0, 7, 0, 0, 0, 0, 0, 0, 0, 1, 1, 1, b'a', 1, b'x',
];

/// The last instance has decided `7.1 claim a x`, from node 2 to node 0.
static DECISION: [u8; 25] = [
    2, 2, 0, 4, 0, 15, 255, 255, 0, 0, 0, 7, 0, 0, 0, 0, 0, 0, 0, 1, 1, 1, b'a', 1, b'x',
];

/// Node 0 refuses the last round of instance 1, to node 1.
static NACK: [u8; 12] = [2, 0, 1, 6, 0, 0, 0, 1, 127, 255, 255, 255];

/// Node 6 is up, to node 5.
static BEAT: [u8; 4] = [2, 6, 5, 7];

/// Node 0 suspects nodes 0 and 2, to itself.
static SUSPECTS: [u8; 5] = [2, 0, 0, 8, 5];

/// Node 1 asks node 0 for the decision of instance 3.
static ASK: [u8; 8] = [2, 1, 0, 9, 0, 0, 0, 3];

/// The request `7.2 transfer a 9`, from node 0 to node 1.
static REQUEST: [u8; 23] = [
    2, 0, 1, 5, 0, 0, 0, 7, 0, 0, 0, 0, 0, 0, 0, 2, 4, 1, b'a', 0, 0, 0, 9,
];

/// In version 1: the last instance has decided `7.1 claim a x`, from node 2 to node 0.
static OLD_DECISION: [u8; 25] = [
    1, 2, 0, 4, 0, 0, 255, 255, 0, 0, 0, 7, 0, 0, 0, 0, 0, 0, 0, 1, 1, 1, b'a', 1, b'x',
];

/// In version 1: the request `7.3 release b`, from node 0 to node 1.
static OLD_REQUEST: [u8; 19] = [1, 0, 1, 5, 0, 0, 0, 7, 0, 0, 0, 0, 0, 0, 0, 3, 3, 1, b'b'];

/// The examples, which both versions have. (A test that names a table itself is proved over each of its bytes.)
#[derive(Clone, Copy)]
enum Kind {
    Ack,
    Estimate,
    Proposal,
    Decision,
    Nack,
    Beat,
    Suspects,
    Ask,
    Request,
}

/// The bytes of an example in version 2.
fn bytes_of(kind: Kind) -> &'static [u8] {
    match kind {
        Kind::Ack => &ACK,
        Kind::Estimate => &ESTIMATE,
        Kind::Proposal => &PROPOSAL,
        Kind::Decision => &DECISION,
        Kind::Nack => &NACK,
        Kind::Beat => &BEAT,
        Kind::Suspects => &SUSPECTS,
        Kind::Ask => &ASK,
        Kind::Request => &REQUEST,
    }
}

/// The bytes of an example in version 1: of an instance and a request that it has, or with another first byte alone.
fn old_bytes_of(rt: &impl Abort, alloc: Global, kind: Kind) -> Vec<u8> {
    let bytes: &[u8] = match kind {
        Kind::Decision => &OLD_DECISION,
        Kind::Request => &OLD_REQUEST,
        other => bytes_of(other),
    };
    with_byte(rt, alloc, bytes, 0, 1)
}

/// Where the fields of an example begin that both versions have.
fn fields_of(kind: Kind) -> &'static [u8] {
    match kind {
        Kind::Ack | Kind::Nack => &[0, 1, 2, 3, 4, 8],
        Kind::Estimate => &[0, 1, 2, 3, 4, 8, 12, 16, 20, 28, 29, 30, 31, 32],
        Kind::Proposal => &[0, 1, 2, 3, 4, 8, 12, 16, 24, 25, 26, 27, 28],
        Kind::Decision => &[0, 1, 2, 3, 4, 8, 12, 20, 21, 22, 23, 24],
        Kind::Beat => &[0, 1, 2, 3],
        Kind::Suspects | Kind::Ask => &[0, 1, 2, 3, 4],
        Kind::Request => &[0, 1, 2, 3, 4, 8, 16, 17, 18, 19],
    }
}

/// The command `7.1 claim a x`.
fn claim(rt: &impl Abort) -> Command {
    let name = Name::new(b"a").expect(rt, "a name");
    let value = Value::new(b"x").expect(rt, "a value");
    Command {
        request: RequestNo { client: 7, seq: 1 },
        op: Op::Claim(name, value),
    }
}

/// The command `7.2 transfer a 9`.
fn transfer(rt: &impl Abort) -> Command {
    let name = Name::new(b"a").expect(rt, "a name");
    Command {
        request: RequestNo { client: 7, seq: 2 },
        op: Op::Transfer(name, 9),
    }
}

/// The command `7.3 release b`.
fn release(rt: &impl Abort) -> Command {
    let name = Name::new(b"b").expect(rt, "a name");
    Command {
        request: RequestNo { client: 7, seq: 3 },
        op: Op::Release(name),
    }
}

/// Asserts that these bytes are refused at this offset.
fn assert_refused(rt: &impl Abort, nodes: u8, bytes: &[u8], offset: u64) {
    let nodes = Nodes::new(nodes).expect(rt, "nodes");
    let refused = decode(nodes, bytes).err();
    assert_same(rt, refused, Some(Refusal::Malformed(offset)), "a fault");
}

/// Puts a byte at a place of these, where there is one.
fn put_at(bytes: &mut [u8], place: usize, byte: u8) {
    if let Some(at) = bytes.get_mut(place) {
        *at = byte;
    }
}

/// The bytes with another one at this place.
fn with_byte(rt: &impl Abort, alloc: Global, bytes: &[u8], place: usize, byte: u8) -> Vec<u8> {
    let mut changed = bytes.to_vec(alloc).expect(rt, "memory");
    put_at(&mut changed, place, byte);
    changed
}

/// Asserts of each of these places, with another byte and an offset, that the example with that byte there is refused at
/// that offset.
fn assert_faults(
    rt: &impl Abort,
    alloc: Global,
    nodes: u8,
    example: &[u8],
    faults: &[(usize, u8, u64)],
) {
    for (place, byte, offset) in faults {
        let bytes = with_byte(rt, alloc, example, *place, *byte);
        assert_refused(rt, nodes, &bytes, *offset);
    }
}

/// The front of bytes up to a place, or all of them.
fn cut(bytes: &[u8], place: usize) -> &[u8] {
    match bytes.split_at_checked(place) {
        Some((front, _)) => front,
        None => bytes,
    }
}

/// Whether two messages say the same.
fn is_same(body: &Body, other: &Body) -> bool {
    match (body, other) {
        (Body::Estimate(i, e), Body::Estimate(j, f)) => i == j
            && e.round() == f.round()
            && e.stamp() == f.stamp()
            && e.command().is_same(&f.command()),
        (Body::Proposal(i, r, v), Body::Proposal(j, s, w)) => i == j && r == s && v.is_same(w),
        (Body::Ack(i, r), Body::Ack(j, s)) => i == j && r == s,
        (Body::Decision(i, v), Body::Decision(j, w)) => i == j && v.is_same(w),
        (Body::Request(v), Body::Request(w)) => v.is_same(w),
        (Body::Nack(i, r), Body::Nack(j, s)) => i == j && r == s,
        (Body::Beat, Body::Beat) => true,
        (Body::Suspects(set), Body::Suspects(other)) => set == other,
        (Body::Ask(i), Body::Ask(j)) => i == j,
        _ => false,
    }
}

/// Asserts that, among `nodes` nodes, these bytes are read as this message.
fn assert_read(rt: &impl Abort, nodes: u8, message: &Message, bytes: &[u8]) {
    let nodes = Nodes::new(nodes).expect(rt, "nodes");
    let read = decode(nodes, bytes).expect(rt, "a message");
    assert!(rt; read.from == message.from && read.to == message.to);
    assert!(rt; is_same(&read.body, &message.body));
}

/// Asserts that, among `nodes` nodes, a message is spelled as these bytes, and that these are read as it.
fn assert_spelled(rt: &impl Abort, alloc: Global, nodes: u8, message: &Message, bytes: &[u8]) {
    let spelled = encode(alloc, message).expect(rt, "memory");
    assert_same(rt, spelled.as_slice(), bytes, "how a message is spelled");
    assert_read(rt, nodes, message, bytes);
}

#[test]
fn decoding_table(rt: HostRuntime) {
    let faults = [(11, 0, 8), (3, 10, 3), (0, 0, 0), (0, 3, 0)];
    assert_faults(&rt, rt.alloc(), 3, bytes_of(Kind::Ack), &faults);
    let faults = [
        (15, 1, 12),
        (29, 0, 29),
        (29, 65, 29),
        (30, 0x41, 30),
        (31, 65, 31),
        (31, 2, 32),
    ];
    assert_faults(&rt, rt.alloc(), 1, bytes_of(Kind::Estimate), &faults);
}

#[test]
fn messages_of_another_length_or_of_no_node(rt: HostRuntime) {
    assert_refused(&rt, 3, cut(bytes_of(Kind::Ack), 11), 8);
    assert_refused(&rt, 3, &[2, 2, 1, 3, 0, 0, 0, 0, 0, 0, 0, 1, 0], 12);
    assert_refused(&rt, 3, &[], 0);
    assert_refused(&rt, 2, bytes_of(Kind::Ack), 1);
    assert_refused(&rt, 3, &[2, 0, 0, 8, 8], 4);
    assert_refused(&rt, 1, bytes_of(Kind::Request), 2);
}

fn node(rt: &impl Abort, index: u8) -> NodeId {
    NodeId::at(index).expect(rt, "a node")
}

fn message(rt: &impl Abort, from: u8, to: u8, body: Body) -> Message {
    Message {
        from: node(rt, from),
        to: node(rt, to),
        body,
    }
}

fn instance(rt: &impl Abort, number: u32) -> Instance {
    Instance::new(number).expect(rt, "an instance")
}

fn round(rt: &impl Abort, number: u32) -> Round {
    Round::new(number).expect(rt, "a round")
}

/// What `ESTIMATE` says.
fn estimate(rt: &impl Abort) -> Message {
    let estimate = Estimate::new(round(rt, 1), 0, claim(rt)).expect(rt, "an estimate");
    message(rt, 0, 0, Body::Estimate(instance(rt, 0), estimate))
}

/// What `PROPOSAL` says.
fn proposal(rt: &impl Abort) -> Message {
    let body = Body::Proposal(instance(rt, 5), round(rt, 258), claim(rt));
    message(rt, 1, 2, body)
}

/// What `ACK` says.
fn ack(rt: &impl Abort) -> Message {
    message(rt, 2, 1, Body::Ack(instance(rt, 0), round(rt, 1)))
}

/// That this instance has decided `7.1 claim a x`, from node 2 to node 0.
fn decision(rt: &impl Abort, number: u32) -> Message {
    message(rt, 2, 0, Body::Decision(instance(rt, number), claim(rt)))
}

/// The request for a command, from node 0 to node 1.
fn request(rt: &impl Abort, command: Command) -> Message {
    message(rt, 0, 1, Body::Request(command))
}

/// What `NACK` says.
fn nack(rt: &impl Abort) -> Message {
    let body = Body::Nack(instance(rt, 1), round(rt, 2_147_483_647));
    message(rt, 0, 1, body)
}

/// What `SUSPECTS` says.
fn suspects(rt: &impl Abort) -> Message {
    let set = NodeSet::empty().with(node(rt, 0)).with(node(rt, 2));
    message(rt, 0, 0, Body::Suspects(set))
}

/// What `ASK` says.
fn ask(rt: &impl Abort) -> Message {
    message(rt, 1, 0, Body::Ask(instance(rt, 3)))
}

/// Asserts that an example says this message, which is spelled so in version 2.
fn assert_says(rt: &impl Abort, alloc: Global, nodes: u8, kind: Kind, message: Message) {
    assert_spelled(rt, alloc, nodes, &message, bytes_of(kind));
}

/// Asserts that an example says this message in version 1.
fn assert_said(rt: &impl Abort, alloc: Global, nodes: u8, kind: Kind, message: Message) {
    assert_read(rt, nodes, &message, &old_bytes_of(rt, alloc, kind));
}

#[test]
fn each_message_both_ways(rt: HostRuntime) {
    let alloc = rt.alloc();
    assert_says(&rt, alloc, 3, Kind::Estimate, estimate(&rt));
    assert_says(&rt, alloc, 7, Kind::Proposal, proposal(&rt));
    assert_says(&rt, alloc, 3, Kind::Ack, ack(&rt));
    assert_says(&rt, alloc, 7, Kind::Decision, decision(&rt, 1_048_575));
    assert_says(&rt, alloc, 2, Kind::Request, request(&rt, transfer(&rt)));
    assert_says(&rt, alloc, 2, Kind::Nack, nack(&rt));
    assert_says(&rt, alloc, 7, Kind::Beat, message(&rt, 6, 5, Body::Beat));
    assert_says(&rt, alloc, 3, Kind::Suspects, suspects(&rt));
    assert_says(&rt, alloc, 2, Kind::Ask, ask(&rt));
}

#[test]
fn each_message_of_version_1(rt: HostRuntime) {
    let alloc = rt.alloc();
    assert_said(&rt, alloc, 3, Kind::Estimate, estimate(&rt));
    assert_said(&rt, alloc, 7, Kind::Proposal, proposal(&rt));
    assert_said(&rt, alloc, 3, Kind::Ack, ack(&rt));
    assert_said(&rt, alloc, 7, Kind::Decision, decision(&rt, 65_535));
    assert_said(&rt, alloc, 2, Kind::Request, request(&rt, release(&rt)));
    assert_said(&rt, alloc, 2, Kind::Nack, nack(&rt));
    assert_said(&rt, alloc, 7, Kind::Beat, message(&rt, 6, 5, Body::Beat));
    assert_said(&rt, alloc, 3, Kind::Suspects, suspects(&rt));
    assert_said(&rt, alloc, 2, Kind::Ask, ask(&rt));
}

/// Whether version 1 has a spelling of a command.
fn is_old_command(command: &Command) -> bool {
    match &command.op {
        Op::Claim(name, _) | Op::Update(name, _) | Op::Release(name) => name.as_bytes().len() <= 32,
        Op::Transfer(_, _) => false,
    }
}

/// Whether version 1 has a spelling of a message.
fn is_old(body: &Body) -> bool {
    match body {
        Body::Estimate(i, e) => i.number() < 65_536 && is_old_command(&e.command()),
        Body::Proposal(i, _, v) | Body::Decision(i, v) => i.number() < 65_536 && is_old_command(v),
        Body::Ack(i, _) | Body::Nack(i, _) | Body::Ask(i) => i.number() < 65_536,
        Body::Request(v) => is_old_command(v),
        Body::Beat | Body::Suspects(_) => true,
    }
}

/// Asserts that bytes are a spelling of this message: that of version 2, or that of version 1, if it has one.
fn assert_spelling(rt: &impl Abort, alloc: Global, message: &Message, bytes: &[u8]) {
    let spelled = encode(alloc, message).expect(rt, "memory");
    assert_same(rt, spelled.get(1..), bytes.get(1..), "a spelling");
    match bytes.first() {
        Some(1) => assert!(rt; is_old(&message.body)),
        first => assert!(rt; first == Some(&2)),
    }
}

/// Asserts that bytes are refused within them, or are a spelling of what is read of them.
fn assert_exact(rt: &impl Abort, alloc: Global, nodes: Nodes, bytes: &[u8]) {
    match decode(nodes, bytes) {
        Ok(message) => assert_spelling(rt, alloc, &message, bytes),
        Err(Refusal::Malformed(offset)) => assert!(rt; offset <= bytes.len() as u64),
        Err(_) => rt.panic("another refusal"),
    }
}

/// Where the field begins that has this place.
fn field_of(fields: &[u8], place: usize) -> u64 {
    let mut found = 0;
    for start in fields {
        if *start as usize <= place {
            found = *start;
        }
    }
    found as u64
}

/// Each byte of an example at each value is exact; cut, it is refused at the field that is cut.
fn sweep(rt: &impl Abort, alloc: Global, nodes: u8, example: &[u8], fields: &[u8]) {
    let all = Nodes::new(nodes).expect(rt, "nodes");
    let mut bytes = example.to_vec(alloc).expect(rt, "memory");
    for (place, kept) in example.iter().enumerate() {
        assert_refused(rt, nodes, &example[..place], field_of(fields, place));
        for byte in 0..=255 {
            put_at(&mut bytes, place, byte);
            assert_exact(rt, alloc, all, &bytes);
        }
        put_at(&mut bytes, place, *kept);
    }
    bytes.push(0).expect(rt, "memory");
    assert_refused(rt, nodes, &bytes, example.len() as u64);
}

/// The examples, each with how many nodes there are at least.
fn each_kind() -> [(Kind, u8); 9] {
    [
        (Kind::Estimate, 3),
        (Kind::Proposal, 7),
        (Kind::Ack, 3),
        (Kind::Decision, 7),
        (Kind::Request, 2),
        (Kind::Nack, 2),
        (Kind::Beat, 7),
        (Kind::Suspects, 3),
        (Kind::Ask, 2),
    ]
}

#[test]
fn each_byte_and_each_cut(rt: HostRuntime) {
    for (kind, nodes) in each_kind() {
        sweep(&rt, rt.alloc(), nodes, bytes_of(kind), fields_of(kind));
    }
}

/// Asserts that, among `nodes` nodes, these bytes are read as a message.
fn assert_taken(rt: &impl Abort, nodes: u8, bytes: &[u8]) {
    let nodes = Nodes::new(nodes).expect(rt, "nodes");
    assert!(rt; decode(nodes, bytes).is_ok());
}

/// Asserts that version 1 refuses bytes of version 2 at this offset.
fn assert_new(rt: &impl Abort, alloc: Global, nodes: u8, bytes: &[u8], offset: u64) {
    assert_taken(rt, nodes, bytes);
    assert_refused(rt, nodes, &with_byte(rt, alloc, bytes, 0, 1), offset);
}

#[test]
fn version_1_has_its_own_limits(rt: HostRuntime) {
    let alloc = rt.alloc();
    // Instance 65,536, the last instance, and a transfer.
    let far = with_byte(&rt, alloc, bytes_of(Kind::Ack), 5, 1);
    assert_new(&rt, alloc, 3, &far, 4);
    assert_new(&rt, alloc, 7, bytes_of(Kind::Decision), 4);
    assert_new(&rt, alloc, 2, bytes_of(Kind::Request), 16);
}

/// A request, as this version spells it, to release the name of `count` letters b.
fn long_request(rt: &impl Abort, alloc: Global, version: u8, count: u8) -> Vec<u8> {
    let mut bytes = old_bytes_of(rt, alloc, Kind::Request);
    put_at(&mut bytes, 0, version);
    put_at(&mut bytes, 17, count);
    bytes
        .resize(18 + usize::from(count), b'b')
        .expect(rt, "memory");
    bytes
}

#[test]
fn names_are_as_long_as_the_version_has_them(rt: HostRuntime) {
    for (version, longest) in [(1, 32), (2, 64)] {
        assert_taken(&rt, 2, &long_request(&rt, rt.alloc(), version, longest));
        let longer = long_request(&rt, rt.alloc(), version, longest + 1);
        assert_refused(&rt, 2, &longer, 17);
    }
}

#[test]
fn decoding_table_of_version_1(rt: HostRuntime) {
    let alloc = rt.alloc();
    let ack = old_bytes_of(&rt, alloc, Kind::Ack);
    assert_faults(&rt, alloc, 3, &ack, &[(11, 0, 8), (3, 10, 3)]);
    assert_refused(&rt, 2, &ack, 1);
    let estimate = old_bytes_of(&rt, alloc, Kind::Estimate);
    let faults = [(15, 1, 12), (28, 0, 28), (29, 0, 29), (31, 65, 31)];
    assert_faults(&rt, alloc, 1, &estimate, &faults);
}

/// Where the fields of an example begin in version 1.
fn old_fields_of(kind: Kind) -> &'static [u8] {
    match kind {
        Kind::Request => cut(fields_of(kind), 9),
        other => fields_of(other),
    }
}

#[test]
fn each_byte_and_each_cut_of_version_1(rt: HostRuntime) {
    for (kind, nodes) in each_kind() {
        let bytes = old_bytes_of(&rt, rt.alloc(), kind);
        sweep(&rt, rt.alloc(), nodes, &bytes, old_fields_of(kind));
    }
}
