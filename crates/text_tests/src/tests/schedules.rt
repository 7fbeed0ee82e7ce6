use super::event_texts::{
    assert_a_million_at_most, assert_each_byte, assert_each_cut, is_reprinted,
};
use super::expected::{assert_same, assert_that};
use rr_text::{BoundNames, Event, Happening, Report, ReportLine, Schedule};
use rr_types::{
    Binding, Body, Command, Estimate, Input, Instance, Message, Name, NodeEvent, NodeId, NodeSet,
    Nodes, Op, Refusal, Reply, RequestNo, Round, Value,
};
use std::alloc::Global;
use std::process::Abort;

/// Texts of schedules: runs of one and of three nodes, and each event in each of its forms.
static SCHEDULES: [&str; 5] = [
    "nodes 3\n",
    "nodes 1\nrestart 0\ndev 0\ndev 0\ndev 0\ndev 0\ncrash 0 1 0 A5\n",
    "nodes 3\nrestart 0\ndev 0\nsuspect 0 12\nsubmit 0 7 1 claim a x\nsend 0\ntake 0\ndev 0\nmark 0\nack 0\n",
    "nodes 1\nrestart 0\ndev 0\nhear 0 0\ntake 0\nfail 0 A5\nfail 0 -\nsnap 0\ncrash 0 9999 9999 -\nrestart 0\n",
    "nodes 7\nsubmit 6 4294967295 18446744073709551615 claim name-09\nsubmit 0 0 0 update a ~!\nsubmit 1 2 3 update a\nsubmit 2 9 1 release a\nsubmit 3 7 2 transfer a 9\nhear 5 4294967295\nsuspect 4 -\nsuspect 4 0123456\nsuspect 4 6\ntick 0\nadvance 1\nfail 2 00FF1A\ncrash 0 0 4294967295 0123456789ABCDEF\n",
];

/// Texts that are no schedules, and what they are refused with.
static FAULTS: [(&str, Refusal); 40] = [
    ("", Refusal::BadEvent(1)),
    ("nodes 1", Refusal::BadEvent(1)),
    ("nodes 0\n", Refusal::BadNodes),
    ("nodes 8\n", Refusal::BadNodes),
    ("nodes 8\nfoo\n", Refusal::BadNodes),
    ("nodes 10\n", Refusal::BadNodes),
    (
        "nodes 100000000000000000000000000000000000000\n",
        Refusal::BadNodes,
    ),
    ("nodes 08\n", Refusal::BadEvent(1)),
    ("nodes 01\n", Refusal::BadEvent(1)),
    ("nodes -1\n", Refusal::BadEvent(1)),
    ("nodes \n", Refusal::BadEvent(1)),
    ("nodes  1\n", Refusal::BadEvent(1)),
    ("nodes 8", Refusal::BadEvent(1)),
    ("nodes 1 \n", Refusal::BadEvent(1)),
    ("\nnodes 1\n", Refusal::BadEvent(1)),
    ("nodes 1\nhear 0 4294967296\n", Refusal::BadEvent(2)),
    ("nodes 1\ndev 0", Refusal::BadEvent(2)),
    ("nodes 1\ndev 1\n", Refusal::BadEvent(2)),
    ("nodes 1\ndev 00\n", Refusal::BadEvent(2)),
    ("nodes 2\nsuspect 0 10\n", Refusal::BadEvent(2)),
    ("nodes 1\ndev  0\n", Refusal::BadEvent(2)),
    ("nodes 1\nhear 0 01\n", Refusal::BadEvent(2)),
    ("nodes 1\ndev 0\n\n", Refusal::BadEvent(3)),
    ("nodes 1\ndev 0\ndev 0 \n", Refusal::BadEvent(3)),
    ("nodes 1\ndev 0\ndev 0\r\n", Refusal::BadEvent(3)),
    (
        "nodes 1\ndev 0\ndev 0\nDEV 0\ndev 9\n",
        Refusal::BadEvent(4),
    ),
    ("nodes 2\nsuspect 0 2\n", Refusal::BadEvent(2)),
    ("nodes 2\nsuspect 0 00\n", Refusal::BadEvent(2)),
    ("nodes 2\nsuspect 0 \n", Refusal::BadEvent(2)),
    ("nodes 1\nfail 0 a5\n", Refusal::BadEvent(2)),
    ("nodes 1\nfail 0 A\n", Refusal::BadEvent(2)),
    ("nodes 1\nfail 0 \n", Refusal::BadEvent(2)),
    ("nodes 1\ncrash 0 0 4294967296 -\n", Refusal::BadEvent(2)),
    (
        "nodes 1\nsubmit 0 4294967296 1 claim a\n",
        Refusal::BadEvent(2),
    ),
    (
        "nodes 1\nsubmit 0 1 18446744073709551616 claim a\n",
        Refusal::BadEvent(2),
    ),
    ("nodes 1\nsubmit 0 7 1 claim A\n", Refusal::BadEvent(2)),
    ("nodes 1\nsubmit 0 7 1 claim a \n", Refusal::BadEvent(2)),
    ("nodes 1\nsubmit 0 7 1 claim a x y\n", Refusal::BadEvent(2)),
    ("nodes 1\nsubmit 0 7 1 release a x\n", Refusal::BadEvent(2)),
    ("nodes 1\nsubmit 0 7.1 claim a x\n", Refusal::BadEvent(2)),
];

/// These schedules. (A test that names a table itself is proved over each of its rows.)
fn schedules() -> &'static [&'static str] {
    &SCHEDULES
}

/// These faults.
fn faults() -> &'static [(&'static str, Refusal)] {
    &FAULTS
}

/// The last of the schedules, which has each event.
fn each_event() -> &'static [u8] {
    match schedules().split_last() {
        Some((text, _)) => text.as_bytes(),
        None => &[],
    }
}

#[test]
fn schedules_are_printed_as_they_were_read(rt: HostRuntime) {
    for text in schedules() {
        assert_that(&rt, is_reprinted::<Schedule>(&rt, rt.alloc(), text), *text);
    }
}

#[test]
fn faults_are_told(rt: HostRuntime) {
    for (text, refusal) in faults() {
        let refused = Schedule::parse(rt.alloc(), text.as_bytes()).err();
        assert_same(&rt, refused, Some(*refusal), *text);
    }
}

#[test]
fn no_other_byte_is_taken_for_it(rt: HostRuntime) {
    assert_each_byte::<Schedule>(&rt, rt.alloc(), each_event());
}

#[test]
fn a_text_that_is_cut_is_refused_or_printed(rt: HostRuntime) {
    assert_each_cut::<Schedule>(&rt, rt.alloc(), each_event());
}

/// Asserts that an event is that node 2 is asked for `7.1 claim a x`.
fn assert_submitted(rt: &impl Abort, event: &Event) {
    assert!(rt; event.node.index() == 2);
    match &event.what {
        Happening::At(NodeEvent::Told(Input::Submit(command))) => {
            assert!(rt; command.request == RequestNo { client: 7, seq: 1 });
            let claim = Op::Claim(name_of(rt, "a"), value_of(rt, "x"));
            assert!(rt; command.op.is_same(&claim));
        }
        _ => rt.panic("another event"),
    }
}

/// Asserts that an event is that node 1 hears the message with number 5.
fn assert_heard(rt: &impl Abort, event: &Event) {
    assert!(rt; event.node.index() == 1);
    match &event.what {
        Happening::At(NodeEvent::Told(Input::Hear(message))) => assert!(rt; *message == 5),
        _ => rt.panic("another event"),
    }
}

/// Asserts that an event is that nodes 1 and 2 are suspected.
fn assert_suspected(rt: &impl Abort, event: &Event) {
    match &event.what {
        Happening::At(NodeEvent::Told(Input::Suspect(set))) => assert!(rt; set.bits() == 6),
        _ => rt.panic("another event"),
    }
}

/// Asserts that an event is a crash with these cuts and this fill.
fn assert_crashed(rt: &impl Abort, event: &Event) {
    match &event.what {
        Happening::Crash { cut_0, cut_1, fill } => {
            assert!(rt; *cut_0 == 3 && *cut_1 == 4);
            assert!(rt; fill.as_bytes() == [0xA5u8, 0x0F].as_slice());
        }
        _ => rt.panic("another event"),
    }
}

#[test]
fn what_is_read_is_what_is_written(rt: HostRuntime) {
    let text = "nodes 3\nsubmit 2 7 1 claim a x\nhear 1 5\nsuspect 0 12\ncrash 0 3 4 A50F\n";
    let schedule = Schedule::parse(rt.alloc(), text.as_bytes()).expect(&rt, "a text");
    assert!(rt; schedule.nodes().count() == 3);
    match schedule.events() {
        [submitted, heard, suspected, crashed] => {
            assert_submitted(&rt, submitted);
            assert_heard(&rt, heard);
            assert_suspected(&rt, suspected);
            assert_crashed(&rt, crashed);
        }
        _ => rt.panic("other events"),
    }
}

#[test]
fn the_millionth_event_is_the_last(rt: HostRuntime) {
    assert_a_million_at_most::<Schedule>(&rt, rt.alloc());
}

/// A schedule of one failing call, whose fill has five million bytes and whose line has no end.
fn long_line(rt: &impl Abort, alloc: Global) -> Vec<u8> {
    let mut text = b"nodes 1\nfail 0 ".to_vec(alloc).expect(rt, "memory");
    for _ in 0..5_000_000 {
        text.extend_from_slice(b"A5").expect(rt, "memory");
    }
    text
}

#[test]
fn a_line_of_ten_megabytes_is_refused(rt: HostRuntime) {
    let mut text = long_line(&rt, rt.alloc());
    let refused = Schedule::parse(rt.alloc(), &text).err();
    assert!(rt; refused == Some(Refusal::BadEvent(2)));
    text.extend_from_slice(b"\n").expect(&rt, "memory");
    let schedule = Schedule::parse(rt.alloc(), &text).expect(&rt, "a text");
    assert!(rt; schedule.text(rt.alloc()).expect(&rt, "memory").as_slice() == text.as_slice());
}

fn name_of(rt: &impl Abort, text: &str) -> Name {
    Name::new(text.as_bytes()).expect(rt, "a name")
}

fn value_of(rt: &impl Abort, text: &str) -> Value {
    Value::new(text.as_bytes()).expect(rt, "a value")
}

fn command(op: Op) -> Command {
    Command {
        request: RequestNo { client: 7, seq: 1 },
        op,
    }
}

/// Appends that node 0 sends a message with this body to node 2.
fn push_sent(rt: &impl Abort, lines: &mut Vec<ReportLine>, body: Body) {
    let from = NodeId::at(0).expect(rt, "node 0");
    let to = NodeId::at(2).expect(rt, "node 2");
    let number = lines.len() as u64;
    let message = Message { from, to, body };
    lines
        .push(ReportLine::Send { number, message })
        .expect(rt, "memory");
}

fn push_replied(rt: &impl Abort, lines: &mut Vec<ReportLine>, reply: Reply) {
    let node = NodeId::at(1).expect(rt, "node 1");
    let request = RequestNo { client: 7, seq: 1 };
    lines
        .push(ReportLine::Ack {
            node,
            request,
            reply,
        })
        .expect(rt, "memory");
}

fn claim(rt: &impl Abort) -> Command {
    command(Op::Claim(name_of(rt, "a"), value_of(rt, "x")))
}

/// The bodies of messages that have an instance.
fn of_instance(rt: &impl Abort) -> [Body; 6] {
    let transfer = command(Op::Transfer(name_of(rt, "a"), 9));
    let instance = Instance::new(5).expect(rt, "instance 5");
    let round = Round::new(3).expect(rt, "round 3");
    let estimate = Estimate::new(round, 2, claim(rt)).expect(rt, "an estimate");
    [
        Body::Estimate(instance, estimate),
        Body::Proposal(instance, round, claim(rt)),
        Body::Ack(instance, round),
        Body::Decision(instance, transfer),
        Body::Request(claim(rt)),
        Body::Nack(instance, round),
    ]
}

/// The bodies of the others, and of a question for an instance.
fn of_none(rt: &impl Abort) -> [Body; 4] {
    let nodes = Nodes::new(3).expect(rt, "nodes");
    [
        Body::Beat,
        Body::Suspects(NodeSet::empty()),
        Body::Suspects(NodeSet::from_bits(nodes, 6).expect(rt, "a set")),
        Body::Ask(Instance::new(5).expect(rt, "instance 5")),
    ]
}

/// The lines of messages, one of each body.
fn messages(rt: &impl Abort, alloc: Global) -> Vec<ReportLine> {
    let mut lines = Vec::new(alloc);
    for body in of_instance(rt) {
        push_sent(rt, &mut lines, body);
    }
    for body in of_none(rt) {
        push_sent(rt, &mut lines, body);
    }
    lines
}

#[test]
fn messages_are_printed(rt: HostRuntime) {
    let report = Report::new(messages(&rt, rt.alloc()), Vec::new(rt.alloc()));
    let text = "send 0 0 2 estimate 5 3 2 7.1 claim a x
send 1 0 2 proposal 5 3 7.1 claim a x
send 2 0 2 ack 5 3
send 3 0 2 decision 5 7.1 transfer a 9
send 4 0 2 request 7.1 claim a x
send 5 0 2 nack 5 3
send 6 0 2 beat
send 7 0 2 suspects -
send 8 0 2 suspects 12
send 9 0 2 ask 5
decided 0
";
    let printed = report.text(rt.alloc()).expect(&rt, "memory");
    assert_same(&rt, printed.as_slice(), text.as_bytes(), "a report");
}

/// The lines of acknowledgements with each reply.
fn replied(rt: &impl Abort, alloc: Global) -> Vec<ReportLine> {
    let mut lines = Vec::new(alloc);
    let replies = [
        Reply::Claimed,
        Reply::Updated,
        Reply::Released,
        Reply::Transferred,
        Reply::Taken(9),
        Reply::Unknown,
        Reply::NotOwner,
        Reply::Full,
    ];
    for reply in replies {
        push_replied(rt, &mut lines, reply);
    }
    lines
}

fn binding(rt: &impl Abort, name: &str, owner: u32, value: &str) -> Binding {
    Binding {
        name: name_of(rt, name),
        owner,
        value: value_of(rt, value),
    }
}

/// The line of a restart of node 0 behind eight facts, with two decided commands and two bound names.
fn restarted(rt: &impl Abort, alloc: Global) -> ReportLine {
    let bindings = [binding(rt, "a", 7, "x"), binding(rt, "b", 8, "")];
    let bindings = Vec::from_array(alloc, bindings).expect(rt, "memory");
    ReportLine::Restart {
        node: NodeId::at(0).expect(rt, "node 0"),
        facts: 8,
        decided: 2,
        bindings: BoundNames::new(bindings),
    }
}

/// The decided commands.
fn decided(rt: &impl Abort, alloc: Global) -> Vec<Command> {
    let commands = [claim(rt), command(Op::Release(name_of(rt, "b")))];
    Vec::from_array(alloc, commands).expect(rt, "memory")
}

#[test]
fn replies_restarts_and_refusals_are_printed(rt: HostRuntime) {
    let mut lines = replied(&rt, rt.alloc());
    let restart = restarted(&rt, rt.alloc());
    lines.push(restart).expect(&rt, "memory");
    let refusal = Refusal::Damaged {
        area: 0,
        offset: 155,
    };
    let refused = ReportLine::Refuse { line: 5, refusal };
    lines.push(refused).expect(&rt, "memory");
    let report = Report::new(lines, decided(&rt, rt.alloc()));
    let text = "ack 1 7.1 claimed
ack 1 7.1 updated
ack 1 7.1 released
ack 1 7.1 transferred
ack 1 7.1 taken 9
ack 1 7.1 unknown
ack 1 7.1 notowner
ack 1 7.1 full
restart 0 8 2 a=7:x b=8:
refuse 5 3 Damaged
decided 2
0 7.1 claim a x
1 7.1 release b
";
    let printed = report.text(rt.alloc()).expect(&rt, "memory");
    assert_same(&rt, printed.as_slice(), text.as_bytes(), "a report");
}
