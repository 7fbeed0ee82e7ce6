mod rows;

use super::event_texts::{
    assert_a_million_at_most, assert_each_byte, assert_each_cut, is_reprinted,
};
use super::expected::{assert_same, assert_that};
use rows::TAPES as ROWS;
use rr_text::{Recorded, Tape, TapeEvent};
use rr_types::{Body, Command, Input, Name, Op, Refusal, Reply, RequestNo, Value};
use std::process::Abort;

/// Texts of tapes: each event, each message and each reply in each of its forms, and the ends of their ranges.
static TAPES: [&str; 4] = [
    "nodes 3\n",
    "nodes 7\nsubmit 6 4294967295 18446744073709551615 claim name-09\nsubmit 0 7 2 transfer a 9\nhear 5 4294967295\nsuspect 4 -\nsuspect 4 0123456\ntick 0\nadvance 1\ntake 2\nmark 3\n",
    "nodes 7\nsend 0 0 6 estimate 1048575 2147483647 2147483646 7.1 claim a x\nsend 4294967295 1 2 proposal 0 1 7.1 update a\nsend 2 0 0 ack 0 1\nsend 3 0 1 decision 5 7.1 transfer a 9\nsend 4 0 1 request 4294967295.18446744073709551615 release a\nsend 5 0 1 nack 5 3\nsend 6 0 1 beat\nsend 7 0 1 suspects -\nsend 8 0 1 suspects 12\nsend 9 0 1 ask 1048575\n",
    "nodes 2\nack 0 7.1 claimed\nack 1 0.0 updated\nack 0 7.1 released\nack 0 7.1 transferred\nack 0 7.1 taken 4294967295\nack 0 7.1 unknown\nack 0 7.1 notowner\nack 0 7.1 full\n",
];

/// Bytes that are no tape, and what they are refused with.
static FAULTS: [(&str, Refusal); 16] = [
    ("", Refusal::BadEvent(1)),
    ("nodes 1", Refusal::BadEvent(1)),
    ("nodes 0\n", Refusal::BadNodes),
    ("nodes 8\nfoo\n", Refusal::BadNodes),
    ("nodes 08\n", Refusal::BadEvent(1)),
    ("nodes  1\n", Refusal::BadEvent(1)),
    ("nodes 1\ntick 0", Refusal::BadEvent(2)),
    ("nodes 1\n\ntick 0\n", Refusal::BadEvent(2)),
    ("nodes 1\ntick 0\ntick 1\ntick 2\n", Refusal::BadEvent(3)),
    ("nodes 1\ntick 0\nTICK 0\n", Refusal::BadEvent(3)),
    ("nodes 1\ntick 00\n", Refusal::BadEvent(2)),
    ("nodes 1\ntick  0\n", Refusal::BadEvent(2)),
    ("nodes 1\nsend 0 0 0 beat", Refusal::BadEvent(2)),
    ("nodes 2\nsuspect 0 10\n", Refusal::BadEvent(2)),
    ("nodes 2\nsuspect 0 2\n", Refusal::BadEvent(2)),
    (
        "nodes 1\nsubmit 0 4294967296 1 claim a\n",
        Refusal::BadEvent(2),
    ),
];

/// Lines that have no place on a tape of three nodes.
static FAULTY_LINES: [&str; 48] = [
    "restart 0",
    "dev 0",
    "fail 0 -",
    "snap 0",
    "crash 0 0 0 -",
    "send 0",
    "ack 0",
    "restart 0 0 0",
    "refuse 2 5 Down",
    "decided 0",
    "hear 0 4294967296",
    "send 00 0 0 beat",
    "send 4294967296 0 0 beat",
    "send 0 3 0 beat",
    "send 0 0 3 beat",
    "send 0 00 0 beat",
    "send 0 0 0  beat",
    "send 0 0 0 beat ",
    "send 0 0 0 beat 1",
    "send 0 0 0 Beat",
    "send 0 0 0 ask",
    "send 0 0 0 ask 01",
    "send 0 0 0 ask 1048576",
    "send 0 0 0 ack 0 0",
    "send 0 0 0 ack 0 2147483648",
    "send 0 0 0 nack 1048576 1",
    "send 0 0 0 estimate 0 1 1 7.1 claim a x",
    "send 0 0 0 estimate 0 0 0 7.1 claim a x",
    "send 0 0 0 estimate 0 2147483648 0 7.1 claim a x",
    "send 0 0 0 estimate 1048576 1 0 7.1 claim a x",
    "send 0 0 0 proposal 0 0 7.1 claim a x",
    "send 0 0 0 decision 0 7 claim a x",
    "send 0 0 0 request 7.01 release a",
    "send 0 0 0 request 4294967296.1 release a",
    "send 0 0 0 request 7.18446744073709551616 release a",
    "send 0 0 0 request 7.1 claim A",
    "send 0 0 0 request 7.1 transfer a 4294967296",
    "send 0 0 0 suspects 21",
    "send 0 0 0 suspects 3",
    "ack 0 7.1",
    "ack 0 7.1 done",
    "ack 0 7.1 claimed 7",
    "ack 0 7.1 taken",
    "ack 0 7.1 taken 07",
    "ack 0 7.1 taken 4294967296",
    "ack 3 7.1 claimed",
    "ack 0 7 claimed",
    "ack 0 7.1.1 claimed",
];

/// These tapes. (A test that names a table itself is proved over each of its rows.)
fn tapes() -> &'static [&'static str] {
    &TAPES
}

/// Tapes of runs, each with its name.
fn of_runs() -> &'static [(&'static str, &'static str)] {
    &ROWS
}

/// These faults.
fn faults() -> &'static [(&'static str, Refusal)] {
    &FAULTS
}

/// These lines.
fn faulty_lines() -> &'static [&'static str] {
    &FAULTY_LINES
}

#[test]
fn tapes_are_printed_as_they_were_read(rt: HostRuntime) {
    for text in tapes() {
        assert_that(&rt, is_reprinted::<Tape>(&rt, rt.alloc(), text), *text);
    }
}

#[test]
fn rows_are_printed_as_they_were_read(rt: HostRuntime) {
    for (name, text) in of_runs() {
        assert_that(&rt, is_reprinted::<Tape>(&rt, rt.alloc(), text), *name);
    }
}

#[test]
fn faults_are_told(rt: HostRuntime) {
    for (text, refusal) in faults() {
        let refused = Tape::parse(rt.alloc(), text.as_bytes()).err();
        assert_same(&rt, refused, Some(*refusal), *text);
    }
}

#[test]
fn faulty_lines_are_told(rt: HostRuntime) {
    for line in faulty_lines() {
        let text = format!(in rt.alloc(); "nodes 3\ntick 0\n{line}\ntick 0\n");
        let text = text.expect(&rt, "memory");
        let refused = Tape::parse(rt.alloc(), text.as_bytes()).err();
        assert_same(&rt, refused, Some(Refusal::BadEvent(3)), *line);
    }
}

#[test]
fn no_other_byte_is_taken_for_it(rt: HostRuntime) {
    for text in tapes() {
        assert_each_byte::<Tape>(&rt, rt.alloc(), text.as_bytes());
    }
}

#[test]
fn a_text_that_is_cut_is_refused_or_printed(rt: HostRuntime) {
    for text in tapes() {
        assert_each_cut::<Tape>(&rt, rt.alloc(), text.as_bytes());
    }
}

#[test]
fn the_millionth_event_is_the_last(rt: HostRuntime) {
    assert_a_million_at_most::<Tape>(&rt, rt.alloc());
}

/// Asserts that an event is that node 1 hears the message with number 5.
fn assert_heard(rt: &impl Abort, event: &TapeEvent) {
    match event {
        TapeEvent {
            node,
            what: Recorded::Told(Input::Hear(message)),
        } => assert!(rt; node.index() == 1 && *message == 5),
        _ => rt.panic("another event"),
    }
}

/// Asserts that a message is the estimate `7.1 claim a x` with stamp 2 in round 3 of instance 5.
fn assert_estimate(rt: &impl Abort, body: &Body) {
    let Body::Estimate(instance, estimate) = body else {
        rt.panic("another message")
    };
    assert!(rt; instance.number() == 5);
    assert!(rt; estimate.round().number() == 3 && estimate.stamp() == 2);
    assert_claim(rt, &estimate.command());
}

/// Asserts that a command is `7.1 claim a x`.
fn assert_claim(rt: &impl Abort, command: &Command) {
    assert!(rt; command.request == RequestNo { client: 7, seq: 1 });
    let name = Name::new(b"a").expect(rt, "a name");
    let value = Value::new(b"x").expect(rt, "a value");
    assert!(rt; command.op.is_same(&Op::Claim(name, value)));
}

/// Asserts that an event is that node 0 sends this to node 2, as message 4.
fn assert_sent(rt: &impl Abort, event: &TapeEvent) {
    match event {
        TapeEvent {
            node,
            what: Recorded::Sent { number, message },
        } => {
            assert!(rt; node.index() == 0 && *number == 4);
            assert!(rt; message.from.index() == 0 && message.to.index() == 2);
            assert_estimate(rt, &message.body);
        }
        _ => rt.panic("another event"),
    }
}

/// Asserts that an event is that node 2 acknowledges request 7.1, taken by client 9.
fn assert_acknowledged(rt: &impl Abort, event: &TapeEvent) {
    match event {
        TapeEvent {
            node,
            what: Recorded::Acked {
                request,
                reply: Reply::Taken(owner),
            },
        } => {
            let wanted = RequestNo { client: 7, seq: 1 };
            assert!(rt; node.index() == 2 && *request == wanted && *owner == 9);
        }
        _ => rt.panic("another event"),
    }
}

#[test]
fn what_is_read_is_what_is_written(rt: HostRuntime) {
    let text = b"nodes 3\nhear 1 5\nsend 4 0 2 estimate 5 3 2 7.1 claim a x\nack 2 7.1 taken 9\n";
    let tape = Tape::parse(rt.alloc(), text).expect(&rt, "a text");
    assert!(rt; tape.nodes().count() == 3);
    match tape.events() {
        [heard, sent, acknowledged] => {
            assert_heard(&rt, heard);
            assert_sent(&rt, sent);
            assert_acknowledged(&rt, acknowledged);
        }
        _ => rt.panic("other events"),
    }
}
