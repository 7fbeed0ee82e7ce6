use super::expected::{assert_same, assert_that};
use rr_text::{Answer, Answers, Script, ScriptLine};
use rr_types::{Name, NodeId, Nodes, Refusal, Reply, RequestNo, Value};
use std::alloc::Global;
use std::process::Abort;

/// Texts of scripts for seven nodes: each line in each of its forms, and the ends of their ranges.
static SCRIPTS: [&str; 4] = [
    "",
    "submit 0 7 1 claim a x\nlook 0 a\nsubmit 0 8 1 claim a z\nlook 0 b\n",
    "submit 6 4294967295 18446744073709551615 update name-09\nsubmit 5 0 0 release a\nsubmit 4 7 2 transfer a 4294967295\n",
    "look 6 abcdefghijklmnopqrstuvwxyz0123456789-abcdefghijklmnopqrstuvwxyz0\nlook 0 -\nlook 0 -\n",
];

/// Bytes that are no script for two nodes, and the line at fault, from 1.
static FAULTS: [(&str, u64); 28] = [
    ("\n", 1),
    ("look 0 a", 1),
    ("look 0 a\nlook 0 b", 2),
    ("look 0 a\n\nlook 0 b\n", 2),
    ("look 0 a\nlook 0 b\n\n", 3),
    ("look 0 a\r\n", 1),
    ("look 2 a\n", 1),
    ("look 1 a\nlook 7 a\nlook 8 a\n", 2),
    ("look 00 a\n", 1),
    ("look -1 a\n", 1),
    ("look a\n", 1),
    ("look 0\n", 1),
    ("look 0 \n", 1),
    ("look  0 a\n", 1),
    ("look 0  a\n", 1),
    ("look 0 a \n", 1),
    ("look 0 a b\n", 1),
    ("look 0 A\n", 1),
    (
        "look 0 abcdefghijklmnopqrstuvwxyz0123456789-abcdefghijklmnopqrstuvwxyz01\n",
        1,
    ),
    ("LOOK 0 a\n", 1),
    (" look 0 a\n", 1),
    ("nodes 2\nlook 0 a\n", 1),
    ("tick 0\n", 1),
    (
        "look 0 a\nsubmit 0 7 1 claim a x\nsubmit 2 7 2 claim a x\n",
        3,
    ),
    ("submit 0 4294967296 1 claim a\n", 1),
    ("submit 0 7 18446744073709551616 claim a\n", 1),
    ("submit 0 7 1 claim\n", 1),
    ("submit 0 7.1 claim a x\n", 1),
];

/// The answers to the script of one node, and to lines that got none.
const ANSWERS: &str =
    "ack 0 7.1 claimed\nlook 0 a 7:x\nack 0 8.1 taken 7\nlook 0 b free\nnone 6 4294967295.18446744073709551615\nlook 6 a 9:\nlook 6 a none\n";

/// These scripts. (A test that names a table itself is proved over each of its rows.)
fn scripts() -> &'static [&'static str] {
    &SCRIPTS
}

/// These faults.
fn faults() -> &'static [(&'static str, u64)] {
    &FAULTS
}

fn nodes_of(rt: &impl Abort, count: u8) -> Nodes {
    Nodes::new(count).expect(rt, "1 to 7")
}

fn node_of(rt: &impl Abort, index: u8) -> NodeId {
    NodeId::at(index).expect(rt, "0 to 6")
}

fn name_of(rt: &impl Abort, text: &str) -> Name {
    Name::new(text.as_bytes()).expect(rt, "a name")
}

fn bound_of(rt: &impl Abort, node: NodeId, name: Name, owner: u32, value: &str) -> Answer {
    let value = Value::new(value.as_bytes()).expect(rt, "a value");
    Answer::Bound {
        node,
        name,
        owner,
        value,
    }
}

fn answers_of(rt: &impl Abort, alloc: Global) -> Vec<Answer> {
    let first = node_of(rt, 0);
    let last = node_of(rt, 6);
    let name = name_of(rt, "a");
    let answers = [
        Answer::Acknowledged {
            node: first,
            request: RequestNo { client: 7, seq: 1 },
            reply: Reply::Claimed,
        },
        bound_of(rt, first, name, 7, "x"),
        Answer::Acknowledged {
            node: first,
            request: RequestNo { client: 8, seq: 1 },
            reply: Reply::Taken(7),
        },
        Answer::Free {
            node: first,
            name: name_of(rt, "b"),
        },
        Answer::Unacknowledged {
            node: last,
            request: RequestNo {
                client: u32::MAX,
                seq: u64::MAX,
            },
        },
        bound_of(rt, last, name, 9, ""),
        Answer::Unseen { node: last, name },
    ];
    Vec::from_array(alloc, answers).expect(rt, "memory")
}

#[test]
fn scripts_are_printed_as_they_were_read(rt: HostRuntime) {
    let nodes = nodes_of(&rt, 7);
    for text in scripts() {
        let script = Script::parse(rt.alloc(), nodes, text.as_bytes()).expect(&rt, "a text");
        let printed = script.text(rt.alloc()).expect(&rt, "memory");
        let is_same = printed.as_slice() == text.as_bytes() && script.nodes() == nodes;
        assert_that(&rt, is_same, *text);
    }
}

#[test]
fn faulty_lines_of_scripts_are_told(rt: HostRuntime) {
    let nodes = nodes_of(&rt, 2);
    for (text, line) in faults() {
        let refused = Script::parse(rt.alloc(), nodes, text.as_bytes()).err();
        assert_same(&rt, refused, Some(Refusal::BadEvent(*line)), *text);
    }
}

#[test]
fn lines_are_what_is_asked(rt: HostRuntime) {
    let text = b"look 1 a\nsubmit 0 7 1 release b\n";
    let script = Script::parse(rt.alloc(), nodes_of(&rt, 2), text).expect(&rt, "a text");
    match script.lines() {
        [look, submit] => {
            assert!(rt; matches!(look, ScriptLine::Look { .. }));
            assert!(rt; matches!(submit, ScriptLine::Submit { .. }));
            assert!(rt; look.node().index() == 1 && submit.node().index() == 0);
        }
        _ => rt.panic("two lines"),
    }
}

#[test]
fn answers_are_printed(rt: HostRuntime) {
    let answers = Answers::new(answers_of(&rt, rt.alloc()));
    let printed = answers.text(rt.alloc()).expect(&rt, "memory");
    assert!(rt; printed.as_slice() == ANSWERS.as_bytes());
}
