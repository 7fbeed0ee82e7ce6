//! An area that is filled to its last byte.

use super::nowhere::Nowhere;
use rr_journal::Journal;
use rr_types::{
    Command, Estimate, Fact, Group, Instance, Name, NodeId, Nodes, Op, Refusal, RequestNo, Round,
    Value,
};
use std::alloc::Global;
use std::process::Abort;

/// The number of facts in a full group.
const FACTS: usize = 64;

/// An empty snapshot ends at gate 28. A fact `Enter` of a name and a value of 64 bytes has 156 bytes, so a full group
/// has 10 and 64 times 156, and moves the gate by 9,999. Behind 429,539 such groups the gate is at 4,294,960,489.
const GROUPS: u64 = 429_539;

/// A frame that ends at byte 4,294,967,295, the area's last, then has a payload of 6,800 bytes: 10, 43 times 156, and
/// a fact of 82. Such a fact has 28 bytes, a name of one and a value of 53.
const LAST_FACTS: usize = 43;

const LAST_VALUE: usize = 53;

/// A fact by which an instance enters its first round, with this name and value.
fn entered(rt: &impl Abort, name: &[u8], value: &[u8]) -> Fact {
    let command = Command {
        request: RequestNo { client: 7, seq: 1 },
        op: Op::Claim(
            Name::new(name).expect(rt, "a name"),
            Value::new(value).expect(rt, "a value"),
        ),
    };
    let round = Round::new(1).expect(rt, "a round");
    let estimate = Estimate::new(round, 0, command).expect(rt, "an estimate");
    Fact::Enter(Instance::new(0).expect(rt, "an instance"), estimate)
}

/// The fact of 156 bytes.
fn long_fact(rt: &impl Abort) -> Fact {
    entered(rt, &[b'a'; 64], &[b'x'; 64])
}

/// A group of `count` facts of 156 bytes each, and then of the fact `last`.
fn group_of(rt: &impl Abort, alloc: Global, serial: u64, count: usize, last: Fact) -> Group {
    let mut facts = Vec::new(alloc);
    for _ in 0..count {
        facts.push(long_fact(rt)).expect(rt, "memory");
    }
    facts.push(last).expect(rt, "memory");
    Group::new(serial, facts).expect(rt, "a group")
}

/// A full group of these facts.
fn full_group(rt: &impl Abort, alloc: Global, serial: u64) -> Group {
    group_of(rt, alloc, serial, FACTS - 1, long_fact(rt))
}

/// The group that, after the full groups, ends where the area does, but for `more` extra bytes in its last value.
fn last_group(rt: &impl Abort, alloc: Global, more: usize) -> Group {
    let value = [b'x'; 64];
    let last = entered(rt, b"a", &value[..LAST_VALUE.saturating_add(more).min(64)]);
    let serial = GROUPS.saturating_mul(FACTS as u64);
    group_of(rt, alloc, serial, LAST_FACTS, last)
}

/// Flushes a group, and gives its facts back.
fn flush(
    rt: &impl Abort,
    alloc: Global,
    journal: &mut Journal<Nowhere>,
    group: Group,
) -> Vec<Fact> {
    let job = journal.begin(alloc, group).expect(rt, "room");
    let job = job.step(journal).expect(rt, "a write");
    let job = job.step(journal).expect(rt, "a sync");
    let job = job.step(journal).expect(rt, "a write");
    let synced = job.step(journal).expect(rt, "a sync");
    synced.into_group().into_facts()
}

/// Flushes the full groups, one after another, with the same facts.
fn fill(rt: &impl Abort, alloc: Global, journal: &mut Journal<Nowhere>) {
    let mut facts = full_group(rt, alloc, 0).into_facts();
    for number in 0..GROUPS {
        let serial = number.saturating_mul(FACTS as u64);
        let group = Group::new(serial, facts).expect(rt, "a group");
        facts = flush(rt, alloc, journal, group);
    }
}

/// A group finds no room, and is handed back.
fn assert_too_large(rt: &impl Abort, alloc: Global, journal: &mut Journal<Nowhere>, group: Group) {
    let count = group.facts().len();
    match journal.begin(alloc, group) {
        Ok(job) => {
            job.abandon();
            assert!(rt; false, "a flush was begun");
        }
        Err((refusal, group)) => {
            assert_eq!(rt; refusal, Refusal::TooLarge);
            assert_eq!(rt; group.facts().len(), count);
        }
    }
}

#[test]
fn a_group_that_passes_the_last_byte_is_handed_back(rt: HostRuntime) {
    let alloc = rt.alloc();
    let nodes = Nodes::new(1).expect(&rt, "nodes");
    let node = NodeId::new(nodes, 0).expect(&rt, "a node");
    let opening = Journal::open(alloc, nodes, node, Nowhere::new());
    let (mut journal, _opened) = opening.expect(&rt, "an opening");
    fill(&rt, alloc, &mut journal);
    let serial = GROUPS.saturating_mul(FACTS as u64);
    assert_too_large(&rt, alloc, &mut journal, full_group(&rt, alloc, serial));
    assert_too_large(&rt, alloc, &mut journal, last_group(&rt, alloc, 1));
    // A refusal changes nothing: what ends at the last byte is flushed, and then nothing more.
    drop(flush(&rt, alloc, &mut journal, last_group(&rt, alloc, 0)));
    let small = group_of(&rt, alloc, serial, 0, entered(&rt, b"a", b""));
    assert_too_large(&rt, alloc, &mut journal, small);
}
