//! A flush beside another one, and one whose device call fails.

use super::expected::alone;
use rr_disk::{FailingDisk, MemDisk};
use rr_journal::{Body, Job, Journal};
use rr_types::{Command, Fact, Group, Instance, Name, Op, Refusal, RequestNo};
use std::alloc::Global;
use std::process::Abort;

/// A group of one fact, a node's first.
pub fn first_fact(rt: &impl Abort, alloc: Global) -> Group {
    let command = Command {
        request: RequestNo { client: 7, seq: 1 },
        op: Op::Release(Name::new(b"a").expect(rt, "a name")),
    };
    let decide = Fact::Decide(Instance::new(0).expect(rt, "an instance"), command);
    let facts = [decide].to_vec(alloc).expect(rt, "memory");
    Group::new(0, facts).expect(rt, "a group")
}

/// Asserts that a flush is refused so, and that its group is handed back.
fn refused(
    rt: &impl Abort,
    alloc: Global,
    journal: &mut Journal<FailingDisk<MemDisk>>,
    because: Refusal,
) {
    match journal.begin(alloc, first_fact(rt, alloc)) {
        Ok(job) => {
            job.abandon();
            assert!(rt; false, "a flush was begun");
        }
        Err((refusal, group)) => {
            assert_eq!(rt; refusal, because);
            assert_eq!(rt; group.facts().len(), 1);
        }
    }
}

/// Asserts that the next device call of a flush fails.
fn assert_failing(rt: &impl Abort, job: Job<Body>, journal: &mut Journal<FailingDisk<MemDisk>>) {
    match job.step(journal) {
        Ok(next) => {
            next.abandon();
            assert!(rt; false, "a failing write was done");
        }
        Err(refusal) => assert_eq!(rt; refusal, Refusal::Device),
    }
}

/// A journal is busy while a flush runs, and has failed from its failing device call on.
#[test]
fn a_journal_that_failed_is_left_alone(rt: HostRuntime) {
    let alloc = rt.alloc();
    let (nodes, node) = alone(&rt);
    let disk = FailingDisk::new(MemDisk::new(alloc));
    let opening = Journal::open(alloc, nodes, node, disk);
    let (mut journal, _opened) = opening.expect(&rt, "an opening");
    let begun = journal.begin(alloc, first_fact(&rt, alloc));
    let job = begun.expect(&rt, "a flush");
    refused(&rt, alloc, &mut journal, Refusal::Busy);
    journal.fail_next(Vec::new(alloc));
    assert_failing(&rt, job, &mut journal);
    assert!(rt; journal.has_failed());
    refused(&rt, alloc, &mut journal, Refusal::Failed);
}
