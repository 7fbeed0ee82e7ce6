//! The tables in use, with ample memory. What is expected follows from the definitions.

use rr_state::{Instances, Pool, Row, Waiting};
use rr_types::{Command, Fact, Instance, Kept, Name, Op, Refusal, RequestNo, Value, made_of};
use std::alloc::Global;
use std::process::Abort;

fn request(seq: u64) -> RequestNo {
    RequestNo { client: 7, seq }
}

fn command(seq: u64) -> Result<Command, Refusal> {
    Ok(Command {
        request: request(seq),
        op: Op::Claim(Name::new(b"a")?, Value::new(b"x")?),
    })
}

/// An instance that has decided on the command with this request number.
fn decided(number: u32, seq: u64) -> Result<Kept, Refusal> {
    match Instance::new(number) {
        Some(instance) => Ok(Kept::decided(instance, &command(seq)?)),
        None => Err(Refusal::BadName),
    }
}

/// Pushes a command where it isn't there yet.
fn push(rt: &impl Abort, pool: &mut Pool, seq: u64) {
    made_of!(Command, Op);
    let command = command(seq).expect(rt, "memory");
    if !pool.has(command.request) {
        pool.push(&command).expect(rt, "memory");
    }
}

/// Asserts that the first command of a pool has this request number.
fn assert_first(rt: &impl Abort, pool: &Pool, seq: u64) {
    made_of!(Command, Op);
    match pool.iter().next() {
        Some(first) => assert!(rt; first.request.is_same(request(seq))),
        None => assert!(rt; false, "the pool is empty"),
    }
}

#[test]
fn commands_come_and_go_in_order(rt: HostRuntime) {
    made_of!(Command, Op);
    let mut pool = Pool::new(rt.alloc());
    push(&rt, &mut pool, 1);
    assert!(rt; pool.has(request(1)));
    push(&rt, &mut pool, 2);
    pool.remove(request(1));
    assert!(rt; !pool.has(request(1)));
    assert_first(&rt, &pool, 2);
    pool.take_back();
    assert!(rt; pool.iter().next().is_none());
}

#[test]
fn a_request_waits_until_it_is_removed(rt: HostRuntime) {
    let mut waiting = Waiting::new(rt.alloc());
    waiting.push(request(3)).expect(&rt, "memory");
    assert!(rt; waiting.has(request(3)));
    assert!(rt; waiting.iter().next().is_some());
    waiting.remove(request(3));
    assert!(rt; !waiting.has(request(3)));
}

/// Asserts that the open instances are these eight.
fn assert_open(rt: &impl Abort, table: &Instances, numbers: [u32; 8]) {
    let open = table.open();
    assert_eq!(rt; open.len(), 8);
    for (instance, number) in open.iter().zip(&numbers) {
        assert_eq!(rt; instance.number(), *number);
    }
}

/// A table in which instance 2 has decided on the command with request number 1, and which has marked nothing.
fn absorbed(rt: &impl Abort, alloc: Global) -> Instances {
    let mut table = Instances::restored(alloc, &[], 0).expect(rt, "memory");
    assert_open(rt, &table, [0, 1, 2, 3, 4, 5, 6, 7]);
    let entry = decided(2, 1).expect(rt, "memory");
    let row = Row::promised(alloc, 0, &entry).expect(rt, "memory");
    let mut rows = Vec::new(alloc);
    rows.push(row).expect(rt, "memory");
    table.absorb(alloc, &mut rows).expect(rt, "memory");
    table.mark(&[]);
    table
}

/// Asserts that instance 0 has no row, and that an instance above it has decided.
fn assert_decided_above(rt: &impl Abort, table: &Instances) {
    let first = Instance::new(0).expect(rt, "an instance");
    assert!(rt; table.row(first).is_none());
    assert!(rt; table.has_decided_above(first));
}

#[test]
fn a_decided_instance_opens_the_next(rt: HostRuntime) {
    let alloc = rt.alloc();
    let table = absorbed(&rt, alloc);
    assert_open(&rt, &table, [0, 1, 3, 4, 5, 6, 7, 8]);
    assert!(rt; table.undecided_from(2) == 3);
    assert!(rt; table.has_decided(request(1)));
    assert!(rt; !table.has_decided(request(2)));
    assert_decided_above(&rt, &table);
    assert!(rt; table.prefix_len() == 0);
    assert!(rt; table.command_at(0).is_none());
    assert!(rt; table.marked_entries(alloc).expect(&rt, "memory").is_empty());
}
