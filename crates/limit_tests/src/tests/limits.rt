//! A node at each limit.

use super::started::{claim, node_over, open, put_decided, put_head};
use rr_node::{Node, Outcome};
use rr_types::{Input, Message, NodeEvent, Op, Refusal, Reply, made_of};
use std::alloc::Global;
use std::process::Abort;

/// Area 0 behind one fact, by which instance 0 is in the last round, 2,147,483,647, with the stamp 0 and the estimate
/// that client 7 claims `a` for `x` by its request 1.
static LAST_ROUND: [u8; 60] = [
    0xA5, 0, 0, 0, 0x36, 2, 0, 1, 0, 0, 0, 0, 0, 0, 0, 1, 0, 0, 0, 0, 0, 0, 0, 1, 0, 0, 0, 1, 0, 0,
    0, 0, 2, 0x7F, 0xFF, 0xFF, 0xFF, 0, 0, 0, 0, 0, 0, 0, 7, 0, 0, 0, 0, 0, 0, 0, 1, 1, 1, 0x61, 1,
    0x78, 0, 0,
];

/// Area 0 whose next fact has the number 2^64 - 2.
static LAST_FACT: [u8; 29] = [
    0xA5, 0, 0, 0, 0x17, 2, 0, 1, 0, 0, 0, 0, 0, 0, 0, 1, 0xFF, 0xFF, 0xFF, 0xFF, 0xFF, 0xFF, 0xFF,
    0xFE, 0, 0, 0, 0, 0,
];

/// Area 0 of the epoch 2^64 - 2.
static LAST_SWITCH: [u8; 29] = [
    0xA5, 0, 0, 0, 0x17, 2, 0, 1, 0xFF, 0xFF, 0xFF, 0xFF, 0xFF, 0xFF, 0xFF, 0xFE, 0, 0, 0, 0, 0, 0,
    0, 0, 0, 0, 0, 0, 0,
];

/// Area 0 whose first frame is cut short behind its length.
static CUT_FRAME: [u8; 5] = [0xA5, 0, 0, 0, 0x17];

/// The bytes of these areas. (A test that names a table itself is proved over each of its bytes.)
fn last_round() -> &'static [u8] {
    &LAST_ROUND
}

fn last_fact() -> &'static [u8] {
    &LAST_FACT
}

fn last_switch() -> &'static [u8] {
    &LAST_SWITCH
}

fn cut_frame() -> &'static [u8] {
    &CUT_FRAME
}

/// Asserts that an opening found these facts and decided commands.
fn assert_found(rt: &impl Abort, found: (u64, u64), wanted: (u64, u64)) {
    assert_eq!(rt; found, wanted);
}

/// A node that has opened over `area`. Asserts that the opening found `facts` facts and `decided` decided commands.
fn opened(rt: &impl Abort, alloc: Global, area: &[u8], facts: u64, decided: u64) -> Node {
    let mut node = node_over(alloc, area).expect(rt, "memory");
    match open(alloc, &mut node).expect(rt, "an opening") {
        Outcome::Opened(next, prefix, _) => assert_found(rt, (next, prefix), (facts, decided)),
        _ => assert!(rt; false, "no opening"),
    }
    node
}

/// The event is refused so.
fn assert_refused(
    rt: &impl Abort,
    alloc: Global,
    node: &mut Node,
    event: NodeEvent<Message>,
    refusal: Refusal,
) {
    made_of!(Message, Op);
    assert!(rt; node.step(alloc, &event).err() == Some(refusal));
}

/// The event is taken, and nothing comes of it.
fn assert_quiet(rt: &impl Abort, alloc: Global, node: &mut Node, event: NodeEvent<Message>) {
    made_of!(Message, Op);
    assert!(rt; matches!(node.step(alloc, &event), Ok(Outcome::Quiet)));
}

/// What the node is told is refused so.
fn assert_untold(
    rt: &impl Abort,
    alloc: Global,
    node: &mut Node,
    input: Input<Message>,
    refusal: Refusal,
) {
    assert_refused(rt, alloc, node, NodeEvent::Told(input), refusal);
}

#[test]
fn the_last_round_isnt_left(rt: HostRuntime) {
    let alloc = rt.alloc();
    let mut node = opened(&rt, alloc, last_round(), 1, 0);
    assert_untold(&rt, alloc, &mut node, Input::Advance, Refusal::RoundsOut);
    // The node is as it was: it still owes the estimate of that round.
    let left = node.step(alloc, &NodeEvent::Send);
    assert!(rt; matches!(left, Ok(Outcome::Left(_))));
}

#[test]
fn no_fact_comes_behind_the_last(rt: HostRuntime) {
    let alloc = rt.alloc();
    let mut node = opened(&rt, alloc, last_fact(), 0xFFFF_FFFF_FFFF_FFFE, 0);
    // The node enters round 1 of instance 0 by the fact 2^64 - 2; the next would have the number 2^64 - 1.
    let first = claim(1, b"a").expect(&rt, "memory");
    assert_quiet(&rt, alloc, &mut node, NodeEvent::Told(Input::Submit(first)));
    let second = claim(2, b"b").expect(&rt, "memory");
    let second = Input::Submit(second);
    assert_untold(&rt, alloc, &mut node, second, Refusal::TooLarge);
    assert_untold(&rt, alloc, &mut node, Input::Advance, Refusal::TooLarge);
}

#[test]
fn no_epoch_comes_behind_the_last(rt: HostRuntime) {
    let alloc = rt.alloc();
    let mut node = opened(&rt, alloc, last_switch(), 0, 0);
    assert_quiet(&rt, alloc, &mut node, NodeEvent::Snap);
    // Area 1 is empty: its first byte is closed and synced, the snapshot written and synced, its gate too.
    for _ in 0..6 {
        assert_quiet(&rt, alloc, &mut node, NodeEvent::Device);
    }
    assert_refused(&rt, alloc, &mut node, NodeEvent::Snap, Refusal::TooLarge);
}

#[test]
fn an_area_that_is_cut_short_is_damaged(rt: HostRuntime) {
    let alloc = rt.alloc();
    let mut node = node_over(alloc, cut_frame()).expect(&rt, "memory");
    assert_quiet(&rt, alloc, &mut node, NodeEvent::Restart);
    assert_quiet(&rt, alloc, &mut node, NodeEvent::Device);
    assert_quiet(&rt, alloc, &mut node, NodeEvent::Device);
    let damaged = Refusal::Damaged { area: 0, offset: 0 };
    assert_refused(&rt, alloc, &mut node, NodeEvent::Device, damaged);
    assert_untold(&rt, alloc, &mut node, Input::Tick, Refusal::Down);
}

/// The name with this number, of four digits.
fn name_of(number: u32) -> [u8; 5] {
    let digit = |place: u32| b'0' + (number / place % 10) as u8;
    [b'n', digit(1000), digit(100), digit(10), digit(1)]
}

/// Area 0 of a node that has decided 4,096 claims of names of their own, `n0000` to `n4095`, and then one of `b`.
fn crowded(rt: &impl Abort, alloc: Global) -> Vec<u8> {
    let mut area = Vec::new(alloc);
    put_head(&mut area, 1, 4097, 4097, 102_421).expect(rt, "memory");
    for number in 0..4096u32 {
        put_decided(&mut area, number, &name_of(number)).expect(rt, "memory");
    }
    put_decided(&mut area, 4096, b"b").expect(rt, "memory");
    area.push(0).expect(rt, "memory");
    area
}

#[test]
fn no_name_is_bound_behind_the_last(rt: HostRuntime) {
    let alloc = rt.alloc();
    let mut node = opened(&rt, alloc, &crowded(&rt, alloc), 4097, 4097);
    let last = claim(4096, b"b").expect(&rt, "memory");
    assert_quiet(&rt, alloc, &mut node, NodeEvent::Told(Input::Submit(last)));
    match node.step(alloc, &NodeEvent::Acknowledge) {
        Ok(Outcome::Replied(request, reply)) => {
            assert!(rt;
                request.seq == 4096 && reply == Reply::Full,
                "another reply"
            )
        }
        _ => assert!(rt; false, "no reply"),
    }
}
