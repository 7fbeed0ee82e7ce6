//! Hand-overs of one value at a time.

use rr_window::{Giver, Taker, TrySendError, hand_over};
use std::alloc::Global;
use std::process::Abort;
use std::sync::Wait;
use std::thread::{Threads, join, yield_now};

/// More tries than any test needs.
const TURNS: u32 = 10_000_000;

const MANY: u32 = 2_000;

#[test]
fn a_second_value_waits_for_the_first(rt: HostRuntime) {
    let (mut giver, mut taker): (Giver<u32>, Taker<u32>) = hand_over(rt.alloc()).expect(
        &rt,
        "a hand-over",
    );
    assert!(rt; taker.take(&rt).is_none());
    assert!(rt; giver.give(&rt, 1).is_ok());
    assert!(rt; matches!(giver.give(&rt, 2), Err(TrySendError::Full(2))));
    assert!(rt; taker.take(&rt) == Some(1));
    assert!(rt; giver.give(&rt, 2).is_ok());
    assert!(rt; taker.take(&rt) == Some(2));
    drop(taker);
    assert!(rt; matches!(giver.give(&rt, 3), Err(TrySendError::Disconnected(3))));
}

fn give_all<R: Wait>(rt: &R, giver: &mut Giver<u32>) -> bool {
    let mut given = 0;
    for _ in 0..TURNS {
        if given >= MANY {
            return true;
        }
        match giver.give(rt, given) {
            Ok(()) => given += 1,
            Err(_) => yield_now(),
        }
    }
    false
}

fn takes_in_order<R: Wait>(rt: &R, taker: &mut Taker<u32>) -> bool {
    let mut taken = 0;
    for _ in 0..TURNS {
        if taken >= MANY {
            return taker.take(rt).is_none();
        }
        match taker.take(rt) {
            Some(value) if value == taken => taken += 1,
            Some(_) => return false,
            None => yield_now(),
        }
    }
    false
}

fn giver_beside_taker<R: Threads + Wait + Sync>(
    rt: &R,
    mut giver: Giver<u32>,
    mut taker: Taker<u32>,
) -> (bool, bool) {
    let (gives, takes) = (&mut giver, &mut taker);
    join(
        rt,
        move || give_all(rt, gives),
        move || takes_in_order(rt, takes),
    )
}

#[test]
fn values_come_in_order_each_once(rt: HostRuntime) {
    let (giver, taker) = hand_over(rt.alloc()).expect(&rt, "a hand-over");
    let (given, taken) = giver_beside_taker(&rt, giver, taker);
    assert!(rt; given);
    assert!(rt; taken);
}
