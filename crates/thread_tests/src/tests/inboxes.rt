//! Inboxes: one thread, and many that put beside one that takes.

ghost use Rattle.std.specs.Prelude.{◌<◌};

use rr_window::{Outlet, Port, ROOM};
use std::alloc::Global;
use std::process::Abort;
use std::sync::Wait;
use std::thread::{Threads, join, map_vec, yield_now};

/// More tries than any test needs.
const TURNS: u32 = 10_000_000;

/// How many messages each end puts.
const EACH: u32 = 2_000;

#[test]
fn a_full_inbox_hands_back(rt: HostRuntime) {
    let mut outlet: Outlet<u32> = Outlet::new(rt.alloc()).expect(&rt, "an inbox");
    let mut port = outlet.port().expect(&rt, "an end that puts");
    assert!(rt; outlet.take(&rt).is_none());
    for number in 0..ROOM as u32 {
        assert!(rt; port.put(&rt, number).is_ok());
    }
    assert!(rt; port.put(&rt, 1_000) == Err(1_000));
    assert!(rt; outlet.take(&rt) == Some(0));
    assert!(rt; port.put(&rt, 1_000).is_ok());
    for number in 1..ROOM as u32 {
        assert!(rt; outlet.take(&rt) == Some(number));
    }
    assert!(rt; outlet.take(&rt) == Some(1_000));
    assert!(rt; outlet.take(&rt).is_none());
}

/// Puts `EACH` numbers from this one on, each as often as it comes back.
fn put_all<R: Wait>(rt: &R, port: &mut Port<u32>, from: u32) -> bool
    requires { from < 1000000 }
{
    let mut put = 0;
    for _ in 0..TURNS {
        if put >= EACH {
            return true;
        }
        match port.put(rt, from + put) {
            Ok(()) => put += 1,
            Err(_) => yield_now(),
        }
    }
    false
}

/// Takes until as many came as two ends put, and says whether those of each end came in order, all of them.
fn takes_in_order<R: Wait>(rt: &R, outlet: &mut Outlet<u32>) -> bool {
    let mut low = 0;
    let mut high = EACH;
    for _ in 0..TURNS {
        match outlet.take(rt) {
            Some(number) if number == low && low < EACH => low += 1,
            Some(number) if number == high && high < 2 * EACH => high += 1,
            Some(_) => return false,
            None => yield_now(),
        }
        if low == EACH && high == 2 * EACH {
            return outlet.take(rt).is_none();
        }
    }
    false
}

fn two_put<R: Threads + Wait + Sync>(rt: &R, one: &mut Port<u32>, two: &mut Port<u32>) -> bool {
    let (first, second) = join(
        rt,
        move || put_all(rt, one, 0),
        move || put_all(rt, two, EACH),
    );
    first && second
}

fn two_beside_one<R: Threads + Wait + Sync>(
    rt: &R,
    mut one: Port<u32>,
    mut two: Port<u32>,
    mut outlet: Outlet<u32>,
) -> (bool, bool) {
    let (first, second, takes) = (&mut one, &mut two, &mut outlet);
    join(
        rt,
        move || two_put(rt, first, second),
        move || takes_in_order(rt, takes),
    )
}

#[test]
fn nothing_is_lost_and_each_end_keeps_its_order(rt: HostRuntime) {
    let mut outlet: Outlet<u32> = Outlet::new(rt.alloc()).expect(&rt, "an inbox");
    let one = outlet.port().expect(&rt, "an end that puts");
    let two = outlet.port().expect(&rt, "an end that puts");
    let (put, taken) = two_beside_one(&rt, one, two, outlet);
    assert!(rt; put);
    assert!(rt; taken);
}

/// How many ends fill an inbox.
const ENDS: usize = 7;

/// Puts numbers from this one on until one comes back, and says how many went in.
fn put_until_full<R: Wait>(rt: &R, port: Port<u32>, from: u32) -> u32 {
    let mut port = port;
    for put in 0..EACH {
        if port.put(rt, from.saturating_add(put)).is_err() {
            return put;
        }
    }
    EACH
}

/// Seven ends, in a thread each, put until a number comes back. Answers how many each put.
fn fill<R: Threads + Wait + Abort + AllocGlobal + Sync>(
    rt: &R,
    outlet: &mut Outlet<u32>,
) -> Vec<u32> {
    let mut ends = Vec::new(rt.alloc());
    for end in 0..ENDS as u32 {
        let port = outlet.port().expect(rt, "an end that puts");
        ends.push((port, EACH * end)).expect(rt, "memory");
    }
    map_vec(rt, ends, &|(port, from)| put_until_full(rt, port, from)).expect(rt, "memory")
}

/// Takes what waits, and says whether it is as many of each end as `counts` has, in the end's order, and nothing more.
fn takes_each<R: Wait>(rt: &R, outlet: &mut Outlet<u32>, counts: &[u32]) -> bool {
    let mut taken = [0u32; ENDS];
    for _ in 0..ROOM {
        let Some(number) = outlet.take(rt) else {
            return false;
        };
        let end = (number / EACH) as usize;
        if end >= ENDS || taken[end] != number % EACH {
            return false;
        }
        taken[end] = number % EACH + 1;
    }
    outlet.take(rt).is_none() && taken.as_slice() == counts
}

fn seven_fill_it<R: Threads + Wait + Abort + AllocGlobal + Sync>(rt: &R) {
    let mut outlet: Outlet<u32> = Outlet::new(rt.alloc()).expect(rt, "an inbox");
    for _ in 0..3u8 {
        let counts = fill(rt, &mut outlet);
        assert!(rt; takes_each(rt, &mut outlet, counts.as_slice()));
    }
}

#[test]
fn a_full_inbox_hands_back_to_each_of_seven_ends(rt: HostRuntime) {
    seven_fill_it(&rt);
}
