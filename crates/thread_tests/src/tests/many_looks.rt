//! All seats of a window, which look while its list grows.

ghost use Rattle.std.specs.Prelude.{◌≡◌};

use rr_types::{Command, Name, Op, Refusal, RequestNo, Value, made_of};
use rr_window::{NewList, Publisher, SEATS, Seat, Seats, Sight, WindowName, open};
use std::alloc::Global;
use std::marker::Brand;
use std::process::Abort;
use std::sync::Wait;
use std::thread::{Threads, join, map_vec, yield_now};

/// How many times each seat looks at least.
const LOOKS: u32 = 1_000_000;

/// More looks than any seat needs.
const TURNS: u32 = 20_000_000;

/// How many commands are published meanwhile.
const COMMANDS: u32 = 1_000;

/// The value after `count` commands. Its two bytes tell `count`.
fn value_after(count: u32) -> Result<Value, Refusal> {
    let high = b'A' + (count / 50 % 50) as u8;
    let low = b'A' + (count % 50) as u8;
    Value::new(&[high, low])
}

/// After how many commands a value was given.
fn count_of(value: &Value) -> Option<u32> {
    match value.as_bytes() {
        [high, low] => Some(u32::from(*high) * 50 + u32::from(*low)),
        _ => None,
    }
}

/// After how many commands the value that is seen was given, if client 7 has the name.
fn told(sight: &Sight) -> Option<u32> {
    match sight {
        Sight::Free => None,
        Sight::Bound(owner, value) => { if *owner == 7 { count_of(value) } else { None } }
    }
}

/// The same of a look at the name.
fn seen<W: WindowName>(seat: &mut Seat<W>, name: &Name) -> Option<u32> {
    made_of!(Op, Sight, Value);
    match seat.look(name) {
        Err(_) => None,
        Ok(sight) => told(&sight),
    }
}

/// Whether a name that was bound is free again, or has an earlier value.
fn went_back(before: Option<u32>, now: Option<u32>) -> bool {
    match (before, now) {
        (None, _) => false,
        (Some(_), None) => true,
        (Some(earlier), Some(later)) => later < earlier,
    }
}

/// Looks at the name `LOOKS` times, and then until it has the last value. False where it ever went back.
fn sees_the_last<W: WindowName>(seat: Seat<W>, name: &Name, last: Option<u32>) -> bool {
    let mut seat = seat;
    let mut before = None;
    for turn in 0..TURNS {
        if turn >= LOOKS {
            if before == last {
                return true;
            }
            yield_now();
        }
        let now = seen(&mut seat, name);
        if went_back(before, now) {
            return false;
        }
        before = now;
    }
    false
}

/// Publishes a claim of the name, and then one update of it after another.
fn publish_all<W: WindowName, R: Wait>(rt: &R, publisher: &mut Publisher<W>, name: &Name) -> bool {
    made_of!(Op);
    for count in 0..COMMANDS {
        let Ok(value) = value_after(count) else {
            return false;
        };
        let op = if count == 0 {
            Op::Claim(*name, value)
        } else {
            Op::Update(*name, value)
        };
        let request = RequestNo {
            client: 7,
            seq: u64::from(count),
        };
        if publisher.count() > 1_000_000 || publisher.append(Command { request, op }).is_err() {
            return false;
        }
        if publisher.publish(rt).is_err() {
            return false;
        }
        yield_now();
    }
    true
}

/// All seats of a window.
fn take_all<W: WindowName>(rt: &impl Abort, alloc: Global, seats: &Seats<W>) -> Vec<Seat<W>> {
    let mut taken = Vec::new(alloc);
    for _ in 0..SEATS {
        let seat = seats.take().expect(rt, "one of 64 seats");
        taken.push(seat).expect(rt, "memory");
    }
    taken
}

fn look_beside_a_publisher<W: WindowName + Send + Sync, R: Threads + Wait + Sync>(
    rt: &R,
    mut publisher: Publisher<W>,
    seats: Vec<Seat<W>>,
    name: &Name,
    last: Option<u32>,
) -> (bool, bool) {
    let lent = &mut publisher;
    let (looked, published) = join(
        rt,
        move || match map_vec(rt, seats, &|seat| sees_the_last(seat, name, last)) {
            Ok(all) => all.iter().all(|is_right| *is_right),
            Err(_) => false,
        },
        move || publish_all(rt, lent, name),
    );
    publisher.close(rt);
    (looked, published)
}

fn all_seats_look<W: WindowName + Send + Sync, R: Threads + Wait + Abort + Sync>(
    rt: &R,
    alloc: Global,
    list: NewList,
)
    requires { list ≡ W.book }
{
    let name = Name::new(b"a").expect(rt, "a name");
    let last = count_of(&value_after(COMMANDS - 1).expect(rt, "a value"));
    let window = open::<W>(alloc, list).expect(rt, "a window");
    let (publisher, seats) = window.split();
    let taken = take_all(rt, alloc, &seats);
    let (looked, published) = look_beside_a_publisher(rt, publisher, taken, &name, last);
    assert!(rt; published);
    assert!(rt; looked);
}

#[test]
fn all_64_seats_look_while_the_list_grows(rt: HostRuntime) {
    all_seats_look::<Brand, _>(&rt, rt.alloc(), NewList::new());
}
