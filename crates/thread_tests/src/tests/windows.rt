//! Seats that look while a publisher publishes.

ghost use Rattle.std.specs.Prelude.{◌≡◌};

use rr_types::{Command, Name, Op, RequestNo, Value};
use rr_window::{
    Giver, NewList, Publisher, Receipt, Seat, Sight, Taker, WindowName, hand_over, open,
};
use std::alloc::Global;
use std::marker::Brand;
use std::process::Abort;
use std::sync::Wait;
use std::thread::{Threads, join, yield_now};

/// More looks or takes than any test needs.
const TURNS: u32 = 10_000_000;

fn named(rt: &impl Abort, letter: u8) -> Name {
    Name::new(&[letter]).expect(rt, "a name")
}

fn claim(rt: &impl Abort, seq: u64, letter: u8) -> Command {
    let value = Value::new(b"x").expect(rt, "a value");
    Command {
        request: RequestNo { client: 7, seq },
        op: Op::Claim(named(rt, letter), value),
    }
}

/// Appends and publishes each command by itself, and says whether all went well.
fn publish_each<W: WindowName, R: Wait>(
    rt: &R,
    publisher: &mut Publisher<W>,
    commands: &[Command],
) -> bool {
    for command in commands {
        if publisher.count() > 1_000 || publisher.append(*command).is_err() {
            return false;
        }
        if publisher.publish(rt).is_err() {
            return false;
        }
    }
    true
}

fn is_bound<W: WindowName>(seat: &mut Seat<W>, name: &Name) -> bool {
    matches!(seat.look(name), Ok(Sight::Bound(7, _)))
}

/// Looks until the seat has seen all names bound, which are claimed in this order. False where it saw a later claim
/// and then not an earlier one, or where a claim was gone that it had seen.
fn sees_all_in_order<W: WindowName>(seat: &mut Seat<W>, names: &[Name]) -> bool {
    let mut seen = 0;
    for _ in 0..TURNS {
        if seen >= names.len() {
            return true;
        }
        let last = is_bound(seat, &names[names.len() - 1]);
        let next = is_bound(seat, &names[seen]);
        if last && !next || seen > 0 && !is_bound(seat, &names[seen - 1]) {
            return false;
        }
        if next {
            seen += 1;
        } else {
            yield_now();
        }
    }
    false
}

fn two_look<W: WindowName + Send + Sync, R: Threads + Wait + Sync>(
    rt: &R,
    one: &mut Seat<W>,
    two: &mut Seat<W>,
    names: &[Name],
) -> bool {
    let (first, second) = join(
        rt,
        move || sees_all_in_order(one, names),
        move || sees_all_in_order(two, names),
    );
    first && second
}

fn two_beside_a_publisher<W: WindowName + Send + Sync, R: Threads + Wait + Sync>(
    rt: &R,
    mut publisher: Publisher<W>,
    mut one: Seat<W>,
    mut two: Seat<W>,
    names: &[Name],
    commands: &[Command],
) -> (bool, bool, bool) {
    let lent = &mut publisher;
    let (first, second) = (&mut one, &mut two);
    let (looked, published) = join(
        rt,
        move || two_look(rt, first, second, names),
        move || publish_each(rt, lent, commands),
    );
    let begins = publisher.has_published(&one) && publisher.has_published(&two);
    publisher.close(rt);
    (looked, published, begins)
}

fn looks_are_in_order<W: WindowName + Send + Sync, R: Threads + Wait + Abort + Sync>(
    rt: &R,
    alloc: Global,
    list: NewList,
)
    requires { list ≡ W.book }
{
    let names = [
        named(rt, b'a'),
        named(rt, b'b'),
        named(rt, b'c'),
        named(rt, b'd'),
    ];
    let commands = [
        claim(rt, 1, b'a'),
        claim(rt, 2, b'b'),
        claim(rt, 3, b'c'),
        claim(rt, 4, b'd'),
    ];
    let window = open::<W>(alloc, list).expect(rt, "a window");
    let (publisher, seats) = window.split();
    let one = seats.take().expect(rt, "a seat");
    let two = seats.take().expect(rt, "a seat");
    let (looked, published, begins) = two_beside_a_publisher(
        rt, publisher, one, two, &names, &commands,
    );
    assert!(rt; looked);
    assert!(rt; published);
    assert!(rt; begins);
}

#[test]
fn what_a_seat_saw_is_a_beginning_of_what_is_published(rt: HostRuntime) {
    looks_are_in_order::<Brand, _>(&rt, rt.alloc(), NewList::new());
}

/// Publishes a command and hands its receipt over.
fn publish_with_receipt<W: WindowName, R: Wait>(
    rt: &R,
    publisher: &mut Publisher<W>,
    giver: &mut Giver<Receipt<W>>,
    command: &Command,
) -> bool {
    if publisher.count() > 1_000 || publisher.append(*command).is_err() {
        return false;
    }
    if publisher.publish(rt).is_err() {
        return false;
    }
    match publisher.reply(command.request) {
        Some(reply) => {
            let receipt = publisher.receipt(command.request, reply);
            giver.give(rt, receipt).is_ok()
        }
        None => false,
    }
}

/// Waits for a receipt, learns it and looks once.
fn shows_after_its_receipt<W: WindowName, R: Wait>(
    rt: &R,
    seat: &mut Seat<W>,
    taker: &mut Taker<Receipt<W>>,
    name: &Name,
) -> bool {
    for _ in 0..TURNS {
        match taker.take(rt) {
            Some(receipt) => {
                seat.learn(&receipt);
                return is_bound(seat, name);
            }
            None => yield_now(),
        }
    }
    false
}

fn client_beside_a_publisher<W: WindowName + Send + Sync, R: Threads + Wait + Sync>(
    rt: &R,
    mut publisher: Publisher<W>,
    mut seat: Seat<W>,
    mut giver: Giver<Receipt<W>>,
    mut taker: Taker<Receipt<W>>,
    name: &Name,
    command: &Command,
) -> (bool, bool) {
    let lent = &mut publisher;
    let looks = &mut seat;
    let gives = &mut giver;
    let takes = &mut taker;
    let (shown, published) = join(
        rt,
        move || shows_after_its_receipt(rt, looks, takes, name),
        move || publish_with_receipt(rt, lent, gives, command),
    );
    publisher.close(rt);
    (shown, published)
}

fn receipts_show_their_claims<W: WindowName + Send + Sync, R: Threads + Wait + Abort + Sync>(
    rt: &R,
    alloc: Global,
    list: NewList,
)
    requires { list ≡ W.book }
{
    let name = named(rt, b'a');
    let command = claim(rt, 1, b'a');
    let (giver, taker) = hand_over(alloc).expect(rt, "a hand-over");
    let window = open::<W>(alloc, list).expect(rt, "a window");
    let (publisher, seats) = window.split();
    let seat = seats.take().expect(rt, "a seat");
    let (shown, published) = client_beside_a_publisher(
        rt, publisher, seat, giver, taker, &name, &command,
    );
    assert!(rt; published);
    assert!(rt; shown);
}

#[test]
fn a_look_after_a_receipt_shows_its_claim(rt: HostRuntime) {
    receipts_show_their_claims::<Brand, _>(&rt, rt.alloc(), NewList::new());
}
