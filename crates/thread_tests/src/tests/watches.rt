//! Watches of a window's list.

ghost use Rattle.std.specs.Prelude.{◌≡◌};

use rr_types::{Command, Name, Op, RequestNo, Value};
use rr_window::{Change, NewList, Publisher, Seat, Watch, WindowName, open};
use std::alloc::Global;
use std::marker::Brand;
use std::process::Abort;
use std::sync::Wait;

/// How many commands are kept for those who watch, as the page of `Seat::changes` says.
const KEPT: u64 = 1_024;

fn command(rt: &impl Abort, seq: u64, word: &[u8], name: &[u8]) -> Command {
    let name = Name::new(name).expect(rt, "a name");
    let value = Value::new(b"x").expect(rt, "a value");
    let op = match word {
        b"claim" => Op::Claim(name, value),
        b"update" => Op::Update(name, value),
        b"release" => Op::Release(name),
        _ => Op::Transfer(name, 8),
    };
    let request = RequestNo { client: 7, seq };
    Command { request, op }
}

/// Appends and publishes commands.
fn publish<W: WindowName, R: Wait + Abort>(
    rt: &R,
    publisher: &mut Publisher<W>,
    commands: &[Command],
) {
    for command in commands {
        if publisher.count() < 10_000 {
            publisher.append(*command).expect(rt, "memory");
        }
    }
    publisher.publish(rt).expect(rt, "memory");
}

/// The changes as a text: a letter for each name that is bound, and its owner, or a hyphen where it is freed.
fn told<W: WindowName>(
    rt: &impl Abort,
    alloc: Global,
    seat: &mut Seat<W>,
    watch: &mut Watch<W>,
    prefix: &[u8],
) -> String {
    let mut text = String::new(alloc);
    let changes = seat.changes(alloc, prefix, watch).expect(rt, "memory");
    for change in changes.expect(rt, "changes that are kept") {
        let name = char::from(change.name().as_bytes()[0]);
        let owner = match &change {
            Change::Bound(binding) => char::from(b'0' + (binding.owner % 10) as u8),
            Change::Freed(_) => '-',
        };
        text.push(name).expect(rt, "memory");
        text.push(owner).expect(rt, "memory");
    }
    text
}

fn changes_are_told<W: WindowName, R: Wait + Abort>(rt: &R, alloc: Global, list: NewList)
    requires { list ≡ W.book }
{
    let (mut publisher, seats) = open::<W>(alloc, list).expect(rt, "a window").split();
    let mut seat = seats.take().expect(rt, "a seat");
    let mut all = seat.watch();
    let mut one = seat.watch();
    publish(
        rt,
        &mut publisher,
        &[
            command(rt, 1, b"claim", b"a"),
            command(rt, 2, b"claim", b"b"),
            command(rt, 3, b"update", b"a"), // to the value that it has
            command(rt, 4, b"transfer", b"a"),
            command(rt, 5, b"release", b"a"), // of another owner now
            command(rt, 2, b"release", b"b"), // under a number that was used
        ],
    );
    assert!(rt; told(rt, alloc, &mut seat, &mut all, b"").as_str() == "a7b7a8");
    publish(rt, &mut publisher, &[command(rt, 6, b"release", b"b")]);
    assert!(rt; told(rt, alloc, &mut seat, &mut one, b"b").as_str() == "b7b-");
    assert!(rt; told(rt, alloc, &mut seat, &mut all, b"").as_str() == "b-");
    assert!(rt; told(rt, alloc, &mut seat, &mut all, b"").as_str() == "");
    publisher.close(rt);
}

#[test]
fn each_change_is_told_once_and_in_order(rt: HostRuntime) {
    changes_are_told::<Brand, _>(&rt, rt.alloc(), NewList::new());
}

fn a_late_watch_is_told<W: WindowName, R: Wait + Abort>(rt: &R, alloc: Global, list: NewList)
    requires { list ≡ W.book }
{
    let (mut publisher, seats) = open::<W>(alloc, list).expect(rt, "a window").split();
    let mut seat = seats.take().expect(rt, "a seat");
    let mut early = seat.watch();
    let mut late = seat.watch();
    publish(rt, &mut publisher, &[command(rt, 0, b"claim", b"a")]);
    assert!(rt; told(rt, alloc, &mut seat, &mut early, b"").as_str() == "a7");
    for seq in 1..=KEPT {
        publish(rt, &mut publisher, &[command(rt, seq, b"claim", b"a")]);
    }
    let missed = seat.changes(alloc, b"", &mut late).expect(rt, "memory");
    assert!(rt; missed.is_none());
    assert!(rt; told(rt, alloc, &mut seat, &mut early, b"").as_str() == "");
    assert!(rt; told(rt, alloc, &mut seat, &mut late, b"").as_str() == "");
    publisher.close(rt);
}

#[test]
fn a_watch_that_is_late_is_told_so(rt: HostRuntime) {
    a_late_watch_is_told::<Brand, _>(&rt, rt.alloc(), NewList::new());
}
