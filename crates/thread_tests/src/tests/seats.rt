//! The 64 seats of a window.

ghost use Rattle.std.specs.Prelude.{◌≡◌};

use rr_types::{Name, Refusal};
use rr_window::{NewList, SEATS, Seats, Sight, WindowName, open};
use std::alloc::Global;
use std::marker::Brand;
use std::process::Abort;
use std::sync::Wait;

/// Takes all seats, asks for one more, lets one go and takes it again.
fn check_seats<W: WindowName>(rt: &impl Abort, alloc: Global, seats: &Seats<W>, name: &Name) {
    let mut taken = Vec::new(alloc);
    for _ in 0..SEATS {
        let mut seat = seats.take().expect(rt, "one of 64 seats");
        assert!(rt; matches!(seat.look(name), Ok(Sight::Free)));
        assert!(rt; taken.push(seat).is_ok());
    }
    assert!(rt; matches!(seats.take(), Err(Refusal::SeatsTaken)));
    drop(taken.pop());
    assert!(rt; seats.take().is_ok());
}

fn seats_run_out<W: WindowName, R: Wait + Abort>(rt: &R, alloc: Global, list: NewList)
    requires { list ≡ W.book }
{
    let name = Name::new(b"a").expect(rt, "a name");
    let window = open::<W>(alloc, list).expect(rt, "a window");
    let (publisher, seats) = window.split();
    check_seats(rt, alloc, &seats, &name);
    let mut seat = seats.take().expect(rt, "a seat");
    publisher.close(rt);
    assert!(rt; matches!(seat.look(&name), Err(Refusal::NoGuard)));
}

#[test]
fn the_65th_seat_is_taken(rt: HostRuntime) {
    seats_run_out::<Brand, _>(&rt, rt.alloc(), NewList::new());
}
