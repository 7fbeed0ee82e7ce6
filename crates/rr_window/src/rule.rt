//! The one rule of inboxes and hand-overs, for the queue and for the channel.

ghost use Rattle.std.specs.Prelude.{[], ◌∷◌};
ghost use Rattle.rr_window.specs.InOrder.{InOrder, PutsIn, TakesIn, WaitsIn, MeetIn, first_taker};

use crate::view::Views;
use crossbeam_channel::protocol as channel;
use crossbeam_queue::protocol as queue;

/// All that was put is what was taken, in order, and then what waits.
pub struct FirstInFirstOut;

impl<T> queue::Protocol<T, Views<T>> for FirstInFirstOut {
    ghost holds = { InOrder };

    ghost first = { first_taker ∷ [] };
}

impl<T> channel::Protocol<T, Views<T>> for FirstInFirstOut {
    ghost holds = { InOrder };

    ghost first = { first_taker ∷ [] };
}

/// The step that puts a message.
pub struct Put;

impl<T> queue::Outcome<T, Views<T>> for Put {
    ghost then = { PutsIn };
}

impl<T> queue::Lesson<T, Views<T>> for Put {
    ghost fact = { WaitsIn };
}

impl<T> channel::Outcome<T, Views<T>> for Put {
    ghost then = { PutsIn };
}

impl<T> channel::Lesson<T, Views<T>> for Put {
    ghost fact = { WaitsIn };
}

/// The step that takes a message.
pub struct Take;

impl<T> queue::Outcome<T, Views<T>> for Take {
    ghost then = { TakesIn };
}

impl<T> queue::Lesson<T, Views<T>> for Take {
    ghost fact = { WaitsIn };
}

impl<T> channel::Outcome<T, Views<T>> for Take {
    ghost then = { TakesIn };
}

impl<T> channel::Lesson<T, Views<T>> for Take {
    ghost fact = { WaitsIn };
}

/// One more end, which only puts.
pub struct Putter;

impl<T> queue::Split<Views<T>> for Putter {
    ghost use Rattle.rr_window.specs.InOrder.{first_of, one_more, new_end};

    ghost left = { λ h. one_more (first_of h) ∷ [] };

    ghost right = { λ h. new_end (first_of h) ∷ [] };
}

/// Two ends meet in one pass, and part again.
pub struct Meeting;

impl<T> queue::Join<Views<T>> for Meeting {
    ghost use Rattle.std.specs.Prelude.{◌++◌};

    ghost both = { λ h g. h ++ g };

    ghost spent = { [] };
}

impl<T> queue::Split<Views<T>> for Meeting {
    ghost use Rattle.rr_window.specs.InOrder.{first_of, rest_of};

    ghost left = { λ h. first_of h ∷ [] };

    ghost right = { rest_of };
}

impl<T> queue::Lesson<T, Views<T>> for Meeting {
    ghost fact = { MeetIn };
}

impl<T> channel::Lesson<T, Views<T>> for Meeting {
    ghost fact = { MeetIn };
}
