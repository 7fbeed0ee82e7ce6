//! One value at a time, from one thread to another.

ghost use Rattle.std.specs.Prelude.{◌≡◌, IfOk, IfErr, OnOk, MatchOption};
ghost use Rattle.crossbeam_channel.specs.Err.{IsFull, IsOutOfMemory, try_send_message};
ghost use Rattle.rr_window.specs.InOrder.{Puts, Takes, HasHeld, OneQueue, end_of, first_taker, one_more, new_end};

use crate::rule::{FirstInFirstOut, Meeting, Put, Putter, Take};
use crate::view::Views;
use crossbeam_channel::{Pass, RuledReceiver, RuledSender, TrySendError, bounded_with};
use std::alloc::{AllocError, Global};
use std::marker::Model;
use std::sync::Wait;

/// The end that gives.
#[derive(Drop)]
pub struct Giver<T: Drop> {
    sender: RuledSender<T, Views<T>, FirstInFirstOut>,
    pass: Pass<T, Views<T>>,
}

impl<T: Drop> Model for Giver<T> {
    ghost use Rattle.std.specs.Prelude.{◌≡◌};
    ghost use Rattle.crossbeam_channel.specs.Claims.{IsSeatAt};
    ghost use Rattle.crossbeam_channel.specs.Ends.{sends_on, ruled_capacity};
    ghost use Rattle.rr_window.specs.InOrder.{End, Channel, IsOne, end_of, first_of};

    ghost Value = { End (Channel T) T };

    ghost view = { λ g. end_of (g.pass.table_id, g.pass.me.0.of) (first_of g.pass.me.0.client) };

    ghost invariant = { λ g. IsSeatAt (sends_on g.sender) g.pass × IsOne g.pass.me.0.client × (ruled_capacity (sends_on g.sender) ≡ 1) };
}

/// The end that takes.
#[derive(Drop)]
pub struct Taker<T: Drop> {
    receiver: RuledReceiver<T, Views<T>, FirstInFirstOut>,
    pass: Pass<T, Views<T>>,
}

impl<T: Drop> Model for Taker<T> {
    ghost use Rattle.std.specs.Prelude.{◌≡◌, true};
    ghost use Rattle.crossbeam_channel.specs.Claims.{IsSeatAt};
    ghost use Rattle.crossbeam_channel.specs.Ends.{receives_on};
    ghost use Rattle.rr_window.specs.InOrder.{End, Channel, IsOne, end_of, first_of};

    ghost Value = { End (Channel T) T };

    ghost view = { λ t. end_of (t.pass.table_id, t.pass.me.0.of) (first_of t.pass.me.0.client) };

    ghost invariant = { λ t. IsSeatAt (receives_on t.receiver) t.pass × IsOne t.pass.me.0.client × ((first_of t.pass.me.0.client).takes ≡ true) };
}

/// The two ends of a hand-over of one value at a time.
pub fn hand_over<T: Drop>(alloc: Global) -> Result<(Giver<T>, Taker<T>), AllocError>
    ensures one { IfOk result (λ ends. ends.0.queue ≡ ends.1.queue) }
    ensures giver { IfOk result (λ ends. ends.0.view ≡ new_end first_taker) }
    ensures taker { IfOk result (λ ends. ends.1.view ≡ one_more first_taker) }
{
    let (sender, receiver, mut pass) = bounded_with(alloc, 1)?;
    let giving = sender.another::<Putter>(&mut pass);
    let giver = Giver {
        sender,
        pass: giving,
    };
    Ok((giver, Taker { receiver, pass }))
}

impl<T: Drop> Giver<T> {
    /// Gives a value. It comes back as `Full` where the value before it hasn't been taken, or as `Disconnected`, where
    /// nobody takes any more. Of `Full` the contract names such a history alone, as that of `Port::put` does.
    pub fn give<R: Wait>(&mut self, rt: &R, value: T) -> Result<(), TrySendError<T>>
        ensures queue { self.new.queue ≡ self.old.queue }
        ensures given { OnOk result (Puts self.old.view value self.new.view) }
        ensures back { IfErr result (λ e. (try_send_message e ≡ value) × (self.new ≡ self.old) × (IsFull e → HasHeld 1 self.old.view)) }
        ensures err { IfErr result (λ e. ¬ IsOutOfMemory e) }
    {
        self.sender.try_send_as::<Put, R>(rt, &mut self.pass, value)
    }

    /// A law for the holder of both ends, as `Outlet::meet`.
    pub fn meet(&mut self, taker: Taker<T>) -> Taker<T>
        requires one { taker.queue ≡ self.old.queue }
        ensures same { (self.new ≡ self.old) × (result ≡ taker) }
        ensures law { OneQueue taker.view self.old.view }
    {
        let Taker { receiver, pass } = taker;
        self.sender.absorb::<Meeting>(&mut self.pass, pass);
        self.sender.learn_as::<Meeting>(&mut self.pass);
        let pass = self.sender.another::<Meeting>(&mut self.pass);
        Taker { receiver, pass }
    }
}

impl<T: Drop> Taker<T> {
    /// Takes the oldest value. There is none only where all that this end knows was given has been taken.
    pub fn take<R: Wait>(&mut self, rt: &R) -> Option<T>
        ensures queue { self.new.queue ≡ self.old.queue }
        ensures taken { MatchOption result ((self.new ≡ self.old) × HasHeld 0 self.old.view) (λ value. Takes self.old.view value self.new.view) }
    {
        self.receiver
            .try_recv_as::<Take, R>(rt, &mut self.pass)
            .ok()
    }
}
