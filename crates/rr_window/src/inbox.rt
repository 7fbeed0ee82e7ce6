//! An inbox of 256 messages.

ghost use Rattle.std.specs.Prelude.{◌≡◌, IsTrue, IfOk, IfErr, OnOk, OnErr, MatchOption};
ghost use Rattle.rr_window.specs.InOrder.{Puts, Takes, HasHeld, OneQueue, one_more, new_end, end_of, first_taker};
ghost use Rattle.crossbeam_queue.specs.Passes.{ruled_capacity};

use crate::rule::{FirstInFirstOut, Meeting, Put, Putter, Take};
use crate::view::Views;
use crossbeam_queue::{Pass, RuledArrayQueue};
use std::alloc::{AllocError, Global};
use std::marker::Model;
use std::sync::{Arc, Wait};

/// As many messages as an inbox holds.
pub const ROOM: usize = 256;

/// The queue of an inbox.
#[derive(Drop)]
pub struct Inbox<T> {
    queue: RuledArrayQueue<T, Views<T>, FirstInFirstOut>,
    ghost room: { ruled_capacity queue ≡ 256 },
}

/// An end that puts messages into an inbox. Each thread has its own.
#[derive(Drop)]
pub struct Port<T> {
    inbox: Arc<Inbox<T>, Global>,
    pass: Pass<T, Views<T>>,
}

impl<T> Model for Port<T> {
    ghost use Rattle.std.specs.Prelude.{◌≡◌};
    ghost use Rattle.std.specs.Arc.{arc_value};
    ghost use Rattle.crossbeam_queue.specs.Passes.{IsPassOf};
    ghost use Rattle.rr_window.specs.InOrder.{End, Inbox, IsOne, end_of, first_of};

    ghost Value = { End Inbox T };

    ghost view = { λ p. end_of p.pass.table_id (first_of p.pass.me.0.client) };

    ghost invariant = { λ p. IsPassOf (arc_value p.inbox).queue p.pass × IsOne p.pass.me.0.client };
}

/// The one end that takes messages out of an inbox.
#[derive(Drop)]
pub struct Outlet<T> {
    inbox: Arc<Inbox<T>, Global>,
    pass: Pass<T, Views<T>>,
}

impl<T> Model for Outlet<T> {
    ghost use Rattle.std.specs.Prelude.{◌≡◌, true};
    ghost use Rattle.std.specs.Arc.{arc_value};
    ghost use Rattle.crossbeam_queue.specs.Passes.{IsPassOf};
    ghost use Rattle.rr_window.specs.InOrder.{End, Inbox, IsOne, end_of, first_of};

    ghost Value = { End Inbox T };

    ghost view = { λ o. end_of o.pass.table_id (first_of o.pass.me.0.client) };

    ghost invariant = { λ o. IsPassOf (arc_value o.inbox).queue o.pass × IsOne o.pass.me.0.client × ((first_of o.pass.me.0.client).takes ≡ true) };
}

impl<T: Drop> Outlet<T> {
    /// An empty inbox: the end that takes.
    pub fn new(alloc: Global) -> Result<Outlet<T>, AllocError>
        ensures ok { IfOk result (λ outlet. outlet.view ≡ first_taker) }
    {
        let (queue, pass) = RuledArrayQueue::ruled(alloc, ROOM)?;
        let inbox = Arc::new(alloc, Inbox { queue })?;
        Ok(Outlet { inbox, pass })
    }

    /// One more end that puts into this inbox, and has put nothing yet.
    pub fn port(&mut self) -> Result<Port<T>, AllocError>
        ensures ok { IfOk result (λ port. (port ≡ end_of self.old.queue (new_end self.old.view)) × (self.new ≡ end_of self.old.queue (one_more self.old.view))) }
        ensures same { OnErr result (self.new ≡ self.old) }
    {
        let inbox = Arc::try_clone(&self.inbox)?;
        let pass = self.inbox.queue.another::<Putter>(&mut self.pass);
        Ok(Port { inbox, pass })
    }

    /// Whether no message waits. It is told only where all that this end knows was put has been taken, as `take` tells it.
    pub fn is_empty(&mut self) -> bool
        ensures same { self.new ≡ self.old }
        ensures empty { IsTrue result → HasHeld 0 self.old.view }
    {
        self.inbox.queue.is_empty_as::<Take>(&mut self.pass)
    }

    /// Takes the oldest message. There is none only where all that this end knows was put has been taken.
    pub fn take<R: Wait>(&mut self, rt: &R) -> Option<T>
        ensures queue { self.new.queue ≡ self.old.queue }
        ensures taken { MatchOption result ((self.new ≡ self.old) × HasHeld 0 self.old.view) (λ message. Takes self.old.view message self.new.view) }
    {
        self.inbox.queue.pop_as::<Take, R>(rt, &mut self.pass)
    }

    /// As `take`, by one attempt, which may find none where another thread is in the way as well.
    pub fn try_take(&mut self) -> Option<T>
        ensures queue { self.new.queue ≡ self.old.queue }
        ensures taken { MatchOption result (self.new ≡ self.old) (λ message. Takes self.old.view message self.new.view) }
    {
        self.inbox.queue.try_pop_as::<Take>(&mut self.pass)
    }

    /// A law for the holder of both ends of one inbox: what was taken is a beginning of all that was put, and of that
    /// the port's messages are just those that it put, in order. It changes nothing.
    pub fn meet(&mut self, port: Port<T>) -> Port<T>
        requires one { port.queue ≡ self.old.queue }
        ensures same { (self.new ≡ self.old) × (result ≡ port) }
        ensures law { OneQueue self.old.view port.view }
    {
        let Port { inbox, pass } = port;
        let queue = &self.inbox.queue;
        queue.absorb::<Meeting>(&mut self.pass, pass);
        queue.learn_as::<Meeting>(&mut self.pass);
        let pass = queue.another::<Meeting>(&mut self.pass);
        Port { inbox, pass }
    }
}

impl<T: Drop> Port<T> {
    /// Puts a message behind all others. It comes back where 256 messages wait. The contract names such a history
    /// alone, and nothing ties that to the queue.
    pub fn put<R: Wait>(&mut self, rt: &R, message: T) -> Result<(), T>
        ensures queue { self.new.queue ≡ self.old.queue }
        ensures put { OnOk result (Puts self.old.view message self.new.view) }
        ensures back { IfErr result (λ back. (back ≡ message) × (self.new ≡ self.old) × HasHeld 256 self.old.view) }
    {
        let queue = &self.inbox.queue;
        queue.push_as::<Put, R>(rt, &mut self.pass, message)
    }

    /// As `put`, by one attempt: the message comes back where another thread is in the way as well.
    pub fn try_put(&mut self, message: T) -> Result<(), T>
        ensures queue { self.new.queue ≡ self.old.queue }
        ensures put { OnOk result (Puts self.old.view message self.new.view) }
        ensures back { IfErr result (λ back. (back ≡ message) × (self.new ≡ self.old)) }
    {
        let queue = &self.inbox.queue;
        queue.try_push_as::<Put>(&mut self.pass, message)
    }
}
