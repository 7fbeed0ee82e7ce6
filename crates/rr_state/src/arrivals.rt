//! Values in order of arrival, found by their request numbers.

ghost use Rattle.std.specs.Prelude.{◌≡◌, ◌∷◌, ◌++◌, [], List, length, false, not, filter, OnOk, OnErr, MatchOption};
ghost use Rattle.std.specs.List.{list_any};
ghost use Rattle.std.specs.Iterator.{at_most};
ghost use Rattle.std.specs.Map.Iter.{TakesFirst};
ghost use Rattle.rr_types.specs.declared.command.RequestNo.{RequestNo};
ghost use Rattle.rr_types.specs.Registry.{is_same_request};
ghost use Rattle.rr_state.specs.Arrived.{without_first, seconds};

use rr_types::{Command, RequestNo};
use std::alloc::{AllocError, Global};
use std::collections::BTreeMap;
use std::collections::btree_map::Iter;
use std::marker::Model;

/// What has a request number.
pub trait Requested: Copy + Drop {
    /// The request number that it has.
    ghost request_of: { Self → RequestNo };

    /// Its request number.
    fn request(&self) -> RequestNo
        ensures { result ≡ request_of self.now };
}

impl Requested for Command {
    ghost request_of = { λ c. c.request };

    fn request(&self) -> RequestNo {
        self.request
    }
}

impl Requested for RequestNo {
    ghost request_of = { λ q. q };

    fn request(&self) -> RequestNo {
        *self
    }
}

/// Values in order of arrival, one a request number. Each call costs the logarithm of how many there are.
#[derive(Drop)]
pub(crate) struct Arrivals<V: Requested> {
    order: BTreeMap<u64, V>,
    arrivals: BTreeMap<RequestNo, u64>,
    next: u64,
}

impl<V: Requested> Model for Arrivals<V> {
    ghost use Rattle.std.specs.Prelude.{List};
    ghost use Rattle.rr_state.specs.Arrived.{seconds, IsIndexed};

    ghost Value = { List V };

    ghost view = { λ a. seconds a.order.entries };

    ghost invariant = { λ a. IsIndexed V.request_of a.order.entries a.arrivals.entries a.next };
}

impl<V: Requested> Arrivals<V> {
    /// No value.
    pub(crate) fn new(alloc: Global) -> Arrivals<V>
        ensures { result ≡ [] }
    {
        Arrivals {
            order: BTreeMap::new(alloc),
            arrivals: BTreeMap::new(alloc),
            next: 0,
        }
    }

    /// Whether there is a value with this request number.
    pub(crate) fn has(&self, request: RequestNo) -> bool
        ensures { result ≡ list_any (λ v. is_same_request (V.request_of v) request) self.now }
    {
        self.arrivals.contains_key(&request)
    }

    /// Puts a value last. After an error nothing has changed.
    pub(crate) fn push(&mut self, value: V) -> Result<(), AllocError>
        requires { list_any (λ v. is_same_request (V.request_of v) (V.request_of value)) self.old ≡ false }
        ensures ok { OnOk result (self.new ≡ self.old ++ value ∷ []) }
        ensures kept { OnErr result (self.new ≡ self.old) }
    {
        let request = value.request();
        let number = self.next;
        if number == u64::MAX {
            return Err(AllocError);
        }
        if let Err(_) = self.arrivals.insert(request, number) {
            return Err(AllocError);
        }
        match self.order.insert(number, value) {
            Ok(_) => {
                self.next = number + 1;
                Ok(())
            }
            Err(_) => {
                self.arrivals.remove(&request);
                Err(AllocError)
            }
        }
    }

    /// Takes the last value away again. It needs no memory.
    pub(crate) fn take_back(&mut self)
        ensures { (vs : List V) (v : V) → self.old ≡ vs ++ v ∷ [] → self.new ≡ vs }
    {
        if let Some((_, value)) = self.order.pop_last() {
            self.arrivals.remove(&value.request());
        }
    }

    /// Takes the value with this request number away. It needs no memory.
    pub(crate) fn remove(&mut self, request: RequestNo)
        ensures rest { self.new ≡ filter (λ v. not (is_same_request (V.request_of v) request)) self.old }
        ensures first { self.new ≡ without_first (λ v. is_same_request (V.request_of v) request) self.old }
    {
        if let Some(number) = self.arrivals.remove(&request) {
            self.order.remove(&number);
        }
    }

    /// The values, oldest first.
    pub(crate) fn iter(&self) -> Values<'_, V>
        ensures { result ≡ self.now }
    {
        Values::new(self.order.iter())
    }
}

/// The values that are left, oldest first.
#[derive(Drop)]
pub struct Values<'a, V: Requested> {
    rest: Iter<'a, u64, V>,
}

impl<'a, V: Requested> Model for Values<'a, V> {
    ghost use Rattle.std.specs.Prelude.{List};
    ghost use Rattle.rr_state.specs.Arrived.{seconds};

    ghost Value = { List V };

    ghost view = { λ v. seconds v.rest };
}

impl<'a, V: Requested> Values<'a, V> {
    fn new(rest: Iter<'a, u64, V>) -> Values<'a, V>
        ensures { result ≡ seconds rest.entry }
    {
        Values { rest }
    }

    /// The next value, lent: a command is large.
    pub fn next_ref(&mut self) -> Option<&'a V>
        ensures { MatchOption result ((self.old ≡ []) × (self.new ≡ [])) (λ v. self.old ≡ v.now ∷ self.new) }
    {
        match self.rest.next() {
            Some((_, value)) => Some(value),
            None => None,
        }
    }
}

impl<'a, V: Requested> Iterator for Values<'a, V> {
    type Item = V;

    ghost next_gives = { TakesFirst (λ v. v) };

    ghost remaining = { λ s. at_most (length s) };

    fn next(&mut self) -> Option<V> {
        match self.rest.next() {
            Some((_, value)) => Some(*value),
            None => None,
        }
    }
}
