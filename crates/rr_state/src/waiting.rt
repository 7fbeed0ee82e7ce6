//! The requests that wait for their acknowledgement.

ghost use Rattle.std.specs.Prelude.{◌≡◌, ◌∷◌, ◌++◌, [], List, false, OnOk, OnErr};
ghost use Rattle.std.specs.List.{list_any};
ghost use Rattle.rr_types.specs.declared.command.RequestNo.{RequestNo};
ghost use Rattle.rr_types.specs.Registry.{is_same_request};
ghost use Rattle.rr_state.specs.Arrived.{without_first};

use crate::arrivals::{Arrivals, Values};
use rr_types::RequestNo;
use std::alloc::{AllocError, Global};
use std::marker::Model;

/// Request numbers in order, each once. Each call costs the logarithm of how many there are.
#[derive(Drop)]
pub struct Waiting {
    requests: Arrivals<RequestNo>,
}

impl Model for Waiting {
    ghost use Rattle.std.specs.Prelude.{List};
    ghost use Rattle.rr_types.specs.declared.command.RequestNo.{RequestNo};

    ghost Value = { List RequestNo };

    ghost view = { λ w. w.requests };
}

impl Waiting {
    /// No request.
    pub fn new(alloc: Global) -> Waiting
        ensures { result ≡ [] }
    {
        Waiting {
            requests: Arrivals::new(alloc),
        }
    }

    /// Whether a request waits.
    pub fn has(&self, request: RequestNo) -> bool
        ensures { result ≡ list_any (λ w. is_same_request w request) self.now }
    {
        self.requests.has(request)
    }

    /// Puts a request last. After an error nothing has changed.
    pub fn push(&mut self, request: RequestNo) -> Result<(), AllocError>
        requires { list_any (λ w. is_same_request w request) self.old ≡ false }
        ensures ok { OnOk result (self.new ≡ self.old ++ request ∷ []) }
        ensures kept { OnErr result (self.new ≡ self.old) }
    {
        self.requests.push(request)
    }

    /// Takes the last request away again. It needs no memory.
    pub fn take_back(&mut self)
        ensures { (qs : List RequestNo) (q : RequestNo) → self.old ≡ qs ++ q ∷ [] → self.new ≡ qs }
    {
        self.requests.take_back();
    }

    /// Takes a request away. It needs no memory.
    pub fn remove(&mut self, request: RequestNo)
        ensures { self.new ≡ without_first (λ w. is_same_request w request) self.old }
    {
        self.requests.remove(request);
    }

    /// The requests, oldest first.
    pub fn iter(&self) -> Values<'_, RequestNo>
        ensures { result ≡ self.now }
    {
        self.requests.iter()
    }
}
