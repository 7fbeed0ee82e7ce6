//! How a run ends.

ghost use Rattle.std.specs.Prelude.{◌≡◌, ◌-◌, ◌==◌, ◌||◌, None, is_some, option_map};
ghost use Rattle.rr_turn.specs.Endings.{with_failure};

use rr_types::{NodeId, Refusal};
use std::marker::Model;

/// A refusal that ends a run, and whose node's it is.
#[derive(Clone, Copy, Debug)]
pub struct Failure {
    pub node: NodeId,
    pub refusal: Refusal,
}

/// How many clients of a run aren't done, and the failure that ended it, if one did.
#[derive(Debug, Drop)]
pub struct Ending {
    clients: usize,
    failure: Option<Failure>,
}

impl Model for Ending {
    ghost use Rattle.rr_turn.specs.Endings.{Ending};

    ghost Value = { Ending };

    ghost view = { λ e. record { clients = e.clients; failure = e.failure } };
}

impl Ending {
    /// A run that begins, with `clients` clients.
    pub fn new(clients: usize) -> Ending
        ensures { result ≡ record { clients = clients; failure = None } }
    {
        Ending {
            clients,
            failure: None,
        }
    }

    /// One more client is done.
    pub fn leave(&mut self)
        ensures { self.new ≡ record self.old { clients = self.old.clients - 1 } }
    {
        self.clients = self.clients.saturating_sub(1);
    }

    /// A node has failed. Of several failures the lowest node's is kept, and of one node's the first.
    pub fn fail(&mut self, failure: Failure)
        ensures { self.new ≡ record self.old { failure = with_failure self.old.failure failure } }
    {
        match self.failure {
            Some(before) if before.node.index() <= failure.node.index() => {}
            _ => self.failure = Some(failure),
        }
    }

    /// Whether the run is over: all clients are done, or a node has failed.
    pub fn is_over(&self) -> bool
        ensures { result ≡ (self.now.clients == 0 || is_some self.now.failure) }
    {
        self.clients == 0 || self.failure.is_some()
    }

    /// The refusal that ended the run, if one did.
    pub fn refusal(&self) -> Option<Refusal>
        ensures { result ≡ option_map (λ f. f.refusal) self.now.failure }
    {
        self.failure.map(|failure| failure.refusal)
    }
}
