//! A message that waits for its fact.

use rr_types::Message;
use std::marker::Model;

/// A message that the node owes, and the number of the fact that backs it.
#[derive(Clone, Copy, Debug)]
pub struct Owed {
    pub message: Message,
    pub backing: Option<u128>,
}

impl Model for Owed {
    ghost use Rattle.rr_model.specs.NodeState as model;

    ghost Value = { model.Owed };

    ghost view = { λ o. record { message = o.message; backing = o.backing } };

    ghost inverse = { λ o. record { message = o.message; backing = o.backing } };
}
