//! Messages and the instances that they are of.

ghost use Rattle.std.specs.Prelude.{◌≡◌};
ghost use Rattle.rr_turn.specs.Chases.{is_above, is_of, higher};

use crate::sent::Sent;
use std::marker::Model;

/// An estimate, a proposal or a decision, and its instance.
#[derive(Clone, Copy, Debug)]
pub struct Placed {
    pub instance: u32,
    pub sent: Sent,
}

impl Model for Placed {
    ghost use Rattle.rr_turn.specs.Chases.{Placed};

    ghost Value = { Placed };

    ghost view = { λ p. record { instance = p.instance; sent = p.sent } };

    ghost inverse = { λ p. record { instance = p.instance; sent = p.sent } };
}

/// Whether an instance lies above that of a message, if there is one.
pub fn is_above(instance: u32, message: Option<Placed>) -> bool
    ensures { result ≡ is_above instance message }
{
    match message {
        None => true,
        Some(placed) => placed.instance < instance,
    }
}

/// Whether an instance is that of a message.
pub fn is_of(instance: u32, message: Option<Placed>) -> bool
    ensures { result ≡ is_of instance message }
{
    match message {
        None => false,
        Some(placed) => instance == placed.instance,
    }
}

/// A message of this instance is kept in the place of another, unless that is of as high an instance.
pub fn keep_higher(kept: &mut Option<Placed>, instance: u32, sent: &Sent)
    ensures { kept.new ≡ higher instance sent.now kept.old }
{
    if is_above(instance, *kept) {
        *kept = Some(Placed {
            instance,
            sent: *sent,
        });
    }
}
