//! Messages and the instances that they are of.

ghost use Rattle.std.specs.Prelude.{◌≡◌};
ghost use Rattle.rr_host.specs.Chases.{is_above, is_of};

use rr_types::Message;
use std::marker::Model;

/// An estimate, a proposal or a decision, and its instance.
#[derive(Clone, Copy, Debug)]
pub struct Placed {
    pub instance: u32,
    pub message: Message,
}

impl Model for Placed {
    ghost use Rattle.rr_host.specs.Chases.{Placed};

    ghost Value = { Placed };

    ghost view = { λ p. record { instance = p.instance; message = p.message } };

    ghost inverse = { λ p. record { instance = p.instance; message = p.message } };
}

/// Whether an instance lies above that of a message, if there is one.
pub fn is_above(instance: u32, message: Option<Placed>) -> bool
    ensures { result ≡ is_above instance message }
{
    match message {
        None => true,
        Some(placed) => placed.instance < instance,
    }
}

/// Whether an instance is that of a message.
pub fn is_of(instance: u32, message: Option<Placed>) -> bool
    ensures { result ≡ is_of instance message }
{
    match message {
        None => false,
        Some(placed) => instance == placed.instance,
    }
}
