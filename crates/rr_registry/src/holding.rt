//! Who has a name.

ghost use Rattle.std.specs.Prelude.{◌≡◌};
ghost use Rattle.rr_types.specs.Registry.{binding_of};

use rr_types::{Binding, Name, Value};
use std::marker::Model;

/// Who has a name, and its value.
#[derive(Clone, Copy, Debug)]
pub struct Holding {
    owner: u32,
    value: Value,
}

impl Model for Holding {
    ghost use Rattle.rr_types.specs.Registry.{Holding};

    ghost Value = { Holding };

    ghost view = { λ h. record { owner = h.owner; value = h.value } };

    ghost inverse = { λ h. record { owner = h.owner; value = h.value } };
}

impl Holding {
    pub(crate) fn new(owner: u32, value: Value) -> Holding
        ensures { result ≡ record { owner = owner; value = value } }
    {
        Holding { owner, value }
    }

    /// The client that has the name.
    pub fn owner(&self) -> u32
        ensures { result ≡ self.now.owner }
    {
        self.owner
    }

    /// The name's value.
    pub fn value(&self) -> Value
        ensures { result ≡ self.now.value }
    {
        self.value
    }
}

/// A bound name with its holding, in one.
pub fn binding_of(bound: &(Name, Holding)) -> Binding
    ensures { result ≡ binding_of bound.now }
{
    let (name, holding) = bound;
    Binding {
        name: *name,
        owner: holding.owner,
        value: holding.value,
    }
}
