//! The numbers of the facts that back an instance's messages.

ghost use Rattle.std.specs.Prelude.{◌≡◌, is_some, IfSome};
ghost use Rattle.rr_model.specs.NodeParts.{backing_after};
ghost use Rattle.rr_state.specs.Rows.{is_short};

use rr_types::Fact;
use std::marker::Model;

/// The numbers of the facts that back an instance's messages.
#[derive(Clone, Copy, Debug)]
pub struct Backing {
    pub entered: u128,
    pub proposed: u128,
    pub adopted: u128,
    pub decided: u128,
}

impl Model for Backing {
    ghost use Rattle.rr_model.specs.NodeState as model;

    ghost Value = { model.Backing };

    ghost view = { λ b. record { entered = b.entered; proposed = b.proposed; adopted = b.adopted; decided = b.decided } };

    ghost inverse = { λ b. record { entered = b.entered; proposed = b.proposed; adopted = b.adopted; decided = b.decided } };
}

impl Backing {
    /// No fact names the instance.
    pub fn none() -> Backing
        ensures { result ≡ record { entered = 0; proposed = 0; adopted = 0; decided = 0 } }
    {
        Backing {
            entered: 0,
            proposed: 0,
            adopted: 0,
            decided: 0,
        }
    }

    /// The numbers after a fact with this number.
    pub fn after(self, number: u128, fact: &Fact) -> Backing
        ensures { result ≡ backing_after number fact.now self }
    {
        match fact {
            Fact::Enter(..) => Backing {
                entered: number,
                proposed: 0,
                adopted: 0,
                decided: 0,
            },
            Fact::Propose(..) => Backing {
                proposed: number,
                ..self
            },
            Fact::Adopt(..) => Backing {
                adopted: number,
                ..self
            },
            Fact::Decide(..) => Backing {
                decided: number,
                ..self
            },
        }
    }
}

/// Fact numbers from this one on don't fit a short row.
const SHORT_NUMBERS: u128 = 1 << 32;

/// The same in a quarter of the room: each number is below 2^32.
#[derive(Clone, Copy, Debug)]
pub(crate) struct ShortBacking {
    entered: u32,
    proposed: u32,
    adopted: u32,
    decided: u32,
}

impl Model for ShortBacking {
    ghost use Rattle.rr_model.specs.NodeState as model;

    ghost Value = { model.Backing };

    ghost view = { λ b. record { entered = b.entered; proposed = b.proposed; adopted = b.adopted; decided = b.decided } };

    ghost inverse = { λ b. record { entered = b.entered; proposed = b.proposed; adopted = b.adopted; decided = b.decided } };
}

impl ShortBacking {
    /// These numbers, if each is below 2^32.
    pub(crate) fn of(backing: &Backing) -> Option<ShortBacking>
        ensures value { IfSome result (λ b. b ≡ backing.now) }
        ensures short { is_some result ≡ is_short backing.now }
    {
        if backing.entered < SHORT_NUMBERS
            && backing.proposed < SHORT_NUMBERS
            && backing.adopted < SHORT_NUMBERS
            && backing.decided < SHORT_NUMBERS
        {
            return Some(ShortBacking {
                entered: backing.entered as u32,
                proposed: backing.proposed as u32,
                adopted: backing.adopted as u32,
                decided: backing.decided as u32,
            });
        }
        None
    }

    /// The numbers.
    pub(crate) fn numbers(&self) -> Backing
        ensures { result ≡ self.now }
    {
        Backing {
            entered: self.entered as u128,
            proposed: self.proposed as u128,
            adopted: self.adopted as u128,
            decided: self.decided as u128,
        }
    }
}
