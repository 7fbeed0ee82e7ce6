//! Instances of consensus and their rounds.

ghost use Rattle.std.specs.Prelude.{◌≡◌, ◌+◌, ◌<◌, ◌≤◌, ◌↔◌, IsSome, IfSome};
ghost use Rattle.rr_types.specs.Limits.{instance_count, last_round};

use std::marker::Model;

/// How many instances of consensus there are; each decides one command.
pub const INSTANCES: u32 = 1_048_576;

/// How many undecided instances, the lowest ones, are open at once.
pub const OPEN_INSTANCES: usize = 8;

/// The last round of an instance.
pub const MAX_ROUND: u32 = 2_147_483_647;

/// An instance of consensus: 0 to 1,048,575. It decides the command at this place of the list.
#[derive(Clone, Copy, Debug, PartialEq, Eq, PartialOrd, Ord)]
pub struct Instance {
    number: u32,
}

impl Model for Instance {
    ghost use Rattle.std.specs.Prelude.{ℕ, ◌<◌};
    ghost use Rattle.rr_types.specs.Limits.{instance_count};

    ghost Value = { ℕ };

    ghost view = { λ i. i.number };

    ghost invariant = { λ i. i.number < instance_count };

    ghost inverse = { λ n. record { number = n } };
}

impl Instance {
    /// The instance with this number, where there is one.
    pub fn new(number: u32) -> Option<Instance>
        ensures valid { IsSome result ↔ (number < instance_count) }
        ensures value { IfSome result (λ i. i ≡ number) }
    {
        if number < INSTANCES {
            Some(Instance { number })
        } else {
            None
        }
    }

    /// Its number, from 0 to 1,048,575.
    pub fn number(self) -> u32
        ensures value { result ≡ self }
        ensures range { result < instance_count }
    {
        self.number
    }
}

/// A round of an instance: 1 to 2,147,483,647.
#[derive(Clone, Copy, Debug, PartialEq, Eq, PartialOrd, Ord)]
pub struct Round {
    number: u32,
}

impl Model for Round {
    ghost use Rattle.std.specs.Prelude.{ℕ, ◌≤◌};
    ghost use Rattle.rr_types.specs.Limits.{last_round};

    ghost Value = { ℕ };

    ghost view = { λ r. r.number };

    ghost invariant = { λ r. (1 ≤ r.number) × (r.number ≤ last_round) };

    ghost inverse = { λ n. record { number = n } };
}

impl Round {
    /// The round with this number, where there is one.
    pub fn new(number: u32) -> Option<Round>
        ensures valid { IsSome result ↔ ((1 ≤ number) × (number ≤ last_round)) }
        ensures value { IfSome result (λ r. r ≡ number) }
    {
        if 1 <= number && number <= MAX_ROUND {
            Some(Round { number })
        } else {
            None
        }
    }

    /// The round with this number, which is known to be one.
    pub fn at(number: u32) -> Round
        requires { (1 ≤ number) × (number ≤ last_round) }
        ensures { result ≡ number }
    {
        Round { number }
    }

    /// Its number, from 1 to 2,147,483,647.
    pub fn number(self) -> u32
        ensures value { result ≡ self }
        ensures range { (1 ≤ result) × (result ≤ last_round) }
    {
        self.number
    }

    /// The round after this one; the last has none.
    pub fn next(self) -> Option<Round>
        ensures valid { IsSome result ↔ (self < last_round) }
        ensures value { IfSome result (λ r. r ≡ self + 1) }
    {
        if self.number < MAX_ROUND {
            Some(Round {
                number: self.number + 1,
            })
        } else {
            None
        }
    }
}
