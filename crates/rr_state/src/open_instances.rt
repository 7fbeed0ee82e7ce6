//! Up to eight instances, in order.

ghost use Rattle.std.specs.Prelude.{◌≡◌, ◌<◌, ◌≤◌, ◌∷◌, ◌++◌, [], length};

use rr_types::{Instance, OPEN_INSTANCES};
use std::marker::Model;

/// Up to eight instances, in order. No call needs memory.
#[derive(Drop)]
pub struct OpenInstances {
    places: [Instance; 8],
    count: usize,
}

impl Model for OpenInstances {
    ghost use Rattle.std.specs.Prelude.{ℕ, List, take, ◌≤◌};

    ghost Value = { List ℕ };

    ghost view = { λ w. take w.count w.places };

    ghost invariant = { λ w. w.count ≤ 8 };
}

impl OpenInstances {
    /// No instance.
    pub fn new() -> OpenInstances
        ensures { result ≡ [] }
    {
        match Instance::new(0) {
            Some(first) => OpenInstances {
                places: [first; OPEN_INSTANCES],
                count: 0,
            },
            None => unreachable!(),
        }
    }

    /// The instances.
    pub fn as_slice(&self) -> &[Instance]
        ensures value { result.now ≡ self.now }
        ensures range { length result.now ≤ 8 }
    {
        &self.places[..self.count]
    }

    /// A copy.
    pub fn copied(&self) -> OpenInstances
        ensures { result ≡ self.now }
    {
        OpenInstances {
            places: self.places,
            count: self.count,
        }
    }

    /// Puts an instance last.
    pub fn push(&mut self, instance: Instance)
        requires { length self.old < 8 }
        ensures { self.new ≡ self.old ++ instance ∷ [] }
    {
        self.places[self.count] = instance;
        self.count += 1;
    }
}
