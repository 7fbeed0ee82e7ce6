//! The bound names, one after another.

ghost use Rattle.std.specs.Prelude.{◌≡◌, length};
ghost use Rattle.std.specs.Iterator.{at_most};
ghost use Rattle.std.specs.Map.Iter.{TakesFirst};
ghost use Rattle.rr_registry.specs.Places.{filled};

use crate::holding::Holding;
use rr_types::Name;
use std::collections::btree_map::Iter;
use std::marker::Model;

/// The bound names that are left, in byte order, each with its holding.
#[derive(Drop)]
pub struct Entries<'a> {
    places: Iter<'a, Name, Option<Holding>>,
}

impl<'a> Model for Entries<'a> {
    ghost use Rattle.rr_types.specs.Registry.{Bindings};
    ghost use Rattle.rr_registry.specs.Places.{filled};

    ghost Value = { Bindings };

    ghost view = { λ e. filled e.places };
}

impl<'a> Entries<'a> {
    pub(crate) fn new(places: Iter<'a, Name, Option<Holding>>) -> Entries<'a>
        ensures { result ≡ filled places.entry }
    {
        Entries { places }
    }
}

impl<'a> Iterator for Entries<'a> {
    type Item = (Name, Holding);

    ghost next_gives = { TakesFirst (λ e. e) };

    ghost remaining = { λ s. at_most (length s) };

    fn next(&mut self) -> Option<(Name, Holding)> {
        while let Some((name, place)) = self.places.next() {
            if let Some(holding) = place {
                return Some((*name, *holding));
            }
        }
        None
    }
}
