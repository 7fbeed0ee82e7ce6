//! Places by number.

ghost use Rattle.std.specs.Prelude.{◌≡◌, ◌++◌, ℕ, [], length, false, None, Some, is_some, IsTrue, MatchOption, OnOk, OnErr, IfOk};
ghost use Rattle.std.specs.BTreeMap.{insert_entry, is_at};
ghost use Rattle.std.specs.List.Sorted.{IsStrictlySortedBy};
ghost use Rattle.std.specs.Map.{lookup, keys_of, values_of};
ghost use Rattle.std.specs.Ordering.{nat_cmp};
ghost use Rattle.rr_registry.specs.Places.{filled, has_place, put_entry};
ghost use Rattle.rr_registry.specs.Numbered.{numbered, AscendFrom, IsFirst};

use crate::places::value_of;
use std::alloc::{AllocError, Global};
use std::collections::BTreeMap;
use std::marker::Model;

/// A map from numbers in which a number may have a place before it has a value. Numbers without a gap, from 0 on,
/// stand in a vector, and the others in a tree: where they come in order, each place is found by its index.
#[derive(Drop)]
pub struct Numbered<V> {
    low: Vec<Option<V>>,
    high: BTreeMap<u32, Option<V>>,
}

impl<V> Model for Numbered<V> {
    ghost use Rattle.std.specs.Prelude.{ℕ, ◌++◌, List, Option, length};
    ghost use Rattle.rr_registry.specs.Numbered.{numbered, AscendFrom};

    ghost Value = { List (ℕ × Option V) };

    ghost view = { λ n. numbered 0 n.low.items ++ n.high.entries };

    ghost invariant = { λ n. AscendFrom (length n.low.items) n.high.entries };
}

/// Moves the places that are next in turn from the tree to the vector, as far as there is memory.
fn close_up<V: Drop>(low: &mut Vec<Option<V>>, high: &mut BTreeMap<u32, Option<V>>)
    requires { AscendFrom (length low.old.items) high.old.entries }
    ensures same { numbered 0 low.new.items ++ high.new.entries ≡ numbered 0 low.old.items ++ high.old.entries }
    ensures from { AscendFrom (length low.new.items) high.new.entries }
{
    while is_next(low.len(), high) && low.try_reserve(1).is_ok() {
        match high.pop_first() {
            Some((_, place)) => low.push_reserved(place),
            None => return,
        }
    }
}

/// Whether the tree's first place is that of this number.
fn is_next<V>(number: usize, high: &BTreeMap<u32, Option<V>>) -> bool
    ensures { IsTrue result → IsFirst number high.now.entries }
{
    match high.first_key_value() {
        Some((first, _)) => *first as usize == number,
        None => false,
    }
}

impl<V: Drop> Numbered<V> {
    /// No place.
    pub fn new(alloc: Global) -> Numbered<V>
        ensures { result ≡ [] }
    {
        Numbered {
            low: Vec::new(alloc),
            high: BTreeMap::new(alloc),
        }
    }

    /// The value at a number.
    pub fn get(&self, number: u32) -> Option<&V>
        ensures { MatchOption result
            (lookup (is_at (nat_cmp number)) (filled self.now) ≡ None)
            (λ v. lookup (is_at (nat_cmp number)) (filled self.now) ≡ Some v.now) }
    {
        match self.low.get(number as usize) {
            Some(Some(value)) => Some(value),
            Some(None) => None,
            None => value_of(&self.high, &number),
        }
    }

    /// Whether a number has a place.
    fn has_place(&self, number: u32) -> bool
        ensures { result ≡ has_place nat_cmp self.now number }
    {
        if (number as usize) < self.low.len() {
            return true;
        }
        self.high.contains_key(&number)
    }

    /// Writes what a number's place holds, and makes the place if it has none. Memory is refused only for a new place.
    #[inline(always)]
    fn write(&mut self, number: u32, place: Option<V>) -> Result<(), AllocError>
        ensures ok { OnOk result (self.new ≡ insert_entry nat_cmp self.old number place) }
        ensures err { OnErr result (self.new ≡ self.old) }
        ensures absent { OnErr result (lookup (is_at (nat_cmp number)) self.old ≡ None) }
        ensures sorted { IsStrictlySortedBy nat_cmp (keys_of self.old) }
    {
        let at = number as usize;
        if at < self.low.len() {
            self.low[at] = place;
            return Ok(());
        }
        if at > self.low.len() || self.high.contains_key(&number) {
            return match self.high.insert(number, place) {
                Ok(_) => Ok(()),
                Err(_) => Err(AllocError),
            };
        }
        match self.low.push(place) {
            Ok(()) => {
                close_up(&mut self.low, &mut self.high);
                Ok(())
            }
            Err(_) => Err(AllocError),
        }
    }

    /// Makes a free place for a number that has none.
    ///
    /// # Errors
    /// `AllocError`.
    pub fn make_place(&mut self, number: u32) -> Result<(), AllocError>
        ensures filled { filled self.new ≡ filled self.old }
        ensures made { OnOk result (IsTrue (has_place nat_cmp self.new number)) }
        ensures kept { (q : ℕ) → IsTrue (has_place nat_cmp self.old q) → IsTrue (has_place nat_cmp self.new q) }
    {
        if !self.has_place(number) {
            self.write(number, None)?;
        }
        Ok(())
    }

    /// Gives a number that has a place a value. It needs no memory.
    #[inline(always)]
    pub fn put(&mut self, number: u32, value: V)
        requires { IsTrue (has_place nat_cmp self.old number) }
        ensures filled { filled self.new ≡ put_entry nat_cmp (filled self.old) number (Some value) }
        ensures places { (q : ℕ) → has_place nat_cmp self.new q ≡ has_place nat_cmp self.old q }
    {
        match self.write(number, Some(value)) {
            Ok(()) => (),
            Err(_) => unreachable!(),
        }
    }

    /// Gives a number a value, and a place if it has none. Where memory is refused all is as it was.
    ///
    /// # Errors
    /// `AllocError`.
    pub fn insert(&mut self, number: u32, value: V) -> Result<(), AllocError>
        ensures filled { OnOk result (filled self.new ≡ put_entry nat_cmp (filled self.old) number (Some value)) }
        ensures made { OnOk result (IsTrue (has_place nat_cmp self.new number)) }
        ensures kept { (q : ℕ) → IsTrue (has_place nat_cmp self.old q) → IsTrue (has_place nat_cmp self.new q) }
        ensures err { OnErr result (self.new ≡ self.old) }
    {
        self.write(number, Some(value))
    }

    /// Copies of the values, by their numbers.
    ///
    /// # Errors
    /// `AllocError`.
    pub fn values(&self, alloc: Global) -> Result<Vec<V>, AllocError>
    where
        V: Copy,
        ensures ok { IfOk result (λ values. values.items ≡ values_of (filled self.now)) }
    {
        let mut values = Vec::new(alloc);
        for place in self.low.iter() {
            if let Some(value) = place {
                values.push(*value)?;
            }
        }
        let mut rest = self.high.iter();
        while let Some((_, place)) = rest.next() {
            if let Some(value) = place {
                values.push(*value)?;
            }
        }
        Ok(values)
    }
}
