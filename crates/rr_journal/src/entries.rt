//! The entries of a promise while facts are read.

ghost use Rattle.std.specs.Prelude.{◌≡◌, ◌++◌, ◌<◌, false, length, IsTrue, OnOk, IfOk};
ghost use Rattle.std.specs.Ordering.{nat_cmp};
ghost use Rattle.std.specs.BTreeMap.{insert_entry};
ghost use Rattle.std.specs.Map.{values_of};
ghost use Rattle.rr_types.specs.Promises.{IsAscending, standing_in, set_entry};
ghost use Rattle.rr_journal.specs.Entries.{AreFirst, AreParted, IsFirst};

use rr_types::{Command, Instance, Kept, Op, Standing, made_of};
use std::alloc::{AllocError, Global};
use std::collections::BTreeMap;
use std::marker::Model;

/// Entries by ascending instances. Those from instance 0 on without a gap stand in a vector, and those beyond the gap in
/// a tree. So an entry finds its place in the logarithm of how many there are, and moves no other.
#[derive(Drop)]
pub struct Entries {
    front: Vec<Kept>,
    beyond: BTreeMap<u32, Kept>,
}

impl Model for Entries {
    ghost use Rattle.std.specs.Prelude.{List, ◌++◌};
    ghost use Rattle.std.specs.Map.{values_of};
    ghost use Rattle.rr_types.specs.declared.promise.Entry.{Entry};
    ghost use Rattle.rr_journal.specs.Entries.{AreParted};

    ghost Value = { List Entry };

    ghost view = { λ e. e.front.items ++ values_of e.beyond.entries };

    ghost invariant = { λ e. AreParted e.front.items e.beyond.entries };
}

/// Whether an instance below the last one has no entry.
fn has_gap(entries: &[Kept]) -> bool
    requires { IsAscending entries.now }
    ensures gap { result ≡ false → AreFirst 0 entries.now }
    ensures some { IsTrue result → 0 < length entries.now }
{
    let count = entries.len();
    if count == 0 {
        return false;
    }
    let last = &entries[count - 1];
    count <= last.instance.number() as usize
}

/// Whether the tree's first entry is that of the instance with this number.
fn is_next(number: usize, beyond: &BTreeMap<u32, Kept>) -> bool
    ensures { IsTrue result → IsFirst number beyond.now.entries }
{
    match beyond.first_key_value() {
        Some((first, _)) => *first as usize == number,
        None => false,
    }
}

/// Moves the entries that are next in turn from the tree to the vector, as far as there is memory.
fn close_up(front: &mut Vec<Kept>, beyond: &mut BTreeMap<u32, Kept>)
    requires { AreParted front.old.items beyond.old.entries }
    ensures same { front.new.items ++ values_of beyond.new.entries ≡ front.old.items ++ values_of beyond.old.entries }
    ensures parted { AreParted front.new.items beyond.new.entries }
{
    made_of!(Command, Op, Standing);
    while is_next(front.len(), beyond) && front.try_reserve(1).is_ok() {
        match beyond.pop_first() {
            Some((_, entry)) => front.push_reserved(entry),
            None => return,
        }
    }
}

/// Puts an entry into the tree.
fn put(beyond: &mut BTreeMap<u32, Kept>, number: u32, entry: Kept) -> Result<(), AllocError>
    ensures { OnOk result (beyond.new.entries ≡ insert_entry nat_cmp beyond.old.entries number entry) }
{
    match beyond.insert(number, entry) {
        Ok(_) => Ok(()),
        Err(_) => Err(AllocError),
    }
}

impl Entries {
    /// Ascending entries. They stay where they are up to the first gap.
    ///
    /// # Errors
    /// `AllocError`.
    pub fn of(alloc: Global, entries: Vec<Kept>) -> Result<Entries, AllocError>
        requires { IsAscending entries.items }
        ensures { IfOk result (λ e. e ≡ entries.items) }
    {
        made_of!(Command, Op, Standing);
        let mut front = entries;
        let mut beyond = BTreeMap::new(alloc);
        while has_gap(&front) {
            let Some(entry) = front.pop() else {
                unreachable!();
            };
            let number = entry.instance.number();
            put(&mut beyond, number, entry)?;
        }
        Ok(Entries { front, beyond })
    }

    /// Where an instance stands.
    pub fn standing(&self, instance: Instance) -> Option<Standing>
        ensures { result ≡ standing_in self.now instance }
    {
        made_of!(Command, Op);
        let number = instance.number();
        let at = number as usize;
        if at < self.front.len() {
            return Some(self.front[at].standing());
        }
        match self.beyond.get(&number) {
            Some(entry) => Some(entry.standing()),
            None => None,
        }
    }

    /// Puts where an instance stands in its place.
    ///
    /// # Errors
    /// `AllocError`.
    pub fn set(
        &mut self,
        alloc: Global,
        instance: Instance,
        standing: &Standing,
    ) -> Result<(), AllocError>
        ensures { OnOk result (self.new ≡ set_entry instance standing.now self.old) }
    {
        made_of!(Command, Op);
        let number = instance.number();
        let at = number as usize;
        let entry = Kept::new(alloc, instance, standing)?;
        if at < self.front.len() {
            self.front[at] = entry;
            return Ok(());
        }
        if at > self.front.len() || self.beyond.contains_key(&number) {
            return match self.beyond.insert(number, entry) {
                Ok(_) => Ok(()),
                Err(_) => Err(AllocError),
            };
        }
        self.front.push(entry)?;
        close_up(&mut self.front, &mut self.beyond);
        Ok(())
    }

    /// The entries, ascending.
    ///
    /// # Errors
    /// `AllocError`.
    pub fn into_vec(self) -> Result<Vec<Kept>, AllocError>
        ensures same { IfOk result (λ entries. entries.items ≡ self) }
        ensures ascending { IfOk result (λ entries. IsAscending entries.items) }
    {
        made_of!(Command, Op, Standing);
        let Entries {
            mut front,
            mut beyond,
        } = self;
        front.reserve(beyond.len())?;
        while let Some((_, entry)) = beyond.pop_first() {
            front.push(entry)?;
        }
        Ok(front)
    }
}
