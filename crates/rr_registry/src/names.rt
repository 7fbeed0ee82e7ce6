//! The bound names, and what an operation does to its name.

ghost use Rattle.std.specs.Prelude.{◌≡◌, ℕ, List, [], ◌+◌, length, ◌<◌, true, false, not, Some, is_some, IsTrue, IsSome, IfOk, OnOk, OnErr};
ghost use Rattle.std.specs.BTreeMap.{insert_entry, is_at};
ghost use Rattle.std.specs.Cmp.Lexicographic.{slice_cmp};
ghost use Rattle.std.specs.List.Sorted.{IsStrictlySortedBy};
ghost use Rattle.std.specs.Map.{keys_of};
ghost use Rattle.std.specs.Ordering.{nat_cmp};
ghost use Rattle.rr_types.specs.Commands.{op_name};
ghost use Rattle.rr_types.specs.Registry.{Bindings, holding_of, apply_op, bind};
ghost use Rattle.rr_types.specs.Limits.{max_bound};
ghost use Rattle.rr_registry.specs.Places.{held, has_place};
ghost use Rattle.rr_registry.specs.Tables.{bindings_in, effected, has_name_place, has_op_place, may_free, CanHave, IsCounted, HasNoFreeName};

use crate::entries::Entries;
use crate::holding::Holding;
use crate::places::{drop_free_place, insert, make_place, put, value_at};
use rr_types::{Name, Op, Reply, Value};
use std::alloc::{AllocError, Global};
use std::collections::BTreeMap;
use std::collections::btree_map::Entry;

/// The most names that are bound at a time.
pub const MAX_BOUND: usize = 4096;

/// What an operation does to its name.
#[derive(Clone, Copy, Debug)]
pub(crate) enum Effect {
    /// The name stays as it is.
    Nothing,
    /// A free name gets an owner and a value.
    Bind(Holding),
    /// A bound name gets another owner or another value.
    Replace(Holding),
    /// A bound name gets free.
    Free,
}

/// A place for each bound name. Others have one only from `make_place` to `drop_free_place`.
#[derive(Drop)]
pub(crate) struct Names {
    places: BTreeMap<Name, Option<Holding>>,
    bound: usize,
}

impl Names {
    pub(crate) fn new(alloc: Global) -> Names
        ensures empty { bindings_in result ≡ [] }
        ensures counted { IsCounted result }
        ensures free { (n : List ℕ) → has_name_place result n ≡ false }
    {
        Names {
            places: BTreeMap::new(alloc),
            bound: 0,
        }
    }

    /// Who has a name.
    pub(crate) fn holding(&self, name: &Name) -> Option<Holding>
        ensures value { result ≡ holding_of (bindings_in self.now) name.now }
        ensures place { IsSome result → IsTrue (has_name_place self.now name.now) }
    {
        value_at(&self.places, name)
    }

    /// The bound names in byte order.
    pub(crate) fn entries(&self) -> Entries<'_>
        ensures { result ≡ bindings_in self.now }
    {
        Entries::new(self.places.iter())
    }

    /// Binds a name that has a place, whether it is bound or not.
    fn bind(&mut self, name: &Name, holding: Holding)
        requires { IsTrue (has_name_place self.old name.now) }
        ensures bindings { bindings_in self.new ≡ bind (bindings_in self.old) name.now holding.owner holding.value }
        ensures count { length (bindings_in self.new) + held (holding_of (bindings_in self.old) name.now) ≡ length (bindings_in self.old) + 1 }
        ensures places { (n : List ℕ) → has_name_place self.new n ≡ has_name_place self.old n }
        ensures bound { self.new.bound ≡ self.old.bound }
    {
        put(&mut self.places, *name, Some(holding));
    }

    /// What an operation does to its name for a client, and the reply to it.
    pub(crate) fn outcome(&self, client: u32, op: &Op) -> (Effect, Reply)
        requires { IsCounted self.now }
        ensures step { (effected (bindings_in self.now) (op_name op.now) result.0, result.1) ≡ apply_op (bindings_in self.now) client op.now }
        ensures can { CanHave self.now.bound (holding_of (bindings_in self.now) (op_name op.now)) op.now result.0 }
    {
        outcome_at(self.bound, &self.holding(op.name()), client, op)
    }

    /// Applies an operation for a client, and gives the reply. It takes no memory, as a claim has its place. The
    /// place stays.
    pub(crate) fn perform(&mut self, client: u32, op: &Op) -> Reply
        requires place { IsTrue (has_op_place self.old op.now) }
        requires counted { IsCounted self.old }
        ensures step { (bindings_in self.new, result) ≡ apply_op (bindings_in self.old) client op.now }
        ensures counted { IsCounted self.new }
        ensures places { (n : List ℕ) → has_name_place self.new n ≡ has_name_place self.old n }
    {
        match self.places.get_mut(op.name()) {
            None => Reply::Unknown,
            Some(place) => {
                let (effect, reply) = outcome_at(self.bound, place, client, op);
                match effect {
                    Effect::Nothing => (),
                    Effect::Bind(holding) => {
                        *place = Some(holding);
                        self.bound += 1;
                    }
                    Effect::Replace(holding) => *place = Some(holding),
                    Effect::Free => {
                        *place = None;
                        self.bound -= 1;
                    }
                }
                reply
            }
        }
    }

    /// Has an operation's effect on its name. No place is free, and none is left so. Where memory is refused the names
    /// are as they were.
    pub(crate) fn try_change(&mut self, op: &Op, effect: Effect) -> Result<(), AllocError>
        requires can { CanHave self.old.bound (holding_of (bindings_in self.old) (op_name op.now)) op.now effect }
        requires counted { IsCounted self.old }
        requires free { HasNoFreeName self.old }
        ensures bindings { OnOk result (bindings_in self.new ≡ effected (bindings_in self.old) (op_name op.now) effect) }
        ensures err { OnErr result (bindings_in self.new ≡ bindings_in self.old) }
        ensures counted { IsCounted self.new }
        ensures free { HasNoFreeName self.new }
    {
        let name = op.name();
        match effect {
            Effect::Nothing => (),
            Effect::Bind(holding) => {
                insert(&mut self.places, *name, holding)?;
                self.bound += 1;
            }
            Effect::Replace(holding) => self.bind(name, holding),
            Effect::Free => {
                self.places.remove(name);
                self.bound -= 1;
            }
        }
        Ok(())
    }

    /// Binds a name that is free, and tells whether it was. Where memory is refused the names are as they were.
    fn bind_free(&mut self, name: &Name, holding: Holding) -> Result<bool, AllocError>
        requires room { self.old.bound < max_bound }
        requires counted { IsCounted self.old }
        requires free { HasNoFreeName self.old }
        ensures was { IfOk result (λ is_free. is_some (holding_of (bindings_in self.old) name.now) ≡ not is_free) }
        ensures bound { IfOk result (λ is_free. IsTrue is_free → bindings_in self.new ≡ bind (bindings_in self.old) name.now holding.owner holding.value) }
        ensures taken { IfOk result (λ is_free. is_free ≡ false → bindings_in self.new ≡ bindings_in self.old) }
        ensures err { OnErr result (bindings_in self.new ≡ bindings_in self.old) }
        ensures counted { IsCounted self.new }
        ensures free { HasNoFreeName self.new }
    {
        if put_new(&mut self.places, name, holding)? {
            self.bound += 1;
            return Ok(true);
        }
        Ok(false)
    }

    /// Applies an operation for a client, and gives the reply. No place is free, and none is left so. Where memory is
    /// refused the names are as they were.
    pub(crate) fn apply(&mut self, client: u32, op: &Op) -> Result<Reply, AllocError>
        requires counted { IsCounted self.old }
        requires free { HasNoFreeName self.old }
        ensures step { IfOk result (λ reply. (bindings_in self.new, reply) ≡ apply_op (bindings_in self.old) client op.now) }
        ensures err { OnErr result (bindings_in self.new ≡ bindings_in self.old) }
        ensures counted { IsCounted self.new }
        ensures free { HasNoFreeName self.new }
    {
        if self.bound < MAX_BOUND {
            if let Op::Claim(name, value) = op {
                if self.bind_free(name, Holding::new(client, *value))? {
                    return Ok(Reply::Claimed);
                }
            }
        }
        let (effect, reply) = self.outcome(client, op);
        self.try_change(op, effect)?;
        Ok(reply)
    }

    /// Makes the place that an operation needs.
    pub(crate) fn make_place(&mut self, op: &Op) -> Result<(), AllocError>
        ensures bindings { bindings_in self.new ≡ bindings_in self.old }
        ensures bound { self.new.bound ≡ self.old.bound }
        ensures made { OnOk result (IsTrue (has_op_place self.new op.now)) }
        ensures stay { (n : List ℕ) → IsTrue (has_name_place self.old n) → IsTrue (has_name_place self.new n) }
        ensures only { (n : List ℕ) → may_free op.now n ≡ false → has_name_place self.new n ≡ has_name_place self.old n }
    {
        match op {
            Op::Claim(name, _) => make_place(&mut self.places, *name),
            Op::Update(_, _) => Ok(()),
            Op::Release(_) => Ok(()),
            Op::Transfer(_, _) => Ok(()),
        }
    }

    /// Takes away the place of an operation's name if it is free. Only a claim or a release can leave it so. Where
    /// each place has a bound name, none is looked for.
    pub(crate) fn drop_free_place(&mut self, op: &Op)
        requires { IsCounted self.old }
        ensures bindings { bindings_in self.new ≡ bindings_in self.old }
        ensures bound { self.new.bound ≡ self.old.bound }
        ensures gone { (n : List ℕ) → may_free op.now n ≡ true → has_name_place self.new n ≡ is_some (holding_of (bindings_in self.old) n) }
        ensures only { (n : List ℕ) → may_free op.now n ≡ false → has_name_place self.new n ≡ has_name_place self.old n }
    {
        if self.places.len() == self.bound {
            return;
        }
        match op {
            Op::Claim(name, _) => drop_free_place(&mut self.places, name),
            Op::Update(_, _) => (),
            Op::Release(name) => drop_free_place(&mut self.places, name),
            Op::Transfer(_, _) => (),
        }
    }
}

/// Gives a name that has no place this holding, and tells whether it had none. Its place is found once. Where memory is
/// refused the places are as they were.
fn put_new(
    places: &mut BTreeMap<Name, Option<Holding>>,
    name: &Name,
    holding: Holding,
) -> Result<bool, AllocError>
    ensures was { IfOk result (λ is_new. has_place (slice_cmp nat_cmp) places.old.entries name.now ≡ not is_new) }
    ensures put { IfOk result (λ is_new. IsTrue is_new → places.new.entries ≡ insert_entry (slice_cmp nat_cmp) places.old.entries name.now (Some holding)) }
    ensures only { (n : List ℕ) → is_at (slice_cmp nat_cmp name.now) n ≡ false → has_place (slice_cmp nat_cmp) places.new.entries n ≡ has_place (slice_cmp nat_cmp) places.old.entries n }
    ensures kept { IfOk result (λ is_new. is_new ≡ false → places.new.entries ≡ places.old.entries) }
    ensures err { OnErr result (places.new.entries ≡ places.old.entries) }
    ensures sorted { IsStrictlySortedBy (slice_cmp nat_cmp) (keys_of places.old.entries) }
{
    match places.entry(*name)? {
        Entry::Occupied(_held) => Ok(false),
        Entry::Vacant(place) => {
            place.insert(Some(holding));
            Ok(true)
        }
    }
}

// A claim of a name that has this holding while so many names are bound.
fn claim(bound: usize, held: &Option<Holding>, client: u32, value: &Value) -> (Effect, Reply)
    ensures step { (m : Bindings) (name : List ℕ) → bound ≡ length m → held.now ≡ holding_of m name → (effected m name result.0, result.1) ≡ apply_op m client (Op.Claim name value.now) }
    ensures can { (name : List ℕ) → CanHave bound held.now (Op.Claim name value.now) result.0 }
{
    if let Some(holding) = held {
        return (Effect::Nothing, Reply::Taken(holding.owner()));
    }
    if bound >= MAX_BOUND {
        return (Effect::Nothing, Reply::Full);
    }
    (Effect::Bind(Holding::new(client, *value)), Reply::Claimed)
}

fn update(held: &Option<Holding>, client: u32, value: &Value) -> (Effect, Reply)
    ensures step { (m : Bindings) (name : List ℕ) → held.now ≡ holding_of m name → (effected m name result.0, result.1) ≡ apply_op m client (Op.Update name value.now) }
    ensures can { (bound : ℕ) (name : List ℕ) → CanHave bound held.now (Op.Update name value.now) result.0 }
{
    match held {
        None => (Effect::Nothing, Reply::Unknown),
        Some(present) if present.owner() == client => {
            let given = Holding::new(client, *value);
            (Effect::Replace(given), Reply::Updated)
        }
        Some(_) => (Effect::Nothing, Reply::NotOwner),
    }
}

fn release(held: &Option<Holding>, client: u32) -> (Effect, Reply)
    ensures step { (m : Bindings) (name : List ℕ) → held.now ≡ holding_of m name → (effected m name result.0, result.1) ≡ apply_op m client (Op.Release name) }
    ensures can { (bound : ℕ) (name : List ℕ) → CanHave bound held.now (Op.Release name) result.0 }
{
    match held {
        None => (Effect::Nothing, Reply::Unknown),
        Some(holding) if holding.owner() == client => (Effect::Free, Reply::Released),
        Some(_) => (Effect::Nothing, Reply::NotOwner),
    }
}

fn transfer(held: &Option<Holding>, client: u32, owner: u32) -> (Effect, Reply)
    ensures step { (m : Bindings) (name : List ℕ) → held.now ≡ holding_of m name → (effected m name result.0, result.1) ≡ apply_op m client (Op.Transfer name owner) }
    ensures can { (bound : ℕ) (name : List ℕ) → CanHave bound held.now (Op.Transfer name owner) result.0 }
{
    match held {
        None => (Effect::Nothing, Reply::Unknown),
        Some(holding) if holding.owner() == client => {
            let given = Holding::new(owner, holding.value());
            (Effect::Replace(given), Reply::Transferred)
        }
        Some(_) => (Effect::Nothing, Reply::NotOwner),
    }
}

// What an operation does for a client to its name, which has this holding while so many names are bound, and the reply.
fn outcome_at(bound: usize, held: &Option<Holding>, client: u32, op: &Op) -> (Effect, Reply)
    ensures step { (m : Bindings) → bound ≡ length m → held.now ≡ holding_of m (op_name op.now) → (effected m (op_name op.now) result.0, result.1) ≡ apply_op m client op.now }
    ensures can { CanHave bound held.now op.now result.0 }
{
    match op {
        Op::Claim(_, value) => claim(bound, held, client, value),
        Op::Update(_, value) => update(held, client, value),
        Op::Release(_) => release(held, client),
        Op::Transfer(_, owner) => transfer(held, client, *owner),
    }
}
