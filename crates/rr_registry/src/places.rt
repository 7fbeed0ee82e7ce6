//! Maps in which a key may have a place before it has a value. Making a place may need memory;
//! giving a place a value, and taking it, needs none.

ghost use Rattle.std.specs.Prelude.{◌≡◌, ◌+◌, false, cond, length, None, Some, is_some, IsTrue, IsSome, MatchOption, OnOk, OnErr};
ghost use Rattle.std.specs.BTreeMap.{is_at};
ghost use Rattle.std.specs.Map.{lookup};
ghost use Rattle.std.proofs.lemmas.Map.Lookups.{CmpEqualImpliesEq};
ghost use Rattle.rr_registry.specs.Places.{filled, has_place, put_entry, held};

use std::alloc::AllocError;
use std::collections::BTreeMap;

/// The value at a key.
pub fn value_at<K: Ord, V: Copy>(map: &BTreeMap<K, Option<V>>, key: &K) -> Option<V>
    ensures value { result ≡ lookup (is_at (K.cmp key.now)) (filled map.now.entries) }
    ensures place { IsSome result → IsTrue (has_place K.cmp map.now.entries key.now) }
{
    if map.len() == 0 {
        return None;
    }
    match map.get(key) {
        Some(place) => *place,
        None => None,
    }
}

/// The value at a key, in its place.
pub fn value_of<'a, K: Ord, V>(map: &'a BTreeMap<K, Option<V>>, key: &K) -> Option<&'a V>
    ensures { MatchOption result
        (lookup (is_at (K.cmp key.now)) (filled map.now.entries) ≡ None)
        (λ v. lookup (is_at (K.cmp key.now)) (filled map.now.entries) ≡ Some v.now) }
{
    if map.len() == 0 {
        return None;
    }
    match map.get(key) {
        Some(Some(value)) => Some(value),
        Some(None) => None,
        None => None,
    }
}

/// Makes a free place for a key that has none.
pub fn make_place<K: Ord + Copy + Drop, V: Drop>(
    map: &mut BTreeMap<K, Option<V>>,
    key: K,
) -> Result<(), AllocError>
    ensures filled { filled map.new.entries ≡ filled map.old.entries }
    ensures made { OnOk result (IsTrue (has_place K.cmp map.new.entries key)) }
    ensures kept { (q : K) → IsTrue (has_place K.cmp map.old.entries q) → IsTrue (has_place K.cmp map.new.entries q) }
    ensures only { (q : K) → is_at (K.cmp key) q ≡ false → has_place K.cmp map.new.entries q ≡ has_place K.cmp map.old.entries q }
{
    match map.entry(key) {
        Ok(entry) => {
            entry.or_insert(None);
            Ok(())
        }
        Err(_) => Err(AllocError),
    }
}

/// Writes what a key's place holds: a value, or `None`. It needs no memory.
pub fn put<K: Ord + Copy + Drop, V: Drop>(
    map: &mut BTreeMap<K, Option<V>>,
    key: K,
    value: Option<V>,
)
    requires place { IsTrue (has_place K.cmp map.old.entries key) }
    requires exact { CmpEqualImpliesEq K.cmp }
    ensures filled { filled map.new.entries ≡ put_entry K.cmp (filled map.old.entries) key value }
    ensures values { (q : K) → lookup (is_at (K.cmp q)) (filled map.new.entries) ≡ cond (is_at (K.cmp key) q) value (lookup (is_at (K.cmp q)) (filled map.old.entries)) }
    ensures count { length (filled map.new.entries) + held (lookup (is_at (K.cmp key)) (filled map.old.entries)) ≡ length (filled map.old.entries) + held value }
    ensures places { (q : K) → has_place K.cmp map.new.entries q ≡ has_place K.cmp map.old.entries q }
{
    match map.insert(key, value) {
        Ok(_) => (),
        Err(_) => unreachable!(),
    }
}

/// Gives a key a value, and a place if it has none. Where memory is refused the map is as it was.
pub fn insert<K: Ord + Copy + Drop, V: Drop>(
    map: &mut BTreeMap<K, Option<V>>,
    key: K,
    value: V,
) -> Result<(), AllocError>
    requires exact { CmpEqualImpliesEq K.cmp }
    ensures filled { OnOk result (filled map.new.entries ≡ put_entry K.cmp (filled map.old.entries) key (Some value)) }
    ensures made { OnOk result (IsTrue (has_place K.cmp map.new.entries key)) }
    ensures kept { (q : K) → IsTrue (has_place K.cmp map.old.entries q) → IsTrue (has_place K.cmp map.new.entries q) }
    ensures only { (q : K) → is_at (K.cmp key) q ≡ false → has_place K.cmp map.new.entries q ≡ has_place K.cmp map.old.entries q }
    ensures err { OnErr result (map.new.entries ≡ map.old.entries) }
{
    map.insert(key, Some(value))?;
    Ok(())
}

/// Takes a key's place away if it is free: the key then has a place just where it has a value.
pub fn drop_free_place<K: Ord + Copy + Drop, V: Drop>(map: &mut BTreeMap<K, Option<V>>, key: &K)
    ensures filled { filled map.new.entries ≡ filled map.old.entries }
    ensures gone { has_place K.cmp map.new.entries key.now ≡ is_some (lookup (is_at (K.cmp key.now)) (filled map.old.entries)) }
    ensures only { (q : K) → is_at (K.cmp key.now) q ≡ false → has_place K.cmp map.new.entries q ≡ has_place K.cmp map.old.entries q }
{
    match map.get(key) {
        Some(None) => {
            map.remove(key);
        }
        Some(Some(_)) => (),
        None => (),
    }
}
