//! A map from keys to the first value of each list, hashed or in the order of its keys.
ghost use Rattle.std.specs.Prelude.{◌≡◌, ℕ, ◌+◌, ◌<◌, ◌≤◌, ◌∷◌, [], List, Option, Some, None, IfSome, IfNone, IfOk, IfErr, IsOk, OnOk, OnErr, is_some, IsSome, unwrap_or, not, if◌then◌else◌, length};
ghost use Rattle.std.specs.List.Sorted.{IsStrictlySortedBy};
ghost use Rattle.std.specs.Map.{keys_of};
ghost use Rattle.std.specs.Map.Iter.{deref_pair};
ghost use Rattle.std.specs.Option.{option_copied, option_map};
ghost use Rattle.key_index_flat.specs.Neighbours.{first_entry, last_entry, entries_above, entries_below};
ghost use Rattle.key_index_flat.specs.Storage.{value_of, SameBut, Sets};
ghost use Rattle.key_index_map.specs.Table.{pairs};

use super::tree_key::{TreeKey, TreeMap};
use key_index_map::map::Map;
use key_index_map::table::Table;
use std::collections::{BTreeMap, btree_map};
use std::hash::Hash;
use std::mem::replace;

/// A map from keys to the first value of each.
pub trait AnyMap<K: Ord + Hash + Copy, V> {
    ghost entries: { Self → List (K × V) };

    ghost spare: { Self → ℕ };

    fn len(&self) -> usize
        ensures { result ≡ length (entries self.now) };

    fn get(&self, key: &K) -> Option<&V>
        ensures { option_copied result ≡ value_of K.cmp (entries self.now) key.now };

    /// Puts a value at a key, and answers the one that stood there. A refusal, which comes at an absent key alone, hands the
    /// value back.
    fn insert(&mut self, key: K, value: V) -> Result<Option<V>, V>
    where
        V: Drop,
        ensures old { IfOk result (λ old. old ≡ value_of K.cmp (entries self.old) key) }
        ensures sets { OnOk result (Sets K.cmp (entries self.old) (entries self.new) key (Some value)) }
        ensures len { IfOk result (λ old.
            length (entries self.new) ≡ length (entries self.old) + (if is_some old then 0 else 1)) }
        ensures absent { OnErr result (value_of K.cmp (entries self.old) key ≡ None) }
        ensures refused { OnErr result (entries self.new ≡ entries self.old) }
        ensures room { spare self.old
            ≤ spare self.new + (if is_some (value_of K.cmp (entries self.old) key) then 0 else 1) }
        ensures succeeds { 0 < spare self.old → IsOk result }
        ensures returned { IfErr result (λ back. back ≡ value) };

    /// Puts a value at a key that has none. The value of a key that has one stays, and the other comes back, as it does with a refusal,
    /// which comes at an absent key alone.
    fn insert_absent(&mut self, key: K, value: V) -> Result<Option<V>, V>
    where
        V: Drop,
        ensures back { IfOk result (λ back.
            back ≡ (if is_some (value_of K.cmp (entries self.old) key) then Some value else None)) }
        ensures at { OnOk result (value_of K.cmp (entries self.new) key
            ≡ Some (unwrap_or (value_of K.cmp (entries self.old) key) value)) }
        ensures others { SameBut K.cmp (value_of K.cmp (entries self.old)) (value_of K.cmp (entries self.new)) key }
        ensures len { OnOk result (length (entries self.new)
            ≡ length (entries self.old) + (if is_some (value_of K.cmp (entries self.old) key) then 0 else 1)) }
        ensures absent { OnErr result (value_of K.cmp (entries self.old) key ≡ None) }
        ensures refused { OnErr result (entries self.new ≡ entries self.old) }
        ensures room { spare self.old
            ≤ spare self.new + (if is_some (value_of K.cmp (entries self.old) key) then 0 else 1) }
        ensures succeeds { 0 < spare self.old → IsOk result }
        ensures returned { IfErr result (λ back. back ≡ value) };

    /// Puts another value at a key that has one, and returns the one that stood there.
    fn replace(&mut self, key: &K, value: V) -> V
        requires { IsSome (value_of K.cmp (entries self.old) key.now) }
        ensures old { value_of K.cmp (entries self.old) key.now ≡ Some result }
        ensures sets { Sets K.cmp (entries self.old) (entries self.new) key.now (Some value) }
        ensures len { length (entries self.new) ≡ length (entries self.old) }
        ensures room { spare self.old ≤ spare self.new };

    fn remove(&mut self, key: &K) -> Option<V>
        ensures value { result ≡ value_of K.cmp (entries self.old) key.now }
        ensures sets { Sets K.cmp (entries self.old) (entries self.new) key.now None }
        ensures len { length (entries self.new) + (if is_some result then 1 else 0) ≡ length (entries self.old) };
}

impl<K: Ord + Hash + Copy, V> AnyMap<K, V> for Map<K, V> {
    ghost entries = { λ map. map.entries };

    ghost spare = { λ map. map.spare };

    #[inline(always)]
    fn len(&self) -> usize {
        Map::len(self)
    }

    #[inline(always)]
    fn get(&self, key: &K) -> Option<&V> {
        Map::get(self, key)
    }

    #[inline(always)]
    fn insert(&mut self, key: K, value: V) -> Result<Option<V>, V>
    where
        V: Drop,
    {
        Map::insert(self, key, value)
    }

    #[inline(always)]
    fn insert_absent(&mut self, key: K, value: V) -> Result<Option<V>, V>
    where
        V: Drop,
    {
        Map::insert_absent(self, key, value)
    }

    #[inline(always)]
    fn replace(&mut self, key: &K, value: V) -> V {
        replace(self.get_mut(key).unwrap(), value)
    }

    #[inline(always)]
    fn remove(&mut self, key: &K) -> Option<V> {
        Map::remove(self, key)
    }
}

impl<K: Ord + Hash + Copy, V> AnyMap<K, V> for Table<K, V> {
    ghost entries = { λ table. pairs table };

    ghost spare = { λ table. table.spare };

    #[inline(always)]
    fn len(&self) -> usize {
        Table::len(self)
    }

    #[inline(always)]
    fn get(&self, key: &K) -> Option<&V> {
        Table::get(self, key)
    }

    #[inline(always)]
    fn insert(&mut self, key: K, value: V) -> Result<Option<V>, V>
    where
        V: Drop,
    {
        Table::insert(self, key, value)
    }

    #[inline(always)]
    fn insert_absent(&mut self, key: K, value: V) -> Result<Option<V>, V>
    where
        V: Drop,
    {
        Table::insert_absent(self, key, value)
    }

    #[inline(always)]
    fn replace(&mut self, key: &K, value: V) -> V {
        replace(self.get_mut(key).unwrap(), value)
    }

    #[inline(always)]
    fn remove(&mut self, key: &K) -> Option<V> {
        Table::remove(self, key)
    }
}

impl<K: Ord + Hash + Copy, V> AnyMap<K, V> for TreeMap<K, V> {
    ghost entries = { λ map. map.entries };

    ghost spare = { λ _. 0 };

    #[inline]
    fn len(&self) -> usize {
        BTreeMap::len(self)
    }

    // A range's walk down the tree asks of each key whether it is below, and `get` of the map calls a function in each node besides.
    #[inline]
    fn get(&self, key: &K) -> Option<&V> {
        match self.range(TreeKey { key: *key }..).next() {
            Some((found, value)) => {
                if found.key.cmp(key).is_eq() {
                    return Some(value);
                }
                None
            }
            None => None,
        }
    }

    #[inline]
    fn insert(&mut self, key: K, value: V) -> Result<Option<V>, V>
    where
        V: Drop,
    {
        match BTreeMap::insert(self, TreeKey { key }, value) {
            Ok(old) => Ok(old),
            Err(failed) => {
                let (_, value) = failed.value;
                Err(value)
            }
        }
    }

    #[inline]
    fn insert_absent(&mut self, key: K, value: V) -> Result<Option<V>, V>
    where
        V: Drop,
    {
        match self.entry(TreeKey { key }) {
            Err(_) => Err(value),
            Ok(btree_map::Entry::Occupied(entry)) => {
                entry.into_mut();
                Ok(Some(value))
            }
            Ok(btree_map::Entry::Vacant(entry)) => {
                entry.insert(value);
                Ok(None)
            }
        }
    }

    #[inline]
    fn replace(&mut self, key: &K, value: V) -> V {
        replace(self.get_mut(&TreeKey { key: *key }).unwrap(), value)
    }

    #[inline]
    fn remove(&mut self, key: &K) -> Option<V> {
        BTreeMap::remove(self, &TreeKey { key: *key })
    }
}

/// A map of first values whose keys are in order. Each call takes a number of comparisons that is logarithmic in the keys.
pub trait OrderedMap<K: Ord + Hash + Copy, V>: AnyMap<K, V> {
    fn first(&self) -> Option<(&K, &V)>
        ensures entry { option_map deref_pair result ≡ first_entry (Self.entries self.now) }
        ensures rises { IsStrictlySortedBy K.cmp (keys_of (Self.entries self.now)) };

    fn last(&self) -> Option<(&K, &V)>
        ensures entry { option_map deref_pair result ≡ last_entry (Self.entries self.now) }
        ensures rises { IsStrictlySortedBy K.cmp (keys_of (Self.entries self.now)) };

    /// The entry with the least key strictly above this one.
    fn above(&self, key: &K) -> Option<(&K, &V)>
        ensures entry { option_map deref_pair result
            ≡ first_entry (entries_above K.cmp (Self.entries self.now) key.now) }
        ensures rises { IsStrictlySortedBy K.cmp (keys_of (Self.entries self.now)) };

    /// The entry with the greatest key strictly below this one.
    fn below(&self, key: &K) -> Option<(&K, &V)>
        ensures entry { option_map deref_pair result
            ≡ last_entry (entries_below K.cmp (Self.entries self.now) key.now) }
        ensures rises { IsStrictlySortedBy K.cmp (keys_of (Self.entries self.now)) };
}

/// Removes the entry with the least key.
#[inline]
pub(super) fn pop_least<K: Ord + Copy, V>(map: &mut TreeMap<K, V>) -> Option<(K, V)>
    ensures removal { IfSome result (λ entry. map.old.entries ≡ entry ∷ map.new.entries) }
    ensures none { IfNone result (map.old.entries ≡ []) }
    ensures kept { IfNone result (map.new.entries ≡ map.old.entries) }
    ensures rises { IsStrictlySortedBy K.cmp (keys_of map.old.entries) }
{
    // For the prover: the contract of `len` says that the keys rise.
    let _len = map.len();
    let (key, value) = map.pop_first()?;
    Some((key.get(), value))
}

/// An entry with the key itself in place of the tree's key.
#[inline(always)]
fn own_key<'a, K, V>(found: Option<(&'a TreeKey<K>, &'a V)>) -> Option<(&'a K, &'a V)>
    ensures { option_map deref_pair result ≡ option_map deref_pair found.entry }
{
    match found {
        Some((key, value)) => Some((&key.key, value)),
        None => None,
    }
}

impl<K: Ord + Hash + Copy, V> OrderedMap<K, V> for TreeMap<K, V> {
    #[inline]
    fn first(&self) -> Option<(&K, &V)> {
        // For the prover: the contract of `len` says that the keys rise.
        let _len = self.len();
        own_key(self.first_key_value())
    }

    #[inline]
    fn last(&self) -> Option<(&K, &V)> {
        let _len = self.len();
        own_key(self.last_key_value())
    }

    // From the key itself on, since a walk to the first key above it would call a function in each node.
    #[inline]
    fn above(&self, key: &K) -> Option<(&K, &V)> {
        let mut rest = self.range(TreeKey { key: *key }..);
        let (found, value) = own_key(rest.next())?;
        if key.cmp(found).is_eq() {
            return own_key(rest.next());
        }
        Some((found, value))
    }

    #[inline]
    fn below(&self, key: &K) -> Option<(&K, &V)> {
        own_key(self.range(..TreeKey { key: *key }).next_back())
    }
}
