//! A map that has its keys in one array while they are few, and in a hashed map once they are many.
ghost use Rattle.std.specs.Prelude.{◌≡◌, ◌+◌, ◌<◌, ◌≤◌, ◌≢◌, ℕ, [], None, Some, IfOk, IfErr, IfSome, IfNone, OnOk, OnErr, List, length, slice_index, is_some, IsSome, if◌then◌else◌};
ghost use Rattle.std.specs.Borrow.{sem};
ghost use Rattle.std.specs.List.{IsDistinct};
ghost use Rattle.std.specs.Map.{keys_of, lookup};
ghost use Rattle.std.specs.Option.{option_copied, option_copied_mut};
ghost use Rattle.key_index_flat.specs.SmallMap.{tag_of, IsAt, IsFew, AreTagged, AreTaggedBut, NoneBefore, entries_in};
ghost use Rattle.key_index_map.specs.Table.{pairs as held_pairs};
ghost use Rattle.key_index_flat.specs.Storage.{value_of, Sets};

use super::maps::AnyMap;
use key_index_map::map::Map;
use key_index_map::table::Table;
use std::alloc::Global;
use std::hash::{BuildHasher, BuildHasherDefault, FoldHasher, Hash};
use std::marker::Model;
use std::mem::replace;
use std::simd::prelude::*;

/// How many pairs an array has at the most.
const MOST: usize = 32;

/// How many places have a tag.
const TAGGED: usize = 16;

/// A byte of a key's hash, which equal keys share.
#[inline(always)]
fn tag_of<K: Hash + Copy>(key: K) -> u8
    ensures { result ≡ tag_of (K.hash_input key) }
{
    (BuildHasherDefault::<FoldHasher>::new().hash_one(key) >> 56) as u8
}

/// The first place with a tag, or 16. All are compared at once.
#[inline(always)]
fn first_tagged(tags: &[u8; 16], tag: u8) -> usize
    ensures within { result ≤ 16 }
    ensures before { (k : ℕ) → k < result → slice_index tags.now k ≢ tag }
{
    let same = u8x16::from_array(*tags)
        .simd_eq(u8x16::splat(tag))
        .to_bitmask();
    if same == 0 {
        TAGGED
    } else {
        same.trailing_zeros() as usize
    }
}

/// The place of a key, which is no earlier than the start.
#[inline(always)]
fn place_from<K: Hash + Copy, V>(pairs: &[(K, V)], start: usize, key: &K) -> Option<usize>
    requires { NoneBefore K.eq pairs.now start key.now }
    ensures found { IfSome result (λ place. IsAt K.eq pairs.now place key.now) }
    ensures none { IfNone result (lookup (K.eq key.now) pairs.now ≡ None) }
{
    let mut place = start;
    while place < pairs.len() {
        if *key == pairs[place].0 {
            return Some(place);
        }
        place += 1;
    }
    None
}

/// `place_from`, of a key that has a place, so that the program has no end to look for.
#[inline(always)]
fn held_place_from<K: Hash + Copy, V>(pairs: &[(K, V)], start: usize, key: &K) -> usize
    requires before { NoneBefore K.eq pairs.now start key.now }
    requires held { IsSome (lookup (K.eq key.now) pairs.now) }
    ensures { IsAt K.eq pairs.now result key.now }
{
    let mut held = start;
    while held < pairs.len() {
        if *key == pairs[held].0 {
            return held;
        }
        held += 1;
    }
    unreachable!()
}

/// Gives the pair at a place its tag, where it is one of the first sixteen.
#[inline(always)]
fn retag<K: Hash + Copy, V>(tags: &mut [u8; 16], pairs: &[(K, V)], place: usize)
    requires { AreTaggedBut K.hash_input tags.old pairs.now place }
    ensures { AreTagged K.hash_input tags.new pairs.now }
{
    if place < TAGGED && place < pairs.len() {
        tags[place] = tag_of(pairs[place].0);
    }
}

/// Moves pairs of keys that differ into a map that has room for them.
fn move_into<K: Ord + Hash + Copy, V: Drop>(pairs: &mut Vec<(K, V)>, map: &mut Map<K, V>)
    requires distinct { IsDistinct K.eq (keys_of pairs.old.items) }
    requires empty { map.old.entries ≡ [] }
    requires room { length pairs.old.items ≤ map.old.spare }
    ensures values { (q : K) → lookup (K.eq q) map.new.entries ≡ lookup (K.eq q) pairs.old.items }
    ensures len { length map.new.entries ≡ length pairs.old.items }
    ensures room { map.old.spare ≤ map.new.spare + length pairs.old.items }
    ensures moved { pairs.new.items ≡ [] }
{
    while let Some(pair) = pairs.pop() {
        let (key, value) = pair;
        let Ok(()) = map.add(key, value) else {
            unreachable!()
        };
    }
}

/// Up to 32 pairs of keys that differ, in no order, with a tag of each of the first sixteen keys. Contracts see the pairs.
#[derive(Drop)]
pub struct Pairs<K: Ord + Hash + Copy, V> {
    tags: [u8; 16],
    pairs: Vec<(K, V)>,
}

impl<K: Ord + Hash + Copy, V> Model for Pairs<K, V> {
    ghost use Rattle.std.specs.Prelude.{◌≤◌, List, length};
    ghost use Rattle.std.specs.List.{IsDistinct};
    ghost use Rattle.std.specs.Map.{keys_of};
    ghost use Rattle.key_index_flat.specs.SmallMap.{AreTagged};

    ghost Value = { List (K × V) };

    ghost view = { λ p. p.pairs.items };

    ghost invariant = { λ p. (length p.pairs.items ≤ 32) × IsDistinct K.eq (keys_of p.pairs.items)
        × AreTagged K.hash_input p.tags p.pairs.items };
}

impl<K: Ord + Hash + Copy, V> Pairs<K, V> {
    ghost use Rattle.key_index_flat.specs.SmallMapLent.{lends_value};

    fn new(alloc: Global) -> Pairs<K, V>
        ensures { result ≡ [] }
    {
        Pairs {
            tags: [0; 16],
            pairs: Vec::new(alloc),
        }
    }

    #[inline(always)]
    fn len(&self) -> usize
        ensures { result ≡ length self.now }
    {
        self.pairs.len()
    }

    #[inline]
    pub(super) fn as_slice(&self) -> &[(K, V)]
        ensures { result.now ≡ self.now }
    {
        self.pairs.as_slice()
    }

    #[inline(always)]
    fn place_of(&self, key: &K) -> Option<usize>
        ensures found { IfSome result (λ place. IsAt K.eq self.now place key.now) }
        ensures none { IfNone result (value_of K.cmp self.now key.now ≡ None) }
    {
        place_from(&self.pairs, first_tagged(&self.tags, tag_of(*key)), key)
    }

    /// The place of a key that has one.
    #[inline(always)]
    fn held_place_of(&self, key: &K) -> usize
        requires { IsSome (value_of K.cmp self.now key.now) }
        ensures { IsAt K.eq self.now result key.now }
    {
        held_place_from(&self.pairs, first_tagged(&self.tags, tag_of(*key)), key)
    }

    #[inline(always)]
    fn get(&self, key: &K) -> Option<&V>
        ensures { option_copied result ≡ value_of K.cmp self.now key.now }
    {
        match self.place_of(key) {
            Some(place) => Some(&self.pairs[place].1),
            None => None,
        }
    }

    /// Puts another value at the place of a key.
    #[inline(always)]
    fn set(&mut self, place: usize, key: K, value: V) -> V
        requires { IsAt K.eq self.old place key }
        ensures old { Some result ≡ value_of K.cmp self.old key }
        ensures sets { Sets K.cmp self.old self.new key (Some value) }
        ensures len { length self.new ≡ length self.old }
    {
        replace(self.value_mut(place, key), value)
    }

    /// The value at the place of a key.
    #[inline(always)]
    fn value_mut(&mut self, place: usize, key: K) -> &mut V
        requires { IsAt K.eq self.old place key }
        ensures* lends { sem 𝓛 (lends_value K.row V.row K.Ord K.Hash self.entry (K.eq key) result) }
        ensures value { Some result.now ≡ lookup (K.eq key) self.old }
    {
        &mut self.pairs[place].1
    }

    /// Puts another value at a key that has one.
    #[inline(always)]
    fn replace(&mut self, key: &K, value: V) -> V
        requires { IsSome (value_of K.cmp self.old key.now) }
        ensures old { value_of K.cmp self.old key.now ≡ Some result }
        ensures sets { Sets K.cmp self.old self.new key.now (Some value) }
        ensures len { length self.new ≡ length self.old }
    {
        self.set(self.held_place_of(key), *key, value)
    }

    /// Puts in the value of a key that has none.
    #[inline]
    fn push(&mut self, key: K, value: V) -> Result<(), V>
        requires absent { value_of K.cmp self.old key ≡ None }
        requires room { length self.old < 32 }
        ensures sets { OnOk result (Sets K.cmp self.old self.new key (Some value)) }
        ensures len { OnOk result (length self.new ≡ length self.old + 1) }
        ensures refused { OnErr result (self.new ≡ self.old) }
        ensures returned { IfErr result (λ back. back ≡ value) }
    {
        let place = self.pairs.len();
        match self.pairs.push((key, value)) {
            Ok(()) => {
                retag(&mut self.tags, &self.pairs, place);
                Ok(())
            }
            Err(failed) => {
                let (_, value) = failed.value;
                Err(value)
            }
        }
    }

    /// The last pair takes the place of the one that goes.
    #[inline]
    fn remove(&mut self, key: &K) -> Option<V>
        ensures value { result ≡ value_of K.cmp self.old key.now }
        ensures sets { Sets K.cmp self.old self.new key.now None }
        ensures len { length self.new + (if is_some result then 1 else 0) ≡ length self.old }
    {
        let place = self.place_of(key)?;
        let (_, value) = self.pairs.swap_remove(place);
        retag(&mut self.tags, &self.pairs, place);
        Some(value)
    }

    /// The pairs, and the value of a key that has none, in a table. All its memory is taken before the first pair moves.
    #[inline(never)]
    fn spill(&mut self, key: K, value: V) -> Result<Table<K, V>, V>
    where
        V: Drop,
        requires { value_of K.cmp self.old key ≡ None }
        ensures sets { IfOk result (λ table. Sets K.cmp self.old (held_pairs table) key (Some value)) }
        ensures len { IfOk result (λ table. length (held_pairs table) ≡ length self.old + 1) }
        ensures refused { OnErr result (self.new ≡ self.old) }
        ensures returned { IfErr result (λ back. back ≡ value) }
    {
        let Ok(mut map) = Map::with_capacity(*self.pairs.allocator(), 2 * MOST) else {
            return Err(value);
        };
        move_into(&mut self.pairs, &mut map);
        let Ok(()) = map.add(key, value) else {
            unreachable!()
        };
        let Some(table) = map.into_table() else {
            unreachable!()
        };
        Ok(table)
    }
}

/// What a small map has.
#[derive(Drop)]
pub(super) enum Kept<P, T> {
    Few(P),
    Many(T),
}

/// Keys that differ with a value each: in one array while they are few, and then in a table in its place.
#[derive(Drop)]
pub struct SmallMap<K: Ord + Hash + Copy, V> {
    pub(super) kept: Kept<Pairs<K, V>, Table<K, V>>,
}

impl<K: Ord + Hash + Copy, V> SmallMap<K, V> {
    pub fn new(alloc: Global) -> SmallMap<K, V>
        ensures { entries_in result.kept ≡ [] }
    {
        SmallMap {
            kept: Kept::Few(Pairs::new(alloc)),
        }
    }

    /// Puts in the value of a key that has none.
    #[inline]
    pub(super) fn put(&mut self, key: K, value: V) -> Result<(), V>
    where
        V: Drop,
        requires few { IsFew self.old.kept }
        requires absent { value_of K.cmp (entries_in self.old.kept) key ≡ None }
        ensures sets { OnOk result (Sets K.cmp (entries_in self.old.kept) (entries_in self.new.kept) key (Some value)) }
        ensures len { OnOk result (length (entries_in self.new.kept) ≡ length (entries_in self.old.kept) + 1) }
        ensures refused { OnErr result (entries_in self.new.kept ≡ entries_in self.old.kept) }
        ensures returned { IfErr result (λ back. back ≡ value) }
    {
        let Kept::Few(pairs) = &mut self.kept else {
            unreachable!()
        };
        if pairs.len() < MOST {
            return pairs.push(key, value);
        }
        let table = pairs.spill(key, value)?;
        self.kept = Kept::Many(table);
        Ok(())
    }

    /// `insert` while the pairs stand in the array.
    fn insert_few(&mut self, key: K, value: V) -> Result<Option<V>, V>
    where
        V: Drop,
        requires { IsFew self.old.kept }
        ensures old { IfOk result (λ old. old ≡ value_of K.cmp (entries_in self.old.kept) key) }
        ensures sets { OnOk result (Sets K.cmp (entries_in self.old.kept) (entries_in self.new.kept) key (Some value)) }
        ensures len { IfOk result (λ old. length (entries_in self.new.kept)
            ≡ length (entries_in self.old.kept) + (if is_some old then 0 else 1)) }
        ensures absent { OnErr result (value_of K.cmp (entries_in self.old.kept) key ≡ None) }
        ensures refused { OnErr result (entries_in self.new.kept ≡ entries_in self.old.kept) }
        ensures returned { IfErr result (λ back. back ≡ value) }
    {
        let Kept::Few(pairs) = &mut self.kept else {
            unreachable!()
        };
        if let Some(place) = pairs.place_of(&key) {
            return Ok(Some(pairs.set(place, key, value)));
        }
        match self.put(key, value) {
            Ok(()) => Ok(None),
            Err(value) => Err(value),
        }
    }
}

impl<K: Ord + Hash + Copy, V> AnyMap<K, V> for SmallMap<K, V> {
    ghost entries = { λ map. entries_in map.kept };

    ghost spare = { λ _. 0 };

    #[inline(always)]
    fn len(&self) -> usize {
        match &self.kept {
            Kept::Many(table) => table.len(),
            Kept::Few(pairs) => pairs.len(),
        }
    }

    #[inline(always)]
    fn get(&self, key: &K) -> Option<&V> {
        match &self.kept {
            Kept::Many(table) => AnyMap::get(table, key),
            Kept::Few(pairs) => pairs.get(key),
        }
    }

    #[inline(always)]
    fn insert(&mut self, key: K, value: V) -> Result<Option<V>, V>
    where
        V: Drop,
    {
        if let Kept::Many(table) = &mut self.kept {
            return AnyMap::insert(table, key, value);
        }
        self.insert_few(key, value)
    }

    #[inline(always)]
    fn insert_absent(&mut self, key: K, value: V) -> Result<Option<V>, V>
    where
        V: Drop,
    {
        if let Kept::Many(table) = &mut self.kept {
            return AnyMap::insert_absent(table, key, value);
        }
        if self.get(&key).is_some() {
            return Ok(Some(value));
        }
        match self.put(key, value) {
            Ok(()) => Ok(None),
            Err(value) => Err(value),
        }
    }

    #[inline(always)]
    fn replace(&mut self, key: &K, value: V) -> V {
        match &mut self.kept {
            Kept::Many(table) => AnyMap::replace(table, key, value),
            Kept::Few(pairs) => pairs.replace(key, value),
        }
    }

    #[inline(always)]
    fn remove(&mut self, key: &K) -> Option<V> {
        match &mut self.kept {
            Kept::Many(table) => AnyMap::remove(table, key),
            Kept::Few(pairs) => pairs.remove(key),
        }
    }
}
