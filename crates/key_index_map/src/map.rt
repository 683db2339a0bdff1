//! A map from keys to values, found by their hashes.
ghost use Rattle.std.specs.Prelude.{◌≡◌, ◌+◌, ◌<◌, ◌≤◌, List, [], Option, Some, None, IfOk, IfErr, IfSome, IfNone, IsOk, OnOk, OnErr, length, is_some, unwrap_or, if◌then◌else◌};
ghost use Rattle.std.specs.Borrow.{sem};
ghost use Rattle.std.specs.Map.{lookup};
ghost use Rattle.std.specs.Option.{IsSome, option_copied, option_copied_mut};
ghost use Rattle.key_index_map.specs.Table.{IsUnfilled, Updates, entries_of, hash_of, pairs};

use crate::table::{Iter, Room, Table, hash_of};
use std::alloc::{AllocError, Global};
use std::hash::Hash;
use std::marker::Model;
use std::mem::replace;

/// A map from keys to values. It takes no memory before the first pair comes or room is reserved, and gives none back before it ends.
/// Contracts see its pairs, in no order that they tell of, and how many more keys there is room for.
#[derive(Drop)]
pub struct Map<K: Ord + Hash + Copy, V> {
    contents: Contents<Room<K, V>, Table<K, V>>,
    alloc: Global,
}

/// What a map has: no memory; room that was reserved before the first pair came; or a table, from then on.
#[derive(Drop)]
enum Contents<R, T> {
    Nothing,
    Reserved(R),
    Filled(T),
}

/// Puts the first pair in, where room is reserved, if it is. A refusal hands the value back and changes nothing.
#[inline(never)]
fn fill<K: Ord + Hash + Copy, V: Drop>(
    contents: &mut Contents<Room<K, V>, Table<K, V>>,
    alloc: Global,
    hash: u64,
    key: K,
    value: V,
) -> Result<(), V>
    requires unfilled { IsUnfilled contents.old }
    requires hash { hash ≡ hash_of (K.hash_input key) }
    ensures updates { OnOk result (Updates K.eq [] (entries_of contents.new).entries key (Some value)) }
    ensures len { OnOk result (length (entries_of contents.new).entries ≡ 1) }
    ensures refused { OnErr result (contents.new ≡ contents.old) }
    ensures returned { IfErr result (λ back. back ≡ value) }
    ensures room { OnOk result ((entries_of contents.old).spare ≤ (entries_of contents.new).spare + 1) }
    ensures succeeds { 0 < (entries_of contents.old).spare → IsOk result }
{
    let room = match replace(contents, Contents::Nothing) {
        Contents::Reserved(room) => room,
        _ => match Room::fewest(alloc) {
            Ok(room) => room,
            Err(_) => return Err(value),
        },
    };
    *contents = Contents::Filled(Table::with_one(room, hash, key, value));
    Ok(())
}

impl<K: Ord + Hash + Copy, V> Model for Map<K, V> {
    ghost use Rattle.key_index_map.specs.Table.{Entries, entries_of};

    ghost Value = { Entries K V };

    ghost view = { λ m. entries_of m.contents };
}

impl<K: Ord + Hash + Copy, V> Map<K, V> {
    ghost use Rattle.key_index_map.specs.MapLent.{lends_get};

    /// No pairs.
    pub fn new(alloc: Global) -> Map<K, V>
        ensures { result.entries ≡ [] }
    {
        Map {
            contents: Contents::Nothing,
            alloc,
        }
    }

    /// No pairs, and memory for so many.
    pub fn with_capacity(alloc: Global, capacity: usize) -> Result<Map<K, V>, AllocError>
        ensures empty { IfOk result (λ m. m.entries ≡ []) }
        ensures room { IfOk result (λ m. capacity ≤ m.spare) }
    {
        let room = Room::with_capacity(alloc, capacity)?;
        Ok(Map {
            contents: Contents::Reserved(room),
            alloc,
        })
    }

    /// Makes room for so many more pairs. A refusal changes nothing.
    pub fn reserve(&mut self, additional: usize) -> Result<(), AllocError>
    where
        V: Drop,
        ensures values { (q : K) → lookup (K.eq q) self.new.entries ≡ lookup (K.eq q) self.old.entries }
        ensures len { length self.new.entries ≡ length self.old.entries }
        ensures room { OnOk result (additional ≤ self.new.spare) }
        ensures spare { self.old.spare ≤ self.new.spare }
        ensures refused { OnErr result (self.new ≡ self.old) }
        ensures succeeds { additional ≤ self.old.spare → IsOk result }
    {
        let spare = match &mut self.contents {
            Contents::Filled(table) => return table.reserve(additional),
            Contents::Reserved(room) => room.spare(),
            Contents::Nothing => 0,
        };
        if spare < additional {
            self.contents = Contents::Reserved(Room::with_capacity(self.alloc, additional)?);
        }
        Ok(())
    }

    /// How many pairs there are.
    #[inline(always)]
    pub fn len(&self) -> usize
        ensures { result ≡ length self.now.entries }
    {
        match &self.contents {
            Contents::Filled(table) => table.len(),
            _ => 0,
        }
    }

    /// The value of a key.
    #[inline(always)]
    pub fn get(&self, key: &K) -> Option<&V>
        ensures { option_copied result ≡ lookup (K.eq key.now) self.now.entries }
    {
        match &self.contents {
            Contents::Filled(table) => table.get(key),
            _ => None,
        }
    }

    /// The value of a key, to be changed.
    #[inline(always)]
    pub fn get_mut(&mut self, key: &K) -> Option<&mut V>
        ensures* lends { sem 𝓛 (lends_get K.row V.row K.Ord K.Hash self.entry key.now result) }
        ensures value { option_copied_mut result ≡ lookup (K.eq key.now) self.old.entries }
    {
        match &mut self.contents {
            Contents::Filled(table) => table.get_mut(key),
            _ => None,
        }
    }

    /// Puts a value at a key, and answers the one that stood there. A refusal, which comes at an absent key alone, hands the value
    /// back and changes nothing.
    #[inline(always)]
    pub fn insert(&mut self, key: K, value: V) -> Result<Option<V>, V>
    where
        V: Drop,
        ensures old { IfOk result (λ old. old ≡ lookup (K.eq key) self.old.entries) }
        ensures updates { OnOk result (Updates K.eq self.old.entries self.new.entries key (Some value)) }
        ensures len { IfOk result (λ old.
            length self.new.entries ≡ length self.old.entries + (if is_some old then 0 else 1)) }
        ensures absent { OnErr result (lookup (K.eq key) self.old.entries ≡ None) }
        ensures refused { OnErr result (self.new ≡ self.old) }
        ensures returned { IfErr result (λ back. back ≡ value) }
        ensures room { IfOk result (λ old. self.old.spare ≤ self.new.spare + (if is_some old then 0 else 1)) }
        ensures succeeds { 0 < self.old.spare → IsOk result }
    {
        if let Contents::Filled(table) = &mut self.contents {
            return table.insert(key, value);
        }
        fill(&mut self.contents, self.alloc, hash_of(key), key, value)?;
        Ok(None)
    }

    /// Puts a value at a key that has none. The value of a key that has one stays, and the other comes back, as it does with a refusal,
    /// which comes at an absent key alone and changes nothing.
    #[inline(always)]
    pub fn insert_absent(&mut self, key: K, value: V) -> Result<Option<V>, V>
    where
        V: Drop,
        ensures back { IfOk result (λ back.
            back ≡ (if is_some (lookup (K.eq key) self.old.entries) then Some value else None)) }
        ensures updates { OnOk result (Updates K.eq self.old.entries self.new.entries key
            (Some (unwrap_or (lookup (K.eq key) self.old.entries) value))) }
        ensures len { OnOk result (length self.new.entries
            ≡ length self.old.entries + (if is_some (lookup (K.eq key) self.old.entries) then 0 else 1)) }
        ensures absent { OnErr result (lookup (K.eq key) self.old.entries ≡ None) }
        ensures refused { OnErr result (self.new ≡ self.old) }
        ensures returned { IfErr result (λ back. back ≡ value) }
        ensures room { IfOk result (λ back. self.old.spare ≤ self.new.spare + (if is_some back then 0 else 1)) }
        ensures succeeds { 0 < self.old.spare → IsOk result }
    {
        if let Contents::Filled(table) = &mut self.contents {
            return table.insert_absent(key, value);
        }
        fill(&mut self.contents, self.alloc, hash_of(key), key, value)?;
        Ok(None)
    }

    /// Puts in the value of a key that has none. A refusal hands the value back and changes nothing.
    #[inline(always)]
    pub fn add(&mut self, key: K, value: V) -> Result<(), V>
    where
        V: Drop,
        requires { lookup (K.eq key) self.old.entries ≡ None }
        ensures updates { OnOk result (Updates K.eq self.old.entries self.new.entries key (Some value)) }
        ensures len { OnOk result (length self.new.entries ≡ length self.old.entries + 1) }
        ensures refused { OnErr result (self.new ≡ self.old) }
        ensures returned { IfErr result (λ back. back ≡ value) }
        ensures room { OnOk result (self.old.spare ≤ self.new.spare + 1) }
        ensures succeeds { 0 < self.old.spare → IsOk result }
    {
        let hash = hash_of(key);
        if let Contents::Filled(table) = &mut self.contents {
            return table.add(hash, key, value);
        }
        fill(&mut self.contents, self.alloc, hash, key, value)
    }

    /// Removes a key, and answers its value. Takes no memory.
    #[inline(always)]
    pub fn remove(&mut self, key: &K) -> Option<V>
        ensures value { result ≡ lookup (K.eq key.now) self.old.entries }
        ensures updates { Updates K.eq self.old.entries self.new.entries key.now None }
        ensures len { length self.new.entries + (if is_some result then 1 else 0) ≡ length self.old.entries }
        ensures room { self.old.spare ≤ self.new.spare }
    {
        match &mut self.contents {
            Contents::Filled(table) => table.remove(key),
            _ => None,
        }
    }

    /// The table of the pairs, if there ever was one.
    #[inline]
    pub fn into_table(self) -> Option<Table<K, V>>
        ensures some { IfSome result (λ table. pairs table ≡ self.entries) }
        ensures none { IfNone result (self.entries ≡ []) }
    {
        match self.contents {
            Contents::Filled(table) => Some(table),
            _ => None,
        }
    }

    /// The pairs, in no order that contracts tell of, if there ever was one.
    #[inline]
    pub fn iter(&self) -> Option<Iter<'_, K, V>>
        ensures { unwrap_or result [] ≡ self.now.entries }
    {
        match &self.contents {
            Contents::Filled(table) => Some(table.iter()),
            _ => None,
        }
    }
}
