//! An index for keys that are set once at rising positions, and retired only by position.

ghost use Rattle.std.specs.Prelude.{◌≡◌, ◌≢◌, ◌↔◌, ℕ, ◌+◌, ◌-◌, ◌^◌, ◌<◌, ◌≤◌, length, drop, min, max, Some, None, true, false, is_some, nat_le, slice_get, IsSome, IsTrue, IfOk, IfErr, OnOk, OnErr, if◌then◌else◌};
ghost use Rattle.std.specs.Iterator.{YieldsFirst, item_count};
ghost use Rattle.std.specs.Result.{IsErrOf};
ghost use Rattle.std.specs.VecDeque.{deque_capacity};
ghost use Rattle.key_index.specs.Immutable.{Log, key_at, end_of, with_key, hashes, indexed_count, mixed, mixed_hash, IsLog, ArePositions, IsReleased};
ghost use Rattle.key_index.specs.Table.{HasSize};

mod marks;

use crate::table::{Candidates, Table};
use key_index_flat::index::Fault;
use key_index_flat::translator::Translator;
pub(crate) use marks::insert_marked;
pub use marks::{Mark, Marked, run_marks};
use std::alloc::Global;
use std::collections::VecDeque;
use std::marker::Model;

/// Translated keys by position, from a start on. The keys stand in a ring, one cell for each position up to the last one
/// that was inserted; the table has the positions alone, and finds them by the hashes of their keys. A cell that was
/// skipped holds a copy of some key, and its position isn't in the table.
#[derive(Drop)]
pub struct Index<T: Translator> {
    translator: T,
    table: Table,
    keys: VecDeque<T::Key>,
    start: u64,
    pruned: u64,
}

/// Puts a key into a cell, and copies of it into those up to there that are missing.
#[inline]
fn put_key<K: Copy>(keys: &mut VecDeque<K>, offset: usize, key: K)
    requires room { offset < deque_capacity keys.old }
    requires long { length keys.old.items ≤ offset → offset + 1 < 2 ^ 64 }
    ensures cell { slice_get keys.new.items offset ≡ Some key }
    ensures others { (i : ℕ) → i ≢ offset → i < length keys.old.items
        → slice_get keys.new.items i ≡ slice_get keys.old.items i }
    ensures len { length keys.new.items ≡ max (length keys.old.items) (offset + 1) }
{
    if offset < keys.len() {
        keys[offset] = key;
        return;
    }
    while keys.len() <= offset {
        let Ok(()) = keys.push_back(key) else {
            unreachable!()
        };
    }
}

/// Takes room for the keys of all positions up to an offset from the start, and leaves the keys as they are.
#[inline]
fn take_room<K: Copy>(keys: &mut VecDeque<K>, offset: usize) -> Result<(), Fault>
    requires { offset + 1 < 2 ^ 64 }
    ensures keys { keys.new.items ≡ keys.old.items }
    ensures room { OnOk result (offset < deque_capacity keys.new) }
    ensures fault { IfErr result (λ fault. fault ≡ Fault.Memory) }
{
    let cells = keys.len();
    if cells <= offset && keys.reserve(offset + 1 - cells).is_err() {
        return Err(Fault::Memory);
    }
    Ok(())
}

/// A hash of which each bit has a part in the low ones, where a search in a table begins, and in the top eight.
#[inline]
#[tactic(auto, unfolding(crate::specs::Immutable::mixed))]
fn mixed(hash: u64) -> u64
    ensures { result ≡ mixed hash }
{
    let product = (hash ^ (hash >> 32)).wrapping_mul(0xD6E8_FEB8_6659_FD93);
    product ^ (product >> 32)
}

/// The hash under which the table has the position of a translated key.
#[inline]
fn hash_in_table<T: Translator>(translator: &T, key: T::Key) -> u64
    ensures { result ≡ mixed_hash T.hashed translator.now key }
{
    mixed(translator.hash_of(key))
}

impl<T: Translator> Model for Index<T> {
    ghost use Rattle.key_index.specs.Immutable.{Log, IsLog, mixed_hash};

    ghost Value = { Log T T.Key };

    ghost view = { λ s. record {
      translator = s.translator;
      start = s.start;
      keys = s.keys.items;
      cells = s.table;
      pruned = s.pruned;
    } };

    ghost invariant = { λ s. IsLog (mixed_hash T.hashed)
        (record {
          translator = s.translator;
          start = s.start;
          keys = s.keys.items;
          cells = s.table;
          pruned = s.pruned;
        }) };
}

impl<T: Translator> Index<T> {
    /// No positions, from `start` on, with room for so many insertions in order.
    pub fn new(alloc: Global, translator: T, start: u64, capacity: usize) -> Result<Index<T>, Fault>
        ensures empty { IfOk result (λ s. (p : ℕ) → key_at s p ≡ None) }
        ensures start { IfOk result (λ s. s.start ≡ start) }
        ensures end { IfOk result (λ s. end_of s ≡ start) }
        ensures counts { IfOk result (λ s. (s.pruned ≡ 0) × (s.cells.removals ≡ 0)) }
        ensures translator { IfOk result (λ s. s.translator ≡ translator) }
        ensures fault { IfErr result (λ fault. fault ≡ Fault.Memory) }
    {
        let table = Table::with_capacity(alloc, capacity)?;
        let Ok(keys) = VecDeque::with_capacity(alloc, capacity) else {
            return Err(Fault::Memory);
        };
        Ok(Index {
            translator,
            table,
            keys,
            start,
            pruned: 0,
        })
    }

    /// Indexes a key at a position. `TooFar` is tested before anything grows, and a refusal changes nothing: the ring has its
    /// room first, and gets its cells once the table has the position.
    #[inline]
    pub fn insert(&mut self, key: &[u8], position: u64) -> Result<(), Fault>
        requires start { self.old.start ≤ position }
        requires free { key_at self.old position ≡ None }
        ensures keys { OnOk result ((p : ℕ) → key_at self.new p
            ≡ with_key (key_at self.old) position (T.translated self.old.translator key.now) p) }
        ensures end { OnOk result (end_of self.new ≡ max (end_of self.old) (position + 1)) }
        ensures start { OnOk result (self.new.start ≡ self.old.start) }
        ensures counts { OnOk result ((self.new.pruned ≡ self.old.pruned)
            × (self.new.cells.removals ≡ self.old.cells.removals)) }
        ensures translator { OnOk result (self.new.translator ≡ self.old.translator) }
        ensures refused { OnErr result (self.new ≡ self.old) }
        ensures far { IsErrOf result Fault.TooFar ↔ (usize.MAX ≤ position - self.old.start) }
        ensures fault { IfErr result (λ fault. fault ≢ Fault.Full) }
    {
        let offset = (position - self.start) as usize;
        if offset == usize::MAX {
            return Err(Fault::TooFar);
        }
        take_room(&mut self.keys, offset)?;
        let translated = self.translator.transform(key);
        let hash = hash_in_table(&self.translator, translated);
        let (keys, translator, start) = (&self.keys, &self.translator, self.start);
        let resolver = |p: u64| -> u64
            requires above { start ≤ p }
            requires within { p - start < length keys.now.items }
            ensures { (k : _) → slice_get keys.entry.now.items (p - start) ≡ Some k
                → result ≡ mixed_hash T.hashed translator.entry.now k }
        { hash_in_table(translator, keys[(p - start) as usize]) };
        self.table.insert(hash, position, resolver)?;
        put_key(&mut self.keys, offset, translated);
        Ok(())
    }

    /// The positions that are indexed under the translated key of a key, each once, in no order. Takes no memory.
    #[inline]
    pub fn get(&self, key: &[u8]) -> Positions<'_, T>
        ensures { ArePositions self.now (T.translated self.now.translator key.now) result }
    {
        let wanted = self.translator.transform(key);
        Positions {
            candidates: self
                .table
                .candidates(hash_in_table(&self.translator, wanted)),
            keys: &self.keys,
            start: self.start,
            wanted,
        }
    }

    /// Removes every position below one, which is the start from then on; a start that was passed changes nothing. Each
    /// cell that goes is one removal. Takes no memory.
    pub fn prune(&mut self, start: u64)
        ensures keys { (p : ℕ) → key_at self.new p ≡ (if nat_le start p then key_at self.old p else None) }
        ensures start { self.new.start ≡ max self.old.start start }
        ensures end { end_of self.new ≡ max (end_of self.old) start }
        ensures pruned { self.new.pruned
            ≡ min (self.old.pruned + indexed_count self.old self.old.start (start - self.old.start)) (2 ^ 64 - 1) }
        ensures removals { self.new.cells.removals
            ≡ min (self.old.cells.removals + (min (end_of self.old) start - self.old.start)) (2 ^ 64 - 1) }
        ensures translator { self.new.translator ≡ self.old.translator }
    {
        if start <= self.start {
            return;
        }
        self.release_below(start);
        self.start = start;
    }

    /// Lets the cells below a position go.
    fn release_below(&mut self, start: u64)
        requires start { self.old.start ≤ start }
        requires lawful { IsLog (mixed_hash T.hashed) self.old }
        ensures released { IsReleased self.old self.new }
        ensures below { self.new.start ≤ start }
        ensures reached { 0 < length self.new.keys → self.new.start ≡ start }
    {
        while self.start < start {
            if !self.release() {
                return;
            }
        }
    }

    /// Lets the first cell go, and removes its position where it is indexed. False where there is no cell.
    #[inline]
    fn release(&mut self) -> bool
        requires { self.old.start + 1 < 2 ^ 64 }
        ensures cell { IsTrue result ↔ (0 < length self.old.keys) }
        ensures none { result ≡ false → self.new ≡ self.old }
        ensures keys { result ≡ true → (p : ℕ) → self.new.start ≤ p → key_at self.new p ≡ key_at self.old p }
        ensures start { result ≡ true → self.new.start ≡ self.old.start + 1 }
        ensures cells { result ≡ true → self.new.keys ≡ drop 1 self.old.keys }
        ensures pruned { result ≡ true → self.new.pruned
            ≡ min (self.old.pruned + (if is_some (key_at self.old self.old.start) then 1 else 0)) (2 ^ 64 - 1) }
        ensures removals { result ≡ true → self.new.cells.removals ≡ min (self.old.cells.removals + 1) (2 ^ 64 - 1) }
        ensures translator { self.new.translator ≡ self.old.translator }
    {
        let Some(key) = self.keys.pop_front() else {
            return false;
        };
        let removed = self
            .table
            .remove(hash_in_table(&self.translator, key), self.start);
        self.pruned = self.pruned.saturating_add(u64::from(removed));
        self.start += 1;
        true
    }

    /// Whether a key is indexed at a position. Takes no memory.
    #[inline]
    pub fn is_indexed(&self, position: u64) -> bool
        ensures { IsTrue result ↔ IsSome (key_at self.now position) }
    {
        if position < self.start {
            return false;
        }
        let offset = (position - self.start) as usize;
        if self.keys.len() <= offset {
            return false;
        }
        let hash = hash_in_table(&self.translator, self.keys[offset]);
        self.table.contains(hash, position)
    }

    /// How many positions are indexed.
    pub fn len(&self) -> usize
        ensures { HasSize (key_at self.now) result }
    {
        self.table.len()
    }

    pub fn is_empty(&self) -> bool
        ensures { IsTrue result ↔ ((p : ℕ) → key_at self.now p ≡ None) }
    {
        self.len() == 0
    }

    /// Positions below this were pruned, or never indexed.
    pub fn start(&self) -> u64
        ensures { result ≡ self.now.start }
    {
        self.start
    }

    /// How many positions were pruned. It stops at `u64::MAX`.
    pub fn pruned(&self) -> u64
        ensures { result ≡ self.now.pruned }
    {
        self.pruned
    }

    /// How many cells were released. It stops at `u64::MAX`.
    pub fn removals(&self) -> u64
        ensures { result ≡ self.now.cells.removals }
    {
        self.table.removals()
    }
}

/// The positions that are indexed under one translated key.
#[derive(Drop)]
pub struct Positions<'a, T: Translator> {
    candidates: Candidates<'a>,
    keys: &'a VecDeque<T::Key>,
    start: u64,
    wanted: T::Key,
}

impl<'a, T: Translator> Model for Positions<'a, T> {
    ghost use Rattle.std.specs.Prelude.{◌-◌, ◌<◌, ◌≤◌, List, ℕ, length};
    ghost use Rattle.std.specs.List.{All, filter};
    ghost use Rattle.key_index.specs.Immutable.{has_key};

    ghost Value = { List ℕ };

    ghost view = { λ s. filter (has_key T.Key.cmp s.keys.now.items s.start s.wanted) s.candidates };

    ghost invariant = { λ s. All (λ p. (s.start ≤ p) × (p - s.start < length s.keys.now.items)) s.candidates };
}

impl<'a, T: Translator> Iterator for Positions<'a, T> {
    type Item = u64;

    ghost next_gives = { YieldsFirst (λ positions. positions) };

    ghost remaining = { item_count (λ positions. positions) };

    #[inline]
    fn next(&mut self) -> Option<u64> {
        while let Some(position) = self.candidates.next() {
            if self.keys[(position - self.start) as usize]
                .cmp(&self.wanted)
                .is_eq()
            {
                return Some(position);
            }
        }
        None
    }
}
