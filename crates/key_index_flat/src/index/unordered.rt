//! The flat unordered index.
ghost use Rattle.std.specs.Prelude.{◌≡◌, [], true, refl, IsOk, IfOk, IfErr};
ghost use Rattle.key_index_flat.specs.Content.{IsLawful};
ghost use Rattle.key_index_flat.specs.Storage.{view_of};

use super::implement::{Lists, show_by_place, show_counts, visit_by_place};
use super::storage::Storage;
use super::{Factory, Fault, IndexCursor, Refused, Runs, Search, Unordered, Values};
use crate::cursor_of;
use crate::translator::Translator;
use key_index_map::map::Map;
use std::alloc::Global;
use std::convert::AsSlice;
use std::fmt;

/// An index over a hashed map from translated key to newest value, and another from translated key to the older values of the keys
/// that have any. So a key with one value is in the first alone.
///
/// `insert` puts a value in front of those of its key. `remove` takes no memory and never refuses.
#[derive(Drop)]
pub struct Index<T: Translator, V> {
    storage: Storage<T, V, Map<T::Key, V>>,
    ghost lawful: { IsLawful T.Key.cmp storage.content },
}

impl<T: Translator, V: Drop> Index<T, V> {
    ghost use Rattle.key_index_flat.specs.Unordered.{spare, view};
    ghost use Rattle.std.specs.Prelude.{◌≡◌, ◌≤◌, IsOk, OnOk};
    ghost use Rattle.key_index_flat.specs.View.{with_slot};
    ghost use Rattle.key_index_flat.specs.Values.{values_of, VisitsEach};
    ghost use Rattle.key_index_flat.specs.Visits.{ByPlace, IsBatch, Visits};
    ghost use Rattle.std.specs.Fn.{CalledAt};

    /// Visits the values of each key of a batch with the key's place in it, from 0, by place. What it visits may be kept as long as the
    /// index is borrowed. Takes no memory, and never refuses.
    pub fn get_many<'a, B: Iterator + Drop, F: FnMut(usize, &'a V)>(
        &'a self,
        keys: B,
        visit: F,
    ) -> Result<(), Fault>
    where
        B::Item: AsSlice<u8> + Drop,
        requires batch { IsBatch B.Iterator keys }
        requires callable { F.IsAlwaysCallable visit }
        ensures made { IsOk result }
        ensures seen { Visits ByPlace B.Iterator B.Item.items keys T.Key.cmp (view self.now) F.FnMut visit }
    {
        visit_by_place(self, keys, visit);
        Ok(())
    }

    /// Calls a closure once on each value that is held, in any order.
    pub fn for_each_value<F: FnMut(&V)>(&self, mut visit: F)
        requires { F.IsAlwaysCallable visit }
        ensures { (last : F) × VisitsEach (CalledAt F.FnMut) visit (values_of (view self.now).content) last }
    {
        self.storage.for_each_value(&mut visit);
    }

    /// Makes room for the first values of so many more index keys. While there is room, `insert` succeeds at a key without values. Other
    /// calls may use the room up.
    pub fn reserve(&mut self, additional: usize) -> Result<(), Fault>
        ensures same { view self.new ≡ view self.old }
        ensures room { OnOk result (additional ≤ spare self.new) }
        ensures spare { spare self.old ≤ spare self.new }
        ensures succeeds { additional ≤ spare self.old → IsOk result }
        ensures fault { IfErr result (λ f. f ≡ Fault.Memory) }
    {
        self.storage.reserve(additional)
    }

    /// Takes another translator, which the calls by key use from then on. The values that are held stay under their index keys.
    pub fn set_translator(&mut self, translator: T)
        ensures { view self.new ≡ with_slot (view self.old) (T.translated translator) }
    {
        self.storage.set_translator(translator);
    }
}

impl<T: Translator, V: Drop> Runs for Index<T, V> {
    type Value = V;

    type Key = T::Key;

    ghost view = { λ index. view_of T.translated index.storage };

    ghost lawful = { λ index. index.lawful };

    ghost exact = { T.exact };

    #[inline(always)]
    fn slot_of(&self, key: &[u8]) -> T::Key {
        self.storage.slot_of(key)
    }

    #[inline]
    fn admits(&self, _slot: T::Key) -> bool {
        true
    }

    #[inline]
    fn run_len(&self, slot: T::Key) -> usize {
        self.storage.run_len(slot)
    }

    #[inline]
    fn value_at(&self, slot: T::Key, place: usize) -> &V {
        self.storage.value_at(slot, place)
    }

    #[inline]
    fn set_at(&mut self, slot: T::Key, place: usize, value: V) {
        self.storage.set_at(slot, place, value);
    }

    #[inline]
    fn insert_at(&mut self, slot: T::Key, place: usize, value: V) -> Result<(), Refused<V>> {
        self.storage.insert_at(slot, place, value)
    }

    #[inline]
    fn remove_at(&mut self, slot: T::Key, place: usize) -> V {
        self.storage.remove_at(slot, place).0
    }
}

impl<T: Translator, V: Drop> Lists for Index<T, V> {
    #[inline]
    fn list_at(&self, slot: T::Key) -> Values<'_, V> {
        self.storage.list_at(slot)
    }
}

impl<T: Translator, V: Drop> Search for Index<T, V> {
    fn reach(&mut self, key: &[u8]) -> Result<(T::Key, usize), Fault> {
        let slot = self.slot_of(key);
        Ok((slot, self.run_len(slot)))
    }

    fn reach_or_insert(&mut self, key: &[u8], value: V) -> Result<(T::Key, usize), Refused<V>> {
        let slot = self.slot_of(key);
        let len = self.storage.insert_absent(slot, value)?;
        Ok((slot, len))
    }

    fn search(&mut self, key: &[u8]) -> Result<IndexCursor<'_, Index<T, V>>, Option<Fault>> {
        cursor_of!(self, self.reach(key))
    }

    fn search_or_insert(
        &mut self,
        key: &[u8],
        value: V,
    ) -> Result<IndexCursor<'_, Index<T, V>>, Option<Refused<V>>> {
        cursor_of!(self, self.reach_or_insert(key, value))
    }
}

impl<T: Translator, V: Drop> Unordered for Index<T, V> {
    ghost use Rattle.key_index_flat.specs.Unordered.{spare, view};
    ghost use Rattle.key_index_flat.specs.View.{after_insert, growth_fault_in, items_in, run_of};
    ghost use Rattle.key_index_flat.specs.Visits.{ByPlace, IsBatch, Visits};
    ghost use Rattle.key_index_flat.specs.Storage.{added};
    ghost use Rattle.std.specs.Prelude.{◌≡◌, ◌+◌, ◌<◌, ◌≤◌, OnOk, OnErr};

    ghost INSERT_FIRST = { true };

    const INSERT_FIRST: bool = true;

    const LOOKUP_WARMS_UPDATE: bool = true;

    ghost reaches = { λ _ _ _. refl };

    #[inline(always)]
    fn get(&self, key: &[u8]) -> Values<'_, V> {
        self.storage.list_at(self.slot_of(key))
    }

    /// By place. Takes no memory, and never refuses.
    #[inline]
    fn get_many<B: Iterator + Drop, F: FnMut(usize, &V)>(
        &self,
        keys: B,
        visit: F,
    ) -> Result<(), Fault>
    where
        B::Item: AsSlice<u8> + Drop,
        requires batch { IsBatch B.Iterator keys }
        requires callable { F.IsAlwaysCallable visit }
        ensures made { IsOk result }
        ensures seen { Visits ByPlace B.Iterator B.Item.items keys T.Key.cmp (view self.now) F.FnMut visit }
    {
        show_by_place(self, keys, visit);
        Ok(())
    }

    /// It succeeds at a key without values where there is room, and fewer than `usize::MAX` values are held.
    #[inline]
    fn insert(&mut self, key: &[u8], value: V) -> Result<(), Refused<V>>
        ensures accepted { OnOk result (view self.new ≡ after_insert T.Key.cmp true (view self.old) key.now value) }
        ensures room { OnOk result (items_in (view self.old) < usize.MAX) }
        ensures refused { OnErr result (view self.new ≡ view self.old) }
        ensures returned { IfErr result (λ r. r.value ≡ value) }
        ensures fault { IfErr result (λ r. r.fault ≡ growth_fault_in (view self.old)) }
        ensures spare { spare self.old
            ≤ spare self.new + added T.Key.cmp (view self.old).content ((view self.old).slot key.now) }
        ensures succeeds { 0 < spare self.old → run_of T.Key.cmp (view self.old) key.now ≡ []
            → items_in (view self.old) < usize.MAX → IsOk result }
    {
        let slot = self.slot_of(key);
        self.storage.insert(slot, value)
    }

    #[inline]
    fn retain<F: FnMut(&V) -> bool>(&mut self, key: &[u8], should_retain: F) -> Result<(), Fault> {
        let slot = self.slot_of(key);
        let Ok(()) = self.storage.retain(slot, None, should_retain) else {
            unreachable!()
        };
        Ok(())
    }

    fn insert_and_retain<F: FnMut(&V) -> bool>(
        &mut self,
        key: &[u8],
        value: V,
        should_retain: F,
    ) -> Result<(), Refused<V>> {
        let slot = self.slot_of(key);
        self.storage.retain(slot, Some(value), should_retain)
    }

    #[inline]
    fn remove(&mut self, key: &[u8]) -> Result<(), Fault> {
        let slot = self.slot_of(key);
        self.storage.remove(slot);
        Ok(())
    }

    #[inline]
    fn keys(&self) -> usize {
        self.storage.keys()
    }

    #[inline]
    fn items(&self) -> usize {
        self.storage.items()
    }

    #[inline]
    fn pruned(&self) -> u64 {
        self.storage.pruned()
    }
}

impl<T: Translator, V: Drop> fmt::Debug for Index<T, V> {
    /// Shows how many keys and values it holds and how many were removed.
    fn fmt<W: fmt::Write>(&self, f: &mut fmt::Formatter<W>) -> fmt::Result {
        show_counts(self, "Index", f)
    }
}

impl<T: Translator, V: Drop> Factory for Index<T, V> {
    ghost use Rattle.key_index_flat.specs.Unordered.{view};

    type Translator = T;

    ghost slot_by = { T.translated };

    ghost makes = { Unit {0} };

    /// Takes no memory, and never refuses.
    fn new(alloc: Global, translator: T) -> Result<Index<T, V>, Fault>
        ensures made { IsOk result }
        ensures empty { IfOk result (λ index. (view index).content ≡ []) }
        ensures pruned { IfOk result (λ index. (view index).pruned ≡ 0) }
        ensures slots { IfOk result (λ index. (view index).slot ≡ T.translated translator) }
        ensures fault { IfErr result (λ f. f ≡ Fault.Memory) }
    {
        Ok(Index {
            storage: Storage::new(alloc, translator, Map::new(alloc)),
        })
    }
}
