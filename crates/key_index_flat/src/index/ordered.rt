//! The flat ordered index.
ghost use Rattle.std.specs.Prelude.{◌≡◌, [], true, false, refl, IsOk, IfOk, IfErr};
ghost use Rattle.key_index_flat.specs.Content.{IsLawful};
ghost use Rattle.key_index_flat.specs.Storage.{view_of};

use super::implement::{Lists, show_by_key, show_counts, visit_by_key};
use super::storage::Storage;
use super::storage::tree_key::TreeMap;
use super::{
    Factory, Fault, IndexCursor, Ordered, OrderedLists, Refused, Runs, Search, Unordered, Values,
};
use crate::cursor_of;
use crate::translator::{OrderedTranslator, Translator};
use std::alloc::Global;
use std::convert::AsSlice;
use std::fmt;

/// An index over an ordered map from translated key to newest value, and a hashed one from translated key to the older values of the
/// keys that have any. So a key with one value is in the first alone.
///
/// `insert` puts a value in front of those of its key. `remove` takes no memory and never refuses. Over a translator that keeps the
/// order of bytes it also gives the neighbours of a key: each by a number of comparisons that is logarithmic in the keys.
#[derive(Drop)]
pub struct Index<T: Translator, V> {
    storage: Storage<T, V, TreeMap<T::Key, V>>,
    ghost lawful: { IsLawful T.Key.cmp storage.content },
}

impl<T: Translator, V: Drop> Index<T, V> {
    ghost use Rattle.key_index_flat.specs.Ordered.{view};
    ghost use Rattle.std.specs.Prelude.{◌≡◌, IfErr, OnOk};
    ghost use Rattle.key_index_flat.specs.Visits.{ByKey, IsBatch, Visits};

    /// Visits the values of each key of a batch with the key's place in it, from 0, by translated key and, of one translated key, by
    /// place. What it visits may be kept as long as the index is borrowed. Takes memory for the places first, and answers `Memory`
    /// where that is refused, before any visit.
    pub fn get_many<'a, B: Iterator + Drop, F: FnMut(usize, &'a V)>(
        &'a self,
        keys: B,
        visit: F,
    ) -> Result<(), Fault>
    where
        B::Item: AsSlice<u8> + Drop,
        requires batch { IsBatch B.Iterator keys }
        requires callable { F.IsAlwaysCallable visit }
        ensures seen { OnOk result (Visits ByKey B.Iterator B.Item.items keys T.Key.cmp (view self.now) F.FnMut visit) }
        ensures fault { IfErr result (λ f. f ≡ Fault.Memory) }
    {
        match visit_by_key(self.storage.alloc(), self, keys, visit) {
            Ok(_) => Ok(()),
            Err((_, fault)) => Err(fault),
        }
    }
}

impl<T: Translator, V: Drop> Runs for Index<T, V> {
    type Value = V;

    type Key = T::Key;

    ghost view = { λ index. view_of T.translated index.storage };

    ghost lawful = { λ index. index.lawful };

    ghost exact = { T.exact };

    #[inline]
    fn slot_of(&self, key: &[u8]) -> T::Key {
        self.storage.slot_of(key)
    }

    #[inline]
    fn admits(&self, _slot: T::Key) -> bool {
        true
    }

    #[inline]
    fn run_len(&self, slot: T::Key) -> usize {
        self.storage.run_len(slot)
    }

    #[inline]
    fn value_at(&self, slot: T::Key, place: usize) -> &V {
        self.storage.value_at(slot, place)
    }

    #[inline]
    fn set_at(&mut self, slot: T::Key, place: usize, value: V) {
        self.storage.set_at(slot, place, value);
    }

    #[inline]
    fn insert_at(&mut self, slot: T::Key, place: usize, value: V) -> Result<(), Refused<V>> {
        self.storage.insert_at(slot, place, value)
    }

    #[inline]
    fn remove_at(&mut self, slot: T::Key, place: usize) -> V {
        self.storage.remove_at(slot, place).0
    }
}

impl<T: Translator, V: Drop> Lists for Index<T, V> {
    #[inline]
    fn list_at(&self, slot: T::Key) -> Values<'_, V> {
        self.storage.list_at(slot)
    }
}

impl<T: Translator, V: Drop> Search for Index<T, V> {
    fn reach(&mut self, key: &[u8]) -> Result<(T::Key, usize), Fault> {
        let slot = self.slot_of(key);
        Ok((slot, self.run_len(slot)))
    }

    fn reach_or_insert(&mut self, key: &[u8], value: V) -> Result<(T::Key, usize), Refused<V>> {
        let slot = self.slot_of(key);
        let len = self.storage.insert_absent(slot, value)?;
        Ok((slot, len))
    }

    fn search(&mut self, key: &[u8]) -> Result<IndexCursor<'_, Index<T, V>>, Option<Fault>> {
        cursor_of!(self, self.reach(key))
    }

    fn search_or_insert(
        &mut self,
        key: &[u8],
        value: V,
    ) -> Result<IndexCursor<'_, Index<T, V>>, Option<Refused<V>>> {
        cursor_of!(self, self.reach_or_insert(key, value))
    }
}

impl<T: Translator, V: Drop> Unordered for Index<T, V> {
    ghost use Rattle.std.specs.Prelude.{OnOk};
    ghost use Rattle.key_index_flat.specs.Ordered.{view};
    ghost use Rattle.key_index_flat.specs.Visits.{ByKey, IsBatch, Visits};

    ghost INSERT_FIRST = { true };

    const INSERT_FIRST: bool = true;

    const LOOKUP_WARMS_UPDATE: bool = false;

    ghost reaches = { λ _ _ _. refl };

    #[inline]
    fn get(&self, key: &[u8]) -> Values<'_, V> {
        self.storage.list_at(self.slot_of(key))
    }

    /// By index key and, of one index key, by place.
    #[inline]
    fn get_many<B: Iterator + Drop, F: FnMut(usize, &V)>(
        &self,
        keys: B,
        visit: F,
    ) -> Result<(), Fault>
    where
        B::Item: AsSlice<u8> + Drop,
        requires batch { IsBatch B.Iterator keys }
        requires callable { F.IsAlwaysCallable visit }
        ensures seen { OnOk result (Visits ByKey B.Iterator B.Item.items keys T.Key.cmp (view self.now) F.FnMut visit) }
        ensures fault { IfErr result (λ f. f ≡ Fault.Memory) }
    {
        show_by_key(self.storage.alloc(), self, keys, visit)
    }

    #[inline]
    fn insert(&mut self, key: &[u8], value: V) -> Result<(), Refused<V>> {
        let slot = self.slot_of(key);
        self.storage.insert(slot, value)
    }

    #[inline]
    fn retain<F: FnMut(&V) -> bool>(&mut self, key: &[u8], should_retain: F) -> Result<(), Fault> {
        let slot = self.slot_of(key);
        let Ok(()) = self.storage.retain(slot, None, should_retain) else {
            unreachable!()
        };
        Ok(())
    }

    fn insert_and_retain<F: FnMut(&V) -> bool>(
        &mut self,
        key: &[u8],
        value: V,
        should_retain: F,
    ) -> Result<(), Refused<V>> {
        let slot = self.slot_of(key);
        self.storage.retain(slot, Some(value), should_retain)
    }

    #[inline]
    fn remove(&mut self, key: &[u8]) -> Result<(), Fault> {
        let slot = self.slot_of(key);
        self.storage.remove(slot);
        Ok(())
    }

    #[inline]
    fn keys(&self) -> usize {
        self.storage.keys()
    }

    #[inline]
    fn items(&self) -> usize {
        self.storage.items()
    }

    #[inline]
    fn pruned(&self) -> u64 {
        self.storage.pruned()
    }
}

impl<T: OrderedTranslator, V: Drop> Ordered for Index<T, V> {
    ghost keeps_order = { λ index. T.keeps_order index.storage.translator };

    #[inline]
    fn prev_translated_key(&self, key: &[u8]) -> Option<(Values<'_, V>, bool)> {
        self.storage.prev(self.slot_of(key))
    }

    #[inline]
    fn next_translated_key(&self, key: &[u8]) -> Option<(Values<'_, V>, bool)> {
        self.storage.next(self.slot_of(key))
    }

    #[inline]
    fn first_translated_key(&self) -> Option<Values<'_, V>> {
        let (_, values) = self.storage.first()?;
        Some(values)
    }

    #[inline]
    fn last_translated_key(&self) -> Option<Values<'_, V>> {
        let (_, values) = self.storage.last()?;
        Some(values)
    }
}

impl<T: OrderedTranslator, V: Drop> OrderedLists for Index<T, V> {
    #[inline]
    fn first_entry(&self) -> Option<(T::Key, Values<'_, V>)> {
        self.storage.first()
    }

    #[inline]
    fn entry_above(&self, slot: T::Key) -> Option<(T::Key, Values<'_, V>)> {
        self.storage.above(slot)
    }
}

impl<T: Translator, V: Drop> fmt::Debug for Index<T, V> {
    /// Shows how many keys and values it holds and how many were removed.
    fn fmt<W: fmt::Write>(&self, f: &mut fmt::Formatter<W>) -> fmt::Result {
        show_counts(self, "Index", f)
    }
}

impl<T: Translator, V: Drop> Factory for Index<T, V> {
    ghost use Rattle.key_index_flat.specs.Ordered.{view};

    type Translator = T;

    ghost slot_by = { T.translated };

    ghost makes = { Unit {0} };

    /// Takes no memory, and never refuses.
    fn new(alloc: Global, translator: T) -> Result<Index<T, V>, Fault>
        ensures made { IsOk result }
        ensures empty { IfOk result (λ index. (view index).content ≡ []) }
        ensures pruned { IfOk result (λ index. (view index).pruned ≡ 0) }
        ensures slots { IfOk result (λ index. (view index).slot ≡ T.translated translator) }
        ensures fault { IfErr result (λ f. f ≡ Fault.Memory) }
    {
        Ok(Index {
            storage: Storage::new(alloc, translator, TreeMap::new(alloc)),
        })
    }
}
