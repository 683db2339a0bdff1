//! The plain index: the definitions' own program. Every call scans a sorted list of entries. It shows that the contracts can be met,
//! and it is the shortest index to read.
#![tactic(auto)]

ghost use Rattle.std.specs.Prelude.{◌≡◌, ◌<◌, ◌^◌, [], true, refl, IsOk, IfOk, IfErr};
ghost use Rattle.key_index_flat.specs.Content.{IsLawful, list_at, item_count};
ghost use Rattle.key_index_plain.specs.Entries.{listed, content_of};
ghost use Rattle.key_index_plain.specs.Laws.{IsLawful-content_of};

mod entries;

use entries::Entry;
use key_index_flat::cursor_of;
use key_index_flat::index::implement::{Lists, show_by_place};
use key_index_flat::index::{
    Factory, Fault, IndexCursor, Ordered, Refused, Runs, Search, Unordered, Values,
};
use key_index_flat::translator::{OrderedTranslator, Translator};
use std::alloc::Global;
use std::convert::AsSlice;

/// An index over a list of entries, sorted by translated key. Each entry has a translated key and its values, the newest first.
///
/// Every call takes time in proportion to the entries, and `insert` and `remove` move those behind theirs. `insert` puts a value in
/// front of those of its key. `remove` takes no memory and never refuses.
#[derive(Drop)]
pub struct Index<T: Translator, V> {
    translator: T,
    entries: Vec<Entry<T::Key, V>>,
    pruned: u64,
    ghost lawful: { IsLawful T.Key.cmp (listed entries.items) },
    ghost countable: { item_count (listed entries.items) < 2 ^ 64 },
}

impl<T: Translator, V: Drop> Index<T, V> {
    /// The values under an index key, the newest first.
    fn values_of(&self, slot: T::Key) -> &[V]
        ensures { result.now ≡ list_at T.Key.cmp (content_of T.Key.cmp self.now.entries.items) slot }
    {
        entries::values_of(self.entries.as_slice(), &slot)
    }
}

impl<T: Translator, V: Drop> Runs for Index<T, V> {
    type Value = V;

    type Key = T::Key;

    ghost view = { λ index. record {
      content = content_of T.Key.cmp index.entries.items;
      pruned = index.pruned;
      slot = T.translated index.translator;
      admitted = λ _. true;
    } };

    ghost lawful = { λ index. IsLawful-content_of T.Key.total index.entries.items };

    ghost exact = { T.exact };

    fn slot_of(&self, key: &[u8]) -> T::Key {
        self.translator.transform(key)
    }

    fn admits(&self, _slot: T::Key) -> bool {
        true
    }

    fn run_len(&self, slot: T::Key) -> usize {
        self.values_of(slot).len()
    }

    fn value_at(&self, slot: T::Key, place: usize) -> &V {
        &self.values_of(slot)[place]
    }

    fn set_at(&mut self, slot: T::Key, place: usize, value: V) {
        entries::set_at(&mut self.entries, &slot, place, value);
    }

    fn insert_at(&mut self, slot: T::Key, place: usize, value: V) -> Result<(), Refused<V>> {
        if self.items() == usize::MAX {
            return Err(Refused::full(value));
        }
        match entries::insert_at(&mut self.entries, slot, place, value) {
            Ok(()) => Ok(()),
            Err(value) => Err(Refused::memory(value)),
        }
    }

    fn remove_at(&mut self, slot: T::Key, place: usize) -> V {
        let value = entries::remove_at(&mut self.entries, &slot, place);
        self.pruned = self.pruned.saturating_add(1);
        value
    }
}

impl<T: Translator, V: Drop> Lists for Index<T, V> {
    fn list_at(&self, slot: T::Key) -> Values<'_, V> {
        Values::of_slice(self.values_of(slot))
    }
}

impl<T: Translator, V: Drop> Search for Index<T, V> {
    fn reach(&mut self, key: &[u8]) -> Result<(T::Key, usize), Fault> {
        let slot = self.slot_of(key);
        Ok((slot, self.run_len(slot)))
    }

    fn reach_or_insert(&mut self, key: &[u8], value: V) -> Result<(T::Key, usize), Refused<V>> {
        if self.items() == usize::MAX {
            return Err(Refused::full(value));
        }
        let slot = self.slot_of(key);
        let len = self.run_len(slot);
        if len == 0 {
            self.insert_at(slot, 0, value)?;
        }
        Ok((slot, len))
    }

    fn search(&mut self, key: &[u8]) -> Result<IndexCursor<'_, Index<T, V>>, Option<Fault>> {
        cursor_of!(self, self.reach(key))
    }

    fn search_or_insert(
        &mut self,
        key: &[u8],
        value: V,
    ) -> Result<IndexCursor<'_, Index<T, V>>, Option<Refused<V>>> {
        cursor_of!(self, self.reach_or_insert(key, value))
    }
}

impl<T: Translator, V: Drop> Unordered for Index<T, V> {
    ghost INSERT_FIRST = { true };

    const INSERT_FIRST: bool = true;

    const LOOKUP_WARMS_UPDATE: bool = true;

    ghost reaches = { λ _ _ _. refl };

    fn get(&self, key: &[u8]) -> Values<'_, V> {
        Values::of_slice(self.values_of(self.translator.transform(key)))
    }

    fn get_many<B: Iterator + Drop, F: FnMut(usize, &V)>(
        &self,
        keys: B,
        visit: F,
    ) -> Result<(), Fault>
    where
        B::Item: AsSlice<u8> + Drop,
    {
        show_by_place(self, keys, visit);
        Ok(())
    }

    fn insert(&mut self, key: &[u8], value: V) -> Result<(), Refused<V>> {
        if self.items() == usize::MAX {
            return Err(Refused::full(value));
        }
        let slot = self.translator.transform(key);
        match entries::insert_first(&mut self.entries, slot, value) {
            Ok(()) => Ok(()),
            Err(value) => Err(Refused::memory(value)),
        }
    }

    fn retain<F: FnMut(&V) -> bool>(&mut self, key: &[u8], should_retain: F) -> Result<(), Fault> {
        let slot = self.translator.transform(key);
        let taken = entries::retain(&mut self.entries, &slot, should_retain);
        self.pruned = self.pruned.saturating_add(taken as u64);
        Ok(())
    }

    fn insert_and_retain<F: FnMut(&V) -> bool>(
        &mut self,
        key: &[u8],
        value: V,
        should_retain: F,
    ) -> Result<(), Refused<V>> {
        if self.items() == usize::MAX {
            return Err(Refused::full(value));
        }
        let slot = self.translator.transform(key);
        match entries::insert_and_retain(&mut self.entries, slot, value, should_retain) {
            Ok(taken) => {
                self.pruned = self.pruned.saturating_add(taken as u64);
                Ok(())
            }
            Err(value) => Err(Refused::memory(value)),
        }
    }

    fn remove(&mut self, key: &[u8]) -> Result<(), Fault> {
        let slot = self.translator.transform(key);
        let taken = entries::remove(&mut self.entries, &slot);
        self.pruned = self.pruned.saturating_add(taken as u64);
        Ok(())
    }

    fn keys(&self) -> usize {
        self.entries.len()
    }

    fn items(&self) -> usize {
        entries::count_values(self.entries.as_slice())
    }

    fn pruned(&self) -> u64 {
        self.pruned
    }
}

impl<T: OrderedTranslator, V: Drop> Ordered for Index<T, V> {
    ghost keeps_order = { λ index. T.keeps_order index.translator };

    fn prev_translated_key(&self, key: &[u8]) -> Option<(Values<'_, V>, bool)> {
        entries::prev(self.entries.as_slice(), &self.translator.transform(key))
    }

    fn next_translated_key(&self, key: &[u8]) -> Option<(Values<'_, V>, bool)> {
        entries::next(self.entries.as_slice(), &self.translator.transform(key))
    }

    fn first_translated_key(&self) -> Option<Values<'_, V>> {
        entries::first(self.entries.as_slice())
    }

    fn last_translated_key(&self) -> Option<Values<'_, V>> {
        entries::last(self.entries.as_slice())
    }
}

impl<T: Translator, V: Drop> Factory for Index<T, V> {
    ghost use Rattle.key_index_plain.specs.Plain.{view};

    type Translator = T;

    ghost slot_by = { T.translated };

    ghost makes = { Unit {0} };

    /// Takes no memory, and never refuses.
    fn new(alloc: Global, translator: T) -> Result<Index<T, V>, Fault>
        ensures made { IsOk result }
        ensures empty { IfOk result (λ index. (view index).content ≡ []) }
        ensures pruned { IfOk result (λ index. (view index).pruned ≡ 0) }
        ensures slots { IfOk result (λ index. (view index).slot ≡ T.translated translator) }
        ensures fault { IfErr result (λ f. f ≡ Fault.Memory) }
    {
        Ok(Index {
            translator,
            entries: Vec::new(alloc),
            pruned: 0,
        })
    }
}
