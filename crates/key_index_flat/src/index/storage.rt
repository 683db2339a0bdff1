//! What a flat index keeps, over any map of first values.
ghost use Rattle.std.specs.Prelude.{◌≡◌, ◌+◌, ◌<◌, ◌≤◌, [], ◌∷◌, length, slice_get, slice_set, insert, remove, Some, IfOk, IfErr, IfSome, IsOk, OnOk, OnErr};
ghost use Rattle.std.specs.Fn.{CalledAt};
ghost use Rattle.key_index_flat.specs.Content.{item_count, key_count, list_at, IsLawful};
ghost use Rattle.key_index_flat.specs.Fault.{growth_fault};
ghost use Rattle.key_index_flat.specs.Neighbours.{entries_above, first_entry, last_entry, next_list, prev_list};
ghost use Rattle.key_index_flat.specs.Storage.{Kept, IsCounted, added, view_of};
ghost use Rattle.key_index_flat.specs.View.{run_at, with_run, with_edit, with_pruned, with_slot, RetainsWith};
ghost use Rattle.key_index_flat.specs.Values.{values_of, VisitsEach};

pub mod list_map;
pub mod maps;
pub mod small_map;
pub mod tails;
pub mod tree_key;

use super::{Fault, Refused, Values};
use crate::translator::Translator;
use key_index_map::map::Map;
use list_map::ListMap;
use maps::{AnyMap, OrderedMap};
use std::alloc::Global;
use std::marker::Model;
use tails::Front;

/// A flat index over any map of first values: a translator, the lists, and the counts. Contracts see all of it but the count of
/// values, which is that of the content.
#[derive(Drop)]
pub(crate) struct Storage<T: Translator, V, M: AnyMap<T::Key, V>> {
    translator: T,
    lists: ListMap<T, V, M, Front>,
    items: usize,
    pruned: u64,
}

impl<T: Translator, V, M: AnyMap<T::Key, V>> Model for Storage<T, V, M> {
    ghost Value = { Kept T T.Key V };

    ghost view = { λ s. record {
      translator = s.translator;
      content = s.lists.content;
      pruned = s.pruned;
      spare = s.lists.spare;
    } };

    ghost invariant = { λ s. IsCounted T.Key.cmp s.lists.content s.items };
}

impl<T: Translator, V: Drop, M: AnyMap<T::Key, V>> Storage<T, V, M> {
    /// No values, over an empty map of first values.
    pub(crate) fn new(alloc: Global, translator: T, heads: M) -> Storage<T, V, M>
        requires { M.entries heads ≡ [] }
        ensures translator { result.translator ≡ translator }
        ensures content { result.content ≡ [] }
        ensures lawful { IsLawful T.Key.cmp result.content }
        ensures pruned { result.pruned ≡ 0 }
    {
        Storage {
            translator,
            lists: ListMap::new(alloc, heads),
            items: 0,
            pruned: 0,
        }
    }

    #[inline(always)]
    pub(crate) fn slot_of(&self, key: &[u8]) -> T::Key
        ensures { result ≡ T.translated self.now.translator key.now }
    {
        self.translator.transform(key)
    }

    #[inline]
    pub(crate) fn run_len(&self, slot: T::Key) -> usize
        ensures { result ≡ length (list_at T.Key.cmp self.now.content slot) }
    {
        self.lists.run_len(slot)
    }

    #[inline]
    pub(crate) fn value_at(&self, slot: T::Key, place: usize) -> &V
        requires { place < length (list_at T.Key.cmp self.now.content slot) }
        ensures { slice_get (list_at T.Key.cmp self.now.content slot) place ≡ Some result.now }
    {
        self.lists.value_at(slot, place)
    }

    #[inline(always)]
    pub(crate) fn list_at(&self, slot: T::Key) -> Values<'_, V>
        ensures { result ≡ list_at T.Key.cmp self.now.content slot }
    {
        self.lists.get(slot)
    }

    /// Where the lists take their memory.
    #[inline]
    pub(crate) fn alloc(&self) -> Global {
        self.lists.alloc()
    }

    /// Puts a value in front of the list at an index key.
    pub(crate) fn insert(&mut self, slot: T::Key, value: V) -> Result<(), Refused<V>>
        ensures accepted { OnOk result (view_of T.translated self.new
            ≡ with_edit T.Key.cmp (view_of T.translated self.old) slot (λ l. value ∷ l)) }
        ensures room { OnOk result (item_count self.old.content < usize.MAX) }
        ensures refused { OnErr result (view_of T.translated self.new ≡ view_of T.translated self.old) }
        ensures spare { self.old.spare ≤ self.new.spare + added T.Key.cmp self.old.content slot }
        ensures succeeds { 0 < self.old.spare → list_at T.Key.cmp self.old.content slot ≡ []
            → item_count self.old.content < usize.MAX → IsOk result }
        ensures lawful { IsLawful T.Key.cmp self.new.content }
        ensures returned { IfErr result (λ r. r.value ≡ value) }
        ensures fault { IfErr result (λ r. r.fault ≡ growth_fault (item_count self.old.content)) }
    {
        if self.items == usize::MAX {
            return Err(Refused::full(value));
        }
        match self.lists.insert(slot, value) {
            Ok(_) => {
                self.items += 1;
                Ok(())
            }
            Err(value) => Err(Refused::memory(value)),
        }
    }

    #[inline]
    pub(crate) fn set_at(&mut self, slot: T::Key, place: usize, value: V)
        requires place { place < length (list_at T.Key.cmp self.old.content slot) }
        ensures edited { view_of T.translated self.new
            ≡ with_edit T.Key.cmp (view_of T.translated self.old) slot (λ l. slice_set l place value) }
        ensures lawful { IsLawful T.Key.cmp self.new.content }
    {
        self.lists.set_at(slot, place, value);
    }

    pub(crate) fn insert_at(
        &mut self,
        slot: T::Key,
        place: usize,
        value: V,
    ) -> Result<(), Refused<V>>
        requires place { place ≤ length (list_at T.Key.cmp self.old.content slot) }
        ensures accepted { OnOk result (view_of T.translated self.new
            ≡ with_edit T.Key.cmp (view_of T.translated self.old) slot (λ l. insert l place value)) }
        ensures room { OnOk result (item_count self.old.content < usize.MAX) }
        ensures refused { OnErr result (view_of T.translated self.new ≡ view_of T.translated self.old) }
        ensures lawful { IsLawful T.Key.cmp self.new.content }
        ensures returned { IfErr result (λ r. r.value ≡ value) }
        ensures fault { IfErr result (λ r. r.fault ≡ growth_fault (item_count self.old.content)) }
    {
        if self.items == usize::MAX {
            return Err(Refused::full(value));
        }
        match self.lists.insert_at(slot, place, value) {
            Ok(_) => {
                self.items += 1;
                Ok(())
            }
            Err(value) => Err(Refused::memory(value)),
        }
    }

    /// Puts a value under an index key that has none, and tells how many values the index key had.
    pub(crate) fn insert_absent(&mut self, slot: T::Key, value: V) -> Result<usize, Refused<V>>
        ensures found { IfOk result (λ n.
            0 < n → view_of T.translated self.new ≡ view_of T.translated self.old) }
        ensures inserted { IfOk result (λ n. n ≡ 0 → view_of T.translated self.new
            ≡ with_run T.Key.cmp (view_of T.translated self.old) slot (value ∷ [])) }
        ensures len { IfOk result (λ n. n ≡ length (list_at T.Key.cmp self.old.content slot)) }
        ensures room { OnOk result (item_count self.old.content < usize.MAX) }
        ensures refused { OnErr result (view_of T.translated self.new ≡ view_of T.translated self.old) }
        ensures lawful { IsLawful T.Key.cmp self.new.content }
        ensures returned { IfErr result (λ r. r.value ≡ value) }
        ensures fault { IfErr result (λ r. r.fault ≡ growth_fault (item_count self.old.content)) }
    {
        if self.items == usize::MAX {
            return Err(Refused::full(value));
        }
        match self.lists.insert_absent(slot, value) {
            Ok(0) => {
                self.items += 1;
                Ok(0)
            }
            Ok(len) => Ok(len),
            Err(value) => Err(Refused::memory(value)),
        }
    }

    /// Removes the value at a place, and tells how many values the index key has left.
    pub(crate) fn remove_at(&mut self, slot: T::Key, place: usize) -> (V, usize)
        requires place { place < length (list_at T.Key.cmp self.old.content slot) }
        ensures value { slice_get (list_at T.Key.cmp self.old.content slot) place ≡ Some result.0 }
        ensures edited { view_of T.translated self.new
            ≡ with_pruned (with_edit T.Key.cmp (view_of T.translated self.old) slot (λ l. remove l place)) 1 }
        ensures left { result.1 + 1 ≡ length (list_at T.Key.cmp self.old.content slot) }
        ensures lawful { IsLawful T.Key.cmp self.new.content }
    {
        let (value, left) = self.lists.remove_at(slot, place);
        self.items -= 1;
        self.pruned = self.pruned.saturating_add(1);
        (value, left)
    }

    /// Inserts a new value, if there is one, behind those of an index key, calls the closure once for each of them, in list order, and
    /// removes those for which it returns false.
    #[inline(always)]
    pub(crate) fn retain<F: FnMut(&V) -> bool>(
        &mut self,
        slot: T::Key,
        new: Option<V>,
        should_retain: F,
    ) -> Result<(), Refused<V>>
        requires { F.IsAlwaysCallable should_retain }
        ensures accepted { OnOk result (RetainsWith T.Key.cmp (CalledAt F.FnMut) should_retain
            (view_of T.translated self.old) slot new (view_of T.translated self.new)) }
        ensures room { OnOk result (IfSome new (λ _. item_count self.old.content < usize.MAX)) }
        ensures refused { OnErr result (view_of T.translated self.new ≡ view_of T.translated self.old) }
        ensures lawful { IsLawful T.Key.cmp self.new.content }
        ensures returned { IfErr result (λ r. new ≡ Some r.value) }
        ensures fault { IfErr result (λ r. r.fault ≡ growth_fault (item_count self.old.content)) }
    {
        if new.is_some() && self.items == usize::MAX {
            return Err(Refused::full(new.unwrap()));
        }
        match self.lists.retain(slot, new, should_retain) {
            Ok(told) => {
                self.items = self.items - told.had + told.left;
                self.pruned = self.pruned.saturating_add(told.taken as u64);
                Ok(())
            }
            Err(value) => Err(Refused::memory(value)),
        }
    }

    /// Removes an index key, and tells how many values it had.
    pub(crate) fn remove(&mut self, slot: T::Key) -> usize
        ensures removed { view_of T.translated self.new ≡ with_pruned
            (with_run T.Key.cmp (view_of T.translated self.old) slot [])
            (length (run_at T.Key.cmp (view_of T.translated self.old) slot)) }
        ensures taken { result ≡ length (run_at T.Key.cmp (view_of T.translated self.old) slot) }
        ensures lawful { IsLawful T.Key.cmp self.new.content }
    {
        let taken = self.lists.remove(slot);
        self.items -= taken;
        self.pruned = self.pruned.saturating_add(taken as u64);
        taken
    }

    /// Takes another translator, which leaves what is held under the index keys that it is held under.
    pub(crate) fn set_translator(&mut self, translator: T)
        ensures set { view_of T.translated self.new
            ≡ with_slot (view_of T.translated self.old) (T.translated translator) }
        ensures lawful { IsLawful T.Key.cmp self.new.content }
    {
        self.translator = translator;
    }

    #[inline]
    pub(crate) fn keys(&self) -> usize
        ensures { result ≡ key_count self.now.content }
    {
        self.lists.keys()
    }

    #[inline]
    pub(crate) fn items(&self) -> usize
        ensures { result ≡ item_count self.now.content }
    {
        self.items
    }

    #[inline]
    pub(crate) fn pruned(&self) -> u64
        ensures { result ≡ self.now.pruned }
    {
        self.pruned
    }
}

impl<T: Translator, V: Drop, M: OrderedMap<T::Key, V>> Storage<T, V, M> {
    #[inline]
    pub(crate) fn first(&self) -> Option<(T::Key, Values<'_, V>)>
        ensures { result ≡ first_entry self.now.content }
    {
        self.lists.first()
    }

    #[inline]
    pub(crate) fn last(&self) -> Option<(T::Key, Values<'_, V>)>
        ensures { result ≡ last_entry self.now.content }
    {
        self.lists.last()
    }

    #[inline]
    pub(crate) fn above(&self, slot: T::Key) -> Option<(T::Key, Values<'_, V>)>
        ensures { result ≡ first_entry (entries_above T.Key.cmp self.now.content slot) }
    {
        self.lists.above(slot)
    }

    #[inline]
    pub(crate) fn next(&self, slot: T::Key) -> Option<(Values<'_, V>, bool)>
        ensures { result ≡ next_list T.Key.cmp self.now.content slot }
    {
        self.lists.next(slot)
    }

    #[inline]
    pub(crate) fn prev(&self, slot: T::Key) -> Option<(Values<'_, V>, bool)>
        ensures { result ≡ prev_list T.Key.cmp self.now.content slot }
    {
        self.lists.prev(slot)
    }
}

impl<T: Translator, V: Drop> Storage<T, V, Map<T::Key, V>> {
    /// Makes room for so many more index keys.
    pub(crate) fn reserve(&mut self, additional: usize) -> Result<(), Fault>
        ensures same { view_of T.translated self.new ≡ view_of T.translated self.old }
        ensures room { OnOk result (additional ≤ self.new.spare) }
        ensures spare { self.old.spare ≤ self.new.spare }
        ensures succeeds { additional ≤ self.old.spare → IsOk result }
        ensures fault { IfErr result (λ f. f ≡ Fault.Memory) }
    {
        match self.lists.reserve(additional) {
            Ok(()) => Ok(()),
            Err(_) => Err(Fault::Memory),
        }
    }

    /// Calls a closure once on each value.
    #[inline]
    pub(crate) fn for_each_value<F: FnMut(&V)>(&self, visit: &mut F)
        requires { F.IsAlwaysCallable visit.old }
        ensures visits { VisitsEach (CalledAt F.FnMut) visit.old (values_of self.now.content) visit.new }
        ensures callable { F.IsAlwaysCallable visit.new }
    {
        self.lists.for_each_value(visit);
    }
}
