//! The partitioned unordered index.
ghost use Rattle.std.specs.Prelude.{◌≡◌, ◌≤◌, true};
ghost use Rattle.key_index_parts.specs.Buckets.{IsIndex, view_of};
ghost use Rattle.key_index_parts.specs.Gathered.{pair_cmp};
ghost use Rattle.key_index_parts.specs.Prefix.{partition_count, partition_by, slot_by};

use super::bucket::hash_bucket::HashBucket;
use super::storage::Storage;
use super::{Partitioned, partition_index_and_sub_key, range};
use key_index_flat::cursor_of;
use key_index_flat::index::implement::{Lists, show_by_place, show_counts, visit_by_place};
use key_index_flat::index::{
    Factory, Fault, IndexCursor, Refused, Runs, Search, Unordered, Values,
};
use key_index_flat::translator::Translator;
use std::alloc::Global;
use std::convert::AsSlice;
use std::fmt;

/// The lists of a flat index for each of `256^P` partitions, whose newest values stand in one array up to 32 keys. The translator
/// shortens what follows the first `P` bytes of a key.
///
/// `insert` puts a value in front of those of its key. `remove` takes no memory and never refuses. A call by key looks its index key
/// up among those of one partition.
#[derive(Drop)]
pub struct Index<T: Translator, V: Drop, const P: usize> {
    storage: Storage<T, V, HashBucket<T, V>, P>,
    ghost is_index: { IsIndex T.Key.cmp P storage.buckets },
}

impl<T: Translator, V: Drop, const P: usize> Index<T, V, P> {
    ghost use Rattle.std.specs.Prelude.{◌≡◌, IsOk};
    ghost use Rattle.key_index_flat.specs.Visits.{ByPlace, IsBatch, Visits};
    ghost use Rattle.key_index_parts.specs.Gathered.{pair_cmp};
    ghost use Rattle.key_index_parts.specs.Unordered.{view};

    /// Visits the values of each key of a batch with the key's place in it, from 0, by place. What it visits may be kept as long as the
    /// index is borrowed. Takes no memory, and never refuses.
    pub fn get_many<'a, B: Iterator + Drop, F: FnMut(usize, &'a V)>(
        &'a self,
        keys: B,
        visit: F,
    ) -> Result<(), Fault>
    where
        B::Item: AsSlice<u8> + Drop,
        requires batch { IsBatch B.Iterator keys }
        requires callable { F.IsAlwaysCallable visit }
        ensures made { IsOk result }
        ensures seen { Visits ByPlace B.Iterator B.Item.items keys (pair_cmp T.Key.cmp) (view self.now) F.FnMut visit }
    {
        visit_by_place(self, keys, visit);
        Ok(())
    }
}

/// Some neighbouring partitions of a partitioned unordered index, apart from it.
pub type RangeIndex<T, V, const P: usize> = range::RangeIndex<T, V, HashBucket<T, V>, P>;

impl<T: Translator, V: Drop, const P: usize> Runs for Index<T, V, P> {
    ghost use Rattle.std.proofs.lemmas.Map.Lookups.{exact_pairs, exact_unsigned};
    ghost use Rattle.std.specs.Ordering.{nat_cmp};

    type Value = V;

    type Key = (usize, T::Key);

    ghost view = { λ index. view_of P T.translated index.storage };

    ghost lawful = { λ index. index.is_index.lawful };

    ghost exact = { exact_pairs nat_cmp T.Key.cmp exact_unsigned T.exact };

    #[inline(always)]
    fn slot_of(&self, key: &[u8]) -> (usize, T::Key) {
        self.storage.slot_of(key)
    }

    #[inline]
    fn admits(&self, slot: (usize, T::Key)) -> bool {
        self.storage.admits(slot)
    }

    #[inline]
    fn run_len(&self, slot: (usize, T::Key)) -> usize {
        self.storage.run_len(slot)
    }

    #[inline]
    fn value_at(&self, slot: (usize, T::Key), place: usize) -> &V {
        self.storage.value_at(slot, place)
    }

    #[inline]
    fn set_at(&mut self, slot: (usize, T::Key), place: usize, value: V) {
        self.storage.set_at(slot, place, value);
    }

    #[inline]
    fn insert_at(
        &mut self,
        slot: (usize, T::Key),
        place: usize,
        value: V,
    ) -> Result<(), Refused<V>> {
        self.storage.insert_at(slot, place, value)
    }

    #[inline]
    fn remove_at(&mut self, slot: (usize, T::Key), place: usize) -> V {
        self.storage.remove_at(slot, place)
    }
}

impl<T: Translator, V: Drop, const P: usize> Lists for Index<T, V, P> {
    #[inline]
    fn list_at(&self, slot: (usize, T::Key)) -> Values<'_, V> {
        self.storage.list_at(slot)
    }
}

impl<T: Translator, V: Drop, const P: usize> Search for Index<T, V, P> {
    fn reach(&mut self, key: &[u8]) -> Result<((usize, T::Key), usize), Fault> {
        let slot = self.slot_of(key);
        Ok((slot, self.run_len(slot)))
    }

    fn reach_or_insert(
        &mut self,
        key: &[u8],
        value: V,
    ) -> Result<((usize, T::Key), usize), Refused<V>> {
        let slot = self.slot_of(key);
        let len = self.storage.insert_absent(slot, value)?;
        Ok((slot, len))
    }

    fn search(&mut self, key: &[u8]) -> Result<IndexCursor<'_, Index<T, V, P>>, Option<Fault>> {
        cursor_of!(self, self.reach(key))
    }

    fn search_or_insert(
        &mut self,
        key: &[u8],
        value: V,
    ) -> Result<IndexCursor<'_, Index<T, V, P>>, Option<Refused<V>>> {
        cursor_of!(self, self.reach_or_insert(key, value))
    }
}

impl<T: Translator, V: Drop, const P: usize> Unordered for Index<T, V, P> {
    ghost use Rattle.std.specs.Prelude.{◌≡◌, IsOk};
    ghost use Rattle.key_index_flat.specs.Visits.{ByPlace, IsBatch, Visits};
    ghost use Rattle.key_index_parts.specs.Unordered.{view};
    ghost use Rattle.key_index_parts.specs.laws.PrefixLaws.{prefix_reaches};

    ghost INSERT_FIRST = { true };

    const INSERT_FIRST: bool = true;

    const LOOKUP_WARMS_UPDATE: bool = true;

    ghost reaches = { λ _ b h. prefix_reaches P b h };

    #[inline(always)]
    fn get(&self, key: &[u8]) -> Values<'_, V> {
        self.storage.get(self.storage.slot_of(key))
    }

    /// Visits by place. Takes no memory, and never refuses.
    fn get_many<B: Iterator + Drop, F: FnMut(usize, &V)>(
        &self,
        keys: B,
        visit: F,
    ) -> Result<(), Fault>
    where
        B::Item: AsSlice<u8> + Drop,
        requires batch { IsBatch B.Iterator keys }
        requires callable { F.IsAlwaysCallable visit }
        ensures made { IsOk result }
        ensures seen { Visits ByPlace B.Iterator B.Item.items keys (pair_cmp T.Key.cmp) (view self.now) F.FnMut visit }
    {
        show_by_place(self, keys, visit);
        Ok(())
    }

    #[inline]
    fn insert(&mut self, key: &[u8], value: V) -> Result<(), Refused<V>> {
        let slot = self.storage.slot_of(key);
        self.storage.insert(slot, value)
    }

    #[inline]
    fn insert_and_retain<F: FnMut(&V) -> bool>(
        &mut self,
        key: &[u8],
        value: V,
        should_retain: F,
    ) -> Result<(), Refused<V>> {
        let slot = self.storage.slot_of(key);
        self.storage.insert_and_retain(slot, value, should_retain)
    }

    #[inline]
    fn retain<F: FnMut(&V) -> bool>(&mut self, key: &[u8], should_retain: F) -> Result<(), Fault> {
        let slot = self.storage.slot_of(key);
        self.storage.retain(slot, should_retain)
    }

    #[inline]
    fn remove(&mut self, key: &[u8]) -> Result<(), Fault> {
        let slot = self.storage.slot_of(key);
        self.storage.remove(slot)
    }

    #[inline]
    fn keys(&self) -> usize {
        self.storage.keys()
    }

    #[inline]
    fn items(&self) -> usize {
        self.storage.items()
    }

    #[inline]
    fn pruned(&self) -> u64 {
        self.storage.pruned()
    }
}

impl<T: Translator, V: Drop, const P: usize> fmt::Debug for Index<T, V, P> {
    /// Shows how many keys and values it holds and how many were removed.
    fn fmt<W: fmt::Write>(&self, f: &mut fmt::Formatter<W>) -> fmt::Result {
        show_counts(self, "Index", f)
    }
}

impl<T: Translator, V: Drop, const P: usize> Factory for Index<T, V, P> {
    type Translator = T;

    ghost slot_by = { λ translator. slot_by P (T.translated translator) };

    ghost makes = { (1 ≤ P) × (P ≤ 3) };

    /// Takes the room of all partitions at once, and answers `Memory` where that is refused.
    fn new(alloc: Global, translator: T) -> Result<Index<T, V, P>, Fault> {
        let storage = Storage::new(alloc, translator, 1 << (8 * P), usize::MAX)?;
        Ok(Index { storage })
    }
}

impl<T: Translator, V: Drop, const P: usize> Partitioned for Index<T, V, P> {
    ghost use Rattle.std.specs.Prelude.{◌≡◌, ◌+◌, ◌<◌, ◌≤◌, IfErr, OnErr, OnOk};
    ghost use Rattle.key_index_flat.specs.View.{items_in};
    ghost use Rattle.key_index_parts.specs.Joined.{IsFree, install_fault, joined_view};
    ghost use Rattle.key_index_parts.specs.Range.{range_view};
    ghost use Rattle.key_index_parts.specs.Unordered.{view};
    ghost use Rattle.std.proofs.Common.{refl};
    ghost use Rattle.key_index_parts.specs.laws.PrefixLaws.{partition_by-made, partition_by-below};

    type Range = RangeIndex<T, V, P>;

    ghost partitions = { partition_count P };

    ghost partition = { λ slot. slot.0 };

    ghost prefix = { partition_by P };

    ghost one_end = { refl };

    ghost files = { λ index b _. partition_by-made P b index.is_index.least index.is_index.greatest };

    ghost within = { λ b h. partition_by-below P b h };

    ghost covered = { λ _ _. refl };

    #[inline]
    fn partition_count(&self) -> usize {
        self.storage.len()
    }

    #[inline]
    fn partition_of(key: &[u8]) -> usize {
        // A type with another number of bytes has no index, and no partition either.
        if P < 1 || P > 3 {
            return 0;
        }
        let (partition, _) = partition_index_and_sub_key::<P>(key);
        partition
    }

    fn partition_is_empty(&self, number: usize) -> bool {
        self.storage.is_free(number, 1)
    }

    fn new_range(&self, offset: usize, count: usize) -> Result<RangeIndex<T, V, P>, Fault> {
        let storage = self.storage.new_range(count)?;
        Ok(range::RangeIndex { offset, storage })
    }

    fn can_install(&self, range: &RangeIndex<T, V, P>) -> bool {
        self.storage.is_free(range.offset, range.storage.len())
    }

    /// It takes no memory, and is refused only where the index would hold more than `usize::MAX` values.
    fn install_range(
        &mut self,
        range: RangeIndex<T, V, P>,
    ) -> Result<(), (RangeIndex<T, V, P>, Fault)>
        requires { IsFree (pair_cmp T.Key.cmp) (range_view range).admitted (view self.old).content }
        ensures fits { IfErr result (λ _. usize.MAX < items_in (view self.old) + items_in (range_view range)) }
        ensures accepted { OnOk result (view self.new
            ≡ joined_view (pair_cmp T.Key.cmp) (view self.old) (range_view range)) }
        ensures refused { OnErr result (view self.new ≡ view self.old) }
        ensures room { OnOk result (items_in (view self.old) + items_in (range_view range) ≤ usize.MAX) }
        ensures returned { IfErr result (λ e. e.0 ≡ range) }
        ensures fault { IfErr result (λ e. e.1
            ≡ install_fault (items_in (view self.old)) (items_in (range_view range))) }
    {
        if !self.storage.has_room(&range.storage) {
            return Err((range, Fault::Full));
        }
        self.storage.install(range.offset, range.storage);
        Ok(())
    }
}
