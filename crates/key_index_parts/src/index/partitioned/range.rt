//! Ranges of an index in partitions, over any kind of bucket.
ghost use Rattle.std.specs.Prelude.{◌≡◌, ◌+◌, ◌-◌, ◌≤◌, ◌&&◌, length, IsTrue};
ghost use Rattle.key_index_flat.specs.Content.{item_count};
ghost use Rattle.key_index_parts.specs.Buckets.{IsRange, view_from};
ghost use Rattle.key_index_parts.specs.Gathered.{gathered};
ghost use Rattle.key_index_parts.specs.Joined.{IsSpanKept, is_between};
ghost use Rattle.key_index_parts.specs.Moves.{IsRangeWithin};
ghost use Rattle.key_index_parts.specs.laws.RangeLaws.{shift};
ghost use Rattle.key_index_parts.specs.Standing.{LeavesSome, Refuses, Settles, is_reached};

use super::bucket::{Bucket, Contents, EditBucket};
use super::storage::Storage;
use super::{PartitionRange, partition_index_and_sub_key};
use key_index_flat::cursor_of;
use key_index_flat::index::{Fault, IndexCursor, Refused, Runs, Search};
use key_index_flat::translator::Translator;

/// Some neighbouring partitions of an index, apart from it, with room for these alone. Its buckets are numbered from
/// 0, and its index keys are those of the index.
#[derive(Drop)]
pub struct RangeIndex<T: Translator, V: Drop, X: Contents<T, V> + Drop, const P: usize> {
    pub(super) offset: usize,
    pub(super) storage: Storage<T, V, X, P>,
    ghost is_range: { IsRange T.Key.cmp P offset storage.buckets },
    ghost within: { IsRangeWithin storage.standings storage.pruned },
}

impl<T: Translator, V: Drop, X: Contents<T, V> + Drop, const P: usize> RangeIndex<T, V, X, P> {
    /// Whether the range covers a partition.
    #[inline]
    fn covers(&self, partition: usize) -> bool
        ensures { result ≡ is_between self.now.offset (self.now.offset + length self.now.storage.buckets) partition }
    {
        partition >= self.offset && partition - self.offset < self.storage.len()
    }

    /// An index key by the numbers of the range's own buckets.
    #[inline]
    fn own(&self, slot: (usize, T::Key)) -> (usize, T::Key)
        requires { self.now.offset ≤ slot.0 }
        ensures slot { shift self.now.offset result ≡ slot }
        ensures number { result.0 ≡ slot.0 - self.now.offset }
    {
        (slot.0 - self.offset, slot.1)
    }
}

impl<T: Translator, V: Drop, X: EditBucket<T, V> + Drop, const P: usize> Runs
    for RangeIndex<T, V, X, P> {
    ghost use Rattle.std.proofs.lemmas.Map.Lookups.{exact_pairs, exact_unsigned};
    ghost use Rattle.std.specs.Ordering.{nat_cmp};
    ghost use Rattle.key_index_parts.specs.laws.RangeLaws.{IsLawful-gathered_from};

    type Value = V;

    type Key = (usize, T::Key);

    ghost view = { λ range. view_from P T.translated range.offset range.storage };

    ghost edited = { λ x y. IsSpanKept (λ range. range.offset) (λ range. length range.storage.buckets) x y
        × LeavesSome x.storage.standings y.storage.standings };

    ghost lawful = { λ range.
        IsLawful-gathered_from T.Key.cmp range.offset range.storage.buckets range.is_range.lawful };

    ghost exact = { exact_pairs nat_cmp T.Key.cmp exact_unsigned T.exact };

    #[inline]
    fn slot_of(&self, key: &[u8]) -> (usize, T::Key) {
        self.storage.slot_of(key)
    }

    #[inline]
    fn admits(&self, slot: (usize, T::Key)) -> bool {
        self.covers(slot.0)
    }

    #[inline]
    fn run_len(&self, slot: (usize, T::Key)) -> usize {
        if slot.0 < self.offset {
            return 0;
        }
        self.storage.run_len(self.own(slot))
    }

    #[inline]
    fn value_at(&self, slot: (usize, T::Key), place: usize) -> &V {
        self.storage.value_at(self.own(slot), place)
    }

    #[inline]
    fn set_at(&mut self, slot: (usize, T::Key), place: usize, value: V) {
        let own = self.own(slot);
        self.storage.set_at(own, place, value);
    }

    #[inline]
    fn insert_at(
        &mut self,
        slot: (usize, T::Key),
        place: usize,
        value: V,
    ) -> Result<(), Refused<V>> {
        let own = self.own(slot);
        self.storage.insert_at(own, place, value)
    }

    #[inline]
    fn remove_at(&mut self, slot: (usize, T::Key), place: usize) -> V {
        let own = self.own(slot);
        self.storage.remove_at(own, place)
    }
}

impl<T: Translator, V: Drop, X: Bucket<T, V> + Drop, const P: usize> Search
    for RangeIndex<T, V, X, P> {
    ghost settled = { λ x slot y. IsSpanKept (λ range. range.offset) (λ range. length range.storage.buckets) x y
        × (IsTrue X.SPILLS → Settles x.storage.standings (slot.0 - x.offset) y.storage.standings) };

    ghost left_by_refusal = { λ x slot y.
        IsSpanKept (λ range. range.offset) (λ range. length range.storage.buckets) x y
        × (IsTrue X.SPILLS → Refuses (item_count (gathered x.storage.buckets)) x.storage.standings
        (slot.0 - x.offset) y.storage.standings) };

    ghost may_refuse = { λ x slot. X.SPILLS && is_reached x.storage.standings (slot.0 - x.offset) };

    fn reach(&mut self, key: &[u8]) -> Result<((usize, T::Key), usize), Fault> {
        let slot = self.slot_of(key);
        let own = self.own(slot);
        match self.storage.settle(own.0) {
            Ok(()) => Ok((slot, self.run_len(slot))),
            Err(fault) => Err(fault),
        }
    }

    fn reach_or_insert(
        &mut self,
        key: &[u8],
        value: V,
    ) -> Result<((usize, T::Key), usize), Refused<V>> {
        let slot = self.slot_of(key);
        let own = self.own(slot);
        match self.storage.insert_absent(own, value) {
            Ok(len) => Ok((slot, len)),
            Err(refused) => Err(refused),
        }
    }

    fn search(
        &mut self,
        key: &[u8],
    ) -> Result<IndexCursor<'_, RangeIndex<T, V, X, P>>, Option<Fault>> {
        cursor_of!(self, self.reach(key))
    }

    fn search_or_insert(
        &mut self,
        key: &[u8],
        value: V,
    ) -> Result<IndexCursor<'_, RangeIndex<T, V, X, P>>, Option<Refused<V>>> {
        cursor_of!(self, self.reach_or_insert(key, value))
    }
}

impl<T: Translator, V: Drop, X: Bucket<T, V> + Drop, const P: usize> PartitionRange
    for RangeIndex<T, V, X, P> {
    ghost use Rattle.key_index_parts.specs.laws.RangeLaws.{gathered_from-covers};

    ghost INSERT_FIRST = { X.FIRST };

    ghost offset = { λ range. range.offset };

    ghost count = { λ range. length range.storage.buckets };

    ghost edits_within = { λ _ _ h. h.0 };

    ghost settles_within = { λ _ _ _ h. h.0 };

    ghost refuses_within = { λ _ _ _ h. h.0 };

    ghost covers = { λ range. gathered_from-covers T.Key.cmp range.offset range.storage.buckets };

    #[inline]
    fn holds(&self, key: &[u8]) -> bool {
        let (partition, _) = partition_index_and_sub_key::<P>(key);
        self.covers(partition)
    }

    fn insert(&mut self, key: &[u8], value: V) -> Result<(), Refused<V>> {
        let slot = self.slot_of(key);
        let own = self.own(slot);
        match self.storage.insert(own, value) {
            Ok(()) => Ok(()),
            Err(refused) => Err(refused),
        }
    }

    #[inline]
    fn offset(&self) -> usize {
        self.offset
    }

    #[inline]
    fn count(&self) -> usize {
        self.storage.len()
    }

    #[inline]
    fn keys(&self) -> usize {
        self.storage.keys()
    }

    #[inline]
    fn items(&self) -> usize {
        self.storage.items()
    }

    #[inline]
    fn pruned(&self) -> u64 {
        self.storage.pruned()
    }

    fn for_each_value<F: FnMut(&V)>(&self, mut visit: F) {
        self.storage.for_each_value(&mut visit);
    }
}
