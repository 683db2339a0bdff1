//! The partitioned ordered index.
ghost use Rattle.std.specs.Prelude.{◌≡◌, ◌<◌, ◌≤◌, false, length, IfErr};
ghost use Rattle.key_index_flat.specs.Content.{item_count};
ghost use Rattle.key_index_parts.specs.Buckets.{IsIndex, view_of};
ghost use Rattle.key_index_parts.specs.Gathered.{gathered, pair_cmp, entries_of};
ghost use Rattle.key_index_parts.specs.Prefix.{partition_count, partition_by, slot_by};
ghost use Rattle.key_index_parts.specs.Standing.{LeavesSome, Refuses, Resettles, Settles, is_reached};

mod ahead;
pub mod partition;
mod probes;
mod together;

use super::bucket::sorted_bucket::SortedBucket;
use super::storage::Storage;
use super::{PartitionRange, Partitioned, partition_index_and_sub_key, range};
pub use ahead::{Ahead, same_visits, show_ahead, visit_ahead};
use key_index_flat::cursor_of;
use key_index_flat::index::implement::{Lists, show_counts, visit_probes};
use key_index_flat::index::{
    Factory, Fault, IndexCursor, Ordered, OrderedLists, Refused, Runs, Search, Unordered, Values,
};
use key_index_flat::translator::{OrderedTranslator, Translator};
use std::alloc::Global;
use std::convert::AsSlice;
use std::fmt;
use together::show_together;

/// At how many values a partition of an index made by `new` spills.
const THRESHOLD: usize = 512;

/// Sorted arrays for each of `256^P` partitions, the keys of a partition in order and beside each key a value, and a tree in their place
/// where a partition was left with so many values as the threshold: it has *spilled*. The translator shortens what follows the first `P`
/// bytes of a key.
///
/// `insert` puts a value behind those of its key. A call by key searches one partition: in arrays, of which there are fewer than the
/// threshold, an edit moves what stands behind it; in a tree it takes the logarithm of the keys. A cursor never spills a partition, so it
/// may leave arrays at the threshold or past it: such a partition is *due*, the next call by key there spills it first, and `remove`,
/// `retain` and `get_mut` need memory there and nowhere else. Over a translator that keeps the order of bytes the index also gives the
/// neighbours of a key, however many empty partitions lie between.
#[derive(Drop)]
pub struct Index<T: Translator, V: Drop, const P: usize> {
    storage: Storage<T, V, SortedBucket<T, V>, P>,
    ghost is_index: { IsIndex T.Key.cmp P storage.buckets },
}

impl<T: Translator, V: Drop, const P: usize> Index<T, V, P> {
    ghost use Rattle.std.specs.Prelude.{◌≡◌, ◌+◌, ◌*◌, ◌<◌, ◌≤◌, [], IfErr, IfOk, IsTrue, OnOk};
    ghost use Rattle.std.specs.List.{sum_by};
    ghost use Rattle.key_index_flat.specs.View.{items_in};
    ghost use Rattle.key_index_parts.specs.Moves.{credit};
    ghost use Rattle.key_index_flat.specs.Visits.{ByKey, IsBatch, Visits};
    ghost use Rattle.key_index_parts.specs.Ordered.{standings, view};
    ghost use Rattle.key_index_parts.specs.Standing.{entries_at, inline_len, new_standings, spilled_in, standing_at};
    ghost use Rattle.key_index_parts.specs.Ahead.{Tells};

    /// An index with no values, whose partitions spill at so many. Takes the room of all partitions at once, and answers `Memory` where
    /// that is refused.
    pub fn with_threshold(
        alloc: Global,
        translator: T,
        threshold: usize,
    ) -> Result<Index<T, V, P>, Fault>
        requires least { 1 ≤ P }
        requires greatest { P ≤ 3 }
        requires threshold { 1 ≤ threshold }
        ensures empty { IfOk result (λ index. (view index).content ≡ []) }
        ensures pruned { IfOk result (λ index. (view index).pruned ≡ 0) }
        ensures slots { IfOk result (λ index. (view index).slot ≡ slot_by P (T.translated translator)) }
        ensures standing { IfOk result (λ index. standings index ≡ new_standings threshold (partition_count P)) }
        ensures fault { IfErr result (λ f. f ≡ Fault.Memory) }
    {
        let storage = Storage::new(alloc, translator, 1 << (8 * P), threshold)?;
        Ok(Index { storage })
    }

    /// At how many values a partition spills, at least 1.
    pub fn threshold(&self) -> usize
        ensures count { result ≡ (standings self.now).threshold }
        ensures least { 1 ≤ result }
    {
        self.storage.threshold()
    }

    /// How many spills there ever were. The count stops at `u64::MAX`.
    pub fn spills(&self) -> u64
        ensures { result ≡ (standings self.now).spills }
    {
        self.storage.spills()
    }

    /// How many values were ever moved: those of each spill, and those of each return to arrays. The count stops at `u64::MAX`. It is at
    /// most twice the values held and three times those ever removed, also with what the partitions are yet to pay for.
    pub fn moved(&self) -> u64
        ensures count { result ≡ (standings self.now).moved }
        ensures bound { (view self.now).pruned < u64.MAX →
            result + sum_by (credit (standings self.now).threshold) (standings self.now).buckets
            ≤ 2 * items_in (view self.now) + 3 * (view self.now).pruned }
        ensures at_most { (view self.now).pruned < u64.MAX →
            result ≤ 2 * items_in (view self.now) + 3 * (view self.now).pruned }
    {
        self.storage.moved()
    }

    /// How many partitions are spilled. It looks at each.
    pub fn spilled_count(&self) -> usize
        ensures { result ≡ spilled_in (standings self.now).buckets }
    {
        self.storage.spilled_count()
    }

    /// Whether a partition is spilled, which it never is without values.
    pub fn is_spilled(&self, partition: usize) -> bool
        requires { partition < partition_count P }
        ensures spilled { result ≡ (standing_at (standings self.now) partition).spilled }
        ensures filled { IsTrue result → 0 < item_count (entries_of (view self.now).content partition) }
        ensures listed { partition < length (standings self.now).buckets }
    {
        self.storage.is_spilled(partition)
    }

    /// How many values of a partition stand in arrays: all of them, or none where it is spilled.
    pub fn inline_len(&self, partition: usize) -> usize
        requires { partition < partition_count P }
        ensures len { result ≡ inline_len (standings self.now) partition }
        ensures entries { entries_at (standings self.now) partition
            ≡ item_count (entries_of (view self.now).content partition) }
        ensures listed { partition < length (standings self.now).buckets }
    {
        self.storage.inline_len(partition)
    }

    /// Visits the values of each key of a batch with the key's place in it, from 0, by partition, then by translated key and, of one
    /// translated key, by place. What it visits may be kept as long as the index is borrowed. Takes memory for the places first, and
    /// answers `Memory` where that is refused, before any visit.
    pub fn get_many<'a, B: Iterator + Drop, F: FnMut(usize, &'a V)>(
        &'a self,
        keys: B,
        visit: F,
    ) -> Result<(), Fault>
    where
        B::Item: AsSlice<u8> + Drop,
        requires batch { IsBatch B.Iterator keys }
        requires callable { F.IsAlwaysCallable visit }
        ensures seen { OnOk result (Visits ByKey B.Iterator B.Item.items keys
            (pair_cmp T.Key.cmp) (view self.now) F.FnMut visit) }
        ensures fault { IfErr result (λ f. f ≡ Fault.Memory) }
    {
        let probes = self.probes(keys)?;
        visit_probes(self, probes, visit);
        Ok(())
    }

    /// Visits what `get_many` visits, in its order, and keeps the lists of the next four keys found ahead of the one that it visits. It
    /// tells each list that it finds, with its length. Takes memory for the places first, and answers `Memory` where that is refused,
    /// before it tells anything.
    pub fn get_many_ahead<B: Iterator + Drop, F: FnMut(Ahead<'_, V>)>(
        &self,
        keys: B,
        on: F,
    ) -> Result<(), Fault>
    where
        B::Item: AsSlice<u8> + Drop,
        requires batch { IsBatch B.Iterator keys }
        requires callable { F.IsAlwaysCallable on }
        ensures told { OnOk result (Tells B.Iterator B.Item.items keys
            (pair_cmp T.Key.cmp) (view self.now) F.FnMut on) }
        ensures fault { IfErr result (λ f. f ≡ Fault.Memory) }
    {
        show_ahead(self.storage.alloc(), self, keys, on)
    }
}

/// Some neighbouring partitions of a partitioned ordered index, apart from it.
pub type RangeIndex<T, V, const P: usize> = range::RangeIndex<T, V, SortedBucket<T, V>, P>;

impl<T: Translator, V: Drop, const P: usize> RangeIndex<T, V, P> {
    ghost use Rattle.std.specs.Prelude.{◌≡◌, ◌+◌, ◌-◌, ◌*◌, ◌<◌, ◌≤◌, IsTrue};
    ghost use Rattle.std.specs.List.{sum_by};
    ghost use Rattle.key_index_flat.specs.View.{items_in};
    ghost use Rattle.key_index_parts.specs.Moves.{range_credit};
    ghost use Rattle.key_index_parts.specs.Range.{is_covered, range_offset, range_standings, range_view};
    ghost use Rattle.key_index_parts.specs.Standing.{entries_at, inline_len, standing_at};

    /// How many spills there ever were. The count stops at `u64::MAX`.
    pub fn spills(&self) -> u64
        ensures { result ≡ (range_standings self.now).spills }
    {
        self.storage.spills()
    }

    /// How many values were ever moved by spills. The count stops at `u64::MAX`. With two for each value in arrays and one for each in a
    /// tree it is at most twice the values held and three times those ever removed.
    pub fn moved(&self) -> u64
        ensures count { result ≡ (range_standings self.now).moved }
        ensures bound { (range_view self.now).pruned < u64.MAX →
            result + sum_by range_credit (range_standings self.now).buckets
            ≤ 2 * items_in (range_view self.now) + 3 * (range_view self.now).pruned }
        ensures at_most { (range_view self.now).pruned < u64.MAX →
            result ≤ 2 * items_in (range_view self.now) + 3 * (range_view self.now).pruned }
    {
        self.storage.moved()
    }

    /// Whether a partition that the range covers is spilled, which it never is without values.
    pub fn is_spilled(&self, partition: usize) -> bool
        requires { IsTrue (is_covered self.now partition) }
        ensures spilled { result
            ≡ (standing_at (range_standings self.now) (partition - range_offset self.now)).spilled }
        ensures filled { IsTrue result → 0 < item_count (entries_of (range_view self.now).content partition) }
        ensures listed { partition - range_offset self.now < length (range_standings self.now).buckets }
    {
        self.storage.is_spilled(partition - self.offset)
    }

    /// How many values of a partition that the range covers stand in arrays: all of them, or none where it is spilled.
    pub fn inline_len(&self, partition: usize) -> usize
        requires { IsTrue (is_covered self.now partition) }
        ensures len { result ≡ inline_len (range_standings self.now) (partition - range_offset self.now) }
        ensures entries { entries_at (range_standings self.now) (partition - range_offset self.now)
            ≡ item_count (entries_of (range_view self.now).content partition) }
        ensures listed { partition - range_offset self.now < length (range_standings self.now).buckets }
    {
        self.storage.inline_len(partition - self.offset)
    }
}

impl<T: Translator, V: Drop, const P: usize> Runs for Index<T, V, P> {
    ghost use Rattle.std.proofs.lemmas.Map.Lookups.{exact_pairs, exact_unsigned};
    ghost use Rattle.std.specs.Ordering.{nat_cmp};

    type Value = V;

    type Key = (usize, T::Key);

    ghost view = { λ index. view_of P T.translated index.storage };

    ghost edited = { λ x y. LeavesSome x.storage.standings y.storage.standings };

    ghost lawful = { λ index. index.is_index.lawful };

    ghost exact = { exact_pairs nat_cmp T.Key.cmp exact_unsigned T.exact };

    #[inline]
    fn slot_of(&self, key: &[u8]) -> (usize, T::Key) {
        self.storage.slot_of(key)
    }

    #[inline]
    fn admits(&self, slot: (usize, T::Key)) -> bool {
        self.storage.admits(slot)
    }

    #[inline]
    fn run_len(&self, slot: (usize, T::Key)) -> usize {
        self.storage.run_len(slot)
    }

    #[inline]
    fn value_at(&self, slot: (usize, T::Key), place: usize) -> &V {
        self.storage.value_at(slot, place)
    }

    #[inline]
    fn set_at(&mut self, slot: (usize, T::Key), place: usize, value: V) {
        self.storage.set_at(slot, place, value);
    }

    #[inline]
    fn insert_at(
        &mut self,
        slot: (usize, T::Key),
        place: usize,
        value: V,
    ) -> Result<(), Refused<V>> {
        self.storage.insert_at(slot, place, value)
    }

    #[inline]
    fn remove_at(&mut self, slot: (usize, T::Key), place: usize) -> V {
        self.storage.remove_at(slot, place)
    }
}

impl<T: Translator, V: Drop, const P: usize> Lists for Index<T, V, P> {
    #[inline]
    fn list_at(&self, slot: (usize, T::Key)) -> Values<'_, V> {
        self.storage.list_at(slot)
    }
}

impl<T: Translator, V: Drop, const P: usize> Search for Index<T, V, P> {
    ghost settled = { λ x slot y. Settles x.storage.standings slot.0 y.storage.standings };

    ghost left_by_refusal = { λ x slot y.
        Refuses (item_count (gathered x.storage.buckets)) x.storage.standings slot.0 y.storage.standings };

    ghost may_refuse = { λ x slot. is_reached x.storage.standings slot.0 };

    fn reach(&mut self, key: &[u8]) -> Result<((usize, T::Key), usize), Fault> {
        let slot = self.slot_of(key);
        self.storage.settle(slot.0)?;
        Ok((slot, self.run_len(slot)))
    }

    fn reach_or_insert(
        &mut self,
        key: &[u8],
        value: V,
    ) -> Result<((usize, T::Key), usize), Refused<V>> {
        let slot = self.slot_of(key);
        let len = self.storage.insert_absent(slot, value)?;
        Ok((slot, len))
    }

    fn search(&mut self, key: &[u8]) -> Result<IndexCursor<'_, Index<T, V, P>>, Option<Fault>> {
        cursor_of!(self, self.reach(key))
    }

    fn search_or_insert(
        &mut self,
        key: &[u8],
        value: V,
    ) -> Result<IndexCursor<'_, Index<T, V, P>>, Option<Refused<V>>> {
        cursor_of!(self, self.reach_or_insert(key, value))
    }
}

impl<T: Translator, V: Drop, const P: usize> Unordered for Index<T, V, P> {
    ghost use Rattle.std.specs.Prelude.{◌≡◌, IfErr, OnOk};
    ghost use Rattle.key_index_flat.specs.Visits.{ByKey, IsBatch, Visits};
    ghost use Rattle.key_index_parts.specs.Ordered.{view};
    ghost use Rattle.key_index_parts.specs.laws.PrefixLaws.{prefix_reaches};

    ghost INSERT_FIRST = { false };

    ghost resettled = { λ x slot y. Resettles x.storage.standings slot.0 y.storage.standings };

    const INSERT_FIRST: bool = false;

    const LOOKUP_WARMS_UPDATE: bool = true;

    ghost reaches = { λ _ b h. prefix_reaches P b h };

    #[inline]
    fn get(&self, key: &[u8]) -> Values<'_, V> {
        self.storage.get(self.storage.slot_of(key))
    }

    /// Visits by index key and then by place, and takes memory for the places first.
    #[inline]
    fn get_many<B: Iterator + Drop, F: FnMut(usize, &V)>(
        &self,
        keys: B,
        visit: F,
    ) -> Result<(), Fault>
    where
        B::Item: AsSlice<u8> + Drop,
        requires batch { IsBatch B.Iterator keys }
        requires callable { F.IsAlwaysCallable visit }
        ensures seen { OnOk result (Visits ByKey B.Iterator B.Item.items keys
            (pair_cmp T.Key.cmp) (view self.now) F.FnMut visit) }
        ensures fault { IfErr result (λ f. f ≡ Fault.Memory) }
    {
        let probes = self.probes(keys)?;
        show_together(self, &probes, visit);
        Ok(())
    }

    #[inline]
    fn insert(&mut self, key: &[u8], value: V) -> Result<(), Refused<V>> {
        let slot = self.storage.slot_of(key);
        self.storage.insert(slot, value)
    }

    #[inline]
    fn insert_and_retain<F: FnMut(&V) -> bool>(
        &mut self,
        key: &[u8],
        value: V,
        should_retain: F,
    ) -> Result<(), Refused<V>> {
        let slot = self.storage.slot_of(key);
        self.storage.insert_and_retain(slot, value, should_retain)
    }

    #[inline]
    fn retain<F: FnMut(&V) -> bool>(&mut self, key: &[u8], should_retain: F) -> Result<(), Fault> {
        let slot = self.storage.slot_of(key);
        self.storage.retain(slot, should_retain)
    }

    #[inline]
    fn remove(&mut self, key: &[u8]) -> Result<(), Fault> {
        let slot = self.storage.slot_of(key);
        self.storage.remove(slot)
    }

    #[inline]
    fn keys(&self) -> usize {
        self.storage.keys()
    }

    #[inline]
    fn items(&self) -> usize {
        self.storage.items()
    }

    #[inline]
    fn pruned(&self) -> u64 {
        self.storage.pruned()
    }
}

impl<T: OrderedTranslator, V: Drop, const P: usize> Ordered for Index<T, V, P> {
    ghost use Rattle.key_index_parts.specs.laws.PrefixLaws.{slot_by-keeps_order};

    ghost keeps_order = { λ index. slot_by-keeps_order P T.Key.cmp (T.translated index.storage.translator)
        (T.keeps_order index.storage.translator) };

    #[inline]
    fn prev_translated_key(&self, key: &[u8]) -> Option<(Values<'_, V>, bool)> {
        self.storage.prev(self.storage.slot_of(key))
    }

    #[inline]
    fn next_translated_key(&self, key: &[u8]) -> Option<(Values<'_, V>, bool)> {
        self.storage.next(self.storage.slot_of(key))
    }

    #[inline]
    fn first_translated_key(&self) -> Option<Values<'_, V>> {
        let (_, values) = self.storage.first()?;
        Some(values)
    }

    #[inline]
    fn last_translated_key(&self) -> Option<Values<'_, V>> {
        self.storage.last()
    }
}

impl<T: OrderedTranslator, V: Drop, const P: usize> OrderedLists for Index<T, V, P> {
    #[inline]
    fn first_entry(&self) -> Option<((usize, T::Key), Values<'_, V>)> {
        self.storage.first()
    }

    #[inline]
    fn entry_above(&self, slot: (usize, T::Key)) -> Option<((usize, T::Key), Values<'_, V>)> {
        self.storage.above(slot)
    }
}

impl<T: Translator, V: Drop, const P: usize> fmt::Debug for Index<T, V, P> {
    /// Shows how many keys and values it holds and how many were removed.
    fn fmt<W: fmt::Write>(&self, f: &mut fmt::Formatter<W>) -> fmt::Result {
        show_counts(self, "Index", f)
    }
}

impl<T: Translator, V: Drop, const P: usize> Factory for Index<T, V, P> {
    ghost use Rattle.std.specs.Prelude.{◌≡◌, ◌≤◌, [], IfErr, IfOk};
    ghost use Rattle.key_index_parts.specs.Ordered.{standings, view};
    ghost use Rattle.key_index_parts.specs.Standing.{new_standings};

    type Translator = T;

    ghost slot_by = { λ translator. slot_by P (T.translated translator) };

    ghost makes = { (1 ≤ P) × (P ≤ 3) };

    /// Takes the room of all partitions at once, and answers `Memory` where that is refused. A partition spills at 512 values.
    fn new(alloc: Global, translator: T) -> Result<Index<T, V, P>, Fault>
        requires { (1 ≤ P) × (P ≤ 3) }
        ensures empty { IfOk result (λ index. (view index).content ≡ []) }
        ensures pruned { IfOk result (λ index. (view index).pruned ≡ 0) }
        ensures slots { IfOk result (λ index. (view index).slot ≡ slot_by P (T.translated translator)) }
        ensures standing { IfOk result (λ index. standings index ≡ new_standings 512 (partition_count P)) }
        ensures fault { IfErr result (λ f. f ≡ Fault.Memory) }
    {
        Index::with_threshold(alloc, translator, THRESHOLD)
    }
}

impl<T: Translator, V: Drop, const P: usize> Partitioned for Index<T, V, P> {
    ghost use Rattle.std.proofs.Common.{refl};
    ghost use Rattle.std.specs.Prelude.{◌≡◌, ◌+◌, ◌≤◌, [], IfErr, IfOk, OnErr, OnOk};
    ghost use Rattle.key_index_flat.specs.View.{items_in};
    ghost use Rattle.key_index_parts.specs.Joined.{IsFree, install_fault, joined_view};
    ghost use Rattle.key_index_parts.specs.Ordered.{standings, view};
    ghost use Rattle.key_index_parts.specs.laws.PrefixLaws.{partition_by-made, partition_by-below};
    ghost use Rattle.key_index_parts.specs.Range.{range_count, range_offset, range_standings, range_view};
    ghost use Rattle.key_index_parts.specs.Standing.{joined_standings, new_standings};

    type Range = RangeIndex<T, V, P>;

    ghost partitions = { partition_count P };

    ghost partition = { λ slot. slot.0 };

    ghost prefix = { partition_by P };

    ghost one_end = { refl };

    ghost files = { λ index b _. partition_by-made P b index.is_index.least index.is_index.greatest };

    ghost within = { λ b h. partition_by-below P b h };

    ghost covered = { λ _ _. refl };

    #[inline]
    fn partition_count(&self) -> usize {
        self.storage.len()
    }

    #[inline]
    fn partition_of(key: &[u8]) -> usize {
        // A type with another number of bytes has no index, and no partition either.
        if P < 1 || P > 3 {
            return 0;
        }
        let (partition, _) = partition_index_and_sub_key::<P>(key);
        partition
    }

    fn partition_is_empty(&self, number: usize) -> bool {
        self.storage.is_free(number, 1)
    }

    /// The range has the index's threshold.
    fn new_range(&self, offset: usize, count: usize) -> Result<RangeIndex<T, V, P>, Fault>
        requires { offset + count ≤ partition_count P }
        ensures empty { IfOk result (λ r. (range_view r).content ≡ []) }
        ensures pruned { IfOk result (λ r. (range_view r).pruned ≡ 0) }
        ensures slots { IfOk result (λ r. (range_view r).slot ≡ (view self.now).slot) }
        ensures offset { IfOk result (λ r. range_offset r ≡ offset) }
        ensures count { IfOk result (λ r. range_count r ≡ count) }
        ensures standing { IfOk result (λ r. range_standings r ≡ new_standings (standings self.now).threshold count) }
        ensures fault { IfErr result (λ f. f ≡ Fault.Memory) }
    {
        let storage = self.storage.new_range(count)?;
        Ok(range::RangeIndex { offset, storage })
    }

    fn can_install(&self, range: &RangeIndex<T, V, P>) -> bool {
        self.storage.is_free(range.offset, range.storage.len())
    }

    /// It takes no memory, and is refused only where the index would hold more than `usize::MAX` values. Each partition stands as in the
    /// range, and the range's spills are added.
    fn install_range(
        &mut self,
        range: RangeIndex<T, V, P>,
    ) -> Result<(), (RangeIndex<T, V, P>, Fault)>
        requires { IsFree (pair_cmp T.Key.cmp) (range_view range).admitted (view self.old).content }
        ensures fits { IfErr result (λ _. usize.MAX < items_in (view self.old) + items_in (range_view range)) }
        ensures accepted { OnOk result (view self.new
            ≡ joined_view (pair_cmp T.Key.cmp) (view self.old) (range_view range)) }
        ensures standing { OnOk result (standings self.new
            ≡ joined_standings (standings self.old) (range_offset range) (range_standings range)) }
        ensures refused { OnErr result (view self.new ≡ view self.old) }
        ensures stands { OnErr result (standings self.new ≡ standings self.old) }
        ensures room { OnOk result (items_in (view self.old) + items_in (range_view range) ≤ usize.MAX) }
        ensures returned { IfErr result (λ e. e.0 ≡ range) }
        ensures fault { IfErr result (λ e. e.1
            ≡ install_fault (items_in (view self.old)) (items_in (range_view range))) }
    {
        if !self.storage.has_room(&range.storage) {
            return Err((range, Fault::Full));
        }
        self.storage.install(range.offset, range.storage);
        Ok(())
    }
}
