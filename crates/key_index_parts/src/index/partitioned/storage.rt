//! What an index over partitions keeps, over any kind of bucket. A call goes by slot: a bucket's number and a key of that bucket.
ghost use Rattle.std.specs.Prelude.{◌≡◌, ◌↔◌, ℕ, ◌+◌, ◌<◌, ◌≤◌, ◌&&◌, IsTrue, false, nat_lt, [], ◌∷◌, length, map, take, drop, slice_get, slice_set, insert, remove, Some, is_some, IfSome, IfOk, IfErr, OnOk, OnErr};
ghost use Rattle.std.specs.Bool.{Decides};
ghost use Rattle.std.specs.Fn.{CalledAt};
ghost use Rattle.key_index_flat.specs.Content.{IsLawful, item_count, key_count};
ghost use Rattle.key_index_flat.specs.Fault.{growth_fault, IsWant};
ghost use Rattle.key_index_flat.specs.Neighbours.{entries_above, first_entry, last_list, next_list, prev_list};
ghost use Rattle.key_index_flat.specs.View.{put_value, InsertsAndRetains, Retains, RetainsWith};
ghost use Rattle.key_index_flat.specs.Values.{VisitsEach, values_of};
ghost use Rattle.key_index_parts.specs.Buckets.{KeepsRange, Kept, IsCounted, IsLeft, KeepsBuckets, Edits, Prunes, SameContent, held_at, bucket_at, filled_buckets, standings_with, view_of, view_from, with_items_from};
ghost use Rattle.key_index_parts.specs.Gathered.{gathered, gathered_from, pair_cmp};
ghost use Rattle.key_index_parts.specs.Joined.{IsFree, is_between, joined_view};
ghost use Rattle.key_index_parts.specs.Moves.{IsRangeWithin, IsWithin, entries_in};
ghost use Rattle.key_index_parts.specs.Prefix.{partition_count, slot_by};
ghost use Rattle.key_index_parts.specs.Standing.{Leaves, Resettles, Settles, entries_at, inline_len, is_reached, joined_standings, new_standings, spilled_in, standing_at};

use super::bitmap::Bitmap;
use super::bucket::sorted_bucket::SortedBucket;
use super::bucket::{Bucket, Contents, EditBucket, OrderedBucket, ReadBucket};
use super::counts::{Counts, Moves};
use super::partition_index_and_sub_key;
use key_index_flat::index::implement::Retained;
use key_index_flat::index::{Fault, Refused, Values};
use key_index_flat::translator::Translator;
use std::alloc::Global;
use std::marker::{Model, PhantomData};

/// An index over `256^P` buckets: a translator, the buckets and which of them hold anything, the counts of them all, and what their moves
/// came to. Contracts see all of it but what follows from what the buckets hold.
///
/// A call by key lets its bucket pay for its own moves, and accounts for what the bucket tells. `set_at`, `insert_at` and `remove_at` are
/// for cursors, and move nothing.
#[derive(Drop)]
pub(super) struct Storage<T: Translator, V, X: Contents<T, V>, const P: usize> {
    translator: T,
    buckets: Vec<X>,
    filled: Bitmap,
    counts: Counts,
    moves: Moves,
    lists: PhantomData<V>,
    ghost within: { IsWithin (standings_with X.content X.spilled buckets.items moves) counts.pruned },
}

impl<T: Translator, V, X: Contents<T, V>, const P: usize> Model for Storage<T, V, X, P> {
    ghost Value = { Kept T T.Key V };

    ghost view = { λ s. record {
      translator = s.translator;
      buckets = map X.content s.buckets.items;
      pruned = s.counts.pruned;
      standings = standings_with X.content X.spilled s.buckets.items s.moves;
    } };

    ghost invariant = { λ s. IsCounted T.Key.cmp P (map X.content s.buckets.items) s.counts.items s.counts.keys
        × (s.filled ≡ filled_buckets (map X.content s.buckets.items)) };
}

impl<T: Translator, V: Drop, X: Contents<T, V> + Drop, const P: usize> Storage<T, V, X, P> {
    /// How many buckets there are.
    #[inline]
    pub(super) fn len(&self) -> usize
        ensures { result ≡ length self.now.buckets }
    {
        self.buckets.len()
    }

    /// Whether none of so many buckets from a number on holds anything.
    pub(super) fn is_free(&self, first: usize, count: usize) -> bool
        ensures { IsTrue result ↔ IsFree (pair_cmp T.Key.cmp) (λ slot. is_between first (first + count) slot.0)
            (gathered self.now.buckets) }
    {
        match self.filled.first_from(first) {
            Some(number) => number - first >= count,
            None => true,
        }
    }

    /// Whether it holds as many values as it can.
    #[inline]
    fn is_full(&self) -> bool
        ensures full { IsTrue result → item_count (gathered self.now.buckets) ≡ usize.MAX }
        ensures room { result ≡ false → item_count (gathered self.now.buckets) < usize.MAX }
        ensures kept { KeepsBuckets T.Key.cmp self.now.buckets self.now.buckets }
    {
        self.counts.items == usize::MAX
    }

    /// Whether it can hold the values of a range beside its own.
    pub(super) fn has_room(&self, range: &Storage<T, V, X, P>) -> bool
        ensures { Decides result
            (item_count (gathered self.now.buckets) + item_count (gathered range.now.buckets) ≤ usize.MAX) }
    {
        range.counts.items <= usize::MAX - self.counts.items
    }

    #[inline]
    pub(super) fn threshold(&self) -> usize
        ensures count { result ≡ self.now.standings.threshold }
        ensures least { 1 ≤ result }
    {
        self.moves.threshold
    }

    #[inline]
    pub(super) fn spills(&self) -> u64
        ensures { result ≡ self.now.standings.spills }
    {
        self.moves.spills
    }

    #[inline]
    pub(super) fn moved(&self) -> u64
        ensures count { result ≡ self.now.standings.moved }
        ensures entries { entries_in self.now.standings ≡ item_count (gathered self.now.buckets) }
        ensures bound { IsWithin self.now.standings self.now.pruned }
    {
        self.moves.moved
    }

    #[inline(always)]
    pub(super) fn slot_of(&self, key: &[u8]) -> (usize, T::Key)
        ensures slot { result ≡ slot_by P (T.translated self.now.translator) key.now }
        ensures within { result.0 < partition_count P }
    {
        let translator = &self.translator;
        let (number, sub_key) = partition_index_and_sub_key::<P>(key);
        (number, translator.transform(sub_key))
    }

    /// Whether there is a bucket for the slot.
    #[inline]
    pub(super) fn admits(&self, slot: (usize, T::Key)) -> bool
        ensures { result ≡ nat_lt slot.0 (length self.now.buckets) }
    {
        slot.0 < self.buckets.len()
    }

    /// Where the buckets take their memory.
    #[inline]
    pub(super) fn alloc(&self) -> Global {
        *self.buckets.allocator()
    }

    #[inline]
    pub(super) fn keys(&self) -> usize
        ensures { result ≡ key_count (gathered self.now.buckets) }
    {
        self.counts.keys
    }

    #[inline]
    pub(super) fn items(&self) -> usize
        ensures { result ≡ item_count (gathered self.now.buckets) }
    {
        self.counts.items
    }

    #[inline]
    pub(super) fn pruned(&self) -> u64
        ensures { result ≡ self.now.pruned }
    {
        self.counts.pruned
    }
}

/// Puts buckets, as they stand, in the place of those from a number on.
fn install_buckets<T: Translator, V: Drop, X: ReadBucket<T, V> + Drop>(
    buckets: &mut Vec<X>,
    filled: &mut Bitmap,
    first: usize,
    others: Vec<X>,
)
    requires fits { first + length others.items ≤ length buckets.old.items }
    requires most { length buckets.old.items ≤ partition_count 3 }
    requires filled { filled.old ≡ filled_buckets (map X.content buckets.old.items) }
    ensures buckets { buckets.new.items ≡ with_items_from buckets.old.items first others.items }
    ensures filled { filled.new ≡ filled_buckets (map X.content buckets.new.items) }
{
    let mut rest = others.into_iter();
    let mut number = first;
    while let Some(bucket) = rest.next() {
        filled.set(number, !bucket.is_empty());
        buckets[number] = bucket;
        number += 1;
    }
}

impl<T: Translator, V: Drop, X: ReadBucket<T, V> + Drop, const P: usize> Storage<T, V, X, P> {
    /// Puts the buckets of a range, as they stand, in the place of those from a number on, which hold nothing, and adds its counts.
    pub(super) fn install(&mut self, first: usize, range: Storage<T, V, X, P>)
        requires fits { first + length range.buckets ≤ length self.old.buckets }
        requires free { IsFree (pair_cmp T.Key.cmp) (view_from P T.translated first range).admitted
            (gathered self.old.buckets) }
        requires room { item_count (gathered self.old.buckets) + item_count (gathered range.buckets) ≤ usize.MAX }
        requires within { IsRangeWithin range.standings range.pruned }
        ensures joined { view_of P T.translated self.new ≡ joined_view (pair_cmp T.Key.cmp)
            (view_of P T.translated self.old) (view_from P T.translated first range) }
        ensures kept { KeepsBuckets T.Key.cmp self.old.buckets self.new.buckets }
        ensures standing { self.new.standings ≡ joined_standings self.old.standings first range.standings }
    {
        self.counts.join(range.counts);
        self.moves.join(range.moves);
        install_buckets::<T, V, X>(&mut self.buckets, &mut self.filled, first, range.buckets);
    }

    /// Visits each value once, in no certain order.
    pub(super) fn for_each_value<F: FnMut(&V)>(&self, visit: &mut F)
        requires { F.IsAlwaysCallable visit.old }
        ensures { VisitsEach (CalledAt F.FnMut) visit.old (values_of (gathered self.now.buckets)) visit.new }
    {
        let mut rest = self.buckets.as_slice();
        while let Some((bucket, behind)) = rest.split_first() {
            bucket.for_each_value(visit);
            rest = behind;
        }
    }

    #[inline(always)]
    pub(super) fn run_len(&self, slot: (usize, T::Key)) -> usize
        ensures { result ≡ length (held_at T.Key.cmp self.now.buckets slot) }
    {
        match self.buckets.get(slot.0) {
            Some(bucket) => bucket.run_len(slot.1),
            None => 0,
        }
    }

    #[inline(always)]
    pub(super) fn value_at(&self, slot: (usize, T::Key), place: usize) -> &V
        requires { place < length (held_at T.Key.cmp self.now.buckets slot) }
        ensures { slice_get (held_at T.Key.cmp self.now.buckets slot) place ≡ Some result.now }
    {
        self.buckets[slot.0].value_at(slot.1, place)
    }

    /// The list at a slot, empty where there is no bucket for it.
    #[inline(always)]
    pub(super) fn list_at(&self, slot: (usize, T::Key)) -> Values<'_, V>
        ensures { result ≡ held_at T.Key.cmp self.now.buckets slot }
    {
        match self.buckets.get(slot.0) {
            Some(bucket) => bucket.get(slot.1),
            None => Values::of_slice(&[]),
        }
    }

    #[inline(always)]
    pub(super) fn get(&self, slot: (usize, T::Key)) -> Values<'_, V>
        requires { slot.0 < length self.now.buckets }
        ensures { result ≡ held_at T.Key.cmp self.now.buckets slot }
    {
        self.buckets[slot.0].get(slot.1)
    }
}

impl<T: Translator, V: Drop, X: EditBucket<T, V> + Drop, const P: usize> Storage<T, V, X, P> {
    #[inline]
    pub(super) fn set_at(&mut self, slot: (usize, T::Key), place: usize, value: V)
        requires { place < length (held_at T.Key.cmp self.old.buckets slot) }
        ensures edited { Edits T.Key.cmp P T.translated self.old slot (λ l. slice_set l place value) self.new }
        ensures standing { Leaves self.old.standings slot.0 self.new.standings }
        ensures kept { KeepsBuckets T.Key.cmp self.old.buckets self.new.buckets }
        ensures range_bound { KeepsRange self.old self.new }
    {
        self.buckets[slot.0].set_at(slot.1, place, value);
    }

    pub(super) fn insert_at(
        &mut self,
        slot: (usize, T::Key),
        place: usize,
        value: V,
    ) -> Result<(), Refused<V>>
        requires admits { slot.0 < length self.old.buckets }
        requires place { place ≤ length (held_at T.Key.cmp self.old.buckets slot) }
        ensures accepted { OnOk result (
            Edits T.Key.cmp P T.translated self.old slot (λ l. insert l place value) self.new) }
        ensures standing { OnOk result (Leaves self.old.standings slot.0 self.new.standings) }
        ensures room { OnOk result (item_count (gathered self.old.buckets) < usize.MAX) }
        ensures refused { OnErr result (self.new ≡ self.old) }
        ensures kept { KeepsBuckets T.Key.cmp self.old.buckets self.new.buckets }
        ensures returned { IfErr result (λ r. r.value ≡ value) }
        ensures fault { IfErr result (λ r. r.fault ≡ growth_fault (item_count (gathered self.old.buckets))) }
        ensures range_bound { KeepsRange self.old self.new }
    {
        if self.is_full() {
            return Err(Refused::full(value));
        }
        match self.buckets[slot.0].insert_at(slot.1, place, value) {
            Ok(absent) => {
                self.filled.set_if(absent, slot.0, true);
                self.counts.gain(absent);
                Ok(())
            }
            Err(value) => Err(Refused::memory(value)),
        }
    }

    pub(super) fn remove_at(&mut self, slot: (usize, T::Key), place: usize) -> V
        requires { place < length (held_at T.Key.cmp self.old.buckets slot) }
        ensures value { slice_get (held_at T.Key.cmp self.old.buckets slot) place ≡ Some result }
        ensures edited { Prunes T.Key.cmp P T.translated self.old slot (λ l. remove l place) 1 self.new }
        ensures standing { Leaves self.old.standings slot.0 self.new.standings }
        ensures kept { KeepsBuckets T.Key.cmp self.old.buckets self.new.buckets }
        ensures range_bound { KeepsRange self.old self.new }
    {
        let bucket = &mut self.buckets[slot.0];
        let (value, left) = bucket.remove_at(slot.1, place);
        let emptied = bucket.is_empty();
        self.filled.set_if(emptied, slot.0, false);
        let had = left + 1;
        let taken = 1;
        self.counts.change(Retained { had, left, taken });
        value
    }
}

impl<T: Translator, V: Drop, X: Bucket<T, V> + Drop, const P: usize> Storage<T, V, X, P> {
    /// Takes the room of so many buckets at once, and answers `Memory` where that is refused.
    pub(super) fn new(
        alloc: Global,
        translator: T,
        count: usize,
        threshold: usize,
    ) -> Result<Storage<T, V, X, P>, Fault>
        requires least { 1 ≤ P }
        requires greatest { P ≤ 3 }
        requires threshold { 1 ≤ threshold }
        requires count { count ≤ partition_count P }
        ensures translator { IfOk result (λ s. s.translator ≡ translator) }
        ensures sized { IfOk result (λ s. length s.buckets ≡ count) }
        ensures content { IfOk result (λ s. gathered s.buckets ≡ []) }
        ensures lawful { IfOk result (λ s. IsLawful (pair_cmp T.Key.cmp) (gathered s.buckets)) }
        ensures pruned { IfOk result (λ s. s.pruned ≡ 0) }
        ensures standing { IfOk result (λ s. s.standings ≡ new_standings threshold count) }
        ensures fault { IfErr result (λ fault. fault ≡ Fault.Memory) }
    {
        let (Ok(mut buckets), Ok(filled)) = (
            Vec::with_capacity(alloc, count),
            Bitmap::new(alloc, count),
        ) else {
            return Err(Fault::Memory);
        };
        for _ in 0..count {
            buckets.push_reserved(X::new(alloc, translator));
        }
        Ok(Storage {
            translator,
            buckets,
            filled,
            counts: Counts {
                items: 0,
                keys: 0,
                pruned: 0,
            },
            moves: Moves {
                threshold,
                spills: 0,
                moved: 0,
            },
            lists: PhantomData,
        })
    }

    /// Another one with the same translator and threshold, over so many buckets that hold nothing. Takes their room at once.
    pub(super) fn new_range(&self, count: usize) -> Result<Storage<T, V, X, P>, Fault>
        requires { count ≤ partition_count P }
        ensures translator { IfOk result (λ s. s.translator ≡ self.now.translator) }
        ensures sized { IfOk result (λ s. length s.buckets ≡ count) }
        ensures content { IfOk result (λ s. gathered s.buckets ≡ []) }
        ensures lawful { IfOk result (λ s. IsLawful (pair_cmp T.Key.cmp) (gathered s.buckets)) }
        ensures pruned { IfOk result (λ s. s.pruned ≡ 0) }
        ensures standing { IfOk result (λ s. s.standings ≡ new_standings self.now.standings.threshold count) }
        ensures fault { IfErr result (λ fault. fault ≡ Fault.Memory) }
    {
        Storage::new(self.alloc(), self.translator, count, self.moves.threshold)
    }

    /// Spills a bucket that is due.
    #[inline]
    pub(super) fn settle(&mut self, number: usize) -> Result<(), Fault>
        requires { number < length self.old.buckets }
        ensures settles { OnOk result (IsTrue X.SPILLS → Settles self.old.standings number self.new.standings) }
        ensures same { SameContent self.old self.new }
        ensures refused { OnErr result (self.new ≡ self.old) }
        ensures want { IfErr result (λ f. IsWant f (X.SPILLS && is_reached self.old.standings number)) }
        ensures kept { KeepsBuckets T.Key.cmp self.old.buckets self.new.buckets }
        ensures range_bound { KeepsRange self.old self.new }
    {
        let Ok(()) = self.buckets[number].settle(&mut self.moves) else {
            return Err(Fault::Memory);
        };
        Ok(())
    }

    /// Puts a value in at its end of a slot's list.
    pub(super) fn insert(&mut self, slot: (usize, T::Key), value: V) -> Result<(), Refused<V>>
        requires { slot.0 < length self.old.buckets }
        ensures accepted { OnOk result (
            Edits T.Key.cmp P T.translated self.old slot (put_value X.FIRST value) self.new) }
        ensures settled { OnOk result (IsTrue X.SPILLS → Settles self.old.standings slot.0 self.new.standings) }
        ensures room { OnOk result (item_count (gathered self.old.buckets) < usize.MAX) }
        ensures refused { OnErr result (SameContent self.old self.new) }
        ensures left { OnErr result (IsLeft X.SPILLS self.old slot.0 self.new) }
        ensures kept { KeepsBuckets T.Key.cmp self.old.buckets self.new.buckets }
        ensures returned { IfErr result (λ r. r.value ≡ value) }
        ensures fault { IfErr result (λ r. r.fault ≡ growth_fault (item_count (gathered self.old.buckets))) }
        ensures range_bound { KeepsRange self.old self.new }
    {
        if self.is_full() {
            return Err(Refused::full(value));
        }
        match self.buckets[slot.0].insert(slot.1, value, &mut self.moves) {
            Ok(absent) => {
                self.filled.set_if(absent, slot.0, true);
                self.counts.gain(absent);
                Ok(())
            }
            Err(value) => Err(Refused::memory(value)),
        }
    }

    /// Puts a value under a slot that has none, and tells how many values the slot had.
    pub(super) fn insert_absent(
        &mut self,
        slot: (usize, T::Key),
        value: V,
    ) -> Result<usize, Refused<V>>
        requires { slot.0 < length self.old.buckets }
        ensures found { IfOk result (λ n. 0 < n → SameContent self.old self.new) }
        ensures inserted { IfOk result (λ n. n ≡ 0 →
            Edits T.Key.cmp P T.translated self.old slot (λ _. value ∷ []) self.new) }
        ensures settled { OnOk result (IsTrue X.SPILLS → Settles self.old.standings slot.0 self.new.standings) }
        ensures len { IfOk result (λ n. n ≡ length (held_at T.Key.cmp self.old.buckets slot)) }
        ensures room { OnOk result (item_count (gathered self.old.buckets) < usize.MAX) }
        ensures refused { OnErr result (SameContent self.old self.new) }
        ensures left { OnErr result (IsLeft X.SPILLS self.old slot.0 self.new) }
        ensures kept { KeepsBuckets T.Key.cmp self.old.buckets self.new.buckets }
        ensures returned { IfErr result (λ r. r.value ≡ value) }
        ensures fault { IfErr result (λ r. r.fault ≡ growth_fault (item_count (gathered self.old.buckets))) }
        ensures range_bound { KeepsRange self.old self.new }
    {
        if self.is_full() {
            return Err(Refused::full(value));
        }
        match self.buckets[slot.0].insert_absent(slot.1, value, &mut self.moves) {
            Ok(0) => {
                self.filled.set(slot.0, true);
                self.counts.gain(true);
                Ok(0)
            }
            Ok(had) => Ok(had),
            Err(value) => Err(Refused::memory(value)),
        }
    }

    /// Puts a value in behind those of a slot, calls the closure once for each of them, in list order, and removes those for which it
    /// returns false.
    pub(super) fn insert_and_retain<F: FnMut(&V) -> bool>(
        &mut self,
        slot: (usize, T::Key),
        value: V,
        should_retain: F,
    ) -> Result<(), Refused<V>>
        requires within { slot.0 < length self.old.buckets }
        requires callable { F.IsAlwaysCallable should_retain }
        ensures accepted { OnOk result ((taken : ℕ) × InsertsAndRetains (pair_cmp T.Key.cmp) (CalledAt F.FnMut)
            should_retain (view_of P T.translated self.old) slot value taken (view_of P T.translated self.new)) }
        ensures settled { OnOk result (IsTrue X.SPILLS → Resettles self.old.standings slot.0 self.new.standings) }
        ensures room { OnOk result (item_count (gathered self.old.buckets) < usize.MAX) }
        ensures refused { OnErr result (SameContent self.old self.new) }
        ensures left { OnErr result (IsLeft X.SPILLS self.old slot.0 self.new) }
        ensures kept { KeepsBuckets T.Key.cmp self.old.buckets self.new.buckets }
        ensures returned { IfErr result (λ r. r.value ≡ value) }
        ensures fault { IfErr result (λ r. r.fault ≡ growth_fault (item_count (gathered self.old.buckets))) }
    {
        if self.is_full() {
            return Err(Refused::full(value));
        }
        let bucket = &mut self.buckets[slot.0];
        let mut new = Some(value);
        match bucket.retain(slot.1, &mut new, should_retain, &mut self.moves) {
            Ok(told) => {
                let none_left = bucket.is_empty();
                self.filled.set(slot.0, !none_left);
                self.counts.change(told);
                Ok(())
            }
            Err(back) => Err(Refused::memory(back.unwrap())),
        }
    }

    /// Calls the closure once for each value of a slot, in list order, and removes those for which it returns false.
    pub(super) fn retain<F: FnMut(&V) -> bool>(
        &mut self,
        slot: (usize, T::Key),
        should_retain: F,
    ) -> Result<(), Fault>
        requires within { slot.0 < length self.old.buckets }
        requires callable { F.IsAlwaysCallable should_retain }
        ensures retained { OnOk result (Retains (pair_cmp T.Key.cmp) (CalledAt F.FnMut) should_retain
            (view_of P T.translated self.old) slot (view_of P T.translated self.new)) }
        ensures settled { OnOk result (IsTrue X.SPILLS → Resettles self.old.standings slot.0 self.new.standings) }
        ensures refused { OnErr result (self.new ≡ self.old) }
        ensures want { IfErr result (λ f. IsWant f (X.SPILLS && is_reached self.old.standings slot.0)) }
        ensures kept { KeepsBuckets T.Key.cmp self.old.buckets self.new.buckets }
    {
        let bucket = &mut self.buckets[slot.0];
        let mut none = None;
        let Ok(told) = bucket.retain(slot.1, &mut none, should_retain, &mut self.moves) else {
            return Err(Fault::Memory);
        };
        let none_left = bucket.is_empty();
        self.filled.set_if(none_left, slot.0, false);
        self.counts.change(told);
        Ok(())
    }

    /// Removes a slot.
    pub(super) fn remove(&mut self, slot: (usize, T::Key)) -> Result<(), Fault>
        requires { slot.0 < length self.old.buckets }
        ensures removed { OnOk result (Prunes T.Key.cmp P T.translated self.old slot (λ _. [])
            (length (held_at T.Key.cmp self.old.buckets slot)) self.new) }
        ensures settled { OnOk result (IsTrue X.SPILLS → Resettles self.old.standings slot.0 self.new.standings) }
        ensures refused { OnErr result (self.new ≡ self.old) }
        ensures want { IfErr result (λ f. IsWant f (X.SPILLS && is_reached self.old.standings slot.0)) }
        ensures kept { KeepsBuckets T.Key.cmp self.old.buckets self.new.buckets }
    {
        let bucket = &mut self.buckets[slot.0];
        let Ok(had) = bucket.remove(slot.1, &mut self.moves) else {
            return Err(Fault::Memory);
        };
        let none_left = bucket.is_empty();
        self.filled.set_if(none_left, slot.0, false);
        let left = 0;
        let taken = had;
        self.counts.change(Retained { had, left, taken });
        Ok(())
    }
}

impl<T: Translator, V: Drop, const P: usize> Storage<T, V, SortedBucket<T, V>, P> {
    /// How many values of a bucket stand in arrays.
    #[inline]
    pub(super) fn inline_len(&self, number: usize) -> usize
        requires { number < length self.now.buckets }
        ensures len { result ≡ inline_len self.now.standings number }
        ensures entries { entries_at self.now.standings number ≡ item_count (bucket_at self.now.buckets number) }
        ensures listed { number < length self.now.standings.buckets }
    {
        self.buckets[number].inline_len()
    }

    #[inline]
    pub(super) fn is_spilled(&self, number: usize) -> bool
        requires { number < length self.now.buckets }
        ensures spilled { result ≡ (standing_at self.now.standings number).spilled }
        ensures filled { IsTrue result → 0 < item_count (bucket_at self.now.buckets number) }
        ensures listed { number < length self.now.standings.buckets }
    {
        self.buckets[number].is_spilled()
    }

    /// How many buckets are spilled. It looks at each.
    pub(super) fn spilled_count(&self) -> usize
        ensures { result ≡ spilled_in self.now.standings.buckets }
    {
        let mut rest = self.buckets.as_slice();
        let mut count = 0;
        while let Some((bucket, behind)) = rest.split_first() {
            count += usize::from(bucket.is_spilled());
            rest = behind;
        }
        count
    }

    /// A guess where the slot's values stand in their bucket, which has so many in arrays.
    #[inline(always)]
    pub(super) fn guess(&self, slot: (usize, T::Key), seen: usize) -> usize
        ensures { result ≤ seen }
    {
        match self.buckets.get(slot.0) {
            Some(bucket) => bucket.guess(slot.1, seen),
            None => 0,
        }
    }

    /// The list at a slot, by a guess where it stands. None where its bucket is spilled.
    #[inline(always)]
    pub(super) fn run_near(&self, slot: (usize, T::Key), guess: usize) -> Option<&[V]>
        ensures { IfSome result (λ run. run.now ≡ held_at T.Key.cmp self.now.buckets slot) }
    {
        self.buckets.get(slot.0)?.run_near(slot.1, guess)
    }
}

impl<T: Translator, V: Drop, X: OrderedBucket<T, V> + Drop, const P: usize> Storage<T, V, X, P> {
    /// The least slot of the buckets from a number on, with its list.
    fn first_from(&self, start: usize) -> Option<((usize, T::Key), Values<'_, V>)>
        ensures { result ≡ first_entry (gathered_from start (drop start self.now.buckets)) }
    {
        let number = self.filled.first_from(start)?;
        let (key, values) = self.buckets[number].first()?;
        Some(((number, key), values))
    }

    /// The list of the greatest key of the last bucket below a number that holds anything.
    fn last_below(&self, end: usize) -> Option<Values<'_, V>>
        ensures { result ≡ last_list (gathered (take end self.now.buckets)) }
    {
        match self.filled.last_below(end) {
            Some(number) => self.buckets[number].last(),
            None => None,
        }
    }

    #[inline]
    pub(super) fn first(&self) -> Option<((usize, T::Key), Values<'_, V>)>
        ensures { result ≡ first_entry (gathered self.now.buckets) }
    {
        self.first_from(0)
    }

    #[inline]
    pub(super) fn last(&self) -> Option<Values<'_, V>>
        ensures { result ≡ last_list (gathered self.now.buckets) }
    {
        self.last_below(self.buckets.len())
    }

    /// The least slot above one, with its list. There need be no bucket for the slot.
    #[inline]
    pub(super) fn above(&self, slot: (usize, T::Key)) -> Option<((usize, T::Key), Values<'_, V>)>
        ensures { result ≡ first_entry (entries_above (pair_cmp T.Key.cmp) (gathered self.now.buckets) slot) }
    {
        if slot.0 >= self.buckets.len() {
            return None;
        }
        match self.buckets[slot.0].above(slot.1) {
            Some(entry) => Some(((slot.0, entry.0), entry.1)),
            None => self.first_from(slot.0 + 1),
        }
    }

    pub(super) fn next(&self, slot: (usize, T::Key)) -> Option<(Values<'_, V>, bool)>
        requires { slot.0 < length self.now.buckets }
        ensures { result ≡ next_list (pair_cmp T.Key.cmp) (gathered self.now.buckets) slot }
    {
        if let Some((_, values)) = self.buckets[slot.0].above(slot.1) {
            return Some((values, false));
        }
        match self.first_from(slot.0 + 1) {
            Some((_, values)) => Some((values, false)),
            None => match self.first() {
                Some((_, values)) => Some((values, true)),
                None => None,
            },
        }
    }

    pub(super) fn prev(&self, slot: (usize, T::Key)) -> Option<(Values<'_, V>, bool)>
        requires { slot.0 < length self.now.buckets }
        ensures { result ≡ prev_list (pair_cmp T.Key.cmp) (gathered self.now.buckets) slot }
    {
        match self.buckets[slot.0].below(slot.1) {
            Some(values) => Some((values, false)),
            None => match self.last_below(slot.0) {
                Some(values) => Some((values, false)),
                None => match self.last() {
                    Some(values) => Some((values, true)),
                    None => None,
                },
            },
        }
    }
}
