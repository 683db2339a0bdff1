//! A bucket as sorted arrays.
ghost use Rattle.std.specs.Prelude.{◌≡◌, [], false};
ghost use Rattle.key_index_flat.specs.Content.{item_count, list_at};
ghost use Rattle.key_index_parts.specs.Pairs.{grouped};

use super::{Contents, EditBucket, OrderedBucket, ReadBucket, Representation};
use crate::index::partitioned::ordered::partition::Partition;
use key_index_flat::index::Values;
use key_index_flat::index::implement::Retained;
use key_index_flat::translator::Translator;
use std::alloc::Global;

/// A bucket as sorted arrays: each key once for each of its values.
#[derive(Drop)]
pub struct SortedArrays<T: Translator, V> {
    pub(super) pairs: Partition<T::Key, V>,
}

impl<T: Translator, V: Drop> SortedArrays<T, V> {
    /// SortedArrays that hold nothing. Takes no memory.
    #[inline]
    pub(super) fn new(alloc: Global) -> SortedArrays<T, V>
        ensures pairs { result.pairs.pairs ≡ [] }
        ensures room { result.pairs.room ≡ 0 }
    {
        SortedArrays {
            pairs: Partition::new(alloc),
        }
    }

    /// Where the arrays take their memory.
    #[inline]
    pub(super) fn alloc(&self) -> Global {
        self.pairs.alloc()
    }

    /// The values of a key, by a guess how many keys are below.
    #[inline]
    pub(super) fn run_near(&self, key: T::Key, guess: usize) -> &[V]
        ensures { result.now ≡ list_at T.Key.cmp (grouped T.Key.cmp self.now.pairs.pairs) key }
    {
        self.pairs.values_near(guess, &key)
    }

    /// How many values stand in the arrays.
    pub(super) fn len(&self) -> usize
        ensures { result ≡ item_count (grouped T.Key.cmp self.now.pairs.pairs) }
    {
        self.pairs.len()
    }
}

impl<T: Translator, V> Contents<T, V> for SortedArrays<T, V> {
    ghost use Rattle.key_index_parts.specs.laws.PairLaws.{IsLawful-grouped};
    ghost use Rattle.key_index_parts.specs.laws.StandingLaws.{inline_filled};

    ghost content = { λ bucket. grouped T.Key.cmp bucket.pairs.pairs };

    ghost spilled = { λ _. false };

    ghost lawful = { λ bucket. IsLawful-grouped T.Key.total bucket.pairs.pairs };

    ghost filled = { λ bucket h. inline_filled (item_count (grouped T.Key.cmp bucket.pairs.pairs)) h };
}

impl<T: Translator, V: Drop> ReadBucket<T, V> for SortedArrays<T, V> {
    #[inline]
    fn is_empty(&self) -> bool {
        self.pairs.is_empty()
    }

    #[inline]
    fn get(&self, key: T::Key) -> Values<'_, V> {
        Values::of_slice(self.pairs.values(&key))
    }

    #[inline]
    fn run_len(&self, key: T::Key) -> usize {
        let run = self.pairs.run_range(&key);
        run.end - run.start
    }

    #[inline]
    fn value_at(&self, key: T::Key, place: usize) -> &V {
        let run = self.pairs.run_range(&key);
        self.pairs.value_at(run.start + place)
    }

    fn for_each_value<F: FnMut(&V)>(&self, visit: &mut F) {
        let mut rest = self.pairs.values_iter().as_slice();
        while let Some((value, behind)) = rest.split_first() {
            visit(value);
            rest = behind;
        }
    }
}

impl<T: Translator, V: Drop> EditBucket<T, V> for SortedArrays<T, V> {
    fn set_at(&mut self, key: T::Key, place: usize, value: V) {
        let run = self.pairs.run_range(&key);
        self.pairs.set(run.start + place, value);
    }

    fn insert_at(&mut self, key: T::Key, place: usize, value: V) -> Result<bool, V> {
        let run = self.pairs.run_range(&key);
        match self.pairs.insert_at(run.start + place, key, value) {
            Ok(()) => Ok(run.start == run.end),
            Err(refused) => Err(refused.value),
        }
    }

    fn remove_at(&mut self, key: T::Key, place: usize) -> (V, usize) {
        let run = self.pairs.run_range(&key);
        let value = self.pairs.remove(run.start + place);
        (value, run.end - run.start - 1)
    }
}

impl<T: Translator, V: Drop> Representation<T, V> for SortedArrays<T, V> {
    fn insert(&mut self, key: T::Key, value: V) -> Result<bool, V> {
        let run = self.pairs.run_range(&key);
        let behind = run.end;
        match self.pairs.insert_at(behind, key, value) {
            Ok(()) => Ok(run.start == run.end),
            Err(refused) => Err(refused.value),
        }
    }

    #[inline(always)]
    fn retain<F: FnMut(&V) -> bool>(
        &mut self,
        key: T::Key,
        new: &mut Option<V>,
        should_retain: F,
    ) -> Result<Retained, V> {
        let run = self.pairs.run_range(&key);
        let had = run.end - run.start;
        let Some(value) = new.take() else {
            let (left, _) = self.pairs.retain_run(key, run, should_retain);
            let taken = had - left;
            return Ok(Retained { had, left, taken });
        };
        if self.pairs.reserve(1).is_err() {
            return Err(value);
        }
        let (left, stays) = self.pairs.retain_run_with(key, run, value, should_retain);
        let taken = had - (left - usize::from(stays));
        Ok(Retained { had, left, taken })
    }

    fn remove(&mut self, key: T::Key) -> usize {
        let run = self.pairs.run_range(&key);
        let taken = run.end - run.start;
        self.pairs.remove_run(run);
        taken
    }
}

impl<T: Translator, V: Drop> OrderedBucket<T, V> for SortedArrays<T, V> {
    #[inline]
    fn first(&self) -> Option<(T::Key, Values<'_, V>)> {
        let (key, values) = self.pairs.first_entry()?;
        Some((key, Values::of_slice(values)))
    }

    #[inline]
    fn last(&self) -> Option<Values<'_, V>> {
        match self.pairs.last_values() {
            Some(values) => Some(Values::of_slice(values)),
            None => None,
        }
    }

    #[inline(always)]
    fn above(&self, key: T::Key) -> Option<(T::Key, Values<'_, V>)> {
        let (key, values) = self.pairs.next_entry_after(&key)?;
        Some((key, Values::of_slice(values)))
    }

    #[inline]
    fn below(&self, key: T::Key) -> Option<Values<'_, V>> {
        match self.pairs.prev_values_before(&key) {
            Some(values) => Some(Values::of_slice(values)),
            None => None,
        }
    }
}
