//! A bucket as the lists of a flat unordered index, in the bucket's own place.
ghost use Rattle.std.specs.Prelude.{◌≡◌, ◌≤◌, true, false, not, length, insert, IfOk, IfErr, OnOk, OnErr};
ghost use Rattle.key_index_flat.specs.Content.{IsLawful, is_filled, item_count, list_at, with_list_by};

use super::{Bucket, Contents, EditBucket, ReadBucket};
use crate::index::partitioned::counts::Moves;
use key_index_flat::index::Values;
use key_index_flat::index::implement::{Front, ListMap, Retained, SmallMap};
use key_index_flat::translator::Translator;
use std::alloc::{AllocError, Global};

/// A bucket as lists whose newest values stand in one array while they are few.
#[derive(Drop)]
pub struct HashBucket<T: Translator, V> {
    lists: ListMap<T, V, SmallMap<T::Key, V>, Front>,
    ghost lawful: { IsLawful T.Key.cmp lists.content },
}

impl<T: Translator, V> Contents<T, V> for HashBucket<T, V> {
    ghost use Rattle.key_index_parts.specs.laws.StandingLaws.{inline_filled};

    ghost content = { λ bucket. bucket.lists.content };

    ghost spilled = { λ _. false };

    ghost lawful = { λ bucket. bucket.lawful };

    ghost filled = { λ bucket h. inline_filled (item_count bucket.lists.content) h };
}

impl<T: Translator, V: Drop> ReadBucket<T, V> for HashBucket<T, V> {
    #[inline]
    fn is_empty(&self) -> bool {
        self.lists.keys() == 0
    }

    #[inline(always)]
    fn get(&self, key: T::Key) -> Values<'_, V> {
        self.lists.get(key)
    }

    #[inline(always)]
    fn run_len(&self, key: T::Key) -> usize {
        self.lists.run_len(key)
    }

    #[inline(always)]
    fn value_at(&self, key: T::Key, place: usize) -> &V {
        self.lists.value_at(key, place)
    }

    fn for_each_value<F: FnMut(&V)>(&self, visit: &mut F) {
        self.lists.visit_values(visit);
    }
}

impl<T: Translator, V: Drop> EditBucket<T, V> for HashBucket<T, V> {
    #[inline(always)]
    fn set_at(&mut self, key: T::Key, place: usize, value: V) {
        self.lists.set_at(key, place, value);
    }

    fn insert_at(&mut self, key: T::Key, place: usize, value: V) -> Result<bool, V> {
        self.lists.insert_at(key, place, value)
    }

    #[inline]
    fn remove_at(&mut self, key: T::Key, place: usize) -> (V, usize) {
        self.lists.remove_at(key, place)
    }
}

impl<T: Translator, V: Drop> Bucket<T, V> for HashBucket<T, V> {
    ghost FIRST = { true };

    ghost SPILLS = { false };

    fn new(alloc: Global, _translator: T) -> HashBucket<T, V> {
        HashBucket {
            lists: ListMap::new(alloc, SmallMap::new(alloc)),
        }
    }

    #[inline]
    fn settle(&mut self, _moves: &mut Moves) -> Result<(), AllocError> {
        Ok(())
    }

    #[inline]
    fn insert(&mut self, key: T::Key, value: V, _moves: &mut Moves) -> Result<bool, V> {
        self.lists.insert(key, value)
    }

    fn insert_absent(&mut self, key: T::Key, value: V, _moves: &mut Moves) -> Result<usize, V> {
        self.lists.insert_absent(key, value)
    }

    #[inline(always)]
    fn retain<F: FnMut(&V) -> bool>(
        &mut self,
        key: T::Key,
        new: &mut Option<V>,
        should_retain: F,
        _moves: &mut Moves,
    ) -> Result<Retained, Option<V>> {
        match self.lists.retain(key, new.take(), should_retain) {
            Ok(told) => Ok(told),
            Err(value) => Err(Some(value)),
        }
    }

    fn remove(&mut self, key: T::Key, _moves: &mut Moves) -> Result<usize, AllocError> {
        Ok(self.lists.remove(key))
    }
}
