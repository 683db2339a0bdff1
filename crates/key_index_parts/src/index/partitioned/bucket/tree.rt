//! A bucket as lists by an ordered map, and how many values they have.
ghost use Rattle.std.specs.Prelude.{◌≡◌, false, []};
ghost use Rattle.key_index_flat.specs.Content.{IsLawful, item_count};
ghost use Rattle.key_index_flat.specs.Storage.{IsCounted};

use super::{Contents, EditBucket, OrderedBucket, ReadBucket, Representation};
use key_index_flat::index::Values;
use key_index_flat::index::implement::{Back, ListMap, Retained, TreeMap};
use key_index_flat::translator::Translator;
use std::alloc::Global;

/// A bucket as lists whose first values stand in an ordered map, and how many values there are: `usize::MAX` at most.
#[derive(Drop)]
pub struct Tree<T: Translator, V> {
    lists: ListMap<T, V, TreeMap<T::Key, V>, Back>,
    len: usize,
    ghost counted: { IsCounted T.Key.cmp lists.content len },
}

impl<T: Translator, V: Drop> Tree<T, V> {
    /// No values. Takes no memory.
    pub(super) fn new(alloc: Global) -> Tree<T, V>
        ensures { result.lists.content ≡ [] }
    {
        Tree::of_lists(ListMap::new(alloc, TreeMap::new(alloc)), 0)
    }

    /// The bucket that some lists are, with so many values in them.
    pub(super) fn of_lists(lists: ListMap<T, V, TreeMap<T::Key, V>, Back>, len: usize) -> Tree<T, V>
        requires { IsCounted T.Key.cmp lists.content len }
        ensures { result.lists ≡ lists }
    {
        Tree { lists, len }
    }

    /// The lists of the bucket.
    pub(super) fn into_lists(self) -> ListMap<T, V, TreeMap<T::Key, V>, Back>
        ensures { result ≡ self.lists }
    {
        self.lists
    }

    /// How many values the bucket has.
    #[inline]
    pub(super) fn len(&self) -> usize
        ensures { result ≡ item_count self.now.lists.content }
    {
        self.len
    }
}

impl<T: Translator, V> Contents<T, V> for Tree<T, V> {
    ghost use Rattle.key_index_parts.specs.laws.StandingLaws.{inline_filled};

    ghost content = { λ bucket. bucket.lists.content };

    ghost spilled = { λ _. false };

    ghost filled = { λ bucket h. inline_filled (item_count bucket.lists.content) h };

    ghost lawful = { λ bucket. bucket.counted.lawful };
}

impl<T: Translator, V: Drop> ReadBucket<T, V> for Tree<T, V> {
    #[inline]
    fn is_empty(&self) -> bool {
        self.lists.keys() == 0
    }

    #[inline]
    fn get(&self, key: T::Key) -> Values<'_, V> {
        self.lists.get(key)
    }

    // Calls by place, here and below, are not inlined, so that a partition that stands as arrays pays for none of their code.
    #[inline(never)]
    fn run_len(&self, key: T::Key) -> usize {
        self.lists.run_len(key)
    }

    #[inline(never)]
    fn value_at(&self, key: T::Key, place: usize) -> &V {
        self.lists.value_at(key, place)
    }

    fn for_each_value<F: FnMut(&V)>(&self, visit: &mut F) {
        self.lists.visit_in_order(visit);
    }
}

impl<T: Translator, V: Drop> EditBucket<T, V> for Tree<T, V> {
    #[inline(never)]
    fn set_at(&mut self, key: T::Key, place: usize, value: V) {
        self.lists.set_at(key, place, value);
    }

    fn insert_at(&mut self, key: T::Key, place: usize, value: V) -> Result<bool, V> {
        if self.len == usize::MAX {
            return Err(value);
        }
        let absent = self.lists.insert_at(key, place, value)?;
        self.len += 1;
        Ok(absent)
    }

    fn remove_at(&mut self, key: T::Key, place: usize) -> (V, usize) {
        let removed = self.lists.remove_at(key, place);
        self.len -= 1;
        removed
    }
}

impl<T: Translator, V: Drop> Representation<T, V> for Tree<T, V> {
    fn insert(&mut self, key: T::Key, value: V) -> Result<bool, V> {
        if self.len == usize::MAX {
            return Err(value);
        }
        let absent = self.lists.insert(key, value)?;
        self.len += 1;
        Ok(absent)
    }

    #[inline(always)]
    fn retain<F: FnMut(&V) -> bool>(
        &mut self,
        key: T::Key,
        new: &mut Option<V>,
        should_retain: F,
    ) -> Result<Retained, V> {
        if new.is_some() && self.len == usize::MAX {
            return Err(new.take().unwrap());
        }
        let told = self.lists.retain(key, new.take(), should_retain)?;
        self.len = self.len - told.had + told.left;
        Ok(told)
    }

    fn remove(&mut self, key: T::Key) -> usize {
        let taken = self.lists.remove(key);
        self.len -= taken;
        taken
    }
}

impl<T: Translator, V: Drop> OrderedBucket<T, V> for Tree<T, V> {
    #[inline]
    fn first(&self) -> Option<(T::Key, Values<'_, V>)> {
        self.lists.first()
    }

    #[inline]
    fn last(&self) -> Option<Values<'_, V>> {
        let (_, values) = self.lists.last()?;
        Some(values)
    }

    #[inline(always)]
    fn above(&self, key: T::Key) -> Option<(T::Key, Values<'_, V>)> {
        self.lists.above(key)
    }

    #[inline]
    fn below(&self, key: T::Key) -> Option<Values<'_, V>> {
        let (_, values) = self.lists.below(key)?;
        Some(values)
    }
}
