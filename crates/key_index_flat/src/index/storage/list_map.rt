//! The lists of an index: the first value of each index key in one map, and in another the tails of the lists that have more. An entry
//! whose key has one value then costs that key and that value alone.
ghost use Rattle.std.specs.Prelude.{◌≡◌, ◌+◌, ◌<◌, ◌≤◌, true, false, if◌then◌else◌, List, [], ◌∷◌, ◌++◌, length, slice_get, slice_set, insert, remove, Some, IfOk, IfErr, IfSome, IfNone, IsOk, OnOk, OnErr};
ghost use Rattle.std.specs.Fn.{CalledAt};
ghost use Rattle.std.specs.Map.Iter.{deref_pair};
ghost use Rattle.std.specs.Option.{option_map};
ghost use Rattle.key_index_flat.specs.Content.{key_count, lacks, list_at, with_list, with_list_by, IsLawful};
ghost use Rattle.key_index_flat.specs.Neighbours.{entries_above, entries_below, first_entry, last_entry, next_list, prev_list};
ghost use Rattle.key_index_flat.specs.Retention.{AsksWith};
ghost use Rattle.key_index_flat.specs.Storage.{KeptLists, added, content_of, list_of, tail_at, IsLinked};
ghost use Rattle.key_index_flat.specs.Values.{values_of, VisitsEach};
ghost use Rattle.key_index_flat.specs.View.{put_value};

use super::maps::{AnyMap, OrderedMap, pop_least};
use super::small_map::{Kept, SmallMap};
use super::tails::{Back, End, Tails};
use super::tree_key::TreeMap;
use crate::index::Values;
use crate::index::retain::Retained;
use crate::index::values::visit_in_turn;
use crate::translator::Translator;
use key_index_map::map::Map;
use key_index_map::table::Iter;
use std::alloc::{AllocError, Global};
use std::hash::Hash;
use std::marker::Model;

/// The first value of each index key's list in `heads`, and the others in `tails`. `insert` puts a value in at the end `E` of its list,
/// where that grows and shrinks without moving the other values. Contracts see the content that all of them stand for.
#[derive(Drop)]
pub struct ListMap<T: Translator, V, M: AnyMap<T::Key, V>, E: End> {
    heads: M,
    tails: Tails<T::Key, V, E>,
    alloc: Global,
}

impl<T: Translator, V, M: AnyMap<T::Key, V>, E: End> Model for ListMap<T, V, M, E> {
    ghost Value = { KeptLists T.Key V };

    ghost view = { λ c. record {
      content = content_of T.Key.cmp (M.entries c.heads) (tail_at E.FIRST T.Key.eq c.tails.map);
      spare = M.spare c.heads;
    } };

    ghost invariant = { λ c. IsLinked T.Key.cmp (M.entries c.heads) (tail_at E.FIRST T.Key.eq c.tails.map) };
}

impl<T: Translator, V: Drop, M: AnyMap<T::Key, V>, E: End> ListMap<T, V, M, E> {
    /// No values, over an empty map of first values.
    pub fn new(alloc: Global, heads: M) -> ListMap<T, V, M, E>
        requires { M.entries heads ≡ [] }
        ensures content { result.content ≡ [] }
    {
        ListMap {
            heads,
            tails: Tails::new(),
            alloc,
        }
    }

    /// Where the lists take their memory.
    #[inline]
    pub fn alloc(&self) -> Global {
        self.alloc
    }

    #[inline(always)]
    pub fn get(&self, slot: T::Key) -> Values<'_, V>
        ensures { result ≡ list_at T.Key.cmp self.now.content slot }
    {
        match self.heads.get(&slot) {
            Some(head) => self.tails.list(slot, head),
            None => Values::of_slice(&[]),
        }
    }

    #[inline(always)]
    pub fn run_len(&self, slot: T::Key) -> usize
        ensures len { result ≡ length (list_at T.Key.cmp self.now.content slot) }
        ensures lawful { IsLawful T.Key.cmp self.now.content }
    {
        match self.heads.get(&slot) {
            Some(_) => 1 + self.tails.len(slot),
            None => 0,
        }
    }

    #[inline(always)]
    pub fn value_at(&self, slot: T::Key, place: usize) -> &V
        requires { place < length (list_at T.Key.cmp self.now.content slot) }
        ensures { slice_get (list_at T.Key.cmp self.now.content slot) place ≡ Some result.now }
    {
        if place == 0 {
            return self.heads.get(&slot).unwrap();
        }
        self.tails.value_at(slot, place - 1)
    }

    /// Puts a value in front of the list at an index key, and tells whether that had none. The one look-up that finds the key also puts
    /// the value there; a first value that finds no room in the tail then goes back to its place, which takes no memory.
    #[inline]
    fn insert_first(&mut self, slot: T::Key, value: V) -> Result<bool, V>
        ensures accepted { OnOk result (self.new.content
            ≡ with_list_by T.Key.cmp self.old.content slot (λ l. value ∷ l)) }
        ensures absent { IfOk result (λ absent. absent ≡ lacks T.Key.cmp self.old.content slot) }
        ensures refused { OnErr result (self.new.content ≡ self.old.content) }
        ensures room { self.old.spare ≤ self.new.spare + added T.Key.cmp self.old.content slot }
        ensures succeeds { 0 < self.old.spare → list_at T.Key.cmp self.old.content slot ≡ [] → IsOk result }
        ensures returned { IfErr result (λ back. back ≡ value) }
    {
        let Some(displaced) = self.heads.insert(slot, value)? else {
            return Ok(true);
        };
        match self.tails.insert_at(self.alloc, slot, Some(0), displaced) {
            Ok(()) => Ok(false),
            Err(displaced) => Err(self.heads.replace(&slot, displaced)),
        }
    }

    /// Puts a value behind the list at an index key, and tells whether that had none.
    #[inline]
    fn insert_last(&mut self, slot: T::Key, value: V) -> Result<bool, V>
        ensures accepted { OnOk result (self.new.content
            ≡ with_list_by T.Key.cmp self.old.content slot (λ l. l ++ value ∷ [])) }
        ensures absent { IfOk result (λ absent. absent ≡ lacks T.Key.cmp self.old.content slot) }
        ensures refused { OnErr result (self.new.content ≡ self.old.content) }
        ensures room { self.old.spare ≤ self.new.spare + added T.Key.cmp self.old.content slot }
        ensures succeeds { 0 < self.old.spare → list_at T.Key.cmp self.old.content slot ≡ [] → IsOk result }
        ensures returned { IfErr result (λ back. back ≡ value) }
    {
        let Some(value) = self.heads.insert_absent(slot, value)? else {
            return Ok(true);
        };
        self.tails.insert_at(self.alloc, slot, None, value)?;
        Ok(false)
    }

    /// Puts a value in at its end of the list at an index key, and tells whether that had none.
    #[inline]
    pub fn insert(&mut self, slot: T::Key, value: V) -> Result<bool, V>
        ensures accepted { OnOk result (self.new.content
            ≡ with_list_by T.Key.cmp self.old.content slot (put_value E.FIRST value)) }
        ensures absent { IfOk result (λ absent. absent ≡ lacks T.Key.cmp self.old.content slot) }
        ensures refused { OnErr result (self.new.content ≡ self.old.content) }
        ensures room { self.old.spare ≤ self.new.spare + added T.Key.cmp self.old.content slot }
        ensures succeeds { 0 < self.old.spare → list_at T.Key.cmp self.old.content slot ≡ [] → IsOk result }
        ensures returned { IfErr result (λ back. back ≡ value) }
    {
        if E::is_first() {
            self.insert_first(slot, value)
        } else {
            self.insert_last(slot, value)
        }
    }

    /// Puts a value under an index key that has none, and tells how many values the index key had. The one look-up that finds no key
    /// also makes its place.
    #[inline]
    pub fn insert_absent(&mut self, slot: T::Key, value: V) -> Result<usize, V>
        ensures found { IfOk result (λ n. 0 < n → self.new.content ≡ self.old.content) }
        ensures inserted { IfOk result (λ n. n ≡ 0
            → self.new.content ≡ with_list T.Key.cmp self.old.content slot (value ∷ [])) }
        ensures len { IfOk result (λ n. n ≡ length (list_at T.Key.cmp self.old.content slot)) }
        ensures refused { OnErr result (self.new.content ≡ self.old.content) }
        ensures returned { IfErr result (λ back. back ≡ value) }
    {
        let Some(_) = self.heads.insert_absent(slot, value)? else {
            return Ok(0);
        };
        Ok(1 + self.tails.len(slot))
    }

    /// Removes an index key, and tells how many values it had.
    #[inline]
    pub fn remove(&mut self, slot: T::Key) -> usize
        ensures content { self.new.content ≡ with_list T.Key.cmp self.old.content slot [] }
        ensures taken { result ≡ length (list_at T.Key.cmp self.old.content slot) }
    {
        if self.heads.remove(&slot).is_none() {
            return 0;
        }
        let Some(values) = self.tails.take(slot) else {
            return 1;
        };
        1 + values.len()
    }

    /// Puts another value at a place of the index key's list.
    #[inline(always)]
    pub fn set_at(&mut self, slot: T::Key, place: usize, value: V)
        requires place { place < length (list_at T.Key.cmp self.old.content slot) }
        ensures content { self.new.content
            ≡ with_list_by T.Key.cmp self.old.content slot (λ l. slice_set l place value) }
    {
        if place != 0 {
            self.tails.set_at(slot, place - 1, value);
            return;
        }
        self.heads.replace(&slot, value);
    }

    /// Puts a value in at a place of the index key's list, or behind its last one, and tells whether the index key had none.
    #[inline]
    pub fn insert_at(&mut self, slot: T::Key, place: usize, value: V) -> Result<bool, V>
        requires place { place ≤ length (list_at T.Key.cmp self.old.content slot) }
        ensures accepted { OnOk result (self.new.content
            ≡ with_list_by T.Key.cmp self.old.content slot (λ l. insert l place value)) }
        ensures absent { IfOk result (λ absent. absent ≡ lacks T.Key.cmp self.old.content slot) }
        ensures refused { OnErr result (self.new.content ≡ self.old.content) }
        ensures returned { IfErr result (λ back. back ≡ value) }
    {
        if place == 0 {
            return self.insert_first(slot, value);
        }
        self.tails
            .insert_at(self.alloc, slot, Some(place - 1), value)?;
        Ok(false)
    }

    /// Removes the value at a place of the index key's list, and tells how many are left.
    #[inline]
    pub fn remove_at(&mut self, slot: T::Key, place: usize) -> (V, usize)
        requires place { place < length (list_at T.Key.cmp self.old.content slot) }
        ensures value { slice_get (list_at T.Key.cmp self.old.content slot) place ≡ Some result.0 }
        ensures content { self.new.content ≡ with_list_by T.Key.cmp self.old.content slot (λ l. remove l place) }
        ensures left { result.1 + 1 ≡ length (list_at T.Key.cmp self.old.content slot) }
    {
        if place != 0 {
            let (value, left) = self.tails.remove_at(slot, place - 1).unwrap();
            return (value, left + 1);
        }
        let Some((next, left)) = self.tails.remove_at(slot, 0) else {
            return (self.heads.remove(&slot).unwrap(), 0);
        };
        (self.heads.replace(&slot, next), left + 1)
    }

    /// Unless the first value of an index key stays, puts the next one in its place, or removes the index key where there is none.
    #[inline]
    fn set_first(&mut self, slot: T::Key, stays: bool, next: Option<V>)
        requires held { 0 < length (list_at T.Key.cmp self.old.content slot) }
        requires alone { stays ≡ false → IfNone next (length (list_at T.Key.cmp self.old.content slot) ≡ 1) }
        ensures { self.new.content ≡ (if stays then self.old.content
            else with_list_by T.Key.cmp self.old.content slot (λ l. list_of next (remove l 0))) }
    {
        if stays {
            return;
        }
        if let Some(next) = next {
            self.heads.replace(&slot, next);
            return;
        }
        self.heads.remove(&slot);
    }

    /// Inserts a new value, if there is one, behind those of the index key, which allocates all the memory that the call may need. Then
    /// calls the closure once for each of them, in list order, and removes those for which it returns false.
    #[inline(always)]
    pub fn retain<F: FnMut(&V) -> bool>(
        &mut self,
        slot: T::Key,
        new: Option<V>,
        mut should_retain: F,
    ) -> Result<Retained, V>
        requires { F.IsAlwaysCallable should_retain }
        ensures accepted { IfOk result (λ told. (kept : List V)
            × AsksWith (CalledAt F.FnMut) should_retain (list_at T.Key.cmp self.old.content slot)
            new kept told.taken
            × (self.new.content ≡ with_list T.Key.cmp self.old.content slot kept) × (told.left ≡ length kept)) }
        ensures had { IfOk result (λ told. told.had ≡ length (list_at T.Key.cmp self.old.content slot)) }
        ensures refused { OnErr result (self.new.content ≡ self.old.content) }
        ensures returned { IfErr result (λ back. new ≡ Some back) }
    {
        let Some(head) = self.heads.get(&slot) else {
            let Some(value) = new else {
                return Ok(Retained {
                    had: 0,
                    left: 0,
                    taken: 0,
                });
            };
            self.insert_first(slot, value)?;
            let stays = should_retain(self.value_at(slot, 0));
            self.set_first(slot, stays, None);
            return Ok(Retained {
                had: 0,
                left: usize::from(stays),
                taken: 0,
            });
        };
        let has_new = new.is_some();
        let tail = self
            .tails
            .retain(self.alloc, slot, head, new, should_retain)?;
        self.set_first(slot, tail.head_stays, tail.next);
        let had = tail.had + usize::from(!has_new);
        let held_left = tail.left - usize::from(has_new && tail.stays);
        Ok(Retained {
            had,
            left: tail.left,
            taken: had - held_left,
        })
    }

    /// How many index keys have values.
    #[inline]
    pub fn keys(&self) -> usize
        ensures { result ≡ key_count self.now.content }
    {
        self.heads.len()
    }
}

/// A key with its list, by its first value.
#[inline]
fn entry_of<'a, K: Ord + Hash + Copy, V, E: End>(
    tails: &'a Tails<K, V, E>,
    head: Option<(&'a K, &'a V)>,
) -> Option<(K, Values<'a, V>)>
    ensures { result
        ≡ option_map (λ e. (e.0, e.1 ∷ tail_at E.FIRST K.eq tails.now.map e.0)) (option_map deref_pair head.entry) }
{
    match head {
        Some((key, head)) => Some((*key, tails.list(*key, head))),
        None => None,
    }
}

impl<T: Translator, V: Drop, M: OrderedMap<T::Key, V>, E: End> ListMap<T, V, M, E> {
    /// The least key, with its list.
    #[inline]
    pub fn first(&self) -> Option<(T::Key, Values<'_, V>)>
        ensures { result ≡ first_entry self.now.content }
    {
        entry_of(&self.tails, self.heads.first())
    }

    /// The greatest key, with its list.
    #[inline]
    pub fn last(&self) -> Option<(T::Key, Values<'_, V>)>
        ensures { result ≡ last_entry self.now.content }
    {
        entry_of(&self.tails, self.heads.last())
    }

    /// The least key above a key, with its list.
    #[inline]
    pub fn above(&self, slot: T::Key) -> Option<(T::Key, Values<'_, V>)>
        ensures { result ≡ first_entry (entries_above T.Key.cmp self.now.content slot) }
    {
        entry_of(&self.tails, self.heads.above(&slot))
    }

    /// The greatest key below a key, with its list.
    #[inline]
    pub fn below(&self, slot: T::Key) -> Option<(T::Key, Values<'_, V>)>
        ensures { result ≡ last_entry (entries_below T.Key.cmp self.now.content slot) }
    {
        entry_of(&self.tails, self.heads.below(&slot))
    }

    #[inline]
    pub fn next(&self, slot: T::Key) -> Option<(Values<'_, V>, bool)>
        ensures { result ≡ next_list T.Key.cmp self.now.content slot }
    {
        match self.above(slot) {
            Some((_, above)) => Some((above, false)),
            None => match self.first() {
                Some((_, first)) => Some((first, true)),
                None => None,
            },
        }
    }

    #[inline]
    pub fn prev(&self, slot: T::Key) -> Option<(Values<'_, V>, bool)>
        ensures { result ≡ prev_list T.Key.cmp self.now.content slot }
    {
        match self.below(slot) {
            Some((_, below)) => Some((below, false)),
            None => match self.last() {
                Some((_, last)) => Some((last, true)),
                None => None,
            },
        }
    }
}

/// Calls a closure once on each value, those of an index key one after another.
fn visit_all<K: Ord + Hash + Copy, V, F: FnMut(&V), E: End>(
    heads: Iter<'_, K, V>,
    tails: &Tails<K, V, E>,
    visit: &mut F,
)
    requires callable { F.IsAlwaysCallable visit.old }
    requires linked { IsLinked K.cmp heads (tail_at E.FIRST K.eq tails.now.map) }
    ensures visits { VisitsEach (CalledAt F.FnMut) visit.old
        (values_of (content_of K.cmp heads.entry (tail_at E.FIRST K.eq tails.now.map))) visit.new }
    ensures callable { F.IsAlwaysCallable visit.new }
{
    for pair in heads {
        visit_in_turn(tails.list(pair.0, &pair.1), visit);
    }
}

/// What `visit_all` does, of first values in an array.
fn visit_few<K: Ord + Hash + Copy, V, F: FnMut(&V), E: End>(
    heads: &[(K, V)],
    tails: &Tails<K, V, E>,
    visit: &mut F,
)
    requires callable { F.IsAlwaysCallable visit.old }
    requires linked { IsLinked K.cmp heads.now (tail_at E.FIRST K.eq tails.now.map) }
    ensures visits { VisitsEach (CalledAt F.FnMut) visit.old
        (values_of (content_of K.cmp heads.now (tail_at E.FIRST K.eq tails.now.map))) visit.new }
    ensures callable { F.IsAlwaysCallable visit.new }
{
    for (key, head) in heads.iter() {
        visit_in_turn(tails.list(*key, head), visit);
    }
}

/// What `visit_all` does, of first values in an ordered map.
fn visit_in_order<K: Ord + Hash + Copy, V, F: FnMut(&V), E: End>(
    heads: &TreeMap<K, V>,
    tails: &Tails<K, V, E>,
    visit: &mut F,
)
    requires callable { F.IsAlwaysCallable visit.old }
    requires linked { IsLinked K.cmp heads.now.entries (tail_at E.FIRST K.eq tails.now.map) }
    ensures visits { VisitsEach (CalledAt F.FnMut) visit.old
        (values_of (content_of K.cmp heads.now.entries (tail_at E.FIRST K.eq tails.now.map))) visit.new }
    ensures callable { F.IsAlwaysCallable visit.new }
{
    for (key, head) in heads.iter() {
        visit_in_turn(tails.list(key.get(), head), visit);
    }
}

impl<T: Translator, V: Drop> ListMap<T, V, TreeMap<T::Key, V>, Back> {
    /// Calls a closure once on each value.
    pub fn visit_in_order<F: FnMut(&V)>(&self, visit: &mut F)
        requires { F.IsAlwaysCallable visit.old }
        ensures visits { VisitsEach (CalledAt F.FnMut) visit.old (values_of self.now.content) visit.new }
        ensures callable { F.IsAlwaysCallable visit.new }
    {
        visit_in_order(&self.heads, &self.tails, visit);
    }

    /// Gives an index key without values a list: its first value and its tail. A refusal hands both back.
    pub fn insert_list(&mut self, slot: T::Key, head: V, tail: Vec<V>) -> Result<(), (V, Vec<V>)>
        requires { list_at T.Key.cmp self.old.content slot ≡ [] }
        ensures accepted { OnOk result (self.new.content
            ≡ with_list T.Key.cmp self.old.content slot (head ∷ tail.items)) }
        ensures refused { OnErr result (self.new.content ≡ self.old.content) }
        ensures returned { IfErr result (λ back. (back.0 ≡ head) × (back.1 ≡ tail)) }
    {
        if let Err(head) = AnyMap::insert(&mut self.heads, slot, head) {
            return Err((head, tail));
        }
        match self.tails.put(self.alloc, slot, tail) {
            Ok(()) => Ok(()),
            Err(tail) => Err((AnyMap::remove(&mut self.heads, &slot).unwrap(), tail)),
        }
    }

    /// Removes the list of the least index key, and returns that key, the list's first value and its tail.
    pub fn pop_first(&mut self) -> Option<(T::Key, V, Vec<V>)>
        ensures some { IfSome result (λ list. self.old.content ≡ (list.0, list.1 ∷ list.2.items) ∷ self.new.content) }
        ensures none { IfNone result (self.old.content ≡ []) }
    {
        let (slot, head) = pop_least(&mut self.heads)?;
        let Some(tail) = self.tails.take(slot) else {
            return Some((slot, head, Vec::new(self.alloc)));
        };
        Some((slot, head, tail))
    }
}

impl<T: Translator, V: Drop, E: End> ListMap<T, V, Map<T::Key, V>, E> {
    /// Makes room for the first values of so many more index keys.
    pub fn reserve(&mut self, additional: usize) -> Result<(), AllocError>
        ensures same { self.new.content ≡ self.old.content }
        ensures room { OnOk result (additional ≤ self.new.spare) }
        ensures spare { self.old.spare ≤ self.new.spare }
        ensures succeeds { additional ≤ self.old.spare → IsOk result }
    {
        self.heads.reserve(additional)
    }

    /// Calls a closure once on each value.
    #[inline]
    pub fn for_each_value<F: FnMut(&V)>(&self, visit: &mut F)
        requires { F.IsAlwaysCallable visit.old }
        ensures visits { VisitsEach (CalledAt F.FnMut) visit.old (values_of self.now.content) visit.new }
        ensures callable { F.IsAlwaysCallable visit.new }
    {
        if let Some(heads) = self.heads.iter() {
            visit_all(heads, &self.tails, visit);
        }
    }
}

impl<T: Translator, V: Drop, E: End> ListMap<T, V, SmallMap<T::Key, V>, E> {
    /// Calls a closure once on each value.
    pub fn visit_values<F: FnMut(&V)>(&self, visit: &mut F)
        requires { F.IsAlwaysCallable visit.old }
        ensures visits { VisitsEach (CalledAt F.FnMut) visit.old (values_of self.now.content) visit.new }
        ensures callable { F.IsAlwaysCallable visit.new }
    {
        match &self.heads.kept {
            Kept::Many(table) => visit_all(table.iter(), &self.tails, visit),
            Kept::Few(pairs) => visit_few(pairs.as_slice(), &self.tails, visit),
        }
    }
}
