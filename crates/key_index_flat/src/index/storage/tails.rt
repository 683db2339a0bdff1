//! The tails of lists: of each list that has more than one value, all of them but the first.
ghost use Rattle.std.specs.Prelude.{◌≡◌, ◌+◌, ◌∷◌, ◌++◌, IfOk, Bool, true, false, ◌-◌, ◌<◌, ◌≤◌, List, length, slice_get, slice_set, insert, remove, unwrap_or, [], IfErr, IfNone, IfSome, None, Some, OnErr, OnOk};
ghost use Rattle.std.specs.Fn.{CalledAt};
ghost use Rattle.std.specs.Option.{option_map};
ghost use Rattle.key_index_flat.specs.Storage.{at_key, index_in, list_of, tail_at, value_of, vector_at, RetainsTail, SameBut};
ghost use Rattle.key_index_flat.specs.Values.{in_order};

use super::maps::AnyMap;
use crate::index::Values;
use crate::index::implement::retain_in_turn;
use key_index_map::map::Map;
use std::alloc::Global;
use std::hash::Hash;
use std::marker::PhantomData;

/// One of the two ends of a list.
pub trait End {
    ghost FIRST: { Bool };

    /// Whether it is in front of the first value.
    fn is_first() -> bool
        ensures { result ≡ FIRST };
}

/// In front of the first value.
pub struct Front;

impl End for Front {
    ghost FIRST = { true };

    #[inline(always)]
    fn is_first() -> bool {
        true
    }
}

/// Behind the last value.
pub struct Back;

impl End for Back {
    ghost FIRST = { false };

    #[inline(always)]
    fn is_first() -> bool {
        false
    }
}

/// The tails, each in a vector that ends with the value at the end `E` of the list: it is reversed where that is `Front`. The map is
/// allocated with the first tail, and stays.
#[derive(Drop)]
pub(super) struct Tails<K: Ord + Hash + Copy, V, E: End> {
    map: Option<Box<Map<K, Vec<V>>>>,
    end: PhantomData<E>,
}

/// Where the value at a place stands in a vector, by the index of the last.
#[inline(always)]
fn index_of<E: End>(last: usize, place: usize) -> usize
    requires { place ≤ last }
    ensures { result ≡ index_in E.FIRST last place }
{
    if E::is_first() { last - place } else { place }
}

/// Puts a vector in list order, or back.
#[inline(always)]
fn turn<V, E: End>(values: &mut Vec<V>)
    ensures { values.new.items ≡ in_order E.FIRST values.old.items }
{
    if E::is_first() {
        values.reverse();
    }
}

/// The vector at a key.
#[inline(never)]
fn values_in<K: Ord + Hash + Copy, V>(map: &Map<K, Vec<V>>, key: K) -> &[V]
    ensures values { result.now ≡ at_key K.eq map.now key }
    ensures small { length result.now < usize.MAX }
{
    match AnyMap::get(map, &key) {
        Some(values) => values.as_slice(),
        None => &[],
    }
}

/// Puts a vector at a key.
#[tactic(auto, using(crate::proofs::content::VectorLemmas::others_set))]
fn put_in<K: Ord + Hash + Copy, V: Drop>(
    map: &mut Map<K, Vec<V>>,
    key: K,
    values: Vec<V>,
) -> Result<(), Vec<V>>
    ensures at { OnOk result (at_key K.eq map.new key ≡ values.items) }
    ensures others { SameBut K.cmp (at_key K.eq map.old) (at_key K.eq map.new) key }
    ensures refused { OnErr result (at_key K.eq map.new key ≡ at_key K.eq map.old key) }
    ensures returned { IfErr result (λ back. back ≡ values) }
{
    match AnyMap::insert(map, key, values) {
        Ok(_) => Ok(()),
        Err(values) => Err(values),
    }
}

/// Removes the vector at a key, if there is one.
#[inline(always)]
#[tactic(auto, using(crate::proofs::content::VectorLemmas::others_set))]
fn remove_in<K: Ord + Hash + Copy, V: Drop>(map: &mut Map<K, Vec<V>>, key: K) -> Option<Vec<V>>
    ensures removed { unwrap_or (option_map (λ values. values.items) result) [] ≡ at_key K.eq map.old key }
    ensures at { at_key K.eq map.new key ≡ [] }
    ensures others { SameBut K.cmp (at_key K.eq map.old) (at_key K.eq map.new) key }
{
    AnyMap::remove(map, &key)
}

/// Removes the vector at a key, of which so many values are left, where that is none.
#[tactic(auto, using(crate::proofs::content::VectorLemmas::others_set))]
fn remove_empty<K: Ord + Hash + Copy, V: Drop, M: AnyMap<K, Vec<V>>>(
    map: &mut M,
    key: K,
    left: usize,
)
    requires { left ≡ length (vector_at K.eq (M.entries map.old) key) }
    ensures at { vector_at K.eq (M.entries map.new) key ≡ vector_at K.eq (M.entries map.old) key }
    ensures removed { left ≡ 0 → value_of K.cmp (M.entries map.new) key ≡ None }
    ensures others { SameBut K.cmp (vector_at K.eq (M.entries map.old)) (vector_at K.eq (M.entries map.new)) key }
{
    if left == 0 {
        map.remove(&key);
    }
}

/// Puts another value at a place of the list that a vector has.
#[inline]
fn set_value<V: Drop, E: End>(values: &mut Vec<V>, place: usize, value: V)
    requires { place < length values.old.items }
    ensures { in_order E.FIRST values.new.items ≡ slice_set (in_order E.FIRST values.old.items) place value }
{
    let index = index_of::<E>(values.len() - 1, place);
    values[index] = value;
}

/// Inserts a value at a place of the list that a vector has, or behind its last value where there is no place.
#[inline]
fn insert_value<V, E: End>(values: &mut Vec<V>, place: Option<usize>, value: V) -> Result<(), V>
    requires { IfSome place (λ at. at ≤ length values.old.items) }
    ensures at { OnOk result (in_order E.FIRST values.new.items
        ≡ insert (in_order E.FIRST values.old.items) (unwrap_or place (length values.old.items)) value) }
    ensures refused { OnErr result (values.new.items ≡ values.old.items) }
    ensures returned { IfErr result (λ back. back ≡ value) }
{
    let len = values.len();
    match values.insert(index_of::<E>(len, place.unwrap_or(len)), value) {
        Ok(()) => Ok(()),
        Err(failed) => Err(failed.value),
    }
}

/// Inserts a new value, if there is one, behind the last one of the list that a vector has.
#[inline]
fn insert_new<V, E: End>(values: &mut Vec<V>, new: Option<V>) -> Result<(), V>
    ensures at { OnOk result (in_order E.FIRST values.new.items
        ≡ in_order E.FIRST values.old.items ++ list_of new []) }
    ensures refused { OnErr result (values.new.items ≡ values.old.items) }
    ensures returned { IfErr result (λ back. new ≡ Some back) }
{
    match new {
        Some(value) => insert_value::<V, E>(values, None, value),
        None => Ok(()),
    }
}

/// Removes the value at a place of the list that a vector has, if there is one. Returns it, and how many are left.
#[inline]
fn remove_value<V, E: End>(values: &mut Vec<V>, place: usize) -> Option<(V, usize)>
    ensures value { option_map (λ removed. removed.0) result ≡ slice_get (in_order E.FIRST values.old.items) place }
    ensures at { in_order E.FIRST values.new.items ≡ remove (in_order E.FIRST values.old.items) place }
    ensures left { IfSome result (λ removed. removed.1 ≡ length values.new.items) }
    ensures fits { IfSome result (λ removed. removed.1 < usize.MAX) }
{
    let len = values.len();
    if place >= len {
        return None;
    }
    let value = values.remove(index_of::<E>(len - 1, place));
    Some((value, len - 1))
}

/// A vector of one value.
#[inline]
fn vector_of<V: Drop>(alloc: Global, value: V) -> Result<Vec<V>, V>
    ensures value { IfOk result (λ values. values.items ≡ value ∷ []) }
    ensures returned { IfErr result (λ back. back ≡ value) }
{
    let mut values = Vec::new(alloc);
    match values.push(value) {
        Ok(()) => Ok(values),
        Err(failed) => Err(failed.value),
    }
}

/// Inserts a value at a place of the list at a key, or behind its last value where there is no place.
fn insert_in<K: Ord + Hash + Copy, V: Drop, E: End>(
    alloc: Global,
    map: &mut Map<K, Vec<V>>,
    key: K,
    place: Option<usize>,
    value: V,
) -> Result<(), V>
    requires { IfSome place (λ at. at ≤ length (at_key K.eq map.old key)) }
    ensures at { OnOk result (let old = at_key K.eq map.old key in in_order E.FIRST (at_key K.eq map.new key)
        ≡ insert (in_order E.FIRST old) (unwrap_or place (length old)) value) }
    ensures others { SameBut K.cmp (at_key K.eq map.old) (at_key K.eq map.new) key }
    ensures refused { OnErr result (at_key K.eq map.new key ≡ at_key K.eq map.old key) }
    ensures returned { IfErr result (λ back. back ≡ value) }
{
    if let Some(values) = map.get_mut(&key) {
        return insert_value::<V, E>(values, place, value);
    }
    let values = vector_of(alloc, value)?;
    match map.add(key, values) {
        Ok(()) => Ok(()),
        Err(mut values) => Err(values.pop().unwrap()),
    }
}

/// `set_value`, of the list at a key.
fn set_value_in<K: Ord + Hash + Copy, V: Drop, E: End>(
    map: &mut Map<K, Vec<V>>,
    key: K,
    place: usize,
    value: V,
)
    requires { place < length (at_key K.eq map.old key) }
    ensures at { in_order E.FIRST (at_key K.eq map.new key)
        ≡ slice_set (in_order E.FIRST (at_key K.eq map.old key)) place value }
    ensures others { SameBut K.cmp (at_key K.eq map.old) (at_key K.eq map.new) key }
{
    set_value::<V, E>(map.get_mut(&key).unwrap(), place, value);
}

/// `remove_value`, of the list at a key.
fn remove_value_in<K: Ord + Hash + Copy, V: Drop, E: End>(
    map: &mut Map<K, Vec<V>>,
    key: K,
    place: usize,
) -> Option<(V, usize)>
    ensures value { option_map (λ removed. removed.0) result
        ≡ slice_get (in_order E.FIRST (at_key K.eq map.old key)) place }
    ensures at { in_order E.FIRST (at_key K.eq map.new key)
        ≡ remove (in_order E.FIRST (at_key K.eq map.old key)) place }
    ensures left { IfSome result (λ removed. removed.1 ≡ length (at_key K.eq map.new key)) }
    ensures fits { IfSome result (λ removed. removed.1 < usize.MAX) }
    ensures others { SameBut K.cmp (at_key K.eq map.old) (at_key K.eq map.new) key }
{
    remove_value::<V, E>(map.get_mut(&key)?, place)
}

/// What a retention found and left of a list: whether the first value stays, the one that has come out of the tail in its place where it
/// doesn't, how many values the tail had, how many the list has left, and the last answer.
#[derive(Drop)]
pub(super) struct TailRetained<V> {
    pub(super) head_stays: bool,
    pub(super) next: Option<V>,
    pub(super) had: usize,
    pub(super) left: usize,
    pub(super) stays: bool,
}

/// Removes the first value of a list, if it has one.
fn remove_first<V, E: End>(values: &mut Vec<V>) -> Option<V>
    ensures values { list_of result (in_order E.FIRST values.new.items) ≡ in_order E.FIRST values.old.items }
    ensures none { IfNone result (values.new.items ≡ []) }
{
    if E::is_first() {
        return values.pop();
    }
    if values.is_empty() {
        return None;
    }
    Some(values.remove(0))
}

/// Calls the closure once for a list's first value and then for each of its tail, in list order, and removes those of the tail for
/// which it returns false. Where the first value goes, the next one comes out of the tail.
fn retain_behind<V: Drop, F: FnMut(&V) -> bool, E: End>(
    head: &V,
    values: &mut Vec<V>,
    mut should_retain: F,
) -> TailRetained<V>
    requires { F.IsAlwaysCallable should_retain }
    ensures { RetainsTail (CalledAt F.FnMut) should_retain head.now
        (in_order E.FIRST values.old.items) (in_order E.FIRST values.new.items) result }
{
    let head_stays = should_retain(head);
    let had = values.len();
    turn::<V, E>(values);
    let stays = retain_in_turn(values, should_retain, head_stays);
    turn::<V, E>(values);
    let left = values.len();
    if head_stays {
        return TailRetained {
            head_stays,
            next: None,
            had,
            left: left + 1,
            stays,
        };
    }
    TailRetained {
        head_stays,
        next: remove_first::<V, E>(values),
        had,
        left,
        stays,
    }
}

/// `retain_behind`, where there is no tail.
#[inline]
fn retain_alone<V, F: FnMut(&V) -> bool>(head: &V, mut should_retain: F) -> TailRetained<V>
    requires { F.IsAlwaysCallable should_retain }
    ensures { RetainsTail (CalledAt F.FnMut) should_retain head.now [] [] result }
{
    let stays = should_retain(head);
    TailRetained {
        head_stays: stays,
        next: None,
        had: 0,
        left: usize::from(stays),
        stays,
    }
}

/// Inserts a new value, if there is one, behind the last one of a tail, which allocates all the memory that the call may need, and then
/// `retain_behind`. Where there is no tail and the new value does not stay in one, none is made.
// This and what calls it are inlined, so that a retention with no new value has no code for one.
#[inline(always)]
fn retain_in<K: Ord + Hash + Copy, V: Drop, F: FnMut(&V) -> bool, E: End>(
    alloc: Global,
    map: &mut Map<K, Vec<V>>,
    key: K,
    head: &V,
    new: Option<V>,
    should_retain: F,
) -> Result<TailRetained<V>, V>
    requires { F.IsAlwaysCallable should_retain }
    ensures retained { IfOk result (λ r. RetainsTail (CalledAt F.FnMut) should_retain head.now
        (in_order E.FIRST (at_key K.eq map.old key) ++ list_of new []) (in_order E.FIRST (at_key K.eq map.new key)) r) }
    ensures fits { IfOk result (λ r. r.had < usize.MAX) }
    ensures others { SameBut K.cmp (at_key K.eq map.old) (at_key K.eq map.new) key }
    ensures refused { OnErr result (at_key K.eq map.new key ≡ at_key K.eq map.old key) }
    ensures returned { IfErr result (λ back. new ≡ Some back) }
{
    if let Some(values) = map.get_mut(&key) {
        insert_new::<V, E>(values, new)?;
        let retained = retain_behind::<V, F, E>(head, values, should_retain);
        let left = values.len();
        remove_empty(map, key, left);
        return Ok(retained);
    }
    let Some(value) = new else {
        return Ok(retain_alone(head, should_retain));
    };
    let mut values = vector_of(alloc, value)?;
    if map.reserve(1).is_err() {
        return Err(values.pop().unwrap());
    }
    let retained = retain_behind::<V, F, E>(head, &mut values, should_retain);
    if values.is_empty() {
        return Ok(retained);
    }
    match map.add(key, values) {
        Ok(()) => Ok(retained),
        Err(_) => unreachable!(),
    }
}

impl<K: Ord + Hash + Copy, V, E: End> Tails<K, V, E> {
    /// No tails. Takes no memory.
    pub(super) fn new() -> Tails<K, V, E>
        ensures { (k : K) → tail_at E.FIRST K.eq result.map k ≡ [] }
    {
        Tails {
            map: None,
            end: PhantomData,
        }
    }

    /// The vector of a tail. Where no list has one, nothing is looked up.
    #[inline(always)]
    pub(super) fn vector(&self, key: K) -> &[V]
        ensures values { in_order E.FIRST result.now ≡ tail_at E.FIRST K.eq self.now.map key }
        ensures small { length result.now < usize.MAX }
    {
        match &self.map {
            Some(map) => {
                if map.len() == 0 {
                    return &[];
                }
                values_in(map, key)
            }
            None => &[],
        }
    }

    /// The list of a first value and the tail of its key.
    #[inline(always)]
    pub(super) fn list<'a>(&'a self, key: K, head: &'a V) -> Values<'a, V>
        ensures { result ≡ head.now ∷ tail_at E.FIRST K.eq self.now.map key }
    {
        Values::with_first(head, self.vector(key), E::is_first())
    }

    #[inline(always)]
    pub(super) fn len(&self, key: K) -> usize
        ensures len { result ≡ length (tail_at E.FIRST K.eq self.now.map key) }
        ensures fits { result < usize.MAX }
    {
        self.vector(key).len()
    }

    #[inline(always)]
    pub(super) fn value_at(&self, key: K, place: usize) -> &V
        requires { place < length (tail_at E.FIRST K.eq self.now.map key) }
        ensures { slice_get (tail_at E.FIRST K.eq self.now.map key) place ≡ Some result.now }
    {
        let values = self.vector(key);
        &values[index_of::<E>(values.len() - 1, place)]
    }

    /// Puts another value at a place.
    pub(super) fn set_at(&mut self, key: K, place: usize, value: V)
    where
        V: Drop,
        requires { place < length (tail_at E.FIRST K.eq self.old.map key) }
        ensures at { tail_at E.FIRST K.eq self.new.map key
            ≡ slice_set (tail_at E.FIRST K.eq self.old.map key) place value }
        ensures others { SameBut K.cmp (tail_at E.FIRST K.eq self.old.map) (tail_at E.FIRST K.eq self.new.map) key }
    {
        let Some(map) = &mut self.map else {
            unreachable!()
        };
        set_value_in::<K, V, E>(map, key, place, value);
    }

    /// Inserts a value at a place, or behind the last value where there is no place. A refusal hands it back and changes nothing.
    pub(super) fn insert_at(
        &mut self,
        alloc: Global,
        key: K,
        place: Option<usize>,
        value: V,
    ) -> Result<(), V>
    where
        V: Drop,
        requires { IfSome place (λ at. at ≤ length (tail_at E.FIRST K.eq self.old.map key)) }
        ensures at { OnOk result (let old = tail_at E.FIRST K.eq self.old.map key in
            tail_at E.FIRST K.eq self.new.map key ≡ insert old (unwrap_or place (length old)) value) }
        ensures others { SameBut K.cmp (tail_at E.FIRST K.eq self.old.map) (tail_at E.FIRST K.eq self.new.map) key }
        ensures refused { OnErr result (tail_at E.FIRST K.eq self.new.map key ≡ tail_at E.FIRST K.eq self.old.map key) }
        ensures returned { IfErr result (λ back. back ≡ value) }
    {
        if let Some(map) = &mut self.map {
            return insert_in::<K, V, E>(alloc, map, key, place, value);
        }
        let Ok(mut map) = Box::new(alloc, Map::new(alloc)) else {
            return Err(value);
        };
        insert_in::<K, V, E>(alloc, &mut map, key, place, value)?;
        self.map = Some(map);
        Ok(())
    }

    /// Gives a key without a tail one, by its vector. A refusal hands that back and changes nothing.
    pub(super) fn put(&mut self, alloc: Global, key: K, values: Vec<V>) -> Result<(), Vec<V>>
    where
        V: Drop,
        requires { tail_at E.FIRST K.eq self.old.map key ≡ [] }
        ensures at { OnOk result (tail_at E.FIRST K.eq self.new.map key ≡ in_order E.FIRST values.items) }
        ensures others { SameBut K.cmp (tail_at E.FIRST K.eq self.old.map) (tail_at E.FIRST K.eq self.new.map) key }
        ensures refused { OnErr result (tail_at E.FIRST K.eq self.new.map key ≡ []) }
        ensures returned { IfErr result (λ back. back ≡ values) }
    {
        if values.is_empty() {
            return Ok(());
        }
        if let Some(map) = &mut self.map {
            return put_in(map, key, values);
        }
        let Ok(mut map) = Box::new(alloc, Map::new(alloc)) else {
            return Err(values);
        };
        put_in(&mut map, key, values)?;
        self.map = Some(map);
        Ok(())
    }

    /// Removes the value at a place, if there is one. Returns it, and how many are left.
    pub(super) fn remove_at(&mut self, key: K, place: usize) -> Option<(V, usize)>
    where
        V: Drop,
        ensures value { option_map (λ removed. removed.0) result
            ≡ slice_get (tail_at E.FIRST K.eq self.old.map key) place }
        ensures at { tail_at E.FIRST K.eq self.new.map key ≡ remove (tail_at E.FIRST K.eq self.old.map key) place }
        ensures left { IfSome result (λ removed. removed.1 ≡ length (tail_at E.FIRST K.eq self.new.map key)) }
        ensures fits { IfSome result (λ removed. removed.1 < usize.MAX) }
        ensures others { SameBut K.cmp (tail_at E.FIRST K.eq self.old.map) (tail_at E.FIRST K.eq self.new.map) key }
    {
        let Some(map) = &mut self.map else {
            return None;
        };
        if map.len() == 0 {
            return None;
        }
        let (value, left) = remove_value_in::<K, V, E>(map, key, place)?;
        remove_empty(&mut **map, key, left);
        Some((value, left))
    }

    /// Removes a tail, and returns its vector, if it has one. Where no list has a tail, nothing is looked up.
    #[inline(always)]
    pub(super) fn take(&mut self, key: K) -> Option<Vec<V>>
    where
        V: Drop,
        ensures taken { in_order E.FIRST (unwrap_or (option_map (λ values. values.items) result) [])
            ≡ tail_at E.FIRST K.eq self.old.map key }
        ensures at { tail_at E.FIRST K.eq self.new.map key ≡ [] }
        ensures others { SameBut K.cmp (tail_at E.FIRST K.eq self.old.map) (tail_at E.FIRST K.eq self.new.map) key }
    {
        let Some(map) = &mut self.map else {
            return None;
        };
        if map.len() == 0 {
            return None;
        }
        remove_in(map, key)
    }

    /// Inserts a new value, if there is one, behind the last one of a tail, which allocates all the memory that the call may need, and
    /// then `retain_behind`. A refusal hands the value back and changes nothing.
    #[inline(always)]
    pub(super) fn retain<F: FnMut(&V) -> bool>(
        &mut self,
        alloc: Global,
        key: K,
        head: &V,
        new: Option<V>,
        should_retain: F,
    ) -> Result<TailRetained<V>, V>
    where
        V: Drop,
        requires { F.IsAlwaysCallable should_retain }
        ensures retained { IfOk result (λ r. RetainsTail (CalledAt F.FnMut) should_retain head.now
            (tail_at E.FIRST K.eq self.old.map key ++ list_of new []) (tail_at E.FIRST K.eq self.new.map key) r) }
        ensures fits { IfOk result (λ r. r.had < usize.MAX) }
        ensures others { SameBut K.cmp (tail_at E.FIRST K.eq self.old.map) (tail_at E.FIRST K.eq self.new.map) key }
        ensures refused { OnErr result (tail_at E.FIRST K.eq self.new.map key ≡ tail_at E.FIRST K.eq self.old.map key) }
        ensures returned { IfErr result (λ back. new ≡ Some back) }
    {
        if let Some(map) = &mut self.map {
            if new.is_none() && map.len() == 0 {
                return Ok(retain_alone(head, should_retain));
            }
            return retain_in::<K, V, F, E>(alloc, map, key, head, new, should_retain);
        }
        let Some(value) = new else {
            return Ok(retain_alone(head, should_retain));
        };
        let Ok(mut map) = Box::new(alloc, Map::new(alloc)) else {
            return Err(value);
        };
        let retained = retain_in::<K, V, F, E>(
            alloc,
            &mut map,
            key,
            head,
            Some(value),
            should_retain,
        )?;
        self.map = Some(map);
        Ok(retained)
    }
}
