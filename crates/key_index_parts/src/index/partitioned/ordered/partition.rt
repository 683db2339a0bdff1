//! One partition: its keys in order, and beside each key a value.
ghost use Rattle.std.specs.Prelude.{◌≡◌, ◌+◌, ◌-◌, ◌<◌, ◌≤◌, List, [], ◌++◌, ◌∷◌, All, Bool, true, false, replicate, length, min, slice_get, insert, remove, Some, IsOk, IfOk, IfErr, OnOk, OnErr, map, take, drop, vec_len};
ghost use Rattle.std.specs.Bool.{◌==◌, Decides};
ghost use Rattle.std.specs.Fn.{CalledAt, ComputesKey};
ghost use Rattle.std.specs.List.{flat_map, zip, slice_range, remove_range};
ghost use Rattle.std.specs.List.Sorted.{IsSorted, IsPartitionedBy, IsPartitionPoint};
ghost use Rattle.std.specs.Map.{keys_of, values_of};
ghost use Rattle.std.specs.Option.{option_copied, option_map};
ghost use Rattle.std.specs.Ordering.{is_lt};
ghost use Rattle.std.specs.declared.cmp.Ordering.TheVariants.{Equal, Less};
ghost use Rattle.std.specs.Slice.Iter.{iter_rest};
ghost use Rattle.std.specs.Vec.{vec_capacity};
ghost use Rattle.std.specs.Vec.Iter.{into_iter_items};
ghost use Rattle.key_index_flat.specs.Content.{Content, list_at, with_list};
ghost use Rattle.key_index_flat.specs.Neighbours.{entries_above, entries_below, first_entry, first_list, last_list};
ghost use Rattle.key_index_flat.specs.Retention.{AsksInTurn};
ghost use Rattle.key_index_parts.specs.Spread.{pairs_with};
ghost use Rattle.key_index_parts.specs.Pairs.{Pairs, Paired, IsFound, IsRun, count_below, count_upto, with_value, run_of, grouped, list_of, room_of, room_for};

use key_index_flat::index::implement::keep_in_front;
use key_index_flat::index::{Fault, Refused};
use std::alloc::{AllocError, Global};
use std::marker::Model;
use std::mem::replace;
use std::ops::Range;
use std::slice;
use std::vec::IntoIter;

/// Up to how many keys a search is std's, which makes a branch of each step, so that the next key is read before the step's outcome is known.
const FEW: usize = 32;

/// How often a search of more keys halves them. It leaves one of 511.
const HALVES: usize = 9;

/// `front_len` of many keys, by halvings. The compiler writes all of them out, which it needs to make no branch of one.
#[inline(always)]
fn by_halves<K, P: FnMut(&K) -> bool>(keys: &[K], mut test: P) -> usize
    requires callable { P.IsAlwaysCallable test }
    requires some { 0 < length keys.now }
    ensures bound { result ≤ length keys.now }
    ensures partitioned { (p : K → Bool) → ComputesKey P.FnMut p test → IsPartitionedBy p keys.now
        → IsPartitionPoint (λ k. p k ≡ true) (λ k. p k ≡ false) keys.now result }
{
    let mut from = 0;
    let mut left = keys.len();
    'halves: for _ in 0..HALVES {
        let half = left / 2;
        if test(&keys[from + half]) {
            from += half;
        }
        left -= half;
    }
    from + part(keys, from..from + left).partition_point(test)
}

/// How many keys in front meet a test that no others meet.
#[inline(always)]
fn front_len<K, P: FnMut(&K) -> bool>(keys: &[K], test: P) -> usize
    requires { P.IsAlwaysCallable test }
    ensures bound { result ≤ length keys.now }
    ensures partitioned { (p : K → Bool) → ComputesKey P.FnMut p test → IsPartitionedBy p keys.now
        → IsPartitionPoint (λ k. p k ≡ true) (λ k. p k ≡ false) keys.now result }
{
    if keys.len() > FEW {
        return by_halves(keys, test);
    }
    keys.partition_point(test)
}

/// How many of some sorted keys are below a key.
#[inline(always)]
fn lower_bound<K: Ord>(keys: &[K], key: &K) -> usize
    requires { IsSorted K.cmp keys.now }
    ensures within { result ≤ length keys.now }
    ensures count { result ≡ count_below K.cmp keys.now key.now }
{
    front_len(keys, |k| k.cmp(key).is_lt())
}

/// How many of some sorted keys are not above a key.
#[inline(always)]
fn upper_bound<K: Ord>(keys: &[K], key: &K) -> usize
    requires { IsSorted K.cmp keys.now }
    ensures within { result ≤ length keys.now }
    ensures count { result ≡ count_upto K.cmp keys.now key.now }
{
    front_len(keys, |k| k.cmp(key).is_le())
}

/// The items in a range of places.
fn part<T>(items: &[T], range: Range<usize>) -> &[T]
    requires start { range.start ≤ range.end }
    requires end { range.end ≤ length items.now }
    ensures { result.now ≡ slice_range items.now range.start range.end }
{
    &items[range]
}

/// Whether a place of some sorted keys has one, and it is below a key.
fn is_below<K: Ord>(keys: &[K], place: usize, key: &K) -> bool
    requires { IsSorted K.cmp keys.now }
    ensures { Decides result (place < count_below K.cmp keys.now key.now) }
{
    place < keys.len() && keys[place].cmp(key).is_lt()
}

/// How many of some sorted keys are below a key. It begins behind as many as are guessed to be, if the last of these is, and else in front:
/// two compares where the guess is right.
fn bound_near<K: Ord>(keys: &[K], guess: usize, key: &K) -> usize
    requires { IsSorted K.cmp keys.now }
    ensures within { result ≤ length keys.now }
    ensures count { result ≡ count_below K.cmp keys.now key.now }
{
    if guess > 0 && !is_below(keys, guess - 1, key) {
        return lower_bound(keys, key);
    }
    if !is_below(keys, guess, key) {
        return guess;
    }
    guess + 1 + lower_bound(part(keys, guess + 1..keys.len()), key)
}

/// Whether a place of some sorted keys has one, and it isn't above a key.
fn reaches<K: Ord>(keys: &[K], place: usize, key: &K) -> bool
    requires { IsSorted K.cmp keys.now }
    ensures { Decides result (place < count_upto K.cmp keys.now key.now) }
{
    place < keys.len() && keys[place].cmp(key).is_le()
}

/// Where the run of a key ends in some sorted keys, from a place no farther: two compares where it is that place or the
/// next.
fn run_end<K: Ord>(keys: &[K], from: usize, key: &K) -> usize
    requires sorted { IsSorted K.cmp keys.now }
    requires from { from ≤ count_upto K.cmp keys.now key.now }
    ensures within { result ≤ length keys.now }
    ensures count { result ≡ count_upto K.cmp keys.now key.now }
{
    if !reaches(keys, from, key) {
        return from;
    }
    if !reaches(keys, from + 1, key) {
        return from + 1;
    }
    from + 2 + upper_bound(part(keys, from + 2..keys.len()), key)
}

/// Where the run of the last of some sorted keys begins: one compare where it has one pair.
fn last_start<K: Ord>(keys: &[K], last: &K) -> usize
    requires sorted { IsSorted K.cmp keys.now }
    requires last { slice_get keys.now (length keys.now - 1) ≡ Some last.now }
    ensures within { result ≤ length keys.now }
    ensures count { result ≡ count_below K.cmp keys.now last.now }
{
    let end = keys.len() - 1;
    if end == 0 || keys[end - 1].cmp(last).is_lt() {
        return end;
    }
    lower_bound(part(keys, 0..end - 1), last)
}

/// The last of some sorted keys, and where its run begins.
fn last_key<K: Ord + Copy>(keys: &[K]) -> (K, usize)
    requires some { 0 < length keys.now }
    requires sorted { IsSorted K.cmp keys.now }
    ensures within { result.1 < length keys.now }
    ensures last { slice_get keys.now (length keys.now - 1) ≡ Some result.0 }
    ensures start { result.1 ≡ count_below K.cmp keys.now result.0 }
{
    let last = keys[keys.len() - 1];
    (last, last_start(keys, &last))
}

/// The first of some sorted keys, as it stands last in its run, with its values.
fn first_run<'a, K: Ord + Copy, V>(keys: &[K], values: &'a [V]) -> Option<(K, &'a [V])>
    requires sized { length keys.now ≡ length values.now }
    requires sorted { IsSorted K.cmp keys.now }
    ensures { option_map (λ e. (e.0, e.1.now)) result ≡ first_entry (grouped K.cmp (zip keys.now values.now)) }
{
    let end = run_end(keys, 1, keys.first()?);
    Some((keys[end - 1], part(values, 0..end)))
}

/// The values of the last of some sorted keys.
fn last_run<'a, K: Ord, V>(keys: &[K], values: &'a [V]) -> Option<&'a [V]>
    requires sized { length keys.now ≡ length values.now }
    requires sorted { IsSorted K.cmp keys.now }
    ensures { option_copied result ≡ last_list (grouped K.cmp (zip keys.now values.now)) }
{
    let start = last_start(keys, keys.last()?);
    Some(part(values, start..values.len()))
}

/// Each of some sorted keys once, with room for exactly its values and none of them yet.
fn empty_runs<K: Ord + Copy, V: Drop>(
    alloc: Global,
    keys: &[K],
) -> Result<Vec<(K, Vec<V>)>, AllocError>
    requires { IsSorted K.cmp keys.now }
    ensures { IfOk result (λ runs. (vs : List V) → length keys.now ≡ length vs
        → map room_of runs.items ≡ map room_for (grouped K.cmp (zip keys.now vs))) }
{
    let mut runs = Vec::new(alloc);
    let mut start = 0;
    while start < keys.len() {
        let count = run_end(part(keys, start..keys.len()), 1, &keys[start]);
        let values = Vec::with_capacity(alloc, count)?;
        runs.push((keys[start + (count - 1)], values))?;
        start += count;
    }
    Ok(runs)
}

/// Moves the next values in, as many as there is room for.
fn fill<V: Drop>(run: &mut Vec<V>, values: &mut IntoIter<V>)
    requires empty { run.old.items ≡ [] }
    requires enough { vec_capacity run.old ≤ length (into_iter_items values.old) }
    ensures run { run.new.items ≡ take (vec_capacity run.old) (into_iter_items values.old) }
    ensures left { into_iter_items values.new ≡ drop (vec_capacity run.old) (into_iter_items values.old) }
{
    let room = run.capacity();
    while run.len() < room {
        let Some(value) = values.next() else {
            unreachable!()
        };
        let Ok(()) = run.push(value) else {
            unreachable!()
        };
    }
}

/// Gives each run its values, as many as it has room for, in turn.
fn fill_runs<K, V: Drop>(runs: &mut Vec<(K, Vec<V>)>, values: Vec<V>)
    requires { (c : Content K V) × (map room_of runs.old.items ≡ map room_for c)
        × (flat_map (λ e. e.1) c ≡ values.items) }
    ensures { (c : Content K V) → map room_of runs.old.items ≡ map room_for c
        → flat_map (λ e. e.1) c ≡ values.items → map list_of runs.new.items ≡ c }
{
    let mut values = values.into_iter();
    for place in 0..runs.len() {
        fill(&mut runs[place].1, &mut values);
    }
}

/// Makes room for so many items more in two vectors, one after the other.
fn reserve_in_turn<A, B>(
    first: &mut Vec<A>,
    second: &mut Vec<B>,
    additional: usize,
) -> Result<(), Fault>
    ensures first_items { first.new.items ≡ first.old.items }
    ensures second_items { second.new.items ≡ second.old.items }
    ensures first_grows { vec_capacity first.old ≤ vec_capacity first.new }
    ensures second_grows { vec_capacity second.old ≤ vec_capacity second.new }
    ensures first_room { OnOk result (vec_len first.new + additional ≤ vec_capacity first.new) }
    ensures second_room { OnOk result (vec_len second.new + additional ≤ vec_capacity second.new) }
    ensures second_kept { OnErr result (vec_capacity second.new ≡ vec_capacity second.old) }
    ensures short { OnErr result (min (vec_capacity first.old - vec_len first.old)
        (vec_capacity second.old - vec_len second.old) < additional) }
    ensures fault { IfErr result (λ fault. fault ≡ Fault.Memory) }
{
    if first.reserve(additional).is_err() || second.reserve(additional).is_err() {
        return Err(Fault::Memory);
    }
    Ok(())
}

/// Moves the values from a place on to a vector of their own, which has room for exactly them. A refusal leaves all.
fn split_off<V: Drop>(alloc: Global, values: &mut Vec<V>, at: usize) -> Result<Vec<V>, AllocError>
    requires { at ≤ length values.old.items }
    ensures left { OnOk result (values.new.items ≡ take at values.old.items) }
    ensures moved { IfOk result (λ tail. tail.items ≡ drop at values.old.items) }
    ensures capacity { vec_capacity values.new ≡ vec_capacity values.old }
    ensures refused { OnErr result (values.new.items ≡ values.old.items) }
{
    let mut tail = Vec::with_capacity(alloc, values.len() - at)?;
    'values: while values.len() > at {
        let Some(value) = values.pop() else {
            unreachable!()
        };
        tail.push_reserved(value);
    }
    tail.reverse();
    Ok(tail)
}

/// Puts a key in behind so many times.
fn push_times<K: Copy>(keys: &mut Vec<K>, key: K, count: usize)
    requires { vec_len keys.old + count ≤ vec_capacity keys.old }
    ensures items { keys.new.items ≡ keys.old.items ++ replicate count key }
    ensures capacity { vec_capacity keys.old ≤ vec_capacity keys.new }
{
    for done in 0..count {
        let Ok(()) = keys.push(key) else {
            unreachable!()
        };
    }
}

/// From how many items on `Vec::remove` moves them some times over sooner than swaps do once.
const BLOCK: usize = 64;

/// Removes the items in a range of places. Where a few go from in front of many, these move as a block for each that goes, and else once
/// each, by a swap: `Vec::drain` moves them through a buffer of its own, and a rotation clears 4 KiB of the stack, which costs more than
/// most of a partition.
fn take_out<T: Drop>(items: &mut Vec<T>, from: usize, to: usize)
    requires order { from ≤ to }
    requires within { to ≤ length items.old.items }
    ensures items { items.new.items ≡ remove_range items.old.items from to }
    ensures capacity { vec_capacity items.new ≡ vec_capacity items.old }
{
    let count = to - from;
    if count == 0 {
        return;
    }
    if count == 1 {
        items.remove(from);
        return;
    }
    if count <= 4 && items.len() - to >= BLOCK {
        let mut end = to;
        'left: while from < end {
            items.remove(from);
            end -= 1;
        }
        return;
    }
    let mut into = from;
    let mut at = to;
    'items: while at < items.len() {
        items.swap(into, at);
        into += 1;
        at += 1;
    }
    items.truncate(into);
}

/// `keep_in_front`, of the values at a range of places.
fn keep_in_run<V, F: FnMut(&V) -> bool>(
    values: &mut [V],
    run: Range<usize>,
    should_retain: F,
) -> (usize, bool)
    requires callable { F.IsAlwaysCallable should_retain }
    requires start { run.start ≤ run.end }
    requires end { run.end ≤ length values.old }
    ensures kept { (kept : List V)
        × AsksInTurn (CalledAt F.FnMut) should_retain true (slice_range values.old run.start run.end) kept result.1
        × (take (run.start + result.0) values.new ≡ take run.start values.old ++ kept)
        × (result.0 ≡ length kept) }
    ensures within { result.0 ≤ run.end - run.start }
    ensures back { drop run.end values.new ≡ drop run.end values.old }
    ensures len { length values.new ≡ length values.old }
{
    keep_in_front(&mut values[run], should_retain, true)
}

/// Asks on the values at a range of places and on a new one behind them, as `keep_in_run` does, and leaves there those that are kept.
/// Meanwhile the new value has the place of the one behind the run, so that what stands there moves only if the run's length changes.
fn keep_with<V: Drop, F: FnMut(&V) -> bool>(
    values: &mut Vec<V>,
    run: Range<usize>,
    value: V,
    should_retain: F,
) -> (usize, bool)
    requires callable { F.IsAlwaysCallable should_retain }
    requires start { run.start ≤ run.end }
    requires end { run.end ≤ length values.old.items }
    requires room { vec_len values.old + 1 ≤ vec_capacity values.old }
    ensures kept { (kept : List V)
        × AsksInTurn (CalledAt F.FnMut) should_retain true
        (slice_range values.old.items run.start run.end ++ value ∷ []) kept result.1
        × (values.new.items ≡ take run.start values.old.items ++ kept ++ drop run.end values.old.items)
        × (result.0 ≡ length kept) }
    ensures within { result.0 ≤ run.end - run.start + 1 }
{
    let end = run.end;
    if end == values.len() {
        values.push_reserved(value);
        let (left, stays) = keep_in_run(values.as_mut_slice(), run.start..end + 1, should_retain);
        values.truncate(run.start + left);
        return (left, stays);
    }
    let behind = replace(&mut values[end], value);
    let (left, stays) = keep_in_run(values.as_mut_slice(), run.start..end + 1, should_retain);
    let from = run.start + left;
    if from > end {
        let Ok(()) = values.insert(from, behind) else {
            unreachable!()
        };
        return (left, stays);
    }
    values[end] = behind;
    take_out(values, from, end);
    (left, stays)
}

/// The keys in order, and beside each of them a value. Pairs of one key stand in a run, one behind another.
#[derive(Drop)]
pub struct Partition<K: Ord + Copy, V> {
    keys: Vec<K>,
    values: Vec<V>,
}

impl<K: Ord + Copy, V> Model for Partition<K, V> {
    ghost Value = { Pairs K V };

    ghost view = { λ p. record {
      pairs = zip p.keys.items p.values.items;
      room = min (vec_capacity p.keys - length p.keys.items) (vec_capacity p.values - length p.values.items);
    } };

    ghost invariant = { λ p. Paired K.cmp p.keys.items p.values.items };
}

impl<K: Ord + Copy, V: Drop> Partition<K, V> {
    /// No pairs.
    pub fn new(alloc: Global) -> Partition<K, V>
        ensures pairs { result.pairs ≡ [] }
        ensures room { result.room ≡ 0 }
    {
        Partition {
            keys: Vec::new(alloc),
            values: Vec::new(alloc),
        }
    }

    pub fn len(&self) -> usize
        ensures { result ≡ length self.now.pairs }
    {
        self.keys.len()
    }

    pub fn is_empty(&self) -> bool
        ensures { result ≡ (length self.now.pairs == 0) }
    {
        self.keys.is_empty()
    }

    pub fn key_at(&self, place: usize) -> K
        requires { place < length self.now.pairs }
        ensures { slice_get (keys_of self.now.pairs) place ≡ Some result }
    {
        self.keys[place]
    }

    pub fn value_at(&self, place: usize) -> &V
        requires { place < length self.now.pairs }
        ensures { slice_get (values_of self.now.pairs) place ≡ Some result.now }
    {
        &self.values[place]
    }

    /// How many pairs more it takes without asking for memory.
    pub fn room(&self) -> usize
        ensures { result ≡ self.now.room }
    {
        let keys = self.keys.capacity() - self.keys.len();
        let values = self.values.capacity() - self.values.len();
        keys.min(values)
    }

    /// Makes room for `additional` pairs more. A refusal leaves pairs and room as they were: the vector with less room comes last.
    pub fn reserve(&mut self, additional: usize) -> Result<(), Fault>
        ensures pairs { self.new.pairs ≡ self.old.pairs }
        ensures room { OnOk result (additional ≤ self.new.room) }
        ensures kept { self.old.room ≤ self.new.room }
        ensures refused { OnErr result (self.new ≡ self.old) }
        ensures short { OnErr result (self.old.room < additional) }
        ensures fault { IfErr result (λ fault. fault ≡ Fault.Memory) }
    {
        let keys = self.keys.capacity() - self.keys.len();
        let values = self.values.capacity() - self.values.len();
        if keys <= values {
            reserve_in_turn(&mut self.values, &mut self.keys, additional)
        } else {
            reserve_in_turn(&mut self.keys, &mut self.values, additional)
        }
    }

    /// Puts a pair in at a place, and moves those from there on by one. A refusal hands the value back, and leaves
    /// pairs and room as they were.
    pub fn insert_at(&mut self, place: usize, key: K, value: V) -> Result<(), Refused<V>>
        requires place { place ≤ length self.old.pairs }
        requires sorted { IsSorted K.cmp (insert (keys_of self.old.pairs) place key) }
        ensures accepted { OnOk result (self.new.pairs ≡ insert self.old.pairs place (key, value)) }
        ensures room { OnOk result (self.old.room ≤ self.new.room + 1) }
        ensures refused { OnErr result (self.new ≡ self.old) }
        ensures succeeds { 0 < self.old.room → IsOk result }
        ensures returned { IfErr result (λ r. r.value ≡ value) }
        ensures fault { IfErr result (λ r. r.fault ≡ Fault.Memory) }
    {
        if let Err(fault) = self.reserve(1) {
            return Err(Refused { value, fault });
        }
        let (Ok(()), Ok(())) = (
            self.keys.insert(place, key),
            self.values.insert(place, value),
        ) else {
            unreachable!()
        };
        Ok(())
    }

    /// Removes the pair at a place, and moves those behind it.
    pub fn remove(&mut self, place: usize) -> V
        requires { place < length self.old.pairs }
        ensures value { slice_get (values_of self.old.pairs) place ≡ Some result }
        ensures pairs { self.new.pairs ≡ remove self.old.pairs place }
        ensures room { self.new.room ≡ self.old.room + 1 }
    {
        self.keys.remove(place);
        self.values.remove(place)
    }

    /// Puts another value at a place.
    pub fn set(&mut self, place: usize, value: V)
        requires { place < length self.old.pairs }
        ensures pairs { self.new.pairs ≡ with_value self.old.pairs place value }
        ensures room { self.new.room ≡ self.old.room }
    {
        self.values[place] = value;
    }

    /// The places of the pairs of a key. Where it has none, they begin and end where a pair of it belongs.
    pub fn run_range(&self, key: &K) -> Range<usize>
        ensures { IsFound K.cmp self.now.pairs key.now result.start result.end }
    {
        let keys = self.keys.as_slice();
        let start = lower_bound(keys, key);
        start..run_end(keys, start, key)
    }

    /// The values of a key, in their order.
    pub fn values(&self, key: &K) -> &[V]
        ensures { result.now ≡ run_of K.cmp self.now.pairs key.now }
    {
        part(self.values.as_slice(), self.run_range(key))
    }

    /// A guess for `values_near`, how many of so many keys in front are below a key: of few, those up to the middle one if that is below, and
    /// else none. It makes no branch of a key, so that several partitions are read at once.
    #[inline(always)]
    pub(crate) fn guess(&self, key: &K, seen: usize) -> usize
        ensures { result ≤ seen }
    {
        let keys = self.keys.as_slice();
        let front = part(keys, 0..seen.min(keys.len()));
        if front.len() > FEW {
            return by_halves(front, |k| k.cmp(key).is_lt());
        }
        let middle = front.len() / 2;
        match front.get(middle) {
            Some(k) if k.cmp(key).is_lt() => middle + 1,
            _ => 0,
        }
    }

    /// `values`, where so many keys in front are guessed to be below the key.
    #[inline]
    pub(crate) fn values_near(&self, guess: usize, key: &K) -> &[V]
        ensures { result.now ≡ run_of K.cmp self.now.pairs key.now }
    {
        let keys = self.keys.as_slice();
        let start = bound_near(keys, guess, key);
        part(self.values.as_slice(), start..run_end(keys, start, key))
    }

    /// All values, in the order of their keys.
    pub fn values_iter(&self) -> slice::Iter<'_, V>
        ensures values { iter_rest result ≡ values_of self.now.pairs }
        ensures sorted { IsSorted K.cmp (keys_of self.now.pairs) }
    {
        self.values.iter()
    }

    /// Removes the whole run of a key, and moves the pairs behind it.
    pub fn remove_run(&mut self, range: Range<usize>)
        requires { (k : K) × IsRun K.cmp self.old.pairs k range.start range.end }
        ensures pairs { self.new.pairs ≡ remove_range self.old.pairs range.start range.end }
        ensures room { self.new.room ≡ self.old.room + (range.end - range.start) }
    {
        take_out(&mut self.keys, range.start, range.end);
        take_out(&mut self.values, range.start, range.end);
    }

    /// Calls the closure once for each value of a key's run, in order, and removes those for which it returns false. Returns how many are
    /// left, and the last answer: true where the run is empty. The pairs behind the run move once.
    pub(crate) fn retain_run<F: FnMut(&V) -> bool>(
        &mut self,
        key: K,
        run: Range<usize>,
        should_retain: F,
    ) -> (usize, bool)
        requires callable { F.IsAlwaysCallable should_retain }
        requires found { IsFound K.cmp self.old.pairs key run.start run.end }
        requires exact { (a b : K) → K.cmp a b ≡ Equal → a ≡ b }
        ensures kept { (kept : List V)
            × AsksInTurn (CalledAt F.FnMut) should_retain true (list_at K.cmp (grouped K.cmp self.old.pairs) key)
            kept result.1
            × (grouped K.cmp self.new.pairs ≡ with_list K.cmp (grouped K.cmp self.old.pairs) key kept)
            × (result.0 ≡ length kept) }
    {
        let (left, stays) = keep_in_run(
            self.values.as_mut_slice(),
            run.start..run.end,
            should_retain,
        );
        let from = run.start + left;
        take_out(&mut self.keys, from, run.end);
        take_out(&mut self.values, from, run.end);
        (left, stays)
    }

    /// `retain_run`, with a new value behind those of the key. It has room for one pair more, so it takes no memory.
    pub(crate) fn retain_run_with<F: FnMut(&V) -> bool>(
        &mut self,
        key: K,
        run: Range<usize>,
        value: V,
        should_retain: F,
    ) -> (usize, bool)
        requires callable { F.IsAlwaysCallable should_retain }
        requires found { IsFound K.cmp self.old.pairs key run.start run.end }
        requires exact { (a b : K) → K.cmp a b ≡ Equal → a ≡ b }
        requires room { 0 < self.old.room }
        ensures kept { (kept : List V)
            × AsksInTurn (CalledAt F.FnMut) should_retain true
            (list_at K.cmp (grouped K.cmp self.old.pairs) key ++ value ∷ []) kept result.1
            × (grouped K.cmp self.new.pairs ≡ with_list K.cmp (grouped K.cmp self.old.pairs) key kept)
            × (result.0 ≡ length kept) }
    {
        let (start, end) = (run.start, run.end);
        let (left, stays) = keep_with(&mut self.values, run, value, should_retain);
        if left > end - start {
            let Ok(()) = self.keys.insert(end, key) else {
                unreachable!()
            };
            return (left, stays);
        }
        take_out(&mut self.keys, start + left, end);
        (left, stays)
    }

    /// The values of the least key. None where it holds no pair.
    pub fn first_values(&self) -> Option<&[V]>
        ensures { option_copied result ≡ first_list (grouped K.cmp self.now.pairs) }
    {
        let (_, values) = self.first_entry()?;
        Some(values)
    }

    /// The least key, with its values. None where it holds no pair.
    pub fn first_entry(&self) -> Option<(K, &[V])>
        ensures { option_map (λ e. (e.0, e.1.now)) result ≡ first_entry (grouped K.cmp self.now.pairs) }
    {
        first_run(self.keys.as_slice(), self.values.as_slice())
    }

    /// The values of the greatest key. None where it holds no pair.
    pub fn last_values(&self) -> Option<&[V]>
        ensures { option_copied result ≡ last_list (grouped K.cmp self.now.pairs) }
    {
        last_run(self.keys.as_slice(), self.values.as_slice())
    }

    /// The values of the least key above a key. None where there is no such key.
    pub fn next_values_after(&self, key: &K) -> Option<&[V]>
        ensures { option_copied result ≡ first_list (entries_above K.cmp (grouped K.cmp self.now.pairs) key.now) }
    {
        let (_, values) = self.next_entry_after(key)?;
        Some(values)
    }

    /// The least key above a key, with its values. None where there is no such key.
    #[inline(always)]
    pub fn next_entry_after(&self, key: &K) -> Option<(K, &[V])>
        ensures { option_map (λ e. (e.0, e.1.now)) result
            ≡ first_entry (entries_above K.cmp (grouped K.cmp self.now.pairs) key.now) }
    {
        let (keys, values) = (self.keys.as_slice(), self.values.as_slice());
        let start = upper_bound(keys, key);
        first_run(
            part(keys, start..keys.len()),
            part(values, start..values.len()),
        )
    }

    /// The values of the greatest key below a key. None where there is no such key.
    pub fn prev_values_before(&self, key: &K) -> Option<&[V]>
        ensures { option_copied result ≡ last_list (entries_below K.cmp (grouped K.cmp self.now.pairs) key.now) }
    {
        let (keys, values) = (self.keys.as_slice(), self.values.as_slice());
        let end = lower_bound(keys, key);
        last_run(part(keys, 0..end), part(values, 0..end))
    }

    /// Removes all pairs, as one list of values for each key, in the order of the keys, and gives their memory back.
    /// It has room for all of them before the first value moves, and a refusal leaves pairs and room as they were.
    pub fn drain_runs(&mut self) -> Result<Vec<(K, Vec<V>)>, Fault>
        ensures runs { IfOk result (λ runs. map list_of runs.items ≡ grouped K.cmp self.old.pairs) }
        ensures emptied { OnOk result (self.new.pairs ≡ []) }
        ensures room { OnOk result (self.new.room ≡ 0) }
        ensures refused { OnErr result (self.new ≡ self.old) }
        ensures fault { IfErr result (λ fault. fault ≡ Fault.Memory) }
    {
        let alloc = self.alloc();
        let Ok(mut runs) = empty_runs(alloc, self.keys.as_slice()) else {
            return Err(Fault::Memory);
        };
        self.keys = Vec::new(alloc);
        fill_runs(&mut runs, replace(&mut self.values, Vec::new(alloc)));
        Ok(runs)
    }

    /// Where it takes its memory.
    #[inline]
    pub(crate) fn alloc(&self) -> Global {
        *self.keys.allocator()
    }

    /// Removes the run of the greatest key: the key, its first value, and the others. A refusal leaves all pairs.
    pub(crate) fn pop_run(&mut self) -> Result<(K, V, Vec<V>), AllocError>
        requires some { 0 < length self.old.pairs }
        requires exact { (a b : K) → K.cmp a b ≡ Equal → a ≡ b }
        ensures run { IfOk result (λ run.
            self.old.pairs ≡ self.new.pairs ++ pairs_with run.0 (run.1 ∷ run.2.items)) }
        ensures below { IfOk result (λ run. All (λ k. K.cmp k run.0 ≡ Less) (keys_of self.new.pairs)) }
        ensures room { IfOk result (λ run. self.new.room ≡ self.old.room + (1 + length run.2.items)) }
        ensures refused { OnErr result (self.new ≡ self.old) }
    {
        let (key, start) = last_key(self.keys.as_slice());
        let tail = split_off(*self.keys.allocator(), &mut self.values, start + 1)?;
        let Some(head) = self.values.pop() else {
            unreachable!()
        };
        self.keys.truncate(start);
        Ok((key, head, tail))
    }

    /// Puts a run in behind all pairs. It has room for them, so it takes no memory, and moves no pair that it holds.
    pub(crate) fn push_run(&mut self, key: K, head: V, mut tail: Vec<V>)
        requires room { 1 + length tail.items ≤ self.old.room }
        requires last { All (λ k. is_lt (K.cmp key k) ≡ false) (keys_of self.old.pairs) }
        ensures pairs { self.new.pairs ≡ self.old.pairs ++ pairs_with key (head ∷ tail.items) }
        ensures room { self.old.room ≤ self.new.room + (1 + length tail.items) }
    {
        push_times(&mut self.keys, key, 1 + tail.len());
        let (Ok(()), Ok(())) = (self.values.push(head), self.values.append(&mut tail)) else {
            unreachable!()
        };
    }
}
