//! An index of any kind.
ghost use Rattle.std.specs.Prelude.{◌≡◌, ◌≢◌, ◌<◌, ◌⊎◌, ◌↔◌, ◌&&◌, [], true, false, length, is_some, IfOk, IfErr, IfSome, IsTrue, nat_lt};
ghost use Rattle.key_index_flat.specs.View as view;
ghost use Rattle.key_index_flat.specs.View.{run_of};
ghost use Rattle.key_index_c.specs.Any.{HasLists, IsNew, any_view, held_under, inserts_first, is_ordered, kind_of, may_want};
ghost use Rattle.key_index_c.specs.Buffer.{filled};
ghost use Rattle.key_index_c.specs.Calls.{AreKeys, Shows, ShowsMany, after_inserts, found_in, lists_of, place_of, values_of};
ghost use Rattle.key_index_c.specs.Changes as change;
ghost use Rattle.key_index_c.specs.Changes.{neighbour_list, not_cycled};
ghost use Rattle.key_index_c.specs.Status.{kind_refusal, status_of};
ghost use Rattle.key_index_c.specs.Views.{after_insert, after_kept, after_remove, after_removed, after_replaced, counts_in, growth_fault_in, items_in, neighbour_of};

use crate::status::{self, BAD_ARGUMENT, MEMORY, OK};
use key_index::index::immutable;
use key_index_flat::index::implement::Lists;
use key_index_flat::index::{Factory, Ordered, Unordered, Values, ordered, unordered};
use key_index_flat::translator::{EightCap, Hashed, SeededSha256};
use key_index_parts::index::partitioned;
use std::alloc::Global;

/// An index by eight bytes: the first ones of a key, of what follows the bytes that pick a partition, or of the key's hash.
#[derive(Drop)]
pub enum Any {
    /// Hashed, with no order.
    Unordered(unordered::Index<EightCap, u64>),
    /// A tree, with neighbours.
    Ordered(ordered::Index<EightCap, u64>),
    /// Hashed, by a hash of whole keys that a seed picks.
    Seeded(unordered::Index<Hashed<EightCap, SeededSha256>, u64>),
    /// Hashed, in partitions by the first byte.
    UnorderedByOne(partitioned::unordered::Index<EightCap, u64, 1>),
    /// Hashed, in partitions by the first two bytes.
    UnorderedByTwo(partitioned::unordered::Index<EightCap, u64, 2>),
    /// Sorted arrays or trees, in partitions by the first byte.
    OrderedByOne(partitioned::ordered::Index<EightCap, u64, 1>),
    /// Sorted arrays or trees, in partitions by the first two bytes.
    OrderedByTwo(partitioned::ordered::Index<EightCap, u64, 2>),
    /// By position: keys that are inserted once, and removed by position alone.
    Immutable(immutable::Index<EightCap>),
    /// The same by a hash of whole keys that a seed picks.
    ImmutableSeeded(immutable::Index<Hashed<EightCap, SeededSha256>>),
}

/// The kind of an unordered index.
pub const UNORDERED: u32 = 0;
/// The kind of an ordered index.
pub const ORDERED: u32 = 1;
/// The kind of an unordered index over hashes by a seed.
pub const SEEDED: u32 = 2;
/// The kind of an unordered index in partitions by one byte.
pub const UNORDERED_BY_ONE: u32 = 3;
/// The kind of an unordered index in partitions by two bytes.
pub const UNORDERED_BY_TWO: u32 = 4;
/// The kind of an ordered index in partitions by one byte.
pub const ORDERED_BY_ONE: u32 = 5;
/// The kind of an ordered index in partitions by two bytes.
pub const ORDERED_BY_TWO: u32 = 6;

/// The next key, or the first one if there is none above.
pub const NEXT: u32 = 0;
/// The previous key, or the last one if there is none below.
pub const PREV: u32 = 1;
/// The first key.
pub const FIRST: u32 = 2;
/// The last key.
pub const LAST: u32 = 3;

/// How many values a key has, and the first one.
#[repr(C)]
#[derive(Drop)]
pub struct Found {
    /// How many.
    pub count: usize,
    /// The first one, 0 where there is none.
    pub first: u64,
}

/// What an index counts.
#[repr(C)]
#[derive(Drop)]
pub struct Counts {
    /// How many keys there are.
    pub keys: usize,
    /// How many values there are.
    pub items: usize,
    /// How many values were ever removed. The count stops at `u64::MAX`.
    pub pruned: u64,
}

/// What a call for the values of a neighbour tells.
#[repr(C)]
#[derive(Drop)]
pub struct Neighbour {
    /// How many values the neighbour has, 0 where there is none.
    pub count: usize,
    /// `OK`, or `BAD_ARGUMENT` where the index has no order or no neighbour has the number.
    pub status: u32,
    /// Whether it was found around the end.
    pub cycled: bool,
}

/// What a call with many keys tells.
#[repr(C)]
#[derive(Drop)]
pub struct Many {
    /// How many were inserted, or gone through for a range, from the first one on; how many values they have.
    pub count: usize,
    /// `OK`; why the next one was refused; `BAD_ARGUMENT` if the ends are none of so many keys.
    pub status: u32,
}

// A call that is the same for an index of each kind that has lists.
macro_rules! each {
    ($any:expr, $index:ident => $call:expr) => {
        match $any {
            Any::Unordered($index) => $call,
            Any::Ordered($index) => $call,
            Any::Seeded($index) => $call,
            Any::UnorderedByOne($index) => $call,
            Any::UnorderedByTwo($index) => $call,
            Any::OrderedByOne($index) => $call,
            Any::OrderedByTwo($index) => $call,
            Any::Immutable(_) | Any::ImmutableSeeded(_) => unreachable!(),
        }
    };
}

impl Any {
    /// An index of a kind, with no values. Only a seeded one takes the seed.
    pub(crate) fn new(alloc: Global, kind: u32, seed: u64) -> Result<Any, u32>
        ensures made { IfOk result (λ any. IsNew kind seed (kind_of any) (any_view any)) }
        ensures fault { IfErr result (λ status. status ≡ kind_refusal kind) }
    {
        use partitioned::{ordered as sorted, unordered as hashed};
        match kind {
            UNORDERED => made!(Any::Unordered, unordered::Index::new(alloc, EightCap)),
            ORDERED => made!(Any::Ordered, ordered::Index::new(alloc, EightCap)),
            SEEDED => {
                let hashed = Hashed::from_seed(seed, EightCap);
                made!(Any::Seeded, unordered::Index::new(alloc, hashed))
            }
            UNORDERED_BY_ONE => made!(Any::UnorderedByOne, hashed::Index::new(alloc, EightCap)),
            UNORDERED_BY_TWO => made!(Any::UnorderedByTwo, hashed::Index::new(alloc, EightCap)),
            ORDERED_BY_ONE => made!(Any::OrderedByOne, sorted::Index::new(alloc, EightCap)),
            ORDERED_BY_TWO => made!(Any::OrderedByTwo, sorted::Index::new(alloc, EightCap)),
            _ => Err(BAD_ARGUMENT),
        }
    }

    /// Inserts a value under a key, and tells the status.
    pub(crate) fn insert(&mut self, key: &[u8], value: u64) -> u32
        requires lists { HasLists (kind_of self.old) }
        ensures kind { kind_of self.new ≡ kind_of self.old }
        ensures accepted { result ≡ OK
            → any_view self.new ≡ after_insert (inserts_first (kind_of self.old)) (any_view self.old) key.now value }
        ensures room { result ≡ OK → items_in (any_view self.old) < usize.MAX }
        ensures refused { result ≢ OK → any_view self.new ≡ any_view self.old }
        ensures status { (result ≡ OK) ⊎ (result ≡ status_of (growth_fault_in (any_view self.old))) }
    {
        each!(self, index => insert(index, key, value))
    }

    /// Inserts values under keys that stand behind one another, each up to its end, until one is refused.
    pub(crate) fn insert_many(&mut self, keys: &[u8], ends: &[usize], values: &[u64]) -> Many
        requires lists { HasLists (kind_of self.old) }
        requires keys { AreKeys keys.now ends.now (length values.now) }
        ensures kind { kind_of self.new ≡ kind_of self.old }
        ensures inserted { any_view self.new ≡ after_inserts (inserts_first (kind_of self.old))
            (any_view self.old) keys.now ends.now values.now result.count }
        ensures whole { result.status ≡ OK → result.count ≡ length values.now }
        ensures next { result.status ≢ OK → result.count < length values.now }
        ensures keyed { result.status ≢ BAD_ARGUMENT }
        ensures status { (result.status ≡ OK) ⊎ (result.status ≡ status_of (growth_fault_in (any_view self.new))) }
    {
        let mut start = 0;
        for (count, end) in ends.iter().enumerate() {
            let status = self.insert(&keys[start..*end], values[count]);
            if status != OK {
                return Many { count, status };
            }
            start = *end;
        }
        Many {
            count: ends.len(),
            status: OK,
        }
    }

    /// Writes the values of a key to a buffer, as many as it has room for, and tells how many the key has.
    pub(crate) fn get(&self, key: &[u8], buffer: &mut [u64]) -> usize
        requires lists { HasLists (kind_of self.now) }
        ensures count { result ≡ length (held_under self.now key.now) }
        ensures values { buffer.new ≡ filled (held_under self.now key.now) buffer.old }
    {
        each!(self, index => copy(index.get(key), buffer))
    }

    /// Writes the values of many keys to a buffer, as many as it has room for, and where those of each key end. Tells how many there are,
    /// as far as a `usize` goes.
    pub(crate) fn get_many(
        &self,
        keys: &[u8],
        ends: &[usize],
        buffer: &mut [u64],
        stops: &mut [usize],
    ) -> usize
        requires lists { HasLists (kind_of self.now) }
        requires keys { AreKeys keys.now ends.now (length stops.old) }
        ensures { ShowsMany (values_of (any_view self.now) keys.now ends.now)
            (length ends.now) result buffer.old buffer.new stops.new }
    {
        each!(self, index => get_many(index, keys, ends, buffer, stops))
    }

    /// How many values a key has, and the first one. A flat unordered index is the one whose look-ups cost least, so this is inlined with
    /// that of its look-up for keys that aren't padded, and calls those of the others.
    #[inline(always)]
    pub(crate) fn find(&self, key: &[u8]) -> Found
        requires { HasLists (kind_of self.now) }
        ensures { result ≡ found_in (held_under self.now key.now) }
    {
        match self {
            Any::Unordered(index) if key.len() >= 8 => front(index, key),
            other => other.find_apart(key),
        }
    }

    #[inline(never)]
    fn find_apart(&self, key: &[u8]) -> Found
        requires { HasLists (kind_of self.now) }
        ensures { result ≡ found_in (held_under self.now key.now) }
    {
        each!(self, index => front(index, key))
    }

    /// Removes a key with all its values, and tells the status.
    pub(crate) fn remove(&mut self, key: &[u8]) -> u32
        requires lists { HasLists (kind_of self.old) }
        ensures kind { kind_of self.new ≡ kind_of self.old }
        ensures removed { result ≡ OK → any_view self.new ≡ after_remove (any_view self.old) key.now }
        ensures refused { result ≢ OK → any_view self.new ≡ any_view self.old }
        ensures status { (result ≡ OK) ⊎ ((result ≡ MEMORY) × IsTrue (may_want (kind_of self.old))) }
    {
        each!(self, index => remove(index, key))
    }

    /// Removes the first value of a key that equals a value, and tells whether there was one.
    pub(crate) fn remove_value(&mut self, key: &[u8], value: u64) -> bool
        requires lists { HasLists (kind_of self.old) }
        ensures kind { kind_of self.new ≡ kind_of self.old }
        ensures found { result ≡ is_some (place_of value (held_under self.old key.now)) }
        ensures removed { any_view self.new ≡ after_removed (any_view self.old) key.now
            (place_of value (held_under self.old key.now)) }
    {
        each!(self, index => remove_value(index, key, value))
    }

    /// Puts another value in the place of the first value of a key that equals a value, and tells whether there was one.
    pub(crate) fn replace_value(&mut self, key: &[u8], value: u64, new: u64) -> bool
        requires lists { HasLists (kind_of self.old) }
        ensures kind { kind_of self.new ≡ kind_of self.old }
        ensures found { result ≡ is_some (place_of value (held_under self.old key.now)) }
        ensures replaced { any_view self.new ≡ after_replaced (any_view self.old) key.now
            (place_of value (held_under self.old key.now)) new }
    {
        each!(self, index => replace_value(index, key, value, new))
    }

    /// Keeps those values of a key whose byte of a mask is not 0, and tells the status.
    pub(crate) fn keep(&mut self, key: &[u8], mask: &[u8]) -> u32
        requires lists { HasLists (kind_of self.old) }
        requires mask { length mask.now ≡ length (held_under self.old key.now) }
        ensures kind { kind_of self.new ≡ kind_of self.old }
        ensures kept { result ≡ OK → any_view self.new ≡ after_kept (any_view self.old) key.now mask.now }
        ensures refused { result ≢ OK → any_view self.new ≡ any_view self.old }
        ensures status { (result ≡ OK) ⊎ ((result ≡ MEMORY) × IsTrue (may_want (kind_of self.old))) }
    {
        each!(self, index => keep(index, key, mask))
    }

    /// How many keys and values there are, and how many values were ever removed.
    pub(crate) fn counts(&self) -> Counts
        requires { HasLists (kind_of self.now) }
        ensures { result ≡ counts_in (any_view self.now) }
    {
        each!(self, index => Counts {
            keys: index.keys(),
            items: index.items(),
            pruned: index.pruned(),
        })
    }

    /// Writes the values of a neighbour of a key, told by a number.
    pub(crate) fn neighbour(&self, which: u32, key: &[u8], buffer: &mut [u64]) -> Neighbour
        requires { HasLists (kind_of self.now) }
        ensures { Shows (is_ordered (kind_of self.now) && nat_lt which 4)
            (neighbour_of which (any_view self.now) key.now) result buffer.old buffer.new }
    {
        match self {
            Any::Ordered(index) => show_neighbour(index, which, key, buffer),
            Any::OrderedByOne(index) => show_neighbour(index, which, key, buffer),
            Any::OrderedByTwo(index) => show_neighbour(index, which, key, buffer),
            Any::Unordered(_) | Any::Seeded(_) => no_order(),
            Any::UnorderedByOne(_) | Any::UnorderedByTwo(_) => no_order(),
            Any::Immutable(_) | Any::ImmutableSeeded(_) => unreachable!(),
        }
    }
}

/// Inserts a value under a key, and tells the status.
fn insert<I: Unordered<Value = u64>>(index: &mut I, key: &[u8], value: u64) -> u32
    ensures accepted { result ≡ OK
        → I.view index.new ≡ view.after_insert I.Key.cmp I.INSERT_FIRST (I.view index.old) key.now value }
    ensures room { result ≡ OK → view.items_in (I.view index.old) < usize.MAX }
    ensures refused { result ≢ OK → I.view index.new ≡ I.view index.old }
    ensures status { (result ≡ OK) ⊎ (result ≡ status_of (view.growth_fault_in (I.view index.old))) }
{
    match index.insert(key, value) {
        Ok(()) => OK,
        Err(refused) => status::of(refused.fault),
    }
}

/// Writes the values of many keys to a buffer, and where those of each key end, and tells how many there are, as far as a `usize` goes.
fn get_many<I: Unordered<Value = u64>>(
    index: &I,
    keys: &[u8],
    ends: &[usize],
    buffer: &mut [u64],
    stops: &mut [usize],
) -> usize
    requires { AreKeys keys.now ends.now (length stops.old) }
    ensures { ShowsMany (lists_of (run_of I.Key.cmp (I.view index.now)) keys.now ends.now)
        (length ends.now) result buffer.old buffer.new stops.new }
{
    let mut start = 0;
    let mut count: usize = 0;
    for (number, end) in ends.iter().enumerate() {
        let from = count.min(buffer.len());
        let values = index.get(&keys[start..*end]);
        count = count.saturating_add(copy(values, &mut buffer[from..]));
        stops[number] = count;
        start = *end;
    }
    count
}

/// Removes a key with all its values, and tells the status.
fn remove<I: Unordered<Value = u64>>(index: &mut I, key: &[u8]) -> u32
    ensures removed { result ≡ OK → I.view index.new ≡ view.after_remove I.Key.cmp (I.view index.old) key.now }
    ensures refused { result ≢ OK → I.view index.new ≡ I.view index.old }
    ensures status { (result ≡ OK)
        ⊎ ((result ≡ MEMORY) × IsTrue (I.may_refuse index.old ((I.view index.old).slot key.now))) }
{
    match index.remove(key) {
        Ok(()) => OK,
        Err(fault) => status::of(fault),
    }
}

/// Removes the first value of a key that equals a value, and tells whether there was one.
fn remove_value<I: Lists<Value = u64>>(index: &mut I, key: &[u8], value: u64) -> bool
    ensures found { result ≡ is_some (place_of value (run_of I.Key.cmp (I.view index.old) key.now)) }
    ensures removed { I.view index.new ≡ change.after_removed I.Key.cmp (I.view index.old) key.now
        (place_of value (run_of I.Key.cmp (I.view index.old) key.now)) }
{
    let slot = index.slot_of(key);
    match place_of(index.list_at(slot), value) {
        None => false,
        Some(place) => {
            index.remove_at(slot, place);
            true
        }
    }
}

/// Puts another value in the place of the first value of a key that equals a value, and tells whether there was one.
fn replace_value<I: Lists<Value = u64>>(index: &mut I, key: &[u8], value: u64, new: u64) -> bool
    ensures found { result ≡ is_some (place_of value (run_of I.Key.cmp (I.view index.old) key.now)) }
    ensures replaced { I.view index.new ≡ change.after_replaced I.Key.cmp (I.view index.old) key.now
        (place_of value (run_of I.Key.cmp (I.view index.old) key.now)) new }
{
    let slot = index.slot_of(key);
    match place_of(index.list_at(slot), value) {
        None => false,
        Some(place) => {
            index.set_at(slot, place, new);
            true
        }
    }
}

/// Keeps those values of a key whose byte of a mask is not 0, and tells the status.
fn keep<I: Unordered<Value = u64>>(index: &mut I, key: &[u8], mask: &[u8]) -> u32
    requires { length mask.now ≡ length (run_of I.Key.cmp (I.view index.old) key.now) }
    ensures kept { result ≡ OK
        → I.view index.new ≡ change.after_kept I.Key.cmp (I.view index.old) key.now mask.now }
    ensures refused { result ≢ OK → I.view index.new ≡ I.view index.old }
    ensures status { (result ≡ OK)
        ⊎ ((result ≡ MEMORY) × IsTrue (I.may_refuse index.old ((I.view index.old).slot key.now))) }
{
    let mut rest = mask;
    let retained = index.retain(key, move |_| match rest.split_first() {
        None => false,
        Some((byte, left)) => {
            rest = left;
            *byte != 0
        }
    });
    match retained {
        Ok(()) => OK,
        Err(fault) => status::of(fault),
    }
}

/// What a call with many keys tells of ends that are none of so many.
pub(crate) fn no_keys() -> Many
    ensures { result ≡ record { count = 0; status = BAD_ARGUMENT } }
{
    Many {
        count: 0,
        status: BAD_ARGUMENT,
    }
}

/// Whether these are the ends of so many keys.
pub(crate) fn are_keys(keys: &[u8], ends: &[usize], count: usize) -> bool
    ensures { IsTrue result ↔ AreKeys keys.now ends.now count }
{
    if ends.len() != count {
        return false;
    }
    let mut start = 0;
    for end in ends {
        if *end < start || keys.len() < *end {
            return false;
        }
        start = *end;
    }
    true
}

/// The values of a neighbour of a key, told by a number.
fn show_neighbour<I: Ordered<Value = u64>>(
    index: &I,
    which: u32,
    key: &[u8],
    buffer: &mut [u64],
) -> Neighbour
    ensures { Shows (nat_lt which 4)
        (neighbour_list I.Key.cmp which (I.view index.now) key.now) result buffer.old buffer.new }
{
    match which {
        NEXT => show(index.next_translated_key(key), buffer),
        PREV => show(index.prev_translated_key(key), buffer),
        FIRST => show(end(index.first_translated_key()), buffer),
        LAST => show(end(index.last_translated_key()), buffer),
        _ => no_order(),
    }
}

/// What an index with no order tells.
fn no_order() -> Neighbour
    ensures { result ≡ record { count = 0; status = BAD_ARGUMENT; cycled = false } }
{
    Neighbour {
        count: 0,
        status: BAD_ARGUMENT,
        cycled: false,
    }
}

/// The list at an end, which is not found around it.
fn end<'a>(list: Option<Values<'a, u64>>) -> Option<(Values<'a, u64>, bool)>
    ensures { result ≡ not_cycled list.entry }
{
    match list {
        None => None,
        Some(values) => Some((values, false)),
    }
}

/// Writes the values of a neighbour to a buffer, as many as it has room for.
fn show(neighbour: Option<(Values<'_, u64>, bool)>, buffer: &mut [u64]) -> Neighbour
    ensures { Shows true neighbour.entry result buffer.old buffer.new }
{
    let (count, cycled) = match neighbour {
        None => (0, false),
        Some((values, cycled)) => (copy(values, buffer), cycled),
    };
    Neighbour {
        count,
        status: OK,
        cycled,
    }
}

/// How many values a key has, and the first one.
#[inline(always)]
fn front<I: Unordered<Value = u64>>(index: &I, key: &[u8]) -> Found
    ensures { result ≡ found_in (run_of I.Key.cmp (I.view index.now) key.now) }
{
    let mut values = index.get(key);
    Found {
        count: values.len(),
        first: match values.next() {
            None => 0,
            Some(value) => *value,
        },
    }
}

/// The place of the first of some values that equals a value.
fn place_of(mut values: Values<'_, u64>, value: u64) -> Option<usize>
    ensures place { result ≡ place_of value values.entry }
    ensures within { IfSome result (λ place. place < length values.entry) }
{
    values.position(|held| *held == value)
}

/// Writes values to a buffer, as many as it has room for, and tells how many there are. Most lists have one value, which is written in
/// place.
#[inline(always)]
fn copy(mut values: Values<'_, u64>, buffer: &mut [u64]) -> usize
    ensures count { result ≡ length values.entry }
    ensures values { buffer.new ≡ filled values.entry buffer.old }
{
    let count = values.len();
    let Some((first, rest)) = buffer.split_first_mut() else {
        return count;
    };
    let Some(value) = values.next() else {
        return count;
    };
    *first = *value;
    if count > 1 {
        copy_all(values, rest);
    }
    count
}

/// Writes values to a buffer, as many as it has room for.
#[inline(never)]
fn copy_all(mut values: Values<'_, u64>, buffer: &mut [u64])
    ensures { buffer.new ≡ filled values.entry buffer.old }
{
    let mut place = 0;
    while place < buffer.len() {
        let Some(value) = values.next() else {
            break;
        };
        buffer[place] = *value;
        place += 1;
    }
}
