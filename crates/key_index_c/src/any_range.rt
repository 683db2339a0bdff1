//! A range of any kind: some neighbouring partitions of an index, apart from it.
ghost use Rattle.std.specs.Prelude.{◌≡◌, ◌≢◌, ◌⊎◌, ◌+◌, ◌<◌, ◌≤◌, length, nat_le, if◌then◌else◌, IfErr, IfOk, IsTrue, OnOk};
ghost use Rattle.key_index_flat.specs.View as view;
ghost use Rattle.key_index_c.specs.Any.{any_view, inserts_first, kind_of};
ghost use Rattle.key_index_c.specs.Calls.{AreKeys};
ghost use Rattle.key_index_c.specs.Ranges.{CanInstall, IsCoveredAt, IsNewRange, after_offer, after_offers, is_covered, range_kind, range_refusal, range_view, with_range};
ghost use Rattle.key_index_c.specs.Status.{status_of};
ghost use Rattle.key_index_c.specs.Views.{items_in};
ghost use Rattle.std.specs.Ordering.{nat_cmp};
ghost use Rattle.key_index_parts.specs.Gathered.{pair_cmp};
ghost use Rattle.key_index_parts.specs.Joined.{IsFree, is_between};
ghost use Rattle.key_index_parts.specs.Ranges.{empty_view};

use crate::any::{Any, Many};
use crate::status::{self, BAD_ARGUMENT, FULL, OK};
use key_index_flat::index::Unordered;
use key_index_flat::translator::EightCap;
use key_index_parts::index::partitioned::{PartitionRange, Partitioned, ordered, unordered};

/// Some neighbouring partitions of an index in partitions, apart from it.
#[derive(Drop)]
pub enum AnyRange {
    /// Of an unordered index in partitions by the first byte.
    UnorderedByOne(unordered::RangeIndex<EightCap, u64, 1>),
    /// Of an unordered index in partitions by the first two bytes.
    UnorderedByTwo(unordered::RangeIndex<EightCap, u64, 2>),
    /// Of an ordered index in partitions by the first byte.
    OrderedByOne(ordered::RangeIndex<EightCap, u64, 1>),
    /// Of an ordered index in partitions by the first two bytes.
    OrderedByTwo(ordered::RangeIndex<EightCap, u64, 2>),
}

// A range of a kind, or why none was made.
macro_rules! ranged {
    ($kind:path, $range:expr) => {
        match $range {
            Ok(range) => Ok($kind(range)),
            Err(status) => Err(status),
        }
    };
}

// A call that is the same for an index and a range of each kind, if it is one kind.
macro_rules! paired {
    ($any:expr, $any_range:expr, $index:ident, $range:ident => $call:expr, $else:expr) => {
        match $any_range {
            AnyRange::UnorderedByOne($range) => match $any {
                Any::UnorderedByOne($index) => $call,
                _ => $else,
            },
            AnyRange::UnorderedByTwo($range) => match $any {
                Any::UnorderedByTwo($index) => $call,
                _ => $else,
            },
            AnyRange::OrderedByOne($range) => match $any {
                Any::OrderedByOne($index) => $call,
                _ => $else,
            },
            AnyRange::OrderedByTwo($range) => match $any {
                Any::OrderedByTwo($index) => $call,
                _ => $else,
            },
        }
    };
}

impl Any {
    /// A range of so many partitions from one on, with no values, or why there is none.
    pub(crate) fn new_range(&self, first: usize, count: usize) -> Result<AnyRange, u32>
        ensures made { IfOk result (λ range. IsNewRange (kind_of self.now) (any_view self.now) first count
            (range_kind range) (range_view range)) }
        ensures fault { IfErr result (λ status. status ≡ range_refusal (kind_of self.now) first count) }
    {
        match self {
            Any::UnorderedByOne(index) => {
                ranged!(AnyRange::UnorderedByOne, new_range(index, first, count))
            }
            Any::UnorderedByTwo(index) => {
                ranged!(AnyRange::UnorderedByTwo, new_range(index, first, count))
            }
            Any::OrderedByOne(index) => {
                ranged!(AnyRange::OrderedByOne, new_range(index, first, count))
            }
            Any::OrderedByTwo(index) => {
                ranged!(AnyRange::OrderedByTwo, new_range(index, first, count))
            }
            _ => Err(BAD_ARGUMENT),
        }
    }

    /// Whether a range can be installed: `OK`, or why not.
    pub(crate) fn can_install(&self, range: &AnyRange) -> u32
        ensures free { result ≢ BAD_ARGUMENT
            → CanInstall (kind_of self.now) (any_view self.now) (range_kind range.now) (range_view range.now) }
        ensures taken { CanInstall (kind_of self.now) (any_view self.now) (range_kind range.now) (range_view range.now)
            → result ≢ BAD_ARGUMENT }
        ensures room { result ≡ OK
            → items_in (any_view self.now) + view.items_in (range_view range.now) ≤ usize.MAX }
        ensures full { result ≡ FULL
            → usize.MAX < items_in (any_view self.now) + view.items_in (range_view range.now) }
        ensures status { (result ≡ OK) ⊎ (result ≡ FULL) ⊎ (result ≡ BAD_ARGUMENT) }
    {
        paired!(self, range, index, range => can_install(index, range), BAD_ARGUMENT)
    }

    /// Takes each partition of a range in as it stands.
    pub(crate) fn install(&mut self, range: AnyRange)
        requires free { CanInstall (kind_of self.old) (any_view self.old) (range_kind range) (range_view range) }
        requires room { items_in (any_view self.old) + view.items_in (range_view range) ≤ usize.MAX }
        ensures kind { kind_of self.new ≡ kind_of self.old }
        ensures installed { any_view self.new ≡ with_range (any_view self.old) (range_view range) }
    {
        paired!(self, range, index, range => match index.install_range(range) {
            Ok(()) => {}
            Err(_) => unreachable!(),
        }, unreachable!())
    }
}

impl AnyRange {
    /// Goes through keys that stand behind one another, each up to its end, and inserts the values under those that the range covers, until
    /// one is refused.
    pub(crate) fn insert_many(&mut self, keys: &[u8], ends: &[usize], values: &[u64]) -> Many
        requires { AreKeys keys.now ends.now (length values.now) }
        ensures kind { range_kind self.new ≡ range_kind self.old }
        ensures inserted { range_view self.new ≡ after_offers (pair_cmp nat_cmp) (inserts_first (range_kind self.old))
            (range_view self.old) keys.now ends.now values.now result.count }
        ensures whole { result.status ≡ OK → result.count ≡ length values.now }
        ensures refused { result.status ≢ OK → IsCoveredAt (range_view self.old) keys.now ends.now result.count }
        ensures keyed { result.status ≢ BAD_ARGUMENT }
        ensures status { (result.status ≡ OK)
            ⊎ (result.status ≡ status_of (view.growth_fault_in (range_view self.new))) }
    {
        match self {
            AnyRange::UnorderedByOne(range) => insert_many(range, keys, ends, values),
            AnyRange::UnorderedByTwo(range) => insert_many(range, keys, ends, values),
            AnyRange::OrderedByOne(range) => insert_many(range, keys, ends, values),
            AnyRange::OrderedByTwo(range) => insert_many(range, keys, ends, values),
        }
    }
}

/// A range of so many partitions from one on, with no values, or why there is none.
fn new_range<I: Partitioned<Value = u64>>(
    index: &I,
    first: usize,
    count: usize,
) -> Result<I::Range, u32>
    ensures made { IfOk result (λ range. I.Range.view range
        ≡ empty_view (I.view index.now).slot (λ slot. is_between first (first + count) (I.partition slot))) }
    ensures within { OnOk result (first + count ≤ I.partitions) }
    ensures fault { IfErr result (λ status. status ≡ (if nat_le (first + count) I.partitions then 1 else 4)) }
{
    let partitions = index.partition_count();
    if first > partitions || count > partitions - first {
        return Err(BAD_ARGUMENT);
    }
    match index.new_range(first, count) {
        Ok(range) => Ok(range),
        Err(fault) => Err(status::of(fault)),
    }
}

/// Whether a range can be installed: `OK`, or why not.
fn can_install<I: Partitioned<Value = u64>>(index: &I, range: &I::Range) -> u32
    ensures free { result ≢ BAD_ARGUMENT
        → IsFree I.Key.cmp (I.Range.view range.now).admitted (I.view index.now).content }
    ensures taken { IsFree I.Key.cmp (I.Range.view range.now).admitted (I.view index.now).content
        → result ≢ BAD_ARGUMENT }
    ensures room { result ≡ OK
        → view.items_in (I.view index.now) + view.items_in (I.Range.view range.now) ≤ usize.MAX }
    ensures full { result ≡ FULL
        → usize.MAX < view.items_in (I.view index.now) + view.items_in (I.Range.view range.now) }
    ensures status { (result ≡ OK) ⊎ (result ≡ FULL) ⊎ (result ≡ BAD_ARGUMENT) }
{
    if !index.can_install(range) {
        BAD_ARGUMENT
    } else if range.items() > usize::MAX - index.items() {
        FULL
    } else {
        OK
    }
}

/// Goes through keys that stand behind one another, each up to its end, and inserts the values under those that the range covers, until one
/// is refused.
fn insert_many<R: PartitionRange<Value = u64>>(
    range: &mut R,
    keys: &[u8],
    ends: &[usize],
    values: &[u64],
) -> Many
    requires { AreKeys keys.now ends.now (length values.now) }
    ensures inserted { R.view range.new
        ≡ after_offers R.Key.cmp R.INSERT_FIRST (R.view range.old) keys.now ends.now values.now result.count }
    ensures whole { result.status ≡ OK → result.count ≡ length values.now }
    ensures refused { result.status ≢ OK → IsCoveredAt (R.view range.old) keys.now ends.now result.count }
    ensures keyed { result.status ≢ BAD_ARGUMENT }
    ensures status { (result.status ≡ OK)
        ⊎ (result.status ≡ status_of (view.growth_fault_in (R.view range.new))) }
{
    let mut start = 0;
    for (count, end) in ends.iter().enumerate() {
        let status = insert(range, &keys[start..*end], values[count]);
        if status != OK {
            return Many { count, status };
        }
        start = *end;
    }
    Many {
        count: ends.len(),
        status: OK,
    }
}

/// Inserts a value under a key, if the range covers it, and tells the status.
#[inline(always)]
fn insert<R: PartitionRange<Value = u64>>(range: &mut R, key: &[u8], value: u64) -> u32
    ensures inserted { result ≡ OK
        → R.view range.new ≡ after_offer R.Key.cmp R.INSERT_FIRST (R.view range.old) key.now value }
    ensures refused { result ≢ OK → R.view range.new ≡ R.view range.old }
    ensures covered { result ≢ OK → IsTrue (is_covered (R.view range.old) key.now) }
    ensures keyed { result ≢ BAD_ARGUMENT }
    ensures status { (result ≡ OK) ⊎ (result ≡ status_of (view.growth_fault_in (R.view range.old))) }
{
    if !range.holds(key) {
        return OK;
    }
    match range.insert(key, value) {
        Ok(()) => OK,
        Err(refused) => status::of(refused.fault),
    }
}
