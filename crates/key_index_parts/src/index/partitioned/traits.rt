//! What the indices in partitions have in common, and their ranges.
ghost use Rattle.std.specs.Prelude.{◌≡◌, ◌↔◌, ℕ, Bool, ◌+◌, ◌<◌, ◌≤◌, List, [], not, nat_eq, IsTrue, IfErr, OnOk, OnErr, IfOk};
ghost use Rattle.std.specs.Fn.{CalledAt};
ghost use Rattle.key_index_flat.specs.Content.{key_count};
ghost use Rattle.key_index_flat.specs.FullKeys.{IsBytes};
ghost use Rattle.key_index_flat.specs.View.{items_in, after_insert, growth_fault_in, Admits, AlsoAt, StaysBut};
ghost use Rattle.key_index_flat.specs.Values.{values_of, VisitsEach};
ghost use Rattle.key_index_parts.specs.Joined.{IsFree, IsSpanKept, is_between, install_fault, joined_view};

use key_index_flat::index::{Fault, Refused, Search, Unordered};

/// Some neighbouring partitions of an index, apart from it: what they hold is read and changed by the same keys as in the index, and is
/// then installed in it. A range has `insert`, `get_mut` and `get_mut_or_insert` as an index has them, for a key that it `holds`.
pub trait PartitionRange: Search {
    ghost INSERT_FIRST: { Bool };

    ghost offset: { Self → ℕ };

    ghost count: { Self → ℕ };

    /// Whether the range covers the key's partition.
    fn holds(&self, key: &[u8]) -> bool
        ensures { IsTrue result ↔ Admits (Self.view self.now) key.now };

    /// Adds a value as `insert` of the range's index does.
    fn insert(&mut self, key: &[u8], value: Self::Value) -> Result<(), Refused<Self::Value>>
        requires admits { Admits (Self.view self.old) key.now }
        ensures accepted { OnOk result (Self.view self.new
            ≡ after_insert Self.Key.cmp INSERT_FIRST (Self.view self.old) key.now value) }
        ensures settled { OnOk result (AlsoAt Self.view Self.settled self.old key.now self.new) }
        ensures room { OnOk result (items_in (Self.view self.old) < usize.MAX) }
        ensures refused { OnErr result (StaysBut Self.view Self.left_by_refusal self.old key.now self.new) }
        ensures returned { IfErr result (λ r. r.value ≡ value) }
        ensures fault { IfErr result (λ r. r.fault ≡ growth_fault_in (Self.view self.old)) };

    /// The first partition that the range covers.
    fn offset(&self) -> usize
        ensures { result ≡ offset self.now };

    /// How many partitions the range covers.
    fn count(&self) -> usize
        ensures { result ≡ count self.now };

    /// How many index keys the range has.
    fn keys(&self) -> usize
        ensures { result ≡ key_count (Self.view self.now).content };

    /// How many values the range has.
    fn items(&self) -> usize
        ensures { result ≡ items_in (Self.view self.now) };

    /// How many held values were ever removed, as far as the greatest `u64`.
    fn pruned(&self) -> u64
        ensures { result ≡ (Self.view self.now).pruned };

    /// Visits each value once, in no certain order.
    fn for_each_value<F: FnMut(&Self::Value)>(&self, visit: F)
        requires { F.IsAlwaysCallable visit }
        ensures { (last : F)
            × VisitsEach (CalledAt F.FnMut) visit (values_of (Self.view self.now).content) last };

    ghost edits_within: { (x y : Self) → Self.edited x y → IsSpanKept offset count x y };

    ghost settles_within: { (x : Self) (k : Self.Key) (y : Self) → Self.settled x k y → IsSpanKept offset count x y };

    ghost refuses_within: { (x : Self) (k : Self.Key) (y : Self) → Self.left_by_refusal x k y
        → IsSpanKept offset count x y };

    ghost covers: { (x : Self) → IsFree Self.Key.cmp (λ k. not ((Self.view x).admitted k)) (Self.view x).content };
}

/// An index whose content can be built in ranges of partitions, each apart from the others. `partition` is that of an index key, and
/// `prefix` that of a key's bytes.
pub trait Partitioned: Unordered {
    type Range: PartitionRange<Value = Self::Value, Key = Self::Key> + Drop;

    ghost partitions: { ℕ };

    ghost partition: { Self.Key → ℕ };

    ghost prefix: { List ℕ → ℕ };

    /// How many partitions there are.
    fn partition_count(&self) -> usize
        ensures { result ≡ partitions };

    /// The partition of a key.
    fn partition_of(key: &[u8]) -> usize
        ensures { result ≡ prefix key.now };

    /// Whether the index has no value under any key of a partition.
    fn partition_is_empty(&self, number: usize) -> bool
        requires { number < partitions }
        ensures { IsTrue result
            ↔ IsFree Self.Key.cmp (λ k. nat_eq (partition k) number) (Self.view self.now).content };

    /// A range of so many partitions from one on, with nothing in it. It takes room for these alone.
    fn new_range(&self, offset: usize, count: usize) -> Result<Self::Range, Fault>
        requires { offset + count ≤ partitions }
        ensures empty { IfOk result (λ r. (Self.Range.view r).content ≡ []) }
        ensures pruned { IfOk result (λ r. (Self.Range.view r).pruned ≡ 0) }
        ensures slots { IfOk result (λ r. (Self.Range.view r).slot ≡ (Self.view self.now).slot) }
        ensures offset { IfOk result (λ r. Self.Range.offset r ≡ offset) }
        ensures count { IfOk result (λ r. Self.Range.count r ≡ count) }
        ensures fault { IfErr result (λ f. f ≡ Fault.Memory) };

    /// Whether each partition that the range covers is empty here.
    fn can_install(&self, range: &Self::Range) -> bool
        ensures { IsTrue result
            ↔ IsFree Self.Key.cmp (Self.Range.view range.now).admitted (Self.view self.now).content };

    /// Takes each partition of a range in as it stands, and adds the range's counts. A refusal hands the range back as it was,
    /// and leaves the index as it was: `Full` exactly where the index would hold more than `usize::MAX` values, and else
    /// `Memory`.
    fn install_range(&mut self, range: Self::Range) -> Result<(), (Self::Range, Fault)>
        requires { IsFree Self.Key.cmp (Self.Range.view range).admitted (Self.view self.old).content }
        ensures accepted { OnOk result (Self.view self.new
            ≡ joined_view Self.Key.cmp (Self.view self.old) (Self.Range.view range)) }
        ensures refused { OnErr result (Self.view self.new ≡ Self.view self.old) }
        ensures room { OnOk result (items_in (Self.view self.old) + items_in (Self.Range.view range) ≤ usize.MAX) }
        ensures returned { IfErr result (λ e. e.0 ≡ range) }
        ensures fault { IfErr result (λ e. e.1
            ≡ install_fault (items_in (Self.view self.old)) (items_in (Self.Range.view range))) };

    ghost one_end: { Self.Range.INSERT_FIRST ≡ Self.INSERT_FIRST };

    ghost files: { (x : Self) (b : List ℕ) → IsBytes b → partition ((Self.view x).slot b) ≡ prefix b };

    ghost within: { (b : List ℕ) → IsBytes b → prefix b < partitions };

    ghost covered: { (r : Self.Range) (k : Self.Key) → (Self.Range.view r).admitted k
        ≡ is_between (Self.Range.offset r) (Self.Range.offset r + Self.Range.count r) (partition k) };
}
