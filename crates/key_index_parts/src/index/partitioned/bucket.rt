//! The bucket of a partition: what it holds, by the translated keys there.
ghost use Rattle.std.specs.Prelude.{◌≡◌, ◌+◌, ◌<◌, ◌≤◌, ◌&&◌, Bool, false, IsTrue, [], ◌∷◌, length, not, slice_get, slice_set, insert, remove, Some, None, IfOk, IfErr, OnOk, OnErr};
ghost use Rattle.std.specs.Fn.{CalledAt};
ghost use Rattle.key_index_flat.specs.Content.{Content, IsLawful, is_filled, item_count, lacks, list_at, with_list, with_list_by};
ghost use Rattle.key_index_flat.specs.Neighbours.{first_entry, last_list, entries_above, entries_below};
ghost use Rattle.key_index_flat.specs.View.{put_value};
ghost use Rattle.key_index_flat.specs.Values.{VisitsEach, values_of};
ghost use Rattle.key_index_parts.specs.Buckets.{RetainsList, account, stays_spilled};
ghost use Rattle.key_index_parts.specs.Standing.{IsCalled, IsLeftBy, IsRemoved, is_due, settled};

pub(super) mod hash_bucket;
mod sorted_arrays;
pub(super) mod sorted_bucket;
mod tree;

use super::counts::Moves;
use key_index_flat::index::Values;
use key_index_flat::index::implement::Retained;
use key_index_flat::translator::Translator;
use std::alloc::{AllocError, Global};

/// What holds a map from a bucket's keys to lists. `spilled` tells whether that is a tree, which a bucket without values never is.
pub(super) trait Contents<T: Translator, V> {
    ghost content: { Self → Content T.Key V };

    ghost spilled: { Self → Bool };

    ghost lawful: { (x : Self) → IsLawful T.Key.cmp (content x) };

    ghost filled: { (x : Self) → IsTrue (spilled x) → 0 < item_count (content x) };
}

/// A bucket as it is read.
pub(super) trait ReadBucket<T: Translator, V>: Contents<T, V> {
    fn is_empty(&self) -> bool
        ensures { result ≡ not (is_filled (Self.content self.now)) };

    fn get(&self, key: T::Key) -> Values<'_, V>
        ensures { result ≡ list_at T.Key.cmp (Self.content self.now) key };

    fn run_len(&self, key: T::Key) -> usize
        ensures { result ≡ length (list_at T.Key.cmp (Self.content self.now) key) };

    fn value_at(&self, key: T::Key, place: usize) -> &V
        requires { place < length (list_at T.Key.cmp (Self.content self.now) key) }
        ensures { slice_get (list_at T.Key.cmp (Self.content self.now) key) place ≡ Some result.now };

    /// Visits each value once, in no certain order.
    fn for_each_value<F: FnMut(&V)>(&self, visit: &mut F)
        requires { F.IsAlwaysCallable visit.old }
        ensures callable { F.IsAlwaysCallable visit.new }
        ensures visits { VisitsEach (CalledAt F.FnMut) visit.old (values_of (Self.content self.now)) visit.new };
}

/// A bucket that knows the order of its keys.
pub(super) trait OrderedBucket<T: Translator, V>: ReadBucket<T, V> {
    /// The least key, with its list.
    fn first(&self) -> Option<(T::Key, Values<'_, V>)>
        ensures { result ≡ first_entry (Self.content self.now) };

    /// The list of the greatest key.
    fn last(&self) -> Option<Values<'_, V>>
        ensures { result ≡ last_list (Self.content self.now) };

    /// The least key above a key, with its list.
    fn above(&self, key: T::Key) -> Option<(T::Key, Values<'_, V>)>
        ensures { result ≡ first_entry (entries_above T.Key.cmp (Self.content self.now) key) };

    /// The list of the greatest key below a key.
    fn below(&self, key: T::Key) -> Option<Values<'_, V>>
        ensures { result ≡ last_list (entries_below T.Key.cmp (Self.content self.now) key) };
}

/// The changes that leave values in arrays or in a tree as they are, but for a tree that is left with none.
pub(super) trait EditBucket<T: Translator, V>: ReadBucket<T, V> {
    fn set_at(&mut self, key: T::Key, place: usize, value: V)
        requires { place < length (list_at T.Key.cmp (Self.content self.old) key) }
        ensures content { Self.content self.new
            ≡ with_list_by T.Key.cmp (Self.content self.old) key (λ l. slice_set l place value) }
        ensures standing { Self.spilled self.new ≡ stays_spilled (Self.spilled self.old) (Self.content self.new) };

    /// Puts a value in at a place of the key's list, or behind its last one, and tells whether the key had none.
    fn insert_at(&mut self, key: T::Key, place: usize, value: V) -> Result<bool, V>
        requires { place ≤ length (list_at T.Key.cmp (Self.content self.old) key) }
        ensures accepted { IfOk result (λ absent.
            (Self.content self.new ≡ with_list_by T.Key.cmp (Self.content self.old) key (λ l. insert l place value))
            × (absent ≡ lacks T.Key.cmp (Self.content self.old) key)) }
        ensures standing { OnOk result
            (Self.spilled self.new ≡ stays_spilled (Self.spilled self.old) (Self.content self.new)) }
        ensures refused { OnErr result (Self.content self.new ≡ Self.content self.old) }
        ensures stands { OnErr result (Self.spilled self.new ≡ Self.spilled self.old) }
        ensures returned { IfErr result (λ back. back ≡ value) };

    /// Removes the value at a place, and tells how many values the key has left.
    fn remove_at(&mut self, key: T::Key, place: usize) -> (V, usize)
        requires { place < length (list_at T.Key.cmp (Self.content self.old) key) }
        ensures value { slice_get (list_at T.Key.cmp (Self.content self.old) key) place ≡ Some result.0 }
        ensures content { Self.content self.new
            ≡ with_list_by T.Key.cmp (Self.content self.old) key (λ l. remove l place) }
        ensures standing { Self.spilled self.new ≡ stays_spilled (Self.spilled self.old) (Self.content self.new) }
        ensures left { result.1 + 1 ≡ length (list_at T.Key.cmp (Self.content self.old) key) };
}

/// One of the two forms of a bucket that spills: arrays, or a tree.
pub(super) trait Representation<T: Translator, V>: EditBucket<T, V> {
    /// Puts a value in behind those of the key, and tells whether the key had none.
    fn insert(&mut self, key: T::Key, value: V) -> Result<bool, V>
        ensures accepted { IfOk result (λ absent.
            (Self.content self.new ≡ with_list_by T.Key.cmp (Self.content self.old) key (put_value false value))
            × (absent ≡ lacks T.Key.cmp (Self.content self.old) key)) }
        ensures refused { OnErr result (Self.content self.new ≡ Self.content self.old) }
        ensures returned { IfErr result (λ back. back ≡ value) };

    /// Puts a new value in, if there is one, behind those of the key, then calls the closure once for each of them, in list order, and
    /// removes those for which it returns false.
    fn retain<F: FnMut(&V) -> bool>(
        &mut self,
        key: T::Key,
        new: &mut Option<V>,
        should_retain: F,
    ) -> Result<Retained, V>
        requires { F.IsAlwaysCallable should_retain }
        ensures accepted { IfOk result (λ told. RetainsList (CalledAt F.FnMut) should_retain
            (list_at T.Key.cmp (Self.content self.old) key) new.old told
            (λ l. Self.content self.new ≡ with_list T.Key.cmp (Self.content self.old) key l)) }
        ensures refused { OnErr result (Self.content self.new ≡ Self.content self.old) }
        ensures taken { new.new ≡ None }
        ensures returned { IfErr result (λ back. new.old ≡ Some back) };

    /// Removes the key, and tells how many values it had.
    fn remove(&mut self, key: T::Key) -> usize
        ensures content { Self.content self.new ≡ with_list T.Key.cmp (Self.content self.old) key [] }
        ensures taken { result ≡ length (list_at T.Key.cmp (Self.content self.old) key) };
}

/// A bucket of an index. A refusal is an allocation failure, and leaves the content as it was. `SPILLS` tells whether buckets of this kind
/// ever spill. The calls by key spill a bucket that is due first, and one that stands in arrays with `threshold` values or more by what they
/// put in; those that remove values move a bucket that they leave small back to arrays last, where there is memory for it. They count what
/// they move. No other call moves values.
pub(super) trait Bucket<T: Translator, V>: EditBucket<T, V> {
    ghost FIRST: { Bool };

    ghost SPILLS: { Bool };

    /// A bucket that holds nothing, of an index with a translator. Takes no memory.
    fn new(alloc: Global, translator: T) -> Self
        ensures content { Self.content result ≡ [] }
        ensures standing { Self.spilled result ≡ false };

    /// Spills a bucket that is due: all its values, or none after an allocation failure.
    fn settle(&mut self, moves: &mut Moves) -> Result<(), AllocError>
        ensures content { Self.content self.new ≡ Self.content self.old }
        ensures settled { OnOk result (account (Self.content self.new) (Self.spilled self.new) moves.new
            ≡ settled SPILLS (account (Self.content self.old) (Self.spilled self.old) moves.old)) }
        ensures stands { OnErr result (account (Self.content self.new) (Self.spilled self.new) moves.new
            ≡ account (Self.content self.old) (Self.spilled self.old) moves.old) }
        ensures due { OnErr result (IsTrue (SPILLS
            && is_due (account (Self.content self.old) (Self.spilled self.old) moves.old))) };

    /// Puts a value in at its end of the key's list, and tells whether the key had none.
    fn insert(&mut self, key: T::Key, value: V, moves: &mut Moves) -> Result<bool, V>
        ensures accepted { IfOk result (λ absent.
            (Self.content self.new ≡ with_list_by T.Key.cmp (Self.content self.old) key (put_value FIRST value))
            × (absent ≡ lacks T.Key.cmp (Self.content self.old) key)) }
        ensures standing { OnOk result (IsCalled SPILLS
            (account (Self.content self.old) (Self.spilled self.old) moves.old)
            (account (Self.content self.new) (Self.spilled self.new) moves.new)) }
        ensures refused { OnErr result (Self.content self.new ≡ Self.content self.old) }
        ensures left { OnErr result (IsLeftBy SPILLS
            (account (Self.content self.old) (Self.spilled self.old) moves.old)
            (account (Self.content self.new) (Self.spilled self.new) moves.new)) }
        ensures returned { IfErr result (λ back. back ≡ value) };

    /// Puts a value under a key that has none, and tells how many values the key had.
    fn insert_absent(&mut self, key: T::Key, value: V, moves: &mut Moves) -> Result<usize, V>
        ensures found { IfOk result (λ had. 0 < had → Self.content self.new ≡ Self.content self.old) }
        ensures inserted { IfOk result (λ had. had ≡ 0 →
            Self.content self.new ≡ with_list T.Key.cmp (Self.content self.old) key (value ∷ [])) }
        ensures len { IfOk result (λ had. had ≡ length (list_at T.Key.cmp (Self.content self.old) key)) }
        ensures standing { OnOk result (IsCalled SPILLS
            (account (Self.content self.old) (Self.spilled self.old) moves.old)
            (account (Self.content self.new) (Self.spilled self.new) moves.new)) }
        ensures refused { OnErr result (Self.content self.new ≡ Self.content self.old) }
        ensures left { OnErr result (IsLeftBy SPILLS
            (account (Self.content self.old) (Self.spilled self.old) moves.old)
            (account (Self.content self.new) (Self.spilled self.new) moves.new)) }
        ensures returned { IfErr result (λ back. back ≡ value) };

    /// Puts a new value in, if there is one, behind those of the key, which takes all the memory that the call may need, a spill's with it.
    /// Then calls the closure once for each of them, in list order, and removes those for which it returns false.
    fn retain<F: FnMut(&V) -> bool>(
        &mut self,
        key: T::Key,
        new: &mut Option<V>,
        should_retain: F,
        moves: &mut Moves,
    ) -> Result<Retained, Option<V>>
        requires { F.IsAlwaysCallable should_retain }
        ensures accepted { IfOk result (λ told. RetainsList (CalledAt F.FnMut) should_retain
            (list_at T.Key.cmp (Self.content self.old) key) new.old told
            (λ l. Self.content self.new ≡ with_list T.Key.cmp (Self.content self.old) key l)) }
        ensures standing { OnOk result (IsRemoved SPILLS
            (account (Self.content self.old) (Self.spilled self.old) moves.old)
            (account (Self.content self.new) (Self.spilled self.new) moves.new)) }
        ensures refused { OnErr result (Self.content self.new ≡ Self.content self.old) }
        ensures left { OnErr result (IsLeftBy SPILLS
            (account (Self.content self.old) (Self.spilled self.old) moves.old)
            (account (Self.content self.new) (Self.spilled self.new) moves.new)) }
        ensures stands { OnErr result (new.old ≡ None →
            account (Self.content self.new) (Self.spilled self.new) moves.new
            ≡ account (Self.content self.old) (Self.spilled self.old) moves.old) }
        ensures due { OnErr result (new.old ≡ None → IsTrue (SPILLS
            && is_due (account (Self.content self.old) (Self.spilled self.old) moves.old))) }
        ensures taken { new.new ≡ None }
        ensures returned { IfErr result (λ back. back ≡ new.old) };

    /// Removes the key, and tells how many values it had.
    fn remove(&mut self, key: T::Key, moves: &mut Moves) -> Result<usize, AllocError>
        ensures removed { OnOk result (Self.content self.new ≡ with_list T.Key.cmp (Self.content self.old) key []) }
        ensures taken { IfOk result (λ had. had ≡ length (list_at T.Key.cmp (Self.content self.old) key)) }
        ensures standing { OnOk result (IsRemoved SPILLS
            (account (Self.content self.old) (Self.spilled self.old) moves.old)
            (account (Self.content self.new) (Self.spilled self.new) moves.new)) }
        ensures refused { OnErr result (Self.content self.new ≡ Self.content self.old) }
        ensures stands { OnErr result (account (Self.content self.new) (Self.spilled self.new) moves.new
            ≡ account (Self.content self.old) (Self.spilled self.old) moves.old) }
        ensures due { OnErr result (IsTrue (SPILLS
            && is_due (account (Self.content self.old) (Self.spilled self.old) moves.old))) };
}
