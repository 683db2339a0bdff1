//! A bucket as sorted arrays or, spilled, as a tree.
ghost use Rattle.std.specs.Prelude.{◌≡◌, ◌<◌, ◌≤◌, ◌++◌, true, false, if◌then◌else◌, [], length, Some, None, is_some, IfOk, IfErr, IfSome, OnOk, OnErr};
ghost use Rattle.std.specs.Fn.{CalledAt};
ghost use Rattle.key_index_flat.specs.Content.{IsLawful, item_count, lacks, list_at, with_list, with_list_by};
ghost use Rattle.key_index_flat.specs.View.{put_value};
ghost use Rattle.key_index_parts.specs.Buckets.{Grows, RetainsList, account, stays_spilled};
ghost use Rattle.key_index_parts.specs.Form.{HoldsSome, HoldsSome-prop, held_by, is_spilled};
ghost use Rattle.key_index_parts.specs.Pairs.{grouped};
ghost use Rattle.key_index_parts.specs.Spread.{AreBelow, spread};
ghost use Rattle.key_index_parts.specs.Standing.{Returns};

use super::sorted_arrays::SortedArrays;
use super::tree::Tree;
use super::{Bucket, Contents, EditBucket, OrderedBucket, ReadBucket, Representation};
use crate::index::partitioned::counts::Moves;
use crate::index::partitioned::ordered::partition::Partition;
use key_index_flat::index::Values;
use key_index_flat::index::implement::{Back, ListMap, Retained, TreeMap};
use key_index_flat::translator::Translator;
use std::alloc::{AllocError, Global};
use std::mem::replace;

/// The form of a bucket that spills.
#[derive(Drop)]
enum Form<A, B> {
    Inline(A),
    Spilled(B),
}

/// A bucket as sorted arrays or, spilled, as a tree in a box, which then holds something.
#[derive(Drop)]
pub struct SortedBucket<T: Translator, V> {
    form: Form<SortedArrays<T, V>, Box<Tree<T, V>>>,
    /// Zero. It makes a bucket as large as a line of memory, so that a look-up reads one line of it and not two.
    unused: u64,
    ghost filled: { HoldsSome (λ t. t.lists.content) form } by { HoldsSome-prop _ form },
}

/// Moves the runs of arrays in front of some lists, the last one first. The arrays keep their memory; a failure leaves some in each.
fn runs_into_lists<T: Translator, V: Drop>(
    arrays: &mut Partition<T::Key, V>,
    lists: &mut ListMap<T, V, TreeMap<T::Key, V>, Back>,
) -> Result<(), AllocError>
    requires empty { lists.old.content ≡ [] }
    ensures whole { arrays.new.pairs ++ spread lists.new.content ≡ arrays.old.pairs }
    ensures emptied { OnOk result (arrays.new.pairs ≡ []) }
    ensures room { item_count lists.new.content ≤ arrays.new.room }
    ensures apart { AreBelow T.Key.cmp arrays.new.pairs lists.new.content }
    ensures lawful { IsLawful T.Key.cmp lists.new.content }
{
    'runs: while !arrays.is_empty() {
        let (key, head, tail) = arrays.pop_run()?;
        if let Err((head, tail)) = lists.insert_list(key, head, tail) {
            arrays.push_run(key, head, tail);
            return Err(AllocError);
        }
    }
    Ok(())
}

/// Moves lists behind the pairs of arrays that have room for them, without growth.
fn lists_into_runs<T: Translator, V: Drop>(
    lists: &mut ListMap<T, V, TreeMap<T::Key, V>, Back>,
    arrays: &mut Partition<T::Key, V>,
)
    requires room { item_count lists.old.content ≤ arrays.old.room }
    requires apart { AreBelow T.Key.cmp arrays.old.pairs lists.old.content }
    requires lawful { IsLawful T.Key.cmp lists.old.content }
    ensures { arrays.new.pairs ≡ arrays.old.pairs ++ spread lists.old.content }
{
    'lists: while let Some((key, head, tail)) = lists.pop_first() {
        arrays.push_run(key, head, tail);
    }
}

/// Stands as arrays that hold nothing where a tree was left with nothing.
fn drop_emptied<T: Translator, V: Drop>(form: &mut Form<SortedArrays<T, V>, Box<Tree<T, V>>>)
    ensures content { held_by T.Key.cmp (λ t. t.lists.content) form.new
        ≡ held_by T.Key.cmp (λ t. t.lists.content) form.old }
    ensures standing { is_spilled form.new
        ≡ stays_spilled (is_spilled form.old) (held_by T.Key.cmp (λ t. t.lists.content) form.new) }
    ensures filled { HoldsSome (λ t. t.lists.content) form.new }
{
    let Form::Spilled(tree) = &*form else {
        return;
    };
    if tree.is_empty() {
        let alloc = *Box::allocator(tree);
        *form = Form::Inline(SortedArrays::new(alloc));
    }
}

/// Moves the values of arrays to a tree, all or none. The arrays keep their memory, so that the values can move back.
fn into_tree<T: Translator, V: Drop>(
    arrays: &mut SortedArrays<T, V>,
) -> Result<Box<Tree<T, V>>, AllocError>
    ensures tree { IfOk result (λ tree. tree.value.lists.content ≡ grouped T.Key.cmp arrays.old.pairs.pairs) }
    ensures emptied { OnOk result (arrays.new.pairs.pairs ≡ []) }
    ensures room { OnOk result (item_count (grouped T.Key.cmp arrays.old.pairs.pairs) ≤ arrays.new.pairs.room) }
    ensures refused { OnErr result (arrays.new.pairs.pairs ≡ arrays.old.pairs.pairs) }
{
    let alloc = arrays.alloc();
    let len = arrays.len();
    let Ok(mut tree) = Box::new(alloc, Tree::new(alloc)) else {
        return Err(AllocError);
    };
    let mut lists = ListMap::new(alloc, TreeMap::new(alloc));
    match runs_into_lists(&mut arrays.pairs, &mut lists) {
        Ok(()) => {
            *tree = Tree::of_lists(lists, len);
            Ok(tree)
        }
        Err(failed) => {
            lists_into_runs(&mut lists, &mut arrays.pairs);
            Err(failed)
        }
    }
}

/// Moves the values of a tree to arrays that hold nothing and have room for them, without growth.
fn into_arrays<T: Translator, V: Drop>(tree: Tree<T, V>, arrays: &mut SortedArrays<T, V>)
    requires empty { arrays.old.pairs.pairs ≡ [] }
    requires room { item_count tree.lists.content ≤ arrays.old.pairs.room }
    ensures { grouped T.Key.cmp arrays.new.pairs.pairs ≡ tree.lists.content }
{
    let mut lists = tree.into_lists();
    lists_into_runs(&mut lists, &mut arrays.pairs);
}

impl<T: Translator, V> Contents<T, V> for SortedBucket<T, V> {
    ghost use Rattle.key_index_parts.specs.Form.{IsLawful-held_by, filled-held_by};

    ghost content = { λ bucket. held_by T.Key.cmp (λ t. t.lists.content) bucket.form };

    ghost spilled = { λ bucket. is_spilled bucket.form };

    ghost lawful = { λ bucket. IsLawful-held_by T.Key.cmp (λ t. t.lists.content) T.Key.total (λ t. t.counted.lawful)
        bucket.form };

    ghost filled = { λ bucket h. filled-held_by T.Key.cmp (λ t. t.lists.content) bucket.form bucket.filled h };
}

impl<T: Translator, V: Drop> SortedBucket<T, V> {
    /// A guess how many keys of the arrays are below a key, where they have so many.
    #[inline(always)]
    pub(crate) fn guess(&self, key: T::Key, seen: usize) -> usize
        ensures { result ≤ seen }
    {
        match &self.form {
            Form::Inline(arrays) => arrays.pairs.guess(&key, seen),
            Form::Spilled(_) => 0,
        }
    }

    /// The values of a key, by a guess where they begin. None where it is spilled.
    #[inline(always)]
    pub(crate) fn run_near(&self, key: T::Key, guess: usize) -> Option<&[V]>
        ensures { IfSome result (λ run.
            run.now ≡ list_at T.Key.cmp (held_by T.Key.cmp (λ t. t.lists.content) self.now.form) key) }
    {
        match &self.form {
            Form::Inline(arrays) => Some(arrays.run_near(key, guess)),
            Form::Spilled(_) => None,
        }
    }
}

impl<T: Translator, V: Drop> ReadBucket<T, V> for SortedBucket<T, V> {
    #[inline]
    fn is_empty(&self) -> bool {
        match &self.form {
            Form::Inline(arrays) => arrays.is_empty(),
            Form::Spilled(_) => false,
        }
    }

    #[inline(always)]
    fn get(&self, key: T::Key) -> Values<'_, V> {
        match &self.form {
            Form::Inline(arrays) => arrays.get(key),
            Form::Spilled(tree) => tree.get(key),
        }
    }

    #[inline(always)]
    fn run_len(&self, key: T::Key) -> usize {
        match &self.form {
            Form::Inline(arrays) => arrays.run_len(key),
            Form::Spilled(tree) => tree.run_len(key),
        }
    }

    #[inline(always)]
    fn value_at(&self, key: T::Key, place: usize) -> &V {
        match &self.form {
            Form::Inline(arrays) => arrays.value_at(key, place),
            Form::Spilled(tree) => tree.value_at(key, place),
        }
    }

    fn for_each_value<F: FnMut(&V)>(&self, visit: &mut F) {
        match &self.form {
            Form::Inline(arrays) => arrays.for_each_value(visit),
            Form::Spilled(tree) => tree.for_each_value(visit),
        }
    }
}

impl<T: Translator, V: Drop> EditBucket<T, V> for SortedBucket<T, V> {
    #[inline(always)]
    fn set_at(&mut self, key: T::Key, place: usize, value: V) {
        match &mut self.form {
            Form::Inline(arrays) => arrays.set_at(key, place, value),
            Form::Spilled(tree) => tree.set_at(key, place, value),
        }
    }

    fn insert_at(&mut self, key: T::Key, place: usize, value: V) -> Result<bool, V> {
        match &mut self.form {
            Form::Inline(arrays) => arrays.insert_at(key, place, value),
            Form::Spilled(tree) => tree.insert_at(key, place, value),
        }
    }

    fn remove_at(&mut self, key: T::Key, place: usize) -> (V, usize) {
        match &mut self.form {
            Form::Inline(arrays) => arrays.remove_at(key, place),
            Form::Spilled(tree) => {
                let removed = tree.remove_at(key, place);
                drop_emptied(&mut self.form);
                removed
            }
        }
    }
}

/// What the calls by key are made of: edits of the bucket as it stands, and the moves of all its values.
impl<T: Translator, V: Drop> SortedBucket<T, V> {
    /// How many values stand in arrays: all of them, or none where it is spilled.
    #[inline]
    pub(crate) fn inline_len(&self) -> usize
        ensures { result ≡ (if is_spilled self.now.form then 0 else item_count (held_by T.Key.cmp (λ t. t.lists.content) self.now.form)) }
    {
        match &self.form {
            Form::Inline(arrays) => arrays.len(),
            Form::Spilled(_) => 0,
        }
    }

    #[inline]
    pub(crate) fn is_spilled(&self) -> bool
        ensures { result ≡ is_spilled self.now.form }
    {
        match &self.form {
            Form::Inline(_) => false,
            Form::Spilled(_) => true,
        }
    }

    /// Moves the values from the arrays to a tree, all or none: after an allocation failure those that moved are back in the arrays.
    #[inline(never)]
    fn spill(&mut self) -> Result<(), AllocError>
        requires { 0 < (if is_spilled self.old.form then 0 else item_count (held_by T.Key.cmp (λ t. t.lists.content) self.old.form)) }
        ensures content { held_by T.Key.cmp (λ t. t.lists.content) self.new.form
            ≡ held_by T.Key.cmp (λ t. t.lists.content) self.old.form }
        ensures standing { OnOk result (is_spilled self.new.form ≡ true) }
        ensures stands { OnErr result (is_spilled self.new.form ≡ is_spilled self.old.form) }
    {
        let Form::Inline(arrays) = &mut self.form else {
            return Ok(());
        };
        let tree = into_tree(arrays)?;
        self.form = Form::Spilled(tree);
        Ok(())
    }

    /// Moves the values from the tree back to arrays, all or none. It takes all the memory for it before the first value moves.
    #[inline(never)]
    fn unspill(&mut self) -> Result<(), AllocError>
        ensures content { held_by T.Key.cmp (λ t. t.lists.content) self.new.form
            ≡ held_by T.Key.cmp (λ t. t.lists.content) self.old.form }
        ensures standing { OnOk result (is_spilled self.new.form ≡ false) }
        ensures stands { OnErr result (is_spilled self.new.form ≡ is_spilled self.old.form) }
    {
        let Form::Spilled(tree) = &mut self.form else {
            return Ok(());
        };
        let alloc = *Box::allocator(tree);
        let mut arrays = SortedArrays::new(alloc);
        if arrays.pairs.reserve(tree.len()).is_err() {
            return Err(AllocError);
        }
        into_arrays(replace(&mut **tree, Tree::new(alloc)), &mut arrays);
        self.form = Form::Inline(arrays);
        Ok(())
    }

    /// Moves a bucket that is spilled with fewer than half as many values as the threshold back to arrays, where there is memory for it.
    #[inline]
    fn move_back(&mut self, moves: &mut Moves)
        ensures content { held_by T.Key.cmp (λ t. t.lists.content) self.new.form
            ≡ held_by T.Key.cmp (λ t. t.lists.content) self.old.form }
        ensures back { Returns
            (account (held_by T.Key.cmp (λ t. t.lists.content) self.old.form) (is_spilled self.old.form) moves.old)
            (account (held_by T.Key.cmp (λ t. t.lists.content) self.new.form) (is_spilled self.new.form) moves.new) }
    {
        let Form::Spilled(tree) = &self.form else {
            return;
        };
        let values = tree.len();
        if values < moves.threshold.saturating_sub(values) && self.unspill().is_ok() {
            moves.move_back(values);
        }
    }

    /// Puts a value in behind those of the key, and spills where the arrays reach the threshold by it. Tells whether the key had none, and
    /// how many values moved.
    fn put(&mut self, key: T::Key, value: V, threshold: usize) -> Result<(bool, usize), V>
        requires { 1 ≤ threshold }
        ensures accepted { IfOk result (λ told.
            (held_by T.Key.cmp (λ t. t.lists.content) self.new.form
            ≡ with_list_by T.Key.cmp (held_by T.Key.cmp (λ t. t.lists.content) self.old.form) key (put_value false value))
            × (told.0 ≡ lacks T.Key.cmp (held_by T.Key.cmp (λ t. t.lists.content) self.old.form) key)) }
        ensures standing { IfOk result (λ told. Grows true threshold (is_spilled self.old.form) told.1
            (held_by T.Key.cmp (λ t. t.lists.content) self.new.form) (is_spilled self.new.form)) }
        ensures refused { OnErr result (held_by T.Key.cmp (λ t. t.lists.content) self.new.form
            ≡ held_by T.Key.cmp (λ t. t.lists.content) self.old.form) }
        ensures stands { OnErr result (is_spilled self.new.form ≡ is_spilled self.old.form) }
        ensures returned { IfErr result (λ back. back ≡ value) }
    {
        let arrays = match &mut self.form {
            Form::Inline(arrays) => arrays,
            Form::Spilled(tree) => {
                let absent = tree.insert(key, value)?;
                return Ok((absent, 0));
            }
        };
        if arrays.len() < threshold - 1 {
            let absent = arrays.insert(key, value)?;
            return Ok((absent, 0));
        }
        let Ok(mut tree) = into_tree(arrays) else {
            return Err(value);
        };
        match tree.insert(key, value) {
            Ok(absent) => {
                let moved = tree.len();
                self.form = Form::Spilled(tree);
                Ok((absent, moved))
            }
            Err(value) => {
                into_arrays(Box::into_inner(tree), arrays);
                Err(value)
            }
        }
    }

    /// A retention. Where the arrays would reach the threshold by a new value, it calls the closure over a tree, and moves what is left
    /// back where that is fewer. Tells how many values moved, too: none where there is no new value.
    #[inline(always)]
    fn put_and_retain<F: FnMut(&V) -> bool>(
        &mut self,
        key: T::Key,
        new: &mut Option<V>,
        should_retain: F,
        threshold: usize,
    ) -> Result<(Retained, usize), V>
        requires callable { F.IsAlwaysCallable should_retain }
        requires threshold { 1 ≤ threshold }
        ensures accepted { IfOk result (λ told. RetainsList (CalledAt F.FnMut) should_retain
            (list_at T.Key.cmp (held_by T.Key.cmp (λ t. t.lists.content) self.old.form) key) new.old told.0
            (λ l. held_by T.Key.cmp (λ t. t.lists.content) self.new.form
            ≡ with_list T.Key.cmp (held_by T.Key.cmp (λ t. t.lists.content) self.old.form) key l)) }
        ensures standing { IfOk result (λ told. Grows (is_some new.old) threshold (is_spilled self.old.form) told.1
            (held_by T.Key.cmp (λ t. t.lists.content) self.new.form) (is_spilled self.new.form)) }
        ensures refused { OnErr result (held_by T.Key.cmp (λ t. t.lists.content) self.new.form
            ≡ held_by T.Key.cmp (λ t. t.lists.content) self.old.form) }
        ensures stands { OnErr result (is_spilled self.new.form ≡ is_spilled self.old.form) }
        ensures taken { new.new ≡ None }
        ensures returned { IfErr result (λ back. new.old ≡ Some back) }
    {
        let arrays = match &mut self.form {
            Form::Inline(arrays) => arrays,
            Form::Spilled(tree) => {
                let told = tree.retain(key, new, should_retain)?;
                drop_emptied(&mut self.form);
                return Ok((told, 0));
            }
        };
        if new.is_none() || arrays.len() < threshold - 1 {
            let told = arrays.retain(key, new, should_retain)?;
            return Ok((told, 0));
        }
        let Ok(mut tree) = into_tree(arrays) else {
            return Err(new.take().unwrap());
        };
        match tree.retain(key, new, should_retain) {
            Ok(told) => {
                let left = tree.len();
                if left < threshold {
                    into_arrays(Box::into_inner(tree), arrays);
                    return Ok((told, 0));
                }
                self.form = Form::Spilled(tree);
                Ok((told, left))
            }
            Err(value) => {
                into_arrays(Box::into_inner(tree), arrays);
                Err(value)
            }
        }
    }

    /// Removes the key, and tells how many values it had.
    fn take(&mut self, key: T::Key) -> usize
        ensures content { held_by T.Key.cmp (λ t. t.lists.content) self.new.form
            ≡ with_list T.Key.cmp (held_by T.Key.cmp (λ t. t.lists.content) self.old.form) key [] }
        ensures standing { is_spilled self.new.form
            ≡ stays_spilled (is_spilled self.old.form) (held_by T.Key.cmp (λ t. t.lists.content) self.new.form) }
        ensures taken { result
            ≡ length (list_at T.Key.cmp (held_by T.Key.cmp (λ t. t.lists.content) self.old.form) key) }
    {
        match &mut self.form {
            Form::Inline(arrays) => arrays.remove(key),
            Form::Spilled(tree) => {
                let taken = tree.remove(key);
                drop_emptied(&mut self.form);
                taken
            }
        }
    }
}

impl<T: Translator, V: Drop> Bucket<T, V> for SortedBucket<T, V> {
    ghost FIRST = { false };

    ghost SPILLS = { true };

    fn new(alloc: Global, _translator: T) -> SortedBucket<T, V> {
        SortedBucket {
            form: Form::Inline(SortedArrays::new(alloc)),
            unused: 0,
        }
    }

    #[inline]
    fn settle(&mut self, moves: &mut Moves) -> Result<(), AllocError> {
        let values = self.inline_len();
        if values >= moves.threshold {
            self.spill()?;
            moves.spill(values);
        }
        Ok(())
    }

    fn insert(&mut self, key: T::Key, value: V, moves: &mut Moves) -> Result<bool, V> {
        let Ok(()) = self.settle(moves) else {
            return Err(value);
        };
        let (absent, moved) = self.put(key, value, moves.threshold)?;
        moves.spill(moved);
        Ok(absent)
    }

    fn insert_absent(&mut self, key: T::Key, value: V, moves: &mut Moves) -> Result<usize, V> {
        let Ok(()) = self.settle(moves) else {
            return Err(value);
        };
        let had = self.run_len(key);
        if had > 0 {
            return Ok(had);
        }
        let (_, moved) = self.put(key, value, moves.threshold)?;
        moves.spill(moved);
        Ok(0)
    }

    #[inline(always)]
    fn retain<F: FnMut(&V) -> bool>(
        &mut self,
        key: T::Key,
        new: &mut Option<V>,
        should_retain: F,
        moves: &mut Moves,
    ) -> Result<Retained, Option<V>> {
        let Ok(()) = self.settle(moves) else {
            return Err(new.take());
        };
        match self.put_and_retain(key, new, should_retain, moves.threshold) {
            Ok((told, moved)) => {
                moves.spill(moved);
                self.move_back(moves);
                Ok(told)
            }
            Err(value) => Err(Some(value)),
        }
    }

    fn remove(&mut self, key: T::Key, moves: &mut Moves) -> Result<usize, AllocError> {
        self.settle(moves)?;
        let had = self.take(key);
        self.move_back(moves);
        Ok(had)
    }
}

impl<T: Translator, V: Drop> OrderedBucket<T, V> for SortedBucket<T, V> {
    #[inline]
    fn first(&self) -> Option<(T::Key, Values<'_, V>)> {
        match &self.form {
            Form::Inline(arrays) => arrays.first(),
            Form::Spilled(tree) => tree.first(),
        }
    }

    #[inline]
    fn last(&self) -> Option<Values<'_, V>> {
        match &self.form {
            Form::Inline(arrays) => arrays.last(),
            Form::Spilled(tree) => tree.last(),
        }
    }

    #[inline(always)]
    fn above(&self, key: T::Key) -> Option<(T::Key, Values<'_, V>)> {
        match &self.form {
            Form::Inline(arrays) => arrays.above(key),
            Form::Spilled(tree) => tree.above(key),
        }
    }

    #[inline]
    fn below(&self, key: T::Key) -> Option<Values<'_, V>> {
        match &self.form {
            Form::Inline(arrays) => arrays.below(key),
            Form::Spilled(tree) => tree.below(key),
        }
    }
}
