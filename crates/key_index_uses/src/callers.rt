//! Callers as a user writes them: over any index, by its content alone.
ghost use Rattle.std.specs.Prelude.{◌≡◌, ◌+◌, ◌-◌, ◌<◌, ◌↔◌, ◌⊎◌, ◌==◌, ℕ, List, [], ◌∷◌, ◌++◌, length, filter, map, zip, Some, true, not, IfOk, IfErr, OnOk, OnErr, IsTrue, slice_set};
ghost use Rattle.std.specs.Ordering.{nat_cmp};
ghost use Rattle.std.specs.List.{FoldsTo, last_or};
ghost use Rattle.std.specs.Option.{MatchOption, option_copied};
ghost use Rattle.key_index_flat.specs.View.{items_in, run_at, run_of, with_edit, with_pruned, with_run, after_insert, after_remove, IsHeld};
ghost use Rattle.key_index_flat.specs.FullKeys.{IsFiledIn};
ghost use Rattle.key_index_flat.specs.Unordered.{view};
ghost use Rattle.key_index_flat.specs.Values.{values_of};
ghost use Rattle.key_index_flat.specs.Visits.{VisitsAt, probes_from, visits_of};
ghost use Rattle.key_index_flat.specs.Padding.{padded};
ghost use Rattle.key_index_parts.specs.Gathered.{pair_cmp};
ghost use Rattle.key_index_uses.specs.Exclusion.{has_key, Excludes};

use key_index_flat::index::implement::{Lists, visit_by_place};
use key_index_flat::index::unordered::Index;
use key_index_flat::index::{
    Command, Cursor, Factory, Fault, IndexCursor, Keyed, Ordered, OrderedLists, Outcome, Refused,
    Runs, Search, Unordered, Values, lists_from, resolve_next, resolve_prev, run,
};
use key_index_flat::translator::{OneCap, TwoCap};
use key_index_parts::index::partitioned::{self, grouping_and_order};
use std::alloc::Global;

/// Files two positions under keys that share their first byte, and gives the newest that stands there, which is 2.
pub fn newest(alloc: Global) -> Result<Option<u64>, Fault> {
    let mut index = Index::<OneCap, u64>::new(alloc, OneCap)?;
    for (key, position) in [(b"\x0b\x02", 1), (b"\x0b\xff", 2)] {
        index.insert(key, position)?;
    }
    Ok(index.get(b"\x0b").next().copied())
}

/// Removes a position from the list of a key. Tells whether it was there.
pub fn forget(index: &mut Index<OneCap, u64>, key: &[u8], position: u64) -> Result<bool, Fault> {
    let Some(mut cursor) = index.get_mut(key)? else {
        return Ok(false);
    };
    let found = cursor.find(|held| *held == position);
    if found {
        cursor.delete();
    }
    Ok(found)
}

/// Removes a key and files a position under another one, as one list of commands. Gives what each came to.
pub fn move_to(
    alloc: Global,
    index: &mut Index<OneCap, u64>,
    from: Vec<u8>,
    to: Vec<u8>,
    position: u64,
) -> Result<Vec<Outcome>, Fault> {
    let commands: Vec<Command<u64, fn(&u64) -> bool>> = Vec::from_array(
        alloc,
        [Command::Remove(from), Command::Insert(to, position)],
    )?;
    run(alloc, index, commands)
}

/// Adds a value under a key, and tells how many values the index then holds.
pub fn add<I: Unordered>(
    index: &mut I,
    key: &[u8],
    value: I::Value,
) -> Result<usize, Refused<I::Value>>
    ensures added { OnOk result (I.view index.new
        ≡ after_insert I.Key.cmp I.INSERT_FIRST (I.view index.old) key.now value) }
    ensures counted { IfOk result (λ items. items ≡ items_in (I.view index.new)) }
    ensures refused { OnErr result (I.view index.new ≡ I.view index.old) }
{
    index.insert(key, value)?;
    Ok(index.items())
}

/// Does that in an index that is named.
pub fn add_position(
    index: &mut Index<OneCap, u64>,
    key: &[u8],
    position: u64,
) -> Result<usize, Refused<u64>>
    ensures { OnOk result (view index.new ≡ after_insert nat_cmp true (view index.old) key.now position) }
{
    add(index, key, position)
}

/// Puts a value in place of those of a key, which then has that value alone. A refusal leaves
/// the index as it was, or without the key.
pub fn replace<I: Unordered>(index: &mut I, key: &[u8], value: I::Value) -> Result<(), Fault>
where
    I::Value: Drop,
    ensures alone { OnOk result (run_of I.Key.cmp (I.view index.new) key.now ≡ value ∷ []) }
    ensures replaced { OnOk result (I.view index.new
        ≡ after_insert I.Key.cmp I.INSERT_FIRST (after_remove I.Key.cmp (I.view index.old) key.now) key.now value) }
    ensures refused { OnErr result ((I.view index.new ≡ I.view index.old)
        ⊎ (I.view index.new ≡ after_remove I.Key.cmp (I.view index.old) key.now)) }
    ensures filed { (keys : I.Value → List ℕ) → keys value ≡ key.now
        → IsFiledIn keys I.Key.cmp (I.view index.old) → OnOk result (IsFiledIn keys I.Key.cmp (I.view index.new)) }
{
    index.remove(key)?;
    index.insert(key, value)?;
    Ok(())
}

/// Puts a value in place of the first one of a key, and tells whether the key had one. Nothing else changes.
pub fn replace_first<I: Unordered>(
    index: &mut I,
    key: &[u8],
    value: I::Value,
) -> Result<bool, Fault>
where
    I::Value: Drop,
    ensures had { IfOk result (λ had. IsTrue had ↔ IsHeld I.Key.cmp (I.view index.old) key.now) }
    ensures replaced { OnOk result (I.view index.new
        ≡ with_edit I.Key.cmp (I.view index.old) ((I.view index.old).slot key.now) (λ l. slice_set l 0 value)) }
    ensures refused { OnErr result (I.view index.new ≡ I.view index.old) }
{
    let (slot, len) = index.reach(key)?;
    if len == 0 {
        return Ok(false);
    }
    let mut cursor = IndexCursor::with_len(index, slot, len);
    cursor.next();
    cursor.update(value);
    cursor.close();
    Ok(true)
}

/// Puts the position of a record's new version in place of that of its old one: where `old` stands under the key it goes, and `new`
/// stands behind the other positions, which stay in their order. A refusal leaves the index as it was.
pub fn update<I: Unordered<Value = u64>>(
    index: &mut I,
    key: &[u8],
    old: u64,
    new: u64,
) -> Result<(), Fault>
    requires { ¬ (new ≡ old) }
    ensures updated { let was = run_of I.Key.cmp (I.view index.old) key.now in
        let others = filter (λ position. not (position == old)) was in
        OnOk result (I.view index.new ≡ with_pruned (with_run I.Key.cmp (I.view index.old)
        ((I.view index.old).slot key.now) (others ++ new ∷ [])) (length was - length others)) }
    ensures refused { OnErr result (I.view index.new ≡ I.view index.old) }
{
    index.insert_and_retain(key, new, |position: &u64| *position != old)?;
    Ok(())
}

/// Visits the values of each key of a batch, in the order of the keys, by a closure that the caller keeps.
fn visit_with<I: Lists, F: FnMut(usize, &I::Value)>(index: &I, keys: &[&[u8]], visit: &mut F)
    requires { F.IsAlwaysCallable visit.old }
    ensures { let view = I.view index.now in
        FoldsTo (VisitsAt F.FnMut) visit.old (visits_of (run_at I.Key.cmp view)
        (probes_from view.slot 0 (map (λ key. key.now) keys.now))) visit.new }
{
    visit_by_place(index, keys.iter(), |place, value| visit(place, value));
}

/// Sets the answer at the place of each key of a batch to the last of the key's values, in list order. The answer of a key without
/// values stays. Takes no memory.
pub fn last_values<I: Lists<Value = u64>>(index: &I, keys: &[&[u8]], answers: &mut [Option<u64>])
    requires { length answers.old ≡ length keys.now }
    ensures { answers.new ≡ map (λ p. last_or p.0 (run_of I.Key.cmp (I.view index.now) p.1.now))
        (zip answers.old keys.now) }
{
    let mut fill = |place: usize, value: &u64|
        ensures { answers.exit.now ≡ slice_set answers.entry.now place (Some value.now) }
    {
        if place < answers.len() {
            answers[place] = Some(*value);
        }
    };
    visit_with(index, keys, &mut fill);
}

/// The values of a key, by the first `P` bytes of it and the two behind them, with zeros behind a shorter one: all that an index in
/// partitions of `P` bytes by `TwoCap` tells keys apart by.
pub fn values_by_front<'a, V: Drop, const P: usize>(
    index: &'a partitioned::unordered::Index<TwoCap, V, P>,
    key: &[u8],
    front: &[u8],
) -> Values<'a, V>
    requires { padded (P + 2) front.now ≡ padded (P + 2) key.now }
    ensures { result ≡ run_of (pair_cmp nat_cmp)
        (⟦<partitioned::unordered::Index<TwoCap, V, P> as Runs>⟧.view index.now) key.now }
{
    grouping_and_order();
    index.get(front)
}

/// The values next to a full key that no value has. One that is absent says that no full key is on that side.
#[derive(Drop)]
pub struct Exclusion<'a, V> {
    pub below: Option<&'a V>,
    pub above: Option<&'a V>,
}

/// Whether a value has the full key.
fn has_key<V: Keyed>(values: Values<'_, V>, key: &[u8]) -> bool
    ensures { result ≡ has_key V.full_key key.now values.entry }
{
    for value in values {
        if value.full_key() == key {
            return true;
        }
    }
    false
}

/// Files a value under its own full key. In an index whose values all stand under theirs, as in a new one, they still do.
pub fn file<I: Unordered>(
    index: &mut I,
    key: &[u8],
    item: I::Value,
) -> Result<(), Refused<I::Value>>
where
    I::Value: Keyed,
    requires { I.Value.full_key item ≡ key.now }
    ensures filed { IsFiledIn I.Value.full_key I.Key.cmp (I.view index.old)
        → IsFiledIn I.Value.full_key I.Key.cmp (I.view index.new) }
    ensures added { OnOk result (I.view index.new
        ≡ after_insert I.Key.cmp I.INSERT_FIRST (I.view index.old) key.now item) }
    ensures refused { OnErr result (I.view index.new ≡ I.view index.old) }
    ensures returned { IfErr result (λ refused. refused.value ≡ item) }
{
    index.insert(key, item)?;
    Ok(())
}

/// Shows that no value has a full key, by the values next to it, in an index whose values stand under their own full keys. `None`
/// exactly where a value has the key.
pub fn exclude<'a, I: Ordered>(index: &'a I, key: &[u8]) -> Option<Exclusion<'a, I::Value>>
where
    I::Value: Keyed,
    ensures { let values = values_of (I.view index.now).content in
        IsFiledIn I.Value.full_key I.Key.cmp (I.view index.now) → MatchOption result
        (has_key I.Value.full_key key.now values ≡ true)
        (λ next_to. Excludes I.Value.full_key values key.now
        (option_copied next_to.below) (option_copied next_to.above)) }
{
    if has_key(index.get(key), key) {
        return None;
    }
    Some(Exclusion {
        below: resolve_prev(index, key),
        above: resolve_next(index, key),
    })
}

/// The positions from a key on, list by list, until there are so many. Over an `I`, a `for` over the walk itself gets no proof.
pub fn page<I: OrderedLists<Value = u64>>(
    alloc: Global,
    index: &I,
    from: &[u8],
    len: usize,
) -> Result<Vec<u64>, Fault> {
    let mut page = Vec::new(alloc);
    let mut walk = lists_from(index, from);
    for _ in 0..index.keys() {
        let Some(positions) = walk.next() else {
            break;
        };
        for position in positions {
            page.push(*position)?;
        }
        if page.len() >= len {
            break;
        }
    }
    Ok(page)
}
