//! Entries in the order of their keys, and the scans over them.
ghost use Rattle.std.specs.Prelude.{◌≡◌, ◌+◌, ◌<◌, ◌≤◌, ◌^◌, true, List, [], ◌∷◌, Some, length, slice_get, slice_set, IfOk, IfErr, OnOk, OnErr};
ghost use Rattle.std.specs.Fn.{CalledAt};
ghost use Rattle.std.specs.List.{insert, remove};
ghost use Rattle.std.specs.List.Retain.{IsFiltered};
ghost use Rattle.std.specs.declared.cmp.Ordering.TheVariants.{Equal};
ghost use Rattle.key_index_flat.specs.Retention.{AsksBehind, AsksInTurn};
ghost use Rattle.key_index_flat.specs.Content.{IsLawful, list_at, with_list, item_count, with_list_by};
ghost use Rattle.key_index_plain.specs.Entries.{listed, place_of};

mod neighbours;

pub(crate) use neighbours::{first, last, next, prev};
use std::cmp::Ordering;

/// An index key and its values, the newest first.
#[derive(Drop)]
pub(crate) struct Entry<K, V> {
    key: K,
    values: Vec<V>,
}

/// The place of the entry with the key, or else the place where one belongs.
fn search<K: Ord, V>(entries: &[Entry<K, V>], key: &K) -> Result<usize, usize>
    ensures { result ≡ place_of K.cmp entries.now key.now }
{
    for (place, entry) in entries.iter().enumerate() {
        match key.cmp(&entry.key) {
            Ordering::Less => return Err(place),
            Ordering::Equal => return Ok(place),
            Ordering::Greater => {}
        }
    }
    Err(entries.len())
}

/// The values of a key, none where it is absent.
pub(crate) fn values_of<'a, K: Ord, V>(entries: &'a [Entry<K, V>], key: &K) -> &'a [V]
    requires { IsLawful K.cmp (listed entries.now) }
    ensures { result.now ≡ list_at K.cmp (listed entries.now) key.now }
{
    match search(entries, key) {
        Ok(place) => entries[place].values.as_slice(),
        Err(_) => &[],
    }
}

/// How many values the entries have.
pub(crate) fn count_values<K, V>(entries: &[Entry<K, V>]) -> usize
    requires { item_count (listed entries.now) < 2 ^ 64 }
    ensures { result ≡ item_count (listed entries.now) }
{
    let mut count = 0;
    for entry in entries {
        count += entry.values.len();
    }
    count
}

/// Puts a new entry with one value at a place. A refusal hands the value back.
fn insert_entry<K: Drop, V: Drop>(
    entries: &mut Vec<Entry<K, V>>,
    place: usize,
    key: K,
    value: V,
) -> Result<(), V>
    requires { place ≤ length entries.old.items }
    ensures accepted { OnOk result (listed entries.new.items
        ≡ insert (listed entries.old.items) place (key, value ∷ [])) }
    ensures refused { OnErr result (entries.new.items ≡ entries.old.items) }
    ensures returned { IfErr result (λ back. back ≡ value) }
{
    let mut values = Vec::new(*entries.allocator());
    if let Err(failed) = values.push(value) {
        return Err(failed.value);
    }
    match entries.insert(place, Entry { key, values }) {
        Ok(()) => Ok(()),
        Err(failed) => {
            let Entry { mut values, .. } = failed.value;
            Err(values.remove(0))
        }
    }
}

/// Puts a value in front of those of a key. A refusal hands it back.
pub(crate) fn insert_first<K: Ord + Drop, V: Drop>(
    entries: &mut Vec<Entry<K, V>>,
    key: K,
    value: V,
) -> Result<(), V>
    requires { IsLawful K.cmp (listed entries.old.items) }
    ensures accepted { OnOk result (listed entries.new.items
        ≡ with_list_by K.cmp (listed entries.old.items) key (λ l. value ∷ l)) }
    ensures refused { OnErr result (listed entries.new.items ≡ listed entries.old.items) }
    ensures returned { IfErr result (λ back. back ≡ value) }
{
    match search(entries.as_slice(), &key) {
        Ok(place) => match entries[place].values.insert(0, value) {
            Ok(()) => Ok(()),
            Err(failed) => Err(failed.value),
        },
        Err(place) => insert_entry(entries, place, key, value),
    }
}

/// Removes the entry of a key, and tells how many values it had.
pub(crate) fn remove<K: Ord + Drop, V: Drop>(entries: &mut Vec<Entry<K, V>>, key: &K) -> usize
    requires { IsLawful K.cmp (listed entries.old.items) }
    ensures content { listed entries.new.items ≡ with_list K.cmp (listed entries.old.items) key.now [] }
    ensures taken { result ≡ length (list_at K.cmp (listed entries.old.items) key.now) }
{
    match search(entries.as_slice(), key) {
        Ok(place) => entries.remove(place).values.len(),
        Err(_) => 0,
    }
}

/// Puts another value at a place of a key's list.
pub(crate) fn set_at<K: Ord, V: Drop>(
    entries: &mut Vec<Entry<K, V>>,
    key: &K,
    index: usize,
    value: V,
)
    requires lawful { IsLawful K.cmp (listed entries.old.items) }
    requires place { index < length (list_at K.cmp (listed entries.old.items) key.now) }
    ensures { listed entries.new.items
        ≡ with_list_by K.cmp (listed entries.old.items) key.now (λ l. slice_set l index value) }
{
    let Ok(place) = search(entries.as_slice(), key) else {
        unreachable!()
    };
    entries[place].values[index] = value;
}

/// Puts a value in at a place of a key's list, or behind its last one. A refusal hands it back.
pub(crate) fn insert_at<K: Ord + Drop, V: Drop>(
    entries: &mut Vec<Entry<K, V>>,
    key: K,
    index: usize,
    value: V,
) -> Result<(), V>
    requires lawful { IsLawful K.cmp (listed entries.old.items) }
    requires place { index ≤ length (list_at K.cmp (listed entries.old.items) key) }
    ensures accepted { OnOk result (listed entries.new.items
        ≡ with_list_by K.cmp (listed entries.old.items) key (λ l. insert l index value)) }
    ensures refused { OnErr result (listed entries.new.items ≡ listed entries.old.items) }
    ensures returned { IfErr result (λ back. back ≡ value) }
{
    match search(entries.as_slice(), &key) {
        Ok(place) => match entries[place].values.insert(index, value) {
            Ok(()) => Ok(()),
            Err(failed) => Err(failed.value),
        },
        Err(place) => insert_entry(entries, place, key, value),
    }
}

/// Removes the value at a place of a key's list, and with the only one the entry.
pub(crate) fn remove_at<K: Ord + Drop, V: Drop>(
    entries: &mut Vec<Entry<K, V>>,
    key: &K,
    index: usize,
) -> V
    requires lawful { IsLawful K.cmp (listed entries.old.items) }
    requires place { index < length (list_at K.cmp (listed entries.old.items) key.now) }
    ensures value { slice_get (list_at K.cmp (listed entries.old.items) key.now) index ≡ Some result }
    ensures content { listed entries.new.items
        ≡ with_list_by K.cmp (listed entries.old.items) key.now (λ l. remove l index) }
{
    let Ok(place) = search(entries.as_slice(), key) else {
        unreachable!()
    };
    let values = &mut entries[place].values;
    let value = values.remove(index);
    if values.len() == 0 {
        entries.remove(place);
    }
    value
}

/// Calls the closure once for each value of a key, in list order, removes those for which it returns false, and returns how many. With
/// no value left the entry goes too.
pub(crate) fn retain<K: Ord + Drop, V: Drop, F: FnMut(&V) -> bool>(
    entries: &mut Vec<Entry<K, V>>,
    key: &K,
    should_retain: F,
) -> usize
    requires lawful { IsLawful K.cmp (listed entries.old.items) }
    requires callable { F.IsAlwaysCallable should_retain }
    ensures { let old = listed entries.old.items in
        (kept : List V)
        × IsFiltered (CalledAt F.FnMut) should_retain (list_at K.cmp old key.now) kept
        × (listed entries.new.items ≡ with_list K.cmp old key.now kept)
        × (result + length kept ≡ length (list_at K.cmp old key.now)) }
{
    let Ok(place) = search(entries.as_slice(), key) else {
        return 0;
    };
    let values = &mut entries[place].values;
    let before = values.len();
    values.retain(should_retain);
    let after = values.len();
    if after == 0 {
        entries.remove(place);
    }
    before - after
}

/// What `retain` does, and the last answer too: true where the key has no value.
fn retain_in_turn<K: Ord + Drop, V: Drop, F: FnMut(&V) -> bool>(
    entries: &mut Vec<Entry<K, V>>,
    key: &K,
    should_retain: F,
) -> (usize, bool)
    requires lawful { IsLawful K.cmp (listed entries.old.items) }
    requires callable { F.IsAlwaysCallable should_retain }
    ensures { let old = listed entries.old.items in
        (kept : List V)
        × AsksInTurn (CalledAt F.FnMut) should_retain true (list_at K.cmp old key.now) kept result.1
        × (listed entries.new.items ≡ with_list K.cmp old key.now kept)
        × (result.0 + length kept ≡ length (list_at K.cmp old key.now)) }
{
    let Ok(place) = search(entries.as_slice(), key) else {
        return (0, true);
    };
    let values = &mut entries[place].values;
    let before = values.len();
    let stays = key_index_flat::index::implement::retain_in_turn(values, should_retain, true);
    let after = values.len();
    if after == 0 {
        entries.remove(place);
    }
    (before - after, stays)
}

/// Inserts a value behind those of a key, calls the closure once for each of them, in list order, and removes those for which it returns
/// false. Returns how many of those that were held are gone. A refusal hands the value back.
pub(crate) fn insert_and_retain<K: Ord + Copy + Drop, V: Drop, F: FnMut(&V) -> bool>(
    entries: &mut Vec<Entry<K, V>>,
    key: K,
    value: V,
    should_retain: F,
) -> Result<usize, V>
    requires lawful { IsLawful K.cmp (listed entries.old.items) }
    requires exact { (a b : K) → K.cmp a b ≡ Equal → a ≡ b }
    requires callable { F.IsAlwaysCallable should_retain }
    ensures accepted { IfOk result (λ taken. let old = listed entries.old.items in (kept : List V)
        × AsksBehind (CalledAt F.FnMut) should_retain (list_at K.cmp old key) value kept taken
        × (listed entries.new.items ≡ with_list K.cmp old key kept)) }
    ensures refused { OnErr result (listed entries.new.items ≡ listed entries.old.items) }
    ensures returned { IfErr result (λ back. back ≡ value) }
{
    let end = values_of(entries.as_slice(), &key).len();
    insert_at(entries, key, end, value)?;
    let (taken, stays) = retain_in_turn(entries, &key, should_retain);
    Ok(if stays { taken } else { taken - 1 })
}
