//! The scans for the ends of the entries and for the neighbours of a key.
ghost use Rattle.std.specs.Prelude.{◌≡◌};
ghost use Rattle.key_index_flat.specs.Neighbours.{entries_above, entries_below, first_list, last_list, next_list, prev_list};
ghost use Rattle.key_index_plain.specs.Entries.{listed};

use super::Entry;
use key_index_flat::index::Values;

/// The values of the first entry.
pub(crate) fn first<K, V>(entries: &[Entry<K, V>]) -> Option<Values<'_, V>>
    ensures { result ≡ first_list (listed entries.now) }
{
    match entries.first() {
        Some(entry) => Some(Values::of_slice(entry.values.as_slice())),
        None => None,
    }
}

/// The values of the last entry.
pub(crate) fn last<K, V>(entries: &[Entry<K, V>]) -> Option<Values<'_, V>>
    ensures { result ≡ last_list (listed entries.now) }
{
    match entries.last() {
        Some(entry) => Some(Values::of_slice(entry.values.as_slice())),
        None => None,
    }
}

/// The values of the first entry whose key is above a key.
fn above<'a, K: Ord, V>(entries: &'a [Entry<K, V>], key: &K) -> Option<Values<'a, V>>
    ensures { result ≡ first_list (entries_above K.cmp (listed entries.now) key.now) }
{
    for entry in entries {
        if key.cmp(&entry.key).is_lt() {
            return Some(Values::of_slice(entry.values.as_slice()));
        }
    }
    None
}

/// The values of the last entry whose key is below a key.
fn below<'a, K: Ord, V>(entries: &'a [Entry<K, V>], key: &K) -> Option<Values<'a, V>>
    ensures { result ≡ last_list (entries_below K.cmp (listed entries.now) key.now) }
{
    let mut found = None;
    for entry in entries {
        if entry.key.cmp(key).is_lt() {
            found = Some(Values::of_slice(entry.values.as_slice()));
        }
    }
    found
}

/// The values of the first entry above a key, and false, or else those of the first of all, and true.
pub(crate) fn next<'a, K: Ord, V>(
    entries: &'a [Entry<K, V>],
    key: &K,
) -> Option<(Values<'a, V>, bool)>
    ensures { result ≡ next_list K.cmp (listed entries.now) key.now }
{
    match above(entries, key) {
        Some(above) => Some((above, false)),
        None => match first(entries) {
            Some(first) => Some((first, true)),
            None => None,
        },
    }
}

/// The values of the last entry below a key, and false, or else those of the last of all, and true.
pub(crate) fn prev<'a, K: Ord, V>(
    entries: &'a [Entry<K, V>],
    key: &K,
) -> Option<(Values<'a, V>, bool)>
    ensures { result ≡ prev_list K.cmp (listed entries.now) key.now }
{
    match below(entries, key) {
        Some(below) => Some((below, false)),
        None => match last(entries) {
            Some(last) => Some((last, true)),
            None => None,
        },
    }
}
