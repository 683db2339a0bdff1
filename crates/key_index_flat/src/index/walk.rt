//! A walk over the lists of an ordered index, in the order of its index keys.
ghost use Rattle.std.specs.Prelude.{◌≡◌};
ghost use Rattle.std.specs.Iterator.{YieldsFirst, item_count};
ghost use Rattle.key_index_flat.specs.Neighbours.{entries_above, first_entry};
ghost use Rattle.key_index_flat.specs.Walk.{entries_from, lists_of};

use super::{Ordered, Values};
use std::marker::Model;

/// An ordered index that also tells at which index key a list stands, so that who has one list can ask for the next one. Neither call
/// takes memory, and each takes as many comparisons as one of `Ordered`.
pub trait OrderedLists: Ordered {
    /// The least index key, with its values. `None` exactly where the index is empty.
    fn first_entry(&self) -> Option<(Self::Key, Values<'_, Self::Value>)>
        ensures { result ≡ first_entry (Self.view self.now).content };

    /// The least index key strictly above this one, with its values. `None` exactly where none is above, so there is no cycle.
    fn entry_above(&self, slot: Self::Key) -> Option<(Self::Key, Values<'_, Self::Value>)>
        ensures { result ≡ first_entry (entries_above Self.Key.cmp (Self.view self.now).content slot) };
}

/// An iterator over the lists of an ordered index, in the order of their index keys. It takes no memory, and ends. A step is one
/// search in the index at most.
#[derive(Drop)]
pub struct Walk<'a, I: OrderedLists> {
    index: &'a I,
    found: Option<Values<'a, I::Value>>,
    last: Option<I::Key>,
}

impl<'a, I: OrderedLists> Model for Walk<'a, I> {
    ghost use Rattle.std.specs.Prelude.{List, ◌++◌};
    ghost use Rattle.std.specs.Option.{option_to_list};
    ghost use Rattle.key_index_flat.specs.Walk.{lists_behind};

    ghost Value = { List (List I.Value) };

    ghost view = { λ w. option_to_list w.found ++ lists_behind I.Key.cmp (I.view w.index.now).content w.last };
}

impl<'a, I: OrderedLists> Iterator for Walk<'a, I> {
    type Item = Values<'a, I::Value>;

    ghost next_gives = { YieldsFirst (λ lists. lists) };

    ghost remaining = { item_count (λ lists. lists) };

    #[inline]
    fn next(&mut self) -> Option<Values<'a, I::Value>> {
        if let Some(values) = self.found.take() {
            return Some(values);
        }
        let (slot, values) = self.index.entry_above(self.last?)?;
        self.last = Some(slot);
        Some(values)
    }

    #[inline]
    fn size_hint(&self) -> (usize, Option<usize>) {
        (usize::from(self.found.is_some()), None)
    }
}

/// All lists of an ordered index, in the order of their index keys, by one search for the first.
pub fn lists<I: OrderedLists>(index: &I) -> Walk<'_, I>
    ensures { result ≡ lists_of (I.view index.now).content }
{
    match index.first_entry() {
        Some(entry) => Walk {
            index,
            last: Some(entry.0),
            found: Some(entry.1),
        },
        None => Walk {
            index,
            found: None,
            last: None,
        },
    }
}

/// The lists of an ordered index from a key on, in the order of their index keys: the key's own first, if it has values, and then those
/// above it, by one search for the key.
pub fn lists_from<'a, I: OrderedLists>(index: &'a I, key: &[u8]) -> Walk<'a, I>
    ensures { result
        ≡ lists_of (entries_from I.Key.cmp (I.view index.now).content ((I.view index.now).slot key.now)) }
{
    let own = index.get(key);
    let last = Some(index.slot_of(key));
    let found = if own.is_empty() { None } else { Some(own) };
    Walk { index, found, last }
}
