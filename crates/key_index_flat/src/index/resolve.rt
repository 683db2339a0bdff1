//! Neighbours of a full key, in an index that keeps shorter ones, of values that know their own.
ghost use Rattle.std.specs.Prelude.{◌≡◌, ℕ, List};
ghost use Rattle.std.specs.Option.{option_copied};
ghost use Rattle.key_index_flat.specs.FullKeys.{IsFiledIn, IsFullNext, IsFullPrev, IsNextIn, IsPrevIn};

use super::Ordered;
use super::records::{Records, next_record, prev_record};
use std::convert::Infallible;

/// A value that knows its key in full, of which an index has only a translated one.
pub trait Keyed {
    ghost full_key: { Self → List ℕ };

    /// The key in full.
    fn full_key(&self) -> &[u8]
        ensures { result.now ≡ full_key self.now };
}

/// The reader of values that know their own full keys: it reads nothing else, and never fails.
#[derive(Debug, Clone, Copy)]
pub struct OwnKeys;

impl<'a, V: Keyed> Records<'a, V> for OwnKeys {
    type Key = &'a [u8];

    type Error = Infallible;

    ghost agrees = { λ _ keys. keys ≡ V.full_key };

    ghost reads = { λ _ _. Unit {0} };

    ghost reads_nothing = { λ _. tt };

    ghost reads_both = { λ _ _ _ _ _. tt };

    ghost agreed = { λ _ _ _ _ is. is };

    #[inline]
    fn key_of(&mut self, value: &'a V) -> Result<&'a [u8], Infallible> {
        Ok(value.full_key())
    }
}

/// The value with the least full key strictly above a key, of all in an index whose values stand under their own full keys. `None`
/// exactly where no full key is above. Among equal full keys the first in list order.
///
/// Whatever the index holds, it is the least of those above the key in its own list and, where none is, of those in the next list,
/// unless that one is found by cycling.
///
/// Takes no memory, and time in proportion to the values of one list or two, beside the index's own search.
pub fn resolve_next<'a, I: Ordered>(index: &'a I, key: &[u8]) -> Option<&'a I::Value>
where
    I::Value: Keyed,
    ensures candidate { IsNextIn I.Value.full_key I.Key.cmp (I.view index.now) key.now (option_copied result) }
    ensures filed { IsFiledIn I.Value.full_key I.Key.cmp (I.view index.now)
        → IsFullNext I.Value.full_key (I.view index.now).content key.now (option_copied result) }
{
    match next_record(index, &mut OwnKeys, key) {
        Ok(found) => found,
        Err(never) => match never {},
    }
}

/// The value with the greatest full key strictly below a key, of all in an index whose values stand under their own full keys.
/// `None` exactly where no full key is below. Among equal full keys the first in list order.
///
/// Whatever the index holds, it is the greatest of those below the key in its own list and, where none is, of those in the previous
/// list, unless that one is found by cycling.
///
/// Takes no memory, and time in proportion to the values of one list or two, beside the index's own search.
pub fn resolve_prev<'a, I: Ordered>(index: &'a I, key: &[u8]) -> Option<&'a I::Value>
where
    I::Value: Keyed,
    ensures candidate { IsPrevIn I.Value.full_key I.Key.cmp (I.view index.now) key.now (option_copied result) }
    ensures filed { IsFiledIn I.Value.full_key I.Key.cmp (I.view index.now)
        → IsFullPrev I.Value.full_key (I.view index.now).content key.now (option_copied result) }
{
    match prev_record(index, &mut OwnKeys, key) {
        Ok(found) => found,
        Err(never) => match never {},
    }
}
