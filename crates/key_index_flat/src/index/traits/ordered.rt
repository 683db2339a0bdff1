//! The order of an index's keys, and the neighbours of a key in it.
ghost use Rattle.std.specs.Prelude.{◌≡◌};
ghost use Rattle.key_index_flat.specs.Neighbours.{first_list, last_list, next_list, prev_list, KeepsOrder};

use crate::index::{Unordered, Values};

/// An index whose index keys have the order of the keys' bytes: where one key is at most another, its index key is at most the
/// other's. The four calls take no memory. An index over a tree or over sorted arrays answers each by a number of comparisons that is
/// logarithmic in its keys.
pub trait Ordered: Unordered {
    /// The values of the greatest index key strictly below that of the key, and false. Where there is none, those of the last index
    /// key, and true. `None` exactly where the index is empty. So a sole index key that is the key's own answers itself, flagged.
    fn prev_translated_key(&self, key: &[u8]) -> Option<(Values<'_, Self::Value>, bool)>
        ensures { result ≡ prev_list Self.Key.cmp (Self.view self.now).content ((Self.view self.now).slot key.now) };

    /// The values of the least index key strictly above that of the key, and false. Where there is none, those of the first index
    /// key, and true. `None` exactly where the index is empty. So a sole index key that is the key's own answers itself, flagged.
    fn next_translated_key(&self, key: &[u8]) -> Option<(Values<'_, Self::Value>, bool)>
        ensures { result ≡ next_list Self.Key.cmp (Self.view self.now).content ((Self.view self.now).slot key.now) };

    /// The values of the least index key. `None` exactly where the index is empty.
    fn first_translated_key(&self) -> Option<Values<'_, Self::Value>>
        ensures { result ≡ first_list (Self.view self.now).content };

    /// The values of the greatest index key. `None` exactly where the index is empty.
    fn last_translated_key(&self) -> Option<Values<'_, Self::Value>>
        ensures { result ≡ last_list (Self.view self.now).content };

    ghost keeps_order: { (x : Self) → KeepsOrder Self.Key.cmp (Self.view x).slot };
}
