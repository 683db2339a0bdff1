//! A key in an ordered map, which is sought with one comparison for each key that it passes.
ghost use Rattle.std.specs.Prelude.{◌≡◌, ◌≢◌};
ghost use Rattle.std.specs.declared.cmp.Ordering.TheVariants.{Less};

use std::cmp::Ordering;
use std::collections::BTreeMap;
use std::marker::Model;

/// An ordered map in which a key is sought by `TreeKey`'s comparison.
pub type TreeMap<K, V> = BTreeMap<TreeKey<K>, V>;

/// A key. Contracts see the key itself.
#[derive(Clone, Copy, Drop, PartialEq, Eq, PartialOrd)]
pub struct TreeKey<K> {
    pub(super) key: K,
}

impl<K> Model for TreeKey<K> {
    ghost Value = { K };

    ghost view = { λ tree_key. tree_key.key };

    ghost inverse = { λ key. record { key = key } };
}

impl<K: Copy> TreeKey<K> {
    #[inline(always)]
    pub(super) fn get(&self) -> K
        ensures { result ≡ self.now }
    {
        self.key
    }
}

impl<K: Ord> Ord for TreeKey<K> {
    ghost cmp = { K.cmp };

    ghost total = { K.total };

    ghost matches_partial_cmp = { K.matches_partial_cmp };

    ghost matches_eq = { K.matches_eq };

    #[inline(always)]
    fn cmp(&self, other: &TreeKey<K>) -> Ordering {
        if other.key.cmp(&self.key).is_lt() {
            return Ordering::Greater;
        }
        cmp_not_above(&self.key, &other.key)
    }
}

/// Compares a key with one that isn't below it. A call of its own, since the walk down a tree would compute both answers at each key
/// that it passes.
#[inline(never)]
fn cmp_not_above<K: Ord>(key: &K, other: &K) -> Ordering
    requires { K.cmp other.now key.now ≢ Less }
    ensures { result ≡ K.cmp key.now other.now }
{
    if *key == *other {
        return Ordering::Equal;
    }
    Ordering::Less
}
