ghost use Rattle.std.specs.Prelude.{◌≡◌, ◌≤◌, length};
ghost use Rattle.key_index_flat.specs.FullKeys.{byte_cmp};
ghost use Rattle.key_index_flat.specs.Padding.{cap_number};

use super::uint_identity::UintIdentity;
use super::{OrderedTranslator, Translator, capped};
use std::cmp::Ordering;
use std::hash::{Hash, Hasher};

// The first eight bytes as a number, which compares as they do.
#[inline]
#[tactic(auto, using(crate::proofs::keys::PaddingLemmas::eight_bytes))]
fn word(bytes: &[u8]) -> u64
    ensures { result ≡ cap_number 8 bytes.now }
{
    u64::from_be_bytes(capped::<8>(bytes))
}

// The order of at most eight bytes, by one comparison.
#[inline]
fn cmp_words(left: &[u8], right: &[u8]) -> Ordering
    requires alike { length left.now ≡ length right.now }
    requires short { length left.now ≤ 8 }
    ensures { result ≡ byte_cmp left.now right.now }
{
    let left = word(left);
    let right = word(right);
    left.cmp(&right)
}

/// An array of `N` bytes, as a translated key. It compares as its bytes, and feeds a hasher its bytes alone, without their number.
#[derive(Debug, Clone, Copy, PartialEq, Eq)]
pub struct UnhashedArray<const N: usize> {
    /// The bytes.
    pub inner: [u8; N],
}

impl<const N: usize> Ord for UnhashedArray<N> {
    ghost use Rattle.std.specs.Prelude.{refl};
    ghost use Rattle.std.specs.Cmp.Lexicographic.{texts_ties};
    ghost use Rattle.key_index_flat.specs.laws.ArrayLaws.{array_cmp-total};
    ghost use Rattle.key_index_flat.specs.Arrays.{array_cmp};

    ghost cmp = { array_cmp };

    ghost total = { array_cmp-total N };

    ghost matches_partial_cmp = { λ a b. refl };

    ghost matches_eq = { λ a b. texts_ties a.inner b.inner };

    #[inline]
    fn cmp(&self, other: &UnhashedArray<N>) -> Ordering {
        if N <= 8 {
            return cmp_words(&self.inner, &other.inner);
        }
        self.inner.cmp(&other.inner)
    }
}

impl<const N: usize> PartialOrd for UnhashedArray<N> {
    ghost use Rattle.std.specs.Cmp.{on_po};
    ghost use Rattle.std.specs.Cmp.Lexicographic.{texts_po};
    ghost use Rattle.std.specs.Ordering.{as_partial_cmp};
    ghost use Rattle.key_index_flat.specs.Arrays.{array_cmp};

    ghost partial_cmp = { as_partial_cmp array_cmp };

    ghost laws = { on_po (λ array. array.inner) texts_po };

    #[inline]
    fn partial_cmp(&self, other: &UnhashedArray<N>) -> Option<Ordering> {
        Some(self.cmp(other))
    }
}

impl<const N: usize> Hash for UnhashedArray<N> {
    ghost use Rattle.std.specs.Prelude.{[], ◌∷◌};
    ghost use Rattle.std.specs.Cmp.Lexicographic.{bytes_decides};

    ghost hash_input = { λ array. array.inner ∷ [] };

    ghost respects_eq = { λ a b e i. (bytes_decides a.inner b.inner).0 e i ∷ [] };

    #[inline]
    fn hash<H: Hasher>(&self, state: &mut H) {
        state.write(&self.inner);
    }
}

/// Translated keys are the first `N` bytes of a key, with zeros behind a shorter one, for widths that are no integer's.
#[derive(Debug, Clone, Copy)]
pub struct Cap<const N: usize>;

impl<const N: usize> Cap<N> {
    /// The cap of `N` bytes, for an `N` of 1 to 8.
    #[inline]
    pub fn new() -> Cap<N>
        requires least { 1 ≤ N }
        requires greatest { N ≤ 8 }
    {
        Cap
    }
}

impl<const N: usize> Default for Cap<N> {
    #[inline]
    fn default() -> Cap<N> {
        Cap
    }
}

impl<const N: usize> Translator for Cap<N> {
    ghost use Rattle.key_index_flat.specs.laws.ArrayLaws.{array_cmp-exact};
    ghost use Rattle.key_index_flat.specs.Arrays.{array_of};
    ghost use Rattle.key_index_flat.specs.Hashing.{little_endian, hash_product};

    type Key = UnhashedArray<N>;

    ghost translated = { λ _. array_of N };

    ghost hashed = { λ _ key. hash_product (little_endian key.inner) };

    ghost exact = { array_cmp-exact N };

    #[inline]
    fn transform(&self, key: &[u8]) -> UnhashedArray<N> {
        UnhashedArray {
            inner: capped::<N>(key),
        }
    }

    #[inline]
    #[tactic(auto, using(crate::proofs::keys::HashingLemmas::first_eight))]
    fn hash_of(&self, key: UnhashedArray<N>) -> u64 {
        let mut hasher = UintIdentity::default();
        hasher.write(&key.inner);
        hasher.finish()
    }
}

impl<const N: usize> OrderedTranslator for Cap<N> {
    ghost use Rattle.key_index_flat.specs.laws.ArrayLaws.{array-keeps_order};

    ghost keeps_order = { λ _. array-keeps_order N };
}
