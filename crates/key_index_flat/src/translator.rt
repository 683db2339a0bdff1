//! Translators: they shorten the bytes of a key to a translated key of a fixed size. Different keys may share one.
ghost use Rattle.std.specs.Prelude.{◌≡◌, ℕ, List};
ghost use Rattle.std.specs.declared.cmp.Ordering.TheVariants.{Equal};
ghost use Rattle.key_index_flat.specs.Hashing.{hash_product};
ghost use Rattle.key_index_flat.specs.Neighbours.{KeepsOrder};
ghost use Rattle.key_index_flat.specs.Padding.{padded, cap_number};

mod array;
mod hashed;
mod uint_identity;

pub use array::{Cap, UnhashedArray};
pub use hashed::{Hashed, KeyHash, SeededSha256};
use std::hash::Hash;
pub use uint_identity::UintIdentity;

/// Shortens keys. An implementation says what it makes of a key and of a translated key, and proves that translated keys which
/// compare equal are one value, so that an ordered and a hashed map find the same entries.
pub trait Translator: Copy {
    type Key: Ord + Hash + Copy;

    ghost translated: { Self → List ℕ → Self.Key };

    /// The translated key of a key. Takes no memory.
    fn transform(&self, key: &[u8]) -> Self::Key
        ensures { result ≡ translated self.now key.now };

    ghost hashed: { Self → Self.Key → ℕ };

    /// The hash of a translated key. Different ones may share one. Takes no memory.
    fn hash_of(&self, key: Self::Key) -> u64
        ensures { result ≡ hashed self.now key };

    ghost exact: { (a b : Self.Key) → Self.Key.cmp a b ≡ Equal → a ≡ b };
}

/// A translator that keeps the order of bytes: where one key is at most another, its translated key is at most the other's.
pub trait OrderedTranslator: Translator {
    ghost keeps_order: { (x : Self) → KeepsOrder Self.Key.cmp (Self.translated x) };
}

/// The first `N` bytes of a key, with zeros behind a shorter one.
#[inline]
fn capped<const N: usize>(key: &[u8]) -> [u8; N]
    ensures { result ≡ padded N key.now }
{
    if let Some(front) = key.first_chunk::<N>() {
        return *front;
    }
    let mut bytes = [0; N];
    bytes[..key.len()].copy_from_slice(key);
    bytes
}

/// The hash of a number: its product with a fixed odd number, modulo `2^64`.
#[inline]
fn hash_product(number: u64) -> u64
    ensures { result ≡ hash_product number }
{
    number.wrapping_mul(0x9E37_79B9_7F4A_7C15)
}

/// Translated keys are the first byte of a key, and 0 for the empty key.
#[derive(Debug, Default, Clone, Copy)]
pub struct OneCap;

impl Translator for OneCap {
    ghost use Rattle.std.proofs.lemmas.Map.Lookups.{exact_unsigned};

    type Key = u8;

    ghost translated = { λ _. cap_number 1 };

    ghost exact = { exact_unsigned };

    #[inline]
    #[tactic(auto, using(crate::proofs::keys::PaddingLemmas::one_byte))]
    fn transform(&self, key: &[u8]) -> u8 {
        u8::from_be_bytes(capped::<1>(key))
    }

    ghost hashed = { λ _. hash_product };

    #[inline]
    fn hash_of(&self, key: u8) -> u64 {
        hash_product(u64::from(key))
    }
}

impl OrderedTranslator for OneCap {
    ghost use Rattle.key_index_flat.specs.laws.ByteOrder.{cap_number-keeps_order};

    ghost keeps_order = { λ _. cap_number-keeps_order 1 };
}

/// Translated keys are the big-endian number of the first two bytes of a key, with zeros behind a shorter one.
#[derive(Debug, Default, Clone, Copy)]
pub struct TwoCap;

impl Translator for TwoCap {
    ghost use Rattle.std.proofs.lemmas.Map.Lookups.{exact_unsigned};

    type Key = u16;

    ghost translated = { λ _. cap_number 2 };

    ghost exact = { exact_unsigned };

    #[inline]
    #[tactic(auto, using(crate::proofs::keys::PaddingLemmas::two_bytes))]
    fn transform(&self, key: &[u8]) -> u16 {
        u16::from_be_bytes(capped::<2>(key))
    }

    ghost hashed = { λ _. hash_product };

    #[inline]
    fn hash_of(&self, key: u16) -> u64 {
        hash_product(u64::from(key))
    }
}

impl OrderedTranslator for TwoCap {
    ghost use Rattle.key_index_flat.specs.laws.ByteOrder.{cap_number-keeps_order};

    ghost keeps_order = { λ _. cap_number-keeps_order 2 };
}

/// Translated keys are the big-endian number of the first four bytes of a key, with zeros behind a shorter one.
#[derive(Debug, Default, Clone, Copy)]
pub struct FourCap;

impl Translator for FourCap {
    ghost use Rattle.std.proofs.lemmas.Map.Lookups.{exact_unsigned};

    type Key = u32;

    ghost translated = { λ _. cap_number 4 };

    ghost exact = { exact_unsigned };

    #[inline]
    #[tactic(auto, using(crate::proofs::keys::PaddingLemmas::four_bytes))]
    fn transform(&self, key: &[u8]) -> u32 {
        u32::from_be_bytes(capped::<4>(key))
    }

    ghost hashed = { λ _. hash_product };

    #[inline]
    fn hash_of(&self, key: u32) -> u64 {
        hash_product(u64::from(key))
    }
}

impl OrderedTranslator for FourCap {
    ghost use Rattle.key_index_flat.specs.laws.ByteOrder.{cap_number-keeps_order};

    ghost keeps_order = { λ _. cap_number-keeps_order 4 };
}

/// Translated keys are the big-endian number of the first eight bytes of a key, with zeros behind a shorter one.
#[derive(Debug, Default, Clone, Copy)]
pub struct EightCap;

impl Translator for EightCap {
    ghost use Rattle.std.proofs.lemmas.Map.Lookups.{exact_unsigned};

    type Key = u64;

    ghost translated = { λ _. cap_number 8 };

    ghost exact = { exact_unsigned };

    #[inline]
    #[tactic(auto, using(crate::proofs::keys::PaddingLemmas::eight_bytes))]
    fn transform(&self, key: &[u8]) -> u64 {
        u64::from_be_bytes(capped::<8>(key))
    }

    ghost hashed = { λ _. hash_product };

    #[inline]
    fn hash_of(&self, key: u64) -> u64 {
        hash_product(key)
    }
}

impl OrderedTranslator for EightCap {
    ghost use Rattle.key_index_flat.specs.laws.ByteOrder.{cap_number-keeps_order};

    ghost keeps_order = { λ _. cap_number-keeps_order 8 };
}
