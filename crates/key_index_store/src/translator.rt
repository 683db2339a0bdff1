//! A translator for keys that begin alike, as names and addresses do.
ghost use Rattle.std.specs.Prelude.{◌≡◌, ◌∷◌, take};
ghost use Rattle.key_index_store.specs.Translators.{front_of, front_hash, front_in};

use key_index_flat::translator::{Cap, EightCap, OrderedTranslator, Translator};
use std::cmp::Ordering;

/// The most bytes of a front.
const LONGEST: usize = 255;

/// The first 32 bytes of a key, as the big-endian numbers of eight bytes each. They compare as the bytes do, in fewer steps.
#[derive(Debug, Clone, Copy, PartialEq, Eq, PartialOrd, Ord, Hash)]
pub struct Front {
    /// The numbers.
    pub words: [u64; 4],
}

impl Front {
    /// The numbers of 32 bytes.
    #[inline]
    fn of(bytes: &[u8; 32]) -> Front
        ensures { result ≡ front_of bytes.now }
    {
        Front {
            words: [
                EightCap.transform(&bytes[..8]),
                EightCap.transform(&bytes[8..16]),
                EightCap.transform(&bytes[16..24]),
                EightCap.transform(&bytes[24..]),
            ],
        }
    }

    /// The front of a byte and those behind it.
    #[inline]
    fn of_both(first: u8, rest: &[u8]) -> Front
        ensures { result ≡ front_of (first ∷ rest.now) }
    {
        let mut bytes = [first; 32];
        bytes[1..].copy_from_slice(&Cap::<31>::default().transform(rest).inner);
        Front::of(&bytes)
    }

    /// The hash of the numbers.
    #[inline]
    fn hashed(self) -> u64
        ensures { result ≡ front_hash self }
    {
        EightCap.hash_of(self.words.iter().fold(0, |mixed, word| mixed ^ word))
    }
}

/// Translated keys are the first 32 bytes of a key, with zeros behind a shorter one. Keys that are alike in them share a list.
#[derive(Debug, Default, Clone, Copy)]
pub struct ThirtyTwoCap;

impl Translator for ThirtyTwoCap {
    ghost use Rattle.key_index_store.specs.Translators.{front_hash, front_of, front-exact};

    type Key = Front;

    ghost translated = { λ _. front_of };

    ghost hashed = { λ _. front_hash };

    ghost exact = { front-exact };

    #[inline]
    fn transform(&self, key: &[u8]) -> Front {
        Front::of(&Cap::<32>::default().transform(key).inner)
    }

    #[inline]
    fn hash_of(&self, key: Front) -> u64 {
        key.hashed()
    }
}

impl OrderedTranslator for ThirtyTwoCap {
    ghost use Rattle.key_index_store.specs.Translators.{front-keeps_order};

    ghost keeps_order = { λ _. front-keeps_order };
}

/// A translator for keys of which most begin alike, in more bytes than a `ThirtyTwoCap` keeps. Of a key that begins with the front,
/// translated keys have the 31 bytes behind it; of any other key its first 31, and on which side of those it is.
///
/// ```text
/// front "site/page/"    "site/page/7"  ->  1, "7"            "site/"  ->  0, "site/"            "tea"  ->  2, "tea"
/// ```
#[derive(Debug, Clone, Copy)]
pub struct BehindFront {
    front: [u8; LONGEST],
    len: u8,
}

impl BehindFront {
    /// The translator behind a front, or behind the first 255 bytes of a longer one.
    pub fn new(front: &[u8]) -> BehindFront
        ensures { front_in result ≡ take 255 front.now }
    {
        let len = LONGEST.min(front.len());
        let mut bytes = [0; LONGEST];
        bytes[..len].copy_from_slice(&front[..len]);
        BehindFront {
            front: bytes,
            len: len as u8,
        }
    }

    /// The front, behind which keys are told apart.
    pub fn front(&self) -> &[u8]
        ensures { result.now ≡ front_in self.now }
    {
        &self.front[..self.len as usize]
    }
}

impl Translator for BehindFront {
    ghost use Rattle.key_index_store.specs.Translators.{behind_front, front_hash, front_in, front-exact};

    type Key = Front;

    ghost translated = { λ x. behind_front (front_in x) };

    ghost hashed = { λ _. front_hash };

    ghost exact = { front-exact };

    #[inline]
    fn transform(&self, key: &[u8]) -> Front {
        let front = self.front();
        let (there, rest) = key.split_at(front.len().min(key.len()));
        match there.cmp(front) {
            Ordering::Less => Front::of_both(0, key),
            Ordering::Equal => Front::of_both(1, rest),
            Ordering::Greater => Front::of_both(2, key),
        }
    }

    #[inline]
    fn hash_of(&self, key: Front) -> u64 {
        key.hashed()
    }
}

impl OrderedTranslator for BehindFront {
    ghost use Rattle.key_index_store.specs.Translators.{behind_front-keeps_order, front_in};

    ghost keeps_order = { λ x. behind_front-keeps_order (front_in x) };
}
