ghost use Rattle.std.specs.Prelude.{◌≡◌};
ghost use Rattle.key_index_flat.specs.Hashing.{little_endian, hash_product};
ghost use Rattle.key_index_flat.specs.Padding.{padded};

use super::{capped, hash_product};
use std::marker::Model;

/// A hasher of translated keys. It holds one number, at first 0, and each write replaces it. It spreads numbers that are chosen by
/// nobody, and is no hasher for keys that an attacker picks.
#[derive(Debug, Clone, Copy)]
pub struct UintIdentity {
    value: u64,
}

impl Model for UintIdentity {
    ghost use Rattle.std.specs.Prelude.{ℕ, ◌<◌, ◌^◌};

    ghost Value = { ℕ };

    ghost view = { λ hasher. hasher.value };

    ghost inverse = { λ number. record { value = number } };
}

impl Default for UintIdentity {
    ghost is_default = { λ hasher. hasher ≡ 0 };

    #[inline]
    fn default() -> UintIdentity {
        UintIdentity { value: 0 }
    }
}

impl UintIdentity {
    /// Holds the little-endian number of the first eight bytes, with zeros behind fewer.
    #[inline]
    #[tactic(auto, using(crate::proofs::keys::HashingLemmas::eight_low_bytes))]
    pub fn write(&mut self, bytes: &[u8])
        ensures { self.new ≡ little_endian (padded 8 bytes.now) }
    {
        self.value = u64::from_le_bytes(capped::<8>(bytes));
    }

    /// Holds the number.
    #[inline]
    pub fn write_u8(&mut self, number: u8)
        ensures { self.new ≡ number }
    {
        self.value = u64::from(number);
    }

    /// Holds the number.
    #[inline]
    pub fn write_u16(&mut self, number: u16)
        ensures { self.new ≡ number }
    {
        self.value = u64::from(number);
    }

    /// Holds the number.
    #[inline]
    pub fn write_u32(&mut self, number: u32)
        ensures { self.new ≡ number }
    {
        self.value = u64::from(number);
    }

    /// Holds the number.
    #[inline]
    pub fn write_u64(&mut self, number: u64)
        ensures { self.new ≡ number }
    {
        self.value = number;
    }

    /// The product of the number that it holds with a fixed odd number, modulo `2^64`.
    #[inline]
    pub fn finish(&self) -> u64
        ensures { result ≡ hash_product self.now }
    {
        hash_product(self.value)
    }
}
