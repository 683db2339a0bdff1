//! Indices in partitions. The first `P` bytes of a key choose one of `256^P` partitions, and the bytes behind them are the key there.
//! So `P` should be small: each partition takes its slot when the index is made.
ghost use Rattle.std.specs.Prelude.{◌≡◌, ℕ, ◌+◌, ◌≤◌};
ghost use Rattle.std.specs.Ordering.{nat_cmp};
ghost use Rattle.key_index_flat.specs.Arrays.{array_of, array_cmp};
ghost use Rattle.key_index_flat.specs.Padding.{padded, cap_number};
ghost use Rattle.key_index_parts.specs.Gathered.{pair_cmp};
ghost use Rattle.key_index_parts.specs.Grouping.{ComparesAs};
ghost use Rattle.key_index_parts.specs.Prefix.{prefix_number, rest_of, slot_by};

mod bitmap;
mod bucket;
mod builds;
mod counts;
pub mod ordered;
mod range;
mod storage;
mod traits;
pub mod unordered;

pub use builds::{Op, build_in_ranges};
pub use traits::{PartitionRange, Partitioned};

/// The partition of a key, and the rest of the key: the big-endian number of the first `P` bytes, with zeros behind a shorter key, and
/// the bytes behind them. It reads `P` bytes and copies none.
#[inline(always)]
pub fn partition_index_and_sub_key<const P: usize>(key: &[u8]) -> (usize, &[u8])
    requires least { 1 ≤ P }
    requires greatest { P ≤ 3 }
    ensures index { result.0 ≡ prefix_number P key.now }
    ensures sub_key { result.1.now ≡ rest_of P key.now }
{
    let mut index = 0;
    for place in 0..P {
        let byte = key.get(place).copied().unwrap_or(0);
        index = index * 256 + usize::from(byte);
    }
    let sub_key = key.get(P..).unwrap_or(&[]);
    (index, sub_key)
}

/// The law of grouping and order, for index keys over a cap of any `n` bytes, as a number or as an array: of a flat index they stand
/// to each other as the first `n` bytes of the keys do, with zeros behind a shorter one, and over partitions of any `p` bytes as the
/// first `p + n` do. So keys with the same such bytes, and no others, share an index key. It does nothing.
pub fn grouping_and_order()
    ensures flat { (n : ℕ) → ComparesAs nat_cmp (cap_number n) (padded n) }
    ensures partitioned { (p n : ℕ) → ComparesAs (pair_cmp nat_cmp) (slot_by p (cap_number n)) (padded (p + n)) }
    ensures flat_arrays { (n : ℕ) → ComparesAs array_cmp (array_of n) (padded n) }
    ensures partitioned_arrays { (p n : ℕ) → ComparesAs (pair_cmp array_cmp) (slot_by p (array_of n)) (padded (p + n)) }
{}
