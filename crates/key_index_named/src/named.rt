//! Indices in partitions by their names: handed to code over any index in partitions, and kept in a struct over any translator.
ghost use Rattle.std.specs.Prelude.{◌≡◌, IfOk};

use key_index_flat::index::{Factory, Fault};
use key_index_flat::translator::{Cap, Hashed, OneCap, SeededSha256, Translator, UnhashedArray};
use key_index_parts::index::partitioned::{Partitioned, ordered, unordered};
use std::alloc::Global;

/// How many partitions an index has.
pub fn count<I: Partitioned>(index: &I) -> usize
    ensures { result ≡ I.partitions }
{
    index.partition_count()
}

/// How many an index of a kind has that is made here.
pub fn count_made<I: Factory<Translator = OneCap, Value = u64> + Partitioned + Drop>(
    alloc: Global,
) -> Result<usize, Fault>
    requires { I.makes }
    ensures { IfOk result (λ n. n ≡ I.partitions) }
{
    let index = I::new(alloc, OneCap)?;
    Ok(count(&index))
}

/// Of the unordered index.
pub fn count_unordered(index: &unordered::Index<OneCap, u64, 2>) -> usize
    ensures { result ≡ 65536 }
{
    count(index)
}

/// Of the ordered index.
pub fn count_ordered(index: &ordered::Index<OneCap, u64, 1>) -> usize
    ensures { result ≡ 256 }
{
    count(index)
}

/// Of an unordered index that is made here.
pub fn count_made_unordered(alloc: Global) -> Result<usize, Fault>
    ensures { IfOk result (λ n. n ≡ 65536) }
{
    count_made::<unordered::Index<OneCap, u64, 2>>(alloc)
}

/// Of an ordered index that is made here.
pub fn count_made_ordered(alloc: Global) -> Result<usize, Fault>
    ensures { IfOk result (λ n. n ≡ 256) }
{
    count_made::<ordered::Index<OneCap, u64, 1>>(alloc)
}

/// Positions by keys, in the unordered index.
#[derive(Drop)]
pub struct Filed<T: Translator> {
    pub index: unordered::Index<T, u64, 2>,
}

/// Positions by keys, in the ordered index.
#[derive(Drop)]
pub struct Sorted<T: Translator> {
    pub index: ordered::Index<T, u64, 1>,
}

/// Positions by hashed keys, over a translator of their hashes. It says the bound of a hashed translator again, since the index has
/// ghost fields by it.
#[derive(Drop)]
pub struct Seeded<T: Translator>
where
    Hashed<T, SeededSha256>: Translator<Key = T::Key>,
{
    pub index: unordered::Index<Hashed<T, SeededSha256>, u64, 2>,
}

/// Positions by the first bytes of keys, whose translator's bound it says again too.
#[derive(Drop)]
pub struct Capped<const N: usize>
where
    Cap<N>: Translator<Key = UnhashedArray<N>>,
{
    pub index: ordered::Index<Cap<N>, u64, 1>,
}
