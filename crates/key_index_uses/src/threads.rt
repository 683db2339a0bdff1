//! What may go to another thread (`Send`), and what threads may share (`Sync`). That a type claims either proves nothing: a function that
//! asks for it, as those here do, is refused where the proof is missing.
use key_index::index::immutable;
use key_index::snapshot::{Record, Snapshot};
use key_index_flat::index::{
    IndexCursor, Ordered, OrderedLists, Runs, Values, Walk, ordered, unordered,
};
use key_index_flat::translator::{
    Cap, EightCap, FourCap, Hashed, OneCap, SeededSha256, Translator, TwoCap,
};
use key_index_map::map::Map;
use key_index_map::table::{Iter, Table};
use key_index_parts::index::partitioned::{self, Op};
use std::hash::Hash;

fn is_send<T: Send>() {}

fn is_sync<T: Sync>() {}

/// The hashed map is `Send` where its keys and values are.
pub fn map_is_send<K: Ord + Hash + Copy + Send, V: Send>() {
    is_send::<Map<K, V>>();
    is_send::<Table<K, V>>();
}

/// It is `Sync` where they are, and a walk over its pairs is then both.
pub fn map_is_sync<K: Ord + Hash + Copy + Sync, V: Sync>() {
    is_sync::<Map<K, V>>();
    is_sync::<Table<K, V>>();
    is_send::<Iter<'_, K, V>>();
    is_sync::<Iter<'_, K, V>>();
}

/// The caps are both.
pub fn caps_are_send_and_sync<const N: usize>() {
    is_send::<OneCap>();
    is_sync::<OneCap>();
    is_send::<TwoCap>();
    is_sync::<TwoCap>();
    is_send::<FourCap>();
    is_sync::<FourCap>();
    is_send::<EightCap>();
    is_sync::<EightCap>();
    is_send::<Cap<N>>();
    is_sync::<Cap<N>>();
}

/// A translator of hashes is `Send` where the hash and the translator behind it are, and the hash by a seed is.
pub fn hashed_is_send<T: Send, H: Send>() {
    is_send::<Hashed<T, H>>();
    is_send::<SeededSha256>();
}

/// The same of `Sync`.
pub fn hashed_is_sync<T: Sync, H: Sync>() {
    is_sync::<Hashed<T, H>>();
    is_sync::<SeededSha256>();
}

/// The flat indices are `Send` where translator, index keys and values are.
pub fn flat_is_send<T: Translator + Send, V: Send>()
where
    T::Key: Send,
{
    is_send::<unordered::Index<T, V>>();
    is_send::<ordered::Index<T, V>>();
}

/// The same of `Sync`.
pub fn flat_is_sync<T: Translator + Sync, V: Sync>()
where
    T::Key: Sync,
{
    is_sync::<unordered::Index<T, V>>();
    is_sync::<ordered::Index<T, V>>();
}

/// The indices in partitions and their ranges are `Send` where translator, index keys and values are, and the ops of a build where the
/// values are.
pub fn partitioned_is_send<T: Translator + Send, V: Drop + Send, const P: usize>()
where
    T::Key: Send,
{
    is_send::<partitioned::unordered::Index<T, V, P>>();
    is_send::<partitioned::ordered::Index<T, V, P>>();
    is_send::<partitioned::unordered::RangeIndex<T, V, P>>();
    is_send::<partitioned::ordered::RangeIndex<T, V, P>>();
    is_send::<Op<V>>();
}

/// The same of `Sync`.
pub fn partitioned_is_sync<T: Translator + Sync, V: Drop + Sync, const P: usize>()
where
    T::Key: Sync,
{
    is_sync::<partitioned::unordered::Index<T, V, P>>();
    is_sync::<partitioned::ordered::Index<T, V, P>>();
    is_sync::<partitioned::unordered::RangeIndex<T, V, P>>();
    is_sync::<partitioned::ordered::RangeIndex<T, V, P>>();
    is_sync::<Op<V>>();
}

/// The immutable index is `Send` where translator and index keys are.
pub fn immutable_is_send<T: Translator + Send>()
where
    T::Key: Send,
{
    is_send::<immutable::Index<T>>();
}

/// The same of `Sync`.
pub fn immutable_is_sync<T: Translator + Sync>()
where
    T::Key: Sync,
{
    is_sync::<immutable::Index<T>>();
}

/// A snapshot is `Send` where its index is.
pub fn snapshot_is_send<I: Ordered<Value = Record> + Send>() {
    is_send::<Snapshot<I>>();
    is_send::<Record>();
}

/// The same of `Sync`.
pub fn snapshot_is_sync<I: Ordered<Value = Record> + Sync>() {
    is_sync::<Snapshot<I>>();
    is_sync::<Record>();
}

/// The values of a key, which are lent, are both where they are `Sync`.
pub fn values_are_send_and_sync<'a, V: Sync + 'a>() {
    is_send::<Values<'a, V>>();
    is_sync::<Values<'a, V>>();
}

/// A cursor, which has its index alone, is `Send` where index and index keys are.
pub fn cursor_is_send<'a, I: Runs + Send + 'a>()
where
    I::Key: Send,
{
    is_send::<IndexCursor<'a, I>>();
}

/// The same of `Sync`.
pub fn cursor_is_sync<'a, I: Runs + Sync + 'a>()
where
    I::Key: Sync,
{
    is_sync::<IndexCursor<'a, I>>();
}

/// A walk over the lists of an index is `Send` where index and values are `Sync` and index keys are `Send`.
pub fn walk_is_send<'a, I: OrderedLists + Sync + 'a>()
where
    I::Value: Sync,
    I::Key: Send,
{
    is_send::<Walk<'a, I>>();
}

/// It is `Sync` where all three are.
pub fn walk_is_sync<'a, I: OrderedLists + Sync + 'a>()
where
    I::Value: Sync,
    I::Key: Sync,
{
    is_sync::<Walk<'a, I>>();
}

/// The positions that are read of an immutable index are `Send` where its index keys are both.
pub fn positions_are_send<'a, T: Translator + 'a>()
where
    T::Key: Send + Sync,
{
    is_send::<immutable::Positions<'a, T>>();
}

/// They are `Sync` where those are.
pub fn positions_are_sync<'a, T: Translator + 'a>()
where
    T::Key: Sync,
{
    is_sync::<immutable::Positions<'a, T>>();
}

/// Indices of positions by the library's translators meet all of that.
pub fn indices_of_positions_are_send_and_sync() {
    flat_is_send::<OneCap, u64>();
    flat_is_sync::<OneCap, u64>();
    flat_is_send::<Hashed<EightCap, SeededSha256>, u64>();
    flat_is_sync::<Hashed<EightCap, SeededSha256>, u64>();
    partitioned_is_send::<Cap<3>, u64, 2>();
    partitioned_is_sync::<Cap<3>, u64, 2>();
    immutable_is_send::<EightCap>();
    immutable_is_sync::<EightCap>();
}
