//! Callers that ask how the partitions of an ordered index stand, and callers of what needs no memory.
ghost use Rattle.std.specs.Prelude.{◌≡◌, ◌<◌, ◌↔◌, [], false, IsTrue, IfOk, OnOk};
ghost use Rattle.key_index_flat.specs.View.{after_remove, Admits, IsHeld};
ghost use Rattle.key_index_parts.specs.Gathered.{entries_of, pair_cmp};
ghost use Rattle.key_index_parts.specs.Ordered.{standings, view};
ghost use Rattle.key_index_parts.specs.Range.{range_view};
ghost use Rattle.key_index_parts.specs.Unordered as hashed;
ghost use Rattle.key_index_parts.specs.Prefix.{partition_by};
ghost use Rattle.key_index_parts.specs.Standing.{inline_len};

use key_index_flat::index::{Fault, Refused, Search, Unordered};
use key_index_flat::translator::Translator;
use key_index_parts::index::partitioned::{Partitioned, ordered, unordered};

/// Inserts a value, and tells how many values the key's partition then has in arrays: fewer than the threshold.
pub fn insert_inline<T: Translator, V: Drop, const P: usize>(
    index: &mut ordered::Index<T, V, P>,
    key: &[u8],
    value: V,
) -> Result<usize, Refused<V>>
    ensures len { IfOk result (λ n. n ≡ inline_len (standings index.new) (partition_by P key.now)) }
    ensures below { IfOk result (λ n. n < (standings index.new).threshold) }
{
    index.insert(key, value)?;
    Ok(index.inline_len(ordered::Index::<T, V, P>::partition_of(key)))
}

/// Removes a key with all its values, and tells whether its partition is spilled, which it isn't once it has no values.
pub fn remove_spilled<T: Translator, V: Drop, const P: usize>(
    index: &mut ordered::Index<T, V, P>,
    key: &[u8],
) -> Result<bool, Fault>
    ensures removed { OnOk result (view index.new ≡ after_remove (pair_cmp T.Key.cmp) (view index.old) key.now) }
    ensures emptied { IfOk result (λ spilled.
        entries_of (view index.new).content (partition_by P key.now) ≡ [] → spilled ≡ false) }
{
    index.remove(key)?;
    Ok(index.is_spilled(ordered::Index::<T, V, P>::partition_of(key)))
}

/// Removes a key whose partition has fewer values in arrays than the threshold. It needs no memory.
pub fn remove_inline<T: Translator, V: Drop, const P: usize>(
    index: &mut ordered::Index<T, V, P>,
    key: &[u8],
)
    requires { inline_len (standings index.old) (partition_by P key.now) < (standings index.old).threshold }
    ensures { view index.new ≡ after_remove (pair_cmp T.Key.cmp) (view index.old) key.now }
{
    let Ok(()) = index.remove(key) else {
        unreachable!();
    };
}

/// Removes a key of an unordered index. It needs no memory.
pub fn remove_unordered<T: Translator, V: Drop, const P: usize>(
    index: &mut unordered::Index<T, V, P>,
    key: &[u8],
)
    ensures { hashed.view index.new ≡ after_remove (pair_cmp T.Key.cmp) (hashed.view index.old) key.now }
{
    let Ok(()) = index.remove(key) else {
        unreachable!();
    };
}

/// Whether a range of an unordered index, which covers a key's partition, has a value under it. It needs no memory.
pub fn is_held<T: Translator, V: Drop, const P: usize>(
    range: &mut unordered::RangeIndex<T, V, P>,
    key: &[u8],
) -> bool
    requires { Admits (range_view range.old) key.now }
    ensures { IsTrue result ↔ IsHeld (pair_cmp T.Key.cmp) (range_view range.old) key.now }
{
    match range.get_mut(key) {
        Ok(cursor) => cursor.is_some(),
        Err(_) => unreachable!(),
    }
}
