//! Memory for two records first, so that the second one isn't refused once the first one stands.
ghost use Rattle.std.specs.Prelude.{◌≡◌, ◌+◌, ◌≤◌, false, true, [], IfErr, OnOk, OnErr};
ghost use Rattle.std.specs.Ordering.{eq_by_cmp};
ghost use Rattle.key_index_flat.specs.Unordered.{view};
ghost use Rattle.key_index_flat.specs.View.{after_insert, items_in, run_of};

use key_index_flat::index::unordered::Index;
use key_index_flat::index::{Fault, Unordered};
use key_index_flat::translator::Translator;

/// Inserts the positions of two keys that have none, both or neither.
pub fn insert_both<T: Translator>(
    index: &mut Index<T, u64>,
    first_key: &[u8],
    first: u64,
    second_key: &[u8],
    second: u64,
) -> Result<(), Fault>
    requires first { run_of T.Key.cmp (view index.old) first_key.now ≡ [] }
    requires second { run_of T.Key.cmp (view index.old) second_key.now ≡ [] }
    requires apart { eq_by_cmp T.Key.cmp ((view index.old).slot second_key.now)
        ((view index.old).slot first_key.now) ≡ false }
    requires room { items_in (view index.old) + 2 ≤ usize.MAX }
    ensures both { OnOk result (view index.new ≡ after_insert T.Key.cmp true
        (after_insert T.Key.cmp true (view index.old) first_key.now first) second_key.now second) }
    ensures neither { OnErr result (view index.new ≡ view index.old) }
    ensures fault { IfErr result (λ f. f ≡ Fault.Memory) }
{
    index.reserve(2)?;
    let Ok(()) = index.insert(first_key, first) else {
        unreachable!()
    };
    let Ok(()) = index.insert(second_key, second) else {
        unreachable!()
    };
    Ok(())
}
