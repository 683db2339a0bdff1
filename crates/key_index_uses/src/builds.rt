//! Where the newest record of each full key of a log stands, over any index in partitions. Keys that share an index key share its list, and
//! each keeps its own position there.
ghost use Rattle.std.specs.Prelude.{◌≡◌, ◌⊎◌, List, ℕ, [], map, IfOk, IfErr};
ghost use Rattle.std.specs.FinMap.{entries};
ghost use Rattle.key_index_parts.specs.Ops.{IsCuts};
ghost use Rattle.key_index_flat.specs.Values.{in_order};
ghost use Rattle.key_index_flat.specs.View.{run_of};
ghost use Rattle.key_index.specs.Snapshot.{entries_of};
ghost use Rattle.key_index_uses.specs.Newest.{newest, op_of, sharing};

use key_index_flat::index::{Fault, Runs, Unordered};
use key_index_parts::index::partitioned::{Op, Partitioned, build_in_ranges};
use std::alloc::Global;
use std::collections::BTreeMap;

/// The position of the newest record of each key, of records that are listed with the newest first.
fn newest_of_each(
    alloc: Global,
    mut records: Vec<(Vec<u8>, u64)>,
) -> Result<BTreeMap<Vec<u8>, u64>, Fault>
    ensures newest { IfOk result (λ found. entries_of found.entries ≡ entries (newest records.items)) }
    ensures fault { IfErr result (λ f. f ≡ Fault.Memory) }
{
    let mut found = BTreeMap::new(alloc);
    'records: while let Some((key, position)) = records.pop() {
        found.insert(key, position)?;
    }
    Ok(found)
}

/// The ops that insert the position of each key.
fn ops_of(alloc: Global, found: BTreeMap<Vec<u8>, u64>) -> Result<Vec<Op<u64>>, Fault>
    ensures ops { IfOk result (λ ops. ops.items ≡ map op_of found.entries) }
    ensures fault { IfErr result (λ f. f ≡ Fault.Memory) }
{
    let mut ops = Vec::with_capacity(alloc, found.len())?;
    for (key, position) in found {
        ops.push(Op::Insert(key, position))?;
    }
    Ok(ops)
}

/// Reads the records of a log, each with its key and its position and the newest first, into an empty index, range by range. The list of
/// an index key then has the position of the newest record of each full key that shares it, in the order of the keys (turned, where the
/// index puts a new value first). A refusal leaves no index.
pub fn newest_positions<I: Partitioned<Value = u64> + Drop>(
    alloc: Global,
    mut index: I,
    cuts: &[usize],
    records: Vec<(Vec<u8>, u64)>,
) -> Result<I, Fault>
    requires empty { (I.view index).content ≡ [] }
    requires cuts { IsCuts cuts.now I.partitions }
    ensures answers { IfOk result (λ built. (key : List ℕ) → run_of I.Key.cmp (I.view built) key
        ≡ in_order I.INSERT_FIRST (sharing I.Key.cmp (I.view index).slot key (entries (newest records.items)))) }
    ensures fault { IfErr result (λ f. (f ≡ Fault.Memory) ⊎ (f ≡ Fault.Full)) }
{
    let found = newest_of_each(alloc, records)?;
    let ops = ops_of(alloc, found)?;
    build_in_ranges(alloc, &mut index, cuts, ops)?;
    Ok(index)
}
