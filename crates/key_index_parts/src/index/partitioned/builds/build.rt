//! The build of an index in ranges, proved once over any index in partitions.
ghost use Rattle.std.specs.Prelude.{◌≡◌, ◌<◌, ◌≤◌, ◌+◌, ◌-◌, [], length, nat_le, slice_index, OnOk, IfErr, IfOk};
ghost use Rattle.key_index_parts.specs.Accepted.{RunsAs};
ghost use Rattle.key_index_parts.specs.Ops.{after_ops, op_key, AreBelow, IsCuts};
ghost use Rattle.key_index_parts.specs.Ranges.{AreFilled, CanInstall, IsFillingFault, RefusesBuild, StopsAt, installed, number_of};

use super::fill::fill;
use super::op::Op;
use crate::index::partitioned::{PartitionRange, Partitioned};
use key_index_flat::index::{Fault, Runs};
use std::alloc::Global;

/// The partition of a key, which is that of its index key in every index.
fn partition_of_key<I: Partitioned>(key: &[u8]) -> usize
    ensures is { (index : I) → result ≡ I.partition ((I.view index).slot key.now) }
    ensures below { result < I.partitions }
{
    I::partition_of(key)
}

/// The partition of an op's key.
fn partition_at<I: Partitioned>(op: &Op<I::Value>) -> usize
    ensures is { (index : I) → result ≡ I.partition ((I.view index).slot (op_key op.now)) }
    ensures below { result < I.partitions }
{
    match op {
        Op::Insert(key, _) => partition_of_key::<I>(key.as_slice()),
        Op::GetOrInsert(key, _) => partition_of_key::<I>(key.as_slice()),
        Op::Edit(key, _) => partition_of_key::<I>(key.as_slice()),
    }
}

/// Between which two neighbouring cuts a partition lies: the place of the first of them. A binary search.
fn place_among(cuts: &[usize], partition: usize) -> usize
    requires cuts { IsCuts cuts.now (slice_index cuts.now (length cuts.now - 1)) }
    requires below { partition < slice_index cuts.now (length cuts.now - 1) }
    ensures within { result + 1 < length cuts.now }
    ensures low { slice_index cuts.now result ≤ partition }
    ensures high { partition < slice_index cuts.now (result + 1) }
{
    let above = cuts.partition_point(
        |cut: &usize| -> bool
            ensures { result ≡ nat_le cut.now partition }
        { *cut <= partition },
    );
    above - 1
}

/// A range between each two neighbouring cuts.
fn make_ranges<I: Partitioned>(
    alloc: Global,
    index: &I,
    cuts: &[usize],
) -> Result<Vec<I::Range>, Fault>
    requires { IsCuts cuts.now I.partitions }
    ensures made { IfOk result (λ ranges.
        AreFilled I.Key.cmp I.INSERT_FIRST I.Range.view (I.view index.now).slot I.partition [] cuts.now ranges.items) }
    ensures fault { IfErr result (λ f. f ≡ Fault.Memory) }
{
    let mut ranges = Vec::with_capacity(alloc, cuts.len() - 1)?;
    let mut at = 1;
    'cuts: while at < cuts.len() {
        let start = cuts[at - 1];
        let range = index.new_range(start, cuts[at] - start)?;
        ranges.push(range)?;
        at += 1;
    }
    Ok(ranges)
}

/// Each op in turn, in the range that covers its key.
fn fill_all<I: Partitioned>(
    index: &I,
    ranges: &mut [I::Range],
    cuts: &[usize],
    ops: Vec<Op<I::Value>>,
) -> Result<(), Fault>
where
    I::Value: Drop,
    requires none { (I.view index.now).content ≡ [] }
    requires cuts { IsCuts cuts.now I.partitions }
    requires empty { AreFilled I.Key.cmp I.INSERT_FIRST I.Range.view (I.view index.now).slot I.partition
        [] cuts.now ranges.old }
    ensures filled { OnOk result (
        AreFilled I.Key.cmp I.INSERT_FIRST I.Range.view (I.view index.now).slot I.partition
        ops.items cuts.now ranges.new) }
    ensures below { OnOk result (AreBelow (number_of I.partition (I.view index.now).slot) I.partitions ops.items) }
    ensures refused { IfErr result (IsFillingFault I.Key.cmp I.INSERT_FIRST I.partition
        cuts.now ops.items (I.view index.now)) }
{
    let mut rest = ops.into_iter();
    'ops: while let Some(op) = rest.next() {
        let at = place_among(cuts, partition_at::<I>(&op));
        fill(&mut ranges[at], op)?;
    }
    Ok(())
}

/// Installs ranges in turn. After a refusal those before it are installed, whole, and no other.
fn install_all<I: Partitioned>(index: &mut I, ranges: Vec<I::Range>) -> Result<(), Fault>
    requires { CanInstall I.Key.cmp I.Range.view ranges.items (I.view index.old) }
    ensures installed { OnOk result (I.view index.new
        ≡ installed I.Key.cmp I.Range.view ranges.items (I.view index.old)) }
    ensures refused { IfErr result (
        StopsAt I.Key.cmp I.Range.view ranges.items (I.view index.old) (I.view index.new)) }
{
    let mut rest = ranges.into_iter();
    'ranges: while let Some(range) = rest.next() {
        if let Err((_, fault)) = index.install_range(range) {
            return Err(fault);
        }
    }
    Ok(())
}

/// Fills an empty index by ops, range by range: one range between each two neighbouring cuts takes the ops whose keys it covers, in
/// their order, and then the ranges are installed, the first one first. What it leaves is what the calls one by one would leave,
/// with each step accepted that its state allows.
///
/// A refusal while the ranges are filled leaves the index as it was. One while they are installed leaves those installed so far,
/// whole, and no other: the ops below a cut. It is `Full` only where a range, or the ranges up to one, would have more than
/// `usize::MAX` values, and else `Memory`.
pub fn build_in_ranges<I: Partitioned>(
    alloc: Global,
    index: &mut I,
    cuts: &[usize],
    ops: Vec<Op<I::Value>>,
) -> Result<(), Fault>
where
    I::Value: Drop,
    requires empty { (I.view index.old).content ≡ [] }
    requires cuts { IsCuts cuts.now I.partitions }
    ensures built { OnOk result (I.view index.new ≡ after_ops I.Key.cmp I.INSERT_FIRST ops.items (I.view index.old)) }
    ensures runs { OnOk result (
        RunsAs I.Key.cmp I.INSERT_FIRST ops.items (I.view index.old) (I.view index.new)) }
    ensures refused { IfErr result (
        RefusesBuild I.Key.cmp I.INSERT_FIRST I.partition cuts.now ops.items
        (I.view index.old) (I.view index.new)) }
{
    let mut ranges = make_ranges(alloc, &*index, cuts)?;
    fill_all(&*index, ranges.as_mut_slice(), cuts, ops)?;
    install_all(index, ranges)
}
