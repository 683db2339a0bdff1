//! Indices in partitions, their ranges and builds.
ghost use Rattle.std.specs.Prelude.{IsTrue};
ghost use Rattle.key_index_parts.specs.Ops.{IsCuts};

use crate::answer::Answer;
use crate::calls::{by_place, by_search};
use crate::commands::steps;
use crate::flat;
use crate::line::{Line, Stop};
use crate::serve::{Request, Session};
use key_index_flat::index::Ordered;
use key_index_flat::translator::Translator;
use key_index_parts::index::partitioned::unordered::{Index, RangeIndex};
use key_index_parts::index::partitioned::{Op, PartitionRange, Partitioned, build_in_ranges};
use std::alloc::{AllocError, Global};

/// A new range, behind those that are kept.
pub(crate) fn add_range<I: Partitioned<Value = u64>>(
    index: &I,
    ranges: &mut Vec<I::Range>,
    line: &Line,
    answer: &mut Answer,
) -> Result<(), Stop> {
    let (offset, count) = (line.count(0), line.count(1));
    let partitions = index.partition_count();
    if offset > partitions || count > partitions - offset {
        answer.word("unallowed");
        return Ok(());
    }
    match index.new_range(offset, count) {
        Ok(range) => {
            answer.word("ok");
            keep(ranges, range)
        }
        Err(fault) => {
            answer.refused(fault);
            Ok(())
        }
    }
}

/// A range behind those that are kept.
fn keep<R: Drop>(ranges: &mut Vec<R>, range: R) -> Result<(), Stop> {
    match ranges.push(range) {
        Ok(()) => Ok(()),
        Err(_) => Err(Stop::Failed),
    }
}

/// Whether the index has no value in a partition.
fn is_free<I: Partitioned<Value = u64>>(index: &I, partition: usize, answer: &mut Answer) {
    if partition < index.partition_count() {
        answer.flag(index.partition_is_empty(partition));
    } else {
        answer.word("unallowed");
    }
}

/// Installs a range that is kept, and keeps it no longer; a refused one stays, behind the others.
fn install<I: Partitioned<Value = u64>>(
    index: &mut I,
    ranges: &mut Vec<I::Range>,
    number: usize,
    answer: &mut Answer,
) -> Result<(), Stop> {
    match ranges.get(number) {
        Some(range) if index.can_install(range) => {}
        _ => {
            answer.word("unallowed");
            return Ok(());
        }
    }
    let range = ranges.remove(number);
    match index.install_range(range) {
        Ok(()) => {
            answer.word("ok");
            Ok(())
        }
        Err((range, fault)) => {
            answer.refused(fault);
            keep(ranges, range)
        }
    }
}

/// Whether numbers strictly ascend from 0 to a count.
pub(crate) fn are_cuts(cuts: &[usize], count: usize) -> bool
    ensures { IsTrue result → IsCuts cuts.now count }
{
    if cuts.len() < 2 || cuts[0] != 0 || cuts[cuts.len() - 1] != count {
        return false;
    }
    let mut at = 1;
    'cuts: while at < cuts.len() {
        if cuts[at - 1] >= cuts[at] {
            return false;
        }
        at += 1;
    }
    true
}

/// The cuts that a line has.
pub(crate) fn cuts(alloc: Global, line: &Line) -> Result<Vec<usize>, AllocError> {
    let mut cuts = Vec::new(alloc);
    for number in line.numbers.iter() {
        cuts.push(*number as usize)?;
    }
    Ok(cuts)
}

/// The ops of lines.
fn ops(alloc: Global, lines: &[Line]) -> Result<Vec<Op<u64>>, Stop> {
    let mut ops = Vec::new(alloc);
    for line in lines {
        let key = line.key(0).to_vec(alloc)?;
        ops.push(match line.name() {
            "insert" => Op::Insert(key, line.number(0)),
            "get_or_insert" => Op::GetOrInsert(key, line.number(0)),
            "edit" => Op::Edit(key, steps(alloc, line)?),
            _ => return Err(Stop::BadLine),
        })?;
    }
    Ok(ops)
}

/// `build_in_ranges` of an index without values.
fn build_by<I: Partitioned<Value = u64>>(
    alloc: Global,
    index: &mut I,
    cuts: &[usize],
    ops: Vec<Op<u64>>,
    answer: &mut Answer,
) {
    if index.keys() == 0 && are_cuts(cuts, index.partition_count()) {
        answer.made(build_in_ranges(alloc, index, cuts, ops));
    } else {
        answer.word("unallowed");
    }
}

/// The same, by the ops of the lines that are kept.
fn build<I: Partitioned<Value = u64>>(index: &mut I, request: &mut Request) -> Result<(), Stop> {
    let alloc = request.alloc;
    let cuts = cuts(alloc, &request.line)?;
    let ops = ops(alloc, request.kept.as_slice())?;
    build_by(alloc, index, cuts.as_slice(), ops, &mut request.answer);
    Ok(())
}

/// What a range covers, and its counts.
fn counts<R: PartitionRange<Value = u64>>(range: &R, answer: &mut Answer) {
    answer.count(range.offset());
    answer.count(range.count());
    answer.count(range.keys());
    answer.count(range.items());
    answer.number(range.pruned());
}

/// The values of a range, in ascending order.
fn values<R: PartitionRange<Value = u64>>(alloc: Global, range: &R, answer: &mut Answer) {
    let mut values = Vec::new(alloc);
    let mut is_whole = true;
    range.for_each_value(|value: &u64| {
        if values.push(*value).is_err() {
            is_whole = false;
        }
    });
    values.sort_unstable();
    if values.is_empty() {
        answer.word("none");
    }
    for value in values.iter() {
        answer.number(*value);
    }
    answer.is_whole = answer.is_whole && is_whole;
}

/// A call by a key that the range holds.
fn by_key<R: PartitionRange<Value = u64>>(
    range: &mut R,
    key: &[u8],
    line: &Line,
    answer: &mut Answer,
) -> bool {
    if !range.holds(key) {
        answer.word("unallowed");
        return true;
    }
    if line.name() == "insert" {
        let value = line.number(0);
        answer.given(range.insert(key, value), value);
        return true;
    }
    by_search(range, key, line, answer) || by_place(range, key, line, answer)
}

/// A call of a range that is kept.
pub(crate) fn call_range<R: PartitionRange<Value = u64>>(
    range: &mut R,
    request: &mut Request,
) -> bool {
    let (line, answer) = (&request.line, &mut request.answer);
    match line.name() {
        "counts" => counts(&*range, answer),
        "holds" => answer.flag(range.holds(line.key(0))),
        "values" => values(request.alloc, &*range, answer),
        _ => return by_key(range, line.key(0), line, answer),
    }
    true
}

/// Whether a range can be installed.
fn can_install<I: Partitioned<Value = u64>>(
    index: &I,
    range: Option<&I::Range>,
    answer: &mut Answer,
) {
    match range {
        Some(range) => answer.flag(index.can_install(range)),
        None => answer.word("unallowed"),
    }
}

/// A call that every index in partitions has.
pub(crate) fn call<I: Partitioned<Value = u64>>(
    index: &mut I,
    ranges: &mut Vec<I::Range>,
    request: &mut Request,
) -> Result<bool, Stop> {
    let (line, answer) = (&request.line, &mut request.answer);
    let number = line.count(0);
    match line.name() {
        "partitions" => answer.count(index.partition_count()),
        "partition" => answer.count(I::partition_of(line.key(0))),
        "free" => is_free(&*index, number, answer),
        "range" => add_range(&*index, ranges, line, answer)?,
        "install" => install(index, ranges, number, answer)?,
        "can_install" => can_install(&*index, ranges.get(number), answer),
        "build" => build(index, request)?,
        _ => return flat::call(index, request),
    }
    Ok(true)
}

/// A call that such an index has if its keys are in order.
pub(crate) fn call_in_order<I: Partitioned<Value = u64> + Ordered<Value = u64>>(
    index: &mut I,
    ranges: &mut Vec<I::Range>,
    request: &mut Request,
) -> Result<bool, Stop> {
    if flat::call_in_order(&*index, &request.line, &mut request.answer) {
        return Ok(true);
    }
    call(index, ranges, request)
}

/// The partitioned unordered index.
#[derive(Drop)]
pub(crate) struct Punordered<T: Translator, const P: usize> {
    pub(crate) index: Index<T, u64, P>,
}

impl<T: Translator, const P: usize> Session for Punordered<T, P> {
    type Range = RangeIndex<T, u64, P>;

    fn call(
        &mut self,
        ranges: &mut Vec<RangeIndex<T, u64, P>>,
        request: &mut Request,
    ) -> Result<bool, Stop> {
        call(&mut self.index, ranges, request)
    }

    fn call_range(range: &mut RangeIndex<T, u64, P>, request: &mut Request) -> bool {
        call_range(range, request)
    }
}
