//! Snapshots over ordered indices.
ghost use Rattle.key_index_parts.specs.Ops.{IsCuts};

use crate::answer::Answer;
use crate::line::{Line, Stop};
use crate::partitions::{are_cuts, cuts};
use crate::serve::{Request, Session};
use crate::spilling::at_threshold;
use key_index::snapshot::{Record, Snapshot};
use key_index_flat::index::{Fault, Ordered};
use key_index_flat::translator::OneCap;
use key_index_parts::index::partitioned::ordered::Index;
use key_index_uses::snapshots::gap_at;
use std::alloc::Global;

/// A key and its position, or none.
fn tell_entry(entry: Option<(&[u8], u64)>, answer: &mut Answer) {
    match entry {
        Some((key, position)) => {
            answer.key(key);
            answer.number(position);
        }
        None => answer.word("none"),
    }
}

/// Shows that a snapshot lacks a key, by those next to it.
fn tell_gap<I: Ordered<Value = Record>>(snapshot: &Snapshot<I>, key: &[u8], answer: &mut Answer) {
    match gap_at(snapshot, key) {
        Some(gap) => {
            tell_entry(gap.below, answer);
            tell_entry(gap.above, answer);
        }
        None => answer.word("held"),
    }
}

/// A call that every snapshot has.
fn call<I: Ordered<Value = Record>>(
    snapshot: &mut Snapshot<I>,
    line: &Line,
    answer: &mut Answer,
) -> bool {
    let key = line.key(0);
    match line.name() {
        "set" => answer.made(snapshot.set(key, line.number(0))),
        "unset" => answer.told(snapshot.unset(key)),
        "get" => answer.option(snapshot.get(key)),
        "next" => tell_entry(snapshot.next(key), answer),
        "prev" => tell_entry(snapshot.prev(key), answer),
        "absent" => tell_gap(&*snapshot, key, answer),
        "len" => {
            answer.count(snapshot.len());
            answer.flag(snapshot.is_empty());
        }
        _ => return false,
    }
    true
}

/// A snapshot.
#[derive(Drop)]
pub(crate) struct Whole<I: Ordered<Value = Record>> {
    pub(crate) snapshot: Snapshot<I>,
}

impl<I: Ordered<Value = Record>> Session for Whole<I> {
    type Range = ();

    fn call(&mut self, _ranges: &mut Vec<()>, request: &mut Request) -> Result<bool, Stop> {
        Ok(call(&mut self.snapshot, &request.line, &mut request.answer))
    }
}

/// A snapshot over partitions by one byte, which can be built anew.
#[derive(Drop)]
pub(crate) struct Built {
    threshold: usize,
    snapshot: Snapshot<Index<OneCap, Record, 1>>,
}

impl Built {
    /// A snapshot with no key, over partitions that spill at so many values, or at the default where that is 0.
    pub(crate) fn new(alloc: Global, threshold: usize) -> Result<Built, Fault> {
        let index = at_threshold::<OneCap, Record, 1>(alloc, OneCap, threshold)?;
        Ok(Built {
            threshold,
            snapshot: Snapshot::new(alloc, index),
        })
    }
}

/// The records of lines.
fn records(alloc: Global, lines: &[Line]) -> Result<Vec<Record>, Stop> {
    let mut records = Vec::new(alloc);
    for line in lines {
        if line.name() != "record" {
            return Err(Stop::BadLine);
        }
        let key = line.key(0).to_vec(alloc)?;
        let position = line.number(0);
        records.push(Record { key, position })?;
    }
    Ok(records)
}

/// A snapshot that is built of records in the place of the one that there is.
fn build_of(
    alloc: Global,
    built: &mut Built,
    cuts: &[usize],
    records: Vec<Record>,
) -> Result<(), Fault>
    requires { IsCuts cuts.now 256 }
{
    let index = at_threshold::<OneCap, Record, 1>(alloc, OneCap, built.threshold)?;
    built.snapshot = Snapshot::build(alloc, index, cuts, records)?;
    Ok(())
}

/// The same, by the records of the lines that are kept.
fn build(built: &mut Built, request: &mut Request) -> Result<(), Stop> {
    let alloc = request.alloc;
    let cuts = cuts(alloc, &request.line)?;
    let records = records(alloc, request.kept.as_slice())?;
    let answer = &mut request.answer;
    if are_cuts(cuts.as_slice(), 256) {
        answer.made(build_of(alloc, built, cuts.as_slice(), records));
    } else {
        answer.word("unallowed");
    }
    Ok(())
}

impl Session for Built {
    type Range = ();

    fn call(&mut self, _ranges: &mut Vec<()>, request: &mut Request) -> Result<bool, Stop> {
        if request.line.name() == "build" {
            build(self, request)?;
            return Ok(true);
        }
        Ok(call(&mut self.snapshot, &request.line, &mut request.answer))
    }
}
