//! The immutable index, and a log in segments.
ghost use Rattle.std.specs.Prelude.{◌*◌, ◌^◌, ◌<◌};

use crate::answer::Answer;
use crate::line::{Line, Stop};
use crate::serve::{Request, Session};
use key_index::index::immutable::{Index, Mark, Marked, Positions, run_marks};
use key_index_flat::index::{Fault, Values};
use key_index_flat::translator::{Translator, TwoCap};
use key_index_uses::segments::SegmentedLog;
use std::alloc::Global;

/// An immutable index. The memory of earlier answers serves later ones.
#[derive(Drop)]
pub(crate) struct Immutable<T: Translator> {
    index: Index<T>,
    found: Vec<u64>,
}

impl<T: Translator> Immutable<T> {
    /// An index from a position on, with room for so many.
    pub(crate) fn new(
        alloc: Global,
        translator: T,
        start: usize,
        capacity: usize,
    ) -> Result<Immutable<T>, Fault> {
        Ok(Immutable {
            index: Index::new(alloc, translator, start as u64, capacity)?,
            found: Vec::new(alloc),
        })
    }
}

/// Positions, in ascending order.
fn tell_positions<T: Translator>(
    positions: Positions<'_, T>,
    found: &mut Vec<u64>,
    answer: &mut Answer,
) {
    found.clear();
    for position in positions {
        if found.push(position).is_err() {
            answer.is_whole = false;
        }
    }
    found.sort_unstable();
    answer.values(Values::of_slice(found.as_slice()));
}

/// `insert` at a position that is free.
fn insert<T: Translator>(index: &mut Index<T>, key: &[u8], position: u64, answer: &mut Answer) {
    if position < index.start() || index.is_indexed(position) {
        answer.word("unallowed");
        return;
    }
    answer.made(index.insert(key, position));
}

/// `prune`.
fn prune<T: Translator>(index: &mut Index<T>, start: u64, answer: &mut Answer) {
    index.prune(start);
    answer.word("ok");
}

/// The length, the start, and how many positions were pruned and cells released.
fn counts<T: Translator>(index: &Index<T>, answer: &mut Answer) {
    answer.count(index.len());
    answer.number(index.start());
    answer.number(index.pruned());
    answer.number(index.removals());
}

/// The positions that are indexed, of so many from one on.
fn indexed<T: Translator>(index: &Index<T>, from: u64, count: u64, answer: &mut Answer) {
    for place in 0..count {
        let position = from.saturating_add(place);
        if index.is_indexed(position) {
            answer.number(position);
        }
    }
    answer.word("ok");
}

/// A call of the index. Tells whether the line is one.
fn call<T: Translator>(session: &mut Immutable<T>, line: &Line, answer: &mut Answer) -> bool {
    let index = &mut session.index;
    match line.name() {
        "insert" => insert(index, line.key(0), line.number(0), answer),
        "get" => tell_positions(index.get(line.key(0)), &mut session.found, answer),
        "prune" => prune(index, line.number(0), answer),
        "counts" => counts(&*index, answer),
        "indexed" => indexed(&*index, line.number(0), line.number(1), answer),
        "empty" => answer.flag(index.is_empty()),
        _ => return false,
    }
    true
}

/// The marks of lines.
fn marks(alloc: Global, lines: &[Line]) -> Result<Vec<Mark>, Stop> {
    let mut marks = Vec::new(alloc);
    for line in lines {
        marks.push(match line.name() {
            "prune" => Mark::Prune(line.number(0)),
            "insert" => Mark::Insert(line.key(0).to_vec(alloc)?, line.number(0)),
            _ => return Err(Stop::BadLine),
        })?;
    }
    Ok(marks)
}

/// What marks came to.
fn tell_marked(outcomes: &[Marked], answer: &mut Answer) {
    for outcome in outcomes {
        match *outcome {
            Marked::Done => answer.word("done"),
            Marked::Skipped => answer.word("skipped"),
            Marked::Refused(fault) => answer.refused(fault),
        }
    }
    answer.word("ok");
}

/// The lines that are kept, as marks.
fn run<T: Translator>(index: &mut Index<T>, request: &mut Request) -> Result<(), Stop> {
    let marks = marks(request.alloc, request.kept.as_slice())?;
    match run_marks(request.alloc, index, marks) {
        Ok(outcomes) => tell_marked(outcomes.as_slice(), &mut request.answer),
        Err(fault) => request.answer.refused(fault),
    }
    Ok(())
}

impl<T: Translator> Session for Immutable<T> {
    type Range = ();

    fn call(&mut self, _ranges: &mut Vec<()>, request: &mut Request) -> Result<bool, Stop> {
        if request.line.name() == "run" {
            run(&mut self.index, request)?;
            return Ok(true);
        }
        Ok(call(self, &request.line, &mut request.answer))
    }
}

/// A log in segments. The memory of earlier answers serves later ones.
#[derive(Drop)]
pub(crate) struct Segmented {
    log: SegmentedLog<TwoCap>,
    found: Vec<u64>,
}

impl Segmented {
    pub(crate) fn new(alloc: Global) -> Result<Segmented, Fault> {
        Ok(Segmented {
            log: SegmentedLog::new(alloc, TwoCap)?,
            found: Vec::new(alloc),
        })
    }
}

/// `append`.
fn append(log: &mut SegmentedLog<TwoCap>, key: &[u8], answer: &mut Answer) {
    match log.append(key) {
        Ok(position) => answer.number(position),
        Err(fault) => answer.refused(fault),
    }
}

/// `drop_front` of a segment whose positions are numbers.
fn drop_front(log: &mut SegmentedLog<TwoCap>, segment: u64, answer: &mut Answer) {
    if segment >= 1 << 52 {
        answer.word("unallowed");
        return;
    }
    log.drop_front(segment);
    answer.word("ok");
}

impl Session for Segmented {
    type Range = ();

    fn call(&mut self, _ranges: &mut Vec<()>, request: &mut Request) -> Result<bool, Stop> {
        let (line, answer) = (&request.line, &mut request.answer);
        match line.name() {
            "append" => append(&mut self.log, line.key(0), answer),
            "get" => tell_positions(self.log.records(line.key(0)), &mut self.found, answer),
            "prune" => drop_front(&mut self.log, line.number(0), answer),
            _ => return Ok(false),
        }
        Ok(true)
    }
}
