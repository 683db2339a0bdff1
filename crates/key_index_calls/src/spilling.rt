//! The partitioned ordered index, whose partitions spill.
ghost use Rattle.std.specs.Prelude.{◌≡◌, ◌≤◌, [], IfOk};
ghost use Rattle.key_index_parts.specs.Ordered.{view};

use crate::answer::Answer;
use crate::line::{Line, Stop};
use crate::partitions::{add_range, call_in_order, call_range};
use crate::serve::{Request, Session};
use key_index_flat::index::{Factory, Fault};
use key_index_flat::translator::{OneCap, OrderedTranslator, Translator, TwoCap};
use key_index_parts::index::partitioned::ordered::{Ahead, Index, RangeIndex};
use key_index_parts::index::partitioned::{PartitionRange, Partitioned};
use std::alloc::Global;

/// The index, and others that spill at thresholds of their own, of which ranges are made.
#[derive(Drop)]
pub(crate) struct Spilling<T: Translator, const P: usize> {
    pub(crate) index: Index<T, u64, P>,
    pub(crate) others: Vec<Index<T, u64, P>>,
}

/// An index whose partitions spill at so many values, or at the default where that is 0.
pub(crate) fn at_threshold<T: Translator, V: Drop, const P: usize>(
    alloc: Global,
    translator: T,
    threshold: usize,
) -> Result<Index<T, V, P>, Fault>
    requires least { 1 ≤ P }
    requires greatest { P ≤ 3 }
    ensures { IfOk result (λ index. (view index).content ≡ []) }
{
    if threshold == 0 {
        return Index::new(alloc, translator);
    }
    Index::with_threshold(alloc, translator, threshold)
}

/// An index whose batches look ahead. A call of `get_many_ahead` over any translator is more than the checker takes, so it is made by
/// `OneCap`.
pub(crate) trait LooksAhead {
    /// A batch that looks ahead. Tells whether the index makes it here.
    fn look_ahead(&self, line: &Line, answer: &mut Answer) -> bool;
}

/// What a batch that looks ahead tells.
fn tell_event(event: Ahead<'_, u64>, answer: &mut Answer) {
    match event {
        Ahead::Found(place, len) => {
            answer.word("found");
            answer.count(place);
            answer.count(len);
        }
        Ahead::Visit(place, value) => {
            answer.word("visit");
            answer.count(place);
            answer.number(*value);
        }
    }
}

impl<const P: usize> LooksAhead for Index<OneCap, u64, P> {
    fn look_ahead(&self, line: &Line, answer: &mut Answer) -> bool {
        let made = self.get_many_ahead(
            line.keys.iter(),
            |event: Ahead<'_, u64>| tell_event(event, answer),
        );
        answer.made(made);
        true
    }
}

impl<const P: usize> LooksAhead for Index<TwoCap, u64, P> {
    fn look_ahead(&self, _line: &Line, _answer: &mut Answer) -> bool {
        false
    }
}

/// Whether a partition is spilled, and how many of its values stand in arrays.
fn standing<T: Translator, const P: usize>(
    index: &Index<T, u64, P>,
    partition: usize,
    answer: &mut Answer,
) {
    if partition < index.partition_count() {
        answer.flag(index.is_spilled(partition));
        answer.count(index.inline_len(partition));
    } else {
        answer.word("unallowed");
    }
}

/// The same of a range.
fn range_standing<T: Translator, const P: usize>(
    range: &RangeIndex<T, u64, P>,
    partition: usize,
    answer: &mut Answer,
) {
    let offset = range.offset();
    if offset <= partition && partition - offset < range.count() {
        answer.flag(range.is_spilled(partition));
        answer.count(range.inline_len(partition));
    } else {
        answer.word("unallowed");
    }
}

/// A call that tells how the index stands.
fn of_spills<T: Translator, const P: usize>(
    index: &Index<T, u64, P>,
    line: &Line,
    answer: &mut Answer,
) -> bool {
    match line.name() {
        "threshold" => answer.count(index.threshold()),
        "spilled_count" => answer.count(index.spilled_count()),
        "moves" => {
            answer.number(index.spills());
            answer.number(index.moved());
        }
        "standing" => standing(index, line.count(0), answer),
        _ => return false,
    }
    true
}

/// A call that tells how a range stands. Tells whether the line is one.
fn of_spilled_range<T: Translator, const P: usize>(
    range: &RangeIndex<T, u64, P>,
    line: &Line,
    answer: &mut Answer,
) -> bool {
    match line.name() {
        "moves" => {
            answer.number(range.spills());
            answer.number(range.moved());
        }
        "standing" => range_standing(range, line.count(0), answer),
        _ => return false,
    }
    true
}

/// The one of some indices that spills at a threshold.
fn with_threshold<T: Translator, const P: usize>(
    others: &[Index<T, u64, P>],
    threshold: usize,
) -> Option<&Index<T, u64, P>> {
    for other in others {
        if other.threshold() == threshold {
            return Some(other);
        }
    }
    None
}

impl<T: OrderedTranslator, const P: usize> Session for Spilling<T, P>
where
    Index<T, u64, P>: LooksAhead,
{
    type Range = RangeIndex<T, u64, P>;

    fn call(
        &mut self,
        ranges: &mut Vec<RangeIndex<T, u64, P>>,
        request: &mut Request,
    ) -> Result<bool, Stop> {
        let (line, answer) = (&request.line, &mut request.answer);
        if line.name() == "ahead" {
            return Ok(self.index.look_ahead(line, answer));
        }
        if of_spills(&self.index, line, answer) {
            return Ok(true);
        }
        if line.name() == "range_at" {
            match with_threshold(self.others.as_slice(), line.count(2)) {
                Some(other) => add_range(other, ranges, line, answer)?,
                None => answer.word("unallowed"),
            }
            return Ok(true);
        }
        call_in_order(&mut self.index, ranges, request)
    }

    fn call_range(range: &mut RangeIndex<T, u64, P>, request: &mut Request) -> bool {
        of_spilled_range(&*range, &request.line, &mut request.answer) || call_range(range, request)
    }
}
