//! Indices without partitions.
use crate::answer::Answer;
use crate::calls;
use crate::commands::run_lines;
use crate::line::{Line, Stop};
use crate::serve::{Request, Session};
use key_index_flat::index::{Ordered, Unordered};

/// An index that has what every index has.
#[derive(Drop)]
pub(crate) struct InNoOrder<I> {
    pub(crate) index: I,
}

/// A call that every index has.
pub(crate) fn call<I: Unordered<Value = u64>>(
    index: &mut I,
    request: &mut Request,
) -> Result<bool, Stop> {
    if request.line.name() == "run" {
        run_lines(index, request)?;
        return Ok(true);
    }
    let (line, answer) = (&request.line, &mut request.answer);
    Ok(calls::call(index, line.key(0), line, answer))
}

impl<I: Unordered<Value = u64>> Session for InNoOrder<I> {
    type Range = ();

    fn call(&mut self, _ranges: &mut Vec<()>, request: &mut Request) -> Result<bool, Stop> {
        call(&mut self.index, request)
    }
}

/// An index whose keys are in order.
#[derive(Drop)]
pub(crate) struct InOrder<I> {
    pub(crate) index: I,
}

/// A call that an index has whose keys are in order.
pub(crate) fn call_in_order<I: Ordered<Value = u64>>(
    index: &I,
    line: &Line,
    answer: &mut Answer,
) -> bool {
    match line.name() {
        "next" => answer.neighbour(index.next_translated_key(line.key(0))),
        "prev" => answer.neighbour(index.prev_translated_key(line.key(0))),
        "first" => answer.end(index.first_translated_key()),
        "last" => answer.end(index.last_translated_key()),
        _ => return false,
    }
    true
}

impl<I: Ordered<Value = u64>> Session for InOrder<I> {
    type Range = ();

    fn call(&mut self, _ranges: &mut Vec<()>, request: &mut Request) -> Result<bool, Stop> {
        if call_in_order(&self.index, &request.line, &mut request.answer) {
            return Ok(true);
        }
        call(&mut self.index, request)
    }
}
