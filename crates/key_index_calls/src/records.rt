//! Records in an ordered index, and those next to a full key.
use crate::answer::Answer;
use crate::line::{Line, Stop};
use crate::serve::{Request, Session};
use key_index::snapshot::Record;
use key_index_flat::index::{Ordered, resolve_next, resolve_prev};
use key_index_uses::callers::{exclude, file};
use std::alloc::Global;

/// An ordered index of records.
#[derive(Drop)]
pub(crate) struct Filed<I> {
    pub(crate) index: I,
}

/// Where a record stands.
fn position(record: Option<&Record>) -> Option<u64> {
    match record {
        Some(record) => Some(record.position),
        None => None,
    }
}

/// Files a record.
fn add<I: Ordered<Value = Record>>(
    alloc: Global,
    index: &mut I,
    line: &Line,
    answer: &mut Answer,
) -> Result<(), Stop> {
    let key = line.key(0);
    let record = Record {
        key: key.to_vec(alloc)?,
        position: line.number(0),
    };
    match file(index, key, record) {
        Ok(()) => answer.word("ok"),
        Err(refused) => answer.refused(refused.fault),
    }
    Ok(())
}

/// Shows that no record has a key, by those next to it.
fn tell_excluded<I: Ordered<Value = Record>>(index: &I, key: &[u8], answer: &mut Answer) {
    match exclude(index, key) {
        Some(found) => {
            answer.option(position(found.below));
            answer.option(position(found.above));
        }
        None => answer.word("held"),
    }
}

impl<I: Ordered<Value = Record>> Session for Filed<I> {
    type Range = ();

    fn call(&mut self, _ranges: &mut Vec<()>, request: &mut Request) -> Result<bool, Stop> {
        let (line, answer) = (&request.line, &mut request.answer);
        match line.name() {
            "file" => add(request.alloc, &mut self.index, line, answer)?,
            "next" => answer.option(position(resolve_next(&self.index, line.key(0)))),
            "prev" => answer.option(position(resolve_prev(&self.index, line.key(0)))),
            "exclude" => tell_excluded(&self.index, line.key(0), answer),
            "inserts_first" => answer.flag(I::INSERT_FIRST),
            _ => return Ok(false),
        }
        Ok(true)
    }
}
