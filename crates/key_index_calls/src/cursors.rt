//! The moves of cursors.
ghost use Rattle.key_index_flat.specs.View.{Admits};

use crate::answer::Answer;
use crate::line::{Line, Move};
use key_index_flat::index::{Cursor, CursorState, IndexCursor, Runs, Search};

/// `retain`, with what it asks on.
fn retain<C: Cursor<Value = u64>>(cursor: &mut C, mut answers: u64, answer: &mut Answer) {
    cursor.retain(|value: &u64| answer.ask(*value, &mut answers));
    answer.word("ok");
}

/// `find`, with what it asks on.
fn find<C: Cursor<Value = u64>>(cursor: &mut C, mut answers: u64, answer: &mut Answer) {
    let found = cursor.find(|value: &u64| answer.ask(*value, &mut answers));
    answer.word(if found { "found" } else { "past" });
}

/// `insert`, where the cursor's state allows it.
fn insert<C: Cursor<Value = u64>>(cursor: &mut C, value: u64, answer: &mut Answer) {
    if cursor.state() == CursorState::NeedNext {
        answer.word("unallowed");
    } else {
        answer.given(cursor.insert(value), value);
    }
}

/// `update`, or else `delete`, where the cursor is on a value.
fn change<C: Cursor<Value = u64>>(cursor: &mut C, value: Option<u64>, answer: &mut Answer) {
    if cursor.state() != CursorState::Active {
        answer.word("unallowed");
        return;
    }
    match value {
        Some(value) => cursor.update(value),
        None => cursor.delete(),
    }
    answer.word("ok");
}

/// A move.
fn make<C: Cursor<Value = u64>>(cursor: &mut C, next: Move, answer: &mut Answer) {
    match next {
        Move::Next => match cursor.next() {
            Some(value) => answer.number(*value),
            None => answer.word("end"),
        },
        Move::Insert(value) => insert(cursor, value, answer),
        Move::Update(value) => change(cursor, Some(value), answer),
        Move::Delete => change(cursor, None, answer),
        Move::Retain(answers) => retain(cursor, answers, answer),
        Move::Find(answers) => find(cursor, answers, answer),
    }
}

/// The moves of a line, with the cursor's state before them and behind each.
fn make_all<C: Cursor<Value = u64>>(cursor: &mut C, line: &Line, answer: &mut Answer) {
    answer.state(cursor.state());
    for next in line.moves.iter() {
        make(cursor, *next, answer);
        answer.state(cursor.state());
    }
}

/// `get_mut`, whose cursor makes the moves of the line.
pub(crate) fn edit<I: Search<Value = u64>>(
    index: &mut I,
    key: &[u8],
    line: &Line,
    answer: &mut Answer,
)
    requires { Admits (I.view index.old) key.now }
{
    match index.get_mut(key) {
        Ok(Some(mut cursor)) => make_all(&mut cursor, line, answer),
        Ok(None) => answer.word("none"),
        Err(fault) => answer.refused(fault),
    }
}

/// `get_mut_or_insert`, the same.
pub(crate) fn edit_or_insert<I: Search<Value = u64>>(
    index: &mut I,
    key: &[u8],
    value: u64,
    line: &Line,
    answer: &mut Answer,
)
    requires { Admits (I.view index.old) key.now }
{
    match index.get_mut_or_insert(key, value) {
        Ok(Some(mut cursor)) => make_all(&mut cursor, line, answer),
        Ok(None) => answer.word("inserted"),
        Err(refused) => answer.returned(&refused, value),
    }
}

/// A cursor that is made at an index key with values.
pub(crate) fn edit_at<I: Runs<Value = u64>>(
    index: &mut I,
    key: &[u8],
    line: &Line,
    answer: &mut Answer,
) {
    let slot = index.slot_of(key);
    if !index.admits(slot) || index.run_len(slot) == 0 {
        answer.word("unallowed");
        return;
    }
    let mut cursor = IndexCursor::new(index, slot);
    make_all(&mut cursor, line, answer);
}
