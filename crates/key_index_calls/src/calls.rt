//! The calls that every index has.
ghost use Rattle.key_index_flat.specs.View.{Admits};

use crate::answer::Answer;
use crate::cursors::{edit, edit_at, edit_or_insert};
use crate::line::Line;
use key_index_flat::index::{Cursor, Runs, Search, Unordered};
use key_index_uses::callers::{add, replace, replace_first, update};

/// `retain`, or `insert_and_retain`, with what it asks on.
fn retain<I: Unordered<Value = u64>>(index: &mut I, line: &Line, answer: &mut Answer) {
    let (key, value) = (line.key(0), line.number(0));
    let inserts = line.name() == "insert_and_retain";
    let mut answers = if inserts { line.number(1) } else { value };
    let should_retain = |value: &u64| answer.ask(*value, &mut answers);
    if inserts {
        let given = index.insert_and_retain(key, value, should_retain);
        answer.given(given, value);
    } else {
        let made = index.retain(key, should_retain);
        answer.made(made);
    }
}

/// `get_many`, with what it visits.
fn visit<I: Unordered<Value = u64>>(index: &I, line: &Line, answer: &mut Answer) {
    let made = index.get_many(line.keys.iter(), |place: usize, value: &u64| {
        answer.count(place);
        answer.number(*value);
    });
    answer.made(made);
}

/// The calls by key that give no cursor.
fn by_key<I: Unordered<Value = u64>>(index: &mut I, line: &Line, answer: &mut Answer) -> bool {
    let key = line.key(0);
    let value = line.number(0);
    match line.name() {
        "insert" => answer.given(index.insert(key, value), value),
        "remove" => answer.made(index.remove(key)),
        "get" => answer.values(index.get(key)),
        "retain" | "insert_and_retain" => retain(index, line, answer),
        "many" => visit(index, line, answer),
        _ => return false,
    }
    true
}

/// The three counts.
fn counts<I: Unordered<Value = u64>>(index: &I, answer: &mut Answer) {
    answer.count(index.keys());
    answer.count(index.items());
    answer.number(index.pruned());
}

/// The calls that tell of the whole index.
fn of_whole<I: Unordered<Value = u64>>(index: &I, line: &Line, answer: &mut Answer) -> bool {
    match line.name() {
        "counts" => counts(index, answer),
        "empty" => answer.flag(index.is_empty()),
        "inserts_first" => answer.flag(I::INSERT_FIRST),
        "same_slot" => {
            answer.flag(index.slot_of(line.key(0)) == index.slot_of(line.key(1)));
        }
        _ => return false,
    }
    true
}

/// `reach`, and whether it tells the index key of the key.
fn reach<I: Search<Value = u64>>(index: &mut I, key: &[u8], answer: &mut Answer)
    requires { Admits (I.view index.old) key.now }
{
    let slot = index.slot_of(key);
    match index.reach(key) {
        Ok((reached, len)) => tell_reached(reached == slot, len, answer),
        Err(fault) => answer.refused(fault),
    }
}

/// `reach_or_insert`, the same.
fn reach_or_insert<I: Search<Value = u64>>(
    index: &mut I,
    key: &[u8],
    value: u64,
    answer: &mut Answer,
)
    requires { Admits (I.view index.old) key.now }
{
    let slot = index.slot_of(key);
    match index.reach_or_insert(key, value) {
        Ok((reached, len)) => tell_reached(reached == slot, len, answer),
        Err(refused) => answer.returned(&refused, value),
    }
}

fn tell_reached(is_slot: bool, len: usize, answer: &mut Answer) {
    answer.count(len);
    if !is_slot {
        answer.word("other slot");
    }
}

/// `search`.
fn search<I: Search<Value = u64>>(index: &mut I, key: &[u8], answer: &mut Answer)
    requires { Admits (I.view index.old) key.now }
{
    match index.search(key) {
        Ok(cursor) => answer.state(cursor.state()),
        Err(None) => answer.word("none"),
        Err(Some(fault)) => answer.refused(fault),
    }
}

/// `search_or_insert`.
fn search_or_insert<I: Search<Value = u64>>(
    index: &mut I,
    key: &[u8],
    value: u64,
    answer: &mut Answer,
)
    requires { Admits (I.view index.old) key.now }
{
    match index.search_or_insert(key, value) {
        Ok(cursor) => answer.state(cursor.state()),
        Err(None) => answer.word("inserted"),
        Err(Some(refused)) => answer.returned(&refused, value),
    }
}

/// The calls by key that look for a cursor, or for its list.
pub(crate) fn by_search<I: Search<Value = u64>>(
    index: &mut I,
    key: &[u8],
    line: &Line,
    answer: &mut Answer,
) -> bool
    requires { Admits (I.view index.old) key.now }
{
    let value = line.number(0);
    match line.name() {
        "edit" => edit(index, key, line, answer),
        "edit_or_insert" => edit_or_insert(index, key, value, line, answer),
        "reach" => reach(index, key, answer),
        "reach_or_insert" => reach_or_insert(index, key, value, answer),
        "search" => search(index, key, answer),
        "search_or_insert" => search_or_insert(index, key, value, answer),
        _ => return false,
    }
    true
}

/// The value at a place that has one.
fn value_at<I: Runs<Value = u64>>(index: &I, key: &[u8], place: usize, answer: &mut Answer) {
    let slot = index.slot_of(key);
    if place < index.run_len(slot) {
        answer.number(*index.value_at(slot, place));
    } else {
        answer.word("unallowed");
    }
}

/// `set_at` of a place that has a value.
fn set_at<I: Runs<Value = u64>>(index: &mut I, key: &[u8], line: &Line, answer: &mut Answer) {
    let (slot, place) = (index.slot_of(key), line.count(1));
    if place < index.run_len(slot) {
        index.set_at(slot, place, line.number(0));
        answer.word("ok");
    } else {
        answer.word("unallowed");
    }
}

/// `insert_at` of a place up to the end.
fn insert_at<I: Runs<Value = u64>>(index: &mut I, key: &[u8], line: &Line, answer: &mut Answer) {
    let (slot, value, place) = (index.slot_of(key), line.number(0), line.count(1));
    if index.admits(slot) && place <= index.run_len(slot) {
        answer.given(index.insert_at(slot, place, value), value);
    } else {
        answer.word("unallowed");
    }
}

/// `remove_at` of a place that has a value.
fn remove_at<I: Runs<Value = u64>>(index: &mut I, key: &[u8], place: usize, answer: &mut Answer) {
    let slot = index.slot_of(key);
    if place < index.run_len(slot) {
        answer.number(index.remove_at(slot, place));
    } else {
        answer.word("unallowed");
    }
}

/// The calls by index key and place.
pub(crate) fn by_place<I: Runs<Value = u64>>(
    index: &mut I,
    key: &[u8],
    line: &Line,
    answer: &mut Answer,
) -> bool {
    match line.name() {
        "len" => answer.count(index.run_len(index.slot_of(key))),
        "at" => value_at(&*index, key, line.count(0), answer),
        "set_at" => set_at(index, key, line, answer),
        "insert_at" => insert_at(index, key, line, answer),
        "remove_at" => remove_at(index, key, line.count(0), answer),
        "edit_at" => edit_at(index, key, line, answer),
        _ => return false,
    }
    true
}

/// `update` of a value by another one.
fn update_value<I: Unordered<Value = u64>>(index: &mut I, line: &Line, answer: &mut Answer) {
    let (old, new) = (line.number(0), line.number(1));
    if old == new {
        answer.word("unallowed");
        return;
    }
    match update(index, line.key(0), old, new) {
        Ok(()) => answer.word("ok"),
        Err(fault) => answer.refused(fault),
    }
}

/// `add`.
fn add_value<I: Unordered<Value = u64>>(index: &mut I, line: &Line, answer: &mut Answer) {
    let value = line.number(0);
    match add(index, line.key(0), value) {
        Ok(items) => answer.count(items),
        Err(refused) => answer.returned(&refused, value),
    }
}

/// The proved callers.
fn by_callers<I: Unordered<Value = u64>>(index: &mut I, line: &Line, answer: &mut Answer) -> bool {
    let value = line.number(0);
    match line.name() {
        "add" => add_value(index, line, answer),
        "replace" => answer.made(replace(index, line.key(0), value)),
        "replace_first" => answer.told(replace_first(index, line.key(0), value)),
        "update" => update_value(index, line, answer),
        _ => return false,
    }
    true
}

/// Any of these, which are made by a key. Tells whether the line is one of them.
pub(crate) fn call<I: Unordered<Value = u64>>(
    index: &mut I,
    key: &[u8],
    line: &Line,
    answer: &mut Answer,
) -> bool {
    by_key(index, line, answer)
        || of_whole(index, line, answer)
        || by_search(index, key, line, answer)
        || by_place(index, key, line, answer)
        || by_callers(index, line, answer)
}
