//! The arrays of a partition, by themselves.
use crate::answer::Answer;
use crate::line::{Line, Stop};
use crate::serve::{Request, Session};
use key_index_flat::index::{Refused, Values};
use key_index_parts::index::partitioned::ordered::partition::Partition;
use std::alloc::Global;
use std::mem::size_of;

/// Pairs of a key and a value.
type Pairs = Partition<u16, u64>;

/// Sorted arrays.
#[derive(Drop)]
pub(crate) struct Arrays {
    pairs: Pairs,
}

impl Arrays {
    pub(crate) fn new(alloc: Global) -> Arrays {
        Arrays {
            pairs: Partition::new(alloc),
        }
    }
}

/// The key that a line names.
fn key_of(line: &Line) -> u16 {
    (line.number(0) % 0x1_0000) as u16
}

/// Puts a value in last among those of its key.
fn add(pairs: &mut Pairs, key: u16, value: u64) -> Result<(), Refused<u64>> {
    let place = pairs.run_range(&key).end;
    pairs.insert_at(place, key, value)
}

/// Removes the values of a key.
fn clear(pairs: &mut Pairs, key: u16, answer: &mut Answer) {
    let run = pairs.run_range(&key);
    pairs.remove_run(run);
    answer.word("ok");
}

/// The calls that change a run, or look for it.
fn by_key(pairs: &mut Pairs, line: &Line, answer: &mut Answer) -> bool {
    let (key, value) = (key_of(line), line.number(1));
    match line.name() {
        "insert" => answer.given(add(pairs, key, value), value),
        "remove" => clear(pairs, key, answer),
        "get" => answer.values(Values::of_slice(pairs.values(&key))),
        "len" => tell_places(&*pairs, key, answer),
        _ => return false,
    }
    true
}

/// Where the run of a key begins and ends.
fn tell_places(pairs: &Pairs, key: u16, answer: &mut Answer) {
    let run = pairs.run_range(&key);
    answer.count(run.start);
    answer.count(run.end);
}

/// The values of a run, or none.
fn tell_run(values: Option<&[u64]>, answer: &mut Answer) {
    match values {
        Some(values) => answer.values(Values::of_slice(values)),
        None => answer.word("none"),
    }
}

/// The calls that ask for the order of the keys.
fn in_order(pairs: &Pairs, line: &Line, answer: &mut Answer) -> bool {
    let key = key_of(line);
    match line.name() {
        "next" => tell_run(pairs.next_values_after(&key), answer),
        "prev" => tell_run(pairs.prev_values_before(&key), answer),
        "first" => tell_run(pairs.first_values(), answer),
        "last" => tell_run(pairs.last_values(), answer),
        _ => return false,
    }
    true
}

/// The pair at a place.
fn tell_pair(pairs: &Pairs, place: usize, answer: &mut Answer) {
    if place < pairs.len() {
        answer.number(u64::from(pairs.key_at(place)));
        answer.number(*pairs.value_at(place));
    } else {
        answer.word("unallowed");
    }
}

/// Another value at a place.
fn set(pairs: &mut Pairs, place: usize, value: u64, answer: &mut Answer) {
    if place < pairs.len() {
        pairs.set(place, value);
        answer.word("ok");
    } else {
        answer.word("unallowed");
    }
}

/// The pair at a place is removed.
fn take(pairs: &mut Pairs, place: usize, answer: &mut Answer) {
    if place < pairs.len() {
        answer.number(pairs.remove(place));
    } else {
        answer.word("unallowed");
    }
}

/// The calls at a place.
fn by_place(pairs: &mut Pairs, line: &Line, answer: &mut Answer) -> bool {
    let place = line.count(0);
    match line.name() {
        "at" => tell_pair(&*pairs, place, answer),
        "set_at" => set(pairs, place, line.number(1), answer),
        "remove_at" => take(pairs, place, answer),
        _ => return false,
    }
    true
}

/// All values, in the order of their keys.
fn tell_all(pairs: &Pairs, answer: &mut Answer) {
    for value in pairs.values_iter() {
        answer.number(*value);
    }
    answer.flag(pairs.is_empty());
}

/// `drain_runs`: each key with its values.
fn drain(pairs: &mut Pairs, answer: &mut Answer) {
    match pairs.drain_runs() {
        Ok(runs) => {
            for (key, values) in runs.iter() {
                answer.word("of");
                answer.number(u64::from(*key));
                answer.values(Values::of_slice(values.as_slice()));
            }
            answer.word("ok");
        }
        Err(fault) => answer.refused(fault),
    }
}

/// The calls of the whole arrays.
fn of_whole(pairs: &mut Pairs, line: &Line, answer: &mut Answer) -> bool {
    match line.name() {
        "many" => tell_all(&*pairs, answer),
        "counts" => answer.count(pairs.len()),
        "room" => answer.count(pairs.room()),
        "reserve" => answer.made(pairs.reserve(line.count(0))),
        "drain" => drain(pairs, answer),
        "size" => answer.count(size_of::<Pairs>()),
        _ => return false,
    }
    true
}

impl Session for Arrays {
    type Range = ();

    fn call(&mut self, _ranges: &mut Vec<()>, request: &mut Request) -> Result<bool, Stop> {
        let (line, answer) = (&request.line, &mut request.answer);
        let pairs = &mut self.pairs;
        Ok(
            by_key(pairs, line, answer)
                || in_order(&*pairs, line, answer)
                || of_whole(pairs, line, answer)
                || by_place(pairs, line, answer),
        )
    }
}
