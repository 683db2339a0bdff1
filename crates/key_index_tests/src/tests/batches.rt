//! Batches whose closures keep the values that they visit, and the proved callers that answer a slice.
use super::checks::{holds, made, put};
use key_index_flat::index::{Factory, Unordered, ordered};
use key_index_flat::translator::OneCap;
use key_index_parts::index::partitioned::ordered::{Ahead, visit_ahead};
use key_index_uses::callers::last_values;
use key_index_uses::records::find_records;
use std::alloc::Global;
use std::process::Abort;

/// The flat ordered index by one byte.
type Flat = ordered::Index<OneCap, u64>;

/// Three keys by their first bytes: 0b with the value 1, 1c with 22 and 21, 2d with 3.
fn three(rt: &impl Abort, alloc: Global) -> Flat {
    let mut index: Flat = made(rt, Factory::new(alloc, OneCap));
    put(rt, index.insert(b"\x0b\x02\xaa", 1));
    put(rt, index.insert(b"\x1c\x04\xcc", 21));
    put(rt, index.insert(b"\x1c\x04\xcc", 22));
    put(rt, index.insert(b"\x2d\x06\xee", 3));
    index
}

#[test]
fn visited_values_may_be_kept(rt: HostRuntime) {
    let index = three(&rt, rt.alloc());
    let keys: [&[u8]; 2] = [b"\x2d", b"\x0b"];
    let mut kept: Option<&u64> = None;
    let visited = index.get_many(keys.iter().copied(), |_, value| kept = Some(value));
    holds(&rt, visited.is_ok(), "a batch");
    holds(&rt, kept.copied() == Some(3), "the kept value");
}

/// The last values of three keys, one of which has none.
#[test]
fn last_values_fill_a_slice(rt: HostRuntime) {
    let index = three(&rt, rt.alloc());
    let keys: [&[u8]; 3] = [b"\x1c", b"\x55", b"\x0b"];
    let mut answers = [None, Some(9), None];
    last_values(&index, &keys, &mut answers);
    holds(
        &rt,
        answers == [Some(21), Some(9), Some(1)],
        "the last values",
    );
}

#[test]
fn told_values_may_be_kept(rt: HostRuntime) {
    let index = three(&rt, rt.alloc());
    let keys: [&[u8]; 2] = [b"\x1c", b"\x0b"];
    let mut kept: Option<&u64> = None;
    let mut keep = |event| {
        if let Ahead::Visit(_, value) = event {
            kept = Some(value);
        }
    };
    let done = visit_ahead(rt.alloc(), &index, keys.iter().copied(), &mut keep);
    holds(&rt, done.is_ok(), "a batch");
    holds(&rt, kept.copied() == Some(21), "the kept value");
}

/// The keys of records by position.
const LOG: [&[u8]; 6] = [b"one", b"only", b"two", b"one", b"on", b"once"];

/// The keys that are looked for.
const SOUGHT: [&[u8]; 7] = [b"two", b"one", b"onto", b"only", b"tw", b"one", b""];

/// What they are answered.
const FOUND: [Option<u64>; 7] = [Some(2), Some(0), None, Some(1), None, Some(0), Some(9)];

/// Records of keys of which the index tells some not apart: the oldest record of each key, and none of an absent one.
#[test]
fn records_are_found(rt: HostRuntime) {
    let alloc = rt.alloc();
    let mut index: Flat = made(&rt, Factory::new(alloc, OneCap));
    for (position, key) in LOG.iter().enumerate() {
        put(&rt, index.insert(*key, position as u64));
    }
    let mut answers = [None, None, None, None, None, None, Some(9)];
    let found = find_records(alloc, &index, &LOG, &SOUGHT, &mut answers);
    holds(&rt, found.is_ok(), "memory");
    holds(&rt, answers == FOUND, "the oldest records");
}
