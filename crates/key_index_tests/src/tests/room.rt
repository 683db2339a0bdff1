//! `reserve` of the flat unordered index, before the first key and after some.
use super::checks::{are, counts_are, holds, made, put};
use key_index_flat::index::unordered::Index;
use key_index_flat::index::{Factory, Fault, Unordered};
use key_index_flat::translator::EightCap;
use std::alloc::Global;
use std::process::Abort;

/// The index keeps both values of 01 and the one of 02, and so many in all.
fn keeps_three(rt: &impl Abort, index: &Index<EightCap, u64>) {
    are(rt, index.get(b"\x01"), &[11, 10]);
    are(rt, index.get(b"\x02"), &[20]);
    are(rt, index.get(b"\x03"), &[]);
    counts_are(rt, (index.keys(), index.items(), index.pruned()), (2, 3, 0));
}

fn room_before_and_behind(rt: &impl Abort, alloc: Global) {
    let mut index: Index<EightCap, u64> = made(rt, Factory::new(alloc, EightCap));
    holds(rt, index.reserve(40).is_ok(), "room for 40 keys");
    holds(rt, index.reserve(0).is_ok(), "room for none");
    put(rt, index.insert(b"\x01", 10));
    put(rt, index.insert(b"\x01", 11));
    put(rt, index.insert(b"\x02", 20));
    holds(rt, index.reserve(1000).is_ok(), "room for 1,000 keys");
    keeps_three(rt, &index);
}

fn refused_room(rt: &impl Abort, alloc: Global) {
    let mut index: Index<EightCap, u64> = made(rt, Factory::new(alloc, EightCap));
    let refused = Err(Fault::Memory);
    holds(rt, index.reserve(usize::MAX) == refused, "no room at first");
    put(rt, index.insert(b"\x01", 10));
    put(rt, index.insert(b"\x01", 11));
    put(rt, index.insert(b"\x02", 20));
    holds(rt, index.reserve(usize::MAX) == refused, "no room later");
    keeps_three(rt, &index);
}

#[test]
fn room_changes_no_content(rt: HostRuntime) {
    room_before_and_behind(&rt, rt.alloc());
    refused_room(&rt, rt.alloc());
}
