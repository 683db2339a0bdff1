//! The walk over the lists of an ordered index: without partitions, and in partitions, some of them in arrays and some in trees.
use super::checks::{are, holds, made, put};
use key_index_flat::index::{Factory, OrderedLists, Walk, lists, lists_from, ordered};
use key_index_flat::translator::{OneCap, TwoCap};
use key_index_parts::index::partitioned;
use std::process::Abort;

/// A walk gives these lists and then ends, also where it is asked again.
fn gives<I: OrderedLists<Value = u64>>(rt: &impl Abort, mut walk: Walk<'_, I>, want: &[&[u64]]) {
    for list in want {
        let Some(values) = walk.next() else {
            panic!(rt; "no list, not {list:?}")
        };
        are(rt, values, list);
    }
    holds(rt, walk.next().is_none(), "the walk ends");
    holds(rt, walk.next().is_none(), "the walk has ended");
}

/// Walks over no keys, and then over four, two of which have one first byte and one of which has two values.
fn walks<I: OrderedLists<Value = u64>>(rt: &impl Abort, index: &mut I) {
    gives(rt, lists(&*index), &[]);
    gives(rt, lists_from(&*index, b"\x05"), &[]);
    put(rt, index.insert(b"\x20\x01", 3));
    put(rt, index.insert_and_retain(b"\x20\x01", 4, |_| true));
    put(rt, index.insert(b"\xf0\x02", 5));
    put(rt, index.insert(b"\x05\x09", 2));
    put(rt, index.insert(b"\x05\x02", 1));
    gives(rt, lists(&*index), &[&[1], &[2], &[3, 4], &[5]]);
    gives(rt, lists_from(&*index, b""), &[&[1], &[2], &[3, 4], &[5]]);
    gives(
        rt,
        lists_from(&*index, b"\x05\x02"),
        &[&[1], &[2], &[3, 4], &[5]],
    );
    gives(rt, lists_from(&*index, b"\x05\x03"), &[&[2], &[3, 4], &[5]]);
    gives(rt, lists_from(&*index, b"\x05\x0a"), &[&[3, 4], &[5]]);
    gives(rt, lists_from(&*index, b"\x80"), &[&[5]]);
    gives(rt, lists_from(&*index, b"\xf0\x03"), &[]);
    holds(rt, index.remove(b"\x05\x09").is_ok(), "remove");
    gives(rt, lists_from(&*index, b"\x05\x09"), &[&[3, 4], &[5]]);
}

#[test]
fn lists_come_in_order_without_partitions(rt: HostRuntime) {
    let mut index: ordered::Index<TwoCap, u64> = made(&rt, Factory::new(rt.alloc(), TwoCap));
    walks(&rt, &mut index);
}

/// An index by two bytes, the first of which selects the partition.
type ByTwo = partitioned::ordered::Index<OneCap, u64, 1>;

#[test]
fn lists_come_in_order_from_partitions(rt: HostRuntime) {
    let mut index: ByTwo = made(&rt, ByTwo::with_threshold(rt.alloc(), OneCap, 2));
    walks(&rt, &mut index);
}
