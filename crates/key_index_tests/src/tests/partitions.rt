//! The partitions of keys, an index of many partitions, and one that is built of the newest records.
ghost use Rattle.std.specs.Prelude.{◌≤◌, IsTrue};
ghost use Rattle.key_index_parts.specs.Ops.{IsCuts};

use super::checks::{are, counts_are, holds, made, neighbour_is, push, put};
use key_index_flat::index::{Factory, Ordered, Runs, Unordered};
use key_index_flat::translator::{OneCap, TwoCap};
use key_index_parts::index::partitioned::{self, Partitioned, partition_index_and_sub_key};
use key_index_uses::builds::newest_positions;
use std::alloc::Global;
use std::process::Abort;

/// The partition of a key by `P` bytes is this, with this rest.
fn splits<const P: usize>(rt: &impl Abort, key: &[u8], number: usize, rest: &[u8])
    requires least { 1 ≤ P }
    requires greatest { P ≤ 3 }
{
    let split = partition_index_and_sub_key::<P>(key);
    assert!(rt;
        split.0 == number && split.1 == rest,
        "the partition and the rest of {key:?}"
    );
}

#[test]
fn keys_are_split(rt: HostRuntime) {
    splits::<1>(&rt, b"", 0, b"");
    splits::<1>(&rt, b"\x00\x00\x01", 0, b"\x00\x01");
    splits::<1>(&rt, b"\x10\x02\xff", 0x10, b"\x02\xff");
    splits::<2>(&rt, b"\x01", 0x0100, b"");
    splits::<2>(&rt, b"\x00\xff\x01", 0x00ff, b"\x01");
    splits::<2>(&rt, b"\x01\xff\x02", 0x01ff, b"\x02");
    splits::<3>(&rt, b"\x01", 0x01_0000, b"");
    splits::<3>(&rt, b"\x00\x01\x02\x03", 0x0102, b"\x03");
    splits::<3>(&rt, b"\x01\xff\xab\xcd\xef", 0x01_ffab, b"\xcd\xef");
}

#[test]
fn partitions_never_fall(rt: HostRuntime) {
    let keys: [&[u8]; 13] = [
        b"",
        b"\x00",
        b"\x00\x00",
        b"\x00\x80",
        b"\x00\xff",
        b"\x00\xff\x01",
        b"\x01",
        b"\x01\x00",
        b"\x01\x00\x05",
        b"\x01\xff",
        b"\x02",
        b"\xff",
        b"\xff\xff",
    ];
    let mut last = 0;
    for key in keys {
        let (number, _) = partition_index_and_sub_key::<2>(key);
        assert!(&rt; last <= number, "the partition of {key:?}");
        last = number;
    }
    holds(&rt, last == 0xffff, "the last partition");
}

/// An index of 2^24 partitions.
type ByThree = partitioned::ordered::Index<TwoCap, u64, 3>;

/// The last key of all.
const LAST: &[u8] = b"\xff\xff\xff\xff\xff";

/// The neighbours above three keys with many partitions between them.
fn next_far_apart(rt: &impl Abort, index: &ByThree) {
    neighbour_is(rt, index.next_translated_key(b""), &[3], false);
    neighbour_is(rt, index.next_translated_key(b"\x80"), &[2], false);
    neighbour_is(rt, index.next_translated_key(LAST), &[1], true);
}

/// Those below.
fn prev_far_apart(rt: &impl Abort, index: &ByThree) {
    neighbour_is(rt, index.prev_translated_key(b"\xff\xff\xff"), &[3], false);
    neighbour_is(rt, index.prev_translated_key(b"\x80"), &[1], false);
    neighbour_is(rt, index.prev_translated_key(b""), &[2], true);
}

#[test]
fn neighbours_stand_across_all_partitions(rt: HostRuntime) {
    let mut index: ByThree = made(&rt, Factory::new(rt.alloc(), TwoCap));
    put(&rt, index.insert(b"", 1));
    put(&rt, index.insert(LAST, 2));
    put(&rt, index.insert(b"\x80", 3));
    next_far_apart(&rt, &index);
    prev_far_apart(&rt, &index);
    holds(&rt, index.remove(b"\x80").is_ok(), "remove");
    neighbour_is(&rt, index.next_translated_key(b""), &[2], false);
}

/// Whether numbers strictly ascend from 0 to a count.
fn are_cuts(cuts: &[usize], count: usize) -> bool
    ensures { IsTrue result → IsCuts cuts.now count }
{
    if cuts.len() < 2 || cuts[0] != 0 || cuts[cuts.len() - 1] != count {
        return false;
    }
    let mut at = 1;
    'cuts: while at < cuts.len() {
        if cuts[at - 1] >= cuts[at] {
            return false;
        }
        at += 1;
    }
    true
}

/// The cuts of the ranges that are built.
const CUTS: [usize; 6] = [0, 1, 0x7f, 0x80, 0xff, 256];

/// A record behind those of a vector.
fn record(
    rt: &impl Abort,
    alloc: Global,
    records: &mut Vec<(Vec<u8>, u64)>,
    key: &[u8],
    position: u64,
) {
    let mut bytes = Vec::new(alloc);
    assert!(rt; bytes.extend_from_slice(key).is_ok());
    push(rt, records, (bytes, position));
}

/// Six records of four keys, the newest first. Two keys agree in the bytes that an index of these tests keeps.
fn records(rt: &impl Abort, alloc: Global) -> Vec<(Vec<u8>, u64)> {
    let mut records = Vec::new(alloc);
    record(rt, alloc, &mut records, b"\x10\x01", 9);
    record(rt, alloc, &mut records, b"\x80\x01", 8);
    record(rt, alloc, &mut records, b"\x10\x01\x05", 7);
    record(rt, alloc, &mut records, b"\x10\x01", 6);
    record(rt, alloc, &mut records, b"\x10\x01\x05", 5);
    record(rt, alloc, &mut records, b"\xff", 4);
    records
}

/// The partitioned ordered index by one byte and then one more.
type InOrder = partitioned::ordered::Index<OneCap, u64, 1>;

/// The newest record of each full key stands, of two that share an index key too.
#[test]
fn newest_positions_stand(rt: HostRuntime) {
    let alloc = rt.alloc();
    let index: InOrder = made(&rt, InOrder::with_threshold(alloc, OneCap, 2));
    assert!(&rt; index.keys() == 0);
    assert!(&rt; are_cuts(&CUTS, index.partition_count()));
    let Ok(index) = newest_positions(alloc, index, &CUTS, records(&rt, alloc)) else {
        panic!(&rt; "an index")
    };
    are(&rt, index.get(b"\x10\x01"), &[9, 7]);
    are(&rt, index.get(b"\x80\x01"), &[8]);
    are(&rt, index.get(b"\xff"), &[4]);
    counts_are(
        &rt,
        (index.keys(), index.items(), index.pruned()),
        (3, 4, 0),
    );
}

#[test]
fn slots_have_their_partition(rt: HostRuntime) {
    let index: InOrder = made(&rt, Factory::new(rt.alloc(), OneCap));
    holds(&rt, index.slot_of(b"\x01") == (0x01, 0), "01");
    holds(&rt, index.slot_of(b"\x01\x00") == (0x01, 0), "0100");
    holds(
        &rt,
        index.slot_of(b"\x10\x02\xff") == (0x10, 0x02),
        "1002ff",
    );
}
