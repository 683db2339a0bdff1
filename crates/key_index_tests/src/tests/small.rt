//! The constants of each index, the values of a slice, the texts of faults, and the uses of the repository's page.
use super::checks::{are, holds, put, reads};
use key_index_flat::index::{Factory, Fault, Outcome, Unordered, Values, ordered, unordered};
use key_index_flat::translator::OneCap;
use key_index_parts::index::partitioned;
use key_index_uses::callers::{forget, move_to, newest};
use key_index_uses::log::{gap, position};
use key_index_uses::segments::SegmentedLog;
use std::alloc::Global;
use std::fmt::Debug;
use std::process::Abort;
use std::test::Fail;

#[test]
fn values_of_a_slice(rt: HostRuntime) {
    let mut values = Values::of_slice(&[7, 5, 6]);
    holds(&rt, values.len() == 3, "three values");
    holds(&rt, values.next().copied() == Some(7), "the first of them");
    holds(&rt, values.len() == 2, "two more");
    holds(&rt, !values.is_empty(), "there are more");
    holds(&rt, values.copied().eq([5, 6]), "the two");
    holds(&rt, Values::<u64>::of_slice(&[]).is_empty(), "none");
}

#[test]
fn faults_print(rt: HostRuntime) -> Result<(), Fail> {
    for (fault, want) in [
        (Fault::Memory, "refused memory"),
        (Fault::Full, "refused full"),
        (Fault::TooFar, "refused far"),
    ] {
        reads(&rt, fault.to_string(rt.alloc())?.as_str(), want);
    }
    Ok(())
}

/// Whether looking keys up warms the changes that follow. `INSERT_FIRST` is asked for in the cases.
#[test]
fn lookups_warm_updates(rt: HostRuntime) {
    let warmths = [
        unordered::Index::<OneCap, u64>::LOOKUP_WARMS_UPDATE,
        ordered::Index::<OneCap, u64>::LOOKUP_WARMS_UPDATE,
        partitioned::unordered::Index::<OneCap, u64, 1>::LOOKUP_WARMS_UPDATE,
        partitioned::ordered::Index::<OneCap, u64, 1>::LOOKUP_WARMS_UPDATE,
    ];
    holds(&rt, warmths == [true, false, true, true], "the constants");
}

/// An index is printed so.
fn shows<I: Debug>(rt: &impl Abort, alloc: Global, index: &I, want: &str) -> Result<(), Fail> {
    reads(rt, format!(in alloc; "{index:?}")?.as_str(), want);
    Ok(())
}

/// The text of an index of one key with two values, which had another value.
const TWO: &str = "Index { keys: 1, items: 2, pruned: 1 }";

#[test]
fn flat_indices_tell_what_they_have(rt: HostRuntime) -> Result<(), Fail> {
    let alloc = rt.alloc();
    let mut index = unordered::Index::<OneCap, u64>::new(alloc, OneCap)?;
    shows(&rt, alloc, &index, "Index { keys: 0, items: 0, pruned: 0 }")?;
    put(&rt, index.insert(b"\x1c", 9));
    holds(&rt, index.remove(b"\x1c").is_ok(), "remove");
    holds(&rt, !index.contains_key(b"\x0b\x02"), "no key is held");
    put(&rt, index.insert(b"\x0b\x02\x01", 1));
    put(&rt, index.insert(b"\x0b\x02\x02", 2));
    holds(&rt, index.contains_key(b"\x0b\x02"), "a key is held");
    holds(&rt, !index.contains_key(b"\x0c\x02"), "another is not");
    let mut values = index.get(b"\x0b\x02");
    let first = values.next().copied();
    let copy = values.clone()?;
    holds(&rt, first == Some(2) && copy.len() == 1, "one is left");
    holds(&rt, copy.copied().eq(values.copied()), "a copy has it");
    shows(&rt, alloc, &index, TWO)?;
    let mut index = ordered::Index::<OneCap, u64>::new(alloc, OneCap)?;
    put(&rt, index.insert(b"\x1c", 9));
    holds(&rt, index.remove(b"\x1c").is_ok(), "remove");
    put(&rt, index.insert(b"\x0b\x02", 1));
    put(&rt, index.insert(b"\x0b", 2));
    shows(&rt, alloc, &index, TWO)
}

#[test]
fn indices_in_partitions_tell_what_they_have(rt: HostRuntime) -> Result<(), Fail> {
    let alloc = rt.alloc();
    let mut index = partitioned::unordered::Index::<OneCap, u64, 1>::new(alloc, OneCap)?;
    put(&rt, index.insert(b"\x1c", 9));
    holds(&rt, index.remove(b"\x1c").is_ok(), "remove");
    put(&rt, index.insert(b"\x0b\x02\x01", 1));
    put(&rt, index.insert(b"\x0b\x02\x02", 2));
    shows(&rt, alloc, &index, TWO)?;
    let mut index = partitioned::ordered::Index::<OneCap, u64, 1>::new(alloc, OneCap)?;
    put(&rt, index.insert(b"\x1c", 9));
    holds(&rt, index.remove(b"\x1c").is_ok(), "remove");
    put(&rt, index.insert(b"\x0b\x02\x01", 1));
    put(&rt, index.insert(b"\x0b\x02\x02", 2));
    shows(&rt, alloc, &index, TWO)
}

#[test]
fn newest_is_given(rt: HostRuntime) {
    holds(
        &rt,
        newest(rt.alloc()) == Ok(Some(2)),
        "the newest position",
    );
}

#[test]
fn a_log_is_asked_by_full_keys(rt: HostRuntime) {
    let mut index = ordered::Index::<OneCap, u64>::new(rt.alloc(), OneCap).expect(&rt, "an index");
    let mut keys = Vec::new(rt.alloc());
    for (at, key) in [(0, b"ay"), (1, b"ax"), (2, b"by")] {
        index.insert(key, at).expect(&rt, "insert");
        let copy = Vec::from_slice(rt.alloc(), key).expect(&rt, "a key");
        keys.push(copy).expect(&rt, "room");
    }
    let log = keys.as_slice();
    let found = position(&index, log, b"ax").is_ok_and(|at| at.copied() == Some(1));
    holds(&rt, found, "the second record of one index key");
    let none = position(&index, log, b"az").is_ok_and(|at| at.is_none());
    holds(&rt, none, "no record of a third key of that index key");
    let between = gap(&index, log, b"az").is_ok_and(|gap| match gap {
        Some((Some(below), Some(above))) => *below == 0 && *above == 2,
        _ => false,
    });
    holds(&rt, between, "the greatest below and the least above");
    let last = gap(&index, log, b"c").is_ok_and(|gap| match gap {
        Some((Some(below), None)) => *below == 2,
        _ => false,
    });
    holds(&rt, last, "none above");
    let held = gap(&index, log, b"by").is_ok_and(|gap| gap.is_none());
    holds(&rt, held, "a key that has a record");
    let missing = position(&index, &[], b"ax").is_err();
    holds(&rt, missing, "a position that the log lacks");
}

#[test]
fn an_archive_confirms_what_its_index_tells(rt: HostRuntime) {
    let mut archive = SegmentedLog::new(rt.alloc(), OneCap).expect(&rt, "an archive");
    let log: [&[u8]; 3] = [b"ay", b"ax", b"by"];
    for key in &log {
        archive.append(key).expect(&rt, "append");
    }
    let second = archive.find(&log, b"ax") == Some(1);
    holds(&rt, second, "the second record of one index key");
    holds(&rt, archive.find(&log, b"by") == Some(2), "the third one");
    holds(&rt, archive.find(&log, b"az").is_none(), "no such record");
    holds(&rt, archive.find(&[], b"ay").is_none(), "an empty log");
    archive.drop_front(1);
    holds(&rt, archive.find(&log, b"by").is_none(), "it was dropped");
}

#[test]
fn positions_are_forgotten_and_moved(rt: HostRuntime) {
    let alloc = rt.alloc();
    let mut index = unordered::Index::<OneCap, u64>::new(alloc, OneCap).expect(&rt, "an index");
    for position in [1, 2, 3] {
        index.insert(b"\x0b", position).expect(&rt, "insert");
    }
    holds(
        &rt,
        forget(&mut index, b"\x0b\x77", 2) == Ok(true),
        "forgotten",
    );
    holds(
        &rt,
        forget(&mut index, b"\x0b", 2) == Ok(false),
        "forgotten before",
    );
    holds(
        &rt,
        forget(&mut index, b"\x1c", 1) == Ok(false),
        "never there",
    );
    are(&rt, index.get(b"\x0b"), &[3, 1]);
    let from = Vec::from_array(alloc, [0x0b]).expect(&rt, "a key");
    let to = Vec::from_array(alloc, [0x1c, 0]).expect(&rt, "a key");
    let outcomes = move_to(alloc, &mut index, from, to, 7).expect(&rt, "run");
    let done = [Outcome::Done, Outcome::Done];
    holds(
        &rt,
        outcomes.as_slice() == done.as_slice(),
        "what commands come to",
    );
    are(&rt, index.get(b"\x0b"), &[]);
    are(&rt, index.get(b"\x1c"), &[7]);
}
