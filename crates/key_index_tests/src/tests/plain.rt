//! The plain index: that each call can succeed.
use super::checks::{are, counts_are, holds, is, put};
use key_index_flat::index::{Factory, Fault, Runs, Unordered};
use key_index_flat::translator::TwoCap;
use key_index_plain::Index;
use std::alloc::Global;
use std::process::Abort;

/// Four values under three keys.
fn three_keys(rt: &impl Abort, alloc: Global) -> Index<TwoCap, u64> {
    let Ok(mut index) = Index::<TwoCap, u64>::new(alloc, TwoCap) else {
        panic!(rt; "new was refused")
    };
    for (key, value) in [(b"cc", 3), (b"bb", 1), (b"aa", 4), (b"bb", 2)] {
        put(rt, index.insert(key, value));
    }
    index
}

#[test]
fn calls_by_key(rt: HostRuntime) {
    let mut index = three_keys(&rt, rt.alloc());
    counts_are(
        &rt,
        (index.keys(), index.items(), index.pruned()),
        (3, 4, 0),
    );
    are(&rt, index.get(b"bb"), &[2, 1]);
    are(&rt, index.get(b"a"), &[]);
    holds(&rt, index.remove(b"bb").is_ok(), "remove");
    are(&rt, index.get(b"bb"), &[]);
    counts_are(
        &rt,
        (index.keys(), index.items(), index.pruned()),
        (2, 2, 2),
    );
}

#[test]
fn calls_by_place(rt: HostRuntime) {
    let index = three_keys(&rt, rt.alloc());
    let slot = index.slot_of(b"bb");
    holds(&rt, slot == 0x6262, "the index key");
    holds(&rt, index.admits(slot), "admits");
    assert!(&rt; index.run_len(slot) == 2);
    is(&rt, *index.value_at(slot, 1), 1);
}

/// Runs an index through the bounds alone, and tells the values of the first key and the counts.
fn drive<I: Unordered<Value = u64> + Factory + Drop>(
    alloc: Global,
    translator: I::Translator,
) -> Result<(Option<u64>, usize, usize, u64), Fault>
    requires { I.makes }
{
    let mut index = I::new(alloc, translator)?;
    for (key, value) in [(b"\x0b", 1), (b"\x0b", 2), (b"\x0c", 3)] {
        if let Err(refused) = index.insert(key, value) {
            return Err(refused.fault);
        }
    }
    index.remove(b"\x0b")?;
    let left = index.get(b"\x0c").next().copied();
    Ok((left, index.keys(), index.items(), index.pruned()))
}

#[test]
fn through_bounds(rt: HostRuntime) {
    let told = drive::<Index<TwoCap, u64>>(rt.alloc(), TwoCap);
    holds(&rt, told == Ok((Some(3), 1, 1, 2)), "what is left");
}
