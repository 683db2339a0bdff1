//! A store on a device in memory that crashes, at each number of lost bytes.
use super::checks::holds;
use key_index_flat::index::unordered::Index;
use key_index_flat::index::{Factory, ordered};
use key_index_flat::translator::OneCap;
use key_index_store::crashes::{put_alone, put_and_sync};
use key_index_store::memory_device::MemoryDevice;
use key_index_store::store::Store;
use std::test::Fail;

/// More than the bytes of two records.
const ALL: usize = 80;

/// A synced put is there after each crash.
#[test]
fn what_is_synced_stays(rt: HostRuntime) -> Result<(), Fail> {
    let alloc = rt.alloc();
    for lost in 0..ALL {
        let fresh = Index::<OneCap, u64>::new(alloc, OneCap)?;
        let store = Store::open(alloc, MemoryDevice::new(alloc), fresh)?;
        let fresh = Index::<OneCap, u64>::new(alloc, OneCap)?;
        let mut store = put_and_sync(alloc, store, b"apple", b"red", lost, fresh)?;
        holds(&rt, store.contains_key(b"apple")?, "a synced key");
    }
    Ok(())
}

/// A put that isn't synced is there where no byte of it is lost.
#[test]
fn what_is_not_synced_may_be_lost(rt: HostRuntime) -> Result<(), Fail> {
    let alloc = rt.alloc();
    for lost in 0..ALL {
        let fresh = Index::<OneCap, u64>::new(alloc, OneCap)?;
        let store = Store::open(alloc, MemoryDevice::new(alloc), fresh)?;
        let fresh = Index::<OneCap, u64>::new(alloc, OneCap)?;
        let mut store = put_alone(alloc, store, b"pear", b"green", lost, fresh)?;
        let is_there = store.contains_key(b"pear")?;
        holds(&rt, is_there == (lost == 0), "a key that isn't synced");
    }
    Ok(())
}
