//! Translators that tell the keys of a file apart better, once there are some.

use crate::file::Disk;
use key_index_flat::index::Factory;
use key_index_flat::translator::{EightCap, Hashed, SeededSha256};
use key_index_store::store::{Fault, Store, refit};
use key_index_store::translator::BehindFront;
use std::alloc::Global;

/// A translator of which another one may be better.
pub trait Fitting: Copy {
    /// One that tells the keys of a file apart better. An index in partitions has the first bytes of a key `skipped`.
    fn fit(self, alloc: Global, disk: &mut Disk, skipped: usize) -> Result<Option<Self>, Fault>;

    /// One that tells the keys of a store apart better.
    fn fit_store<I: Factory<Translator = Self, Value = u64>>(
        self,
        store: &mut Store<Disk, I>,
        skipped: usize,
    ) -> Result<Option<Self>, Fault>;
}

impl Fitting for BehindFront {
    fn fit(
        self,
        alloc: Global,
        disk: &mut Disk,
        skipped: usize,
    ) -> Result<Option<BehindFront>, Fault> {
        refit(alloc, disk, self, skipped)
    }

    fn fit_store<I: Factory<Translator = BehindFront, Value = u64>>(
        self,
        store: &mut Store<Disk, I>,
        skipped: usize,
    ) -> Result<Option<BehindFront>, Fault> {
        store.refit(self, skipped)
    }
}

/// A hash tells all keys apart.
impl Fitting for Hashed<EightCap, SeededSha256> {
    fn fit(
        self,
        _alloc: Global,
        _disk: &mut Disk,
        _skipped: usize,
    ) -> Result<Option<Hashed<EightCap, SeededSha256>>, Fault> {
        Ok(None)
    }

    fn fit_store<I: Factory<Translator = Hashed<EightCap, SeededSha256>, Value = u64>>(
        self,
        _store: &mut Store<Disk, I>,
        _skipped: usize,
    ) -> Result<Option<Hashed<EightCap, SeededSha256>>, Fault> {
        Ok(None)
    }
}
