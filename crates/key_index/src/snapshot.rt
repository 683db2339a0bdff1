//! A snapshot: the position of each full key, over any ordered index.
ghost use Rattle.std.specs.Prelude.{◌≡◌, ◌≢◌, ◌↔◌, ◌^◌, ◌<◌, [], length, reverse, Some, None, is_some, not, slice_get, IsTrue, IfSome, IfOk, IfErr, OnOk, OnErr};
ghost use Rattle.std.specs.Coded.{coded_ℕ, coded_list};
ghost use Rattle.std.specs.FinMap as map;
ghost use Rattle.std.specs.Option.{option_map};
ghost use Rattle.std.specs.Result.{IsErrOf};
ghost use Rattle.std.specs.Str.{bytes_eq};
ghost use Rattle.key_index_parts.specs.Ops.{IsCuts, after_ops};
ghost use Rattle.key_index_flat.specs.FullKeys.{IsBytes};
ghost use Rattle.key_index.specs.Snapshot.{Positions, key_of, positions_of, next_position, prev_position, positions_in, IsKept, position_in, entries_of, Holds};

mod record;

use key_index_flat::index::{
    Fault, Ordered, OwnKeys, Values, find_record, resolve_next, resolve_prev,
};
use key_index_parts::index::partitioned::{Op, Partitioned, build_in_ranges};
pub use record::Record;
use std::alloc::Global;
use std::collections::BTreeMap;
use std::marker::Model;

/// The position of each full key, in an index whose records stand under their own full keys, each key once.
#[derive(Drop)]
pub struct Snapshot<I: Ordered<Value = Record>> {
    alloc: Global,
    index: I,
}

impl<I: Ordered<Value = Record>> Model for Snapshot<I> {
    ghost Value = { Positions };

    ghost coded = { map.code (coded_list coded_ℕ) coded_ℕ };

    ghost view = { λ s. positions_in (I.view s.index) };

    ghost invariant = { λ s. IsKept I.Key.cmp (I.view s.index) };
}

/// A record of a key, which it copies.
fn record_of(alloc: Global, key: &[u8], position: u64) -> Result<Record, Fault>
    ensures key { IfOk result (λ r. r.key.items ≡ key.now) }
    ensures bytes { IsBytes key.now }
    ensures position { IfOk result (λ r. r.position ≡ position) }
    ensures fault { IfErr result (λ f. f ≡ Fault.Memory) }
{
    let key = Vec::from_slice(alloc, key)?;
    Ok(Record { key, position })
}

/// The place of the record of a key in a list.
fn place_of(values: Values<'_, Record>, key: &[u8]) -> Option<usize>
    requires { length values < 2 ^ 64 }
    ensures found { is_some result ≡ is_some (position_in key.now values.entry) }
    ensures at { IfSome result (λ place. option_map key_of (slice_get values.entry place) ≡ Some key.now) }
{
    let mut place = 0;
    for record in values {
        if record.key.as_slice() == key {
            return Some(place);
        }
        place += 1;
    }
    None
}

impl<I: Ordered<Value = Record>> Snapshot<I> {
    /// No keys, over an index that holds none.
    pub fn new(alloc: Global, index: I) -> Snapshot<I>
        requires { (I.view index).content ≡ [] }
        ensures { result ≡ map.empty }
    {
        Snapshot { alloc, index }
    }

    /// How many keys have a position.
    pub fn len(&self) -> usize
        ensures { result ≡ map.len self.now }
    {
        self.index.items()
    }

    pub fn is_empty(&self) -> bool
        ensures { IsTrue result ↔ (self.now ≡ map.empty) }
    {
        self.len() == 0
    }

    /// The position of a key.
    pub fn get(&self, key: &[u8]) -> Option<u64>
        ensures { result ≡ map.get self.now key.now }
    {
        match find_record(&self.index, &mut OwnKeys, key) {
            Ok(Some(record)) => Some(record.position),
            Ok(None) => None,
            Err(never) => match never {},
        }
    }

    /// Sets the position of a key, in the place of the one that it has. A refusal leaves the map: `Full` exactly where the key
    /// has none and the index is full.
    pub fn set(&mut self, key: &[u8], position: u64) -> Result<(), Fault>
        ensures set { OnOk result (self.new ≡ map.insert self.old key.now position) }
        ensures refused { OnErr result (self.new ≡ self.old) }
        ensures full { IsErrOf result Fault.Full
            ↔ ((map.get self.old key.now ≡ None) × (map.len self.old ≡ usize.MAX)) }
        ensures fault { IfErr result (λ fault. fault ≢ Fault.TooFar) }
    {
        let full = self.index.items() == usize::MAX;
        let Some(place) = place_of(self.index.get(key), key) else {
            if full {
                return Err(Fault::Full);
            }
            let record = record_of(self.alloc, key, position)?;
            self.index.insert(key, record)?;
            return Ok(());
        };
        let record = record_of(self.alloc, key, position)?;
        let slot = self.index.slot_of(key);
        self.index.set_at(slot, place, record);
        Ok(())
    }

    /// Removes a key, and tells whether it was there. A refusal leaves the map.
    pub fn unset(&mut self, key: &[u8]) -> Result<bool, Fault>
        ensures unset { OnOk result (self.new ≡ map.remove self.old key.now) }
        ensures was_there { IfOk result (λ held. held ≡ is_some (map.get self.old key.now)) }
        ensures refused { OnErr result (self.new ≡ self.old) }
        ensures fault { IfErr result (λ fault. fault ≡ Fault.Memory) }
    {
        let held = self.index.items();
        self.index.retain(
            key,
            |record: &Record| -> bool
                ensures { result ≡ not (bytes_eq record.now.key.items key.entry.now) }
            { record.key.as_slice() != key },
        )?;
        Ok(self.index.items() < held)
    }

    /// The least key strictly above one, with its position.
    pub fn next(&self, key: &[u8]) -> Option<(&[u8], u64)>
        ensures { option_map (λ e. (e.0.now, e.1)) result ≡ next_position self.now key.now }
    {
        match resolve_next(&self.index, key) {
            Some(record) => Some((record.key.as_slice(), record.position)),
            None => None,
        }
    }

    /// The greatest key strictly below one, with its position.
    pub fn prev(&self, key: &[u8]) -> Option<(&[u8], u64)>
        ensures { option_map (λ e. (e.0.now, e.1)) result ≡ prev_position self.now key.now }
    {
        match resolve_prev(&self.index, key) {
            Some(record) => Some((record.key.as_slice(), record.position)),
            None => None,
        }
    }
}

/// The position of the last record of each key.
fn last_of_each(alloc: Global, records: Vec<Record>) -> Result<BTreeMap<Vec<u8>, u64>, Fault>
    ensures last { IfOk result (λ last. entries_of last.entries ≡ map.entries (positions_of (reverse records.items))) }
    ensures fault { IfErr result (λ fault. fault ≡ Fault.Memory) }
{
    let mut last = BTreeMap::new(alloc);
    for item in records {
        last.insert(item.key, item.position)?;
    }
    Ok(last)
}

/// The ops that put a record of each key in.
fn ops_of<I: Ordered<Value = Record> + Partitioned>(
    alloc: Global,
    index: &I,
    last: BTreeMap<Vec<u8>, u64>,
) -> Result<Vec<Op<Record>>, Fault>
    requires empty { (I.view index.now).content ≡ [] }
    ensures filled { IfOk result (λ ops. Holds I.Key.cmp (entries_of last.entries)
        (after_ops I.Key.cmp I.INSERT_FIRST ops.items (I.view index.now))) }
    ensures fault { IfErr result (λ fault. fault ≡ Fault.Memory) }
{
    let mut ops = Vec::with_capacity(alloc, last.len())?;
    for (key, position) in last {
        let record = record_of(alloc, key.as_slice(), position)?;
        ops.push(Op::Insert(key, record))?;
    }
    Ok(ops)
}

impl<I: Ordered<Value = Record> + Partitioned + Drop> Snapshot<I> {
    /// The map of records, of which the last one of a key stands, over an empty index that is built in ranges. A refusal gives
    /// no snapshot.
    pub fn build(
        alloc: Global,
        mut index: I,
        cuts: &[usize],
        records: Vec<Record>,
    ) -> Result<Snapshot<I>, Fault>
        requires empty { (I.view index).content ≡ [] }
        requires cuts { IsCuts cuts.now I.partitions }
        ensures built { IfOk result (λ snapshot. snapshot ≡ positions_of (reverse records.items)) }
        ensures fault { IfErr result (λ fault. fault ≢ Fault.TooFar) }
    {
        let last = last_of_each(alloc, records)?;
        let ops = ops_of(alloc, &index, last)?;
        build_in_ranges(alloc, &mut index, cuts, ops)?;
        Ok(Snapshot { alloc, index })
    }
}
