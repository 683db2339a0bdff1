//! A key-value store on a log. The index keeps positions alone: it gives those that a shortened key may mean, and the log confirms.
ghost use Rattle.std.specs.Prelude.{◌≡◌, ◌↔◌, ◌⊎◌, ◌<◌, ◌≤◌, ◌^◌, ◌-◌, ◌||◌, ◌≢◌, ◌+◌, ℕ, List, [], ◌++◌, if◌then◌else◌, insert, length, map, take, true, false, Some, None, is_some, IsTrue, IfOk, IfErr, OnOk, OnErr};
ghost use Rattle.std.specs.FinMap as map;
ghost use Rattle.std.specs.Option.{option_map};
ghost use Rattle.key_index_flat.specs.View.{growth_fault_in, run_of, with_edit};
ghost use Rattle.key_index_store.specs.Damage.{Hides, MayMiss};
ghost use Rattle.key_index_store.specs.Device.{Adds, AddsAtMost, Changes, IsBegun, IsKnown, IsRead, NoMore, Sees, SeesAll, Stays};
ghost use Rattle.key_index_store.specs.Indexed.{IsIn, Keeps, KeepsLists, Settles};
ghost use Rattle.key_index_store.specs.Record.{Entry, Fits, encoded, log_of, size_of};
ghost use Rattle.key_index_store.specs.Salvage.{HaveHeads, MaySalvage, found_at, gap_of, gaps_in, newest, places_of, salvaged};
ghost use Rattle.key_index_store.specs.Stored.{HasChanged, HasRefused, HasRoom, LeavesSame, IsRefused, LeavesBeforeOrAfter, MayOpen, MayRead, MayRefuse, refusal_of, end_of, held_by, records_of, tail_in, with_record, without_tail};

pub(crate) mod find;
pub(crate) mod log;
mod neighbours;
mod replay;
mod sample;

use crate::device::Device;
use crate::record::encode;
use crate::salvage::{Salvaged, copy};
use crate::translator::BehindFront;
use find::{InList, known, length_of, read_value};
use key_index_flat::index::{self, Refused, Unordered};
use log::Log;
pub use neighbours::{Gap, Passed, Unreadable};
use replay::replay;
pub use sample::refit;
use std::alloc::{AllocError, Global};
use std::marker::Model;

/// Why a call was refused. A refused call leaves the map.
#[derive(Clone, Copy, Debug, PartialEq, Eq)]
pub enum Fault {
    /// A growth found no memory.
    Memory,
    /// The index holds `usize::MAX` positions.
    Full,
    /// A key or a value has 2^32 bytes or more.
    TooLong,
    /// A read of the log failed.
    ReadFailed,
    /// A write to the log failed.
    WriteFailed,
    /// Bytes stand behind the last whole record that are neither a record nor a torn one; or a record that was read when the log was
    /// opened no longer reads, and may be the one that is sought.
    Damaged,
    /// A log that was to be fresh has bytes.
    NotEmpty,
}

impl From<AllocError> for Fault {
    ghost use Rattle.key_index_store.specs.declared.store.Fault.TheVariants.{Memory};

    ghost from_gives = { λ _ fault. fault ≡ Memory };

    fn from(_failed: AllocError) -> Fault {
        Fault::Memory
    }
}

/// What stands behind the last whole record of a log.
#[derive(Clone, Copy, Debug, PartialEq, Eq)]
pub enum Tail {
    /// The end of the log.
    Nothing,
    /// A record that was not written to its end, or nothing but zeros. The next call that writes cuts it off.
    Torn,
    /// Bytes that are no record's. No call that writes is answered until `cut_tail`.
    Damaged,
}

/// Records on a log, with an index of their positions. Contracts see a store as its device, whose bytes are the log: its complete
/// records leave the map.
#[derive(Drop)]
pub struct Store<D: Device, I: Unordered<Value = u64>> {
    log: Log<D>,
    index: I,
    /// Torn, where nothing may stand there: after a write that failed.
    tail: Tail,
    /// The device was synced since the store was opened.
    is_synced: bool,
}

impl<D: Device, I: Unordered<Value = u64>> Model for Store<D, I> {
    ghost use Rattle.std.specs.Prelude.{◌≡◌, true};
    ghost use Rattle.key_index_store.specs.Device.{IsKnown, Sees};
    ghost use Rattle.key_index_store.specs.Indexed.{Keeps};

    ghost Value = { D };

    ghost view = { λ s. s.log.device };

    ghost invariant = { λ s.
        Sees (D.seen s.log.device) (λ log. Keeps I.Key.cmp log (I.view s.index) s.log.end s.tail)
        × (s.is_synced ≡ true → Sees (D.seen s.log.device) (λ log. IsKnown (D.may_leave s.log.device))) };
}

/// Puts a position in at a place of a key's list. The first one of a list goes in by its key, which lets an index in partitions grow.
fn put_in<I: Unordered<Value = u64>>(
    index: &mut I,
    key: &[u8],
    place: InList,
    position: u64,
) -> Result<(), Fault>
    requires within { place.place ≤ length (run_of I.Key.cmp (I.view index.old) key.now) }
    requires empty { place.is_empty ≡ true → length (run_of I.Key.cmp (I.view index.old) key.now) ≡ 0 }
    ensures put { OnOk result (let s = I.view index.old in
        I.view index.new ≡ with_edit I.Key.cmp s (s.slot key.now) (λ l. insert l place.place position)) }
    ensures refused { OnErr result (I.view index.new ≡ I.view index.old) }
    ensures fault { IfErr result (λ f. f ≡ refusal_of (growth_fault_in (I.view index.old))) }
{
    let put = if place.is_empty {
        index.insert(key, position)
    } else {
        let slot = index.slot_of(key);
        index.insert_at(slot, place.place, position)
    };
    put.map_err(fault_of)
}

/// Files the position of a key's newest record: in the place of the older one, or as a new one; of a deletion removes the older one.
fn settle<I: Unordered<Value = u64>>(
    index: &mut I,
    key: &[u8],
    has_value: bool,
    place: InList,
    position: u64,
) -> Result<(), Fault>
    requires place { IsIn (run_of I.Key.cmp (I.view index.old) key.now) place.place place.is_held }
    requires empty { place.is_empty ≡ true → length (run_of I.Key.cmp (I.view index.old) key.now) ≡ 0 }
    ensures settled { OnOk result (Settles I.Key.cmp
        (I.view index.old) key.now has_value place.is_held place.place position (I.view index.new)) }
    ensures refused { OnErr result (I.view index.new ≡ I.view index.old) }
    ensures sure { OnErr result (place.is_held ≡ false) }
    ensures fault { IfErr result (λ f. f ≡ refusal_of (growth_fault_in (I.view index.old))) }
{
    match (has_value, place.is_held) {
        (true, true) => {
            let slot = index.slot_of(key);
            index.set_at(slot, place.place, position);
        }
        (true, false) => put_in(index, key, place, position)?,
        (false, true) => {
            let slot = index.slot_of(key);
            index.remove_at(slot, place.place);
        }
        (false, false) => {}
    }
    Ok(())
}

/// Why the store refuses what the index refused.
fn fault_of(refused: Refused<u64>) -> Fault
    ensures { result ≡ refusal_of refused.fault }
{
    match refused.fault {
        index::Fault::Memory => Fault::Memory,
        index::Fault::Full | index::Fault::TooFar => Fault::Full,
    }
}

/// Writes the bytes of a record at the end of a log and files their position. A refusal leaves the index.
fn write<D: Device, I: Unordered<Value = u64>>(
    device: &mut D,
    index: &mut I,
    key: &[u8],
    has_value: bool,
    place: InList,
    position: u64,
    bytes: &[u8],
) -> Result<(), Fault>
    requires known { has_value ≡ false → place.is_held ≡ true }
    requires place { IsIn (run_of I.Key.cmp (I.view index.old) key.now) place.place place.is_held }
    requires empty { place.is_empty ≡ true → length (run_of I.Key.cmp (I.view index.old) key.now) ≡ 0 }
    ensures written { OnOk result (Changes (D.seen device.old) (D.seen device.new) (λ old new.
        position ≡ length old → new ≡ old ++ bytes.now)) }
    ensures failed { OnErr result (Changes (D.seen device.old) (D.seen device.new) (λ old new.
        position ≡ length old → IsBegun bytes.now old new)) }
    ensures crash { (old : List ℕ) → D.seen device.old ≡ Some old → position ≡ length old
        → AddsAtMost old bytes.now (D.may_leave device.old) (D.may_leave device.new) }
    ensures settled { OnOk result (Settles I.Key.cmp
        (I.view index.old) key.now has_value place.is_held place.place position (I.view index.new)) }
    ensures refused { OnErr result (KeepsLists (I.view index.old) (I.view index.new)) }
    ensures fault { IfErr result (λ f. (f ≡ Fault.WriteFailed)
        ⊎ ((place.is_held ≡ false) × (f ≡ refusal_of (growth_fault_in (I.view index.old))))) }
{
    if place.is_held {
        let written = device.write_at(position, bytes);
        written.map_err(|_| Fault::WriteFailed)?;
        return settle(index, key, has_value, place, position);
    }
    settle(index, key, has_value, place, position)?;
    if device.write_at(position, bytes).is_err() {
        let slot = index.slot_of(key);
        index.remove_at(slot, place.place);
        return Err(Fault::WriteFailed);
    }
    Ok(())
}

/// Writes a record at the end of a log and files its position. Gives how many bytes the records take then. A refusal leaves the index.
fn append<D: Device, I: Unordered<Value = u64>>(
    alloc: Global,
    device: &mut D,
    index: &mut I,
    key: &[u8],
    value: Option<&[u8]>,
    place: InList,
    end: u64,
) -> Result<u64, Fault>
    requires fits { Fits (record { key = key.now; value = option_map (λ v. v.now) value }) }
    requires known { is_some value ≡ false → place.is_held ≡ true }
    requires place { IsIn (run_of I.Key.cmp (I.view index.old) key.now) place.place place.is_held }
    requires empty { place.is_empty ≡ true → length (run_of I.Key.cmp (I.view index.old) key.now) ≡ 0 }
    ensures longer { IfOk result (λ longer. longer ≡ end
        + size_of (record { key = key.now; value = option_map (λ v. v.now) value.entry })) }
    ensures written { OnOk result (Changes (D.seen device.old) (D.seen device.new) (λ old new. end ≡ length old
        → new ≡ old ++ encoded end (record { key = key.now; value = option_map (λ v. v.now) value.entry }))) }
    ensures failed { OnErr result (Changes (D.seen device.old) (D.seen device.new) (λ old new. end ≡ length old
        → IsBegun (encoded end (record { key = key.now; value = option_map (λ v. v.now) value.entry })) old new)) }
    ensures crash { (old : List ℕ) → D.seen device.old ≡ Some old → end ≡ length old → AddsAtMost old
        (encoded end (record { key = key.now; value = option_map (λ v. v.now) value.entry }))
        (D.may_leave device.old) (D.may_leave device.new) }
    ensures settled { OnOk result (Settles I.Key.cmp
        (I.view index.old) key.now (is_some value.entry) place.is_held place.place end (I.view index.new)) }
    ensures refused { OnErr result (KeepsLists (I.view index.old) (I.view index.new)) }
    ensures fault { IfErr result (λ f. (f ≡ Fault.WriteFailed) ⊎ (f ≡ Fault.Memory)
        ⊎ ((place.is_held ≡ false) × (f ≡ refusal_of (growth_fault_in (I.view index.old))))) }
{
    let bytes = encode(alloc, end, key, value)?;
    let Some(longer) = end.checked_add(bytes.len() as u64) else {
        return Err(Fault::WriteFailed);
    };
    write(
        device,
        index,
        key,
        value.is_some(),
        place,
        end,
        bytes.as_slice(),
    )?;
    Ok(longer)
}

/// A log that can't be opened, with the device.
#[derive(Debug, Drop)]
pub struct NotOpened<D: Drop> {
    pub fault: Fault,
    pub device: D,
}

impl<D: Drop> From<NotOpened<D>> for Fault {
    ghost from_gives = { λ refused fault. fault ≡ refused.fault };

    fn from(refused: NotOpened<D>) -> Fault {
        refused.fault
    }
}

impl<D: Device, I: Unordered<Value = u64>> Store<D, I> {
    /// A store on a log, over an empty index. It reads the log block by block, as far as whole records stand, and behind them to tell
    /// what stands there. Of records that share an index key it reads the heads and keys again. No byte of the log is changed.
    pub fn open(alloc: Global, device: D, mut index: I) -> Result<Store<D, I>, NotOpened<D>>
    where
        D: Drop,
        I: Drop,
        requires { (I.view index).content ≡ [] }
        ensures read { IfOk result (λ store. IsRead D.seen D.damaged D.may_leave device store) }
        ensures refused { IfErr result (λ e. IsRead D.seen D.damaged D.may_leave device e.device) }
        ensures fault { IfErr result (λ e. Sees (D.seen e.device) (λ log. MayOpen (D.damaged e.device) e.fault)) }
    {
        let mut log = Log {
            alloc,
            device,
            end: 0,
        };
        match replay(&mut log, &mut index) {
            Ok((end, tail)) => {
                log.end = end;
                Ok(Store {
                    log,
                    index,
                    tail,
                    is_synced: false,
                })
            }
            Err(fault) => Err(NotOpened {
                fault,
                device: log.device,
            }),
        }
    }

    /// Files all records anew in an empty index, as one of another translator. It reads the log as `open` does, and no byte of it is
    /// changed. Where it is refused, the store goes on over the index that it has.
    pub fn reindex(&mut self, mut index: I) -> Result<(), Fault>
    where
        I: Drop,
        requires { (I.view index).content ≡ [] }
        ensures read { IsRead D.seen D.damaged D.may_leave self.old self.new }
        ensures fault { IfErr result (λ f. Sees (D.seen self.new) (λ log. MayOpen (D.damaged self.new) f)) }
    {
        let known = self.log.end;
        let replayed = replay(&mut self.log, &mut index);
        self.log.end = known;
        let (end, tail) = replayed?;
        if end != known {
            // Another file was put beneath the store.
            return Err(Fault::Damaged);
        }
        self.index = index;
        self.tail = tail;
        Ok(())
    }

    /// A translator that tells the store's keys apart better than another one, if a few of them show one, as `refit` does of a log. An
    /// index by that one is filed by `reindex`.
    pub fn refit(
        &mut self,
        translator: BehindFront,
        skipped: usize,
    ) -> Result<Option<BehindFront>, Fault>
        ensures read { IsRead D.seen D.damaged D.may_leave self.old self.new }
        ensures fault { IfErr result MayRead }
    {
        sample::refit(self.log.alloc, &mut self.log.device, translator, skipped)
    }

    /// How many keys have a value. It reads nothing.
    pub fn len(&self) -> usize
        ensures { Sees (D.seen self.now) (λ log. result ≡ map.len (held_by log)) }
    {
        self.index.items()
    }

    pub fn is_empty(&self) -> bool
        ensures { Sees (D.seen self.now) (λ log. IsTrue result ↔ (held_by log ≡ map.empty)) }
    {
        self.len() == 0
    }

    /// How many bytes of the log its complete records take.
    pub fn end(&self) -> u64
        ensures { Sees (D.seen self.now) (λ log. result ≡ end_of log) }
    {
        self.log.end
    }

    /// What stands behind them. Where that may be a torn record, it asks the device for its length.
    pub fn tail(&mut self) -> Result<Tail, Fault>
        ensures told { Sees (D.seen self.new) (λ log. IfOk result (λ t. t ≡ tail_in log)) }
        ensures read { IsRead D.seen D.damaged D.may_leave self.old self.new }
        ensures fault { IfErr result (λ f. f ≡ Fault.ReadFailed) }
    {
        match self.tail {
            Tail::Nothing => return Ok(Tail::Nothing),
            Tail::Damaged => return Ok(Tail::Damaged),
            Tail::Torn => {}
        }
        if length_of(&mut self.log.device)? == self.log.end {
            return Ok(Tail::Nothing);
        }
        Ok(Tail::Torn)
    }

    /// The value of a key, copied.
    pub fn get(&mut self, key: &[u8]) -> Result<Option<Vec<u8>>, Fault>
        ensures value { Sees (D.seen self.new) (λ log. IfOk result (λ o.
            option_map (λ v. v.items) o ≡ map.get (held_by log) key.now)) }
        ensures read { IsRead D.seen D.damaged D.may_leave self.old self.new }
        ensures fault { Sees (D.seen self.new) (λ log. IfErr result (MayMiss (D.damaged self.new) log key.now)) }
    {
        let (alloc, end) = (self.log.alloc, self.log.end);
        let found = self.log.find(&self.index, key)?;
        let Some(front) = &found.read else {
            known(&found)?;
            return Ok(None);
        };
        let bytes = front.bytes.as_slice();
        let value = read_value(alloc, &mut self.log.device, front.position, end, bytes)?;
        Ok(Some(value))
    }

    /// Whether a key has a value, which isn't read.
    pub fn contains_key(&mut self, key: &[u8]) -> Result<bool, Fault>
        ensures held { Sees (D.seen self.new) (λ log. IfOk result (λ has.
            has ≡ is_some (map.get (held_by log) key.now))) }
        ensures read { IsRead D.seen D.damaged D.may_leave self.old self.new }
        ensures fault { Sees (D.seen self.new) (λ log. IfErr result (MayMiss (D.damaged self.new) log key.now)) }
    {
        let place = self.log.find_place(&self.index, key)?;
        Ok(place.is_held)
    }

    /// Sets the value of a key, by a record behind the others. A key and a value have fewer than 2^32 bytes each. Where it is refused,
    /// the log stands for the same map as before, so that the value doesn't come back when it is opened again.
    ///
    /// The first call that writes syncs the device before it: behind an answer, a crash leaves bytes that are known.
    pub fn put(&mut self, key: &[u8], value: &[u8]) -> Result<(), Fault>
        ensures set { OnOk result (Changes (D.seen self.old) (D.seen self.new) (λ old new.
            held_by new ≡ map.insert (held_by old) key.now value.now)) }
        ensures logged { OnOk result (Changes (D.seen self.old) (D.seen self.new) (λ old new.
            new ≡ with_record old (record { key = key.now; value = Some value.now }))) }
        ensures undamaged { OnOk result (Changes (D.seen self.old) (D.seen self.new) (λ old new.
            tail_in old ≢ Tail.Damaged)) }
        ensures refused { OnErr result (Changes (D.seen self.old) (D.seen self.new) (λ old new.
            IsRefused old (record { key = key.now; value = Some value.now }) new)) }
        ensures known { OnOk result (Sees (D.seen self.new) (λ log. IsKnown (D.may_leave self.new))) }
        ensures crash { Changes (D.seen self.old) (D.seen self.new) (λ old new. LeavesBeforeOrAfter old
            (record { key = key.now; value = Some value.now }) (D.may_leave self.old) (D.may_leave self.new)) }
        ensures fault { IfErr result (λ f. Changes (D.seen self.old) (D.seen self.new) (λ old new.
            MayRefuse (Hides (D.damaged self.new)) old (record { key = key.now; value = Some value.now }) f)) }
    {
        if key.len() > u32::MAX as usize || value.len() > u32::MAX as usize {
            return Err(Fault::TooLong);
        }
        self.change(key, Some(value))?;
        Ok(())
    }

    /// Removes a key, and tells whether it had a value. A key without a value needs no record, and gets none.
    pub fn delete(&mut self, key: &[u8]) -> Result<bool, Fault>
        ensures removed { OnOk result (Changes (D.seen self.old) (D.seen self.new) (λ old new.
            held_by new ≡ map.remove (held_by old) key.now)) }
        ensures was_there { IfOk result (λ had. Changes (D.seen self.old) (D.seen self.new) (λ old new.
            had ≡ is_some (map.get (held_by old) key.now))) }
        ensures logged { IfOk result (λ had. Changes (D.seen self.old) (D.seen self.new) (λ old new.
            new ≡ (if had then with_record old (record { key = key.now; value = None }) else without_tail old))) }
        ensures undamaged { OnOk result (Changes (D.seen self.old) (D.seen self.new) (λ old new.
            tail_in old ≢ Tail.Damaged)) }
        ensures refused { OnErr result (Changes (D.seen self.old) (D.seen self.new) (λ old new.
            IsRefused old (record { key = key.now; value = None }) new)) }
        ensures known { OnOk result (Sees (D.seen self.new) (λ log. IsKnown (D.may_leave self.new))) }
        ensures crash { Changes (D.seen self.old) (D.seen self.new) (λ old new. LeavesBeforeOrAfter old
            (record { key = key.now; value = None }) (D.may_leave self.old) (D.may_leave self.new)) }
        ensures fault { IfErr result (λ f. Changes (D.seen self.old) (D.seen self.new) (λ old new.
            MayRefuse (Hides (D.damaged self.new)) old (record { key = key.now; value = None }) f)) }
    {
        if key.len() > u32::MAX as usize {
            return Err(Fault::TooLong);
        }
        self.change(key, None)
    }

    /// Forces what the device had to the disk, if that wasn't done since the store was opened.
    fn sync_once(&mut self) -> Result<(), Fault>
        ensures known { OnOk result (Sees (D.seen self.new) (λ log. IsKnown (D.may_leave self.new))) }
        ensures same { D.seen self.new ≡ D.seen self.old }
        ensures crash { Sees (D.seen self.old) (λ log. Adds (λ c. c ≡ log) (D.may_leave self.old) (D.may_leave self.new)) }
        ensures fault { IfErr result (λ f. f ≡ Fault.WriteFailed) }
    {
        if self.is_synced {
            return Ok(());
        }
        self.sync()
    }

    /// Cuts a torn record off, and refuses where something else stands behind the whole ones.
    fn make_room(&mut self) -> Result<(), Fault>
        ensures room { OnOk result (Changes (D.seen self.old) (D.seen self.new) (λ old new. HasRoom old new)) }
        ensures refused { OnErr result (Stays (D.seen self.old) (D.seen self.new)) }
        ensures known { OnOk result (Sees (D.seen self.new) (λ log. IsKnown (D.may_leave self.new))) }
        ensures crash { Sees (D.seen self.old) (λ old. LeavesSame old (D.may_leave self.old) (D.may_leave self.new)) }
        ensures fault { IfErr result (λ f. Sees (D.seen self.new) (λ log.
            (f ≡ Fault.WriteFailed) ⊎ ((f ≡ Fault.Damaged) × (tail_in log ≡ Tail.Damaged)))) }
    {
        match self.tail {
            Tail::Nothing => self.sync_once(),
            Tail::Torn => self.cut_tail(),
            Tail::Damaged => Err(Fault::Damaged),
        }
    }

    /// Sets the value of a key, or removes the key where none is given, and tells whether it had one.
    fn change(&mut self, key: &[u8], value: Option<&[u8]>) -> Result<bool, Fault>
        requires { Fits (record { key = key.now; value = option_map (λ v. v.now) value }) }
        ensures changed { IfOk result (λ had. Changes (D.seen self.old) (D.seen self.new) (λ old new.
            HasChanged old (record { key = key.now; value = option_map (λ v. v.now) value.entry }) had new)) }
        ensures refused { IfErr result (λ f. Changes (D.seen self.old) (D.seen self.new) (λ old new.
            HasRefused (Hides (D.damaged self.new)) old
            (record { key = key.now; value = option_map (λ v. v.now) value.entry }) f new)) }
        ensures known { OnOk result (Sees (D.seen self.new) (λ log. IsKnown (D.may_leave self.new))) }
        ensures crash { Changes (D.seen self.old) (D.seen self.new) (λ old new. LeavesBeforeOrAfter old
            (record { key = key.now; value = option_map (λ v. v.now) value.entry })
            (D.may_leave self.old) (D.may_leave self.new)) }
    {
        self.make_room()?;
        let (alloc, end) = (self.log.alloc, self.log.end);
        let place = self.log.find_place(&self.index, key)?;
        if value.is_none() && !place.is_held {
            return Ok(false);
        }
        match append(
            alloc,
            &mut self.log.device,
            &mut self.index,
            key,
            value,
            place,
            end,
        ) {
            Ok(longer) => {
                self.log.end = longer;
                self.tail = Tail::Nothing;
                Ok(place.is_held)
            }
            Err(fault) => {
                self.tail = Tail::Torn;
                Err(fault)
            }
        }
    }

    /// Cuts off what stands behind the last whole record, from the first place where none stands to the end of the log. Calls that
    /// write are then answered again. As they do, it syncs the device before the first write.
    pub fn cut_tail(&mut self) -> Result<(), Fault>
        ensures cut { OnOk result (Changes (D.seen self.old) (D.seen self.new) (λ old new. new ≡ without_tail old)) }
        ensures all { OnOk result (Sees (D.seen self.new) (λ log. end_of log ≡ length log)) }
        ensures held { Changes (D.seen self.old) (D.seen self.new) (λ old new. held_by new ≡ held_by old) }
        ensures refused { OnErr result (Stays (D.seen self.old) (D.seen self.new)) }
        ensures known { OnOk result (Sees (D.seen self.new) (λ log. IsKnown (D.may_leave self.new))) }
        ensures crash { Sees (D.seen self.old) (λ old. LeavesSame old (D.may_leave self.old) (D.may_leave self.new)) }
        ensures fault { IfErr result (λ f. f ≡ Fault.WriteFailed) }
    {
        self.sync_once()?;
        match self.log.device.set_len(self.log.end) {
            Ok(()) => {
                self.tail = Tail::Nothing;
                Ok(())
            }
            Err(_) => Err(Fault::WriteFailed),
        }
    }

    /// Forces what was written to the disk: whatever crash comes, until the next call that writes, leaves this log.
    pub fn sync(&mut self) -> Result<(), Fault>
        ensures durable { OnOk result (Sees (D.seen self.new) (λ log. NoMore (λ c. c ≡ Some log) (D.may_leave self.new))) }
        ensures same { D.seen self.new ≡ D.seen self.old }
        ensures crash { Sees (D.seen self.old) (λ log. Adds (λ c. c ≡ log) (D.may_leave self.old) (D.may_leave self.new)) }
        ensures fault { IfErr result (λ f. f ≡ Fault.WriteFailed) }
    {
        match self.log.device.sync() {
            Ok(()) => {
                self.is_synced = true;
                Ok(())
            }
            Err(_) => Err(Fault::WriteFailed),
        }
    }

    /// How many bytes the log has, those behind the records too. It asks the device.
    pub fn log_len(&mut self) -> Result<u64, Fault>
        ensures told { Sees (D.seen self.new) (λ log. IfOk result (λ n. n ≡ length log)) }
        ensures read { IsRead D.seen D.damaged D.may_leave self.old self.new }
        ensures fault { IfErr result (λ f. f ≡ Fault.ReadFailed) }
    {
        length_of(&mut self.log.device)
    }

    /// Copies each whole record of the log to a fresh one, in their order, behind damage too: it goes on behind the whole record where
    /// a head reads, and else a byte further on.
    pub fn salvage<C: Device>(&mut self, into: &mut C) -> Result<Salvaged, Fault>
        ensures copied { OnOk result (Sees (D.seen self.new) (λ log. Changes (C.seen into.old) (C.seen into.new)
            (λ old new. (old ≡ []) × (new ≡ log_of (salvaged log))))) }
        ensures records { IfOk result (λ s. Sees (D.seen self.new) (λ log. s.records ≡ length (salvaged log))) }
        ensures left_out { IfOk result (λ s. Sees (D.seen self.new) (λ log. Sees (C.seen into.new) (λ bytes.
            s.left_out ≡ length log - length bytes))) }
        ensures gaps { IfOk result (λ s. Sees (D.seen self.new) (λ log. map gap_of s.gaps.items ≡ gaps_in log)) }
        // Without damage that is the log, but for its torn end.
        ensures undamaged { OnOk result (Sees (D.seen self.new) (λ log. tail_in log ≢ Tail.Damaged
            → Sees (C.seen into.new) (λ bytes. bytes ≡ without_tail log))) }
        // Where no head changed, whatever else did, no record is copied but at a place where one was written.
        ensures written { Sees (D.seen self.new) (λ log. (rs : List Entry) → HaveHeads 0 rs log
            → salvaged log ≡ found_at log (places_of 0 rs)) }
        // Where it fails, it has appended a front of that, and nothing to a log that had bytes.
        ensures begun { Sees (D.seen self.new) (λ log. Changes (C.seen into.old) (C.seen into.new) (λ old new.
            (n : ℕ) × (new ≡ old ++ take n (log_of (salvaged log))))) }
        ensures kept { Changes (C.seen into.old) (C.seen into.new) (λ old new. 0 < length old → new ≡ old) }
        ensures read { IsRead D.seen D.damaged D.may_leave self.old self.new }
        ensures fault { IfErr result (MaySalvage (C.seen into.new)) }
    {
        let len = length_of(&mut self.log.device)?;
        copy(&mut self.log, into, len, &self.index, true)
    }

    /// Copies the records that leave the map to a fresh log, in their order: of each key that has a value the newest one. It reads the
    /// log once, from its first record to its last, and looks up by more reads each key that shares its index key with many. It goes on
    /// behind damage, as a salvage does: a record that was read when the log was opened and no longer reads is left out, so where fewer
    /// records are told than there are keys, something is missing.
    pub fn compact<C: Device>(&mut self, into: &mut C) -> Result<Salvaged, Fault>
        ensures copied { OnOk result (SeesAll (D.seen self.new) (D.damaged self.new) (λ log.
            Changes (C.seen into.old) (C.seen into.new) (λ old new.
            (old ≡ []) × (new ≡ log_of (newest (records_of log)))))) }
        ensures held { OnOk result (SeesAll (D.seen self.new) (D.damaged self.new) (λ log. Sees (C.seen into.new) (λ bytes.
            held_by bytes ≡ held_by log))) }
        ensures records { IfOk result (λ s. SeesAll (D.seen self.new) (D.damaged self.new) (λ log.
            s.records ≡ map.len (held_by log))) }
        ensures left_out { IfOk result (λ s. SeesAll (D.seen self.new) (D.damaged self.new) (λ log.
            Sees (C.seen into.new) (λ bytes. s.left_out ≡ end_of log - length bytes))) }
        ensures gaps { IfOk result (λ s. SeesAll (D.seen self.new) (D.damaged self.new) (λ log. s.gaps.items ≡ [])) }
        // Where it fails, it has appended a front of that, and nothing to a log that had bytes.
        ensures begun { SeesAll (D.seen self.new) (D.damaged self.new) (λ log.
            Changes (C.seen into.old) (C.seen into.new) (λ old new.
            (n : ℕ) × (new ≡ old ++ take n (log_of (newest (records_of log)))))) }
        ensures kept { Changes (C.seen into.old) (C.seen into.new) (λ old new. 0 < length old → new ≡ old) }
        ensures read { IsRead D.seen D.damaged D.may_leave self.old self.new }
        ensures fault { IfErr result (MaySalvage (C.seen into.new)) }
    {
        let end = self.log.end;
        copy(&mut self.log, into, end, &self.index, false)
    }

    /// The device.
    pub fn device(&self) -> &D
        ensures { result.now ≡ self.now }
    {
        &self.log.device
    }

    /// The device, to be opened anew.
    pub fn into_device(self) -> D
    where
        I: Drop,
        ensures { result ≡ self }
    {
        self.log.device
    }
}
