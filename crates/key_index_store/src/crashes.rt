//! What a crash leaves of a store: the laws of durability, as proved callers, over a device in memory, over any device behind a header,
//! and over two openings of a file; and of the name of a file.
ghost use Rattle.std.specs.Prelude.{◌≡◌, ◌⊎◌, ◌-◌, [], length, max, take, drop, string_bytes, Some, None, Err, IfOk};
ghost use Rattle.std.specs.FinMap as map;
ghost use Rattle.std.specs.Option.{option_map};
ghost use Rattle.key_index_store.specs.Device.{Changes, IsFirst, IsLeft, NoMore, Sees};
ghost use Rattle.key_index_store.specs.FileDevice.{FileLeaves, calls_of, file_seen, first_of};
ghost use Rattle.key_index_store.specs.Header.{Behind, IsHeaded, held_behind};
ghost use Rattle.key_index_store.specs.MemoryDevice.{MayLeave, held, kept};
ghost use Rattle.key_index_store.specs.Places.{IsFresh, IsOnDisk};
ghost use Rattle.key_index_store.specs.Stored.{IsBeforeOrAfter, held_by, put_of};

use crate::device::Device;
use crate::file_device::FileDevice;
use crate::folder::Identity;
use crate::headed::{Headed, OpenError};
use crate::memory_device::MemoryDevice;
use crate::memory_folder::MemoryFolder;
use crate::place::{Fresh, Place};
use crate::store::{Fault, Store};
use key_index_flat::index::Unordered;
use std::alloc::Global;

/// The store on what a crash leaves that loses the last `lost` bytes, but none that is synced.
pub fn after_crash<I: Unordered<Value = u64> + Drop>(
    alloc: Global,
    store: Store<MemoryDevice, I>,
    lost: usize,
    index: I,
) -> Result<Store<MemoryDevice, I>, Fault>
    requires { (I.view index).content ≡ [] }
    ensures left { IfOk result (λ opened.
        held opened ≡ take (max (kept store) (length (held store) - lost)) (held store)) }
    ensures allowed { IfOk result (λ opened. MayLeave store (Some (held opened))) }
{
    let left = store.into_device().crash(lost);
    let opened = Store::open(alloc, left, index)?;
    Ok(opened)
}

/// A key is set and synced, and then comes a crash: the key has its value, and each other key the one that it had.
pub fn put_and_sync<I: Unordered<Value = u64> + Drop>(
    alloc: Global,
    mut store: Store<MemoryDevice, I>,
    key: &[u8],
    value: &[u8],
    lost: usize,
    index: I,
) -> Result<Store<MemoryDevice, I>, Fault>
    requires { (I.view index).content ≡ [] }
    ensures { IfOk result (λ opened.
        held_by (held opened) ≡ map.insert (held_by (held store)) key.now value.now) }
{
    store.put(key, value)?;
    store.sync()?;
    after_crash(alloc, store, lost, index)
}

/// A store is synced and then a key is set, and a crash comes in that call or behind it, whether the call was refused or not: the map
/// is the one from before, or has the key with its value.
pub fn put_alone<I: Unordered<Value = u64> + Drop>(
    alloc: Global,
    mut store: Store<MemoryDevice, I>,
    key: &[u8],
    value: &[u8],
    lost: usize,
    index: I,
) -> Result<Store<MemoryDevice, I>, Fault>
    requires { (I.view index).content ≡ [] }
    ensures { IfOk result (λ opened. (held_by (held opened) ≡ held_by (held store))
        ⊎ (held_by (held opened) ≡ map.insert (held_by (held store)) key.now value.now)) }
{
    store.sync()?;
    let _ = store.put(key, value);
    after_crash(alloc, store, lost, index)
}

/// Why there is no store on what a crash left of a device.
#[derive(Drop)]
pub enum Lost<D> {
    /// It is no store's. It is handed back.
    NoStore(D),
    /// A call was refused.
    Refused(Fault),
}

impl<D: Drop> From<Fault> for Lost<D> {
    ghost use Rattle.key_index_store.specs.declared.crashes.Lost.TheVariants.{Refused};

    ghost from_gives = { λ fault lost. lost ≡ Refused fault };

    fn from(fault: Fault) -> Lost<D> {
        Lost::Refused(fault)
    }
}

/// The store on a device behind a header.
pub fn open_headed<D: Device + Drop, I: Unordered<Value = u64> + Drop>(
    alloc: Global,
    device: D,
    index: I,
) -> Result<Store<Headed<D>, I>, Lost<D>>
    requires { (I.view index).content ≡ [] }
    ensures log { IfOk result (λ store. Changes (D.seen device) (D.seen store) (λ old new. drop 16 new ≡ drop 16 old)) }
    ensures crash { IfOk result (λ store. NoMore (Behind (D.may_leave device)) (Behind (D.may_leave store))) }
    ensures refused { (given : D) → result ≡ Err (Lost.NoStore given)
        → Sees (D.seen given) (λ bytes. (D.seen device ≡ Some bytes) × (¬ IsHeaded bytes)) }
{
    let headed = match Headed::open(alloc, device) {
        Ok(headed) => headed,
        Err(refused) => {
            return Err(match refused.reason {
                OpenError::ReadFailed => Lost::Refused(Fault::ReadFailed),
                _ => Lost::NoStore(refused.device),
            });
        }
    };
    match Store::open(alloc, headed, index) {
        Ok(store) => Ok(store),
        Err(refused) => Err(Lost::Refused(refused.fault)),
    }
}

/// A key is set and synced, and then comes a crash. What it leaves of the device opens again: the key has its value, and each other key
/// the one that it had.
pub fn put_and_sync_headed<D: Device, C: Device + Drop, I: Unordered<Value = u64> + Drop>(
    alloc: Global,
    store: &mut Store<Headed<D>, I>,
    key: &[u8],
    value: &[u8],
    left: C,
    index: I,
) -> Result<Store<Headed<C>, I>, Lost<C>>
    requires { (I.view index).content ≡ [] }
    ensures held { IfOk result (λ opened. Changes (C.seen left) (C.seen opened) (λ bytes now.
        IsLeft (D.may_leave store.new) bytes → Changes (D.seen store.old) (D.seen store.new) (λ old new.
        held_behind now ≡ map.insert (held_behind old) key.now value.now))) }
    ensures opens { (given : C) → result ≡ Err (Lost.NoStore given) → Changes (C.seen left) (C.seen given) (λ bytes now.
        Sees (D.seen store.new) (λ new. ¬ IsLeft (D.may_leave store.new) bytes)) }
{
    store.put(key, value)?;
    store.sync()?;
    open_headed(alloc, left, index)
}

/// A key is set, by the first write since the last sync or since the device was opened, and then comes a crash. What it leaves opens again:
/// the map is the one from before, or has the key with its value.
pub fn put_alone_headed<D: Device, C: Device + Drop, I: Unordered<Value = u64> + Drop>(
    alloc: Global,
    store: &mut Store<Headed<D>, I>,
    key: &[u8],
    value: &[u8],
    left: C,
    index: I,
) -> Result<Store<Headed<C>, I>, Lost<C>>
    requires { (I.view index).content ≡ [] }
    ensures held { IfOk result (λ opened. Changes (C.seen left) (C.seen opened) (λ bytes now.
        IsLeft (D.may_leave store.new) bytes → Changes (D.seen store.old) (D.seen store.new) (λ old new.
        IsFirst (drop 16 old) (Behind (D.may_leave store.old))
        → IsBeforeOrAfter (drop 16 old) (put_of (key.now, value.now)) (drop 16 now)))) }
    ensures opens { (given : C) → result ≡ Err (Lost.NoStore given) → Changes (C.seen left) (C.seen given) (λ bytes now.
        IsLeft (D.may_leave store.new) bytes → Changes (D.seen store.old) (D.seen store.new) (λ old new.
        ¬ IsFirst (drop 16 old) (Behind (D.may_leave store.old)))) }
{
    store.put(key, value)?;
    open_headed(alloc, left, index)
}

/// The stores of two sessions over one file.
#[derive(Drop)]
pub struct Sessions<I: Unordered<Value = u64>> {
    pub first: Store<Headed<FileDevice>, I>,
    pub second: Store<Headed<FileDevice>, I>,
}

/// Two sessions over one file, and a crash between them: it is opened, a key is set and synced, a crash comes, what it leaves is opened,
/// and the key has its value. `device` and `left` are the file in each session.
pub fn two_sessions<I: Unordered<Value = u64> + Drop>(
    alloc: Global,
    device: FileDevice,
    left: FileDevice,
    key: &[u8],
    value: &[u8],
    index: I,
    another: I,
) -> Result<(Sessions<I>, Option<Vec<u8>>), Lost<FileDevice>>
    requires index { (I.view index).content ≡ [] }
    requires another { (I.view another).content ≡ [] }
    ensures { IfOk result (λ r. Sees (file_seen r.0.first) (λ synced. Sees (file_seen r.0.second) (λ bytes.
        calls_of left ≡ [] → IsLeft (FileLeaves r.0.first) (first_of left)
        → option_map (λ v. v.items) r.1 ≡ Some value.now))) }
{
    let mut first = open_headed(alloc, device, index)?;
    let mut second = put_and_sync_headed(alloc, &mut first, key, value, left, another)?;
    let found = second.get(key)?;
    Ok((Sessions { first, second }, found))
}

/// The same where the key is set and not synced, whatever the disk had of the file when it was opened.
pub fn two_sessions_unsynced<I: Unordered<Value = u64> + Drop>(
    alloc: Global,
    device: FileDevice,
    left: FileDevice,
    key: &[u8],
    value: &[u8],
    index: I,
    another: I,
) -> Result<Sessions<I>, Lost<FileDevice>>
    requires index { (I.view index).content ≡ [] }
    requires another { (I.view another).content ≡ [] }
    ensures { IfOk result (λ s. Sees (file_seen s.first) (λ written. Sees (file_seen s.second) (λ bytes.
        calls_of device ≡ [] → calls_of left ≡ [] → IsLeft (FileLeaves s.first) (first_of left)
        → IsBeforeOrAfter (drop 16 (first_of device)) (put_of (key.now, value.now)) (drop 16 bytes)))) }
{
    let mut first = open_headed(alloc, device, index)?;
    let second = put_alone_headed(alloc, &mut first, key, value, left, another)?;
    Ok(Sessions { first, second })
}

/// A store goes on over a copy in the place of its file, whose name is on the disk, and a crash comes in the call or behind it, whether it
/// was refused or not: at the name is the old file or the fresh one.
pub fn moved_in_place<D: Device, C: Device + Drop, I: Unordered<Value = u64> + Drop>(
    alloc: Global,
    mut place: Place<MemoryFolder>,
    store: &mut Store<D, I>,
    fresh: Fresh,
    disk: C,
    index: I,
    lost: usize,
) -> Option<Identity>
    requires on_disk { IsOnDisk place.calls place.name place.file }
    requires fresh { IsFresh place.calls fresh }
    requires target { string_bytes fresh.target ≡ place.name }
    requires empty { (I.view index).content ≡ [] }
    ensures { (result ≡ Some place.file) ⊎ (result ≡ Some fresh.file) }
{
    let _moved = place.move_to(alloc, store, fresh, disk, index);
    let (folder, name) = place.into_parts();
    folder.crash(lost).file(name.as_str())
}
