//! The name of a store's file, and fresh files that take a name.
ghost use Rattle.std.specs.FinMap.{len};
ghost use Rattle.std.specs.Prelude.{◌≡◌, ◌≢◌, ◌↔◌, ◌<◌, ℕ, List, Some, Ok, true, [], length, map, string_bytes, IsErr, IsTrue, IfOk, OnOk, OnErr};
ghost use Rattle.key_index_store.specs.Device.{Changes, IsDurable, IsRead, Sees, SeesAll, Stays};
ghost use Rattle.key_index_store.specs.Names.{is_made, known, noted};
ghost use Rattle.key_index_store.specs.Places.{IsFresh, IsGiven, IsOnDisk, IsSame, LeavesEither, LeavesNoMore, SparesOthers};
ghost use Rattle.key_index_store.specs.Record.{log_of};
ghost use Rattle.key_index_store.specs.Salvage.{gap_of, gaps_in, newest, salvaged};
ghost use Rattle.key_index_store.specs.Stored.{held_by, records_of};
ghost use Rattle.key_index_store.specs.declared.folder.NameCall.TheVariants.{Made, Synced};

use crate::device::Device;
use crate::folder::{Folder, Identity};
use crate::salvage::Salvaged;
use crate::store::{Fault, Store};
use key_index_flat::index::Unordered;
use std::alloc::{AllocError, Global};
use std::marker::Model;

/// Why a file did not get a name, or has lost its own.
#[derive(Debug, Drop)]
pub enum NameFault<E> {
    /// Another file is at the name, or none.
    Gone,
    /// A call on a folder failed.
    Failed(E),
    /// The disk may not have the name.
    NotSynced(E),
    /// The store refused.
    Store(Fault),
}

impl<E> From<AllocError> for NameFault<E> {
    fn from(_failed: AllocError) -> NameFault<E> {
        NameFault::Store(Fault::Memory)
    }
}

/// The name of a store's file. Contracts see the calls on folders, the name, and which file it is.
#[derive(Drop)]
pub struct Place<F: Folder> {
    folder: F,
    name: String,
    file: Identity,
    /// A crash leaves the file at its name.
    is_on_disk: bool,
}

impl<F: Folder> Model for Place<F> {
    ghost use Rattle.std.specs.Prelude.{IsTrue, string_bytes};
    ghost use Rattle.key_index_store.specs.Places.{IsOnDisk, Site};

    ghost Value = { Site };

    ghost view = { λ p. record { calls = F.calls p.folder; name = string_bytes p.name; file = p.file } };

    ghost invariant = { λ p. IsTrue p.is_on_disk → IsOnDisk (F.calls p.folder) (string_bytes p.name) p.file };
}

/// A file that was made beside a name, which it is to take.
#[derive(Drop)]
pub struct Fresh {
    /// The name with which it was made.
    pub part: String,
    /// The name that it takes.
    pub target: String,
    /// Which file it is.
    pub file: Identity,
    /// The file that it replaces, if there is one.
    pub over: Option<Identity>,
}

/// Whether what was told of a name is a file.
fn is_this(told: Option<Identity>, file: Identity) -> bool
    ensures { IsTrue result ↔ (told ≡ Some file) }
{
    match told {
        Some(there) => there.device == file.device && there.number == file.number,
        None => false,
    }
}

/// A name beside another one, which a number tells from the others there.
fn part_of(alloc: Global, target: &str, number: u64) -> Result<String, AllocError>
    ensures { IfOk result (λ part. length target.now < length (string_bytes part)) }
{
    let mut part = String::from_str(alloc, target)?;
    part.push('.')?;
    let rest = format!(in alloc; "{number:016x}.part")?;
    part.push_str(rest.as_str())?;
    Ok(part)
}

/// Whether a name is neither of those of a fresh file.
fn is_apart(name: &str, fresh: &Fresh) -> bool
    ensures { IsTrue result → (string_bytes fresh.now.part ≢ name.now) × (string_bytes fresh.now.target ≢ name.now) }
{
    fresh.part.as_str() != name && fresh.target.as_str() != name
}

/// Whether a fresh file has the name that it takes, though the call that gave it failed.
fn given<F: Folder>(
    folder: &mut F,
    fresh: &Fresh,
    error: F::Error,
) -> Result<(), NameFault<F::Error>>
    ensures given { OnOk result (IsGiven fresh.now (F.calls folder.new)) }
    ensures left { LeavesNoMore (F.calls folder.old) (F.calls folder.new) }
    ensures made { (name : List ℕ) → is_made (F.calls folder.new) name ≡ is_made (F.calls folder.old) name }
{
    match folder.look(fresh.target.as_str()) {
        Ok(told) if is_this(told, fresh.file) => Ok(()),
        _ => Err(NameFault::Failed(error)),
    }
}

/// Gives a fresh file a name that no file has.
fn link<F: Folder>(folder: &mut F, fresh: &Fresh) -> Result<(), NameFault<F::Error>>
    requires { IsFresh (F.calls folder.old) fresh.now }
    ensures given { OnOk result (IsGiven fresh.now (F.calls folder.new)) }
    ensures either { LeavesEither fresh.now (F.calls folder.old) (F.calls folder.new) }
    ensures others { SparesOthers fresh.now (F.calls folder.old) (F.calls folder.new) }
    ensures made { OnErr result (is_made (F.calls folder.new) (string_bytes fresh.now.part) ≡ true) }
{
    let (part, target) = (fresh.part.as_str(), fresh.target.as_str());
    if let Err(error) = folder.link(part, target, fresh.file) {
        return given(folder, fresh, error);
    }
    let _ = folder.remove(part);
    Ok(())
}

/// Gives a fresh file the name of the one that it replaces, if that is still there.
fn replace<F: Folder>(
    folder: &mut F,
    fresh: &Fresh,
    over: Identity,
) -> Result<(), NameFault<F::Error>>
    requires { IsFresh (F.calls folder.old) fresh.now }
    ensures given { OnOk result (IsGiven fresh.now (F.calls folder.new)) }
    ensures either { LeavesEither fresh.now (F.calls folder.old) (F.calls folder.new) }
    ensures others { SparesOthers fresh.now (F.calls folder.old) (F.calls folder.new) }
    ensures made { OnErr result (is_made (F.calls folder.new) (string_bytes fresh.now.part) ≡ true) }
{
    let (part, target) = (fresh.part.as_str(), fresh.target.as_str());
    match folder.look(target) {
        Ok(told) if is_this(told, over) => {}
        Ok(_) => return Err(NameFault::Gone),
        Err(error) => return Err(NameFault::Failed(error)),
    }
    match folder.rename(part, target, fresh.file, over) {
        Ok(()) => Ok(()),
        Err(error) => given(folder, fresh, error),
    }
}

/// Gives a fresh file the name that it takes.
fn give<F: Folder>(folder: &mut F, fresh: &Fresh) -> Result<(), NameFault<F::Error>>
    requires { IsFresh (F.calls folder.old) fresh.now }
    ensures given { OnOk result (IsGiven fresh.now (F.calls folder.new)) }
    ensures either { LeavesEither fresh.now (F.calls folder.old) (F.calls folder.new) }
    ensures others { SparesOthers fresh.now (F.calls folder.old) (F.calls folder.new) }
    ensures made { OnErr result (is_made (F.calls folder.new) (string_bytes fresh.now.part) ≡ true) }
{
    match fresh.over {
        Some(over) => replace(folder, fresh, over),
        None => link(folder, fresh),
    }
}

/// Brings what stands at a name to the disk.
fn sync<F: Folder>(folder: &mut F, name: &str) -> Result<(), NameFault<F::Error>>
    ensures synced { OnOk result (F.calls folder.new ≡ noted Synced name.now (F.calls folder.old)) }
    ensures failed { OnErr result (F.calls folder.new ≡ F.calls folder.old) }
{
    match folder.sync(name) {
        Ok(()) => Ok(()),
        Err(error) => Err(NameFault::NotSynced(error)),
    }
}

/// Removes a fresh file, if it still has the name with which it was made.
fn give_up<F: Folder>(folder: &mut F, fresh: &Fresh)
    requires made { is_made (F.calls folder.old) (string_bytes fresh.now.part) ≡ true }
    requires apart { length (string_bytes fresh.now.target) < length (string_bytes fresh.now.part) }
    ensures either { LeavesEither fresh.now (F.calls folder.old) (F.calls folder.new) }
    ensures others { SparesOthers fresh.now (F.calls folder.old) (F.calls folder.new) }
{
    let part = fresh.part.as_str();
    if let Ok(told) = folder.look(part) {
        if is_this(told, fresh.file) {
            let _ = folder.remove(part);
        }
    }
}

impl<F: Folder> Place<F> {
    /// The place of a file that was seen at a name.
    pub fn new(folder: F, name: String, file: Identity) -> Place<F>
        ensures { result ≡ record { calls = F.calls folder; name = string_bytes name; file = file } }
    {
        Place {
            folder,
            name,
            file,
            is_on_disk: false,
        }
    }

    /// The folders, and the name.
    pub fn into_parts(self) -> (F, String)
        ensures calls { F.calls result.0 ≡ self.calls }
        ensures name { string_bytes result.1 ≡ self.name }
    {
        (self.folder, self.name)
    }

    pub fn name(&self) -> &str
        ensures { result.now ≡ self.now.name }
    {
        self.name.as_str()
    }

    /// Which file it is.
    pub fn file(&self) -> Identity
        ensures { result ≡ self.now.file }
    {
        self.file
    }

    /// Whether the file is still at its name.
    pub fn is_there(&mut self) -> Result<bool, NameFault<F::Error>>
        ensures there { IfOk result (λ is. IsTrue is ↔ (known self.new.calls self.new.name ≡ Some (Some self.new.file))) }
        ensures left { LeavesNoMore self.old.calls self.new.calls }
        ensures same { IsSame self.old self.new }
    {
        match self.folder.look(self.name.as_str()) {
            Ok(told) => Ok(is_this(told, self.file)),
            Err(error) => Err(NameFault::Failed(error)),
        }
    }

    /// Refuses where the file is no longer at its name; and brings the name to the disk, if that may not have it.
    pub fn sync(&mut self) -> Result<(), NameFault<F::Error>>
        ensures there { OnOk result (known self.new.calls self.new.name ≡ Some (Some self.new.file)) }
        ensures on_disk { OnOk result (IsOnDisk self.new.calls self.new.name self.new.file) }
        ensures left { LeavesNoMore self.old.calls self.new.calls }
        ensures same { IsSame self.old self.new }
    {
        match self.folder.look(self.name.as_str()) {
            Ok(told) if is_this(told, self.file) => {}
            Ok(_) => return Err(NameFault::Gone),
            Err(error) => return Err(NameFault::NotSynced(error)),
        }
        if !self.is_on_disk {
            sync(&mut self.folder, self.name.as_str())?;
            self.is_on_disk = true;
        }
        Ok(())
    }

    /// Opens the file at another name.
    pub fn open(&mut self, name: &str, writes: bool) -> Result<(F::File, Identity), F::Error>
        ensures left { LeavesNoMore self.old.calls self.new.calls }
        ensures same { IsSame self.old self.new }
    {
        self.folder.open(name, writes)
    }

    /// Makes a file beside a name that it is to take, where it replaces this file, if one is given. The number tells it from others that
    /// are made there, so it has to be one that nobody else takes.
    pub fn make(
        &mut self,
        alloc: Global,
        target: String,
        over: Option<Identity>,
        number: u64,
    ) -> Result<(Fresh, F::File), NameFault<F::Error>>
        ensures fresh { IfOk result (λ r. IsFresh self.new.calls r.0) }
        ensures asked { IfOk result (λ r. (r.0.target ≡ target) × (r.0.over ≡ over)) }
        ensures noted { IfOk result (λ r. self.new.calls ≡ noted (Made r.0.file) (string_bytes r.0.part) self.old.calls) }
        ensures failed { OnErr result (self.new.calls ≡ self.old.calls) }
        ensures same { IsSame self.old self.new }
    {
        let part = part_of(alloc, target.as_str(), number)?;
        let (made, file) = match self.folder.make(part.as_str()) {
            Ok((made, file)) => (made, file),
            Err(error) => return Err(NameFault::Failed(error)),
        };
        self.is_on_disk = self.is_on_disk && part.as_str() != self.name.as_str();
        let fresh = Fresh {
            part,
            target,
            file,
            over,
        };
        Ok((fresh, made))
    }

    /// Gives a fresh file, whose bytes are on the disk, the name that it takes.
    fn give<D: Device>(&mut self, fresh: &Fresh, _device: &D) -> Result<(), NameFault<F::Error>>
        requires fresh { IsFresh self.old.calls fresh.now }
        requires durable { IsDurable (D.seen _device.now) (D.may_leave _device.now) }
        ensures given { OnOk result (IsGiven fresh.now self.new.calls) }
        ensures either { LeavesEither fresh.now self.old.calls self.new.calls }
        ensures same { IsSame self.old self.new }
    {
        self.is_on_disk = self.is_on_disk && is_apart(self.name.as_str(), fresh);
        let given = give(&mut self.folder, fresh);
        if given.is_err() {
            give_up(&mut self.folder, fresh);
        }
        given
    }

    /// Removes a fresh file.
    pub fn give_up(&mut self, fresh: &Fresh)
        requires { IsFresh self.old.calls fresh.now }
        ensures either { LeavesEither fresh.now self.old.calls self.new.calls }
        ensures same { IsSame self.old self.new }
    {
        self.is_on_disk = self.is_on_disk && is_apart(self.name.as_str(), fresh);
        give_up(&mut self.folder, fresh);
    }

    /// Gives a fresh file the name that it takes, once what was copied to it is on the disk. A refused copy gets none.
    fn finish<C: Device>(
        &mut self,
        fresh: &Fresh,
        copied: Result<Salvaged, Fault>,
        into: &mut C,
    ) -> Result<Salvaged, NameFault<F::Error>>
        requires { IsFresh self.old.calls fresh.now }
        ensures copied { IfOk result (λ s. copied ≡ Ok s) }
        ensures seen { C.seen into.new ≡ C.seen into.old }
        ensures durable { OnOk result (IsDurable (C.seen into.new) (C.may_leave into.new)) }
        ensures on_disk { OnOk result (IsOnDisk self.new.calls (string_bytes fresh.now.target) fresh.now.file) }
        ensures either { LeavesEither fresh.now self.old.calls self.new.calls }
        ensures same { IsSame self.old self.new }
    {
        let copied = match copied {
            Ok(copied) => copied,
            Err(fault) => return self.refuse(fresh, fault),
        };
        if into.sync().is_err() {
            return self.refuse(fresh, Fault::WriteFailed);
        }
        self.give(fresh, into)?;
        sync(&mut self.folder, fresh.target.as_str())?;
        Ok(copied)
    }

    /// Removes a fresh file, and refuses.
    fn refuse<T>(&mut self, fresh: &Fresh, fault: Fault) -> Result<T, NameFault<F::Error>>
        requires { IsFresh self.old.calls fresh.now }
        ensures refused { IsErr result }
        ensures either { LeavesEither fresh.now self.old.calls self.new.calls }
        ensures same { IsSame self.old self.new }
    {
        self.give_up(fresh);
        Err(NameFault::Store(fault))
    }

    /// Salvages what reads of a store to a fresh file at another name.
    pub fn salvage<D: Device, C: Device, I: Unordered<Value = u64>>(
        &mut self,
        store: &mut Store<D, I>,
        fresh: &Fresh,
        into: &mut C,
    ) -> Result<Salvaged, NameFault<F::Error>>
        requires fresh { IsFresh self.old.calls fresh.now }
        ensures copied { OnOk result (Sees (D.seen store.new) (λ log. Changes (C.seen into.old) (C.seen into.new)
            (λ old new. (old ≡ []) × (new ≡ log_of (salvaged log))))) }
        ensures records { IfOk result (λ s. Sees (D.seen store.new) (λ log. s.records ≡ length (salvaged log))) }
        ensures gaps { IfOk result (λ s. Sees (D.seen store.new) (λ log. map gap_of s.gaps.items ≡ gaps_in log)) }
        ensures durable { OnOk result (IsDurable (C.seen into.new) (C.may_leave into.new)) }
        ensures on_disk { OnOk result (IsOnDisk self.new.calls (string_bytes fresh.now.target) fresh.now.file) }
        ensures either { LeavesEither fresh.now self.old.calls self.new.calls }
        ensures read { IsRead D.seen D.damaged D.may_leave store.old store.new }
        ensures same { IsSame self.old self.new }
    {
        let salvaged = store.salvage(into);
        self.finish(fresh, salvaged, into)
    }

    /// Copies the records that leave the map of a store to a fresh file at another name.
    pub fn copy_to<D: Device, C: Device, I: Unordered<Value = u64>>(
        &mut self,
        store: &mut Store<D, I>,
        fresh: &Fresh,
        into: &mut C,
    ) -> Result<Salvaged, NameFault<F::Error>>
        requires fresh { IsFresh self.old.calls fresh.now }
        ensures copied { OnOk result (SeesAll (D.seen store.new) (D.damaged store.new) (λ log.
            Changes (C.seen into.old) (C.seen into.new) (λ old new.
            (old ≡ []) × (new ≡ log_of (newest (records_of log)))))) }
        ensures records { IfOk result (λ s. SeesAll (D.seen store.new) (D.damaged store.new) (λ log.
            s.records ≡ len (held_by log))) }
        ensures gaps { IfOk result (λ s. SeesAll (D.seen store.new) (D.damaged store.new) (λ log. s.gaps.items ≡ [])) }
        ensures durable { OnOk result (IsDurable (C.seen into.new) (C.may_leave into.new)) }
        ensures on_disk { OnOk result (IsOnDisk self.new.calls (string_bytes fresh.now.target) fresh.now.file) }
        ensures either { LeavesEither fresh.now self.old.calls self.new.calls }
        ensures read { IsRead D.seen D.damaged D.may_leave store.old store.new }
        ensures same { IsSame self.old self.new }
    {
        let copied = store.compact(into);
        self.finish(fresh, copied, into)
    }

    /// Opens what was copied to a fresh file, which gets the name that it takes once it is on the disk. A refused copy gets none, and one
    /// that opens with more or fewer keys than records were copied.
    fn open_copy<C: Device + Drop, I: Unordered<Value = u64> + Drop>(
        &mut self,
        alloc: Global,
        fresh: &Fresh,
        into: C,
        index: I,
        records: u64,
    ) -> Result<Store<C, I>, NameFault<F::Error>>
        requires fresh { IsFresh self.old.calls fresh.now }
        requires empty { (I.view index).content ≡ [] }
        ensures read { IfOk result (λ copy. Stays (C.seen into) (C.seen copy)) }
        ensures durable { IfOk result (λ copy. IsDurable (C.seen copy) (C.may_leave copy)) }
        ensures given { OnOk result (IsGiven fresh.now self.new.calls) }
        ensures either { LeavesEither fresh.now self.old.calls self.new.calls }
        ensures same { IsSame self.old self.new }
    {
        let mut copy = match Store::open(alloc, into, index) {
            Ok(copy) => copy,
            Err(refused) => return self.refuse(fresh, refused.fault),
        };
        if copy.len() as u64 != records {
            return self.refuse(fresh, Fault::Damaged);
        }
        if let Err(fault) = copy.sync() {
            return self.refuse(fresh, fault);
        }
        self.give(fresh, copy.device())?;
        Ok(copy)
    }

    /// Copies a store to a fresh file at another name, or in the place of its own, and goes on there. `sync` brings the name to the disk.
    /// A store of which some records no longer read goes on without them at another name, and not in its own place.
    pub fn move_to<D: Device, C: Device + Drop, I: Unordered<Value = u64> + Drop>(
        &mut self,
        alloc: Global,
        store: &mut Store<D, I>,
        fresh: Fresh,
        into: C,
        index: I,
    ) -> Result<(Store<C, I>, Salvaged), NameFault<F::Error>>
        requires fresh { IsFresh self.old.calls fresh }
        requires empty { (I.view index).content ≡ [] }
        ensures held { IfOk result (λ r. SeesAll (D.seen store.new) (D.damaged store.new) (λ log.
            Sees (C.seen r.0) (λ bytes. held_by bytes ≡ held_by log))) }
        ensures records { IfOk result (λ r. SeesAll (D.seen store.new) (D.damaged store.new) (λ log.
            r.1.records ≡ len (held_by log))) }
        ensures gaps { IfOk result (λ r. SeesAll (D.seen store.new) (D.damaged store.new) (λ log. r.1.gaps.items ≡ [])) }
        ensures durable { IfOk result (λ r. IsDurable (C.seen r.0) (C.may_leave r.0)) }
        ensures moved { OnOk result ((self.new.name ≡ string_bytes fresh.target) × (self.new.file ≡ fresh.file)) }
        ensures given { OnOk result (IsGiven fresh self.new.calls) }
        ensures stayed { OnErr result (IsSame self.old self.new) }
        ensures either { LeavesEither fresh self.old.calls self.new.calls }
        ensures read { IsRead D.seen D.damaged D.may_leave store.old store.new }
    {
        let mut into = into;
        let copied = match store.compact(&mut into) {
            Ok(copied) => copied,
            Err(fault) => return self.refuse(&fresh, fault),
        };
        let is_own = fresh.target.as_str() == self.name.as_str();
        if is_own && copied.records != store.len() as u64 {
            return self.refuse(&fresh, Fault::Damaged);
        }
        let copy = self.open_copy(alloc, &fresh, into, index, copied.records)?;
        self.name = fresh.target;
        self.file = fresh.file;
        self.is_on_disk = false;
        Ok((copy, copied))
    }
}
