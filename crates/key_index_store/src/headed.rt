//! A device behind a header, which says that a file is a store's.
ghost use Rattle.std.specs.Prelude.{◌≡◌, ◌≢◌, ℕ, List, ◌++◌, length, drop, take, Some, Err, IfOk, IfErr, OnOk, OnErr};
ghost use Rattle.key_index_store.specs.Device.{AddsAtMost, Changes, IsBegun, IsRead, Sees};
ghost use Rattle.key_index_store.specs.Header.{IsHeaded, header, refusal_in, version_in};

use crate::device::{Device, Failed};
use crate::record::{part, u32_at};
use std::alloc::Global;
use std::marker::Model;

/// How many bytes the header takes.
const LENGTH: u64 = 16;

/// The header: eight bytes of magic, the version, and their CRC-32, numbers with the lowest byte first.
const HEADER: [u8; 16] = *b"keyindex\x02\0\0\0\xad\x8a\x00\x78";

/// Why no log stands behind a header.
#[derive(Clone, Copy, Debug, PartialEq, Eq)]
pub enum OpenError {
    /// A read failed.
    ReadFailed,
    /// There are bytes, and they don't begin with the header, nor are they the beginning of one.
    NoStore,
    /// They begin with the header of an older version of the format.
    OlderVersion,
    /// With that of a newer one.
    NewerVersion,
}

impl From<Failed> for OpenError {
    ghost use Rattle.key_index_store.specs.declared.headed.OpenError.TheVariants.{ReadFailed};

    ghost from_gives = { λ _ error. error ≡ ReadFailed };

    fn from(_failed: Failed) -> OpenError {
        OpenError::ReadFailed
    }
}

/// A device that was not opened, and why.
#[derive(Drop)]
pub struct NotHeaded<D> {
    pub reason: OpenError,
    pub device: D,
}

impl<D: Drop> From<NotHeaded<D>> for OpenError {
    fn from(refused: NotHeaded<D>) -> OpenError {
        refused.reason
    }
}

/// A device without its header, which the first write makes. Contracts see the device with it.
#[derive(Drop)]
pub struct Headed<D: Device> {
    alloc: Global,
    device: D,
    /// How many bytes the device has, where that is known.
    end: Option<u64>,
    /// It begins with the header, or is a part of it.
    is_headed: bool,
}

impl<D: Device> Model for Headed<D> {
    ghost use Rattle.std.specs.Prelude.{◌≡◌, length, true, IfSome};
    ghost use Rattle.key_index_store.specs.Device.{Sees};
    ghost use Rattle.key_index_store.specs.Header.{IsHeaded};

    ghost Value = { D };

    ghost view = { λ h. h.device };

    ghost invariant = { λ h. Sees (D.seen h.device) (λ bytes. IfSome h.end (λ n. n ≡ length bytes))
        × (h.is_headed ≡ true → Sees (D.seen h.device) IsHeaded) };
}

impl<D: Device> Headed<D> {
    /// What stands behind the header of a device: nothing where it is empty, or has only a part of a header. No byte is
    /// changed.
    pub fn open(alloc: Global, mut device: D) -> Result<Headed<D>, NotHeaded<D>>
        ensures headed { IfOk result (λ h. Sees (D.seen h) IsHeaded) }
        ensures refused { IfErr result (λ e. e.reason ≢ OpenError.ReadFailed → Sees (D.seen e.device)
            (λ bytes. (¬ IsHeaded bytes) × (e.reason ≡ refusal_in (take 16 bytes)))) }
        ensures read { IfOk result (λ h. IsRead D.seen D.damaged D.may_leave device h) }
        ensures kept { IfErr result (λ e. IsRead D.seen D.damaged D.may_leave device e.device) }
    {
        match headed_length(&mut device) {
            Ok(len) => Ok(Headed {
                alloc,
                device,
                end: Some(len),
                is_headed: true,
            }),
            Err(reason) => Err(NotHeaded { reason, device }),
        }
    }

    /// What stands behind the first 16 bytes of a device, whatever these are. It may only be read.
    pub fn headless(alloc: Global, device: D) -> Headed<D>
        ensures { result ≡ device }
    {
        Headed {
            alloc,
            device,
            end: None,
            is_headed: false,
        }
    }
}

fn header() -> [u8; 16]
    ensures { result ≡ header }
{
    HEADER
}

/// The version that the header at the front of some bytes has, if it has its checksum.
fn version_in(bytes: &[u8]) -> Option<u32>
    ensures { result ≡ version_in bytes.now }
{
    if part(bytes, LENGTH - 4).is_none() || bytes[..8] != header()[..8] {
        return None;
    }
    Some(u32_at(bytes, 8))
}

/// Why bytes are refused that are not the header.
fn refusal_of(bytes: &[u8]) -> OpenError
    ensures { result ≡ refusal_in bytes.now }
{
    match version_in(bytes) {
        Some(1) => OpenError::OlderVersion,
        Some(version) if version > 2 => OpenError::NewerVersion,
        _ => OpenError::NoStore,
    }
}

/// How many bytes a device has, if they begin with the header, or are a part of one.
fn headed_length<D: Device>(device: &mut D) -> Result<u64, OpenError>
    ensures told { Sees (D.seen device.new) (λ bytes. IfOk result (λ n. n ≡ length bytes)) }
    ensures headed { OnOk result (Sees (D.seen device.new) IsHeaded) }
    ensures refused { IfErr result (λ e. e ≢ OpenError.ReadFailed → Sees (D.seen device.new)
        (λ bytes. (¬ IsHeaded bytes) × (e ≡ refusal_in (take 16 bytes)))) }
    ensures read { IsRead D.seen D.damaged D.may_leave device.old device.new }
{
    let len = device.len()?;
    let count = len.min(LENGTH) as usize;
    let mut bytes = [0; 16];
    device.read_at(0, &mut bytes[..count])?;
    if bytes[..count] != header()[..count] {
        return Err(refusal_of(&bytes[..count]));
    }
    Ok(len)
}

/// Writes at the end of a device what it lacks of the header, and bytes behind it.
fn append<D: Device>(alloc: Global, device: &mut D, end: u64, bytes: &[u8]) -> Result<(), Failed>
    ensures written { OnOk result (Changes (D.seen device.old) (D.seen device.new) (λ old new.
        end ≡ length old → new ≡ old ++ (drop end header ++ bytes.now))) }
    ensures failed { OnErr result (Changes (D.seen device.old) (D.seen device.new) (λ old new.
        end ≡ length old → IsBegun (drop end header ++ bytes.now) old new)) }
    ensures crash { (old : List ℕ) → D.seen device.old ≡ Some old → end ≡ length old
        → AddsAtMost old (drop end header ++ bytes.now) (D.may_leave device.old) (D.may_leave device.new) }
{
    if end >= LENGTH {
        return device.write_at(end, bytes);
    }
    let mut all = Vec::from_slice(alloc, &header()[end as usize..]).map_err(|_| Failed)?;
    all.extend_from_slice(bytes).map_err(|_| Failed)?;
    device.write_at(end, all.as_slice())
}

impl<D: Device> Device for Headed<D> {
    ghost use Rattle.std.specs.Prelude.{drop};
    ghost use Rattle.std.specs.Option.{option_map};
    ghost use Rattle.key_index_store.specs.Header.{Behind};

    ghost seen = { λ d. option_map (drop 16) (D.seen d) };

    ghost may_leave = { λ d. Behind (D.may_leave d) };

    ghost damaged = { λ d. D.damaged d };

    fn len(&mut self) -> Result<u64, Failed> {
        let len = self.device.len()?;
        self.end = Some(len);
        Ok(len.saturating_sub(LENGTH))
    }

    fn read_at(&mut self, position: u64, buffer: &mut [u8]) -> Result<(), Failed> {
        let place = position.checked_add(LENGTH).ok_or(Failed)?;
        self.device.read_at(place, buffer)
    }

    fn read_record(&mut self, log: u64, place: u64, buffer: &mut [u8]) -> Result<(), Failed> {
        let log = log.checked_add(LENGTH).ok_or(Failed)?;
        self.device.read_record(log, place, buffer)
    }

    /// Fails where the position is not the end. What is missing of the header is written with the bytes.
    fn write_at(&mut self, position: u64, bytes: &[u8]) -> Result<(), Failed> {
        if !self.is_headed {
            return Err(Failed);
        }
        let end = self.end.ok_or(Failed)?;
        if position != end.saturating_sub(LENGTH) {
            return Err(Failed);
        }
        if append(self.alloc, &mut self.device, end, bytes).is_err() {
            self.end = self.device.len().ok();
            return Err(Failed);
        }
        self.end = end.max(LENGTH).checked_add(bytes.len() as u64);
        Ok(())
    }

    /// Changes nothing where there are no more than `len` bytes.
    fn set_len(&mut self, len: u64) -> Result<(), Failed> {
        if !self.is_headed {
            return Err(Failed);
        }
        let end = self.end.ok_or(Failed)?;
        if len < end.saturating_sub(LENGTH) {
            let place = len + LENGTH;
            self.device.set_len(place)?;
            self.end = Some(place);
        }
        Ok(())
    }

    fn sync(&mut self) -> Result<(), Failed> {
        if !self.is_headed {
            return Err(Failed);
        }
        self.device.sync()
    }
}
