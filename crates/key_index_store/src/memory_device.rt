//! A device in memory.
ghost use Rattle.std.specs.Prelude.{◌≡◌, ◌≢◌, ◌↔◌, ◌⊎◌, ◌+◌, ◌-◌, ◌<◌, ◌≤◌, ℕ, List, [], ◌++◌, Some, Ok, length, max, min, nat_lt, if◌then◌else◌, take, drop, is_ok, IsOk, IsTrue, OnOk, OnErr, vec_capacity};
ghost use Rattle.key_index_store.specs.Device.{AddsAtMost, NoMore};
ghost use Rattle.key_index_store.specs.MemoryDevice.{held, kept, MayLeave};

use crate::device::{Device, Failed};
use std::alloc::Global;

/// A device in memory. A crash loses any last part of the bytes that were appended since the last sync.
#[derive(Debug, Drop)]
pub struct MemoryDevice {
    bytes: Vec<u8>,
    /// How many bytes at the front a crash keeps.
    kept: usize,
}

impl MemoryDevice {
    /// A device with no bytes.
    pub fn new(alloc: Global) -> MemoryDevice
        ensures { held result ≡ [] }
    {
        MemoryDevice {
            bytes: Vec::new(alloc),
            kept: 0,
        }
    }

    /// What a crash leaves that loses the last `lost` bytes, but none that is synced. All of it is synced.
    pub fn crash(mut self, lost: usize) -> MemoryDevice
        ensures left { held result ≡ take (max (kept self) (length (held self) - lost)) (held self) }
        ensures allowed { MayLeave self (Some (held result)) }
        ensures synced { NoMore (λ c. c ≡ Some (held result)) (MayLeave result) }
    {
        let left = self.bytes.len().saturating_sub(lost);
        self.bytes.truncate(left.max(self.kept));
        self.kept = self.bytes.len();
        self
    }
}

impl Device for MemoryDevice {
    ghost seen = { λ d. Some (held d) };

    ghost may_leave = { MayLeave };

    ghost damaged = { λ _ _. ⊥ };

    /// It doesn't fail.
    fn len(&mut self) -> Result<u64, Failed>
        ensures told { result ≡ Ok (length (held self.old)) }
        ensures same { self.new ≡ self.old }
    {
        Ok(self.bytes.len() as u64)
    }

    fn read_at(&mut self, position: u64, buffer: &mut [u8]) -> Result<(), Failed>
        ensures told { OnOk result (buffer.new ≡ take (length buffer.old) (drop position (held self.old))) }
        ensures within { IsTrue (is_ok result) ↔ (position + length buffer.old ≤ length (held self.old)) }
        ensures same { self.new ≡ self.old }
    {
        let rest = self.bytes.get(position as usize..).ok_or(Failed)?;
        buffer.copy_from_slice(rest.get(..buffer.len()).ok_or(Failed)?);
        Ok(())
    }

    fn read_record(&mut self, log: u64, place: u64, buffer: &mut [u8]) -> Result<(), Failed>
        ensures told { OnOk result (buffer.new ≡ take (length buffer.old) (drop (log + place) (held self.old))) }
        ensures within { IsTrue (is_ok result) ↔ (log + place + length buffer.old ≤ length (held self.old)) }
        ensures same { self.new ≡ self.old }
    {
        let position = log.checked_add(place).ok_or(Failed)?;
        self.read_at(position, buffer)
    }

    /// Fails where the position is not the end, or where there is no memory, and then changes nothing.
    fn write_at(&mut self, position: u64, bytes: &[u8]) -> Result<(), Failed>
        ensures written { OnOk result (held self.new ≡ held self.old ++ bytes.now) }
        ensures kept { kept self.new ≡ kept self.old }
        ensures failed { OnErr result (held self.new ≡ held self.old) }
        ensures full { OnErr result ((position ≢ length (held self.old))
            ⊎ (vec_capacity self.old.bytes < length (held self.old) + length bytes.now)) }
        ensures crash { (old : List ℕ) → Some (held self.old) ≡ Some old → position ≡ length old
            → AddsAtMost old bytes.now (MayLeave self.old) (MayLeave self.new) }
    {
        if position != self.bytes.len() as u64 {
            return Err(Failed);
        }
        self.bytes.extend_from_slice(bytes).map_err(|_| Failed)
    }

    /// Changes nothing where there are no more than `len` bytes. It doesn't fail.
    fn set_len(&mut self, len: u64) -> Result<(), Failed>
        ensures done { IsOk result }
        ensures cut { held self.new ≡ take len (held self.old) }
        ensures kept { kept self.new
            ≡ (if nat_lt len (length (held self.old)) then min (kept self.old) len else kept self.old) }
    {
        if len < self.bytes.len() as u64 {
            self.bytes.truncate(len as usize);
            self.kept = self.kept.min(len as usize);
        }
        Ok(())
    }

    /// It doesn't fail.
    fn sync(&mut self) -> Result<(), Failed>
        ensures done { IsOk result }
        ensures same { held self.new ≡ held self.old }
        ensures kept { kept self.new ≡ length (held self.old) }
        ensures crash { NoMore (MayLeave self.old) (MayLeave self.new) }
    {
        self.kept = self.bytes.len();
        Ok(())
    }
}
