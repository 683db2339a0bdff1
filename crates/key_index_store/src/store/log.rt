//! A log, and the entries of its records.
ghost use Rattle.std.specs.Prelude.{◌≡◌, ◌⊎◌, ◌≤◌, length, take, IsSome, IfSome, IfOk, IfErr};
ghost use Rattle.std.specs.Option.{option_map};
ghost use Rattle.key_index_store.specs.Device.{IsRead, Sees};
ghost use Rattle.key_index_store.specs.Indexed.{IsLive, entry_at};
ghost use Rattle.key_index_store.specs.Stored.{MayRead, in_bytes};

use super::Fault;
use super::find::{BLOCK, copy_value, read_record};
use crate::device::Device;
use crate::record::{Reading, decode, has_head, record_length};
use std::alloc::Global;

/// A log on a device, of whose first `end` bytes a store has an index.
#[derive(Drop)]
pub(crate) struct Log<D: Device> {
    pub(crate) alloc: Global,
    pub(crate) device: D,
    pub(crate) end: u64,
}

impl<D: Device> Log<D> {
    /// The key and the value of the record at a position, if one is given.
    pub(super) fn entry(
        &mut self,
        position: Option<u64>,
    ) -> Result<Option<(Vec<u8>, Vec<u8>)>, Fault>
        ensures entry { Sees (D.seen self.new.device) (λ log. self.old.end ≤ length log
            → IfSome position (IsLive (take self.old.end log)) → IfOk result (λ o.
            in_bytes o ≡ option_map (entry_at (take self.old.end log)) position)) }
        ensures read { IsRead D.seen D.damaged D.may_leave self.old.device self.new.device }
        ensures end { self.new.end ≡ self.old.end }
        ensures fault { Sees (D.seen self.new.device) (λ log. self.old.end ≤ length log
            → IfSome position (IsLive (take self.old.end log)) → IfErr result (λ f. MayRead f
            ⊎ ((f ≡ Fault.Damaged) × IsSome position × IfSome position (D.damaged self.new.device)))) }
        ensures why { IfErr result (λ f. MayRead f ⊎ (f ≡ Fault.Damaged)) }
    {
        let Some(position) = position else {
            return Ok(None);
        };
        let (alloc, end) = (self.alloc, self.end);
        let bytes = read_record(alloc, &mut self.device, position, end, true, BLOCK)?;
        let Reading::Complete(record) = decode(bytes.as_slice(), position) else {
            return Err(Fault::Damaged);
        };
        let key = Vec::from_slice(alloc, record.key)?;
        let value = copy_value(alloc, &record)?;
        Ok(Some((key, value)))
    }

    /// How many bytes the record at a position takes, if its head reads, and else 0.
    pub(super) fn length_at(&mut self, position: u64) -> Result<u64, Fault>
        ensures read { IsRead D.seen D.damaged D.may_leave self.old.device self.new.device }
        ensures end { self.new.end ≡ self.old.end }
        ensures fault { IfErr result MayRead }
    {
        let (alloc, end) = (self.alloc, self.end);
        let bytes = read_record(alloc, &mut self.device, position, end, false, BLOCK)?;
        if !has_head(bytes.as_slice(), position) {
            return Ok(0);
        }
        Ok(record_length(bytes.as_slice()))
    }
}
