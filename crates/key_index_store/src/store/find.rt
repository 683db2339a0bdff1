//! Reads of records, and the search of a key among positions.
ghost use Rattle.std.specs.Prelude.{◌≡◌, ◌⊎◌, ◌≤◌, ◌<◌, ◌^◌, ◌-◌, ℕ, length, take, drop, slice_get, true, false, Some, None, is_some, All, IfSome, IfOk, IfErr, OnOk, option_map};
ghost use Rattle.key_index_flat.specs.FullKeys.{IsBytes, byte_cmp};
ghost use Rattle.key_index_flat.specs.View.{run_of};
ghost use Rattle.key_index_store.specs.Device.{Gives, IsRead, Sees};
ghost use Rattle.key_index_store.specs.Indexed.{HasKeys, IsFront, IsHiddenIn, IsIn, IsLive, IsPlace, IsRun, entry_at, key_read};
ghost use Rattle.key_index_store.specs.Reads.{wanted};
ghost use Rattle.key_index_store.specs.Record.{Stops, bytes_of, entry_of, key_in, reading};
ghost use Rattle.key_index_store.specs.Salvage.{step};
ghost use Rattle.key_index_store.specs.Stored.{MayRead};

use super::Fault;
use super::log::Log;
use crate::device::Device;
use crate::record::{HEAD, Reading, Record, decode, has_head, key_in, key_length, record_length};
use key_index_flat::index::{Compare, Found, Unordered, find_place};
use std::alloc::Global;
use std::cmp::Ordering;

/// How many bytes of a record are read at first, where the whole of it may be wanted.
pub(crate) const BLOCK: u64 = 1024;

/// How many bytes are read at first where its key alone is.
const KEY_BLOCK: u64 = 128;

/// How many bytes a log has.
pub(crate) fn length_of<D: Device>(device: &mut D) -> Result<u64, Fault>
    ensures told { Sees (D.seen device.new) (λ log. IfOk result (λ n. n ≡ length log)) }
    ensures read { IsRead D.seen D.damaged D.may_leave device.old device.new }
    ensures fault { IfErr result (λ f. f ≡ Fault.ReadFailed) }
{
    match device.len() {
        Ok(len) => Ok(len),
        Err(_) => Err(Fault::ReadFailed),
    }
}

/// Some bytes of a log.
pub(super) fn read_bytes<D: Device>(
    alloc: Global,
    device: &mut D,
    position: u64,
    count: u64,
) -> Result<Vec<u8>, Fault>
    ensures told { Sees (D.seen device.new) (λ log. IfOk result (λ v. v.items ≡ take count (drop position log))) }
    ensures counted { IfOk result (λ v. length v.items ≡ count) }
    ensures read { IsRead D.seen D.damaged D.may_leave device.old device.new }
    ensures fault { IfErr result MayRead }
{
    let mut bytes = vec![in alloc; 0; count as usize]?;
    let read = device.read_at(position, bytes.as_mut_slice());
    read.map_err(|_| Fault::ReadFailed)?;
    Ok(bytes)
}

/// How many bytes hold the head and the key of the record at the front of some bytes, which stand at a position, or the whole record.
fn wanted(bytes: &[u8], position: u64, is_whole: bool) -> u64
    ensures value { result ≡ wanted is_whole position bytes.now }
    ensures bound { result < 2 ^ 34 }
{
    if !has_head(bytes, position) {
        return 0;
    }
    if is_whole {
        record_length(bytes)
    } else {
        (HEAD + 4) as u64 + key_length(bytes)
    }
}

/// The front of the record at a position, in the first `limit` bytes of a log: its head and its key at least, and the whole record where
/// that is asked. So many bytes are read at first, in which a head has room.
pub(crate) fn read_front<D: Device>(
    alloc: Global,
    device: &mut D,
    position: u64,
    limit: u64,
    is_whole: bool,
    block: u64,
) -> Result<Vec<u8>, Fault>
    requires { 13 ≤ block }
    ensures front { Sees (D.seen device.new) (λ log. limit ≤ length log → IfOk result (λ v.
        v.items ≡ take (length v.items) (drop position (take limit log)))) }
    ensures key { Sees (D.seen device.new) (λ log. limit ≤ length log → IfOk result (λ v.
        key_in position v.items ≡ key_in position (drop position (take limit log)))) }
    ensures step { Sees (D.seen device.new) (λ log. limit ≤ length log → IfOk result (λ v.
        step position v.items ≡ step position (drop position (take limit log)))) }
    ensures within { IfOk result (λ v. length v.items ≤ limit - position) }
    ensures whole { is_whole ≡ true → Sees (D.seen device.new) (λ log. limit ≤ length log → IfOk result (λ v.
        reading position v.items ≡ reading position (drop position (take limit log)))) }
    ensures read { IsRead D.seen D.damaged D.may_leave device.old device.new }
    ensures fault { IfErr result MayRead }
{
    let rest = limit.saturating_sub(position);
    let bytes = read_bytes(alloc, device, position, rest.min(block))?;
    let wanted = wanted(bytes.as_slice(), position, is_whole).min(rest);
    if wanted <= bytes.len() as u64 {
        return Ok(bytes);
    }
    read_bytes(alloc, device, position, wanted)
}

/// Some bytes from the front of the record at a position.
fn read_part<D: Device>(
    alloc: Global,
    device: &mut D,
    position: u64,
    count: u64,
) -> Result<Vec<u8>, Fault>
    ensures given { Sees (D.seen device.new) (λ log. IfOk result (λ v.
        Gives (D.damaged device.new) position (take count (drop position log)) v.items)) }
    ensures counted { IfOk result (λ v. length v.items ≡ count) }
    ensures read { IsRead D.seen D.damaged D.may_leave device.old device.new }
    ensures fault { IfErr result MayRead }
{
    let mut bytes = vec![in alloc; 0; count as usize]?;
    let read = device.read_record(0, position, bytes.as_mut_slice());
    read.map_err(|_| Fault::ReadFailed)?;
    Ok(bytes)
}

/// The front of the record at a position, in the first `limit` bytes of a log: its head and its key at least, and the whole record where
/// that is asked, unless it is damaged. So many bytes are read at first, in which a head has room.
pub(super) fn read_record<D: Device>(
    alloc: Global,
    device: &mut D,
    position: u64,
    limit: u64,
    is_whole: bool,
    block: u64,
) -> Result<Vec<u8>, Fault>
    requires { 13 ≤ block }
    ensures given { Sees (D.seen device.new) (λ log. limit ≤ length log → IfOk result (λ v. Gives (D.damaged device.new)
        position (take (length v.items) (drop position (take limit log))) v.items)) }
    ensures key { Sees (D.seen device.new) (λ log. limit ≤ length log → IfOk result (λ v.
        (key_in position v.items ≡ key_in position (drop position (take limit log)))
        ⊎ (D.damaged device.new position × (key_in position v.items ≡ None)))) }
    ensures whole { is_whole ≡ true → Sees (D.seen device.new) (λ log. limit ≤ length log → IfOk result (λ v.
        (reading position v.items ≡ reading position (drop position (take limit log)))
        ⊎ (D.damaged device.new position × Stops (reading position v.items)))) }
    ensures read { IsRead D.seen D.damaged D.may_leave device.old device.new }
    ensures fault { IfErr result MayRead }
{
    let rest = limit.saturating_sub(position);
    let bytes = read_part(alloc, device, position, rest.min(block))?;
    let wanted = wanted(bytes.as_slice(), position, is_whole).min(rest);
    if wanted <= bytes.len() as u64 {
        return Ok(bytes);
    }
    read_part(alloc, device, position, wanted)
}

/// Where a key stands in the list of its index key, which is in the order of full keys, or where it would stand.
#[derive(Clone, Copy)]
pub(super) struct InList {
    /// How many keys of the list are below it.
    pub(super) place: usize,
    /// The next one is the key.
    pub(super) is_held: bool,
    /// There is no list.
    pub(super) is_empty: bool,
}

/// The bytes at the front of a record.
#[derive(Drop)]
pub(crate) struct Front {
    pub(crate) position: u64,
    pub(crate) bytes: Vec<u8>,
}

/// How the key of the record at the front of some bytes compares with another one, if it reads.
fn side_of(bytes: &[u8], position: u64, key: &[u8]) -> Option<Ordering>
    ensures { result ≡ option_map (λ k. byte_cmp k key.now) (key_in position bytes.now) }
{
    match key_in(bytes, position) {
        Some(there) => Some(there.cmp(key)),
        None => None,
    }
}

/// How many bytes of each record of a list are read at first. Of a record that is alone the value may be wanted too.
fn block_of(is_alone: bool) -> u64
    ensures { 13 ≤ result }
{
    if is_alone { BLOCK } else { KEY_BLOCK }
}

impl<D: Device> Compare<u64> for Log<D> {
    ghost use Rattle.std.proofs.Common.{refl, ap, subst, ◌∙◌};
    ghost use Rattle.key_index_store.specs.laws.ReadLaws.{read-none, read-then};

    type Read = Front;

    type Error = Fault;

    ghost agrees = { λ log keys. HasKeys (D.seen log.device) log.end keys };

    ghost hides = { λ log position. Sees (D.seen log.device) (λ bytes. log.end ≤ length bytes
        → IsLive (take log.end bytes) position → D.damaged log.device position) };

    ghost is_of = { λ log position front. (front.position ≡ position) × Sees (D.seen log.device) (λ bytes.
        log.end ≤ length bytes → IsFront (take log.end bytes) (D.damaged log.device) front) };

    ghost reads = { λ before after. IsRead D.seen D.damaged D.may_leave before.device after.device
        × (after.end ≡ before.end) };

    ghost fails = { λ _ _ fault. MayRead fault };

    ghost reads_nothing = { λ log. (read-none log.device, refl) };

    ghost reads_both = { λ x y z first second.
        (read-then x.device y.device z.device first.0 second.0, second.1 ∙ first.1) };

    ghost agreed = { λ x y keys reads agrees. (
      agrees.0,
      reads.0.stays agrees.0 agrees.1,
      subst (λ end. end ≤ length agrees.0) reads.1 agrees.2,
      agrees.3 ∙ ap (λ end. key_read (take end agrees.0)) reads.1,
    ) };

    ghost stays_hidden = { λ x y position reads hides bytes seen within live. reads.0.damage position
        (hides bytes (reads.0.stays bytes seen) (subst (λ end. end ≤ length bytes) reads.1 within)
        (subst (λ end. IsLive (take end bytes) position) reads.1 live)) };

    fn compare(
        &mut self,
        value: &u64,
        key: &[u8],
        is_alone: bool,
    ) -> Result<Option<(Ordering, Front)>, Fault> {
        let (alloc, end, position) = (self.alloc, self.end, *value);
        let block = block_of(is_alone);
        let bytes = read_record(alloc, &mut self.device, position, end, false, block)?;
        match side_of(bytes.as_slice(), position, key) {
            Some(side) => Ok(Some((side, Front { position, bytes }))),
            None => Ok(None),
        }
    }
}

impl<D: Device> Log<D> {
    /// Looks a key up in its list, by as many reads as the length of the list has binary digits. Where a record doesn't read, the next
    /// one that does tells on which side the key is.
    pub(crate) fn find<I: Unordered<Value = u64>>(
        &mut self,
        index: &I,
        key: &[u8],
    ) -> Result<Found<Front>, Fault>
        ensures at { Sees (D.seen self.new.device) (λ log. self.old.end ≤ length log
            → IsRun (take self.old.end log) (run_of I.Key.cmp (I.view index.now) key.now)
            → IfOk result (λ f. f.is_hidden ≡ false →
            IsPlace (entry_at (take self.old.end log)) key.now (run_of I.Key.cmp (I.view index.now) key.now)
            f.place (is_some f.read))) }
        ensures hidden { Sees (D.seen self.new.device) (λ log. self.old.end ≤ length log
            → IsRun (take self.old.end log) (run_of I.Key.cmp (I.view index.now) key.now)
            → IfOk result (λ f. f.is_hidden ≡ true → IsHiddenIn (D.damaged self.new.device)
            (entry_at (take self.old.end log)) key.now (run_of I.Key.cmp (I.view index.now) key.now) f.place)) }
        ensures none { IfOk result (λ f. f.is_hidden ≡ true → is_some f.read ≡ false) }
        ensures front { Sees (D.seen self.new.device) (λ log. self.old.end ≤ length log → IfOk result (λ f.
            IfSome f.read (IsFront (take self.old.end log) (D.damaged self.new.device)))) }
        ensures found { IfOk result (λ f. IfSome f.read (λ r.
            slice_get (run_of I.Key.cmp (I.view index.now) key.now) f.place ≡ Some r.position)) }
        ensures within { IfOk result (λ f. f.place ≤ length (run_of I.Key.cmp (I.view index.now) key.now)) }
        ensures empty { IfOk result (λ f. f.is_empty ≡ true
            → length (run_of I.Key.cmp (I.view index.now) key.now) ≡ 0) }
        ensures read { IsRead D.seen D.damaged D.may_leave self.old.device self.new.device }
        ensures end { self.new.end ≡ self.old.end }
        ensures fault { IfErr result MayRead }
    {
        find_place(index, self, key)
    }

    /// Where a key stands in its list, or would stand.
    pub(super) fn find_place<I: Unordered<Value = u64>>(
        &mut self,
        index: &I,
        key: &[u8],
    ) -> Result<InList, Fault>
        ensures at { Sees (D.seen self.new.device) (λ log. self.old.end ≤ length log
            → IsRun (take self.old.end log) (run_of I.Key.cmp (I.view index.now) key.now) → IfOk result (λ p.
            IsPlace (entry_at (take self.old.end log)) key.now (run_of I.Key.cmp (I.view index.now) key.now)
            p.place p.is_held)) }
        ensures within { IfOk result (λ p. IsIn (run_of I.Key.cmp (I.view index.now) key.now) p.place p.is_held) }
        ensures empty { IfOk result (λ p. p.is_empty ≡ true
            → length (run_of I.Key.cmp (I.view index.now) key.now) ≡ 0) }
        ensures bytes { IsBytes key.now }
        ensures read { IsRead D.seen D.damaged D.may_leave self.old.device self.new.device }
        ensures end { self.new.end ≡ self.old.end }
        ensures fault { Sees (D.seen self.new.device) (λ log. self.old.end ≤ length log
            → IsRun (take self.old.end log) (run_of I.Key.cmp (I.view index.now) key.now) → IfErr result (λ f.
            MayRead f ⊎ ((f ≡ Fault.Damaged) × ((place : ℕ) × IsHiddenIn (D.damaged self.new.device)
            (entry_at (take self.old.end log)) key.now (run_of I.Key.cmp (I.view index.now) key.now) place)))) }
    {
        let found = self.find(index, key)?;
        known(&found)
    }
}

/// Where a key that was looked up stands, if that is known.
pub(super) fn known(found: &Found<Front>) -> Result<InList, Fault>
    ensures place { IfOk result (λ p. (p.place ≡ found.now.place) × (p.is_held ≡ is_some found.now.read)
        × (p.is_empty ≡ found.now.is_empty)) }
    ensures seen { OnOk result (found.now.is_hidden ≡ false) }
    ensures fault { IfErr result (λ f. (f ≡ Fault.Damaged) × (found.now.is_hidden ≡ true)) }
{
    if found.is_hidden {
        return Err(Fault::Damaged);
    }
    Ok(InList {
        place: found.place,
        is_held: found.read.is_some(),
        is_empty: found.is_empty,
    })
}

/// The value of a record, copied.
pub(super) fn copy_value(alloc: Global, whole: &Record<'_>) -> Result<Vec<u8>, Fault>
    ensures value { IfOk result (λ v. v.items ≡ bytes_of (entry_of whole.now).value) }
    ensures fault { IfErr result (λ f. f ≡ Fault.Memory) }
{
    match whole.value {
        Some(value) => Ok(Vec::from_slice(alloc, value)?),
        None => Ok(Vec::new(alloc)),
    }
}

/// The value of the record at a position, of which some bytes at its front are read already.
pub(super) fn read_value<D: Device>(
    alloc: Global,
    device: &mut D,
    position: u64,
    limit: u64,
    front: &[u8],
) -> Result<Vec<u8>, Fault>
    ensures value { Sees (D.seen device.new) (λ log. limit ≤ length log
        → Gives (D.damaged device.old) position (take (length front.now) (drop position (take limit log))) front.now
        → IsLive (take limit log) position → IfOk result (λ v. v.items ≡ (entry_at (take limit log) position).1)) }
    ensures read { IsRead D.seen D.damaged D.may_leave device.old device.new }
    ensures fault { Sees (D.seen device.new) (λ log. limit ≤ length log → IsLive (take limit log) position
        → IfErr result (λ f. MayRead f ⊎ ((f ≡ Fault.Damaged) × D.damaged device.new position))) }
{
    if let Reading::Complete(record) = decode(front, position) {
        return copy_value(alloc, &record);
    }
    let bytes = read_record(alloc, device, position, limit, true, BLOCK)?;
    match decode(bytes.as_slice(), position) {
        Reading::Complete(record) => copy_value(alloc, &record),
        Reading::Torn | Reading::Damaged => Err(Fault::Damaged),
    }
}
