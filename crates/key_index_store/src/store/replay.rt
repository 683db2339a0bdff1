//! The records of a log, filed in an index from the first one on.
ghost use Rattle.std.specs.Prelude.{◌≡◌, ◌≤◌, ◌<◌, ◌+◌, ◌^◌, ℕ, List, Option, if◌then◌else◌, [], ◌++◌, length, take, drop, is_some, IfOk, IfErr, OnOk, OnErr};
ghost use Rattle.key_index_store.specs.Device.{IsRead, Sees};
ghost use Rattle.key_index_store.specs.Indexed.{Indexes, Keeps};
ghost use Rattle.key_index_store.specs.Record.{Damaged, Fits, Stops, Torn, encoded, reading};
ghost use Rattle.key_index_store.specs.Stored.{MayOpen, MayRead, is_zeros, tail_of};

use super::find::{self, length_of, read_bytes, read_front};
use super::log::Log;
use super::{Fault, Tail, settle};
use crate::device::Device;
use crate::record::{Reading, decode};
use key_index_flat::index::Unordered;
use std::alloc::Global;

/// How many bytes of a log are read at a time.
const BLOCK: u64 = 65536;

/// Files the record of a key that stands at a position of a log, behind those that are filed.
fn file<D: Device, I: Unordered<Value = u64>>(
    from: &mut Log<D>,
    index: &mut I,
    key: &[u8],
    has_value: bool,
    position: u64,
) -> Result<(), Fault>
    ensures filed { Sees (D.seen from.new.device) (λ log. (value : Option (List ℕ)) → has_value ≡ is_some value
        → Fits (record { key = key.now; value = value }) → position ≤ length log
        → Indexes I.Key.cmp (take position log) (I.view index.old) → OnOk result
        (Indexes I.Key.cmp (take position log ++ encoded position (record { key = key.now; value = value }))
        (I.view index.new))) }
    ensures read { IsRead D.seen D.damaged D.may_leave from.old.device from.new.device }
    ensures fault { Sees (D.seen from.new.device) (λ log. position ≤ length log → position < usize.MAX
        → Indexes I.Key.cmp (take position log) (I.view index.old) → IfErr result (MayOpen (D.damaged from.new.device))) }
{
    from.end = position;
    let place = from.find_place(index, key)?;
    settle(index, key, has_value, place, position)
}

/// Files the complete records at the front of some bytes, which stand at a position of a log. Gives how many bytes they take.
fn file_all<D: Device, I: Unordered<Value = u64>>(
    from: &mut Log<D>,
    index: &mut I,
    bytes: &[u8],
    position: u64,
) -> Result<u64, Fault>
    requires { position + length bytes.now < 2 ^ 64 }
    ensures indexed { Sees (D.seen from.new.device) (λ log. bytes.now ≡ take (length bytes.now) (drop position log)
        → Indexes I.Key.cmp (take position log) (I.view index.old)
        → IfOk result (λ n. Indexes I.Key.cmp (take (position + n) log) (I.view index.new))) }
    ensures within { IfOk result (λ n. n ≤ length bytes.now) }
    ensures read { IsRead D.seen D.damaged D.may_leave from.old.device from.new.device }
    ensures fault { Sees (D.seen from.new.device) (λ log. bytes.now ≡ take (length bytes.now) (drop position log)
        → Indexes I.Key.cmp (take position log) (I.view index.old) → IfErr result (MayOpen (D.damaged from.new.device))) }
{
    let mut rest = bytes;
    let mut place = position;
    while let Reading::Complete(record) = decode(rest, place) {
        file(from, index, record.key, record.value.is_some(), place)?;
        let length = record.length();
        let (_, behind) = rest.split_at(length as usize);
        rest = behind;
        place += length;
    }
    Ok(place - position)
}

/// Whether the bytes of a log from a position on are zeros.
fn are_zeros<D: Device>(
    alloc: Global,
    device: &mut D,
    position: u64,
    len: u64,
) -> Result<bool, Fault>
    ensures told { Sees (D.seen device.new) (λ log. len ≡ length log → IfOk result (λ are.
        are ≡ is_zeros (drop position log))) }
    ensures read { IsRead D.seen D.damaged D.may_leave device.old device.new }
    ensures fault { IfErr result MayRead }
{
    let mut position = position;
    while position < len {
        let block = read_bytes(alloc, device, position, (len - position).min(BLOCK))?;
        if !is_zeros(block.as_slice()) {
            return Ok(false);
        }
        position += block.len() as u64;
    }
    Ok(true)
}

fn is_zeros(bytes: &[u8]) -> bool
    ensures { result ≡ is_zeros bytes.now }
{
    for byte in bytes {
        if *byte != 0 {
            return false;
        }
    }
    true
}

/// What stands behind the last whole record of a log of `len` bytes.
fn tail_at<D: Device>(
    alloc: Global,
    device: &mut D,
    end: u64,
    len: u64,
    is_torn: bool,
) -> Result<Tail, Fault>
    ensures told { Sees (D.seen device.new) (λ log. len ≡ length log
        → (reading end (drop end log) ≡ (if is_torn then Torn else Damaged))
        → IfOk result (λ t. t ≡ tail_of end (drop end log))) }
    ensures read { IsRead D.seen D.damaged D.may_leave device.old device.new }
    ensures fault { IfErr result MayRead }
{
    if end >= len {
        return Ok(Tail::Nothing);
    }
    if is_torn || are_zeros(alloc, device, end, len)? {
        return Ok(Tail::Torn);
    }
    Ok(Tail::Damaged)
}

/// Files the record that begins at a position, where it is longer than a block. Gives how many bytes it takes, or what stands there.
fn file_one<D: Device, I: Unordered<Value = u64>>(
    from: &mut Log<D>,
    index: &mut I,
    end: u64,
    len: u64,
) -> Result<Result<u64, Tail>, Fault>
    requires { end < len }
    ensures indexed { Sees (D.seen from.new.device) (λ log. len ≡ length log
        → Indexes I.Key.cmp (take end log) (I.view index.old)
        → IfOk result (λ r. IfOk r (λ n. Indexes I.Key.cmp (take (end + n) log) (I.view index.new)))) }
    ensures within { IfOk result (λ r. IfOk r (λ n. (0 < n) × (end + n ≤ len))) }
    ensures tail { Sees (D.seen from.new.device) (λ log. len ≡ length log → IfOk result (λ r. IfErr r (λ t.
        (t ≡ tail_of end (drop end log)) × Stops (reading end (drop end log))))) }
    ensures same { IfOk result (λ r. OnErr r (I.view index.new ≡ I.view index.old)) }
    ensures read { IsRead D.seen D.damaged D.may_leave from.old.device from.new.device }
    ensures fault { Sees (D.seen from.new.device) (λ log. len ≡ length log
        → Indexes I.Key.cmp (take end log) (I.view index.old) → IfErr result (MayOpen (D.damaged from.new.device))) }
{
    let bytes = read_front(from.alloc, &mut from.device, end, len, true, find::BLOCK)?;
    let is_torn = match decode(bytes.as_slice(), end) {
        Reading::Complete(record) => {
            file(from, index, record.key, record.value.is_some(), end)?;
            return Ok(Ok(record.length()));
        }
        Reading::Torn => true,
        Reading::Damaged => false,
    };
    Ok(Err(tail_at(from.alloc, &mut from.device, end, len, is_torn)?))
}

/// Files the complete records of a log, the oldest first. Gives how many bytes they take, and what stands behind them.
pub(super) fn replay<D: Device, I: Unordered<Value = u64>>(
    from: &mut Log<D>,
    index: &mut I,
) -> Result<(u64, Tail), Fault>
    requires { (I.view index.old).content ≡ [] }
    ensures kept { Sees (D.seen from.new.device) (λ log. IfOk result (λ r. Keeps I.Key.cmp log (I.view index.new) r.0 r.1)) }
    ensures exact { Sees (D.seen from.new.device) (λ log. IfOk result (λ r. r.1 ≡ tail_of r.0 (drop r.0 log))) }
    ensures read { IsRead D.seen D.damaged D.may_leave from.old.device from.new.device }
    ensures fault { Sees (D.seen from.new.device) (λ log. IfErr result (MayOpen (D.damaged from.new.device))) }
{
    let len = length_of(&mut from.device)?;
    let mut end = 0;
    while end < len {
        let block = read_bytes(from.alloc, &mut from.device, end, (len - end).min(BLOCK))?;
        let filed = file_all(from, index, block.as_slice(), end)?;
        if filed != 0 {
            end += filed;
            continue;
        }
        match file_one(from, index, end, len)? {
            Ok(filed) => end += filed,
            Err(tail) => return Ok((end, tail)),
        }
    }
    Ok((end, Tail::Nothing))
}
