//! The records of a log, or those that leave its map, copied to a fresh one, behind damage too.
ghost use Rattle.std.specs.Prelude.{◌≡◌, ◌⊎◌, ◌<◌, ◌≤◌, ◌+◌, ◌-◌, ℕ, List, [], ◌++◌, length, map, min, take, drop, false, IfOk, IfErr, OnErr, OnOk};
ghost use Rattle.key_index_store.specs.Device.{Changes, IsBegun, IsRead, Sees};
ghost use Rattle.key_index_store.specs.Indexed.{HasRuns, is_at, key_at};
ghost use Rattle.key_index_store.specs.Record.{Fits, encoded_from, entry_of, key_in, log_of, size_of};
ghost use Rattle.key_index_store.specs.Salvage.{Gap, MaySalvage, copied, gap_of, gaps_at, gaps_in, is_listed, keeps, one_if, step, unknown};
ghost use Rattle.key_index_store.specs.Stored.{MayRead};

use crate::device::Device;
use crate::record::{Reading, Record, decode, encode, has_head, key_in, record_length};
use crate::store::Fault;
use crate::store::find::{BLOCK, Front, length_of, read_front};
use crate::store::log::Log;
use key_index_flat::index::{Unordered, Values};
use std::alloc::{AllocError, Global};

/// What was copied of a log, and what wasn't.
#[derive(Debug, Drop, PartialEq, Eq)]
pub struct Salvaged {
    /// How many records were copied.
    pub records: u64,
    /// How many bytes of the log were not.
    pub left_out: u64,
    /// Where those of them are that are no record's, in their order.
    pub gaps: Vec<LeftOut>,
}

/// Bytes of a log that are no record's.
#[derive(Debug, Drop, PartialEq, Eq)]
pub struct LeftOut {
    /// Where they stand in the log.
    pub place: u64,
    /// How many they are.
    pub length: u64,
    /// The key of the record that stood there, where its head and its key read. Bytes without a key that stand side by side are one gap.
    pub key: Option<Vec<u8>>,
}

/// The bytes from a place on.
fn bytes_from(bytes: &[u8], place: u64) -> &[u8]
    ensures { result.now ≡ drop place bytes.now }
{
    match bytes.get(place as usize..) {
        Some(rest) => rest,
        None => b"",
    }
}

/// The next place that is looked at, in a log of `len` bytes: behind the whole record where a head says how long it is, whatever
/// stands in its key and its value, and else the next byte.
fn next_place(bytes: &[u8], place: u64, len: u64) -> u64
    ensures value { result ≡ min (place + step place bytes.now) len }
    ensures on { place < len → place < result }
{
    if has_head(bytes, place) {
        place.saturating_add(record_length(bytes)).min(len)
    } else {
        place.saturating_add(1).min(len)
    }
}

/// Notes the bytes from one place to another.
fn note(gaps: &mut Vec<LeftOut>, since: u64, place: u64) -> Result<(), AllocError>
    ensures { OnOk result (map gap_of gaps.new.items ≡ map gap_of gaps.old.items ++ unknown since place) }
{
    if since < place {
        gaps.push(LeftOut {
            place: since,
            length: place - since,
            key: None,
        })?;
    }
    Ok(())
}

/// Notes that no whole record stands at a place, where its key is known. Gives from where on nothing is noted.
fn leave_out(
    alloc: Global,
    gaps: &mut Vec<LeftOut>,
    bytes: &[u8],
    since: u64,
    place: u64,
    next: u64,
) -> Result<u64, AllocError>
    requires { place ≤ next }
    ensures noted { IfOk result (λ s. (behind : ℕ → List Gap) → map gap_of gaps.new.items ++ behind s
        ≡ map gap_of gaps.old.items ++ gaps_at since place next [] (key_in place bytes.now) behind) }
    ensures within { IfOk result (λ s. (s ≡ since) ⊎ (s ≡ next)) }
{
    let Some(key) = key_in(bytes, place) else {
        return Ok(since);
    };
    note(gaps, since, place)?;
    let key = Vec::from_slice(alloc, key)?;
    gaps.push(LeftOut {
        place,
        length: next - place,
        key: Some(key),
    })?;
    Ok(next)
}

/// How many positions a list has at most that is gone along.
const FEW: usize = 64;

/// Whether the record of a key at a place of a log is copied: each one is, or those whose positions an index has. In a long list the key
/// is looked up by a few reads: to go along it for each record would take the square of its length.
fn is_kept<D: Device, I: Unordered<Value = u64>>(
    from: &mut Log<D>,
    index: &I,
    is_all: bool,
    place: u64,
    key: &[u8],
) -> Result<bool, Fault>
    ensures told { (len : ℕ) → (is_all ≡ false → len ≡ from.old.end) → Sees (D.seen from.new.device) (λ log. len ≤ length log
        → HasRuns I.Key.cmp (I.view index.now) (D.damaged from.new.device) is_all (take len log)
        → key_at (take len log) place ≡ key.now
        → IfOk result (λ t. t ≡ keeps I.Key.cmp (I.view index.now) is_all place key.now)) }
    ensures read { IsRead D.seen D.damaged D.may_leave from.old.device from.new.device }
    ensures end { from.new.end ≡ from.old.end }
    ensures fault { IfErr result MayRead }
{
    if is_all {
        return Ok(true);
    }
    let positions = index.get(key);
    if positions.len() <= FEW {
        return Ok(is_listed(positions, place));
    }
    let found = from.find(index, key)?;
    Ok(is_at(&found.read, place))
}

/// Whether a list has a position.
fn is_listed(positions: Values<'_, u64>, place: u64) -> bool
    ensures { result ≡ is_listed place positions.entry }
{
    for position in positions {
        if *position == place {
            return true;
        }
    }
    false
}

/// Whether the record that was found stands at a place.
fn is_at(front: &Option<Front>, place: u64) -> bool
    ensures { result ≡ is_at front.now place }
{
    match front {
        Some(front) => front.position == place,
        None => false,
    }
}

/// Writes the record of a place at the end of a log, if it is kept. Gives how many records were written, and how many bytes.
fn write<C: Device>(
    alloc: Global,
    into: &mut C,
    end: u64,
    is_kept: bool,
    whole: Record<'_>,
) -> Result<(u64, u64), Fault>
    requires { Fits (entry_of whole) }
    ensures records { IfOk result (λ n. (n.0 ≤ 1) × (n.0 ≡ length (one_if is_kept (entry_of whole.entry)))) }
    ensures bytes { IfOk result (λ n. (n.1 ≤ size_of (entry_of whole.entry))
        × (n.1 ≡ length (encoded_from end (one_if is_kept (entry_of whole.entry))))) }
    ensures written { OnOk result (Changes (C.seen into.old) (C.seen into.new) (λ old new. end ≡ length old
        → new ≡ old ++ encoded_from end (one_if is_kept (entry_of whole.entry)))) }
    ensures begun { OnErr result (Changes (C.seen into.old) (C.seen into.new) (λ old new. end ≡ length old
        → IsBegun (encoded_from end (one_if is_kept (entry_of whole.entry))) old new)) }
    ensures fault { IfErr result (λ f. (f ≡ Fault.Memory) ⊎ (f ≡ Fault.WriteFailed)) }
{
    if !is_kept {
        return Ok((0, 0));
    }
    let bytes = encode(alloc, end, whole.key, whole.value)?;
    match into.write_at(end, bytes.as_slice()) {
        Ok(()) => Ok((1, whole.length())),
        Err(_) => Err(Fault::WriteFailed),
    }
}

/// Copies the records of the first `len` bytes of a log that are kept to a fresh one, in their order, behind damage too: behind a head
/// that reads it goes on behind the whole record, and looks byte by byte only where none does. So what a value holds is not taken for a
/// record while its own record's head reads. Where not all are kept, each list of the index is a run.
pub(crate) fn copy<D: Device, C: Device, I: Unordered<Value = u64>>(
    from: &mut Log<D>,
    into: &mut C,
    len: u64,
    index: &I,
    is_all: bool,
) -> Result<Salvaged, Fault>
    requires { is_all ≡ false → len ≡ from.old.end }
    ensures copied { OnOk result (Sees (D.seen from.new.device) (λ log. len ≤ length log
        → HasRuns I.Key.cmp (I.view index.now) (D.damaged from.new.device) is_all (take len log)
        → Changes (C.seen into.old) (C.seen into.new) (λ old new.
        (old ≡ []) × (new ≡ log_of (copied (keeps I.Key.cmp (I.view index.now) is_all) (take len log)))))) }
    ensures records { IfOk result (λ s. Sees (D.seen from.new.device) (λ log. len ≤ length log
        → HasRuns I.Key.cmp (I.view index.now) (D.damaged from.new.device) is_all (take len log)
        → s.records ≡ length (copied (keeps I.Key.cmp (I.view index.now) is_all) (take len log)))) }
    ensures left_out { IfOk result (λ s. Sees (D.seen from.new.device) (λ log. len ≤ length log
        → HasRuns I.Key.cmp (I.view index.now) (D.damaged from.new.device) is_all (take len log)
        → Sees (C.seen into.new) (λ bytes. s.left_out ≡ len - length bytes))) }
    ensures gaps { IfOk result (λ s. Sees (D.seen from.new.device) (λ log. len ≤ length log
        → HasRuns I.Key.cmp (I.view index.now) (D.damaged from.new.device) is_all (take len log)
        → map gap_of s.gaps.items ≡ gaps_in (take len log))) }
    // Where it fails, it has appended a front of that, and nothing to a log that had bytes.
    ensures begun { Sees (D.seen from.new.device) (λ log. len ≤ length log
        → HasRuns I.Key.cmp (I.view index.now) (D.damaged from.new.device) is_all (take len log)
        → Changes (C.seen into.old) (C.seen into.new) (λ old new.
        (n : ℕ) × (new ≡ old ++ take n (log_of (copied (keeps I.Key.cmp (I.view index.now) is_all) (take len log)))))) }
    ensures stays { Changes (C.seen into.old) (C.seen into.new) (λ old new. 0 < length old → new ≡ old) }
    ensures read { IsRead D.seen D.damaged D.may_leave from.old.device from.new.device }
    ensures end { from.new.end ≡ from.old.end }
    ensures fault { IfErr result (MaySalvage (C.seen into.new)) }
{
    if length_of(into)? != 0 {
        return Err(Fault::NotEmpty);
    }
    let alloc = from.alloc;
    let (mut start, mut position, mut end, mut records) = (0, 0, 0, 0);
    let (mut since, mut gaps) = (0, Vec::new(alloc));
    let mut block = read_front(alloc, &mut from.device, start, len, true, BLOCK)?;
    // Each round goes on by a record or a byte, or reads a block at a place where none was read yet: so the time is linear, and each
    // byte is read a few times at most, but where keys are looked up in long lists. Behind a head that tells of more bytes than there
    // are, nothing is looked for.
    while position < len {
        let rest = bytes_from(block.as_slice(), position - start);
        let next = next_place(rest, position, len);
        match decode(rest, position) {
            Reading::Complete(record) => {
                note(&mut gaps, since, position)?;
                let is_kept = is_kept(from, index, is_all, position, record.key)?;
                let written = write(alloc, into, end, is_kept, record)?;
                records += written.0;
                end = end.saturating_add(written.1);
                (position, since) = (next, next);
            }
            Reading::Damaged => {
                since = leave_out(alloc, &mut gaps, rest, since, position, next)?;
                position = next;
            }
            Reading::Torn if start == position => {
                since = leave_out(alloc, &mut gaps, rest, since, position, next)?;
                position = next;
            }
            Reading::Torn => {
                block = read_front(alloc, &mut from.device, position, len, true, BLOCK)?;
                start = position;
            }
        }
    }
    note(&mut gaps, since, len)?;
    Ok(Salvaged {
        records,
        left_out: len.saturating_sub(end),
        gaps,
    })
}
