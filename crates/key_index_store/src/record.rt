//! Records of a log, and their bytes.
//!
//! A record is a head (a mark, 1 where it has a value and 2 where it marks a deletion, the length of its key and that of its value), the key
//! and the value. Behind each of the three stands its CRC-32. That of the head goes over the record's place too, as eight bytes: the number
//! of bytes of the log in front of it. Lengths and checksums are four bytes each. The lowest byte stands first.
ghost use Rattle.std.specs.Prelude.{◌≡◌, ℕ, ◌+◌, ◌≤◌, ◌<◌, ◌^◌, List, ◌∷◌, ◌++◌, length, drop, take, option_map, IfOk, OnOk};
ghost use Rattle.std.specs.Int.{w32, from_le_bytes};
ghost use Rattle.key_index_store.specs.Checksum.{crc32};
ghost use Rattle.key_index_store.specs.Record.{Entry, Fits, encoded, has_head, is_summed, reading, size_of, sum_at, summed, part, key_length, value_place, record_length, key_in, value_in_record, entry_of, outcome_of, marked, Complete, IsFound, behind_head};

use crate::checksum::{crc32, crc32_of_both};
use std::alloc::{AllocError, Global};

/// How many bytes the head and its checksum take.
pub const HEAD: usize = 13;

/// How many bytes the mark and the two lengths take.
const FIELDS: usize = 9;

/// How many bytes a checksum takes.
const SUM: usize = 4;

/// A key with its value, or with none: then it marks the deletion of the key.
#[derive(Clone, Copy, Debug)]
pub struct Record<'a> {
    pub key: &'a [u8],
    pub value: Option<&'a [u8]>,
}

impl Record<'_> {
    /// How many bytes the record takes.
    pub fn length(&self) -> u64
        requires { Fits (entry_of self.now) }
        ensures { result ≡ size_of (entry_of self.now) }
    {
        let value_length = self.value.map_or(0, |value| value.len());
        (HEAD + 2 * SUM) as u64 + self.key.len() as u64 + value_length as u64
    }
}

/// What stands at the front of some bytes.
#[derive(Clone, Copy, Debug)]
pub enum Reading<'a> {
    /// A whole record.
    Complete(Record<'a>),
    /// Fewer bytes than a head takes, or than a good head says.
    Torn,
    /// As many bytes, which are no record's.
    Damaged,
}

pub(crate) fn u32_at(bytes: &[u8], place: usize) -> u32
    requires { place + 4 ≤ length bytes.now }
    ensures { result ≡ from_le_bytes w32 (take 4 (drop place bytes.now)) }
{
    let (_, rest) = bytes.split_at(place);
    let (front, _) = rest.split_at(4);
    u32::from_le_bytes([front[0], front[1], front[2], front[3]])
}

/// How many bytes the key takes whose record has these bytes at its front.
pub fn key_length(bytes: &[u8]) -> u64
    requires { 13 ≤ length bytes.now }
    ensures value { result ≡ key_length bytes.now }
    ensures bound { result < 2 ^ 32 }
{
    u32_at(bytes, 1) as u64
}

/// How many bytes the record takes that has these bytes at its front.
pub fn record_length(bytes: &[u8]) -> u64
    requires { 13 ≤ length bytes.now }
    ensures value { result ≡ record_length bytes.now }
    ensures bound { result < 2 ^ 34 }
{
    (HEAD + 2 * SUM) as u64 + u32_at(bytes, 1) as u64 + u32_at(bytes, 5) as u64
}

/// The first bytes, so many, if they have their checksum behind them.
pub(crate) fn part(bytes: &[u8], length: u64) -> Option<&[u8]>
    ensures { option_map (λ p. p.now) result ≡ part length bytes.now }
{
    if bytes.len() < SUM || ((bytes.len() - SUM) as u64) < length {
        return None;
    }
    let (part, rest) = bytes.split_at(length as usize);
    let (sum, _) = rest.split_at(SUM);
    if sum == crc32(part).to_le_bytes().as_slice() {
        Some(part)
    } else {
        None
    }
}

/// The checksum of a head's fields, of a record at a place.
fn sum_at(place: u64, fields: &[u8]) -> u32
    ensures { result ≡ sum_at place fields.now }
{
    crc32_of_both(fields, &place.to_le_bytes())
}

/// Whether a head with its checksum stands at the front of some bytes, which stand at a place.
pub fn has_head(bytes: &[u8], place: u64) -> bool
    ensures { result ≡ has_head place bytes.now }
{
    if bytes.len() < HEAD {
        return false;
    }
    let (fields, rest) = bytes.split_at(FIELDS);
    let (sum, _) = rest.split_at(SUM);
    sum == sum_at(place, fields).to_le_bytes().as_slice()
}

/// The key of the record at the front of some bytes, which stand at a place, if head and key have their checksums.
pub fn key_in(bytes: &[u8], place: u64) -> Option<&[u8]>
    ensures { option_map (λ k. k.now) result ≡ key_in place bytes.now }
{
    if !has_head(bytes, place) {
        return None;
    }
    let (_, rest) = bytes.split_at(HEAD);
    part(rest, key_length(bytes))
}

/// The value's bytes of the record at the front of some bytes, if they have their checksum.
pub fn value_in(bytes: &[u8]) -> Option<&[u8]>
    requires { record_length bytes.now ≤ length bytes.now }
    ensures { option_map (λ v. v.now) result ≡ value_in_record bytes.now }
{
    let place = HEAD as u64 + key_length(bytes) + SUM as u64;
    let (_, rest) = bytes.split_at(place as usize);
    part(rest, u32_at(bytes, 5) as u64)
}

/// The bytes of a record of a key and a value, or of the deletion of a key, at a place of a log.
pub fn encode(
    alloc: Global,
    place: u64,
    key: &[u8],
    value: Option<&[u8]>,
) -> Result<Vec<u8>, AllocError>
    requires { Fits (record { key = key.now; value = option_map (λ v. v.now) value }) }
    ensures { IfOk result (λ bytes.
        bytes.items ≡ encoded place (record { key = key.now; value = option_map (λ v. v.now) value.entry })) }
{
    let (mark, value) = match value {
        Some(value) => (1, value),
        None => (2, b"".as_slice()),
    };
    let mut bytes = Vec::with_capacity(alloc, HEAD + key.len() + value.len() + 2 * SUM)?;
    bytes.push(mark)?;
    bytes.extend_from_slice(&(key.len() as u32).to_le_bytes())?;
    bytes.extend_from_slice(&(value.len() as u32).to_le_bytes())?;
    let sum = sum_at(place, bytes.as_slice());
    bytes.extend_from_slice(&sum.to_le_bytes())?;
    push_summed(&mut bytes, key)?;
    push_summed(&mut bytes, value)?;
    Ok(bytes)
}

/// Appends bytes, and their checksum.
fn push_summed(bytes: &mut Vec<u8>, part: &[u8]) -> Result<(), AllocError>
    ensures { OnOk result (bytes.new.items ≡ bytes.old.items ++ summed crc32 part.now) }
{
    bytes.extend_from_slice(part)?;
    bytes.extend_from_slice(&crc32(part).to_le_bytes())
}

/// The record of a mark, a key and a value.
fn fields<'a>(mark: u8, key: &'a [u8], value: &'a [u8]) -> Reading<'a>
    ensures { (rest : List ℕ) → outcome_of result ≡ marked (mark ∷ rest) key.now value.now }
{
    let value = match mark {
        1 => Some(value),
        2 if value.is_empty() => None,
        _ => return Reading::Damaged,
    };
    Reading::Complete(Record { key, value })
}

/// What stands at the front of some bytes, which have a good head.
fn behind_head(bytes: &[u8]) -> Reading<'_>
    requires { 13 ≤ length bytes.now }
    ensures { outcome_of result ≡ behind_head bytes.now }
{
    if (bytes.len() as u64) < record_length(bytes) {
        return Reading::Torn;
    }
    let (_, rest) = bytes.split_at(HEAD);
    let (Some(key), Some(value)) = (part(rest, key_length(bytes)), value_in(bytes)) else {
        return Reading::Damaged;
    };
    fields(bytes[0], key, value)
}

/// What stands at the front of some bytes, which stand at a place.
fn front(bytes: &[u8], place: u64) -> Reading<'_>
    ensures { outcome_of result ≡ reading place bytes.now }
{
    if bytes.len() < HEAD {
        return Reading::Torn;
    }
    if !has_head(bytes, place) {
        return Reading::Damaged;
    }
    behind_head(bytes)
}

/// Reads the record at the front of some bytes, which stand at a place of a log. More may follow it.
pub fn decode(bytes: &[u8], place: u64) -> Reading<'_>
    // What is read was encoded at this place.
    ensures found { IsFound place bytes.now (outcome_of result) }
    // What was encoded there is read, whatever follows it.
    ensures only { (r : Entry) (rest : List ℕ) → Fits r → bytes.now ≡ encoded place r ++ rest
        → outcome_of result ≡ Complete r }
    // A torn record is told apart from a damaged one.
    ensures exact { outcome_of result ≡ reading place bytes.now }
{
    front(bytes, place)
}
