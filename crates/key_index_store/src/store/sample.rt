//! Which front tells the keys of a log apart.
ghost use Rattle.std.specs.Prelude.{◌≡◌, ◌<◌, ◌≤◌, length, IfErr};
ghost use Rattle.key_index_store.specs.Device.{IsRead};
ghost use Rattle.key_index_store.specs.Stored.{MayRead};

use super::Fault;
use super::find::{length_of, read_bytes};
use crate::device::Device;
use crate::record::{has_head, key_in, record_length};
use crate::translator::BehindFront;
use key_index_flat::translator::Translator;
use std::alloc::{AllocError, Global};

/// In how many places a log is read.
const PLACES: u64 = 16;

/// How many bytes are read in each.
const BLOCK: u64 = 4096;

/// Some bytes of a log, and where they stand.
#[derive(Drop)]
struct Block {
    place: u64,
    bytes: Vec<u8>,
}

/// A few bytes of a log, from all over it, and none of a short one.
fn sample<D: Device>(alloc: Global, device: &mut D) -> Result<Vec<Block>, Fault>
    ensures read { IsRead D.seen D.damaged D.may_leave device.old device.new }
    ensures fault { IfErr result MayRead }
{
    let len = length_of(device)?;
    let mut blocks = Vec::new(alloc);
    if len < PLACES * BLOCK {
        return Ok(blocks);
    }
    let stride = len / PLACES;
    let mut place = 0;
    while place < len {
        let bytes = read_bytes(alloc, device, place, (len - place).min(BLOCK))?;
        if blocks.push(Block { place, bytes }).is_err() {
            return Err(Fault::Memory);
        }
        place = place.saturating_add(stride);
    }
    Ok(blocks)
}

/// Adds the keys whose records begin in some bytes, without the first ones of each.
fn add_keys<'a>(
    keys: &mut Vec<&'a [u8]>,
    block: &'a Block,
    skipped: usize,
) -> Result<(), AllocError> {
    let mut rest = block.bytes.as_slice();
    let mut place = block.place;
    while !rest.is_empty() {
        let mut step = 1;
        if has_head(rest, place) {
            step = record_length(rest);
            if let Some(key) = key_in(rest, place) {
                keys.push(&key[skipped.min(key.len())..])?;
            }
        }
        let (_, behind) = rest.split_at((step as usize).min(rest.len()));
        rest = behind;
        place = place.saturating_add(step);
    }
    Ok(())
}

/// The bytes with which two keys begin.
fn shared<'a>(left: &'a [u8], right: &[u8]) -> &'a [u8] {
    for (count, byte) in left.iter().enumerate() {
        if right.get(count) != Some(byte) {
            return &left[..count];
        }
    }
    left
}

/// The most bytes with which so many of some keys begin, that stand in order.
fn most_shared<'a>(keys: &[&'a [u8]], count: usize) -> &'a [u8]
    requires { 0 < count }
{
    let mut front: &[u8] = b"";
    for row in keys.windows(count) {
        if let [first, .., last] = row {
            let other = shared(first, last);
            if other.len() > front.len() {
                front = other;
            }
        }
    }
    front
}

/// How many of some keys, that stand in order, have the translated key of the one before.
fn alike(translator: BehindFront, keys: &[&[u8]]) -> usize {
    let mut count: usize = 0;
    for pair in keys.windows(2) {
        if let [left, right] = pair
            && left != right
            && translator.transform(left) == translator.transform(right)
        {
            count = count.saturating_add(1);
        }
    }
    count
}

/// A translator that tells the keys of a log apart better than another one, if a few of them, from all over the log, show one: behind
/// the bytes with which all of these begin, or seven of eight, or half. Of a key, an index in partitions of so many bytes has the first
/// ones `skipped`.
pub fn refit<D: Device>(
    alloc: Global,
    device: &mut D,
    translator: BehindFront,
    skipped: usize,
) -> Result<Option<BehindFront>, Fault>
    ensures read { IsRead D.seen D.damaged D.may_leave device.old device.new }
    ensures fault { IfErr result MayRead }
{
    let blocks = sample(alloc, device)?;
    let mut keys: Vec<&[u8]> = Vec::new(alloc);
    for block in &blocks {
        add_keys(&mut keys, block, skipped)?;
    }
    keys.sort_unstable();
    let (count, mut fewest) = (keys.len(), alike(translator, keys.as_slice()));
    let mut better = None;
    for most in [count, count - count / 8, count / 2 + 1] {
        if most == 0 {
            continue;
        }
        let other = BehindFront::new(most_shared(keys.as_slice(), most));
        let others = alike(other, keys.as_slice());
        if others < fewest / 2 {
            fewest = others;
            better = Some(other);
        }
    }
    Ok(better)
}
