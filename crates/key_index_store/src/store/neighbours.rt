//! Neighbours of a key among those that have a value.
ghost use Rattle.std.specs.Prelude.{◌≡◌, ◌⊎◌, ◌≤◌, ◌<◌, ◌+◌, ◌∷◌, ◌++◌, [], ℕ, if◌then◌else◌, length, map, take, true, false, All, IfOk, IfErr, IfSome, MatchOption, OnOk};
ghost use Rattle.std.specs.FinMap.{entries};
ghost use Rattle.std.specs.Option.{option_map};
ghost use Rattle.std.specs.Ordering.{is_le, is_lt};
ghost use Rattle.key_index_flat.specs.FullKeys.{byte_cmp};
ghost use Rattle.key_index_flat.specs.Neighbours.{first_entry, last_entry};
ghost use Rattle.key_index_flat.specs.Values.{values_of};
ghost use Rattle.key_index_flat.specs.View.{run_at, run_of};
ghost use Rattle.key_index_store.specs.Damage.{MayMiss, MayMissAt, Passes};
ghost use Rattle.key_index_store.specs.Device.{IsRead, Sees};
ghost use Rattle.key_index_store.specs.Indexed.{IsIn, IsLive, entry_at};
ghost use Rattle.key_index_store.specs.Positions.{first_from, last_before, positions_from};
ghost use Rattle.key_index_store.specs.Stored.{MayRead, entry_after, entry_before, gap_in, held_by, in_bytes, without_tail};

use super::find::InList;
use super::log::Log;
use super::{Fault, Store};
use crate::device::Device;
use key_index_flat::index::{OrderedLists, Values};
use std::alloc::AllocError;
use std::cmp::Ordering;

/// The neighbours between which a key without a value lies, each with its value: none in front of the first key, none behind the last.
#[derive(Drop)]
pub struct Gap {
    pub before: Option<(Vec<u8>, Vec<u8>)>,
    pub after: Option<(Vec<u8>, Vec<u8>)>,
}

/// A record that doesn't read.
#[derive(Clone, Copy, Debug, PartialEq, Eq)]
pub struct Unreadable {
    /// Where it stands in the log.
    pub place: u64,
    /// How many bytes it takes, or 0 where its head doesn't read either.
    pub length: u64,
}

/// An entry, and which records in front of it don't read.
#[derive(Drop)]
pub struct Passed {
    pub entry: Option<(Vec<u8>, Vec<u8>)>,
    pub passed: Vec<Unreadable>,
}

/// A position, and where it stands in its index.
#[derive(Drop)]
struct Standing<K: Copy> {
    slot: K,
    place: usize,
    position: u64,
}

/// The position at a place of an index key's list, or else the first one of the next list.
fn position_from<I: OrderedLists<Value = u64>>(
    index: &I,
    slot: I::Key,
    place: usize,
) -> Option<Standing<I::Key>>
    ensures found { MatchOption result (positions_from I.Key.cmp (I.view index.now) slot place ≡ []) (λ f.
        positions_from I.Key.cmp (I.view index.now) slot place
        ≡ f.position ∷ positions_from I.Key.cmp (I.view index.now) f.slot (f.place + 1)) }
    ensures bound { IfSome result (λ f. f.place < usize.MAX) }
{
    if place < index.run_len(slot) {
        let position = *index.value_at(slot, place);
        return Some(Standing {
            slot,
            place,
            position,
        });
    }
    let (slot, mut values) = index.entry_above(slot)?;
    let position = *values.next()?;
    Some(Standing {
        slot,
        place: 0,
        position,
    })
}

/// The place behind a key's own, if it is held, in the list of its index key.
fn place_behind<I: OrderedLists<Value = u64>>(
    index: &I,
    slot: I::Key,
    place: usize,
    is_held: bool,
) -> usize
    requires { IsIn (run_at I.Key.cmp (I.view index.now) slot) place is_held }
    ensures { result ≡ place + (if is_held then 1 else 0) }
{
    // A key that is held stands within its list.
    if is_held && place < index.run_len(slot) {
        place + 1
    } else {
        place
    }
}

/// The first position behind a key whose place in its list is known.
fn position_above<I: OrderedLists<Value = u64>>(index: &I, key: &[u8], place: InList) -> Option<u64>
    requires { IsIn (run_of I.Key.cmp (I.view index.now) key.now) place.place place.is_held }
    ensures { let s = I.view index.now in
        result ≡ first_from I.Key.cmp s (s.slot key.now) (place.place + (if place.is_held then 1 else 0)) }
{
    let slot = index.slot_of(key);
    let behind = place_behind(index, slot, place.place, place.is_held);
    match position_from(index, slot, behind) {
        Some(found) => Some(found.position),
        None => None,
    }
}

/// The last of some positions.
fn last_of(values: Values<'_, u64>) -> Option<u64>
    ensures { result ≡ last_entry values.entry }
{
    let mut last = None;
    for position in values {
        last = Some(*position);
    }
    last
}

/// The last position in front of a place in a key's list.
fn position_below<I: OrderedLists<Value = u64>>(index: &I, key: &[u8], place: usize) -> Option<u64>
    requires { place ≤ length (run_of I.Key.cmp (I.view index.now) key.now) }
    ensures { let s = I.view index.now in result ≡ last_before I.Key.cmp s (s.slot key.now) place }
{
    if place != 0 {
        return Some(*index.value_at(index.slot_of(key), place - 1));
    }
    match index.prev_translated_key(key) {
        Some((values, is_cycled)) => if is_cycled { None } else { last_of(values) },
        None => None,
    }
}

/// The first position of all.
fn first_position<I: OrderedLists<Value = u64>>(index: &I) -> Option<u64>
    ensures { result ≡ first_entry (values_of (I.view index.now).content) }
{
    match index.first_translated_key() {
        Some(mut values) => values.next().copied(),
        None => None,
    }
}

/// The last position of all.
fn last_position<I: OrderedLists<Value = u64>>(index: &I) -> Option<u64>
    ensures { result ≡ last_entry (values_of (I.view index.now).content) }
{
    match index.last_translated_key() {
        Some(values) => last_of(values),
        None => None,
    }
}

/// Puts the record at a position behind those that don't read.
fn pass<D: Device>(
    log: &mut Log<D>,
    passed: &mut Vec<Unreadable>,
    position: u64,
) -> Result<(), Fault>
    ensures passed { OnOk result ((n : ℕ) × (passed.new.items ≡ passed.old.items
        ++ record { place = position; length = n } ∷ [])) }
    ensures read { IsRead D.seen D.damaged D.may_leave log.old.device log.new.device }
    ensures end { log.new.end ≡ log.old.end }
    ensures fault { IfErr result MayRead }
{
    let length = log.length_at(position)?;
    let record = Unreadable {
        place: position,
        length,
    };
    match passed.push(record) {
        Ok(()) => Ok(()),
        Err(failed) => Err(AllocError::from(failed).into()),
    }
}

/// Whether a key is above another one, or the same where that is wanted.
fn is_beyond(key: &[u8], other: &[u8], is_above: bool) -> bool
    ensures { let side = byte_cmp other.now key.now in result ≡ (if is_above then is_lt side else is_le side) }
{
    match other.cmp(key) {
        Ordering::Less => true,
        Ordering::Equal => !is_above,
        Ordering::Greater => false,
    }
}

/// The first entry beyond a key that reads, from a place of an index key's list on, and which records in front of it don't.
fn readable_from<D: Device, I: OrderedLists<Value = u64>>(
    log: &mut Log<D>,
    index: &I,
    slot: I::Key,
    place: usize,
    key: &[u8],
    is_above: bool,
) -> Result<Passed, Fault>
    ensures entry { Sees (D.seen log.new.device) (λ bytes. let front = take log.old.end bytes in
        let places = positions_from I.Key.cmp (I.view index.now) slot place in log.old.end ≤ length bytes
        → All (IsLive front) places → IfOk result (Passes (entry_at front) is_above key.now (map (entry_at front) places))) }
    ensures damaged { Sees (D.seen log.new.device) (λ bytes. log.old.end ≤ length bytes
        → All (IsLive (take log.old.end bytes)) (positions_from I.Key.cmp (I.view index.now) slot place)
        → IfOk result (λ p. All (λ u. D.damaged log.new.device u.place) p.passed.items)) }
    ensures read { IsRead D.seen D.damaged D.may_leave log.old.device log.new.device }
    ensures end { log.new.end ≡ log.old.end }
    ensures fault { IfErr result MayRead }
{
    let mut passed = Vec::new(log.alloc);
    let (mut slot, mut place) = (slot, place);
    while let Some(found) = position_from(index, slot, place) {
        match log.entry(Some(found.position)) {
            Ok(Some(entry)) => {
                if is_beyond(entry.0.as_slice(), key, is_above) {
                    return Ok(Passed {
                        entry: Some(entry),
                        passed,
                    });
                }
            }
            Ok(None) => {}
            Err(fault) => {
                if fault != Fault::Damaged {
                    return Err(fault);
                }
                pass(log, &mut passed, found.position)?;
            }
        }
        (slot, place) = (found.slot, found.place + 1);
    }
    Ok(Passed {
        entry: None,
        passed,
    })
}

impl<D: Device, I: OrderedLists<Value = u64>> Store<D, I> {
    /// The least key strictly above one, of those that have a value, with its value. `None` where none is above: it doesn't go round.
    pub fn next(&mut self, key: &[u8]) -> Result<Option<(Vec<u8>, Vec<u8>)>, Fault>
        ensures next { Sees (D.seen self.new) (λ log. IfOk result (λ o.
            in_bytes o ≡ entry_after (held_by log) key.now)) }
        ensures read { IsRead D.seen D.damaged D.may_leave self.old self.new }
        ensures fault { Sees (D.seen self.new) (λ log. IfErr result (λ f. MayMiss (D.damaged self.new) log key.now f
            ⊎ MayMissAt (D.damaged self.new) log (entry_after (held_by log) key.now) f)) }
    {
        let place = self.log.find_place(&self.index, key)?;
        self.log.entry(position_above(&self.index, key, place))
    }

    /// The greatest key strictly below one, of those that have a value, with its value. `None` where none is below: it doesn't go
    /// round.
    pub fn prev(&mut self, key: &[u8]) -> Result<Option<(Vec<u8>, Vec<u8>)>, Fault>
        ensures prev { Sees (D.seen self.new) (λ log. IfOk result (λ o.
            in_bytes o ≡ entry_before (held_by log) key.now)) }
        ensures read { IsRead D.seen D.damaged D.may_leave self.old self.new }
        ensures fault { Sees (D.seen self.new) (λ log. IfErr result (λ f. MayMiss (D.damaged self.new) log key.now f
            ⊎ MayMissAt (D.damaged self.new) log (entry_before (held_by log) key.now) f)) }
    {
        let place = self.log.find_place(&self.index, key)?;
        self.log
            .entry(position_below(&self.index, key, place.place))
    }

    /// The neighbours between which a key without a value lies. `None` where it has one.
    pub fn absent(&mut self, key: &[u8]) -> Result<Option<Gap>, Fault>
        ensures absent { Sees (D.seen self.new) (λ log. IfOk result (λ o.
            option_map (λ gap. (in_bytes gap.before, in_bytes gap.after)) o ≡ gap_in (held_by log) key.now)) }
        ensures read { IsRead D.seen D.damaged D.may_leave self.old self.new }
        ensures fault { Sees (D.seen self.new) (λ log. IfErr result (λ f. MayMiss (D.damaged self.new) log key.now f
            ⊎ MayMissAt (D.damaged self.new) log (entry_before (held_by log) key.now) f
            ⊎ MayMissAt (D.damaged self.new) log (entry_after (held_by log) key.now) f)) }
    {
        let place = self.log.find_place(&self.index, key)?;
        if place.is_held {
            return Ok(None);
        }
        let below = position_below(&self.index, key, place.place);
        let above = position_above(&self.index, key, place);
        let before = self.log.entry(below)?;
        let after = self.log.entry(above)?;
        Ok(Some(Gap { before, after }))
    }

    /// The least key that has a value, with its value.
    pub fn first(&mut self) -> Result<Option<(Vec<u8>, Vec<u8>)>, Fault>
        ensures first { Sees (D.seen self.new) (λ log. IfOk result (λ o.
            in_bytes o ≡ first_entry (entries (held_by log)))) }
        ensures read { IsRead D.seen D.damaged D.may_leave self.old self.new }
        ensures fault { Sees (D.seen self.new) (λ log. IfErr result (MayMissAt (D.damaged self.new) log
            (first_entry (entries (held_by log))))) }
    {
        self.log.entry(first_position(&self.index))
    }

    /// The greatest key that has a value, with its value.
    pub fn last(&mut self) -> Result<Option<(Vec<u8>, Vec<u8>)>, Fault>
        ensures last { Sees (D.seen self.new) (λ log. IfOk result (λ o.
            in_bytes o ≡ last_entry (entries (held_by log)))) }
        ensures read { IsRead D.seen D.damaged D.may_leave self.old self.new }
        ensures fault { Sees (D.seen self.new) (λ log. IfErr result (MayMissAt (D.damaged self.new) log
            (last_entry (entries (held_by log))))) }
    {
        self.log.entry(last_position(&self.index))
    }

    /// The least key that is at least this one, of those that have a value and read, with its value, and which records may have had a
    /// nearer one: those that don't read.
    pub fn readable_at_least(&mut self, key: &[u8]) -> Result<Passed, Fault>
        ensures entry { Sees (D.seen self.new) (λ log. IfOk result (Passes
            (entry_at (without_tail log)) false key.now (entries (held_by log)))) }
        ensures damaged { Sees (D.seen self.new) (λ log. IfOk result (λ p.
            All (λ u. D.damaged self.new u.place) p.passed.items)) }
        ensures read { IsRead D.seen D.damaged D.may_leave self.old self.new }
        ensures fault { IfErr result MayRead }
    {
        let found = self.log.find(&self.index, key)?;
        let slot = self.index.slot_of(key);
        readable_from(&mut self.log, &self.index, slot, found.place, key, false)
    }

    /// The same, of the keys strictly above this one.
    pub fn readable_above(&mut self, key: &[u8]) -> Result<Passed, Fault>
        ensures entry { Sees (D.seen self.new) (λ log. IfOk result (Passes
            (entry_at (without_tail log)) true key.now (entries (held_by log)))) }
        ensures damaged { Sees (D.seen self.new) (λ log. IfOk result (λ p.
            All (λ u. D.damaged self.new u.place) p.passed.items)) }
        ensures read { IsRead D.seen D.damaged D.may_leave self.old self.new }
        ensures fault { IfErr result MayRead }
    {
        let found = self.log.find(&self.index, key)?;
        let slot = self.index.slot_of(key);
        let behind = place_behind(&self.index, slot, found.place, found.read.is_some());
        readable_from(&mut self.log, &self.index, slot, behind, key, true)
    }
}
