//! The immutable index: keys by position.
ghost use Rattle.std.specs.Prelude.{◌≡◌, ◌≢◌, ◌↔◌, ◌≤◌, length, IfErr, IfOk, IsSome, IsTrue};
ghost use Rattle.key_index_c.specs.Any.{HasPositions, IsNewImmutable, any_positions, kind_of};
ghost use Rattle.key_index_c.specs.Buffer.{filled};
ghost use Rattle.key_index_c.specs.Positions.{AreCounts, IsInserted, IsPruned, Refuses, ShowsPositions, by_position};
ghost use Rattle.key_index_c.specs.Status.{immutable_refusal};

use crate::Any;
use crate::status::{self, BAD_ARGUMENT, MEMORY, OK};
use key_index::index::immutable::{Index, Positions};
use key_index_flat::translator::{EightCap, Hashed, Translator};
use std::alloc::Global;

/// The kind of an immutable index.
pub const IMMUTABLE: u32 = 7;
/// The kind of an immutable index over hashes by a seed.
pub const IMMUTABLE_SEEDED: u32 = 8;

/// What an immutable index counts.
#[repr(C)]
#[derive(Drop)]
pub struct PositionCounts {
    /// How many positions are indexed.
    pub items: usize,
    /// Positions below this were pruned, or never indexed.
    pub start: u64,
    /// How many positions were ever pruned. The count stops at `u64::MAX`.
    pub pruned: u64,
}

// A call that is the same for an immutable index of each kind.
macro_rules! each {
    ($any:expr, $index:ident => $call:expr) => {
        match $any {
            Any::Immutable($index) => $call,
            Any::ImmutableSeeded($index) => $call,
            _ => unreachable!(),
        }
    };
}

impl Any {
    /// An immutable index of a kind, with no positions, from a start on, with room for so many insertions in order. Only a seeded one
    /// takes the seed.
    pub(crate) fn new_immutable(
        alloc: Global,
        kind: u32,
        seed: u64,
        start: u64,
        capacity: usize,
    ) -> Result<Any, u32>
        ensures made { IfOk result (λ any. IsNewImmutable kind seed start (kind_of any) (any_positions any)) }
        ensures fault { IfErr result (λ status. status ≡ immutable_refusal kind) }
    {
        match kind {
            IMMUTABLE => made!(Any::Immutable, Index::new(alloc, EightCap, start, capacity)),
            IMMUTABLE_SEEDED => {
                let hashed = Hashed::from_seed(seed, EightCap);
                made!(
                    Any::ImmutableSeeded,
                    Index::new(alloc, hashed, start, capacity)
                )
            }
            _ => Err(BAD_ARGUMENT),
        }
    }

    /// Indexes a key at a position, and tells the status.
    pub(crate) fn insert_at(&mut self, key: &[u8], position: u64) -> u32
        requires immutable { HasPositions (kind_of self.old) }
        ensures kind { kind_of self.new ≡ kind_of self.old }
        ensures inserted { result ≡ OK → IsInserted (any_positions self.old) key.now position (any_positions self.new) }
        ensures refused { result ≢ OK → any_positions self.new ≡ any_positions self.old }
        ensures status { Refuses (any_positions self.old) position result }
    {
        each!(self, index => insert(index, key, position))
    }

    /// Writes the positions of a key to a buffer, as many as it has room for, and tells how many the key has.
    pub(crate) fn positions(&self, key: &[u8], buffer: &mut [u64]) -> usize
        requires { HasPositions (kind_of self.now) }
        ensures { ShowsPositions (any_positions self.now) key.now result buffer.old buffer.new }
    {
        each!(self, index => positions(index, key, buffer))
    }

    /// Whether a key is indexed at a position.
    pub(crate) fn is_indexed(&self, position: u64) -> bool
        requires { HasPositions (kind_of self.now) }
        ensures { IsTrue result ↔ IsSome ((any_positions self.now).keys position) }
    {
        each!(self, index => index.is_indexed(position))
    }

    /// Removes every position below one, which is the start from then on, if it isn't below the start.
    pub(crate) fn prune(&mut self, start: u64)
        requires immutable { HasPositions (kind_of self.old) }
        ensures kind { kind_of self.new ≡ kind_of self.old }
        ensures pruned { IsPruned (any_positions self.old) start (any_positions self.new) }
    {
        each!(self, index => index.prune(start))
    }

    /// How many positions are indexed, where it starts, and how many were ever pruned.
    pub(crate) fn position_counts(&self) -> PositionCounts
        requires { HasPositions (kind_of self.now) }
        ensures { AreCounts (any_positions self.now) result }
    {
        each!(self, index => PositionCounts {
            items: index.len(),
            start: index.start(),
            pruned: index.pruned(),
        })
    }
}

/// Indexes a key at a position, and tells the status.
fn insert<T: Translator>(index: &mut Index<T>, key: &[u8], position: u64) -> u32
    ensures inserted { result ≡ OK → IsInserted (by_position T.translated index.old) key.now position
        (by_position T.translated index.new) }
    ensures refused { result ≢ OK → index.new ≡ index.old }
    ensures status { Refuses (by_position T.translated index.old) position result }
{
    if position < index.start() || index.is_indexed(position) {
        return BAD_ARGUMENT;
    }
    match index.insert(key, position) {
        Ok(()) => OK,
        Err(fault) => status::of(fault),
    }
}

/// Writes the positions of a key to a buffer, as many as it has room for, and tells how many the key has.
fn positions<T: Translator>(index: &Index<T>, key: &[u8], buffer: &mut [u64]) -> usize
    ensures { ShowsPositions (by_position T.translated index.now) key.now result buffer.old buffer.new }
{
    copy(index.get(key), index.len(), buffer)
}

/// Writes positions, at most so many, to a buffer, as many as it has room for, and tells how many there are.
fn copy<T: Translator>(mut positions: Positions<'_, T>, most: usize, buffer: &mut [u64]) -> usize
    requires { length positions ≤ most }
    ensures count { result ≡ length positions.entry }
    ensures values { buffer.new ≡ filled positions.entry buffer.old }
{
    let mut count = 0;
    while count < most {
        let Some(position) = positions.next() else {
            break;
        };
        if count < buffer.len() {
            buffer[count] = position;
        }
        count += 1;
    }
    count
}
