//! An archive: a log of records in segments of equal length, whose oldest segments are dropped.
ghost use Rattle.std.specs.Prelude.{◌≡◌, ℕ, ◌*◌, ◌^◌, ◌<◌, None, Some, false, List, map, slice_get, All, IfOk, IfSome, IsTrue, OnOk, OnErr};
ghost use Rattle.std.specs.List.{Contains};
ghost use Rattle.key_index.specs.Immutable.{end_of, key_at, ArePositions};
ghost use Rattle.key_index.specs.Marks.{IsInserted, IsPruned};
ghost use Rattle.key_index_uses.specs.Archive.{IsLogOf, has_record};
ghost use Rattle.key_index_uses.specs.Records.{is_record};

use crate::records::is_record;
use key_index::index::immutable::{Index, Positions};
use key_index_flat::index::Fault;
use key_index_flat::translator::Translator;
use std::alloc::Global;
use std::marker::Model;

/// How many records a segment has.
const SEGMENT: u64 = 4096;

/// The positions of records by their keys, which are numbered from 0 as they are appended. A shortened key may stand for
/// others too, so a reader compares the records that it finds.
#[derive(Drop)]
pub struct SegmentedLog<T: Translator> {
    index: Index<T>,
    next: u64,
}

impl<T: Translator> Model for SegmentedLog<T> {
    ghost use Rattle.std.specs.Prelude.{◌≡◌};
    ghost use Rattle.key_index.specs.Immutable.{Log, end_of};

    ghost Value = { Log T T.Key };

    ghost view = { λ s. s.index };

    ghost invariant = { λ s. s.next ≡ end_of s.index };
}

/// The first of some positions at which a log has a record with a key.
fn confirmed<T: Translator>(positions: Positions<'_, T>, log: &[&[u8]], key: &[u8]) -> Option<u64>
    ensures found { IfSome result (λ p. Contains positions.entry p
        × IsTrue (is_record (map (λ key. key.now) log.now) key.now p)) }
    ensures none { result ≡ None
        → All (λ p. is_record (map (λ key. key.now) log.now) key.now p ≡ false) positions.entry }
{
    for position in positions {
        if is_record(log, position, key) {
            return Some(position);
        }
    }
    None
}

impl<T: Translator> SegmentedLog<T> {
    /// A log without records, with room for those of one segment.
    pub fn new(alloc: Global, translator: T) -> Result<SegmentedLog<T>, Fault>
        ensures empty { IfOk result (λ s. (p : _) → key_at s p ≡ None) }
        ensures end { IfOk result (λ s. end_of s ≡ 0) }
        ensures translator { IfOk result (λ s. s.translator ≡ translator) }
        ensures filed { IfOk result (λ s. (log : List (List ℕ)) → IsLogOf T.translated s log) }
    {
        let index = Index::new(alloc, translator, 0, SEGMENT as usize)?;
        Ok(SegmentedLog { index, next: 0 })
    }

    /// Appends a record with a key, and tells its position. A refusal changes nothing.
    pub fn append(&mut self, key: &[u8]) -> Result<u64, Fault>
        ensures position { IfOk result (λ p. p ≡ end_of self.old) }
        ensures appended { IfOk result (λ p. IsInserted p (T.translated self.old.translator key.now)
            self.old self.new) }
        ensures filed { (log : List (List ℕ)) → IsLogOf T.translated self.old log
            → slice_get log (end_of self.old) ≡ Some key.now → OnOk result (IsLogOf T.translated self.new log) }
        ensures refused { OnErr result (self.new ≡ self.old) }
    {
        let Some(next) = self.next.checked_add(1) else {
            return Err(Fault::TooFar);
        };
        let position = self.next;
        self.index.insert(key, position)?;
        self.next = next;
        Ok(position)
    }

    /// Drops all segments in front of one: no record of theirs is found any more, and every other as before. Takes no memory.
    pub fn drop_front(&mut self, segment: u64)
        requires { segment * 4096 < 2 ^ 64 }
        ensures pruned { IsPruned (segment * 4096) self.old self.new }
        ensures filed { (log : List (List ℕ)) → IsLogOf T.translated self.old log → IsLogOf T.translated self.new log }
    {
        let start = segment * SEGMENT;
        self.index.prune(start);
        self.next = self.next.max(start);
    }

    /// The positions of the records whose keys are shortened to that of a key, each once, in no order.
    pub fn records(&self, key: &[u8]) -> Positions<'_, T>
        ensures { ArePositions self.now (T.translated self.now.translator key.now) result }
    {
        self.index.get(key)
    }

    /// The position of a record that has a key, of those whose segments were not dropped. The index tells which may have it, and the log,
    /// which has the records' keys by position, which one does. `None` where no such record has it.
    pub fn find(&self, log: &[&[u8]], key: &[u8]) -> Option<u64>
        ensures found { IfSome result (λ p. IsTrue (has_record self.now (map (λ key. key.now) log.now) key.now p)) }
        ensures none { IsLogOf T.translated self.now (map (λ key. key.now) log.now)
            → result ≡ None → (p : ℕ) → has_record self.now (map (λ key. key.now) log.now) key.now p ≡ false }
    {
        confirmed(self.index.get(key), log, key)
    }
}
