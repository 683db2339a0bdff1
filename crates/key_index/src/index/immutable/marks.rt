//! Lists of marks on an immutable index.

ghost use Rattle.std.specs.Prelude.{◌≡◌, ℕ, ◌≤◌, [], length, nat_le, None, IfOk, IfErr, OnErr, vec_capacity, if◌then◌else◌};
ghost use Rattle.key_index.specs.Immutable.{key_at};
ghost use Rattle.key_index.specs.Marks.{InsertionGives, MarkGives, AreMarked, start_after, keys_after};

use super::Index;
use key_index_flat::index::Fault;
use key_index_flat::translator::Translator;
use std::alloc::Global;

/// A change of an immutable index.
#[derive(Drop)]
pub enum Mark {
    /// Indexes a key at a position.
    Insert(Vec<u8>, u64),
    /// Removes every position below one.
    Prune(u64),
}

/// What a mark came to.
#[derive(Clone, Copy, Debug, PartialEq, Eq)]
pub enum Marked {
    /// It was accepted.
    Done,
    /// The position of an insertion was below the start, or indexed already, and nothing changed.
    Skipped,
    /// It was refused, and changed nothing.
    Refused(Fault),
}

/// Indexes a key at a position where one may be indexed.
pub(crate) fn insert_marked<T: Translator>(
    index: &mut Index<T>,
    key: &[u8],
    position: u64,
) -> Marked
    ensures { InsertionGives T.translated key.now position result index.old index.new }
{
    if position < index.start() || index.is_indexed(position) {
        return Marked::Skipped;
    }
    match index.insert(key, position) {
        Ok(()) => Marked::Done,
        Err(fault) => Marked::Refused(fault),
    }
}

/// Applies one mark.
fn apply_mark<T: Translator>(index: &mut Index<T>, mark: Mark) -> Marked
    ensures { MarkGives T.translated mark result index.old index.new }
{
    match mark {
        Mark::Insert(key, position) => insert_marked(index, key.as_slice(), position),
        Mark::Prune(start) => {
            index.prune(start);
            Marked::Done
        }
    }
}

/// Applies marks in turn, and puts the outcome of each where there is room for it.
fn apply_marks<T: Translator>(index: &mut Index<T>, marks: Vec<Mark>, outcomes: &mut Vec<Marked>)
    requires empty { outcomes.old.items ≡ [] }
    requires room { length marks.items ≤ vec_capacity outcomes.old }
    ensures { AreMarked T.translated marks.items outcomes.new.items index.old index.new }
{
    let mut rest = marks.into_iter();
    'marks: while let Some(mark) = rest.next() {
        let outcome = apply_mark(index, mark);
        let Ok(()) = outcomes.push(outcome) else {
            unreachable!()
        };
    }
}

/// Applies marks in order. The room for all outcomes is taken before the first mark, and its refusal is the only `Err`: then
/// nothing has changed. Else there is one outcome for each mark; the start is the greatest of the old one and those pruned
/// to, and the keys by position are the old ones and the accepted insertions at or above it.
pub fn run_marks<T: Translator>(
    alloc: Global,
    index: &mut Index<T>,
    marks: Vec<Mark>,
) -> Result<Vec<Marked>, Fault>
    ensures marked { IfOk result (λ outcomes. AreMarked T.translated
        marks.items outcomes.items index.old index.new) }
    ensures start { IfOk result (λ outcomes. index.new.start ≡ start_after index.old.start marks.items) }
    ensures keys { IfOk result (λ outcomes. (p : ℕ) → key_at index.new p ≡ (if nat_le index.new.start p then keys_after
        (T.translated index.old.translator) (key_at index.old) marks.items outcomes.items p else None)) }
    ensures refused { OnErr result (index.new ≡ index.old) }
    ensures fault { IfErr result (λ f. f ≡ Fault.Memory) }
{
    let Ok(mut outcomes) = Vec::with_capacity(alloc, marks.len()) else {
        return Err(Fault::Memory);
    };
    apply_marks(index, marks, &mut outcomes);
    Ok(outcomes)
}
