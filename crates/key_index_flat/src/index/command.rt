//! Lists of commands, and their run over any index.
use super::Fault;

/// One step of an edit: a call of the key's cursor.
#[derive(Debug, PartialEq, Eq, Drop)]
pub enum Step<V> {
    Next,
    Insert(V),
    Update(V),
    Delete,
}

/// A call by key, with what it takes.
#[derive(Drop)]
pub enum Command<V, F> {
    Insert(Vec<u8>, V),
    InsertAndRetain(Vec<u8>, V, F),
    Retain(Vec<u8>, F),
    Remove(Vec<u8>),
    GetOrInsert(Vec<u8>, V),
    Edit(Vec<u8>, Vec<Step<V>>),
}

/// What a command came to.
#[derive(Debug, PartialEq, Eq, Drop)]
pub enum Outcome {
    /// It was accepted.
    Done,
    /// It was refused, and changed no content. Its value was dropped.
    Refused(Fault),
    /// Of each step of an edit, whether it was accepted: false of every step where the key has no value, of a step that the
    /// cursor's state does not allow, and of an `Insert` that was refused.
    Edited(Vec<bool>),
}
