//! The calls on a file, which only clauses read.
ghost use Rattle.std.specs.Prelude.{◌≡◌, List, ℕ, [], ◌∷◌};
ghost use Rattle.std.specs.Borrow.{ftrue};
ghost use Rattle.key_index_store.specs.History.{Noted};
ghost use Rattle.key_index_store.specs.Names.{noted};

use crate::folder::NameCall;
use std::marker::Model;

/// A call that succeeded. Its bytes, where it has some, stand beside it.
#[derive(Clone, Copy)]
pub(crate) enum Call {
    /// The file said that it has so many bytes.
    Told(u64),
    /// It gave these bytes from a position on.
    Gave(u64),
    /// It gave these bytes from the front of the record on that stands at a place of the log that begins at a position.
    GaveRecord(u64, u64),
    /// It took these bytes at a position.
    Took(u64),
    /// It took this for its length.
    Cut(u64),
    /// It said that the disk has its bytes.
    Synced,
    /// A call on a folder, at the name that stands beside it.
    Name(NameCall),
}

/// What a file held at first, and the calls so far, the newest first.
#[derive(Drop)]
pub(crate) struct History {
    pub(crate) ghost first: { List ℕ },
    pub(crate) ghost calls: { List Noted },
}

impl Model for History {
    ghost also_owns = { λ _. ftrue };
}

impl History {
    /// No calls. Of what the file holds nothing is known.
    pub(crate) fn new() -> History
        ensures { result.calls ≡ [] }
    {
        History {}
    }

    /// One more call.
    pub(crate) fn and(&self, _call: &Call, _bytes: &[u8]) -> History
        ensures { result ≡ record self.now { calls = (_call.now, _bytes.now) ∷ self.now.calls } }
    {
        History {}
    }
}

/// One more call at a name.
pub(crate) fn noted(history: &History, call: NameCall, name: &str) -> History
    ensures { result.calls ≡ noted call name.now history.now.calls }
{
    history.and(&Call::Name(call), name.as_bytes())
}
