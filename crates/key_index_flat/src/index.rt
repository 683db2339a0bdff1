//! Indices: maps from translated keys to lists of values, and what they have in common.
ghost use Rattle.std.specs.Prelude.{◌≡◌, Some};

use std::alloc::{AllocError, AllocFailed};
use std::fmt;

mod apply;
mod batch;
mod command;
pub mod implement;
mod index_cursor;
pub mod ordered;
mod places;
mod records;
mod resolve;
mod retain;
mod show;
mod storage;
mod traits;
pub mod unordered;
mod values;
mod walk;

pub use apply::run;
pub use command::{Command, Outcome, Step};
pub use index_cursor::IndexCursor;
pub use places::{Compare, Found, find_place};
pub use records::{
    Records, absent, find_record, first_record, last_record, next_record, prev_record,
};
pub use resolve::{Keyed, OwnKeys, resolve_next, resolve_prev};
pub use traits::cursor::{Cursor, CursorState};
pub use traits::ordered::Ordered;
pub use traits::runs::Runs;
pub use traits::search::Search;
pub use traits::unordered::{Factory, Unordered};
pub use values::Values;
pub use walk::{OrderedLists, Walk, lists, lists_from};

/// Why a call was refused. A refused call changes no content, nor `keys`, `items` and `pruned`.
#[derive(Debug, Clone, Copy, PartialEq, Eq)]
pub enum Fault {
    /// A growth found no memory.
    Memory,
    /// The index holds `usize::MAX` values.
    Full,
    /// A position is `usize::MAX` or more past the start.
    TooFar,
}

impl fmt::Display for Fault {
    ghost use Rattle.key_index_flat.specs.Fault.{fault_text};

    ghost output = { λ fault. Some (fault_text fault) };

    fn fmt<W: fmt::Write>(&self, f: &mut fmt::Formatter<W>) -> fmt::Result {
        match self {
            Fault::Memory => write!(f, "refused memory"),
            Fault::Full => write!(f, "refused full"),
            Fault::TooFar => write!(f, "refused far"),
        }
    }
}

impl std::error::Error for Fault {}

/// A growth that found no memory.
impl From<AllocError> for Fault {
    ghost use Rattle.key_index_flat.specs.declared.index.Fault.TheVariants.{Memory};

    ghost from_gives = { λ _ fault. fault ≡ Memory };

    fn from(_failed: AllocError) -> Fault {
        Fault::Memory
    }
}

/// A growth that found no memory for a value, which is dropped.
impl<V: Drop> From<AllocFailed<V>> for Fault {
    ghost use Rattle.key_index_flat.specs.declared.index.Fault.TheVariants.{Memory};

    ghost from_gives = { λ _ fault. fault ≡ Memory };

    fn from(_failed: AllocFailed<V>) -> Fault {
        Fault::Memory
    }
}

/// A refusal that hands back the value that it was called with.
#[derive(Debug, Drop)]
pub struct Refused<V> {
    pub value: V,
    pub fault: Fault,
}

impl<V> Refused<V> {
    /// A refusal by a full index.
    pub fn full(value: V) -> Refused<V>
        ensures value { result.value ≡ value }
        ensures fault { result.fault ≡ Fault.Full }
    {
        let fault = Fault::Full;
        Refused { value, fault }
    }

    /// A refusal because an allocation failed.
    pub fn memory(value: V) -> Refused<V>
        ensures value { result.value ≡ value }
        ensures fault { result.fault ≡ Fault.Memory }
    {
        let fault = Fault::Memory;
        Refused { value, fault }
    }
}

/// Why it was refused. The value is dropped.
impl<V: Drop> From<Refused<V>> for Fault {
    ghost from_gives = { λ refused fault. fault ≡ refused.fault };

    fn from(refused: Refused<V>) -> Fault {
        refused.fault
    }
}
