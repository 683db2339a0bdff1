//! What a call answers.
ghost use Rattle.std.specs.Prelude.{◌≡◌};
ghost use Rattle.key_index_c.specs.Status.{status_of};

use key_index_flat::index::Fault;

/// The call was made.
pub const OK: u32 = 0;
/// An allocation failed.
pub const MEMORY: u32 = 1;
/// The index holds `usize::MAX` values.
pub const FULL: u32 = 2;
/// A position is `usize::MAX` or more past the start.
pub const TOO_FAR: u32 = 3;
/// An argument is none that the call takes.
pub const BAD_ARGUMENT: u32 = 4;

/// There are other readers.
pub const SHARED: u32 = 5;

/// The status that tells a fault.
pub(crate) fn of(fault: Fault) -> u32
    ensures { result ≡ status_of fault }
{
    match fault {
        Fault::Memory => MEMORY,
        Fault::Full => FULL,
        Fault::TooFar => TOO_FAR,
    }
}
