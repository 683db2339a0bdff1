//! Why the program ends early, and with which status.

ghost use Rattle.std.specs.Prelude.{◌≡◌};
ghost use Rattle.key_index.specs.Program.{status_of};

use thiserror::Error;

/// Why the program ends before its input does. The text is what it prints on standard error.
#[derive(Clone, Copy, Debug, PartialEq, Eq, Error)]
pub enum ServeError {
    /// The arguments are not those of the program.
    #[error("usage: key_index KIND [THRESHOLD]")]
    Usage,
    /// This line, counted from 1, is no command of the kind.
    #[error("bad line {0}")]
    BadLine(u64),
    /// A read or a write failed, or memory was refused outside a command.
    #[error("failed")]
    Failed,
}

impl ServeError {
    /// The status with which the program ends.
    pub fn status(&self) -> u8
        ensures { result ≡ status_of self.now }
    {
        match self {
            ServeError::Usage => 2,
            ServeError::BadLine(_) | ServeError::Failed => 1,
        }
    }
}
