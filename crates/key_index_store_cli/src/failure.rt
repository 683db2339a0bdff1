//! Why the program ends early, and why a command is refused.

use key_index_store::store::Fault;
use std::alloc::AllocError;
use std::io::{ErrorKind, Write};
use std::{fmt, io};
use thiserror::Error;

/// Why the program ends before its input does. The text is what it prints on standard error.
#[derive(Debug, Drop, Error)]
pub enum Failure<'a> {
    /// The arguments are not those of the program.
    #[error("usage: key_index_store [FLAGS] FILE [KIND]; all about it: --help")]
    Usage,
    /// A file that is opened would take the place of a standard stream.
    #[error("failed: standard input or output is closed")]
    Closed,
    /// The file of a name can't be opened.
    #[error("cannot open {0}: {1}")]
    CannotOpen(&'a str, io::Error),
    /// The disk may not have the name of a file.
    #[error("cannot sync {0}: {1}")]
    CannotSync(&'a str, io::Error),
    /// The store on the file of a name is refused.
    #[error("refused {0}: {1}")]
    Refused(Refusal, &'a str),
    /// The file of a name is no store's.
    #[error("refused no store: {0}; --headless reads it all the same")]
    NoStore(&'a str),
    /// A stream failed.
    #[error("failed: {0}")]
    Failed(#[from] io::Error),
    /// There was no memory outside a command.
    #[error("failed: {0}")]
    Memory(#[from(alloc)] AllocError),
}

/// Why a command is refused. The text is the reason in its answer.
#[derive(Debug, Drop, Error)]
pub enum Refusal {
    /// For the reason that this word says.
    #[error("{0}")]
    For(&'static str),
    /// There was no memory.
    #[error("memory")]
    Memory(#[from(alloc)] AllocError),
    /// It is no command, or has not as many words as that one wants.
    #[error("no command")]
    NoCommand,
    /// A word is not what the command wants there, as this says.
    #[error("{0}")]
    Word(&'static str),
}

impl From<Fault> for Refusal {
    fn from(fault: Fault) -> Refusal {
        Refusal::For(match fault {
            Fault::Memory => "memory",
            Fault::Full => "full",
            Fault::TooLong => "long",
            Fault::ReadFailed => "read",
            Fault::WriteFailed => "write",
            Fault::Damaged => "damaged",
            Fault::NotEmpty => "not empty",
        })
    }
}

/// What the system gave of the file of a name, or that it can't be opened.
pub fn at<T>(path: &str, given: io::Result<T>) -> Result<T, Failure<'_>> {
    match given {
        Ok(given) => Ok(given),
        Err(error) => Err(Failure::CannotOpen(path, error)),
    }
}

impl Failure<'_> {
    /// Why a command is refused that needed the file. What the system said is told.
    pub fn into_refusal(self, rt: &HostRuntime) -> Refusal {
        match self {
            Failure::Refused(refusal, _) => refusal,
            Failure::NoStore(_) => Refusal::For("not empty"),
            Failure::CannotOpen(_, error) if error.kind() == ErrorKind::OutOfMemory => {
                Refusal::For("memory")
            }
            failure => {
                tell(rt, failure);
                Refusal::For("open")
            }
        }
    }
}

/// What a command needed of a file, or why it is refused.
pub fn needed<T>(rt: &HostRuntime, given: Result<T, Failure<'_>>) -> Result<T, Refusal> {
    match given {
        Ok(given) => Ok(given),
        Err(failure) => Err(failure.into_refusal(rt)),
    }
}

/// Prints a line on standard error. That it can't be printed changes nothing.
pub fn tell(rt: &HostRuntime, line: impl fmt::Display + Drop) {
    let _ = writeln!(rt.stderr(), "{line}");
}
