//! Why the program ends without an answer.

use std::alloc::AllocError;
use std::io;
use thiserror::Error;

/// The text is what it prints on standard error.
#[derive(Debug, Drop, Error)]
pub enum Failure {
    /// The arguments are not those of the program.
    #[error("usage: verify ROOT KEY < WITNESS, where ROOT is 64 hexadecimal digits, and KEY two for each byte, or - for none")]
    Usage,
    /// The input has more bytes than are taken for a witness.
    #[error("standard input has more than 67108864 bytes")]
    TooLong,
    /// Standard input can't be read.
    #[error("cannot read standard input: {0}")]
    CannotRead(io::Error),
    /// Standard output can't be written.
    #[error("cannot write standard output: {0}")]
    CannotWrite(io::Error),
    /// The system does not give the arguments.
    #[error("failed: {0}")]
    Failed(io::Error),
    /// There was no memory.
    #[error("failed: {0}")]
    Memory(#[from(alloc)] AllocError),
}
