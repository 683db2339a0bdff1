//! The program `key_index`, on the process's arguments and standard streams.
#![tactic(auto)]

use key_index::program::fault::ServeError;
use key_index::program::serve::{end_early, serve};
use std::env;
use std::io::ErrorKind;
use std::process::ExitCode;
use std::rt::Env;

// The arguments without the program's name. One that is no text names no kind.
fn words<R: Env + AllocGlobal>(rt: &R) -> Result<Vec<String>, ServeError> {
    let args = match env::args(rt) {
        Ok(args) => args,
        Err(error) if error.kind() == ErrorKind::InvalidData => return Err(ServeError::Usage),
        Err(_) => return Err(ServeError::Failed),
    };
    match args.skip(1).collect(rt.alloc()) {
        Ok(words) => Ok(words),
        Err(_) => Err(ServeError::Failed),
    }
}

fn main(rt: HostRuntime) -> ExitCode {
    let status = match words(&rt) {
        Ok(words) => serve(rt.alloc(), &words, rt.stdin(), rt.stdout(), rt.stderr()),
        Err(error) => end_early(error, rt.stderr()),
    };
    ExitCode::from(status)
}
