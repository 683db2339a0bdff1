//! The program `key_index_store`: a key-value store over a file, on the process's arguments and standard streams.
#![tactic(auto)]

mod answer;
mod counter;
mod failure;
mod file;
mod fitting;
mod fresh;
mod help;
mod line;
mod order;
mod session;

use failure::{Failure, Refusal, tell};
use file::{fill_streams, open_store, tell_left_over};
use fitting::Fitting;
use help::{COMMANDS, HELP, STATUS, VERSION};
use key_index_flat::index::{Factory, ordered, unordered};
use key_index_flat::translator::{EightCap, Hashed, SeededSha256};
use key_index_parts::index::partitioned::{ordered as pordered, unordered as punordered};
use key_index_store::store::{Store, Tail};
use key_index_store::translator::BehindFront;
use order::{Order, With, Without};
use session::{Context, Options, Session, next_check};
use std::env;
use std::io::{BufReader, BufWriter, ErrorKind, IsTerminal, Write};
use std::process::ExitCode;
use std::random::RandomSource;

/// How many bytes of standard input or output are held at a time.
const BUFFER: usize = 65536;

/// Runs the commands on the file at a path, over an index of a kind, which has the first bytes of a key `skipped` in front of the
/// translator. Gives whether all went well.
fn over<'a, I: Factory<Translator = T, Value = u64> + Drop, O: Order<I, T>, T: Fitting>(
    rt: &'a HostRuntime,
    path: &'a str,
    mut options: Options,
    translator: T,
    skipped: usize,
) -> Result<bool, Failure<'a>>
    requires { I.makes }
{
    let alloc = rt.alloc();
    let _streams = fill_streams(rt)?;
    let mut input = BufReader::with_capacity(alloc, BUFFER, rt.stdin())?;
    let mut output = BufWriter::with_capacity(alloc, BUFFER, rt.stdout())?;
    options.keeps_going |= rt.stdin().is_terminal();
    let mut opened = open_store(rt, path, options.reads_only, options.is_headless)?;
    tell_left_over(rt, opened.place.name());
    let translator = match translator.fit(alloc, &mut opened.disk, skipped) {
        Ok(better) => better.unwrap_or(translator),
        Err(fault) => return Err(Failure::Refused(Refusal::from(fault), path)),
    };
    let Ok(index) = I::new(alloc, translator) else {
        return Err(Failure::Refused(Refusal::For("memory"), path));
    };
    let store = match Store::open(alloc, opened.disk, index) {
        Ok(store) => store,
        Err(error) => return Err(Failure::Refused(Refusal::from(error.fault), path)),
    };
    let context = Context {
        rt,
        options,
        place: opened.place,
        is_read_only: opened.is_read_only,
        is_changed: false,
        is_well: true,
    };
    let check_at = next_check(store.len());
    let mut session = Session {
        context,
        store,
        translator,
        skipped,
        check_at,
    };
    session.tell_tail();
    let ended = session.run_lines::<O>(&mut input, &mut output);
    let flushed = output.flush();
    let is_whole = !matches!(session.store.tail(), Ok(Tail::Damaged));
    let is_well = session.finish() && is_whole;
    ended?;
    flushed?;
    Ok(is_well)
}

/// Runs the commands over an index of the kind of a name.
fn over_kind<'a>(
    rt: &'a HostRuntime,
    path: &'a str,
    kind: &str,
    options: Options,
) -> Result<bool, Failure<'a>> {
    let cap = BehindFront::new(b"");
    match kind {
        "unordered" => {
            over::<unordered::Index<BehindFront, u64>, Without, _>(rt, path, options, cap, 0)
        }
        "ordered" => over::<ordered::Index<BehindFront, u64>, With, _>(rt, path, options, cap, 0),
        "punordered" => over::<punordered::Index<BehindFront, u64, 1>, Without, _>(
            rt, path, options, cap, 1,
        ),
        "pordered" => over::<pordered::Index<BehindFront, u64, 1>, With, _>(
            rt, path, options, cap, 1,
        ),
        "hashed" => {
            let mut seed = [0; 8];
            rt.fill_bytes(&mut seed)?;
            let hashed = Hashed::new(u64::from_le_bytes(seed), EightCap);
            over::<unordered::Index<Hashed<EightCap, SeededSha256>, u64>, Without, _>(
                rt, path, options, hashed, 0,
            )
        }
        _ => Err(Failure::Usage),
    }
}

fn print<'a>(rt: &HostRuntime, texts: &[&str]) -> Result<bool, Failure<'a>> {
    for text in texts {
        writeln!(rt.stdout(), "{text}")?;
    }
    Ok(true)
}

/// Runs the program on the words behind its name. Gives whether all went well.
fn run<'a>(rt: &'a HostRuntime, words: &'a [String]) -> Result<bool, Failure<'a>> {
    let mut options = Options {
        is_text: false,
        is_durable: false,
        reads_only: false,
        keeps_going: false,
        is_headless: false,
    };
    let mut names: Vec<&str> = Vec::new(rt.alloc());
    for word in words {
        match word.as_str() {
            "--help" | "-h" => return print(rt, &[HELP, COMMANDS, STATUS]),
            "--version" => return print(rt, &[VERSION]),
            "--text" => options.is_text = true,
            "--durable" => options.is_durable = true,
            "--read-only" => options.reads_only = true,
            "--keep-going" => options.keeps_going = true,
            "--headless" => {
                options.is_headless = true;
                options.reads_only = true;
            }
            flag if flag.starts_with("--") => return Err(Failure::Usage),
            name => names.push(name)?,
        }
    }
    match names.as_slice() {
        [path] => over_kind(rt, path, "ordered", options),
        [path, kind] => over_kind(rt, path, kind, options),
        _ => Err(Failure::Usage),
    }
}

/// The words behind the program's name. One that is no text names no file and no kind.
fn arguments(rt: &HostRuntime) -> Result<Vec<String>, Failure<'static>> {
    match env::args(rt) {
        Ok(args) => Ok(args.skip(1).collect(rt.alloc())?),
        Err(error) if error.kind() == ErrorKind::InvalidData => Err(Failure::Usage),
        Err(error) => Err(Failure::Failed(error)),
    }
}

fn main(rt: HostRuntime) -> ExitCode {
    let words = match arguments(&rt) {
        Ok(words) => words,
        Err(failure) => return ended(&rt, Err(failure)),
    };
    ended(&rt, run(&rt, &words))
}

/// Tells why the program ends early. Gives its status.
fn ended(rt: &HostRuntime, run: Result<bool, Failure<'_>>) -> ExitCode {
    match run {
        Ok(true) => ExitCode::from(0),
        Ok(false) => ExitCode::from(1),
        Err(failure) => {
            let status = if matches!(failure, Failure::Usage) {
                2
            } else {
                1
            };
            tell(rt, failure);
            ExitCode::from(status)
        }
    }
}
