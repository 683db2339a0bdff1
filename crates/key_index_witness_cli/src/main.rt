//! The program `verify`: what the witness on standard input tells of a key to one who knows a root.
#![tactic(auto)]

ghost use Rattle.std.specs.Prelude.{◌≡◌, ◌≢◌, ◌≤◌, ◌^◌, ◌<◌, ◌++◌, map, length, IfOk, IfSome, IsErrOf, IsNone, IsSome, OnOk, option_map};
ghost use Rattle.std.specs.Io.KnownBytes.{Appends, Keeps};
ghost use Rattle.std.specs.String.{string_bytes};
ghost use Rattle.key_index_witness.specs.Witness.{told};
ghost use Rattle.key_index_witness_cli.specs.Program.{Answers, Tells, asked, byte_in, digits_of, hex_word, key_in, line_of, root_in, sized_in, status_of};

mod failure;

use failure::Failure;
use key_index_witness::{Answer, decode, verify};
use std::alloc::{AllocError, Global};
use std::env;
use std::io::{ErrorKind, Read, Write};
use std::process::ExitCode;

/// How many bytes of standard input are taken for a witness at most.
const LIMIT: u64 = 1 << 26;

/// The hexadecimal digits, by their values.
const DIGITS: [u8; 16] = *b"0123456789abcdef";

/// The byte of two hexadecimal digits of either case.
fn byte_of(high: u8, low: u8) -> Option<u8>
    ensures { result ≡ byte_in high low }
{
    let high = char::from(high).to_digit(16)?;
    let low = char::from(low).to_digit(16)?;
    Some((16 * high + low) as u8)
}

/// Reads a word of two digits for each of these bytes. What they are after a `None` is open.
fn read_hex(word: &[u8], bytes: &mut [u8]) -> Option<()>
    ensures { sized_in (length bytes.old) word.now ≡ option_map (λ read. bytes.new) result }
{
    if word.len() % 2 != 0 || word.len() / 2 != bytes.len() {
        return None;
    }
    for i in 0..bytes.len() {
        let Some(byte) = byte_of(word[2 * i], word[2 * i + 1]) else {
            return None;
        };
        bytes[i] = byte;
    }
    Some(())
}

/// Puts two digits for each byte behind a line.
fn write_hex(bytes: &[u8], line: &mut Vec<u8>) -> Result<(), AllocError>
    ensures { OnOk result (line.new.items ≡ line.old.items ++ digits_of bytes.now) }
{
    for i in 0..bytes.len() {
        let byte = bytes[i];
        line.extend_from_slice(&[DIGITS[(byte >> 4) as usize], DIGITS[(byte & 15) as usize]])?;
    }
    Ok(())
}

/// The bytes of a word, two digits for each; a dash alone is none.
#[tactic(auto, unfolding(crate::specs::Program::key_in))]
fn key_of(alloc: Global, word: &str) -> Result<Vec<u8>, Failure>
    ensures key { IfOk result (λ key. key_in word.now ≡ Some key.items) }
    ensures usage { IsErrOf result Failure.Usage → IsNone (key_in word.now) }
    ensures short { IsErrOf result Failure.TooLong → ⊥ }
{
    if word == "-" {
        return Ok(Vec::new(alloc));
    }
    if word.is_empty() {
        return Err(Failure::Usage);
    }
    let Ok(mut key) = vec![in alloc; 0; word.len() / 2] else {
        return Err(Failure::Memory(AllocError));
    };
    match read_hex(word.as_bytes(), &mut key) {
        Some(()) => Ok(key),
        None => Err(Failure::Usage),
    }
}

/// The root and the key of the words behind the program's name.
#[tactic(auto, unfolding(crate::specs::Program::asked))]
fn asked(alloc: Global, words: &[String]) -> Result<([u8; 32], Vec<u8>), Failure>
    ensures asked { IfOk result (λ a. asked (map string_bytes words.now) ≡ Some (a.0, a.1.items)) }
    ensures usage { IsErrOf result Failure.Usage → IsNone (asked (map string_bytes words.now)) }
    ensures short { IsErrOf result Failure.TooLong → ⊥ }
{
    let [word, key] = words else {
        return Err(Failure::Usage);
    };
    let mut root = [0; 32];
    if read_hex(word.as_bytes(), &mut root).is_none() {
        return Err(Failure::Usage);
    }
    match key_of(alloc, key.as_str()) {
        Ok(key) => Ok((root, key)),
        Err(failure) => Err(failure),
    }
}

/// What some bytes tell of a key.
fn told_by<'a>(root: &[u8; 32], key: &[u8], bytes: &'a [u8]) -> Option<Answer<'a>>
    ensures { Tells root.now key.now bytes.now (option_map told result) }
{
    verify(root, key, decode(bytes)?)
}

/// The line for what is told.
fn line_of(alloc: Global, answer: Option<Answer<'_>>) -> Result<Vec<u8>, AllocError>
    ensures { IfOk result (λ line. line.items ≡ line_of (option_map told answer.entry)) }
{
    let mut line = Vec::new(alloc);
    match answer {
        None => line.extend_from_slice(b"refused\n")?,
        Some(Answer::Absent) => line.extend_from_slice(b"absent\n")?,
        Some(Answer::Present(value)) => {
            line.extend_from_slice(b"present ")?;
            if value.is_empty() {
                line.extend_from_slice(b"-")?;
            } else {
                write_hex(value, &mut line)?;
            }
            line.extend_from_slice(b"\n")?;
        }
    }
    Ok(line)
}

/// All bytes of the input.
fn read_all<R: Read + Drop>(alloc: Global, input: R) -> Result<Vec<u8>, Failure>
    ensures bytes { IfOk result (λ bytes. IfSome (R.remaining input) (λ all. bytes.items ≡ all)) }
    ensures short { IfOk result (λ bytes. length bytes.items ≤ 2 ^ 26) }
    ensures long { IsErrOf result Failure.TooLong → IfSome (R.remaining input) (λ all. 2 ^ 26 < length all) }
    ensures usage { IsErrOf result Failure.Usage → ⊥ }
{
    let mut bytes = Vec::new(alloc);
    match input.take(LIMIT + 1).read_to_end(&mut bytes) {
        Err(error) => Err(Failure::CannotRead(error)),
        Ok(_) if bytes.len() as u64 > LIMIT => Err(Failure::TooLong),
        Ok(_) => Ok(bytes),
    }
}

/// Reads a witness to the end of the input, and writes what it tells of a key. Gives the status for that.
fn answer<R: Read + Drop, W: Write>(
    alloc: Global,
    root: &[u8; 32],
    key: &[u8],
    input: R,
    output: &mut W,
) -> Result<u8, Failure>
    ensures answers { IfOk result (λ status. IfSome (R.remaining input) (λ bytes.
        Answers root.now key.now bytes status (Appends (W.contents output.old) (W.contents output.new)))) }
    ensures known { IfOk result (λ status. status ≤ 1) }
    ensures usage { IsErrOf result Failure.Usage → ⊥ }
    ensures long { IsErrOf result Failure.TooLong → IfSome (R.remaining input) (λ bytes. 2 ^ 26 < length bytes) }
{
    let bytes = match read_all(alloc, input) {
        Ok(bytes) => bytes,
        Err(failure) => return Err(failure),
    };
    let told = told_by(root, key, &bytes);
    let Ok(line) = line_of(alloc, told) else {
        return Err(Failure::Memory(AllocError));
    };
    match output.write_all(&line) {
        Ok(()) => Ok(if told.is_some() { 0 } else { 1 }),
        Err(error) => Err(Failure::CannotWrite(error)),
    }
}

/// Runs the program on the words behind its name. Gives its status.
fn serve<R: Read + Drop, W: Write, E: Write>(
    alloc: Global,
    words: &[String],
    input: R,
    output: &mut W,
    faults: &mut E,
) -> u8
    // But for the status 2 the words are a root and a key, and what the input tells of the key is written, and nothing else.
    ensures answers { result ≢ 2 →
        IfSome (asked (map string_bytes words.now)) (λ a. IfSome (R.remaining input) (λ bytes.
        Answers a.0 a.1 bytes result (Appends (W.contents output.old) (W.contents output.new)))) }
    // It is 2 for other words, and nothing is written.
    ensures usage { IsNone (asked (map string_bytes words.now)) → result ≡ 2 }
    ensures unwritten { IsNone (asked (map string_bytes words.now))
        → Keeps (W.contents output.old) (W.contents output.new) }
    ensures known { result ≤ 2 }
{
    match run(alloc, words, input, output) {
        Ok(status) => status,
        Err(failure) => end_early(failure, faults),
    }
}

fn run<R: Read + Drop, W: Write>(
    alloc: Global,
    words: &[String],
    input: R,
    output: &mut W,
) -> Result<u8, Failure>
    ensures answers { IfOk result (λ status.
        IfSome (asked (map string_bytes words.now)) (λ a. IfSome (R.remaining input) (λ bytes.
        Answers a.0 a.1 bytes status (Appends (W.contents output.old) (W.contents output.new))))) }
    ensures asked { IfOk result (λ status. IsSome (asked (map string_bytes words.now))) }
    ensures usage { IsErrOf result Failure.Usage → IsNone (asked (map string_bytes words.now)) }
    ensures unwritten { IsNone (asked (map string_bytes words.now))
        → Keeps (W.contents output.old) (W.contents output.new) }
    ensures long { IsErrOf result Failure.TooLong → IfSome (R.remaining input) (λ bytes. 2 ^ 26 < length bytes) }
    ensures known { IfOk result (λ status. status ≤ 1) }
{
    let asked = match asked(alloc, words) {
        Ok(asked) => asked,
        Err(failure) => return Err(failure),
    };
    let (root, key) = asked;
    answer(alloc, &root, &key, input, output)
}

/// Tells why there is no answer. Gives the status for that, which a failed write does not change.
fn end_early<E: Write>(failure: Failure, faults: &mut E) -> u8
    ensures { result ≡ 2 }
{
    let _ = writeln!(faults, "{failure}");
    2
}

/// The words behind the program's name. One that is no text is no root and no key.
fn arguments(rt: &HostRuntime) -> Result<Vec<String>, Failure> {
    match env::args(rt) {
        Ok(args) => Ok(args.skip(1).collect(rt.alloc())?),
        Err(error) if error.kind() == ErrorKind::InvalidData => Err(Failure::Usage),
        Err(error) => Err(Failure::Failed(error)),
    }
}

fn main(rt: HostRuntime) -> ExitCode {
    let status = match arguments(&rt) {
        Ok(words) => serve(
            rt.alloc(),
            &words,
            rt.stdin(),
            &mut rt.stdout(),
            &mut rt.stderr(),
        ),
        Err(failure) => end_early(failure, &mut rt.stderr()),
    };
    ExitCode::from(status)
}
