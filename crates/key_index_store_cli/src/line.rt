//! One line of input, parsed into a command.
ghost use Rattle.std.specs.Prelude.{◌≤◌, length};

use crate::failure::Refusal;
use crate::help::form_of;
use std::alloc::Global;
use std::{fmt, str};

/// How many bytes are shown of what is no command.
const SHOWN: usize = 32;

/// Why a word is not the one that a row of the help names so.
const K: &str = "K is neither hexadecimal nor a text in quotes";

const V: &str = "V is neither hexadecimal nor a text in quotes";

const N: &str = "N is no decimal number below 2^64";

const FILE2: &str = "FILE2 is no name of a file";

/// What a line says.
#[derive(Drop)]
pub enum Command {
    Put(Vec<u8>, Vec<u8>),
    Get(Vec<u8>),
    Has(Vec<u8>),
    Delete(Vec<u8>),
    Count,
    Sync,
    Cut,
    Help,
    Dead,
    /// With the name of a file; without one, in place.
    Compact(Option<String>),
    Move(String),
    Salvage(String),
    InOrder(InOrder),
}

/// A command that asks for the order of the keys.
#[derive(Drop)]
pub enum InOrder {
    Next(Vec<u8>),
    Prev(Vec<u8>),
    Absent(Vec<u8>),
    First,
    Last,
    /// From a key on, so many entries.
    Scan(Vec<u8>, u64),
    /// The same, of keys that begin with that one.
    ScanPrefix(Vec<u8>, u64),
}

/// A word of a line, or the text between its quotes.
#[derive(Drop)]
enum Word<'a> {
    Plain(&'a [u8]),
    Text(Vec<u8>),
}

/// The value of a hexadecimal digit of either case, and 16 of what is none.
fn digit(byte: u8) -> u8 {
    match byte {
        b'0'..=b'9' => byte - b'0',
        b'a'..=b'f' => byte - b'a' + 10,
        b'A'..=b'F' => byte - b'A' + 10,
        _ => 16,
    }
}

/// The byte of two hexadecimal digits.
fn byte_of(high: u8, low: u8) -> Option<u8> {
    let (high, low) = (digit(high), digit(low));
    if high < 16 && low < 16 {
        Some(16 * high + low)
    } else {
        None
    }
}

/// The bytes that a plain word writes: two hexadecimal digits for each, or `-` for none.
fn bytes_of(alloc: Global, word: &[u8], wrong: &'static str) -> Result<Vec<u8>, Refusal> {
    let (pairs, odd) = word.as_chunks::<2>();
    if word == b"-".as_slice() {
        return Ok(Vec::new(alloc));
    }
    if pairs.is_empty() || !odd.is_empty() {
        return Err(Refusal::Word(wrong));
    }
    let mut bytes = vec![in alloc; 0; pairs.len()]?;
    for (byte, pair) in bytes.iter_mut().zip(pairs) {
        let Some(value) = byte_of(pair[0], pair[1]) else {
            return Err(Refusal::Word(wrong));
        };
        *byte = value;
    }
    Ok(bytes)
}

/// The text behind a quote, and what follows the quote at its end.
fn text_of<'a>(
    alloc: Global,
    line: &'a [u8],
    wrong: &'static str,
) -> Result<(Word<'a>, &'a [u8]), Refusal> {
    let mut text = Vec::new(alloc);
    let mut rest = line;
    for _ in 0..=line.len() {
        let front = rest
            .split(|byte| *byte == b'"' || *byte == b'\\')
            .next()
            .unwrap_or(rest);
        let (front, mark) = rest.split_at(front.len());
        text.extend_from_slice(front)?;
        let (byte, behind) = match mark {
            [b'"', behind @ ..] => return Ok((Word::Text(text), behind)),
            [b'\\', b'x', high, low, behind @ ..] => {
                (byte_of(*high, *low).ok_or(Refusal::Word(wrong))?, behind)
            },
            [b'\\', b'n', behind @ ..] => (b'\n', behind),
            [b'\\', byte @ (b'"' | b'\\'), behind @ ..] => (*byte, behind),
            _ => break,
        };
        text.push(byte)?;
        rest = behind;
    }
    Err(Refusal::Word(wrong))
}

/// The bytes of a line in front of its first space.
pub fn first_word(line: &[u8]) -> &[u8]
    ensures { length result.now ≤ length line.now }
{
    line.split(|byte| *byte == b' ').next().unwrap_or(line)
}

/// The words of a line that are not read yet, each behind a space.
#[derive(Drop)]
struct Words<'a> {
    alloc: Global,
    rest: &'a [u8],
}

impl<'a> Words<'a> {
    /// The next word.
    fn word(&mut self, wrong: &'static str) -> Result<Word<'a>, Refusal> {
        let [b' ', rest @ ..] = self.rest else {
            return Err(Refusal::NoCommand);
        };
        let (word, behind) = if let [b'"', text @ ..] = rest {
            text_of(self.alloc, text, wrong)?
        } else {
            let (word, behind) = rest.split_at(first_word(rest).len());
            (Word::Plain(word), behind)
        };
        self.rest = behind;
        Ok(word)
    }

    /// The bytes of a key or a value.
    fn bytes(&mut self, wrong: &'static str) -> Result<Vec<u8>, Refusal> {
        match self.word(wrong)? {
            Word::Plain(word) => bytes_of(self.alloc, word, wrong),
            Word::Text(text) => Ok(text),
        }
    }

    /// The name of a file.
    fn name(&mut self) -> Result<String, Refusal> {
        let bytes = match self.word(FILE2)? {
            Word::Plain(word) => Vec::from_slice(self.alloc, word)?,
            Word::Text(text) => text,
        };
        let Ok(name) = String::from_utf8(bytes) else {
            return Err(Refusal::Word(FILE2));
        };
        if name.is_empty() {
            return Err(Refusal::Word(FILE2));
        }
        Ok(name)
    }

    fn number(&mut self) -> Result<u64, Refusal> {
        let Word::Plain(word) = self.word(N)? else {
            return Err(Refusal::Word(N));
        };
        // Rust's parser takes a sign.
        if !word.iter().all(|byte| byte.is_ascii_digit()) {
            return Err(Refusal::Word(N));
        }
        let number = str::from_utf8(word).unwrap_or("").parse().ok();
        number.ok_or(Refusal::Word(N))
    }
}

/// What a line says, without its end.
pub fn parse(alloc: Global, line: &[u8]) -> Result<Command, Refusal> {
    let (name, rest) = line.split_at(first_word(line).len());
    let mut words = Words { alloc, rest };
    let command = match str::from_utf8(name).unwrap_or("") {
        "put" => Command::Put(words.bytes(K)?, words.bytes(V)?),
        "get" => Command::Get(words.bytes(K)?),
        "has" => Command::Has(words.bytes(K)?),
        "delete" => Command::Delete(words.bytes(K)?),
        "count" => Command::Count,
        "sync" => Command::Sync,
        "cut" => Command::Cut,
        "help" => Command::Help,
        "salvage" => Command::Salvage(words.name()?),
        "dead" => Command::Dead,
        "compact" if words.rest.is_empty() => Command::Compact(None),
        "compact" => Command::Compact(Some(words.name()?)),
        "move" => Command::Move(words.name()?),
        name => Command::InOrder(in_order(name, &mut words)?),
    };
    if words.rest.is_empty() {
        Ok(command)
    } else {
        Err(Refusal::NoCommand)
    }
}

/// A command that asks for the order of the keys, by its name and the words behind it.
fn in_order(name: &str, words: &mut Words<'_>) -> Result<InOrder, Refusal> {
    let command = match name {
        "next" => InOrder::Next(words.bytes(K)?),
        "prev" => InOrder::Prev(words.bytes(K)?),
        "absent" => InOrder::Absent(words.bytes(K)?),
        "first" => InOrder::First,
        "last" => InOrder::Last,
        "scan" => InOrder::Scan(words.bytes(K)?, words.number()?),
        "scan-prefix" => InOrder::ScanPrefix(words.bytes(K)?, words.number()?),
        _ => return Err(Refusal::NoCommand),
    };
    Ok(command)
}

/// What is wrong with a line that is no command.
#[derive(Clone, Copy)]
pub struct Wrong<'a>(pub &'a [u8], pub &'a Refusal);

impl fmt::Display for Wrong<'_> {
    fn fmt<W: fmt::Write>(&self, f: &mut fmt::Formatter<W>) -> fmt::Result {
        if let Refusal::Word(wrong) = self.1 {
            return f.write_str(wrong);
        }
        let name = first_word(self.0);
        let shown = name.get(..SHOWN).unwrap_or(name).escape_ascii();
        let Some(form) = form_of(name) else {
            return write!(f, "{shown} is no command; help lists them");
        };
        let wanted = match form.split(' ').count() {
            1 => "no words",
            2 if form.ends_with(']') => "1 word at most",
            2 => "1 word",
            _ => "2 words",
        };
        write!(f, "{shown} wants {wanted}: {form}")
    }
}
