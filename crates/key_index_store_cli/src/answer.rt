//! The lines that answer commands.

use crate::failure::Refusal;
use key_index_store::store::Gap;
use std::{fmt, str};

/// How many bytes are written at a time as hexadecimal digits.
const BLOCK: usize = 1024;

/// The hexadecimal digits, by their values.
const DIGITS: [u8; 16] = *b"0123456789abcdef";

/// A key that has a value, with it.
pub type Entry = (Vec<u8>, Vec<u8>);

/// What a command gives.
#[derive(Drop)]
pub enum Answer {
    /// A word that says all.
    Word(&'static str),
    /// A number, behind the word that says of what.
    Number(&'static str, u64),
    /// The value of a key, if it has one.
    Value(Option<Vec<u8>>),
    /// An entry, if there is one.
    Entry(Option<Entry>),
    /// The neighbours of a key, if it has no value.
    Gap(Option<Gap>),
    /// How many records were copied, and how many bytes left out.
    Salvaged(u64, u64),
}

/// What a command gives, or why it is refused.
pub type Answered = Result<Answer, Refusal>;

/// An answer as a line, with its bytes as texts where that is asked.
#[derive(Clone, Copy)]
pub struct Line<'a>(pub &'a Answered, pub bool);

impl fmt::Display for Line<'_> {
    fn fmt<W: fmt::Write>(&self, f: &mut fmt::Formatter<W>) -> fmt::Result {
        let is_text = self.1;
        match self.0 {
            Ok(Answer::Word(word)) => f.write_str(word),
            Ok(Answer::Number(word, number)) => write!(f, "{word} {number}"),
            Ok(Answer::Value(Some(value))) => write!(f, "value {}", Bytes(value, is_text)),
            Ok(Answer::Entry(Some((key, value)))) => {
                write!(f, "entry {} {}", Bytes(key, is_text), Bytes(value, is_text))
            }
            Ok(Answer::Gap(Some(gap))) => {
                let (before, after) = (Key(&gap.before, is_text), Key(&gap.after, is_text));
                write!(f, "between {before} {after}")
            }
            Ok(Answer::Gap(None)) => f.write_str("held"),
            Ok(Answer::Value(None) | Answer::Entry(None)) => f.write_str("none"),
            Ok(Answer::Salvaged(records, left_out)) => {
                write!(f, "salvaged {records} records, {left_out} bytes left out")
            }
            Err(refusal) => write!(f, "refused {refusal}"),
        }
    }
}

/// The key of a neighbour, or `none`.
#[derive(Clone, Copy)]
struct Key<'a>(&'a Option<Entry>, bool);

impl fmt::Display for Key<'_> {
    fn fmt<W: fmt::Write>(&self, f: &mut fmt::Formatter<W>) -> fmt::Result {
        match self.0 {
            Some((key, _)) => write!(f, "{}", Bytes(key, self.1)),
            None => f.write_str("none"),
        }
    }
}

/// Bytes as a word: two hexadecimal digits for each, or `-` where there are none; or, where that is asked and they are UTF-8, a text in
/// double quotes.
#[derive(Clone, Copy)]
pub struct Bytes<'a>(pub &'a [u8], pub bool);

impl fmt::Display for Bytes<'_> {
    fn fmt<W: fmt::Write>(&self, f: &mut fmt::Formatter<W>) -> fmt::Result {
        if self.1 {
            if let Ok(text) = str::from_utf8(self.0) {
                return write_text(text, f);
            }
        }
        if self.0.is_empty() {
            return f.write_str("-");
        }
        let mut digits = [[0; 2]; BLOCK];
        for block in self.0.chunks(BLOCK) {
            for (pair, byte) in digits.iter_mut().zip(block) {
                *pair = [DIGITS[(byte >> 4) as usize], DIGITS[(byte & 15) as usize]];
            }
            let written = digits.as_flattened().get(..2 * block.len()).unwrap_or(&[]);
            f.write_str(str::from_utf8(written).unwrap_or(""))?;
        }
        Ok(())
    }
}

/// Writes a text in double quotes, with an escape for each quote, backslash and control character.
fn write_text<W: fmt::Write>(text: &str, f: &mut fmt::Formatter<W>) -> fmt::Result {
    f.write_str("\"")?;
    let mut start = 0;
    for (place, c) in text.char_indices() {
        if c != '"' && c != '\\' && !c.is_control() {
            continue;
        }
        f.write_str(text.get(start..place).unwrap_or(""))?;
        start = place.saturating_add(c.len_utf8());
        match c {
            '"' | '\\' => write!(f, "\\{c}")?,
            '\n' => f.write_str("\\n")?,
            _ => {
                for byte in c.encode_utf8(&mut [0; 4]).bytes() {
                    write!(f, "\\x{byte:02x}")?;
                }
            }
        }
    }
    f.write_str(text.get(start..).unwrap_or(""))?;
    f.write_str("\"")
}
