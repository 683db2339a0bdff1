//! The line that answers a call.
use crate::line::Stop;
use key_index_flat::index::{CursorState, Fault, Refused, Values};
use std::alloc::Global;
use std::fmt::Write;
use std::io;

/// The words that answer a call. One that finds no memory is left out, and the program then ends.
#[derive(Drop)]
pub(crate) struct Answer {
    pub(crate) text: String,
    pub(crate) is_whole: bool,
}

impl Answer {
    pub(crate) fn new(alloc: Global) -> Answer {
        Answer {
            text: String::new(alloc),
            is_whole: true,
        }
    }

    /// No words.
    pub(crate) fn clear(&mut self) {
        self.text.clear();
    }

    /// Writes the line.
    pub(crate) fn write<W: io::Write>(&self, output: &mut W) -> Result<(), Stop> {
        if !self.is_whole || writeln!(output, "{}", self.text).is_err() {
            return Err(Stop::Failed);
        }
        Ok(())
    }

    /// A text behind the others.
    fn push(&mut self, text: &str) {
        if self.text.push_str(text).is_err() {
            self.is_whole = false;
        }
    }

    /// A space behind other words.
    fn part(&mut self) {
        if !self.text.is_empty() {
            self.push(" ");
        }
    }

    pub(crate) fn word(&mut self, word: &str) {
        self.part();
        self.push(word);
    }

    pub(crate) fn number(&mut self, number: u64) {
        self.part();
        if write!(self.text, "{number}").is_err() {
            self.is_whole = false;
        }
    }

    pub(crate) fn count(&mut self, count: usize) {
        self.number(count as u64);
    }

    pub(crate) fn flag(&mut self, flag: bool) {
        self.word(if flag { "true" } else { "false" });
    }

    /// A number, or that there is none.
    pub(crate) fn option(&mut self, number: Option<u64>) {
        match number {
            Some(number) => self.number(number),
            None => self.word("none"),
        }
    }

    /// A key, as in a line.
    pub(crate) fn key(&mut self, key: &[u8]) {
        self.word("x");
        for byte in key {
            if write!(self.text, "{byte:02x}").is_err() {
                self.is_whole = false;
            }
        }
    }

    pub(crate) fn state(&mut self, state: CursorState) {
        self.word(match state {
            CursorState::NeedNext => "need_next",
            CursorState::Active => "active",
            CursorState::Done => "done",
        });
    }

    /// An ask of a closure, and how it is answered: by the bits of a number, the lowest first.
    pub(crate) fn ask(&mut self, value: u64, answers: &mut u64) -> bool {
        self.number(value);
        let answer = *answers % 2 == 1;
        *answers /= 2;
        answer
    }

    pub(crate) fn values(&mut self, values: Values<'_, u64>) {
        if values.is_empty() {
            self.word("none");
        }
        for value in values {
            self.number(*value);
        }
    }

    pub(crate) fn end(&mut self, end: Option<Values<'_, u64>>) {
        match end {
            Some(values) => self.values(values),
            None => self.word("none"),
        }
    }

    pub(crate) fn neighbour(&mut self, neighbour: Option<(Values<'_, u64>, bool)>) {
        match neighbour {
            Some((values, cycled)) => {
                self.values(values);
                if cycled {
                    self.word("cycled");
                }
            }
            None => self.word("none"),
        }
    }

    pub(crate) fn refused(&mut self, fault: Fault) {
        self.word(match fault {
            Fault::Memory => "refused memory",
            Fault::Full => "refused full",
            Fault::TooFar => "refused far",
        });
    }

    /// A refusal of a call that was handed this value.
    pub(crate) fn returned(&mut self, refused: &Refused<u64>, value: u64) {
        self.refused(refused.fault);
        if refused.value != value {
            self.word("other value");
        }
    }

    /// What a call came to that takes no value.
    pub(crate) fn made(&mut self, made: Result<(), Fault>) {
        match made {
            Ok(()) => self.word("ok"),
            Err(fault) => self.refused(fault),
        }
    }

    /// What a call came to that was handed this value.
    pub(crate) fn given(&mut self, given: Result<(), Refused<u64>>, value: u64) {
        match given {
            Ok(()) => self.word("ok"),
            Err(refused) => self.returned(&refused, value),
        }
    }

    /// What a call came to that tells a flag.
    pub(crate) fn told(&mut self, told: Result<bool, Fault>) {
        match told {
            Ok(flag) => self.flag(flag),
            Err(fault) => self.refused(fault),
        }
    }
}
