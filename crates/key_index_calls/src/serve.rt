//! The lines of the input, each answered in turn.
use crate::answer::Answer;
use crate::line::{Line, Stop};
use std::alloc::Global;
use std::io::{BufRead, Write};
use std::str;

/// A line that is read, those that are kept for a later one, and the answer. The memory of earlier lines serves later ones.
#[derive(Drop)]
pub(crate) struct Request {
    pub(crate) alloc: Global,
    pub(crate) line: Line,
    pub(crate) kept: Vec<Line>,
    pub(crate) answer: Answer,
}

impl Request {
    fn new(alloc: Global) -> Request {
        Request {
            alloc,
            line: Line::new(alloc),
            kept: Vec::new(alloc),
            answer: Answer::new(alloc),
        }
    }

    /// Keeps a line for the next call that takes such lines.
    fn keep(&mut self, text: &str) -> Result<(), Stop> {
        self.answer.word("+");
        let mut line = Line::new(self.alloc);
        line.read(self.alloc, text)?;
        match self.kept.push(line) {
            Ok(()) => Ok(()),
            Err(_) => Err(Stop::Failed),
        }
    }

    /// Reads a line, which is kept if it says so. Tells whether it makes a call.
    fn read(&mut self, bytes: &[u8]) -> Result<bool, Stop> {
        let Ok(text) = str::from_utf8(bytes) else {
            return Err(Stop::BadLine);
        };
        self.answer.clear();
        if let Some(kept) = text.strip_prefix("+ ") {
            self.keep(kept)?;
            return Ok(false);
        }
        self.line.read(self.alloc, text)?;
        Ok(true)
    }

    /// Drops the lines that are kept, if the call takes such lines.
    fn end(&mut self) {
        match self.line.name() {
            "run" | "build" => self.kept.clear(),
            _ => {}
        }
    }
}

/// An index with the calls that it has.
pub(crate) trait Session {
    /// A range of it.
    type Range: Drop;

    /// Makes the call of a line, which may use the ranges that are kept, and tells whether it has such a call.
    fn call(&mut self, ranges: &mut Vec<Self::Range>, request: &mut Request) -> Result<bool, Stop>;

    /// The same of a call of a range that is kept.
    fn call_range(_range: &mut Self::Range, _request: &mut Request) -> bool {
        false
    }
}

/// Makes the call of a line.
fn call<S: Session>(
    session: &mut S,
    ranges: &mut Vec<S::Range>,
    request: &mut Request,
) -> Result<bool, Stop> {
    if !request.line.is_of_range {
        return session.call(ranges, request);
    }
    match ranges.get_mut(request.line.range()) {
        Some(range) => Ok(S::call_range(range, request)),
        None => {
            request.answer.word("unallowed");
            Ok(true)
        }
    }
}

/// Where a session takes memory, its streams, and what it is asked.
#[derive(Drop)]
pub(crate) struct Streams<R, W> {
    pub(crate) alloc: Global,
    input: R,
    output: W,
    bytes: Vec<u8>,
    request: Request,
}

impl<R: BufRead, W: Write> Streams<R, W> {
    pub(crate) fn new(alloc: Global, input: R, output: W) -> Streams<R, W> {
        Streams {
            alloc,
            input,
            output,
            bytes: Vec::new(alloc),
            request: Request::new(alloc),
        }
    }

    /// Reads a line, without its newline. Tells whether there is one.
    fn read(&mut self) -> Result<bool, Stop> {
        self.bytes.clear();
        let Ok(count) = self.input.read_until(b'\n', &mut self.bytes) else {
            return Err(Stop::Failed);
        };
        if self.bytes.last() == Some(&b'\n') {
            self.bytes.pop();
        }
        Ok(count > 0)
    }

    /// Reads lines up to one that makes a call. Tells whether there is one.
    fn next(&mut self) -> Result<bool, Stop> {
        for _ in 0..u64::MAX {
            if !self.read()? {
                return Ok(false);
            }
            if self.request.read(self.bytes.as_slice())? {
                return Ok(true);
            }
            self.request.answer.write(&mut self.output)?;
        }
        Ok(false)
    }

    /// Answers the call, which the index has or not.
    fn answer(&mut self, has_call: bool) -> Result<(), Stop> {
        if !has_call {
            return Err(Stop::BadLine);
        }
        self.request.end();
        self.request.answer.write(&mut self.output)
    }

    /// Writes the answers that are not written yet.
    pub(crate) fn flush(&mut self) -> Result<(), Stop> {
        match self.output.flush() {
            Ok(()) => Ok(()),
            Err(_) => Err(Stop::Failed),
        }
    }
}

/// Answers the lines of the input up to its end.
pub(crate) fn serve<S: Session + Drop, R: BufRead, W: Write>(
    mut session: S,
    streams: &mut Streams<R, W>,
) -> Result<(), Stop> {
    let mut ranges = Vec::new(streams.alloc);
    for _ in 0..u64::MAX {
        if !streams.next()? {
            break;
        }
        let has_call = call(&mut session, &mut ranges, &mut streams.request)?;
        streams.answer(has_call)?;
    }
    Ok(())
}
