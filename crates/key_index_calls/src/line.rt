//! A line of the input: the name of a call, and what it takes.
use key_index_flat::index::Fault;
use std::alloc::{AllocError, AllocFailed, Global};

/// Why the program ends early.
#[derive(Clone, Copy)]
pub(crate) enum Stop {
    /// The arguments name no kind.
    Usage,
    /// A line is none.
    BadLine,
    /// The index was refused memory.
    Refused,
    /// A read, a write, or an allocation outside a call failed.
    Failed,
}

impl From<AllocError> for Stop {
    fn from(_failed: AllocError) -> Stop {
        Stop::Failed
    }
}

impl<V: Drop> From<AllocFailed<V>> for Stop {
    fn from(_failed: AllocFailed<V>) -> Stop {
        Stop::Failed
    }
}

impl From<Fault> for Stop {
    fn from(_fault: Fault) -> Stop {
        Stop::Refused
    }
}

/// A move of a cursor.
#[derive(Clone, Copy)]
pub(crate) enum Move {
    Next,
    Insert(u64),
    Update(u64),
    Delete,
    /// The bits of the number answer the closure, the lowest first.
    Retain(u64),
    /// The same.
    Find(u64),
}

/// A line: the name of its call, and its keys, numbers and moves, each in their order. The memory of earlier lines serves later ones.
#[derive(Drop)]
pub(crate) struct Line {
    name: String,
    /// Whether it calls a range that is kept. The number of that stands in front of the call's own.
    pub(crate) is_of_range: bool,
    pub(crate) keys: Vec<Vec<u8>>,
    pub(crate) numbers: Vec<u64>,
    pub(crate) moves: Vec<Move>,
    spare: Vec<Vec<u8>>,
}

impl Line {
    /// A line before any is read.
    pub(crate) fn new(alloc: Global) -> Line {
        Line {
            name: String::new(alloc),
            is_of_range: false,
            keys: Vec::new(alloc),
            numbers: Vec::new(alloc),
            moves: Vec::new(alloc),
            spare: Vec::new(alloc),
        }
    }

    /// No name, keys, numbers and moves.
    fn clear(&mut self) -> Result<(), Stop> {
        self.name.clear();
        self.numbers.clear();
        self.moves.clear();
        for _ in 0..self.keys.len() {
            if let Some(key) = self.keys.pop() {
                push(&mut self.spare, key)?;
            }
        }
        Ok(())
    }

    /// Reads the line of a text.
    pub(crate) fn read(&mut self, alloc: Global, text: &str) -> Result<(), Stop> {
        self.clear()?;
        let mut words = text.split(' ');
        let word = words.next().unwrap_or("");
        let of_range = name_in_range(word);
        self.is_of_range = of_range.is_some();
        self.name.push_str(of_range.unwrap_or(word))?;
        for word in words {
            self.add(alloc, word)?;
        }
        Ok(())
    }

    /// A key behind the others, by its digits.
    fn add_key(&mut self, alloc: Global, digits: &[u8]) -> Result<(), Stop> {
        let mut key = self.spare.pop().unwrap_or(Vec::new(alloc));
        key.clear();
        put_bytes(&mut key, digits)?;
        push(&mut self.keys, key)
    }

    /// A word behind the others.
    fn add(&mut self, alloc: Global, word: &str) -> Result<(), Stop> {
        if let Some(digits) = word.strip_prefix('x') {
            self.add_key(alloc, digits.as_bytes())
        } else if let Ok(number) = word.parse::<u64>() {
            push(&mut self.numbers, number)
        } else if let Some(next) = move_of(word) {
            push(&mut self.moves, next)
        } else {
            Err(Stop::BadLine)
        }
    }

    /// The name of the call, that of a range without what tells that it is one.
    pub(crate) fn name(&self) -> &str {
        self.name.as_str()
    }

    /// A key, or the empty one where there are fewer.
    pub(crate) fn key(&self, place: usize) -> &[u8] {
        match self.keys.get(place) {
            Some(key) => key.as_slice(),
            None => &[],
        }
    }

    /// A number, or 0 where there are fewer.
    pub(crate) fn number(&self, place: usize) -> u64 {
        let first = if self.is_of_range { 1 } else { 0 };
        let number = self.numbers.get(place.saturating_add(first));
        number.copied().unwrap_or(0)
    }

    /// The number of the range that it calls.
    pub(crate) fn range(&self) -> usize {
        self.numbers.first().copied().unwrap_or(0) as usize
    }

    /// A number that counts.
    pub(crate) fn count(&self, place: usize) -> usize {
        self.number(place) as usize
    }
}

/// An item behind others.
fn push<T: Drop>(items: &mut Vec<T>, item: T) -> Result<(), Stop> {
    match items.push(item) {
        Ok(()) => Ok(()),
        Err(_) => Err(Stop::Failed),
    }
}

/// The name of a call of a range that is kept, which a word has behind `range_`.
fn name_in_range(word: &str) -> Option<&str> {
    match word {
        "range_at" => None,
        _ => word.strip_prefix("range_"),
    }
}

/// The move that a word names, where a number stands behind a colon.
fn move_of(word: &str) -> Option<Move> {
    let Some((name, number)) = word.split_once(':') else {
        return match word {
            "next" => Some(Move::Next),
            "delete" => Some(Move::Delete),
            _ => None,
        };
    };
    let Ok(number) = number.parse::<u64>() else {
        return None;
    };
    match name {
        "insert" => Some(Move::Insert(number)),
        "update" => Some(Move::Update(number)),
        "retain" => Some(Move::Retain(number)),
        "find" => Some(Move::Find(number)),
        _ => None,
    }
}

/// Puts the bytes of hexadecimal digits, two for each, behind others.
fn put_bytes(bytes: &mut Vec<u8>, digits: &[u8]) -> Result<(), Stop> {
    let mut high = None;
    for digit in digits {
        let Some(low) = value_of(*digit) else {
            return Err(Stop::BadLine);
        };
        high = match high {
            Some(high) => {
                push(bytes, high << 4 | low)?;
                None
            }
            None => Some(low),
        };
    }
    if high.is_some() {
        return Err(Stop::BadLine);
    }
    Ok(())
}

/// The value of a hexadecimal digit.
fn value_of(digit: u8) -> Option<u8> {
    match digit {
        b'0'..=b'9' => Some(digit - b'0'),
        b'a'..=b'f' => Some(digit - b'a' + 10),
        _ => None,
    }
}
