//! The table of positions, by itself.
ghost use Rattle.std.specs.Prelude.{◌≡◌, ◌<◌, None, slice_index_or, unwrap_or, vec_len};

use crate::answer::Answer;
use crate::line::{Line, Stop};
use crate::serve::{Request, Session};
use key_index::table::Table;
use key_index_flat::index::{Fault, Values};
use std::alloc::Global;
use std::marker::Model;

/// Positions are below this.
const POSITIONS: usize = 200;

/// A table, and the hash of each position that it stores. The memory of earlier answers serves later ones.
#[derive(Drop)]
pub(crate) struct Listed {
    table: Table,
    hashes: Vec<Option<u64>>,
    found: Vec<u64>,
}

impl Model for Listed {
    ghost use Rattle.std.specs.Prelude.{◌≡◌, ℕ, List, Option, None, length, slice_index_or};
    ghost use Rattle.key_index.specs.Table.{Stored};

    ghost Value = { List (Option ℕ) };

    ghost view = { λ f. f.hashes.items };

    ghost invariant = { λ f. (length f.hashes.items ≡ 200)
        × Stored f.table (λ p. slice_index_or f.hashes.items p None) };
}

impl Listed {
    /// A table that stores nothing.
    pub(crate) fn new(alloc: Global) -> Result<Listed, Stop> {
        let table = Table::with_capacity(alloc, 0)?;
        Ok(Listed {
            table,
            hashes: vec![in alloc; None; POSITIONS]?,
            found: Vec::new(alloc),
        })
    }

    /// Whether a position may be stored.
    fn is_free(&self, position: u64) -> bool {
        match self.hashes.get(position as usize) {
            Some(hash) => hash.is_none(),
            None => false,
        }
    }

    /// Stores a position where it isn't stored.
    fn insert(&mut self, hash: u64, position: u64) -> Result<(), Fault>
        requires { position < POSITIONS }
    {
        if self.hashes[position as usize].is_some() {
            return Ok(());
        }
        let hashes = &self.hashes;
        let resolver = |p: u64| -> u64
            requires { p < vec_len hashes.now }
            ensures { result ≡ unwrap_or (slice_index_or hashes.entry.now.items p None) 0 }
        { hashes[p as usize].unwrap_or(0) };
        self.table.insert(hash, position, resolver)?;
        self.hashes[position as usize] = Some(hash);
        Ok(())
    }

    /// Removes a position, and answers what the table does.
    fn remove(&mut self, hash: u64, position: u64) -> bool
        requires { position < POSITIONS }
    {
        let removed = self.table.remove(hash, position);
        if removed {
            self.hashes[position as usize] = None;
        }
        removed
    }

    /// The positions that are contained under a hash, in ascending order.
    fn tell_contained(&self, hash: u64, answer: &mut Answer) {
        let mut is_empty = true;
        for position in 0..POSITIONS as u64 {
            if self.table.contains(hash, position) {
                answer.number(position);
                is_empty = false;
            }
        }
        if is_empty {
            answer.word("none");
        }
    }

    /// The candidates of a hash, in ascending order.
    fn tell_candidates(&mut self, hash: u64, answer: &mut Answer) {
        self.found.clear();
        for position in self.table.candidates(hash) {
            if self.found.push(position).is_err() {
                answer.is_whole = false;
            }
        }
        self.found.sort_unstable();
        answer.values(Values::of_slice(self.found.as_slice()));
    }

    /// The counts of the table.
    fn tell_counts(&self, answer: &mut Answer) {
        answer.count(self.table.len());
        answer.flag(self.table.is_empty());
        answer.number(self.table.removals());
    }
}

/// `insert` of a position that isn't stored.
fn insert(listed: &mut Listed, hash: u64, position: u64, answer: &mut Answer) {
    if position < POSITIONS as u64 && listed.is_free(position) {
        answer.made(listed.insert(hash, position));
    } else {
        answer.word("unallowed");
    }
}

/// `remove`.
fn remove(listed: &mut Listed, hash: u64, position: u64, answer: &mut Answer) {
    if position < POSITIONS as u64 {
        answer.flag(listed.remove(hash, position));
    } else {
        answer.word("unallowed");
    }
}

/// A call of the table. Tells whether the line is one.
fn call(listed: &mut Listed, line: &Line, answer: &mut Answer) -> bool {
    let (hash, position) = (line.number(0), line.number(1));
    match line.name() {
        "insert" => insert(listed, hash, position, answer),
        "remove" => remove(listed, hash, position, answer),
        "contains" => listed.tell_contained(hash, answer),
        "candidates" => listed.tell_candidates(hash, answer),
        "counts" => listed.tell_counts(answer),
        _ => return false,
    }
    true
}

impl Session for Listed {
    type Range = ();

    fn call(&mut self, _ranges: &mut Vec<()>, request: &mut Request) -> Result<bool, Stop> {
        Ok(call(self, &request.line, &mut request.answer))
    }
}
