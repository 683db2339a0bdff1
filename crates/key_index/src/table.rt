//! A table of positions, found by the hashes that they are stored under.
ghost use Rattle.std.specs.Prelude.{◌≡◌, ℕ, ◌+◌, ◌-◌, ◌*◌, ◌^◌, ◌<◌, ◌≤◌, ◌==◌, ◌↔◌, Option, Some, None, IsTrue, OnOk, OnErr, IfOk, IfErr, IfSome, MatchOption, List, [], ◌∷◌, ◌++◌, length, map, min, slice_index, count_by, replicate, nat_lt};
ghost use Rattle.std.specs.Bool.{OnTrue, OnFalse};
ghost use Rattle.std.specs.Iterator.{YieldsFirst, item_count};
ghost use Rattle.std.specs.List.{All, Contains, find, range_with_len};
ghost use Rattle.key_index.specs.Table.{Cells, fingerprint, is_full, is_used, home, from_cell, marked, places, candidates, position_count, with_hash, without, Files, Stored, HasSize, AreCandidates, Resolves, IsPut};

mod controls;

use controls::{ControlSlice, Controls};
use key_index_flat::index::Fault;
use std::alloc::{AllocError, Global};
use std::marker::Model;

/// How many cells a table has at the least.
const LEAST_CELLS: usize = 8;

/// The top eight bits of a hash.
#[inline]
fn fingerprint(hash: u64) -> u8
    ensures { result ≡ fingerprint hash }
{
    (hash >> 56) as u8
}

/// The cell at which a search for a hash begins, of so many.
#[inline]
fn home_of(hash: u64, cells: usize) -> usize
    requires { 0 < cells }
    ensures home { result ≡ home cells hash }
    ensures within { result < cells }
{
    hash as usize & (cells - 1)
}

/// How many cells may be used before the table is made anew.
#[inline]
fn limit(cells: usize) -> usize
    requires { 0 < cells }
    ensures { result + 1 ≤ cells }
{
    cells / 4 * 3
}

/// The first cell in a range that holds no position.
#[inline]
fn free_between(controls: &ControlSlice<'_>, from: usize, to: usize) -> Option<usize>
    requires { to ≤ length controls.now }
    ensures first { result ≡ find (λ i. nat_lt (slice_index controls.now i) 2) (range_with_len from (to - from)) }
    ensures within { IfSome result (λ cell. cell < to) }
{
    for cell in from..to {
        if controls.is_free_at(cell) {
            return Some(cell);
        }
    }
    None
}

/// The first cell that holds no position, from one on and round to it.
#[inline]
fn free_from(controls: &ControlSlice<'_>, start: usize) -> usize
    requires start { start < length controls.now }
    requires free { count_by is_used controls.now < length controls.now }
    ensures first { find (λ i. nat_lt (slice_index controls.now i) 2) (from_cell (length controls.now) start)
        ≡ Some result }
    ensures within { result < length controls.now }
{
    if let Some(cell) = free_between(controls, start, controls.len()) {
        return cell;
    }
    let Some(cell) = free_between(controls, 0, start) else {
        unreachable!()
    };
    cell
}

/// The cells that a search for a hash finds.
#[derive(Drop)]
struct Places<'a> {
    controls: ControlSlice<'a>,
    wanted: u8,
    next: usize,
    end: usize,
    rest: usize,
}

impl<'a> Model for Places<'a> {
    ghost use Rattle.std.specs.Prelude.{◌≤◌, ◌<◌, ◌^◌, ◌+◌, ◌-◌, ◌++◌, List, ℕ, length};
    ghost use Rattle.std.specs.List.{range_with_len};
    ghost use Rattle.key_index.specs.Table.{marked};

    ghost Value = { List ℕ };

    ghost view = { λ s. marked s.controls (s.wanted + 2)
        (range_with_len s.next (s.end - s.next) ++ range_with_len 0 s.rest) };

    ghost invariant = { λ s. (s.next ≤ s.end) × (s.end ≤ length s.controls) × (s.rest ≤ length s.controls)
        × (length s.controls < 2 ^ 64) };
}

impl<'a> Places<'a> {
    #[inline]
    fn new(controls: &'a Controls, hash: u64) -> Places<'a>
        requires { 0 < length controls.now }
        ensures { result ≡ places controls.now hash }
    {
        let end = controls.len();
        let start = home_of(hash, end);
        Places {
            controls: controls.as_slice(),
            wanted: fingerprint(hash),
            next: start,
            end,
            rest: start,
        }
    }

    /// The next of them.
    #[inline]
    fn next(&mut self) -> Option<usize>
        ensures { MatchOption result ((self.old ≡ []) × (self.new ≡ [])) (λ cell. self.old ≡ cell ∷ self.new) }
    {
        loop {
            if self.next == self.end {
                if self.rest == 0 {
                    return None;
                }
                self.next = 0;
                self.end = self.rest;
                self.rest = 0;
                continue;
            }
            let cell = self.next;
            if self.controls.is_empty_at(cell) {
                self.end = cell;
                self.rest = 0;
                return None;
            }
            self.next += 1;
            if self.controls.has(cell, self.wanted) {
                return Some(cell);
            }
        }
    }
}

/// The cell of a position among those that a search for a hash finds.
#[inline]
fn cell_of(controls: &Controls, positions: &[u64], hash: u64, position: u64) -> Option<usize>
    requires cells { 0 < length controls.now }
    requires sized { length positions.now ≡ length controls.now }
    ensures { result ≡ find (λ i. slice_index positions.now i == position) (places controls.now hash) }
{
    let mut places = Places::new(controls, hash);
    while let Some(cell) = places.next() {
        if positions[cell] == position {
            return Some(cell);
        }
    }
    None
}

/// Puts a position into the first cell without one. Answers whether that cell was empty.
#[inline]
fn put(controls: &mut Controls, positions: &mut Vec<u64>, hash: u64, position: u64) -> bool
    requires free { count_by is_used controls.old < length controls.old }
    requires sized { length positions.old.items ≡ length controls.old }
    ensures { IsPut controls.old positions.old.items hash position controls.new positions.new.items result }
{
    let slice = controls.as_slice();
    let cell = free_from(&slice, home_of(hash, slice.len()));
    let empty = slice.is_empty_at(cell);
    controls.fill(cell, fingerprint(hash));
    positions[cell] = position;
    empty
}

/// Puts all positions of some cells into empty ones, by the hashes that the resolver answers.
fn put_all<F: Fn(u64) -> u64>(
    controls: &ControlSlice<'_>,
    positions: &[u64],
    new_controls: &mut Controls,
    new_positions: &mut Vec<u64>,
    resolver: &F,
)
    requires sized { length positions.now ≡ length controls.now }
    requires new_sized { length new_positions.old.items ≡ length new_controls.old }
    requires empty { new_controls.old ≡ replicate (length new_controls.old) 0 }
    requires room { count_by is_full controls.now < length new_controls.old }
    requires resolver { (m : ℕ → Option ℕ) × Files controls.now positions.now m
        × Resolves (F.pre resolver.now) (F.post resolver.now) m }
    ensures files { (m : ℕ → Option ℕ) → Files controls.now positions.now m
        → Resolves (F.pre resolver.now) (F.post resolver.now) m
        → Files new_controls.new new_positions.new.items m }
    ensures full { count_by is_full new_controls.new ≡ count_by is_full controls.now }
    ensures used { count_by is_used new_controls.new ≡ count_by is_full controls.now }
    ensures sized { length new_positions.new.items ≡ length new_controls.new }
    ensures long { length new_controls.new ≡ length new_controls.old }
{
    for cell in 0..controls.len() {
        if controls.is_free_at(cell) {
            continue;
        }
        let position = positions[cell];
        let hash = resolver(position);
        put(new_controls, new_positions, hash, position);
    }
}

/// Empty cells for some positions, so many that they need not be made anew for them.
fn cells_for(capacity: usize) -> Option<usize>
    ensures { IfSome result (λ cells. 0 < cells) }
{
    let cells = capacity.checked_add(capacity / 3 + 1)?;
    Some(cells.checked_next_power_of_two()?.max(LEAST_CELLS))
}

/// So many empty cells.
fn empty_cells(alloc: Global, cells: usize) -> Result<(Controls, Vec<u64>), AllocError>
    ensures { IfOk result (λ s. (s.0 ≡ replicate cells 0) × (s.1.items ≡ replicate cells 0)) }
{
    Ok((Controls::new(alloc, cells)?, vec![in alloc; 0; cells]?))
}

/// The positions under one hash, and some under others that have its fingerprint.
#[derive(Drop)]
pub struct Candidates<'a> {
    places: Places<'a>,
    positions: &'a [u64],
}

impl<'a> Model for Candidates<'a> {
    ghost use Rattle.std.specs.Prelude.{◌<◌, List, ℕ, length, map, slice_index};
    ghost use Rattle.std.specs.List.{All};

    ghost Value = { List ℕ };

    ghost view = { λ s. map (slice_index s.positions.now) s.places };

    ghost invariant = { λ s. All (λ i. i < length s.positions.now) s.places };
}

impl<'a> Iterator for Candidates<'a> {
    type Item = u64;

    ghost next_gives = { YieldsFirst (λ positions. positions) };

    ghost remaining = { item_count (λ positions. positions) };

    #[inline]
    fn next(&mut self) -> Option<u64> {
        match self.places.next() {
            Some(cell) => Some(self.positions[cell]),
            None => None,
        }
    }
}

/// Positions, each under a hash. It keeps of a hash the top eight bits alone: who asks by a hash is given each position
/// under it, and perhaps others whose hashes have the same top eight bits.
#[derive(Drop)]
pub struct Table {
    controls: Controls,
    positions: Vec<u64>,
    len: usize,
    used: usize,
    removals: u64,
}

impl Model for Table {
    ghost use Rattle.key_index.specs.Table.{Cells, AreCells};

    ghost Value = { Cells };

    ghost view = { λ t. record { controls = t.controls; positions = t.positions.items; removals = t.removals } };

    ghost invariant = { λ t. AreCells t.controls t.positions.items t.len t.used };
}

impl Table {
    /// No positions, with room for so many.
    pub fn with_capacity(alloc: Global, capacity: usize) -> Result<Table, Fault>
        ensures empty { IfOk result (λ t. Stored t (λ _. None)) }
        ensures removals { IfOk result (λ t. t.removals ≡ 0) }
        ensures fault { IfErr result (λ fault. fault ≡ Fault.Memory) }
    {
        let Some(cells) = cells_for(capacity) else {
            return Err(Fault::Memory);
        };
        let Ok((controls, positions)) = empty_cells(alloc, cells) else {
            return Err(Fault::Memory);
        };
        Ok(Table {
            controls,
            positions,
            len: 0,
            used: 0,
            removals: 0,
        })
    }

    /// How many positions are stored.
    pub fn len(&self) -> usize
        ensures count { result ≡ position_count self.now }
        ensures size { (m : ℕ → Option ℕ) → Stored self.now m → HasSize m result }
    {
        self.len
    }

    pub fn is_empty(&self) -> bool
        ensures { result ≡ (position_count self.now == 0) }
    {
        self.len == 0
    }

    /// How often a position was to be removed, also where it wasn't there. It stops at `u64::MAX`.
    pub fn removals(&self) -> u64
        ensures { result ≡ self.now.removals }
    {
        self.removals
    }

    /// The positions under a hash, each once, and perhaps others whose hashes have the same top eight bits. Takes no memory.
    #[inline]
    pub fn candidates(&self, hash: u64) -> Candidates<'_>
        ensures positions { result ≡ candidates self.now hash }
        ensures stored { (m : ℕ → Option ℕ) → Stored self.now m → AreCandidates m hash result }
    {
        Candidates {
            places: Places::new(&self.controls, hash),
            positions: self.positions.as_slice(),
        }
    }

    /// Whether a position is among the candidates of a hash: true where it is stored under it, and false where it isn't stored.
    #[inline]
    pub fn contains(&self, hash: u64, position: u64) -> bool
        ensures { IsTrue result ↔ Contains (candidates self.now hash) position }
    {
        cell_of(&self.controls, &self.positions, hash, position).is_some()
    }

    /// Makes cells anew that have no marks of removed positions, and twice as many where half of them are full.
    fn remake<F: Fn(u64) -> u64>(&mut self, resolver: &F) -> Result<(), Fault>
        requires { (m : ℕ → Option ℕ) × Stored self.old m × Resolves (F.pre resolver.now) (F.post resolver.now) m }
        ensures stored { OnOk result ((m : ℕ → Option ℕ) → Stored self.old m
            → Resolves (F.pre resolver.now) (F.post resolver.now) m → Stored self.new m) }
        ensures removals { OnOk result (self.new.removals ≡ self.old.removals) }
        ensures count { OnOk result (position_count self.new ≡ position_count self.old) }
        ensures room { OnOk result (count_by is_used self.new.controls + 1 < length self.new.controls) }
        ensures refused { OnErr result (self.new ≡ self.old) }
        ensures fault { IfErr result (λ fault. fault ≡ Fault.Memory) }
    {
        let mut cells = self.controls.len();
        if cells / 2 <= self.len {
            let Some(more) = cells.checked_mul(2) else {
                return Err(Fault::Memory);
            };
            cells = more;
        }
        let Ok((mut controls, mut positions)) = empty_cells(self.controls.alloc(), cells) else {
            return Err(Fault::Memory);
        };
        put_all(
            &self.controls.as_slice(),
            &self.positions,
            &mut controls,
            &mut positions,
            resolver,
        );
        self.controls = controls;
        self.positions = positions;
        self.used = self.len;
        Ok(())
    }

    /// Stores a position that isn't stored yet under a hash. The resolver answers the hash of each stored position, which
    /// is asked where the table is made anew. A refusal changes nothing.
    #[inline]
    pub fn insert<F: Fn(u64) -> u64>(
        &mut self,
        hash: u64,
        position: u64,
        resolver: F,
    ) -> Result<(), Fault>
        requires { (m : ℕ → Option ℕ) × Stored self.old m × (m position ≡ None)
            × Resolves (F.pre resolver) (F.post resolver) m }
        ensures stored { OnOk result ((m : ℕ → Option ℕ) → Stored self.old m → m position ≡ None
            → Resolves (F.pre resolver) (F.post resolver) m → Stored self.new (with_hash m position hash)) }
        ensures removals { OnOk result (self.new.removals ≡ self.old.removals) }
        ensures count { OnOk result (position_count self.new ≡ position_count self.old + 1) }
        ensures refused { OnErr result (self.new ≡ self.old) }
        ensures fault { IfErr result (λ fault. fault ≡ Fault.Memory) }
    {
        if limit(self.controls.len()) <= self.used {
            self.remake(&resolver)?;
        }
        self.place(hash, position);
        Ok(())
    }

    /// Stores a position where the cells need not be made anew.
    #[inline]
    fn place(&mut self, hash: u64, position: u64)
        requires { count_by is_used self.old.controls + 1 < length self.old.controls }
        ensures stored { (m : ℕ → Option ℕ) → Stored self.old m → m position ≡ None
            → Stored self.new (with_hash m position hash) }
        ensures removals { self.new.removals ≡ self.old.removals }
        ensures count { position_count self.new ≡ position_count self.old + 1 }
    {
        let empty = put(&mut self.controls, &mut self.positions, hash, position);
        self.len += 1;
        if empty {
            self.used += 1;
        }
    }

    /// Removes a position from the candidates of a hash, and answers whether it was among them. Takes no memory.
    #[inline]
    pub fn remove(&mut self, hash: u64, position: u64) -> bool
        ensures removed { IsTrue result ↔ Contains (candidates self.old hash) position }
        ensures stored { OnTrue result ((m : ℕ → Option ℕ) → Stored self.old m → Stored self.new (without m position)) }
        ensures count { OnTrue result (position_count self.new + 1 ≡ position_count self.old) }
        ensures rest { OnFalse result ((self.new.controls ≡ self.old.controls)
            × (self.new.positions ≡ self.old.positions)) }
        ensures removals { self.new.removals ≡ min (self.old.removals + 1) (2 ^ 64 - 1) }
    {
        self.removals = self.removals.saturating_add(1);
        let Some(cell) = cell_of(&self.controls, &self.positions, hash, position) else {
            return false;
        };
        self.controls.remove(cell);
        self.len -= 1;
        true
    }
}
