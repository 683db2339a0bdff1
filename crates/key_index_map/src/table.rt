//! Pairs in cells, each with a tag, sixteen to a group, which are compared at once.
ghost use Rattle.std.specs.Prelude.{◌≡◌, ◌≢◌, ℕ, ◌+◌, ◌*◌, ◌<◌, ◌≤◌, List, [], Option, Some, None, IfOk, IfErr, IfSome, IfNone, IsOk, OnOk, OnErr, length, slice_get, slice_index, slice_index_or, unwrap_or, is_some, nat_eq, if◌then◌else◌, false, true};
ghost use Rattle.std.specs.Borrow.{sem};
ghost use Rattle.std.specs.Iterator.{YieldsFirstRef, item_count};
ghost use Rattle.std.specs.Map.{lookup};
ghost use Rattle.std.specs.Option.{IsSome, option_copied, option_copied_mut};
ghost use Rattle.key_index_map.specs.Tags.{IsIn};
ghost use Rattle.key_index_map.specs.Table.{Cells, IsAt, IsEmptyIn, IsFreeIn, IsFirstFree, IsTagWithout, NoneIn, Found, Seen, Stopped, Updates, hash_of, tag_of, home, home_in, held, is_held, limit, pairs, with_value};

use crate::room::{Block, Deed, free, release_emptied, row_of, try_allocate};
use crate::row::Row;
use crate::tags::{EMPTY, GROUP, Tags};
use std::alloc::{AllocError, Global};
use std::hash::{BuildHasher, BuildHasherDefault, FoldHasher, Hash};
use std::marker::Model;
use std::mem::{replace, swap};

/// The tag of a cell whose pair was removed while its group had no empty one.
const REMOVED: u8 = 1;
/// The tag of a place of the one group that has no cell.
const NO_CELL: u8 = 2;
/// The least tag of a cell with a pair.
const LEAST: u8 = 3;

/// How many cells a table has at the least.
const FEWEST: usize = 4;

#[inline(always)]
pub(crate) fn hash_of<K: Hash + Copy>(key: K) -> u64
    ensures { result ≡ hash_of (K.hash_input key) }
{
    BuildHasherDefault::<FoldHasher>::new().hash_one(key)
}

/// The tag of a cell with a pair, by the hash of its key.
#[inline(always)]
fn tag_of(hash: u64) -> u8
    ensures { result ≡ tag_of hash }
{
    ((hash >> 56) as u8).max(LEAST)
}

/// The group at which a search for a hash begins.
#[inline(always)]
fn home_of(hash: u64, groups: usize) -> usize
    requires { 0 < groups }
    ensures home { result ≡ home groups hash }
    ensures within { result < groups }
{
    hash as usize & (groups - 1)
}

/// How many pairs so many cells may have, so that a search meets an empty cell soon.
#[inline]
fn limit(cells: usize) -> usize
    ensures { result ≡ limit cells }
{
    if cells <= GROUP { cells } else { cells / 8 * 7 }
}

/// Gives all places from one on a tag.
fn fill(tags: &mut Tags, from: usize, tag: u8)
    ensures long { length tags.new ≡ length tags.old }
    ensures before { (i : ℕ) → i < from → slice_index tags.new i ≡ slice_index tags.old i }
    ensures behind { (i : ℕ) → from ≤ i → i < length tags.old → slice_index tags.new i ≡ tag }
{
    let mut place = from;
    while place < tags.len() {
        tags.set(place, tag);
        place += 1;
    }
}

/// The fewest cells that may have so many pairs, of so many and their doubles.
fn cells_for(len: usize, least: usize) -> Option<usize>
    requires { 0 < least }
    ensures { IfSome result (λ cells. (0 < cells) × (len ≤ limit cells)) }
{
    let mut cells = least;
    while limit(cells) < len {
        cells = cells.checked_mul(2)?;
    }
    Some(cells)
}

/// How many empty cells may have a pair yet, once the cell with this tag has one.
#[inline(always)]
fn left_with(tag: u8, left: usize) -> usize
    requires { 0 < left }
    ensures sum { result + (if nat_eq tag 0 then 1 else 0) ≡ left }
    ensures room { left ≤ result + 1 }
{
    if tag == EMPTY { left - 1 } else { left }
}

/// The same, once a cell without its pair has this tag.
#[inline(always)]
fn left_without(tag: u8, left: usize) -> usize
    requires { left < usize.MAX }
    ensures { result ≡ left + (if nat_eq tag 0 then 1 else 0) }
{
    if tag == EMPTY { left + 1 } else { left }
}

/// Where a search through some groups ended.
#[derive(Drop)]
enum Search {
    /// At the cell with the key.
    Found(usize),
    /// At a group with an empty cell, this one: no further group has the key.
    Absent(usize),
    /// Behind the last of them.
    Onward,
}

/// Cells for pairs, before the first one comes.
pub(crate) struct Room<K, V> {
    tags: Tags,
    block: Block<(K, V), Global>,
    cells: usize,
}

// How many pairs there is room for.
impl<K, V> Model for Room<K, V> {
    ghost use Rattle.std.specs.Prelude.{◌≡◌, ℕ, length, ◌/◌};
    ghost use Rattle.key_index_map.specs.Table.{AreEmpty, limit};

    ghost Value = { ℕ };

    ghost view = { λ r. limit r.cells };

    ghost invariant = { λ r. AreEmpty r.tags (length r.tags / 16) r.cells × (r.block.len ≡ r.cells) };
}

impl<K, V> Room<K, V> {
    /// So many empty cells.
    fn with_cells(alloc: Global, cells: usize) -> Result<Room<K, V>, AllocError>
        requires { 0 < cells }
        ensures { IfOk result (λ room. room ≡ limit cells) }
    {
        let groups = (cells - 1) / GROUP + 1;
        let mut tags = Tags::empty(alloc, groups)?;
        fill(&mut tags, cells, NO_CELL);
        let block = try_allocate(&alloc, cells)?;
        Ok(Room { tags, block, cells })
    }

    /// The fewest cells.
    pub(crate) fn fewest(alloc: Global) -> Result<Room<K, V>, AllocError> {
        Room::with_cells(alloc, FEWEST)
    }

    /// Cells for so many pairs.
    pub(crate) fn with_capacity(alloc: Global, capacity: usize) -> Result<Room<K, V>, AllocError>
        ensures { IfOk result (λ room. capacity ≤ room) }
    {
        let Some(cells) = cells_for(capacity, FEWEST) else {
            return Err(AllocError);
        };
        Room::with_cells(alloc, cells)
    }

    /// How many pairs there is room for.
    pub(crate) fn spare(&self) -> usize
        ensures { result ≡ self.now }
    {
        limit(self.cells)
    }
}

impl<K, V> Drop for Room<K, V> {
    fn drop(self) {
        let Room {
            tags,
            block,
            cells: _,
        } = self;
        free(tags.allocator(), block);
    }
}

/// Pairs in cells, each with a tag. `left` is how many empty cells may have one yet.
pub struct Table<K: Ord + Hash + Copy, V> {
    // What a look-up reads stands together.
    row: Row<(K, V)>,
    tags: Tags,
    deed: Deed<(K, V), Global>,
    len: usize,
    left: usize,
}

impl<K: Ord + Hash + Copy, V> Model for Table<K, V> {
    ghost use Rattle.std.specs.Prelude.{◌≡◌, length, ◌/◌};
    ghost use Rattle.core.specs.Mem.Slots.{slots_items, slots_filled, slots_len, slots_ptr};
    ghost use Rattle.key_index_map.specs.Table.{Cells, AreCells};

    ghost Value = { Cells K V };

    ghost view = { λ t. record { tags = t.tags; items = slots_items t.row; spare = t.left } };

    ghost invariant = { λ t. AreCells K.eq K.hash_input t.tags (slots_items t.row) (slots_filled t.row)
        (length t.tags / 16) t.len t.left × (t.deed.at ≡ slots_ptr t.row) × (t.deed.len ≡ slots_len t.row) };
}

impl<K: Ord + Hash + Copy, V> Table<K, V> {
    ghost use Rattle.key_index_map.specs.TableLent.{lends_cell, lends_get};

    #[inline(always)]
    pub fn len(&self) -> usize
        ensures { result ≡ length (pairs self.now) }
    {
        self.len
    }

    /// The cell of the group that has the key, by one tag after another.
    #[inline(never)]
    fn scan(&self, group: usize, tag: u8, key: &K) -> Option<usize>
        requires group { 16 * group + 16 ≤ length self.now.tags }
        requires tag { tag ≡ tag_of (hash_of (K.hash_input key.now)) }
        ensures found { IfSome result (λ cell. IsAt K.eq self.now cell key.now) }
        ensures none { IfNone result (NoneIn K.eq self.now (16 * group) (16 * group + 16) key.now) }
    {
        // For the prover: this call's contract says that the places can be counted.
        let _places = self.tags.len();
        let mut cell = GROUP * group;
        let end = cell + GROUP;
        while cell < end {
            if self.tags.at_in(group, cell) == tag && *key == self.row.get(cell).0 {
                return Some(cell);
            }
            cell += 1;
        }
        None
    }

    /// The cell of the group that has the key.
    #[inline(always)]
    fn cell_in(&self, group: usize, tag: u8, key: &K) -> Option<usize>
        requires group { 16 * group + 16 ≤ length self.now.tags }
        requires tag { tag ≡ tag_of (hash_of (K.hash_input key.now)) }
        ensures found { IfSome result (λ cell. IsAt K.eq self.now cell key.now) }
        ensures none { IfNone result (NoneIn K.eq self.now (16 * group) (16 * group + 16) key.now) }
    {
        let cell = self.tags.place_with(group, tag)?;
        if *key == self.row.get(cell).0 {
            return Some(cell);
        }
        self.scan(group, tag, key)
    }

    /// Searches some groups in a row for a key.
    #[inline(always)]
    fn search(&self, from: usize, to: usize, tag: u8, key: &K) -> Search
        requires groups { 16 * to ≤ length self.now.tags }
        requires tag { tag ≡ tag_of (hash_of (K.hash_input key.now)) }
        ensures { Found K.eq self.now from to key.now result }
    {
        let mut group = from;
        while group < to {
            if let Some(cell) = self.cell_in(group, tag, key) {
                return Search::Found(cell);
            }
            if let Some(empty) = self.tags.place_with(group, EMPTY) {
                return Search::Absent(empty);
            }
            group += 1;
        }
        Search::Onward
    }

    /// The cell of a key. Each group is looked at once at the most.
    #[inline(never)]
    fn find_in_all(&self, hash: u64, key: K) -> Option<usize>
        requires { hash ≡ hash_of (K.hash_input key) }
        ensures found { IfSome result (λ cell. IsAt K.eq self.now cell key) }
        ensures present { IfSome result (λ _. IsSome (lookup (K.eq key) (pairs self.now))) }
        ensures none { IfNone result (lookup (K.eq key) (pairs self.now) ≡ None) }
    {
        let tag = tag_of(hash);
        let groups = self.tags.groups();
        let home = home_of(hash, groups);
        match self.search(home, groups, tag, &key) {
            Search::Found(cell) => Some(cell),
            Search::Absent(_) => None,
            Search::Onward => match self.search(0, home, tag, &key) {
                Search::Found(cell) => Some(cell),
                _ => None,
            },
        }
    }

    /// A look at the first group of a search alone, where most of them end. `Onward` tells nothing.
    #[inline(always)]
    fn look(&self, hash: u64, key: &K) -> Search
        requires { hash ≡ hash_of (K.hash_input key.now) }
        ensures { Seen K.eq self.now hash key.now result }
    {
        let home = home_of(hash, self.tags.groups());
        match self.tags.place_with(home, tag_of(hash)) {
            Some(first) => {
                if *key == self.row.get(first).0 {
                    return Search::Found(first);
                }
                Search::Onward
            }
            None => match self.tags.place_with(home, EMPTY) {
                Some(cell) => Search::Absent(cell),
                None => Search::Onward,
            },
        }
    }

    /// The cell of a key.
    #[inline(always)]
    pub(crate) fn find(&self, hash: u64, key: &K) -> Option<usize>
        requires { hash ≡ hash_of (K.hash_input key.now) }
        ensures found { IfSome result (λ cell. IsAt K.eq self.now cell key.now) }
        ensures present { IfSome result (λ _. IsSome (lookup (K.eq key.now) (pairs self.now))) }
        ensures none { IfNone result (lookup (K.eq key.now) (pairs self.now) ≡ None) }
    {
        match self.look(hash, key) {
            Search::Found(cell) => Some(cell),
            Search::Absent(_) => None,
            Search::Onward => self.find_in_all(hash, *key),
        }
    }

    #[inline(always)]
    pub fn get(&self, key: &K) -> Option<&V>
        ensures { option_copied result ≡ lookup (K.eq key.now) (pairs self.now) }
    {
        match self.find(hash_of(*key), key) {
            Some(cell) => Some(&self.row.get(cell).1),
            None => None,
        }
    }

    /// The value in a cell.
    #[inline(always)]
    pub(crate) fn value_mut(&mut self, cell: usize, key: K) -> &mut V
        requires { IsAt K.eq self.old cell key }
        ensures* lends { sem 𝓛 (lends_cell K.row V.row K.Ord K.Hash self.entry cell result) }
        ensures value { Some result.now ≡ lookup (K.eq key) (pairs self.old) }
        ensures written { (w : V) → Updates K.eq (pairs self.old) (pairs (with_value self.old cell w)) key (Some w) }
        ensures len { (w : V) → length (pairs (with_value self.old cell w)) ≡ length (pairs self.old) }
    {
        &mut self.row.get_mut(cell).1
    }

    /// A free cell in some groups in a row.
    #[inline(always)]
    fn free_in(&self, from: usize, to: usize) -> Option<usize>
        requires groups { 16 * to ≤ length self.now.tags }
        ensures { IsFreeIn self.now from to result }
    {
        let mut group = from;
        while group < to {
            if let Some(cell) = self.tags.place_with(group, EMPTY) {
                return Some(cell);
            }
            if let Some(cell) = self.tags.place_with(group, REMOVED) {
                return Some(cell);
            }
            group += 1;
        }
        None
    }

    /// The first free cell that a search from a group meets.
    #[inline(never)]
    fn free_from(&self, home: usize) -> usize
        requires home { 16 * home < length self.now.tags }
        requires room { length (pairs self.now) < length self.now.items }
        ensures { IsFirstFree self.now home result }
    {
        if let Some(cell) = self.free_in(home, self.tags.groups()) {
            return cell;
        }
        let Some(cell) = self.free_in(0, home) else {
            unreachable!()
        };
        cell
    }

    /// Puts the pair of a key that has none in a free cell of a group that a search for it comes to. So much room is left then.
    #[inline(always)]
    fn put_at(&mut self, group: usize, cell: usize, tag: u8, left: usize, pair: (K, V))
        requires group { IsIn group cell }
        requires free { IsFirstFree self.old (home_in self.old (hash_of (K.hash_input pair.0))) cell }
        requires tag { tag ≡ tag_of (hash_of (K.hash_input pair.0)) }
        requires left { left + (if nat_eq (slice_index self.old.tags cell) 0 then 1 else 0) ≡ self.old.spare }
        requires room { 0 < self.old.spare }
        requires absent { lookup (K.eq pair.0) (pairs self.old) ≡ None }
        ensures updates { Updates K.eq (pairs self.old) (pairs self.new) pair.0 (Some pair.1) }
        ensures len { length (pairs self.new) ≡ length (pairs self.old) + 1 }
        ensures room { self.old.spare ≤ self.new.spare + 1 }
    {
        self.left = left;
        self.tags.set_in(group, cell, tag);
        self.row.put(cell, pair);
        self.len += 1;
    }

    /// `put`, in the first free cell that a search from a group meets.
    #[inline(never)]
    fn put_from(&mut self, home: usize, tag: u8, pair: (K, V))
        requires within { 16 * home < length self.old.tags }
        requires home { home ≡ home_in self.old (hash_of (K.hash_input pair.0)) }
        requires tag { tag ≡ tag_of (hash_of (K.hash_input pair.0)) }
        requires absent { lookup (K.eq pair.0) (pairs self.old) ≡ None }
        requires room { 0 < self.old.spare }
        ensures updates { Updates K.eq (pairs self.old) (pairs self.new) pair.0 (Some pair.1) }
        ensures len { length (pairs self.new) ≡ length (pairs self.old) + 1 }
        ensures room { self.old.spare ≤ self.new.spare + 1 }
    {
        let cell = self.free_from(home);
        let left = left_with(self.tags.at(cell), self.left);
        self.put_at(cell / GROUP, cell, tag, left, pair);
    }

    /// Puts in the pair of a key that has none, whose cell gets this tag.
    #[inline(always)]
    fn put(&mut self, hash: u64, tag: u8, pair: (K, V))
        requires hash { hash ≡ hash_of (K.hash_input pair.0) }
        requires tag { tag ≡ tag_of hash }
        requires absent { lookup (K.eq pair.0) (pairs self.old) ≡ None }
        requires room { 0 < self.old.spare }
        ensures updates { Updates K.eq (pairs self.old) (pairs self.new) pair.0 (Some pair.1) }
        ensures len { length (pairs self.new) ≡ length (pairs self.old) + 1 }
        ensures room { self.old.spare ≤ self.new.spare + 1 }
    {
        let home = home_of(hash, self.tags.groups());
        match self.tags.place_with(home, EMPTY) {
            Some(cell) => self.put_at(home, cell, tag, self.left - 1, pair),
            None => self.put_from(home, tag, pair),
        }
    }

    /// Puts the pair of a key that has none in the cell at which a look for it ended.
    #[inline(always)]
    fn put_seen(&mut self, hash: u64, cell: usize, pair: (K, V))
        requires hash { hash ≡ hash_of (K.hash_input pair.0) }
        requires absent { lookup (K.eq pair.0) (pairs self.old) ≡ None }
        requires free { IsFirstFree self.old (home_in self.old hash) cell }
        requires empty { IsEmptyIn self.old (home_in self.old hash) cell }
        requires room { 0 < self.old.spare }
        ensures updates { Updates K.eq (pairs self.old) (pairs self.new) pair.0 (Some pair.1) }
        ensures len { length (pairs self.new) ≡ length (pairs self.old) + 1 }
        ensures room { self.old.spare ≤ self.new.spare + 1 }
    {
        let home = home_of(hash, self.tags.groups());
        self.put_at(home, cell, tag_of(hash), self.left - 1, pair);
    }

    /// The tag of a cell of a group, whose pair goes. No search comes to further groups than before.
    #[inline(always)]
    fn tag_without(&self, group: usize) -> u8
        requires { 16 * group + 16 ≤ length self.now.tags }
        ensures { IsTagWithout self.now group result }
    {
        match self.tags.place_with(group, EMPTY) {
            Some(_) => EMPTY,
            None => REMOVED,
        }
    }

    /// Takes the pair out of the cell of a key.
    #[inline(always)]
    fn take(&mut self, group: usize, cell: usize, key: K) -> V
        requires group { IsIn group cell }
        requires at { IsAt K.eq self.old cell key }
        ensures value { Some result ≡ lookup (K.eq key) (pairs self.old) }
        ensures updates { Updates K.eq (pairs self.old) (pairs self.new) key None }
        ensures len { length (pairs self.new) + 1 ≡ length (pairs self.old) }
        ensures room { self.old.spare ≤ self.new.spare }
    {
        let tag = self.tag_without(group);
        let left = left_without(tag, self.left);
        self.left = left;
        self.len -= 1;
        self.tags.set_in(group, cell, tag);
        let (_, value) = self.row.take(cell);
        value
    }

    /// Moves the pairs into a table that has none and has room for them.
    fn move_into(self, new: &mut Table<K, V>)
        requires empty { pairs new.old ≡ [] }
        requires room { length (pairs self) ≤ new.old.spare }
        ensures values { (q : K) → lookup (K.eq q) (pairs new.new) ≡ lookup (K.eq q) (pairs self) }
        ensures len { length (pairs new.new) ≡ length (pairs self) }
        ensures room { new.old.spare ≤ new.new.spare + length (pairs self) }
    {
        let Table {
            tags,
            mut row,
            deed,
            len: _,
            left: _,
        } = self;
        let mut group = 0;
        let mut cell = 0;
        while cell < row.len() {
            let end = cell + GROUP.min(row.len() - cell);
            while cell < end {
                let tag = tags.at_in(group, cell);
                if tag < LEAST {
                    cell += 1;
                    continue;
                }
                let pair = row.take(cell);
                new.put(hash_of(pair.0), tag, pair);
                cell += 1;
            }
            group += 1;
        }
        release_emptied(tags.allocator(), row.into_slots(), deed);
    }

    /// Makes room for more pairs, in more cells or in as many without marks of removed pairs. A refusal changes nothing.
    #[inline(never)]
    fn grow(&mut self, additional: usize) -> Result<(), AllocError>
        ensures values { OnOk result ((q : K) → lookup (K.eq q) (pairs self.new) ≡ lookup (K.eq q) (pairs self.old)) }
        ensures len { OnOk result (length (pairs self.new) ≡ length (pairs self.old)) }
        ensures room { OnOk result (additional ≤ self.new.spare) }
        ensures refused { OnErr result (self.new ≡ self.old) }
    {
        let Some(len) = self.len.checked_add(additional) else {
            return Err(AllocError);
        };
        let Some(cells) = cells_for(len, self.row.len()) else {
            return Err(AllocError);
        };
        let mut new = Room::with_cells(*self.tags.allocator(), cells)?.into_table();
        swap(self, &mut new);
        new.move_into(self);
        Ok(())
    }

    /// Makes room for so many more pairs. Where the pairs have to move for it, there is room for an eighth of them more at least, so that
    /// they move seldom. A refusal changes nothing.
    #[inline(always)]
    pub(crate) fn reserve(&mut self, additional: usize) -> Result<(), AllocError>
        ensures values { (q : K) → lookup (K.eq q) (pairs self.new) ≡ lookup (K.eq q) (pairs self.old) }
        ensures len { length (pairs self.new) ≡ length (pairs self.old) }
        ensures room { OnOk result (additional ≤ self.new.spare) }
        ensures spare { self.old.spare ≤ self.new.spare }
        ensures refused { OnErr result (self.new ≡ self.old) }
        ensures succeeds { additional ≤ self.old.spare → IsOk result }
    {
        if additional <= self.left {
            return Ok(());
        }
        self.grow(additional.max(self.len / 8 + 1))
    }

    /// Puts in the value of a key that has none.
    #[inline(never)]
    pub(crate) fn add(&mut self, hash: u64, key: K, value: V) -> Result<(), V>
        requires hash { hash ≡ hash_of (K.hash_input key) }
        requires absent { lookup (K.eq key) (pairs self.old) ≡ None }
        ensures updates { OnOk result (Updates K.eq (pairs self.old) (pairs self.new) key (Some value)) }
        ensures len { OnOk result (length (pairs self.new) ≡ length (pairs self.old) + 1) }
        ensures refused { OnErr result (self.new ≡ self.old) }
        ensures returned { IfErr result (λ back. back ≡ value) }
        ensures room { self.old.spare ≤ self.new.spare + 1 }
        ensures succeeds { 0 < self.old.spare → IsOk result }
    {
        if self.reserve(1).is_err() {
            return Err(value);
        }
        self.put(hash, tag_of(hash), (key, value));
        Ok(())
    }

    /// A table of one pair, in so much room, which must be for one at least.
    #[inline(never)]
    pub(crate) fn with_one(room: Room<K, V>, hash: u64, key: K, value: V) -> Table<K, V>
        requires hash { hash ≡ hash_of (K.hash_input key) }
        ensures updates { Updates K.eq [] (pairs result) key (Some value) }
        ensures len { length (pairs result) ≡ 1 }
        ensures room { room ≤ result.spare + 1 }
    {
        let mut table = room.into_table();
        table.put(hash, tag_of(hash), (key, value));
        table
    }

    /// Puts another value in the cell of a key.
    #[inline(always)]
    pub(crate) fn set(&mut self, cell: usize, key: K, value: V) -> V
        requires { IsAt K.eq self.old cell key }
        ensures old { Some result ≡ lookup (K.eq key) (pairs self.old) }
        ensures updates { Updates K.eq (pairs self.old) (pairs self.new) key (Some value) }
        ensures len { length (pairs self.new) ≡ length (pairs self.old) }
        ensures room { self.new.spare ≡ self.old.spare }
    {
        replace(self.value_mut(cell, key), value)
    }

    /// Puts a value at a key, and answers the one that stood there. A refusal, which comes at an absent key alone, hands the value
    /// back.
    #[inline(always)]
    pub fn insert(&mut self, key: K, value: V) -> Result<Option<V>, V>
        ensures old { IfOk result (λ old. old ≡ lookup (K.eq key) (pairs self.old)) }
        ensures updates { OnOk result (Updates K.eq (pairs self.old) (pairs self.new) key (Some value)) }
        ensures len { IfOk result (λ old.
            length (pairs self.new) ≡ length (pairs self.old) + (if is_some old then 0 else 1)) }
        ensures absent { OnErr result (lookup (K.eq key) (pairs self.old) ≡ None) }
        ensures refused { OnErr result (self.new ≡ self.old) }
        ensures returned { IfErr result (λ back. back ≡ value) }
        ensures room { IfOk result (λ old. self.old.spare ≤ self.new.spare + (if is_some old then 0 else 1)) }
        ensures succeeds { 0 < self.old.spare → IsOk result }
    {
        let hash = hash_of(key);
        match self.look(hash, &key) {
            Search::Found(cell) => return Ok(Some(self.set(cell, key, value))),
            Search::Absent(cell) if 0 < self.left => {
                self.put_seen(hash, cell, (key, value));
                return Ok(None);
            }
            _ => {}
        }
        if let Some(cell) = self.find_in_all(hash, key) {
            return Ok(Some(self.set(cell, key, value)));
        }
        self.add(hash, key, value)?;
        Ok(None)
    }

    /// Puts a value at a key that has none. The value of a key that has one stays, and the other comes back, as it does with a refusal,
    /// which comes at an absent key alone.
    #[inline(always)]
    pub fn insert_absent(&mut self, key: K, value: V) -> Result<Option<V>, V>
        ensures back { IfOk result (λ back.
            back ≡ (if is_some (lookup (K.eq key) (pairs self.old)) then Some value else None)) }
        ensures updates { OnOk result (Updates K.eq (pairs self.old) (pairs self.new) key
            (Some (unwrap_or (lookup (K.eq key) (pairs self.old)) value))) }
        ensures len { OnOk result (length (pairs self.new)
            ≡ length (pairs self.old) + (if is_some (lookup (K.eq key) (pairs self.old)) then 0 else 1)) }
        ensures absent { OnErr result (lookup (K.eq key) (pairs self.old) ≡ None) }
        ensures refused { OnErr result (self.new ≡ self.old) }
        ensures returned { IfErr result (λ back. back ≡ value) }
        ensures room { IfOk result (λ back. self.old.spare ≤ self.new.spare + (if is_some back then 0 else 1)) }
        ensures succeeds { 0 < self.old.spare → IsOk result }
    {
        let hash = hash_of(key);
        match self.look(hash, &key) {
            Search::Found(_) => return Ok(Some(value)),
            Search::Absent(cell) if 0 < self.left => {
                self.put_seen(hash, cell, (key, value));
                return Ok(None);
            }
            _ => {}
        }
        if self.find_in_all(hash, key).is_some() {
            return Ok(Some(value));
        }
        self.add(hash, key, value)?;
        Ok(None)
    }

    /// `remove`, by a search through all groups.
    #[inline(never)]
    fn remove_by_search(&mut self, hash: u64, key: K) -> Option<V>
        requires { hash ≡ hash_of (K.hash_input key) }
        ensures value { result ≡ lookup (K.eq key) (pairs self.old) }
        ensures updates { Updates K.eq (pairs self.old) (pairs self.new) key None }
        ensures len { length (pairs self.new) + (if is_some result then 1 else 0) ≡ length (pairs self.old) }
        ensures room { self.old.spare ≤ self.new.spare }
    {
        let cell = self.find_in_all(hash, key)?;
        Some(self.take(cell / GROUP, cell, key))
    }

    /// Removes a key.
    #[inline(always)]
    pub fn remove(&mut self, key: &K) -> Option<V>
        ensures value { result ≡ lookup (K.eq key.now) (pairs self.old) }
        ensures updates { Updates K.eq (pairs self.old) (pairs self.new) key.now None }
        ensures len { length (pairs self.new) + (if is_some result then 1 else 0) ≡ length (pairs self.old) }
        ensures room { self.old.spare ≤ self.new.spare }
    {
        let hash = hash_of(*key);
        match self.look(hash, key) {
            Search::Found(cell) => {
                let home = home_of(hash, self.tags.groups());
                Some(self.take(home, cell, *key))
            }
            Search::Absent(_) => None,
            Search::Onward => self.remove_by_search(hash, *key),
        }
    }

    /// The value of a key.
    #[inline(always)]
    pub fn get_mut(&mut self, key: &K) -> Option<&mut V>
        ensures* lends { sem 𝓛 (lends_get K.row V.row K.Ord K.Hash self.entry key.now result) }
        ensures value { option_copied_mut result ≡ lookup (K.eq key.now) (pairs self.old) }
    {
        match self.find(hash_of(*key), key) {
            Some(cell) => Some(self.value_mut(cell, *key)),
            None => None,
        }
    }

    /// The pairs, in the order of their cells.
    pub fn iter(&self) -> Iter<'_, K, V>
        ensures { result ≡ pairs self.now }
    {
        Iter {
            tags: &self.tags,
            row: &self.row,
            next: 0,
        }
    }
}

impl<K: Ord + Hash + Copy, V> Room<K, V> {
    /// A table without pairs. An empty cell has a pair in the logic, so there must be one.
    fn into_table(self) -> Table<K, V>
        requires { K × V }
        ensures empty { pairs result ≡ [] }
        ensures room { result.spare ≡ self }
        ensures some { 0 < result.spare }
    {
        let Room { tags, block, cells } = self;
        let (row, deed) = row_of(block);
        Table {
            tags,
            row: Row::new(row),
            deed,
            len: 0,
            left: limit(cells),
        }
    }
}

/// The first cell from one on that has a pair, or the end.
fn next_held(tags: &Tags, from: usize, end: usize) -> usize
    requires { end ≤ length tags.now }
    ensures after { from ≤ result }
    ensures within { from ≤ end → result ≤ end }
    ensures held { result < end → 3 ≤ slice_index tags.now result }
    ensures none { (i : ℕ) → from ≤ i → i < result → slice_index tags.now i < 3 }
{
    let mut cell = from;
    while cell < end && tags.at(cell) < LEAST {
        cell += 1;
    }
    cell
}

/// The pairs of a table, in the order of their cells.
#[derive(Drop)]
pub struct Iter<'a, K, V> {
    tags: &'a Tags,
    row: &'a Row<(K, V)>,
    next: usize,
}

impl<'a, K, V> Model for Iter<'a, K, V> {
    ghost use Rattle.std.specs.Prelude.{List, drop};
    ghost use Rattle.core.specs.Mem.Slots.{slots_items, slots_filled};
    ghost use Rattle.key_index_map.specs.Table.{AreTaken, held};

    ghost Value = { List (K × V) };

    ghost view = { λ i. held (drop i.next i.tags.now) (drop i.next (slots_items i.row.now)) };

    ghost invariant = { λ i. AreTaken i.tags.now (slots_items i.row.now) (slots_filled i.row.now) i.next };
}

impl<'a, K, V> Iterator for Iter<'a, K, V> {
    type Item = &'a (K, V);

    ghost next_gives = { YieldsFirstRef (λ pairs. pairs) };

    ghost remaining = { item_count (λ pairs. pairs) };

    fn next(&mut self) -> Option<&'a (K, V)> {
        let cell = next_held(self.tags, self.next, self.row.len());
        if self.row.len() <= cell {
            self.next = cell;
            return None;
        }
        self.next = cell + 1;
        Some(self.row.get(cell))
    }
}

impl<K: Ord + Hash + Copy, V: Drop> Drop for Table<K, V> {
    fn drop(self) {
        let Table {
            tags,
            mut row,
            deed,
            len: _,
            left: _,
        } = self;
        let mut cell = 0;
        while cell < row.len() {
            if LEAST <= tags.at(cell) {
                drop(row.take(cell));
            }
            cell += 1;
        }
        release_emptied(tags.allocator(), row.into_slots(), deed);
    }
}
