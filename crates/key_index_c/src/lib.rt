//! An index for programs in C and Rust: a static library, whose functions `include/key_index.h` declares and documents.
//!
//! A caller keeps a `Handle`. Each function takes the index out of it, makes one call of it, and puts it back. The clauses are what a
//! caller owes (`requires`) and what the call leaves (`ensures`). A handle may go to another thread; threads that read an index at once
//! have a `Reader` each, whose functions stand in `shared`. Threads that fill an index at once have a `Range` of its partitions each.
#![tactic(auto)]

ghost use Rattle.std.specs.Prelude.{◌≡◌, ◌≢◌, ◌<◌, ◌↔◌, ◌⊎◌, ◌&&◌, None, length, is_some, IsSome, IsTrue, nat_lt};
ghost use Rattle.key_index_c.specs.Any.{IsNew, IsNewImmutable, inserts_first, is_ordered, may_want};
ghost use Rattle.key_index_c.specs.Buffer.{filled};
ghost use Rattle.key_index_c.specs.Calls.{AreKeys, Shows, ShowsMany, after_inserts, found_in, place_of, values_of};
ghost use Rattle.key_index_c.specs.Held.{IsImmutable, IsMade, Keeps, StaysMade, kind_in, positions_in, values_in, view_in};
ghost use Rattle.key_index_c.specs.Positions.{AreCounts, IsInserted, IsPruned, Refuses, ShowsPositions};
ghost use Rattle.key_index_c.specs.Status.{immutable_refusal, kind_refusal, status_of};
ghost use Rattle.key_index_c.specs.Views.{after_insert, after_kept, after_remove, after_removed, after_replaced, counts_in, growth_fault_in, items_in, neighbour_of};

use std::alloc::Global;

// An index of a kind, or why none was made.
macro_rules! made {
    ($kind:path, $index:expr) => {
        match $index {
            Ok(index) => Ok($kind(index)),
            Err(_) => Err(MEMORY),
        }
    };
}

mod any;
mod handle;
mod immutable;
mod reader;
mod shared;
mod status;
mod threads;

// A call of the index in a handle.
macro_rules! call {
    ($handle:ident, $alloc:ident, $any:ident => $call:expr) => {{
        let mut $any = $handle.take($alloc);
        let told = $call;
        $handle.put($any);
        told
    }};
}

// A new index is put into a handle, if it was made.
macro_rules! put {
    ($handle:ident, $alloc:ident, $any:expr) => {
        match $any {
            Ok(any) => match Box::new($alloc, any) {
                Ok(made) => {
                    $handle.put(made);
                    OK
                }
                Err(_) => MEMORY,
            },
            Err(status) => status,
        }
    };
}

pub use any::{
    Any, Counts, FIRST, Found, LAST, Many, NEXT, Neighbour, ORDERED, ORDERED_BY_ONE,
    ORDERED_BY_TWO, PREV, SEEDED, UNORDERED, UNORDERED_BY_ONE, UNORDERED_BY_TWO,
};
use any::{are_keys, no_keys};
pub use handle::Handle;
pub use immutable::{IMMUTABLE, IMMUTABLE_SEEDED, PositionCounts};
pub use reader::Reader;
pub use status::{BAD_ARGUMENT, FULL, MEMORY, OK, SHARED, TOO_FAR};

/// Makes an index of a kind. Only a seeded one takes the seed.
#[unsafe(no_mangle)]
pub extern "C" fn key_index_c_new(alloc: Global, handle: &mut Handle, kind: u32, seed: u64) -> u32
    requires fresh { handle.old.held ≡ None }
    ensures made { result ≡ OK → IsMade handle.new }
    ensures fresh { result ≡ OK → IsNew kind seed (kind_in handle.new) (view_in handle.new) }
    ensures refused { result ≢ OK → handle.new.held ≡ None }
    ensures status { (result ≡ OK) ⊎ (result ≡ kind_refusal kind) }
{
    put!(handle, alloc, Any::new(alloc, kind, seed))
}

/// Makes an immutable index of a kind, from a start on, with room for so many insertions in order. Only a seeded one takes the seed.
#[unsafe(no_mangle)]
pub extern "C" fn key_index_c_new_immutable(
    alloc: Global,
    handle: &mut Handle,
    kind: u32,
    seed: u64,
    start: u64,
    capacity: usize,
) -> u32
    requires fresh { handle.old.held ≡ None }
    ensures made { result ≡ OK → IsImmutable handle.new }
    ensures fresh { result ≡ OK → IsNewImmutable kind seed start (kind_in handle.new) (positions_in handle.new) }
    ensures refused { result ≢ OK → handle.new.held ≡ None }
    ensures status { (result ≡ OK) ⊎ (result ≡ immutable_refusal kind) }
{
    put!(
        handle,
        alloc,
        Any::new_immutable(alloc, kind, seed, start, capacity)
    )
}

/// Frees an index of any kind.
#[unsafe(no_mangle)]
pub extern "C" fn key_index_c_free(alloc: Global, handle: &mut Handle)
    requires made { IsSome handle.old.held }
    ensures freed { handle.new.held ≡ None }
{
    let _ = handle.take(alloc);
}

/// Inserts a value under a key.
#[unsafe(no_mangle)]
pub extern "C" fn key_index_c_insert(
    alloc: Global,
    handle: &mut Handle,
    key: &[u8],
    value: u64,
) -> u32
    requires made { IsMade handle.old }
    ensures made { StaysMade handle.old handle.new }
    ensures accepted { result ≡ OK
        → view_in handle.new ≡ after_insert (inserts_first (kind_in handle.old)) (view_in handle.old) key.now value }
    ensures room { result ≡ OK → items_in (view_in handle.old) < usize.MAX }
    ensures refused { result ≢ OK → view_in handle.new ≡ view_in handle.old }
    ensures status { (result ≡ OK) ⊎ (result ≡ status_of (growth_fault_in (view_in handle.old))) }
{
    call!(handle, alloc, any => any.insert(key, value))
}

/// Inserts values under keys that stand behind one another, each up to its end, until one is refused.
#[unsafe(no_mangle)]
pub extern "C" fn key_index_c_insert_many(
    alloc: Global,
    handle: &mut Handle,
    keys: &[u8],
    ends: &[usize],
    values: &[u64],
) -> Many
    requires made { IsMade handle.old }
    ensures made { StaysMade handle.old handle.new }
    ensures inserted { view_in handle.new ≡ after_inserts (inserts_first (kind_in handle.old))
        (view_in handle.old) keys.now ends.now values.now result.count }
    ensures keys { AreKeys keys.now ends.now (length values.now) → result.status ≢ BAD_ARGUMENT }
    ensures taken { result.status ≢ BAD_ARGUMENT → AreKeys keys.now ends.now (length values.now) }
    ensures unkeyed { result.status ≡ BAD_ARGUMENT → result.count ≡ 0 }
    ensures whole { result.status ≡ OK → result.count ≡ length values.now }
    ensures next { result.status ≢ OK → result.status ≢ BAD_ARGUMENT → result.count < length values.now }
    ensures status { (result.status ≡ OK) ⊎ (result.status ≡ BAD_ARGUMENT)
        ⊎ (result.status ≡ status_of (growth_fault_in (view_in handle.new))) }
{
    if !are_keys(keys, ends, values.len()) {
        return no_keys();
    }
    call!(handle, alloc, any => any.insert_many(keys, ends, values))
}

/// Writes the values of a key to a buffer, as many as it has room for, and tells how many the key has.
#[unsafe(no_mangle)]
pub extern "C" fn key_index_c_get(
    alloc: Global,
    handle: &mut Handle,
    key: &[u8],
    buffer: &mut [u64],
) -> usize
    requires made { IsMade handle.old }
    ensures same { Keeps handle.old handle.new }
    ensures count { result ≡ length (values_in handle.old key.now) }
    ensures values { buffer.new ≡ filled (values_in handle.old key.now) buffer.old }
{
    call!(handle, alloc, any => any.get(key, buffer))
}

/// Writes the values of keys that stand behind one another, each up to its end, to a buffer, as many as it has room for, and where those of
/// each key end. Tells how many there are, as far as a `usize` goes.
#[unsafe(no_mangle)]
pub extern "C" fn key_index_c_get_many(
    alloc: Global,
    handle: &mut Handle,
    keys: &[u8],
    ends: &[usize],
    buffer: &mut [u64],
    stops: &mut [usize],
) -> Many
    requires made { IsMade handle.old }
    ensures same { Keeps handle.old handle.new }
    ensures keys { AreKeys keys.now ends.now (length stops.old) → result.status ≡ OK }
    ensures taken { result.status ≡ OK → AreKeys keys.now ends.now (length stops.old) }
    ensures shown { result.status ≡ OK → ShowsMany (values_of (view_in handle.old) keys.now ends.now)
        (length ends.now) result.count buffer.old buffer.new stops.new }
    ensures refused { result.status ≢ OK → (buffer.new ≡ buffer.old) × (stops.new ≡ stops.old) }
    ensures status { (result.status ≡ OK) ⊎ ((result.status ≡ BAD_ARGUMENT) × (result.count ≡ 0)) }
{
    if !are_keys(keys, ends, stops.len()) {
        return no_keys();
    }
    let count = call!(handle, alloc, any => any.get_many(keys, ends, buffer, stops));
    Many { count, status: OK }
}

/// How many values a key has, and the first one.
#[unsafe(no_mangle)]
pub extern "C" fn key_index_c_find(alloc: Global, handle: &mut Handle, key: &[u8]) -> Found
    requires made { IsMade handle.old }
    ensures same { Keeps handle.old handle.new }
    ensures found { result ≡ found_in (values_in handle.old key.now) }
{
    call!(handle, alloc, any => any.find(key))
}

/// Removes a key with all its values.
#[unsafe(no_mangle)]
pub extern "C" fn key_index_c_remove(alloc: Global, handle: &mut Handle, key: &[u8]) -> u32
    requires made { IsMade handle.old }
    ensures made { StaysMade handle.old handle.new }
    ensures removed { result ≡ OK → view_in handle.new ≡ after_remove (view_in handle.old) key.now }
    ensures refused { result ≢ OK → view_in handle.new ≡ view_in handle.old }
    ensures status { (result ≡ OK) ⊎ ((result ≡ MEMORY) × IsTrue (may_want (kind_in handle.old))) }
{
    call!(handle, alloc, any => any.remove(key))
}

/// Removes the first value of a key that equals a value, and tells whether there was one.
#[unsafe(no_mangle)]
pub extern "C" fn key_index_c_remove_value(
    alloc: Global,
    handle: &mut Handle,
    key: &[u8],
    value: u64,
) -> bool
    requires made { IsMade handle.old }
    ensures made { StaysMade handle.old handle.new }
    ensures found { result ≡ is_some (place_of value (values_in handle.old key.now)) }
    ensures removed { view_in handle.new
        ≡ after_removed (view_in handle.old) key.now (place_of value (values_in handle.old key.now)) }
{
    call!(handle, alloc, any => any.remove_value(key, value))
}

/// Puts another value in the place of the first value of a key that equals a value, and tells whether there was one.
#[unsafe(no_mangle)]
pub extern "C" fn key_index_c_replace_value(
    alloc: Global,
    handle: &mut Handle,
    key: &[u8],
    value: u64,
    new: u64,
) -> bool
    requires made { IsMade handle.old }
    ensures made { StaysMade handle.old handle.new }
    ensures found { result ≡ is_some (place_of value (values_in handle.old key.now)) }
    ensures replaced { view_in handle.new
        ≡ after_replaced (view_in handle.old) key.now (place_of value (values_in handle.old key.now)) new }
{
    call!(handle, alloc, any => any.replace_value(key, value, new))
}

/// Keeps those values of a key whose byte of a mask is not 0, in their order, and removes the others. The mask has a byte for each value of
/// the key.
#[unsafe(no_mangle)]
pub extern "C" fn key_index_c_keep(
    alloc: Global,
    handle: &mut Handle,
    key: &[u8],
    mask: &[u8],
) -> u32
    requires made { IsMade handle.old }
    ensures made { StaysMade handle.old handle.new }
    ensures kept { result ≡ OK → view_in handle.new ≡ after_kept (view_in handle.old) key.now mask.now }
    ensures refused { result ≢ OK → view_in handle.new ≡ view_in handle.old }
    ensures masked { length mask.now ≡ length (values_in handle.old key.now) → result ≢ BAD_ARGUMENT }
    ensures mask { result ≢ BAD_ARGUMENT → length mask.now ≡ length (values_in handle.old key.now) }
    ensures status { (result ≡ OK) ⊎ (result ≡ BAD_ARGUMENT)
        ⊎ ((result ≡ MEMORY) × IsTrue (may_want (kind_in handle.old))) }
{
    call!(handle, alloc, any => if any.find(key).count == mask.len() {
        any.keep(key, mask)
    } else {
        BAD_ARGUMENT
    })
}

/// How many keys and values there are, and how many values were ever removed.
#[unsafe(no_mangle)]
pub extern "C" fn key_index_c_counts(alloc: Global, handle: &mut Handle) -> Counts
    requires made { IsMade handle.old }
    ensures same { Keeps handle.old handle.new }
    ensures counts { result ≡ counts_in (view_in handle.old) }
{
    call!(handle, alloc, any => any.counts())
}

/// Writes the values of a neighbour of a key, told by a number: `NEXT`, `PREV`, `FIRST` or `LAST`.
#[unsafe(no_mangle)]
pub extern "C" fn key_index_c_neighbour(
    alloc: Global,
    handle: &mut Handle,
    which: u32,
    key: &[u8],
    buffer: &mut [u64],
) -> Neighbour
    requires made { IsMade handle.old }
    ensures same { Keeps handle.old handle.new }
    ensures shown { Shows (is_ordered (kind_in handle.old) && nat_lt which 4)
        (neighbour_of which (view_in handle.old) key.now) result buffer.old buffer.new }
{
    call!(handle, alloc, any => any.neighbour(which, key, buffer))
}

/// Indexes a key at a position of an immutable index.
#[unsafe(no_mangle)]
pub extern "C" fn key_index_c_insert_at(
    alloc: Global,
    handle: &mut Handle,
    key: &[u8],
    position: u64,
) -> u32
    requires made { IsImmutable handle.old }
    ensures made { StaysMade handle.old handle.new }
    ensures inserted { result ≡ OK → IsInserted (positions_in handle.old) key.now position (positions_in handle.new) }
    ensures refused { result ≢ OK → positions_in handle.new ≡ positions_in handle.old }
    ensures status { Refuses (positions_in handle.old) position result }
{
    call!(handle, alloc, any => any.insert_at(key, position))
}

/// Writes the positions of a key to a buffer, as many as it has room for, and tells how many the key has.
#[unsafe(no_mangle)]
pub extern "C" fn key_index_c_positions(
    alloc: Global,
    handle: &mut Handle,
    key: &[u8],
    buffer: &mut [u64],
) -> usize
    requires made { IsImmutable handle.old }
    ensures same { Keeps handle.old handle.new }
    ensures shown { ShowsPositions (positions_in handle.old) key.now result buffer.old buffer.new }
{
    call!(handle, alloc, any => any.positions(key, buffer))
}

/// Whether a key is indexed at a position.
#[unsafe(no_mangle)]
pub extern "C" fn key_index_c_is_indexed(alloc: Global, handle: &mut Handle, position: u64) -> bool
    requires made { IsImmutable handle.old }
    ensures same { Keeps handle.old handle.new }
    ensures indexed { IsTrue result ↔ IsSome ((positions_in handle.old).keys position) }
{
    call!(handle, alloc, any => any.is_indexed(position))
}

/// Removes every position below one, which is the start from then on, if it isn't below the start.
#[unsafe(no_mangle)]
pub extern "C" fn key_index_c_prune(alloc: Global, handle: &mut Handle, start: u64)
    requires made { IsImmutable handle.old }
    ensures made { StaysMade handle.old handle.new }
    ensures pruned { IsPruned (positions_in handle.old) start (positions_in handle.new) }
{
    call!(handle, alloc, any => any.prune(start))
}

/// How many positions are indexed, where the index starts, and how many were ever pruned.
#[unsafe(no_mangle)]
pub extern "C" fn key_index_c_position_counts(alloc: Global, handle: &mut Handle) -> PositionCounts
    requires made { IsImmutable handle.old }
    ensures same { Keeps handle.old handle.new }
    ensures counts { AreCounts (positions_in handle.old) result }
{
    call!(handle, alloc, any => any.position_counts())
}

// Ranges.
ghost use Rattle.std.specs.Ordering.{nat_cmp};
ghost use Rattle.std.specs.Prelude.{◌+◌, ◌≤◌};
ghost use Rattle.key_index_flat.specs.View as view;
ghost use Rattle.key_index_parts.specs.Gathered.{pair_cmp};
ghost use Rattle.key_index_c.specs.Ranges.{CanInstall, IsCoveredAt, IsNewRange, after_offers, kind_in_range, range_refusal, view_in_range, with_range};

mod any_range;
mod range;

pub use any_range::AnyRange;
pub use range::Range;

/// Makes a range of an index, with no values: so many of its partitions from one on.
#[unsafe(no_mangle)]
pub extern "C" fn key_index_c_range(
    alloc: Global,
    handle: &mut Handle,
    range: &mut Range,
    first: usize,
    count: usize,
) -> u32
    requires made { IsSome handle.old.held }
    requires fresh { range.old.held ≡ None }
    ensures same { Keeps handle.old handle.new }
    ensures made { result ≡ OK → IsSome range.new.held }
    ensures empty { result ≡ OK → IsNewRange (kind_in handle.old) (view_in handle.old) first count
        (kind_in_range range.new) (view_in_range range.new) }
    ensures refused { result ≢ OK → range.new.held ≡ None }
    ensures status { (result ≡ OK) ⊎ (result ≡ range_refusal (kind_in handle.old) first count) }
{
    let made = call!(handle, alloc, any => any.new_range(first, count));
    put!(range, alloc, made)
}

/// Frees a range.
#[unsafe(no_mangle)]
pub extern "C" fn key_index_c_range_free(alloc: Global, range: &mut Range)
    requires made { IsSome range.old.held }
    ensures freed { range.new.held ≡ None }
{
    let _ = range.take(alloc);
}

/// Goes through keys that stand behind one another, each up to its end, and inserts the values under those that the range covers, until one
/// is refused.
#[unsafe(no_mangle)]
pub extern "C" fn key_index_c_range_insert_many(
    alloc: Global,
    range: &mut Range,
    keys: &[u8],
    ends: &[usize],
    values: &[u64],
) -> Many
    requires made { IsSome range.old.held }
    ensures made { IsSome range.new.held }
    ensures kind { kind_in_range range.new ≡ kind_in_range range.old }
    ensures inserted { view_in_range range.new
        ≡ after_offers (pair_cmp nat_cmp) (inserts_first (kind_in_range range.old))
        (view_in_range range.old) keys.now ends.now values.now result.count }
    ensures keys { AreKeys keys.now ends.now (length values.now) → result.status ≢ BAD_ARGUMENT }
    ensures taken { result.status ≢ BAD_ARGUMENT → AreKeys keys.now ends.now (length values.now) }
    ensures unkeyed { result.status ≡ BAD_ARGUMENT → result.count ≡ 0 }
    ensures whole { result.status ≡ OK → result.count ≡ length values.now }
    ensures refused { (result.status ≡ OK) ⊎ (result.status ≡ BAD_ARGUMENT)
        ⊎ IsCoveredAt (view_in_range range.old) keys.now ends.now result.count }
    ensures status { (result.status ≡ OK) ⊎ (result.status ≡ BAD_ARGUMENT)
        ⊎ (result.status ≡ status_of (view.growth_fault_in (view_in_range range.new))) }
{
    if !are_keys(keys, ends, values.len()) {
        return no_keys();
    }
    call!(range, alloc, any => any.insert_many(keys, ends, values))
}

/// Installs a range in an index of its kind, whose partitions have no values there: what the range holds is in the index, and its handle has
/// none. A refused range stays.
#[unsafe(no_mangle)]
pub extern "C" fn key_index_c_install(alloc: Global, handle: &mut Handle, range: &mut Range) -> u32
    requires index { IsSome handle.old.held }
    requires range { IsSome range.old.held }
    ensures made { StaysMade handle.old handle.new }
    ensures installed { result ≡ OK → view_in handle.new ≡ with_range (view_in handle.old) (view_in_range range.old) }
    ensures gone { result ≡ OK → range.new.held ≡ None }
    ensures refused { result ≢ OK → Keeps handle.old handle.new × (range.new.held ≡ range.old.held) }
    ensures free { result ≢ BAD_ARGUMENT → CanInstall (kind_in handle.old) (view_in handle.old)
        (kind_in_range range.old) (view_in_range range.old) }
    ensures taken { CanInstall (kind_in handle.old) (view_in handle.old)
        (kind_in_range range.old) (view_in_range range.old) → result ≢ BAD_ARGUMENT }
    ensures room { result ≡ OK
        → items_in (view_in handle.old) + view.items_in (view_in_range range.old) ≤ usize.MAX }
    ensures full { result ≡ FULL
        → usize.MAX < items_in (view_in handle.old) + view.items_in (view_in_range range.old) }
    ensures status { (result ≡ OK) ⊎ (result ≡ FULL) ⊎ (result ≡ BAD_ARGUMENT) }
{
    let mut any = handle.take(alloc);
    let held = range.take(alloc);
    let status = any.can_install(&held);
    if status == OK {
        any.install(Box::into_inner(held));
    } else {
        range.put(held);
    }
    handle.put(any);
    status
}
