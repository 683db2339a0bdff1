//! The functions for an index that several read at once. To share it, a handle gives it to a first reader, of which others are cloned.
//! A reader reads as a handle does, by the same clauses. The only one left can give the index back.
ghost use Rattle.std.specs.Prelude.{◌≡◌, ◌≢◌, ◌↔◌, ◌⊎◌, ◌&&◌, None, length, IsSome, IsTrue, nat_lt};
ghost use Rattle.key_index_c.specs.Any.{is_ordered};
ghost use Rattle.key_index_c.specs.Buffer.{filled};
ghost use Rattle.key_index_c.specs.Calls.{AreKeys, Shows, ShowsMany, found_in, values_of};
ghost use Rattle.key_index_c.specs.Positions.{AreCounts, ShowsPositions};
ghost use Rattle.key_index_c.specs.Shared.{IsImmutable, IsMade, Keeps, kind_in, positions_in, values_in, view_in};
ghost use Rattle.key_index_c.specs.Views.{counts_in, neighbour_of};

use crate::any::{are_keys, no_keys};
use crate::reader::{Reader, Share};
use crate::status::{BAD_ARGUMENT, MEMORY, OK, SHARED};
use crate::{Counts, Found, Handle, Many, Neighbour, PositionCounts};
use std::alloc::Global;

// A call of the index that a reader reads.
macro_rules! read {
    ($reader:ident, $alloc:ident, $any:ident => $call:expr) => {{
        let share = $reader.take($alloc);
        let $any = share.index();
        let told = $call;
        $reader.put(share);
        told
    }};
}

/// Shares the index of a handle: the first reader has it, and the handle none.
#[unsafe(no_mangle)]
pub extern "C" fn key_index_c_share(alloc: Global, handle: &mut Handle, reader: &mut Reader) -> u32
    requires made { IsSome handle.old.held }
    requires fresh { reader.old.held ≡ None }
    ensures shared { result ≡ OK → (reader.new.held ≡ handle.old.held) × (handle.new.held ≡ None) }
    ensures refused { result ≢ OK → (reader.new.held ≡ None) × (handle.new.held ≡ handle.old.held) }
    ensures status { (result ≡ OK) ⊎ (result ≡ MEMORY) }
{
    let Ok(mut share) = Share::none(alloc) else {
        return MEMORY;
    };
    match share.share(alloc, handle.take(alloc)) {
        Ok(()) => {
            reader.put(share);
            OK
        }
        Err(index) => {
            handle.put(index);
            MEMORY
        }
    }
}

/// Gives the index back to a handle, if the reader is the only one. It takes no memory.
#[unsafe(no_mangle)]
pub extern "C" fn key_index_c_unshare(
    alloc: Global,
    reader: &mut Reader,
    handle: &mut Handle,
) -> u32
    requires made { IsSome reader.old.held }
    requires fresh { handle.old.held ≡ None }
    ensures only { result ≡ OK → (handle.new.held ≡ reader.old.held) × (reader.new.held ≡ None) }
    ensures others { result ≢ OK → (handle.new.held ≡ None) × Keeps reader.old reader.new }
    ensures status { (result ≡ OK) ⊎ (result ≡ SHARED) }
{
    let mut share = reader.take(alloc);
    match share.unshare() {
        Some(index) => {
            handle.put(index);
            OK
        }
        None => {
            reader.put(share);
            SHARED
        }
    }
}

/// Makes one more reader of an index. It refuses, too, where no more readers can be counted.
#[unsafe(no_mangle)]
pub extern "C" fn key_index_c_reader_clone(
    alloc: Global,
    reader: &mut Reader,
    clone: &mut Reader,
) -> u32
    requires made { IsSome reader.old.held }
    requires fresh { clone.old.held ≡ None }
    ensures same { Keeps reader.old reader.new }
    ensures cloned { result ≡ OK → clone.new.held ≡ reader.old.held }
    ensures refused { result ≢ OK → clone.new.held ≡ None }
    ensures status { (result ≡ OK) ⊎ (result ≡ MEMORY) }
{
    let share = reader.take(alloc);
    let another = share.another(alloc);
    reader.put(share);
    match another {
        Ok(share) => {
            clone.put(share);
            OK
        }
        Err(_) => MEMORY,
    }
}

/// Frees a reader, and with the last one the index.
#[unsafe(no_mangle)]
pub extern "C" fn key_index_c_reader_free(alloc: Global, reader: &mut Reader)
    requires made { IsSome reader.old.held }
    ensures freed { reader.new.held ≡ None }
{
    let _ = reader.take(alloc);
}

/// Writes the values of a key to a buffer, as many as it has room for, and tells how many the key has.
#[unsafe(no_mangle)]
pub extern "C" fn key_index_c_reader_get(
    alloc: Global,
    reader: &mut Reader,
    key: &[u8],
    buffer: &mut [u64],
) -> usize
    requires made { IsMade reader.old }
    ensures same { Keeps reader.old reader.new }
    ensures count { result ≡ length (values_in reader.old key.now) }
    ensures values { buffer.new ≡ filled (values_in reader.old key.now) buffer.old }
{
    read!(reader, alloc, any => any.get(key, buffer))
}

/// Writes the values of keys that stand behind one another, each up to its end, to a buffer, as many as it has room for, and where those of
/// each key end. Tells how many there are, as far as a `usize` goes.
#[unsafe(no_mangle)]
pub extern "C" fn key_index_c_reader_get_many(
    alloc: Global,
    reader: &mut Reader,
    keys: &[u8],
    ends: &[usize],
    buffer: &mut [u64],
    stops: &mut [usize],
) -> Many
    requires made { IsMade reader.old }
    ensures same { Keeps reader.old reader.new }
    ensures keys { AreKeys keys.now ends.now (length stops.old) → result.status ≡ OK }
    ensures taken { result.status ≡ OK → AreKeys keys.now ends.now (length stops.old) }
    ensures shown { result.status ≡ OK → ShowsMany (values_of (view_in reader.old) keys.now ends.now)
        (length ends.now) result.count buffer.old buffer.new stops.new }
    ensures refused { result.status ≢ OK → (buffer.new ≡ buffer.old) × (stops.new ≡ stops.old) }
    ensures status { (result.status ≡ OK) ⊎ ((result.status ≡ BAD_ARGUMENT) × (result.count ≡ 0)) }
{
    if !are_keys(keys, ends, stops.len()) {
        return no_keys();
    }
    let count = read!(reader, alloc, any => any.get_many(keys, ends, buffer, stops));
    Many { count, status: OK }
}

/// How many values a key has, and the first one.
#[unsafe(no_mangle)]
pub extern "C" fn key_index_c_reader_find(alloc: Global, reader: &mut Reader, key: &[u8]) -> Found
    requires made { IsMade reader.old }
    ensures same { Keeps reader.old reader.new }
    ensures found { result ≡ found_in (values_in reader.old key.now) }
{
    read!(reader, alloc, any => any.find(key))
}

/// How many keys and values there are, and how many values were ever removed.
#[unsafe(no_mangle)]
pub extern "C" fn key_index_c_reader_counts(alloc: Global, reader: &mut Reader) -> Counts
    requires made { IsMade reader.old }
    ensures same { Keeps reader.old reader.new }
    ensures counts { result ≡ counts_in (view_in reader.old) }
{
    read!(reader, alloc, any => any.counts())
}

/// Writes the values of a neighbour of a key, told by a number: `NEXT`, `PREV`, `FIRST` or `LAST`.
#[unsafe(no_mangle)]
pub extern "C" fn key_index_c_reader_neighbour(
    alloc: Global,
    reader: &mut Reader,
    which: u32,
    key: &[u8],
    buffer: &mut [u64],
) -> Neighbour
    requires made { IsMade reader.old }
    ensures same { Keeps reader.old reader.new }
    ensures shown { Shows (is_ordered (kind_in reader.old) && nat_lt which 4)
        (neighbour_of which (view_in reader.old) key.now) result buffer.old buffer.new }
{
    read!(reader, alloc, any => any.neighbour(which, key, buffer))
}

/// Writes the positions of a key to a buffer, as many as it has room for, and tells how many the key has.
#[unsafe(no_mangle)]
pub extern "C" fn key_index_c_reader_positions(
    alloc: Global,
    reader: &mut Reader,
    key: &[u8],
    buffer: &mut [u64],
) -> usize
    requires made { IsImmutable reader.old }
    ensures same { Keeps reader.old reader.new }
    ensures shown { ShowsPositions (positions_in reader.old) key.now result buffer.old buffer.new }
{
    read!(reader, alloc, any => any.positions(key, buffer))
}

/// Whether a key is indexed at a position.
#[unsafe(no_mangle)]
pub extern "C" fn key_index_c_reader_is_indexed(
    alloc: Global,
    reader: &mut Reader,
    position: u64,
) -> bool
    requires made { IsImmutable reader.old }
    ensures same { Keeps reader.old reader.new }
    ensures indexed { IsTrue result ↔ IsSome ((positions_in reader.old).keys position) }
{
    read!(reader, alloc, any => any.is_indexed(position))
}

/// How many positions are indexed, where the index starts, and how many were ever pruned.
#[unsafe(no_mangle)]
pub extern "C" fn key_index_c_reader_position_counts(
    alloc: Global,
    reader: &mut Reader,
) -> PositionCounts
    requires made { IsImmutable reader.old }
    ensures same { Keeps reader.old reader.new }
    ensures counts { AreCounts (positions_in reader.old) result }
{
    read!(reader, alloc, any => any.position_counts())
}
