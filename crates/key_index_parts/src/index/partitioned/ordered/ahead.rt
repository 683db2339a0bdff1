//! Batches that look ahead: the lists of the next keys are found before the values of one are visited.
ghost use Rattle.std.specs.Prelude.{◌≡◌, ◌%◌, None, drop, map, slice_get, slice_index_or, slice_set, take, IfErr, OnErr, OnOk};
ghost use Rattle.std.specs.List.{FoldsTo};
ghost use Rattle.std.specs.Option.{option_map};
ghost use Rattle.std.specs.Slice.Iter.{iter_rest};
ghost use Rattle.key_index_flat.specs.View.{run_at};
ghost use Rattle.key_index_flat.specs.Visits.{IsBatch};
ghost use Rattle.key_index_parts.specs.Ahead.{SameVisits, Tells, TellsAt, Told, events_of, found_at, visits_at};

use key_index_flat::index::implement::{Lists, probes_by_key};
use key_index_flat::index::{Fault, Values};
use std::alloc::Global;
use std::convert::AsSlice;
use std::slice;

/// What a batch that looks ahead tells, of the key at a place in it.
#[derive(Drop)]
pub enum Ahead<'a, V> {
    /// Its list was found, and has this many values.
    Found(usize, usize),
    /// One of its values is visited.
    Visit(usize, &'a V),
}

/// How many lists are found ahead of the one that is visited.
const AHEAD: usize = 4;

/// Finds the list of the next probe, where there is one, and tells its length.
fn find_next<'a, I: Lists, F: FnMut(Ahead<'a, I::Value>)>(
    index: &'a I,
    later: &mut slice::Iter<'_, (I::Key, usize)>,
    on: &mut F,
) -> Option<Values<'a, I::Value>>
    requires { F.IsAlwaysCallable on.old }
    ensures found { result
        ≡ option_map (λ probe. run_at I.Key.cmp (I.view index.now) probe.0) (slice_get (iter_rest later.old) 0) }
    ensures later { iter_rest later.new ≡ drop 1 (iter_rest later.old) }
    ensures told { FoldsTo (TellsAt F.FnMut) on.old
        (map (found_at (run_at I.Key.cmp (I.view index.now))) (take 1 (iter_rest later.old))) on.new }
    ensures callable { F.IsAlwaysCallable on.new }
{
    let probe = later.next()?;
    let values = index.list_at(probe.0);
    on(Ahead::Found(probe.1, values.len()));
    Some(values)
}

/// Removes the list that waits in the cell of a number, and finds the next one into that cell.
fn take_waiting<'a, I: Lists, F: FnMut(Ahead<'a, I::Value>)>(
    index: &'a I,
    later: &mut slice::Iter<'_, (I::Key, usize)>,
    waiting: &mut [Option<Values<'a, I::Value>>; AHEAD],
    number: usize,
    on: &mut F,
) -> Option<Values<'a, I::Value>>
    requires { F.IsAlwaysCallable on.old }
    ensures taken { result ≡ slice_index_or waiting.old (number % 4) None }
    ensures refilled { waiting.new ≡ slice_set waiting.old (number % 4)
        (option_map (λ probe. run_at I.Key.cmp (I.view index.now) probe.0) (slice_get (iter_rest later.old) 0)) }
    ensures later { iter_rest later.new ≡ drop 1 (iter_rest later.old) }
    ensures told { FoldsTo (TellsAt F.FnMut) on.old
        (map (found_at (run_at I.Key.cmp (I.view index.now))) (take 1 (iter_rest later.old))) on.new }
    ensures callable { F.IsAlwaysCallable on.new }
{
    let found = waiting[number % AHEAD].take();
    waiting[number % AHEAD] = find_next(index, later, on);
    found
}

/// Visits each value of a list.
fn visit<'a, V, F: FnMut(Ahead<'a, V>)>(place: usize, values: Values<'a, V>, on: &mut F)
    requires { F.IsAlwaysCallable on.old }
    ensures told { FoldsTo (TellsAt F.FnMut) on.old (visits_at place values.entry) on.new }
    ensures callable { F.IsAlwaysCallable on.new }
{
    for value in values {
        on(Ahead::Visit(place, value));
    }
}

/// Visits the values at each index key, in their order, with the place that stands beside it, and keeps the lists of the next four found
/// ahead: each waits in the cell of its number, and the next one takes that cell before the values are visited.
fn look_ahead<'a, I: Lists, F: FnMut(Ahead<'a, I::Value>)>(
    index: &'a I,
    probes: &[(I::Key, usize)],
    on: &mut F,
)
    requires { F.IsAlwaysCallable on.old }
    ensures told { FoldsTo (TellsAt F.FnMut) on.old
        (events_of (run_at I.Key.cmp (I.view index.now)) probes.now) on.new }
    ensures callable { F.IsAlwaysCallable on.new }
{
    let mut later = probes.iter();
    let mut waiting: [Option<Values<'a, I::Value>>; AHEAD] = [None, None, None, None];
    for cell in 0..AHEAD {
        waiting[cell] = find_next(index, &mut later, on);
    }
    for (number, probe) in probes.iter().enumerate() {
        if let Some(values) = take_waiting(index, &mut later, &mut waiting, number, on) {
            visit(probe.1, values, on);
        }
    }
}

/// Visits what `visit_by_key` visits, in its order, by a closure that the caller keeps, and keeps the lists of the next four keys found
/// ahead of the one that it visits. It tells each list that it finds, with its length. Takes memory for the places first: a refusal comes
/// before anything is told, and leaves the closure as it was.
pub fn visit_ahead<'a, I: Lists, B: Iterator + Drop, F: FnMut(Ahead<'a, I::Value>)>(
    alloc: Global,
    index: &'a I,
    keys: B,
    on: &mut F,
) -> Result<(), Fault>
where
    B::Item: AsSlice<u8> + Drop,
    requires batch { IsBatch B.Iterator keys }
    requires callable { F.IsAlwaysCallable on.old }
    ensures told { OnOk result (Told B.Iterator B.Item.items keys I.Key.cmp (I.view index.now) F.FnMut on.old on.new) }
    ensures untold { OnErr result (on.new ≡ on.old) }
    ensures again { F.IsAlwaysCallable on.new }
    ensures fault { IfErr result (λ f. f ≡ Fault.Memory) }
{
    let probes = probes_by_key(alloc, index, keys)?;
    look_ahead(index, &probes, on);
    Ok(())
}

/// `visit_ahead` for a closure that keeps no reference, which is what a call of an index takes.
pub fn show_ahead<I: Lists, B: Iterator + Drop, F: FnMut(Ahead<'_, I::Value>)>(
    alloc: Global,
    index: &I,
    keys: B,
    mut on: F,
) -> Result<(), Fault>
where
    B::Item: AsSlice<u8> + Drop,
    requires batch { IsBatch B.Iterator keys }
    requires callable { F.IsAlwaysCallable on }
    ensures told { OnOk result (Tells B.Iterator B.Item.items keys I.Key.cmp (I.view index.now) F.FnMut on) }
    ensures fault { IfErr result (λ f. f ≡ Fault.Memory) }
{
    let sorted = probes_by_key(alloc, index, keys)?;
    let mut tell = move |event| on(event);
    look_ahead(index, &sorted, &mut tell);
    Ok(())
}

/// The law of a batch that looks ahead: of any lists and probes it visits the same values with the same places, in the same order, as
/// one that doesn't. It does nothing.
pub fn same_visits<K: Drop, V: Drop>()
    ensures { SameVisits K V }
{}
