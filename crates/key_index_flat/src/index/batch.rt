//! Batches: the values of many keys, visited with the places of the keys.
ghost use Rattle.std.specs.Prelude.{◌≡◌, map, IfErr, IfOk, OnOk};
ghost use Rattle.std.specs.List.{FoldsTo};
ghost use Rattle.key_index_flat.specs.View.{run_at};
ghost use Rattle.key_index_flat.specs.Visits.{AreProbes, ByKey, ByPlace, IsBatch, Visited, Visits, VisitsAt, visits_of};

use super::{Fault, Runs, Values};
use std::alloc::Global;
use std::convert::AsSlice;

/// An index that gives the whole list of an index key.
pub trait Lists: Runs {
    /// The values under an index key, in list order. Takes no memory.
    fn list_at(&self, slot: Self::Key) -> Values<'_, Self::Value>
        ensures { result ≡ run_at Self.Key.cmp (Self.view self.now) slot };
}

/// Visits each value of a list with one place, and gives the closure back.
fn visit_list<'a, V, F: FnMut(usize, &'a V)>(place: usize, values: Values<'a, V>, mut visit: F) -> F
    requires { F.IsAlwaysCallable visit }
    ensures again { F.IsAlwaysCallable result }
    ensures visited { FoldsTo (VisitsAt F.FnMut) visit (map (λ v. (place, v)) values.entry) result }
{
    for value in values {
        visit(place, value);
    }
    visit
}

/// Visits the values of each key of a batch, in the order of the keys, and gives the closure back with what it gathered. Takes no
/// memory.
pub fn visit_by_place<'a, I: Lists, B: Iterator + Drop, F: FnMut(usize, &'a I::Value)>(
    index: &'a I,
    keys: B,
    mut visit: F,
) -> F
where
    B::Item: AsSlice<u8> + Drop,
    requires batch { IsBatch B.Iterator keys }
    requires callable { F.IsAlwaysCallable visit }
    ensures { Visited ByPlace B.Iterator B.Item.items keys I.Key.cmp (I.view index.now) F.FnMut visit result }
{
    let mut place = 0;
    for key in keys {
        visit = visit_list(place, index.list_at(index.slot_of(key.as_slice())), visit);
        place += 1;
    }
    visit
}

/// `visit_by_place` for a closure that keeps no reference, which is what a trait's call takes.
pub fn show_by_place<I: Lists, B: Iterator + Drop, F: FnMut(usize, &I::Value)>(
    index: &I,
    keys: B,
    mut visit: F,
)
where
    B::Item: AsSlice<u8> + Drop,
    requires batch { IsBatch B.Iterator keys }
    requires callable { F.IsAlwaysCallable visit }
    ensures { Visits ByPlace B.Iterator B.Item.items keys I.Key.cmp (I.view index.now) F.FnMut visit }
{
    visit_by_place(index, keys, move |place, value| visit(place, value));
}

/// The index keys of a batch of keys, each with its place.
pub fn take_probes<I: Runs, B: Iterator + Drop>(
    alloc: Global,
    index: &I,
    keys: B,
) -> Result<Vec<(I::Key, usize)>, Fault>
where
    B::Item: AsSlice<u8> + Drop,
    requires batch { IsBatch B.Iterator keys }
    ensures probes { IfOk result (λ probes.
        AreProbes ByPlace B.Iterator B.Item.items keys I.Key.cmp (I.view index.now) probes.items) }
    ensures fault { IfErr result (λ f. f ≡ Fault.Memory) }
{
    let mut probes = Vec::new(alloc);
    let mut place = 0;
    for key in keys {
        probes.push((index.slot_of(key.as_slice()), place))?;
        place += 1;
    }
    Ok(probes)
}

/// The index keys of a batch of keys, each with its place, in the order of the index keys and, of one index key, in that of the places.
pub fn probes_by_key<I: Runs, B: Iterator + Drop>(
    alloc: Global,
    index: &I,
    keys: B,
) -> Result<Vec<(I::Key, usize)>, Fault>
where
    B::Item: AsSlice<u8> + Drop,
    requires batch { IsBatch B.Iterator keys }
    ensures probes { IfOk result (λ sorted.
        AreProbes ByKey B.Iterator B.Item.items keys I.Key.cmp (I.view index.now) sorted.items) }
    ensures fault { IfErr result (λ f. f ≡ Fault.Memory) }
{
    let mut probes = take_probes(alloc, index, keys)?;
    probes.sort_unstable();
    Ok(probes)
}

/// Visits the values at each index key, in their order, with the place that stands beside it, and gives the closure back.
pub fn visit_probes<'a, I: Lists, F: FnMut(usize, &'a I::Value)>(
    index: &'a I,
    probes: Vec<(I::Key, usize)>,
    mut visit: F,
) -> F
    requires { F.IsAlwaysCallable visit }
    ensures { FoldsTo (VisitsAt F.FnMut) visit (visits_of (run_at I.Key.cmp (I.view index.now)) probes.items) result }
{
    'probes: for probe in probes {
        visit = visit_list(probe.1, index.list_at(probe.0), visit);
    }
    visit
}

/// Visits the values of each key of a batch, in the order of the index keys and, of one index key, in that of the places, and gives
/// the closure back with what it gathered. Takes memory for the places first: a refusal comes before any visit, and gives the closure
/// back as it was.
pub fn visit_by_key<'a, I: Lists, B: Iterator + Drop, F: FnMut(usize, &'a I::Value)>(
    alloc: Global,
    index: &'a I,
    keys: B,
    visit: F,
) -> Result<F, (F, Fault)>
where
    B::Item: AsSlice<u8> + Drop,
    requires batch { IsBatch B.Iterator keys }
    requires callable { F.IsAlwaysCallable visit }
    ensures seen { IfOk result (Visited ByKey B.Iterator B.Item.items keys I.Key.cmp (I.view index.now) F.FnMut visit) }
    ensures unseen { IfErr result (λ back. back.0 ≡ visit) }
    ensures fault { IfErr result (λ back. back.1 ≡ Fault.Memory) }
{
    match probes_by_key(alloc, index, keys) {
        Ok(probes) => Ok(visit_probes(index, probes, visit)),
        Err(fault) => Err((visit, fault)),
    }
}

/// `visit_by_key` for a closure that keeps no reference, which is what a trait's call takes.
pub fn show_by_key<I: Lists, B: Iterator + Drop, F: FnMut(usize, &I::Value)>(
    alloc: Global,
    index: &I,
    keys: B,
    mut visit: F,
) -> Result<(), Fault>
where
    B::Item: AsSlice<u8> + Drop,
    requires batch { IsBatch B.Iterator keys }
    requires callable { F.IsAlwaysCallable visit }
    ensures seen { OnOk result (Visits ByKey B.Iterator B.Item.items keys I.Key.cmp (I.view index.now) F.FnMut visit) }
    ensures fault { IfErr result (λ f. f ≡ Fault.Memory) }
{
    let probes = probes_by_key(alloc, index, keys)?;
    visit_probes(index, probes, move |place, value| visit(place, value));
    Ok(())
}
