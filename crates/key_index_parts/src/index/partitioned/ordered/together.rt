//! Batches in steps: what a step reads for one key waits for nothing that it reads for another.
ghost use Rattle.std.specs.Prelude.{◌≡◌, ◌≤◌, IfSome, length, map};
ghost use Rattle.std.specs.List.{FoldsTo};
ghost use Rattle.key_index_flat.specs.View.{run_at};
ghost use Rattle.key_index_flat.specs.Visits.{VisitsAt, visits_of};
ghost use Rattle.key_index_parts.specs.Gathered.{pair_cmp};
ghost use Rattle.key_index_parts.specs.Ordered.{view};

use super::Index;
use key_index_flat::index::Values;
use key_index_flat::index::implement::Lists;
use key_index_flat::translator::Translator;

/// How many keys go through a step together.
const TOGETHER: usize = 16;

impl<T: Translator, V: Drop, const P: usize> Index<T, V, P> {
    /// How many values of a slot's partition stand in arrays. Only guesses go by it.
    #[inline(always)]
    fn seen(&self, slot: (usize, T::Key)) -> usize {
        if !self.storage.admits(slot) {
            return 0;
        }
        self.storage.inline_len(slot.0)
    }

    /// The list at a slot, by a guess where it stands. None where its partition is spilled.
    #[inline(always)]
    fn run_near(&self, slot: (usize, T::Key), guess: usize) -> Option<&[V]>
        ensures { IfSome result (λ run. run.now ≡ run_at (pair_cmp T.Key.cmp) (view self.now) slot) }
    {
        self.storage.run_near(slot, guess)
    }
}

/// A guess where the list of each probe stands, which its reader checks. First it reads how long the arrays of all are, and then a key of
/// each.
#[inline(always)]
fn guesses_of<T: Translator, V: Drop, const P: usize>(
    index: &Index<T, V, P>,
    probes: &[((usize, T::Key), usize)],
) -> [usize; TOGETHER]
    requires { length probes.now ≤ TOGETHER }
{
    let mut seen = [0; TOGETHER];
    for cell in 0..probes.len() {
        seen[cell] = index.seen(probes[cell].0);
    }
    let mut guesses = [0; TOGETHER];
    for cell in 0..probes.len() {
        guesses[cell] = index.storage.guess(probes[cell].0, seen[cell]);
    }
    guesses
}

/// Visits each value of a list with one place, and gives the closure back.
#[inline(always)]
fn show_list<V, F: FnMut(usize, &V)>(place: usize, values: Values<'_, V>, mut visit: F) -> F
    requires { F.IsAlwaysCallable visit }
    ensures again { F.IsAlwaysCallable result }
    ensures visited { FoldsTo (VisitsAt F.FnMut) visit (map (λ v. (place, v)) values.entry) result }
{
    for value in values {
        visit(place, value);
    }
    visit
}

/// Visits the values at each of a few index keys, in their order, with the place that stands beside it, and gives the closure back. It
/// finds all lists in arrays before it reads a value, so that the values are read at once.
#[inline(always)]
fn show_few<T: Translator, V: Drop, const P: usize, F: FnMut(usize, &V)>(
    index: &Index<T, V, P>,
    probes: &[((usize, T::Key), usize)],
    mut visit: F,
) -> F
    requires few { length probes.now ≤ TOGETHER }
    requires callable { F.IsAlwaysCallable visit }
    ensures again { F.IsAlwaysCallable result }
    ensures visited { FoldsTo (VisitsAt F.FnMut) visit
        (visits_of (run_at (pair_cmp T.Key.cmp) (view index.now)) probes.now) result }
{
    let guesses = guesses_of(index, probes);
    let mut runs: [Option<&[V]>; TOGETHER] = [None; TOGETHER];
    'find: for cell in 0..probes.len() {
        runs[cell] = index.run_near(probes[cell].0, guesses[cell]);
    }
    'visit: for cell in 0..probes.len() {
        let probe = probes[cell];
        let values = match runs[cell] {
            Some(run) => Values::of_slice(run),
            None => index.list_at(probe.0),
        };
        visit = show_list(probe.1, values, visit);
    }
    visit
}

/// Visits the values at each index key, in their order, with the place that stands beside it, and gives the closure back.
pub(super) fn show_together<T: Translator, V: Drop, const P: usize, F: FnMut(usize, &V)>(
    index: &Index<T, V, P>,
    probes: &[((usize, T::Key), usize)],
    mut visit: F,
) -> F
    requires { F.IsAlwaysCallable visit }
    ensures { FoldsTo (VisitsAt F.FnMut) visit
        (visits_of (run_at (pair_cmp T.Key.cmp) (view index.now)) probes.now) result }
{
    let mut rest = probes;
    'few: while !rest.is_empty() {
        let (few, behind) = rest.split_at(rest.len().min(TOGETHER));
        visit = show_few(index, few, visit);
        rest = behind;
    }
    visit
}
