//! Cursors: a place in the list of one index key, at which values are read, inserted, changed and removed.
ghost use Rattle.std.specs.Prelude.{◌≡◌, ◌<◌, ◌-◌, ℕ, List, length, OnOk, OnErr, IfErr, MatchBool};
ghost use Rattle.std.specs.Borrow.{sem, follows_so};
ghost use Rattle.std.specs.Fn.{CalledAt};
ghost use Rattle.std.specs.Option.{option_copied};
ghost use Rattle.key_index_flat.specs.Cursor.{Place, state_of, after_next, value_next, list_after_insert, place_after_insert, list_after_update, list_after_delete, place_after_delete, Retains, Finds, FindsNone, IsOnValue, AllowsInsert, Done};
ghost use Rattle.key_index_flat.specs.Fault.{growth_fault};
ghost use mathlib.Core.Option.{none};

use crate::index::Refused;

/// Where a cursor stands.
#[derive(Debug, Clone, Copy, PartialEq, Eq)]
pub enum CursorState {
    /// Before a value, or before the end: `next` comes first.
    NeedNext,
    /// On a value.
    Active,
    /// Past the last value.
    Done,
}

/// A cursor over one list. Its `items` is the list and its `place` where it stands, `held` is how many values there are of all keys;
/// `stays` relates it before and after a call that changes no value, and `edited` before and after one that does, by how many values
/// were removed.
pub trait Cursor {
    type Value;

    ghost items: { Self → List Self.Value };

    ghost place: { Self → Place };

    ghost held: { Self → ℕ };

    ghost stays: { Self → Self → Type 0 };

    ghost edited: { Self → Self → ℕ → Type 0 };

    /// Where the cursor stands.
    fn state(&self) -> CursorState
        ensures { result ≡ state_of (place self.now) };

    /// The next value. Past the last one `None`, again and again.
    fn next(&mut self) -> Option<&Self::Value>
        ensures* moves { sem 𝓛 (follows_so Self.row Self.row self.entry.ghost_name none (λ _ _. Unit {0}) (λ v.
            (items v ≡ items self.old) × (place v ≡ after_next (items self.old) (place self.old)) × stays self.old v)) }
        ensures value { option_copied result ≡ value_next (items self.old) (place self.old) };

    /// Puts a value behind the one that the cursor is on, or last. `next` then gives the value behind it. A refusal hands the value
    /// back: `Full` exactly where `usize::MAX` values are held, and else `Memory`.
    fn insert(&mut self, value: Self::Value) -> Result<(), Refused<Self::Value>>
        requires { AllowsInsert (place self.old) }
        ensures items { OnOk result (items self.new ≡ list_after_insert (items self.old) (place self.old) value) }
        ensures place { OnOk result (place self.new ≡ place_after_insert (place self.old)) }
        ensures refused { OnErr result ((items self.new ≡ items self.old) × (place self.new ≡ place self.old)) }
        ensures room { OnOk result (held self.old < usize.MAX) }
        ensures returned { IfErr result (λ r. r.value ≡ value) }
        ensures fault { IfErr result (λ r. r.fault ≡ growth_fault (held self.old)) }
        ensures edited { edited self.old self.new 0 };

    /// Removes the value that the cursor is on. `next` then gives the one behind it.
    fn delete(&mut self)
        requires { IsOnValue (place self.old) }
        ensures items { items self.new ≡ list_after_delete (items self.old) (place self.old) }
        ensures place { place self.new ≡ place_after_delete (place self.old) }
        ensures edited { edited self.old self.new 1 };

    /// Puts another value in the place of the one that the cursor is on.
    fn update(&mut self, value: Self::Value)
        requires { IsOnValue (place self.old) }
        ensures items { items self.new ≡ list_after_update (items self.old) (place self.old) value }
        ensures place { place self.new ≡ place self.old }
        ensures edited { edited self.old self.new 0 };

    /// Calls the closure once for each value that `next` has not given, in order, and removes those for which it returns false.
    fn retain<F: FnMut(&Self::Value) -> bool>(&mut self, should_retain: F)
        requires { F.IsAlwaysCallable should_retain }
        ensures items { Retains (CalledAt F.FnMut) should_retain (items self.old) (place self.old) (items self.new) }
        ensures place { place self.new ≡ Done }
        ensures edited { edited self.old self.new (length (items self.old) - length (items self.new)) };

    /// Goes on to the next value for which the closure returns true, and tells whether there was one.
    fn find<F: FnMut(&Self::Value) -> bool>(&mut self, predicate: F) -> bool
        requires { F.IsAlwaysCallable predicate }
        ensures items { items self.new ≡ items self.old }
        ensures place { MatchBool result
            (Finds (CalledAt F.FnMut) predicate (items self.old) (place self.old) (place self.new))
            (FindsNone (CalledAt F.FnMut) predicate (items self.old) (place self.old) (place self.new)) }
        ensures stays { stays self.old self.new };
}
