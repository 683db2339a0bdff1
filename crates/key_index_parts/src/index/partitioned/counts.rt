//! The counts of what the buckets of an index hold.
ghost use Rattle.std.specs.Prelude.{◌≡◌, ◌+◌, ◌<◌, ◌≤◌, nat_lt};
ghost use Rattle.key_index_flat.specs.View.{pruned_after};
ghost use Rattle.key_index_parts.specs.Counts.{one_if, keys_for, CanChange};

use key_index_flat::index::implement::Retained;

/// How many values and index keys there are, and how many held values were ever removed.
#[derive(Drop)]
pub(super) struct Counts {
    pub(super) items: usize,
    pub(super) keys: usize,
    pub(super) pruned: u64,
}

impl Counts {
    /// Counts a value that was put in, under an index key that had none if it is `absent`.
    #[inline]
    pub(super) fn gain(&mut self, absent: bool)
        requires items { self.old.items < usize.MAX }
        requires keys { self.old.keys < usize.MAX }
        ensures items { self.new.items ≡ self.old.items + 1 }
        ensures keys { self.new.keys ≡ self.old.keys + one_if absent }
        ensures pruned { self.new.pruned ≡ self.old.pruned }
    {
        self.items += 1;
        self.keys += usize::from(absent);
    }

    /// Counts what a call found and left under one index key.
    #[inline]
    pub(super) fn change(&mut self, told: Retained)
        requires { CanChange self.old.items self.old.keys told.had told.left }
        ensures items { self.new.items + told.had ≡ self.old.items + told.left }
        ensures keys { self.new.keys + keys_for told.had ≡ self.old.keys + keys_for told.left }
        ensures pruned { self.new.pruned ≡ pruned_after self.old.pruned told.taken }
    {
        self.items = self.items - told.had + told.left;
        self.keys = self.keys - usize::from(told.had > 0) + usize::from(told.left > 0);
        self.pruned = self.pruned.saturating_add(told.taken as u64);
    }

    /// Counts what other buckets hold.
    pub(super) fn join(&mut self, other: Counts)
        requires items { self.old.items + other.items ≤ usize.MAX }
        requires keys { self.old.keys + other.keys ≤ usize.MAX }
        ensures items { self.new.items ≡ self.old.items + other.items }
        ensures keys { self.new.keys ≡ self.old.keys + other.keys }
        ensures pruned { self.new.pruned ≡ pruned_after self.old.pruned other.pruned }
    {
        self.keys += other.keys;
        self.items += other.items;
        self.pruned = self.pruned.saturating_add(other.pruned);
    }
}

/// From how many values on a bucket spills, how many spills there ever were, and how many values were ever moved, to trees and back.
#[derive(Drop)]
pub(super) struct Moves {
    pub(super) threshold: usize,
    pub(super) spills: u64,
    pub(super) moved: u64,
    ghost least: { 1 ≤ threshold },
}

impl Moves {
    /// Counts a spill that moved so many values. Where they are none, there was no spill.
    #[inline]
    pub(super) fn spill(&mut self, values: usize)
        ensures threshold { self.new.threshold ≡ self.old.threshold }
        ensures spills { self.new.spills ≡ pruned_after self.old.spills (one_if (nat_lt 0 values)) }
        ensures moved { self.new.moved ≡ pruned_after self.old.moved values }
    {
        self.spills = self.spills.saturating_add(u64::from(values > 0));
        self.moved = self.moved.saturating_add(values as u64);
    }

    /// Counts so many values that were moved back to arrays.
    #[inline]
    pub(super) fn move_back(&mut self, values: usize)
        ensures threshold { self.new.threshold ≡ self.old.threshold }
        ensures spills { self.new.spills ≡ self.old.spills }
        ensures moved { self.new.moved ≡ pruned_after self.old.moved values }
    {
        self.moved = self.moved.saturating_add(values as u64);
    }

    /// Counts what other buckets moved.
    pub(super) fn join(&mut self, other: Moves)
        ensures threshold { self.new.threshold ≡ self.old.threshold }
        ensures spills { self.new.spills ≡ pruned_after self.old.spills other.spills }
        ensures moved { self.new.moved ≡ pruned_after self.old.moved other.moved }
    {
        self.spills = self.spills.saturating_add(other.spills);
        self.moved = self.moved.saturating_add(other.moved);
    }
}
