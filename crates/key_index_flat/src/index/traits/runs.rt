//! A map from index keys to lists, read and changed place by place.
ghost use Rattle.std.specs.Prelude.{◌≡◌, IsTrue, length, slice_get, slice_set, insert, remove, Some, ◌<◌, ◌≤◌, IfErr, OnOk, OnErr};
ghost use Rattle.std.specs.declared.cmp.Ordering.TheVariants.{Equal};
ghost use Rattle.key_index_flat.specs.Content.{IsLawful};
ghost use Rattle.key_index_flat.specs.View.{View, growth_fault_in, items_in, run_at, with_edit, with_pruned};

use crate::index::Refused;

/// A map from index keys to lists of values, read and changed place by place. Its `view` is what contracts see of it, and `edited`
/// what else one edit leaves, which is nothing unless an index says otherwise.
pub trait Runs {
    type Value;

    type Key: Ord + Copy;

    ghost view: { Self → View Self.Key Self.Value };

    ghost edited: { Self → Self → Type 0 } = { λ _ _. Unit {0} };

    /// The index key of a key.
    fn slot_of(&self, key: &[u8]) -> Self::Key
        ensures { result ≡ (view self.now).slot key.now };

    /// Whether this index can hold values under the index key.
    fn admits(&self, slot: Self::Key) -> bool
        ensures { result ≡ (view self.now).admitted slot };

    /// How many values the index key has, 0 where it is absent.
    fn run_len(&self, slot: Self::Key) -> usize
        ensures { result ≡ length (run_at Self.Key.cmp (view self.now) slot) };

    /// The value at a place of the index key's list.
    fn value_at(&self, slot: Self::Key, place: usize) -> &Self::Value
        requires { place < length (run_at Self.Key.cmp (view self.now) slot) }
        ensures { slice_get (run_at Self.Key.cmp (view self.now) slot) place ≡ Some result.now };

    /// Puts another value at a place of the index key's list. The value that stood there does not count as pruned.
    fn set_at(&mut self, slot: Self::Key, place: usize, value: Self::Value)
        requires { place < length (run_at Self.Key.cmp (view self.old) slot) }
        ensures changed { view self.new ≡ with_edit Self.Key.cmp (view self.old) slot (λ l. slice_set l place value) }
        ensures edited { edited self.old self.new };

    /// Puts a value in at a place of the index key's list, or behind its last one. On an absent index key it makes the list. A
    /// refusal hands the value back: `Full` exactly where the index holds `usize::MAX` values, and else `Memory`.
    fn insert_at(
        &mut self,
        slot: Self::Key,
        place: usize,
        value: Self::Value,
    ) -> Result<(), Refused<Self::Value>>
        requires admits { IsTrue ((view self.old).admitted slot) }
        requires place { place ≤ length (run_at Self.Key.cmp (view self.old) slot) }
        ensures accepted { OnOk result (view self.new
            ≡ with_edit Self.Key.cmp (view self.old) slot (λ l. insert l place value)) }
        ensures room { OnOk result (items_in (view self.old) < usize.MAX) }
        ensures refused { OnErr result (view self.new ≡ view self.old) }
        ensures returned { IfErr result (λ r. r.value ≡ value) }
        ensures fault { IfErr result (λ r. r.fault ≡ growth_fault_in (view self.old)) }
        ensures edited { edited self.old self.new };

    /// Removes the value at a place of the index key's list. Without its only value the index key is absent.
    fn remove_at(&mut self, slot: Self::Key, place: usize) -> Self::Value
        requires { place < length (run_at Self.Key.cmp (view self.old) slot) }
        ensures value { slice_get (run_at Self.Key.cmp (view self.old) slot) place ≡ Some result }
        ensures changed { view self.new
            ≡ with_pruned (with_edit Self.Key.cmp (view self.old) slot (λ l. remove l place)) 1 }
        ensures edited { edited self.old self.new };

    ghost lawful: { (x : Self) → IsLawful Self.Key.cmp (view x).content };

    ghost exact: { (a b : Self.Key) → Self.Key.cmp a b ≡ Equal → a ≡ b };
}
