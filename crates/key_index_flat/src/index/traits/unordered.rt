//! What the indices have in common: generic code is proved over these traits, by the content of an index alone.
ghost use Rattle.std.specs.Prelude.{◌≡◌, ◌↔◌, IsTrue, ℕ, ◌-◌, ◌<◌, List, [], Bool, All, IfErr, OnOk, OnErr, IfOk};
ghost use Rattle.std.specs.Fn.{CalledAt};
ghost use Rattle.key_index_flat.specs.Content.{is_filled, key_count};
ghost use Rattle.key_index_flat.specs.View.{items_in, run_of, after_insert, after_remove, growth_fault_in, Admits, AlsoAt, InsertsAndRetainsAt, IsWantAt, RetainsAt, StaysBut};
ghost use Rattle.key_index_flat.specs.Visits.{InAnyOrder, IsBatch, Visits};

use crate::index::{Fault, Refused, Search, Values};
use std::alloc::Global;
use std::convert::AsSlice;

/// An index that answers by key, with no order over the keys. Its contracts speak of its content alone, so code that is generic
/// over it is right for each index. `resettled` is for `remove`, `retain` and `insert_and_retain` what `settled` is for the other calls
/// by key: an index that says one of them says both.
pub trait Unordered: Search {
    ghost INSERT_FIRST: { Bool };

    ghost resettled: { Self → Self.Key → Self → Type 0 } = { λ _ _ _. Unit {0} };

    /// Whether `insert` puts a value in front of those that its key has, and not behind them.
    const INSERT_FIRST: bool;

    /// Whether looking keys up in a batch makes the changes that follow cheaper.
    const LOOKUP_WARMS_UPDATE: bool;

    /// The values under the key's index key, in list order. Takes no memory.
    fn get(&self, key: &[u8]) -> Values<'_, Self::Value>
        ensures { result ≡ run_of Self.Key.cmp (Self.view self.now) key.now };

    /// Visits the values of each key of a batch with the key's place in it, from 0: of each place the whole list of its key, in list
    /// order. In which order the places come is said by each index. A refusal, which is `Memory`, comes before any visit.
    fn get_many<B: Iterator + Drop, F: FnMut(usize, &Self::Value)>(
        &self,
        keys: B,
        visit: F,
    ) -> Result<(), Fault>
    where
        B::Item: AsSlice<u8> + Drop,
        requires batch { IsBatch B.Iterator keys }
        requires callable { F.IsAlwaysCallable visit }
        ensures seen { OnOk result (Visits InAnyOrder B.Iterator B.Item.items keys
            Self.Key.cmp (Self.view self.now) F.FnMut visit) }
        ensures fault { IfErr result (λ f. f ≡ Fault.Memory) };

    /// Adds a value under the key's index key: in front of those that stand there if `INSERT_FIRST`, and else behind them. A refusal
    /// hands the value back: `Full` exactly where the index holds `usize::MAX` values, and else `Memory`.
    fn insert(&mut self, key: &[u8], value: Self::Value) -> Result<(), Refused<Self::Value>>
        ensures accepted { OnOk result (Self.view self.new
            ≡ after_insert Self.Key.cmp INSERT_FIRST (Self.view self.old) key.now value) }
        ensures settled { OnOk result (AlsoAt Self.view Self.settled self.old key.now self.new) }
        ensures room { OnOk result (items_in (Self.view self.old) < usize.MAX) }
        ensures refused { OnErr result (StaysBut Self.view Self.left_by_refusal self.old key.now self.new) }
        ensures returned { IfErr result (λ r. r.value ≡ value) }
        ensures fault { IfErr result (λ r. r.fault ≡ growth_fault_in (Self.view self.old)) };

    /// Calls the closure once for each value under the key's index key, in list order, and removes those for which it returns false.
    fn retain<F: FnMut(&Self::Value) -> bool>(
        &mut self,
        key: &[u8],
        should_retain: F,
    ) -> Result<(), Fault>
        requires { F.IsAlwaysCallable should_retain }
        ensures accepted { OnOk result (RetainsAt Self.Key.cmp (CalledAt F.FnMut) should_retain
            (Self.view self.old) key.now (Self.view self.new)) }
        ensures settled { OnOk result (AlsoAt Self.view Self.resettled self.old key.now self.new) }
        ensures refused { OnErr result (StaysBut Self.view Self.left_by_refusal self.old key.now self.new) }
        ensures want { IfErr result (IsWantAt Self.view Self.may_refuse self.old key.now) };

    /// Inserts a value behind those under the key's index key, whatever `INSERT_FIRST` is. Then calls the closure once for each of
    /// them, in list order, the new one last, and removes those for which it returns false; the new one never counts as pruned. All
    /// memory that the call may need is allocated before the first call of the closure. A refusal leaves the view and hands the value
    /// back: `Full` exactly where the index holds `usize::MAX` values, and else `Memory`.
    fn insert_and_retain<F: FnMut(&Self::Value) -> bool>(
        &mut self,
        key: &[u8],
        value: Self::Value,
        should_retain: F,
    ) -> Result<(), Refused<Self::Value>>
        requires { F.IsAlwaysCallable should_retain }
        ensures accepted { OnOk result (InsertsAndRetainsAt Self.Key.cmp (CalledAt F.FnMut) should_retain
            (Self.view self.old) key.now value (Self.view self.new)) }
        ensures settled { OnOk result (AlsoAt Self.view Self.resettled self.old key.now self.new) }
        ensures room { OnOk result (items_in (Self.view self.old) < usize.MAX) }
        ensures refused { OnErr result (StaysBut Self.view Self.left_by_refusal self.old key.now self.new) }
        ensures returned { IfErr result (λ r. r.value ≡ value) }
        ensures fault { IfErr result (λ r. r.fault ≡ growth_fault_in (Self.view self.old)) };

    /// Removes the key's index key, with all of its values.
    fn remove(&mut self, key: &[u8]) -> Result<(), Fault>
        ensures accepted { OnOk result (Self.view self.new ≡ after_remove Self.Key.cmp (Self.view self.old) key.now) }
        ensures settled { OnOk result (AlsoAt Self.view Self.resettled self.old key.now self.new) }
        ensures refused { OnErr result (StaysBut Self.view Self.left_by_refusal self.old key.now self.new) }
        ensures want { IfErr result (IsWantAt Self.view Self.may_refuse self.old key.now) };

    /// How many index keys are held.
    fn keys(&self) -> usize
        ensures { result ≡ key_count (Self.view self.now).content };

    /// Whether no value is held.
    final fn is_empty(&self) -> bool
        ensures { IsTrue result ↔ ((Self.view self.now).content ≡ []) }
    {
        self.keys() == 0
    }

    /// Whether the key's index key has a value. Takes no memory.
    final fn contains_key(&self, key: &[u8]) -> bool
        ensures { result ≡ is_filled (run_of Self.Key.cmp (Self.view self.now) key.now) }
    {
        !self.get(key).is_empty()
    }

    /// How many values are held, those of all index keys together.
    fn items(&self) -> usize
        ensures { result ≡ items_in (Self.view self.now) };

    /// How many held values were ever removed. The count stops at `u64::MAX`.
    fn pruned(&self) -> u64
        ensures { result ≡ (Self.view self.now).pruned };

    ghost reaches: { (x : Self) (b : List ℕ) → All (λ n. n < 256) b → Admits (Self.view x) b };
}

/// An index that a translator makes.
pub trait Factory: Unordered {
    type Translator;

    ghost slot_by: { Self.Translator → List ℕ → Self.Key };

    ghost makes: { Type 0 };

    /// An index with no values.
    fn new(alloc: Global, translator: Self::Translator) -> Result<Self, Fault>
        requires { makes }
        ensures empty { IfOk result (λ index. (Self.view index).content ≡ []) }
        ensures pruned { IfOk result (λ index. (Self.view index).pruned ≡ 0) }
        ensures slots { IfOk result (λ index. (Self.view index).slot ≡ slot_by translator) }
        ensures fault { IfErr result (λ f. f ≡ Fault.Memory) };
}
