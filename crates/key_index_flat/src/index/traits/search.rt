//! The search for a cursor: what each index does itself, and the two calls by key that are made of it.
ghost use Rattle.std.specs.Prelude.{◌≡◌, ◌↔◌, ◌<◌, false, IfErr, IfOk, OnOk, OnErr, IsSome, Bool};
ghost use Rattle.std.specs.Borrow.{sem, RestsIfErr};
ghost use Rattle.key_index_flat.specs.View.{items_in, growth_fault_in, Admits, InsertsBut, IsHeld, IsWantAt, Reaches, StaysBut};
ghost use Rattle.key_index_flat.specs.IndexCursor.{cursor_index, cursor_name, StartsAt};
ghost use Rattle.key_index_flat.specs.Lent.{nested, OnFound, NoneOrErr, RestsUnlessFound};

use crate::index::{Fault, IndexCursor, Refused, Runs};

/// The body of an index's two searches: `cursor_of!(self, self.reach(key))` gives a cursor over the list that was reached, and
/// `Err(None)` where it has no value.
#[macro_export]
macro_rules! cursor_of {
    ($index:expr, $reached:expr) => {
        match $reached {
            Ok((_, 0)) => Err(None),
            Ok((slot, len)) => Ok($crate::index::IndexCursor::with_len($index, slot, len)),
            Err(refused) => Err(Some(refused)),
        }
    };
}

/// What a search found, as the calls by key give it.
#[inline]
pub(crate) fn nest<I: Runs, F>(
    found: Result<IndexCursor<'_, I>, Option<F>>,
) -> Result<Option<IndexCursor<'_, I>>, F>
    ensures { result ≡ nested found.entry }
{
    match found {
        Ok(cursor) => Ok(Some(cursor)),
        Err(None) => Ok(None),
        Err(Some(fault)) => Err(fault),
    }
}

/// An index whose lists are found by key and changed by a cursor. An index writes `reach`, `reach_or_insert` and, by them, the two
/// searches, and has `get_mut` and `get_mut_or_insert` by these.
///
/// What a call by key leaves beside content and counts is said by three members: `settled` by an accepted call (the index before,
/// the index key, the index after), `left_by_refusal` by a refused one, and `may_refuse` tells where a call that inserts nothing
/// may need memory at all. An index that leaves nothing else and never refuses such a call says none of them.
pub trait Search: Runs {
    ghost settled: { Self → Self.Key → Self → Type 0 } = { λ _ _ _. Unit {0} };

    ghost left_by_refusal: { Self → Self.Key → Self → Type 0 } = { λ _ _ _. Unit {0} };

    ghost may_refuse: { Self → Self.Key → Bool } = { λ _ _. false };

    /// Does what `get_mut` does before it gives a cursor, and tells the index key of the key with how many values that has.
    fn reach(&mut self, key: &[u8]) -> Result<(Self::Key, usize), Fault>
        requires admits { Admits (Self.view self.old) key.now }
        ensures settled { OnOk result (StaysBut Self.view settled self.old key.now self.new) }
        ensures refused { OnErr result (StaysBut Self.view left_by_refusal self.old key.now self.new) }
        ensures reached { IfOk result (Reaches Self.Key.cmp (Self.view self.old) key.now) }
        ensures want { IfErr result (IsWantAt Self.view may_refuse self.old key.now) };

    /// Does what `get_mut_or_insert` does before it gives a cursor, and tells the index key of the key with how many values that
    /// had: none where it inserted the value.
    fn reach_or_insert(
        &mut self,
        key: &[u8],
        value: Self::Value,
    ) -> Result<(Self::Key, usize), Refused<Self::Value>>
        requires admits { Admits (Self.view self.old) key.now }
        ensures found { IfOk result (λ told. 0 < told.1 → StaysBut Self.view settled self.old key.now self.new) }
        ensures inserted { IfOk result (λ told. told.1 ≡ 0 →
            InsertsBut Self.Key.cmp Self.view settled self.old key.now value self.new) }
        ensures refused { OnErr result (StaysBut Self.view left_by_refusal self.old key.now self.new) }
        ensures reached { IfOk result (Reaches Self.Key.cmp (Self.view self.old) key.now) }
        ensures room { OnOk result (items_in (Self.view self.old) < usize.MAX) }
        ensures returned { IfErr result (λ e. e.value ≡ value) }
        ensures fault { IfErr result (λ e. e.fault ≡ growth_fault_in (Self.view self.old)) };

    /// What `get_mut` finds: a cursor, `None` in place of a refusal where the key has no value, or a refusal.
    fn search(&mut self, key: &[u8]) -> Result<IndexCursor<'_, Self>, Option<Fault>>
        requires admits { Admits (Self.view self.old) key.now }
        ensures* rests { sem 𝓛 (RestsIfErr Self.row self.entry (λ c. cursor_name c) result (λ n.
            NoneOrErr (nested result)
            (StaysBut Self.view settled self.old key.now n)
            (StaysBut Self.view left_by_refusal self.old key.now n))) }
        ensures same_reference { OnFound (nested result) (λ c. cursor_name c ≡ self.entry.ghost_name) }
        ensures found { OnFound (nested result) (λ c.
            StaysBut Self.view settled self.old key.now (cursor_index c).now) }
        ensures start { OnFound (nested result) (λ c. StartsAt c ((Self.view self.old).slot key.now)) }
        ensures held { IfOk (nested result) (λ o. IsSome o ↔ IsHeld Self.Key.cmp (Self.view self.old) key.now) }
        ensures want { IfErr (nested result) (IsWantAt Self.view may_refuse self.old key.now) };

    /// What `get_mut_or_insert` finds: a cursor, `None` in place of a refusal where it inserted the value, or a refusal.
    fn search_or_insert(
        &mut self,
        key: &[u8],
        value: Self::Value,
    ) -> Result<IndexCursor<'_, Self>, Option<Refused<Self::Value>>>
        requires admits { Admits (Self.view self.old) key.now }
        ensures* rests { sem 𝓛 (RestsIfErr Self.row self.entry (λ c. cursor_name c) result (λ n.
            NoneOrErr (nested result)
            (InsertsBut Self.Key.cmp Self.view settled self.old key.now value n)
            (StaysBut Self.view left_by_refusal self.old key.now n))) }
        ensures same_reference { OnFound (nested result) (λ c. cursor_name c ≡ self.entry.ghost_name) }
        ensures found { OnFound (nested result) (λ c.
            StaysBut Self.view settled self.old key.now (cursor_index c).now) }
        ensures start { OnFound (nested result) (λ c. StartsAt c ((Self.view self.old).slot key.now)) }
        ensures held { IfOk (nested result) (λ o. IsSome o ↔ IsHeld Self.Key.cmp (Self.view self.old) key.now) }
        ensures room { IfOk (nested result) (λ _. items_in (Self.view self.old) < usize.MAX) }
        ensures returned { IfErr (nested result) (λ e. e.value ≡ value) }
        ensures fault { IfErr (nested result) (λ e. e.fault ≡ growth_fault_in (Self.view self.old)) };

    /// A cursor before the first value under the key's index key, or `None` where the key has no value. It changes no content.
    final fn get_mut(&mut self, key: &[u8]) -> Result<Option<IndexCursor<'_, Self>>, Fault>
        requires admits { Admits (Self.view self.old) key.now }
        ensures* rests { sem 𝓛 (RestsUnlessFound Self.row self.entry (λ c. cursor_name c) result
            (λ n. StaysBut Self.view settled self.old key.now n)
            (λ n. StaysBut Self.view left_by_refusal self.old key.now n)) }
        ensures same_reference { OnFound result (λ c. cursor_name c ≡ self.entry.ghost_name) }
        ensures found { OnFound result (λ c. StaysBut Self.view settled self.old key.now (cursor_index c).now) }
        ensures start { OnFound result (λ c. StartsAt c ((Self.view self.old).slot key.now)) }
        ensures held { IfOk result (λ o. IsSome o ↔ IsHeld Self.Key.cmp (Self.view self.old) key.now) }
        ensures want { IfErr result (IsWantAt Self.view may_refuse self.old key.now) }
    {
        nest(self.search(key))
    }

    /// Where the key has a value, drops the one handed in and gives a cursor before the first. Else inserts it and gives `None`. A
    /// refusal hands the value back: `Full` exactly where the index holds `usize::MAX` values, and else `Memory`.
    final fn get_mut_or_insert(
        &mut self,
        key: &[u8],
        value: Self::Value,
    ) -> Result<Option<IndexCursor<'_, Self>>, Refused<Self::Value>>
        requires admits { Admits (Self.view self.old) key.now }
        ensures* rests { sem 𝓛 (RestsUnlessFound Self.row self.entry (λ c. cursor_name c) result
            (λ n. InsertsBut Self.Key.cmp Self.view settled self.old key.now value n)
            (λ n. StaysBut Self.view left_by_refusal self.old key.now n)) }
        ensures same_reference { OnFound result (λ c. cursor_name c ≡ self.entry.ghost_name) }
        ensures found { OnFound result (λ c. StaysBut Self.view settled self.old key.now (cursor_index c).now) }
        ensures start { OnFound result (λ c. StartsAt c ((Self.view self.old).slot key.now)) }
        ensures held { IfOk result (λ o. IsSome o ↔ IsHeld Self.Key.cmp (Self.view self.old) key.now) }
        ensures room { IfOk result (λ _. items_in (Self.view self.old) < usize.MAX) }
        ensures returned { IfErr result (λ e. e.value ≡ value) }
        ensures fault { IfErr result (λ e. e.fault ≡ growth_fault_in (Self.view self.old)) }
    {
        nest(self.search_or_insert(key, value))
    }
}
