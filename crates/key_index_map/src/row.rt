//! A row of places that may go to another thread, which a `Slots` may not.
ghost use Rattle.std.specs.Prelude.{◌≡◌, ◌<◌, true, false, IsTrue, slice_index_or, slice_set};
ghost use Rattle.std.specs.Borrow.{sem};
ghost use Rattle.core.specs.Mem.Slots.{slots_items, slots_filled, slots_len, SamePlaces};

use core::slots::Slots;
use std::marker::Model;

/// Contracts see the `Slots`. Its methods are those of a `Slots`.
pub(crate) struct Row<T> {
    slots: Slots<T>,
}

impl<T> Model for Row<T> {
    ghost use base.Fml.{ftrue};
    ghost use Rattle.core.specs.declared.slots.Slots.{Slots};

    ghost Value = { Slots T };

    ghost view = { λ r. r.slots };

    // So the proofs that it is `Send` and `Sync` are its own.
    ghost also_owns = { λ _. ftrue };

    ghost also_shares = { λ _ _ _. ftrue };
}

unsafe impl<T: Send> Send for Row<T> {}

unsafe impl<T: Sync> Sync for Row<T> {}

impl<T> Row<T> {
    ghost use Rattle.key_index_map.specs.RowLent.{lends_item, lends_slots};

    #[inline(always)]
    pub(crate) fn new(slots: Slots<T>) -> Row<T>
        ensures { result ≡ slots }
    {
        Row { slots }
    }

    #[inline(always)]
    pub(crate) fn into_slots(self) -> Slots<T>
        ensures { result ≡ self }
    {
        let Row { slots } = self;
        slots
    }

    #[inline(always)]
    pub(crate) fn len(&self) -> usize
        ensures { result ≡ slots_len self.now }
    {
        self.slots.len()
    }

    #[inline(always)]
    pub(crate) fn get(&self, i: usize) -> &T
        requires { (i < slots_len self.now) × IsTrue (slice_index_or (slots_filled self.now) i false) }
        ensures { result.now ≡ slice_index_or (slots_items self.now) i result.now }
    {
        self.slots.get(i)
    }

    #[inline(always)]
    fn slots_mut(&mut self) -> &mut Slots<T>
        ensures* lends { sem 𝓛 (lends_slots T.row self.entry result) }
        ensures same { result.now ≡ self.old }
    {
        &mut self.slots
    }

    #[inline(always)]
    pub(crate) fn get_mut(&mut self, i: usize) -> &mut T
        requires { (i < slots_len self.old) × IsTrue (slice_index_or (slots_filled self.old) i false) }
        ensures* lends { sem 𝓛 (lends_item T.row self.entry i result) }
        ensures value { result.now ≡ slice_index_or (slots_items self.old) i result.now }
    {
        self.slots_mut().get_mut(i)
    }

    #[inline(always)]
    pub(crate) fn take(&mut self, i: usize) -> T
        requires { (i < slots_len self.old) × IsTrue (slice_index_or (slots_filled self.old) i false) }
        ensures value { result ≡ slice_index_or (slots_items self.old) i result }
        ensures items { slots_items self.new ≡ slots_items self.old }
        ensures filled { slots_filled self.new ≡ slice_set (slots_filled self.old) i false }
        ensures places { SamePlaces self.old self.new }
    {
        self.slots.take(i)
    }

    #[inline(always)]
    pub(crate) fn put(&mut self, i: usize, x: T)
        requires { i < slots_len self.old }
        ensures items { slots_items self.new ≡ slice_set (slots_items self.old) i x }
        ensures filled { slots_filled self.new ≡ slice_set (slots_filled self.old) i true }
        ensures places { SamePlaces self.old self.new }
    {
        self.slots.put(i, x);
    }
}
