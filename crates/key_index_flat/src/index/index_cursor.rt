//! The cursor of every index, proved once over the lists of any.
ghost use Rattle.std.specs.Prelude.{◌≡◌, ◌<◌, ◌≤◌, length, true, IsTrue};
ghost use Rattle.key_index_flat.specs.View.{run_at};
ghost use Rattle.key_index_flat.specs.declared.index.traits.cursor.CursorState.TheVariants.{Active};

use super::{Cursor, CursorState, Fault, Refused, Runs, Step};

/// The cursor of every index: a place in the list of one index key. While it lives, the index is changed through it alone; its drop
/// does no work. It keeps the length of the list, so that `next` looks the key up once. So does each other call that reads or changes a
/// value, and `find` and `retain` do for each value.
#[derive(Drop)]
pub struct IndexCursor<'a, I: Runs> {
    pub(crate) index: &'a mut I,
    pub(crate) slot: I::Key,
    pub(crate) place: usize,
    pub(crate) len: usize,
    pub(crate) state: CursorState,
    ghost known: { len ≡ length (run_at I.Key.cmp (I.view index.now) slot) },
    ghost admits: { IsTrue ((I.view index.now).admitted slot) },
    ghost within: { place ≤ len },
    ghost active: { state ≡ Active → place < len },
}

impl<'a, I: Runs> IndexCursor<'a, I> {
    ghost use Rattle.std.specs.Prelude.{◌≡◌, ◌<◌, ◌≤◌, length, slice_get, Some, IsTrue, IfErr, IfOk, OnErr, OnOk};
    ghost use Rattle.key_index_flat.specs.View.{items_in, run_at, growth_fault_in};
    ghost use Rattle.key_index_flat.specs.Cursor.{NeedNext, next_place, place_from, after_next, on_value, takes_insert};
    ghost use Rattle.key_index_flat.specs.CursorRun.{EditsBy};
    ghost use Rattle.key_index_flat.specs.IndexCursor.{cursor_index, cursor_slot, cursor_list, cursor_place, StaysAt};
    ghost use Rattle.key_index_flat.specs.Steps.{after_step, inserts, is_allowed};

    /// A cursor before the first value of an index key.
    pub fn new(index: &'a mut I, slot: I::Key) -> IndexCursor<'a, I>
        requires admits { IsTrue ((I.view index.old).admitted slot) }
        requires held { 0 < length (run_at I.Key.cmp (I.view index.old) slot) }
        ensures same_reference { (cursor_index result).ghost_name ≡ index.entry.ghost_name }
        ensures same_index { (cursor_index result).now ≡ index.old }
        ensures start { (cursor_slot result ≡ slot) × (cursor_place result ≡ NeedNext 0) }
    {
        let len = index.run_len(slot);
        IndexCursor::with_len(index, slot, len)
    }

    /// The same, where the length of the list is known: it saves a look-up.
    pub fn with_len(index: &'a mut I, slot: I::Key, len: usize) -> IndexCursor<'a, I>
        requires admits { IsTrue ((I.view index.old).admitted slot) }
        requires known { len ≡ length (run_at I.Key.cmp (I.view index.old) slot) }
        requires held { 0 < len }
        ensures same_reference { (cursor_index result).ghost_name ≡ index.entry.ghost_name }
        ensures same_index { (cursor_index result).now ≡ index.old }
        ensures start { (cursor_slot result ≡ slot) × (cursor_place result ≡ NeedNext 0) }
    {
        IndexCursor {
            index,
            slot,
            place: 0,
            len,
            state: CursorState::NeedNext,
        }
    }

    /// Lets the index go. The drop of a cursor does the same.
    pub fn close(self)
        ensures rests { self.exit.0.now ≡ (cursor_index self.entry).now }
    {}

    /// The value that the cursor is on.
    #[inline]
    fn current(&self) -> &I::Value
        requires { self.now.state ≡ CursorState.Active }
        ensures { slice_get (cursor_list self.now) self.now.place ≡ Some result.now }
    {
        self.index.value_at(self.slot, self.place)
    }

    /// The place of the value that `next` would give.
    #[inline]
    fn next_place(&self) -> usize
        ensures next { result ≡ next_place (cursor_list self.now) (cursor_place self.now) }
        ensures within { result ≤ self.now.len }
    {
        let len = self.len;
        match self.state {
            CursorState::NeedNext => self.place,
            CursorState::Active => self.place + 1,
            CursorState::Done => len,
        }
    }

    /// Whether it is on a value.
    #[inline]
    fn is_on_value(&self) -> bool
        ensures { result ≡ on_value (cursor_place self.now) }
    {
        match self.state {
            CursorState::Active => true,
            CursorState::NeedNext => false,
            CursorState::Done => false,
        }
    }

    /// Whether `insert` is allowed.
    #[inline]
    fn allows_insert(&self) -> bool
        ensures { result ≡ takes_insert (cursor_place self.now) }
    {
        match self.state {
            CursorState::Active => true,
            CursorState::NeedNext => false,
            CursorState::Done => true,
        }
    }

    /// Whether its place allows a step.
    fn allows(&self, step: &Step<I::Value>) -> bool
        ensures { result ≡ is_allowed step.now (cursor_place self.now) }
    {
        match step {
            Step::Next => true,
            Step::Insert(_) => self.allows_insert(),
            Step::Update(_) => self.is_on_value(),
            Step::Delete => self.is_on_value(),
        }
    }

    /// One step of an edit, and whether the cursor's place allows it. A step that it does not allow changes nothing. Nor does an
    /// insertion that is refused: `Full` exactly where `usize::MAX` values are held, and else `Memory`.
    pub fn step(&mut self, step: Step<I::Value>) -> Result<bool, Fault>
    where
        I::Value: Drop,
        ensures allowed { IfOk result (λ b. b ≡ is_allowed step (cursor_place self.old)) }
        ensures edited { OnOk result (EditsBy (after_step step) self.old self.new) }
        ensures room { OnOk result (IsTrue (inserts step (cursor_place self.old))
            → items_in (I.view (cursor_index self.old).now) < usize.MAX) }
        ensures refused { OnErr result (
            IsTrue (inserts step (cursor_place self.old)) × EditsBy (λ s. s) self.old self.new) }
        ensures fault { IfErr result (λ f. f ≡ growth_fault_in (I.view (cursor_index self.old).now)) }
    {
        if !self.allows(&step) {
            return Ok(false);
        }
        match step {
            Step::Next => {
                self.advance();
                Ok(true)
            }
            Step::Insert(value) => {
                self.insert(value)?;
                Ok(true)
            }
            Step::Update(value) => {
                self.update(value);
                Ok(true)
            }
            Step::Delete => {
                self.delete();
                Ok(true)
            }
        }
    }

    /// Goes where `next` goes.
    #[inline]
    fn advance(&mut self)
        ensures place { cursor_place self.new ≡ after_next (cursor_list self.old) (cursor_place self.old) }
        ensures stays { StaysAt self.old self.new }
    {
        let place = self.next_place();
        self.go(place);
    }

    /// Goes to a place, or past the end where there is none such.
    #[inline]
    fn go(&mut self, place: usize)
        ensures place { cursor_place self.new ≡ place_from (cursor_list self.old) place }
        ensures stays { StaysAt self.old self.new }
        ensures active { self.new.state ≡ CursorState.Active → self.new.place ≡ place }
    {
        if place < self.len {
            self.place = place;
            self.state = CursorState::Active;
        } else {
            self.state = CursorState::Done;
        }
    }
}

impl<'a, I: Runs> Cursor for IndexCursor<'a, I>
where
    I::Value: Drop,
{
    ghost use Rattle.key_index_flat.specs.View.{items_in};
    ghost use Rattle.key_index_flat.specs.IndexCursor.{cursor_index, cursor_list, cursor_place, StaysAt, EditsIndex};

    type Value = I::Value;

    ghost items = { λ c. cursor_list c };

    ghost place = { λ c. cursor_place c };

    ghost held = { λ c. items_in (I.view (cursor_index c).now) };

    ghost stays = { λ old new. StaysAt old new };

    ghost edited = { λ old new taken. EditsIndex old new taken };

    fn state(&self) -> CursorState {
        self.state
    }

    fn next(&mut self) -> Option<&I::Value> {
        let place = self.next_place();
        self.go(place);
        if self.state != CursorState::Active {
            return None;
        }
        Some(self.current())
    }

    fn insert(&mut self, value: I::Value) -> Result<(), Refused<I::Value>> {
        let place = self.next_place();
        self.index.insert_at(self.slot, place, value)?;
        self.len += 1;
        if self.state == CursorState::Active {
            self.place += 2;
            self.state = CursorState::NeedNext;
        }
        Ok(())
    }

    fn delete(&mut self) {
        self.index.remove_at(self.slot, self.place);
        self.len -= 1;
        self.state = CursorState::NeedNext;
    }

    fn update(&mut self, value: I::Value) {
        self.index.set_at(self.slot, self.place, value);
    }

    fn retain<F: FnMut(&I::Value) -> bool>(&mut self, mut should_retain: F) {
        let mut place = self.next_place();
        self.place = 0;
        self.state = CursorState::Done;
        while place < self.len {
            if should_retain(self.index.value_at(self.slot, place)) {
                place += 1;
            } else {
                self.index.remove_at(self.slot, place);
                self.len -= 1;
            }
        }
    }

    fn find<F: FnMut(&I::Value) -> bool>(&mut self, mut predicate: F) -> bool {
        let len = self.len;
        let mut place = self.next_place();
        while place < len && !predicate(self.index.value_at(self.slot, place)) {
            place += 1;
        }
        self.go(place);
        place < len
    }
}
