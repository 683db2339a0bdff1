//! Places of full keys in lists that stand in the order of full keys: a reader compares the keys, of those records that read.
ghost use Rattle.std.specs.Prelude.{◌≡◌, ◌==◌, ◌≤◌, ◌<◌, ℕ, List, length, slice_get, true, false, is_some, IfErr, IfNone, IfOk, IfSome, IsSomeAnd, MatchOption};
ghost use Rattle.key_index_flat.specs.FullKeys.{AsRead, FailsOn, byte_cmp};
ghost use Rattle.key_index_flat.specs.Places.{AreHidden, IsHiddenIn, IsInOrder, IsPlace};
ghost use Rattle.key_index_flat.specs.View.{run_of};

use super::Unordered;
use std::cmp::Ordering;

/// Compares the full keys of records with other keys. Some records may not read.
///
/// As a reader of `Records`, it `agrees` with an assignment of full keys to values while each of its reads gave what that one assigns,
/// and `reads` relates it before and after any number of reads, whether or not they fail. It `hides` a value from the first read on
/// that didn't give its key. `is_of` tells what is known of what was read of a value's record.
pub trait Compare<V> {
    /// What was read of a record.
    type Read: Drop;

    type Error: Drop;

    ghost agrees: { Self → (V → List ℕ) → Type 0 };

    ghost hides: { Self → V → Type 0 };

    ghost is_of: { Self → V → Self.Read → Type 0 } = { λ _ _ _. Unit {0} };

    ghost reads: { Self → Self → Type 0 };

    ghost fails: { Self → V → Self.Error → Type 0 } = { λ _ _ _. Unit {0} };

    ghost reads_nothing: { (x : Self) → reads x x };

    ghost reads_both: { (x y z : Self) → reads x y → reads y z → reads x z };

    ghost agreed: { (x y : Self) (keys : V → List ℕ) → reads x y → agrees y keys → agrees x keys };

    ghost stays_hidden: { (x y : Self) (v : V) → reads x y → hides x v → hides y v };

    /// How the full key of a value's record compares with a key, with what was read, or `None` where the record doesn't read. Where the
    /// value is alone in its list, no more than this one is read: so of its record more may be read at once.
    fn compare(
        &mut self,
        value: &V,
        key: &[u8],
        is_alone: bool,
    ) -> Result<Option<(Ordering, Self::Read)>, Self::Error>
        ensures side { AsRead (agrees self.new) (λ keys. IfOk result (λ o. IfSome o (λ r.
            r.0 ≡ byte_cmp (keys value.now) key.now))) }
        ensures hidden { IfOk result (λ o. IfNone o (hides self.new value.now)) }
        ensures read { IfOk result (λ o. IfSome o (λ r. is_of self.new value.now r.1)) }
        ensures reads { reads self.old self.new }
        ensures fault { IfErr result (fails self.new value.now) };
}

/// A value of a list whose record reads, and how its full key compares with another one.
#[derive(Drop)]
struct Standing<R> {
    place: usize,
    side: Ordering,
    read: R,
}

/// The first value of a key's list whose record reads, from one place to another.
fn first_read<I: Unordered, C: Compare<I::Value>>(
    index: &I,
    records: &mut C,
    slot: I::Key,
    key: &[u8],
    from: usize,
    to: usize,
    is_alone: bool,
) -> Result<Option<Standing<C::Read>>, C::Error>
    requires slot { slot ≡ (I.view index.now).slot key.now }
    requires within { to ≤ length (run_of I.Key.cmp (I.view index.now) key.now) }
    ensures passed { let run = run_of I.Key.cmp (I.view index.now) key.now in IfOk result (λ o.
        MatchOption o (AreHidden (C.hides records.new) run from to)
        (λ r. AreHidden (C.hides records.new) run from r.place)) }
    ensures side { AsRead (C.agrees records.new) (λ keys. IfOk result (λ o. IfSome o (λ r.
        IsSomeAnd (slice_get (run_of I.Key.cmp (I.view index.now) key.now) r.place) (λ v.
        r.side ≡ byte_cmp (keys v) key.now)))) }
    ensures read { IfOk result (λ o. IfSome o (λ r.
        IsSomeAnd (slice_get (run_of I.Key.cmp (I.view index.now) key.now) r.place) (λ v.
        C.is_of records.new v r.read))) }
    ensures within { IfOk result (λ o. IfSome o (λ r. (from ≤ r.place) × (r.place < to))) }
    ensures reads { C.reads records.old records.new }
    ensures fault { IfErr result (FailsOn (C.fails records.new) (run_of I.Key.cmp (I.view index.now) key.now)) }
{
    for place in from..to {
        let value = index.value_at(slot, place);
        if let Some((side, read)) = records.compare(value, key, is_alone)? {
            return Ok(Some(Standing { place, side, read }));
        }
    }
    Ok(None)
}

/// Where a full key stands in the list of its index key, or would stand.
#[derive(Drop)]
pub struct Found<R> {
    /// How many values of the list have a lesser key. With the index key it is what `set_at`, `insert_at` and `remove_at` take.
    pub place: usize,
    /// What was read of the value there, if that one has the key.
    pub read: Option<R>,
    /// The records of the values that stand there don't read: one of these may have the key.
    pub is_hidden: bool,
    /// There is no list.
    pub is_empty: bool,
}

/// Looks a full key up in the list of its index key, which is to stand in the order of full keys, each of them there once: a store that
/// puts each value in at the place that is given here keeps it so. It reads as many records as the length of the list has binary
/// digits, if all of these read. Where one doesn't, the next one that does tells on which side the key is.
///
/// Where it isn't hidden, `place` is how many keys of the list are below the key, and `read` is some exactly where one is the key, which
/// then stands there. Where it is, the values from `place` on don't read, as far as the key may stand. An error of the reader ends it,
/// and is handed on.
pub fn find_place<I: Unordered, C: Compare<I::Value>>(
    index: &I,
    records: &mut C,
    key: &[u8],
) -> Result<Found<C::Read>, C::Error>
    ensures at { AsRead (C.agrees records.new) (λ keys. let run = run_of I.Key.cmp (I.view index.now) key.now in
        IsInOrder keys run → IfOk result (λ f. f.is_hidden ≡ false
        → IsPlace keys key.now run f.place (is_some f.read))) }
    ensures hidden { AsRead (C.agrees records.new) (λ keys. let run = run_of I.Key.cmp (I.view index.now) key.now in
        IsInOrder keys run → IfOk result (λ f. f.is_hidden ≡ true
        → IsHiddenIn keys (C.hides records.new) key.now run f.place)) }
    ensures none { IfOk result (λ f. f.is_hidden ≡ true → is_some f.read ≡ false) }
    ensures read { IfOk result (λ f. IfSome f.read (λ r.
        IsSomeAnd (slice_get (run_of I.Key.cmp (I.view index.now) key.now) f.place) (λ v.
        C.is_of records.new v r))) }
    ensures within { IfOk result (λ f. f.place ≤ length (run_of I.Key.cmp (I.view index.now) key.now)) }
    ensures empty { IfOk result (λ f. f.is_empty ≡ (length (run_of I.Key.cmp (I.view index.now) key.now) == 0)) }
    ensures reads { C.reads records.old records.new }
    ensures fault { IfErr result (FailsOn (C.fails records.new) (run_of I.Key.cmp (I.view index.now) key.now)) }
{
    let slot = index.slot_of(key);
    let (mut low, mut high) = (0, index.run_len(slot));
    let (is_alone, is_empty) = (high == 1, high == 0);
    let mut is_hidden = false;
    while low < high {
        let middle = low + (high - low) / 2;
        let Some(there) = first_read(index, records, slot, key, middle, high, is_alone)? else {
            (high, is_hidden) = (middle, true);
            continue;
        };
        match there.side {
            Ordering::Less => low = there.place + 1,
            Ordering::Equal => {
                return Ok(Found {
                    place: there.place,
                    read: Some(there.read),
                    is_hidden: false,
                    is_empty,
                });
            }
            Ordering::Greater => (high, is_hidden) = (middle, there.place != middle),
        }
    }
    Ok(Found {
        place: low,
        read: None,
        is_hidden,
        is_empty,
    })
}
