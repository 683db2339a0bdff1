//! Values by their full keys, in an index that keeps shorter ones: a reader has the full keys.
ghost use Rattle.std.specs.Prelude.{◌≡◌, ◌∷◌, ◌++◌, ℕ, Bool, true, false, List, [], IfErr, IfOk};
ghost use Rattle.std.specs.Option.{option_copied, option_map};
ghost use Rattle.std.specs.Ordering.{is_lt};
ghost use Rattle.key_index_flat.specs.FullKeys.{AsRead, FailsOn, IsBesideIn, IsEndCandidate, IsFiledIn, IsFirstCandidate, IsFullBeside, IsFullEnd, IsFullFirst, IsFullGap, IsFullLast, IsFullNext, IsFullPrev, IsGapAmong, IsGapIn, IsLastCandidate, IsNearest, IsNearestRead, IsNextIn, IsPrevIn, beyond, byte_cmp, first_with, gap_copied};
ghost use Rattle.key_index_flat.specs.Neighbours.{beside_list, end_list, side_cmp};
ghost use Rattle.key_index_flat.specs.Values.{values_of};
ghost use Rattle.key_index_flat.specs.View.{run_of};

use super::{Ordered, Unordered, Values};
use std::convert::AsSlice;

/// Reads the full keys of values from their records.
///
/// A reader `agrees` with an assignment of full keys to values while each of its reads gave what that one assigns, and what is told of
/// the keys is told by each assignment with which it still agrees. So one whose device answered wrongly may agree with none, and
/// nothing is told of what it then read. `reads` relates a reader before and after any number of reads, whether or not they fail, and
/// `fails` tells why one may fail.
pub trait Records<'a, V> {
    type Key: AsSlice<u8> + Drop;

    type Error: Drop;

    ghost agrees: { Self → (V → List ℕ) → Type 0 };

    ghost reads: { Self → Self → Type 0 };

    ghost fails: { Self → V → Self.Error → Type 0 } = { λ _ _ _. Unit {0} };

    ghost reads_nothing: { (x : Self) → reads x x };

    ghost reads_both: { (x y z : Self) → reads x y → reads y z → reads x z };

    ghost agreed: { (x y : Self) (keys : V → List ℕ) → reads x y → agrees y keys → agrees x keys };

    /// The full key of a value's record.
    fn key_of(&mut self, value: &'a V) -> Result<Self::Key, Self::Error>
        ensures key { AsRead (agrees self.new) (λ keys. IfOk result (λ key. Self.Key.items key ≡ keys value.now)) }
        ensures reads { reads self.old self.new }
        ensures fault { IfErr result (fails self.new value.now) };
}

/// A side of a key, above it or else below, where its neighbour is looked for: the order in which the keys there come, from the nearest
/// on, and the calls of an index that go by it.
pub trait Side {
    ghost is_above: { Bool };

    /// Whether a key comes before another.
    fn is_before(a: &[u8], b: &[u8]) -> bool
        ensures { result ≡ is_lt (side_cmp is_above byte_cmp a.now b.now) };

    /// The values of the first index key behind that of the key, and false. Where there is none, those of the first of all, and true.
    fn beside<'a, I: Ordered>(index: &'a I, key: &[u8]) -> Option<(Values<'a, I::Value>, bool)>
        ensures { let view = I.view index.now in
            result ≡ beside_list is_above I.Key.cmp view.content (view.slot key.now) };

    /// The values of the first index key of all.
    fn end<'a, I: Ordered>(index: &'a I) -> Option<Values<'a, I::Value>>
        ensures { result ≡ end_list is_above (I.view index.now).content };
}

/// Keys above, in the order of bytes.
pub struct Above;

impl Side for Above {
    ghost is_above = { true };

    #[inline]
    #[tactic(auto, using(crate::proofs::neighbours::LeastLemmas::told_before))]
    fn is_before(a: &[u8], b: &[u8]) -> bool {
        a < b
    }

    #[inline]
    fn beside<'a, I: Ordered>(index: &'a I, key: &[u8]) -> Option<(Values<'a, I::Value>, bool)> {
        index.next_translated_key(key)
    }

    #[inline]
    fn end<'a, I: Ordered>(index: &'a I) -> Option<Values<'a, I::Value>> {
        index.first_translated_key()
    }
}

/// Keys below, in that order turned.
pub struct Below;

impl Side for Below {
    ghost is_above = { false };

    #[inline]
    #[tactic(auto, using(crate::proofs::neighbours::LeastLemmas::told_before))]
    fn is_before(a: &[u8], b: &[u8]) -> bool {
        b < a
    }

    #[inline]
    fn beside<'a, I: Ordered>(index: &'a I, key: &[u8]) -> Option<(Values<'a, I::Value>, bool)> {
        index.prev_translated_key(key)
    }

    #[inline]
    fn end<'a, I: Ordered>(index: &'a I) -> Option<Values<'a, I::Value>> {
        index.last_translated_key()
    }
}

/// Of the nearest value of a list and one that comes behind it, each with its full key, the one with the nearer full key.
fn nearer<'a, S: Side, V, K: AsSlice<u8> + Drop>(
    nearest: Option<(&'a V, K)>,
    value: &'a V,
    key: K,
) -> Option<(&'a V, K)>
    ensures { (keys : V → List ℕ) (l : List V) → K.items key ≡ keys value.now
        → IsNearestRead keys K.items S.is_above l nearest.entry
        → IsNearestRead keys K.items S.is_above (l ++ value.now ∷ []) result }
{
    let Some(first) = nearest else {
        return Some((value, key));
    };
    if S::is_before(key.as_slice(), first.1.as_slice()) {
        Some((value, key))
    } else {
        Some(first)
    }
}

/// The value that was found, without its full key.
fn without_key<'a, V, K: Drop>(found: Option<(&'a V, K)>) -> Option<&'a V>
    ensures { option_copied result ≡ option_map (λ n. n.0.now) found.entry }
{
    match found {
        Some((value, _)) => Some(value),
        None => None,
    }
}

/// The first of the values with the nearest full key.
fn nearest<'a, S: Side, V, R: Records<'a, V>>(
    values: Values<'a, V>,
    records: &mut R,
) -> Result<Option<&'a V>, R::Error>
    ensures nearest { AsRead (R.agrees records.new) (λ keys. IfOk result (λ o.
        IsNearest keys S.is_above values.entry (option_copied o))) }
    ensures reads { R.reads records.old records.new }
    ensures fault { IfErr result (FailsOn (R.fails records.new) values.entry) }
{
    let mut nearest = None;
    for value in values {
        let key = records.key_of(value)?;
        nearest = nearer::<S, _, _>(nearest, value, key);
    }
    Ok(without_key(nearest))
}

/// The first of the values with the nearest full key beyond a key.
fn nearest_beyond<'a, S: Side, V, R: Records<'a, V>>(
    values: Values<'a, V>,
    records: &mut R,
    key: &[u8],
) -> Result<Option<&'a V>, R::Error>
    ensures nearest { AsRead (R.agrees records.new) (λ keys. IfOk result (λ o.
        IsNearest keys S.is_above (beyond keys S.is_above key.now values.entry) (option_copied o))) }
    ensures reads { R.reads records.old records.new }
    ensures fault { IfErr result (FailsOn (R.fails records.new) values.entry) }
{
    let mut nearest = None;
    for value in values {
        let full_key = records.key_of(value)?;
        if S::is_before(key, full_key.as_slice()) {
            nearest = nearer::<S, _, _>(nearest, value, full_key);
        }
    }
    Ok(without_key(nearest))
}

/// The first of the values with the greatest full key below a key and of those with the least one above it. `None` where one of the
/// values has the key.
fn nearest_beside<'a, V, R: Records<'a, V>>(
    values: Values<'a, V>,
    records: &mut R,
    key: &[u8],
) -> Result<Option<(Option<&'a V>, Option<&'a V>)>, R::Error>
    ensures beside { AsRead (R.agrees records.new) (λ keys. IfOk result (λ gap.
        IsGapAmong keys key.now values.entry (gap_copied gap))) }
    ensures reads { R.reads records.old records.new }
    ensures fault { IfErr result (FailsOn (R.fails records.new) values.entry) }
{
    let mut below = None;
    let mut above = None;
    for value in values {
        let full_key = records.key_of(value)?;
        if full_key.as_slice() == key {
            return Ok(None);
        }
        if Above::is_before(key, full_key.as_slice()) {
            above = nearer::<Above, _, _>(above, value, full_key);
        } else {
            below = nearer::<Below, _, _>(below, value, full_key);
        }
    }
    Ok(Some((without_key(below), without_key(above))))
}

/// The first of the values that has a full key.
fn first_record_with<'a, V, R: Records<'a, V>>(
    values: Values<'a, V>,
    records: &mut R,
    key: &[u8],
) -> Result<Option<&'a V>, R::Error>
    ensures first { AsRead (R.agrees records.new) (λ keys. IfOk result (λ o.
        option_copied o ≡ first_with keys key.now values.entry)) }
    ensures reads { R.reads records.old records.new }
    ensures fault { IfErr result (FailsOn (R.fails records.new) values.entry) }
{
    for value in values {
        let full_key = records.key_of(value)?;
        if full_key.as_slice() == key {
            return Ok(Some(value));
        }
    }
    Ok(None)
}

/// The first value in list order, of those in the list of a key, whose record has this full key. Where values stand under their own
/// full keys it is the first of all that the index holds: so `None` exactly where none of them has the key.
///
/// Reads the values of one list up to the one that is found. An error of the reader ends it, and is handed on.
pub fn find_record<'a, I: Unordered, R: Records<'a, I::Value>>(
    index: &'a I,
    records: &mut R,
    key: &[u8],
) -> Result<Option<&'a I::Value>, R::Error>
    ensures candidate { AsRead (R.agrees records.new) (λ keys. IfOk result (λ o.
        option_copied o ≡ first_with keys key.now (run_of I.Key.cmp (I.view index.now) key.now))) }
    ensures filed { AsRead (R.agrees records.new) (λ keys. IsFiledIn keys I.Key.cmp (I.view index.now)
        → IfOk result (λ o.
        option_copied o ≡ first_with keys key.now (values_of (I.view index.now).content))) }
    ensures reads { R.reads records.old records.new }
    ensures fault { IfErr result (FailsOn (R.fails records.new) (run_of I.Key.cmp (I.view index.now) key.now)) }
{
    first_record_with(index.get(key), records, key)
}

/// The nearest of the values beyond a key in its own list, if it is given. Else the nearest of the neighbour's list, unless that one is
/// found by cycling.
fn own_or_beside<'a, S: Side, I: Ordered, R: Records<'a, I::Value>>(
    index: &'a I,
    records: &mut R,
    key: &[u8],
    own: Option<&'a I::Value>,
) -> Result<Option<&'a I::Value>, R::Error>
    ensures candidate { AsRead (R.agrees records.new) (λ keys. let run = run_of I.Key.cmp (I.view index.now) key.now in
        IsNearest keys S.is_above (beyond keys S.is_above key.now run) (option_copied own.entry)
        → IfOk result (λ o. IsBesideIn keys I.Key.cmp S.is_above (I.view index.now) key.now (option_copied o))) }
    ensures reads { R.reads records.old records.new }
    ensures fault { IfErr result (FailsOn (R.fails records.new) (values_of (I.view index.now).content)) }
{
    match own {
        Some(value) => Ok(Some(value)),
        None => match S::beside(index, key) {
            Some((values, false)) => nearest::<S, _, _>(values, records),
            _ => Ok(None),
        },
    }
}

/// The nearest value beyond a key, of the key's own list or of its neighbour.
fn record_beside<'a, S: Side, I: Ordered, R: Records<'a, I::Value>>(
    index: &'a I,
    records: &mut R,
    key: &[u8],
) -> Result<Option<&'a I::Value>, R::Error>
    ensures candidate { AsRead (R.agrees records.new) (λ keys. IfOk result (λ o.
        IsBesideIn keys I.Key.cmp S.is_above (I.view index.now) key.now (option_copied o))) }
    ensures filed { AsRead (R.agrees records.new) (λ keys. IsFiledIn keys I.Key.cmp (I.view index.now)
        → IfOk result (λ o. IsFullBeside keys S.is_above (I.view index.now).content key.now (option_copied o))) }
    ensures reads { R.reads records.old records.new }
    ensures fault { IfErr result (FailsOn (R.fails records.new) (values_of (I.view index.now).content)) }
{
    let own = nearest_beyond::<S, _, _>(index.get(key), records, key)?;
    own_or_beside::<S, _, _>(index, records, key, own)
}

/// The nearest value of the list that comes first on a side.
fn end_record<'a, S: Side, I: Ordered, R: Records<'a, I::Value>>(
    index: &'a I,
    records: &mut R,
) -> Result<Option<&'a I::Value>, R::Error>
    ensures candidate { AsRead (R.agrees records.new) (λ keys. IfOk result (λ o.
        IsEndCandidate keys S.is_above (I.view index.now).content (option_copied o))) }
    ensures filed { AsRead (R.agrees records.new) (λ keys. IsFiledIn keys I.Key.cmp (I.view index.now)
        → IfOk result (λ o. IsFullEnd keys S.is_above (I.view index.now).content (option_copied o))) }
    ensures reads { R.reads records.old records.new }
    ensures fault { IfErr result (FailsOn (R.fails records.new) (values_of (I.view index.now).content)) }
{
    let values = S::end(index).unwrap_or(Values::of_slice(&[]));
    nearest::<S, _, _>(values, records)
}

/// The value with the least full key strictly above a key, of all in an index whose values stand under their own full keys. `None`
/// exactly where no full key is above: it doesn't go round. Among equal full keys the first in list order.
///
/// Whatever the index holds, it is the least of those above the key in its own list and, where none is, of those in the next list,
/// unless that one is found by cycling.
///
/// Reads the values of one list or two, each once. An error of the reader ends it, and is handed on.
pub fn next_record<'a, I: Ordered, R: Records<'a, I::Value>>(
    index: &'a I,
    records: &mut R,
    key: &[u8],
) -> Result<Option<&'a I::Value>, R::Error>
    ensures candidate { AsRead (R.agrees records.new) (λ keys. IfOk result (λ o.
        IsNextIn keys I.Key.cmp (I.view index.now) key.now (option_copied o))) }
    ensures filed { AsRead (R.agrees records.new) (λ keys. IsFiledIn keys I.Key.cmp (I.view index.now)
        → IfOk result (λ o. IsFullNext keys (I.view index.now).content key.now (option_copied o))) }
    ensures reads { R.reads records.old records.new }
    ensures fault { IfErr result (FailsOn (R.fails records.new) (values_of (I.view index.now).content)) }
{
    record_beside::<Above, _, _>(index, records, key)
}

/// The value with the greatest full key strictly below a key, of all in an index whose values stand under their own full keys.
/// `None` exactly where no full key is below: it doesn't go round. Among equal full keys the first in list order.
///
/// Whatever the index holds, it is the greatest of those below the key in its own list and, where none is, of those in the previous
/// list, unless that one is found by cycling.
///
/// Reads the values of one list or two, each once. An error of the reader ends it, and is handed on.
pub fn prev_record<'a, I: Ordered, R: Records<'a, I::Value>>(
    index: &'a I,
    records: &mut R,
    key: &[u8],
) -> Result<Option<&'a I::Value>, R::Error>
    ensures candidate { AsRead (R.agrees records.new) (λ keys. IfOk result (λ o.
        IsPrevIn keys I.Key.cmp (I.view index.now) key.now (option_copied o))) }
    ensures filed { AsRead (R.agrees records.new) (λ keys. IsFiledIn keys I.Key.cmp (I.view index.now)
        → IfOk result (λ o. IsFullPrev keys (I.view index.now).content key.now (option_copied o))) }
    ensures reads { R.reads records.old records.new }
    ensures fault { IfErr result (FailsOn (R.fails records.new) (values_of (I.view index.now).content)) }
{
    record_beside::<Below, _, _>(index, records, key)
}

/// The values next to a full key that no value has, below and above: `None` where one has the key. Of a side on which no full key is
/// there is none. It needs an index whose values stand under their own full keys.
///
/// Whatever the index holds, no value in the key's own list has it, and the two are those that `prev_record` and `next_record` give.
///
/// Reads the values of one list to three, each once. An error of the reader ends it, and is handed on.
pub fn absent<'a, I: Ordered, R: Records<'a, I::Value>>(
    index: &'a I,
    records: &mut R,
    key: &[u8],
) -> Result<Option<(Option<&'a I::Value>, Option<&'a I::Value>)>, R::Error>
    ensures candidate { AsRead (R.agrees records.new) (λ keys. IfOk result (λ gap.
        IsGapIn keys I.Key.cmp (I.view index.now) key.now (gap_copied gap))) }
    ensures filed { AsRead (R.agrees records.new) (λ keys. IsFiledIn keys I.Key.cmp (I.view index.now)
        → IfOk result (λ gap. IsFullGap keys (I.view index.now).content key.now (gap_copied gap))) }
    ensures reads { R.reads records.old records.new }
    ensures fault { IfErr result (FailsOn (R.fails records.new) (values_of (I.view index.now).content)) }
{
    let Some((below, above)) = nearest_beside(index.get(key), records, key)? else {
        return Ok(None);
    };
    let below = own_or_beside::<Below, _, _>(index, records, key, below)?;
    let above = own_or_beside::<Above, _, _>(index, records, key, above)?;
    Ok(Some((below, above)))
}

/// The value with the least full key of all, in an index whose values stand under their own full keys. `None` exactly where the
/// index is empty. Among equal full keys the first in list order.
///
/// Whatever the index holds, it is the least of the first list. Reads the values of that list, each once. An error of the reader
/// ends it, and is handed on.
pub fn first_record<'a, I: Ordered, R: Records<'a, I::Value>>(
    index: &'a I,
    records: &mut R,
) -> Result<Option<&'a I::Value>, R::Error>
    ensures candidate { AsRead (R.agrees records.new) (λ keys. IfOk result (λ o.
        IsFirstCandidate keys (I.view index.now).content (option_copied o))) }
    ensures filed { AsRead (R.agrees records.new) (λ keys. IsFiledIn keys I.Key.cmp (I.view index.now)
        → IfOk result (λ o. IsFullFirst keys (I.view index.now).content (option_copied o))) }
    ensures reads { R.reads records.old records.new }
    ensures fault { IfErr result (FailsOn (R.fails records.new) (values_of (I.view index.now).content)) }
{
    end_record::<Above, _, _>(index, records)
}

/// The value with the greatest full key of all, in an index whose values stand under their own full keys. `None` exactly where the
/// index is empty. Among equal full keys the first in list order.
///
/// Whatever the index holds, it is the greatest of the last list. Reads the values of that list, each once. An error of the reader
/// ends it, and is handed on.
pub fn last_record<'a, I: Ordered, R: Records<'a, I::Value>>(
    index: &'a I,
    records: &mut R,
) -> Result<Option<&'a I::Value>, R::Error>
    ensures candidate { AsRead (R.agrees records.new) (λ keys. IfOk result (λ o.
        IsLastCandidate keys (I.view index.now).content (option_copied o))) }
    ensures filed { AsRead (R.agrees records.new) (λ keys. IsFiledIn keys I.Key.cmp (I.view index.now)
        → IfOk result (λ o. IsFullLast keys (I.view index.now).content (option_copied o))) }
    ensures reads { R.reads records.old records.new }
    ensures fault { IfErr result (FailsOn (R.fails records.new) (values_of (I.view index.now).content)) }
{
    end_record::<Below, _, _>(index, records)
}
