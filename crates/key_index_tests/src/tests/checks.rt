//! What the tests share.
use key_index_flat::index::{Fault, Refused, Values};
use std::process::Abort;

/// An index that was asked for.
pub(super) fn made<I>(rt: &impl Abort, index: Result<I, Fault>) -> I {
    index.expect(rt, "an index")
}

/// A call that puts a value in is accepted.
pub(super) fn put(rt: &impl Abort, done: Result<(), Refused<u64>>) {
    done.expect(rt, "insert");
}

/// A condition holds. A call is proved in a fifth of an assertion's time.
pub(super) fn holds(rt: &impl Abort, is_so: bool, what: &str) {
    assert!(rt; is_so, "{what}");
}

/// A number is this one.
pub(super) fn is(rt: &impl Abort, given: u64, wanted: u64) {
    assert_eq!(rt; given, wanted);
}

/// A text is this one.
pub(super) fn reads(rt: &impl Abort, given: &str, wanted: &str) {
    assert_eq!(rt; given, wanted);
}

/// The keys, values and removed values of an index are so many.
pub(super) fn counts_are(rt: &impl Abort, given: (usize, usize, u64), wanted: (usize, usize, u64)) {
    assert_eq!(rt; given, wanted);
}

/// A value behind those of a vector.
pub(super) fn push<T: Drop>(rt: &impl Abort, values: &mut Vec<T>, value: T) {
    assert!(rt; values.push(value).is_ok());
}

/// The values of a key are these, in this order, and no others.
pub(super) fn are(rt: &impl Abort, values: Values<'_, u64>, want: &[u64]) {
    assert!(rt; values.copied().eq(want.iter().copied()), "{want:?}");
}

/// A neighbour has these values, and this flag.
pub(super) fn neighbour_is(
    rt: &impl Abort,
    given: Option<(Values<'_, u64>, bool)>,
    want: &[u64],
    cycled: bool,
) {
    let Some((values, flag)) = given else {
        panic!(rt; "no neighbour, not {want:?}")
    };
    assert!(rt; flag == cycled, "the flag of {want:?}");
    are(rt, values, want);
}
