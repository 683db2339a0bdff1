//! Witnesses: a few hundred bytes that show to one who knows only a root, the digest of all records, that a key has a value, or that it
//! is absent.
//!
//! The records are the leaves of an indexed Merkle tree over SHA-256. A record has a key, its value, and the next key in the order of
//! their bytes. The first record has no key and stands in front of all keys, and the last one has no next key, so a tree is never empty.
//! Leaves and nodes are told apart by the first byte of what is hashed, so a tree may have any shape, and no depth is in the root.
//!
//! [`verify`] asks what a witness tells of a key, [`decode`] and [`encode`] read and write one. None of them allocates, and none takes a
//! premise about SHA-256: where a witness tells something wrong, two lists of bytes with one digest are at hand.
//! [`leaf`], [`joined`], [`bound`] and [`digest`] are for those who keep such a tree.
#![tactic(auto)]

mod bytes;
mod digests;
mod verdict;

pub use bytes::{decode, encode, encoded_len};
pub use digests::{bound, digest, joined, leaf};
pub use verdict::verify;

#[cfg(test)]
mod tests;

/// What shows that a key is held, or is absent.
///
/// The path has the digests beside those from the record's leaf up to the root. The root is at place 1, and below place i are 2 * i and
/// 2 * i + 1; `place` is that of the leaf.
#[derive(Clone, Copy, Debug)]
pub enum Witness<'a> {
    /// The value of the key, and the digest of the next key, as [`bound`] gives it.
    Present {
        value: &'a [u8],
        next: &'a [u8; 32],
        place: u64,
        path: &'a [[u8; 32]],
    },
    /// The held key below, if there is one, the digest of its value, and the held key above, if there is one. The first record has no
    /// key, and the digest of its value is whatever the tree has there.
    Absent {
        below: Option<&'a [u8]>,
        value: &'a [u8; 32],
        next: Option<&'a [u8]>,
        place: u64,
        path: &'a [[u8; 32]],
    },
}

/// What a witness tells of a key.
#[derive(Clone, Copy, Debug)]
pub enum Answer<'a> {
    /// The key has this value.
    Present(&'a [u8]),
    /// The key is not held.
    Absent,
}
