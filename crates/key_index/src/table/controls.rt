//! The controls of a table's cells.
ghost use Rattle.std.specs.Prelude.{◌≡◌, ◌+◌, ◌<◌, ◌==◌, IfOk, length, nat_lt, replicate, slice_index, slice_set};
ghost use Rattle.key_index.specs.Controls.{byte_of};

use std::alloc::{AllocError, Global};
use std::marker::Model;

/// The byte of a cell that never held a position since its table was made.
const EMPTY: u8 = 0;
/// The byte of a cell whose position was removed.
const REMOVED: u8 = 1;
/// The byte of the fingerprints 0, 1 and 2. Each other one is its own byte.
const SHARED: u8 = 2;

/// The byte of a fingerprint.
#[inline]
fn byte_of(fingerprint: u8) -> u8
    ensures { result ≡ byte_of fingerprint }
{
    if fingerprint < SHARED {
        return SHARED;
    }
    fingerprint
}

/// What marks each cell: that it is empty, that its position was removed, or a fingerprint. These are 258 numbers, and a search reads a
/// byte for each cell that it passes. So three fingerprints have one byte, and a cell with that byte has its fingerprint beside it; what
/// stands beside the other cells means nothing.
#[derive(Drop)]
pub(super) struct Controls {
    bytes: Vec<u8>,
    fingerprints: Vec<u8>,
}

impl Model for Controls {
    ghost use Rattle.std.specs.Prelude.{ℕ, List};
    ghost use Rattle.key_index.specs.Controls.{AreControls, controls_by};

    ghost Value = { List ℕ };

    ghost view = { λ c. controls_by c.bytes.items c.fingerprints.items };

    ghost invariant = { λ c. AreControls c.bytes.items c.fingerprints.items };
}

impl Controls {
    /// Those of so many empty cells.
    pub(super) fn new(alloc: Global, cells: usize) -> Result<Controls, AllocError>
        ensures { IfOk result (λ c. c ≡ replicate cells 0) }
    {
        Ok(Controls {
            bytes: vec![in alloc; EMPTY; cells]?,
            fingerprints: vec![in alloc; 0; cells]?,
        })
    }

    /// Where they take their memory.
    pub(super) fn alloc(&self) -> Global {
        *self.bytes.allocator()
    }

    /// How many cells there are.
    #[inline]
    pub(super) fn len(&self) -> usize
        ensures { result ≡ length self.now }
    {
        self.bytes.len()
    }

    #[inline]
    pub(super) fn as_slice(&self) -> ControlSlice<'_>
        ensures { result ≡ self.now }
    {
        ControlSlice {
            bytes: self.bytes.as_slice(),
            fingerprints: self.fingerprints.as_slice(),
        }
    }

    /// Marks a cell by the fingerprint of its position's hash.
    #[inline]
    pub(super) fn fill(&mut self, cell: usize, fingerprint: u8)
        requires { cell < length self.old }
        ensures { self.new ≡ slice_set self.old cell (fingerprint + 2) }
    {
        let byte = byte_of(fingerprint);
        self.bytes[cell] = byte;
        if byte != SHARED {
            return;
        }
        self.fingerprints[cell] = fingerprint;
    }

    /// Marks a cell as one whose position was removed.
    #[inline]
    pub(super) fn remove(&mut self, cell: usize)
        requires { cell < length self.old }
        ensures { self.new ≡ slice_set self.old cell 1 }
    {
        self.bytes[cell] = REMOVED;
    }
}

/// `Controls`, borrowed.
#[derive(Drop)]
pub(super) struct ControlSlice<'a> {
    bytes: &'a [u8],
    fingerprints: &'a [u8],
}

impl<'a> Model for ControlSlice<'a> {
    ghost use Rattle.std.specs.Prelude.{ℕ, List};
    ghost use Rattle.key_index.specs.Controls.{AreControls, controls_by};

    ghost Value = { List ℕ };

    ghost view = { λ c. controls_by c.bytes.now c.fingerprints.now };

    ghost invariant = { λ c. AreControls c.bytes.now c.fingerprints.now };
}

impl<'a> ControlSlice<'a> {
    /// How many cells there are.
    #[inline]
    pub(super) fn len(&self) -> usize
        ensures { result ≡ length self.now }
    {
        self.bytes.len()
    }

    /// Whether a cell holds no position, and never did.
    #[inline]
    pub(super) fn is_empty_at(&self, cell: usize) -> bool
        requires { cell < length self.now }
        ensures { result ≡ (slice_index self.now cell == 0) }
    {
        self.bytes[cell] == EMPTY
    }

    /// Whether a cell holds no position.
    #[inline]
    pub(super) fn is_free_at(&self, cell: usize) -> bool
        requires { cell < length self.now }
        ensures { result ≡ nat_lt (slice_index self.now cell) 2 }
    {
        self.bytes[cell] < SHARED
    }

    /// Whether a cell holds a position under a hash that has the fingerprint.
    #[inline]
    pub(super) fn has(&self, cell: usize, fingerprint: u8) -> bool
        requires { cell < length self.now }
        ensures { result ≡ (slice_index self.now cell == fingerprint + 2) }
    {
        let byte = byte_of(fingerprint);
        if self.bytes[cell] != byte {
            return false;
        }
        byte != SHARED || self.fingerprints[cell] == fingerprint
    }
}
