//! What a caller keeps of an index that several read at once.
ghost use Rattle.std.specs.Prelude.{◌≡◌, Option, Some, None, IfErr, IfOk, IfSome, IsNone, IsSome, OnOk};
ghost use Rattle.key_index_c.specs.declared.any.Any.{Any};

use crate::Any;
use std::alloc::{AllocError, Global};
use std::marker::Model;
use std::sync::Arc;

/// A reader's share of an index, or room for one.
#[derive(Drop)]
pub(crate) struct Share {
    index: Option<Arc<Box<Any>>>,
}

impl Model for Share {
    ghost use Rattle.std.specs.Prelude.{Option};
    ghost use Rattle.std.specs.Option.{option_map};
    ghost use Rattle.key_index_c.specs.declared.any.Any.{Any};

    ghost Value = { Option Any };

    ghost view = { λ share. option_map (λ index. index.value.value) share.index };
}

/// A reader of an index, or none. It is one pointer.
#[repr(C)]
pub struct Reader {
    at: *mut u8,
    pub ghost held: { Option Any },
}

impl Model for Reader {
    ghost use Rattle.key_index_c.specs.Reader.{reader_owns};

    ghost also_owns = { λ reader. reader_owns reader.at reader.held };
}

unsafe impl Send for Reader {}

impl Share {
    /// Room for a share.
    pub(crate) fn none(alloc: Global) -> Result<Box<Share>, AllocError>
        ensures { IfOk result (λ room. room.value ≡ None) }
    {
        Ok(Box::new(alloc, Share { index: None })?)
    }

    /// Makes this the first share of an index, which comes back if there is no memory.
    pub(crate) fn share(&mut self, alloc: Global, index: Box<Any>) -> Result<(), Box<Any>>
        requires { self.old ≡ None }
        ensures shared { OnOk result (self.new ≡ Some index.value) }
        ensures refused { IfErr result (λ back. back.value ≡ index.value) }
    {
        match Arc::new(alloc, index) {
            Ok(index) => {
                self.index = Some(index);
                Ok(())
            }
            Err(refused) => Err(refused.value),
        }
    }

    /// One more share of the index.
    pub(crate) fn another(&self, alloc: Global) -> Result<Box<Share>, AllocError>
        requires { IsSome self.now }
        ensures { IfOk result (λ share. share.value ≡ self.now) }
    {
        let index = match &self.index {
            Some(index) => Arc::try_clone(index)?,
            None => unreachable!(),
        };
        Ok(Box::new(alloc, Share { index: Some(index) })?)
    }

    /// The index, if this is its only share.
    pub(crate) fn unshare(&mut self) -> Option<Box<Any>>
        requires { IsSome self.old }
        ensures only { IfSome result (λ index. self.old ≡ Some index.value) }
        ensures others { IsNone result → self.new ≡ self.old }
    {
        match self.index.take() {
            Some(index) => match Arc::try_unwrap(index) {
                Ok(index) => Some(index),
                Err(index) => {
                    self.index = Some(index);
                    None
                }
            },
            None => unreachable!(),
        }
    }

    /// The index.
    #[inline(always)]
    pub(crate) fn index(&self) -> &Any
        requires { IsSome self.now }
        ensures { self.now ≡ Some result.now }
    {
        match &self.index {
            Some(index) => index,
            None => unreachable!(),
        }
    }
}

impl Reader {
    /// Puts a share into a reader that has none.
    pub(crate) fn put(&mut self, share: Box<Share>)
        requires none { self.old.held ≡ None }
        requires share { IsSome share.value }
        ensures { self.new.held ≡ share.value }
    {
        self.at = Box::into_raw(share) as *mut u8;
    }

    /// Takes the share out of a reader that has one.
    pub(crate) fn take(&mut self, alloc: Global) -> Box<Share>
        requires { IsSome self.old.held }
        ensures taken { self.old.held ≡ result.value }
        ensures left { self.new.held ≡ None }
    {
        unsafe { Box::from_raw(alloc, self.at as *mut Share) }
    }
}
