//! What a caller keeps of an index.
ghost use Rattle.std.specs.Prelude.{◌≡◌, Option, Some, None, IsSome};
ghost use Rattle.key_index_c.specs.declared.any.Any.{Any};

use crate::Any;
use std::alloc::Global;
use std::marker::Model;

/// An index, or none. It is one pointer.
#[repr(C)]
pub struct Handle {
    at: *mut u8,
    pub ghost held: { Option Any },
}

impl Model for Handle {
    ghost use Rattle.key_index_c.specs.Handle.{handle_owns};

    ghost also_owns = { λ handle. handle_owns handle.at handle.held };
}

unsafe impl Send for Handle {}

impl Handle {
    /// Puts an index into a handle that has none.
    pub(crate) fn put(&mut self, index: Box<Any>)
        requires { self.old.held ≡ None }
        ensures { self.new.held ≡ Some index.value }
    {
        self.at = Box::into_raw(index) as *mut u8;
    }

    /// Takes the index out of a handle that has one.
    pub(crate) fn take(&mut self, alloc: Global) -> Box<Any>
        requires { IsSome self.old.held }
        ensures taken { self.old.held ≡ Some result.value }
        ensures left { self.new.held ≡ None }
    {
        unsafe { Box::from_raw(alloc, self.at as *mut Any) }
    }
}
