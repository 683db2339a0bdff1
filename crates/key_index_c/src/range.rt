//! What a caller keeps of a range.
ghost use Rattle.std.specs.Prelude.{◌≡◌, Option, Some, None, IsSome};
ghost use Rattle.key_index_c.specs.declared.any_range.AnyRange.{AnyRange};

use crate::AnyRange;
use std::alloc::Global;
use std::marker::Model;

/// A range, or none. It is one pointer.
#[repr(C)]
pub struct Range {
    at: *mut u8,
    pub ghost held: { Option AnyRange },
}

impl Model for Range {
    ghost use Rattle.key_index_c.specs.Range.{range_owns};

    ghost also_owns = { λ range. range_owns range.at range.held };
}

unsafe impl Send for Range {}

impl Range {
    /// Puts a range into a handle that has none.
    pub(crate) fn put(&mut self, range: Box<AnyRange>)
        requires { self.old.held ≡ None }
        ensures { self.new.held ≡ Some range.value }
    {
        self.at = Box::into_raw(range) as *mut u8;
    }

    /// Takes the range out of a handle that has one.
    pub(crate) fn take(&mut self, alloc: Global) -> Box<AnyRange>
        requires { IsSome self.old.held }
        ensures taken { self.old.held ≡ Some result.value }
        ensures left { self.new.held ≡ None }
    {
        unsafe { Box::from_raw(alloc, self.at as *mut AnyRange) }
    }
}
