//! Memory for a row of places, as a block before there is a value and as a row from then on.
ghost use Rattle.std.specs.Prelude.{◌≡◌, ℕ, ◌*◌, ◌^◌, false, replicate, IfOk};
ghost use Rattle.std.specs.Vec.Ownership.{FitsInBlock};
ghost use Rattle.core.specs.Mem.Slots.{slots_ptr, slots_len, slots_filled};
ghost use Rattle.core.specs.Allocator.{owned_block, array_of};
ghost use Rattle.core.specs.Mem.Slots.Ownership.{bytes_of, leased};
ghost use base.Fml.{fsep, flt};
ghost use denote.RawPtr.{Ptr};

use core::slots::Slots;
use std::alloc::{AllocError, Allocator, Global};
use std::marker::{Model, PhantomData};
use std::mem::{align_of, size_of};
use std_alloc::room::may_hold;

/// Memory for `len` values, of which none stands there. It holds no allocator: `free` gives it back to one.
pub(crate) struct Block<T, A: Allocator> {
    at: *mut T,
    len: usize,
    mark: PhantomData<A>,
    ghost alloc: { A },
}

impl<T, A: Allocator> Model for Block<T, A> {
    ghost also_owns = { λ b. fsep (flt (b.len * bytes_of T.row) (2 ^ 63))
        (owned_block (A.dealloc_token b.alloc) (array_of T.row b.len) b.at) };
}

unsafe impl<T, A: Allocator + Send> Send for Block<T, A> {}

unsafe impl<T, A: Allocator + Send> Sync for Block<T, A> {}

/// The right to give the room of `len` places at `at` back to `alloc`. It takes no space.
pub(crate) struct Deed<T, A: Allocator> {
    mark: PhantomData<*const (T, A)>,
    ghost at: { Ptr },
    ghost len: { ℕ },
    ghost alloc: { A },
}

impl<T, A: Allocator> Model for Deed<T, A> {
    ghost also_owns = { λ d. leased (A.dealloc_token d.alloc) T.row d.at d.len };
}

unsafe impl<T, A: Allocator + Send> Send for Deed<T, A> {}

unsafe impl<T, A: Allocator + Send> Sync for Deed<T, A> {}

/// Memory for so many values.
fn allocate<T, A: Allocator>(alloc: &A, len: usize) -> Result<Block<T, A>, AllocError>
    requires { FitsInBlock T.row len }
    ensures { IfOk result (λ b. (b.len ≡ len) × (b.alloc ≡ alloc.now)) }
{
    match alloc.allocate(len * size_of::<T>(), align_of::<T>()) {
        Ok(block) => Ok(Block {
            at: block as *mut T,
            len,
            mark: PhantomData,
        }),
        Err(refused) => Err(refused),
    }
}

/// `allocate` for any length: one that no block can hold has no memory either.
pub(crate) fn try_allocate<T, A: Allocator>(
    alloc: &A,
    len: usize,
) -> Result<Block<T, A>, AllocError>
    ensures { IfOk result (λ b. (b.len ≡ len) × (b.alloc ≡ alloc.now)) }
{
    if !may_hold::<T>(len) {
        return Err(AllocError);
    }
    allocate(alloc, len)
}

/// Gives the memory back.
pub(crate) fn free<T, A: Allocator>(alloc: &A, block: Block<T, A>)
    requires { block.alloc ≡ alloc.now }
{
    let Block { at, len, mark: _ } = block;
    unsafe {
        alloc.deallocate(at as *mut u8, len * size_of::<T>(), align_of::<T>());
    }
}

/// The memory as a row of empty places. An empty place has a value in the logic, so the type must have one.
pub(crate) fn row_of<T, A: Allocator>(block: Block<T, A>) -> (Slots<T>, Deed<T, A>)
    requires { T }
    ensures { (slots_len result.0 ≡ block.len) × (slots_filled result.0 ≡ replicate block.len false)
        × (result.1.at ≡ slots_ptr result.0) × (result.1.len ≡ block.len) × (result.1.alloc ≡ block.alloc) }
{
    let Block { at, len, mark: _ } = block;
    let row = unsafe { Slots::from_raw_parts(at, len) };
    (row, Deed { mark: PhantomData })
}

/// The memory of a row. Values that stand there are forgotten.
fn block_of<T, A: Allocator>(row: Slots<T>, deed: Deed<T, A>) -> Block<T, A>
    requires { (deed.at ≡ slots_ptr row) × (deed.len ≡ slots_len row) }
    ensures { result.alloc ≡ deed.alloc }
{
    let Deed { mark: _ } = deed;
    let (at, len) = unsafe { row.into_raw_parts() };
    Block {
        at,
        len,
        mark: PhantomData,
    }
}

/// Frees a row of values that need no drop, as groups of tags: those that stand there are forgotten.
pub(crate) fn release<T: Copy, A: Allocator>(alloc: &A, row: Slots<T>, deed: Deed<T, A>)
    requires { (deed.at ≡ slots_ptr row) × (deed.len ≡ slots_len row) × (deed.alloc ≡ alloc.now) }
{
    free(alloc, block_of(row, deed));
}

/// Frees a row in which no value is left.
pub(crate) fn release_emptied<T, A: Allocator>(alloc: &A, row: Slots<T>, deed: Deed<T, A>)
    requires deed { (deed.at ≡ slots_ptr row) × (deed.len ≡ slots_len row) × (deed.alloc ≡ alloc.now) }
    requires empty { slots_filled row ≡ replicate (slots_len row) false }
{
    free(alloc, block_of(row, deed));
}
