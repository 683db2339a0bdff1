//! The tags of a table's places, sixteen to a group, which are compared at once.
ghost use Rattle.std.specs.Prelude.{◌≡◌, ◌≢◌, ℕ, ◌+◌, ◌*◌, ◌/◌, ◌<◌, ◌≤◌, IfOk, IfSome, IfNone, length, slice_index, slice_set};
ghost use Rattle.key_index_map.specs.Tags.{IsIn};

use crate::room::{Deed, release, row_of, try_allocate};
use crate::row::Row;
use std::alloc::{AllocError, Global};
use std::marker::Model;
use std::simd::prelude::*;

/// How many places a group has.
pub(crate) const GROUP: usize = 16;

/// The tag of an empty cell.
pub(crate) const EMPTY: u8 = 0;

/// A tag for each place of some groups. Contracts see the tags of all places in a row.
pub(crate) struct Tags {
    groups: Row<[u8; 16]>,
    deed: Deed<[u8; 16], Global>,
    alloc: Global,
}

impl Model for Tags {
    ghost use Rattle.std.specs.Prelude.{◌≡◌, ◌*◌, ◌^◌, ◌<◌, ℕ, List};
    ghost use Rattle.std.specs.List.{concat};
    ghost use Rattle.core.specs.Mem.Slots.{slots_items, slots_filled, slots_len, slots_ptr};
    ghost use Rattle.key_index_map.specs.Tags.{AreGroups};

    ghost Value = { List ℕ };

    ghost view = { λ t. concat (slots_items t.groups) };

    ghost invariant = { λ t. AreGroups (slots_items t.groups) (slots_filled t.groups) × (16 * slots_len t.groups < 2 ^ 64)
        × (t.deed.at ≡ slots_ptr t.groups) × (t.deed.len ≡ slots_len t.groups) };
}

/// A place of the group that has a tag, if there is one.
#[inline(always)]
fn place_in(group: &[u8; 16], tag: u8) -> Option<usize>
    ensures found { IfSome result (λ place. (place < 16) × (slice_index group.now place ≡ tag)) }
    ensures none { IfNone result ((place : ℕ) → place < 16 → slice_index group.now place ≢ tag) }
{
    let same = u8x16::from_array(*group)
        .simd_eq(u8x16::splat(tag))
        .to_bitmask();
    if same == 0 {
        return None;
    }
    Some(same.trailing_zeros() as usize)
}

impl Tags {
    /// So many groups of empty cells.
    pub(crate) fn empty(alloc: Global, groups: usize) -> Result<Tags, AllocError>
        ensures long { IfOk result (λ tags. length tags ≡ 16 * groups) }
        ensures empty { IfOk result (λ tags. (place : ℕ) → slice_index tags place ≡ 0) }
    {
        let Some(_) = groups.checked_mul(GROUP) else {
            return Err(AllocError);
        };
        let (row, deed) = row_of(try_allocate(&alloc, groups)?);
        let mut row = Row::new(row);
        let mut group = 0;
        while group < groups {
            row.put(group, [EMPTY; 16]);
            group += 1;
        }
        Ok(Tags {
            groups: row,
            deed,
            alloc,
        })
    }

    /// Where the tags take their memory.
    pub(crate) fn allocator(&self) -> &Global {
        &self.alloc
    }

    /// How many places there are.
    pub(crate) fn len(&self) -> usize
        ensures { result ≡ length self.now }
    {
        GROUP * self.groups.len()
    }

    /// How many groups there are.
    #[inline(always)]
    pub(crate) fn groups(&self) -> usize
        ensures { result ≡ length self.now / 16 }
    {
        self.groups.len()
    }

    /// The tag of a place of a group.
    #[inline(always)]
    pub(crate) fn at_in(&self, group: usize, place: usize) -> u8
        requires group { IsIn group place }
        requires place { place < length self.now }
        ensures { result ≡ slice_index self.now place }
    {
        self.groups.get(group)[place - GROUP * group]
    }

    /// Gives a place of a group another tag.
    #[inline(always)]
    pub(crate) fn set_in(&mut self, group: usize, place: usize, tag: u8)
        requires group { IsIn group place }
        requires place { place < length self.old }
        ensures { self.new ≡ slice_set self.old place tag }
    {
        self.groups.get_mut(group)[place - GROUP * group] = tag;
    }

    /// The tag of a place.
    #[inline(always)]
    pub(crate) fn at(&self, place: usize) -> u8
        requires { place < length self.now }
        ensures { result ≡ slice_index self.now place }
    {
        self.at_in(place / GROUP, place)
    }

    /// Gives a place another tag.
    #[inline(always)]
    pub(crate) fn set(&mut self, place: usize, tag: u8)
        requires { place < length self.old }
        ensures { self.new ≡ slice_set self.old place tag }
    {
        self.set_in(place / GROUP, place, tag);
    }

    /// A place of a group that has a tag, if there is one.
    #[inline(always)]
    pub(crate) fn place_with(&self, group: usize, tag: u8) -> Option<usize>
        requires { 16 * group + 16 ≤ length self.now }
        ensures found { IfSome result (λ place. (16 * group ≤ place) × (place < 16 * group + 16)
            × (slice_index self.now place ≡ tag)) }
        ensures none { IfNone result ((place : ℕ) → 16 * group ≤ place → place < 16 * group + 16
            → slice_index self.now place ≢ tag) }
    {
        match place_in(self.groups.get(group), tag) {
            Some(place) => Some(GROUP * group + place),
            None => None,
        }
    }
}

impl Drop for Tags {
    fn drop(self) {
        let Tags {
            groups,
            deed,
            alloc,
        } = self;
        release(&alloc, groups.into_slots(), deed);
    }
}
