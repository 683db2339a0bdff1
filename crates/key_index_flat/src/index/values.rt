//! The values of one key, in list order.
ghost use Rattle.std.specs.Prelude.{◌≡◌, ◌<◌, ◌∷◌, length, not};
ghost use Rattle.std.specs.Fn.{CalledAt};
ghost use Rattle.std.specs.Iterator.{YieldsFirstRef, item_count};
ghost use Rattle.key_index_flat.specs.Content.{is_filled};
ghost use Rattle.key_index_flat.specs.Values.{VisitsInTurn, in_order};

use std::alloc::AllocError;
use std::marker::Model;

/// An iterator over the values of one key, in list order. It takes no memory, and ends.
#[derive(Drop)]
pub struct Values<'a, V> {
    first: Option<&'a V>,
    rest: &'a [V],
    from_end: bool,
}

impl<'a, V> Model for Values<'a, V> {
    ghost use Rattle.std.specs.Prelude.{◌+◌, ◌^◌, ◌<◌, List, ◌++◌, length};
    ghost use Rattle.key_index_flat.specs.Values.{in_order};
    ghost use Rattle.std.specs.Option.{option_to_list, option_copied};

    ghost Value = { List V };

    ghost view = { λ v. option_to_list (option_copied v.first) ++ in_order v.from_end v.rest.now };

    ghost invariant = { λ v. length (option_to_list (option_copied v.first)) + length v.rest.now < 2 ^ 64 };
}

impl<'a, V> Values<'a, V> {
    /// The items of a slice, in its order.
    #[inline(always)]
    pub fn of_slice(values: &'a [V]) -> Values<'a, V>
        ensures { result ≡ values.now }
    {
        Values {
            first: None,
            rest: values,
            from_end: false,
        }
    }

    /// The first value, and then the rest, from its end on where it is reversed.
    #[inline(always)]
    pub(crate) fn with_first(first: &'a V, rest: &'a [V], reversed: bool) -> Values<'a, V>
        requires { length rest.now < usize.MAX }
        ensures { result ≡ first.now ∷ in_order reversed rest.now }
    {
        Values {
            first: Some(first),
            rest,
            from_end: reversed,
        }
    }

    /// How many values are left. It walks none of them.
    #[inline]
    pub fn len(&self) -> usize
        ensures { result ≡ length self.now }
    {
        match self.first {
            Some(_) => 1 + self.rest.len(),
            None => self.rest.len(),
        }
    }

    /// Whether no value is left.
    #[inline]
    pub fn is_empty(&self) -> bool
        ensures { result ≡ not (is_filled self.now) }
    {
        self.first.is_none() && self.rest.is_empty()
    }
}

impl<'a, V> Clone for Values<'a, V> {
    ghost is_clone = { λ values clone. clone ≡ values };

    ghost is_infallible = { λ _. Unit {0} };

    #[inline]
    fn clone(&self) -> Result<Values<'a, V>, AllocError> {
        Ok(Values {
            first: self.first,
            rest: self.rest,
            from_end: self.from_end,
        })
    }
}

impl<'a, V> Iterator for Values<'a, V> {
    type Item = &'a V;

    ghost next_gives = { YieldsFirstRef (λ values. values) };

    ghost remaining = { item_count (λ values. values) };

    #[inline]
    fn next(&mut self) -> Option<&'a V> {
        if let Some(value) = self.first.take() {
            return Some(value);
        }
        let (value, rest) = if self.from_end {
            self.rest.split_last()?
        } else {
            self.rest.split_first()?
        };
        self.rest = rest;
        Some(value)
    }

    #[inline]
    fn size_hint(&self) -> (usize, Option<usize>) {
        let len = Values::len(self);
        (len, Some(len))
    }
}

impl<'a, V> ExactSizeIterator for Values<'a, V> {
    #[inline]
    fn len(&self) -> usize {
        Values::len(self)
    }
}

/// Calls a closure once on each value, in list order.
pub(crate) fn visit_in_turn<V, F: FnMut(&V)>(values: Values<'_, V>, visit: &mut F)
    requires { F.IsAlwaysCallable visit.old }
    ensures visited { VisitsInTurn (CalledAt F.FnMut) visit.old values.entry visit.new }
    ensures callable { F.IsAlwaysCallable visit.new }
{
    for value in values {
        visit(value);
    }
}
