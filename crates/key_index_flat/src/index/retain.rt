//! A closure that is asked on the values of a list, one after another.
ghost use Rattle.std.specs.Prelude.{◌≡◌, ◌≤◌, length, take};
ghost use Rattle.std.specs.Fn.{CalledAt};
ghost use Rattle.key_index_flat.specs.Retention.{AsksInTurn};

/// What an insertion with retention found and left under an index key: how many values it had, how many it has now, and how many of
/// those that it had are gone.
#[derive(Debug, Clone, Copy, PartialEq, Eq)]
pub struct Retained {
    pub had: usize,
    pub left: usize,
    pub taken: usize,
}

/// Calls the closure once for each value, in order, and moves those for which it returns true to the front, in their order. Returns how
/// many these are, and the last answer, or `before` if there is no value.
#[inline]
pub fn keep_in_front<V, F: FnMut(&V) -> bool>(
    values: &mut [V],
    mut should_retain: F,
    before: bool,
) -> (usize, bool)
    requires { F.IsAlwaysCallable should_retain }
    ensures asked { AsksInTurn (CalledAt F.FnMut) should_retain before
        values.old (take result.0 values.new) result.1 }
    ensures within { result.0 ≤ length values.old }
    ensures len { length values.new ≡ length values.old }
{
    let mut stays = before;
    let mut kept = 0;
    let mut at = 0;
    'values: while at < values.len() {
        stays = should_retain(&values[at]);
        if stays {
            values.swap(kept, at);
            kept += 1;
        }
        at += 1;
    }
    (kept, stays)
}

/// Calls the closure once for each value, in order, and removes those for which it returns false, as `Vec::retain` does. Returns the
/// last answer, or `before` if there is no value.
pub fn retain_in_turn<V: Drop, F: FnMut(&V) -> bool>(
    values: &mut Vec<V>,
    should_retain: F,
    before: bool,
) -> bool
    requires { F.IsAlwaysCallable should_retain }
    ensures asked { AsksInTurn (CalledAt F.FnMut) should_retain before values.old.items values.new.items result }
    ensures bound { length values.new.items ≤ length values.old.items }
{
    let (kept, stays) = keep_in_front(values.as_mut_slice(), should_retain, before);
    values.truncate(kept);
    stays
}
