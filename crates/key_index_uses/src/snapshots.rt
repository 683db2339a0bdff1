//! What a snapshot is asked for: the proof that a key is absent.
ghost use Rattle.std.specs.Prelude.{IsSome};
ghost use Rattle.std.specs.FinMap as map;
ghost use Rattle.std.specs.Option.{MatchOption, option_map};
ghost use Rattle.key_index_uses.specs.Exclusion.{Excludes};

use key_index::snapshot::{Record, Snapshot};
use key_index_flat::index::Ordered;

/// The keys next to one that a snapshot lacks, each with its position. One that is absent says that no key is on that side.
#[derive(Drop)]
pub struct Gap<'a> {
    pub below: Option<(&'a [u8], u64)>,
    pub above: Option<(&'a [u8], u64)>,
}

/// Shows that a snapshot lacks a key, by the keys next to it. `None` exactly where the key has a position.
pub fn gap_at<'a, I: Ordered<Value = Record>>(
    snapshot: &'a Snapshot<I>,
    key: &[u8],
) -> Option<Gap<'a>>
    ensures { MatchOption result (IsSome (map.get snapshot.now key.now))
        (λ gap. Excludes (λ entry. entry.0) (map.entries snapshot.now) key.now
        (option_map (λ e. (e.0.now, e.1)) gap.below) (option_map (λ e. (e.0.now, e.1)) gap.above)) }
{
    if snapshot.get(key).is_some() {
        return None;
    }
    Some(Gap {
        below: snapshot.prev(key),
        above: snapshot.next(key),
    })
}
