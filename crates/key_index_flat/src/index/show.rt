//! What `Debug` shows of an index.
use super::Unordered;
use std::fmt;

/// Shows an index by a name and its counts.
pub fn show_counts<I: Unordered, W: fmt::Write>(
    index: &I,
    name: &str,
    f: &mut fmt::Formatter<W>,
) -> fmt::Result {
    let (keys, items, pruned) = (index.keys(), index.items(), index.pruned());
    f.debug_struct(name)
        .field("keys", &keys)
        .field("items", &items)
        .field("pruned", &pruned)
        .finish()
}
