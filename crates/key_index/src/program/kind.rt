//! The kinds of index that the program offers.

ghost use Rattle.std.specs.Prelude.{◌≡◌, map};
ghost use Rattle.std.specs.String.{string_bytes};
ghost use Rattle.key_index.specs.Program.{kind_of, threshold_of};

use crate::program::line::number_of;

/// A kind of index, as the program's arguments name it.
#[derive(Clone, Copy, Debug, PartialEq, Eq)]
pub enum Kind {
    /// A flat index that keeps its keys in no order.
    Unordered,
    /// A flat index that keeps its keys in order.
    Ordered,
    /// An index in 256 partitions, by the first byte of a key, that keeps its keys in no order.
    PartitionedUnordered,
    /// The same, with the keys in order. A partition spills at so many values, one at least.
    PartitionedOrdered(usize),
    /// An index of keys at positions, which are pruned from the front.
    Immutable,
}

/// The threshold of `pordered` where the arguments name none.
const THRESHOLD: usize = 512;

// The threshold that a word writes, a number that is not 0.
fn threshold_of(word: &[u8]) -> Option<usize>
    ensures { result ≡ threshold_of word.now }
{
    match number_of(word) {
        Some(0) | None => None,
        Some(threshold) => Some(threshold as usize),
    }
}

/// The kind that the program's arguments name, with the threshold that may stand behind `pordered`, and `None` where they are not those of the program.
pub fn kind_of(words: &[String]) -> Option<Kind>
    ensures { result ≡ kind_of (map string_bytes words.now) }
{
    match words {
        [kind] if kind.as_str() == "unordered" => Some(Kind::Unordered),
        [kind] if kind.as_str() == "ordered" => Some(Kind::Ordered),
        [kind] if kind.as_str() == "punordered" => Some(Kind::PartitionedUnordered),
        [kind] if kind.as_str() == "pordered" => Some(Kind::PartitionedOrdered(THRESHOLD)),
        [kind, threshold] if kind.as_str() == "pordered" => {
            threshold_of(threshold.as_bytes()).map(Kind::PartitionedOrdered)
        }
        [kind] if kind.as_str() == "immutable" => Some(Kind::Immutable),
        _ => None,
    }
}
