//! What an index of one's own is made of, and a search of one's own for neighbours. Who uses an index needs none of it.
pub use super::batch::{
    Lists, probes_by_key, show_by_key, show_by_place, take_probes, visit_by_key, visit_by_place,
    visit_probes,
};
pub use super::records::{Above, Below, Side};
pub use super::retain::{Retained, keep_in_front, retain_in_turn};
pub use super::show::show_counts;
pub use super::storage::list_map::ListMap;
pub use super::storage::small_map::SmallMap;
pub use super::storage::tails::{Back, End, Front};
pub use super::storage::tree_key::TreeMap;
