//! What the indices have in common: generic code is proved over these traits, by the view of an index alone.

pub mod cursor;
pub mod ordered;
pub mod runs;
pub mod search;
pub mod unordered;
