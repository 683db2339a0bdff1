//! A map from keys to values, found by their hashes.
#![tactic(auto)]

pub mod map;
pub(crate) mod room;
mod row;
pub mod table;
pub(crate) mod tags;
