//! The immutable index with its table, the snapshot, and the program that drives an index by lines.
#![tactic(auto)]

pub mod index;
pub mod program;
pub mod snapshot;
pub mod table;
