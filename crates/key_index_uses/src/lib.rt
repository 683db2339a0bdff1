//! Callers as a user writes them: over any index, over an index that they name, and with indices of different kinds beside one another. Most
//! that name an index in partitions stand in `key_index_named`.
#![tactic(auto)]

pub mod builds;
pub mod callers;
pub mod log;
pub mod records;
pub mod reserved;
pub mod segments;
pub mod snapshots;
pub mod threads;
