//! Key indices in partitions: the first bytes of a key choose the bucket of the index that serves it.
#![tactic(auto)]

pub mod index;
