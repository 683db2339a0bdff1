//! In-memory indices that map shortened keys to lists of values.
#![tactic(auto)]

pub mod index;
pub mod translator;
