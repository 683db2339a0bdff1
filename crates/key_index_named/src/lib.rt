//! Callers that name their index: indices in partitions, and examples of the pages. They stand apart from `key_index_uses`, since the checker
//! reads the proofs behind each type that is named.
#![tactic(auto)]

pub mod named;
pub mod pages;
pub mod standing;
