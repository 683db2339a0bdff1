//! Indices.
pub mod partitioned;
