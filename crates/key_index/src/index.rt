//! Indices that stand on the table of positions.

pub mod immutable;
