//! Builds of an index in ranges of its partitions, by ops.
mod build;
mod fill;
mod op;

pub use build::build_in_ranges;
pub use op::Op;
