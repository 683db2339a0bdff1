//! The program `key_index`: an index of keys that is driven by commands, one on each line.

pub mod fault;
pub mod kind;
pub mod line;
pub mod serve;
