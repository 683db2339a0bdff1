//! A key-value store on a log: records are appended to the log, and an index in memory keeps their positions alone.
#![tactic(auto)]

pub mod checksum;
pub mod crashes;
pub mod device;
pub mod file_device;
pub mod file_folder;
pub mod folder;
pub mod headed;
mod history;
pub mod memory_device;
pub mod memory_folder;
pub mod place;
pub mod record;
pub mod salvage;
pub mod store;
pub mod threads;
pub mod translator;
