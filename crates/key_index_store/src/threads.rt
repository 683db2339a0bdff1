//! A store may go to another thread (`Send`), and threads may share it (`Sync`), where its device and its index may.
use crate::device::Device;
use crate::file_device::FileDevice;
use crate::headed::Headed;
use crate::memory_device::MemoryDevice;
use crate::store::Store;
use crate::translator::{Front, ThirtyTwoCap};
use key_index_flat::index::Unordered;

fn is_send<T: Send>() {}

fn is_sync<T: Sync>() {}

/// A store is `Send` where its device and its index are.
pub fn store_is_send<D: Device + Send, I: Unordered<Value = u64> + Send>() {
    is_send::<Store<D, I>>();
}

/// The same of `Sync`.
pub fn store_is_sync<D: Device + Sync, I: Unordered<Value = u64> + Sync>() {
    is_sync::<Store<D, I>>();
}

/// A device without its header is `Send` where the device is.
pub fn headed_is_send<D: Device + Send>() {
    is_send::<Headed<D>>();
}

/// The same of `Sync`.
pub fn headed_is_sync<D: Device + Sync>() {
    is_sync::<Headed<D>>();
}

/// The devices in memory and over a file are both.
pub fn devices_are_send_and_sync() {
    is_send::<MemoryDevice>();
    is_sync::<MemoryDevice>();
    is_send::<FileDevice>();
    is_sync::<FileDevice>();
}

/// The cap of 32 bytes is both, and its index keys are.
pub fn cap_is_send_and_sync() {
    is_send::<ThirtyTwoCap>();
    is_sync::<ThirtyTwoCap>();
    is_send::<Front>();
    is_sync::<Front>();
}
