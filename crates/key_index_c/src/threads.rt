//! What may cross threads: each call asks for the proof that a type may.
use crate::{Any, Handle, Range, Reader};

fn is_send<T: Send>(_value: &T) {}

fn is_sync<T: Sync>(_value: &T) {}

/// An index may go to another thread, and several may read it at once.
fn any_crosses(any: &Any) {
    is_send(any);
    is_sync(any);
}

/// A handle may go to another thread.
fn handle_crosses(handle: &Handle) {
    is_send(handle);
}

/// A reader may go to another thread, while others read the same index.
fn reader_crosses(reader: &Reader) {
    is_send(reader);
}

/// A range may go to another thread.
fn range_crosses(range: &Range) {
    is_send(range);
}
