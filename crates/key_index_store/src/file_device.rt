//! A device over a file of the operating system.
ghost use Rattle.std.specs.Prelude.{◌≡◌, ◌<◌, ◌≤◌, [], length, IfOk};

use crate::device::{Device, Failed};
use crate::history::{Call, History};
use std::fs::File;
use std::io::{Error, ErrorKind};
use std::os::unix::fs::FileExt;

/// How often a write that a signal interrupts is tried.
const TRIES: usize = 100;

/// A device over a file.
///
/// Its bytes are what the calls on the file make of those that it held at first, which only clauses name. They are seen until an
/// answer, a length or the bytes of a read, is not that of a file which holds them. What the disk has of them is not known before the
/// first sync. A call that fails is taken as one that did nothing: if it wrote all the same, a later read may tell.
#[derive(Drop)]
pub struct FileDevice {
    file: File,
    limit: u64,
    sync_failed: bool,
    history: History,
}

impl FileDevice {
    ghost use Rattle.key_index_store.specs.FileDevice.{calls_of};

    /// The device over a file that is open for reading and writing at any place. A write that would make it longer than a limit fails,
    /// and does nothing.
    pub fn new(file: File, limit: u64) -> FileDevice
        ensures { calls_of result ≡ [] }
    {
        FileDevice {
            file,
            limit,
            sync_failed: false,
            history: History::new(),
        }
    }
}

fn failed(_error: Error) -> Failed {
    Failed
}

/// Writes one or more of the bytes, and says how many; none where they would go past a limit.
fn write_some(file: &File, limit: u64, position: u64, bytes: &[u8]) -> Result<usize, Failed>
    ensures { IfOk result (λ n. (0 < n) × (n ≤ length bytes.now)) }
{
    if position.saturating_add(bytes.len() as u64) > limit {
        return Err(Failed);
    }
    for _ in 0..TRIES {
        match file.write_at(bytes, position) {
            Ok(0) => return Err(Failed),
            Ok(n) => return Ok(n),
            Err(error) if error.kind() == ErrorKind::Interrupted => {}
            Err(_) => return Err(Failed),
        }
    }
    Err(Failed)
}

impl Device for FileDevice {
    ghost use Rattle.key_index_store.specs.FileDevice.{FileLeaves, IsDamagedIn, file_seen};

    ghost seen = { file_seen };

    ghost may_leave = { FileLeaves };

    ghost damaged = { IsDamagedIn };

    fn len(&mut self) -> Result<u64, Failed> {
        let len = self.file.metadata().map_err(failed)?.len();
        self.history = self.history.and(&Call::Told(len), &[]);
        Ok(len)
    }

    fn read_at(&mut self, position: u64, buffer: &mut [u8]) -> Result<(), Failed> {
        self.file.read_exact_at(buffer, position).map_err(failed)?;
        self.history = self.history.and(&Call::Gave(position), buffer);
        Ok(())
    }

    fn read_record(&mut self, log: u64, place: u64, buffer: &mut [u8]) -> Result<(), Failed> {
        let position = log.checked_add(place).ok_or(Failed)?;
        self.file.read_exact_at(buffer, position).map_err(failed)?;
        self.history = self.history.and(&Call::GaveRecord(log, place), buffer);
        Ok(())
    }

    fn write_at(&mut self, position: u64, bytes: &[u8]) -> Result<(), Failed> {
        let mut done = 0;
        while done < bytes.len() {
            let at = position.checked_add(done as u64).ok_or(Failed)?;
            let n = write_some(&self.file, self.limit, at, &bytes[done..])?;
            self.history = self.history.and(&Call::Took(at), &bytes[done..done + n]);
            done += n;
        }
        Ok(())
    }

    fn set_len(&mut self, len: u64) -> Result<(), Failed> {
        self.file.set_len(len).map_err(failed)?;
        self.history = self.history.and(&Call::Cut(len), &[]);
        Ok(())
    }

    /// Fails where a sync before it failed: the system may have dropped what that one could not write.
    fn sync(&mut self) -> Result<(), Failed> {
        if self.sync_failed {
            return Err(Failed);
        }
        self.sync_failed = true;
        self.file.sync_all().map_err(failed)?;
        self.sync_failed = false;
        self.history = self.history.and(&Call::Synced, &[]);
        Ok(())
    }
}
