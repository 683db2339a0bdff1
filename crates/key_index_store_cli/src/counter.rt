//! A device that counts.
ghost use Rattle.std.specs.Prelude.{None, ⊤};

use key_index_store::device::{Device, Failed};

/// A device that keeps nothing of what is written, and counts the writes from a place on.
#[derive(Drop)]
pub struct Counter {
    pub from: u64,
    pub count: u64,
}

impl Device for Counter {
    ghost seen = { λ _. None };

    ghost may_leave = { λ _ _. ⊤ };

    ghost damaged = { λ _ _. ⊤ };

    fn len(&mut self) -> Result<u64, Failed> {
        Ok(0)
    }

    fn read_at(&mut self, _position: u64, _buffer: &mut [u8]) -> Result<(), Failed> {
        Err(Failed)
    }

    fn read_record(&mut self, _log: u64, _place: u64, _buffer: &mut [u8]) -> Result<(), Failed> {
        Err(Failed)
    }

    fn write_at(&mut self, position: u64, _bytes: &[u8]) -> Result<(), Failed> {
        if position >= self.from {
            self.count = self.count.saturating_add(1);
        }
        Ok(())
    }

    fn set_len(&mut self, _len: u64) -> Result<(), Failed> {
        Err(Failed)
    }

    fn sync(&mut self) -> Result<(), Failed> {
        Err(Failed)
    }
}
