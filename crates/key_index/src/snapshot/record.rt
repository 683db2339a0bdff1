//! What a snapshot keeps of a key.

use key_index_flat::index::Keyed;

/// A full key, and the position that stands for it.
#[derive(Debug, Drop)]
pub struct Record {
    pub key: Vec<u8>,
    pub position: u64,
}

impl Keyed for Record {
    ghost full_key = { λ r. r.key.items };

    fn full_key(&self) -> &[u8] {
        self.key.as_slice()
    }
}
