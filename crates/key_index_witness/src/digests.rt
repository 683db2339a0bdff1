ghost use Rattle.std.specs.Prelude.{◌≡◌, ◌∷◌};
ghost use Rattle.sha2.specs.Sha256.{sha256};
ghost use Rattle.key_index_witness.specs.Tree.{bound_bytes, leaf_bytes, node_bytes};
ghost use Rattle.key_index_witness.specs.Witness.{bytes_in};

use sha2::{Digest, Sha256};

/// The digest of a node, by those of the two trees below it: of a 1 and the 64 bytes of both.
pub fn joined(left: &[u8; 32], right: &[u8; 32]) -> [u8; 32]
    ensures { result ≡ sha256 (node_bytes left.now right.now) }
{
    let mut hasher = Sha256::new();
    hasher.update([1u8]);
    hasher.update(left.as_slice());
    hasher.update(right.as_slice());
    hasher.finalize()
}

/// The digest of a record, by those of its key, its value and the next key: of a 0 and the 96 bytes of the three.
pub fn leaf(key: &[u8; 32], value: &[u8; 32], next: &[u8; 32]) -> [u8; 32]
    ensures { result ≡ sha256 (leaf_bytes key.now value.now next.now) }
{
    let mut hasher = Sha256::new();
    hasher.update([0u8]);
    hasher.update(key.as_slice());
    hasher.update(value.as_slice());
    hasher.update(next.as_slice());
    hasher.finalize()
}

/// The digest of some bytes, as that of a value.
pub fn digest(bytes: &[u8]) -> [u8; 32]
    ensures { result ≡ sha256 bytes.now }
{
    Sha256::digest(bytes)
}

/// The digest of a key, or that of the lack of one: of a 0 and the key, or of no bytes.
pub fn bound(key: Option<&[u8]>) -> [u8; 32]
    ensures { result ≡ sha256 (bound_bytes (bytes_in key.entry)) }
{
    match key {
        Some(key) => key_digest(key),
        None => digest(&[]),
    }
}

pub(crate) fn key_digest(key: &[u8]) -> [u8; 32]
    ensures { result ≡ sha256 (0 ∷ key.now) }
{
    let mut hasher = Sha256::new();
    hasher.update([0u8]);
    hasher.update(key);
    hasher.finalize()
}
