ghost use Rattle.std.specs.Prelude.{◌≡◌, ◌⊎◌, ◌++◌, IfSome, IsSome, option_map};
ghost use Rattle.sha2.specs.Sha256.{sha256};
ghost use Rattle.key_index_witness.specs.Tree.{Tree, climb, halved, hashed_in, pair_bytes, root_of};
ghost use Rattle.key_index_witness.specs.Verdict.{Collision, HasEachKeyOnce, HasRecords, Map, hashed_by, is_above, is_below, is_shown, is_under, verdict};
ghost use Rattle.key_index_witness.specs.Witness.{Parts, bytes_in, parts_of, told};

use crate::digests::{bound, digest, joined, key_digest, leaf};
use crate::{Answer, Witness};

/// The digest of two others, the first of which stands at a place.
fn pair(place: u64, node: &[u8; 32], sibling: &[u8; 32]) -> [u8; 32]
    ensures { result ≡ sha256 (pair_bytes place node.now sibling.now) }
{
    if place % 2 == 0 {
        joined(node, sibling)
    } else {
        joined(sibling, node)
    }
}

/// The digest at the end of a path, and the place there.
fn climb(mut place: u64, mut node: [u8; 32], path: &[[u8; 32]]) -> ([u8; 32], u64)
    ensures node { result.0 ≡ climb place node path.now }
    ensures place { result.1 ≡ halved place path.now }
{
    for sibling in path {
        node = pair(place, &node, sibling);
        place /= 2;
    }
    (node, place)
}

/// Whether a path leads to a root from the record with these digests.
fn is_shown(
    root: &[u8; 32],
    key: &[u8; 32],
    value: &[u8; 32],
    next: &[u8; 32],
    place: u64,
    path: &[[u8; 32]],
) -> bool
    ensures { result ≡ is_shown root.now key.now value.now next.now place path.now }
{
    let (found, end) = climb(place, leaf(key, value, next), path);
    end == 1 && root.as_slice() == found.as_slice()
}

#[tactic(auto, using(crate::proofs::OrderLemmas::told_before))]
fn is_below(a: &[u8], b: &[u8]) -> bool
    ensures { result ≡ is_below a.now b.now }
{
    a < b
}

fn is_above(bound: Option<&[u8]>, q: &[u8]) -> bool
    ensures { result ≡ is_above (bytes_in bound.entry) q.now }
{
    match bound {
        Some(key) => is_below(key, q),
        None => true,
    }
}

fn is_under(q: &[u8], bound: Option<&[u8]>) -> bool
    ensures { result ≡ is_under q.now (bytes_in bound.entry) }
{
    match bound {
        Some(key) => is_below(q, key),
        None => true,
    }
}

/// What a witness of a key tells to one who knows the root alone, or `None` where it tells nothing. With n digests on the path it takes
/// n + 3: those of the key and the value, or of the keys around; that of the record, of 97 bytes; and n of 65 bytes.
pub fn verify<'a>(root: &[u8; 32], key: &[u8], witness: Witness<'a>) -> Option<Answer<'a>>
    // The result is that of a definition.
    ensures exact { option_map told result ≡ verdict root.now key.now (parts_of witness.entry) }
    // What is told is so, or two lists of bytes have one digest, one that was hashed here and one that was hashed for the root.
    ensures sound { IfSome result (λ answer. (t : Tree) (map : Map) → HasRecords t map → root.now ≡ root_of t
        → (map key.now ≡ told answer) ⊎ Collision (hashed_by key.now (parts_of witness.entry)) (hashed_in t)) }
    // No other witness, and so no other bytes, tell anything of the key, or there are such lists: of a witness and of the root.
    ensures one { IfSome result (λ answer. (t : Tree) (map : Map) (other : Parts) → HasRecords t map
        → HasEachKeyOnce t → root.now ≡ root_of t → IsSome (verdict root.now key.now other)
        → let mine = parts_of witness.entry in
        (mine ≡ other) ⊎ Collision (hashed_by key.now mine ++ hashed_by key.now other) (hashed_in t)) }
{
    told_by(root, key, witness)
}

fn told_by<'a>(root: &[u8; 32], key: &[u8], witness: Witness<'a>) -> Option<Answer<'a>>
    ensures { option_map told result ≡ verdict root.now key.now (parts_of witness.entry) }
{
    match witness {
        Witness::Present {
            value,
            next,
            place,
            path,
        } => {
            if is_shown(root, &key_digest(key), &digest(value), next, place, path) {
                Some(Answer::Present(value))
            } else {
                None
            }
        }
        Witness::Absent {
            below,
            value,
            next,
            place,
            path,
        } => {
            let here = is_above(below, key) && is_under(key, next);
            if here && is_shown(root, &bound(below), value, &bound(next), place, path) {
                Some(Answer::Absent)
            } else {
                None
            }
        }
    }
}
