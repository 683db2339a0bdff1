ghost use Rattle.std.specs.Prelude.{◌≡◌, ◌+◌, ◌*◌, ◌^◌, ◌<◌, ◌≤◌, ◌&&◌, ◌++◌, ◌∷◌, [], Option, Some, None, IfSome, IfNone, IsTrue, drop, length, nat_le, nat_lt, option_map, if◌then◌else◌};
ghost use Rattle.key_index_witness.specs.Bytes.{HasHeadSizes, HasKeySize, HasSizes, bound_field, encoded, head_field, is_short, written};
ghost use Rattle.key_index_witness.specs.Reading.{absent_at, bound_at, cut, front_of, head_at, number_at, path_at, read};
ghost use Rattle.key_index_witness.specs.Witness.{Parts, bytes_in, parts_of};

use crate::Witness;

/// The place, the digest and the path of a witness.
#[derive(Clone, Copy)]
struct Head<'a> {
    place: u64,
    digest: &'a [u8; 32],
    path: &'a [[u8; 32]],
}

/// The witness that some bytes stand for, if they stand for one. Each witness has one form, and other bytes
/// stand for none.
///
/// | Bytes | |
/// |---|---|
/// | 1 | 0 where the key is held, 1 where it is absent |
/// | 8 | `place`, the lowest byte first |
/// | 32 | the digest of the next key, or that of the value below |
/// | 1 | how many digests the path has |
/// | 32 each | `path` |
/// | the rest | the value of a held key; of an absent one `below` and then `next`, each a 0 for `None`, or a 1, its length in eight bytes, the lowest first, and its bytes |
pub fn decode(bytes: &[u8]) -> Option<Witness<'_>>
    // The witness is written as these bytes.
    ensures written { IfSome result (λ w. encoded (parts_of w) ≡ bytes.now) }
    ensures sizes { IfSome result (λ w. HasSizes (parts_of w)) }
    // A witness that is written as these bytes is the one that is read.
    ensures read { (w : Parts) → HasSizes w → encoded w ≡ bytes.now → option_map parts_of result ≡ Some w }
{
    witness_of(bytes)
}

#[tactic(auto, unfolding(crate::specs::Reading::read))]
fn witness_of(bytes: &[u8]) -> Option<Witness<'_>>
    ensures { option_map parts_of result ≡ read bytes.now }
{
    match bytes {
        [] => None,
        [0, rest @ ..] => {
            let (head, value) = head_of(rest)?;
            Some(Witness::Present {
                value,
                next: head.digest,
                place: head.place,
                path: head.path,
            })
        }
        [1, rest @ ..] => {
            let (head, rest) = head_of(rest)?;
            absent_of(head, rest)
        }
        [_, ..] => None,
    }
}

#[tactic(auto, unfolding(crate::specs::Reading::absent_at))]
fn absent_of<'a>(head: Head<'a>, bytes: &'a [u8]) -> Option<Witness<'a>>
    ensures { option_map parts_of result ≡ absent_at (front_of head.entry) bytes.now }
{
    let (below, rest) = bound_of(bytes)?;
    let (next, rest) = bound_of(rest)?;
    if !rest.is_empty() {
        return None;
    }
    Some(Witness::Absent {
        below,
        value: head.digest,
        next,
        place: head.place,
        path: head.path,
    })
}

#[tactic(auto, unfolding(crate::specs::Reading::head_at))]
fn head_of(bytes: &[u8]) -> Option<(Head<'_>, &[u8])>
    ensures { option_map (λ x. (front_of x.0, x.1.now)) result ≡ head_at bytes.now }
{
    let (place, rest) = number_of(bytes)?;
    let (digest, rest) = digest_of(rest)?;
    let (path, rest) = path_of(rest)?;
    let head = Head {
        place,
        digest,
        path,
    };
    Some((head, rest))
}

#[tactic(auto, unfolding(crate::specs::Reading::bound_at))]
fn bound_of(bytes: &[u8]) -> Option<(Option<&[u8]>, &[u8])>
    ensures { option_map (λ x. (bytes_in x.0, x.1.now)) result ≡ bound_at bytes.now }
{
    match bytes {
        [] => None,
        [0, rest @ ..] => Some((None, rest)),
        [1, rest @ ..] => {
            let (length, rest) = number_of(rest)?;
            let (key, rest) = cut_of(length, rest)?;
            Some((Some(key), rest))
        }
        [_, ..] => None,
    }
}

#[tactic(auto, unfolding(crate::specs::Reading::path_at))]
fn path_of(bytes: &[u8]) -> Option<(&[[u8; 32]], &[u8])>
    ensures { option_map (λ x. (x.0.now, x.1.now)) result ≡ path_at bytes.now }
{
    match bytes {
        [] => None,
        [steps, rest @ ..] => {
            let (path, rest) = cut_of(32 * u64::from(*steps), rest)?;
            let (path, _) = path.as_chunks::<32>();
            Some((path, rest))
        }
    }
}

fn number_of(bytes: &[u8]) -> Option<(u64, &[u8])>
    ensures { option_map (λ x. (x.0, x.1.now)) result ≡ number_at bytes.now }
{
    if bytes.len() < 8 {
        return None;
    }
    let (front, rest) = bytes.split_at(8);
    let number = u64::from_le_bytes([
        front[0], front[1], front[2], front[3], front[4], front[5], front[6], front[7],
    ]);
    Some((number, rest))
}

fn digest_of(bytes: &[u8]) -> Option<(&[u8; 32], &[u8])>
    ensures { option_map (λ x. (x.0.now, x.1.now)) result ≡ cut 32 bytes.now }
{
    bytes.split_first_chunk::<32>()
}

fn cut_of(count: u64, bytes: &[u8]) -> Option<(&[u8], &[u8])>
    ensures { option_map (λ x. (x.0.now, x.1.now)) result ≡ cut count bytes.now }
{
    if (bytes.len() as u64) < count {
        return None;
    }
    Some(bytes.split_at(count as usize))
}

/// How many bytes [`encode`] writes, or `None` for more digests on the path than 255, or more bytes than a `usize` counts.
pub fn encoded_len(witness: Witness<'_>) -> Option<usize>
    ensures exact { let w = parts_of witness.entry in
        result ≡ (if is_short w && nat_lt (length (encoded w)) (2 ^ 64) then Some (length (encoded w)) else None) }
    ensures sizes { IfSome result (λ n. HasSizes (parts_of witness.entry)) }
{
    match witness {
        Witness::Present {
            value,
            next,
            place,
            path,
        } => head_len(place, next, path)?.checked_add(value.len()),
        Witness::Absent {
            below,
            value,
            next,
            place,
            path,
        } => head_len(place, value, path)?
            .checked_add(bound_len(below))?
            .checked_add(bound_len(next)),
    }
}

/// With the byte in front of it.
fn head_len(place: u64, digest: &[u8; 32], path: &[[u8; 32]]) -> Option<usize>
    ensures exact { result ≡ (if nat_lt (length path.now) 256
        then Some (1 + length (head_field place digest.now path.now)) else None) }
    ensures sizes { IfSome result (λ n. HasHeadSizes place digest.now path.now) }
{
    if path.len() > 255 {
        return None;
    }
    Some(42 + path.as_flattened().len())
}

fn bound_len(bound: Option<&[u8]>) -> usize
    ensures len { result ≡ length (bound_field (bytes_in bound.entry)) }
    ensures size { HasKeySize (bytes_in bound.entry) }
{
    match bound {
        Some(key) => 9 + key.len(),
        None => 1,
    }
}

/// Writes a witness to the front of `out`, as [`decode`] reads it, and says how many bytes it wrote. `None`, with nothing written, for
/// more digests on the path than 255, of which none tells anything, or where `out` is too short.
pub fn encode(witness: Witness<'_>, out: &mut [u8]) -> Option<usize>
    // It is refused just where it has no form, or no room.
    ensures exact { let w = parts_of witness.entry in result
        ≡ (if is_short w && nat_le (length (encoded w)) (length out.old) then Some (length (encoded w)) else None) }
    // The front is the form of the witness, and the rest stays.
    ensures written { IfSome result (λ n. out.new ≡ encoded (parts_of witness.entry) ++ drop n out.old) }
    ensures refused { IfNone result (out.new ≡ out.old) }
    ensures sizes { IfSome result (λ n. HasSizes (parts_of witness.entry)) }
{
    let length = encoded_len(witness)?;
    if length > out.len() {
        return None;
    }
    put_witness(out, witness);
    Some(length)
}

fn put_witness(out: &mut [u8], witness: Witness<'_>)
    requires short { IsTrue (is_short (parts_of witness)) }
    requires room { length (encoded (parts_of witness)) ≤ length out.old }
    ensures { out.new ≡ written 0 (encoded (parts_of witness.entry)) out.old }
{
    match witness {
        Witness::Present {
            value,
            next,
            place,
            path,
        } => {
            let at = put_head(out, 0, place, next, path);
            put(out, at, value);
        }
        Witness::Absent {
            below,
            value,
            next,
            place,
            path,
        } => {
            let at = put_head(out, 1, place, value, path);
            let at = put_bound(out, at, below);
            put_bound(out, at, next);
        }
    }
}

/// The kind, and what stands before the rest of a witness.
fn put_head(out: &mut [u8], kind: u8, place: u64, digest: &[u8; 32], path: &[[u8; 32]]) -> usize
    requires short { length path.now < 256 }
    requires room { 1 + length (head_field place digest.now path.now) ≤ length out.old }
    ensures at { result ≡ 1 + length (head_field place digest.now path.now) }
    ensures written { out.new ≡ written 0 (kind ∷ head_field place digest.now path.now) out.old }
{
    let at = put(out, 0, &[kind]);
    let at = put(out, at, &place.to_le_bytes());
    let at = put(out, at, digest.as_slice());
    let at = put(out, at, &[path.len() as u8]);
    put(out, at, path.as_flattened())
}

fn put_bound(out: &mut [u8], at: usize, bound: Option<&[u8]>) -> usize
    requires { at + length (bound_field (bytes_in bound)) ≤ length out.old }
    ensures at { result ≡ at + length (bound_field (bytes_in bound.entry)) }
    ensures written { out.new ≡ written at (bound_field (bytes_in bound.entry)) out.old }
{
    match bound {
        Some(key) => {
            let at = put(out, at, &[1]);
            let at = put(out, at, &(key.len() as u64).to_le_bytes());
            put(out, at, key)
        }
        None => put(out, at, &[0]),
    }
}

fn put(out: &mut [u8], at: usize, bytes: &[u8]) -> usize
    requires { at + length bytes.now ≤ length out.old }
    ensures at { result ≡ at + length bytes.now }
    ensures written { out.new ≡ written at bytes.now out.old }
{
    let end = at + bytes.len();
    out[at..end].copy_from_slice(bytes);
    end
}
