//! The list of nodes. The root stands at 1, and below the node at i stand those at 2 * i and 2 * i + 1. With n leaves, these stand at n up
//! to 2 * n.
ghost use Rattle.std.specs.Prelude.{◌≡◌, ◌≢◌, ◌+◌, ◌-◌, ◌*◌, ◌%◌, ◌/◌, ◌^◌, ◌<◌, ◌≤◌, ℕ, [], ◌∷◌, ◌++◌, All, IfOk, OnOk, OnErr, length, slice_set, slice_index_or, take};
ghost use Rattle.key_index_witness.specs.Tree.{Tree, climb, halved, root_of};
ghost use Rattle.key_index_witness_tree.specs.Heap.{AreRoots, IsHeap, IsHeapBesides, IsHeapBut, IsTree, beside, leaves_of, node_at, root_digest, set_all, tree_of};
ghost use Rattle.key_index_witness_tree.specs.Slots.{place_of};

use key_index_witness::joined;
use std::alloc::{AllocError, Global};

/// Joins the digests on the way from a leaf to the root.
fn raise(nodes: &mut [[u8; 32]], place: usize)
    requires heap { IsHeapBut (place / 2) nodes.old }
    requires low { 1 ≤ place }
    requires leaf { length nodes.old ≤ 2 * place }
    requires high { place < length nodes.old }
    requires even { length nodes.old % 2 ≡ 0 }
    ensures heap { IsHeap nodes.new }
    ensures leaves { (i : ℕ) → length nodes.old ≤ 2 * i → node_at nodes.new i ≡ node_at nodes.old i }
{
    let mut i = place;
    while i > 1 {
        i /= 2;
        nodes[i] = joined(&nodes[2 * i], &nodes[2 * i + 1]);
    }
}

/// The place of a slot's leaf, of n leaves.
#[tactic(auto, using(crate::proofs::SlotLemmas::place_step))]
fn place_of(n: usize, slot: usize) -> usize
    requires low { slot < n }
    requires small { n < 2 ^ 62 }
    ensures place { result ≡ place_of n slot }
    ensures leaf { n ≤ result }
    ensures high { result < 2 * n }
{
    let mut place = 2 * slot + 1;
    while place < n {
        place *= 2;
    }
    place
}

/// The other place under the same node.
fn beside(i: usize) -> usize
    requires low { 1 ≤ i }
    requires high { i < 2 ^ 63 }
    ensures { result ≡ beside i }
{
    if i % 2 == 0 { i + 1 } else { i - 1 }
}

pub(crate) fn root(nodes: &Vec<[u8; 32]>) -> [u8; 32]
    requires { IsTree nodes.now.items }
    ensures digest { result ≡ root_digest (leaves_of nodes.now.items) }
    ensures tree { (tree : ℕ → Tree) → AreRoots (leaves_of nodes.now.items) tree
        → result ≡ root_of (tree_of tree (length (leaves_of nodes.now.items))) }
{
    nodes[1]
}

pub(crate) fn set(nodes: &mut Vec<[u8; 32]>, slot: usize, digest: [u8; 32])
    requires tree { IsTree nodes.old.items }
    requires slot { slot < length (leaves_of nodes.old.items) }
    ensures tree { IsTree nodes.new.items }
    ensures leaves { leaves_of nodes.new.items ≡ slice_set (leaves_of nodes.old.items) slot digest }
{
    let place = place_of(nodes.len() / 2, slot);
    set_node(nodes, place, digest);
}

fn set_node(nodes: &mut Vec<[u8; 32]>, place: usize, digest: [u8; 32])
    requires heap { IsHeap nodes.old.items }
    requires low { 1 ≤ place }
    requires leaf { length nodes.old.items ≤ 2 * place }
    requires high { place < length nodes.old.items }
    requires even { length nodes.old.items % 2 ≡ 0 }
    ensures heap { IsHeap nodes.new.items }
    ensures len { length nodes.new.items ≡ length nodes.old.items }
    ensures set { node_at nodes.new.items place ≡ digest }
    ensures others { (i : ℕ) → length nodes.old.items ≤ 2 * i → i ≢ place
        → node_at nodes.new.items i ≡ node_at nodes.old.items i }
{
    nodes[place] = digest;
    raise(nodes.as_mut_slice(), place);
}

/// The one at the lowest place moves beside the new one, to a new place.
pub(crate) fn push(nodes: &mut Vec<[u8; 32]>, digest: [u8; 32]) -> Result<(), AllocError>
    requires { IsTree nodes.old.items }
    ensures tree { IsTree nodes.new.items }
    ensures ok { OnOk result (leaves_of nodes.new.items ≡ leaves_of nodes.old.items ++ digest ∷ []) }
    ensures err { OnErr result (leaves_of nodes.new.items ≡ leaves_of nodes.old.items) }
{
    push_node(nodes, digest)
}

fn push_node(nodes: &mut Vec<[u8; 32]>, digest: [u8; 32]) -> Result<(), AllocError>
    requires heap { IsHeap nodes.old.items }
    requires even { length nodes.old.items % 2 ≡ 0 }
    requires some { 2 ≤ length nodes.old.items }
    ensures heap { IsHeap nodes.new.items }
    ensures len { OnOk result (length nodes.new.items ≡ length nodes.old.items + 2) }
    ensures new { OnOk result (node_at nodes.new.items (length nodes.old.items + 1) ≡ digest) }
    ensures moved { OnOk result (node_at nodes.new.items (length nodes.old.items)
        ≡ node_at nodes.old.items (length nodes.old.items / 2)) }
    ensures others { (i : ℕ) → length nodes.old.items < 2 * i → i < length nodes.old.items
        → node_at nodes.new.items i ≡ node_at nodes.old.items i }
    ensures refused { OnErr result (nodes.new.items ≡ nodes.old.items) }
{
    let lowest = nodes[nodes.len() / 2];
    let place = nodes.len() + 1;
    nodes.extend_from_slice(&[lowest, digest])?;
    raise(nodes.as_mut_slice(), place);
    Ok(())
}

/// The one beside it moves down, to the place that both were under.
pub(crate) fn pop(nodes: &mut Vec<[u8; 32]>)
    requires tree { IsTree nodes.old.items }
    requires some { 1 < length (leaves_of nodes.old.items) }
    ensures tree { IsTree nodes.new.items }
    ensures leaves { leaves_of nodes.new.items
        ≡ take (length (leaves_of nodes.old.items) - 1) (leaves_of nodes.old.items) }
{
    pop_node(nodes);
}

fn pop_node(nodes: &mut Vec<[u8; 32]>)
    requires heap { IsHeap nodes.old.items }
    requires even { length nodes.old.items % 2 ≡ 0 }
    requires some { 4 ≤ length nodes.old.items }
    ensures heap { IsHeap nodes.new.items }
    ensures len { length nodes.new.items + 2 ≡ length nodes.old.items }
    ensures moved { node_at nodes.new.items (length nodes.new.items / 2)
        ≡ node_at nodes.old.items (length nodes.new.items) }
    ensures others { (i : ℕ) → length nodes.new.items < 2 * i → i < length nodes.new.items
        → node_at nodes.new.items i ≡ node_at nodes.old.items i }
{
    let length = nodes.len() - 2;
    let moved = nodes[length];
    nodes.truncate(length);
    nodes[length / 2] = moved;
    raise(nodes.as_mut_slice(), length / 2);
}

/// Sets a leaf, and marks the node above it.
fn put(nodes: &mut Vec<[u8; 32]>, marks: &mut Vec<bool>, slot: usize, digest: [u8; 32])
    requires heap { IsHeapBesides (length marks.old.items) marks.old.items nodes.old.items }
    requires size { length nodes.old.items ≡ 2 * length marks.old.items }
    requires slot { slot < length marks.old.items }
    ensures heap { IsHeapBesides (length marks.new.items) marks.new.items nodes.new.items }
    ensures marks { length marks.new.items ≡ length marks.old.items }
    ensures nodes { length nodes.new.items ≡ length nodes.old.items }
    ensures leaves { leaves_of nodes.new.items ≡ slice_set (leaves_of nodes.old.items) slot digest }
{
    let place = place_of(marks.len(), slot);
    nodes[place] = digest;
    marks[place / 2] = true;
}

/// Joins the digests at the marked places, and above them.
fn raise_marked(nodes: &mut Vec<[u8; 32]>, marks: &mut Vec<bool>)
    requires heap { IsHeapBesides (length marks.old.items) marks.old.items nodes.old.items }
    requires size { length nodes.old.items ≡ 2 * length marks.old.items }
    requires some { 0 < length marks.old.items }
    ensures tree { IsTree nodes.new.items }
    ensures leaves { leaves_of nodes.new.items ≡ leaves_of nodes.old.items }
{
    let mut i = marks.len();
    while i > 1 {
        i -= 1;
        if marks[i] {
            nodes[i] = joined(&nodes[2 * i], &nodes[2 * i + 1]);
            marks[i / 2] = true;
        }
    }
}

pub(crate) fn update(
    alloc: Global,
    nodes: &mut Vec<[u8; 32]>,
    changes: &[(usize, [u8; 32])],
) -> Result<(), AllocError>
    requires tree { IsTree nodes.old.items }
    requires slots { All (λ c. c.0 < length (leaves_of nodes.old.items)) changes.now }
    ensures tree { IsTree nodes.new.items }
    ensures ok { OnOk result (leaves_of nodes.new.items ≡ set_all (leaves_of nodes.old.items) changes.now) }
    ensures err { OnErr result (leaves_of nodes.new.items ≡ leaves_of nodes.old.items) }
{
    let mut marks = vec![in alloc; false; nodes.len() / 2]?;
    for (slot, digest) in changes {
        put(nodes, &mut marks, *slot, *digest);
    }
    raise_marked(nodes, &mut marks);
    Ok(())
}

pub(crate) fn build(alloc: Global, leaves: &[[u8; 32]]) -> Result<Vec<[u8; 32]>, AllocError>
    requires { 0 < length leaves.now }
    ensures tree { IfOk result (λ nodes. IsTree nodes.items) }
    ensures leaves { IfOk result (λ nodes. leaves_of nodes.items ≡ leaves.now) }
{
    let mut nodes = vec![in alloc; [0; 32]; 2 * leaves.len()]?;
    let mut marks = vec![in alloc; true; leaves.len()]?;
    for (slot, digest) in leaves.iter().enumerate() {
        put(&mut nodes, &mut marks, slot, *digest);
    }
    raise_marked(&mut nodes, &mut marks);
    Ok(nodes)
}

pub(crate) fn path(
    alloc: Global,
    nodes: &Vec<[u8; 32]>,
    slot: usize,
) -> Result<(usize, Vec<[u8; 32]>), AllocError>
    requires tree { IsTree nodes.now.items }
    requires slot { slot < length (leaves_of nodes.now.items) }
    ensures place { IfOk result (λ p. p.0 ≡ place_of (length (leaves_of nodes.now.items)) slot) }
    ensures root { IfOk result (λ p. climb p.0 (slice_index_or (leaves_of nodes.now.items) slot []) p.1.items
        ≡ root_digest (leaves_of nodes.now.items)) }
    ensures end { IfOk result (λ p. halved p.0 p.1.items ≡ 1) }
{
    let place = place_of(nodes.len() / 2, slot);
    let siblings = path_from(alloc, nodes.as_slice(), place)?;
    Ok((place, siblings))
}

/// The digests beside those from a place up.
fn path_from(alloc: Global, nodes: &[[u8; 32]], place: usize) -> Result<Vec<[u8; 32]>, AllocError>
    requires heap { IsHeap nodes.now }
    requires low { 1 ≤ place }
    requires high { place < length nodes.now }
    requires even { length nodes.now % 2 ≡ 0 }
    ensures root { IfOk result (λ path. climb place (node_at nodes.now place) path.items ≡ node_at nodes.now 1) }
    ensures end { IfOk result (λ path. halved place path.items ≡ 1) }
{
    let mut path = Vec::new(alloc);
    let mut i = place;
    while i > 1 {
        path.push(nodes[beside(i)])?;
        i /= 2;
    }
    Ok(path)
}
