//! The tree of digests behind a root: of records for which `key_index_witness` reads witnesses, or of any other leaves.
//!
//! The leaves are digests, each in a slot, which it keeps while others come and go at the end. With n leaves the tree has n - 1 nodes above
//! them and takes 64 bytes a leaf, beside what a `Vec` keeps in reserve; no leaf is a filler, and no number of leaves rebuilds it. A change
//! of one leaf takes a digest for each level, some log2 n; [`Leaves::update`] takes each node once for many changes, and
//! [`Leaves::build`] n - 1 digests.
//!
//! The root depends on the slots of the leaves, and not on how they came there.
#![tactic(auto)]

mod nodes;

ghost use Rattle.std.specs.Prelude.{◌≡◌, ◌+◌, ◌-◌, ◌<◌, ℕ, [], ◌∷◌, ◌++◌, IfOk, OnOk, OnErr, length, slice_index_or, slice_set, take, All};
ghost use Rattle.key_index_witness.specs.Tree.{Tree, climb, halved, root_of};
ghost use Rattle.key_index_witness_tree.specs.Heap.{AreRoots, root_digest, set_all, tree_of};
ghost use Rattle.key_index_witness_tree.specs.Slots.{place_of};

use std::alloc::{AllocError, Global};
use std::marker::Model;

#[cfg(test)]
mod tests;

/// The digests of some leaves, at least one, and of the nodes above them. Its value is the list of the leaves by their slots, from 0 on.
#[derive(Drop)]
pub struct Leaves {
    nodes: Vec<[u8; 32]>,
}

impl Model for Leaves {
    ghost use Rattle.std.specs.Prelude.{ℕ, List};
    ghost use Rattle.key_index_witness_tree.specs.Heap.{IsTree, leaves_of};

    ghost Value = { List (List ℕ) };

    ghost view = { λ t. leaves_of t.nodes.items };

    ghost invariant = { λ t. IsTree t.nodes.items };
}

/// A way from a leaf to the root: the leaf's place, and the digests beside those on the way, from the leaf up.
#[derive(Drop)]
pub struct Path {
    pub place: u64,
    pub siblings: Vec<[u8; 32]>,
}

impl Leaves {
    /// One leaf, in slot 0.
    pub fn new(alloc: Global, digest: [u8; 32]) -> Result<Leaves, AllocError>
        ensures { IfOk result (λ t. t ≡ digest ∷ []) }
    {
        let mut nodes = Vec::new(alloc);
        nodes.extend_from_slice(&[[0; 32], digest])?;
        Ok(Leaves { nodes })
    }

    /// Some leaves, at least one, in the slots from 0 on. For n of them it takes n - 1 digests, and for the call n bytes of memory beside
    /// those of the tree.
    pub fn build(alloc: Global, leaves: &[[u8; 32]]) -> Result<Leaves, AllocError>
        requires { 0 < length leaves.now }
        ensures { IfOk result (λ t. t ≡ leaves.now) }
    {
        Ok(Leaves {
            nodes: nodes::build(alloc, leaves)?,
        })
    }

    /// How many leaves there are.
    pub fn len(&self) -> usize
        ensures len { result ≡ length self.now }
        ensures some { 0 < result }
    {
        self.nodes.len() / 2
    }

    /// The digest of all leaves.
    pub fn root(&self) -> [u8; 32]
        ensures digest { result ≡ root_digest self.now }
        // Where the leaves are the roots of trees, it is the root of the tree of these.
        ensures tree { (tree : ℕ → Tree) → AreRoots self.now tree
            → result ≡ root_of (tree_of tree (length self.now)) }
    {
        nodes::root(&self.nodes)
    }

    /// Sets the leaf in a slot.
    pub fn set(&mut self, slot: usize, digest: [u8; 32])
        requires { slot < length self.old }
        ensures { self.new ≡ slice_set self.old slot digest }
    {
        nodes::set(&mut self.nodes, slot, digest);
    }

    /// Sets many leaves, in order, where a slot may come again. It takes one digest for each node above a changed leaf, which for many
    /// leaves are far fewer than by `set`; and for the call a byte of memory for each leaf of the tree, each of which it reads: for a
    /// handful of leaves use `set`. Where memory is refused, nothing changes.
    pub fn update(&mut self, alloc: Global, changes: &[(usize, [u8; 32])]) -> Result<(), AllocError>
        requires { All (λ c. c.0 < length self.old) changes.now }
        // As by `set`, one by one.
        ensures ok { OnOk result (self.new ≡ set_all self.old changes.now) }
        ensures err { OnErr result (self.new ≡ self.old) }
    {
        nodes::update(alloc, &mut self.nodes, changes)
    }

    /// Adds a leaf in a new slot, the next one. Where memory is refused, nothing changes.
    pub fn push(&mut self, digest: [u8; 32]) -> Result<(), AllocError>
        ensures ok { OnOk result (self.new ≡ self.old ++ digest ∷ []) }
        ensures err { OnErr result (self.new ≡ self.old) }
    {
        nodes::push(&mut self.nodes, digest)
    }

    /// Takes off the leaf in the last slot. The first one stays.
    pub fn pop(&mut self)
        requires { 1 < length self.old }
        ensures { self.new ≡ take (length self.old - 1) self.old }
    {
        nodes::pop(&mut self.nodes);
    }

    /// The way from the leaf in a slot to the root, as a witness has it.
    pub fn path(&self, alloc: Global, slot: usize) -> Result<Path, AllocError>
        requires { slot < length self.now }
        ensures place { IfOk result (λ p. p.place ≡ place_of (length self.now) slot) }
        ensures root { IfOk result (λ p. climb p.place (slice_index_or self.now slot []) p.siblings.items
            ≡ root_digest self.now) }
        ensures end { IfOk result (λ p. halved p.place p.siblings.items ≡ 1) }
    {
        let (place, siblings) = nodes::path(alloc, &self.nodes, slot)?;
        Ok(Path {
            place: place as u64,
            siblings,
        })
    }
}
