//! The root of hashes that come one by one, in no memory but a slot for each height.
//!
//! Eleven hashes are 8 + 2 + 1: slot 3 holds the root over the hashes 0 to 7, slot 1 that over 8 and 9, and slot 0 the hash
//! 10. Their root is the node over slot 3 and the node over slots 1 and 0. A twelfth hash is joined to slot 0, and that node
//! to slot 1: slot 2 then holds the root over 8 to 11, and slots 0 and 1 are free.
ghost use Rattle.std.specs.Prelude.{◌≡◌, ℕ, ◌+◌, ◌<◌, ◌^◌, List, [], ◌∷◌, ◌++◌, length};
ghost use Rattle.sia_merkle.specs.History.{pushed_hashes};
ghost use Rattle.sia_merkle.specs.Roots.{leaf_digest, node_root_of};
ghost use Rattle.sia_merkle.specs.Stacked.{IsStacked, over_rest};

use crate::hashing::{leaf_hash, node};
use crate::pushed::Pushed;
use sia_blake::Hash;
use std::marker::Model;

/// Hashes that are pushed one by one, from the left, of which the root can be had at any time. Contracts see it as the
/// list of the hashes that were pushed; that of a leaf is its digest.
///
/// It keeps the roots of perfect subtrees alone, one for each power of two in the number of pushes, and takes no memory.
#[derive(Drop)]
pub struct RootStack {
    count: u64,
    slots: [Hash; 64],
    pushed: Pushed,
}

impl Model for RootStack {
    ghost Value = { List (List ℕ) };

    ghost view = { λ s. pushed_hashes s.pushed };

    ghost invariant = { λ s. (s.count ≡ length (pushed_hashes s.pushed)) × (s.count < 2 ^ 63) × IsStacked s.slots (pushed_hashes s.pushed) };
}

impl RootStack {
    /// No hashes yet.
    pub fn new() -> RootStack
        ensures { result ≡ [] }
    {
        RootStack {
            count: 0,
            slots: [[0; 32]; 64],
            pushed: Pushed::Nothing,
        }
    }

    /// Pushes the hash of one leaf, or of one subtree of the height that all others have.
    pub fn push_hash(&mut self, hash: &Hash)
        requires { length self.old + 1 < 2 ^ 63 }
        ensures { self.new ≡ self.old ++ hash.now ∷ [] }
    {
        push(&mut self.slots, self.count, hash);
        self.count += 1;
        self.pushed = self.pushed.and(hash);
    }

    /// Pushes a leaf of any length.
    pub fn push_leaf(&mut self, leaf: &[u8])
        requires { length self.old + 1 < 2 ^ 63 }
        ensures { self.new ≡ self.old ++ leaf_digest leaf.now ∷ [] }
    {
        let hash = leaf_hash(leaf);
        self.push_hash(&hash);
    }

    /// The root over the hashes that were pushed; 32 zero bytes where there are none.
    pub fn root(&self) -> Hash
        ensures { result ≡ node_root_of self.now }
    {
        joined(&self.slots, self.count)
    }
}

/// Puts a hash behind the subtrees: it is joined to each one that ends where it begins, from the lowest height on, and
/// goes into the first free slot.
fn push(slots: &mut [Hash], count: u64, hash: &Hash)
    requires slots { length slots.old ≡ 64 }
    requires room { count + 1 < 2 ^ 63 }
    ensures { (hashes : List (List ℕ)) → length hashes ≡ count → IsStacked slots.old hashes → IsStacked slots.new (hashes ++ hash.now ∷ []) }
{
    let mut carried = *hash;
    let mut rest = count;
    for height in 0..slots.len() {
        if rest % 2 == 0 {
            slots[height] = carried;
            return;
        }
        carried = node(&slots[height], &carried);
        rest /= 2;
    }
}

/// The root over the subtrees, joined from the right.
fn joined(slots: &[Hash], count: u64) -> Hash
    requires { length slots.now ≡ 64 }
    ensures { (hashes : List (List ℕ)) → length hashes ≡ count → IsStacked slots.now hashes → result ≡ node_root_of hashes }
{
    let mut root: Option<Hash> = None;
    let mut rest = count;
    for slot in slots {
        if rest % 2 == 1 {
            root = Some(over(slot, root));
        }
        rest /= 2;
    }
    root.unwrap_or([0; 32])
}

/// A subtree's root over what is joined to the right of it.
fn over(left: &Hash, right: Option<Hash>) -> Hash
    ensures { result ≡ over_rest left.now right }
{
    match right {
        None => *left,
        Some(right) => node(left, &right),
    }
}
