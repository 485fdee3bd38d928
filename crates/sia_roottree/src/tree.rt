//! The list of hashes, and its nodes.
ghost use Rattle.std.specs.Prelude.{◌≡◌, ◌+◌, ◌-◌, ◌*◌, ◌^◌, ◌<◌, ◌≤◌, max, [], ◌∷◌, ◌++◌, length, take, slice_set, slice_index_or, vec_len, vec_capacity, OnOk, OnErr};
ghost use Rattle.sia_encoding.specs.declared.limits.TheConstants.{CONTRACT_SECTORS};
ghost use Rattle.sia_merkle.specs.Roots.{node_root_of};
ghost use Rattle.sia_roottree.specs.KeptNodes.{AreKept};
ghost use Rattle.sia_roottree.specs.SeenTree.{TreeView};

use crate::places::kept;
use crate::raise::raise;
use crate::root::join_subtrees;
use sia_blake::Hash;
use sia_encoding::Steps;
use sia_merkle::Nodes;
use std::alloc::{AllocError, Global};
use std::marker::Model;
use std::sync::ledger::Ledger;

/// A list of at most 65,536 hashes, with the nodes over its whole subtrees. Contracts see the list, and for how many more
/// hashes there is room.
///
/// Calls count a step for each node that they hash.
#[derive(Drop)]
pub struct RootTree {
    hashes: Vec<Hash>,
    nodes: Vec<Hash>,
    spare: u64,
}

impl Model for RootTree {
    ghost Value = { TreeView };

    ghost view = { λ t. record { hashes = t.hashes.items; spare = t.spare } };

    ghost invariant = { λ t. (vec_len t.nodes ≡ vec_len t.hashes) × (vec_len t.hashes + t.spare ≤ CONTRACT_SECTORS) × (vec_len t.hashes + t.spare ≤ vec_capacity t.hashes) × (vec_len t.nodes + t.spare ≤ vec_capacity t.nodes) × AreKept t.hashes.items t.nodes.items };
}

impl RootTree {
    /// No hashes, and room for none. It takes no memory.
    pub fn new(alloc: Global) -> RootTree
        ensures { result ≡ record { hashes = []; spare = 0 } }
    {
        RootTree {
            hashes: Vec::new(alloc),
            nodes: Vec::new(alloc),
            spare: 0,
        }
    }

    /// Makes room for so many more hashes. Its error is want of memory: the tree is as it was.
    pub fn reserve(&mut self, more: u64) -> Result<(), AllocError>
        requires { length self.old.hashes + more ≤ CONTRACT_SECTORS }
        ensures ok { OnOk result (self.new ≡ record { hashes = self.old.hashes; spare = max self.old.spare more }) }
        ensures err { OnErr result (self.new ≡ self.old) }
    {
        self.hashes.reserve(more as usize)?;
        self.nodes.reserve(more as usize)?;
        self.spare = self.spare.max(more);
        Ok(())
    }

    /// How many hashes there are.
    pub fn count(&self) -> u64
        ensures { result ≡ length self.now.hashes }
    {
        self.hashes.len() as u64
    }

    /// For how many more hashes there is room.
    pub fn spare(&self) -> u64
        ensures { result ≡ self.now.spare }
    {
        self.spare
    }

    /// The hash at a place, counted from 0.
    pub fn get(&self, place: u64) -> Hash
        requires { place < length self.now.hashes }
        ensures { result ≡ slice_index_or self.now.hashes place [] }
    {
        self.hashes[place as usize]
    }

    /// Puts a hash behind the last one, in room that is there: at most 17 steps.
    pub fn push<L: Ledger>(&mut self, hash: Hash, steps: &mut Steps<L>)
        requires { 1 ≤ self.old.spare }
        ensures tree { self.new ≡ record { hashes = self.old.hashes ++ hash ∷ []; spare = self.old.spare - 1 } }
        ensures steps { steps.new ≤ steps.old + 17 }
    {
        let place = self.hashes.len();
        let Ok(()) = self.hashes.push(hash) else {
            unreachable!()
        };
        let Ok(()) = self.nodes.push([0; 32]) else {
            unreachable!()
        };
        self.spare -= 1;
        raise(
            self.hashes.as_slice(),
            self.nodes.as_mut_slice(),
            place,
            steps,
        );
    }

    /// Takes the last hash away. Its room stays.
    pub fn pop(&mut self)
        requires { 1 ≤ length self.old.hashes }
        ensures { self.new ≡ record { hashes = take (length self.old.hashes - 1) self.old.hashes; spare = self.old.spare + 1 } }
    {
        let _ = self.hashes.pop();
        let _ = self.nodes.pop();
        self.spare += 1;
    }

    /// Puts another hash at a place: at most 17 steps.
    pub fn set<L: Ledger>(&mut self, place: u64, hash: Hash, steps: &mut Steps<L>)
        requires { place < length self.old.hashes }
        ensures tree { self.new ≡ record { hashes = slice_set self.old.hashes place hash; spare = self.old.spare } }
        ensures steps { steps.new ≤ steps.old + 17 }
    {
        let place = place as usize;
        self.hashes[place] = hash;
        raise(
            self.hashes.as_slice(),
            self.nodes.as_mut_slice(),
            place,
            steps,
        );
    }

    /// Puts the hashes at two places in each other's place: at most 34 steps.
    pub fn swap<L: Ledger>(&mut self, place: u64, other: u64, steps: &mut Steps<L>)
        requires place { place < length self.old.hashes }
        requires other { other < length self.old.hashes }
        ensures tree { self.new ≡ record { hashes = slice_set (slice_set self.old.hashes place (slice_index_or self.old.hashes other [])) other (slice_index_or self.old.hashes place []); spare = self.old.spare } }
        ensures steps { steps.new ≤ steps.old + 34 }
    {
        let hash = self.get(place);
        let replacement = self.get(other);
        self.set(place, replacement, steps);
        self.set(other, hash, steps);
    }

    /// The root over the list, 32 zero bytes for no hashes: at most 17 steps.
    pub fn root<L: Ledger>(&self, steps: &mut Steps<L>) -> Hash
        ensures root { result ≡ node_root_of self.now.hashes }
        ensures steps { steps.new ≤ steps.old + 17 }
    {
        join_subtrees(self.hashes.as_slice(), self.nodes.as_slice(), steps)
    }
}

impl Nodes for RootTree {
    ghost hashes = { λ tree. tree.hashes };

    fn count(&self) -> u64 {
        self.count()
    }

    fn node(&self, level: u32, index: u64) -> Hash {
        let index = index as usize;
        kept(self.hashes.as_slice(), self.nodes.as_slice(), level, index)
    }
}
