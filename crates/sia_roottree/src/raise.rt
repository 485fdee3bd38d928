//! Makes the nodes over a place anew.
ghost use Rattle.std.specs.Prelude.{◌≡◌, ◌+◌, ◌*◌, ◌^◌, ◌<◌, ◌≤◌, length, slice_set};
ghost use Rattle.sia_encoding.specs.declared.limits.TheConstants.{CONTRACT_SECTORS};
ghost use Rattle.sia_merkle.specs.Roots.{node_digest};
ghost use Rattle.sia_roottree.specs.KeptNodes.{AreKept, AreKeptBeside, kept_root, node_place as place_of_node};

use crate::places::{TREE_HEIGHT, kept, node_place};
use sia_blake::Hash;
use sia_encoding::Steps;
use sia_merkle::{node_hash, power};
use std::sync::ledger::Ledger;

/// Makes all nodes over a place anew, from the lowest one up. The others are kept already.
pub(crate) fn raise<L: Ledger>(
    hashes: &[Hash],
    nodes: &mut [Hash],
    place: usize,
    steps: &mut Steps<L>,
)
    requires few { length hashes.now ≤ CONTRACT_SECTORS }
    requires nodes { length nodes.old ≡ length hashes.now }
    requires place { place < length hashes.now }
    requires others { AreKeptBeside place 0 hashes.now nodes.old }
    ensures kept { AreKept hashes.now nodes.new }
    ensures steps { steps.new ≤ steps.old + 16 }
{
    for below in 0..TREE_HEIGHT {
        let width = power(below + 1) as usize;
        let index = place / width;
        if (index + 1) * width > hashes.len() {
            return;
        }
        make_node(hashes, nodes, below, index, steps);
    }
}

/// Makes the node over two halves of height `below`.
fn make_node<L: Ledger>(
    hashes: &[Hash],
    nodes: &mut [Hash],
    below: u32,
    index: usize,
    steps: &mut Steps<L>,
)
    requires within { (index + 1) * 2 ^ (below + 1) ≤ length hashes.now }
    requires few { length hashes.now ≤ CONTRACT_SECTORS }
    requires nodes { length nodes.old ≡ length hashes.now }
    ensures node { nodes.new ≡ slice_set nodes.old (place_of_node below index) (node_digest (kept_root hashes.now nodes.old below (2 * index)) (kept_root hashes.now nodes.old below (2 * index + 1))) }
    ensures step { steps.new ≡ steps.old + 1 }
{
    let left = kept(hashes, nodes, below, 2 * index);
    let right = kept(hashes, nodes, below, 2 * index + 1);
    let node = node_hash(&left, &right, steps);
    nodes[node_place(below, index)] = node;
}
