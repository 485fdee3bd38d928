//! The root over hashes whose nodes are kept.
ghost use Rattle.std.specs.Prelude.{◌≡◌, ◌+◌, ◌≤◌, length};
ghost use Rattle.sia_encoding.specs.declared.limits.TheConstants.{CONTRACT_SECTORS};
ghost use Rattle.sia_merkle.specs.Roots.{node_root_of};
ghost use Rattle.sia_merkle.specs.Stacked.{over_rest};
ghost use Rattle.sia_roottree.specs.KeptNodes.{AreKept};

use crate::places::{TREE_HEIGHT, kept};
use sia_blake::Hash;
use sia_encoding::Steps;
use sia_merkle::{node_hash, power};
use std::sync::ledger::Ledger;

/// The root, joined from the right: each power of two in the number of hashes has one subtree. 32 zero bytes for none.
pub(crate) fn join_subtrees<L: Ledger>(
    hashes: &[Hash],
    nodes: &[Hash],
    steps: &mut Steps<L>,
) -> Hash
    requires few { length hashes.now ≤ CONTRACT_SECTORS }
    requires nodes { length nodes.now ≡ length hashes.now }
    requires kept { AreKept hashes.now nodes.now }
    ensures root { result ≡ node_root_of hashes.now }
    ensures steps { steps.new ≤ steps.old + 17 }
{
    let mut root: Option<Hash> = None;
    for level in 0..TREE_HEIGHT + 1 {
        let count = hashes.len() / power(level) as usize;
        if count % 2 == 1 {
            let subtree = kept(hashes, nodes, level, count - 1);
            root = Some(over(&subtree, root, steps));
        }
    }
    root.unwrap_or([0; 32])
}

/// A subtree's root over what is joined to the right of it.
fn over<L: Ledger>(left: &Hash, right: Option<Hash>, steps: &mut Steps<L>) -> Hash
    ensures root { result ≡ over_rest left.now right }
    ensures steps { steps.new ≤ steps.old + 1 }
{
    match right {
        None => *left,
        Some(right) => node_hash(left, &right, steps),
    }
}
