//! Where nodes are kept.
ghost use Rattle.std.specs.Prelude.{◌≡◌, ◌+◌, ◌*◌, ◌^◌, ◌<◌, ◌≤◌, length};
ghost use Rattle.sia_encoding.specs.declared.limits.TheConstants.{CONTRACT_SECTORS};
ghost use Rattle.sia_roottree.specs.KeptNodes.{kept_root, node_place as place_of_node};

use sia_blake::Hash;
use sia_merkle::power;

/// The height of a tree of as many hashes as there can be, 2^16.
pub(crate) const TREE_HEIGHT: u32 = 16;

/// The place of the node over two halves of height `below`.
pub(crate) fn node_place(below: u32, index: usize) -> usize
    requires { (index + 1) * 2 ^ (below + 1) ≤ CONTRACT_SECTORS }
    ensures place { result ≡ place_of_node below index }
    ensures inside { result < (index + 1) * 2 ^ (below + 1) }
{
    (2 * index + 1) * power(below) as usize - 1
}

/// The root that is kept of the 2^`level` hashes from `index` * 2^`level` on.
pub(crate) fn kept(hashes: &[Hash], nodes: &[Hash], level: u32, index: usize) -> Hash
    requires within { (index + 1) * 2 ^ level ≤ length hashes.now }
    requires few { length hashes.now ≤ CONTRACT_SECTORS }
    requires nodes { length nodes.now ≡ length hashes.now }
    ensures { result ≡ kept_root hashes.now nodes.now level index }
{
    if level == 0 {
        hashes[index]
    } else {
        nodes[node_place(level - 1, index)]
    }
}
