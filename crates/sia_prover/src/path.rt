//! The way from a hash of a list up to the root over the list.
ghost use Rattle.std.specs.Prelude.{◌≡◌, ◌+◌, ◌-◌, ◌*◌, ◌^◌, ◌<◌, ◌≤◌, ◌++◌, ℕ, OnOk, length, take, drop};
ghost use Rattle.sia_merkle.specs.Paths.{hashes_beside, leaf_proof};
ghost use Rattle.sia_merkle.specs.Roots.{tree_root};

use sia_blake::Hash;
use sia_encoding::List;
use sia_merkle::{HEIGHT, Nodes, node, power};
use std::alloc::AllocError;

/// Appends the hashes beside the path of a place, upwards, in the tree over a list of hashes. Its error is want of memory.
pub(crate) fn append_path<N: Nodes>(
    hashes: &mut List<Hash>,
    nodes: &N,
    place: u64,
) -> Result<(), AllocError>
    requires { place < length (N.hashes nodes.now) }
    ensures { OnOk result (hashes.new ≡ hashes.old ++ leaf_proof (N.hashes nodes.now) place) }
{
    // That the count fits 64 bits bounds the height.
    let _count = nodes.count();
    append_beside(hashes, nodes, HEIGHT, 0, place)
}

/// The same among the 2^`height` hashes from `low` on, of which the last ones may be missing.
fn append_beside<N: Nodes>(
    hashes: &mut List<Hash>,
    nodes: &N,
    height: u32,
    low: u64,
    place: u64,
) -> Result<(), AllocError>
    requires height { height ≤ 64 }
    requires from { low ≤ place }
    requires place { place < length (N.hashes nodes.now) }
    ensures { (index : ℕ) → low ≡ index * 2 ^ height → OnOk result (hashes.new ≡ hashes.old ++ hashes_beside height (take (2 ^ height) (drop low (N.hashes nodes.now))) (place - low)) }
{
    if height == 0 {
        return Ok(());
    }
    let half = power(height - 1);
    if nodes.count() - low <= half {
        return append_beside(hashes, nodes, height - 1, low, place);
    }
    if place - low < half {
        append_beside(hashes, nodes, height - 1, low, place)?;
        hashes.push(part_root(nodes, height - 1, low + half))?;
    } else {
        append_beside(hashes, nodes, height - 1, low + half, place)?;
        hashes.push(nodes.node(height - 1, low / half))?;
    }
    Ok(())
}

/// The root over the 2^`height` hashes from `low` on, of which the last ones may be missing.
fn part_root<N: Nodes>(nodes: &N, height: u32, low: u64) -> Hash
    requires height { height < 64 }
    requires low { low < length (N.hashes nodes.now) }
    ensures { (index : ℕ) → low ≡ index * 2 ^ height → result ≡ tree_root height (take (2 ^ height) (drop low (N.hashes nodes.now))) }
{
    let rest = nodes.count() - low;
    let width = power(height);
    if width <= rest {
        return nodes.node(height, low / width);
    }
    let half = power(height - 1);
    if rest <= half {
        return part_root(nodes, height - 1, low);
    }
    let left = nodes.node(height - 1, low / half);
    let right = part_root(nodes, height - 1, low + half);
    node(&left, &right)
}
