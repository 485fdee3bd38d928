//! Checks a range against a root: it is joined with the roots of a proof.
ghost use Rattle.std.specs.Prelude.{◌≡◌, ◌<◌, ◌≤◌, ◌-◌, ◌↔◌, IsSome, length, map};
ghost use Rattle.sia_merkle.specs.Computations.Tree.{Given, Leaf};
ghost use Rattle.sia_merkle.specs.Roots.{leaf_count, leaves_of};
ghost use Rattle.sia_range.specs.Ranges.{IsRangeProof};

use crate::between::Between;
use crate::leaf_nodes::LeafNodes;
use sia_blake::Hash;
use sia_cover::joins_to;
use sia_merkle::PlainNodes;

/// Checks that the leaves of `bytes` stand at the places from `a` to `b` of the `n` leaves under a root. `None` where
/// they don't join to the root with the hashes, or a hash is missing or left over. It takes no memory.
pub fn check_range(root: &Hash, n: u64, a: u64, b: u64, bytes: &[u8], hashes: &[Hash]) -> Option<()>
    requires some { a < b }
    requires within { b ≤ n }
    requires leaves { leaf_count (length bytes.now) ≡ b - a }
    ensures { IsSome result ↔ IsRangeProof root.now n a b (map Leaf (leaves_of bytes.now)) hashes.now }
{
    let places = Between { start: a, end: b };
    if joins_to(&places, n, &LeafNodes { bytes }, hashes, root) {
        Some(())
    } else {
        None
    }
}

/// Checks that hashes stand at the places from `a` to `b` of the `n` hashes under a root. `None` where they don't join
/// to the root with the proof's hashes, or one of these is missing or left over. It takes no memory.
pub fn check_nodes(
    root: &Hash,
    n: u64,
    a: u64,
    b: u64,
    roots: &[Hash],
    hashes: &[Hash],
) -> Option<()>
    requires some { a < b }
    requires within { b ≤ n }
    requires roots { length roots.now ≡ b - a }
    ensures { IsSome result ↔ IsRangeProof root.now n a b (map Given roots.now) hashes.now }
{
    let places = Between { start: a, end: b };
    if joins_to(&places, n, &PlainNodes { hashes: roots }, hashes, root) {
        Some(())
    } else {
        None
    }
}
