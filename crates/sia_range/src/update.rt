//! The root of a tree after part of it was replaced.
ghost use Rattle.std.specs.Prelude.{◌≡◌, ◌<◌, ◌≤◌, ◌-◌, ◌↔◌, IsSome, IfSome, length, map};
ghost use Rattle.sia_merkle.specs.Computations.{hash_of};
ghost use Rattle.sia_merkle.specs.Computations.Tree.{Leaf};
ghost use Rattle.sia_merkle.specs.Roots.{leaf_count, leaves_of};
ghost use Rattle.sia_range.specs.Ranges.{IsUpdateOf, range_tree};

use crate::between::Between;
use crate::leaf_nodes::LeafNodes;
use sia_blake::Hash;
use sia_cover::{join, segments_join_to};
use sia_types::UpdateProof;

/// The root of `n` leaves after those at the places from `a` to `b` are replaced by the leaves of `bytes`. `None` where the
/// roots of the proof don't join to the old root, or one is missing or left over. It takes no memory.
pub fn root_after_update(
    old: &Hash,
    n: u64,
    a: u64,
    b: u64,
    proof: &UpdateProof,
    bytes: &[u8],
) -> Option<Hash>
    requires some { a < b }
    requires within { b ≤ n }
    requires leaves { leaf_count (length bytes.now) ≡ b - a }
    ensures accepted { IsSome result ↔ IsUpdateOf old.now n a b proof.now.inner proof.now.outer }
    ensures root { IfSome result (λ root. root ≡ hash_of (range_tree n a b (map Leaf (leaves_of bytes.now)) proof.now.outer)) }
{
    let places = Between { start: a, end: b };
    let outer = proof.outer.as_slice();
    if !segments_join_to(&places, n, proof.inner.as_slice(), outer, old) {
        return None;
    }
    Some(join(&places, n, &LeafNodes { bytes }, outer))
}
