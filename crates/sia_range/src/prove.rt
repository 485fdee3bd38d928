//! Makes the proof of a range: the roots of the subtrees that cover all other places.
ghost use Rattle.std.specs.Prelude.{◌≡◌, ◌<◌, ◌≤◌, IfOk, length, map};
ghost use Rattle.sia_merkle.specs.Roots.{leaf_count, leaf_digest, leaves_of};
ghost use Rattle.sia_range.specs.Ranges.{roots_inside, roots_outside};

use crate::between::Between;
use crate::leaf_nodes::LeafNodes;
use sia_blake::Hash;
use sia_cover::{Others, cover_roots};
use sia_encoding::List;
use sia_merkle::Nodes;
use sia_types::UpdateProof;
use std::alloc::{AllocError, Global};

/// The proof of the leaves at the places from `a` to `b` of a byte string: the roots of the largest subtrees that cover
/// all other places, from left to right. Its error is want of memory.
pub fn prove_range(alloc: Global, bytes: &[u8], a: u64, b: u64) -> Result<List<Hash>, AllocError>
    requires some { a < b }
    requires within { b ≤ leaf_count (length bytes.now) }
    ensures { IfOk result (λ hashes. hashes ≡ roots_outside (map leaf_digest (leaves_of bytes.now)) (leaf_count (length bytes.now)) a b) }
{
    prove_nodes(alloc, &LeafNodes { bytes }, a, b)
}

/// The same for the hashes at the places from `a` to `b` of a list of hashes.
pub fn prove_nodes<N: Nodes>(
    alloc: Global,
    nodes: &N,
    a: u64,
    b: u64,
) -> Result<List<Hash>, AllocError>
    requires some { a < b }
    requires within { b ≤ length (N.hashes nodes.now) }
    ensures { IfOk result (λ hashes. hashes ≡ roots_outside (N.hashes nodes.now) (length (N.hashes nodes.now)) a b) }
{
    cover_roots(alloc, nodes, &Others(&Between { start: a, end: b }))
}

/// The proof of an update of the leaves at the places from `a` to `b` of a byte string: the roots of the largest subtrees
/// that cover these places, and those of the subtrees that cover all others. Its error is want of memory.
pub fn prove_update(alloc: Global, bytes: &[u8], a: u64, b: u64) -> Result<UpdateProof, AllocError>
    requires some { a < b }
    requires within { b ≤ leaf_count (length bytes.now) }
    ensures inner { IfOk result (λ proof. proof.inner ≡ roots_inside (map leaf_digest (leaves_of bytes.now)) (leaf_count (length bytes.now)) a b) }
    ensures outer { IfOk result (λ proof. proof.outer ≡ roots_outside (map leaf_digest (leaves_of bytes.now)) (leaf_count (length bytes.now)) a b) }
{
    let nodes = LeafNodes { bytes };
    let places = Between { start: a, end: b };
    let inner = cover_roots(alloc, &nodes, &places)?;
    let outer = cover_roots(alloc, &nodes, &Others(&places))?;
    Ok(UpdateProof { inner, outer })
}
