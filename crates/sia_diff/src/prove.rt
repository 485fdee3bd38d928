//! Makes the proof of a diff: the old hashes at the touched places, and the roots of the subtrees that cover all others.
ghost use Rattle.std.specs.Prelude.{◌≡◌, ◌<◌, [], ℕ, IfOk, IsTrue, length, map, slice_index, slice_index_or};
ghost use Rattle.sia_diff.specs.Diffs.{own_leaves, own_nodes};
ghost use Rattle.sia_diff.specs.DiffSteps.{is_fit};

use crate::chosen::Chosen;
use crate::places::touched_by_fit;
use crate::steps::DiffStep;
use sia_blake::Hash;
use sia_cover::{Others, cover_roots};
use sia_encoding::List;
use sia_merkle::Nodes;
use sia_types::DiffProof;
use std::alloc::{AllocError, Global};

/// The proof of a diff from a list of hashes, by steps that are fit: the hashes at the touched places, in ascending order,
/// and the roots of the largest subtrees that hold untouched places alone, from left to right. Its error is want of
/// memory.
pub fn prove_diff<N: Nodes>(
    alloc: Global,
    nodes: &N,
    steps: &[DiffStep],
) -> Result<DiffProof, AllocError>
    requires fit { IsTrue (is_fit (length (N.hashes nodes.now)) steps.now) }
    ensures leaves { IfOk result (λ proof. proof.leaves ≡ own_leaves (N.hashes nodes.now) steps.now) }
    ensures nodes { IfOk result (λ proof. proof.nodes ≡ own_nodes (N.hashes nodes.now) steps.now) }
{
    let n = nodes.count();
    let touched = touched_by_fit(alloc, n, steps)?;
    let leaves = hashes_of(alloc, nodes, touched.as_slice())?;
    let chosen = Chosen {
        old: n,
        touched: touched.as_slice(),
    };
    let roots = cover_roots(alloc, nodes, &Others(&chosen))?;
    Ok(DiffProof {
        leaves,
        nodes: roots,
    })
}

/// The hashes at these places.
fn hashes_of<N: Nodes>(alloc: Global, nodes: &N, places: &[u64]) -> Result<List<Hash>, AllocError>
    requires { (k : ℕ) → k < length places.now → slice_index places.now k < length (N.hashes nodes.now) }
    ensures { IfOk result (λ hashes. hashes ≡ map (λ place. slice_index_or (N.hashes nodes.now) place []) places.now) }
{
    let mut hashes = List::new(alloc);
    for place in places {
        let hash = nodes.node(0, *place);
        hashes.push(hash)?;
    }
    Ok(hashes)
}
