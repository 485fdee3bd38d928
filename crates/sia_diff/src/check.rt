//! Checks a diff against the old root, and computes the new one.
ghost use Rattle.std.specs.Prelude.{◌≡◌, ◌↔◌, IfOk, IfSome, IsSome, IsTrue};
ghost use Rattle.sia_merkle.specs.Computations.{hash_of};
ghost use Rattle.sia_diff.specs.Diffs.{IsDiffOf, new_tree};
ghost use Rattle.sia_diff.specs.DiffSteps.{is_fit};

use crate::chosen::Chosen;
use crate::moving::{hashes_chosen, moved};
use crate::places::touched_by_fit;
use crate::steps::DiffStep;
use sia_blake::Hash;
use sia_cover::{join, joins_to};
use sia_merkle::PlainNodes;
use sia_types::DiffProof;
use std::alloc::{AllocError, Global};

/// The root over a list of hashes after steps that are fit, where `old` is the root over its `n` hashes before them. `None`
/// where the hashes and roots of the proof don't join to the old root, or one is missing or left over. Its error is want
/// of memory.
pub fn check_diff(
    alloc: Global,
    old: &Hash,
    n: u64,
    proof: &DiffProof,
    steps: &[DiffStep],
) -> Result<Option<Hash>, AllocError>
    requires fit { IsTrue (is_fit n steps.now) }
    ensures accepted { IfOk result (λ answer. IsSome answer ↔ IsDiffOf old.now n steps.now proof.now.leaves proof.now.nodes) }
    ensures root { IfOk result (λ answer. IfSome answer (λ root. root ≡ hash_of (new_tree n steps.now proof.now.leaves proof.now.nodes))) }
{
    let touched = touched_by_fit(alloc, n, steps)?;
    let chosen = Chosen {
        old: n,
        touched: touched.as_slice(),
    };
    let leaves = proof.leaves.as_slice();
    let nodes = proof.nodes.as_slice();
    if !joins_to(&chosen, n, &PlainNodes { hashes: leaves }, nodes, old) {
        return Ok(None);
    }
    let hashes = moved(alloc, &chosen, n, leaves, steps)?;
    let count = hashes.len() as u64;
    let inner = hashes_chosen(alloc, &chosen, hashes.as_slice())?;
    let row = PlainNodes {
        hashes: inner.as_slice(),
    };
    Ok(Some(join(&chosen, count, &row, nodes)))
}
