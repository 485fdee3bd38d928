//! What storage proofs must be on what is known before them.
ghost use Rattle.std.specs.Prelude.{◌≡◌, ◌≤◌, ◌<◌, length, None};
ghost use Rattle.sia_encoding.specs.Answer.{Answers, unless};
ghost use Rattle.sia_encoding.specs.Firsts.{first_at};
ghost use Rattle.sia_merkle.specs.Roots.{leaf_count};
ghost use Rattle.sia_rules.specs.Answers.{block_told};
ghost use Rattle.sia_ledger.specs.Known.{state_in};
ghost use Rattle.sia_ledger.specs.Rules.{bad_proof, is_correct as is_correct_of, is_unproved as is_unproved_of, place_to_prove, proof_window};
ghost use Rattle.sia_ledger.specs.State.{next};

use crate::draft::Draft;
use sia_blake::Hash;
use sia_ids::segment_index;
use sia_merkle::{check_leaf, leaves};
use sia_rules::BlockFault;
use sia_types::{StorageProof, Terms};

/// B20: the first storage proof of a contract whose window begins at a later height.
pub(crate) fn check_begun(
    draft: &Draft<'_>,
    t: u64,
    proofs: &[StorageProof],
) -> Result<(), BlockFault>
    ensures { Answers (λ _. tt) block_told result (unless (first_at (proof_window (next (state_in draft.now)) (state_in draft.now).facts t) 0 proofs.now)) }
{
    let height = draft.next();
    for (i, proof) in proofs.iter().enumerate() {
        if let Some(terms) = draft.terms(&proof.parent) {
            if height < terms.start {
                return Err(BlockFault::ProofWindow {
                    t,
                    i: i as u64,
                    start: terms.start,
                });
            }
        }
    }
    Ok(())
}

/// B21: the first storage proof that isn't correct, of a contract that stores something.
pub(crate) fn check_correct(
    draft: &Draft<'_>,
    t: u64,
    proofs: &[StorageProof],
) -> Result<(), BlockFault>
    requires named { 0 < length draft.now.ids }
    requires begun { first_at (proof_window (next (state_in draft.now)) (state_in draft.now).facts t) 0 proofs.now ≡ None }
    ensures { Answers (λ _. tt) block_told result (unless (first_at (bad_proof (state_in draft.now) t) 0 proofs.now)) }
{
    for (i, proof) in proofs.iter().enumerate() {
        if let Some(terms) = draft.terms(&proof.parent) {
            if is_unproved(draft, proof, terms) {
                return Err(BlockFault::BadProof { t, i: i as u64 });
            }
        }
    }
    Ok(())
}

// Whether something is stored, and the proof isn't correct for its place, root and size.
fn is_unproved(draft: &Draft<'_>, proof: &StorageProof, terms: &Terms) -> bool
    requires named { 0 < length draft.now.ids }
    requires begun { terms.now.start ≤ length draft.now.ids }
    ensures { result ≡ is_unproved_of draft.now.ids proof.now terms.now }
{
    if terms.size == 0 {
        return false;
    }
    let place = place_of_leaf(draft, terms, &proof.parent);
    !is_correct(terms, place, proof)
}

// The place of the leaf that a storage proof has to prove.
fn place_of_leaf(draft: &Draft<'_>, terms: &Terms, contract: &Hash) -> u64
    requires named { 0 < length draft.now.ids }
    requires begun { terms.now.start ≤ length draft.now.ids }
    requires stored { 0 < terms.now.size }
    ensures exact { result ≡ place_to_prove draft.now.ids terms.now contract.now }
    ensures below { result < leaf_count terms.now.size }
{
    let count = leaves(terms.size);
    match draft.id_at(terms.start.saturating_sub(1)) {
        Some(trigger) => segment_index(trigger, contract, count),
        None => 0,
    }
}

// Whether the proof is correct for a place, and the contract's root and size.
fn is_correct(terms: &Terms, place: u64, proof: &StorageProof) -> bool
    requires { place < leaf_count terms.now.size }
    ensures { result ≡ is_correct_of terms.now.root terms.now.size place proof.now.leaf proof.now.hashes }
{
    check_leaf(
        &terms.root,
        terms.size,
        place,
        &proof.leaf,
        proof.hashes.as_slice(),
    )
}
