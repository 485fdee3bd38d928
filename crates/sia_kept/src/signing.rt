//! The host's signatures of whole transactions.
ghost use Rattle.std.specs.Prelude.{◌≡◌, [], ◌∷◌, true, IfOk};
ghost use Rattle.sia_kept.specs.Signing.{AreSignedInputs, IsSignedFor, all_covered as all_covered_so, whole_hash as whole_hash_so, whole_signature as whole_signature_so};

use sia_blake::Hash;
use sia_edge::Signer;
use sia_sign::sig_hash;
use sia_types::{Blob, CoinInput, Covered, List, Signature, Transaction};
use std::alloc::{AllocError, Global};

/// The host's signatures for these inputs of a whole transaction without signatures, in order. The error is want of memory.
pub fn sign_inputs<G: Signer>(
    alloc: Global,
    tx: &mut Transaction,
    inputs: &[CoinInput],
    signer: &G,
) -> Result<List<Signature>, AllocError>
    requires { tx.old.signatures ≡ [] }
    ensures signed { IfOk result (AreSignedInputs (G.Makes (G.public_key signer.now)) tx.old inputs.now) }
    ensures same { IfOk result (λ _. tx.new ≡ tx.old) }
{
    let mut signatures = List::new(alloc);
    for input in inputs {
        let signature = sign_for(alloc, tx, &input.parent, 0, signer)?;
        signatures.push(signature)?;
    }
    Ok(signatures)
}

/// The host's signature of a whole transaction without signatures, for what has this identifier, by the key at an index. The
/// transaction stays. The error is want of memory.
pub fn sign_for<G: Signer>(
    alloc: Global,
    tx: &mut Transaction,
    parent: &Hash,
    index: u64,
    signer: &G,
) -> Result<Signature, AllocError>
    requires { tx.old.signatures ≡ [] }
    ensures signed { IfOk result (IsSignedFor (G.Makes (G.public_key signer.now)) tx.old parent.now index) }
    ensures same { IfOk result (λ _. tx.new ≡ tx.old) }
{
    let hash = whole_hash(alloc, tx, parent, index)?;
    let bytes = signer.sign(alloc, &hash)?;
    Ok(whole_signature(alloc, parent, index, bytes))
}

/// What a signature of a whole transaction without signatures signs, for what has this identifier, by the key at an index. The
/// transaction stays. The error is want of memory.
#[tactic(auto, unfolding(sia_sign::specs::SignedText::signed_hash, sia_sign::specs::SignedText::covered_text, sia_sign::specs::SignedText::own_text))]
pub fn whole_hash(
    alloc: Global,
    tx: &mut Transaction,
    parent: &Hash,
    index: u64,
) -> Result<Hash, AllocError>
    requires { tx.old.signatures ≡ [] }
    ensures hash { IfOk result (λ hash. hash ≡ whole_hash_so tx.old parent.now index) }
    ensures same { IfOk result (λ _. tx.new ≡ tx.old) }
{
    tx.signatures
        .push(whole_signature(alloc, parent, index, Blob::new(alloc)))?;
    let hash = sig_hash(alloc, tx, 0)?;
    tx.signatures = List::new(alloc);
    Ok(hash)
}

/// A signature of a whole transaction. It takes no memory.
pub fn whole_signature(alloc: Global, parent: &Hash, index: u64, bytes: Blob) -> Signature
    ensures { result ≡ whole_signature_so parent.now index bytes }
{
    Signature {
        parent: *parent,
        key_index: index,
        timelock: 0,
        covered: all_covered(alloc),
        signature: bytes,
    }
}

// That the whole transaction is covered. It takes no memory.
fn all_covered(alloc: Global) -> Covered
    ensures { result ≡ all_covered_so }
{
    Covered {
        whole: true,
        coin_inputs: List::new(alloc),
        coin_outputs: List::new(alloc),
        contracts: List::new(alloc),
        revisions: List::new(alloc),
        proofs: List::new(alloc),
        fund_inputs: List::new(alloc),
        fund_outputs: List::new(alloc),
        fees: List::new(alloc),
        notes: List::new(alloc),
        signatures: List::new(alloc),
    }
}
