//! What the lists of a transaction must be, whatever the chain.
ghost use Rattle.std.specs.Prelude.{◌≡◌, ◌||◌, ℕ, List as Sequence, map};
ghost use Rattle.std.specs.List.{list_any};
ghost use Rattle.std.specs.Str.{bytes_eq};
ghost use Rattle.sia_encoding.specs.Answer.{Answers, unless};
ghost use Rattle.sia_rules.specs.Answers.{block_told};
ghost use Rattle.sia_rules.specs.Shape.{makes_nothing as makes_nothing_of, coin_parents, fund_parents, revision_parents, proof_parents, names_twice, proof_mix, repeated, shape_fault};

use crate::fault::BlockFault;
use sia_types::{CoinInput, FundInput, List, Revision, StorageProof, Transaction};

/// What names a parent: an input, a revision or a storage proof.
pub trait Naming {
    /// The identifier of its parent.
    ghost named: { Self → Sequence ℕ };

    /// The identifier of its parent.
    fn named(&self) -> &[u8; 32]
        ensures { result.now ≡ named self.now };
}

impl Naming for CoinInput {
    ghost named = { λ input. input.parent };

    fn named(&self) -> &[u8; 32] {
        &self.parent
    }
}

impl Naming for FundInput {
    ghost named = { λ input. input.parent };

    fn named(&self) -> &[u8; 32] {
        &self.parent
    }
}

impl Naming for Revision {
    ghost named = { λ revision. revision.parent };

    fn named(&self) -> &[u8; 32] {
        &self.parent
    }
}

impl Naming for StorageProof {
    ghost named = { λ proof. proof.parent };

    fn named(&self) -> &[u8; 32] {
        &self.parent
    }
}

/// Whether the lists of the transaction at an index of its block may stand together.
///
/// # Errors
/// `ProofMix` exactly where a storage proof stands beside an output, a contract or a revision, then `Repeated` exactly where two
/// entries of one of its lists name one parent. It takes no memory.
pub fn shape(tx: &Transaction, t: u64) -> Result<(), BlockFault>
    ensures { Answers (λ _. tt) block_told result (unless (shape_fault t tx.now)) }
{
    check_mix(tx, t)?;
    check_parents(tx, t)
}

// Whether a storage proof stands beside nothing that makes or revises.
#[tactic(auto, unfolding(crate::specs::Shape::proof_mix))]
fn check_mix(tx: &Transaction, t: u64) -> Result<(), BlockFault>
    ensures { Answers (λ _. tt) block_told result (unless (proof_mix t tx.now)) }
{
    let mixes = tx.proofs.len() != 0 && !makes_nothing(tx);
    if mixes {
        return Err(BlockFault::ProofMix { t });
    }
    Ok(())
}

// Whether no list names a parent twice.
#[tactic(auto, unfolding(crate::specs::Shape::repeated))]
fn check_parents(tx: &Transaction, t: u64) -> Result<(), BlockFault>
    ensures { Answers (λ _. tt) block_told result (unless (repeated t tx.now)) }
{
    if repeats_a_parent(tx) {
        return Err(BlockFault::Repeated { t });
    }
    Ok(())
}

// Whether one of the lists names a parent twice.
fn repeats_a_parent(tx: &Transaction) -> bool
    ensures { result ≡ (names_twice (coin_parents tx.now.coin_inputs) || names_twice (fund_parents tx.now.fund_inputs) || names_twice (revision_parents tx.now.revisions) || names_twice (proof_parents tx.now.proofs)) }
{
    repeats(&tx.coin_inputs)
        || repeats(&tx.fund_inputs)
        || repeats(&tx.revisions)
        || repeats(&tx.proofs)
}

// Whether the list names a parent twice.
fn repeats<T: Naming>(entries: &List<T>) -> bool
    ensures { result ≡ names_twice (map T.named entries.now) }
{
    names_one_twice(entries.as_slice())
}

// Whether it makes no output or contract, and revises none.
fn makes_nothing(tx: &Transaction) -> bool
    ensures { result ≡ makes_nothing_of tx.now }
{
    tx.coin_outputs.len() == 0
        && tx.fund_outputs.len() == 0
        && tx.contracts.len() == 0
        && tx.revisions.len() == 0
}

// Whether two of them name one parent.
fn names_one_twice<T: Naming>(entries: &[T]) -> bool
    ensures { result ≡ names_twice (map T.named entries.now) }
{
    for (i, entry) in entries.iter().enumerate() {
        if is_named(&entries[i + 1..], entry.named()) {
            return true;
        }
    }
    false
}

// Whether one of them names this parent.
fn is_named<T: Naming>(entries: &[T], parent: &[u8; 32]) -> bool
    ensures { result ≡ list_any (bytes_eq parent.now) (map T.named entries.now) }
{
    for entry in entries {
        if *parent == *entry.named() {
            return true;
        }
    }
    false
}
