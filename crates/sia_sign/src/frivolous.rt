//! Signatures that serve for nothing.
ghost use Rattle.std.specs.Prelude.{◌≡◌};
ghost use Rattle.std.specs.List.{list_any};
ghost use Rattle.sia_sign.specs.Frivolous.{ascends, is_by_same_key, is_frivolous as is_frivolous_under, names_elements, names_no_part};

use crate::needs::count_signatures;
use sia_types::{Covered, Signature, Transaction, UnlockConditions};

/// Whether a signature serves for nothing, where these stand before it and its need has these conditions.
#[tactic(auto, unfolding(crate::specs::Frivolous::is_frivolous))]
pub fn is_frivolous(
    tx: &Transaction,
    earlier: &[Signature],
    conditions: &UnlockConditions,
    signature: &Signature,
) -> bool
    ensures { result ≡ is_frivolous_under tx.now earlier.now conditions.now signature.now }
{
    conditions.keys.len() as u64 <= signature.key_index
        || signed_before(earlier, signature)
        || !has_elements(tx, &signature.covered)
        || (signature.covered.whole && !has_no_part(&signature.covered))
        || conditions.required <= count_signatures(earlier, &signature.parent) as u64
}

// Whether one of these is by the signature's key, for its parent.
fn signed_before(earlier: &[Signature], signature: &Signature) -> bool
    ensures { result ≡ list_any (is_by_same_key signature.now) earlier.now }
{
    earlier.iter().any(|other| other.parent == signature.parent
        && other.key_index == signature.key_index)
}

// Whether each covered list names elements of its list in ascending order.
#[tactic(auto, unfolding(crate::specs::Frivolous::names_elements))]
fn has_elements(tx: &Transaction, covered: &Covered) -> bool
    ensures { result ≡ names_elements tx.now covered.now }
{
    rises(covered.coin_inputs.as_slice(), tx.coin_inputs.len())
        && rises(covered.coin_outputs.as_slice(), tx.coin_outputs.len())
        && rises(covered.contracts.as_slice(), tx.contracts.len())
        && rises(covered.revisions.as_slice(), tx.revisions.len())
        && rises(covered.proofs.as_slice(), tx.proofs.len())
        && rises(covered.fund_inputs.as_slice(), tx.fund_inputs.len())
        && rises(covered.fund_outputs.as_slice(), tx.fund_outputs.len())
        && rises(covered.fees.as_slice(), tx.fees.len())
        && rises(covered.notes.as_slice(), tx.notes.len())
        && rises(covered.signatures.as_slice(), tx.signatures.len())
}

// Whether no list but that of the signatures names an element.
#[tactic(auto, unfolding(crate::specs::Frivolous::names_no_part))]
fn has_no_part(covered: &Covered) -> bool
    ensures { result ≡ names_no_part covered.now }
{
    covered.coin_inputs.is_empty()
        && covered.coin_outputs.is_empty()
        && covered.contracts.is_empty()
        && covered.revisions.is_empty()
        && covered.proofs.is_empty()
        && covered.fund_inputs.is_empty()
        && covered.fund_outputs.is_empty()
        && covered.fees.is_empty()
        && covered.notes.is_empty()
}

// Whether these are indices below a count, each above the one before it.
fn rises(indices: &[u64], count: usize) -> bool
    ensures { result ≡ ascends 0 count indices.now }
{
    let mut least = 0;
    for index in indices {
        if *index < least || count as u64 <= *index {
            return false;
        }
        least = *index + 1;
    }
    true
}
