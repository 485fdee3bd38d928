//! The first fault of a transaction's signatures.
ghost use Rattle.std.specs.Prelude.{◌≡◌, ◌<◌, length, map, take};
ghost use Rattle.sia_encoding.specs.Answer.{Answers, unless};
ghost use Rattle.sia_encoding.specs.Firsts.{first_at};
ghost use Rattle.sia_sign.specs.Needs.{needs};
ghost use Rattle.sia_sign.specs.Faults.{fault_under, key_at, lacks, missing_fault, sig_told, signature_fault, signatures_fault};

use crate::frivolous::is_frivolous;
use crate::needs::{Locked, conditions_for, count_signatures};
use crate::signed::hash_signed;
use sia_edge::SigCheck;
use sia_encoding::List;
use sia_types::{SigFault, Signature, Transaction, UnlockConditions};
use std::alloc::Global;

/// Whether a transaction is signed, in a block at a height, as the check judges signatures.
///
/// # Errors
/// Exactly the first fault: for each signature in order that it is frivolous (it is for no need, no key has its index, an earlier
/// one is by its key, a covered list doesn't ascend within its list, it covers everything and yet names a part, or its need has
/// enough signatures), that its timelock is above the height, or that the check refuses it; then the first need, of the siacoin
/// inputs, revisions and siafund inputs, that has too few. Or want of memory.
#[tactic(auto, unfolding(crate::specs::Faults::signatures_fault))]
pub fn check_signatures<C: SigCheck>(
    alloc: Global,
    tx: &Transaction,
    height: u64,
    check: &C,
) -> Result<(), SigFault>
    ensures { Answers (λ _. tt) sig_told result (unless (signatures_fault C.verdict height tx.now)) }
{
    check_each(alloc, tx, height, check)?;
    check_needs(tx)
}

// The first signature that has a fault.
fn check_each<C: SigCheck>(
    alloc: Global,
    tx: &Transaction,
    height: u64,
    check: &C,
) -> Result<(), SigFault>
    ensures { Answers (λ _. tt) sig_told result (unless (first_at (signature_fault C.verdict height tx.now) 0 tx.now.signatures)) }
{
    let signatures = tx.signatures.as_slice();
    for (i, signature) in signatures.iter().enumerate() {
        check_one(alloc, tx, height, check, i, signature)?;
    }
    Ok(())
}

// The fault of the signature at an index.
#[tactic(auto, unfolding(crate::specs::Faults::signature_fault))]
fn check_one<C: SigCheck>(
    alloc: Global,
    tx: &Transaction,
    height: u64,
    check: &C,
    i: usize,
    signature: &Signature,
) -> Result<(), SigFault>
    requires { i < length tx.now.signatures }
    ensures { Answers (λ _. tt) sig_told result (unless (signature_fault C.verdict height tx.now i signature.now)) }
{
    match conditions_for(tx, &signature.parent) {
        None => Err(SigFault::Frivolous { i: i as u64 }),
        Some(conditions) => check_under(alloc, tx, height, check, i, signature, conditions),
    }
}

// The fault of the signature at an index, whose need has these conditions.
#[tactic(auto, unfolding(crate::specs::Faults::fault_under))]
fn check_under<C: SigCheck>(
    alloc: Global,
    tx: &Transaction,
    height: u64,
    check: &C,
    i: usize,
    signature: &Signature,
    conditions: &UnlockConditions,
) -> Result<(), SigFault>
    requires { i < length tx.now.signatures }
    ensures { Answers (λ _. tt) sig_told result (unless (fault_under C.verdict height tx.now (take i tx.now.signatures) i signature.now conditions.now)) }
{
    if is_frivolous(tx, &tx.signatures.as_slice()[..i], conditions, signature) {
        return Err(SigFault::Frivolous { i: i as u64 });
    }
    if height < signature.timelock {
        return Err(SigFault::Timelock { i: i as u64 });
    }
    let hash = hash_signed(alloc, tx, signature)?;
    if !check.accepts(
        key_bytes(conditions, signature.key_index),
        &hash,
        signature.signature.as_slice(),
    ) {
        return Err(SigFault::BadSig { i: i as u64 });
    }
    Ok(())
}

// The bytes of the key at an index, and none past the end.
fn key_bytes(conditions: &UnlockConditions, index: u64) -> &[u8]
    ensures { result.now ≡ key_at conditions.now index }
{
    let Some(key) = conditions.keys.get(index as usize) else {
        return &[];
    };
    key.key.as_slice()
}

// The first need that isn't met.
fn check_needs(tx: &Transaction) -> Result<(), SigFault>
    ensures { Answers (λ _. tt) sig_told result (unless (first_at (missing_fault tx.now.signatures) 0 (needs tx.now))) }
{
    let coins = tx.coin_inputs.len() as u64;
    let revisions = tx.revisions.len() as u64;
    check_list(&tx.coin_inputs, 0, &tx.signatures)?;
    check_list(&tx.revisions, coins, &tx.signatures)?;
    check_list(
        &tx.fund_inputs,
        coins.saturating_add(revisions),
        &tx.signatures,
    )
}

// The first of these that isn't met; the first has this index.
fn check_list<T: Locked>(
    all: &List<T>,
    first: u64,
    signatures: &List<Signature>,
) -> Result<(), SigFault>
    ensures { Answers (λ _. tt) sig_told result (unless (first_at (missing_fault signatures.now) first (map T.need all.now))) }
{
    check_met(all.as_slice(), first, signatures.as_slice())
}

// The first of these that isn't met; the first has this index.
fn check_met<T: Locked>(all: &[T], first: u64, signatures: &[Signature]) -> Result<(), SigFault>
    ensures { Answers (λ _. tt) sig_told result (unless (first_at (missing_fault signatures.now) first (map T.need all.now))) }
{
    for (i, locked) in all.iter().enumerate() {
        if has_too_few(locked, signatures) {
            return Err(SigFault::MissingSig {
                i: first.saturating_add(i as u64),
            });
        }
    }
    Ok(())
}

// Whether this has fewer of the signatures than it requires.
fn has_too_few<T: Locked>(locked: &T, signatures: &[Signature]) -> bool
    ensures { result ≡ lacks signatures.now (T.need locked.now) }
{
    (count_signatures(signatures, locked.parent()) as u64) < locked.conditions().required
}
