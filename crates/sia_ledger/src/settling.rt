//! Settling contracts: with a storage proof, or at the end of their window without one.
ghost use Rattle.std.specs.Prelude.{◌≡◌, ◌+◌, ◌<◌, ◌^◌, if◌then◌else◌, false, fold, IfOk, OnOk};
ghost use Rattle.sia_ledger.specs.Blocks.{with_missed};
ghost use Rattle.sia_ledger.specs.Effects.{settled, settlement_facts, with_proofs};
ghost use Rattle.sia_ledger.specs.Known.{state_in};
ghost use Rattle.sia_ledger.specs.State.{add_all, next};

use crate::draft::Draft;
use crate::fact::{Deed, Fact};
use sia_blake::Hash;
use sia_encoding::List;
use sia_ids::settle_id;
use sia_types::{CoinOutput, Terms, Transaction};
use std::alloc::{AllocError, Global};

/// The contracts with storage proofs are settled; their outputs rest for the maturity.
#[tactic(auto, unfolding(crate::specs::Effects::with_proofs))]
pub(crate) fn settle_proved(
    alloc: Global,
    draft: &mut Draft<'_>,
    maturity: u64,
    tx: &Transaction,
) -> Result<(), AllocError>
    requires room { next (state_in draft.old) + maturity < 2 ^ 64 }
    ensures done { OnOk result (state_in draft.new ≡ with_proofs maturity tx.now (state_in draft.old)) }
    ensures kept { draft.new.kept ≡ draft.old.kept }
    ensures ids { draft.new.ids ≡ draft.old.ids }
{
    let from = draft.next() + maturity;
    for proof in tx.proofs.as_slice() {
        settle(alloc, draft, from, true, &proof.parent)?;
    }
    Ok(())
}

/// The contracts that end at the next height are settled as missed; their outputs rest for the maturity.
#[tactic(auto, unfolding(crate::specs::Blocks::with_missed))]
pub(crate) fn settle_missed(
    alloc: Global,
    draft: &mut Draft<'_>,
    maturity: u64,
) -> Result<(), AllocError>
    requires room { next (state_in draft.old) + maturity < 2 ^ 64 }
    ensures done { OnOk result (state_in draft.new ≡ with_missed maturity (state_in draft.old)) }
    ensures kept { draft.new.kept ≡ draft.old.kept }
    ensures ids { draft.new.ids ≡ draft.old.ids }
{
    let from = draft.next() + maturity;
    let ended = draft.ending(alloc, draft.next())?;
    settle_each(alloc, draft, from, &ended)
}

// Settles running contracts as missed, one after another.
fn settle_each(
    alloc: Global,
    draft: &mut Draft<'_>,
    from: u64,
    contracts: &List<Hash>,
) -> Result<(), AllocError>
    ensures done { OnOk result (state_in draft.new ≡ fold (settled from false) (state_in draft.old) contracts.now) }
    ensures kept { draft.new.kept ≡ draft.old.kept }
    ensures ids { draft.new.ids ≡ draft.old.ids }
{
    for contract in contracts.as_slice() {
        settle(alloc, draft, from, false, contract)?;
    }
    Ok(())
}

// Settles a running contract; where it doesn't run, nothing happens.
fn settle(
    alloc: Global,
    draft: &mut Draft<'_>,
    from: u64,
    valid: bool,
    contract: &Hash,
) -> Result<(), AllocError>
    ensures done { OnOk result (state_in draft.new ≡ settled from valid (state_in draft.old) contract.now) }
    ensures kept { draft.new.kept ≡ draft.old.kept }
    ensures ids { draft.new.ids ≡ draft.old.ids }
{
    let outputs = match draft.terms(contract) {
        None => return Ok(()),
        Some(terms) => outputs_of(alloc, terms, valid)?,
    };
    let id = *contract;
    draft.add(Fact {
        id,
        deed: Deed::Settled { valid },
    })?;
    pay_out(draft, from, contract, valid, outputs.as_slice())
}

// The outputs that are paid.
fn outputs_of(alloc: Global, terms: &Terms, valid: bool) -> Result<List<CoinOutput>, AllocError>
    ensures { IfOk result (λ outputs. outputs ≡ (if valid then terms.now.valid else terms.now.missed)) }
{
    if valid {
        return terms.valid.copy(alloc);
    }
    terms.missed.copy(alloc)
}

// Makes the outputs of a settled contract, but those of value 0.
fn pay_out(
    draft: &mut Draft<'_>,
    from: u64,
    contract: &Hash,
    valid: bool,
    outputs: &[CoinOutput],
) -> Result<(), AllocError>
    ensures done { OnOk result (state_in draft.new ≡ add_all (state_in draft.old) (settlement_facts from contract.now valid 0 outputs.now)) }
    ensures kept { draft.new.kept ≡ draft.old.kept }
    ensures ids { draft.new.ids ≡ draft.old.ids }
{
    for (index, output) in outputs.iter().enumerate() {
        if output.value != 0 {
            let id = settle_id(contract, valid, index as u64);
            let output = *output;
            draft.add(Fact {
                id,
                deed: Deed::Coin { output, from },
            })?;
        }
    }
    Ok(())
}
