//! What a transaction does with file contracts: it forms and revises them.
ghost use Rattle.std.specs.Prelude.{◌≡◌, IfOk, OnOk};
ghost use Rattle.sia_ledger.specs.Effects.{formed, revised, with_contracts, with_revision, with_revisions};
ghost use Rattle.sia_ledger.specs.Known.{state_in};

use crate::draft::Draft;
use crate::fact::{Deed, Fact};
use sia_ids::contract_ids;
use sia_types::{FileContract, Revision, Terms, Transaction};
use std::alloc::{AllocError, Global};

/// The contracts are formed.
#[tactic(auto, unfolding(crate::specs::Effects::with_contracts))]
pub(crate) fn form_contracts(
    alloc: Global,
    draft: &mut Draft<'_>,
    tx: &Transaction,
) -> Result<(), AllocError>
    ensures done { OnOk result (state_in draft.new ≡ with_contracts tx.now (state_in draft.old)) }
    ensures kept { draft.new.kept ≡ draft.old.kept }
    ensures ids { draft.new.ids ≡ draft.old.ids }
{
    if tx.contracts.is_empty() {
        return Ok(());
    }
    let ids = contract_ids(alloc, tx)?;
    for (index, contract) in tx.contracts.as_slice().iter().enumerate() {
        let id = ids.id(index as u64);
        let terms = terms_formed(alloc, contract)?;
        draft.add(Fact {
            id,
            deed: Deed::Formed(terms),
        })?;
    }
    Ok(())
}

/// The contracts are revised.
#[tactic(auto, unfolding(crate::specs::Effects::with_revisions))]
pub(crate) fn revise_contracts(
    alloc: Global,
    draft: &mut Draft<'_>,
    tx: &Transaction,
) -> Result<(), AllocError>
    ensures done { OnOk result (state_in draft.new ≡ with_revisions tx.now (state_in draft.old)) }
    ensures kept { draft.new.kept ≡ draft.old.kept }
    ensures ids { draft.new.ids ≡ draft.old.ids }
{
    for revision in tx.revisions.as_slice() {
        revise_contract(alloc, draft, revision)?;
    }
    Ok(())
}

// A running contract is revised; where it doesn't run, nothing happens.
fn revise_contract(
    alloc: Global,
    draft: &mut Draft<'_>,
    revision: &Revision,
) -> Result<(), AllocError>
    ensures done { OnOk result (state_in draft.new ≡ with_revision (state_in draft.old) revision.now) }
    ensures kept { draft.new.kept ≡ draft.old.kept }
    ensures ids { draft.new.ids ≡ draft.old.ids }
{
    let terms = match draft.terms(&revision.parent) {
        None => return Ok(()),
        Some(terms) => terms_revised(alloc, terms, revision)?,
    };
    let id = revision.parent;
    draft.add(Fact {
        id,
        deed: Deed::Revised(terms),
    })
}

// The terms of a new contract.
fn terms_formed(alloc: Global, contract: &FileContract) -> Result<Terms, AllocError>
    ensures { IfOk result (λ terms. terms ≡ formed contract.now) }
{
    let (root, address) = (contract.root, contract.address);
    Ok(Terms {
        payout: contract.payout,
        number: contract.number,
        size: contract.size,
        root,
        start: contract.start,
        end: contract.end,
        valid: contract.valid.copy(alloc)?,
        missed: contract.missed.copy(alloc)?,
        address,
    })
}

// The terms of a contract after a revision.
fn terms_revised(alloc: Global, terms: &Terms, revision: &Revision) -> Result<Terms, AllocError>
    ensures { IfOk result (λ after. after ≡ revised terms.now revision.now) }
{
    let (root, address) = (revision.root, revision.address);
    Ok(Terms {
        payout: terms.payout,
        number: revision.number,
        size: revision.size,
        root,
        start: revision.start,
        end: revision.end,
        valid: revision.valid.copy(alloc)?,
        missed: revision.missed.copy(alloc)?,
        address,
    })
}
