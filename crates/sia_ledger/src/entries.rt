//! What the entries of a transaction's lists must be on what is known before it: each call finds the first that breaks a rule.
ghost use Rattle.std.specs.Prelude.{◌≡◌};
ghost use Rattle.sia_encoding.specs.Answer.{Answers, unless};
ghost use Rattle.sia_encoding.specs.Firsts.{first_at};
ghost use Rattle.sia_rules.specs.Answers.{block_told};
ghost use Rattle.sia_rules.specs.FileContracts.{form_sum as form_sum_fault, form_window as form_window_fault};
ghost use Rattle.sia_ledger.specs.Known.{state_in};
ghost use Rattle.sia_ledger.specs.Rules.{immature_coin, no_coin, no_fund, rev_number, rev_sum, rev_window, unprovable, unrevisable};
ghost use Rattle.sia_ledger.specs.State.{next};

use crate::draft::Draft;
use sia_rules::{
    BlockFault, form_sum, form_window, revision_number, revision_sum, revision_window,
};
use sia_types::{CoinInput, FileContract, FundInput, Revision, StorageProof};

/// B9: the first siacoin input that names no live siacoin output.
pub(crate) fn check_coins(draft: &Draft<'_>, t: u64, inputs: &[CoinInput]) -> Result<(), BlockFault>
    ensures { Answers (λ _. tt) block_told result (unless (first_at (no_coin (state_in draft.now).facts t) 0 inputs.now)) }
{
    for (i, input) in inputs.iter().enumerate() {
        if draft.coin(&input.parent).is_none() {
            return Err(BlockFault::NoCoin { t, i: i as u64 });
        }
    }
    Ok(())
}

/// B10: the first siacoin input that names an output that can't be spent yet.
pub(crate) fn check_mature(
    draft: &Draft<'_>,
    t: u64,
    inputs: &[CoinInput],
) -> Result<(), BlockFault>
    ensures { Answers (λ _. tt) block_told result (unless (first_at (immature_coin (next (state_in draft.now)) (state_in draft.now).facts t) 0 inputs.now)) }
{
    let height = draft.next();
    for (i, input) in inputs.iter().enumerate() {
        if let Some((_, from)) = draft.coin(&input.parent) {
            if height < from {
                return Err(BlockFault::Immature {
                    t,
                    i: i as u64,
                    at: from,
                });
            }
        }
    }
    Ok(())
}

/// B11: the first revision that names no running contract.
pub(crate) fn check_revised(
    draft: &Draft<'_>,
    t: u64,
    revisions: &[Revision],
) -> Result<(), BlockFault>
    ensures { Answers (λ _. tt) block_told result (unless (first_at (unrevisable (state_in draft.now).facts t) 0 revisions.now)) }
{
    for (i, revision) in revisions.iter().enumerate() {
        if draft.terms(&revision.parent).is_none() {
            return Err(BlockFault::NoContract { t, i: i as u64 });
        }
    }
    Ok(())
}

/// B11: the first storage proof that names no running contract.
pub(crate) fn check_proved(
    draft: &Draft<'_>,
    t: u64,
    proofs: &[StorageProof],
) -> Result<(), BlockFault>
    ensures { Answers (λ _. tt) block_told result (unless (first_at (unprovable (state_in draft.now).facts t) 0 proofs.now)) }
{
    for (i, proof) in proofs.iter().enumerate() {
        if draft.terms(&proof.parent).is_none() {
            return Err(BlockFault::NoContract { t, i: i as u64 });
        }
    }
    Ok(())
}

/// B12: the first siafund input that names no live siafund output.
pub(crate) fn check_funds(draft: &Draft<'_>, t: u64, inputs: &[FundInput]) -> Result<(), BlockFault>
    ensures { Answers (λ _. tt) block_told result (unless (first_at (no_fund (state_in draft.now).facts t) 0 inputs.now)) }
{
    for (i, input) in inputs.iter().enumerate() {
        if draft.fund(&input.parent).is_none() {
            return Err(BlockFault::NoFund { t, i: i as u64 });
        }
    }
    Ok(())
}

/// B15: the first new contract whose window doesn't lie ahead.
pub(crate) fn check_windows(
    height: u64,
    t: u64,
    contracts: &[FileContract],
) -> Result<(), BlockFault>
    ensures { Answers (λ _. tt) block_told result (unless (first_at (form_window_fault height t) 0 contracts.now)) }
{
    for (i, contract) in contracts.iter().enumerate() {
        form_window(contract, height, t, i as u64)?;
    }
    Ok(())
}

/// B16: the first new contract that doesn't pay out what it holds.
pub(crate) fn check_form_sums(t: u64, contracts: &[FileContract]) -> Result<(), BlockFault>
    ensures { Answers (λ _. tt) block_told result (unless (first_at (form_sum_fault t) 0 contracts.now)) }
{
    for (i, contract) in contracts.iter().enumerate() {
        form_sum(contract, t, i as u64)?;
    }
    Ok(())
}

/// B17: the first revision whose number isn't above the present one.
pub(crate) fn check_numbers(
    draft: &Draft<'_>,
    t: u64,
    revisions: &[Revision],
) -> Result<(), BlockFault>
    ensures { Answers (λ _. tt) block_told result (unless (first_at (rev_number (state_in draft.now).facts t) 0 revisions.now)) }
{
    for (i, revision) in revisions.iter().enumerate() {
        if let Some(terms) = draft.terms(&revision.parent) {
            revision_number(revision, terms, t, i as u64)?;
        }
    }
    Ok(())
}

/// B18: the first revision of a contract whose window has begun, or whose new window doesn't lie ahead.
pub(crate) fn check_new_windows(
    draft: &Draft<'_>,
    t: u64,
    revisions: &[Revision],
) -> Result<(), BlockFault>
    ensures { Answers (λ _. tt) block_told result (unless (first_at (rev_window (next (state_in draft.now)) (state_in draft.now).facts t) 0 revisions.now)) }
{
    let height = draft.next();
    for (i, revision) in revisions.iter().enumerate() {
        if let Some(terms) = draft.terms(&revision.parent) {
            revision_window(revision, terms, height, t, i as u64)?;
        }
    }
    Ok(())
}

/// B19: the first revision that doesn't pay out what its contract holds.
pub(crate) fn check_new_sums(
    draft: &Draft<'_>,
    t: u64,
    revisions: &[Revision],
) -> Result<(), BlockFault>
    ensures { Answers (λ _. tt) block_told result (unless (first_at (rev_sum (state_in draft.now).facts t) 0 revisions.now)) }
{
    for (i, revision) in revisions.iter().enumerate() {
        if let Some(terms) = draft.terms(&revision.parent) {
            revision_sum(revision, terms, t, i as u64)?;
        }
    }
    Ok(())
}
