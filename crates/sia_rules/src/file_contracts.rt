//! What a new contract must be, and a revision beside the present terms.
ghost use Rattle.std.specs.Prelude.{◌≡◌, ◌==◌};
ghost use Rattle.sia_encoding.specs.Answer.{Answers, unless};
ghost use Rattle.sia_rules.specs.Answers.{block_told};
ghost use Rattle.sia_rules.specs.FileContracts.{form_fault, form_sum as form_sum_fault, form_window as form_window_fault, is_ahead, pays_out as pays_out_of, revision_fault, revision_number as revision_number_fault, revision_sum as revision_sum_fault, revision_window as revision_window_fault};
ghost use Rattle.sia_rules.specs.Sums.{coin_sum as coin_sum_of};

use crate::amounts::tax;
use crate::fault::BlockFault;
use crate::sums::coin_sum;
use sia_types::{CoinOutput, FileContract, Revision, Terms};

/// Whether a contract may be formed in a block at a height: `i` is its index among those of the transaction at the index `t`.
///
/// # Errors
/// Those of [`form_window`], then those of [`form_sum`].
pub fn form_rule(contract: &FileContract, height: u64, t: u64, i: u64) -> Result<(), BlockFault>
    ensures { Answers (λ _. tt) block_told result (unless (form_fault height t i contract.now)) }
{
    form_window(contract, height, t, i)?;
    form_sum(contract, t, i)
}

/// Whether the window of a new contract lies ahead of a height.
///
/// # Errors
/// `FormWindow` exactly where it doesn't begin above the height, or doesn't end above its start. It takes no memory.
#[tactic(auto, unfolding(crate::specs::FileContracts::form_window))]
pub fn form_window(contract: &FileContract, height: u64, t: u64, i: u64) -> Result<(), BlockFault>
    ensures { Answers (λ _. tt) block_told result (unless (form_window_fault height t i contract.now)) }
{
    if !lies_ahead(height, contract.start, contract.end) {
        return Err(BlockFault::FormWindow { t, i });
    }
    Ok(())
}

/// Whether a new contract pays out what it holds.
///
/// # Errors
/// `FormSum` exactly where its valid or its missed outputs don't sum to its payout less the tax. It takes no memory.
#[tactic(auto, unfolding(crate::specs::FileContracts::form_sum))]
pub fn form_sum(contract: &FileContract, t: u64, i: u64) -> Result<(), BlockFault>
    ensures { Answers (λ _. tt) block_told result (unless (form_sum_fault t i contract.now)) }
{
    let (valid, missed) = (contract.valid.as_slice(), contract.missed.as_slice());
    if !pays_out(contract.payout, valid, missed) {
        return Err(BlockFault::FormSum { t, i });
    }
    Ok(())
}

/// Whether a contract with these terms may be revised in a block at a height: `i` is the revision's index among those of the
/// transaction at the index `t`.
///
/// # Errors
/// Those of [`revision_number`], then those of [`revision_window`], then those of [`revision_sum`].
pub fn revision_rule(
    revision: &Revision,
    terms: &Terms,
    height: u64,
    t: u64,
    i: u64,
) -> Result<(), BlockFault>
    ensures { Answers (λ _. tt) block_told result (unless (revision_fault height t i terms.now revision.now)) }
{
    revision_number(revision, terms, t, i)?;
    revision_window(revision, terms, height, t, i)?;
    revision_sum(revision, terms, t, i)
}

/// Whether a revision has a number above the present one.
///
/// # Errors
/// `RevNumber` exactly where it hasn't. It takes no memory.
#[tactic(auto, unfolding(crate::specs::FileContracts::revision_number))]
pub fn revision_number(revision: &Revision, terms: &Terms, t: u64, i: u64) -> Result<(), BlockFault>
    ensures { Answers (λ _. tt) block_told result (unless (revision_number_fault t i terms.now revision.now)) }
{
    if revision.number <= terms.number {
        let have = terms.number;
        return Err(BlockFault::RevNumber { t, i, have });
    }
    Ok(())
}

/// Whether the present window of a contract, and the window of its revision, lie ahead of a height.
///
/// # Errors
/// `RevWindow` exactly where the present one doesn't begin above the height, or the new one doesn't, or doesn't end above its
/// start. It takes no memory.
#[tactic(auto, unfolding(crate::specs::FileContracts::revision_window))]
pub fn revision_window(
    revision: &Revision,
    terms: &Terms,
    height: u64,
    t: u64,
    i: u64,
) -> Result<(), BlockFault>
    ensures { Answers (λ _. tt) block_told result (unless (revision_window_fault height t i terms.now revision.now)) }
{
    if !(height < terms.start && lies_ahead(height, revision.start, revision.end)) {
        return Err(BlockFault::RevWindow { t, i });
    }
    Ok(())
}

/// Whether a revision pays out what the contract holds.
///
/// # Errors
/// `RevSum` exactly where its valid or its missed outputs don't sum to the payout of the formation less its tax. It takes no
/// memory.
#[tactic(auto, unfolding(crate::specs::FileContracts::revision_sum))]
pub fn revision_sum(revision: &Revision, terms: &Terms, t: u64, i: u64) -> Result<(), BlockFault>
    ensures { Answers (λ _. tt) block_told result (unless (revision_sum_fault t i terms.now revision.now)) }
{
    let (valid, missed) = (revision.valid.as_slice(), revision.missed.as_slice());
    if !pays_out(terms.payout, valid, missed) {
        return Err(BlockFault::RevSum { t, i });
    }
    Ok(())
}

// Whether a window begins above the height, and ends above its start.
fn lies_ahead(height: u64, start: u64, end: u64) -> bool
    ensures { result ≡ is_ahead height start end }
{
    height < start && start < end
}

// Whether the valid outputs, and the missed ones, sum to a payout less its tax.
fn pays_out(payout: u128, valid: &[CoinOutput], missed: &[CoinOutput]) -> bool
    ensures { result ≡ pays_out_of payout valid.now missed.now }
{
    let held = payout - tax(payout);
    sums_to(valid, held) && sums_to(missed, held)
}

// Whether outputs sum to a value.
fn sums_to(outputs: &[CoinOutput], value: u128) -> bool
    ensures { result ≡ (coin_sum_of outputs.now == value) }
{
    match coin_sum(outputs) {
        Some(sum) => sum == value,
        None => false,
    }
}
