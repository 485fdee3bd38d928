//! What the values of a transaction must be, whatever the chain.
ghost use Rattle.std.specs.Prelude.{◌≡◌, ◌||◌, ◌==◌, not, false, IfOk};
ghost use Rattle.std.specs.List.{list_any};
ghost use Rattle.sia_encoding.specs.Answer.{Answers, unless};
ghost use Rattle.sia_rules.specs.Amounts.{fitting, is_too_large};
ghost use Rattle.sia_rules.specs.Answers.{block_told};
ghost use Rattle.sia_rules.specs.Sums.{coins_out, fees_of};
ghost use Rattle.sia_rules.specs.Values.{are_too_large, bad_value, sum_too_large, sums_of_tx, value_fault};

use crate::fault::BlockFault;
use crate::sums::{coin_sum, has_worthless, sum_of};
use sia_types::{CoinOutput, FileContract, FundOutput, Revision, Transaction};

/// The sums of a transaction whose values are right.
#[derive(Clone, Copy, Debug, PartialEq, Eq)]
pub struct TxSums {
    /// What leaves its siacoin inputs, in hastings: its siacoin outputs, the payouts of its contracts, and its fees.
    pub coins: u128,
    /// Its fees, in hastings.
    pub fees: u128,
    /// What leaves its siafund inputs: its siafund outputs, in siafunds.
    pub funds: u128,
}

/// The sums of the transaction at an index of its block, whose values are right.
///
/// # Errors
/// `SumTooLarge` exactly where one of its sums is above 2^128 - 1, then `BadValue` exactly where an output, a payout or a fee is
/// 0, or the claim start of a siafund output isn't. It takes no memory.
pub fn values(tx: &Transaction, t: u64) -> Result<TxSums, BlockFault>
    ensures judged { Answers (λ _. tt) block_told result (unless (value_fault t tx.now)) }
    ensures sums { IfOk result (λ sums. sums ≡ sums_of_tx tx.now) }
{
    let sums = tx_sums(tx, t)?;
    check_values(tx, t)?;
    Ok(sums)
}

/// The sums of the transaction at an index of its block.
///
/// # Errors
/// `SumTooLarge` exactly where one of its sums is above 2^128 - 1. It takes no memory.
#[tactic(auto, unfolding(crate::specs::Values::sum_too_large, crate::specs::Sums::funds_out))]
pub fn tx_sums(tx: &Transaction, t: u64) -> Result<TxSums, BlockFault>
    ensures judged { Answers (λ _. tt) block_told result (unless (sum_too_large t tx.now)) }
    ensures sums { IfOk result (λ sums. sums ≡ sums_of_tx tx.now) }
{
    let Some(coins) = coins_leaving(tx) else {
        return Err(BlockFault::SumTooLarge { part: t });
    };
    let Some(funds) = sum_of(tx.fund_outputs.as_slice()) else {
        return Err(BlockFault::SumTooLarge { part: t });
    };
    if has_large_contract(tx) || has_large_revision(tx) {
        return Err(BlockFault::SumTooLarge { part: t });
    }
    Ok(TxSums {
        coins,
        fees: fees_within(tx),
        funds,
    })
}

/// Whether the transaction at an index of its block makes nothing of value 0.
///
/// # Errors
/// `BadValue` exactly where an output, a payout or a fee is 0, or the claim start of a siafund output isn't. It takes no memory.
#[tactic(auto, unfolding(crate::specs::Values::bad_value))]
pub fn check_values(tx: &Transaction, t: u64) -> Result<(), BlockFault>
    ensures { Answers (λ _. tt) block_told result (unless (bad_value t tx.now)) }
{
    if has_worthless(tx.coin_outputs.as_slice())
        || has_worthless(tx.contracts.as_slice())
        || has_bad_fund(tx.fund_outputs.as_slice())
        || has_worthless(tx.fees.as_slice())
    {
        return Err(BlockFault::BadValue { part: t });
    }
    Ok(())
}

// What leaves the siacoin inputs, where it fits.
#[tactic(auto, using(crate::proofs::Fitting::fits), unfolding(crate::specs::Sums::coins_out))]
fn coins_leaving(tx: &Transaction) -> Option<u128>
    ensures { result ≡ fitting (coins_out tx.now) }
{
    let outputs = sum_of(tx.coin_outputs.as_slice())?;
    let payouts = sum_of(tx.contracts.as_slice())?;
    let fees = sum_of(tx.fees.as_slice())?;
    outputs.checked_add(payouts)?.checked_add(fees)
}

// The fees, where what leaves the siacoin inputs fits.
fn fees_within(tx: &Transaction) -> u128
    requires { is_too_large (coins_out tx.now) ≡ false }
    ensures { result ≡ fees_of tx.now }
{
    sum_of(tx.fees.as_slice()).unwrap_or(0)
}

// Whether the valid or the missed outputs sum to more than fits.
fn is_large(valid: &[CoinOutput], missed: &[CoinOutput]) -> bool
    ensures { result ≡ are_too_large valid.now missed.now }
{
    coin_sum(valid).is_none() || coin_sum(missed).is_none()
}

// Whether outputs of a contract sum to more than fits.
fn has_large_contract(tx: &Transaction) -> bool
    ensures { result ≡ list_any (λ (contract : FileContract). are_too_large contract.valid contract.missed) tx.now.contracts }
{
    tx.contracts.as_slice().iter().any(|contract| is_large(
        contract.valid.as_slice(),
        contract.missed.as_slice(),
    ))
}

// Whether outputs of a revision sum to more than fits.
fn has_large_revision(tx: &Transaction) -> bool
    ensures { result ≡ list_any (λ (revision : Revision). are_too_large revision.valid revision.missed) tx.now.revisions }
{
    tx.revisions.as_slice().iter().any(|revision| is_large(
        revision.valid.as_slice(),
        revision.missed.as_slice(),
    ))
}

// Whether a siafund output holds none, or has a claim start.
fn has_bad_fund(outputs: &[FundOutput]) -> bool
    ensures { result ≡ list_any (λ (output : FundOutput). (output.value == 0) || not (output.claim_start == 0)) outputs.now }
{
    outputs
        .iter()
        .any(|output| output.value == 0 || output.claim_start != 0)
}
