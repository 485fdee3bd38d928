//! The rules of a block that look at no effect of it: its place, its size and its amounts.
ghost use Rattle.std.specs.Prelude.{◌≡◌, ℕ, ◌<◌, ◌≤◌, ◌^◌, ◌+◌, length, None, IfOk, OnOk};
ghost use Rattle.sia_encoding.specs.Answer.{Answers, unless};
ghost use Rattle.sia_encoding.specs.Firsts.{first_at};
ghost use Rattle.sia_rules.specs.Amounts.{fitting, subsidy as subsidy_of};
ghost use Rattle.sia_rules.specs.Answers.{block_told};
ghost use Rattle.sia_rules.specs.Sums.{all_fees, coin_sum as coin_sum_of};
ghost use Rattle.sia_rules.specs.Values.{bad_value, pays_nothing, sum_too_large};
ghost use Rattle.sia_ledger.specs.Refusal.{bad_parent, bad_values, block_size, height_end, miners_due, payout_sum, sums_too_large, too_large};
ghost use Rattle.sia_ledger.specs.State.{next};

use crate::base::Base;
use sia_encoding::Blob;
use sia_rules::{BlockFault, check_values, coin_sum, subsidy, tx_sums};
use sia_types::{Block, CoinOutput, Item, Transaction};
use std::alloc::Global;

/// The greatest number of bytes of a block's encoding.
const LARGEST_BLOCK: u64 = 2_000_000;

/// The height that no block has.
const HEIGHT_END: u64 = 0x1_0000_0000;

/// What the miner payouts of a block sum to, and what they should.
#[derive(Clone, Copy)]
pub(crate) struct Payouts {
    /// The subsidy and all fees, in hastings.
    pub need: u128,
    /// The sum of the payouts, in hastings.
    pub got: u128,
}

/// B1: the parent isn't the tip.
#[tactic(auto, unfolding(crate::specs::Refusal::bad_parent))]
pub(crate) fn check_parent(base: &Base<'_>, block: &Block) -> Result<(), BlockFault>
    requires { 0 < length base.now.ids }
    ensures { Answers (λ _. tt) block_told result (unless (bad_parent base.now block.now)) }
{
    let tip = base.tip();
    if block.parent != tip {
        return Err(BlockFault::BadParent { tip });
    }
    Ok(())
}

/// B2: the encoding has more than 2,000,000 bytes.
#[tactic(auto, unfolding(crate::specs::Refusal::too_large, crate::specs::Refusal::block_size))]
pub(crate) fn check_size(alloc: Global, block: &Block) -> Result<(), BlockFault>
    ensures { Answers (λ _. tt) block_told result (unless (too_large block.now)) }
{
    let mut encoding = Blob::new(alloc);
    block.encode(&mut encoding)?;
    let bytes = encoding.len() as u64;
    if bytes > LARGEST_BLOCK {
        return Err(BlockFault::TooLarge { bytes });
    }
    Ok(())
}

/// B3: the height would be 2^32.
#[tactic(auto, unfolding(crate::specs::Refusal::height_end))]
pub(crate) fn check_height(base: &Base<'_>) -> Result<(), BlockFault>
    requires { next base.now ≤ 2 ^ 32 }
    ensures judged { Answers (λ _. tt) block_told result (unless (height_end base.now)) }
    ensures low { OnOk result (next base.now < 2 ^ 32) }
{
    if base.next() == HEIGHT_END {
        return Err(BlockFault::HeightEnd);
    }
    Ok(())
}

/// B4: a sum of a transaction, of the miner payouts, or of all fees with the subsidy, has more than 128 bits; else what the
/// payouts sum to, and what they should.
#[tactic(auto, unfolding(crate::specs::Refusal::sums_too_large))]
pub(crate) fn check_sums(base: &Base<'_>, block: &Block) -> Result<Payouts, BlockFault>
    ensures judged { Answers (λ _. tt) block_told result (unless (sums_too_large base.now block.now)) }
    ensures each { OnOk result (first_at sum_too_large 0 block.now.transactions ≡ None) }
    ensures need { IfOk result (λ payouts. payouts.need ≡ miners_due base.now block.now) }
    ensures got { IfOk result (λ payouts. payouts.got ≡ coin_sum_of block.now.payouts) }
{
    let fees = fees_of_all(block.transactions.as_slice())?;
    let part = block.transactions.len() as u64;
    let Some(got) = coin_sum(block.payouts.as_slice()) else {
        return Err(BlockFault::SumTooLarge { part });
    };
    let Some(need) = due(base, fees) else {
        return Err(BlockFault::SumTooLarge { part });
    };
    Ok(Payouts { need, got })
}

// The subsidy of the next block and all fees, where they fit.
fn due(base: &Base<'_>, fees: Option<u128>) -> Option<u128>
    ensures { (n : ℕ) → fees ≡ fitting n → result ≡ fitting (subsidy_of (next base.now) + n) }
{
    fees?.checked_add(subsidy(base.next()))
}

// B4 in part: the first transaction of which a sum has more than 128 bits; else all fees, where they fit.
#[tactic(auto, unfolding(sia_rules::specs::Sums::all_fees))]
fn fees_of_all(txs: &[Transaction]) -> Result<Option<u128>, BlockFault>
    ensures judged { Answers (λ _. tt) block_told result (unless (first_at sum_too_large 0 txs.now)) }
    ensures fees { IfOk result (λ fees. fees ≡ fitting (all_fees txs.now)) }
{
    let mut fees = Some(0);
    for (t, tx) in txs.iter().enumerate() {
        let sums = tx_sums(tx, t as u64)?;
        fees = plus(fees, sums.fees);
    }
    Ok(fees)
}

// A sum that fits and one value more, where both fit.
fn plus(sum: Option<u128>, value: u128) -> Option<u128>
    ensures { (n : ℕ) → sum ≡ fitting n → result ≡ fitting (n + value) }
{
    sum?.checked_add(value)
}

/// B5: a value of a transaction, or a miner payout, is 0.
#[tactic(auto, unfolding(crate::specs::Refusal::bad_values))]
pub(crate) fn check_all_values(block: &Block) -> Result<(), BlockFault>
    ensures { Answers (λ _. tt) block_told result (unless (bad_values block.now)) }
{
    check_each_value(block.transactions.as_slice())?;
    if has_empty(block.payouts.as_slice()) {
        let part = block.transactions.len() as u64;
        return Err(BlockFault::BadValue { part });
    }
    Ok(())
}

// B5 in part: the first transaction of which a value is 0.
fn check_each_value(txs: &[Transaction]) -> Result<(), BlockFault>
    ensures { Answers (λ _. tt) block_told result (unless (first_at bad_value 0 txs.now)) }
{
    for (t, tx) in txs.iter().enumerate() {
        check_values(tx, t as u64)?;
    }
    Ok(())
}

// Whether a payout is 0.
fn has_empty(payouts: &[CoinOutput]) -> bool
    ensures { result ≡ pays_nothing payouts.now }
{
    payouts.iter().any(|payout| payout.value == 0)
}

/// B6: the miner payouts don't sum to the subsidy and all fees.
#[tactic(auto, unfolding(crate::specs::Refusal::payout_sum))]
pub(crate) fn check_payouts(
    _base: &Base<'_>,
    _block: &Block,
    payouts: &Payouts,
) -> Result<(), BlockFault>
    requires need { payouts.now.need ≡ miners_due _base.now _block.now }
    requires got { payouts.now.got ≡ coin_sum_of _block.now.payouts }
    ensures { Answers (λ _. tt) block_told result (unless (payout_sum _base.now _block.now)) }
{
    let (need, got) = (payouts.need, payouts.got);
    if got != need {
        return Err(BlockFault::PayoutSum { need, got });
    }
    Ok(())
}
