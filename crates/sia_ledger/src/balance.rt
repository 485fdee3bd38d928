//! What comes in and goes out of a transaction.
ghost use Rattle.std.specs.Prelude.{◌≡◌, ◌<◌, ◌^◌};
ghost use Rattle.sia_encoding.specs.Answer.{Answers, unless};
ghost use Rattle.sia_rules.specs.Amounts.{capped};
ghost use Rattle.sia_rules.specs.Answers.{block_told};
ghost use Rattle.sia_rules.specs.Values.{sums_of_tx};
ghost use Rattle.sia_ledger.specs.Facts.{coin_at, fund_at};
ghost use Rattle.sia_ledger.specs.Known.{state_in};
ghost use Rattle.sia_ledger.specs.Rules.{coin_value, coins_in, fund_value, funds_in, unbalanced};

use crate::draft::Draft;
use sia_blake::Hash;
use sia_rules::{BlockFault, TxSums};
use sia_types::Transaction;

/// B22: the siacoin inputs don't equal what leaves them, or else the siafund inputs don't.
#[tactic(auto, unfolding(crate::specs::Rules::unbalanced))]
pub(crate) fn check_balance(
    draft: &Draft<'_>,
    t: u64,
    tx: &Transaction,
    sums: &TxSums,
) -> Result<(), BlockFault>
    requires sums { sums.now ≡ sums_of_tx tx.now }
    requires coins { coins_in (state_in draft.now).facts tx.now < 2 ^ 128 }
    requires funds { funds_in (state_in draft.now).facts tx.now < 2 ^ 128 }
    ensures { Answers (λ _. tt) block_told result (unless (unbalanced (state_in draft.now).facts t tx.now)) }
{
    let coins = coins_named(draft, tx);
    if coins != sums.coins {
        return Err(BlockFault::Balance {
            t,
            funds: false,
            input: coins,
            output: sums.coins,
        });
    }
    let funds = funds_named(draft, tx);
    if funds != sums.funds {
        return Err(BlockFault::Balance {
            t,
            funds: true,
            input: funds,
            output: sums.funds,
        });
    }
    Ok(())
}

// What the siacoin inputs bring, or the greatest number where it doesn't fit.
#[tactic(auto, unfolding(crate::specs::Rules::coins_in))]
fn coins_named(draft: &Draft<'_>, tx: &Transaction) -> u128
    ensures { result ≡ capped (coins_in (state_in draft.now).facts tx.now) }
{
    let mut sum: u128 = 0;
    for input in tx.coin_inputs.as_slice() {
        sum = sum.saturating_add(coins_of(draft, &input.parent));
    }
    sum
}

// The value of the live siacoin output, and 0 where there is none.
fn coins_of(draft: &Draft<'_>, id: &Hash) -> u128
    ensures { result ≡ coin_value (coin_at (state_in draft.now).facts id.now) }
{
    match draft.coin(id) {
        Some((output, _)) => output.value,
        None => 0,
    }
}

// What the siafund inputs bring, or the greatest number where it doesn't fit.
#[tactic(auto, unfolding(crate::specs::Rules::funds_in))]
fn funds_named(draft: &Draft<'_>, tx: &Transaction) -> u128
    ensures { result ≡ capped (funds_in (state_in draft.now).facts tx.now) }
{
    let mut sum: u128 = 0;
    for input in tx.fund_inputs.as_slice() {
        sum = sum.saturating_add(funds_of(draft, &input.parent));
    }
    sum
}

// How many siafunds the live siafund output holds, and 0 where there is none.
fn funds_of(draft: &Draft<'_>, id: &Hash) -> u128
    ensures { result ≡ fund_value (fund_at (state_in draft.now).facts id.now) }
{
    match draft.fund(id) {
        Some(output) => output.value,
        None => 0,
    }
}
