//! What a transaction does with siafund outputs.
ghost use Rattle.std.specs.Prelude.{◌≡◌, ◌+◌, ◌<◌, ◌^◌, OnOk};
ghost use Rattle.sia_ledger.specs.Bounded.{ClaimsFit};
ghost use Rattle.sia_ledger.specs.Effects.{with_fund_input, with_fund_inputs, with_fund_outputs};
ghost use Rattle.sia_ledger.specs.Facts.{claim_at};
ghost use Rattle.sia_ledger.specs.Known.{state_in};
ghost use Rattle.sia_ledger.specs.State.{next};

use crate::draft::Draft;
use crate::fact::{Deed, Fact};
use sia_ids::{claim_id, fund_ids};
use sia_types::{CoinOutput, FundInput, Transaction};
use std::alloc::{AllocError, Global};

/// The siafund inputs are spent, and their claims made, which rest for the maturity.
#[tactic(auto, unfolding(crate::specs::Effects::with_fund_inputs))]
pub(crate) fn spend_funds(
    draft: &mut Draft<'_>,
    maturity: u64,
    tx: &Transaction,
) -> Result<(), AllocError>
    requires fits { ClaimsFit maturity (state_in draft.old) tx.now.fund_inputs }
    requires room { next (state_in draft.old) + maturity < 2 ^ 64 }
    ensures done { OnOk result (state_in draft.new ≡ with_fund_inputs maturity tx.now (state_in draft.old)) }
    ensures kept { draft.new.kept ≡ draft.old.kept }
    ensures ids { draft.new.ids ≡ draft.old.ids }
{
    for input in tx.fund_inputs.as_slice() {
        spend_fund(draft, maturity, input)?;
    }
    Ok(())
}

// A siafund output is spent, and its claim made where it isn't 0.
fn spend_fund(draft: &mut Draft<'_>, maturity: u64, input: &FundInput) -> Result<(), AllocError>
    requires fits { claim_at (state_in draft.old).facts input.now.parent < 2 ^ 128 }
    requires room { next (state_in draft.old) + maturity < 2 ^ 64 }
    ensures done { OnOk result (state_in draft.new ≡ with_fund_input maturity (state_in draft.old) input.now) }
    ensures kept { draft.new.kept ≡ draft.old.kept }
    ensures ids { draft.new.ids ≡ draft.old.ids }
{
    let from = draft.next() + maturity;
    let value = draft.claim(&input.parent);
    let parent = input.parent;
    draft.add(Fact {
        id: parent,
        deed: Deed::Spent,
    })?;
    if value == 0 {
        return Ok(());
    }
    let id = claim_id(&input.parent);
    let address = input.claim_address;
    let output = CoinOutput { value, address };
    draft.add(Fact {
        id,
        deed: Deed::Coin { output, from },
    })
}

/// The siafund outputs are made.
#[tactic(auto, unfolding(crate::specs::Effects::with_fund_outputs))]
pub(crate) fn make_funds(
    alloc: Global,
    draft: &mut Draft<'_>,
    tx: &Transaction,
) -> Result<(), AllocError>
    ensures done { OnOk result (state_in draft.new ≡ with_fund_outputs tx.now (state_in draft.old)) }
    ensures kept { draft.new.kept ≡ draft.old.kept }
    ensures ids { draft.new.ids ≡ draft.old.ids }
{
    if tx.fund_outputs.is_empty() {
        return Ok(());
    }
    let ids = fund_ids(alloc, tx)?;
    for (index, output) in tx.fund_outputs.as_slice().iter().enumerate() {
        let id = ids.id(index as u64);
        let output = *output;
        draft.add(Fact {
            id,
            deed: Deed::Fund(output),
        })?;
    }
    Ok(())
}
