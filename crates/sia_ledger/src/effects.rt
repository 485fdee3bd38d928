//! What transactions and blocks do, stage by stage.
ghost use Rattle.std.specs.Prelude.{◌≡◌, ◌+◌, ◌<◌, ◌^◌, OnOk};
ghost use Rattle.sia_ids.specs.Identifiers.{block_id};
ghost use Rattle.sia_ledger.specs.Blocks.{with_payouts};
ghost use Rattle.sia_ledger.specs.Bounded.{ClaimsFit};
ghost use Rattle.sia_ledger.specs.Effects.{after_transaction, with_coin_inputs, with_coin_outputs, with_contracts, with_proofs, with_revisions};
ghost use Rattle.sia_ledger.specs.Known.{state_in};
ghost use Rattle.sia_ledger.specs.State.{next};

use crate::coins::{make_coins, spend_coins};
use crate::contracts::{form_contracts, revise_contracts};
use crate::draft::Draft;
use crate::fact::{Deed, Fact};
use crate::funds::{make_funds, spend_funds};
use crate::settling::settle_proved;
use sia_blake::Hash;
use sia_ids::payout_id;
use sia_types::{Block, Transaction};
use std::alloc::{AllocError, Global};

/// What a transaction does, field by field.
#[tactic(auto, unfolding(crate::specs::Effects::after_transaction))]
pub(crate) fn do_transaction(
    alloc: Global,
    draft: &mut Draft<'_>,
    maturity: u64,
    tx: &Transaction,
) -> Result<(), AllocError>
    requires fits { ClaimsFit maturity (with_proofs maturity tx.now (with_revisions tx.now (with_contracts tx.now (with_coin_outputs tx.now (with_coin_inputs tx.now (state_in draft.old)))))) tx.now.fund_inputs }
    requires room { next (state_in draft.old) + maturity < 2 ^ 64 }
    ensures done { OnOk result (state_in draft.new ≡ after_transaction maturity (state_in draft.old) tx.now) }
    ensures kept { draft.new.kept ≡ draft.old.kept }
    ensures ids { draft.new.ids ≡ draft.old.ids }
{
    spend_coins(draft, tx)?;
    make_coins(alloc, draft, tx)?;
    form_contracts(alloc, draft, tx)?;
    revise_contracts(alloc, draft, tx)?;
    settle_proved(alloc, draft, maturity, tx)?;
    spend_funds(draft, maturity, tx)?;
    make_funds(alloc, draft, tx)
}

/// The miners are paid; their payouts rest for the maturity.
#[tactic(auto, unfolding(crate::specs::Blocks::with_payouts))]
pub(crate) fn pay_miners(
    draft: &mut Draft<'_>,
    maturity: u64,
    id: &Hash,
    block: &Block,
) -> Result<(), AllocError>
    requires id { id.now ≡ block_id block.now }
    requires room { next (state_in draft.old) + maturity < 2 ^ 64 }
    ensures done { OnOk result (state_in draft.new ≡ with_payouts maturity block.now (state_in draft.old)) }
    ensures kept { draft.new.kept ≡ draft.old.kept }
    ensures ids { draft.new.ids ≡ draft.old.ids }
{
    let from = draft.next() + maturity;
    for (index, payout) in block.payouts.as_slice().iter().enumerate() {
        let id = payout_id(id, index as u64);
        let output = *payout;
        draft.add(Fact {
            id,
            deed: Deed::Coin { output, from },
        })?;
    }
    Ok(())
}
