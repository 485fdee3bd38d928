//! What a transaction does with siacoin outputs.
ghost use Rattle.std.specs.Prelude.{◌≡◌, OnOk};
ghost use Rattle.sia_ledger.specs.Effects.{with_coin_inputs, with_coin_outputs};
ghost use Rattle.sia_ledger.specs.Known.{state_in};

use crate::draft::Draft;
use crate::fact::{Deed, Fact};
use sia_ids::coin_ids;
use sia_types::Transaction;
use std::alloc::{AllocError, Global};

/// The siacoin inputs are spent.
#[tactic(auto, unfolding(crate::specs::Effects::with_coin_inputs))]
pub(crate) fn spend_coins(draft: &mut Draft<'_>, tx: &Transaction) -> Result<(), AllocError>
    ensures done { OnOk result (state_in draft.new ≡ with_coin_inputs tx.now (state_in draft.old)) }
    ensures kept { draft.new.kept ≡ draft.old.kept }
    ensures ids { draft.new.ids ≡ draft.old.ids }
{
    for input in tx.coin_inputs.as_slice() {
        let id = input.parent;
        draft.add(Fact {
            id,
            deed: Deed::Spent,
        })?;
    }
    Ok(())
}

/// The siacoin outputs are made.
#[tactic(auto, unfolding(crate::specs::Effects::with_coin_outputs))]
pub(crate) fn make_coins(
    alloc: Global,
    draft: &mut Draft<'_>,
    tx: &Transaction,
) -> Result<(), AllocError>
    ensures done { OnOk result (state_in draft.new ≡ with_coin_outputs tx.now (state_in draft.old)) }
    ensures kept { draft.new.kept ≡ draft.old.kept }
    ensures ids { draft.new.ids ≡ draft.old.ids }
{
    if tx.coin_outputs.is_empty() {
        return Ok(());
    }
    let from = draft.next();
    let ids = coin_ids(alloc, tx)?;
    for (index, output) in tx.coin_outputs.as_slice().iter().enumerate() {
        let id = ids.id(index as u64);
        let output = *output;
        draft.add(Fact {
            id,
            deed: Deed::Coin { output, from },
        })?;
    }
    Ok(())
}
