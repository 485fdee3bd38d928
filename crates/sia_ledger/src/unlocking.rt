//! What unlocks the inputs and the revisions of a transaction must be on what is known before it.
ghost use Rattle.std.specs.Prelude.{◌≡◌, map};
ghost use Rattle.sia_encoding.specs.Answer.{Answers, unless};
ghost use Rattle.sia_encoding.specs.Firsts.{first_at};
ghost use Rattle.sia_rules.specs.Answers.{block_told};
ghost use Rattle.sia_sign.specs.Needs.{needs};
ghost use Rattle.sia_ledger.specs.Facts.{last_deed};
ghost use Rattle.sia_ledger.specs.Known.{state_in};
ghost use Rattle.sia_ledger.specs.Rules.{address_in, locked as locked_fault, wrong_conditions};

use crate::draft::Draft;
use crate::fact::Deed;
use sia_blake::Hash;
use sia_ids::unlock_hash;
use sia_rules::BlockFault;
use sia_sign::Locked;
use sia_types::{List, Transaction};
use std::alloc::Global;

/// B13: the first of the transaction's needs whose conditions don't hash to the address, or the present unlock hash, of what it
/// names.
pub(crate) fn check_conditions(
    alloc: Global,
    draft: &Draft<'_>,
    t: u64,
    tx: &Transaction,
) -> Result<(), BlockFault>
    ensures { Answers (λ _. tt) block_told result (unless (first_at (wrong_conditions (state_in draft.now).facts t) 0 (needs tx.now))) }
{
    let coins = tx.coin_inputs.len() as u64;
    let revisions = tx.revisions.len() as u64;
    check_addresses(alloc, draft, t, 0, &tx.coin_inputs)?;
    check_addresses(alloc, draft, t, coins, &tx.revisions)?;
    check_addresses(
        alloc,
        draft,
        t,
        coins.saturating_add(revisions),
        &tx.fund_inputs,
    )
}

// The same of one list, whose first has this index among the needs.
fn check_addresses<T: Locked>(
    alloc: Global,
    draft: &Draft<'_>,
    t: u64,
    first: u64,
    all: &List<T>,
) -> Result<(), BlockFault>
    ensures { Answers (λ _. tt) block_told result (unless (first_at (wrong_conditions (state_in draft.now).facts t) first (map T.need all.now))) }
{
    check_each_address(alloc, draft, t, first, all.as_slice())
}

// The same of one list, whose first has this index among the needs.
fn check_each_address<T: Locked>(
    alloc: Global,
    draft: &Draft<'_>,
    t: u64,
    first: u64,
    all: &[T],
) -> Result<(), BlockFault>
    ensures { Answers (λ _. tt) block_told result (unless (first_at (wrong_conditions (state_in draft.now).facts t) first (map T.need all.now))) }
{
    for (i, locked) in all.iter().enumerate() {
        let index = first.saturating_add(i as u64);
        check_address(alloc, draft, t, index, locked)?;
    }
    Ok(())
}

// The same of one need, which has this index.
fn check_address<T: Locked>(
    alloc: Global,
    draft: &Draft<'_>,
    t: u64,
    i: u64,
    locked: &T,
) -> Result<(), BlockFault>
    ensures { Answers (λ _. tt) block_told result (unless (wrong_conditions (state_in draft.now).facts t i (T.need locked.now))) }
{
    let hash = unlock_hash(alloc, locked.conditions())?;
    if hash.as_slice() != address_of(draft, locked.parent()) {
        return Err(BlockFault::Conditions { t, i });
    }
    Ok(())
}

// The address of a live output or the present unlock hash of a running contract, and no bytes where there is none.
fn address_of<'d>(draft: &'d Draft<'_>, id: &Hash) -> &'d [u8]
    ensures { result.now ≡ address_in (last_deed (state_in draft.now).facts id.now) }
{
    match draft.last(id) {
        Some(Deed::Coin { output, .. }) => output.address.as_slice(),
        Some(Deed::Fund(output)) => output.address.as_slice(),
        Some(Deed::Formed(terms)) => terms.address.as_slice(),
        Some(Deed::Revised(terms)) => terms.address.as_slice(),
        _ => &[],
    }
}

/// B14: the first of the transaction's needs whose conditions have a timelock above the height.
pub(crate) fn check_timelocks(height: u64, t: u64, tx: &Transaction) -> Result<(), BlockFault>
    ensures { Answers (λ _. tt) block_told result (unless (first_at (locked_fault height t) 0 (needs tx.now))) }
{
    let coins = tx.coin_inputs.len() as u64;
    let revisions = tx.revisions.len() as u64;
    check_list(height, t, 0, &tx.coin_inputs)?;
    check_list(height, t, coins, &tx.revisions)?;
    check_list(height, t, coins.saturating_add(revisions), &tx.fund_inputs)
}

// The same of one list, whose first has this index among the needs.
fn check_list<T: Locked>(height: u64, t: u64, first: u64, all: &List<T>) -> Result<(), BlockFault>
    ensures { Answers (λ _. tt) block_told result (unless (first_at (locked_fault height t) first (map T.need all.now))) }
{
    check_each_timelock(height, t, first, all.as_slice())
}

// The same of one list, whose first has this index among the needs.
fn check_each_timelock<T: Locked>(
    height: u64,
    t: u64,
    first: u64,
    all: &[T],
) -> Result<(), BlockFault>
    ensures { Answers (λ _. tt) block_told result (unless (first_at (locked_fault height t) first (map T.need all.now))) }
{
    for (i, locked) in all.iter().enumerate() {
        let index = first.saturating_add(i as u64);
        check_timelock(height, t, index, locked)?;
    }
    Ok(())
}

// The same of one need, which has this index.
fn check_timelock<T: Locked>(height: u64, t: u64, i: u64, locked: &T) -> Result<(), BlockFault>
    ensures { Answers (λ _. tt) block_told result (unless (locked_fault height t i (T.need locked.now))) }
{
    if height < locked.conditions().timelock {
        return Err(BlockFault::Locked { t, i });
    }
    Ok(())
}
