//! Transactions, judged one after another on what is known before each.
ghost use Rattle.std.specs.Prelude.{◌≡◌, ◌+◌, ◌<◌, ◌^◌, length, None, OnOk};
ghost use Rattle.std.specs.Option.{option_map};
ghost use Rattle.sia_encoding.specs.Answer.{Answers, unless};
ghost use Rattle.sia_encoding.specs.Firsts.{first_at};
ghost use Rattle.sia_sign.specs.Faults.{signatures_fault};
ghost use Rattle.sia_rules.specs.declared.fault.BlockFault.TheVariants as block_fault;
ghost use Rattle.sia_rules.specs.Answers.{block_told};
ghost use Rattle.sia_rules.specs.Shape.{repeated};
ghost use Rattle.sia_rules.specs.Values.{sum_too_large};
ghost use Rattle.sia_ledger.specs.Blocks.{with_transactions};
ghost use Rattle.sia_ledger.specs.Bounded.{IsBounded};
ghost use Rattle.sia_ledger.specs.Effects.{after_transaction};
ghost use Rattle.sia_ledger.specs.Judging.{state_refusal};
ghost use Rattle.sia_ledger.specs.Known.{state_in};
ghost use Rattle.sia_ledger.specs.Refusal.{transaction_refusal, transactions_refusal};
ghost use Rattle.sia_ledger.specs.Rules.{coins_in, funds_in, unbalanced};
ghost use Rattle.sia_ledger.specs.State.{next};

use crate::balance::check_balance;
use crate::draft::Draft;
use crate::effects::do_transaction;
use crate::entries::{
    check_coins, check_form_sums, check_funds, check_mature, check_new_sums, check_new_windows,
    check_numbers, check_proved, check_revised, check_windows,
};
use crate::proving::{check_begun, check_correct};
use crate::unlocking::{check_conditions, check_timelocks};
use sia_rules::{BlockFault, shape, tx_sums};
use sia_sign::{SigCheck, SigFault, check_signatures};
use sia_types::Transaction;
use std::alloc::Global;

/// Judges transactions and does what they do, one after another.
#[tactic(auto, unfolding(crate::specs::Refusal::transactions_refusal, crate::specs::Blocks::with_transactions))]
pub(crate) fn take_each<C: SigCheck>(
    alloc: Global,
    draft: &mut Draft<'_>,
    maturity: u64,
    txs: &[Transaction],
    check: &C,
) -> Result<(), BlockFault>
    requires bounded { IsBounded (state_in draft.old) }
    requires sums { first_at sum_too_large 0 txs.now ≡ None }
    requires named { 0 < length draft.old.ids }
    requires room { next (state_in draft.old) + maturity < 2 ^ 64 }
    ensures judged { Answers (λ _. tt) block_told result (unless (transactions_refusal C.verdict maturity (state_in draft.old) 0 txs.now)) }
    ensures done { OnOk result (state_in draft.new ≡ with_transactions maturity txs.now (state_in draft.old)) }
    ensures kept { OnOk result (draft.new.kept ≡ draft.old.kept) }
    ensures ids { OnOk result (draft.new.ids ≡ draft.old.ids) }
{
    for (t, tx) in txs.iter().enumerate() {
        take_one(alloc, draft, maturity, t as u64, tx, check)?;
    }
    Ok(())
}

// Judges a transaction and does what it does.
fn take_one<C: SigCheck>(
    alloc: Global,
    draft: &mut Draft<'_>,
    maturity: u64,
    t: u64,
    tx: &Transaction,
    check: &C,
) -> Result<(), BlockFault>
    requires bounded { IsBounded (state_in draft.old) }
    requires sums { sum_too_large t tx.now ≡ None }
    requires named { 0 < length draft.old.ids }
    requires room { next (state_in draft.old) + maturity < 2 ^ 64 }
    ensures judged { Answers (λ _. tt) block_told result (unless (transaction_refusal C.verdict (state_in draft.old) t tx.now)) }
    ensures done { OnOk result (state_in draft.new ≡ after_transaction maturity (state_in draft.old) tx.now) }
    ensures bounded { OnOk result (IsBounded (state_in draft.new)) }
    ensures kept { draft.new.kept ≡ draft.old.kept }
    ensures ids { draft.new.ids ≡ draft.old.ids }
{
    judge_transaction(alloc, draft, t, tx, check)?;
    do_transaction(alloc, draft, maturity, tx)?;
    Ok(())
}

/// B7 to B23: the first rule that a transaction of the next block breaks.
pub(crate) fn judge_transaction<C: SigCheck>(
    alloc: Global,
    draft: &Draft<'_>,
    t: u64,
    tx: &Transaction,
    check: &C,
) -> Result<(), BlockFault>
    requires bounded { IsBounded (state_in draft.now) }
    requires sums { sum_too_large t tx.now ≡ None }
    requires named { 0 < length draft.now.ids }
    ensures { Answers (λ _. tt) block_told result (unless (transaction_refusal C.verdict (state_in draft.now) t tx.now)) }
{
    shape(tx, t)?;
    judge_state(alloc, draft, t, tx, check)
}

// B9 to B23: the rules that look at what is known.
#[tactic(auto, unfolding(crate::specs::Judging::state_refusal))]
fn judge_state<C: SigCheck>(
    alloc: Global,
    draft: &Draft<'_>,
    t: u64,
    tx: &Transaction,
    check: &C,
) -> Result<(), BlockFault>
    requires bounded { IsBounded (state_in draft.now) }
    requires once { repeated t tx.now ≡ None }
    requires sums { sum_too_large t tx.now ≡ None }
    requires named { 0 < length draft.now.ids }
    ensures { Answers (λ _. tt) block_told result (unless (state_refusal C.verdict (state_in draft.now) t tx.now)) }
{
    check_coins(draft, t, tx.coin_inputs.as_slice())?;
    check_mature(draft, t, tx.coin_inputs.as_slice())?;
    check_revised(draft, t, tx.revisions.as_slice())?;
    check_proved(draft, t, tx.proofs.as_slice())?;
    check_funds(draft, t, tx.fund_inputs.as_slice())?;
    check_conditions(alloc, draft, t, tx)?;
    check_timelocks(draft.next(), t, tx)?;
    check_windows(draft.next(), t, tx.contracts.as_slice())?;
    check_form_sums(t, tx.contracts.as_slice())?;
    check_numbers(draft, t, tx.revisions.as_slice())?;
    check_new_windows(draft, t, tx.revisions.as_slice())?;
    check_new_sums(draft, t, tx.revisions.as_slice())?;
    check_begun(draft, t, tx.proofs.as_slice())?;
    check_correct(draft, t, tx.proofs.as_slice())?;
    judge_balance(draft, t, tx)?;
    judge_signatures(alloc, t, tx, draft.next(), check)
}

// B22: what comes in isn't what goes out.
fn judge_balance(draft: &Draft<'_>, t: u64, tx: &Transaction) -> Result<(), BlockFault>
    requires sums { sum_too_large t tx.now ≡ None }
    requires coins { coins_in (state_in draft.now).facts tx.now < 2 ^ 128 }
    requires funds { funds_in (state_in draft.now).facts tx.now < 2 ^ 128 }
    ensures { Answers (λ _. tt) block_told result (unless (unbalanced (state_in draft.now).facts t tx.now)) }
{
    let sums = tx_sums(tx, t)?;
    check_balance(draft, t, tx, &sums)
}

// B23: the signatures have a fault.
fn judge_signatures<C: SigCheck>(
    alloc: Global,
    t: u64,
    tx: &Transaction,
    height: u64,
    check: &C,
) -> Result<(), BlockFault>
    ensures { Answers (λ _. tt) block_told result (unless (option_map (block_fault.Signature t) (signatures_fault C.verdict height tx.now))) }
{
    match check_signatures(alloc, tx, height, check) {
        Ok(()) => Ok(()),
        Err(SigFault::Memory) => Err(BlockFault::Memory),
        Err(fault) => Err(BlockFault::Signature { t, fault }),
    }
}
