//! Whether a block may follow, and what it makes and does.
ghost use Rattle.std.specs.Prelude.{◌≡◌, ◌<◌, ◌≤◌, ◌^◌, ◌++◌, length, None, IfOk, OnOk};
ghost use Rattle.sia_encoding.specs.Answer.{Answers, unless};
ghost use Rattle.sia_encoding.specs.Firsts.{first_at, ◌or_else◌};
ghost use Rattle.sia_ids.specs.Identifiers.{block_id as block_id_of};
ghost use Rattle.sia_rules.specs.Answers.{block_told};
ghost use Rattle.sia_rules.specs.Values.{sum_too_large, value_fault};
ghost use Rattle.sia_ledger.specs.Blocks.{done_by, with_block};
ghost use Rattle.sia_ledger.specs.Bounded.{IsBounded};
ghost use Rattle.sia_ledger.specs.Known.{state_in};
ghost use Rattle.sia_ledger.specs.State.{next};
ghost use Rattle.sia_ledger.specs.Refusal.{transaction_refusal, transactions_refusal, verdict};

use crate::base::Base;
use crate::draft::Draft;
use crate::effects::pay_miners;
use crate::fact::{Deed, Fact};
use crate::heads::{
    check_all_values, check_height, check_parent, check_payouts, check_size, check_sums,
};
use crate::settling::settle_missed;
use crate::transactions::{judge_transaction, take_each};
use sia_blake::Hash;
use sia_encoding::List;
use sia_ids::block_id;
use sia_rules::{BlockFault, values};
use sia_sign::SigCheck;
use sia_types::{Block, Transaction};
use std::alloc::{AllocError, Global};

/// What a new block makes and does, and its identifier.
#[derive(Drop)]
pub(crate) struct Judged {
    pub id: Hash,
    pub made: List<Fact>,
}

/// Judges a block: what it makes and does, or the first rule that it breaks.
#[tactic(auto, unfolding(crate::specs::Refusal::verdict, crate::specs::Refusal::same_id))]
pub(crate) fn judge<C: SigCheck>(
    alloc: Global,
    maturity: u64,
    base: &Base<'_>,
    block: &Block,
    check: &C,
) -> Result<Judged, BlockFault>
    requires named { 0 < next base.now }
    requires low { next base.now ≤ 2 ^ 32 }
    requires rested { maturity ≤ 10000 }
    requires bounded { IsBounded (with_block block.now base.now) }
    ensures judged { Answers (λ _. tt) block_told result (unless (verdict C.verdict maturity base.now block.now)) }
    ensures id { IfOk result (λ judged. judged.id ≡ block_id_of block.now) }
    ensures made { IfOk result (λ judged. base.now.facts ++ judged.made ≡ (done_by maturity block.now base.now).facts) }
{
    check_parent(base, block)?;
    check_size(alloc, block)?;
    check_height(base)?;
    let payouts = check_sums(base, block)?;
    check_all_values(block)?;
    check_payouts(base, block, &payouts)?;
    let id = block_id(alloc, block)?;
    let draft = do_block(alloc, maturity, base, &id, block, check)?;
    let (made, twice) = draft.finish();
    match twice {
        Some(id) => Err(BlockFault::SameId { id }),
        None => Ok(Judged { id, made }),
    }
}

// What is known behind a block, or the first rule that one of its transactions breaks.
#[tactic(auto, unfolding(crate::specs::Blocks::done_by))]
fn do_block<'a, C: SigCheck>(
    alloc: Global,
    maturity: u64,
    base: &Base<'a>,
    id: &Hash,
    block: &Block,
    check: &C,
) -> Result<Draft<'a>, BlockFault>
    requires named { 0 < next base.now }
    requires low { next base.now ≤ 2 ^ 32 }
    requires rested { maturity ≤ 10000 }
    requires id { id.now ≡ block_id_of block.now }
    requires bounded { IsBounded (with_block block.now base.now) }
    requires sums { first_at sum_too_large 0 block.now.transactions ≡ None }
    ensures judged { Answers (λ _. tt) block_told result (unless (transactions_refusal C.verdict maturity (with_block block.now base.now) 0 block.now.transactions)) }
    ensures done { IfOk result (λ draft. state_in draft ≡ done_by maturity block.now base.now) }
    ensures kept { IfOk result (λ draft. draft.kept ≡ base.now.facts) }
{
    let mut draft = begin_block(alloc, base, id, block)?;
    take_each(
        alloc,
        &mut draft,
        maturity,
        block.transactions.as_slice(),
        check,
    )?;
    settle_missed(alloc, &mut draft, maturity)?;
    pay_miners(&mut draft, maturity, id, block)?;
    Ok(draft)
}

// What is known once a block has made its own identifier.
#[tactic(auto, unfolding(crate::specs::Blocks::with_block))]
fn begin_block<'a>(
    alloc: Global,
    base: &Base<'a>,
    id: &Hash,
    _block: &Block,
) -> Result<Draft<'a>, AllocError>
    requires { id.now ≡ block_id_of _block.now }
    ensures begun { IfOk result (λ draft. state_in draft ≡ with_block _block.now base.now) }
    ensures kept { IfOk result (λ draft. draft.kept ≡ base.now.facts) }
    ensures ids { IfOk result (λ draft. draft.ids ≡ base.now.ids) }
{
    let mut draft = Draft::begin(alloc, base);
    let own = *id;
    draft.add(Fact {
        id: own,
        deed: Deed::Block,
    })?;
    Ok(draft)
}

/// The first rule that a transaction alone breaks, as the first one of a next block.
pub(crate) fn judge_alone<C: SigCheck>(
    alloc: Global,
    base: &Base<'_>,
    tx: &Transaction,
    check: &C,
) -> Result<(), BlockFault>
    requires named { 0 < next base.now }
    requires bounded { IsBounded base.now }
    ensures { Answers (λ _. tt) block_told result (unless (value_fault 0 tx.now or_else transaction_refusal C.verdict base.now 0 tx.now)) }
{
    values(tx, 0)?;
    let draft = Draft::begin(alloc, base);
    judge_transaction(alloc, &draft, 0, tx, check)
}
