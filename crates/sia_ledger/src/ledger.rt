//! The ledger: a chain, and what is kept of it.
ghost use Rattle.std.specs.Prelude.{◌≡◌, ◌+◌, ◌<◌, ◌≤◌, ◌^◌, ◌↔◌, ◌++◌, Err, IfOk, OnOk, OnErr, ℕ, List as Sequence, IfErr};
ghost use Rattle.sia_encoding.specs.Answer.{Answers, unless};
ghost use Rattle.sia_ids.specs.Identifiers.{block_id};
ghost use Rattle.sia_rules.specs.Answers.{block_told};
ghost use Rattle.sia_rules.specs.declared.fault.BlockFault.TheVariants as block_fault;
ghost use Rattle.sia_ledger.specs.declared.sums.Status.TheVariants as status;
ghost use Rattle.sia_ledger.specs.Courses.{EachProofIsRight, EndedUnproved, HoldsProof};
ghost use Rattle.sia_ledger.specs.Kept.{IsSound};
ghost use Rattle.sia_ledger.specs.Texts.{IsMadeTwice, IsOfType};
ghost use Rattle.sia_ledger.specs.declared.fault.RevertFault.TheVariants as revert_fault;
ghost use Rattle.sia_ledger.specs.Answers.{genesis_told};
ghost use Rattle.sia_ledger.specs.Blocks.{done_by, facts, state_of, with_block};
ghost use Rattle.sia_ledger.specs.Bounded.{IsBounded, Totals};
ghost use Rattle.sia_ledger.specs.Chain.{begun, extended, height, shortened};
ghost use Rattle.sia_ledger.specs.Genesis.{genesis_refusal};
ghost use Rattle.sia_ledger.specs.Holdings.{coins_at, id_at, ids, immature, status_of, sums_of, terms_of, tip};
ghost use Rattle.sia_ledger.specs.Refusal.{refusal, set_refusal};
ghost use Rattle.sia_ledger.specs.State.{next};

use crate::base::Base;
use crate::catalog::Catalog;
use crate::fact::Fact;
use crate::fault::{GenesisFault, RevertFault};
use crate::genesis::{check_params, make_genesis};
use crate::holdings::{issued_at, sum_of_immature};
use crate::judging::{Judged, judge, judge_alone};
use crate::owned::owned_by;
use crate::params::Params;
use crate::parts::{drop_block, push_block};
use crate::present::{status_among, terms_among};
use crate::sums::{Status, Sums};
use crate::typed::Typed;
use sia_blake::Hash;
use sia_encoding::{List, Steps};
use sia_ids::genesis_id;
use sia_rules::BlockFault;
use sia_sign::SigCheck;
use sia_types::{Block, Coin, FundOutput, Item, Terms, Transaction};
use std::alloc::{AllocError, Global};
use std::marker::Model;
use std::sync::ledger::Ledger as StepBook;

/// A chain of blocks behind a genesis. Contracts see its maturity, its siafund outputs and its blocks, the oldest
/// first.
///
/// Every refusal leaves it as it was. It has no more than 2^32 - 1 blocks.
#[derive(Drop)]
pub struct Ledger {
    maturity: u64,
    funds: List<FundOutput>,
    blocks: List<Block>,
    /// The identifiers of the genesis and of each block, by height.
    ids: List<Hash>,
    /// What the genesis and the blocks made and did.
    catalog: Catalog,
    /// How many facts stood before each block.
    marks: List<u64>,
}

impl Model for Ledger {
    ghost use Rattle.sia_ledger.specs.Chain.{Chain};

    ghost Value = { Chain };

    ghost use Rattle.sia_ledger.specs.Kept.{IsKept};

    ghost view = { λ l. record { maturity = l.maturity; funds = l.funds; blocks = l.blocks } };

    ghost invariant = { λ l. IsKept (record { maturity = l.maturity; funds = l.funds; blocks = l.blocks }) l.ids l.catalog l.marks };
}

impl Ledger {
    /// The chain without a block that begins from the parameters.
    ///
    /// # Errors
    /// `FundSum` exactly where the siafunds don't sum to 10,000 or one output holds none, then `Maturity` exactly where
    /// it isn't one of 1 to 10,000. `Memory` also where two identifiers that the genesis makes are equal.
    pub fn genesis(alloc: Global, params: Params) -> Result<Ledger, GenesisFault>
        ensures judged { Answers (λ _. tt) genesis_told result (unless (genesis_refusal params)) }
        ensures begun { IfOk result (λ ledger. ledger ≡ begun params) }
    {
        check_params(&params)?;
        let Params { maturity, funds } = params;
        funds.know();
        let id = genesis_id(alloc, funds.as_slice())?;
        let begun = make_genesis(alloc, &id, funds.as_slice())?;
        if begun.twice.is_some() {
            return Err(GenesisFault::Memory);
        }
        let ids = List::from_slice(alloc, &[id])?;
        let mut catalog = Catalog::new(alloc);
        catalog.append(begun.made)?;
        Ok(Ledger {
            maturity,
            funds,
            blocks: List::new(alloc),
            ids,
            catalog,
            marks: List::new(alloc),
        })
    }

    /// Whether a block may follow. It counts one step.
    ///
    /// # Errors
    /// Exactly the first rule that the block breaks, or want of memory.
    pub fn check_block<C: SigCheck, L: StepBook>(
        &self,
        alloc: Global,
        block: &Block,
        check: &C,
        steps: &mut Steps<L>,
    ) -> Result<(), BlockFault>
        ensures judged { Answers (λ _. tt) block_told result (unless (refusal C.verdict self.now block.now)) }
        ensures twice { IfErr result (λ fault. (id : Sequence ℕ) → fault ≡ block_fault.SameId id → IsMadeTwice (extended self.now block.now) id) }
        ensures counted { steps.new ≡ steps.old + 1 }
    {
        steps.tick();
        self.judge(alloc, block, check)?;
        Ok(())
    }

    /// Puts a block behind the last one. It counts one step.
    ///
    /// # Errors
    /// Exactly the first rule that the block breaks, or want of memory.
    pub fn apply<C: SigCheck, L: StepBook>(
        &mut self,
        alloc: Global,
        block: &Block,
        check: &C,
        steps: &mut Steps<L>,
    ) -> Result<(), BlockFault>
        ensures judged { Answers (λ _. tt) block_told result (unless (refusal C.verdict self.old block.now)) }
        ensures applied { OnOk result (self.new ≡ extended self.old block.now) }
        ensures unchanged { OnErr result (self.new ≡ self.old) }
        ensures twice { IfErr result (λ fault. (id : Sequence ℕ) → fault ≡ block_fault.SameId id → IsMadeTwice (extended self.old block.now) id) }
        ensures counted { steps.new ≡ steps.old + 1 }
    {
        steps.tick();
        let judged = self.judge(alloc, block, check)?;
        let copy = block.copy(alloc)?;
        push_block(
            &mut self.blocks,
            &mut self.ids,
            &mut self.catalog,
            &mut self.marks,
            copy,
            judged,
        )?;
        Ok(())
    }

    /// Drops the last block and all that it made and did. It counts no step.
    ///
    /// # Errors
    /// `NoBlock` exactly where the chain has no block.
    pub fn revert<L: StepBook>(&mut self, _steps: &mut Steps<L>) -> Result<(), RevertFault>
        ensures refused { (result ≡ Err revert_fault.NoBlock) ↔ (height self.old ≡ 0) }
        ensures reverted { OnOk result (self.new ≡ shortened self.old) }
        ensures unchanged { OnErr result (self.new ≡ self.old) }
        ensures counted { _steps.new ≡ _steps.old }
    {
        match self.blocks.pop() {
            None => Err(RevertFault::NoBlock),
            Some(_) => {
                drop_block(&mut self.ids, &mut self.catalog, &mut self.marks);
                Ok(())
            }
        }
    }

    /// Whether a transaction may stand in a next block, as its first.
    ///
    /// # Errors
    /// Exactly the first rule that the transaction breaks, or want of memory.
    pub fn check_set<C: SigCheck>(
        &self,
        alloc: Global,
        tx: &Transaction,
        check: &C,
    ) -> Result<(), BlockFault>
        ensures { Answers (λ _. tt) block_told result (unless (set_refusal C.verdict self.now tx.now)) }
    {
        judge_alone(alloc, &self.base(), tx, check)
    }

    /// What the chain holds.
    pub fn sums(&self) -> Sums
        ensures exact { result ≡ sums_of self.now }
        ensures conserved { result.outputs + result.escrow + result.unclaimed ≡ result.issued }
    {
        let height = self.height();
        let base = self.base();
        let register = base.catalog().register();
        let (outputs, escrow) = (register.outputs(), register.escrow());
        let issued = issued_at(height);
        Sums {
            height,
            outputs,
            immature: sum_of_immature(height + 1, self.young()),
            escrow,
            pool: register.pool(),
            unclaimed: issued - outputs - escrow,
            issued,
        }
    }

    /// The height of the last block; that of the genesis is 0.
    pub fn height(&self) -> u64
        ensures { result ≡ height self.now }
    {
        self.blocks.len() as u64
    }

    /// The identifier of the last block, or of the genesis where there is none.
    #[tactic(auto, unfolding(crate::specs::Holdings::tip))]
    pub fn tip(&self) -> Hash
        ensures { result ≡ tip self.now }
    {
        self.base().tip()
    }

    /// The identifier of the block at a height, the genesis being at 0; `None` above the height of the last block.
    pub fn block_at(&self, height: u64) -> Option<Hash>
        ensures { result ≡ id_at self.now height }
    {
        self.base().ids().get(height as usize).copied()
    }

    /// How the contract with this identifier stands: valid exactly where a block of the chain holds a storage proof for it, and
    /// missed exactly where the chain has the block of its end and no block up to that one holds one.
    pub fn status(&self, contract: &Hash) -> Status
        ensures exact { result ≡ status_of self.now contract.now }
        ensures valid { (result ≡ status.Valid) ↔ HoldsProof self.now contract.now }
        ensures right { EachProofIsRight self.now }
        ensures missed { (result ≡ status.Missed) ↔ EndedUnproved self.now contract.now }
    {
        status_among(self.base().catalog().register(), contract)
    }

    /// The present terms of the running contract with this identifier; `None` where none runs. Its error is want of memory.
    pub fn terms(&self, alloc: Global, contract: &Hash) -> Result<Option<Terms>, AllocError>
        ensures { IfOk result (λ terms. terms ≡ terms_of self.now contract.now) }
    {
        terms_among(alloc, self.base().catalog().register(), contract)
    }

    /// The live siacoin outputs at an address, by ascending identifiers. Its error is want of memory.
    pub fn coins(&self, alloc: Global, address: &Hash) -> Result<List<Coin>, AllocError>
        ensures { IfOk result (λ coins. coins ≡ coins_at self.now address.now) }
    {
        owned_by(alloc, address, self.base().catalog())
    }

    /// What holds of each chain that a ledger stands for.
    pub(crate) fn know(&self)
        ensures { IsSound self.now }
    {
        let _maturity = self.maturity;
    }

    // The facts of the last blocks, with all outputs that can't be spent at the next height.
    fn young(&self) -> &[Fact]
        ensures { immature (height self.now + 1) result.now ≡ immature (height self.now + 1) (facts self.now) }
    {
        let first = self.ids.len().saturating_sub(self.maturity as usize);
        match self.marks.as_slice().get(first) {
            None => &[],
            Some(mark) => self.catalog.as_slice().split_at(*mark as usize).1,
        }
    }

    // What is kept of the chain.
    fn base(&self) -> Base<'_>
        ensures state { result ≡ state_of self.now }
        ensures ids { result.ids ≡ ids self.now }
        ensures next { next result ≡ height self.now + 1 }
        ensures low { height self.now < 2 ^ 32 }
        ensures rested { self.now.maturity ≤ 10000 }
        ensures sound { IsSound self.now }
        ensures bounded { IsBounded (state_of self.now) }
        ensures within { (block : Block) → IsBounded (with_block block (state_of self.now)) }
        ensures totals { Totals self.now (facts self.now) }
    {
        Base::new(self.ids.as_slice(), &self.catalog)
    }

    // What the block makes and does behind this chain, or the first rule that it breaks.
    fn judge<C: SigCheck>(
        &self,
        alloc: Global,
        block: &Block,
        check: &C,
    ) -> Result<Judged, BlockFault>
        ensures judged { Answers (λ _. tt) block_told result (unless (refusal C.verdict self.now block.now)) }
        ensures twice { IfErr result (λ fault. (id : Sequence ℕ) → fault ≡ block_fault.SameId id → IsMadeTwice (extended self.now block.now) id) }
        ensures typed { IsOfType block.now }
        ensures id { IfOk result (λ judged. judged.id ≡ block_id block.now) }
        ensures made { IfOk result (λ judged. (state_of self.now).facts ++ judged.made ≡ (done_by self.now.maturity block.now (state_of self.now)).facts) }
    {
        block.know();
        judge(alloc, self.maturity, &self.base(), block, check)
    }
}
