//! What a host adds to a proposal by which a contract begins.
ghost use Rattle.std.specs.Prelude.{◌≡◌, ◌+◌, ◌<◌, [], Err, Ok, IfOk, IfErr};
ghost use Rattle.std.specs.List.{filter};
ghost use Rattle.sia_encoding.specs.Answer.{Answers as Tells};
ghost use Rattle.sia_host.specs.Forming.{AreHosts, form_judged, form_terms as form_terms_so, free_coins as free_coins_so, funded, is_formed as is_formed_so, is_free_coin as is_free_so, is_named as is_named_so, spends as spends_so, with_additions as with_additions_so};
ghost use Rattle.sia_host.specs.Proposals.{Funds, Proposes};
ghost use Rattle.sia_host.specs.Refusals.{code_told};

use crate::host_core::Core;
use crate::refusal::Refusal;
use sia_blake::Hash;
use sia_commands::codes::{BAD_CONTRACT, NO_FUNDS};
use sia_forms::{Additions, FormFault, add_host_part, check_form, finish};
use sia_ids::contract_id;
use sia_kept::{KeptContract, find_contract};
use sia_rhp::FormRequest;
use sia_types::{Coin, Item, List, Transaction};
use std::alloc::{AllocError, Global};

impl Core {
    /// What the host adds to the proposal of a formation, or why the proposal is refused.
    pub(crate) fn propose_form(
        &self,
        alloc: Global,
        session: u64,
        request: &FormRequest,
    ) -> Result<Additions, Refusal>
        ensures { Proposes self.now request.now.transaction (form_judged self.now session request.now) result }
    {
        let collateral = self.form_terms(alloc, session, request)?;
        self.host_part(alloc, &request.transaction, collateral)
    }

    // The collateral by the terms of a formation.
    fn form_terms(
        &self,
        alloc: Global,
        session: u64,
        request: &FormRequest,
    ) -> Result<u128, Refusal>
        ensures { Tells (λ collateral. collateral) code_told result (form_terms_so self.now session request.now) }
    {
        let _live = self.idle(session)?;
        let settings = self.settings_now();
        match check_form(alloc, &request.transaction, &request.renter_key, &settings) {
            Ok(collateral) => Ok(collateral),
            Err(FormFault::NoFunds { .. }) => Err(Refusal::Code(BAD_CONTRACT)),
            Err(FormFault::BadContract { .. }) => Err(Refusal::Code(BAD_CONTRACT)),
            Err(FormFault::Memory) => Err(Refusal::Memory),
        }
    }

    /// What the host adds to a proposal for this collateral, or why the proposal is refused.
    pub(crate) fn host_part(
        &self,
        alloc: Global,
        tx: &Transaction,
        collateral: u128,
    ) -> Result<Additions, Refusal>
        ensures { Proposes self.now tx.now (funded self.now collateral) result }
    {
        let added = self.host_funds(alloc, collateral)?;
        if self.is_formed(alloc, tx, &added)? {
            return Err(Refusal::Code(BAD_CONTRACT));
        }
        Ok(added)
    }

    // What the host gives for a collateral, or that its free coins don't suffice.
    #[tactic(auto, using(crate::proofs::Funding::lacks))]
    fn host_funds(&self, alloc: Global, collateral: u128) -> Result<Additions, Refusal>
        ensures { Funds self.now collateral result }
    {
        let coins = self.free_coins(alloc)?;
        match add_host_part(alloc, collateral, coins.as_slice(), &self.settings) {
            Ok(added) => Ok(added),
            Err(FormFault::NoFunds { .. }) => Err(Refusal::Code(NO_FUNDS)),
            Err(FormFault::BadContract { .. }) => unreachable!(),
            Err(FormFault::Memory) => Err(Refusal::Memory),
        }
    }

    // The host's free coins. The error is want of memory.
    #[tactic(auto, unfolding(crate::specs::Forming::free_coins))]
    fn free_coins(&self, alloc: Global) -> Result<List<Coin>, AllocError>
        ensures { IfOk result (λ coins. coins ≡ free_coins_so self.now) }
    {
        let coins = self.ledger.coins(alloc, &self.settings.address)?;
        Ok(free_among(&self.contracts, self.ledger.height(), coins))
    }

    // Whether the host knows the contract that a proposal comes to. The error is want of memory.
    fn is_formed(
        &self,
        alloc: Global,
        tx: &Transaction,
        added: &Additions,
    ) -> Result<bool, AllocError>
        ensures { IfOk result (λ formed. formed ≡ is_formed_so self.now tx.now added.now) }
    {
        let whole = with_additions(alloc, tx, added)?;
        let id = contract_id(alloc, &whole, 0)?;
        Ok(find_contract(&self.contracts, &id).is_some())
    }
}

/// A transaction with what the host adds, and without signatures. The error is want of memory.
#[tactic(auto, unfolding(sia_forms::specs::Building::finished))]
pub(crate) fn with_additions(
    alloc: Global,
    tx: &Transaction,
    added: &Additions,
) -> Result<Transaction, AllocError>
    ensures whole { IfOk result (λ whole. whole ≡ with_additions_so tx.now added.now) }
    ensures unsigned { IfOk result (λ whole. whole.signatures ≡ []) }
{
    let mine = Additions {
        inputs: Item::copy(&added.inputs, alloc)?,
        outputs: Item::copy(&added.outputs, alloc)?,
    };
    finish(tx.copy(alloc)?, mine, List::new(alloc), List::new(alloc))
}

// Those of coins that are free, where the chain has this height.
fn free_among(contracts: &List<KeptContract>, height: u64, coins: List<Coin>) -> List<Coin>
    ensures { result ≡ filter (is_free_so contracts.now (height + 1)) coins }
{
    let mut free = coins.into_vec();
    keep_free(contracts, height, &mut free);
    List::from_vec(free)
}

// Leaves those of coins that are free, where the chain has this height.
fn keep_free(contracts: &List<KeptContract>, height: u64, coins: &mut Vec<Coin>)
    ensures { coins.new.items ≡ filter (is_free_so contracts.now (height + 1)) coins.old.items }
{
    coins.retain(|coin| is_free_coin(contracts, height, coin));
}

// Whether a coin can be spent in a block behind this height, and no contract's formation spends it.
fn is_free_coin(contracts: &List<KeptContract>, height: u64, coin: &Coin) -> bool
    ensures { result ≡ is_free_so contracts.now (height + 1) coin.now }
{
    u128::from(coin.from) <= u128::from(height) + 1 && !is_named(contracts, &coin.id)
}

// Whether a contract's formation spends the coin with this identifier.
fn is_named(contracts: &List<KeptContract>, id: &Hash) -> bool
    ensures { result ≡ is_named_so contracts.now id.now }
{
    contracts
        .as_slice()
        .iter()
        .any(|contract| spends(id, &contract.formation))
}

// Whether a transaction spends the coin with this identifier.
fn spends(id: &Hash, tx: &Transaction) -> bool
    ensures { result ≡ spends_so id.now tx.now }
{
    tx.coin_inputs
        .as_slice()
        .iter()
        .any(|input| input.parent == *id)
}
