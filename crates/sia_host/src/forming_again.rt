//! Formations that are replayed.
ghost use Rattle.std.specs.Prelude.{◌≡◌, false, IfOk, OnErr};
ghost use Rattle.sia_records.specs.declared.host_record.HostRecord.TheVariants as records;
ghost use Rattle.sia_host.specs.Spoiling.{is_spoiled};
ghost use Rattle.sia_host.specs.Replaying.{IsReplayed, begins_so, formed_replays, has_coins_alone as has_coins_alone_so, is_new as is_new_so};

use crate::feeding::judge_set;
use crate::host_core::Core;
use crate::phase::Phase;
use sia_blake::Hash;
use sia_edge::SigCheck;
use sia_forms::{begins_with, both_address, pays_parties};
use sia_ids::contract_id;
use sia_kept::{KeptContract, find_contract, push_kept};
use sia_types::Transaction;
use std::alloc::{AllocError, Global};

/// The hash of zero bytes: the root of no sector, and the address of the void.
pub(crate) const ZERO_HASH: Hash = [0; 32];

impl Core {
    /// Whether a formation follows; then the host knows its contract. The error is want of memory.
    #[tactic(auto, unfolding(crate::specs::Replaying::replays, sia_kept::specs::State::with_record))]
    pub(crate) fn replay_formed<C: SigCheck>(
        &mut self,
        alloc: Global,
        renter_key: &[u8; 32],
        tx: Transaction,
        check: &C,
    ) -> Result<bool, AllocError>
        requires { is_spoiled self.old.phase ≡ false }
        ensures gives { IfOk result (λ follows. IsReplayed C.verdict self.old (records.Formed renter_key.now tx) follows self.new) }
        ensures kept { OnErr result (self.new ≡ self.old) }
    {
        if !self.formation_follows(alloc, renter_key, &tx, check)? {
            return Ok(false);
        }
        let kept = KeptContract::formed(alloc, &self.settings.host_key, renter_key, tx)?;
        push_kept(&mut self.contracts, kept)?;
        self.records = self.records.saturating_add(1);
        self.phase = Phase::Settled;
        Ok(true)
    }

    // Whether a formation follows.
    fn formation_follows<C: SigCheck>(
        &self,
        alloc: Global,
        renter_key: &[u8; 32],
        tx: &Transaction,
        check: &C,
    ) -> Result<bool, AllocError>
        ensures { IfOk result (λ follows. follows ≡ formed_replays C.verdict self.now renter_key.now tx.now) }
    {
        if !tx.revisions.is_empty()
            || !has_coins_alone(tx)
            || !self.begins_empty(alloc, renter_key, tx)?
        {
            return Ok(false);
        }
        self.is_new(alloc, tx, check)
    }

    // Whether the one contract of a transaction begins with nothing, under both keys, and pays both parties alike whether it is proved or
    // not.
    fn begins_empty(
        &self,
        alloc: Global,
        renter_key: &[u8; 32],
        tx: &Transaction,
    ) -> Result<bool, AllocError>
        ensures { IfOk result (λ begins. begins ≡ begins_so self.now renter_key.now tx.now.contracts) }
    {
        let [contract] = tx.contracts.as_slice() else {
            return Ok(false);
        };
        let address = both_address(alloc, renter_key, &self.settings.host_key)?;
        Ok(
            begins_with(contract, 0, &ZERO_HASH, &address)
                && pays_parties(&self.settings, 0, &contract.valid, &contract.missed),
        )
    }

    /// Whether a transaction forms no contract that the host knows, and breaks no rule of the chain as the first of a next block. The
    /// error is want of memory.
    pub(crate) fn is_new<C: SigCheck>(
        &self,
        alloc: Global,
        tx: &Transaction,
        check: &C,
    ) -> Result<bool, AllocError>
        ensures { IfOk result (λ new. new ≡ is_new_so C.verdict self.now tx.now) }
    {
        let id = contract_id(alloc, tx, 0)?;
        if find_contract(&self.contracts, &id).is_some() {
            return Ok(false);
        }
        let fault = judge_set(alloc, &self.ledger, tx, check)?;
        Ok(fault.is_none())
    }
}

/// Whether a transaction has nothing but siacoins, fees, contracts and revisions; it may be signed.
pub(crate) fn has_coins_alone(tx: &Transaction) -> bool
    ensures { result ≡ has_coins_alone_so tx.now }
{
    tx.proofs.is_empty()
        && tx.fund_inputs.is_empty()
        && tx.fund_outputs.is_empty()
        && tx.notes.is_empty()
}
