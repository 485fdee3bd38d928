//! Renewals that are replayed.
ghost use Rattle.std.specs.Prelude.{◌≡◌, ◌∷◌, [], true, false, IfOk, OnErr};
ghost use Rattle.sia_records.specs.declared.host_record.HostRecord.TheVariants as records;
ghost use Rattle.sia_forms.specs.Checks.{is_cleared as is_cleared_so};
ghost use Rattle.sia_forms.specs.Renewing.{clearing};
ghost use Rattle.sia_kept.specs.State.{IsSound, after_renewal};
ghost use Rattle.sia_host.specs.Spoiling.{is_spoiled};
ghost use Rattle.sia_host.specs.Replaying.{IsReplayed, renewal_pays as renewal_pays_so, renewed_replays, renews_contract, renews_so};

use crate::forming_again::{ZERO_HASH, has_coins_alone};
use crate::host_core::Core;
use crate::paying::was_cleared;
use crate::phase::Phase;
use sia_edge::SigCheck;
use sia_forms::{begins_with, both_address, is_cleared};
use sia_kept::{KeptContract, Typed, find_contract, renew_kept};
use sia_types::{CoinOutput, List, Revision, Settings, Transaction};
use std::alloc::{AllocError, Global};

impl Core {
    /// Whether a renewal follows; then the old contract is cleared, and the new one has its sectors. The error is want of memory.
    #[tactic(auto, unfolding(crate::specs::Replaying::replays, sia_kept::specs::State::with_record))]
    pub(crate) fn replay_renewed<C: SigCheck>(
        &mut self,
        alloc: Global,
        tx: Transaction,
        check: &C,
    ) -> Result<bool, AllocError>
        requires { is_spoiled self.old.phase ≡ false }
        ensures gives { IfOk result (λ follows. IsReplayed C.verdict self.old (records.Renewed tx) follows self.new) }
        ensures kept { OnErr result (self.new ≡ self.old) }
    {
        if !self.renewal_follows(alloc, &tx, check)? {
            return Ok(false);
        }
        renew_kept(alloc, &mut self.contracts, &self.settings.host_key, tx)?;
        self.records = self.records.saturating_add(1);
        self.phase = Phase::Settled;
        Ok(true)
    }

    // Whether a renewal follows; then the host stays sound with it.
    fn renewal_follows<C: SigCheck>(
        &self,
        alloc: Global,
        tx: &Transaction,
        check: &C,
    ) -> Result<bool, AllocError>
        ensures follows { IfOk result (λ follows. follows ≡ renewed_replays C.verdict self.now tx.now tx.now.revisions) }
        ensures sound { IfOk result (λ follows. follows ≡ true → IsSound self.now.settings.sector self.now.settings.host_key (after_renewal self.now.settings.host_key tx.now self.now.state.contracts tx.now.revisions)) }
    {
        let [revision] = tx.revisions.as_slice() else {
            return Ok(false);
        };
        match find_contract(&self.contracts, &revision.parent) {
            None => Ok(false),
            Some(old) => self.renews(alloc, tx, old, check),
        }
    }

    // Whether a renewal of this contract follows; then its revision clears the newest one.
    fn renews<C: SigCheck>(
        &self,
        alloc: Global,
        tx: &Transaction,
        old: &KeptContract,
        check: &C,
    ) -> Result<bool, AllocError>
        ensures follows { IfOk result (λ follows. follows ≡ renews_contract C.verdict self.now tx.now old.now) }
        ensures cleared { IfOk result (λ follows. follows ≡ true → tx.now.revisions ≡ clearing old.now.newest ∷ []) }
    {
        if was_cleared(old) || self.is_late(old) {
            return Ok(false);
        }
        if !clears(alloc, &old.newest, &tx.revisions)? {
            return Ok(false);
        }
        if !has_coins_alone(tx) || !self.begins_with_stored(alloc, old, tx)? {
            return Ok(false);
        }
        self.is_new(alloc, tx, check)
    }

    // Whether the one contract of a transaction begins with what an old one stores, and pays as a renewal may.
    fn begins_with_stored(
        &self,
        alloc: Global,
        old: &KeptContract,
        tx: &Transaction,
    ) -> Result<bool, AllocError>
        ensures { IfOk result (λ begins. begins ≡ renews_so self.now old.now tx.now.contracts) }
    {
        let [contract] = tx.contracts.as_slice() else {
            return Ok(false);
        };
        let address = both_address(alloc, &old.renter_key, &self.settings.host_key)?;
        Ok(
            begins_with(contract, old.newest.size, &old.newest.root, &address)
                && renewal_pays(&self.settings, &contract.valid, &contract.missed),
        )
    }
}

// Whether the one revision clears the newest one: then it is that one. The error is want of memory.
fn clears(alloc: Global, newest: &Revision, revisions: &List<Revision>) -> Result<bool, AllocError>
    ensures clears { IfOk result (λ cleared. cleared ≡ is_cleared_so newest.now revisions.now) }
    ensures one { IfOk result (λ cleared. cleared ≡ true → revisions.now ≡ clearing newest.now ∷ []) }
{
    newest.know();
    revisions.know();
    is_cleared(alloc, newest, revisions)
}

// Whether outputs pay the renter alike whether the contract is proved or not, and the host and the void have theirs.
fn renewal_pays(settings: &Settings, valid: &List<CoinOutput>, missed: &List<CoinOutput>) -> bool
    ensures { result ≡ renewal_pays_so settings.now valid.now missed.now }
{
    let ([renter, host], [missed_renter, missed_host, void]) = (valid.as_slice(), missed.as_slice())
    else {
        return false;
    };
    missed_renter.address == renter.address
        && host.address == settings.address
        && missed_host.address == settings.address
        && void.address == ZERO_HASH
        && missed_renter.value == renter.value
}
