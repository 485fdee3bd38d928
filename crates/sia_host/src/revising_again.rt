//! Revisions that are replayed.
ghost use Rattle.std.specs.Prelude.{◌≡◌, ◌&&◌, true, false, map, length, Some, IfOk, IsTrue, OnErr};
ghost use Rattle.std.specs.Option.{option_map_or};
ghost use Rattle.sia_diff.specs.DiffSteps.{is_fit};
ghost use Rattle.sia_price.specs.Payments.{has_same_counts as has_same_counts_so, has_same_sums as has_same_sums_so, values_of as values_so};
ghost use Rattle.sia_records.specs.declared.host_record.HostRecord.TheVariants as records;
ghost use Rattle.sia_records.specs.Stored.{step_of};
ghost use Rattle.sia_kept.specs.State.{IsStored, Kept, contract_among, revised_contract};
ghost use Rattle.sia_host.specs.Paying.{Payment, paid_revision as paid_revision_so};
ghost use Rattle.sia_host.specs.Spoiling.{is_spoiled};
ghost use Rattle.sia_host.specs.Replaying.{IsReplayed, changes_fit as changes_fit_so, expected as expected_so, payment_in, revises_contract};

use crate::host_core::Core;
use crate::paying::{is_low, was_cleared};
use crate::phase::Phase;
use crate::revising::{paid_revision, signs_revision};
use crate::same_revision::is_same_revision;
use sia_blake::Hash;
use sia_diff::touched;
use sia_edge::SigCheck;
use sia_encoding::limits::ACTIONS;
use sia_kept::{KeptContract, SignedRevision, find_contract, reroot, revise_kept};
use sia_price::{has_same_counts, has_same_sums};
use sia_records::{Change, steps_by};
use sia_types::{CoinOutput, Revision};
use std::alloc::{AllocError, Global};

/// What a revision stores.
#[derive(Clone, Copy)]
struct StoredBytes {
    /// How many bytes.
    size: u64,
    /// The root over them.
    root: Hash,
}

impl Core {
    /// Whether a revision follows; then it is the newest one of its contract. The error is want of memory.
    #[tactic(auto, unfolding(crate::specs::Replaying::replays, sia_kept::specs::State::with_record))]
    pub(crate) fn replay_revised<C: SigCheck>(
        &mut self,
        alloc: Global,
        signed: SignedRevision,
        check: &C,
    ) -> Result<bool, AllocError>
        requires { is_spoiled self.old.phase ≡ false }
        ensures gives { IfOk result (λ follows. IsReplayed C.verdict self.old (records.Revised signed.revision signed.renter signed.host signed.changes) follows self.new) }
        ensures kept { OnErr result (self.new ≡ self.old) }
    {
        if !self.revision_follows(alloc, &signed, check)? {
            return Ok(false);
        }
        revise_kept(alloc, &mut self.contracts, signed)?;
        self.records = self.records.saturating_add(1);
        self.phase = Phase::Settled;
        Ok(true)
    }

    // Whether a revision follows; then its contract stores what its changes make of its sectors.
    fn revision_follows<C: SigCheck>(
        &self,
        alloc: Global,
        signed: &SignedRevision,
        check: &C,
    ) -> Result<bool, AllocError>
        ensures follows { IfOk result (λ follows. follows ≡ option_map_or (revises_contract C.verdict self.now signed.now.revision signed.now.renter signed.now.changes) (contract_among signed.now.revision.parent self.now.state.contracts) false) }
        ensures fit { IfOk result (λ follows. follows ≡ true → (c : Kept) → contract_among signed.now.revision.parent self.now.state.contracts ≡ Some c → IsTrue (is_fit (length c.sectors) (map step_of signed.now.changes))) }
        ensures stores { IfOk result (λ follows. follows ≡ true → (c : Kept) → contract_among signed.now.revision.parent self.now.state.contracts ≡ Some c → IsStored self.now.settings.sector self.now.settings.host_key (revised_contract signed.now.revision signed.now.renter signed.now.host signed.now.changes c)) }
    {
        match find_contract(&self.contracts, &signed.revision.parent) {
            None => Ok(false),
            Some(contract) => self.revises(alloc, contract, signed, check),
        }
    }

    // Whether a revision of this contract follows; then it is the one that its changes make.
    fn revises<C: SigCheck>(
        &self,
        alloc: Global,
        contract: &KeptContract,
        signed: &SignedRevision,
        check: &C,
    ) -> Result<bool, AllocError>
        ensures follows { IfOk result (λ follows. follows ≡ revises_contract C.verdict self.now signed.now.revision signed.now.renter signed.now.changes contract.now) }
        ensures same { IfOk result (λ follows. follows ≡ true → signed.now.revision ≡ expected_so self.now contract.now (payment_in signed.now.revision) signed.now.changes) }
    {
        let revision = &signed.revision;
        if was_cleared(contract) || self.is_late(contract) || is_low(contract, revision.number) {
            return Ok(false);
        }
        if !keeps_sums(alloc, &contract.newest, revision)? {
            return Ok(false);
        }
        let changes = signed.changes.as_slice();
        if !self.changes_fit(alloc, contract, changes)? {
            return Ok(false);
        }
        let expected = self.expected(alloc, contract, revision, changes)?;
        if !is_same_revision(alloc, revision, &expected)? {
            return Ok(false);
        }
        signs_revision(alloc, &contract.renter_key, signed, check)
    }

    // Whether changes are fit for a contract's sectors, and take the least free slots.
    fn changes_fit(
        &self,
        alloc: Global,
        contract: &KeptContract,
        changes: &[Change],
    ) -> Result<bool, AllocError>
        ensures { IfOk result (λ fit. fit ≡ changes_fit_so self.now contract.now changes.now) }
    {
        if changes.len() as u64 > ACTIONS {
            return Ok(false);
        }
        let steps = steps_by(alloc, changes)?;
        let places = touched(alloc, contract.sectors.count(), steps.as_slice())?;
        if places.is_none() {
            return Ok(false);
        }
        self.takes_least(alloc, changes)
    }

    // The revision that changes that are fit make of a contract's newest one, with the number and the values of a given one.
    fn expected(
        &self,
        alloc: Global,
        contract: &KeptContract,
        revision: &Revision,
        changes: &[Change],
    ) -> Result<Revision, AllocError>
        requires { IsTrue (is_fit (length contract.now.sectors) (map step_of changes.now)) }
        ensures { IfOk result (λ made. made ≡ expected_so self.now contract.now (payment_in revision.now) changes.now) }
    {
        let valid = values_of(alloc, revision.valid.as_slice())?;
        let missed = values_of(alloc, revision.missed.as_slice())?;
        let stored = self.stored_by(alloc, contract, changes)?;
        paid_revision(
            alloc,
            contract,
            revision.number,
            stored.size,
            &stored.root,
            valid.as_slice(),
            missed.as_slice(),
        )
    }

    // What a contract's new revision stores by changes that are fit; with none it stores the same.
    fn stored_by(
        &self,
        alloc: Global,
        contract: &KeptContract,
        changes: &[Change],
    ) -> Result<StoredBytes, AllocError>
        requires { IsTrue (is_fit (length contract.now.sectors) (map step_of changes.now)) }
        ensures { IfOk result (λ stored. (p : Payment) → paid_revision_so contract.now p stored.size stored.root ≡ expected_so self.now contract.now p changes.now) }
    {
        if changes.is_empty() {
            let root = contract.newest.root;
            return Ok(StoredBytes {
                size: contract.newest.size,
                root,
            });
        }
        let steps = steps_by(alloc, changes)?;
        let made = reroot(alloc, contract.sectors.tree(), steps.as_slice())?;
        let root = made.root;
        Ok(StoredBytes {
            size: self.settings.sector * made.count,
            root,
        })
    }
}

// Whether a revision pays as many values as another one, with the same sums. The error is want of memory.
fn keeps_sums(alloc: Global, newest: &Revision, revision: &Revision) -> Result<bool, AllocError>
    ensures { IfOk result (λ keeps. keeps ≡ (has_same_counts_so newest.now (values_so revision.now.valid) (values_so revision.now.missed) && has_same_sums_so newest.now (values_so revision.now.valid) (values_so revision.now.missed))) }
{
    let valid = values_of(alloc, revision.valid.as_slice())?;
    let missed = values_of(alloc, revision.missed.as_slice())?;
    Ok(
        has_same_counts(newest, valid.as_slice(), missed.as_slice())
            && has_same_sums(newest, valid.as_slice(), missed.as_slice()),
    )
}

// The values of outputs, in order. The error is want of memory.
fn values_of(alloc: Global, outputs: &[CoinOutput]) -> Result<Vec<u128>, AllocError>
    ensures { IfOk result (λ values. values.items ≡ values_so outputs.now) }
{
    outputs.iter().map(|output| output.value).collect(alloc)
}
