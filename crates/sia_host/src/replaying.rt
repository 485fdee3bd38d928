//! Records of the host's journal that are replayed: each is judged on what the host knows by the records before it.
ghost use Rattle.std.specs.Prelude.{◌≡◌, ℕ, Bool, List as Sequence, false, MatchOption, IfOk, OnErr};
ghost use Rattle.sia_encoding.specs.Reading.{fault_told};
ghost use Rattle.sia_records.specs.declared.host_record.HostRecord.{HostRecord as Made};
ghost use Rattle.sia_records.specs.declared.host_record.HostRecord.TheVariants as records;
ghost use Rattle.sia_host.specs.Spoiling.{is_spoiled};
ghost use Rattle.sia_host.specs.Replaying.{IsPayload, IsReplayed, ReplaysPayload};

use crate::feeding::{drop_block, put_block};
use crate::host_core::Core;
use crate::phase::Phase;
use sia_edge::SigCheck;
use sia_kept::SignedRevision;
use sia_records::HostRecord;
use sia_types::{Block, DecodeFault, Item};
use std::alloc::{AllocError, Global};

impl Core {
    /// Whether a payload of the journal is a record, spelled whole and without a rest, that follows on what the host knows: some command
    /// would make it, whatever the settings and the room of that day. Then the host knows it too, and its events stay; no step is to be
    /// taken back any more. Else all is as before. The check judges signatures. Once a step was taken back it isn't to be asked.
    ///
    /// Its error is want of memory: then all is as before.
    pub fn replay<C: SigCheck>(
        &mut self,
        alloc: Global,
        payload: &[u8],
        check: &C,
    ) -> Result<bool, AllocError>
        requires { is_spoiled self.old.phase ≡ false }
        ensures replays { IfOk result (λ follows. ReplaysPayload C.verdict self.old payload.now follows self.new) }
        ensures unchanged { OnErr result (self.new ≡ self.old) }
    {
        match record_in(alloc, payload)? {
            None => Ok(false),
            Some(made) => self.replay_record(alloc, made, check),
        }
    }

    // Whether a record follows; then the host knows it.
    fn replay_record<C: SigCheck>(
        &mut self,
        alloc: Global,
        made: HostRecord,
        check: &C,
    ) -> Result<bool, AllocError>
        requires { is_spoiled self.old.phase ≡ false }
        ensures gives { IfOk result (λ follows. IsReplayed C.verdict self.old made follows self.new) }
        ensures kept { OnErr result (self.new ≡ self.old) }
    {
        match made {
            HostRecord::Block(block) => self.replay_block(alloc, &block, check),
            HostRecord::Revert => self.replay_revert(),
            HostRecord::Formed {
                renter_key,
                transaction,
            } => self.replay_formed(alloc, &renter_key, transaction, check),
            HostRecord::Revised {
                revision,
                renter,
                host,
                changes,
            } => {
                let signed = SignedRevision {
                    revision,
                    renter,
                    host,
                    changes,
                };
                self.replay_revised(alloc, signed, check)
            }
            HostRecord::Renewed(transaction) => self.replay_renewed(alloc, transaction, check),
        }
    }

    // Whether a block follows; then the chain has it.
    #[tactic(auto, unfolding(crate::specs::Replaying::replays, sia_kept::specs::State::with_record))]
    fn replay_block<C: SigCheck>(
        &mut self,
        alloc: Global,
        block: &Block,
        check: &C,
    ) -> Result<bool, AllocError>
        requires { is_spoiled self.old.phase ≡ false }
        ensures gives { IfOk result (λ follows. IsReplayed C.verdict self.old (records.Block block.now) follows self.new) }
        ensures kept { OnErr result (self.new ≡ self.old) }
    {
        match put_block(alloc, &mut self.ledger, block, check)? {
            Some(_) => Ok(false),
            None => {
                self.records = self.records.saturating_add(1);
                self.phase = Phase::Settled;
                Ok(true)
            }
        }
    }

    // Whether the chain has a last block to drop; then it is dropped.
    #[tactic(auto, unfolding(crate::specs::Replaying::replays, sia_kept::specs::State::with_record))]
    fn replay_revert(&mut self) -> Result<bool, AllocError>
        requires { is_spoiled self.old.phase ≡ false }
        ensures gives { IfOk result (λ follows. (accepts : Sequence ℕ → Sequence ℕ → Sequence ℕ → Bool) → IsReplayed accepts self.old records.Revert follows self.new) }
        ensures kept { OnErr result (self.new ≡ self.old) }
    {
        if self.ledger.height() == 0 {
            return Ok(false);
        }
        drop_block(&mut self.ledger)?;
        self.records = self.records.saturating_add(1);
        self.phase = Phase::Settled;
        Ok(true)
    }
}

// The record that a payload spells whole and without a rest, if it spells one. The error is want of memory.
fn record_in(alloc: Global, payload: &[u8]) -> Result<Option<HostRecord>, AllocError>
    ensures { IfOk result (λ found. MatchOption found ((made : Made) → ¬ IsPayload payload.now made) (IsPayload payload.now)) }
{
    match HostRecord::decode(alloc, payload, payload.len() as u64) {
        Err(fault) => match told(fault) {
            None => Err(AllocError),
            Some(_) => Ok(None),
        },
        Ok((made, taken)) => {
            if taken != payload.len() as u64 {
                return Ok(None);
            }
            Ok(Some(made))
        }
    }
}

// The fault that a reading tells: any but want of memory.
fn told(fault: DecodeFault) -> Option<DecodeFault>
    ensures { result ≡ fault_told fault }
{
    match fault {
        DecodeFault::Memory => None,
        _ => Some(fault),
    }
}
