//! The lock of a contract.
ghost use Rattle.std.specs.Prelude.{◌≡◌, ◌++◌, codes, None, Some, Ok, IfOk, OnErr};
ghost use Rattle.sia_blake.specs.Blake2b.{blake2b_256};
ghost use Rattle.sia_encoding.specs.Answer.{Answers as Tells};
ghost use Rattle.sia_host.specs.Answered.{IsReaction, holder_now};
ghost use Rattle.sia_kept.specs.State.{Kept};
ghost use Rattle.sia_host.specs.Locking.{lock_acquired, lock_reaction, lock_given, lock_hash as lock_hash_so, lock_judged as lock_judged_so, lock_missed, unlock_reaction};
ghost use Rattle.sia_host.specs.Refusals.{code_told};

use crate::host_core::Core;
use crate::refusal::Refusal;
use sia_blake::{Hash, Hasher};
use sia_commands::codes::{BAD_SIGNATURE, WRONG_STATE};
use sia_commands::{Call, Kind, Outcome, Reply, Step};
use sia_edge::SigCheck;
use sia_kept::KeptContract;
use sia_rhp::{Answer, LockAnswer, LockRequest};
use sia_types::{Item, List};
use std::alloc::{AllocError, Global};

/// The label of what a request for a lock signs, filled with zero bytes to 16.
const SIA_CHALLENGE: [u8; 16] = *b"sia challenge\0\0\0";

impl Core {
    /// A session asks for the lock of a contract.
    pub(crate) fn lock<C: SigCheck>(
        &mut self,
        alloc: Global,
        worker: u64,
        session: u64,
        request: &LockRequest,
        check: &C,
    ) -> Result<Step, AllocError>
        ensures gives { IfOk result (λ step. IsReaction self.old (lock_reaction C.verdict self.old worker session request.now) step self.new) }
        ensures kept { OnErr result (self.new ≡ self.old) }
    {
        let call = Call {
            worker,
            session,
            kind: Kind::Lock,
        };
        let id = request.contract;
        match self.judge_lock(session, request, check) {
            Err(Refusal::Memory) => Err(AllocError),
            Err(Refusal::Code(code)) => self.refuse(alloc, call, Some(id), code),
            Ok(contract) => {
                let answer = self.acquired(alloc, contract)?;
                self.lock_judged(alloc, call, &id, answer)
            }
        }
    }

    // The answer to a request for a lock that was judged, where it would be this one if nobody holds the contract.
    fn lock_judged(
        &mut self,
        alloc: Global,
        call: Call,
        id: &Hash,
        acquired: LockAnswer,
    ) -> Result<Step, AllocError>
        ensures gives { (contract : Kept) → acquired ≡ lock_acquired self.old contract → IfOk result (λ step. IsReaction self.old (lock_given self.old call id.now (Ok contract) (holder_now self.old id.now)) step self.new) }
        ensures kept { OnErr result (self.new ≡ self.old) }
    {
        let named = *id;
        match self.log.holder(id) {
            Some(holder) => {
                let missed = self.missed(alloc, holder);
                self.answer(
                    alloc,
                    call,
                    Some(named),
                    Outcome::Held(holder),
                    Reply::Said(Answer::Lock(missed)),
                )
            }
            None => self.answer(
                alloc,
                call,
                Some(named),
                Outcome::Fine,
                Reply::Said(Answer::Lock(acquired)),
            ),
        }
    }

    /// A session gives its lock back.
    pub(crate) fn unlock(
        &mut self,
        alloc: Global,
        worker: u64,
        session: u64,
    ) -> Result<Step, AllocError>
        ensures gives { IfOk result (λ step. IsReaction self.old (unlock_reaction self.old worker session) step self.new) }
        ensures kept { OnErr result (self.new ≡ self.old) }
    {
        let call = Call {
            worker,
            session,
            kind: Kind::Unlock,
        };
        match self.held(session) {
            None => self.refuse(alloc, call, None, WRONG_STATE),
            Some(id) => self.answer(
                alloc,
                call,
                Some(id),
                Outcome::Fine,
                Reply::Said(Answer::Unlock),
            ),
        }
    }

    // The contract that a session may lock, if nobody holds it.
    fn judge_lock<C: SigCheck>(
        &self,
        session: u64,
        request: &LockRequest,
        check: &C,
    ) -> Result<&KeptContract, Refusal>
        ensures { Tells (λ c. c.now) code_told result (lock_judged_so C.verdict self.now session request.now) }
    {
        let live = self.idle(session)?;
        let contract = self.contract(&request.contract)?;
        let hash = lock_hash(&live.challenge, &request.contract);
        if !check.accepts(&contract.renter_key, &hash, request.signature.as_slice()) {
            return Err(Refusal::Code(BAD_SIGNATURE));
        }
        Ok(contract)
    }

    // The answer to a lock that is acquired.
    fn acquired(&self, alloc: Global, contract: &KeptContract) -> Result<LockAnswer, AllocError>
        ensures { IfOk result (λ answer. answer ≡ lock_acquired self.now contract.now) }
    {
        let challenge = self.log.next_challenge();
        Ok(LockAnswer {
            acquired: true,
            holder: 0,
            challenge,
            newest: Some(contract.newest.copy(alloc)?),
            signatures: Item::copy(&contract.signatures, alloc)?,
        })
    }

    // The answer to a lock that a session holds.
    fn missed(&self, alloc: Global, holder: u64) -> LockAnswer
        ensures { result ≡ lock_missed self.now holder }
    {
        let challenge = self.log.next_challenge();
        LockAnswer {
            acquired: false,
            holder,
            challenge,
            newest: None,
            signatures: List::new(alloc),
        }
    }
}

// What a request for a lock signs.
#[tactic(auto, unfolding(crate::specs::Locking::lock_hash))]
fn lock_hash(challenge: &[u8; 16], contract: &Hash) -> Hash
    ensures { result ≡ lock_hash_so challenge.now contract.now }
{
    let mut hasher = Hasher::new();
    hasher.update(&SIA_CHALLENGE);
    hasher.update(challenge);
    hasher.update(contract);
    hasher.finish()
}
