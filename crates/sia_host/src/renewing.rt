//! Contracts that are renewed.
ghost use Rattle.std.specs.Prelude.{◌≡◌, [], ◌∷◌, List as Sequence, None, Some, IfOk, IsSome, OnErr};
ghost use Rattle.sia_encoding.specs.Answer.{Answers as Tells};
ghost use Rattle.sia_forms.specs.Building.{finished};
ghost use Rattle.sia_forms.specs.Renewing.{clearing};
ghost use Rattle.sia_records.specs.declared.host_record.HostRecord.TheVariants as records;
ghost use Rattle.sia_types.specs.declared.signature.Signature.{Signature as Signed};
ghost use Rattle.sia_host.specs.Answered.{Gives, IsReaction, held_now, record_payload};
ghost use Rattle.sia_host.specs.Forming.{with_additions as with_additions_so};
ghost use Rattle.sia_host.specs.Paying.{open_now};
ghost use Rattle.sia_host.specs.Proposals.{Proposes};
ghost use Rattle.sia_host.specs.Refusals.{code_told};
ghost use Rattle.sia_host.specs.Renewing.{AreRenewalSigned, IsRenewed, IsRenewSigned, RenewsSigned, renew_judged, renew_kept as renew_kept_so, renew_unless, renew_terms as renew_terms_so};
ghost use Rattle.sia_kept.specs.State.{IsSound, Kept, after_renewal};

use crate::feeding::{frame, judge_set, lacks_room};
use crate::forming::keeping_fault;
use crate::host_core::Core;
use crate::proposals::with_additions;
use crate::refusal::Refusal;
use sia_blake::Hash;
use sia_commands::codes::{BAD_CONTRACT, TOO_LATE};
use sia_commands::{Call, Kind, Outcome, Reply, Room, Step};
use sia_edge::{SigCheck, Signer};
use sia_forms::{Additions, FormFault, check_renew, finish};
use sia_journal::RecordBuf;
use sia_kept::{Typed, renew_kept, sign_for, sign_inputs};
use sia_records::HostRecord;
use sia_rhp::Answer;
use sia_types::{Item, List, Signature, Transaction};
use std::alloc::{AllocError, Global};

impl Core {
    /// A session proposes to renew its contract.
    pub(crate) fn renew(
        &mut self,
        alloc: Global,
        worker: u64,
        session: u64,
        tx: &Transaction,
    ) -> Result<Step, AllocError>
        ensures gives { IfOk result (λ step. Gives (IsRenewed self.old worker session tx.now) self.old step self.new) }
        ensures kept { OnErr result (self.new ≡ self.old) }
    {
        let call = Call {
            worker,
            session,
            kind: Kind::Renew,
        };
        let held = self.held(session);
        match self.propose_renew(alloc, session, tx) {
            Err(Refusal::Memory) => Err(AllocError),
            Err(Refusal::Code(code)) => self.refuse(alloc, call, held, code),
            Ok(added) => {
                let Additions { inputs, outputs } = added;
                self.answer(
                    alloc,
                    call,
                    held,
                    Outcome::Fine,
                    Reply::Said(Answer::Renew { inputs, outputs }),
                )
            }
        }
    }

    /// A session signs the renewal that it proposed.
    pub(crate) fn renew_sign<C: SigCheck, G: Signer>(
        &mut self,
        alloc: Global,
        room: &Room,
        worker: u64,
        session: u64,
        tx: Transaction,
        renter: List<Signature>,
        check: &C,
        signer: &G,
    ) -> Result<Step, AllocError>
        ensures gives { IfOk result (λ step. Gives (IsRenewSigned C.verdict (G.Makes (G.public_key signer.now)) self.old room.now worker session tx renter) self.old step self.new) }
        ensures kept { OnErr result (self.new ≡ self.old) }
    {
        let call = Call {
            worker,
            session,
            kind: Kind::RenewSign,
        };
        let held = self.held(session);
        match self.propose_renew(alloc, session, &tx) {
            Err(Refusal::Memory) => Err(AllocError),
            Err(Refusal::Code(code)) => self.refuse(alloc, call, held, code),
            Ok(added) => self.renew_whole(alloc, room, call, tx, added, renter, check, signer),
        }
    }

    // What the host adds to the proposal of a renewal, or why the proposal is refused. What it adds leaves the host sound, whoever
    // signs.
    fn propose_renew(
        &self,
        alloc: Global,
        session: u64,
        tx: &Transaction,
    ) -> Result<Additions, Refusal>
        ensures proposes { Proposes self.now tx.now (renew_judged self.now session tx.now) result }
        ensures held { IfOk result (λ _. IsSome (held_now self.now session)) }
        ensures sound { IfOk result (λ added. (renter host : Sequence Signed) → IsSound self.now.settings.sector self.now.settings.host_key (after_renewal self.now.settings.host_key (finished tx.now added renter host) self.now.state.contracts tx.now.revisions)) }
    {
        let _known = &self.contracts;
        let collateral = self.renew_terms(alloc, session, tx)?;
        self.host_part(alloc, tx, collateral)
    }

    // The collateral by the terms of a renewal.
    fn renew_terms(&self, alloc: Global, session: u64, tx: &Transaction) -> Result<u128, Refusal>
        ensures terms { Tells (λ collateral. collateral) code_told result (renew_terms_so self.now session tx.now) }
        ensures clears { IfOk result (λ _. (c : Kept) → open_now self.now session ≡ Ok c → tx.now.revisions ≡ clearing c.newest ∷ []) }
    {
        let contract = self.open(session)?;
        if self.is_late(contract) {
            return Err(Refusal::Code(TOO_LATE));
        }
        let settings = self.settings_now();
        contract.newest.know();
        tx.revisions.know();
        match check_renew(alloc, tx, &contract.newest, &settings) {
            Ok(collateral) => Ok(collateral),
            Err(FormFault::NoFunds { .. }) => Err(Refusal::Code(BAD_CONTRACT)),
            Err(FormFault::BadContract { .. }) => Err(Refusal::Code(BAD_CONTRACT)),
            Err(FormFault::Memory) => Err(Refusal::Memory),
        }
    }

    // The answer to a renewal that is signed, with what the host adds.
    fn renew_whole<C: SigCheck, G: Signer>(
        &mut self,
        alloc: Global,
        room: &Room,
        call: Call,
        tx: Transaction,
        added: Additions,
        renter: List<Signature>,
        check: &C,
        signer: &G,
    ) -> Result<Step, AllocError>
        requires held { IsSome (held_now self.old call.session) }
        requires sound { (mine theirs : Sequence Signed) → IsSound self.old.settings.sector self.old.settings.host_key (after_renewal self.old.settings.host_key (finished tx added mine theirs) self.old.state.contracts tx.revisions) }
        ensures gives { IfOk result (λ step. Gives (RenewsSigned C.verdict (G.Makes (G.public_key signer.now)) self.old room.now call tx renter added) self.old step self.new) }
        ensures kept { OnErr result (self.new ≡ self.old) }
    {
        let Some(held) = self.held(call.session) else {
            unreachable!()
        };
        let mut unsigned = with_additions(alloc, &tx, &added)?;
        let signatures = sign_renewal(alloc, &mut unsigned, &held, &added, signer)?;
        let host = Item::copy(&signatures, alloc)?;
        let whole = finish(tx, added, renter, host)?;
        self.renew_kept(alloc, room, call, held, whole, signatures, check)
    }

    // The answer to a renewal by its whole transaction, with the signatures in it that are the host's.
    fn renew_kept<C: SigCheck>(
        &mut self,
        alloc: Global,
        room: &Room,
        call: Call,
        held: Hash,
        tx: Transaction,
        signatures: List<Signature>,
        check: &C,
    ) -> Result<Step, AllocError>
        requires held { held_now self.old call.session ≡ Some held }
        requires sound { IsSound self.old.settings.sector self.old.settings.host_key (after_renewal self.old.settings.host_key tx self.old.state.contracts tx.revisions) }
        ensures gives { IfOk result (λ step. IsReaction self.old (renew_kept_so C.verdict self.old room.now call tx signatures) step self.new) }
        ensures kept { OnErr result (self.new ≡ self.old) }
    {
        let fault = judge_set(alloc, &self.ledger, &tx, check)?;
        let framed = frame_renewed(alloc, &tx)?;
        match keeping_fault(lacks_room(room, &framed), &fault) {
            Some(code) => self.refuse(alloc, call, Some(held), code),
            None => self.record_renewed(alloc, call, held, tx, framed, signatures),
        }
    }

    // A renewal is recorded.
    #[tactic(auto, unfolding(sia_kept::specs::State::with_record))]
    fn record_renewed(
        &mut self,
        alloc: Global,
        call: Call,
        held: Hash,
        tx: Transaction,
        framed: RecordBuf,
        signatures: List<Signature>,
    ) -> Result<Step, AllocError>
        requires framed { framed ≡ record_payload (records.Renewed tx) }
        requires held { held_now self.old call.session ≡ Some held }
        requires sound { IsSound self.old.settings.sector self.old.settings.host_key (after_renewal self.old.settings.host_key tx self.old.state.contracts tx.revisions) }
        ensures gives { IfOk result (λ step. IsReaction self.old (renew_unless self.old call tx signatures None) step self.new) }
        ensures kept { OnErr result (self.new ≡ self.old) }
    {
        self.log.reserve()?;
        renew_kept(alloc, &mut self.contracts, &self.settings.host_key, tx)?;
        self.records = self.records.saturating_add(1);
        let event = self.event(call, Some(held), Outcome::Fine);
        self.log.note(event);
        Ok(Step::plain(
            alloc,
            Reply::Said(Answer::RenewSign(signatures)),
            Some(framed),
        ))
    }
}

// The host's signatures of a renewal, for the contract that it clears and for what the host adds, over the whole transaction without
// signatures, which stays. The error is want of memory.
fn sign_renewal<G: Signer>(
    alloc: Global,
    unsigned: &mut Transaction,
    held: &Hash,
    added: &Additions,
    signer: &G,
) -> Result<List<Signature>, AllocError>
    requires { unsigned.old.signatures ≡ [] }
    ensures { IfOk result (AreRenewalSigned (G.Makes (G.public_key signer.now)) unsigned.old (Some held.now) added.now) }
{
    let first = sign_for(alloc, unsigned, held, 1, signer)?;
    let mut others = sign_inputs(alloc, unsigned, added.inputs.as_slice(), signer)?;
    let mut signatures = List::new(alloc);
    signatures.push(first)?;
    signatures.append(&mut others)?;
    Ok(signatures)
}

// Frames the record of a renewal. The error is want of memory.
fn frame_renewed(alloc: Global, tx: &Transaction) -> Result<RecordBuf, AllocError>
    ensures { IfOk result (λ framed. framed ≡ record_payload (records.Renewed tx.now)) }
{
    frame(alloc, &HostRecord::Renewed(tx.copy(alloc)?))
}
