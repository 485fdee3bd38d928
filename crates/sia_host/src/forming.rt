//! Contracts that are formed.
ghost use Rattle.std.specs.Prelude.{◌≡◌, false, None, if◌then◌else◌, IfOk, OnErr, [], All};
ghost use Rattle.sia_encoding.specs.Firsts.{broken};
ghost use Rattle.sia_ids.specs.Transactions.{contract_id as id_of};
ghost use Rattle.sia_records.specs.declared.host_record.HostRecord.TheVariants as records;
ghost use Rattle.sia_commands.specs.declared.codes.TheConstants.{BAD_SIGNATURE as bad_signature, STORE_FULL as store_full};
ghost use Rattle.sia_host.specs.Answered.{Gives, IsReaction, record_payload};
ghost use Rattle.sia_host.specs.Forming.{FormsSigned, IsFormed, IsFormSigned, form_kept, form_unless, is_formed, keeping_fault as keeping_so};
ghost use Rattle.sia_types.specs.declared.transaction.Transaction.{Transaction as Mined};
ghost use Rattle.sia_kept.specs.State.{IsStored, formed_by, is_among};

use crate::feeding::{frame, judge_set, lacks_room};
use crate::host_core::Core;
use crate::proposals::with_additions;
use crate::refusal::Refusal;
use sia_commands::codes::{BAD_CONTRACT, BAD_SIGNATURE, STORE_FULL};
use sia_commands::{Call, Kind, Outcome, Reply, Room, Step};
use sia_edge::{SigCheck, Signer};
use sia_forms::{Additions, finish};
use sia_ids::contract_id;
use sia_journal::RecordBuf;
use sia_kept::{KeptContract, push_kept, sign_inputs};
use sia_ledger::BlockFault;
use sia_records::HostRecord;
use sia_rhp::{Answer, FormRequest};
use sia_types::{Item, List, Signature, Transaction};
use std::alloc::{AllocError, Global};

impl Core {
    /// A session proposes to form a contract.
    pub(crate) fn form(
        &mut self,
        alloc: Global,
        worker: u64,
        session: u64,
        request: &FormRequest,
    ) -> Result<Step, AllocError>
        ensures gives { IfOk result (λ step. Gives (IsFormed self.old worker session request.now) self.old step self.new) }
        ensures kept { OnErr result (self.new ≡ self.old) }
    {
        let call = Call {
            worker,
            session,
            kind: Kind::Form,
        };
        match self.propose_form(alloc, session, request) {
            Err(Refusal::Memory) => Err(AllocError),
            Err(Refusal::Code(code)) => self.refuse(alloc, call, None, code),
            Ok(added) => {
                let Additions { inputs, outputs } = added;
                self.answer(
                    alloc,
                    call,
                    None,
                    Outcome::Fine,
                    Reply::Said(Answer::Form { inputs, outputs }),
                )
            }
        }
    }

    /// A session signs the formation that it proposed.
    pub(crate) fn form_sign<C: SigCheck, G: Signer>(
        &mut self,
        alloc: Global,
        room: &Room,
        worker: u64,
        session: u64,
        request: FormRequest,
        renter: List<Signature>,
        check: &C,
        signer: &G,
    ) -> Result<Step, AllocError>
        ensures gives { IfOk result (λ step. Gives (IsFormSigned C.verdict (G.Makes (G.public_key signer.now)) self.old room.now worker session request renter) self.old step self.new) }
        ensures kept { OnErr result (self.new ≡ self.old) }
    {
        let call = Call {
            worker,
            session,
            kind: Kind::FormSign,
        };
        match self.propose_form(alloc, session, &request) {
            Err(Refusal::Memory) => Err(AllocError),
            Err(Refusal::Code(code)) => self.refuse(alloc, call, None, code),
            Ok(added) => {
                self.form_whole(alloc, room, call, request, added, renter, check, signer)
            }
        }
    }

    // The answer to a formation that is signed, with what the host adds.
    fn form_whole<C: SigCheck, G: Signer>(
        &mut self,
        alloc: Global,
        room: &Room,
        call: Call,
        request: FormRequest,
        added: Additions,
        renter: List<Signature>,
        check: &C,
        signer: &G,
    ) -> Result<Step, AllocError>
        requires new { is_formed self.old request.transaction added ≡ false }
        requires stored { (whole : Mined) → whole.contracts ≡ request.transaction.contracts → All (IsStored self.old.settings.sector self.old.settings.host_key) (formed_by self.old.settings.host_key request.renter_key whole [] whole.contracts) }
        ensures gives { IfOk result (λ step. Gives (FormsSigned C.verdict (G.Makes (G.public_key signer.now)) self.old room.now call request renter added) self.old step self.new) }
        ensures kept { OnErr result (self.new ≡ self.old) }
    {
        let mut unsigned = with_additions(alloc, &request.transaction, &added)?;
        let signatures = sign_inputs(alloc, &mut unsigned, added.inputs.as_slice(), signer)?;
        let host = Item::copy(&signatures, alloc)?;
        let FormRequest {
            renter_key,
            transaction,
        } = request;
        let whole = finish(transaction, added, renter, host)?;
        self.form_kept(alloc, room, call, renter_key, whole, signatures, check)
    }

    // The answer to a formation by its whole transaction, with the signatures in it that are the host's.
    fn form_kept<C: SigCheck>(
        &mut self,
        alloc: Global,
        room: &Room,
        call: Call,
        renter_key: [u8; 32],
        tx: Transaction,
        signatures: List<Signature>,
        check: &C,
    ) -> Result<Step, AllocError>
        requires new { is_among (id_of tx 0) self.old.state.contracts ≡ false }
        requires stored { All (IsStored self.old.settings.sector self.old.settings.host_key) (formed_by self.old.settings.host_key renter_key tx [] tx.contracts) }
        ensures gives { IfOk result (λ step. IsReaction self.old (form_kept C.verdict self.old room.now call renter_key tx signatures) step self.new) }
        ensures kept { OnErr result (self.new ≡ self.old) }
    {
        let fault = judge_set(alloc, &self.ledger, &tx, check)?;
        let framed = frame_formed(alloc, &renter_key, &tx)?;
        match keeping_fault(lacks_room(room, &framed), &fault) {
            Some(code) => self.refuse(alloc, call, None, code),
            None => self.record_formed(alloc, call, &renter_key, tx, framed, signatures),
        }
    }

    // A formation is recorded.
    #[tactic(auto, unfolding(sia_kept::specs::State::with_record))]
    fn record_formed(
        &mut self,
        alloc: Global,
        call: Call,
        renter_key: &[u8; 32],
        tx: Transaction,
        framed: RecordBuf,
        signatures: List<Signature>,
    ) -> Result<Step, AllocError>
        requires framed { framed ≡ record_payload (records.Formed renter_key.now tx) }
        requires new { is_among (id_of tx 0) self.old.state.contracts ≡ false }
        requires stored { All (IsStored self.old.settings.sector self.old.settings.host_key) (formed_by self.old.settings.host_key renter_key.now tx [] tx.contracts) }
        ensures gives { IfOk result (λ step. IsReaction self.old (form_unless self.old call renter_key.now tx signatures None) step self.new) }
        ensures kept { OnErr result (self.new ≡ self.old) }
    {
        let id = contract_id(alloc, &tx, 0)?;
        let kept = KeptContract::formed(alloc, &self.settings.host_key, renter_key, tx)?;
        self.log.reserve()?;
        push_kept(&mut self.contracts, kept)?;
        self.records = self.records.saturating_add(1);
        let event = self.event(call, Some(id), Outcome::Fine);
        self.log.note(event);
        Ok(Step::plain(
            alloc,
            Reply::Said(Answer::FormSign(signatures)),
            Some(framed),
        ))
    }
}

// Frames the record of a formation. The error is want of memory.
fn frame_formed(
    alloc: Global,
    renter_key: &[u8; 32],
    tx: &Transaction,
) -> Result<RecordBuf, AllocError>
    ensures { IfOk result (λ framed. framed ≡ record_payload (records.Formed renter_key.now tx.now)) }
{
    let made = HostRecord::Formed {
        renter_key: *renter_key,
        transaction: tx.copy(alloc)?,
    };
    frame(alloc, &made)
}

/// Why a signed transaction isn't kept, where the journal may be full for its record, by the rule that it breaks, if any.
pub(crate) fn keeping_fault(full: bool, fault: &Option<BlockFault>) -> Option<u64>
    ensures { result ≡ keeping_so full fault.now }
{
    match fault {
        None => full_code(full),
        Some(BlockFault::Signature { .. }) => Some(unsigned_code(full)),
        Some(_) => Some(BAD_CONTRACT),
    }
}

// The code for a journal that may be full.
fn full_code(full: bool) -> Option<u64>
    ensures { result ≡ broken full store_full }
{
    if full { Some(STORE_FULL) } else { None }
}

// The code for a signature that isn't accepted, where the journal may be full.
fn unsigned_code(full: bool) -> u64
    ensures { result ≡ (if full then store_full else bad_signature) }
{
    if full { STORE_FULL } else { BAD_SIGNATURE }
}
