//! Changes of a contract's sectors that a session proposes.
ghost use Rattle.std.specs.Prelude.{◌≡◌, ℕ, length, IfOk, IfSome, IsTrue, OnErr};
ghost use Rattle.std.specs.List.{count_by, sum_by};
ghost use Rattle.sia_encoding.specs.Answer.{Answers as Tells};
ghost use Rattle.sia_diff.specs.DiffSteps.{is_fit};
ghost use Rattle.sia_records.specs.Writes.{is_prepared, is_update as is_update_so, steps_of};
ghost use Rattle.sia_host.specs.Answered.{Gives};
ghost use Rattle.sia_host.specs.Paying.{open_now, unpaid as unpaid_so, unrefused};
ghost use Rattle.sia_host.specs.Refusals.{code_told};
ghost use Rattle.sia_host.specs.Writing.{IsWritten, can_write as can_write_so, is_append as is_append_so, is_swap as is_swap_so, update_bytes as update_bytes_so, write_fault as write_fault_so, write_payment, write_price as write_price_so, write_proof as write_proof_so};

use crate::host_core::Core;
use crate::refusal::Refusal;
use sia_commands::codes::{BAD_ACTION, STORE_FULL};
use sia_commands::{Call, Kind, Outcome, Reply, Room, Step};
use sia_diff::touched;
use sia_kept::{KeptContract, Rerooted, reroot};
use sia_price::Priced;
use sia_records::PreparedWrite;
use sia_rhp::{Action, Answer, WriteAnswer, WriteRequest};
use std::alloc::{AllocError, Global};

impl Core {
    /// A session proposes to change its contract's sectors.
    pub(crate) fn write(
        &mut self,
        alloc: Global,
        room: &Room,
        worker: u64,
        session: u64,
        write: PreparedWrite,
    ) -> Result<Step, AllocError>
        ensures gives { IfOk result (λ step. Gives (IsWritten self.old room.now worker session write) self.old step self.new) }
        ensures kept { OnErr result (self.new ≡ self.old) }
    {
        let call = Call {
            worker,
            session,
            kind: Kind::Write,
        };
        let held = self.held(session);
        match self.judge_write(alloc, room, session, &write) {
            Err(Refusal::Memory) => Err(AllocError),
            Err(Refusal::Code(code)) => self.refuse(alloc, call, held, code),
            Ok(contract) => {
                let id = contract.id;
                let proof = write_proof(alloc, contract, write)?;
                self.answer(
                    alloc,
                    call,
                    Some(id),
                    Outcome::Fine,
                    Reply::Said(Answer::Write(proof)),
                )
            }
        }
    }

    /// The contract that a write may change, or why it may not.
    pub(crate) fn judge_write(
        &self,
        alloc: Global,
        room: &Room,
        session: u64,
        write: &PreparedWrite,
    ) -> Result<&KeptContract, Refusal>
        ensures { Tells (λ c. c.now) code_told result (unrefused (write_fault_so self.now room.now write.now) (open_now self.now session)) }
    {
        let contract = self.open(session)?;
        match self.write_fault(alloc, room, write, contract) {
            Err(_) => Err(Refusal::Memory),
            Ok(Some(code)) => Err(Refusal::Code(code)),
            Ok(None) => Ok(contract),
        }
    }

    // Why a write of this contract is refused.
    #[tactic(auto, using(crate::proofs::Writable::sectors_counted))]
    fn write_fault(
        &self,
        alloc: Global,
        room: &Room,
        write: &PreparedWrite,
        contract: &KeptContract,
    ) -> Result<Option<u64>, AllocError>
        ensures { IfOk result (λ fault. fault ≡ write_fault_so self.now room.now write.now contract.now) }
    {
        if !self.can_write(alloc, write, contract)? {
            return Ok(Some(BAD_ACTION));
        }
        let unpaid = self.unpaid_write(contract, write.request())?;
        if unpaid.is_some() {
            return Ok(unpaid);
        }
        if (room.free.len() as u64) < write.sectors() {
            return Ok(Some(STORE_FULL));
        }
        Ok(None)
    }

    // Whether the steps of a write are fit.
    fn can_write(
        &self,
        alloc: Global,
        write: &PreparedWrite,
        contract: &KeptContract,
    ) -> Result<bool, AllocError>
        ensures { IfOk result (λ can. can ≡ can_write_so self.now contract.now write.now) }
    {
        if !write.fits(self.settings.sector) {
            return Ok(false);
        }
        let places = touched(alloc, contract.sectors.count(), write.steps())?;
        Ok(places.is_some())
    }

    // Why a write isn't paid.
    fn unpaid_write(
        &self,
        contract: &KeptContract,
        request: &WriteRequest,
    ) -> Result<Option<u64>, AllocError>
        ensures { IfOk result (λ fault. fault ≡ unpaid_so self.now contract.now (write_price_so request.now.actions) (write_payment request.now)) }
    {
        let price = write_price(request.actions.as_slice())?;
        let valid = request.valid.as_slice();
        let missed = request.missed.as_slice();
        Ok(self.unpaid(contract, &price, request.number, valid, missed))
    }
}

// The proof of a write whose steps are fit. The error is want of memory.
fn write_proof(
    alloc: Global,
    contract: &KeptContract,
    write: PreparedWrite,
) -> Result<WriteAnswer, AllocError>
    requires prepared { (sector : ℕ) × IsTrue (is_prepared sector write) }
    requires fit { IsTrue (is_fit (length contract.now.sectors) (steps_of write)) }
    ensures { IfOk result (λ answer. answer ≡ write_proof_so contract.now write) }
{
    let made = reroot(alloc, contract.sectors.tree(), write.steps())?;
    let updates = write.into_updates();
    let Rerooted {
        root,
        count: _,
        leaves,
        nodes,
    } = made;
    Ok(WriteAnswer {
        root,
        leaves,
        nodes,
        updates,
    })
}

// What is paid for actions. Bytes that are there pass no number of 64 bits; did they, memory would be said to be out.
fn write_price(actions: &[Action]) -> Result<Priced, AllocError>
    ensures { IfOk result (λ price. price ≡ write_price_so actions.now) }
{
    let Some(update_bytes) = all_update_bytes(actions) else {
        return Err(AllocError);
    };
    Ok(Priced::Write {
        appends: appends_of(actions),
        swaps: swaps_of(actions),
        updates: updates_of(actions),
        update_bytes,
    })
}

// How many actions append a sector.
fn appends_of(actions: &[Action]) -> u64
    ensures { result ≡ count_by is_append_so actions.now }
{
    actions.iter().filter(|action| is_append(action)).count() as u64
}

// How many swap two.
fn swaps_of(actions: &[Action]) -> u64
    ensures { result ≡ count_by is_swap_so actions.now }
{
    actions.iter().filter(|action| is_swap(action)).count() as u64
}

// How many change bytes of a sector.
fn updates_of(actions: &[Action]) -> u64
    ensures { result ≡ count_by is_update_so actions.now }
{
    actions.iter().filter(|action| is_update(action)).count() as u64
}

// How many bytes actions change in sectors, if that is a number of 64 bits.
fn all_update_bytes(actions: &[Action]) -> Option<u64>
    ensures { IfSome result (λ total. total ≡ sum_by update_bytes_so actions.now) }
{
    let mut total: u64 = 0;
    for action in actions {
        total = total.checked_add(update_bytes(action))?;
    }
    Some(total)
}

// How many bytes an action changes in a sector.
fn update_bytes(action: &Action) -> u64
    ensures { result ≡ update_bytes_so action.now }
{
    match action {
        Action::Update { bytes, .. } => bytes.len() as u64,
        Action::Append(_) | Action::Trim(_) | Action::Swap(_, _) => 0,
    }
}

// Whether an action appends a sector.
fn is_append(action: &Action) -> bool
    ensures { result ≡ is_append_so action.now }
{
    matches!(action, Action::Append(_))
}

// Whether an action swaps two.
fn is_swap(action: &Action) -> bool
    ensures { result ≡ is_swap_so action.now }
{
    matches!(action, Action::Swap(_, _))
}

// Whether an action changes bytes of a sector.
fn is_update(action: &Action) -> bool
    ensures { result ≡ is_update_so action.now }
{
    matches!(action, Action::Update { .. })
}
