//! Parts of sectors that a session reads.
ghost use Rattle.std.specs.Prelude.{◌≡◌, ◌^◌, ◌<◌, [], IfOk, OnErr};
ghost use Rattle.std.specs.List.{sum_by};
ghost use Rattle.sia_encoding.specs.Answer.{Answers as Tells};
ghost use Rattle.sia_rhp.specs.declared.answer.Answer.TheVariants as answer;
ghost use Rattle.sia_rhp.specs.declared.request_bodies.Section.{Section as Asked};
ghost use Rattle.sia_commands.specs.declared.reply.Reply.TheVariants as reply;
ghost use Rattle.sia_kept.specs.State.{IsStored, Kept, contract_among};
ghost use Rattle.sia_host.specs.Answered.{Gives, no_work};
ghost use Rattle.sia_host.specs.Paying.{IsRevised, open_now, paid_revision as paid_revision_so, unrefused};
ghost use Rattle.sia_host.specs.Reading.{IsRead, has_sectors as has_sectors_so, read_fault as read_fault_so, read_payment, read_price as read_price_so};
ghost use Rattle.sia_host.specs.Refusals.{code_told};

use crate::host_core::Core;
use crate::refusal::Refusal;
use crate::revising::{Party, ShelfWork, paid_revision, sign_revision};
use sia_commands::codes::{BAD_RANGE, NO_SECTOR};
use sia_commands::{Call, Kind, Reply, Room, Step};
use sia_edge::{SigCheck, Signer};
use sia_kept::{KeptContract, SignedRevision};
use sia_price::Priced;
use sia_records::PaidRead;
use sia_rhp::{Answer, Part, ReadAnswer, ReadRequest, Section};
use sia_types::{Blob, List, Revision};
use std::alloc::{AllocError, Global};

impl Core {
    /// A session reads parts of its contract's sectors.
    pub(crate) fn read<C: SigCheck, G: Signer>(
        &mut self,
        alloc: Global,
        room: &Room,
        worker: u64,
        session: u64,
        read: PaidRead,
        check: &C,
        signer: &G,
    ) -> Result<Step, AllocError>
        ensures gives { IfOk result (λ step. Gives (IsRead C.verdict (G.Makes (G.public_key signer.now)) self.old room.now worker session read) self.old step self.new) }
        ensures kept { OnErr result (self.new ≡ self.old) }
    {
        let call = Call {
            worker,
            session,
            kind: Kind::Read,
        };
        let held = self.held(session);
        self.tell_sound();
        match self.judge_read(session, &read) {
            Err(Refusal::Memory) => Err(AllocError),
            Err(Refusal::Code(code)) => self.refuse(alloc, call, held, code),
            Ok(contract) => {
                let party = Party {
                    id: contract.id,
                    renter_key: contract.renter_key,
                };
                let request = read.request();
                let revision = read_revision(alloc, contract, request)?;
                let renter = request.signature.copy(alloc)?;
                let parts = read.into_parts();
                self.read_paid(
                    alloc, room, call, party, parts, revision, renter, check, signer,
                )
            }
        }
    }

    // The answer to a read by the revision that pays for it, which the renter signed.
    fn read_paid<C: SigCheck, G: Signer>(
        &mut self,
        alloc: Global,
        room: &Room,
        call: Call,
        party: Party,
        parts: List<Part>,
        revision: Revision,
        renter: Blob,
        check: &C,
        signer: &G,
    ) -> Result<Step, AllocError>
        requires stores { (c : Kept) → contract_among revision.parent self.old.state.contracts ≡ Some c → IsStored self.old.settings.sector self.old.settings.host_key (record c { newest = revision }) }
        ensures gives { IfOk result (λ step. Gives (IsRevised C.verdict (G.Makes (G.public_key signer.now)) self.old room.now call party.id party.renter_key revision renter [] (λ host. reply.Said (answer.Read (record { signature = host; parts = parts }))) no_work) self.old step self.new) }
        ensures kept { OnErr result (self.new ≡ self.old) }
    {
        let host = sign_revision(alloc, &revision, signer)?;
        let signature = host.copy(alloc)?;
        let changes = List::new(alloc);
        let signed = SignedRevision {
            revision,
            renter,
            host,
            changes,
        };
        let reply = Reply::Said(Answer::Read(ReadAnswer { signature, parts }));
        let work = ShelfWork::none(alloc);
        self.revise(alloc, room, call, party, signed, work, reply, check)
    }

    // The contract of whose sectors parts may be told, or why they may not.
    fn judge_read(&self, session: u64, read: &PaidRead) -> Result<&KeptContract, Refusal>
        ensures { Tells (λ c. c.now) code_told result (unrefused (read_fault_so self.now read.now) (open_now self.now session)) }
    {
        let contract = self.open(session)?;
        match self.read_fault(contract, read) {
            Some(code) => Err(Refusal::Code(code)),
            None => Ok(contract),
        }
    }

    // Why a read of this contract's sectors is refused.
    fn read_fault(&self, contract: &KeptContract, read: &PaidRead) -> Option<u64>
        ensures { result ≡ read_fault_so self.now read.now contract.now }
    {
        if !read.fits(self.settings.sector) {
            return Some(BAD_RANGE);
        }
        let request = read.request();
        if !has_sectors(contract, request.sections.as_slice()) {
            return Some(NO_SECTOR);
        }
        let price = read_price(request.sections.as_slice());
        let valid = request.valid.as_slice();
        let missed = request.missed.as_slice();
        self.unpaid(contract, &price, request.number, valid, missed)
    }
}

// Whether a contract has a sector for each section.
fn has_sectors(contract: &KeptContract, sections: &[Section]) -> bool
    ensures { result ≡ has_sectors_so contract.now sections.now }
{
    sections.iter().all(|section| contract.sectors.slot_with(&section.root).is_some())
}

// What is paid for sections.
fn read_price(sections: &[Section]) -> Priced
    requires { sum_by (λ (s : Asked). s.length) sections.now < 2 ^ 64 }
    ensures { result ≡ read_price_so sections.now }
{
    Priced::Read {
        sections: sections.len() as u64,
        bytes: sections.iter().map(|section| section.length).sum(),
    }
}

// The revision that pays for a read. The error is want of memory.
fn read_revision(
    alloc: Global,
    contract: &KeptContract,
    request: &ReadRequest,
) -> Result<Revision, AllocError>
    ensures { IfOk result (λ revision. revision ≡ paid_revision_so contract.now (read_payment request.now) contract.now.newest.size contract.now.newest.root) }
{
    let newest = &contract.newest;
    paid_revision(
        alloc,
        contract,
        request.number,
        newest.size,
        &newest.root,
        request.valid.as_slice(),
        request.missed.as_slice(),
    )
}
