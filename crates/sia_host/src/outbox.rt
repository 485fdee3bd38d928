//! The next contract for which something is to be mined is handed out.
ghost use Rattle.std.specs.Prelude.{◌≡◌, [], ◌≤◌, ◌+◌, Some, map, vec_capacity, option_copied, slice_index_or, IfOk, IfSome, IsTrue, OnErr};
ghost use Rattle.std.specs.Option.{option_and_then, option_map};
ghost use Rattle.sia_ledger.specs.Chain.{height};
ghost use Rattle.sia_records.specs.Stored.{no_sector};
ghost use Rattle.sia_commands.specs.OutJobs.{IsAsked};
ghost use Rattle.sia_kept.specs.State.{IsStored, root_in};
ghost use Rattle.sia_host.specs.Answered.{Host, IsReaction};
ghost use Rattle.sia_host.specs.Jobs.{due_contracts, is_due, is_due_by, next_after, renewal_of as renewal_so, renews as renews_so, signed_alone as signed_so, stale_contracts, stale_job as stale_job_so, trigger_of};
ghost use Rattle.sia_host.specs.Outbox.{asked_by as asked_by_so, asking as asking_so, due_handed, due_now as due_now_so, due_reaction, stale_of, stale_reaction};

use crate::host_core::Core;
use crate::revising::revision_alone;
use sia_blake::Hash;
use sia_commands::{AskedProof, Call, Kind, OutJob, Outcome, Reply, Step};
use sia_kept::{KeptContract, Sector, Sectors, whole_signature};
use sia_types::{Blob, Item, List, Revision, Terms, Transaction};
use std::alloc::{AllocError, Global};

/// A stale contract, and what it is to be mined by.
#[derive(Drop)]
pub(crate) struct Stale {
    pub contract: Hash,
    pub transaction: Transaction,
}

/// A due contract, the storage proof that is asked for, and the slot of the sector that it needs.
#[derive(Drop)]
pub(crate) struct Due {
    pub contract: Hash,
    pub asked: AskedProof,
    pub slot: u64,
}

impl Core {
    /// Hands out what the next stale contract behind an identifier is to be mined by, or the first of all.
    pub(crate) fn next_stale(
        &mut self,
        alloc: Global,
        worker: u64,
        id: &Hash,
        first: bool,
    ) -> Result<Step, AllocError>
        ensures gives { IfOk result (λ step. IsReaction self.old (stale_reaction self.old worker id.now first) step self.new) }
        ensures kept { OnErr result (self.new ≡ self.old) }
    {
        let call = asking(worker, Kind::Stale);
        match self.stale_after(alloc, id, first)? {
            None => self.answer(alloc, call, None, Outcome::Nothing, Reply::Next(None)),
            Some(stale) => {
                let Stale {
                    contract,
                    transaction,
                } = stale;
                let reply = Reply::Next(Some(OutJob::whole(transaction)));
                self.answer(alloc, call, Some(contract), Outcome::Fine, reply)
            }
        }
    }

    // What the next stale contract is to be mined by.
    fn stale_after(
        &self,
        alloc: Global,
        id: &Hash,
        first: bool,
    ) -> Result<Option<Stale>, AllocError>
        ensures { IfOk result (λ stale. stale ≡ option_map (stale_of self.now) (next_after id.now first (stale_contracts self.now))) }
    {
        let Some(contract) = self.next_stale_contract(alloc, id, first)? else {
            return Ok(None);
        };
        let transaction = stale_job(alloc, &self.contracts, contract)?;
        let contract = contract.id;
        Ok(Some(Stale {
            contract,
            transaction,
        }))
    }
}

impl Core {
    /// Hands out the storage proof that is asked for of the next due contract behind an identifier, or of the first of all. It lacks the
    /// bytes of its sector, which are to be fetched.
    pub(crate) fn next_due(
        &mut self,
        alloc: Global,
        worker: u64,
        id: &Hash,
        first: bool,
    ) -> Result<Step, AllocError>
        ensures gives { IfOk result (λ step. IsReaction self.old (due_reaction self.old worker id.now first) step self.new) }
        ensures kept { OnErr result (self.new ≡ self.old) }
    {
        let call = asking(worker, Kind::Due);
        match self.due_after(alloc, id, first)? {
            None => self.answer(alloc, call, None, Outcome::Nothing, Reply::Next(None)),
            Some(due) => self.hand_due(alloc, call, due),
        }
    }

    // A due contract is handed out.
    fn hand_due(&mut self, alloc: Global, call: Call, due: Due) -> Result<Step, AllocError>
        requires { IsAsked due.asked }
        ensures gives { IfOk result (λ step. IsReaction self.old (due_handed self.old call (Some due)) step self.new) }
        ensures kept { OnErr result (self.new ≡ self.old) }
    {
        let Due {
            contract,
            asked,
            slot,
        } = due;
        let sector = sector_room(alloc, self.settings.sector)?;
        self.log.reserve()?;
        let event = self.event(call, Some(contract), Outcome::Fine);
        self.log.note(event);
        Ok(Step {
            reply: Reply::Next(Some(OutJob::lacking(asked))),
            payload: None,
            puts: List::new(alloc),
            fetch: Some(slot),
            sector,
            freed: List::new(alloc),
        })
    }

    // The next due contract, with the storage proof that is asked for.
    fn due_after(&self, alloc: Global, id: &Hash, first: bool) -> Result<Option<Due>, AllocError>
        ensures exact { IfOk result (λ due. due ≡ option_and_then (due_now_so self.now) (next_after id.now first (due_contracts self.now))) }
        ensures ready { IfOk result (λ due. IfSome due (λ d. IsAsked d.asked)) }
    {
        match self.next_due_contract(alloc, id, first)? {
            None => Ok(None),
            Some(contract) => self.due_now(alloc, contract),
        }
    }

    // A due contract with the storage proof that is asked for.
    fn due_now(&self, alloc: Global, contract: &KeptContract) -> Result<Option<Due>, AllocError>
        requires due { IsTrue (is_due self.now contract.now) }
        requires stored { IsStored self.now.settings.sector self.now.settings.host_key contract.now }
        ensures exact { IfOk result (λ due. due ≡ due_now_so self.now contract.now) }
        ensures ready { IfOk result (λ due. IfSome due (λ d. IsAsked d.asked)) }
    {
        let Some(terms) = self.ledger.terms(alloc, &contract.id)? else {
            return Ok(None);
        };
        let asked = self.asked_by(alloc, contract, &terms)?;
        let slot = slot_at(&contract.sectors, asked.place);
        let contract = contract.id;
        Ok(Some(Due {
            contract,
            asked,
            slot,
        }))
    }

    // The storage proof that is asked for of a contract that is due by these terms.
    fn asked_by(
        &self,
        alloc: Global,
        contract: &KeptContract,
        terms: &Terms,
    ) -> Result<AskedProof, AllocError>
        requires due { IsTrue (is_due_by self.now contract.now terms.now) }
        requires stored { IsStored self.now.settings.sector self.now.settings.host_key contract.now }
        ensures exact { IfOk result (λ asked. asked ≡ asked_by_so self.now contract.now terms.now) }
        ensures ready { IfOk result (λ asked. IsAsked asked) }
    {
        let trigger = self.trigger(terms);
        let roots = copied_roots(alloc, contract.sectors.as_slice())?;
        Ok(AskedProof::of(&contract.id, roots, self.settings.sector, &trigger))
    }

    // The block before a window that the chain has come to.
    fn trigger(&self, terms: &Terms) -> Hash
        requires { terms.now.start ≤ height self.now.state.chain + 1 }
        ensures { result ≡ trigger_of self.now terms.now }
    {
        let Some(trigger) = self.ledger.block_at(terms.start.saturating_sub(1)) else {
            unreachable!()
        };
        trigger
    }
}

// Room for one sector of so many bytes. The error is want of memory.
fn sector_room(alloc: Global, size: u64) -> Result<Vec<u8>, AllocError>
    ensures empty { IfOk result (λ sector. sector.items ≡ []) }
    ensures room { IfOk result (λ sector. size ≤ vec_capacity sector) }
{
    let mut sector = Vec::new(alloc);
    sector.reserve(size as usize)?;
    Ok(sector)
}

// The roots of sectors, in order. The error is want of memory.
fn copied_roots(alloc: Global, sectors: &[Sector]) -> Result<List<Hash>, AllocError>
    ensures { IfOk result (λ roots. roots ≡ map root_in sectors.now) }
{
    let mut roots = List::new(alloc);
    for sector in sectors {
        let root = sector.root;
        roots.push(root)?;
    }
    Ok(roots)
}

// The slot of the sector at a place; 0 where there is none.
fn slot_at(sectors: &Sectors, place: u64) -> u64
    ensures { result ≡ (slice_index_or sectors.now place no_sector).slot }
{
    match sectors.as_slice().get(place as usize) {
        None => 0,
        Some(sector) => sector.slot,
    }
}

// No session asks for the next contract.
fn asking(worker: u64, kind: Kind) -> Call
    ensures { result ≡ asking_so worker kind }
{
    Call {
        worker,
        session: 0,
        kind,
    }
}

// What a stale contract is to be mined by: the renewal that its newest revision stands in, or that revision.
#[tactic(auto, unfolding(crate::specs::Jobs::stale_job))]
fn stale_job(
    alloc: Global,
    contracts: &List<KeptContract>,
    contract: &KeptContract,
) -> Result<Transaction, AllocError>
    ensures { (h : Host) → h.state.contracts ≡ contracts.now → IfOk result (λ tx. tx ≡ stale_job_so h contract.now) }
{
    match renewal_of(contracts, &contract.id) {
        Some(renewal) => renewal.copy(alloc),
        None => signed_alone(alloc, &contract.newest, &contract.signatures),
    }
}

// The renewal that a contract's newest revision stands in, if it stands in one.
fn renewal_of<'a>(contracts: &'a List<KeptContract>, id: &Hash) -> Option<&'a Transaction>
    ensures { option_copied result ≡ renewal_so contracts.now id.now }
{
    let found = contracts
        .as_slice()
        .iter()
        .find(|c| renews(id, &c.formation))?;
    Some(&found.formation)
}

// Whether a transaction renews a contract.
fn renews(id: &Hash, tx: &Transaction) -> bool
    ensures { result ≡ renews_so id.now tx.now }
{
    tx.revisions.as_slice().iter().any(|r| r.parent == *id)
}

// A revision with the signatures of both parties.
fn signed_alone(
    alloc: Global,
    revision: &Revision,
    signatures: &List<Blob>,
) -> Result<Transaction, AllocError>
    ensures { IfOk result (λ tx. tx ≡ signed_so revision.now signatures.now) }
{
    let mut tx = revision_alone(alloc, revision)?;
    let renter = signature_at(alloc, signatures, 0)?;
    tx.signatures
        .push(whole_signature(alloc, &revision.parent, 0, renter))?;
    let host = signature_at(alloc, signatures, 1)?;
    tx.signatures
        .push(whole_signature(alloc, &revision.parent, 1, host))?;
    Ok(tx)
}

// The signature at a place; no byte where there is none.
fn signature_at(alloc: Global, signatures: &List<Blob>, place: usize) -> Result<Blob, AllocError>
    ensures { IfOk result (λ bytes. bytes ≡ slice_index_or signatures.now place []) }
{
    match signatures.get(place) {
        None => Ok(Blob::new(alloc)),
        Some(bytes) => bytes.copy(alloc),
    }
}
