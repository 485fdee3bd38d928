//! Revisions that pay: both parties sign them, and they are recorded.
ghost use Rattle.std.specs.Prelude.{◌≡◌, [], not, map, length, None, Some, IfOk, IsTrue, OnErr};
ghost use Rattle.sia_encoding.specs.Firsts.{broken, ◌or_else◌};
ghost use Rattle.sia_diff.specs.DiffSteps.{is_fit};
ghost use Rattle.sia_records.specs.declared.host_record.HostRecord.TheVariants as records;
ghost use Rattle.sia_records.specs.Stored.{step_of};
ghost use Rattle.sia_commands.specs.declared.codes.TheConstants.{BAD_SIGNATURE as bad_signature, STORE_FULL as store_full};
ghost use Rattle.sia_commands.specs.declared.event.Outcome.TheVariants as outcome;
ghost use Rattle.sia_host.specs.Answered.{IsReaction, record_payload, worked};
ghost use Rattle.sia_host.specs.Paying.{paid_revision as paid_revision_so, revised_unless, revising_fault as revising_fault_so, revision_alone as revision_alone_so, revision_hash as revision_hash_so, signs_revision as signs_revision_so};
ghost use Rattle.sia_kept.specs.State.{IsStored, Kept, contract_among, revised_contract};

use crate::feeding::{frame, lacks_room};
use crate::host_core::Core;
use sia_blake::Hash;
use sia_commands::codes::{BAD_SIGNATURE, STORE_FULL};
use sia_commands::{Call, Outcome, PutJob, Reply, Room, Step};
use sia_edge::{SigCheck, Signer};
use sia_journal::RecordBuf;
use sia_kept::{KeptContract, SignedRevision, revise_kept, whole_hash};
use sia_price::with_terms;
use sia_records::HostRecord;
use sia_types::{Blob, Item, List, Revision, Transaction};
use std::alloc::{AllocError, Global};

/// A contract that is to be revised, by its identifier and its renter's key.
#[derive(Clone, Copy)]
pub(crate) struct Party {
    /// Its identifier.
    pub id: Hash,
    /// The public key that the renter signs with.
    pub renter_key: [u8; 32],
}

/// What the record of a revision leaves to be done with the shelf.
#[derive(Drop)]
pub(crate) struct ShelfWork {
    /// The sectors that are to be put into slots.
    pub puts: List<PutJob>,
    /// The slots whose sectors the record drops.
    pub freed: List<u64>,
}

impl ShelfWork {
    /// Nothing is to be done. It takes no memory.
    pub fn none(alloc: Global) -> ShelfWork
        ensures { result ≡ record { puts = []; freed = [] } }
    {
        ShelfWork {
            puts: List::new(alloc),
            freed: List::new(alloc),
        }
    }
}

impl Core {
    /// Answers a request by a revision, or by why the revision isn't kept.
    pub(crate) fn revise<C: SigCheck>(
        &mut self,
        alloc: Global,
        room: &Room,
        call: Call,
        party: Party,
        signed: SignedRevision,
        work: ShelfWork,
        reply: Reply,
        check: &C,
    ) -> Result<Step, AllocError>
        requires fit { (c : Kept) → contract_among signed.revision.parent self.old.state.contracts ≡ Some c → IsTrue (is_fit (length c.sectors) (map step_of signed.changes)) }
        requires stores { (c : Kept) → contract_among signed.revision.parent self.old.state.contracts ≡ Some c → IsStored self.old.settings.sector self.old.settings.host_key (revised_contract signed.revision signed.renter signed.host signed.changes c) }
        ensures gives { IfOk result (λ step. IsReaction self.old (revised_unless self.old call party.id reply (records.Revised signed.revision signed.renter signed.host signed.changes) (record { puts = work.puts; fetch = None; freed = work.freed }) (revising_fault_so C.verdict room.now party.renter_key signed.revision signed.renter (records.Revised signed.revision signed.renter signed.host signed.changes))) step self.new) }
        ensures kept { OnErr result (self.new ≡ self.old) }
    {
        let accepted = signs_revision(alloc, &party.renter_key, &signed, check)?;
        let framed = frame_revised(alloc, &signed)?;
        match revising_fault(lacks_room(room, &framed), accepted) {
            Some(code) => self.refuse(alloc, call, Some(party.id), code),
            None => self.record_revised(alloc, call, party.id, signed, framed, work, reply),
        }
    }

    // A revision is recorded.
    #[tactic(auto, unfolding(sia_kept::specs::State::with_record))]
    fn record_revised(
        &mut self,
        alloc: Global,
        call: Call,
        id: Hash,
        signed: SignedRevision,
        framed: RecordBuf,
        work: ShelfWork,
        reply: Reply,
    ) -> Result<Step, AllocError>
        requires framed { framed ≡ record_payload (records.Revised signed.revision signed.renter signed.host signed.changes) }
        requires fit { (c : Kept) → contract_among signed.revision.parent self.old.state.contracts ≡ Some c → IsTrue (is_fit (length c.sectors) (map step_of signed.changes)) }
        requires stores { (c : Kept) → contract_among signed.revision.parent self.old.state.contracts ≡ Some c → IsStored self.old.settings.sector self.old.settings.host_key (revised_contract signed.revision signed.renter signed.host signed.changes c) }
        ensures gives { IfOk result (λ step. IsReaction self.old (worked self.old call (Some id) outcome.Fine reply (Some (records.Revised signed.revision signed.renter signed.host signed.changes)) (record { puts = work.puts; fetch = None; freed = work.freed })) step self.new) }
        ensures kept { OnErr result (self.new ≡ self.old) }
    {
        self.log.reserve()?;
        revise_kept(alloc, &mut self.contracts, signed)?;
        self.records = self.records.saturating_add(1);
        let event = self.event(call, Some(id), Outcome::Fine);
        self.log.note(event);
        let ShelfWork { puts, freed } = work;
        Ok(Step {
            reply,
            payload: Some(framed),
            puts,
            fetch: None,
            sector: Vec::new(alloc),
            freed,
        })
    }
}

/// The revision of a contract that pays, over so many bytes with this root. The error is want of memory.
pub(crate) fn paid_revision(
    alloc: Global,
    contract: &KeptContract,
    number: u64,
    size: u64,
    root: &Hash,
    valid: &[u128],
    missed: &[u128],
) -> Result<Revision, AllocError>
    ensures { IfOk result (λ revision. revision ≡ paid_revision_so contract.now (record { number = number; valid = valid.now; missed = missed.now }) size root.now) }
{
    with_terms(alloc, &contract.newest, number, size, root, valid, missed)
}

/// The host's signature of a revision. The error is want of memory.
pub(crate) fn sign_revision<G: Signer>(
    alloc: Global,
    revision: &Revision,
    signer: &G,
) -> Result<Blob, AllocError>
    ensures { IfOk result (G.Makes (G.public_key signer.now) (revision_hash_so revision.now 1)) }
{
    let hash = revision_hash(alloc, revision, 1)?;
    signer.sign(alloc, &hash)
}

/// Whether the renter's signature of a revision is accepted. The error is want of memory.
pub(crate) fn signs_revision<C: SigCheck>(
    alloc: Global,
    renter_key: &[u8; 32],
    signed: &SignedRevision,
    check: &C,
) -> Result<bool, AllocError>
    ensures { IfOk result (λ accepted. accepted ≡ signs_revision_so C.verdict renter_key.now signed.now.revision signed.now.renter) }
{
    let hash = revision_hash(alloc, &signed.revision, 0)?;
    Ok(check.accepts(renter_key, &hash, signed.renter.as_slice()))
}

// The hash by which the party with this key index signs a revision. The error is want of memory.
fn revision_hash(alloc: Global, revision: &Revision, index: u64) -> Result<Hash, AllocError>
    ensures { IfOk result (λ hash. hash ≡ revision_hash_so revision.now index) }
{
    let mut tx = revision_alone(alloc, revision)?;
    whole_hash(alloc, &mut tx, &revision.parent, index)
}

/// The transaction that has a revision alone. The error is want of memory.
pub(crate) fn revision_alone(alloc: Global, revision: &Revision) -> Result<Transaction, AllocError>
    ensures { IfOk result (λ tx. tx ≡ revision_alone_so revision.now) }
{
    let mut revisions = List::new(alloc);
    revisions.push(revision.copy(alloc)?)?;
    Ok(Transaction {
        coin_inputs: List::new(alloc),
        coin_outputs: List::new(alloc),
        contracts: List::new(alloc),
        revisions,
        proofs: List::new(alloc),
        fund_inputs: List::new(alloc),
        fund_outputs: List::new(alloc),
        fees: List::new(alloc),
        notes: List::new(alloc),
        signatures: List::new(alloc),
    })
}

// Frames the record of a revision. The error is want of memory.
fn frame_revised(alloc: Global, signed: &SignedRevision) -> Result<RecordBuf, AllocError>
    ensures { IfOk result (λ framed. framed ≡ record_payload (records.Revised signed.now.revision signed.now.renter signed.now.host signed.now.changes)) }
{
    let made = HostRecord::Revised {
        revision: signed.revision.copy(alloc)?,
        renter: signed.renter.copy(alloc)?,
        host: signed.host.copy(alloc)?,
        changes: Item::copy(&signed.changes, alloc)?,
    };
    frame(alloc, &made)
}

// Why a signed revision isn't kept, where the journal may be full and the renter's signature may be accepted.
fn revising_fault(full: bool, accepted: bool) -> Option<u64>
    ensures { result ≡ (broken full store_full or_else broken (not accepted) bad_signature) }
{
    if full {
        return Some(STORE_FULL);
    }
    if !accepted {
        return Some(BAD_SIGNATURE);
    }
    None
}
