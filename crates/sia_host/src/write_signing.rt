//! Changes of a contract's sectors that a session signs.
ghost use Rattle.std.specs.Prelude.{◌≡◌, ℕ, ◌*◌, ◌^◌, ◌<◌, ◌≤◌, List as Sequence, length, map, None, Some, IfOk, IsTrue, OnErr};
ghost use Rattle.sia_encoding.specs.declared.limits.TheConstants.{CONTRACT_SECTORS};
ghost use Rattle.sia_merkle.specs.Roots.{node_root_of};
ghost use Rattle.sia_diff.specs.DiffSteps.{is_fit};
ghost use Rattle.sia_records.specs.Stored.{step_of};
ghost use Rattle.sia_records.specs.Writes.{is_prepared, sectors_of, steps_of};
ghost use Rattle.sia_kept.specs.State.{IsStored, Kept, contract_among, revised_contract};
ghost use Rattle.sia_host.specs.Answered.{Gives};
ghost use Rattle.sia_host.specs.Paying.{IsRevised, paid_revision as paid_revision_so};
ghost use Rattle.sia_host.specs.Writing.{IsWriteSigned, dropped, put_jobs as put_jobs_so, write_payment, write_signed, written_changes, written_roots};

use crate::freeing::freed_slots;
use crate::host_core::Core;
use crate::refusal::Refusal;
use crate::revising::{Party, ShelfWork, paid_revision, sign_revision};
use sia_commands::{Call, Kind, PutJob, Reply, Room, Step};
use sia_edge::{SigCheck, Signer};
use sia_kept::{KeptContract, SignedRevision, reroot};
use sia_records::{Change, PreparedWrite, changes_of};
use sia_rhp::Answer;
use sia_types::{Blob, List, Revision};
use std::alloc::{AllocError, Global};

/// What a write comes to: the revision, the changes of the contract's sectors, and what is left to be done with the shelf.
#[derive(Drop)]
struct Written {
    /// The revision.
    revision: Revision,
    /// The changes, in order.
    changes: List<Change>,
    /// What is left to be done.
    work: ShelfWork,
}

impl Core {
    /// A session signs the change of its contract's sectors that it proposed. It is judged again, on what the host finds now.
    pub(crate) fn write_sign<C: SigCheck, G: Signer>(
        &mut self,
        alloc: Global,
        room: &Room,
        worker: u64,
        session: u64,
        write: PreparedWrite,
        renter: Blob,
        check: &C,
        signer: &G,
    ) -> Result<Step, AllocError>
        ensures gives { IfOk result (λ step. Gives (IsWriteSigned C.verdict (G.Makes (G.public_key signer.now)) self.old room.now worker session write renter) self.old step self.new) }
        ensures kept { OnErr result (self.new ≡ self.old) }
    {
        let call = Call {
            worker,
            session,
            kind: Kind::WriteSign,
        };
        let held = self.held(session);
        match self.judge_write(alloc, room, session, &write) {
            Err(Refusal::Memory) => Err(AllocError),
            Err(Refusal::Code(code)) => self.refuse(alloc, call, held, code),
            Ok(contract) => {
                let party = Party {
                    id: contract.id,
                    renter_key: contract.renter_key,
                };
                let written = make_written(alloc, self.settings.sector, room, contract, write)?;
                self.write_paid(alloc, room, call, party, written, renter, check, signer)
            }
        }
    }

    // The answer to a write by what it comes to, which the renter signed.
    fn write_paid<C: SigCheck, G: Signer>(
        &mut self,
        alloc: Global,
        room: &Room,
        call: Call,
        party: Party,
        written: Written,
        renter: Blob,
        check: &C,
        signer: &G,
    ) -> Result<Step, AllocError>
        requires fit { (c : Kept) → contract_among written.revision.parent self.old.state.contracts ≡ Some c → IsTrue (is_fit (length c.sectors) (map step_of written.changes)) }
        requires stores { (host : Sequence ℕ) → (c : Kept) → contract_among written.revision.parent self.old.state.contracts ≡ Some c → IsStored self.old.settings.sector self.old.settings.host_key (revised_contract written.revision renter host written.changes c) }
        ensures gives { IfOk result (λ step. Gives (IsRevised C.verdict (G.Makes (G.public_key signer.now)) self.old room.now call party.id party.renter_key written.revision renter written.changes write_signed (record { puts = written.work.puts; fetch = None; freed = written.work.freed })) self.old step self.new) }
        ensures kept { OnErr result (self.new ≡ self.old) }
    {
        let Written {
            revision,
            changes,
            work,
        } = written;
        let host = sign_revision(alloc, &revision, signer)?;
        let reply = Reply::Said(Answer::WriteSign(host.copy(alloc)?));
        let signed = SignedRevision {
            revision,
            renter,
            host,
            changes,
        };
        self.revise(alloc, room, call, party, signed, work, reply, check)
    }
}

// What a write comes to that may change a contract's sectors, in sectors of so many bytes. The error is want of memory.
fn make_written(
    alloc: Global,
    sector: u64,
    room: &Room,
    contract: &KeptContract,
    write: PreparedWrite,
) -> Result<Written, AllocError>
    requires prepared { (sector : ℕ) × IsTrue (is_prepared sector write) }
    requires fit { IsTrue (is_fit (length contract.now.sectors) (steps_of write)) }
    requires small { sector * CONTRACT_SECTORS < 2 ^ 64 }
    requires free { length (sectors_of write) ≤ length room.now.free }
    ensures revision { IfOk result (λ written. written.revision ≡ paid_revision_so contract.now (write_payment write.request) (sector * length (written_roots contract.now write)) (node_root_of (written_roots contract.now write))) }
    ensures changes { IfOk result (λ written. written.changes ≡ written_changes room.now write) }
    ensures puts { IfOk result (λ written. written.work.puts ≡ put_jobs_so room.now.free (sectors_of write)) }
    ensures freed { IfOk result (λ written. written.work.freed ≡ dropped contract.now.sectors (written_changes room.now write)) }
{
    let free = room.free.as_slice();
    let revision = written_revision(alloc, sector, contract, &write)?;
    let changes = changes_of(alloc, write.steps(), free)?;
    let freed = freed_slots(alloc, &contract.sectors, changes.as_slice())?;
    let puts = put_jobs(alloc, free, write.into_sectors(alloc)?)?;
    Ok(Written {
        revision,
        changes,
        work: ShelfWork { puts, freed },
    })
}

// The revision that a write proposes, in sectors of so many bytes. The error is want of memory.
fn written_revision(
    alloc: Global,
    sector: u64,
    contract: &KeptContract,
    write: &PreparedWrite,
) -> Result<Revision, AllocError>
    requires prepared { (sector : ℕ) × IsTrue (is_prepared sector write.now) }
    requires fit { IsTrue (is_fit (length contract.now.sectors) (steps_of write.now)) }
    requires small { sector * CONTRACT_SECTORS < 2 ^ 64 }
    ensures { IfOk result (λ revision. revision ≡ paid_revision_so contract.now (write_payment write.now.request) (sector * length (written_roots contract.now write.now)) (node_root_of (written_roots contract.now write.now))) }
{
    let made = reroot(alloc, contract.sectors.tree(), write.steps())?;
    let request = write.request();
    paid_revision(
        alloc,
        contract,
        request.number,
        sector * made.count,
        &made.root,
        request.valid.as_slice(),
        request.missed.as_slice(),
    )
}

// The sectors, each in the next of these slots. The error is want of memory.
fn put_jobs(alloc: Global, slots: &[u64], sectors: List<Blob>) -> Result<List<PutJob>, AllocError>
    requires { length sectors ≤ length slots.now }
    ensures { IfOk result (λ jobs. jobs ≡ put_jobs_so slots.now sectors) }
{
    let mut jobs = List::new(alloc);
    let mut rest = slots;
    for bytes in sectors.into_vec() {
        let (first, others) = rest.split_at(1);
        jobs.push(PutJob {
            slot: first[0],
            bytes,
        })?;
        rest = others;
    }
    Ok(jobs)
}
