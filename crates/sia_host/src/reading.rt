//! Roots of sectors that a session reads.
ghost use Rattle.std.specs.Prelude.{◌≡◌, ◌+◌, ◌<◌, ◌≤◌, ◌∷◌, [], length, nat_lt, Some, IfOk, OnErr};
ghost use Rattle.sia_encoding.specs.Answer.{Answers as Tells};
ghost use Rattle.sia_range.specs.Ranges.{part_between, roots_outside};
ghost use Rattle.sia_rhp.specs.declared.answer.Answer.TheVariants as answer;
ghost use Rattle.sia_commands.specs.declared.reply.Reply.TheVariants as reply;
ghost use Rattle.sia_host.specs.Answered.{Gives, no_work};
ghost use Rattle.sia_host.specs.Paying.{IsRevised, open_now, paid_revision as paid_revision_so, unrefused};
ghost use Rattle.sia_host.specs.Reading.{AreRoots, is_outside as is_outside_so, roots_fault as roots_fault_so, roots_payment};
ghost use Rattle.sia_host.specs.Refusals.{code_told};
ghost use Rattle.sia_kept.specs.State.{IsStored, Kept, contract_among, roots_of};

use crate::host_core::Core;
use crate::refusal::Refusal;
use crate::revising::{Party, ShelfWork, paid_revision, sign_revision};
use sia_blake::Hash;
use sia_commands::codes::BAD_RANGE;
use sia_commands::{Call, Kind, Reply, Room, Step};
use sia_edge::{SigCheck, Signer};
use sia_kept::{KeptContract, SignedRevision};
use sia_price::Priced;
use sia_range::prove_nodes;
use sia_rhp::{Answer, PaidRoots, RootsAnswer};
use sia_roottree::RootTree;
use sia_types::{Blob, List, Revision};
use std::alloc::{AllocError, Global};

/// How many roots are told at once at most.
const MOST_ROOTS: u64 = 1024;

/// Roots that are told, and their range proof.
#[derive(Drop)]
struct ToldRoots {
    /// The roots.
    roots: List<Hash>,
    /// The hashes of their range proof.
    hashes: List<Hash>,
}

impl Core {
    /// A session reads roots of its contract's sectors.
    pub(crate) fn roots<C: SigCheck, G: Signer>(
        &mut self,
        alloc: Global,
        room: &Room,
        worker: u64,
        session: u64,
        request: PaidRoots,
        check: &C,
        signer: &G,
    ) -> Result<Step, AllocError>
        ensures gives { IfOk result (λ step. Gives (AreRoots C.verdict (G.Makes (G.public_key signer.now)) self.old room.now worker session request) self.old step self.new) }
        ensures kept { OnErr result (self.new ≡ self.old) }
    {
        let call = Call {
            worker,
            session,
            kind: Kind::Roots,
        };
        let held = self.held(session);
        self.tell_sound();
        match self.judge_roots(session, &request) {
            Err(Refusal::Memory) => Err(AllocError),
            Err(Refusal::Code(code)) => self.refuse(alloc, call, held, code),
            Ok(contract) => {
                let party = Party {
                    id: contract.id,
                    renter_key: contract.renter_key,
                };
                let told = tell_roots(alloc, contract, &request)?;
                let revision = roots_revision(alloc, contract, &request)?;
                let renter = request.signature;
                self.roots_paid(
                    alloc, room, call, party, told, revision, renter, check, signer,
                )
            }
        }
    }

    // The answer to a request for roots by the revision that pays for it, which the renter signed.
    fn roots_paid<C: SigCheck, G: Signer>(
        &mut self,
        alloc: Global,
        room: &Room,
        call: Call,
        party: Party,
        told: ToldRoots,
        revision: Revision,
        renter: Blob,
        check: &C,
        signer: &G,
    ) -> Result<Step, AllocError>
        requires stores { (c : Kept) → contract_among revision.parent self.old.state.contracts ≡ Some c → IsStored self.old.settings.sector self.old.settings.host_key (record c { newest = revision }) }
        ensures gives { IfOk result (λ step. Gives (IsRevised C.verdict (G.Makes (G.public_key signer.now)) self.old room.now call party.id party.renter_key revision renter [] (λ host. reply.Said (answer.Roots (record { signature = host; roots = told.roots; hashes = told.hashes }))) no_work) self.old step self.new) }
        ensures kept { OnErr result (self.new ≡ self.old) }
    {
        let host = sign_revision(alloc, &revision, signer)?;
        let signature = host.copy(alloc)?;
        let ToldRoots { roots, hashes } = told;
        let changes = List::new(alloc);
        let signed = SignedRevision {
            revision,
            renter,
            host,
            changes,
        };
        let reply = Reply::Said(Answer::Roots(RootsAnswer {
            signature,
            roots,
            hashes,
        }));
        let work = ShelfWork::none(alloc);
        self.revise(alloc, room, call, party, signed, work, reply, check)
    }

    // The contract whose roots may be told, or why they may not.
    fn judge_roots(&self, session: u64, request: &PaidRoots) -> Result<&KeptContract, Refusal>
        ensures { Tells (λ c. c.now) code_told result (unrefused (roots_fault_so self.now request.now) (open_now self.now session)) }
    {
        let contract = self.open(session)?;
        match self.roots_fault(contract, request) {
            Some(code) => Err(Refusal::Code(code)),
            None => Ok(contract),
        }
    }

    // Why a request for roots of this contract is refused.
    fn roots_fault(&self, contract: &KeptContract, request: &PaidRoots) -> Option<u64>
        ensures { result ≡ roots_fault_so self.now request.now contract.now }
    {
        if is_outside(contract, request) {
            return Some(BAD_RANGE);
        }
        let price = Priced::Roots {
            count: request.count,
        };
        let valid = request.valid.as_slice();
        let missed = request.missed.as_slice();
        self.unpaid(contract, &price, request.number, valid, missed)
    }
}

// Whether what is asked for isn't a range of the contract's roots, or is none or too many.
fn is_outside(contract: &KeptContract, request: &PaidRoots) -> bool
    ensures { result ≡ is_outside_so contract.now request.now }
{
    passes(contract.sectors.count(), request.first, request.count)
        || request.count == 0
        || MOST_ROOTS < request.count
}

// Whether so many places from a first one on pass a count.
fn passes(all: u64, first: u64, count: u64) -> bool
    ensures { result ≡ nat_lt all (first + count) }
{
    u128::from(all) < u128::from(first) + u128::from(count)
}

// The revision that pays for roots. The error is want of memory.
fn roots_revision(
    alloc: Global,
    contract: &KeptContract,
    request: &PaidRoots,
) -> Result<Revision, AllocError>
    ensures { IfOk result (λ revision. revision ≡ paid_revision_so contract.now (roots_payment request.now) contract.now.newest.size contract.now.newest.root) }
{
    let newest = &contract.newest;
    paid_revision(
        alloc,
        contract,
        request.number,
        newest.size,
        &newest.root,
        request.valid.as_slice(),
        request.missed.as_slice(),
    )
}

// The roots that are asked for, with their range proof. The error is want of memory.
fn tell_roots(
    alloc: Global,
    contract: &KeptContract,
    request: &PaidRoots,
) -> Result<ToldRoots, AllocError>
    requires within { request.now.first + request.now.count ≤ length contract.now.sectors }
    requires some { 0 < request.now.count }
    ensures roots { IfOk result (λ told. told.roots ≡ part_between request.now.first (request.now.first + request.now.count) (roots_of contract.now)) }
    ensures hashes { IfOk result (λ told. told.hashes ≡ roots_outside (roots_of contract.now) (length (roots_of contract.now)) request.now.first (request.now.first + request.now.count)) }
{
    let tree = contract.sectors.tree();
    let _all = tree.count();
    let end = request.first + request.count;
    let roots = roots_between(alloc, tree, request.first, end)?;
    let hashes = prove_nodes(alloc, tree, request.first, end)?;
    Ok(ToldRoots { roots, hashes })
}

// The roots of a tree between two places. The error is want of memory.
fn roots_between(
    alloc: Global,
    tree: &RootTree,
    first: u64,
    end: u64,
) -> Result<List<Hash>, AllocError>
    requires within { end ≤ length tree.now.hashes }
    requires order { first ≤ end }
    ensures { IfOk result (λ roots. roots ≡ part_between first end tree.now.hashes) }
{
    let mut roots = List::new(alloc);
    for i in 0..end - first {
        roots.push(tree.get(first + i))?;
    }
    Ok(roots)
}
