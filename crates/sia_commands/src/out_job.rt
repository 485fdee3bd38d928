//! Jobs for the outbox.
ghost use Rattle.std.specs.Prelude.{◌≡◌, ℕ, ◌*◌, ◌^◌, ◌<◌, ◌≤◌, IfOk, length};
ghost use Rattle.sia_encoding.specs.declared.limits.TheConstants.{CONTRACT_SECTORS};
ghost use Rattle.sia_commands.specs.OutJobs.{FitsJob, IsAsked, IsAt, asked_of as asked_of_so, place_asked as place_so, job_at, Whole, Lacking, filled_job, proof_alone, proved_by as proved_so};

use sia_blake::Hash;
use sia_encoding::{Blob, List};
use sia_ids::segment_index;
use sia_merkle::{PlainNodes, leaves};
use sia_prover::make_proof;
use sia_types::{StorageProof, Transaction};
use std::alloc::{AllocError, Global};
use std::marker::Model;

/// A storage proof that is asked for: of the leaf that the trigger block and the contract choose, which the sector at a place has.
#[derive(Drop)]
pub struct AskedProof {
    /// The contract.
    pub contract: Hash,
    /// The block before its window.
    pub trigger: Hash,
    /// The roots of its sectors, in order.
    pub roots: List<Hash>,
    /// The place of the sector.
    pub place: u64,
    /// How many bytes a sector has.
    pub size: u64,
}

impl AskedProof {
    /// The storage proof that is asked for of a contract with these roots, where sectors have so many bytes: of the leaf that the trigger
    /// chooses. It takes no memory.
    pub fn of(contract: &Hash, roots: List<Hash>, size: u64, trigger: &Hash) -> AskedProof
        requires some { 0 < length roots }
        requires few { length roots ≤ CONTRACT_SECTORS }
        requires whole { (power : ℕ) × (power ≤ 16) × (size ≡ 64 * 2 ^ power) }
        ensures exact { result ≡ asked_of_so contract.now roots size trigger.now }
        ensures ready { IsAsked result }
    {
        let place = place_asked(trigger, contract, roots.len() as u64, size);
        let contract = *contract;
        let trigger = *trigger;
        AskedProof {
            contract,
            trigger,
            roots,
            place,
            size,
        }
    }
}

// The place of the sector that has the leaf that is chosen.
#[tactic(auto, unfolding(sia_prover::specs::Proofs::chosen_leaf))]
fn place_asked(trigger: &Hash, contract: &Hash, count: u64, size: u64) -> u64
    requires some { 0 < count }
    requires few { count ≤ CONTRACT_SECTORS }
    requires whole { (e : ℕ) × (e ≤ 16) × (size ≡ 64 * 2 ^ e) }
    ensures exact { result ≡ place_so trigger.now contract.now count size }
    ensures within { result < count }
{
    let each = leaves(size);
    segment_index(trigger, contract, count * each) / each
}

/// How far a job has come.
#[derive(Drop)]
pub enum Stage {
    /// The transaction is there.
    Whole(Transaction),
    /// A storage proof is asked for, and the bytes of its sector aren't there.
    Unread(AskedProof),
    /// They are.
    Read(AskedProof, Blob),
}

/// A transaction that is to be mined for a contract, or what it is made from. Contracts see it as that transaction; before the bytes of
/// its sector are there, as what is asked for.
#[derive(Drop)]
pub struct OutJob {
    stage: Stage,
}

impl Model for OutJob {
    ghost use Rattle.sia_commands.specs.OutJobs.{IsAt, Job, job_at};

    ghost Value = { Job };

    ghost view = { λ j. job_at j.stage };

    ghost invariant = { λ j. IsAt j.stage };
}

impl OutJob {
    /// The job that is this transaction.
    pub fn whole(tx: Transaction) -> OutJob
        ensures { result ≡ Whole tx }
    {
        OutJob {
            stage: Stage::Whole(tx),
        }
    }

    /// The job of a storage proof.
    pub fn lacking(asked: AskedProof) -> OutJob
        requires { IsAsked asked }
        ensures { result ≡ Lacking asked }
    {
        OutJob {
            stage: Stage::Unread(asked),
        }
    }

    /// The job with the bytes of the sector that it lacks. It takes no memory.
    pub fn filled(self, sector: Blob) -> OutJob
        requires { FitsJob self sector }
        ensures { result ≡ filled_job self sector }
    {
        let OutJob { stage } = self;
        OutJob {
            stage: filled_stage(stage, sector),
        }
    }
}

// A job's stage with the bytes of its sector.
fn filled_stage(stage: Stage, sector: Blob) -> Stage
    requires at { IsAt stage }
    requires fits { FitsJob (job_at stage) sector }
    ensures job { job_at result ≡ filled_job (job_at stage) sector }
    ensures at { IsAt result }
{
    match stage {
        Stage::Whole(tx) => Stage::Whole(tx),
        Stage::Unread(asked) => Stage::Read(asked, sector),
        Stage::Read(asked, read) => Stage::Read(asked, read),
    }
}

/// The transaction that a job stands for. The work on a storage proof is done here. Its error is want of memory; a job that still lacks
/// its sector has no transaction, and the same answer.
pub fn finish_job(alloc: Global, job: OutJob) -> Result<Transaction, AllocError>
    ensures { IfOk result (λ made. job ≡ Whole made) }
{
    let OutJob { stage } = job;
    match stage {
        Stage::Whole(tx) => Ok(tx),
        Stage::Unread(_) => Err(AllocError),
        Stage::Read(asked, sector) => prove_asked(alloc, &asked, sector.as_slice()),
    }
}

// The transaction of a storage proof.
#[tactic(auto, unfolding(crate::specs::OutJobs::proved_by))]
fn prove_asked(alloc: Global, asked: &AskedProof, sector: &[u8]) -> Result<Transaction, AllocError>
    requires asked { IsAsked asked.now }
    requires size { length sector.now ≡ asked.now.size }
    ensures { IfOk result (λ tx. tx ≡ proved_so asked.now sector.now) }
{
    let roots = PlainNodes {
        hashes: asked.roots.as_slice(),
    };
    let proof = make_proof(
        alloc,
        sector,
        asked.place,
        &roots,
        &asked.trigger,
        &asked.contract,
    )?;
    alone(alloc, proof)
}

// The transaction that has a storage proof alone.
fn alone(alloc: Global, proof: StorageProof) -> Result<Transaction, AllocError>
    ensures { IfOk result (λ tx. tx ≡ proof_alone proof) }
{
    let mut proofs = List::new(alloc);
    proofs.push(proof)?;
    Ok(Transaction {
        coin_inputs: List::new(alloc),
        coin_outputs: List::new(alloc),
        contracts: List::new(alloc),
        revisions: List::new(alloc),
        proofs,
        fund_inputs: List::new(alloc),
        fund_outputs: List::new(alloc),
        fees: List::new(alloc),
        notes: List::new(alloc),
        signatures: List::new(alloc),
    })
}
