//! The storage proof of a contract from one of its sectors and the list of the sectors' roots.
ghost use Rattle.std.specs.Prelude.{◌≡◌, ◌+◌, ◌*◌, ◌/◌, ◌^◌, ◌<◌, ◌≤◌, ℕ, IfOk, length, slice_index_or, []};
ghost use Rattle.sia_merkle.specs.Roots.{leaf_at, leaf_count, leaves_of, root_of};
ghost use Rattle.sia_prover.specs.Proofs.{IsRightProof, chosen_leaf, sector_proof};

use crate::path::append_path;
use sia_blake::Hash;
use sia_ids::segment_index;
use sia_merkle::{Nodes, leaves, prove_leaf};
use sia_types::StorageProof;
use std::alloc::{AllocError, Global};

/// The proof of the leaf that the identifiers of the trigger block and of the contract choose among all leaves of the sectors
/// with these roots, from the sector in which it stands, the one at `place`. Where the list has the sector's root there, the
/// proof is right for the root over the list. Its error is want of memory.
pub fn make_proof<N: Nodes>(
    alloc: Global,
    sector: &[u8],
    place: u64,
    roots: &N,
    trigger: &Hash,
    contract: &Hash,
) -> Result<StorageProof, AllocError>
    requires sector { (level : ℕ) × (length sector.now ≡ 64 * 2 ^ level) }
    requires room { length (N.hashes roots.now) * length sector.now < 2 ^ 64 }
    requires place { place < length (N.hashes roots.now) }
    requires chosen { chosen_leaf trigger.now contract.now (length (N.hashes roots.now)) (length sector.now) / leaf_count (length sector.now) ≡ place }
    ensures exact { IfOk result (λ proof. proof ≡ sector_proof sector.now place (N.hashes roots.now) trigger.now contract.now) }
    ensures right { slice_index_or (N.hashes roots.now) place [] ≡ root_of (leaves_of sector.now) → IfOk result (λ proof. IsRightProof (N.hashes roots.now) (length sector.now) trigger.now contract.now proof) }
{
    let sector_leaves = leaves(sector.len() as u64);
    let index = segment_index(trigger, contract, roots.count() * sector_leaves);
    let within = index - place * sector_leaves;
    let mut hashes = prove_leaf(alloc, sector, within)?;
    append_path(&mut hashes, roots, place)?;
    let parent = *contract;
    let leaf = leaf_of(sector, within);
    Ok(StorageProof {
        parent,
        leaf,
        hashes,
    })
}

/// The leaf at a place of a sector.
fn leaf_of(sector: &[u8], place: u64) -> [u8; 64]
    requires { 64 * place + 64 ≤ length sector.now }
    ensures { result ≡ leaf_at sector.now place }
{
    let (_, rest) = sector.split_at(place as usize * 64);
    let (bytes, _) = rest.split_at(64);
    let mut leaf = [0; 64];
    leaf.copy_from_slice(bytes);
    leaf
}
