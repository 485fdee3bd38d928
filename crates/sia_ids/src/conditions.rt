//! Addresses, and the place of a storage proof.
ghost use Rattle.std.specs.Prelude.{◌≡◌, ◌<◌, ◌++◌, IfOk};
ghost use Rattle.sia_ids.specs.Conditions.{unlock_hash as unlock_hash_of, segment_index as segment_index_of};

use sia_blake::{Hash, Hasher};
use sia_encoding::Blob;
use sia_merkle::RootStack;
use sia_types::{Item, UnlockConditions};
use std::alloc::{AllocError, Global};

/// The address of conditions: the root over their timelock, their keys and the number of required keys, each leaf being
/// the bytes of one. Its error is want of memory.
#[tactic(auto, unfolding(crate::specs::Conditions::unlock_hash, sia_encoding::specs::Spelling::spelled_u64))]
pub fn unlock_hash(alloc: Global, conditions: &UnlockConditions) -> Result<Hash, AllocError>
    ensures { IfOk result (λ address. address ≡ unlock_hash_of conditions.now) }
{
    let mut stack = RootStack::new();
    stack.push_leaf(&conditions.timelock.to_le_bytes());
    for key in conditions.keys.as_slice() {
        let mut leaf = Blob::new(alloc);
        key.encode(&mut leaf)?;
        stack.push_leaf(leaf.as_slice());
    }
    stack.push_leaf(&conditions.required.to_le_bytes());
    Ok(stack.root())
}

/// The place of a storage proof among so many leaves: what the identifiers of the trigger block and of the contract
/// choose.
#[tactic(auto, unfolding(crate::specs::Conditions::segment_index))]
pub fn segment_index(trigger: &Hash, contract: &Hash, count: u64) -> u64
    requires { 0 < count }
    ensures exact { result ≡ segment_index_of trigger.now contract.now count }
    ensures below { result < count }
{
    let mut hasher = Hasher::new();
    hasher.update(trigger);
    hasher.update(contract);
    let chosen = hasher.finish();
    let mut first = [0; 8];
    first.copy_from_slice(&chosen[..8]);
    u64::from_be_bytes(first) % count
}
