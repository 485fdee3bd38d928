//! The conditions and addresses of a contract's two parties (siad's types/unlockhash.go).
ghost use Rattle.std.specs.Prelude.{◌≡◌, IfOk};
ghost use Rattle.sia_forms.specs.Parties.{both_address as both_address_of, both_conditions as both_conditions_of, own_address as own_address_of, own_conditions as own_conditions_of, party_key as party_key_of};

use sia_blake::Hash;
use sia_ids::unlock_hash;
use sia_types::{Blob, List, PublicKey, UnlockConditions};
use std::alloc::{AllocError, Global};

/// The name of the algorithm of the parties' keys, filled with zero bytes to 16.
const SEAL: [u8; 16] = *b"seal\0\0\0\0\0\0\0\0\0\0\0\0";

/// The hash of zero bytes: the root of no sector, and the address of the void, whose coins nobody can spend.
pub(crate) const ZERO: Hash = [0; 32];

/// The conditions under which a party spends what it is paid: its one key. The error is want of memory.
#[tactic(auto, unfolding(crate::specs::Parties::own_conditions))]
pub fn own_conditions(alloc: Global, key: &[u8; 32]) -> Result<UnlockConditions, AllocError>
    ensures { IfOk result (λ conditions. conditions ≡ own_conditions_of key.now) }
{
    let mut keys = List::new(alloc);
    keys.push(party_key(alloc, key)?)?;
    Ok(UnlockConditions {
        timelock: 0,
        keys,
        required: 1,
    })
}

/// The address that a party is paid to: the unlock hash of its one key. The error is want of memory.
pub fn own_address(alloc: Global, key: &[u8; 32]) -> Result<Hash, AllocError>
    ensures { IfOk result (λ address. address ≡ own_address_of key.now) }
{
    let conditions = own_conditions(alloc, key)?;
    unlock_hash(alloc, &conditions)
}

/// The conditions under which a contract is revised: the renter's key and then the host's, both required. The error is want of
/// memory.
#[tactic(auto, unfolding(crate::specs::Parties::both_conditions))]
pub fn both_conditions(
    alloc: Global,
    renter_key: &[u8; 32],
    host_key: &[u8; 32],
) -> Result<UnlockConditions, AllocError>
    ensures { IfOk result (λ conditions. conditions ≡ both_conditions_of renter_key.now host_key.now) }
{
    let mut keys = List::new(alloc);
    keys.push(party_key(alloc, renter_key)?)?;
    keys.push(party_key(alloc, host_key)?)?;
    Ok(UnlockConditions {
        timelock: 0,
        keys,
        required: 2,
    })
}

/// The unlock hash of a contract between the two. The error is want of memory.
pub fn both_address(
    alloc: Global,
    renter_key: &[u8; 32],
    host_key: &[u8; 32],
) -> Result<Hash, AllocError>
    ensures { IfOk result (λ address. address ≡ both_address_of renter_key.now host_key.now) }
{
    let conditions = both_conditions(alloc, renter_key, host_key)?;
    unlock_hash(alloc, &conditions)
}

// A party's key, by the name of its algorithm.
#[tactic(auto, unfolding(crate::specs::Parties::party_key))]
fn party_key(alloc: Global, key: &[u8; 32]) -> Result<PublicKey, AllocError>
    ensures { IfOk result (λ named. named ≡ party_key_of key.now) }
{
    Ok(PublicKey {
        algorithm: SEAL,
        key: Blob::from_slice(alloc, key)?,
    })
}
