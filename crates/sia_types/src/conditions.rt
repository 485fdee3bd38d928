//! Public keys, and the conditions under which an output is unlocked (siad's types/unlockhash.go).
ghost use Rattle.std.specs.Prelude.{ℕ, ◌++◌};

use sia_encoding::{Blob, Cursor, DecodeFault, Item, List, Spelled, behind};
use std::alloc::{AllocError, Global};

/// A public key.
#[derive(Drop)]
pub struct PublicKey {
    /// The name of its algorithm, filled with zero bytes to 16.
    pub algorithm: [u8; 16],
    /// Its bytes, as the algorithm has them.
    pub key: Blob,
}

impl Item for PublicKey {
    ghost use Rattle.sia_types.specs.Conditions.{public_key, public_key_law};

    ghost codec = { public_key };

    ghost law = { public_key_law };

    fn read(alloc: Global, cursor: &mut Cursor<'_>) -> Result<PublicKey, DecodeFault> {
        Ok(PublicKey {
            algorithm: Item::read(alloc, cursor)?,
            key: Item::read(alloc, cursor)?,
        })
    }

    fn write(&self, out: &mut Blob) -> Result<(), AllocError> {
        behind!(self.algorithm, self.key).write_each(out)
    }

    fn copy(&self, alloc: Global) -> Result<PublicKey, AllocError> {
        Ok(PublicKey {
            algorithm: self.algorithm.copy(alloc)?,
            key: self.key.copy(alloc)?,
        })
    }
}

/// What unlocks an output: so many signatures by these keys, from a height on.
#[derive(Drop)]
pub struct UnlockConditions {
    /// The first height, in blocks, of a block that may hold the signatures.
    pub timelock: u64,
    /// The keys, in order.
    pub keys: List<PublicKey>,
    /// How many of the keys have to sign.
    pub required: u64,
}

impl Item for UnlockConditions {
    ghost use Rattle.sia_types.specs.Conditions.{unlock_conditions, unlock_conditions_law};

    ghost codec = { unlock_conditions };

    ghost law = { unlock_conditions_law };

    fn read(alloc: Global, cursor: &mut Cursor<'_>) -> Result<UnlockConditions, DecodeFault> {
        Ok(UnlockConditions {
            timelock: Item::read(alloc, cursor)?,
            keys: Item::read(alloc, cursor)?,
            required: Item::read(alloc, cursor)?,
        })
    }

    fn write(&self, out: &mut Blob) -> Result<(), AllocError> {
        behind!(self.timelock, self.keys, self.required).write_each(out)
    }

    fn copy(&self, alloc: Global) -> Result<UnlockConditions, AllocError> {
        Ok(UnlockConditions {
            timelock: self.timelock.copy(alloc)?,
            keys: self.keys.copy(alloc)?,
            required: self.required.copy(alloc)?,
        })
    }
}
