//! File contracts, their revisions and storage proofs (siad's types/filecontracts.go).
ghost use Rattle.std.specs.Prelude.{ℕ, ◌++◌};

use crate::coins::CoinOutput;
use crate::conditions::UnlockConditions;
use sia_encoding::{Blob, Cursor, DecodeFault, Item, List, Spelled, behind};
use std::alloc::{AllocError, Global};

/// A file contract: what a host stores, and what is paid at its end.
#[derive(Drop)]
pub struct FileContract {
    /// How many bytes are stored.
    pub size: u64,
    /// The root over the bytes.
    pub root: [u8; 32],
    /// The first height of its window, in blocks.
    pub start: u64,
    /// The last height of its window, in blocks: where no proof came up to it, the contract is missed there.
    pub end: u64,
    /// What is paid in all, tax included, in hastings.
    pub payout: u128,
    /// What is paid where a storage proof comes in time.
    pub valid: List<CoinOutput>,
    /// What is paid where none does.
    pub missed: List<CoinOutput>,
    /// The unlock hash of those who may revise it.
    pub address: [u8; 32],
    /// The number of its revision.
    pub number: u64,
}

impl Item for FileContract {
    ghost use Rattle.sia_types.specs.FileContracts.{file_contract, file_contract_law};

    ghost codec = { file_contract };

    ghost law = { file_contract_law };

    fn read(alloc: Global, cursor: &mut Cursor<'_>) -> Result<FileContract, DecodeFault> {
        Ok(FileContract {
            size: Item::read(alloc, cursor)?,
            root: Item::read(alloc, cursor)?,
            start: Item::read(alloc, cursor)?,
            end: Item::read(alloc, cursor)?,
            payout: Item::read(alloc, cursor)?,
            valid: Item::read(alloc, cursor)?,
            missed: Item::read(alloc, cursor)?,
            address: Item::read(alloc, cursor)?,
            number: Item::read(alloc, cursor)?,
        })
    }

    fn write(&self, out: &mut Blob) -> Result<(), AllocError> {
        behind!(
            self.size,
            self.root,
            self.start,
            self.end,
            self.payout,
            self.valid,
            self.missed,
            self.address,
            self.number
        )
        .write_each(out)
    }

    fn copy(&self, alloc: Global) -> Result<FileContract, AllocError> {
        Ok(FileContract {
            size: self.size.copy(alloc)?,
            root: self.root.copy(alloc)?,
            start: self.start.copy(alloc)?,
            end: self.end.copy(alloc)?,
            payout: self.payout.copy(alloc)?,
            valid: self.valid.copy(alloc)?,
            missed: self.missed.copy(alloc)?,
            address: self.address.copy(alloc)?,
            number: self.number.copy(alloc)?,
        })
    }
}

/// New terms of a file contract.
#[derive(Drop)]
pub struct Revision {
    /// The contract's identifier.
    pub parent: [u8; 32],
    /// The conditions whose root is the contract's address.
    pub conditions: UnlockConditions,
    /// The number of the revision, above the last one.
    pub number: u64,
    /// How many bytes are stored.
    pub size: u64,
    /// The root over the bytes.
    pub root: [u8; 32],
    /// The first height of the window, in blocks.
    pub start: u64,
    /// The last height of the window, in blocks: where no proof came up to it, the contract is missed there.
    pub end: u64,
    /// What is paid where a storage proof comes in time.
    pub valid: List<CoinOutput>,
    /// What is paid where none does.
    pub missed: List<CoinOutput>,
    /// The unlock hash of those who may revise it further.
    pub address: [u8; 32],
}

impl Item for Revision {
    ghost use Rattle.sia_types.specs.FileContracts.{revision, revision_law};

    ghost codec = { revision };

    ghost law = { revision_law };

    fn read(alloc: Global, cursor: &mut Cursor<'_>) -> Result<Revision, DecodeFault> {
        Ok(Revision {
            parent: Item::read(alloc, cursor)?,
            conditions: Item::read(alloc, cursor)?,
            number: Item::read(alloc, cursor)?,
            size: Item::read(alloc, cursor)?,
            root: Item::read(alloc, cursor)?,
            start: Item::read(alloc, cursor)?,
            end: Item::read(alloc, cursor)?,
            valid: Item::read(alloc, cursor)?,
            missed: Item::read(alloc, cursor)?,
            address: Item::read(alloc, cursor)?,
        })
    }

    fn write(&self, out: &mut Blob) -> Result<(), AllocError> {
        behind!(
            self.parent,
            self.conditions,
            self.number,
            self.size,
            self.root,
            self.start,
            self.end,
            self.valid,
            self.missed,
            self.address
        )
        .write_each(out)
    }

    fn copy(&self, alloc: Global) -> Result<Revision, AllocError> {
        Ok(Revision {
            parent: self.parent.copy(alloc)?,
            conditions: self.conditions.copy(alloc)?,
            number: self.number.copy(alloc)?,
            size: self.size.copy(alloc)?,
            root: self.root.copy(alloc)?,
            start: self.start.copy(alloc)?,
            end: self.end.copy(alloc)?,
            valid: self.valid.copy(alloc)?,
            missed: self.missed.copy(alloc)?,
            address: self.address.copy(alloc)?,
        })
    }
}

/// A proof that a host stores a leaf of a contract's bytes.
#[derive(Drop)]
pub struct StorageProof {
    /// The contract's identifier.
    pub parent: [u8; 32],
    /// The 64 bytes of the leaf.
    pub leaf: [u8; 64],
    /// The roots beside its path, from the leaf up.
    pub hashes: List<[u8; 32]>,
}

impl Item for StorageProof {
    ghost use Rattle.sia_types.specs.FileContracts.{storage_proof, storage_proof_law};

    ghost codec = { storage_proof };

    ghost law = { storage_proof_law };

    fn read(alloc: Global, cursor: &mut Cursor<'_>) -> Result<StorageProof, DecodeFault> {
        Ok(StorageProof {
            parent: Item::read(alloc, cursor)?,
            leaf: Item::read(alloc, cursor)?,
            hashes: Item::read(alloc, cursor)?,
        })
    }

    fn write(&self, out: &mut Blob) -> Result<(), AllocError> {
        behind!(self.parent, self.leaf, self.hashes).write_each(out)
    }

    fn copy(&self, alloc: Global) -> Result<StorageProof, AllocError> {
        Ok(StorageProof {
            parent: self.parent.copy(alloc)?,
            leaf: self.leaf.copy(alloc)?,
            hashes: self.hashes.copy(alloc)?,
        })
    }
}
