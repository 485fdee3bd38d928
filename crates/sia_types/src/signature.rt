//! Signatures of transactions, and what they cover (siad's types/signatures.go).
ghost use Rattle.std.specs.Prelude.{ℕ, ◌++◌};

use sia_encoding::{Blob, Cursor, DecodeFault, Item, List, Spelled, behind};
use std::alloc::{AllocError, Global};

/// What a signature covers: the whole transaction, or elements of its lists by their indices.
#[derive(Drop)]
pub struct Covered {
    /// Whether it covers the whole transaction.
    pub whole: bool,
    /// Indices of siacoin inputs.
    pub coin_inputs: List<u64>,
    /// Indices of siacoin outputs.
    pub coin_outputs: List<u64>,
    /// Indices of file contracts.
    pub contracts: List<u64>,
    /// Indices of revisions.
    pub revisions: List<u64>,
    /// Indices of storage proofs.
    pub proofs: List<u64>,
    /// Indices of siafund inputs.
    pub fund_inputs: List<u64>,
    /// Indices of siafund outputs.
    pub fund_outputs: List<u64>,
    /// Indices of miner fees.
    pub fees: List<u64>,
    /// Indices of notes.
    pub notes: List<u64>,
    /// Indices of other signatures.
    pub signatures: List<u64>,
}

impl Item for Covered {
    ghost use Rattle.sia_types.specs.Signatures.{covered, covered_law};

    ghost codec = { covered };

    ghost law = { covered_law };

    fn read(alloc: Global, cursor: &mut Cursor<'_>) -> Result<Covered, DecodeFault> {
        Ok(Covered {
            whole: Item::read(alloc, cursor)?,
            coin_inputs: Item::read(alloc, cursor)?,
            coin_outputs: Item::read(alloc, cursor)?,
            contracts: Item::read(alloc, cursor)?,
            revisions: Item::read(alloc, cursor)?,
            proofs: Item::read(alloc, cursor)?,
            fund_inputs: Item::read(alloc, cursor)?,
            fund_outputs: Item::read(alloc, cursor)?,
            fees: Item::read(alloc, cursor)?,
            notes: Item::read(alloc, cursor)?,
            signatures: Item::read(alloc, cursor)?,
        })
    }

    fn write(&self, out: &mut Blob) -> Result<(), AllocError> {
        behind!(
            self.whole,
            self.coin_inputs,
            self.coin_outputs,
            self.contracts,
            self.revisions,
            self.proofs,
            self.fund_inputs,
            self.fund_outputs,
            self.fees,
            self.notes,
            self.signatures
        )
        .write_each(out)
    }

    fn copy(&self, alloc: Global) -> Result<Covered, AllocError> {
        Ok(Covered {
            whole: self.whole.copy(alloc)?,
            coin_inputs: self.coin_inputs.copy(alloc)?,
            coin_outputs: self.coin_outputs.copy(alloc)?,
            contracts: self.contracts.copy(alloc)?,
            revisions: self.revisions.copy(alloc)?,
            proofs: self.proofs.copy(alloc)?,
            fund_inputs: self.fund_inputs.copy(alloc)?,
            fund_outputs: self.fund_outputs.copy(alloc)?,
            fees: self.fees.copy(alloc)?,
            notes: self.notes.copy(alloc)?,
            signatures: self.signatures.copy(alloc)?,
        })
    }
}

/// A signature of a transaction.
#[derive(Drop)]
pub struct Signature {
    /// The identifier of what it unlocks.
    pub parent: [u8; 32],
    /// The index of its key among those of the conditions.
    pub key_index: u64,
    /// The first height, in blocks, of a block that may hold it.
    pub timelock: u64,
    /// What it covers.
    pub covered: Covered,
    /// Its bytes, as the key's algorithm has them.
    pub signature: Blob,
}

impl Item for Signature {
    ghost use Rattle.sia_types.specs.Signatures.{signature, signature_law};

    ghost codec = { signature };

    ghost law = { signature_law };

    fn read(alloc: Global, cursor: &mut Cursor<'_>) -> Result<Signature, DecodeFault> {
        Ok(Signature {
            parent: Item::read(alloc, cursor)?,
            key_index: Item::read(alloc, cursor)?,
            timelock: Item::read(alloc, cursor)?,
            covered: Item::read(alloc, cursor)?,
            signature: Item::read(alloc, cursor)?,
        })
    }

    fn write(&self, out: &mut Blob) -> Result<(), AllocError> {
        behind!(
            self.parent,
            self.key_index,
            self.timelock,
            self.covered,
            self.signature
        )
        .write_each(out)
    }

    fn copy(&self, alloc: Global) -> Result<Signature, AllocError> {
        Ok(Signature {
            parent: self.parent.copy(alloc)?,
            key_index: self.key_index.copy(alloc)?,
            timelock: self.timelock.copy(alloc)?,
            covered: self.covered.copy(alloc)?,
            signature: self.signature.copy(alloc)?,
        })
    }
}
