//! The proof of a change of a list of hashes (RHP2).
ghost use Rattle.std.specs.Prelude.{ℕ, ◌++◌};

use sia_encoding::{Blob, Cursor, DecodeFault, Item, List, Spelled, behind};
use std::alloc::{AllocError, Global};

/// The proof that a host sends for a write: with it a renter goes from the root over the old list of hashes to the
/// one over the new list (RHP2).
#[derive(Drop)]
pub struct DiffProof {
    /// The old hashes at the places that the steps touch, in order of their places.
    pub leaves: List<[u8; 32]>,
    /// The roots of the subtrees that cover all other places, in order from the left.
    pub nodes: List<[u8; 32]>,
}

impl Item for DiffProof {
    ghost use Rattle.sia_types.specs.DiffProof.{diff_proof, diff_proof_law};

    ghost codec = { diff_proof };

    ghost law = { diff_proof_law };

    fn read(alloc: Global, cursor: &mut Cursor<'_>) -> Result<DiffProof, DecodeFault> {
        Ok(DiffProof {
            leaves: Item::read(alloc, cursor)?,
            nodes: Item::read(alloc, cursor)?,
        })
    }

    fn write(&self, out: &mut Blob) -> Result<(), AllocError> {
        behind!(self.leaves, self.nodes).write_each(out)
    }

    fn copy(&self, alloc: Global) -> Result<DiffProof, AllocError> {
        Ok(DiffProof {
            leaves: self.leaves.copy(alloc)?,
            nodes: self.nodes.copy(alloc)?,
        })
    }
}
