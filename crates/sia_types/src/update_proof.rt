//! The proof of an update of part of a sector (RHP2).
ghost use Rattle.std.specs.Prelude.{ℕ, ◌++◌};

use sia_encoding::{Blob, Cursor, DecodeFault, Item, List, Spelled, behind};
use std::alloc::{AllocError, Global};

/// The proof that a host sends for one update of part of a sector: with it a renter goes from the sector's old root
/// to the new one (RHP2).
#[derive(Drop)]
pub struct UpdateProof {
    /// The roots of the subtrees that cover the old part, in order from the left.
    pub inner: List<[u8; 32]>,
    /// The roots of the subtrees that cover all the rest, in order from the left.
    pub outer: List<[u8; 32]>,
}

impl Item for UpdateProof {
    ghost use Rattle.sia_types.specs.UpdateProof.{update_proof, update_proof_law};

    ghost codec = { update_proof };

    ghost law = { update_proof_law };

    fn read(alloc: Global, cursor: &mut Cursor<'_>) -> Result<UpdateProof, DecodeFault> {
        Ok(UpdateProof {
            inner: Item::read(alloc, cursor)?,
            outer: Item::read(alloc, cursor)?,
        })
    }

    fn write(&self, out: &mut Blob) -> Result<(), AllocError> {
        behind!(self.inner, self.outer).write_each(out)
    }

    fn copy(&self, alloc: Global) -> Result<UpdateProof, AllocError> {
        Ok(UpdateProof {
            inner: self.inner.copy(alloc)?,
            outer: self.outer.copy(alloc)?,
        })
    }
}
