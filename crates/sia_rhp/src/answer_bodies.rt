//! What answers hold (RHP2; siad's modules/negotiate.go).
ghost use Rattle.std.specs.Prelude.{ℕ, ◌++◌};

use sia_encoding::{Blob, Cursor, DecodeFault, Item, List, Spelled, behind};
use sia_types::{Revision, UpdateProof};
use std::alloc::{AllocError, Global};

/// A part of a sector, with its proof.
#[derive(Drop)]
pub struct Part {
    /// Its bytes.
    pub bytes: Blob,
    /// The hashes of the range proof within the sector, in order from the left.
    pub hashes: List<[u8; 32]>,
}

impl Item for Part {
    ghost use Rattle.sia_rhp.specs.AnswerBodies.{part, part_law};

    ghost codec = { part };

    ghost law = { part_law };

    fn read(alloc: Global, cursor: &mut Cursor<'_>) -> Result<Part, DecodeFault> {
        Ok(Part {
            bytes: Item::read(alloc, cursor)?,
            hashes: Item::read(alloc, cursor)?,
        })
    }

    fn write(&self, out: &mut Blob) -> Result<(), AllocError> {
        behind!(self.bytes, self.hashes).write_each(out)
    }

    fn copy(&self, alloc: Global) -> Result<Part, AllocError> {
        Ok(Part {
            bytes: self.bytes.copy(alloc)?,
            hashes: self.hashes.copy(alloc)?,
        })
    }
}

/// What answers a request for a lock.
#[derive(Drop)]
pub struct LockAnswer {
    /// Whether the session holds the contract now.
    pub acquired: bool,
    /// The session that holds it, where that is another; else 0.
    pub holder: u64,
    /// What the next request for a lock signs.
    pub challenge: [u8; 16],
    /// The newest revision, where the lock was acquired.
    pub newest: Option<Revision>,
    /// The renter's and the host's signature of that revision, or none at number 0.
    pub signatures: List<Blob>,
}

impl Item for LockAnswer {
    ghost use Rattle.sia_rhp.specs.AnswerBodies.{lock_answer, lock_answer_law};

    ghost codec = { lock_answer };

    ghost law = { lock_answer_law };

    fn read(alloc: Global, cursor: &mut Cursor<'_>) -> Result<LockAnswer, DecodeFault> {
        Ok(LockAnswer {
            acquired: Item::read(alloc, cursor)?,
            holder: Item::read(alloc, cursor)?,
            challenge: Item::read(alloc, cursor)?,
            newest: Item::read(alloc, cursor)?,
            signatures: Item::read(alloc, cursor)?,
        })
    }

    fn write(&self, out: &mut Blob) -> Result<(), AllocError> {
        behind!(
            self.acquired,
            self.holder,
            self.challenge,
            self.newest,
            self.signatures
        )
        .write_each(out)
    }

    fn copy(&self, alloc: Global) -> Result<LockAnswer, AllocError> {
        Ok(LockAnswer {
            acquired: self.acquired.copy(alloc)?,
            holder: self.holder.copy(alloc)?,
            challenge: self.challenge.copy(alloc)?,
            newest: self.newest.copy(alloc)?,
            signatures: self.signatures.copy(alloc)?,
        })
    }
}

/// What answers a request for a change: the proof of its diff.
#[derive(Drop)]
pub struct WriteAnswer {
    /// The new root over the sectors.
    pub root: [u8; 32],
    /// The old roots at the places that the change touches, in order of their places.
    pub leaves: List<[u8; 32]>,
    /// The roots of the subtrees that cover all other places, in order from the left.
    pub nodes: List<[u8; 32]>,
    /// A proof for each update, in order.
    pub updates: List<UpdateProof>,
}

impl Item for WriteAnswer {
    ghost use Rattle.sia_rhp.specs.AnswerBodies.{write_answer, write_answer_law};

    ghost codec = { write_answer };

    ghost law = { write_answer_law };

    fn read(alloc: Global, cursor: &mut Cursor<'_>) -> Result<WriteAnswer, DecodeFault> {
        Ok(WriteAnswer {
            root: Item::read(alloc, cursor)?,
            leaves: Item::read(alloc, cursor)?,
            nodes: Item::read(alloc, cursor)?,
            updates: Item::read(alloc, cursor)?,
        })
    }

    fn write(&self, out: &mut Blob) -> Result<(), AllocError> {
        behind!(self.root, self.leaves, self.nodes, self.updates).write_each(out)
    }

    fn copy(&self, alloc: Global) -> Result<WriteAnswer, AllocError> {
        Ok(WriteAnswer {
            root: self.root.copy(alloc)?,
            leaves: self.leaves.copy(alloc)?,
            nodes: self.nodes.copy(alloc)?,
            updates: self.updates.copy(alloc)?,
        })
    }
}

/// What answers a request for parts of sectors.
#[derive(Drop)]
pub struct ReadAnswer {
    /// The host's signature of the new revision.
    pub signature: Blob,
    /// The parts, in the order in which they were asked for.
    pub parts: List<Part>,
}

impl Item for ReadAnswer {
    ghost use Rattle.sia_rhp.specs.AnswerBodies.{read_answer, read_answer_law};

    ghost codec = { read_answer };

    ghost law = { read_answer_law };

    fn read(alloc: Global, cursor: &mut Cursor<'_>) -> Result<ReadAnswer, DecodeFault> {
        Ok(ReadAnswer {
            signature: Item::read(alloc, cursor)?,
            parts: Item::read(alloc, cursor)?,
        })
    }

    fn write(&self, out: &mut Blob) -> Result<(), AllocError> {
        behind!(self.signature, self.parts).write_each(out)
    }

    fn copy(&self, alloc: Global) -> Result<ReadAnswer, AllocError> {
        Ok(ReadAnswer {
            signature: self.signature.copy(alloc)?,
            parts: self.parts.copy(alloc)?,
        })
    }
}

/// What answers a request for roots.
#[derive(Drop)]
pub struct RootsAnswer {
    /// The host's signature of the new revision.
    pub signature: Blob,
    /// The roots, in order of their places.
    pub roots: List<[u8; 32]>,
    /// The hashes of the range proof over the sectors, in order from the left.
    pub hashes: List<[u8; 32]>,
}

impl Item for RootsAnswer {
    ghost use Rattle.sia_rhp.specs.AnswerBodies.{roots_answer, roots_answer_law};

    ghost codec = { roots_answer };

    ghost law = { roots_answer_law };

    fn read(alloc: Global, cursor: &mut Cursor<'_>) -> Result<RootsAnswer, DecodeFault> {
        Ok(RootsAnswer {
            signature: Item::read(alloc, cursor)?,
            roots: Item::read(alloc, cursor)?,
            hashes: Item::read(alloc, cursor)?,
        })
    }

    fn write(&self, out: &mut Blob) -> Result<(), AllocError> {
        behind!(self.signature, self.roots, self.hashes).write_each(out)
    }

    fn copy(&self, alloc: Global) -> Result<RootsAnswer, AllocError> {
        Ok(RootsAnswer {
            signature: self.signature.copy(alloc)?,
            roots: self.roots.copy(alloc)?,
            hashes: self.hashes.copy(alloc)?,
        })
    }
}
