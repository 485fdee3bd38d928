//! What requests hold behind their labels (RHP2; siad's modules/negotiate.go).
ghost use Rattle.std.specs.Prelude.{ℕ, ◌++◌};

use crate::action::Action;
use sia_encoding::{Blob, Cursor, DecodeFault, Item, List, Spelled, behind};
use sia_types::Transaction;
use std::alloc::{AllocError, Global};

/// A part of a sector that is asked for.
#[derive(Clone, Copy)]
pub struct Section {
    /// The root of the sector.
    pub root: [u8; 32],
    /// Where the part begins in the sector, in bytes.
    pub offset: u64,
    /// How many bytes it has.
    pub length: u64,
}

impl Item for Section {
    ghost use Rattle.sia_rhp.specs.RequestBodies.{section, section_law};

    ghost codec = { section };

    ghost law = { section_law };

    fn read(alloc: Global, cursor: &mut Cursor<'_>) -> Result<Section, DecodeFault> {
        Ok(Section {
            root: Item::read(alloc, cursor)?,
            offset: Item::read(alloc, cursor)?,
            length: Item::read(alloc, cursor)?,
        })
    }

    fn write(&self, out: &mut Blob) -> Result<(), AllocError> {
        behind!(self.root, self.offset, self.length).write_each(out)
    }

    fn copy(&self, _alloc: Global) -> Result<Section, AllocError> {
        Ok(*self)
    }
}

/// What asks for a new contract.
#[derive(Drop)]
pub struct FormRequest {
    /// The public key that the renter signs with.
    pub renter_key: [u8; 32],
    /// The renter's part of the transaction that forms it.
    pub transaction: Transaction,
}

impl Item for FormRequest {
    ghost use Rattle.sia_rhp.specs.RequestBodies.{form_request, form_request_law};

    ghost codec = { form_request };

    ghost law = { form_request_law };

    fn read(alloc: Global, cursor: &mut Cursor<'_>) -> Result<FormRequest, DecodeFault> {
        Ok(FormRequest {
            renter_key: Item::read(alloc, cursor)?,
            transaction: Item::read(alloc, cursor)?,
        })
    }

    fn write(&self, out: &mut Blob) -> Result<(), AllocError> {
        behind!(self.renter_key, self.transaction).write_each(out)
    }

    fn copy(&self, alloc: Global) -> Result<FormRequest, AllocError> {
        Ok(FormRequest {
            renter_key: self.renter_key.copy(alloc)?,
            transaction: self.transaction.copy(alloc)?,
        })
    }
}

/// What asks for the lock of a contract.
#[derive(Drop)]
pub struct LockRequest {
    /// The contract's identifier.
    pub contract: [u8; 32],
    /// The renter's signature of the challenge and the identifier.
    pub signature: Blob,
    /// How long the renter would wait, in milliseconds; it isn't looked at.
    pub timeout: u64,
}

impl Item for LockRequest {
    ghost use Rattle.sia_rhp.specs.RequestBodies.{lock_request, lock_request_law};

    ghost codec = { lock_request };

    ghost law = { lock_request_law };

    fn read(alloc: Global, cursor: &mut Cursor<'_>) -> Result<LockRequest, DecodeFault> {
        Ok(LockRequest {
            contract: Item::read(alloc, cursor)?,
            signature: Item::read(alloc, cursor)?,
            timeout: Item::read(alloc, cursor)?,
        })
    }

    fn write(&self, out: &mut Blob) -> Result<(), AllocError> {
        behind!(self.contract, self.signature, self.timeout).write_each(out)
    }

    fn copy(&self, alloc: Global) -> Result<LockRequest, AllocError> {
        Ok(LockRequest {
            contract: self.contract.copy(alloc)?,
            signature: self.signature.copy(alloc)?,
            timeout: self.timeout.copy(alloc)?,
        })
    }
}

/// What asks for a change of a contract's sectors.
#[derive(Drop)]
pub struct WriteRequest {
    /// The number of the new revision.
    pub number: u64,
    /// The values of its valid outputs, in hastings.
    pub valid: List<u128>,
    /// The values of its missed outputs, in hastings.
    pub missed: List<u128>,
    /// The steps of the change, in order.
    pub actions: List<Action>,
}

impl Item for WriteRequest {
    ghost use Rattle.sia_rhp.specs.RequestBodies.{write_request, write_request_law};

    ghost codec = { write_request };

    ghost law = { write_request_law };

    fn read(alloc: Global, cursor: &mut Cursor<'_>) -> Result<WriteRequest, DecodeFault> {
        Ok(WriteRequest {
            number: Item::read(alloc, cursor)?,
            valid: Item::read(alloc, cursor)?,
            missed: Item::read(alloc, cursor)?,
            actions: Item::read(alloc, cursor)?,
        })
    }

    fn write(&self, out: &mut Blob) -> Result<(), AllocError> {
        behind!(self.number, self.valid, self.missed, self.actions).write_each(out)
    }

    fn copy(&self, alloc: Global) -> Result<WriteRequest, AllocError> {
        Ok(WriteRequest {
            number: self.number.copy(alloc)?,
            valid: self.valid.copy(alloc)?,
            missed: self.missed.copy(alloc)?,
            actions: self.actions.copy(alloc)?,
        })
    }
}

/// What asks for parts of sectors.
#[derive(Drop)]
pub struct ReadRequest {
    /// The parts, in order.
    pub sections: List<Section>,
    /// The number of the new revision.
    pub number: u64,
    /// The values of its valid outputs, in hastings.
    pub valid: List<u128>,
    /// The values of its missed outputs, in hastings.
    pub missed: List<u128>,
    /// The renter's signature of the new revision.
    pub signature: Blob,
}

impl Item for ReadRequest {
    ghost use Rattle.sia_rhp.specs.RequestBodies.{read_request, read_request_law};

    ghost codec = { read_request };

    ghost law = { read_request_law };

    fn read(alloc: Global, cursor: &mut Cursor<'_>) -> Result<ReadRequest, DecodeFault> {
        Ok(ReadRequest {
            sections: Item::read(alloc, cursor)?,
            number: Item::read(alloc, cursor)?,
            valid: Item::read(alloc, cursor)?,
            missed: Item::read(alloc, cursor)?,
            signature: Item::read(alloc, cursor)?,
        })
    }

    fn write(&self, out: &mut Blob) -> Result<(), AllocError> {
        behind!(
            self.sections,
            self.number,
            self.valid,
            self.missed,
            self.signature
        )
        .write_each(out)
    }

    fn copy(&self, alloc: Global) -> Result<ReadRequest, AllocError> {
        Ok(ReadRequest {
            sections: self.sections.copy(alloc)?,
            number: self.number.copy(alloc)?,
            valid: self.valid.copy(alloc)?,
            missed: self.missed.copy(alloc)?,
            signature: self.signature.copy(alloc)?,
        })
    }
}

/// What asks for roots of a contract's sectors.
#[derive(Drop)]
pub struct PaidRoots {
    /// The place of the first one, from 0.
    pub first: u64,
    /// How many are asked for.
    pub count: u64,
    /// The number of the new revision.
    pub number: u64,
    /// The values of its valid outputs, in hastings.
    pub valid: List<u128>,
    /// The values of its missed outputs, in hastings.
    pub missed: List<u128>,
    /// The renter's signature of the new revision.
    pub signature: Blob,
}

impl Item for PaidRoots {
    ghost use Rattle.sia_rhp.specs.RequestBodies.{paid_roots, paid_roots_law};

    ghost codec = { paid_roots };

    ghost law = { paid_roots_law };

    fn read(alloc: Global, cursor: &mut Cursor<'_>) -> Result<PaidRoots, DecodeFault> {
        Ok(PaidRoots {
            first: Item::read(alloc, cursor)?,
            count: Item::read(alloc, cursor)?,
            number: Item::read(alloc, cursor)?,
            valid: Item::read(alloc, cursor)?,
            missed: Item::read(alloc, cursor)?,
            signature: Item::read(alloc, cursor)?,
        })
    }

    fn write(&self, out: &mut Blob) -> Result<(), AllocError> {
        behind!(
            self.first,
            self.count,
            self.number,
            self.valid,
            self.missed,
            self.signature
        )
        .write_each(out)
    }

    fn copy(&self, alloc: Global) -> Result<PaidRoots, AllocError> {
        Ok(PaidRoots {
            first: self.first.copy(alloc)?,
            count: self.count.copy(alloc)?,
            number: self.number.copy(alloc)?,
            valid: self.valid.copy(alloc)?,
            missed: self.missed.copy(alloc)?,
            signature: self.signature.copy(alloc)?,
        })
    }
}
