//! The records of a host's journal: what happened to its chain and to its contracts, in order.
ghost use Rattle.std.specs.Prelude.{ℕ, ◌++◌};

use crate::change::Change;
use crate::kind::RecordKind;
use sia_encoding::{Blob, Cursor, DecodeFault, Item, List, Spelled, behind};
use sia_types::{Block, Revision, Transaction};
use std::alloc::{AllocError, Global};

/// One record of a host's journal.
#[derive(Drop)]
pub enum HostRecord {
    /// The chain has a block more.
    Block(Block),
    /// The chain's last block is dropped.
    Revert,
    /// A contract was formed.
    Formed {
        /// The public key that its renter signs with.
        renter_key: [u8; 32],
        /// The transaction that forms it, with all signatures.
        transaction: Transaction,
    },
    /// A contract was revised.
    Revised {
        /// Its newest revision.
        revision: Revision,
        /// The renter's signature of it.
        renter: Blob,
        /// The host's signature of it.
        host: Blob,
        /// What it does to the contract's sectors, in order.
        changes: List<Change>,
    },
    /// A contract was cleared, and its sectors passed to a new one: the transaction that does so, with all signatures.
    Renewed(Transaction),
}

impl Item for HostRecord {
    ghost use Rattle.sia_records.specs.HostRecords.{host_record};
    ghost use Rattle.sia_records.specs.HostRecordLaws.{host_record_law};

    ghost codec = { host_record };

    ghost law = { host_record_law };

    fn read(alloc: Global, cursor: &mut Cursor<'_>) -> Result<HostRecord, DecodeFault> {
        let kind = RecordKind::read(alloc, cursor)?;
        match kind {
            RecordKind::Block => Ok(HostRecord::Block(Item::read(alloc, cursor)?)),
            RecordKind::Revert => Ok(HostRecord::Revert),
            RecordKind::Formed => Ok(HostRecord::Formed {
                renter_key: Item::read(alloc, cursor)?,
                transaction: Item::read(alloc, cursor)?,
            }),
            RecordKind::Revised => Ok(HostRecord::Revised {
                revision: Item::read(alloc, cursor)?,
                renter: Item::read(alloc, cursor)?,
                host: Item::read(alloc, cursor)?,
                changes: Item::read(alloc, cursor)?,
            }),
            RecordKind::Renewed => Ok(HostRecord::Renewed(Item::read(alloc, cursor)?)),
        }
    }

    fn write(&self, out: &mut Blob) -> Result<(), AllocError> {
        match self {
            HostRecord::Block(block) => behind!(RecordKind::Block, *block).write_each(out),
            HostRecord::Revert => RecordKind::Revert.write(out),
            HostRecord::Formed {
                renter_key,
                transaction,
            } => behind!(RecordKind::Formed, *renter_key, *transaction).write_each(out),
            HostRecord::Revised {
                revision,
                renter,
                host,
                changes,
            } => behind!(RecordKind::Revised, *revision, *renter, *host, *changes).write_each(out),
            HostRecord::Renewed(transaction) => {
                behind!(RecordKind::Renewed, *transaction).write_each(out)
            }
        }
    }

    fn copy(&self, alloc: Global) -> Result<HostRecord, AllocError> {
        match self {
            HostRecord::Block(block) => Ok(HostRecord::Block(block.copy(alloc)?)),
            HostRecord::Revert => Ok(HostRecord::Revert),
            HostRecord::Formed {
                renter_key,
                transaction,
            } => Ok(HostRecord::Formed {
                renter_key: renter_key.copy(alloc)?,
                transaction: transaction.copy(alloc)?,
            }),
            HostRecord::Revised {
                revision,
                renter,
                host,
                changes,
            } => Ok(HostRecord::Revised {
                revision: revision.copy(alloc)?,
                renter: renter.copy(alloc)?,
                host: host.copy(alloc)?,
                changes: changes.copy(alloc)?,
            }),
            HostRecord::Renewed(transaction) => Ok(HostRecord::Renewed(transaction.copy(alloc)?)),
        }
    }
}
