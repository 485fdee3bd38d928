//! Blocks: what a miner puts on the chain (siad's types/block.go).
ghost use Rattle.std.specs.Prelude.{ℕ, ◌++◌};

use crate::coins::CoinOutput;
use crate::transaction::Transaction;
use sia_encoding::{Blob, Cursor, DecodeFault, Item, List, Spelled, behind};
use std::alloc::{AllocError, Global};

/// A block: it pays its miner, and holds transactions.
#[derive(Drop)]
pub struct Block {
    /// The identifier of the block that it stands on.
    pub parent: [u8; 32],
    /// Eight bytes that the miner is free to choose.
    pub nonce: [u8; 8],
    /// The moment at which it was mined, in seconds.
    pub timestamp: u64,
    /// What the miner is paid: any number of outputs, in order.
    pub payouts: List<CoinOutput>,
    /// Its transactions, in the order in which they take effect.
    pub transactions: List<Transaction>,
}

impl Item for Block {
    ghost use Rattle.sia_types.specs.Block.{block, block_law};

    ghost codec = { block };

    ghost law = { block_law };

    fn read(alloc: Global, cursor: &mut Cursor<'_>) -> Result<Block, DecodeFault> {
        Ok(Block {
            parent: Item::read(alloc, cursor)?,
            nonce: Item::read(alloc, cursor)?,
            timestamp: Item::read(alloc, cursor)?,
            payouts: Item::read(alloc, cursor)?,
            transactions: Item::read(alloc, cursor)?,
        })
    }

    fn write(&self, out: &mut Blob) -> Result<(), AllocError> {
        behind!(
            self.parent,
            self.nonce,
            self.timestamp,
            self.payouts,
            self.transactions
        )
        .write_each(out)
    }

    fn copy(&self, alloc: Global) -> Result<Block, AllocError> {
        Ok(Block {
            parent: self.parent.copy(alloc)?,
            nonce: self.nonce.copy(alloc)?,
            timestamp: self.timestamp.copy(alloc)?,
            payouts: self.payouts.copy(alloc)?,
            transactions: self.transactions.copy(alloc)?,
        })
    }
}
