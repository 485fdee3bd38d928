//! The present terms of a file contract.
use crate::coins::CoinOutput;
use sia_encoding::{Item, List};
use std::alloc::{AllocError, Global};

/// The present terms of a file contract: those of its formation, or of its last revision. Its payout is always that of
/// the formation (siad's types/filecontracts.go).
#[derive(Drop)]
pub struct Terms {
    /// What is paid in all, tax included, in hastings: the payout of the formation.
    pub payout: u128,
    /// The number of the last revision.
    pub number: u64,
    /// How many bytes are stored.
    pub size: u64,
    /// The root over the bytes.
    pub root: [u8; 32],
    /// The first height of the window, in blocks.
    pub start: u64,
    /// The last height of the window, in blocks: where no proof came up to it, the contract is missed there.
    pub end: u64,
    /// What is paid where a storage proof comes in time.
    pub valid: List<CoinOutput>,
    /// What is paid where none does.
    pub missed: List<CoinOutput>,
    /// The unlock hash of those who may revise it.
    pub address: [u8; 32],
}

impl Terms {
    ghost use Rattle.std.specs.Prelude.{◌≡◌, IfOk};

    /// A copy of the terms. Its error is want of memory.
    pub fn copy(&self, alloc: Global) -> Result<Terms, AllocError>
        ensures { IfOk result (λ terms. terms ≡ self.now) }
    {
        Ok(Terms {
            payout: self.payout,
            number: self.number,
            size: self.size,
            root: self.root,
            start: self.start,
            end: self.end,
            valid: self.valid.copy(alloc)?,
            missed: self.missed.copy(alloc)?,
            address: self.address,
        })
    }
}
