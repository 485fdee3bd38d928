//! Limits that several crates share.

/// The most bytes of an encoded block, and the greatest length and count in a block or a transaction.
pub const BLOCK_BYTES: u64 = 2_000_000;

/// The most sectors of a contract.
pub const CONTRACT_SECTORS: u64 = 65_536;

/// The most old places that the steps of one write may touch, and the most roots that are asked for at once.
pub const TOUCHED_PLACES: u64 = 1_024;

/// The most actions of a write, and the most sections of a read.
pub const ACTIONS: u64 = 16;
