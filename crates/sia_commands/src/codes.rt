//! The codes of errors that a host answers (RHP2 has texts in their place; the numbers are this project's own).

/// The session isn't in the state that the request needs.
pub const WRONG_STATE: u64 = 4;

/// A signature isn't accepted.
pub const BAD_SIGNATURE: u64 = 5;

/// The number of the new revision isn't above the newest one's.
pub const LOW_REVISION: u64 = 6;

/// The values of the new revision don't pay.
pub const BAD_PAYMENT: u64 = 7;

/// What is to be read isn't a range of a sector, or of the contract's roots.
pub const BAD_RANGE: u64 = 8;

/// A change can't be done.
pub const BAD_ACTION: u64 = 9;

/// The contract's window is too near.
pub const TOO_LATE: u64 = 10;

/// The contract has no such sector.
pub const NO_SECTOR: u64 = 11;

/// Journal or shelf have no room.
pub const STORE_FULL: u64 = 12;

/// The host hasn't the coins for its collateral.
pub const NO_FUNDS: u64 = 13;

/// The transaction isn't what the host asks for.
pub const BAD_CONTRACT: u64 = 14;

/// The contract was cleared by a renewal.
pub const CLEARED: u64 = 15;

/// The host knows no such contract.
pub const NO_CONTRACT: u64 = 3;
