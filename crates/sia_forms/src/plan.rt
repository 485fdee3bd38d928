//! What a renter plans, and what its contract begins with.
use sia_blake::Hash;
use sia_types::{List, Revision};

/// What a renter plans for a contract.
#[derive(Clone, Copy, Debug, PartialEq, Eq)]
pub struct FormPlan {
    /// What the renter may spend of the contract, in hastings.
    pub amount: u128,
    /// What the host is to risk, in hastings.
    pub collateral: u128,
    /// What the miner is paid, in hastings: 0 for no fee.
    pub fee: u128,
    /// The first height of the contract's window, in blocks.
    pub start: u64,
    /// The last height of its window.
    pub end: u64,
}

/// What a contract begins with.
#[derive(Drop)]
pub(crate) struct Outset {
    // How many bytes are stored.
    pub size: u64,
    // The root over them.
    pub root: Hash,
    // The revisions beside the contract: the one that clears an old contract.
    pub revisions: List<Revision>,
    // The host's valid value, in hastings.
    pub host_value: u128,
    // What of it goes to the void where nothing is proved.
    pub risk: u128,
}
