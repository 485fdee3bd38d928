//! What a configuration says.
use sia_ledger::Params;
use sia_types::Settings;

/// What a host is configured with.
#[derive(Drop)]
pub struct HostConfig {
    /// What its chain begins from.
    pub params: Params,
    /// What it tells renters of itself. The height, the host's key and its address are zero: no configuration names them.
    pub settings: Settings,
    /// How many blocks before a contract's proof window a newer revision is due to be mined: 1 to 1,000.
    pub margin: u64,
    /// How many bytes its journal has at most: 1,024 to 2^36.
    pub journal_limit: u64,
    /// How many sectors its shelf has at most: 1 to 2^20.
    pub slots: u64,
    /// How many events a run has at most: 16 to 2^24.
    pub events: u64,
}

/// A whole configuration.
#[derive(Drop)]
pub struct Config {
    /// What a host is configured with; a renter takes its chain and the size of its sectors.
    pub host: HostConfig,
    /// The miner fee of a renter's transaction, in hastings. It has no entry for a fee of 0.
    pub fee: u128,
    /// What a renter asks the host to risk in a contract, in hastings.
    pub collateral: u128,
    /// How many bytes a renter's file has at most: 1,024 to 2^32.
    pub file_limit: u64,
}
