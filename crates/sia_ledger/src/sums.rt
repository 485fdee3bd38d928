//! What a chain holds, and how a contract stands.

/// What a chain holds, in hastings but for the height. Always `outputs + escrow + unclaimed = issued`.
#[derive(Clone, Copy, Debug, PartialEq, Eq)]
pub struct Sums {
    /// The height of the last block; that of the genesis is 0.
    pub height: u64,
    /// All live siacoin outputs.
    pub outputs: u128,
    /// The live siacoin outputs that can't be spent at the next height.
    pub immature: u128,
    /// What running contracts hold.
    pub escrow: u128,
    /// The taxes of all contracts that were formed, modulo 2^128: coins circulate, so no rule bounds them.
    pub pool: u128,
    /// The claims of the live siafund outputs.
    pub unclaimed: u128,
    /// What all blocks have created.
    pub issued: u128,
}

/// How a file contract stands on a chain.
#[derive(Clone, Copy, Debug, PartialEq, Eq)]
pub enum Status {
    /// The chain knows no such contract.
    Unknown,
    /// It was formed, and isn't settled.
    Running,
    /// It was settled by a storage proof.
    Valid,
    /// It ended without a storage proof.
    Missed,
}
