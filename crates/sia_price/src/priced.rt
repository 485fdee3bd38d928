//! What a call does, and what it costs (RHP2; siad's modules/negotiate.go).
ghost use Rattle.std.specs.Prelude.{◌≡◌};
ghost use Rattle.sia_price.specs.Costs.{due_of};

/// What a call does that costs something.
#[derive(Clone, Copy, Debug, PartialEq, Eq)]
pub enum Priced {
    /// Changes of a contract's sectors.
    Write {
        /// How many sectors are appended.
        appends: u64,
        /// How many times two sectors are swapped.
        swaps: u64,
        /// How many parts of sectors are replaced.
        updates: u64,
        /// How many bytes these parts have together.
        update_bytes: u64,
    },
    /// Parts of sectors that are read.
    Read {
        /// How many parts.
        sections: u64,
        /// How many bytes they have together.
        bytes: u64,
    },
    /// Roots of sectors that are read.
    Roots {
        /// How many roots.
        count: u64,
    },
}

/// What a call costs, in hastings.
#[derive(Clone, Copy, Debug, PartialEq, Eq)]
pub struct Cost {
    /// What the host keeps in any case.
    pub bandwidth: u128,
    /// What the host is paid for keeping sectors.
    pub storage: u128,
    /// What the host risks for them.
    pub collateral: u128,
}

impl Cost {
    /// What the renter pays: the bandwidth part and the storage part, and no more than 2^128 - 1.
    pub fn due(&self) -> u128
        ensures { result ≡ due_of self.now }
    {
        self.bandwidth.saturating_add(self.storage)
    }
}
