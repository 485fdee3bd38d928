//! What a host asks for its services (RHP2's host settings; siad's modules/host.go).
ghost use Rattle.std.specs.Prelude.{ℕ, ◌++◌};

use sia_encoding::{Blob, Cursor, DecodeFault, Item, Spelled, behind};
use std::alloc::{AllocError, Global};

/// The prices of a host, in hastings.
#[derive(Clone, Copy)]
pub struct Prices {
    /// For a contract that is formed or renewed.
    pub contract_price: u128,
    /// For each request that is paid for.
    pub base: u128,
    /// For each sector that is read from or swapped.
    pub access: u128,
    /// For each byte that is kept, for each block.
    pub storage: u128,
    /// What the host risks for each byte that it keeps, for each block.
    pub collateral: u128,
    /// For each byte that the renter sends.
    pub upload: u128,
    /// For each byte that the host sends.
    pub download: u128,
}

impl Item for Prices {
    ghost use Rattle.sia_types.specs.Settings.{prices, prices_law};

    ghost codec = { prices };

    ghost law = { prices_law };

    fn read(alloc: Global, cursor: &mut Cursor<'_>) -> Result<Prices, DecodeFault> {
        Ok(Prices {
            contract_price: Item::read(alloc, cursor)?,
            base: Item::read(alloc, cursor)?,
            access: Item::read(alloc, cursor)?,
            storage: Item::read(alloc, cursor)?,
            collateral: Item::read(alloc, cursor)?,
            upload: Item::read(alloc, cursor)?,
            download: Item::read(alloc, cursor)?,
        })
    }

    fn write(&self, out: &mut Blob) -> Result<(), AllocError> {
        behind!(
            self.contract_price,
            self.base,
            self.access,
            self.storage,
            self.collateral,
            self.upload,
            self.download
        )
        .write_each(out)
    }

    fn copy(&self, _alloc: Global) -> Result<Prices, AllocError> {
        Ok(*self)
    }
}

/// What a host tells a renter of itself: its chain's height, its key, the limits of the contracts that it forms, and its
/// prices.
#[derive(Clone, Copy)]
pub struct Settings {
    /// The size of a sector, in bytes.
    pub sector: u64,
    /// The height of the host's chain.
    pub height: u64,
    /// The public key that the host signs with.
    pub host_key: [u8; 32],
    /// The unlock hash that the host is paid to.
    pub address: [u8; 32],
    /// How many blocks a contract's proof window has at least.
    pub window: u64,
    /// How many blocks from now a contract ends at most.
    pub max_duration: u64,
    /// What the host risks in one contract at most, in hastings.
    pub max_collateral: u128,
    /// Its prices.
    pub prices: Prices,
}

impl Item for Settings {
    ghost use Rattle.sia_types.specs.Settings.{settings, settings_law};

    ghost codec = { settings };

    ghost law = { settings_law };

    fn read(alloc: Global, cursor: &mut Cursor<'_>) -> Result<Settings, DecodeFault> {
        Ok(Settings {
            sector: Item::read(alloc, cursor)?,
            height: Item::read(alloc, cursor)?,
            host_key: Item::read(alloc, cursor)?,
            address: Item::read(alloc, cursor)?,
            window: Item::read(alloc, cursor)?,
            max_duration: Item::read(alloc, cursor)?,
            max_collateral: Item::read(alloc, cursor)?,
            prices: Item::read(alloc, cursor)?,
        })
    }

    fn write(&self, out: &mut Blob) -> Result<(), AllocError> {
        behind!(
            self.sector,
            self.height,
            self.host_key,
            self.address,
            self.window,
            self.max_duration,
            self.max_collateral,
            self.prices
        )
        .write_each(out)
    }

    fn copy(&self, _alloc: Global) -> Result<Settings, AllocError> {
        Ok(*self)
    }
}
