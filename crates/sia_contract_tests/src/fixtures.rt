//! A host's settings, a renter's coins and an old contract, which the tests share.
ghost use Rattle.std.specs.Prelude.{◌≡◌, IfOk};
ghost use Rattle.sia_price.specs.Payments.{values_of};

use sia_encoding::List;
use sia_forms::both_conditions;
use sia_types::{Coin, CoinOutput, Prices, Revision, Settings};
use std::alloc::{AllocError, Global};

/// The renter's key.
pub const RENTER: [u8; 32] = [1; 32];

/// The host's key.
pub const HOST: [u8; 32] = [2; 32];

/// The address that the host is paid to.
pub const HOST_ADDRESS: [u8; 32] = [3; 32];

/// The default prices, in hastings.
pub const PRICES: Prices = Prices {
    contract_price: 150_000_000_000_000_000_000_000,
    base: 100_000_000_000_000_000,
    access: 100_000_000_000_000_000,
    storage: 25_000_000_000,
    collateral: 50_000_000_000,
    upload: 1_000_000_000_000,
    download: 25_000_000_000_000,
};

/// The default settings, at height 100.
pub const SETTINGS: Settings = Settings {
    sector: 4_194_304,
    height: 100,
    host_key: HOST,
    address: HOST_ADDRESS,
    window: 144,
    max_duration: 25_920,
    max_collateral: 1_000_000_000_000_000_000_000_000_000,
    prices: PRICES,
};

/// Small settings, so that amounts can be read off: price 200, storage 1, collateral 2, at most 60 of it.
pub const SMALL: Settings = Settings {
    window: 10,
    max_duration: 100,
    max_collateral: 60,
    prices: Prices {
        contract_price: 200,
        storage: 1,
        collateral: 2,
        ..PRICES
    },
    ..SETTINGS
};

/// A coin of this value whose identifier is this byte.
pub fn coin(byte: u8, value: u128) -> Coin {
    Coin {
        id: [byte; 32],
        value,
        address: [0; 32],
        from: 0,
    }
}

/// Outputs of these values, all to one address.
pub fn outputs(
    alloc: Global,
    values: &[u128],
    address: [u8; 32],
) -> Result<List<CoinOutput>, AllocError>
    ensures { IfOk result (λ list. values_of list ≡ values.now) }
{
    let mut list = List::new(alloc);
    for value in values {
        list.push(CoinOutput {
            value: *value,
            address,
        })?;
    }
    Ok(list)
}

/// The newest revision of a contract between the two that stores so many bytes and whose window ends at this height.
pub fn newest(
    alloc: Global,
    size: u64,
    end: u64,
    valid: &[u128; 2],
    missed: &[u128; 3],
) -> Result<Revision, AllocError>
    ensures valid { IfOk result (λ revision. values_of revision.valid ≡ valid.now) }
    ensures missed { IfOk result (λ revision. values_of revision.missed ≡ missed.now) }
{
    Ok(Revision {
        parent: [4; 32],
        conditions: both_conditions(alloc, &RENTER, &HOST)?,
        number: 7,
        size,
        root: [5; 32],
        start: 50,
        end,
        valid: outputs(alloc, valid, HOST_ADDRESS)?,
        missed: outputs(alloc, missed, HOST_ADDRESS)?,
        address: sia_forms::both_address(alloc, &RENTER, &HOST)?,
    })
}
