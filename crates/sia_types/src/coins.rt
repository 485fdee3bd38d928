//! Siacoin inputs and outputs (siad's types/transactions.go).
ghost use Rattle.std.specs.Prelude.{ℕ, ◌++◌};

use crate::conditions::UnlockConditions;
use sia_encoding::{Blob, Cursor, DecodeFault, Item, Spelled, behind};
use std::alloc::{AllocError, Global};

/// A siacoin output that is spent.
#[derive(Drop)]
pub struct CoinInput {
    /// Its identifier.
    pub parent: [u8; 32],
    /// The conditions whose root is its address.
    pub conditions: UnlockConditions,
}

impl Item for CoinInput {
    ghost use Rattle.sia_types.specs.Coins.{coin_input, coin_input_law};

    ghost codec = { coin_input };

    ghost law = { coin_input_law };

    fn read(alloc: Global, cursor: &mut Cursor<'_>) -> Result<CoinInput, DecodeFault> {
        Ok(CoinInput {
            parent: Item::read(alloc, cursor)?,
            conditions: Item::read(alloc, cursor)?,
        })
    }

    fn write(&self, out: &mut Blob) -> Result<(), AllocError> {
        behind!(self.parent, self.conditions).write_each(out)
    }

    fn copy(&self, alloc: Global) -> Result<CoinInput, AllocError> {
        Ok(CoinInput {
            parent: self.parent.copy(alloc)?,
            conditions: self.conditions.copy(alloc)?,
        })
    }
}

/// A siacoin output: a value in hastings, paid to an address.
#[derive(Clone, Copy)]
pub struct CoinOutput {
    /// Its value in hastings; 10^24 hastings are one siacoin.
    pub value: u128,
    /// The unlock hash that it is paid to.
    pub address: [u8; 32],
}

impl Item for CoinOutput {
    ghost use Rattle.sia_types.specs.Coins.{coin_output, coin_output_law};

    ghost codec = { coin_output };

    ghost law = { coin_output_law };

    fn read(alloc: Global, cursor: &mut Cursor<'_>) -> Result<CoinOutput, DecodeFault> {
        Ok(CoinOutput {
            value: Item::read(alloc, cursor)?,
            address: Item::read(alloc, cursor)?,
        })
    }

    fn write(&self, out: &mut Blob) -> Result<(), AllocError> {
        behind!(self.value, self.address).write_each(out)
    }

    fn copy(&self, _alloc: Global) -> Result<CoinOutput, AllocError> {
        Ok(*self)
    }
}
