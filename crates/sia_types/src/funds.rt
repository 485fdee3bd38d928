//! Siafund inputs and outputs (siad's types/transactions.go).
ghost use Rattle.std.specs.Prelude.{ℕ, ◌++◌};

use crate::conditions::UnlockConditions;
use sia_encoding::{Blob, Cursor, DecodeFault, Item, Spelled, behind};
use std::alloc::{AllocError, Global};

/// A siafund output that is spent.
#[derive(Drop)]
pub struct FundInput {
    /// Its identifier.
    pub parent: [u8; 32],
    /// The conditions whose root is its address.
    pub conditions: UnlockConditions,
    /// The unlock hash that its claim is paid to.
    pub claim_address: [u8; 32],
}

impl Item for FundInput {
    ghost use Rattle.sia_types.specs.Funds.{fund_input, fund_input_law};

    ghost codec = { fund_input };

    ghost law = { fund_input_law };

    fn read(alloc: Global, cursor: &mut Cursor<'_>) -> Result<FundInput, DecodeFault> {
        Ok(FundInput {
            parent: Item::read(alloc, cursor)?,
            conditions: Item::read(alloc, cursor)?,
            claim_address: Item::read(alloc, cursor)?,
        })
    }

    fn write(&self, out: &mut Blob) -> Result<(), AllocError> {
        behind!(self.parent, self.conditions, self.claim_address).write_each(out)
    }

    fn copy(&self, alloc: Global) -> Result<FundInput, AllocError> {
        Ok(FundInput {
            parent: self.parent.copy(alloc)?,
            conditions: self.conditions.copy(alloc)?,
            claim_address: self.claim_address.copy(alloc)?,
        })
    }
}

/// A siafund output: a number of the 10,000 siafunds, held by an address.
#[derive(Clone, Copy)]
pub struct FundOutput {
    /// How many siafunds it holds.
    pub value: u128,
    /// The unlock hash that it belongs to.
    pub address: [u8; 32],
    /// The pool of the siafunds, in hastings, from which its claim is counted.
    pub claim_start: u128,
}

impl Item for FundOutput {
    ghost use Rattle.sia_types.specs.Funds.{fund_output, fund_output_law};

    ghost codec = { fund_output };

    ghost law = { fund_output_law };

    fn read(alloc: Global, cursor: &mut Cursor<'_>) -> Result<FundOutput, DecodeFault> {
        Ok(FundOutput {
            value: Item::read(alloc, cursor)?,
            address: Item::read(alloc, cursor)?,
            claim_start: Item::read(alloc, cursor)?,
        })
    }

    fn write(&self, out: &mut Blob) -> Result<(), AllocError> {
        behind!(self.value, self.address, self.claim_start).write_each(out)
    }

    fn copy(&self, _alloc: Global) -> Result<FundOutput, AllocError> {
        Ok(*self)
    }
}
