//! Transactions (siad's types/transactions.go).
ghost use Rattle.std.specs.Prelude.{ℕ, ◌++◌};

use crate::coins::{CoinInput, CoinOutput};
use crate::file_contracts::{FileContract, Revision, StorageProof};
use crate::funds::{FundInput, FundOutput};
use crate::signature::Signature;
use sia_encoding::{Blob, Cursor, DecodeFault, Item, List, Spelled, behind};
use std::alloc::{AllocError, Global};

/// A transaction.
#[derive(Drop)]
pub struct Transaction {
    /// The siacoin outputs that it spends.
    pub coin_inputs: List<CoinInput>,
    /// The siacoin outputs that it makes.
    pub coin_outputs: List<CoinOutput>,
    /// The file contracts that it forms.
    pub contracts: List<FileContract>,
    /// The revisions of file contracts.
    pub revisions: List<Revision>,
    /// The storage proofs.
    pub proofs: List<StorageProof>,
    /// The siafund outputs that it spends.
    pub fund_inputs: List<FundInput>,
    /// The siafund outputs that it makes.
    pub fund_outputs: List<FundOutput>,
    /// What it pays the miner, in hastings.
    pub fees: List<u128>,
    /// Bytes without a rule; siad calls them arbitrary data.
    pub notes: List<Blob>,
    /// Its signatures.
    pub signatures: List<Signature>,
}

impl Item for Transaction {
    ghost use Rattle.sia_types.specs.Transaction.{transaction, transaction_law};

    ghost codec = { transaction };

    ghost law = { transaction_law };

    fn read(alloc: Global, cursor: &mut Cursor<'_>) -> Result<Transaction, DecodeFault> {
        Ok(Transaction {
            coin_inputs: Item::read(alloc, cursor)?,
            coin_outputs: Item::read(alloc, cursor)?,
            contracts: Item::read(alloc, cursor)?,
            revisions: Item::read(alloc, cursor)?,
            proofs: Item::read(alloc, cursor)?,
            fund_inputs: Item::read(alloc, cursor)?,
            fund_outputs: Item::read(alloc, cursor)?,
            fees: Item::read(alloc, cursor)?,
            notes: Item::read(alloc, cursor)?,
            signatures: Item::read(alloc, cursor)?,
        })
    }

    fn write(&self, out: &mut Blob) -> Result<(), AllocError> {
        behind!(
            self.coin_inputs,
            self.coin_outputs,
            self.contracts,
            self.revisions,
            self.proofs,
            self.fund_inputs,
            self.fund_outputs,
            self.fees,
            self.notes,
            self.signatures
        )
        .write_each(out)
    }

    fn copy(&self, alloc: Global) -> Result<Transaction, AllocError> {
        Ok(Transaction {
            coin_inputs: self.coin_inputs.copy(alloc)?,
            coin_outputs: self.coin_outputs.copy(alloc)?,
            contracts: self.contracts.copy(alloc)?,
            revisions: self.revisions.copy(alloc)?,
            proofs: self.proofs.copy(alloc)?,
            fund_inputs: self.fund_inputs.copy(alloc)?,
            fund_outputs: self.fund_outputs.copy(alloc)?,
            fees: self.fees.copy(alloc)?,
            notes: self.notes.copy(alloc)?,
            signatures: self.signatures.copy(alloc)?,
        })
    }
}

impl Transaction {
    ghost use Rattle.std.specs.Prelude.{◌≡◌, OnOk, OnErr};
    ghost use Rattle.sia_types.specs.Transaction.{unsigned};

    /// Appends the spelling of all fields but the signatures. Its error is want of memory: `out` stays.
    pub fn encode_unsigned(&self, out: &mut Blob) -> Result<(), AllocError>
        ensures ok { OnOk result (out.new ≡ out.old ++ unsigned self.now) }
        ensures err { OnErr result (out.new ≡ out.old) }
    {
        let before = out.len();
        let fields = behind!(
            self.coin_inputs,
            self.coin_outputs,
            self.contracts,
            self.revisions,
            self.proofs,
            self.fund_inputs,
            self.fund_outputs,
            self.fees,
            self.notes
        );
        if fields.write_each(out).is_err() {
            out.truncate(before);
            return Err(AllocError);
        }
        Ok(())
    }
}
