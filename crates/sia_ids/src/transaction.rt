//! The identifiers of a transaction and of what it makes.
ghost use Rattle.std.specs.Prelude.{◌≡◌, ◌++◌, IfOk};
ghost use Rattle.sia_blake.specs.Blake2b.{blake2b_256};
ghost use Rattle.sia_encoding.specs.Spelling.{spelled_u64};
ghost use Rattle.sia_types.specs.Transaction.{unsigned};
ghost use Rattle.sia_ids.specs.Transactions.{transaction_id, coin_id as coin_id_of, fund_id as fund_id_of, contract_id as contract_id_of, claim_id as claim_id_of, settlement_id};

use sia_blake::{Hash, Hasher, digest};
use sia_encoding::{Blob, put_fixed, put_u64};
use sia_types::Transaction;
use std::alloc::{AllocError, Global};

/// The label of a siacoin output, filled with zero bytes to 16.
pub(crate) const SIACOIN_OUTPUT: [u8; 16] = *b"siacoin output\0\0";

/// The label of a siafund output.
pub(crate) const SIAFUND_OUTPUT: [u8; 16] = *b"siafund output\0\0";

/// The label of a file contract.
pub(crate) const FILE_CONTRACT: [u8; 16] = *b"file contract\0\0\0";

/// The label of the claim of a siafund output.
const CLAIM_OUTPUT: [u8; 16] = *b"claim output\0\0\0\0";

/// The label of an output of a settled contract.
const STORAGE_PROOF: [u8; 16] = *b"storage proof\0\0\0";

/// The identifier of a transaction: the digest of all its fields but the signatures. Its error is want of memory.
#[tactic(auto, unfolding(crate::specs::Transactions::transaction_id))]
pub fn tx_id(alloc: Global, tx: &Transaction) -> Result<Hash, AllocError>
    ensures { IfOk result (λ id. id ≡ transaction_id tx.now) }
{
    let mut text = Blob::new(alloc);
    tx.encode_unsigned(&mut text)?;
    Ok(digest(text.as_slice()))
}

/// The identifier of the siacoin output at an index from 0 of a transaction. Its error is want of memory.
#[tactic(auto, unfolding(crate::specs::Transactions::coin_id, crate::specs::Transactions::made_text))]
pub fn coin_id(alloc: Global, tx: &Transaction, index: u64) -> Result<Hash, AllocError>
    ensures { IfOk result (λ id. id ≡ coin_id_of tx.now index) }
{
    id_of_made(alloc, &SIACOIN_OUTPUT, tx, index)
}

/// The identifier of the siafund output at an index from 0 of a transaction. Its error is want of memory.
#[tactic(auto, unfolding(crate::specs::Transactions::fund_id, crate::specs::Transactions::made_text))]
pub fn fund_id(alloc: Global, tx: &Transaction, index: u64) -> Result<Hash, AllocError>
    ensures { IfOk result (λ id. id ≡ fund_id_of tx.now index) }
{
    id_of_made(alloc, &SIAFUND_OUTPUT, tx, index)
}

/// The identifier of the file contract at an index from 0 of a transaction. Its error is want of memory.
#[tactic(auto, unfolding(crate::specs::Transactions::contract_id, crate::specs::Transactions::made_text))]
pub fn contract_id(alloc: Global, tx: &Transaction, index: u64) -> Result<Hash, AllocError>
    ensures { IfOk result (λ id. id ≡ contract_id_of tx.now index) }
{
    id_of_made(alloc, &FILE_CONTRACT, tx, index)
}

/// The identifier of the claim of the siafund output with this identifier.
#[tactic(auto, unfolding(crate::specs::Transactions::claim_id, crate::specs::Transactions::claim_text))]
pub fn claim_id(fund: &Hash) -> Hash
    ensures { result ≡ claim_id_of fund.now }
{
    let mut hasher = Hasher::new();
    hasher.update(&CLAIM_OUTPUT);
    hasher.update(fund);
    hasher.finish()
}

/// The identifier of the output at an index from 0 of the settled contract with this identifier: among its valid outputs
/// or the missed ones, counting those of value 0 too.
#[tactic(auto, unfolding(crate::specs::Transactions::settlement_id, crate::specs::Transactions::settlement_text, sia_encoding::specs::Spelling::spelled_u64))]
pub fn settle_id(contract: &Hash, valid: bool, index: u64) -> Hash
    ensures { result ≡ settlement_id contract.now valid index }
{
    let mut hasher = Hasher::new();
    hasher.update(&STORAGE_PROOF);
    hasher.update(contract);
    hasher.update(&[valid as u8]);
    hasher.update(&index.to_le_bytes());
    hasher.finish()
}

// The digest of a label, the transaction without its signatures, and an index.
fn id_of_made(
    alloc: Global,
    label: &[u8; 16],
    tx: &Transaction,
    index: u64,
) -> Result<Hash, AllocError>
    ensures { IfOk result (λ id. id ≡ blake2b_256 (label.now ++ (unsigned tx.now ++ spelled_u64 index))) }
{
    let mut text = Blob::new(alloc);
    put_fixed(&mut text, label)?;
    tx.encode_unsigned(&mut text)?;
    put_u64(&mut text, index)?;
    Ok(digest(text.as_slice()))
}
