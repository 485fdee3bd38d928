//! The identifiers of all that one transaction makes.
ghost use Rattle.std.specs.Prelude.{◌≡◌, ℕ, ◌++◌, IfOk};
ghost use Rattle.sia_blake.specs.Blake2b.{blake2b_256};
ghost use Rattle.sia_encoding.specs.Spelling.{spelled_u64};
ghost use Rattle.sia_types.specs.Transaction.{unsigned};
ghost use Rattle.sia_ids.specs.Transactions.{id_behind, coin_id, fund_id, contract_id};

use crate::transaction::{FILE_CONTRACT, SIACOIN_OUTPUT, SIAFUND_OUTPUT};
use sia_blake::{Hash, Hasher};
use sia_encoding::{Blob, put_fixed};
use sia_types::Transaction;
use std::alloc::{AllocError, Global};
use std::marker::Model;

/// The identifiers of a transaction's siacoin outputs, siafund outputs or file contracts. The transaction is spelled and
/// hashed once for all of them. Contracts see the text that stands before an index.
#[derive(Drop)]
pub struct MadeIds {
    front: Hasher,
}

impl Model for MadeIds {
    ghost use Rattle.std.specs.Prelude.{List, ℕ, ◌<◌, ◌^◌, length};
    ghost use Rattle.std.specs.Coded.{coded_list, coded_ℕ};

    ghost Value = { List ℕ };

    ghost coded = { coded_list coded_ℕ };

    ghost view = { λ ids. ids.front };

    ghost invariant = { λ ids. length ids.front < 2 ^ 63 };
}

impl MadeIds {
    /// The identifier of what stands at an index from 0.
    #[tactic(auto, unfolding(crate::specs::Transactions::id_behind, sia_encoding::specs::Spelling::spelled_u64))]
    pub fn id(&self, index: u64) -> Hash
        ensures { result ≡ id_behind self.now index }
    {
        let mut hasher = self.front.copy();
        hasher.update(&index.to_le_bytes());
        hasher.finish()
    }
}

/// The identifiers of a transaction's siacoin outputs. Its error is want of memory.
#[tactic(auto, unfolding(crate::specs::Transactions::coin_id, crate::specs::Transactions::made_text))]
pub fn coin_ids(alloc: Global, tx: &Transaction) -> Result<MadeIds, AllocError>
    ensures { IfOk result (λ ids. (index : ℕ) → id_behind ids index ≡ coin_id tx.now index) }
{
    ids_under(alloc, &SIACOIN_OUTPUT, tx)
}

/// The identifiers of a transaction's siafund outputs. Its error is want of memory.
#[tactic(auto, unfolding(crate::specs::Transactions::fund_id, crate::specs::Transactions::made_text))]
pub fn fund_ids(alloc: Global, tx: &Transaction) -> Result<MadeIds, AllocError>
    ensures { IfOk result (λ ids. (index : ℕ) → id_behind ids index ≡ fund_id tx.now index) }
{
    ids_under(alloc, &SIAFUND_OUTPUT, tx)
}

/// The identifiers of a transaction's file contracts. Its error is want of memory.
#[tactic(auto, unfolding(crate::specs::Transactions::contract_id, crate::specs::Transactions::made_text))]
pub fn contract_ids(alloc: Global, tx: &Transaction) -> Result<MadeIds, AllocError>
    ensures { IfOk result (λ ids. (index : ℕ) → id_behind ids index ≡ contract_id tx.now index) }
{
    ids_under(alloc, &FILE_CONTRACT, tx)
}

// The identifiers of what stands behind a label and the transaction without its signatures.
#[tactic(auto, using(crate::proofs::Fronts::behind_both))]
fn ids_under(alloc: Global, label: &[u8; 16], tx: &Transaction) -> Result<MadeIds, AllocError>
    ensures { IfOk result (λ ids. (index : ℕ) → id_behind ids index ≡ blake2b_256 (label.now ++ (unsigned tx.now ++ spelled_u64 index))) }
{
    let mut text = Blob::new(alloc);
    put_fixed(&mut text, label)?;
    tx.encode_unsigned(&mut text)?;
    let mut front = Hasher::new();
    front.update(text.as_slice());
    Ok(MadeIds { front })
}
