//! The identifiers of blocks, transactions and what they make: BLAKE2b-256 digests of labelled texts.
//!
//! A block is named by its header, whose root is over its payouts and its transactions; a transaction by all its fields but
//! the signatures; what a transaction makes by a label, the transaction and an index; an address by the root over its
//! unlock conditions (siad's types/block.go, types/transactions.go, types/filecontracts.go and types/unlockhash.go). The
//! genesis of a chain is named by its siafund outputs, under a label of its own.
//!
//! ```
//! use sia_ids::{block_id, payout_id};
//! let id = block_id(alloc, &block)?;
//! let first = payout_id(&id, 0);
//! ```
//!
//! # Promises
//!
//! - [`block_id`] is the digest of the block's header: parent, nonce, timestamp, and the Merkle root over its payouts and
//!   then its transactions. [`payout_id`] is that of the block's identifier and the index of the payout.
//! - [`tx_id`] is the digest of a transaction without its signatures; [`coin_id`], [`fund_id`] and [`contract_id`] that of
//!   a label, the same, and an index. [`coin_ids`], [`fund_ids`] and [`contract_ids`] give them for every index, and spell and
//!   hash the transaction once.
//! - [`claim_id`] is the digest of a label and the siafund output's identifier; [`settle_id`] that of a label, the
//!   contract's identifier, whether its outputs are the valid ones, and the index.
//! - [`genesis_id`] is the digest of a label and the list of the siafund outputs as the genesis makes them, with the claim
//!   start 0; [`genesis_fund_id`] that of a label, the genesis' identifier and the index.
//! - [`unlock_hash`] is the Merkle root over the timelock, the keys and the number of required keys.
//! - [`segment_index`] is the first 8 bytes of the digest of its two identifiers, as a number, modulo the count, and so
//!   below it.
//!
//! The one error is want of memory. Calls that answer no `Result` take none.
//!
//! # Stands on
//!
//! sia_encoding and sia_types for the records' bytes, sia_blake for digests, sia_merkle for roots.
#![tactic(auto)]

mod block;
mod conditions;
mod genesis;
mod made;
mod transaction;

pub use block::{block_id, payout_id};
pub use conditions::{segment_index, unlock_hash};
pub use genesis::{genesis_fund_id, genesis_id};
pub use made::{MadeIds, coin_ids, contract_ids, fund_ids};
pub use transaction::{claim_id, coin_id, contract_id, fund_id, settle_id, tx_id};
