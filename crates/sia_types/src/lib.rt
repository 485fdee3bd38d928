//! The records of Sia, each with its one spelling.
//!
//! A record is spelled by its fields in order (siad's doc/Encoding.md and its package types; the two tree proofs and a host's
//! settings are RHP2's).
//! Each record is an [`Item`]: its codec, made of those of its fields, stands in specs/ with its law.
//!
//! ```
//! use sia_types::{Item, Transaction};
//! let (tx, taken) = Transaction::decode(alloc, bytes, 2_000_000)?;
//! tx.encode(&mut out)?;
//! ```
//!
//! # Promises
//!
//! - [`Transaction`], [`Block`], [`CoinInput`], [`CoinOutput`], [`FundInput`], [`FundOutput`], [`FileContract`], [`Revision`],
//!   [`StorageProof`], [`UnlockConditions`], [`PublicKey`], [`Signature`], [`Covered`], [`UpdateProof`], [`DiffProof`],
//!   [`Prices`] and [`Settings`] are items: reading and spelling are exactly their codec's, with the first fault and its
//!   offset, and its law holds.
//! - [`Terms::copy`] is the same terms. [`Terms`] and [`Coin`] are what a ledger tells of a contract and of an output: no
//!   bytes are stated for them.
//! - [`Transaction::encode_unsigned`] appends the spelling of all fields but the signatures; that and the signatures are the
//!   transaction's spelling ([`laws::signatures_come_last`]).
//!
//! # Stands on
//!
//! sia_encoding for items, lists and byte strings, which it hands on.
#![tactic(auto)]

mod block;
mod coin;
mod coins;
mod conditions;
mod diff_proof;
mod file_contracts;
mod funds;
pub mod laws;
mod settings;
mod sig_fault;
mod signature;
mod terms;
mod transaction;
mod update_proof;

pub use block::Block;
pub use coin::Coin;
pub use coins::{CoinInput, CoinOutput};
pub use conditions::{PublicKey, UnlockConditions};
pub use diff_proof::DiffProof;
pub use file_contracts::{FileContract, Revision, StorageProof};
pub use funds::{FundInput, FundOutput};
pub use settings::{Prices, Settings};
pub use sia_encoding::{Blob, DecodeFault, Item, List};
pub use sig_fault::SigFault;
pub use signature::{Covered, Signature};
pub use terms::Terms;
pub use transaction::Transaction;
pub use update_proof::UpdateProof;
