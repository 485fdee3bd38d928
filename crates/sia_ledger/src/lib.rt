//! The ledger of a Sia chain: blocks behind a genesis, whose transactions move siacoins and siafunds and form, revise and
//! settle file contracts.
//!
//! A chain begins from its siafund outputs and a maturity, how many blocks a miner payout, a claim or an output of a settled
//! contract rests; each block stands on the last one and pays its miner the subsidy and all fees (Sia whitepaper; siad's
//! doc/Consensus.md). Contracts see a ledger as its chain. What is known of a chain is a list of facts, each an identifier and
//! what happens to it; all holdings are sums over the facts that no later fact is about.
//!
//! ```
//! let mut ledger = Ledger::genesis(alloc, params)?;
//! ledger.apply(alloc, &block, &Seal, &mut steps)?;
//! let issued = ledger.sums().issued;
//! ```
//!
//! # Promises
//!
//! - [`Ledger::genesis`] begins a chain from [`Params`], or answers exactly the first thing that is wrong with them.
//! - [`Ledger::check_block`] and [`Ledger::apply`] refuse a block exactly with the first rule that it breaks, of B1 to B24 in
//!   their order, as the check that is handed in judges signatures. After a refusal the chain is as it was. Where a block is
//!   refused for an identifier that is made a second time, two different byte strings of the chain have one digest.
//! - [`Ledger::check_set`] answers exactly the first rule that a transaction breaks as the first one of a next block.
//! - [`Ledger::apply`] puts the block behind the last one, [`Ledger::revert`] drops the last one and is refused exactly at
//!   the genesis.
//! - [`Ledger::sums`], [`Ledger::height`], [`Ledger::tip`], [`Ledger::block_at`], [`Ledger::status`], [`Ledger::terms`] and
//!   [`Ledger::coins`] are those of the present chain. What is live, in escrow and unclaimed together is what was issued.
//! - [`Ledger::status`] is valid exactly where a block of the chain holds a storage proof for the contract, and missed exactly
//!   where the chain has the block of its end and no block up to that one holds one. Each storage proof of the chain is inside
//!   the window of its contract's terms and, where they store something, correct. No contract is settled twice
//!   ([`laws::contracts_are_settled_once`]).
//! - [`Ledger::check_block`] and [`Ledger::apply`] count one step each, [`Ledger::revert`] none.
//!
//! Want of memory is the one answer that no clause ties to a cause.
//!
//! # Stands on
//!
//! sia_encoding and sia_types for the records, sia_blake, sia_merkle and sia_ids for their identifiers, sia_edge and sia_sign
//! for signatures, and sia_rules for the rules that look at no chain.
#![tactic(auto)]

mod balance;
mod base;
mod catalog;
mod chains;
mod claiming;
mod coins;
mod contracts;
mod draft;
mod effects;
mod ending;
mod entries;
mod fact;
mod fault;
mod funds;
mod genesis;
mod heads;
mod holdings;
mod judging;
pub mod laws;
mod ledger;
mod lookups;
mod owned;
mod params;
mod parts;
mod present;
mod proving;
mod register;
mod running;
mod settling;
mod sums;
mod transactions;
mod typed;
mod unlocking;

pub use fact::{Deed, Fact};
pub use fault::{GenesisFault, RevertFault};
pub use ledger::Ledger;
pub use params::Params;
pub use sia_rules::BlockFault;
pub use sia_types::{Block, Coin, CoinOutput, FundOutput, Terms};
pub use sums::{Status, Sums};
