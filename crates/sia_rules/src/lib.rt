//! The rules of Sia's chain that look at no chain: what blocks create, the tax of file contracts, and what transactions,
//! contracts and revisions must be by themselves.
//!
//! A block at a height h from 1 creates 300,000 - h siacoins, and never fewer than 30,000; a siacoin is 10^24 hastings
//! (Sia whitepaper; siad's doc/Consensus.md, types/constants.go, types/filecontracts.go and types/validtransaction.go). The
//! rules are numbered in the order in which they are tried; [`BlockFault`] has them all.
//!
//! ```
//! use sia_rules::{COIN, subsidy};
//! let first = subsidy(1);
//! let siacoins = first / COIN; // 299,999
//! ```
//!
//! # Promises
//!
//! - [`subsidy`] is exactly what the block at a height creates, in hastings. It takes no memory.
//! - [`tax`] is exactly 39 thousandths of a payout, rounded down to a multiple of 10,000, and so no more than the payout.
//! - [`payout_for`] is the least payout that leaves a value after its tax, and `None` exactly where that one has more than
//!   128 bits.
//! - What all blocks create up to a height below 2^32 is less than 2^128 hastings, so a currency holds it
//!   ([`laws::issue_fits`]).
//! - [`values`] tells the sums of a transaction, or exactly that one has more than 128 bits or that it makes something of value
//!   0; [`tx_sums`] and [`check_values`] are its two halves, and [`coin_sum`] the sum of outputs.
//! - [`shape`] tells exactly whether a storage proof stands beside what a transaction makes or revises, and whether a list
//!   names a parent twice.
//! - [`form_rule`] and [`revision_rule`] tell exactly the first rule that a new contract breaks, or a revision beside the
//!   present terms; [`form_window`] and [`form_sum`], [`revision_number`], [`revision_window`] and [`revision_sum`] are the
//!   single rules. None takes memory.
//!
//! # Stands on
//!
//! sia_encoding for how answers are told, sia_types for the records.
#![tactic(auto)]

mod amounts;
mod fault;
mod file_contracts;
pub mod laws;
mod lists;
mod sums;
mod tx_values;

pub use amounts::{COIN, FUND_COUNT, payout_for, subsidy, tax};
pub use fault::BlockFault;
pub use file_contracts::{
    form_rule, form_sum, form_window, revision_number, revision_rule, revision_sum, revision_window,
};
pub use lists::shape;
pub use sums::coin_sum;
pub use tx_values::{TxSums, check_values, tx_sums, values};
