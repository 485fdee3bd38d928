//! How a renter and a host form and renew file contracts: which coins pay, what the renter builds, and what the host asks for.
//!
//! A renter makes a transaction with the new contract and coins of its own; the host checks it, adds its collateral, and both sign
//! the whole (RHP2; siad's modules/renter/proto and modules/host; Sia whitepaper). A renewal clears the old contract by a
//! revision beside the new one.
//!
//! ```
//! use sia_forms::{add_host_part, build_form, check_form, finish};
//! let tx = build_form(alloc, &plan, &settings, coins, &renter_key)?;
//! let added = add_host_part(alloc, check_form(alloc, &tx, &renter_key, &settings)?, host_coins, &settings)?;
//! ```
//!
//! # Promises
//!
//! - [`choose`] is the shortest prefix that reaches a need of the coins by falling value, then ascending identifier, and
//!   `NoFunds` exactly where all of them don't reach it.
//! - [`build_form`] and [`build_renew`] make exactly the transaction of a plan: its contract, its fee, coins that are chosen for
//!   the payout and the fee less the collateral, and the change; a renewal also the revision that clears the old contract
//!   ([`clearing`]). They answer `NoFunds` exactly where the coins don't do, or where an amount passes 2^128 - 1.
//! - [`check_form`] and [`check_renew`] answer exactly the collateral, or the first of the host's points that fails. What the two
//!   builders make they accept where the plan keeps the host's limits ([`laws::built_form_is_accepted`],
//!   [`laws::built_renewal_is_accepted`]). [`begins_with`], [`pays_parties`], [`is_cleared`] and [`is_spelled_as`] are the tests that
//!   stand in these.
//! - [`add_host_part`] adds exactly coins that are chosen for the collateral, and the change; [`finish`] puts it and the host's
//!   signatures behind the renter's.
//! - [`own_conditions`] and [`own_address`] are those of a party's one key; [`both_conditions`] and [`both_address`] those of the
//!   renter's key and then the host's, both required.
//!
//! The one other error is want of memory.
//!
//! # Stands on
//!
//! sia_types and sia_encoding for records, sia_blake and sia_ids for addresses, sia_rules for payouts.
#![tactic(auto)]

mod building;
mod checking;
mod choosing;
mod fault;
mod funding;
pub mod laws;
mod parties;
mod plan;
mod renewing;

pub use building::{build_form, build_renew};
pub use checking::{begins_with, check_form, check_renew, is_cleared, is_spelled_as, pays_parties};
pub use choosing::choose;
pub use fault::FormFault;
pub use funding::{Additions, add_host_part, finish};
pub use parties::{both_address, both_conditions, own_address, own_conditions};
pub use plan::FormPlan;
pub use renewing::clearing;
