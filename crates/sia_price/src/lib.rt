//! What a renter's calls cost, and how revisions of a file contract pay for them.
//!
//! A host has prices for its bandwidth, its storage and the collateral that it risks; a revision moves what is due from the
//! renter's outputs to the host's and to the void (RHP2; siad's modules/negotiate.go; Sia whitepaper).
//!
//! ```
//! use sia_price::{Priced, cost, revise};
//! let price = cost(&Priced::Roots { count: 2 }, &prices, sector, duration(revision.end, height));
//! let paid = revise(alloc, &revision, revision.number + 1, revision.size, &revision.root, &price)?;
//! ```
//!
//! # Promises
//!
//! - [`cost`] is exactly the bandwidth part, the storage part and the collateral of a call, each no more than 2^128 - 1
//!   hastings; [`duration`] is how many blocks a contract still lasts, and 0 where it has ended.
//! - [`check_payment`] refuses exactly, in this order: another count of values, another sum, a renter's valid value that falls
//!   by less than is due, and values that don't follow the cost where nothing is proved. It takes no memory. The first two are
//!   judged by [`has_same_counts`] and [`has_same_sums`] alone.
//! - [`revise`] is exactly the revision that pays, and `None` exactly where the renter hasn't what is due; what it makes is
//!   accepted ([`laws::revised_is_accepted`]).
//! - [`with_terms`] is the revision with other values, number, size and root, and all else as it was.
//!
//! # Stands on
//!
//! sia_types for revisions and prices, sia_encoding for what a call answers.
#![tactic(auto)]

pub mod laws;
mod payment;
mod priced;
mod pricing;
mod revising;

pub use payment::{PayFault, check_payment, has_same_counts, has_same_sums};
pub use priced::{Cost, Priced};
pub use pricing::{cost, duration};
pub use revising::{revise, with_terms};
