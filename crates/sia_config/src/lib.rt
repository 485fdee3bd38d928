//! The configuration of `sia-v1`: a TOML document, read into what a chain begins from, what a host offers and what a renter
//! asks.
//!
//! The keys, their ranges and their defaults are this project's own; what a host's keys mean are RHP2's host settings (siad's
//! modules/host.go). The text is TOML 1.0, as the crate `toml` reads it. One table has each key in the order in which it is
//! tried, with its form, its range and its default (specs/Config.antt).
//!
//! ```
//! let config = read_config(alloc, bytes)?;
//! let ledger = Ledger::genesis(alloc, config.host.params)?;
//! let sector = config.host.settings.sector;
//! ```
//!
//! # Promises
//!
//! - [`read_config`] reads every key, or answers exactly the first refusal: bytes that are no TOML document, then the first
//!   key whose value is of another type or out of its range. Want of memory is never disguised as one of these.
//! - An accepted configuration ([`read_config`]) makes a genesis that nothing but want of memory refuses, and has a size of
//!   sectors and limits that the crates above need: a sector is 64 bytes doubled at most 16 times, the journal has at least
//!   1,024 bytes and at most 2^36, a renter's file 1,024 to 2^32, a shelf at most 2^20 slots, and a run 16 to 2^24 events.
//! - The key of a refusal has its name ([`ConfigKey::table`], [`ConfigKey::name`]) and its place in the order
//!   ([`ConfigKey::row`]).
//! - [`read_decimal`] reads exactly the texts of decimal digits without sign and leading zero, below 2^128:
//!   what is printed of such numbers ([`laws::printed_numbers_are_read`]), and nothing else
//!   ([`laws::read_texts_are_printed`]).
//!
//! # Stands on
//!
//! sia_types for a host's settings, sia_ledger for what a chain begins from, with sia_rules, whose sums its refusals name,
//! sia_encoding for lists and for how answers are spoken of, sia_blake for addresses, and the kit's `toml`, `hex` and
//! `thiserror`.
#![tactic(auto)]

mod chain;
mod config;
mod decimal;
mod document;
mod fault;
mod host;
mod key;
pub mod laws;
mod reading;
mod renter;
mod siafunds;

pub use config::{Config, HostConfig};
pub use decimal::read_decimal;
pub use fault::ConfigFault;
pub use key::ConfigKey;
pub use reading::read_config;
