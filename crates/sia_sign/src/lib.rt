//! Whether a transaction is signed: what each signature signs, and the first fault of the signatures.
//!
//! A transaction's needs are its siacoin inputs, revisions and siafund inputs; each has unlock conditions, and wants as many
//! signatures by their keys as these require (siad's types/signatures.go and doc/Consensus.md). `Seal`, the stand-in for a
//! signature scheme, is this project's own; anybody can compute a seal, so it protects nothing.
//!
//! ```
//! use sia_sign::{Seal, SealSigner, check_signatures, sig_hash};
//! let sig = SealSigner::new(key).sign(alloc, &sig_hash(alloc, &tx, 0)?)?;
//! check_signatures(alloc, &tx, height, &Seal)?;
//! ```
//!
//! # Promises
//!
//! - [`sig_hash`] is exactly the digest of what the signature covers, of its own fields, and of the signatures that it covers.
//! - [`check_signatures`] answers exactly the first fault: each signature in order is judged frivolous, locked or refused by the
//!   check, in this order, and then the needs in order are counted. It is Ok exactly where there is none. Want of memory alone
//!   is free.
//! - [`Locked`] is what needs signatures, an input or a revision: it tells the identifier that it unlocks, and its conditions.
//! - [`Seal`] accepts a signature exactly where it is the seal of the hash under a key of 32 bytes; what [`SealSigner`] makes is
//!   that seal, so [`Seal`] accepts it and nothing else ([`laws::seals_alone_are_accepted`]).
//!
//! # Stands on
//!
//! sia_types and sia_encoding for the records and their bytes, sia_blake for digests, sia_edge for the check and the signer that
//! are handed in.
#![tactic(auto)]

mod checking;
mod elements;
mod frivolous;
pub mod laws;
mod needs;
mod seal;
mod signed;

pub use checking::check_signatures;
pub use needs::Locked;
pub use seal::{Seal, SealSigner};
pub use sia_edge::{SigCheck, Signer};
pub use sia_types::SigFault;
pub use signed::sig_hash;
