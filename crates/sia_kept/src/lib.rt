//! What a host keeps: its contracts, their sectors, the events of its run and the sessions that are live by them.
//!
//! What a host knows is the fold of the records of its journal, and which sessions are live is the fold of the events of its run. Here
//! both folds are said, and what they make of contracts and sessions is done, one record or event at a time (RHP2; siad's modules/host).
//! Nothing is judged here.
//!
//! ```
//! revise_kept(alloc, &mut contracts, signed)?;
//! log.note(event);
//! ```
//!
//! # Promises
//!
//! - [`Log::note`] and [`Log::note_leave`] put an event behind the last one, and the live sessions are then those that all events say;
//!   [`Log::reserve`] makes room for one event, and the leave of a live session always has room.
//! - [`KeptContract::formed`] is the contract that a transaction forms, and [`revise_kept`] makes a signed revision the newest one of its
//!   contract and changes its sectors; [`renew_kept`] clears the contract that a transaction renews, and its sectors pass to the new
//!   one; after want of memory all is as before.
//! - [`Sectors::change`] does changes that are fit, in order, and keeps the tree over the sectors' roots; [`reroot`] is the root over the
//!   roots after steps, with the proof of the diff.
//! - [`Typed::know`] says of a revision that its parts are of their types, so that one that is spelled as another is the same.
//! - [`sign_inputs`] and [`sign_for`] are signatures of a whole transaction that the signer may make.
//!
//! # Stands on
//!
//! sia_commands for events, sia_records for changes of sectors, sia_ledger for the chain that records make, sia_roottree, sia_diff and
//! sia_merkle for the roots of sectors, sia_forms, sia_ids, sia_blake and sia_sign for parties, identifiers, challenges and what is signed,
//! sia_edge for the signer, sia_types and sia_encoding for what all of these say.
#![tactic(auto)]

mod diffing;
mod kept;
mod log;
mod renewing;
mod revising;
mod sectors;
mod session;
mod signing;
mod typed;

pub use diffing::{Rerooted, reroot, root_uncounted};
pub use kept::{KeptContract, find_contract, push_kept};
pub use log::Log;
pub use renewing::renew_kept;
pub use revising::{SignedRevision, revise_kept};
pub use sectors::{Sector, Sectors};
pub use session::{Effect, Session};
pub use signing::{sign_for, sign_inputs, whole_hash, whole_signature};
pub use typed::Typed;
