//! The records of a host's journal, and writes and reads that are prepared before they come to a host's turn.
//!
//! A host keeps what happened to its chain and its contracts as a list of records: a byte for the kind and the fields of that kind,
//! spelled as siad's doc/Encoding.md says; the kinds are this project's own. A write appends, trims, swaps or updates sectors, and a
//! read asks for parts of sectors (RHP2; siad's modules/negotiate.go). What takes time, the roots and proofs of whole sectors, is done
//! here, over a sector for each update and each section; what the contract holds is looked at later, by the host.
//!
//! ```
//! let write = prepare_write(alloc, request, fetched)?; // fetched: one sector for each update
//! let fit = write.fits(sector) && touched(alloc, count, write.steps())?.is_some();
//! let changes = changes_of(alloc, write.steps(), slots)?;
//! ```
//!
//! # Promises
//!
//! - [`HostRecord`] and [`Change`] are items: reading and spelling are exactly their codec's, with the first fault and its offset, and
//!   its law holds.
//! - [`range_fits`], [`actions_fit`] and [`sections_fit`] say exactly what a range, the actions of a write and the sections of a read
//!   must keep by their numbers alone.
//! - [`prepare_write`] keeps a write and the sectors of its updates: contracts see a [`PreparedWrite`] as these two.
//!   [`PreparedWrite::fits`] says exactly whether it is fit by its numbers. Then [`PreparedWrite::steps`] are the steps for the list of
//!   the sectors' roots, each new root that of its sector, [`PreparedWrite::into_sectors`] the new sectors and
//!   [`PreparedWrite::into_updates`] the proofs of the updates, each of its own sector. [`PreparedWrite::sectors`] counts the new sectors,
//!   [`PreparedWrite::request`] is what was asked, and [`PreparedWrite::copy`] an equal write.
//! - [`prepare_read`] keeps a read and the sectors of its sections: contracts see a [`PaidRead`] as these two. [`PaidRead::fits`] says
//!   exactly whether it is fit by its numbers; then [`PaidRead::into_parts`] are the parts that are asked for, each with the range proof
//!   within its own sector. [`PaidRead::request`] is what was asked.
//! - [`changes_of`] are the changes that steps are, where each new sector lies in the next of some slots, and [`Change::step`] and
//!   [`steps_by`] the steps that changes are. [`laws::steps_come_back`]: these are each other's way back. [`laws::roots_follow`]: changes
//!   do to the roots of a contract's sectors what their steps do.
//! - [`laws::asked_writes_are_prepared`], [`laws::asked_reads_are_served`]: where a whole sector was fetched for each update whose range is
//!   fit, or for each section, nothing but the numbers of the request decides whether it is fit.
//!
//! # Stands on
//!
//! sia_types and sia_rhp for records and messages, sia_diff for steps, sia_range for proofs within a sector, sia_merkle and sia_blake for
//! roots, sia_encoding for items and the limits.
#![tactic(auto)]

mod change;
mod fetched;
mod fitting;
mod host_record;
mod kind;
pub mod laws;
mod making;
mod part;
mod read;
mod stored;
mod update;
mod write;

pub use change::Change;
pub use fitting::{actions_fit, range_fits, sections_fit};
pub use host_record::HostRecord;
pub use read::{PaidRead, prepare_read};
pub use stored::{changes_of, steps_by};
pub use write::{PreparedWrite, prepare_write};
