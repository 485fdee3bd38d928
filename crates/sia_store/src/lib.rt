//! The act of a host over its two disks: sectors go into slots of a shelf, and then a record that names them goes into a journal.
//!
//! A crash leaves an image of each disk, in the model of POSIX's writes and syncs, and the two clocks aren't compared. So clauses
//! speak of pairs: what the journal left before the act with whatever the shelf may have left since, and whatever the journal may
//! have left since with what the shelf leaves at the act's end. What a record says is left to those above: clauses are told which slots
//! the records name.
//!
//! ```
//! keep(&mut journal, &mut shelf, puts.as_slice(), &framed)?;
//! free_all(&mut shelf, dropped.as_slice());
//! // the journal has one record more, and each slot that it names holds its sector in whatever a crash leaves
//! ```
//!
//! # Promises
//!
//! What is said of pairs, images and bytes is said where both disks tell them. Before the act the disks stood for some records, the slots
//! that these name were live, and with the new record they name no slot but those and the ones that are put.
//!
//! - [`keep`] leaves pairs, also where it answers an error, each of which opens as the records before or as those and the new one: each
//!   slot that the opened records name holds what lies in it. After an act that is done both disks stand for the new list, and the
//!   slots that were put are live. The fault names the disk whose count of faults rose.
//! - [`put_all`] that is done has each sector in its slot in every image, and makes these slots live. Done or not, what other slots held
//!   stays in every image. [`free_all`] makes live slots free, and touches nothing else.
//! - [`keep`], [`put_all`] and [`free_all`] never answer want of memory. [`StoreFault`] names the disk that failed.
//!
//! # Stands on
//!
//! `sia_journal` and `sia_shelf` for the disks, `sia_edge` for their model of a crash, `sia_commands` for a sector that is to be put,
//! `sia_encoding` for the bytes of both.
#![tactic(auto)]

mod fault;
mod keeping;
mod putting;

pub use fault::StoreFault;
pub use keeping::keep;
pub use putting::{free_all, put_all};
