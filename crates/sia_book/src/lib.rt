//! A host on its disks: the records of its journal make the host, and the slots that they name are live on its shelf.
//!
//! siad's modules/host/contractmanager keeps sectors in storage folders, beside a log that it replays when it starts. Here one journal has
//! all that the host knows, and its form is this project's own. A book that is open tells what its host knows; it answers no command
//! yet.
//!
//! ```
//! let book = Book::open(alloc, config, key, seed, disks, &check)?; // or why not, with the disks
//! let told = (book.records(), book.tip(), book.sums());
//! let disks = book.close();
//! ```
//!
//! # Promises
//!
//! Nobody else writes the disks. What is said of records and of images is said where the disks tell their bytes.
//!
//! - [`Book::open`] that is done holds the records that the journal's file listed, in every image that a crash may leave. The host is what
//!   these make of one that begins with the configuration, the key and the seed: each is spelled whole and without a rest, and follows
//!   on those before it. It has no events. Each slot that they name is whole on the shelf and live, and all others are free. The shelf's
//!   bytes are those from before, and nothing of them is pending.
//! - One that is refused says why: [`OpenFault::Damaged`] of the journal has the place where its file is damaged, or else that of the
//!   gate of the first payload that is no record or doesn't follow; that of the shelf has the first byte, as far as a number of
//!   64 bits goes, of the least slot that the records name and the shelf doesn't hold whole. [`OpenFault::Disk`] comes only where the
//!   count of faults of the journal's disk or of the shelf's rose. The disks are handed back.
//! - A crash while [`Book::open`] runs, done or refused, leaves a journal as an append leaves it that was cut short: where each image before
//!   was one of such an append to some records, each image since is one, and lists those or those and the payload. Where each had at
//!   most 17 bytes, each since has. The renter's disk isn't touched.
//! - [`Book::events`], [`Book::sums`], [`Book::tip`] and [`Book::records`] are those of the host; [`Book::close`] gives the disks back.
//!
//! # Stands on
//!
//! sia_journal and sia_shelf for the disks, sia_edge for their model of a crash and for the check of signatures, sia_host for the host that
//! records make, sia_kept for what it knows, sia_records for records, sia_commands for events, sia_ledger for the chain, sia_config for
//! the configuration, sia_forms for the host's address, sia_blake, sia_types and sia_encoding for what these hold, `thiserror` for texts.
#![tactic(auto)]

mod book;
mod fault;
mod opening;
mod replaying;
mod slots;

pub use book::Book;
pub use fault::OpenFault;
