//! The journal: a list of records in one file, to which records are appended, and which a crash at any moment leaves as the
//! list before or as that list with the new record.
//!
//! The form of the file is this product's own (specs/Listed.antt): what it lists is a definition on its bytes alone. What a
//! crash may leave is the model of `sia_edge`, which is that of POSIX's pwrite, ftruncate and fsync.
//!
//! ```
//! let mut journal = Journal::open(alloc, disk, b"sia journal v1\0\0", limit)?;
//! journal.append(&RecordBuf::new(alloc, payload)?)?;
//! while journal.read_next(alloc, &mut place, &mut out)? { .. } // from FIRST_PLACE on
//! ```
//!
//! # Promises
//!
//! The disk is no one else's. What is said of payloads, images and `Damaged` is said where the disk tells its bytes.
//!
//! - [`Journal::append`] that is done leaves the new list in every image that a crash may leave. After a fault of the disk every
//!   image since lists the old list or the new one, and so does what a read gives ([`laws::mid_append_lists`],
//!   [`laws::after_append_lists`]). It takes no memory. `Full` comes exactly where the file would pass the limit, told or not,
//!   and changes nothing; one that is done says how long the file is then, told or not.
//! - [`Journal::open`] that is done holds the records that the file listed, in every image. A crash during it leaves the list that
//!   it answers, or the one that differs by the last record, whose append had failed before; where every image had at most 17
//!   bytes, every image since has. `Memory` and `Damaged` leave the disk as it was. A damaged file is never changed and never
//!   opened: it is told as damaged, at its place, wherever memory suffices and no call fails.
//! - [`Journal::read_next`] and [`Journal::read_next_onto`] give the payloads in order, from [`FIRST_PLACE`] on, and answer false
//!   exactly at the end. At the end, and after an error, the place and what is read into are as before. The second takes no
//!   memory where there is room.
//! - [`JournalFault::Disk`] comes only where a call of the disk failed, and `Memory` never of an append.
//!
//! # Stands on
//!
//! `sia_edge` for the disk and its model of a crash, `sia_encoding` for `Blob` and the spelling of a payload.
#![tactic(auto)]

mod durable;
mod fault;
mod journal;
pub mod laws;
mod opening;
mod piece;
mod record;
mod scan;

pub use fault::JournalFault;
pub use journal::{FIRST_PLACE, Journal};
pub use record::RecordBuf;
