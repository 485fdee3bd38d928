//! The shelf: sectors on a disk, each in a slot of its own.
//!
//! As in siad's storage folders, sectors of one size stand side by side in a file. There is no header: which slots are live is
//! what a journal's records name. Clauses see the disk, the size of a sector, and a mark for each slot: free, put since the last
//! sync, or live.
//!
//! ```
//! let slots = shelf.find(alloc, 1)?;
//! shelf.put(slots.as_slice()[0], &sector)?;
//! shelf.sync()?;
//! ```
//!
//! # Promises
//!
//! - A live slot keeps its bytes in every image that a crash may leave, whatever [`Shelf::put`] and [`Shelf::sync`] do and answer,
//!   until [`Shelf::free`].
//! - After a [`Shelf::sync`] that is done each slot that was put since the last one is live, and a crash leaves its bytes.
//! - [`Shelf::put`] writes into the first free slot alone, and never makes the disk longer than that slot's end. One that failed
//!   leaves the marks as they were. What other slots hold stays, in every image.
//! - [`Shelf::find`] gives the first free slots in order, and `Full` exactly where fewer are free than are asked for;
//!   [`Shelf::free_count`] says how many are. The first free slot may be put, and then the free ones are the others
//!   ([`laws::first_free_may_be_put`]).
//! - [`Shelf::read`] and [`Shelf::read_onto`] give a slot's bytes. `Short` comes exactly where the disk ends before the slot does,
//!   so of free slots alone. The second takes no memory where there is room.
//! - [`Shelf::mark`] makes a slot live whose bytes are on the disk, and answers false exactly where there is no such slot or it
//!   is live.
//! - [`Shelf::put`], [`Shelf::sync`] and [`Shelf::free`] take no memory: [`Shelf::new`] makes the room for all marks. `Disk` comes
//!   only where a call of the disk failed.
//!
//! # Stands on
//!
//! `sia_edge` for the disk and its model of a crash, `sia_encoding` for `Blob` and `List`.
#![tactic(auto)]

mod fault;
pub mod laws;
mod mark;
mod marks;
mod shelf;
mod slot;

pub use fault::ShelfFault;
pub use mark::Mark;
pub use shelf::Shelf;
