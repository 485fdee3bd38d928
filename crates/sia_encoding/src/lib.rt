//! The encoding of Sia's records, item by item, and the values that it is made of.
//!
//! Sia spells an integer as 8 bytes little-endian, a bool as one byte, a byte string as its length and its bytes, a
//! list as its count and its elements, a fixed array as its bytes, a currency as a byte string of its big-endian digits
//! without a leading zero, and a record as its fields in order (siad's doc/Encoding.md). A value that may be missing is a
//! bool, and then the value. Each value has one spelling.
//!
//! ```
//! use sia_encoding::{Blob, Item};
//! 258u64.encode(&mut out)?; // out: 2, 1, 0, 0, 0, 0, 0, 0 behind what was there
//! let (number, taken) = u64::decode(alloc, out.as_slice(), 100)?; // 258, and 8 bytes
//! ```
//!
//! # Promises
//!
//! "Within a limit" is said of a value no length and no count of whose spelling is above the greatest that the caller of a
//! reading gives.
//!
//! - [`List`] and [`Blob`] are the lists and byte strings of the records; contracts see plain lists. After want of memory
//!   they are as before.
//! - [`Cursor`] reads: each take gives the value and goes on behind it, or tells the first fault from the left, with its
//!   offset, and stays. It takes no memory.
//! - [`put_u64`], [`put_bool`], [`put_fixed`], [`put_bytes`] and [`put_currency`] append exactly the spelling, or leave what
//!   was there for want of memory.
//! - [`Item`] is what a value owes that lists and records are made of: one codec, which says how it is spelled and read and
//!   what is within a limit. Taking and decoding read exactly so and encoding appends exactly the spelling; where they answer
//!   an error, the cursor and the bytes are as before.
//! - [`laws::of`]: of every item, what is read is spelled so, what is spelled and within the limit is read whatever follows,
//!   and no spelling is a proper prefix of another. [`laws::of_count`]: the same of lengths and counts.
//! - [`Spelled::write_each`] spells fields one behind the other; the macro behind makes one of a record's fields.
//! - [`DecodeFault`] names the first thing that is wrong; a tag or number that stands for no kind is told at its offset.
//! - [`limits::BLOCK_BYTES`], [`limits::CONTRACT_SECTORS`], [`limits::TOUCHED_PLACES`] and [`limits::ACTIONS`] are limits that
//!   several crates share.
//! - [`Steps`] counts steps and takes no bytes.
//!
//! # Stands on
//!
//! std alone.
#![tactic(auto)]

mod behind;
mod blob;
mod cursor;
mod fault;
mod item;
mod items;
pub mod laws;
pub mod limits;
mod list;
mod list_item;
mod put;
mod steps;

pub use behind::Spelled;
pub use blob::Blob;
pub use cursor::Cursor;
pub use fault::DecodeFault;
pub use item::Item;
pub use list::List;
pub use put::{put_bool, put_bytes, put_currency, put_fixed, put_u64};
pub use steps::Steps;
