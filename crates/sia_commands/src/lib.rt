//! What a host is asked for, what it replies, and what it notes of it.
//!
//! Sessions of renters and the feed of blocks give a host commands (RHP2; siad's modules/host). Each is answered by a reply, and noted
//! as an event. What a reply still lacks lies on the host's disks or is to be computed: the bytes of a sector are filled in, and a
//! transaction with a storage proof is finished, by whoever has the time. Events and codes are this project's own.
//!
//! ```
//! let reply = fill_reply(step.reply, sector);
//! let tx = finish_job(alloc, job)?;
//! ```
//!
//! # Promises
//!
//! - [`fill_reply`] is the reply with the bytes of the sector for which its step names a slot, and takes no memory.
//! - [`finish_job`] is exactly the transaction that a job stands for: the one that was handed in, or the one with the storage proof that is
//!   asked for, made from the bytes of the sector.
//!
//! # Stands on
//!
//! sia_rhp, sia_records and sia_journal for requests, answers and prepared writes and for framed records, sia_rules for the faults of
//! blocks, sia_prover, sia_ids, sia_merkle and sia_blake for storage proofs, sia_types and sia_encoding for what all of these say.
#![tactic(auto)]

mod call;
pub mod codes;
mod command;
mod event;
mod filling;
mod out_job;
mod reply;
mod step;
mod stop;
mod want;

pub use call::Call;
pub use command::Command;
pub use event::{Event, Kind, Outcome};
pub use filling::fill_reply;
pub use out_job::{AskedProof, OutJob, finish_job};
pub use reply::Reply;
pub use step::{PutJob, Room, Step};
pub use stop::Stop;
pub use want::Want;
