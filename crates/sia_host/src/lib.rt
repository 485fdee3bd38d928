//! The host's core: what a host answers to each command, and what it keeps.
//!
//! A host holds contracts with renters, and a session that has a contract's lock may work with it (RHP2; siad's modules/host and
//! modules/negotiate.go). A command is answered by one reply, one event and at most one record of the journal; what the host knows
//! is the fold of its records. Events, records, codes and the challenge are this project's own.
//!
//! ```
//! let mut core = Core::new(alloc, config, seed)?;
//! let step = core.step(alloc, worker, session, Command::Lock(request), &room, &check, &signer)?;
//! let told = core.events();
//! ```
//!
//! # Promises
//!
//! - [`Core::new`] begins without a block, a contract and a session, or answers exactly the fault of the chain's genesis.
//! - [`Core::step`] gives exactly the reply, the event and at most the one record that the definitions say of what the host knows,
//!   of its events and of the journal's room, and the host is then what these make of it. A lock is acquired only where no session
//!   holds the contract; a leave frees what its session held, and always has memory. For a formation the host adds coins of its own
//!   that no other contract's formation spends, and its signatures are ones that the signer may make of the whole transaction.
//!   Roots of sectors, and parts of sectors, are told with their range proofs for a revision that pays and has the renter's signature: the
//!   host signs it, and it is the contract's newest one with both signatures. A write changes the contract's sectors by such a revision,
//!   each new sector in the next of the least free slots; what it drops is named. A renewal that both sign clears the contract that the
//!   session holds, and its sectors pass to the contract that begins; the session keeps holding the old one. The newest revision of
//!   each contract has the size of its sectors and the root over their roots. After want of memory all is as before.
//! - For the next stale contract its newest revision is handed out by [`Core::step`], or the renewal that this stands in; for the next due
//!   one a job that lacks the bytes of a sector. Each due contract has one ([`laws::due_jobs_are_made`]).
//! - [`Core::replay`] answers true exactly where a payload of the journal is a record, spelled whole and without a rest, that follows on
//!   what the host knows: some command would make it, whatever the settings and the room of its day. Then the host knows it; else all is
//!   as before. What a command makes a record of replays ([`laws::records_replay`]).
//! - Between the event by which a session acquires a contract's lock and the one by which it gives it back or leaves, every record but a
//!   block or a revert that names the contract is made by an event of that session, and another session's request for the lock that isn't
//!   refused is told the holder's number ([`laws::locks_keep_others_out`]).
//! - [`Core::spoil`] takes a step back that met a disk's fault, without memory: the event of the fault stands in the place of the step's own.
//! - [`Core::rows`] has a row for each contract, by ascending identifiers.
//! - [`Core::events`], [`Core::sums`], [`Core::tip`] and [`Core::records`] are those of the present host; once a step was taken back, the
//!   last three are those before that step.
//!
//! # Stands on
//!
//! sia_commands for commands, replies and events, sia_kept for contracts, sectors and sessions, sia_ledger for the chain, sia_records and
//! sia_journal for records and their frames, sia_rhp for requests and answers, sia_forms for formations, renewals and the parties'
//! conditions, sia_ids, sia_blake and sia_edge for identifiers and signatures, sia_roottree, sia_diff and sia_range for the roots of a
//! contract's sectors and proofs over them, sia_prover and sia_merkle for storage proofs, sia_price for what is paid, sia_types,
//! sia_rules and sia_encoding for what all of these say.
#![tactic(auto)]

mod config;
mod entering;
mod feeding;
mod fetching;
mod forming;
mod forming_again;
mod freeing;
mod host_core;
pub mod laws;
mod least_slots;
mod locking;
mod outbox;
mod paying;
mod phase;
mod proposals;
mod reading;
mod refusal;
mod renewing;
mod renewing_again;
mod replaying;
mod report;
mod revising;
mod revising_again;
mod same_revision;
mod sections;
mod stepping;
mod waiting;
mod write_signing;
mod writing;

pub use config::{CoreConfig, CoreFault};
pub use host_core::Core;
pub use phase::{Past, Phase};
pub use report::ReportRow;
pub use sia_commands::{
    AskedProof, Call, Command, Event, Kind, OutJob, Outcome, PutJob, Reply, Room, Step, Want,
    codes, fill_reply, finish_job,
};
