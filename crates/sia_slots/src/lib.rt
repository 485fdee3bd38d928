//! Laws of the slots of a shelf in which the sectors of a host lie.
//!
//! A host keeps each sector in a slot of a shelf, and a sector that is put takes the least free slot. What the host's commands and its
//! records do to these slots is said here of a host and of a shelf's marks alone, before any disk. Slots and the shelf are this
//! project's own; siad's storage folders have such places for sectors.
//!
//! ```
//! laws::answers_work::<C, G>();
//! laws::rooms_have_least();
//! laws::once_stays();
//! ```
//!
//! # Promises
//!
//! - What an answer leaves to be done with the shelf fits what the host knows: sectors are put into the first free slots, slots pass from
//!   sector to sector, each sector that the host then has was there or is put, and a slot that is fetched is live
//!   ([`laws::answers_work`]).
//! - The first free slots of any shelf are the least free ones of the host ([`laws::rooms_have_least`]).
//! - No slot is live twice where none was: not after slots that pass ([`laws::once_stays`]), nor after a record that replays
//!   ([`laws::replays_keep_once`]). What is freed isn't live any more. That no slot stands in a list twice is said by counting, and by
//!   places ([`laws::once_is_apart`]).
//! - A shelf whose marks say which slots are live has the free slots that the host counts ([`laws::marks_are_free`]).
//!
//! # Stands on
//!
//! sia_host for answers and records that replay, sia_kept for contracts and their sectors, sia_records for changes, sia_commands for
//! what is left to be done, sia_shelf for marks, sia_diff, sia_rhp and sia_merkle for steps, actions and roots, sia_edge for signatures,
//! sia_ledger for which contracts are due, sia_ids and sia_prover for the leaf that is asked for, sia_forms, sia_price and sia_rules for
//! what is formed, renewed, paid and refused, sia_types, sia_cover and sia_encoding for what these hold.
#![tactic(auto)]

pub mod laws;
