//! Threads take turns with one value, and each entry that a thread adds to the value's list keeps its place.
//!
//! The value stands for a list of entries, which only grows (`Logged`). It lies in a `Turn`, and each thread has a
//! `Pass`: a token that has seen a beginning of the list and has entries of its own, each with its position. `enter`
//! waits for the pass's turn and gives the value, `leave` gives it back with more entries. The lock is a ticket lock
//! (Mellor-Crummey and Scott, "Algorithms for scalable synchronization on shared-memory multiprocessors", 1991).
//!
//! ```
//! let mut passes = turn.split_all(alloc, &mut first, workers)?;
//! let book = turn.enter(rt, &mut passes[0]);
//! turn.leave::<Nothing>(&mut passes[0], book);
//! ```
//!
//! # Promises
//!
//! - The value that [`Turn::enter`] gives stands for a list which begins with all that the pass had seen, and has each of
//!   the pass's own entries at its position. So between two turns nothing is lost, moved or put in between.
//! - The entries that [`Turn::leave`] adds stand at the end of the list, and are the pass's own.
//! - [`Turn::split`] and [`Turn::split_all`] give passes that have seen as much and own nothing. No more than 66 exist at a
//!   time.
//! - Where passes meet, in [`Turn::join`] and [`Turn::gather`], no position belongs to two of them.
//! - After all others were taken in, the value that [`Turn::close`] gives stands for a list in which the last pass owns
//!   every position, each once: the entries are those of the passes, and no others.
//!
//! No contract says that a turn comes, nor in which order turns are taken.
//!
//! # Stands on
//!
//! The kit's `atomic_table`, for words and slots that threads share by a rule.
//!
//! # How a client names its entries
//!
//! A client's type implements `Logged`: it says for which lists a value stands. All that must be known of a value from
//! one turn to the next has to follow from that, since between `leave` and the next `enter` nothing else is known. A
//! value stands for lists shorter than 2^64 alone; where a list of any length fits the fields, the bound is part of
//! what `stands` says.
//!
//! Entries are added by a type parameter, since they exist in proofs alone. `Nothing` adds none. To add what is known
//! only when the program runs, a client writes what the numbers of sia_host_tests show:
//!
//! - a trait with one ghost member, the list to add, and its `impl` for `Brand`,
//! - a type over that trait, with `Named` for it,
//! - one function over that trait which calls `leave`, and whose conditions say what the member is of its arguments.
//!
//! Its caller passes `Brand`, and says in its `Invariants.antt` which list it is (`ghosts-leave_with`). The list can be
//! made of that call's arguments only, so each thing that an entry tells is one of them.
//!
//! # How it works
//!
//! One word counts the tickets that were drawn, one those that were served, and the one slot has the value. The words
//! count modulo 2^64, and at most 66 tickets are out, so no two that are out look the same. A thread that waits is
//! parked, and woken when the next ticket is served. `specs/Turning.antt` has the rule that each step keeps, and `steps`
//! the kinds of step.
#![tactic(auto)]

mod logged;
mod steps;
mod turn;
mod view;

pub use logged::{Logged, Named, Nothing};
pub use turn::{Pass, Turn};
