//! The commands of `sia-v1`, from the bytes that come in to the bytes that go out.
//!
//! The words, texts and statuses are this product's own; the rules behind them are those of the Sia
//! whitepaper and of siad's documentation (doc/Consensus.md, doc/Encoding.md), each named where it is defined. A command is a
//! module of `commands`, with its definitions in a file of `specs/Commands`: its form, its files, its text and what it gives for
//! the bytes that it reads.
//!
//! ```
//! let mut config = FileSource::empty();
//! let mut input = FileSource::open(&rt, "sector".as_bytes());
//! let status = run_plain(alloc, words.as_slice(), &mut config, &mut input, &Seal, &mut out, &mut err);
//! ```
//!
//! # Promises
//!
//! - The words have one form or none ([`read_form`]), and one table says which of a form's words name files
//!   ([`Form::files`]).
//! - [`run_plain`] ends with status 1 exactly where the words have no form. Else there is one definition for each form
//!   (specs/Outcome.antt) of what its bytes give, a text or why there is none, and the status is that of this outcome unless a
//!   call of the outside failed or memory ran out. Standard output took exactly the text, or nothing, or a front part after a
//!   failed call; standard error took exactly the status's line, or a front part where its own write failed
//!   (specs/Answer.antt).
//! - Status 0 of [`run_plain`] means that each file that the words name was read to its end. Status 3 has its cause in a fault
//!   of such a file or of standard output, and comes from no other. A source that the words don't name isn't touched.
//! - The texts are exact: the sums of a chain ([`sums_text`]), the root of a file with its leaves and bytes ([`root_text`]), the
//!   hashes that prove a range of its leaves ([`prove_text`]), the fields of a transaction or a block
//!   ([`transaction_lines`], [`block_lines`]), and the line of each refusal ([`refused_line`]).
//! - The whole configuration is judged before the feed is read ([`run_plain`]); an accepted one begins a chain that nothing
//!   but want of memory refuses. A feed's records are read and done in turn, and the first that can't be read or is refused
//!   decides ([`take_record`]).
//! - A refusal of a block holds a rule, and never want of memory ([`BrokenRule`]).
//!
//! # Stands on
//!
//! `sia_encoding` for the feed's bytes and for how answers are spoken of, `sia_edge` for sources and sinks, `sia_blake` for
//! hashes, `sia_merkle` for the root of a file, `sia_range` for the proof of a range, `sia_types` for records, `sia_ledger` for the
//! chain, with `sia_ids` and `sia_rules`, whose definitions the chain's name, `sia_config` for the configuration, and the kit's
//! `hex` for printed hashes.
#![tactic(auto)]

mod commands;
mod entries;
mod faults;
mod feed;
mod fields;
mod form;
mod input;
mod lines;
mod places;
mod plain;
mod rule;
mod stop;
mod telling;
mod words;

pub use commands::ledger::sums_text;
pub use commands::prove::prove_text;
pub use commands::root::root_text;
pub use feed::{FeedRecord, take_record};
pub use fields::{block_lines, transaction_lines};
pub use form::{FilePlaces, Form, read_form};
pub use plain::run_plain;
pub use rule::BrokenRule;
pub use stop::{Fault, Refusal, Stop};
pub use telling::refused_line;
