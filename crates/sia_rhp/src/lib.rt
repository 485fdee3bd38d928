//! The messages of the renter-host protocol, and the frames that carry them.
//!
//! The requests, their answers and the framing are those of RHP2, whose loop of requests siad has in modules/negotiate.go. A frame
//! is a length and a body; a request is a label of 16 bytes and what it holds; an answer is byte 0 and what it holds, or byte 1
//! and the code of an error. What they hold is spelled as siad's doc/Encoding.md says. The encryption of the transport isn't here.
//!
//! ```
//! send(&mut link, out.as_slice())?; // out: Request::Unlock.encode(&mut out)?
//! let body = FrameReader::new(limit).next(alloc, &mut link)?;
//! let answer = Answer::decode(alloc, body.as_slice(), limit, &Label::Unlock.text())?;
//! ```
//!
//! # Promises
//!
//! - [`FrameReader::next`] gives the bodies of a link's frames in order, however its reads cut them, and takes no byte behind the
//!   body that it gives. It tells exactly whether a length is above the limit, the link ended inside a frame, or
//!   [`LINK_BYTES`] bytes hold no further body; after a fault each further call answers it again and reads nothing.
//! - [`send`] writes the frame of a body, or where the link fails a front part of it. It takes no memory.
//! - [`laws::frames_follow`], [`laws::frames_are_read`]: the frames of bytes are the one in front and those behind it, and what is
//!   sent is read.
//! - [`Request::decode`] and [`Answer::decode`] answer a message exactly where all the bytes spell it, and else the first thing that
//!   is wrong, with its offset; an unknown label is told apart. [`Request::encode`] and [`Answer::encode`] append exactly the
//!   spelling, or leave what was there.
//! - [`laws::of_request`], [`laws::of_answer`]: each message has one spelling and is read back from it, whatever follows, and no
//!   spelling is a proper prefix of another. [`laws::answers_have_one_spelling`]: that of an answer is the same for every request.
//! - [`Label::of`] and [`Label::text`] are each other's way back.
//!
//! # Stands on
//!
//! sia_edge for links, sia_encoding for items, and sia_types for the records that messages hold.
#![tactic(auto)]

mod action;
mod answer;
mod answer_bodies;
mod frames;
mod label;
pub mod laws;
mod message_fault;
mod request;
mod request_bodies;

pub use action::Action;
pub use answer::Answer;
pub use answer_bodies::{LockAnswer, Part, ReadAnswer, RootsAnswer, WriteAnswer};
pub use frames::{FrameFault, FrameReader, LINK_BYTES, send};
pub use label::Label;
pub use message_fault::MessageFault;
pub use request::Request;
pub use request_bodies::{FormRequest, LockRequest, PaidRoots, ReadRequest, Section, WriteRequest};
