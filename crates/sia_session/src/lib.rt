//! The session of one link of a host: its frames become commands, and the replies go back (RHP2; siad's modules/host and
//! modules/negotiate.go).
//!
//! A session begins with the frame of a challenge and takes request after request until the link ends or the other side takes its leave.
//! It knows whether it holds a contract, and keeps a proposal until its signatures come; all else is asked of a desk, which acts the
//! commands of all sessions one by one. What a session asks and sends is a script: steps that depend on the link's bytes and on the
//! replies alone.
//!
//! ```
//! let ended = serve_link(alloc, rt, &mut desk, &mut link, sector);
//! // or, without a link: let (mut session, challenge) = Session::begin(alloc, rt, &mut desk, sector)?;
//! // session.take(alloc, rt, &mut desk, body)?; session.end(rt, &mut desk);
//! ```
//!
//! # Promises
//!
//! - [`Desk`] is where commands are acted: it tells the acts of which an event is noted, a stop has its cause, a reply is of its command's
//!   kind, and the leave of a live session is done.
//! - [`serve_link`] acts Enter and sends its challenge. Then the commands that it acts for the bytes that it reads, and the bytes that it
//!   sends, are exactly those of the script, given the desk's replies: an answer is sent only after its act returned. Once Enter was
//!   answered, Leave is acted before it returns, and done. Where the link failed or a stop came, what was acted and sent is a front part of
//!   the script's; each other [`Ended`] is the one that the bytes read say, and at End none is left unread. Link and Stop have their causes.
//! - [`Session::begin`] acts Enter, and its challenge is the reply's. [`Session::take`] does for one body exactly what the script says:
//!   its commands, what is to be sent, and the state then. [`Session::end`] acts Leave, which is done where the session is live.
//! - [`fetch_all`] asks for sectors one by one, up to the first refusal. [`sectors_read`] and [`sectors_changed`] are exactly the sectors
//!   that a read and a write need.
//! - [`Ended`], [`State`], [`Proposal`], [`Kept`], [`Taken`], [`Done`] and [`Fetched`] are how a session ends, what it knows, and what one
//!   body leads to.
//! - [`laws::runs_go_on`] and [`laws::parts_are_left`]: acts that follow a script one behind the other. [`laws::bodies_follow`]: a body
//!   that was read decides what a session does first, whatever comes behind it. [`laws::talks_stay_live`]: no session leaves before the
//!   end of its talk.
//!
//! # Stands on
//!
//! sia_commands for commands, replies and stops, sia_records for writes and reads that are prepared, sia_rhp for frames, requests and
//! answers, sia_edge for links, sia_types and sia_encoding for what these hold.
#![tactic(auto)]

mod asking;
mod desk;
mod fetching;
mod heard;
pub mod laws;
mod reading;
mod requests;
mod serve;
mod session;
mod signing;
mod state;
mod writing;

pub use desk::Desk;
pub use fetching::{Fetched, fetch_all, sectors_changed, sectors_read};
pub use serve::{Ended, serve_link};
pub use session::Session;
pub use state::{Done, Kept, Proposal, State, Taken};
