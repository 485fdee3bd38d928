//! A reply that is to have the bytes of a sector.
ghost use Rattle.std.specs.Prelude.{◌≡◌};
ghost use Rattle.sia_commands.specs.Filling.{FitsNext, FitsReply, filled_next as filled_next_so, filled_reply};

use crate::out_job::OutJob;
use crate::reply::Reply;
use sia_types::Blob;

/// A reply with the bytes of the slot that its step has in `fetch`. It takes no memory.
pub fn fill_reply(reply: Reply, sector: Vec<u8>) -> Reply
    requires { FitsReply reply sector.items }
    ensures { result ≡ filled_reply reply sector.items }
{
    match reply {
        Reply::Next(job) => Reply::Next(filled_next(job, Blob::from_vec(sector))),
        Reply::Sector(_) => Reply::Sector(Blob::from_vec(sector)),
        Reply::Entered { session, challenge } => Reply::Entered { session, challenge },
        Reply::Applied => Reply::Applied,
        Reply::Refused(fault) => Reply::Refused(fault),
        Reply::NoBlock => Reply::NoBlock,
        Reply::Said(answer) => Reply::Said(answer),
        Reply::Error { code } => Reply::Error { code },
    }
}

// A job that may be there, with the bytes of the sector that it lacks.
fn filled_next(job: Option<OutJob>, sector: Blob) -> Option<OutJob>
    requires { FitsNext job sector }
    ensures { result ≡ filled_next_so job sector }
{
    match job {
        None => None,
        Some(job) => Some(job.filled(sector)),
    }
}
