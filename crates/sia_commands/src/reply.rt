//! What a host replies.
use crate::out_job::OutJob;
use sia_rhp::Answer;
use sia_rules::BlockFault;
use sia_types::Blob;

/// What a host replies to a command.
#[derive(Drop)]
pub enum Reply {
    /// A session began.
    Entered {
        /// Its number.
        session: u64,
        /// What its first request for a lock signs.
        challenge: [u8; 16],
    },
    /// It was done.
    Applied,
    /// The block breaks this rule.
    Refused(BlockFault),
    /// There is no block to be reverted.
    NoBlock,
    /// The bytes of a sector: none, until the step's slot is read into them.
    Sector(Blob),
    /// The job of the next contract for which something is to be mined, if there is one.
    Next(Option<OutJob>),
    /// The answer to a session's request, which is no error.
    Said(Answer),
    /// The command was refused.
    Error {
        /// Its code.
        code: u64,
    },
}
