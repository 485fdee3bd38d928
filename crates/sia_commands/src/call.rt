//! Who gives a command.
use crate::event::Kind;

/// Who gives a command, and of which kind it is.
#[derive(Clone, Copy, Debug, PartialEq, Eq)]
pub struct Call {
    /// The worker that gives it.
    pub worker: u64,
    /// The session; 0 where no session asks.
    pub session: u64,
    /// The kind.
    pub kind: Kind,
}
