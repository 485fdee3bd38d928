//! What a host notes of each command that it answers.
use sia_blake::Hash;

/// The command that an event is of, or the fault of a disk.
#[derive(Clone, Copy, Debug, PartialEq, Eq)]
pub enum Kind {
    /// A session began.
    Enter,
    /// A session asked for the settings.
    Settings,
    /// A session proposed to form a contract.
    Form,
    /// It signed the formation.
    FormSign,
    /// A session asked for a lock.
    Lock,
    /// It gave the lock back.
    Unlock,
    /// A session asked for a sector.
    Fetch,
    /// It proposed a change of its contract's sectors.
    Write,
    /// It signed the change.
    WriteSign,
    /// A session read parts of sectors.
    Read,
    /// A session read roots of sectors.
    Roots,
    /// A session proposed to renew its contract.
    Renew,
    /// It signed the renewal.
    RenewSign,
    /// A session ended.
    Leave,
    /// A block was supplied.
    Apply,
    /// The last block was to be reverted.
    Revert,
    /// The next stale contract was asked for.
    Stale,
    /// The next due contract was asked for.
    Due,
    /// A disk failed.
    Fault,
}

/// How a command was answered.
#[derive(Clone, Copy, Debug, PartialEq, Eq)]
pub enum Outcome {
    /// It was done.
    Fine,
    /// The session with this number holds the lock.
    Held(u64),
    /// It was refused with this code.
    Code(u64),
    /// The block breaks the rule with this number.
    Block(u64),
    /// There is no block to be reverted.
    NoBlock,
    /// There was nothing to hand out; or a disk failed.
    Nothing,
}

/// What a host notes of a command: who gave it, and how it was answered.
#[derive(Clone, Copy, Debug, PartialEq, Eq)]
pub struct Event {
    /// The worker that gave it.
    pub worker: u64,
    /// The session, counted from 1; 0 for what no session asks.
    pub session: u64,
    /// The command.
    pub kind: Kind,
    /// The contract that it names, if any.
    pub contract: Option<Hash>,
    /// How it was answered.
    pub outcome: Outcome,
    /// How many records there were behind it.
    pub records: u64,
}
