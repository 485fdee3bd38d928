//! How a host came to be what it is: what is told of it once its last step was taken back.
ghost use Rattle.std.specs.Prelude.{◌≡◌, if◌then◌else◌};
ghost use Rattle.sia_host.specs.Spoiling.{fault_event as fault_event_so, is_spoiled as is_spoiled_so, phase_after};

use sia_blake::Hash;
use sia_commands::{Event, Kind, Outcome};
use sia_ledger::Sums;

/// What a host told of its chain before its last step, and how many records it had kept.
#[derive(Clone, Copy, Debug, PartialEq, Eq)]
pub struct Past {
    /// What the chain held.
    pub sums: Sums,
    /// The identifier of its last block.
    pub tip: Hash,
    /// How many records there were.
    pub records: u64,
}

/// How a host came to be what it is.
#[derive(Clone, Copy, Debug, PartialEq, Eq)]
pub enum Phase {
    /// It began so, or a record was replayed last.
    Settled,
    /// A step that noted an event came last.
    Stepped(Past),
    /// A step was taken back, since a disk failed.
    Spoiled(Past),
}

impl Phase {
    /// Whether a step was taken back.
    pub(crate) fn is_spoiled(&self) -> bool
        ensures { result ≡ is_spoiled_so self.now }
    {
        match self {
            Phase::Settled => false,
            Phase::Stepped(_) => false,
            Phase::Spoiled(_) => true,
        }
    }

    /// The phase after a step, which may have noted an event.
    pub(crate) fn after(self, past: Past, noted: bool) -> Phase
        ensures { result ≡ (if noted then phase_after self past else self) }
    {
        match self {
            Phase::Spoiled(first) => Phase::Spoiled(first),
            Phase::Settled => {
                if noted {
                    Phase::Stepped(past)
                } else {
                    Phase::Settled
                }
            }
            Phase::Stepped(earlier) => {
                if noted {
                    Phase::Stepped(past)
                } else {
                    Phase::Stepped(earlier)
                }
            }
        }
    }
}

/// The event of a disk's fault, in the place of the event of the step that met it.
pub(crate) fn fault_event(past: &Past, event: &Event) -> Event
    ensures { result ≡ fault_event_so past.now event.now }
{
    Event {
        worker: event.worker,
        session: event.session,
        kind: Kind::Fault,
        contract: None,
        outcome: Outcome::Nothing,
        records: past.records,
    }
}
