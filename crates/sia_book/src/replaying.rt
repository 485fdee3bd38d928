//! The records of a journal make a host of what it was before the first.
ghost use Rattle.std.specs.Prelude.{◌≡◌, ◌≤◌, ℕ, List as Sequence, IsTrue, IfErr, OnOk, false};
ghost use Rattle.sia_edge.specs.Disk.{Faulted, Quiet};
ghost use Rattle.sia_journal.specs.Journal.{Holds, IsReady};
ghost use Rattle.sia_book.specs.Opening.{BreaksOff, Replayed};
ghost use Rattle.sia_book.specs.Books.{ReplayCause, SameRun};
ghost use Rattle.sia_host.specs.Spoiling.{is_spoiled};

use sia_edge::{Disk, SigCheck};
use sia_host::Core;
use sia_journal::{FIRST_PLACE, Journal, JournalFault};
use sia_types::Blob;
use std::alloc::{AllocError, Global};

/// Why the records of a journal don't make a host.
#[derive(Clone, Copy, Debug, PartialEq, Eq, Drop)]
pub(crate) enum ReplayFault {
    /// Memory ran out.
    Memory,
    /// A call of the disk failed.
    Disk,
    /// The first payload that is no record, or doesn't follow on those before it, has its gate at this place.
    Unfit {
        /// The place, in bytes from the file's start.
        at: u64,
    },
}

impl From<JournalFault> for ReplayFault {
    ghost use Rattle.sia_book.specs.Books.{replay_fault};

    ghost from_gives = { λ journal fault. fault ≡ replay_fault journal };

    fn from(fault: JournalFault) -> ReplayFault {
        match fault {
            JournalFault::Memory => ReplayFault::Memory,
            JournalFault::Disk => ReplayFault::Disk,
            JournalFault::Damaged { at } => ReplayFault::Unfit { at },
            JournalFault::Full { need: _, limit } => ReplayFault::Unfit { at: limit },
        }
    }
}

impl From<AllocError> for ReplayFault {
    ghost use Rattle.sia_book.specs.declared.replaying.ReplayFault.TheVariants.{Memory as NoMemory};

    ghost from_gives = { λ _ fault. fault ≡ NoMemory };

    fn from(_error: AllocError) -> ReplayFault {
        ReplayFault::Memory
    }
}

/// Replays each record of a journal on a host.
pub(crate) fn replay_all<D: Disk, C: SigCheck>(
    alloc: Global,
    journal: &mut Journal<D>,
    core: &mut Core,
    check: &C,
) -> Result<(), ReplayFault>
    requires ready { IsReady D.standing journal.old }
    requires settled { is_spoiled core.old.phase ≡ false }
    ensures ready { IsReady D.standing journal.new }
    ensures limit { journal.new.limit ≡ journal.old.limit }
    ensures run { SameRun core.old core.new }
    ensures settled { is_spoiled core.new.phase ≡ false }
    ensures made { IsTrue D.tells → OnOk result ((header : Sequence ℕ) (records : Sequence (Sequence ℕ)) → Holds header records (D.standing journal.old.disk) → Replayed C.verdict core.old records core.new) }
    ensures unfit { IsTrue D.tells → IfErr result (λ fault. (at : ℕ) → fault ≡ ReplayFault.Unfit at → (header : Sequence ℕ) (records : Sequence (Sequence ℕ)) → Holds header records (D.standing journal.old.disk) → BreaksOff C.verdict core.old records at) }
    ensures quiet { Quiet (D.standing journal.old.disk) (D.standing journal.new.disk) }
    ensures cause { IfErr result (ReplayCause (D.standing journal.old.disk) (D.standing journal.new.disk)) }
{
    let mut place = FIRST_PLACE;
    let mut at = place;
    let mut payload = Blob::new(alloc);
    while journal.read_next(alloc, &mut place, &mut payload)? {
        if !core.replay(alloc, payload.as_slice(), check)? {
            return Err(ReplayFault::Unfit { at });
        }
        at = place;
    }
    Ok(())
}
