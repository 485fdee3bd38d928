//! Why a call of a journal didn't do what it is for.
ghost use Rattle.std.specs.Prelude.{◌≡◌, OnOk, IfErr};
ghost use Rattle.sia_journal.specs.Faults.{fault_of_read};
ghost use Rattle.sia_journal.specs.declared.fault.JournalFault.TheVariants.{Memory};

use sia_edge::{Did, ReadFault};
use std::alloc::AllocError;

/// Why a call of a journal didn't do what it is for.
#[derive(Clone, Copy, Debug, PartialEq, Eq, Drop)]
pub enum JournalFault {
    /// Want of memory.
    Memory,
    /// A call of the disk failed.
    Disk,
    /// The file is no journal of this header and limit: `at` is 0 where it hasn't the header, the limit where it is longer,
    /// and else the place of the first gate that is open without a whole frame and another gate behind it, or the end where
    /// only that other gate is missing.
    Damaged { at: u64 },
    /// The file would be `need` bytes long, which passes the limit.
    Full { need: u64, limit: u64 },
}

impl From<AllocError> for JournalFault {
    ghost from_gives = { λ _ fault. fault ≡ Memory };

    fn from(_: AllocError) -> JournalFault {
        JournalFault::Memory
    }
}

impl From<ReadFault> for JournalFault {
    ghost from_gives = { λ read fault. fault ≡ fault_of_read read };

    fn from(fault: ReadFault) -> JournalFault {
        match fault {
            ReadFault::Failed => JournalFault::Disk,
            ReadFault::Memory => JournalFault::Memory,
        }
    }
}

/// What a call of the disk that failed is to its caller.
pub(crate) fn done(did: Did) -> Result<(), JournalFault>
    ensures ok { OnOk result (did ≡ Did.Done) }
    ensures err { IfErr result (λ fault. (fault ≡ JournalFault.Disk) × (did ≡ Did.Failed)) }
{
    match did {
        Did::Done => Ok(()),
        Did::Failed => Err(JournalFault::Disk),
    }
}
