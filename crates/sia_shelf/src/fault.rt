//! Why a call of a shelf didn't do what it is for.
ghost use Rattle.std.specs.Prelude.{◌≡◌, OnOk, IfErr};
ghost use Rattle.sia_shelf.specs.declared.fault.ShelfFault.TheVariants.{Memory};

use sia_edge::Did;
use std::alloc::AllocError;

/// Why a call of a shelf didn't do what it is for.
#[derive(Clone, Copy, Debug, PartialEq, Eq, Drop)]
pub enum ShelfFault {
    /// Want of memory.
    Memory,
    /// A call of the disk failed.
    Disk,
    /// Fewer slots are free than are asked for.
    Full,
    /// The disk ends before this slot does.
    Short { slot: u64 },
}

impl From<AllocError> for ShelfFault {
    ghost from_gives = { λ _ fault. fault ≡ Memory };

    fn from(_: AllocError) -> ShelfFault {
        ShelfFault::Memory
    }
}

/// What a call of the disk that failed is to its caller.
pub(crate) fn done(did: Did) -> Result<(), ShelfFault>
    ensures ok { OnOk result (did ≡ Did.Done) }
    ensures err { IfErr result (λ fault. (fault ≡ ShelfFault.Disk) × (did ≡ Did.Failed)) }
{
    match did {
        Did::Done => Ok(()),
        Did::Failed => Err(ShelfFault::Disk),
    }
}
