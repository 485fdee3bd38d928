//! Why a book isn't opened.
ghost use Rattle.std.specs.Prelude.{◌≡◌};
ghost use Rattle.sia_book.specs.declared.fault.OpenFault.TheVariants as open_fault;

use std::alloc::AllocError;
use thiserror::Error;

/// Why a book isn't opened.
#[derive(Clone, Copy, Debug, PartialEq, Eq, Error)]
pub enum OpenFault {
    /// Memory ran out.
    #[error("no memory to open the disks")]
    Memory,
    /// A call of a disk failed.
    #[error("a disk failed")]
    Disk,
    /// A disk doesn't hold what a host left.
    #[error("damaged at {at}")]
    Damaged {
        /// The place, in bytes from the disk's start: in the journal that of the first gate without a whole frame, or of the first payload
        /// that is no record or doesn't follow on those before it; in the shelf that of the least slot that isn't there whole.
        at: u64,
        /// Whether it is the shelf.
        shelf: bool,
    },
}

impl From<AllocError> for OpenFault {
    ghost from_gives = { λ _ fault. fault ≡ open_fault.Memory };

    fn from(_error: AllocError) -> OpenFault {
        OpenFault::Memory
    }
}
