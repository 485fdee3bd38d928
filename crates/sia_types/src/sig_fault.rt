//! Why the signatures of a transaction were refused.
ghost use Rattle.std.specs.Prelude.{◌≡◌};
ghost use Rattle.sia_types.specs.declared.sig_fault.SigFault.TheVariants as sig_fault;

use std::alloc::AllocError;

/// Why the signatures of a transaction were refused (siad's types/signatures.go).
#[derive(Clone, Copy, Debug, PartialEq, Eq)]
pub enum SigFault {
    /// The need at this index, from 0, has fewer signatures than it requires.
    MissingSig {
        /// The index among the needs: the siacoin inputs, then the revisions, then the siafund inputs.
        i: u64,
    },
    /// The check refuses the signature at this index.
    BadSig {
        /// The index among the transaction's signatures.
        i: u64,
    },
    /// The signature at this index serves for nothing.
    Frivolous {
        /// The index among the transaction's signatures.
        i: u64,
    },
    /// The signature at this index may stand in later blocks alone.
    Timelock {
        /// The index among the transaction's signatures.
        i: u64,
    },
    /// Memory ran out.
    Memory,
}

impl From<AllocError> for SigFault {
    ghost from_gives = { λ _ fault. fault ≡ sig_fault.Memory };

    fn from(_error: AllocError) -> SigFault {
        SigFault::Memory
    }
}
