//! Why a command is refused.
ghost use Rattle.std.specs.Prelude.{◌≡◌};
ghost use Rattle.sia_host.specs.declared.refusal.Refusal.TheVariants as refusal;

use std::alloc::AllocError;

/// Why a command is refused.
#[derive(Clone, Copy, Debug, PartialEq, Eq)]
pub(crate) enum Refusal {
    /// By this code.
    Code(u64),
    /// Memory ran out.
    Memory,
}

impl From<AllocError> for Refusal {
    ghost from_gives = { λ _ fault. fault ≡ refusal.Memory };

    fn from(_error: AllocError) -> Refusal {
        Refusal::Memory
    }
}
