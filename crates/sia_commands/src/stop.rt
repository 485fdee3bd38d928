//! Why a command isn't answered.
ghost use Rattle.std.specs.Prelude.{◌≡◌};
ghost use Rattle.sia_commands.specs.declared.stop.Stop.TheVariants as stop;

use std::alloc::AllocError;

/// Why a command isn't answered. But for `Disk` no event is noted of it, and all is as before.
#[derive(Clone, Copy, Debug, PartialEq, Eq)]
pub enum Stop {
    /// Memory ran out.
    Memory,
    /// A disk failed while the command was done.
    Disk,
    /// A disk failed at an earlier command.
    Halted,
    /// The run has as many events as it may have.
    EventsFull,
}

impl From<AllocError> for Stop {
    ghost from_gives = { λ _ why. why ≡ stop.Memory };

    fn from(_error: AllocError) -> Stop {
        Stop::Memory
    }
}
