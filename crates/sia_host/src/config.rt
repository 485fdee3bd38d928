//! What a host begins from.
ghost use Rattle.std.specs.Prelude.{◌≡◌};
ghost use Rattle.sia_host.specs.declared.config.CoreFault.TheVariants as core_fault;

use sia_ledger::{GenesisFault, Params};
use sia_types::Settings;
use std::alloc::AllocError;

/// What a host begins from.
#[derive(Drop)]
pub struct CoreConfig {
    /// What its chain begins from.
    pub params: Params,
    /// Its settings; their height isn't looked at.
    pub settings: Settings,
    /// How many blocks before a contract's window a newer revision is due to be mined.
    pub margin: u64,
}

/// Why a host doesn't begin.
#[derive(Clone, Copy, Debug, PartialEq, Eq)]
pub enum CoreFault {
    /// The parameters of the chain are refused, and not for want of memory.
    Genesis(GenesisFault),
    /// Memory ran out.
    Memory,
}

impl From<AllocError> for CoreFault {
    ghost from_gives = { λ _ fault. fault ≡ core_fault.Memory };

    fn from(_error: AllocError) -> CoreFault {
        CoreFault::Memory
    }
}
