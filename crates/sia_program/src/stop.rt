//! Why a command ends before its work is done.
ghost use Rattle.std.specs.Prelude.{◌≡◌};

use crate::rule::BrokenRule;
use sia_config::{ConfigFault, ConfigKey};
use std::alloc::AllocError;

/// What is refused of the configuration or the input.
#[derive(Clone, Copy)]
pub enum Refusal {
    /// The configuration is no TOML document.
    ConfigText,
    /// The configuration's value at this key, the first that is refused.
    ConfigKey(ConfigKey),
    /// The feed's bytes are no list of records.
    Feed {
        /// The offset of their first fault.
        at: u64,
    },
    /// A block of the feed.
    Block {
        /// The height of the tip that it was to follow.
        tip_height: u64,
        /// The first rule that it breaks.
        rule: BrokenRule,
    },
    /// A revert of the feed, at the genesis.
    NoBlock,
    /// The range to prove has no leaf, or ends past the last one.
    Range,
    /// The input's bytes are no record.
    Input {
        /// The offset of their first fault.
        at: u64,
    },
}

/// Why bytes that were read give no answer.
#[derive(Clone, Copy)]
pub enum Fault {
    /// They are refused.
    Refused(Refusal),
    /// Memory ran out.
    Memory,
}

/// Why a command ends before its work is done.
#[derive(Clone, Copy)]
pub enum Stop {
    /// The configuration or the input is refused.
    Refused(Refusal),
    /// The configuration or the input has more bytes than its bound.
    Long,
    /// A read or a write failed.
    Outside,
    /// Memory ran out.
    Memory,
}

impl From<AllocError> for Fault {
    ghost use Rattle.sia_program.specs.declared.stop.Fault.TheVariants as fault;

    ghost from_gives = { λ _ made. made ≡ fault.Memory };

    fn from(_error: AllocError) -> Fault {
        Fault::Memory
    }
}

impl From<AllocError> for Stop {
    ghost use Rattle.sia_program.specs.declared.stop.Stop.TheVariants as stop;

    ghost from_gives = { λ _ made. made ≡ stop.Memory };

    fn from(_error: AllocError) -> Stop {
        Stop::Memory
    }
}

impl From<ConfigFault> for Stop {
    ghost use Rattle.sia_program.specs.Told.{config_stop};

    ghost from_gives = { λ fault made. made ≡ config_stop fault };

    fn from(fault: ConfigFault) -> Stop {
        match fault {
            ConfigFault::Text => Stop::Refused(Refusal::ConfigText),
            ConfigFault::Key(key) => Stop::Refused(Refusal::ConfigKey(key)),
            ConfigFault::Memory => Stop::Memory,
        }
    }
}

impl From<Fault> for Stop {
    ghost use Rattle.sia_program.specs.Told.{fault_stop};

    ghost from_gives = { λ fault made. made ≡ fault_stop fault };

    fn from(fault: Fault) -> Stop {
        match fault {
            Fault::Refused(refusal) => Stop::Refused(refusal),
            Fault::Memory => Stop::Memory,
        }
    }
}
