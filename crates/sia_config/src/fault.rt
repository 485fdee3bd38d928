//! Why a configuration is refused.
use crate::key::ConfigKey;
use thiserror::Error;

/// Why a configuration is refused.
#[derive(Clone, Copy, Debug, PartialEq, Eq, Error)]
pub enum ConfigFault {
    /// The bytes are no TOML document.
    #[error("the configuration is no TOML document")]
    Text,
    /// The value at this key, the first that is refused, is of another type or out of its range, or it is missing where it
    /// must be there.
    #[error("the configuration is refused at the key {0}")]
    Key(ConfigKey),
    /// Memory ran out.
    #[error("no memory to read the configuration")]
    Memory,
}
