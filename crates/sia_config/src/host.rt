//! The keys of the table `host`.
ghost use Rattle.std.specs.Prelude.{◌^◌, ◌≤◌, ◌≡◌, IfOk};
ghost use Rattle.toml.specs.View.{view};
ghost use Rattle.sia_config.specs.Config.{limits_of, prices_of, room_of};

use crate::document::{amount, integer};
use crate::fault::ConfigFault;
use crate::key::ConfigKey;
use sia_types::Prices;
use toml::Value;

/// The limits of the contracts that a host forms.
#[derive(Clone, Copy)]
pub(crate) struct Limits {
    pub(crate) window: u64,
    pub(crate) max_duration: u64,
    pub(crate) margin: u64,
    pub(crate) max_collateral: u128,
}

/// How much a host keeps: the bytes of its journal, the sectors of its shelf, and the events of a run.
#[derive(Clone, Copy)]
pub(crate) struct Room {
    pub(crate) journal_limit: u64,
    pub(crate) slots: u64,
    pub(crate) events: u64,
}

/// The keys from `host.window` to `host.max_collateral`.
#[tactic(auto, unfolding(crate::specs::Config::limits_of))]
pub(crate) fn read_limits(document: &Value) -> Result<Limits, ConfigFault>
    ensures { result ≡ limits_of (view document.now) }
{
    Ok(Limits {
        window: integer(document, ConfigKey::Window, 1, 1_000_000, 144)?,
        max_duration: integer(document, ConfigKey::MaxDuration, 1, 2_000_000, 25_920)?,
        margin: integer(document, ConfigKey::Margin, 1, 1_000, 12)?,
        max_collateral: amount(
            document,
            ConfigKey::MaxCollateral,
            1_000_000_000_000_000_000_000_000_000,
        )?,
    })
}

/// The keys from `host.contract_price` to `host.download`.
#[tactic(auto, unfolding(crate::specs::Config::prices_of))]
pub(crate) fn read_prices(document: &Value) -> Result<Prices, ConfigFault>
    ensures { result ≡ prices_of (view document.now) }
{
    Ok(Prices {
        contract_price: amount(
            document,
            ConfigKey::ContractPrice,
            150_000_000_000_000_000_000_000,
        )?,
        base: amount(document, ConfigKey::BasePrice, 100_000_000_000_000_000)?,
        access: amount(document, ConfigKey::AccessPrice, 100_000_000_000_000_000)?,
        storage: amount(document, ConfigKey::StoragePrice, 25_000_000_000)?,
        collateral: amount(document, ConfigKey::HostCollateral, 50_000_000_000)?,
        upload: amount(document, ConfigKey::UploadPrice, 1_000_000_000_000)?,
        download: amount(document, ConfigKey::DownloadPrice, 25_000_000_000_000)?,
    })
}

/// The keys from `host.journal_limit` to `host.events`.
#[tactic(auto, unfolding(crate::specs::Config::room_of))]
pub(crate) fn read_room(document: &Value) -> Result<Room, ConfigFault>
    ensures exact { result ≡ room_of (view document.now) }
    ensures journal { IfOk result (λ room. (1024 ≤ room.journal_limit) × (room.journal_limit ≤ 2 ^ 36)) }
    ensures slots { IfOk result (λ room. (1 ≤ room.slots) × (room.slots ≤ 2 ^ 20)) }
    ensures events { IfOk result (λ room. (16 ≤ room.events) × (room.events ≤ 2 ^ 24)) }
{
    Ok(Room {
        journal_limit: integer(
            document,
            ConfigKey::JournalLimit,
            1_024,
            68_719_476_736,
            1_073_741_824,
        )?,
        slots: integer(document, ConfigKey::Slots, 1, 1_048_576, 4_096)?,
        events: integer(document, ConfigKey::Events, 16, 16_777_216, 16_777_216)?,
    })
}
