//! The keys of the table `renter`.
ghost use Rattle.std.specs.Prelude.{◌^◌, ◌≤◌, ◌≡◌, IfOk};
ghost use Rattle.toml.specs.View.{view};
ghost use Rattle.sia_config.specs.Config.{renter_of};

use crate::document::{amount, integer};
use crate::fault::ConfigFault;
use crate::key::ConfigKey;
use toml::Value;

/// What a renter is configured with.
#[derive(Clone, Copy)]
pub(crate) struct Renter {
    pub(crate) fee: u128,
    pub(crate) collateral: u128,
    pub(crate) file_limit: u64,
}

/// The keys of the table `renter`.
#[tactic(auto, unfolding(crate::specs::Config::renter_of))]
pub(crate) fn read_renter(document: &Value) -> Result<Renter, ConfigFault>
    ensures exact { result ≡ renter_of (view document.now) }
    ensures file { IfOk result (λ renter. (1024 ≤ renter.file_limit) × (renter.file_limit ≤ 2 ^ 32)) }
{
    Ok(Renter {
        fee: amount(document, ConfigKey::Fee, 10_000_000_000_000_000_000_000)?,
        collateral: amount(document, ConfigKey::RenterCollateral, 0)?,
        file_limit: integer(
            document,
            ConfigKey::FileLimit,
            1_024,
            4_294_967_296,
            67_108_864,
        )?,
    })
}
