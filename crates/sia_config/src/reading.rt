//! The reading of a whole configuration.
ghost use Rattle.std.specs.Prelude.{ℕ, ◌*◌, ◌^◌, ◌≤◌, ◌≡◌, IfOk, None};
ghost use Rattle.sia_encoding.specs.Answer.{Answers};
ghost use Rattle.sia_ledger.specs.Genesis.{genesis_refusal};
ghost use Rattle.sia_config.specs.Config.{config_of, config_with, settings_with};
ghost use Rattle.sia_config.specs.Told.{config_told};

use crate::chain::{ChainKeys, read_chain};
use crate::config::{Config, HostConfig};
use crate::document::parse;
use crate::fault::ConfigFault;
use crate::host::{Limits, Room, read_limits, read_prices, read_room};
use crate::renter::{Renter, read_renter};
use sia_types::{Prices, Settings};
use std::alloc::Global;

/// What a host tells of itself, before the height of its chain, its key and its address are known.
fn settings(sector: u64, limits: &Limits, prices: &Prices) -> Settings
    ensures { result ≡ settings_with sector limits.now prices.now }
{
    Settings {
        sector,
        height: 0,
        host_key: [0; 32],
        address: [0; 32],
        window: limits.window,
        max_duration: limits.max_duration,
        max_collateral: limits.max_collateral,
        prices: *prices,
    }
}

/// The configuration of its parts.
fn config(
    chain: ChainKeys,
    limits: &Limits,
    prices: &Prices,
    room: &Room,
    renter: &Renter,
) -> Config
    ensures { result ≡ config_with chain limits.now prices.now room.now renter.now }
{
    let ChainKeys { params, sector } = chain;
    let settings = settings(sector, limits, prices);
    Config {
        host: HostConfig {
            params,
            settings,
            margin: limits.margin,
            journal_limit: room.journal_limit,
            slots: room.slots,
            events: room.events,
        },
        fee: renter.fee,
        collateral: renter.collateral,
        file_limit: renter.file_limit,
    }
}

/// Reads a configuration: a TOML document, whose keys are those of [`crate::ConfigKey`]. Other keys are ignored, a key that
/// is absent has its default, and a `chain`, `host` or `renter` that is no table has no keys. An amount is a text of
/// decimal digits without leading zero, below 2^128. The height, the host's key and its address are zero.
///
/// Errors: [`ConfigFault::Text`] where the bytes are no TOML document, then [`ConfigFault::Key`] with the first key, in the
/// order of [`crate::ConfigKey`], whose value is of another type or out of its range. [`ConfigFault::Memory`] for want of
/// memory.
///
/// The genesis of accepted parameters is refused for want of memory alone, and the sizes and limits are such as a host's
/// core, journal and shelf and a renter's file need.
#[tactic(auto, unfolding(crate::specs::Config::config_of))]
pub fn read_config(alloc: Global, bytes: &[u8]) -> Result<Config, ConfigFault>
    ensures exact { Answers (λ value. value) config_told result (config_of bytes.now) }
    ensures founds { IfOk result (λ config. genesis_refusal config.host.params ≡ None) }
    ensures sized { IfOk result (λ config. (power : ℕ) × (power ≤ 16) × (config.host.settings.sector ≡ 64 * 2 ^ power)) }
    ensures journal { IfOk result (λ config. (1024 ≤ config.host.journal_limit) × (config.host.journal_limit ≤ 2 ^ 36)) }
    ensures slots { IfOk result (λ config. (1 ≤ config.host.slots) × (config.host.slots ≤ 2 ^ 20)) }
    ensures events { IfOk result (λ config. (16 ≤ config.host.events) × (config.host.events ≤ 2 ^ 24)) }
    ensures file { IfOk result (λ config. (1024 ≤ config.file_limit) × (config.file_limit ≤ 2 ^ 32)) }
{
    let document = parse(alloc, bytes)?;
    let chain = read_chain(alloc, &document)?;
    let limits = read_limits(&document)?;
    let prices = read_prices(&document)?;
    let room = read_room(&document)?;
    let renter = read_renter(&document)?;
    Ok(config(chain, &limits, &prices, &room, &renter))
}
