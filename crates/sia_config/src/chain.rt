//! The keys of the table `chain`.
ghost use Rattle.std.specs.Prelude.{ℕ, ◌*◌, ◌^◌, ◌≤◌, ◌≡◌, IfOk, None};
ghost use Rattle.toml.specs.View.{view};
ghost use Rattle.sia_encoding.specs.Answer.{Answers};
ghost use Rattle.sia_ledger.specs.Genesis.{genesis_refusal};
ghost use Rattle.sia_config.specs.Config.{chain_of, sector_size as sector_size_of};
ghost use Rattle.sia_config.specs.Told.{config_told};

use crate::document::integer;
use crate::fault::ConfigFault;
use crate::key::ConfigKey;
use crate::siafunds::siafunds;
use sia_ledger::Params;
use std::alloc::Global;
use toml::Value;

/// A chain, and the size of its hosts' sectors in bytes.
#[derive(Drop)]
pub(crate) struct ChainKeys {
    pub(crate) params: Params,
    pub(crate) sector: u64,
}

/// So many times doubled, 64 bytes.
fn sector_size(power: u64) -> u64
    requires { power ≤ 16 }
    ensures { result ≡ sector_size_of power }
{
    64 << power
}

/// The keys of the table `chain`.
#[tactic(auto, unfolding(crate::specs::Config::chain_of))]
pub(crate) fn read_chain(alloc: Global, document: &Value) -> Result<ChainKeys, ConfigFault>
    ensures exact { Answers (λ chain. chain) config_told result (chain_of (view document.now)) }
    ensures founds { IfOk result (λ chain. genesis_refusal chain.params ≡ None) }
    ensures sized { IfOk result (λ chain. (power : ℕ) × (power ≤ 16) × (chain.sector ≡ 64 * 2 ^ power)) }
{
    let maturity = integer(document, ConfigKey::Maturity, 1, 10_000, 144)?;
    let power = integer(document, ConfigKey::SectorExponent, 0, 16, 16)?;
    let funds = siafunds(alloc, document)?;
    let sector = sector_size(power);
    Ok(ChainKeys {
        params: Params { maturity, funds },
        sector,
    })
}
