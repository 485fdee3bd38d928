//! What a call costs under a host's prices (RHP2; siad's modules/negotiate.go).
ghost use Rattle.std.specs.Prelude.{◌≡◌, ◌*◌, ◌^◌, ◌-◌, min};
ghost use Rattle.sia_price.specs.Costs.{appends_of, bandwidth_part, cost_of, duration_of, kept_part, most};

use crate::priced::{Cost, Priced};
use sia_types::Prices;

/// How many blocks a contract that ends at a height still lasts: 0 where it has ended.
pub fn duration(end: u64, height: u64) -> u64
    ensures { result ≡ duration_of end height }
{
    end.saturating_sub(height)
}

/// What a call costs under a host's prices, over sectors of so many bytes, for a contract that still lasts so many blocks. No
/// part is more than 2^128 - 1.
#[tactic(auto, unfolding(crate::specs::Costs::cost_of))]
pub fn cost(call: &Priced, prices: &Prices, sector: u64, duration: u64) -> Cost
    ensures { result ≡ cost_of call.now prices.now sector duration }
{
    let appends = appended(call);
    Cost {
        bandwidth: bandwidth(call, prices, sector),
        storage: kept(prices.storage, sector, duration, appends),
        collateral: kept(prices.collateral, sector, duration, appends),
    }
}

// How many sectors a call adds.
fn appended(call: &Priced) -> u64
    ensures { result ≡ appends_of call.now }
{
    match *call {
        Priced::Write { appends, .. } => appends,
        Priced::Read { .. } | Priced::Roots { .. } => 0,
    }
}

// The bandwidth part, and no more than a currency holds.
#[tactic(auto, unfolding(crate::specs::Costs::bandwidth_part))]
fn bandwidth(call: &Priced, prices: &Prices, sector: u64) -> u128
    ensures { result ≡ min (bandwidth_part call.now prices.now sector) most }
{
    let wide_sector = u128::from(sector);
    match *call {
        Priced::Write {
            appends,
            swaps,
            updates,
            update_bytes,
        } => prices
            .base
            .saturating_add(
                prices
                    .upload
                    .saturating_mul(wide_sector * u128::from(appends)),
            )
            .saturating_add(prices.access.saturating_mul(2 * u128::from(swaps)))
            .saturating_add(prices.access.saturating_mul(u128::from(updates)))
            .saturating_add(prices.upload.saturating_mul(u128::from(update_bytes))),
        Priced::Read { sections, bytes } => prices
            .base
            .saturating_add(prices.access.saturating_mul(u128::from(sections)))
            .saturating_add(prices.download.saturating_mul(u128::from(bytes))),
        Priced::Roots { count } => prices
            .base
            .saturating_add(prices.download.saturating_mul(32 * u128::from(count))),
    }
}

// A price for each byte of so many sectors and each block, and no more than a currency holds.
#[tactic(auto, unfolding(crate::specs::Costs::kept_part))]
fn kept(price: u128, sector: u64, duration: u64, appends: u64) -> u128
    ensures { result ≡ min (kept_part price sector duration appends) most }
{
    price
        .saturating_mul(u128::from(sector) * u128::from(duration))
        .saturating_mul(u128::from(appends))
}
