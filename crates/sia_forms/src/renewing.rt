//! What a renewal takes over of the contract that it renews.
ghost use Rattle.std.specs.Prelude.{◌≡◌, ◌+◌, ◌*◌, ◌^◌, ◌<◌, ◌≤◌, SomeIff, IfOk};
ghost use Rattle.sia_forms.specs.Renewing.{clearing as clearing_of, kept_longer as kept_longer_of, least_renewed as least_renewed_of, risk_of as risk_of_value};

use crate::parties::ZERO;
use sia_types::{Item, Revision, Settings};
use std::alloc::{AllocError, Global};

/// The revision that clears an old contract: nothing is stored any more, and both ends of it pay the newest valid outputs. The
/// error is want of memory.
#[tactic(auto, unfolding(crate::specs::Renewing::clearing))]
pub fn clearing(alloc: Global, newest: &Revision) -> Result<Revision, AllocError>
    ensures { IfOk result (λ revision. revision ≡ clearing_of newest.now) }
{
    Ok(Revision {
        parent: newest.parent.copy(alloc)?,
        conditions: newest.conditions.copy(alloc)?,
        number: u64::MAX,
        size: 0,
        root: ZERO,
        start: newest.start,
        end: newest.end,
        valid: Item::copy(&newest.valid, alloc)?,
        missed: Item::copy(&newest.valid, alloc)?,
        address: newest.address.copy(alloc)?,
    })
}

/// The least valid value of the host, in hastings, in a contract that ends at a height: `None` where a currency doesn't hold it.
#[tactic(auto, unfolding(crate::specs::Renewing::least_renewed))]
pub(crate) fn least_renewed(settings: &Settings, end: u64, newest: &Revision) -> Option<u128>
    ensures { SomeIff result (least_renewed_of settings.now end newest.now < 2 ^ 128) (least_renewed_of settings.now end newest.now) }
{
    let price = settings
        .prices
        .storage
        .checked_mul(kept_longer(end, newest))?;
    settings.prices.contract_price.checked_add(price)
}

/// What of the host's value goes to the void where a contract that ends at a height isn't proved.
#[tactic(auto, unfolding(crate::specs::Renewing::risk_of))]
pub(crate) fn risk_of(settings: &Settings, end: u64, newest: &Revision, host_value: u128) -> u128
    ensures exact { result ≡ risk_of_value settings.now end newest.now host_value }
    ensures low { result ≤ host_value }
{
    let kept = kept_longer(end, newest);
    let price = settings.prices.storage.saturating_mul(kept);
    let collateral = settings.prices.collateral.saturating_mul(kept);
    price.saturating_add(collateral).min(host_value)
}

// The bytes of the old contract times the blocks that they are kept longer.
fn kept_longer(end: u64, newest: &Revision) -> u128
    ensures { result ≡ kept_longer_of end newest.now }
{
    u128::from(newest.size) * u128::from(end.saturating_sub(newest.end))
}
