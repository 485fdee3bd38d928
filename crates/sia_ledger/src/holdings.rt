//! What a chain holds: sums over the facts that no later fact is about.
ghost use Rattle.std.specs.Prelude.{◌≡◌, ◌+◌, ◌<◌, ◌^◌, ◌∷◌, if◌then◌else◌};
ghost use Rattle.sia_rules.specs.Amounts.{issued};
ghost use Rattle.sia_ledger.specs.Facts.{is_known};
ghost use Rattle.sia_ledger.specs.Holdings.{coins_of, held_by, immature, resting_at};

use crate::fact::{Deed, Fact};
use crate::lookups::is_among;
use sia_rules::{COIN, tax};

/// The height up to which each block creates a siacoin less than the one before it.
const FALLING: u64 = 270_000;

// A value, where none of the facts behind is about the same identifier; else 0.
fn counted(value: u128, fact: &Fact, after: &[Fact]) -> u128
    ensures { result ≡ (if is_known after.now fact.now.id then 0 else value) }
{
    if value == 0 || is_among(after, &fact.id) {
        return 0;
    }
    value
}

/// The value of a siacoin output, and 0 of anything else.
pub(crate) fn coins(deed: &Deed) -> u128
    ensures { result ≡ coins_of deed.now }
{
    match deed {
        Deed::Coin { output, .. } => output.value,
        _ => 0,
    }
}

/// The live siacoin outputs that can't be spent at a height.
pub(crate) fn sum_of_immature(height: u64, facts: &[Fact]) -> u128
    requires { immature height facts.now < 2 ^ 128 }
    ensures { result ≡ immature height facts.now }
{
    let mut sum: u128 = 0;
    let mut rest = facts;
    while let Some((first, after)) = rest.split_first() {
        sum += resting_standing(height, first, after);
        rest = after;
    }
    sum
}

// What a fact counts of them, where others stand behind it.
fn resting_standing(height: u64, fact: &Fact, after: &[Fact]) -> u128
    ensures { result + immature height after.now ≡ immature height (fact.now ∷ after.now) }
{
    counted(resting(height, &fact.deed), fact, after)
}

// The value of a siacoin output that can't be spent at a height, and 0 of anything else.
fn resting(height: u64, deed: &Deed) -> u128
    ensures { result ≡ resting_at height deed.now }
{
    match deed {
        Deed::Coin { output, from } if height < *from => output.value,
        _ => 0,
    }
}

/// What a running contract holds, and 0 of anything else.
pub(crate) fn held(deed: &Deed) -> u128
    ensures { result ≡ held_by deed.now }
{
    match deed {
        Deed::Formed(terms) => terms.payout - tax(terms.payout),
        Deed::Revised(terms) => terms.payout - tax(terms.payout),
        _ => 0,
    }
}

/// What all blocks up to a height have created, in hastings.
pub(crate) fn issued_at(height: u64) -> u128
    requires { height < 2 ^ 32 }
    ensures { result ≡ issued height }
{
    let early = u128::from(height.min(FALLING));
    let late = u128::from(height) - early;
    early * (599_999 - early) * (COIN / 2) + late * 30_000 * COIN
}
