//! Amounts, in hastings.
ghost use Rattle.std.specs.Prelude.{ℕ, ◌≡◌, ◌+◌, ◌*◌, ◌^◌, ◌<◌, ◌≤◌, IfSome, None};
ghost use Rattle.sia_rules.specs.Amounts.{subsidy as subsidy_of, shares, tax as tax_of, IsPayoutFor};

/// One siacoin, in hastings.
pub const COIN: u128 = 1_000_000_000_000_000_000_000_000;

/// How many siafunds there are.
pub const FUND_COUNT: u128 = 10_000;

/// What the block at a height from 1 creates, in hastings.
pub fn subsidy(height: u64) -> u128
    ensures { result ≡ subsidy_of height }
{
    u128::from(300_000u64.saturating_sub(height).max(30_000)) * COIN
}

/// The tax of a file contract's payout, in hastings: 39 thousandths of it, rounded down to a multiple of 10,000.
#[tactic(auto, unfolding(crate::specs::Amounts::tax))]
pub fn tax(payout: u128) -> u128
    ensures exact { result ≡ tax_of payout }
    ensures low { result ≤ payout }
{
    shares_of(payout) * FUND_COUNT
}

/// The least payout of a file contract, in hastings, that leaves so much after its tax. `None` exactly where that payout is
/// above 2^128 - 1.
pub fn payout_for(value: u128) -> Option<u128>
    ensures found { IfSome result (λ payout. IsPayoutFor value payout) }
    ensures none { result ≡ None → (payout : ℕ) → IsPayoutFor value payout → 2 ^ 128 ≤ payout }
{
    let tax = shares_left_by(value) * FUND_COUNT;
    if value > u128::MAX - tax {
        return None;
    }
    Some(value + tax)
}

// What each siafund gets of the tax of the least payout that leaves so much.
fn shares_left_by(value: u128) -> u128
    ensures reached { result * 9610000 ≤ 39 * value }
    ensures within { 39 * value < result * 9610000 + 10000000 }
    ensures least { 0 < result → result * 9610000 + 390000 ≤ 39 * value }
{
    let rest = value % 9_610_000 * 39;
    let most = value / 9_610_000 * 39 + rest / 9_610_000;
    if most > 0 && rest % 9_610_000 < 390_000 {
        return most - 1;
    }
    most
}

// What each siafund gets of the tax.
#[tactic(auto, unfolding(crate::specs::Amounts::shares))]
fn shares_of(payout: u128) -> u128
    ensures exact { result ≡ shares payout }
    ensures low { result * 10000 ≤ payout }
{
    (payout / 1000 * 39 + payout % 1000 * 39 / 1000) / FUND_COUNT
}
