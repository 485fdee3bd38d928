//! Amounts worked out by hand.
use sia_rules::{COIN, subsidy, tax};

/// A height, and what its block creates in siacoins.
const SUBSIDIES: [(u64, u128); 4] = [
    (1, 299_999),
    (269_999, 30_001),
    (270_000, 30_000),
    (270_001, 30_000),
];

/// A payout and its tax, in hastings.
const TAXES: [(u128, u128); 5] = [
    (0, 0),
    (256_410, 0),
    (256_411, 10_000),
    (1_000_000, 30_000),
    (100_000_000, 3_900_000),
];

#[test]
fn subsidies_fall_to_30_000_siacoins(rt: HostRuntime) {
    for (height, coins) in SUBSIDIES {
        assert_eq!(rt; subsidy(height) / COIN, coins, "at {height}");
        assert_eq!(rt; subsidy(height) % COIN, 0, "at {height}");
    }
}

#[test]
fn taxes_are_multiples_of_the_siafunds(rt: HostRuntime) {
    for (payout, due) in TAXES {
        assert_eq!(rt; tax(payout), due, "of {payout}");
    }
}
