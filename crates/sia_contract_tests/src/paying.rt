//! What an appended sector costs under the default prices, and how it is paid.
use crate::fixtures::{PRICES, SETTINGS, newest};
use sia_price::{Cost, PayFault, Priced, check_payment, cost, duration, revise};
use std::test::Fail;

/// One appended sector of a contract that ends at 1,000, at height 100.
const APPEND: Cost = Cost {
    bandwidth: 4_294_304_000_000_000_000,
    storage: 94_371_840_000_000_000_000,
    collateral: 188_743_680_000_000_000_000,
};

/// What is due for it.
const DUE: u128 = 98_666_144_000_000_000_000;

/// A call, a duration, and its three parts.
const COSTS: [(Priced, u64, [u128; 3]); 5] = [
    (
        Priced::Write {
            appends: 1,
            swaps: 0,
            updates: 0,
            update_bytes: 0,
        },
        900,
        [APPEND.bandwidth, APPEND.storage, APPEND.collateral],
    ),
    (
        Priced::Write {
            appends: 1,
            swaps: 0,
            updates: 0,
            update_bytes: 0,
        },
        0,
        [APPEND.bandwidth, 0, 0],
    ),
    (
        Priced::Write {
            appends: 0,
            swaps: 1,
            updates: 1,
            update_bytes: 64,
        },
        900,
        [400_064_000_000_000_000, 0, 0],
    ),
    (
        Priced::Read {
            sections: 2,
            bytes: 128,
        },
        900,
        [303_200_000_000_000_000, 0, 0],
    ),
    (
        Priced::Roots { count: 2 },
        900,
        [101_600_000_000_000_000, 0, 0],
    ),
];

#[test]
fn calls_cost_their_parts(rt: HostRuntime) {
    for (call, lasts, [bandwidth, storage, collateral]) in COSTS {
        let price = cost(&call, &PRICES, SETTINGS.sector, lasts);
        assert_eq!(rt; price.bandwidth, bandwidth, "{call:?}");
        assert_eq!(rt; price.storage, storage, "{call:?}");
        assert_eq!(rt; price.collateral, collateral, "{call:?}");
    }
    assert_eq!(rt; duration(1_000, 100), 900);
    assert_eq!(rt; duration(100, 1_000), 0);
}

#[test]
fn a_hasting_less_is_low(rt: HostRuntime) -> Result<(), Fail> {
    let alloc = rt.alloc();
    let old = newest(alloc, 0, 1_000, &[DUE, 0], &[DUE, 0, 0])?;
    assert_eq!(rt; old.valid.len(), 2);
    assert_eq!(rt; old.missed.len(), 3);
    let missed = [0, 0, DUE];
    assert_eq!(rt; check_payment(&old, &[0, DUE], &missed, &APPEND), Ok(()));
    let low = PayFault::Low {
        need: DUE,
        got: DUE - 1,
    };
    assert_eq!(rt;
        check_payment(&old, &[1, DUE - 1], &missed, &APPEND),
        Err(low)
    );
    Ok(())
}

#[test]
fn three_sectors_are_paid_one_by_one(rt: HostRuntime) -> Result<(), Fail> {
    let alloc = rt.alloc();
    let start: u128 = 10_000_000_000_000_000_000_000_000;
    let left: [u128; 4] = [
        start,
        9_999_901_333_856_000_000_000_000,
        9_999_802_667_712_000_000_000_000,
        9_999_704_001_568_000_000_000_000,
    ];
    for sector in 0..3 {
        let paid = DUE * sector as u128;
        let valid = [start - paid, paid];
        let missed = [start - paid, 0, paid];
        let old = newest(alloc, 0, 1_000, &valid, &missed)?;
        assert_eq!(rt; old.valid.len(), 2);
        assert_eq!(rt; old.missed.len(), 3);
        let next = revise(alloc, &old, 8, 0, &[5; 32], &APPEND)?.ok_or("enough is left")?;
        assert_eq!(rt; old.valid.get(0).ok_or("an output")?.value, left[sector]);
        assert_eq!(rt;
            next.valid.get(0).ok_or("an output")?.value,
            left[sector + 1]
        );
    }
    Ok(())
}
