//! Which coins are chosen, and what a formation is paid.
use crate::fixtures::{HOST_ADDRESS, RENTER, SETTINGS, coin};
use sia_blake::Hash;
use sia_forms::{FormFault, FormPlan, add_host_part, build_form, check_form, choose};
use sia_types::Coin;
use std::test::Fail;

/// The coins that a host has.
const COINS: [(u8, u128); 3] = [(9, 3), (1, 5), (2, 3)];

fn host_coins() -> [Coin; 3] {
    let [(a, first), (b, second), (c, third)] = COINS;
    [coin(a, first), coin(b, second), coin(c, third)]
}

#[test]
fn the_fewest_coins_by_falling_value_are_chosen(rt: HostRuntime) -> Result<(), Fail> {
    let alloc = rt.alloc();
    let coins = host_coins();
    let chosen = choose(alloc, &coins, 6).ok().ok_or("enough")?;
    let wanted: [Hash; 2] = [[1; 32], [2; 32]];
    assert!(rt; chosen.as_slice() == wanted.as_slice());
    let added = add_host_part(alloc, 6, &coins, &SETTINGS)
        .ok()
        .ok_or("enough")?;
    let change = added.outputs.get(0).ok_or("a change")?;
    assert_eq!(rt; added.inputs.len(), 2);
    assert_eq!(rt; change.value, 2);
    assert!(rt; change.address == HOST_ADDRESS);
    let none = choose(alloc, &coins, 0).ok().ok_or("nothing is needed")?;
    assert_eq!(rt; none.len(), 0);
    let short = choose(alloc, &coins, 12)
        .err()
        .ok_or("11 are less than 12")?;
    assert_eq!(rt; short, FormFault::NoFunds { need: 12, have: 11 });
    Ok(())
}

/// What the usual run plans: 10 siacoins, and the default fee.
const PLAN: FormPlan = FormPlan {
    amount: 10_000_000_000_000_000_000_000_000,
    collateral: 0,
    fee: 10_000_000_000_000_000_000_000,
    start: 300,
    end: 1_000,
};

#[test]
fn a_formation_is_paid_with_its_tax(rt: HostRuntime) -> Result<(), Fail> {
    let alloc = rt.alloc();
    let coins = [coin(1, 20_000_000_000_000_000_000_000_000)];
    let tx = build_form(alloc, &PLAN, &SETTINGS, &coins, &RENTER)
        .ok()
        .ok_or("enough")?;
    let contract = tx.contracts.get(0).ok_or("a contract")?;
    assert_eq!(rt; contract.payout, 10_561_914_672_216_441_207_070_000);
    let renter = contract.valid.get(0).ok_or("the renter's output")?;
    let host = contract.valid.get(1).ok_or("the host's output")?;
    assert_eq!(rt; renter.value, PLAN.amount);
    assert_eq!(rt; host.value, 150_000_000_000_000_000_000_000);
    let change = tx.coin_outputs.get(0).ok_or("a change")?;
    assert_eq!(rt; change.value, 9_428_085_327_783_558_792_930_000);
    assert_eq!(rt; tx.fees.len(), 1);
    assert_eq!(rt; check_form(alloc, &tx, &RENTER, &SETTINGS), Ok(0));
    Ok(())
}

#[test]
fn a_plan_above_a_currency_is_told_as_the_greatest(rt: HostRuntime) -> Result<(), Fail> {
    let alloc = rt.alloc();
    let plan = FormPlan {
        amount: u128::MAX,
        ..PLAN
    };
    let coins = [coin(1, 7), coin(2, 4)];
    let refused = build_form(alloc, &plan, &SETTINGS, &coins, &RENTER)
        .err()
        .ok_or("too much")?;
    let wanted = FormFault::NoFunds {
        need: u128::MAX,
        have: 11,
    };
    assert_eq!(rt; refused, wanted);
    Ok(())
}
