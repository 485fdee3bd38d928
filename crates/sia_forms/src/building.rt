//! The transactions by which a renter forms or renews a contract.
ghost use Rattle.std.specs.Prelude.{◌≡◌, ℕ, ◌+◌, ◌-◌, ◌^◌, ◌<◌, ◌≤◌, max, None, IfOk, IfErr, IfSome};
ghost use Rattle.sia_rules.specs.Amounts.{capped};
ghost use Rattle.sia_forms.specs.declared.fault.FormFault.TheVariants as form_fault;
ghost use Rattle.sia_forms.specs.Building.{IsBuilt, IsFunded, IsNotBuilt, fee_entries as fee_entries_of, form_outset, planned_contract as planned_contract_so, renew_outset};
ghost use Rattle.sia_forms.specs.Choices.{worth_of};

use crate::fault::FormFault;
use crate::funding::fund;
use crate::parties::{ZERO, both_address, own_address};
use crate::plan::{FormPlan, Outset};
use crate::renewing::{clearing, least_renewed, risk_of};
use sia_blake::Hash;
use sia_rules::payout_for;
use sia_types::{Coin, CoinOutput, FileContract, List, Revision, Settings, Transaction};
use std::alloc::{AllocError, Global};

/// The transaction by which a renter forms a contract under a host's settings. Its coins are of the renter's one key; they bring
/// the payout and the fee but for the collateral, which the host brings, and the change goes to the renter's address.
///
/// # Errors
/// [`FormFault::NoFunds`] exactly where all coins together are worth less than is needed; or where the payout or the need is
/// above 2^128 - 1, which is then told as the need. Or want of memory.
pub fn build_form(
    alloc: Global,
    plan: &FormPlan,
    settings: &Settings,
    coins: &[Coin],
    renter_key: &[u8; 32],
) -> Result<Transaction, FormFault>
    ensures built { IfOk result (IsBuilt plan.now settings.now (form_outset plan.now settings.now) coins.now renter_key.now) }
    ensures refused { IfErr result (IsNotBuilt plan.now (form_outset plan.now settings.now).host_value coins.now) }
{
    let Some(host_value) = settings.prices.contract_price.checked_add(plan.collateral) else {
        return Err(too_much(coins));
    };
    let outset = Outset {
        size: 0,
        root: ZERO,
        revisions: List::new(alloc),
        host_value,
        risk: 0,
    };
    build(alloc, plan, settings, coins, renter_key, outset)
}

/// The transaction by which a renter renews the contract with this newest revision: it clears that one, and forms one that begins
/// with what it stores.
///
/// # Errors
/// As [`build_form`] has it.
pub fn build_renew(
    alloc: Global,
    plan: &FormPlan,
    settings: &Settings,
    coins: &[Coin],
    renter_key: &[u8; 32],
    newest: &Revision,
) -> Result<Transaction, FormFault>
    ensures built { IfOk result (IsBuilt plan.now settings.now (renew_outset plan.now settings.now newest.now) coins.now renter_key.now) }
    ensures refused { IfErr result (IsNotBuilt plan.now (renew_outset plan.now settings.now newest.now).host_value coins.now) }
{
    let Some(least) = least_renewed(settings, plan.end, newest) else {
        return Err(too_much(coins));
    };
    let Some(host_value) = least.checked_add(plan.collateral) else {
        return Err(too_much(coins));
    };
    let mut revisions = List::new(alloc);
    revisions.push(clearing(alloc, newest)?)?;
    let root = newest.root;
    let outset = Outset {
        size: newest.size,
        root,
        revisions,
        host_value,
        risk: risk_of(settings, plan.end, newest, host_value),
    };
    build(alloc, plan, settings, coins, renter_key, outset)
}

// What a contract is paid in all, and what the renter's coins have to bring.
#[derive(Clone, Copy)]
struct Bill {
    payout: u128,
    need: u128,
}

// The transaction of a plan.
#[tactic(auto, unfolding(crate::specs::Building::planned_transaction))]
fn build(
    alloc: Global,
    plan: &FormPlan,
    settings: &Settings,
    coins: &[Coin],
    renter_key: &[u8; 32],
    outset: Outset,
) -> Result<Transaction, FormFault>
    requires collateral { plan.now.collateral ≤ outset.host_value }
    requires risk { outset.risk ≤ outset.host_value }
    ensures built { IfOk result (IsBuilt plan.now settings.now outset coins.now renter_key.now) }
    ensures refused { IfErr result (IsNotBuilt plan.now outset.host_value coins.now) }
{
    let Some(bill) = bill_of(plan, outset.host_value) else {
        return Err(too_much(coins));
    };
    let home = own_address(alloc, renter_key)?;
    let added = fund(alloc, coins, bill.need, renter_key, &home)?;
    let mut contracts = List::new(alloc);
    contracts.push(planned_contract(alloc, plan, settings, &outset, renter_key, bill.payout)?)?;
    Ok(Transaction {
        coin_inputs: added.inputs,
        coin_outputs: added.outputs,
        contracts,
        revisions: outset.revisions,
        proofs: List::new(alloc),
        fund_inputs: List::new(alloc),
        fund_outputs: List::new(alloc),
        fees: fee_entries(alloc, plan.fee)?,
        notes: List::new(alloc),
        signatures: List::new(alloc),
    })
}

// The payout and the need of a plan, or none where a currency doesn't hold one of them.
fn bill_of(plan: &FormPlan, host_value: u128) -> Option<Bill>
    requires { plan.now.collateral ≤ host_value }
    ensures found { IfSome result (λ bill. IsFunded plan.now host_value bill.payout bill.need) }
    ensures none { result ≡ None → (payout need : ℕ) → IsFunded plan.now host_value payout need → 2 ^ 128 ≤ max payout need }
{
    let left = plan.amount.checked_add(host_value)?;
    let payout = payout_for(left)?;
    let need = (payout - plan.collateral).checked_add(plan.fee)?;
    Some(Bill { payout, need })
}

// The contract of a plan.
#[tactic(auto, unfolding(crate::specs::Building::planned_contract))]
fn planned_contract(
    alloc: Global,
    plan: &FormPlan,
    settings: &Settings,
    outset: &Outset,
    renter_key: &[u8; 32],
    payout: u128,
) -> Result<FileContract, AllocError>
    requires { outset.now.risk ≤ outset.now.host_value }
    ensures { IfOk result (λ contract. contract ≡ planned_contract_so plan.now settings.now outset.now renter_key.now payout) }
{
    let address = own_address(alloc, renter_key)?;
    let host_address = settings.address;
    let renter = CoinOutput {
        value: plan.amount,
        address,
    };
    let host = CoinOutput {
        value: outset.host_value,
        address: host_address,
    };
    let missed_host = CoinOutput {
        value: outset.host_value - outset.risk,
        address: host_address,
    };
    let void = CoinOutput {
        value: outset.risk,
        address: ZERO,
    };
    let root = outset.root;
    Ok(FileContract {
        size: outset.size,
        root,
        start: plan.start,
        end: plan.end,
        payout,
        valid: List::from_slice(alloc, &[renter, host])?,
        missed: List::from_slice(alloc, &[renter, missed_host, void])?,
        address: both_address(alloc, renter_key, &settings.host_key)?,
        number: 0,
    })
}

// The fee, and none of 0.
fn fee_entries(alloc: Global, fee: u128) -> Result<List<u128>, AllocError>
    ensures { IfOk result (λ fees. fees ≡ fee_entries_of fee) }
{
    let mut fees = List::new(alloc);
    if fee > 0 {
        fees.push(fee)?;
    }
    Ok(fees)
}

// That a plan is above what a currency holds.
fn too_much(coins: &[Coin]) -> FormFault
    ensures { result ≡ form_fault.NoFunds (2 ^ 128 - 1) (capped (worth_of coins.now)) }
{
    let mut have: u128 = 0;
    for coin in coins {
        have = have.saturating_add(coin.value);
    }
    FormFault::NoFunds {
        need: u128::MAX,
        have,
    }
}
