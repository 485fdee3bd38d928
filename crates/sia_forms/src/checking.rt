//! What a host asks of the transaction that forms or renews a contract.
ghost use Rattle.std.specs.Prelude.{◌≡◌, ◌<◌, ◌^◌, option_copied, IfOk};
ghost use Rattle.std.specs.Result.{result_ok};
ghost use Rattle.sia_encoding.specs.Answer.{Answers, unless};
ghost use Rattle.sia_types.specs.FileContracts.{revision};
ghost use Rattle.sia_forms.specs.Checks.{begins_with as begins_so, collateral_within as collateral_so, form_answer, form_told, has_no_other_part as has_none, host_value_of as host_value_so, is_cleared as is_cleared_so, is_spelled_as as is_spelled_so, keeps_window as keeps_so, one_contract, pays_parties as pays_so, renew_answer, terms_fault};
ghost use Rattle.sia_forms.specs.Renewing.{least_renewed as least_renewed_so};

use crate::fault::FormFault;
use crate::parties::{ZERO, both_address};
use crate::renewing::{clearing, least_renewed, risk_of};
use sia_blake::Hash;
use sia_types::{Blob, CoinOutput, FileContract, Item, List, Revision, Settings, Transaction};
use std::alloc::{AllocError, Global};

/// The collateral, in hastings, that the host is to give in the contract that a transaction forms with a renter.
///
/// # Errors
/// [`FormFault::BadContract`] with the first point that fails. 0: there is one contract, and no revision, proof, siafund part, note
/// or signature. 1: it begins with size 0, root zero and number 0, under the renter's key and then the host's, both required.
/// 2: it pays the renter and the host where it is proved, and the same and nothing to the void where it isn't, each at one
/// address, the host's and the void's at theirs. 3: its window begins behind the next height, is as long as the host's window at
/// least, and ends within the host's duration. 4: the host's valid value is the contract price at least, and what is above it,
/// the collateral, no more than the host's greatest. Or want of memory.
#[tactic(auto, unfolding(crate::specs::Checks::form_answer, crate::specs::Checks::contract_answer))]
pub fn check_form(
    alloc: Global,
    tx: &Transaction,
    renter_key: &[u8; 32],
    settings: &Settings,
) -> Result<u128, FormFault>
    ensures { Answers (λ collateral. collateral) form_told result (form_answer tx.now renter_key.now settings.now) }
{
    let fit = tx.revisions.is_empty() && has_no_other_part(tx);
    let Some(contract) = only_contract(fit, &tx.contracts) else {
        return Err(FormFault::BadContract { point: 0 });
    };
    let address = both_address(alloc, renter_key, &settings.host_key)?;
    let begins = begins_with(contract, 0, &ZERO, &address);
    check_terms(settings, begins, 0, contract)?;
    let host_value = host_value_of(&contract.valid);
    collateral_within(settings, settings.prices.contract_price, host_value)
}

/// The collateral, in hastings, that the host is to give in the contract by which a transaction renews the one with this newest
/// revision.
///
/// # Errors
/// [`FormFault::BadContract`] as [`check_form`] has it, with these changes. 0: there is one revision, which clears the newest
/// one. 1: size, root and unlock hash are the newest ones. 2: where the contract isn't proved, price and collateral for the bytes
/// that are kept longer go from the host to the void, and no more than the host's valid value. 4: the host's valid value is the
/// contract price and the price for the bytes that are kept longer at least. Or want of memory.
#[tactic(auto, unfolding(crate::specs::Checks::renew_answer, crate::specs::Checks::contract_answer))]
pub fn check_renew(
    alloc: Global,
    tx: &Transaction,
    newest: &Revision,
    settings: &Settings,
) -> Result<u128, FormFault>
    ensures { Answers (λ collateral. collateral) form_told result (renew_answer tx.now newest.now settings.now) }
{
    let fit = is_cleared(alloc, newest, &tx.revisions)? && has_no_other_part(tx);
    let Some(contract) = only_contract(fit, &tx.contracts) else {
        return Err(FormFault::BadContract { point: 0 });
    };
    let host_value = host_value_of(&contract.valid);
    let begins = begins_with(contract, newest.size, &newest.root, &newest.address);
    let risk = risk_of(settings, contract.end, newest, host_value);
    check_terms(settings, begins, risk, contract)?;
    renewed_collateral(settings, contract.end, newest, host_value)
}

// The one contract of a transaction whose other parts are fit.
fn only_contract(fit: bool, contracts: &List<FileContract>) -> Option<&FileContract>
    ensures { option_copied result ≡ result_ok (one_contract fit contracts.now) }
{
    if !fit || contracts.len() != 1 {
        return None;
    }
    contracts.get(0)
}

// The first of the points 1 to 3 that fails.
#[tactic(auto, unfolding(crate::specs::Checks::terms_fault))]
fn check_terms(
    settings: &Settings,
    begins: bool,
    risk: u128,
    contract: &FileContract,
) -> Result<(), FormFault>
    ensures { Answers (λ _. tt) form_told result (unless (terms_fault settings.now begins risk contract.now)) }
{
    if !begins {
        return Err(FormFault::BadContract { point: 1 });
    }
    if !pays_parties(settings, risk, &contract.valid, &contract.missed) {
        return Err(FormFault::BadContract { point: 2 });
    }
    if !keeps_window(settings, contract) {
        return Err(FormFault::BadContract { point: 3 });
    }
    Ok(())
}

// The collateral above the host's least value, or point 4.
#[tactic(auto, unfolding(crate::specs::Checks::collateral_within))]
fn collateral_within(settings: &Settings, least: u128, host_value: u128) -> Result<u128, FormFault>
    ensures { Answers (λ collateral. collateral) form_told result (collateral_so settings.now least host_value) }
{
    if host_value < least || host_value - least > settings.max_collateral {
        return Err(FormFault::BadContract { point: 4 });
    }
    Ok(host_value - least)
}

// The collateral above the host's least value in a contract that ends at a height and renews another, or point 4.
#[tactic(auto, unfolding(crate::specs::Checks::collateral_within))]
fn renewed_collateral(
    settings: &Settings,
    end: u64,
    newest: &Revision,
    host_value: u128,
) -> Result<u128, FormFault>
    ensures { Answers (λ collateral. collateral) form_told result (collateral_so settings.now (least_renewed_so settings.now end newest.now) host_value) }
{
    match least_renewed(settings, end, newest) {
        Some(least) => collateral_within(settings, least, host_value),
        None => Err(FormFault::BadContract { point: 4 }),
    }
}

// Whether a transaction has nothing but siacoins, fees, contracts and revisions, and isn't signed yet.
fn has_no_other_part(tx: &Transaction) -> bool
    ensures { result ≡ has_none tx.now }
{
    tx.proofs.is_empty()
        && tx.fund_inputs.is_empty()
        && tx.fund_outputs.is_empty()
        && tx.notes.is_empty()
        && tx.signatures.is_empty()
}

/// Whether the one revision clears the newest one. The error is want of memory.
pub fn is_cleared(
    alloc: Global,
    newest: &Revision,
    revisions: &List<Revision>,
) -> Result<bool, AllocError>
    ensures { IfOk result (λ cleared. cleared ≡ is_cleared_so newest.now revisions.now) }
{
    if revisions.len() != 1 {
        return Ok(false);
    }
    let wanted = clearing(alloc, newest)?;
    is_spelled_as(alloc, &revisions.as_slice()[0], &wanted)
}

/// Whether two revisions are spelled alike. The error is want of memory.
pub fn is_spelled_as(alloc: Global, one: &Revision, other: &Revision) -> Result<bool, AllocError>
    ensures { IfOk result (λ same. same ≡ is_spelled_so revision one.now other.now) }
{
    let mut spelled = Blob::new(alloc);
    one.encode(&mut spelled)?;
    let mut wanted = Blob::new(alloc);
    other.encode(&mut wanted)?;
    Ok(spelled.as_slice() == wanted.as_slice())
}

/// Whether a contract begins with these bytes, is new, and has this unlock hash.
pub fn begins_with(contract: &FileContract, size: u64, root: &Hash, address: &Hash) -> bool
    ensures { result ≡ begins_so size root.now address.now contract.now }
{
    contract.size == size
        && contract.root == *root
        && contract.number == 0
        && contract.address == *address
}

/// Whether outputs pay the renter, the host and the void, so much of the host's value being at risk.
pub fn pays_parties(
    settings: &Settings,
    risk: u128,
    valid: &List<CoinOutput>,
    missed: &List<CoinOutput>,
) -> bool
    ensures { result ≡ pays_so settings.now risk valid.now missed.now }
{
    let ([renter, host], [missed_renter, missed_host, void]) = (valid.as_slice(), missed.as_slice())
    else {
        return false;
    };
    missed_renter.address == renter.address
        && host.address == settings.address
        && missed_host.address == settings.address
        && void.address == ZERO
        && missed_renter.value == renter.value
        && missed_host.value == host.value.saturating_sub(risk)
        && void.value == risk
}

// Whether a contract's window is within what the host takes.
fn keeps_window(settings: &Settings, contract: &FileContract) -> bool
    ensures { result ≡ keeps_so settings.now contract.now }
{
    let height = u128::from(settings.height);
    let start = u128::from(contract.start);
    let end = u128::from(contract.end);
    height + 1 < start
        && start + u128::from(settings.window) <= end
        && end <= height + u128::from(settings.max_duration)
}

// The host's valid value, and 0 where there is none.
fn host_value_of(valid: &List<CoinOutput>) -> u128
    ensures { result ≡ host_value_so valid.now }
{
    match valid.get(1) {
        Some(host) => host.value,
        None => 0,
    }
}
