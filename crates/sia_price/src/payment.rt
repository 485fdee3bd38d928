//! Whether a revision's values pay for a call (RHP2; siad's modules/negotiate.go).
ghost use Rattle.std.specs.Prelude.{◌≡◌, ℕ, ◌+◌, ◌*◌, ◌^◌, ◌<◌, length, sum, slice_index, nat_lt, ◌==◌, ◌&&◌, not};
ghost use Rattle.sia_encoding.specs.Answer.{Answers, itself, unless};
ghost use Rattle.sia_price.specs.Payments.{HasBothParties, cuts_host, fall, falls_alike, falls_short, has_same_counts as has_same_counts_so, has_same_sums as has_same_sums_so, least_kept, payment_fault, robs_void, values_of};

use crate::priced::Cost;
use sia_types::{CoinOutput, Revision};

/// Why values don't pay for a call.
#[derive(Clone, Copy, Debug, PartialEq, Eq)]
pub enum PayFault {
    /// The renter's valid value falls by less than is due.
    Low {
        /// What is due, in hastings.
        need: u128,
        /// By how much the value falls: by 0 where it rises.
        got: u128,
    },
    /// The values don't belong to the old ones, or aren't what the cost makes of them.
    Unbalanced,
}

/// Whether values of the valid and the missed outputs pay for a call. Where an output or a value isn't there, it counts as 0. It takes
/// no memory.
///
/// # Errors
/// Exactly the first of these: [`PayFault::Unbalanced`] at another count of values, and at another sum of the valid or the
/// missed ones; [`PayFault::Low`] where the renter's valid value doesn't fall by at least what is due; [`PayFault::Unbalanced`] where its
/// missed value doesn't fall by the same, where the host's is below its old one with the bandwidth part, less its collateral as
/// far as they go, or where the void's falls.
#[tactic(auto, unfolding(crate::specs::Payments::payment_fault))]
pub fn check_payment(
    old: &Revision,
    valid: &[u128],
    missed: &[u128],
    cost: &Cost,
) -> Result<(), PayFault>
    ensures { Answers (λ _. tt) itself result (unless (payment_fault old.now valid.now missed.now cost.now)) }
{
    if !has_same_counts(old, valid, missed) || !has_same_sums(old, valid, missed) {
        return Err(PayFault::Unbalanced);
    }
    let old_valid = old.valid.as_slice();
    let old_missed = old.missed.as_slice();
    let due = cost.due();
    let had = value_of_output(old_valid, 0);
    let has = value_at(valid, 0);
    let fall = had.saturating_sub(has);
    if had < has || fall < due {
        return Err(PayFault::Low {
            need: due,
            got: fall,
        });
    }
    if !follows(old_missed, missed, fall, cost) {
        return Err(PayFault::Unbalanced);
    }
    Ok(())
}

/// Whether values are as many as the outputs of a revision. It takes no memory.
pub fn has_same_counts(old: &Revision, valid: &[u128], missed: &[u128]) -> bool
    ensures { result ≡ has_same_counts_so old.now valid.now missed.now }
{
    valid.len() == old.valid.len() && missed.len() == old.missed.len()
}

/// Whether values have the same sums as the outputs of a revision. It takes no memory.
pub fn has_same_sums(old: &Revision, valid: &[u128], missed: &[u128]) -> bool
    ensures { result ≡ has_same_sums_so old.now valid.now missed.now }
{
    has_sum_of(valid, old.valid.as_slice()) && has_sum_of(missed, old.missed.as_slice())
}

// Whether the missed values follow the renter's fall and the cost.
fn follows(old: &[CoinOutput], missed: &[u128], fall: u128, cost: &Cost) -> bool
    ensures { result ≡ ((slice_index (values_of old.now) 0 == slice_index missed.now 0 + fall)
        && (not (nat_lt (slice_index missed.now 1) (least_kept (slice_index (values_of old.now) 1) cost.now))
        && not (nat_lt (slice_index missed.now 2) (slice_index (values_of old.now) 2)))) }
{
    value_of_output(old, 0).checked_sub(value_at(missed, 0)) == Some(fall)
        && !is_below_kept(value_at(missed, 1), value_of_output(old, 1), cost)
        && value_of_output(old, 2) <= value_at(missed, 2)
}

// The value at a place, or 0 where there is none.
fn value_at(values: &[u128], place: usize) -> u128
    ensures { result ≡ slice_index values.now place }
{
    if place < values.len() {
        values[place]
    } else {
        0
    }
}

// The value of the output at a place, or 0 where there is none.
fn value_of_output(outputs: &[CoinOutput], place: usize) -> u128
    ensures { result ≡ slice_index (values_of outputs.now) place }
{
    if place < outputs.len() {
        outputs[place].value
    } else {
        0
    }
}

// Whether a value is below what the host keeps of its missed value.
fn is_below_kept(value: u128, missed: u128, cost: &Cost) -> bool
    ensures { result ≡ nat_lt value (least_kept missed cost.now) }
{
    if cost.bandwidth < cost.collateral {
        return value < missed.saturating_sub(cost.collateral - cost.bandwidth);
    }
    match missed.checked_add(cost.bandwidth - cost.collateral) {
        Some(kept) => value < kept,
        None => true,
    }
}

// Whether values have the sum of outputs.
fn has_sum_of(values: &[u128], outputs: &[CoinOutput]) -> bool
    ensures { result ≡ (sum values.now == sum (values_of outputs.now)) }
{
    wide_sum(values) == wide_value(outputs)
}

// A sum that may have more than 128 bits: how often it passed them, and the rest.
fn wide_sum(values: &[u128]) -> (usize, u128)
    ensures { result.0 * 2 ^ 128 + result.1 ≡ sum values.now }
{
    let mut passed = 0;
    let mut rest: u128 = 0;
    for value in values {
        let (next, over) = rest.overflowing_add(*value);
        if over {
            passed += 1;
        }
        rest = next;
    }
    (passed, rest)
}

// The same of what outputs are worth.
fn wide_value(outputs: &[CoinOutput]) -> (usize, u128)
    ensures { result.0 * 2 ^ 128 + result.1 ≡ sum (values_of outputs.now) }
{
    let mut passed = 0;
    let mut rest: u128 = 0;
    for i in 0..outputs.len() {
        let value = value_of_output(outputs, i);
        let (next, over) = rest.overflowing_add(value);
        if over {
            passed += 1;
        }
        rest = next;
    }
    (passed, rest)
}

/// The values of the two valid outputs: the renter's and the host's.
pub(crate) fn valid_values(revision: &Revision) -> [u128; 2]
    requires { length revision.now.valid ≡ 2 }
    ensures { result ≡ values_of revision.now.valid }
{
    let outputs = revision.valid.as_slice();
    [outputs[0].value, outputs[1].value]
}

/// The values of the three missed outputs: the renter's, the host's and the void's.
pub(crate) fn missed_values(revision: &Revision) -> [u128; 3]
    requires { length revision.now.missed ≡ 3 }
    ensures { result ≡ values_of revision.now.missed }
{
    let outputs = revision.missed.as_slice();
    [outputs[0].value, outputs[1].value, outputs[2].value]
}
