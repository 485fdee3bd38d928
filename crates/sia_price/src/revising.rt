//! Revisions that pay exactly for a call.
ghost use Rattle.std.specs.Prelude.{◌≡◌, ◌+◌, ◌-◌, ◌^◌, ◌<◌, ◌≤◌, length, slice_index, IfOk};
ghost use Rattle.sia_price.specs.Payments.{HasBothParties, HasBoundedSums, least_kept, paying_missed, paying_valid, paying_revision, revision_with, with_values, values_of};

use crate::payment::{missed_values, valid_values};
use crate::priced::Cost;
use sia_types::{CoinOutput, Item, List, Revision};
use std::alloc::{AllocError, Global};

/// The revision that pays exactly for a call: what is due goes from the renter's outputs to the host's valid one; of the missed
/// ones the host keeps its value with the bandwidth part, less its collateral as far as they go, and the void takes the rest.
/// `None` exactly where the renter's valid or missed value is below what is due. The one error is want of memory.
#[tactic(auto, unfolding(crate::specs::Payments::paying_revision))]
pub fn revise(
    alloc: Global,
    old: &Revision,
    number: u64,
    size: u64,
    root: &[u8; 32],
    cost: &Cost,
) -> Result<Option<Revision>, AllocError>
    requires parties { HasBothParties old.now }
    requires sums { HasBoundedSums old.now }
    ensures { IfOk result (λ revision. revision ≡ paying_revision old.now number size root.now cost.now) }
{
    let due = cost.due();
    let valid = valid_values(old);
    let missed = missed_values(old);
    if valid[0] < due || missed[0] < due {
        return Ok(None);
    }
    let kept = kept_of(missed[1], cost);
    let paid_valid = [valid[0] - due, valid[1] + due];
    let paid_missed = [missed[0] - due, kept, missed[2] + due + missed[1] - kept];
    let revision = with_terms(alloc, old, number, size, root, &paid_valid, &paid_missed)?;
    Ok(Some(revision))
}

/// The revision with a new number, size, root and values, and all else as it was; an output for which there is no value stays. Its
/// error is want of memory.
#[tactic(auto, unfolding(crate::specs::Payments::revision_with))]
pub fn with_terms(
    alloc: Global,
    old: &Revision,
    number: u64,
    size: u64,
    root: &[u8; 32],
    valid: &[u128],
    missed: &[u128],
) -> Result<Revision, AllocError>
    ensures { IfOk result (λ revision. revision ≡ revision_with old.now number size root.now valid.now missed.now) }
{
    Ok(Revision {
        parent: old.parent.copy(alloc)?,
        conditions: old.conditions.copy(alloc)?,
        number,
        size,
        root: root.copy(alloc)?,
        start: old.start,
        end: old.end,
        valid: outputs_with(alloc, old.valid.as_slice(), valid)?,
        missed: outputs_with(alloc, old.missed.as_slice(), missed)?,
        address: old.address.copy(alloc)?,
    })
}

// What the host keeps of its missed value, which a currency holds.
fn kept_of(missed: u128, cost: &Cost) -> u128
    requires { missed + cost.now.bandwidth < 2 ^ 128 }
    ensures { result ≡ least_kept missed cost.now }
{
    (missed + cost.bandwidth).saturating_sub(cost.collateral)
}

// Outputs with new values.
fn outputs_with(
    alloc: Global,
    outputs: &[CoinOutput],
    values: &[u128],
) -> Result<List<CoinOutput>, AllocError>
    ensures { IfOk result (λ list. list ≡ with_values outputs.now values.now) }
{
    let mut changed = List::new(alloc);
    for (i, output) in outputs.iter().enumerate() {
        changed.push(with_value(output, values, i))?;
    }
    Ok(changed)
}

// An output with the value at a place, or as it is where there is none.
fn with_value(output: &CoinOutput, values: &[u128], place: usize) -> CoinOutput
    ensures given { place < length values.now → result ≡ record output.now { value = slice_index values.now place } }
    ensures none { length values.now ≤ place → result ≡ output.now }
{
    if place < values.len() {
        CoinOutput {
            value: values[place],
            ..*output
        }
    } else {
        *output
    }
}
