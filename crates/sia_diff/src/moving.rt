//! Moves the old hashes at the touched places by the steps.
ghost use Rattle.std.specs.Prelude.{◌≡◌, ◌<◌, [], IfOk, IsTrue, OnOk, if◌then◌else◌, length, slice_index_or};
ghost use Rattle.std.specs.List.{range_with_len, list_all};
ghost use Rattle.sia_merkle.specs.Roots.{first_hash};
ghost use Rattle.sia_cover.specs.Joined.{count_below};
ghost use Rattle.sia_diff.specs.Chosen.{is_chosen};
ghost use Rattle.sia_diff.specs.Diffs.{hashes_at, spread};
ghost use Rattle.sia_diff.specs.DiffSteps.{after, after_step, step_fits, counted_steps};

use crate::chosen::Chosen;
use crate::steps::DiffStep;
use sia_blake::Hash;
use sia_cover::PlaceSet;
use sia_encoding::List;
use std::alloc::{AllocError, Global};

/// The old hashes at the chosen places, put where they stand and moved by the steps.
pub(crate) fn moved(
    alloc: Global,
    chosen: &Chosen<'_>,
    count: u64,
    leaves: &[Hash],
    steps: &[DiffStep],
) -> Result<List<Hash>, AllocError>
    requires leaves { length leaves.now ≡ count_below (is_chosen chosen.now.old chosen.now.touched.now) count }
    requires fits { IsTrue (list_all (λ counted. step_fits counted.count counted.step) (counted_steps count steps.now)) }
    ensures { IfOk result (λ hashes. hashes ≡ after (spread (is_chosen chosen.now.old chosen.now.touched.now) (range_with_len 0 count) leaves.now) steps.now) }
{
    let mut hashes = spread_out(alloc, chosen, count, leaves)?;
    do_steps(&mut hashes, steps)?;
    Ok(List::from_vec(hashes))
}

/// The old hashes at the chosen places, put where they stand.
fn spread_out(
    alloc: Global,
    chosen: &Chosen<'_>,
    count: u64,
    leaves: &[Hash],
) -> Result<Vec<Hash>, AllocError>
    requires { length leaves.now ≡ count_below (is_chosen chosen.now.old chosen.now.touched.now) count }
    ensures { IfOk result (λ hashes. hashes.items ≡ spread (is_chosen chosen.now.old chosen.now.touched.now) (range_with_len 0 count) leaves.now) }
{
    let mut hashes = Vec::new(alloc);
    for place in 0..count {
        let hash = old_hash(chosen, count, leaves, place);
        hashes.push(hash)?;
    }
    Ok(hashes)
}

/// The old hash at a chosen place. At another one, which no step moves, stands the root of nothing.
fn old_hash(chosen: &Chosen<'_>, count: u64, leaves: &[Hash], place: u64) -> Hash
    requires leaves { length leaves.now ≡ count_below (is_chosen chosen.now.old chosen.now.touched.now) count }
    requires place { place < count }
    ensures { result ≡ (if is_chosen chosen.now.old chosen.now.touched.now place then slice_index_or leaves.now (count_below (is_chosen chosen.now.old chosen.now.touched.now) place) [] else first_hash []) }
{
    if chosen.contains(place) {
        leaves[chosen.below(place) as usize]
    } else {
        [0; 32]
    }
}

/// Does all steps, in order.
fn do_steps(hashes: &mut Vec<Hash>, steps: &[DiffStep]) -> Result<(), AllocError>
    requires { IsTrue (list_all (λ counted. step_fits counted.count counted.step) (counted_steps (length hashes.old.items) steps.now)) }
    ensures { OnOk result (hashes.new.items ≡ after hashes.old.items steps.now) }
{
    for step in steps {
        do_step(hashes, step)?;
    }
    Ok(())
}

/// Does one step.
fn do_step(hashes: &mut Vec<Hash>, step: &DiffStep) -> Result<(), AllocError>
    requires { IsTrue (step_fits (length hashes.old.items) step.now) }
    ensures { OnOk result (hashes.new.items ≡ after_step hashes.old.items step.now) }
{
    match step {
        DiffStep::Append(hash) => hashes.push(*hash)?,
        DiffStep::Trim(fewer) => hashes.truncate(hashes.len() - *fewer as usize),
        DiffStep::Swap(i, j) => hashes.swap(*i as usize, *j as usize),
        DiffStep::Set(i, hash) => hashes[*i as usize] = *hash,
    }
    Ok(())
}

/// The hashes at the chosen places of a list, in order.
pub(crate) fn hashes_chosen(
    alloc: Global,
    chosen: &Chosen<'_>,
    hashes: &[Hash],
) -> Result<List<Hash>, AllocError>
    ensures { IfOk result (λ inner. inner ≡ hashes_at (is_chosen chosen.now.old chosen.now.touched.now) hashes.now (length hashes.now)) }
{
    let mut inner = List::new(alloc);
    for (place, hash) in hashes.iter().enumerate() {
        if chosen.contains(place as u64) {
            inner.push(*hash)?;
        }
    }
    Ok(inner)
}
