//! Which places the steps of a diff touch, and whether the steps are fit.
ghost use Rattle.std.specs.Prelude.{◌≡◌, ◌≤◌, IfOk, IsTrue, if◌then◌else◌, length, nat_eq, replicate};
ghost use Rattle.std.specs.List.{range_with_len, list_all, filter};
ghost use Rattle.sia_merkle.specs.Segments.{places_between};
ghost use Rattle.sia_diff.specs.Marks.{AreCounted, AreCounts, HasCounts, is_counted, is_counted_once};
ghost use Rattle.sia_diff.specs.DiffSteps.{is_fit, step_fits, step_touches, touched_places, counted_steps};

use crate::steps::DiffStep;
use sia_encoding::List;
use sia_encoding::limits::{CONTRACT_SECTORS, TOUCHED_PLACES};
use std::alloc::{AllocError, Global};

/// The places of a list of `n` hashes that the steps name or remove, in ascending order. `None` where the steps aren't fit
/// for so many hashes. Its error is want of memory.
pub fn touched(alloc: Global, n: u64, steps: &[DiffStep]) -> Result<Option<List<u64>>, AllocError>
    ensures { IfOk result (λ places. places ≡ (if is_fit n steps.now then Some (touched_places n steps.now) else None)) }
{
    if n > CONTRACT_SECTORS || !each_fits(n, steps) {
        return Ok(None);
    }
    let counts = touch_counts(alloc, n, steps)?;
    if !are_sets_alone(counts.as_slice(), steps) {
        return Ok(None);
    }
    let places = places_counted(alloc, counts.as_slice())?;
    if places.len() as u64 > TOUCHED_PLACES {
        return Ok(None);
    }
    Ok(Some(places))
}

/// The same of steps that are fit.
pub(crate) fn touched_by_fit(
    alloc: Global,
    n: u64,
    steps: &[DiffStep],
) -> Result<List<u64>, AllocError>
    requires { IsTrue (is_fit n steps.now) }
    ensures { IfOk result (λ places. places ≡ touched_places n steps.now) }
{
    let counts = touch_counts(alloc, n, steps)?;
    places_counted(alloc, counts.as_slice())
}

/// Whether each step can be done when it comes.
fn each_fits(n: u64, steps: &[DiffStep]) -> bool
    requires { n ≤ CONTRACT_SECTORS }
    ensures { result ≡ list_all (λ counted. step_fits counted.count counted.step) (counted_steps n steps.now) }
{
    let mut count = n;
    for step in steps {
        if !step.fits(count) {
            return false;
        }
        count = step.count_after(count);
    }
    true
}

/// How often each place is touched, up to two.
fn touch_counts(alloc: Global, n: u64, steps: &[DiffStep]) -> Result<List<u8>, AllocError>
    requires count { n ≤ CONTRACT_SECTORS }
    requires fits { IsTrue (list_all (λ counted. step_fits counted.count counted.step) (counted_steps n steps.now)) }
    ensures { IfOk result (λ counts. HasCounts counts n steps.now) }
{
    let mut counts = vec![in alloc; 0u8; n as usize]?;
    count_steps(&mut counts, steps);
    Ok(List::from_vec(counts))
}

/// Counts for each place, from 0, how many steps touch it, up to two.
fn count_steps(counts: &mut [u8], steps: &[DiffStep])
    requires none { counts.old ≡ replicate (length counts.old) 0 }
    requires count { length counts.old ≤ CONTRACT_SECTORS }
    requires fits { IsTrue (list_all (λ counted. step_fits counted.count counted.step) (counted_steps (length counts.old) steps.now)) }
    ensures { HasCounts counts.new (length counts.old) steps.now }
{
    let mut count = counts.len() as u64;
    for step in steps {
        count_step(counts, count, step);
        count = step.count_after(count);
    }
}

/// Counts each place that a step touches once more.
fn count_step(counts: &mut [u8], count: u64, step: &DiffStep)
    requires counts { AreCounts counts.old }
    requires fits { IsTrue (step_fits count step.now) }
    ensures more { AreCounted (step_touches count step.now) counts.old counts.new }
    ensures counts { AreCounts counts.new }
{
    match step {
        DiffStep::Append(_) => {}
        DiffStep::Trim(fewer) => count_part(counts, count - *fewer, count),
        DiffStep::Swap(i, j) => {
            count_place(counts, *i);
            if *i != *j {
                count_place(counts, *j);
            }
        }
        DiffStep::Set(i, _) => count_place(counts, *i),
    }
}

/// Counts each place from `start` to `end` once more.
fn count_part(counts: &mut [u8], start: u64, end: u64)
    requires counts { AreCounts counts.old }
    ensures more { AreCounted (places_between start end) counts.old counts.new }
    ensures counts { AreCounts counts.new }
{
    for place in start..end.min(counts.len() as u64) {
        count_place(counts, place);
    }
}

/// Counts a place once more, if it is an old one.
fn count_place(counts: &mut [u8], place: u64)
    requires counts { AreCounts counts.old }
    ensures more { AreCounted (λ other. nat_eq other place) counts.old counts.new }
    ensures counts { AreCounts counts.new }
{
    let place = place as usize;
    if place < counts.len() && counts[place] < 2 {
        counts[place] += 1;
    }
}

/// Whether each place that is set is an old one, and was counted once.
fn are_sets_alone(counts: &[u8], steps: &[DiffStep]) -> bool
    ensures { result ≡ list_all (is_counted_once counts.now) steps.now }
{
    steps.iter().all(|step| is_set_alone(counts, step))
}

/// The same of one step.
fn is_set_alone(counts: &[u8], step: &DiffStep) -> bool
    ensures { result ≡ is_counted_once counts.now step.now }
{
    match step {
        DiffStep::Set(i, _) => {
            let place = *i as usize;
            place < counts.len() && counts[place] == 1
        }
        _ => true,
    }
}

/// The places that were counted.
fn places_counted(alloc: Global, counts: &[u8]) -> Result<List<u64>, AllocError>
    ensures { IfOk result (λ places. places ≡ filter (is_counted counts.now) (range_with_len 0 (length counts.now))) }
{
    let mut places = List::new(alloc);
    for (place, count) in counts.iter().enumerate() {
        if *count > 0 {
            places.push(place as u64)?;
        }
    }
    Ok(places)
}
