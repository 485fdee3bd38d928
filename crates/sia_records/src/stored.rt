//! What changes do to the list of the roots of a contract's sectors, and where new sectors lie.
ghost use Rattle.std.specs.Prelude.{◌≡◌, IfOk, length, map, slice_index_or};
ghost use Rattle.sia_records.specs.Stored.{brings_sector as brings, change_by, changes_of as changes_told, slots_behind, step_of};

use crate::change::Change;
use sia_diff::DiffStep;
use sia_encoding::List;
use std::alloc::{AllocError, Global};

impl Change {
    /// The step that the change is for the list of the roots.
    pub fn step(&self) -> DiffStep
        ensures { result ≡ step_of self.now }
    {
        match self {
            Change::Append { root, slot: _ } => DiffStep::Append(*root),
            Change::Trim(fewer) => DiffStep::Trim(*fewer),
            Change::Swap(one, other) => DiffStep::Swap(*one, *other),
            Change::Set {
                place,
                root,
                slot: _,
            } => DiffStep::Set(*place, *root),
        }
    }
}

/// The steps that changes are, in order, as they are collected.
fn collected(alloc: Global, changes: &[Change]) -> Result<Vec<DiffStep>, AllocError>
    ensures { IfOk result (λ steps. steps.items ≡ map step_of changes.now) }
{
    changes.iter().map(|change| change.step()).collect(alloc)
}

/// The steps that changes are, in order. Its error is want of memory.
pub fn steps_by(alloc: Global, changes: &[Change]) -> Result<List<DiffStep>, AllocError>
    ensures { IfOk result (λ steps. steps ≡ map step_of changes.now) }
{
    Ok(List::from_vec(collected(alloc, changes)?))
}

/// Whether a step brings a new sector.
fn brings_sector(step: &DiffStep) -> bool
    ensures { result ≡ brings step.now }
{
    match step {
        DiffStep::Append(_) | DiffStep::Set(_, _) => true,
        DiffStep::Trim(_) | DiffStep::Swap(_, _) => false,
    }
}

/// The first of the slots, or 0 where there is none.
fn first_slot(slots: &[u64]) -> u64
    ensures { result ≡ slice_index_or slots.now 0 0 }
{
    if slots.is_empty() { 0 } else { slots[0] }
}

/// The change that a step is, where a new sector lies in the first of the slots.
fn change_at(step: &DiffStep, slots: &[u64]) -> Change
    ensures { result ≡ change_by step.now slots.now }
{
    let slot = first_slot(slots);
    match step {
        DiffStep::Append(root) => Change::Append { root: *root, slot },
        DiffStep::Trim(fewer) => Change::Trim(*fewer),
        DiffStep::Swap(one, other) => Change::Swap(*one, *other),
        DiffStep::Set(place, root) => Change::Set {
            place: *place,
            root: *root,
            slot,
        },
    }
}

/// The slots that are left behind a step.
fn slots_left<'a>(step: &DiffStep, slots: &'a [u64]) -> &'a [u64]
    ensures { result.now ≡ slots_behind step.now slots.now }
{
    if brings_sector(step) && !slots.is_empty() {
        &slots[1..]
    } else {
        slots
    }
}

/// The changes that steps are, in order, where each new sector lies in the next of the slots. Its error is want of memory.
pub fn changes_of(
    alloc: Global,
    steps: &[DiffStep],
    slots: &[u64],
) -> Result<List<Change>, AllocError>
    ensures { IfOk result (λ changes. changes ≡ changes_told steps.now slots.now) }
{
    let mut changes = List::new(alloc);
    let mut rest = slots;
    for step in steps {
        changes.push(change_at(step, rest))?;
        rest = slots_left(step, rest);
    }
    Ok(changes)
}
