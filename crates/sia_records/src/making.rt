//! What the actions of a write make of the sectors that were fetched for them: done action by action, outside of any turn.
ghost use Rattle.std.specs.Prelude.{◌≡◌, ◌+◌, [], ◌∷◌, ◌++◌, IfOk, List, ℕ, length, drop, true, false};
ghost use Rattle.std.specs.Vec.Iter.{into_iter_items};
ghost use Rattle.sia_records.specs.Making.{IsMade, Adds};

use crate::fitting::range_fits;
use crate::update::update;
use sia_diff::DiffStep;
use sia_encoding::{Blob, Item, List};
use sia_merkle::root;
use sia_rhp::Action;
use sia_types::UpdateProof;
use std::alloc::{AllocError, Global};
use std::vec::IntoIter;

/// What a write makes: a step for each action, and for each update the sector after it and its proof, in order.
#[derive(Drop)]
pub(crate) struct Made {
    pub steps: List<DiffStep>,
    pub changed: List<Blob>,
    pub proofs: List<UpdateProof>,
}

impl Made {
    /// The same once more. Its error is want of memory.
    pub(crate) fn copy(&self, alloc: Global) -> Result<Made, AllocError>
        ensures { IfOk result (λ made. made ≡ self.now) }
    {
        Ok(Made {
            steps: self.steps.copy(alloc)?,
            changed: Item::copy(&self.changed, alloc)?,
            proofs: Item::copy(&self.proofs, alloc)?,
        })
    }
}

/// Does one action; an update takes the next of the sectors. `false` where it is an update and no sector is left, or its range isn't
/// fit in that sector.
fn add(
    alloc: Global,
    made: &mut Made,
    action: &Action,
    fetched: &mut IntoIter<Blob, Global>,
) -> Result<bool, AllocError>
    ensures { IfOk result (λ done. Adds action.now done (into_iter_items fetched.old) (into_iter_items fetched.new) made.old made.new) }
{
    match action {
        Action::Append(bytes) => {
            made.steps.push(DiffStep::Append(root(bytes.as_slice())))?;
        }
        Action::Trim(count) => made.steps.push(DiffStep::Trim(*count))?,
        Action::Swap(one, other) => made.steps.push(DiffStep::Swap(*one, *other))?,
        Action::Update {
            place,
            offset,
            bytes,
        } => {
            let Some(old) = fetched.next() else {
                return Ok(false);
            };
            if !range_fits(old.len() as u64, *offset, bytes.len() as u64) {
                return Ok(false);
            }
            let updated = update(alloc, old, *offset, bytes.as_slice())?;
            let step = DiffStep::Set(*place, root(updated.sector.as_slice()));
            made.steps.push(step)?;
            made.changed.push(updated.sector)?;
            made.proofs.push(updated.proof)?;
        }
    }
    Ok(true)
}

/// What actions make, where there is a sector for each update in which its range is fit, and none besides. Its error is want of
/// memory.
pub(crate) fn make(
    alloc: Global,
    actions: &[Action],
    fetched: List<Blob>,
) -> Result<Option<Made>, AllocError>
    ensures { IfOk result (λ made. IsMade actions.now fetched made) }
{
    let mut made = Made {
        steps: List::new(alloc),
        changed: List::new(alloc),
        proofs: List::new(alloc),
    };
    let mut rest = fetched.into_vec().into_iter();
    for action in actions {
        if !add(alloc, &mut made, action, &mut rest)? {
            return Ok(None);
        }
    }
    if rest.len() > 0 {
        return Ok(None);
    }
    Ok(Some(made))
}
