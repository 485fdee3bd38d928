//! Slots that become free where sectors of a contract are dropped.
ghost use Rattle.std.specs.Prelude.{◌≡◌, ◌++◌, length, map, IfOk, IsTrue, OnOk};
ghost use Rattle.sia_diff.specs.DiffSteps.{is_fit, step_fits};
ghost use Rattle.sia_records.specs.Stored.{step_of};
ghost use Rattle.sia_host.specs.Freeing.{freed_by, slots_after_one};
ghost use Rattle.sia_host.specs.Writing.{dropped, sector_slot};

use sia_kept::Sectors;
use sia_records::Change;
use sia_types::List;
use std::alloc::{AllocError, Global};

/// The slots whose sectors changes drop that are fit, in the order in which they are dropped. The error is want of memory.
pub(crate) fn freed_slots(
    alloc: Global,
    sectors: &Sectors,
    changes: &[Change],
) -> Result<List<u64>, AllocError>
    requires { IsTrue (is_fit (length sectors.now) (map step_of changes.now)) }
    ensures { IfOk result (λ freed. freed ≡ dropped sectors.now changes.now) }
{
    let mut slots = slots_of(alloc, sectors)?;
    let mut freed = List::new(alloc);
    for change in changes {
        free_by(&mut slots, &mut freed, change)?;
    }
    Ok(freed)
}

// The slots of sectors, in order. The error is want of memory.
fn slots_of(alloc: Global, sectors: &Sectors) -> Result<Vec<u64>, AllocError>
    ensures { IfOk result (λ slots. slots.items ≡ map sector_slot sectors.now) }
{
    sectors
        .as_slice()
        .iter()
        .map(|sector| sector.slot)
        .collect(alloc)
}

// Does one change with the slots of sectors, and puts those whose sectors it drops behind the others. The error is want of memory.
fn free_by(slots: &mut Vec<u64>, freed: &mut List<u64>, change: &Change) -> Result<(), AllocError>
    requires { IsTrue (step_fits (length slots.old.items) (step_of change.now)) }
    ensures slots { OnOk result (slots.new.items ≡ slots_after_one slots.old.items change.now) }
    ensures freed { OnOk result (freed.new ≡ freed.old ++ freed_by slots.old.items change.now) }
{
    match change {
        Change::Append { root: _, slot } => slots.push(*slot)?,
        Change::Trim(fewer) => {
            let left = slots.len() - *fewer as usize;
            freed.extend(&slots.as_slice()[left..])?;
            slots.truncate(left);
        }
        Change::Swap(one, other) => slots.swap(*one as usize, *other as usize),
        Change::Set {
            place,
            root: _,
            slot,
        } => {
            freed.push(slots[*place as usize])?;
            slots[*place as usize] = *slot;
        }
    }
    Ok(())
}
