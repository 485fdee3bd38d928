//! The least slots that a host's sectors leave free.
ghost use Rattle.std.specs.Prelude.{◌≡◌, ◌+◌, ◌^◌, ◌<◌, ◌++◌, map, length, IfOk, OnOk};
ghost use Rattle.std.specs.List.{filter, filter_map, range_with_len};
ghost use Rattle.sia_kept.specs.State.{live_slots as live_slots_so};
ghost use Rattle.sia_host.specs.Reporting.{slots_among as slots_among_so};
ghost use Rattle.sia_host.specs.Marks.{AreMarked, is_unmarked};
ghost use Rattle.sia_host.specs.Replaying.{least_free as least_free_so, slot_taken as slot_taken_so, takes_least as takes_least_so};
ghost use Rattle.sia_records.specs.Stored.{Stored};

use crate::host_core::Core;
use sia_blake::Hash;
use sia_kept::{Sector, find_contract};
use sia_records::Change;
use std::alloc::{AllocError, Global};

impl Core {
    /// Whether the slots that changes take are the least free ones, in order. Where one is taken, all sectors of the host are walked
    /// once. The error is want of memory.
    pub(crate) fn takes_least(&self, alloc: Global, changes: &[Change]) -> Result<bool, AllocError>
        ensures { IfOk result (λ least. least ≡ takes_least_so self.now changes.now) }
    {
        let taken = slots_taken(alloc, changes)?;
        if taken.is_empty() {
            return Ok(true);
        }
        let live = self.live_slots(alloc)?;
        let free = least_free(alloc, live.as_slice(), taken.len())?;
        Ok(taken.as_slice() == free.as_slice())
    }

    /// The slots that have sectors: contract by contract, those of each in the order of its sectors. The error is want of memory.
    pub fn live_slots(&self, alloc: Global) -> Result<Vec<u64>, AllocError>
        ensures { IfOk result (λ live. live.items ≡ live_slots_so self.now.state) }
    {
        let mut live = Vec::new(alloc);
        for contract in self.contracts.as_slice() {
            push_slots(&mut live, contract.sectors.as_slice())?;
        }
        Ok(live)
    }

    /// The slots of a contract's sectors, in order; none where the host doesn't know the contract. The error is want of memory.
    pub fn slots_of(&self, alloc: Global, contract: &Hash) -> Result<Vec<u64>, AllocError>
        ensures { IfOk result (λ slots. slots.items ≡ slots_among_so contract.now self.now.state.contracts) }
    {
        let mut slots = Vec::new(alloc);
        match find_contract(&self.contracts, contract) {
            None => Ok(slots),
            Some(kept) => {
                push_slots(&mut slots, kept.sectors.as_slice())?;
                Ok(slots)
            }
        }
    }
}

// Puts the slots of sectors behind others. The error is want of memory.
fn push_slots(live: &mut Vec<u64>, sectors: &[Sector]) -> Result<(), AllocError>
    ensures { OnOk result (live.new.items ≡ live.old.items ++ map (λ (s : Stored). s.slot) sectors.now) }
{
    for sector in sectors {
        live.push(sector.slot)?;
    }
    Ok(())
}

// The slots that changes take, in order. The error is want of memory.
fn slots_taken(alloc: Global, changes: &[Change]) -> Result<Vec<u64>, AllocError>
    ensures { IfOk result (λ taken. taken.items ≡ filter_map slot_taken_so changes.now) }
{
    changes
        .iter()
        .filter_map(|change| slot_taken(change))
        .collect(alloc)
}

// The slot that a change takes, if it takes one.
fn slot_taken(change: &Change) -> Option<u64>
    ensures { result ≡ slot_taken_so change.now }
{
    match change {
        Change::Append { root: _, slot } => Some(*slot),
        Change::Trim(_) => None,
        Change::Swap(_, _) => None,
        Change::Set {
            place: _,
            root: _,
            slot,
        } => Some(*slot),
    }
}

// The least slots without a sector, so many. The error is want of memory.
fn least_free(alloc: Global, live: &[u64], count: usize) -> Result<Vec<u64>, AllocError>
    requires { length live.now + count < 2 ^ 64 }
    ensures { IfOk result (λ free. free.items ≡ least_free_so live.now count) }
{
    let mut marks = vec![in alloc; false; live.len() + count]?;
    mark(marks.as_mut_slice(), live);
    let mut free = unmarked(alloc, marks.as_slice())?;
    free.truncate(count);
    Ok(free)
}

// Marks places, as far as there are marks.
fn mark(marks: &mut [bool], places: &[u64])
    ensures size { length marks.new ≡ length marks.old }
    ensures marked { AreMarked marks.old marks.new places.now }
{
    for place in places {
        if *place < marks.len() as u64 {
            marks[*place as usize] = true;
        }
    }
}

// The places without a mark. The error is want of memory.
fn unmarked(alloc: Global, marks: &[bool]) -> Result<Vec<u64>, AllocError>
    ensures { IfOk result (λ places. places.items ≡ filter (is_unmarked marks.now) (range_with_len 0 (length marks.now))) }
{
    let mut places = Vec::new(alloc);
    for (place, marked) in marks.iter().enumerate() {
        if !*marked {
            places.push(place as u64)?;
        }
    }
    Ok(places)
}
