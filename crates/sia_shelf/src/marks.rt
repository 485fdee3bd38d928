//! The marks of all slots of a shelf.
ghost use Rattle.std.specs.Prelude.{◌≡◌, ◌≢◌, ◌↔◌, ◌++◌, ◌+◌, ◌-◌, ◌^◌, ◌<◌, ◌≤◌, map, take, drop, replicate, slice_set, IfOk, IfErr, Err, length};
ghost use Rattle.sia_shelf.specs.Shelf.{IsFirstFree, free_from, free_slots, mark_of, settled};

use crate::fault::ShelfFault;
use crate::mark::Mark;
use sia_encoding::List;
use std::alloc::{AllocError, Global};
use std::marker::Model;

/// The marks of all slots. It keeps how many are free, and where the free ones and those put since the last sync lie, so
/// that no call goes over all of them.
#[derive(Drop)]
pub(crate) struct Marks {
    marks: Vec<Mark>,
    // how many slots are free
    free: u64,
    // no slot below this one is free
    low: usize,
    // the slots put since the last sync lie from the first of these to before the second
    from: usize,
    to: usize,
}

impl Model for Marks {
    ghost use Rattle.std.specs.Prelude.{List as Sequence};
    ghost use Rattle.sia_shelf.specs.declared.mark.Mark.{Mark as OneMark};
    ghost use Rattle.sia_shelf.specs.Tallies.{Tallies};

    ghost Value = { Sequence OneMark };

    ghost view = { λ kept. kept.marks.items };

    ghost invariant = { λ kept. Tallies kept.free kept.low kept.from kept.to kept.marks.items };
}

impl Marks {
    /// The marks of so many free slots.
    pub(crate) fn all_free(alloc: Global, slots: u64) -> Result<Marks, AllocError>
        ensures { IfOk result (λ marks. marks ≡ replicate slots Mark.Free) }
    {
        let mut marks = Vec::new(alloc);
        marks.resize(slots as usize, Mark::Free)?;
        Ok(Marks {
            marks,
            free: slots,
            low: 0,
            from: 0,
            to: 0,
        })
    }

    /// How many slots there are.
    pub(crate) fn count(&self) -> u64
        ensures { result ≡ length self.now }
    {
        self.marks.len() as u64
    }

    /// How many slots are free.
    pub(crate) fn free_count(&self) -> u64
        ensures { result ≡ length (free_slots self.now) }
    {
        self.free
    }

    /// The mark of a slot.
    pub(crate) fn get(&self, slot: u64) -> Mark
        requires { slot < length self.now }
        ensures { result ≡ mark_of self.now slot }
    {
        self.marks[slot as usize]
    }

    /// The first `more` free slots, in order. `Full` comes exactly where fewer are free.
    pub(crate) fn find(&self, alloc: Global, more: u64) -> Result<List<u64>, ShelfFault>
        ensures ok { IfOk result (λ slots. slots ≡ take more (free_slots self.now)) }
        ensures full { result ≡ Err ShelfFault.Full ↔ (length (free_slots self.now) < more) }
        ensures cause { IfErr result (λ fault. fault ≢ ShelfFault.Full → fault ≡ ShelfFault.Memory) }
    {
        if self.free < more {
            return Err(ShelfFault::Full);
        }
        let (_, behind) = self.marks.as_slice().split_at(self.low);
        match first_free(alloc, self.low, behind, more) {
            Ok(slots) => Ok(slots),
            Err(AllocError) => Err(ShelfFault::Memory),
        }
    }

    /// Marks the first free slot as put.
    pub(crate) fn put(&mut self, slot: u64)
        requires { IsFirstFree self.old slot }
        ensures { self.new ≡ slice_set self.old slot Mark.Put }
    {
        let slot = slot as usize;
        self.marks[slot] = Mark::Put;
        self.free -= 1;
        self.low = slot + 1;
        self.from = self.from.min(slot);
        self.to = self.to.max(slot + 1);
    }

    /// Makes a slot live that wasn't put.
    pub(crate) fn make_live(&mut self, slot: u64)
        requires there { slot < length self.old }
        requires settled { mark_of self.old slot ≢ Mark.Put }
        ensures { self.new ≡ slice_set self.old slot Mark.Live }
    {
        let slot = slot as usize;
        self.free -= u64::from(self.marks[slot].is_free());
        self.marks[slot] = Mark::Live;
    }

    /// Makes a live slot free.
    pub(crate) fn make_free(&mut self, slot: u64)
        requires { mark_of self.old slot ≡ Mark.Live }
        ensures { self.new ≡ slice_set self.old slot Mark.Free }
    {
        self.marks[slot as usize] = Mark::Free;
        self.free += 1;
        self.low = self.low.min(slot as usize);
    }

    /// Makes each slot live that was put.
    pub(crate) fn settle(&mut self)
        ensures { self.new ≡ map settled self.old }
    {
        settle_part(&mut self.marks, self.from, self.to);
        self.from = self.low;
        self.to = self.low;
    }
}

/// The first `more` free slots, in order, or all of them where fewer are free; the first mark is that of slot `first`. Its
/// error is want of memory.
fn first_free(
    alloc: Global,
    first: usize,
    marks: &[Mark],
    more: u64,
) -> Result<List<u64>, AllocError>
    requires { first + length marks.now < 2 ^ 64 }
    ensures { IfOk result (λ slots. slots ≡ take more (free_from first marks.now)) }
{
    let mut slots = List::new(alloc);
    for (at, mark) in marks.iter().enumerate() {
        if slots.len() as u64 == more {
            break;
        }
        if mark.is_free() {
            slots.push((first + at) as u64)?;
        }
    }
    Ok(slots)
}

/// Makes each slot live that was put.
fn settle(marks: &mut [Mark])
    ensures { marks.new ≡ map settled marks.old }
{
    for mark in marks.iter_mut() {
        *mark = mark.settled();
    }
}

/// Makes each slot live that was put, of those from `from` to before `to`.
fn settle_part(marks: &mut Vec<Mark>, from: usize, to: usize)
    requires from { from ≤ to }
    requires to { to ≤ length marks.old.items }
    ensures { marks.new.items ≡ take from marks.old.items ++ map settled (take (to - from) (drop from marks.old.items)) ++ drop to marks.old.items }
{
    settle(&mut marks[from..to]);
}
