//! The slots that a host's records name are found on the shelf, and marked live.
ghost use Rattle.std.specs.Prelude.{◌≡◌, ◌^◌, ◌<◌, ◌≤◌, ℕ, length};
ghost use Rattle.std.specs.List.{Contains};
ghost use Rattle.sia_shelf.specs.Slots.{end_of};
ghost use Rattle.sia_shelf.specs.Shelf.{mark_of};
ghost use Rattle.sia_book.specs.Opening.{IsLeastMissing, MarksLive, is_missing as is_missing_so, least_missing_with};

use sia_edge::Disk;
use sia_shelf::{Mark, Shelf};

// A slot isn't on a shelf with so many slots, or not whole on a disk of so many bytes.
fn is_missing(sector: u64, slots: u64, end: u64, slot: u64) -> bool
    requires small { sector ≤ 2 ^ 22 }
    requires few { slots ≤ 2 ^ 20 }
    ensures { result ≡ is_missing_so sector slots end slot }
{
    !(slot < slots && (slot + 1) * sector <= end)
}

/// The least of these slots that isn't whole on a shelf with so many slots and a disk of so many bytes, if there is one.
pub(crate) fn least_missing(sector: u64, slots: u64, end: u64, live: &[u64]) -> Option<u64>
    requires small { sector ≤ 2 ^ 22 }
    requires few { slots ≤ 2 ^ 20 }
    ensures { IsLeastMissing sector slots end live.now result }
{
    let mut least = None;
    for slot in live {
        let missing = is_missing(sector, slots, end, *slot);
        least = least_with(least, *slot, missing);
    }
    least
}

// The least slot that is missing, with one more that may be.
fn least_with(least: Option<u64>, slot: u64, missing: bool) -> Option<u64>
    ensures { result ≡ least_missing_with least slot missing }
{
    match least {
        None => missing.then_some(slot),
        Some(other) => {
            if missing {
                Some(other.min(slot))
            } else {
                Some(other)
            }
        }
    }
}

/// Makes slots live on a shelf whose slots are free.
pub(crate) fn mark_all<D: Disk>(shelf: &mut Shelf<D>, live: &[u64])
    requires free { (slot : ℕ) → mark_of shelf.old.marks slot ≡ Mark.Free }
    requires whole { (slot : ℕ) → Contains live.now slot → (slot < length shelf.old.marks) × (end_of shelf.old.sector slot ≤ length (D.standing shelf.old.disk).seen) }
    ensures disk { shelf.new.disk ≡ shelf.old.disk }
    ensures sector { shelf.new.sector ≡ shelf.old.sector }
    ensures marks { MarksLive live.now (length shelf.old.marks) shelf.new.marks }
{
    for slot in live {
        shelf.mark(*slot);
    }
}
