//! Slots of a disk, each of one sector.
ghost use Rattle.std.specs.Prelude.{◌≡◌, ℕ, ◌+◌, ◌*◌, ◌<◌, ◌≤◌, List, IsTrue, IfErr, OnOk, MatchOption, max, length};
ghost use Rattle.sia_edge.specs.Disk.{Changes};
ghost use Rattle.sia_shelf.specs.Shelf.{DiskFault};
ghost use Rattle.sia_shelf.specs.Slots.{Has, KeepsOthers, end_of};

use crate::fault::{ShelfFault, done};
use sia_edge::Disk;

/// Where a slot begins, on a disk with this end; `None` where it doesn't end within.
pub(crate) fn place_of(end: u64, sector: u64, slot: u64) -> Option<u64>
    requires { 0 < sector }
    ensures { MatchOption result (end < end_of sector slot) (λ place. (place ≡ slot * sector) × (end_of sector slot ≤ end)) }
{
    if slot < end / sector {
        Some(slot * sector)
    } else {
        None
    }
}

/// Writes a slot, which begins at `place`.
pub(crate) fn write_slot<D: Disk>(disk: &mut D, place: u64, bytes: &[u8]) -> Result<(), ShelfFault>
    requires within { place ≤ length (D.standing disk.old).seen }
    requires some { 0 < length bytes.now }
    ensures longer { length (D.standing disk.old).seen ≤ length (D.standing disk.new).seen }
    ensures within { length (D.standing disk.new).seen ≤ max (length (D.standing disk.old).seen) (place + length bytes.now) }
    ensures end { OnOk result (place + length bytes.now ≤ length (D.standing disk.new).seen) }
    ensures wrote { IsTrue D.tells → OnOk result ((slot : ℕ) → place ≡ slot * length bytes.now → Has (length bytes.now) slot bytes.now (D.standing disk.new).seen) }
    ensures others { IsTrue D.tells → (slot : ℕ) → place ≡ slot * length bytes.now
        → KeepsOthers (length bytes.now) slot (D.standing disk.old).seen (D.standing disk.new).seen }
    ensures changes { (slot : ℕ) → place ≡ slot * length bytes.now
        → Changes (KeepsOthers (length bytes.now) slot) (D.standing disk.old) (D.standing disk.new) }
    ensures cause { IfErr result (DiskFault (D.standing disk.old) (D.standing disk.new)) }
{
    done(disk.write_at(place, bytes))
}
