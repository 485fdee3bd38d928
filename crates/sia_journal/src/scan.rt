//! Finding the last gate of a file.
ghost use Rattle.std.specs.Prelude.{◌≡◌, ℕ, ◌+◌, ◌<◌, ◌≤◌, IsTrue, slice_index, IfOk, IfErr, IfSome, length, take, drop};
ghost use Rattle.std.specs.Int.{w64, from_le_bytes};
ghost use Rattle.sia_edge.specs.Disk.{Quiet};
ghost use Rattle.sia_journal.specs.Journal.{DiskCause, OpenCause};
ghost use Rattle.sia_journal.specs.Opening.{FrameEnds, IsLast, IsFound, WalkCause};

use crate::fault::{JournalFault, done};
use crate::journal::FIRST_PLACE;
use sia_edge::{Disk, read_whole};

/// The first gate that isn't open.
#[derive(Clone, Copy)]
pub(crate) struct Last {
    pub(crate) place: u64,
    pub(crate) gate: u8,
}

/// The `N` bytes at a place.
fn array<const N: usize, D: Disk>(disk: &mut D, at: u64) -> Result<[u8; N], JournalFault>
    requires { at + N ≤ length (D.standing disk.old).seen }
    ensures bytes { IsTrue D.tells → IfOk result (λ bytes. bytes ≡ take N (drop at (D.standing disk.old).seen)) }
    ensures quiet { Quiet (D.standing disk.old) (D.standing disk.new) }
    ensures cause { IfErr result (DiskCause (D.standing disk.old) (D.standing disk.new)) }
{
    let mut bytes = [0; N];
    done(read_whole(disk, at, &mut bytes))?;
    Ok(bytes)
}

/// The length that stands in front of a payload.
fn size_from(bytes: [u8; 8]) -> u64
    ensures exact { result ≡ from_le_bytes w64 bytes }
    ensures fits { (i : ℕ) → slice_index bytes i < 256 }
{
    u64::from_le_bytes(bytes)
}

/// The place behind the frame whose open gate stands at this place, or none where it has no whole frame.
fn frame_end<D: Disk>(disk: &mut D, place: u64, end: u64) -> Result<Option<u64>, JournalFault>
    requires end { end ≡ length (D.standing disk.old).seen }
    requires gate { place < end }
    ensures frame { IsTrue D.tells → IfOk result (FrameEnds (D.standing disk.old).seen place) }
    ensures within { IfOk result (λ found. IfSome found (λ next. (place + 9 ≤ next) × (next ≤ end))) }
    ensures quiet { Quiet (D.standing disk.old) (D.standing disk.new) }
    ensures cause { IfErr result (DiskCause (D.standing disk.old) (D.standing disk.new)) }
{
    let left = end - place - 1;
    if left < 8 {
        return Ok(None);
    }
    let bytes = array::<8, D>(disk, place + 1)?;
    let size = size_from(bytes);
    if size > left - 8 {
        return Ok(None);
    }
    Ok(Some(place + 9 + size))
}

/// Walks along the gates behind the header to the first that isn't open.
fn last_gate<D: Disk>(disk: &mut D, end: u64) -> Result<Last, JournalFault>
    requires end { end ≡ length (D.standing disk.old).seen }
    requires long { 17 < end }
    ensures last { IsTrue D.tells → IfOk result (IsLast (D.standing disk.old).seen) }
    ensures within { IfOk result (λ last. (16 ≤ last.place) × (last.place < end)) }
    ensures quiet { Quiet (D.standing disk.old) (D.standing disk.new) }
    ensures cause { IfErr result (WalkCause D.tells (D.standing disk.old) (D.standing disk.new)) }
{
    let mut place = FIRST_PLACE;
    while place < end {
        let bytes = array::<1, D>(disk, place)?;
        let gate = bytes[0];
        if gate != 1 {
            return Ok(Last { place, gate });
        }
        let frame = frame_end(disk, place, end)?;
        match frame {
            Some(next) => place = next,
            None => return Err(JournalFault::Damaged { at: place }),
        }
    }
    Err(JournalFault::Damaged { at: place })
}

/// Finds the first gate that isn't open, or why the file is damaged.
pub(crate) fn find_last<D: Disk>(
    disk: &mut D,
    header: &[u8; 16],
    limit: u64,
) -> Result<Last, JournalFault>
    requires { 17 < length (D.standing disk.old).seen }
    ensures found { IsTrue D.tells → IfOk result (IsFound header.now (D.standing disk.old).seen) }
    ensures within { IfOk result (λ last. (16 ≤ last.place) × (last.place < length (D.standing disk.old).seen) × (length (D.standing disk.old).seen ≤ limit)) }
    ensures quiet { Quiet (D.standing disk.old) (D.standing disk.new) }
    ensures cause { IfErr result (OpenCause D.tells header.now limit (D.standing disk.old) (D.standing disk.new)) }
{
    let end = disk.length();
    let front = array::<16, D>(disk, 0)?;
    if front != *header {
        return Err(JournalFault::Damaged { at: 0 });
    }
    if end > limit {
        return Err(JournalFault::Damaged { at: limit });
    }
    last_gate(disk, end)
}
