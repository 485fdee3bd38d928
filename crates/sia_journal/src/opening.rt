//! Opening a journal: a fresh file is made, and the end of a longer one is repaired.
ghost use Rattle.std.specs.Prelude.{◌≡◌, ◌≢◌, ℕ, ◌+◌, ◌^◌, ◌<◌, ◌≤◌, ◌++◌, ◌∷◌, [], List, IsTrue, IfOk, IfErr, OnOk, Ok, length};
ghost use Rattle.sia_edge.specs.Disk.{TimePasses, Leaves, EachImage, Quiet, IsSettled};
ghost use Rattle.sia_journal.specs.Listed.{IsFew, IsDamaged, at_rest};
ghost use Rattle.sia_journal.specs.Journal.{Holds, HoldsListed, MidAppend, DiskCause, OpenCause};
ghost use Rattle.sia_journal.specs.Opening.{IsRepaired, IsReopened};

use crate::durable::{cut_to, store};
use crate::fault::{JournalFault, done};
use crate::journal::FIRST_PLACE;
use crate::scan::{Last, find_last};
use sia_edge::Disk;

/// How long a file may be and hold nothing: a header and a gate.
const FRESH_LEN: usize = 17;

/// The file of no records.
fn fresh_file(header: &[u8; 16]) -> [u8; FRESH_LEN]
    ensures { result ≡ at_rest header.now [] }
{
    let mut file = [0; FRESH_LEN];
    file[..16].copy_from_slice(header);
    file
}

/// Makes the file of no records.
fn make_fresh<D: Disk>(disk: &mut D, header: &[u8; 16]) -> Result<(), JournalFault>
    ensures end { OnOk result (length (D.standing disk.new).seen ≡ 17) }
    ensures kept { IsTrue D.tells → OnOk result (Holds header.now [] (D.standing disk.new)) }
    ensures few { EachImage IsFew (D.standing disk.old) → Leaves IsFew (D.standing disk.old) (D.standing disk.new) }
    ensures time { TimePasses (D.standing disk.old) (D.standing disk.new) }
    ensures cause { IfErr result (DiskCause (D.standing disk.old) (D.standing disk.new)) }
{
    cut_to(disk, 0)?;
    store(disk, 0, &fresh_file(header))
}

/// Closes the last gate where it holds another byte than 0, and cuts the file behind it.
fn repair<D: Disk>(disk: &mut D, last: Last) -> Result<(), JournalFault>
    requires within { last.place < length (D.standing disk.old).seen }
    requires bounded { length (D.standing disk.old).seen < 2 ^ 64 }
    ensures end { OnOk result (length (D.standing disk.new).seen ≡ last.place + 1) }
    ensures kept { IsTrue D.tells → OnOk result ((front behind : List ℕ) → length front ≡ last.place → (D.standing disk.old).seen ≡ front ++ last.gate ∷ behind
        → (D.standing disk.new).seen ≡ front ++ 0 ∷ []) }
    ensures settled { OnOk result (IsSettled (D.standing disk.new)) }
    ensures images { IsTrue D.tells → (front behind : List ℕ) → length front ≡ last.place → (D.standing disk.old).seen ≡ front ++ last.gate ∷ behind
        → IsSettled (D.standing disk.old) → Leaves (IsRepaired front last.gate behind) (D.standing disk.old) (D.standing disk.new) }
    ensures time { TimePasses (D.standing disk.old) (D.standing disk.new) }
    ensures cause { IfErr result (DiskCause (D.standing disk.old) (D.standing disk.new)) }
{
    if last.gate == 0 {
        return cut_to(disk, last.place + 1);
    }
    store(disk, last.place, &[0])?;
    cut_to(disk, last.place + 1)
}

/// Brings the disk into a state in which a record may be read or appended, and answers where the last gate stands.
pub(crate) fn prepare<D: Disk>(
    disk: &mut D,
    header: &[u8; 16],
    limit: u64,
) -> Result<u64, JournalFault>
    requires low { 17 ≤ limit }
    requires high { limit ≤ 2 ^ 36 }
    ensures gate { IfOk result (λ gate. (16 ≤ gate) × (gate + 1 ≡ length (D.standing disk.new).seen) × (gate < limit)) }
    ensures listed { IsTrue D.tells → OnOk result (HoldsListed header.now limit (D.standing disk.old) (D.standing disk.new)) }
    ensures images { IsTrue D.tells → Leaves (IsReopened header.now limit (D.standing disk.old)) (D.standing disk.old) (D.standing disk.new) }
    ensures time { TimePasses (D.standing disk.old) (D.standing disk.new) }
    ensures refused { IfErr result (λ fault. fault ≢ JournalFault.Disk → Quiet (D.standing disk.old) (D.standing disk.new)) }
    ensures damaged { IsTrue D.tells → IsDamaged header.now limit (D.standing disk.old).seen → Quiet (D.standing disk.old) (D.standing disk.new) }
    ensures cause { IfErr result (OpenCause D.tells header.now limit (D.standing disk.old) (D.standing disk.new)) }
{
    done(disk.sync())?;
    if disk.length() <= FRESH_LEN as u64 {
        make_fresh(disk, header)?;
        return Ok(FIRST_PLACE);
    }
    let last = find_last(disk, header, limit)?;
    repair(disk, last)?;
    Ok(last.place)
}
