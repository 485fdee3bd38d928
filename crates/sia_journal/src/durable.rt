//! Writes and cuts that are on the disk once they are done.
ghost use Rattle.std.specs.Prelude.{◌≡◌, ◌+◌, ◌≤◌, ◌∷◌, [], max, take, IsTrue, IfErr, OnOk, length};
ghost use Rattle.sia_edge.specs.Disk.{Changes, IsSettled, Torn, Shortened, overwritten};
ghost use Rattle.sia_journal.specs.Journal.{DiskCause};

use crate::fault::{JournalFault, done};
use sia_edge::Disk;

/// Writes bytes at a place, and syncs.
pub(crate) fn store<D: Disk>(disk: &mut D, at: u64, bytes: &[u8]) -> Result<(), JournalFault>
    requires { at ≤ length (D.standing disk.old).seen }
    ensures end { OnOk result (length (D.standing disk.new).seen ≡ max (length (D.standing disk.old).seen) (at + length bytes.now)) }
    ensures kept { IsTrue D.tells → OnOk result ((D.standing disk.new).seen ≡ overwritten (D.standing disk.old).seen at bytes.now) }
    ensures settled { OnOk result (IsSettled (D.standing disk.new)) }
    ensures changes { Changes (Torn at (length bytes.now)) (D.standing disk.old) (D.standing disk.new) }
    ensures cause { IfErr result (DiskCause (D.standing disk.old) (D.standing disk.new)) }
{
    done(disk.write_at(at, bytes))?;
    done(disk.sync())
}

/// Cuts the disk to a length, and syncs.
pub(crate) fn cut_to<D: Disk>(disk: &mut D, len: u64) -> Result<(), JournalFault>
    requires { len ≤ length (D.standing disk.old).seen }
    ensures kept { OnOk result ((D.standing disk.new).seen ≡ take len (D.standing disk.old).seen) }
    ensures settled { OnOk result (IsSettled (D.standing disk.new)) }
    ensures changes { Changes (Shortened len) (D.standing disk.old) (D.standing disk.new) }
    ensures cause { IfErr result (DiskCause (D.standing disk.old) (D.standing disk.new)) }
{
    done(disk.cut(len))?;
    done(disk.sync())
}
