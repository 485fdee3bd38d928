//! A disk: one file whose bytes stay, and what a crash may leave of them.
ghost use Rattle.std.specs.Prelude.{◌≡◌, ◌+◌, ◌<◌, ◌≤◌, Bool, IsTrue, length};
ghost use Rattle.sia_edge.specs.Disk.{Standing, GivesWithin, Gives, Quiet, Faulted, Lengthens, Overwrites, Changes, Torn, Cuts, Shortened, Settles, Leaves, images_of};

use crate::Got;

/// What a call that changes a disk answers.
#[derive(Clone, Copy, Debug, PartialEq, Eq)]
pub enum Did {
    /// The change was made.
    Done,
    /// Any part of the change may have been made, and the count of faults rose.
    Failed,
}

/// A disk, as a file that is read and written at places.
///
/// A crash leaves an image: the bytes that stand on the disk after it. Until a `sync` is done, each range that was written
/// may hold any bytes in an image, and the end may lie anywhere between the least and the greatest that was in force.
pub trait Disk {
    /// Whether contracts are told the bytes. The length is told always.
    ghost tells: { Bool };

    /// How it stands. Where it isn't told, what a read gives has the disk's length and no bytes that count.
    ghost standing: { Self → Standing };

    /// The end, in bytes. It can't fail.
    fn length(&self) -> u64
        ensures { result ≡ length (standing self.now).seen };

    /// Puts the bytes at a place at the front of the buffer, which isn't empty. It answers `End` at the end alone.
    fn read(&mut self, at: u64, buffer: &mut [u8]) -> Got
        requires room { 0 < length buffer.old }
        requires inside { at ≤ length (standing self.old).seen }
        ensures bound { GivesWithin result (length buffer.new) at (length (standing self.old).seen) }
        ensures bytes { IsTrue tells → Gives result buffer.new at (standing self.old).seen }
        ensures quiet { Quiet (standing self.old) (standing self.new) }
        ensures cause { result ≡ Got.Failed → Faulted (standing self.old) (standing self.new) };

    /// Writes the bytes at a place, over what is there and past the end.
    fn write_at(&mut self, at: u64, bytes: &[u8]) -> Did
        requires { at ≤ length (standing self.old).seen }
        ensures end { Lengthens result (at + length bytes.now) (length (standing self.old).seen) (length (standing self.new).seen) }
        ensures bytes { IsTrue tells → Overwrites result at bytes.now (standing self.old).seen (standing self.new).seen }
        ensures changes { Changes (Torn at (length bytes.now)) (standing self.old) (standing self.new) }
        ensures cause { result ≡ Did.Failed → Faulted (standing self.old) (standing self.new) };

    /// Cuts the disk to this length, in bytes.
    fn cut(&mut self, len: u64) -> Did
        requires { len ≤ length (standing self.old).seen }
        ensures bytes { Cuts result len (standing self.old).seen (standing self.new).seen }
        ensures changes { Changes (Shortened len) (standing self.old) (standing self.new) }
        ensures cause { result ≡ Did.Failed → Faulted (standing self.old) (standing self.new) };

    /// After it is done a crash leaves what a read gives. It changes nothing that a read gives.
    fn sync(&mut self) -> Did
        ensures settled { Settles result (standing self.new) }
        ensures quiet { Quiet (standing self.old) (standing self.new) }
        ensures cause { result ≡ Did.Failed → Faulted (standing self.old) (standing self.new) };

    /// A disk as it reads is one of its images.
    ghost as_read: { (disk : Self) → IsTrue tells → images_of (standing disk) (standing disk).seen };
}
