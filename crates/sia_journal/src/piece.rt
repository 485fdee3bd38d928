//! A disk that is read in pieces, for readings that go forward by few bytes at a time.
ghost use Rattle.std.specs.Prelude.{◌≡◌, ℕ, ◌+◌, ◌-◌, ◌<◌, ◌≤◌, List, IsTrue, IfOk, length, min, take, drop};
ghost use Rattle.sia_edge.specs.Disk.{GivesWithin, Quiet, Faulted};
ghost use Rattle.sia_journal.specs.Piece.{HasRead, IsPieceOf, Shows};

use sia_edge::{Did, Disk, Got};
use std::alloc::{AllocError, Global};
use std::marker::Model;

/// How many bytes are read at once, where there are so many.
const PIECE: usize = 65_536;

/// Bytes that were read of a disk. It takes its memory as it is made, and none after that.
#[derive(Drop)]
pub(crate) struct Piece {
    // where they begin
    base: u64,
    // how many there are
    count: usize,
    // they stand at the front
    bytes: Vec<u8>,
}

impl Piece {
    /// A piece of no bytes. Its error is want of memory.
    pub(crate) fn new(alloc: Global) -> Result<Piece, AllocError>
        ensures base { IfOk result (λ piece. piece.base ≡ 0) }
        ensures count { IfOk result (λ piece. piece.count ≡ 0) }
        ensures room { IfOk result (λ piece. length piece.bytes.items ≡ 65536) }
    {
        let mut bytes = Vec::new(alloc);
        bytes.resize(PIECE, 0)?;
        Ok(Piece {
            base: 0,
            count: 0,
            bytes,
        })
    }

    /// Lets the bytes go.
    fn forget(&mut self)
        ensures base { self.new.base ≡ 0 }
        ensures count { self.new.count ≡ 0 }
        ensures room { self.new.bytes ≡ self.old.bytes }
    {
        self.base = 0;
        self.count = 0;
    }

    /// Whether it has the byte at a place.
    fn has(&self, at: u64) -> bool
        ensures { IsTrue result → (self.now.base ≤ at) × (at - self.now.base < self.now.count) }
    {
        self.base <= at && at - self.base < self.count as u64
    }

    /// Reads the bytes from a place on, by one read.
    fn fill<D: Disk>(&mut self, disk: &mut D, at: u64) -> Got
        requires room { length self.old.bytes.items ≡ 65536 }
        requires inside { at ≤ length (D.standing disk.old).seen }
        ensures is { IsPieceOf D.tells (D.standing disk.old).seen self.new }
        ensures read { HasRead result at self.new }
        ensures bound { GivesWithin result 65536 at (length (D.standing disk.old).seen) }
        ensures quiet { Quiet (D.standing disk.old) (D.standing disk.new) }
        ensures cause { result ≡ Got.Failed → Faulted (D.standing disk.old) (D.standing disk.new) }
    {
        self.base = at;
        self.count = 0;
        let got = disk.read(at, &mut self.bytes);
        if let Got::Bytes(count) = got {
            self.count = count;
        }
        got
    }

    /// Puts the bytes at a place at the front of the buffer, as many as there are and as fit, and answers how many.
    fn copy(&self, at: u64, buffer: &mut [u8]) -> usize
        requires begins { self.now.base ≤ at }
        requires has { at - self.now.base < self.now.count }
        requires filled { self.now.count ≤ length self.now.bytes.items }
        requires room { 0 < length buffer.old }
        ensures some { 0 < result }
        ensures fits { result ≤ length buffer.new }
        ensures within { at - self.now.base + result ≤ self.now.count }
        ensures bytes { (file : List ℕ) → Shows file self.now → take result buffer.new ≡ take result (drop at file) }
    {
        let (bytes, _) = self.bytes.as_slice().split_at(self.count);
        let (_, behind) = bytes.split_at((at - self.base) as usize);
        copy_front(behind, buffer)
    }
}

/// Puts as much of `from` at the front of the buffer as there is room for, and answers how much.
fn copy_front(from: &[u8], buffer: &mut [u8]) -> usize
    ensures count { result ≡ min (length buffer.old) (length from.now) }
    ensures copied { take result buffer.new ≡ take result from.now }
{
    let count = buffer.len().min(from.len());
    let (front, _) = buffer.split_at_mut(count);
    let (part, _) = from.split_at(count);
    front.copy_from_slice(part);
    count
}

/// A disk with the piece that was read of it last. It is that disk: contracts see nothing else. Small reads are served from the
/// piece, and read the next one where it ends; a read that has room for a whole piece goes straight to the disk. A change of
/// the disk lets the piece go.
#[derive(Drop)]
pub(crate) struct PieceDisk<D: Disk> {
    disk: D,
    piece: Piece,
}

impl<D: Disk> Model for PieceDisk<D> {
    ghost use Rattle.sia_journal.specs.Piece.{IsPieceOf};

    ghost Value = { D };

    ghost view = { λ pieces. pieces.disk };

    ghost invariant = { λ pieces. IsPieceOf D.tells (D.standing pieces.disk).seen pieces.piece };
}

impl<D: Disk> PieceDisk<D> {
    /// The disk, of which nothing was read so far.
    pub(crate) fn new(disk: D, piece: Piece) -> PieceDisk<D>
        requires base { piece.base ≡ 0 }
        requires count { piece.count ≡ 0 }
        requires room { length piece.bytes.items ≡ 65536 }
        ensures { result ≡ disk }
    {
        PieceDisk { disk, piece }
    }

    /// The disk alone.
    pub(crate) fn into_disk(self) -> D
        ensures { result ≡ self }
    {
        let PieceDisk { disk, .. } = self;
        disk
    }
}

impl<D: Disk> Disk for PieceDisk<D> {
    ghost tells = { D.tells };

    ghost standing = { D.standing };

    ghost as_read = { D.as_read };

    fn length(&self) -> u64 {
        self.disk.length()
    }

    fn read(&mut self, at: u64, buffer: &mut [u8]) -> Got {
        if !self.piece.has(at) {
            if buffer.len() >= PIECE {
                return self.disk.read(at, buffer);
            }
            let got = self.piece.fill(&mut self.disk, at);
            let Got::Bytes(_) = got else {
                return got;
            };
        }
        Got::Bytes(self.piece.copy(at, buffer))
    }

    fn write_at(&mut self, at: u64, bytes: &[u8]) -> Did {
        self.piece.forget();
        self.disk.write_at(at, bytes)
    }

    fn cut(&mut self, len: u64) -> Did {
        self.piece.forget();
        self.disk.cut(len)
    }

    fn sync(&mut self) -> Did {
        self.disk.sync()
    }
}
