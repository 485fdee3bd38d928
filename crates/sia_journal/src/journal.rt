//! A journal that is open: records are read and appended.
ghost use Rattle.std.specs.Prelude.{◌≡◌, ◌≢◌, ◌+◌, ◌^◌, ◌<◌, ◌≤◌, ◌++◌, ◌∷◌, [], ℕ, List, IsTrue, false, IfOk, OnOk, OnErr, IfErr, Err, drop, length, vec_len, vec_capacity};
ghost use Rattle.sia_edge.specs.Disk.{TimePasses, Leaves, EachImage, Quiet};
ghost use Rattle.sia_journal.specs.Listed.{IsFew, IsDamaged, place_after};
ghost use Rattle.sia_journal.specs.Journal.{Holds, HoldsListed, MidAppend, IsReady, need_for, AppendCause, OpenCause, disk_of, MovesOn, NextIs, ReadCause};

use crate::durable::store;
use crate::fault::{JournalFault, done};
use crate::opening::prepare;
use crate::piece::{Piece, PieceDisk};
use crate::record::RecordBuf;
use sia_edge::{Disk, read_onto, read_whole};
use sia_encoding::Blob;
use std::alloc::Global;
use std::mem;

/// Where the first record stands in a file.
pub const FIRST_PLACE: u64 = 16;

/// A list of records in one file.
///
/// Before a record is written the gate byte at the file's end is closed. The record is written behind it with a closed gate
/// of its own, and brought onto the disk; then the gate in front of it is opened by a write of one byte. So a crash at any
/// moment leaves the records before, or those and the new one.
///
/// Records are read through a piece of 64 KiB, for which an opening takes the memory. So small ones take few reads of the disk.
#[derive(Drop)]
pub struct Journal<D: Disk> {
    disk: PieceDisk<D>,
    // where the last gate stands
    gate: u64,
    // the greatest length of the file, in bytes
    limit: u64,
}

impl<D: Disk> Journal<D> {
    /// Opens the journal of a disk, where nothing but this journal writes: makes a fresh file of one of at most 17 bytes,
    /// and repairs the end of a longer one. The header names what is kept, and the limit is the greatest length that the
    /// file may have, in bytes. An error hands the disk back, and `Disk` alone may leave something of a making or a repair
    /// on it: after `Memory` and `Damaged` it is as before. A damaged file stays as it is, whatever this answers.
    pub fn open(
        alloc: Global,
        disk: D,
        header: &[u8; 16],
        limit: u64,
    ) -> Result<Journal<D>, (JournalFault, D)>
        requires low { 17 ≤ limit }
        requires high { limit ≤ 2 ^ 36 }
        ensures ready { IfOk result (λ journal. IsReady D.standing journal) }
        ensures limit { IfOk result (λ journal. journal.limit ≡ limit) }
        ensures listed { IsTrue D.tells → IfOk result (λ journal. HoldsListed header.now limit (D.standing disk) (D.standing journal.disk)) }
        ensures crash { IsTrue D.tells → (records : List (List ℕ)) (payload : List ℕ)
            → EachImage (MidAppend header.now limit records payload) (D.standing disk)
            → Leaves (MidAppend header.now limit records payload) (D.standing disk) (D.standing (disk_of result)) }
        ensures few { IsTrue D.tells → EachImage IsFew (D.standing disk) → Leaves IsFew (D.standing disk) (D.standing (disk_of result)) }
        ensures time { TimePasses (D.standing disk) (D.standing (disk_of result)) }
        ensures refused { IfErr result (λ failed. failed.0 ≢ JournalFault.Disk → Quiet (D.standing disk) (D.standing failed.1)) }
        ensures damaged { IsTrue D.tells → IsDamaged header.now limit (D.standing disk).seen → Quiet (D.standing disk) (D.standing (disk_of result)) }
        ensures cause { IfErr result (λ failed. OpenCause D.tells header.now limit (D.standing disk) (D.standing failed.1) failed.0) }
    {
        let Ok(piece) = Piece::new(alloc) else {
            return Err((JournalFault::Memory, disk));
        };
        let mut disk = PieceDisk::new(disk, piece);
        match prepare(&mut disk, header, limit) {
            Ok(gate) => Ok(Journal { disk, gate, limit }),
            Err(fault) => Err((fault, disk.into_disk())),
        }
    }

    /// Puts the payload of the record at a place into `out`, in place of what is there, and moves the place to the next
    /// record. It answers false at the end; then, and after an error, the place and `out` are as before. The first record's
    /// place is [`FIRST_PLACE`]. A `Blob` doesn't show its room; [`Journal::read_next_onto`] is the same over a `Vec`, of
    /// which it is told that `Memory` doesn't come where there is room.
    pub fn read_next(
        &mut self,
        alloc: Global,
        place: &mut u64,
        out: &mut Blob,
    ) -> Result<bool, JournalFault>
        requires ready { IsReady D.standing self.old }
        requires place { place.old ≤ self.old.gate }
        ensures ready { IsReady D.standing self.new }
        ensures limit { self.new.limit ≡ self.old.limit }
        ensures place { place.new ≤ self.new.gate }
        ensures next { IsTrue D.tells → (header : List ℕ) (read left : List (List ℕ))
            → Holds header (read ++ left) (D.standing self.old.disk) → place.old ≡ place_after read
            → IfOk result (NextIs read left [] place.new out.new) }
        ensures ends { IfOk result (λ more. more ≡ false → (place.new ≡ place.old) × (out.new ≡ out.old)) }
        ensures moves { IfOk result (λ more. IsTrue more → place.new ≡ place.old + 9 + length out.new) }
        ensures stays { OnErr result ((place.new ≡ place.old) × (out.new ≡ out.old)) }
        ensures quiet { Quiet (D.standing self.old.disk) (D.standing self.new.disk) }
        ensures cause { IfErr result (ReadCause (D.standing self.old.disk) (D.standing self.new.disk)) }
    {
        let mut bytes = mem::replace(out, Blob::new(alloc)).into_vec();
        let held = bytes.len();
        let read = self.read_next_onto(place, &mut bytes);
        let Ok(true) = read else {
            *out = Blob::from_vec(bytes);
            return read;
        };
        *out = without_front(bytes, held);
        read
    }

    /// Appends the payload of the record at a place to a `Vec`, and moves the place to the next record. It answers false at
    /// the end; then, and after an error, the place and the elements are as before. The first record's place is
    /// [`FIRST_PLACE`]. `Memory` never comes where there is room for the payload, nor where there is room for all that stands
    /// behind the place.
    pub fn read_next_onto(
        &mut self,
        place: &mut u64,
        out: &mut Vec<u8>,
    ) -> Result<bool, JournalFault>
        requires ready { IsReady D.standing self.old }
        requires place { place.old ≤ self.old.gate }
        ensures ready { IsReady D.standing self.new }
        ensures limit { self.new.limit ≡ self.old.limit }
        ensures place { place.new ≤ self.new.gate }
        ensures next { IsTrue D.tells → (header : List ℕ) (read left : List (List ℕ))
            → Holds header (read ++ left) (D.standing self.old.disk) → place.old ≡ place_after read
            → IfOk result (NextIs read left out.old.items place.new out.new.items) }
        ensures ends { IfOk result (λ more. more ≡ false → (place.new ≡ place.old) × (out.new.items ≡ out.old.items)) }
        ensures moves { IfOk result (λ more. IsTrue more → MovesOn place.old place.new (length out.old.items) (length out.new.items)) }
        ensures stays { OnErr result ((place.new ≡ place.old) × (out.new.items ≡ out.old.items)) }
        ensures room { self.old.gate + vec_len out.old ≤ place.old + 9 + vec_capacity out.old → result ≢ Err JournalFault.Memory }
        ensures fits { IsTrue D.tells → (header : List ℕ) (read left : List (List ℕ)) (payload : List ℕ)
            → Holds header (read ++ payload ∷ left) (D.standing self.old.disk) → place.old ≡ place_after read
            → vec_len out.old + length payload ≤ vec_capacity out.old → result ≢ Err JournalFault.Memory }
        ensures quiet { Quiet (D.standing self.old.disk) (D.standing self.new.disk) }
        ensures cause { IfErr result (ReadCause (D.standing self.old.disk) (D.standing self.new.disk)) }
    {
        let left = self.gate - *place;
        if left < 9 {
            return Ok(false);
        }
        let mut bytes = [0; 8];
        done(read_whole(&mut self.disk, *place + 1, &mut bytes))?;
        let size = u64::from_le_bytes(bytes);
        if size > left - 9 {
            return Ok(false);
        }
        read_onto(&mut self.disk, *place + 9, size, out)?;
        *place += 9 + size;
        Ok(true)
    }

    /// Appends a record. It takes no memory. `Full` comes exactly where the file would pass the limit, and changes nothing.
    /// After `Disk` the file lists the records before or those and the new one, and the journal has to be opened again.
    pub fn append(&mut self, framed: &RecordBuf) -> Result<(), JournalFault>
        requires { IsReady D.standing self.old }
        ensures ready { OnOk result (IsReady D.standing self.new) }
        ensures limit { self.new.limit ≡ self.old.limit }
        ensures end { OnOk result (length (D.standing self.new.disk).seen ≡ need_for D.standing self.old framed.now) }
        ensures kept { IsTrue D.tells → OnOk result ((header : List ℕ) (records : List (List ℕ))
            → Holds header records (D.standing self.old.disk) → Holds header (records ++ framed.now ∷ []) (D.standing self.new.disk)) }
        ensures images { IsTrue D.tells → (header : List ℕ) (records : List (List ℕ))
            → Holds header records (D.standing self.old.disk)
            → Leaves (MidAppend header self.old.limit records framed.now) (D.standing self.old.disk) (D.standing self.new.disk) }
        ensures time { TimePasses (D.standing self.old.disk) (D.standing self.new.disk) }
        ensures full { self.old.limit < need_for D.standing self.old framed.now
            → (result ≡ Err (JournalFault.Full (need_for D.standing self.old framed.now) self.old.limit)) × (self.new ≡ self.old) }
        ensures cause { IfErr result (AppendCause (D.standing self.old.disk) (D.standing self.new.disk) (need_for D.standing self.old framed.now) self.old.limit) }
    {
        let need = self.gate + 1 + framed.size();
        if need > self.limit {
            return Err(JournalFault::Full {
                need,
                limit: self.limit,
            });
        }
        store(&mut self.disk, self.gate + 1, framed.body())?;
        store(&mut self.disk, self.gate, &[1])?;
        self.gate = need - 1;
        Ok(())
    }

    /// How long the file is, in bytes.
    pub fn length(&self) -> u64
        ensures { result ≡ length (D.standing self.now.disk).seen }
    {
        self.disk.length()
    }

    /// Gives the disk back.
    pub fn close(self) -> D
        ensures { result ≡ self.disk }
    {
        let Journal { disk, .. } = self;
        disk.into_disk()
    }
}

/// The bytes behind the first `count`. It takes no memory.
fn without_front(mut bytes: Vec<u8>, count: usize) -> Blob
    requires { count ≤ length bytes.items }
    ensures { result ≡ drop count bytes.items }
{
    bytes.drain(..count);
    Blob::from_vec(bytes)
}
