//! A shelf that is open.
ghost use Rattle.std.specs.Prelude.{◌≡◌, ◌≢◌, ◌↔◌, ◌++◌, ℕ, ◌+◌, ◌*◌, ◌^◌, ◌<◌, ◌≤◌, List, IsTrue, false, IfOk, IfErr, OnOk, OnErr, Err, length, map, max, take, drop, replicate, vec_len, vec_capacity};
ghost use Rattle.sia_edge.specs.Disk.{Changes, EachImage, IsSettled, Quiet};
ghost use Rattle.sia_shelf.specs.Slots.{IsSectorSize, Has, KeepsOthers, end_of, slot_of};
ghost use Rattle.sia_shelf.specs.Shelf.{ShelfState, IsFirstFree, mark_of, with_mark, free_slots, settled, KeepsLive, DiskFault, SlotCause};

use crate::fault::{ShelfFault, done};
use crate::mark::Mark;
use crate::marks::Marks;
use crate::slot::{place_of, write_slot};
use sia_edge::{Disk, ReadFault, read_onto};
use sia_encoding::{Blob, List};
use std::alloc::{AllocError, Global};
use std::marker::Model;
use std::mem;

/// Sectors in the slots of a disk.
#[derive(Drop)]
pub struct Shelf<D: Disk> {
    disk: D,
    // how many bytes a sector has
    sector: u64,
    // one for each slot
    marks: Marks,
}

impl<D: Disk> Model for Shelf<D> {
    ghost use Rattle.std.specs.Prelude.{length};
    ghost use Rattle.sia_shelf.specs.Shelf.{ShelfState, IsShelf};

    ghost Value = { ShelfState D };

    ghost view = { λ shelf. record { disk = shelf.disk; sector = shelf.sector; marks = shelf.marks } };

    ghost invariant = { λ shelf. IsShelf shelf.sector shelf.marks (length (D.standing shelf.disk).seen) };
}

impl<D: Disk> Shelf<D> {
    /// A shelf with so many slots, all free, over a disk on which nothing is pending. A sector has this size, in bytes. It
    /// makes the room for the marks. Its error is want of memory, and gives the disk back.
    pub fn new(alloc: Global, disk: D, sector: u64, slots: u64) -> Result<Shelf<D>, (AllocError, D)>
        requires size { IsSectorSize sector }
        requires few { slots ≤ 2 ^ 20 }
        requires settled { IsSettled (D.standing disk) }
        ensures ok { IfOk result (λ shelf. shelf ≡ record { disk = disk; sector = sector; marks = replicate slots Mark.Free }) }
        ensures err { IfErr result (λ refused. refused.1 ≡ disk) }
    {
        match Marks::all_free(alloc, slots) {
            Ok(marks) => Ok(Shelf {
                disk,
                sector,
                marks,
            }),
            Err(fault) => Err((fault, disk)),
        }
    }

    /// Makes a slot live, whose bytes are on the disk. It answers false, and changes nothing, where there is no such slot
    /// or it is live.
    pub fn mark(&mut self, slot: u64) -> bool
        requires fits { slot < length self.old.marks → end_of self.old.sector slot ≤ length (D.standing self.old.disk).seen }
        requires settled { mark_of self.old.marks slot ≢ Mark.Put }
        ensures marked { IsTrue result → self.new ≡ with_mark self.old slot Mark.Live }
        ensures kept { result ≡ false → self.new ≡ self.old }
        ensures exact { IsTrue result ↔ ((slot < length self.old.marks) × (mark_of self.old.marks slot ≢ Mark.Live)) }
    {
        if slot >= self.marks.count() || self.marks.get(slot) == Mark::Live {
            return false;
        }
        self.marks.make_live(slot);
        true
    }

    /// How many slots are free.
    pub fn free_count(&self) -> u64
        ensures { result ≡ length (free_slots self.now.marks) }
    {
        self.marks.free_count()
    }

    /// The first `more` free slots, in order. `Full` comes exactly where fewer are free; `Memory` is its other fault.
    pub fn find(&self, alloc: Global, more: u64) -> Result<List<u64>, ShelfFault>
        ensures ok { IfOk result (λ slots. slots ≡ take more (free_slots self.now.marks)) }
        ensures full { result ≡ Err ShelfFault.Full ↔ (length (free_slots self.now.marks) < more) }
        ensures cause { IfErr result (λ fault. fault ≢ ShelfFault.Full → fault ≡ ShelfFault.Memory) }
    {
        self.marks.find(alloc, more)
    }

    /// Writes a sector into the first free slot. It takes no memory. `Disk` is its one fault: the slot is free then, and may
    /// hold anything. The disk is never longer for it than the slot's end.
    pub fn put(&mut self, slot: u64, bytes: &[u8]) -> Result<(), ShelfFault>
        requires slot { IsFirstFree self.old.marks slot }
        requires size { length bytes.now ≡ self.old.sector }
        ensures marked { OnOk result (self.new.marks ≡ (with_mark self.old slot Mark.Put).marks) }
        ensures unmarked { OnErr result (self.new.marks ≡ self.old.marks) }
        ensures sector { self.new.sector ≡ self.old.sector }
        ensures longer { length (D.standing self.old.disk).seen ≤ length (D.standing self.new.disk).seen }
        ensures within { length (D.standing self.new.disk).seen ≤ max (length (D.standing self.old.disk).seen) (end_of self.old.sector slot) }
        ensures wrote { IsTrue D.tells → OnOk result (Has self.old.sector slot bytes.now (D.standing self.new.disk).seen) }
        ensures others { IsTrue D.tells → KeepsOthers self.old.sector slot (D.standing self.old.disk).seen (D.standing self.new.disk).seen }
        ensures changes { Changes (KeepsOthers self.old.sector slot) (D.standing self.old.disk) (D.standing self.new.disk) }
        ensures live { KeepsLive D.standing self.old self.new }
        ensures cause { IfErr result (DiskFault (D.standing self.old.disk) (D.standing self.new.disk)) }
    {
        write_slot(&mut self.disk, slot * self.sector, bytes)?;
        self.marks.put(slot);
        Ok(())
    }

    /// Makes each slot live that was put since the last sync, so that a crash leaves its bytes. It takes no memory. `Disk` is
    /// its one fault.
    pub fn sync(&mut self) -> Result<(), ShelfFault>
        ensures marked { OnOk result (self.new.marks ≡ map settled self.old.marks) }
        ensures unmarked { OnErr result (self.new.marks ≡ self.old.marks) }
        ensures sector { self.new.sector ≡ self.old.sector }
        ensures settled { OnOk result (IsSettled (D.standing self.new.disk)) }
        ensures kept { OnOk result ((slot : ℕ) (bytes : List ℕ) → Has self.old.sector slot bytes (D.standing self.old.disk).seen
            → EachImage (Has self.old.sector slot bytes) (D.standing self.new.disk)) }
        ensures quiet { Quiet (D.standing self.old.disk) (D.standing self.new.disk) }
        ensures live { KeepsLive D.standing self.old self.new }
        ensures cause { IfErr result (DiskFault (D.standing self.old.disk) (D.standing self.new.disk)) }
    {
        done(self.disk.sync())?;
        self.marks.settle();
        Ok(())
    }

    /// Appends the bytes of a slot to `out`, which stays as it was after an `Err`. `Short` comes exactly where the disk ends
    /// before the slot does, so only of a free slot. A `Blob` doesn't show its room; [`Shelf::read_onto`] is the same over a
    /// `Vec`, of which it is told that `Memory` doesn't come where there is room.
    pub fn read(&mut self, alloc: Global, slot: u64, out: &mut Blob) -> Result<(), ShelfFault>
        ensures bytes { IsTrue D.tells → OnOk result (out.new ≡ out.old ++ slot_of self.old.sector slot (D.standing self.old.disk).seen) }
        ensures size { OnOk result (length out.new ≡ length out.old + self.old.sector) }
        ensures err { OnErr result (out.new ≡ out.old) }
        ensures short { length (D.standing self.old.disk).seen < end_of self.old.sector slot → result ≡ Err (ShelfFault.Short slot) }
        ensures whole { mark_of self.old.marks slot ≢ Mark.Free → end_of self.old.sector slot ≤ length (D.standing self.old.disk).seen }
        ensures marks { self.new.marks ≡ self.old.marks }
        ensures sector { self.new.sector ≡ self.old.sector }
        ensures quiet { Quiet (D.standing self.old.disk) (D.standing self.new.disk) }
        ensures cause { IfErr result (SlotCause (D.standing self.old.disk) (D.standing self.new.disk) self.old.sector slot) }
    {
        let mut bytes = mem::replace(out, Blob::new(alloc)).into_vec();
        let read = self.read_onto(slot, &mut bytes);
        *out = Blob::from_vec(bytes);
        read
    }

    /// The same over a `Vec`. `Memory` never comes where it has room for a sector behind its elements.
    pub fn read_onto(&mut self, slot: u64, out: &mut Vec<u8>) -> Result<(), ShelfFault>
        ensures bytes { IsTrue D.tells → OnOk result (out.new.items ≡ out.old.items ++ slot_of self.old.sector slot (D.standing self.old.disk).seen) }
        ensures size { OnOk result (length out.new.items ≡ length out.old.items + self.old.sector) }
        ensures err { OnErr result (out.new.items ≡ out.old.items) }
        ensures room { vec_len out.old + self.old.sector ≤ vec_capacity out.old → result ≢ Err ShelfFault.Memory }
        ensures short { length (D.standing self.old.disk).seen < end_of self.old.sector slot → result ≡ Err (ShelfFault.Short slot) }
        ensures whole { mark_of self.old.marks slot ≢ Mark.Free → end_of self.old.sector slot ≤ length (D.standing self.old.disk).seen }
        ensures marks { self.new.marks ≡ self.old.marks }
        ensures sector { self.new.sector ≡ self.old.sector }
        ensures quiet { Quiet (D.standing self.old.disk) (D.standing self.new.disk) }
        ensures cause { IfErr result (SlotCause (D.standing self.old.disk) (D.standing self.new.disk) self.old.sector slot) }
    {
        let Some(place) = place_of(self.disk.length(), self.sector, slot) else {
            return Err(ShelfFault::Short { slot });
        };
        match read_onto(&mut self.disk, place, self.sector, out) {
            Ok(()) => Ok(()),
            Err(ReadFault::Failed) => Err(ShelfFault::Disk),
            Err(ReadFault::Memory) => Err(ShelfFault::Memory),
        }
    }

    /// Makes a live slot free. All else stays. It takes no memory.
    pub fn free(&mut self, slot: u64)
        requires { mark_of self.old.marks slot ≡ Mark.Live }
        ensures { self.new ≡ with_mark self.old slot Mark.Free }
    {
        self.marks.make_free(slot);
    }

    /// How long the disk is, in bytes.
    pub fn length(&self) -> u64
        ensures { result ≡ length (D.standing self.now.disk).seen }
    {
        self.disk.length()
    }

    /// Gives the disk back.
    pub fn close(self) -> D
        ensures { result ≡ self.disk }
    {
        let Shelf { disk, .. } = self;
        disk
    }
}
