//! Sectors are put into free slots, and live slots are freed.
ghost use Rattle.std.specs.Prelude.{◌≡◌, ℕ, List, IsTrue, IfErr, OnOk, length, take};
ghost use Rattle.std.specs.List.{All, Contains};
ghost use Rattle.sia_commands.specs.declared.step.PutJob.{PutJob as Put};
ghost use Rattle.sia_edge.specs.Disk.{Changes, EachImage};
ghost use Rattle.sia_shelf.specs.Slots.{Has};
ghost use Rattle.sia_shelf.specs.Shelf.{DiskFault, free_slots, mark_of};
ghost use Rattle.sia_store.specs.Lying.{AreLive, KeepsBut, MarksFreed, MarksPut, NamedOnce, put_slots};

use sia_commands::PutJob;
use sia_edge::Disk;
use sia_shelf::laws::first_free_may_be_put;
use sia_shelf::{Mark, Shelf, ShelfFault};

// Puts sectors into the first free slots.
fn put_each<S: Disk>(shelf: &mut Shelf<S>, puts: &[PutJob]) -> Result<(), ShelfFault>
    requires slots { put_slots puts.now ≡ take (length puts.now) (free_slots shelf.old.marks) }
    requires sizes { All (λ (put : Put). length put.bytes ≡ shelf.old.sector) puts.now }
    ensures sector { shelf.new.sector ≡ shelf.old.sector }
    ensures count { length shelf.new.marks ≡ length shelf.old.marks }
    ensures marked { OnOk result (All (λ (put : Put). mark_of shelf.new.marks put.slot ≡ Mark.Put) puts.now) }
    ensures others { OnOk result ((slot : ℕ) → (Contains (put_slots puts.now) slot → ⊥) → mark_of shelf.new.marks slot ≡ mark_of shelf.old.marks slot) }
    ensures changes { Changes (KeepsBut shelf.old.sector (put_slots puts.now)) (S.standing shelf.old.disk) (S.standing shelf.new.disk) }
    ensures wrote { IsTrue S.tells → OnOk result (All (λ (put : Put). Has shelf.old.sector put.slot put.bytes (S.standing shelf.new.disk).seen) puts.now) }
    ensures cause { IfErr result (DiskFault (S.standing shelf.old.disk) (S.standing shelf.new.disk)) }
{
    // which slots may be put, for the proof alone
    first_free_may_be_put();
    for put in puts {
        shelf.put(put.slot, put.bytes.as_slice())?;
    }
    Ok(())
}

/// Puts sectors into the first free slots, each into the next, and brings them onto the disk. A sector has the shelf's size. It takes no
/// memory. `Disk` is its one fault.
pub fn put_all<S: Disk>(shelf: &mut Shelf<S>, puts: &[PutJob]) -> Result<(), ShelfFault>
    requires slots { put_slots puts.now ≡ take (length puts.now) (free_slots shelf.old.marks) }
    requires sizes { All (λ (put : Put). length put.bytes ≡ shelf.old.sector) puts.now }
    ensures sector { shelf.new.sector ≡ shelf.old.sector }
    ensures count { length shelf.new.marks ≡ length shelf.old.marks }
    ensures free { (slot : ℕ) → Contains (put_slots puts.now) slot → mark_of shelf.old.marks slot ≡ Mark.Free }
    ensures marks { OnOk result (MarksPut (put_slots puts.now) shelf.old.marks shelf.new.marks) }
    ensures changes { Changes (KeepsBut shelf.old.sector (put_slots puts.now)) (S.standing shelf.old.disk) (S.standing shelf.new.disk) }
    ensures kept { IsTrue S.tells → OnOk result (All (λ (put : Put). EachImage (Has shelf.old.sector put.slot put.bytes) (S.standing shelf.new.disk)) puts.now) }
    ensures cause { IfErr result (DiskFault (S.standing shelf.old.disk) (S.standing shelf.new.disk)) }
{
    // which slots are free, for the proof alone
    first_free_may_be_put();
    put_each(shelf, puts)?;
    shelf.sync()
}

/// Makes live slots free, each of which is named once. All else stays. It takes no memory.
pub fn free_all<S: Disk>(shelf: &mut Shelf<S>, slots: &[u64])
    requires live { AreLive shelf.old.marks slots.now }
    requires once { NamedOnce slots.now }
    ensures marks { MarksFreed slots.now shelf.old.marks shelf.new.marks }
    ensures disk { shelf.new.disk ≡ shelf.old.disk }
    ensures sector { shelf.new.sector ≡ shelf.old.sector }
{
    for slot in slots {
        shelf.free(*slot);
    }
}
