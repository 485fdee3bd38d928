//! A record is kept with its sectors.
ghost use Rattle.std.specs.Prelude.{◌≡◌, ◌≤◌, ◌++◌, ◌∷◌, [], ◌⊎◌, ℕ, List, IsTrue, IfErr, OnOk, Ok, Err, length, take};
ghost use Rattle.std.specs.List.{All};
ghost use Rattle.sia_commands.specs.declared.step.PutJob.{PutJob as Put};
ghost use Rattle.sia_edge.specs.Disk.{EachImage, Leaves, TimePasses};
ghost use Rattle.sia_journal.specs.Journal.{Holds, IsReady, ListsEither, need_for};
ghost use Rattle.sia_shelf.specs.Shelf.{free_slots};
ghost use Rattle.sia_store.specs.Lying.{AreLive, HoldsAll, MarksPut, lying_over, put_slots};
ghost use Rattle.sia_store.specs.Storing.{AreFrom, Either, LeavesPairs, OpensAsEither, Stands, StoreCause};

use crate::fault::StoreFault;
use crate::putting::put_all;
use sia_commands::PutJob;
use sia_edge::Disk;
use sia_journal::laws::{at_rest_lists, mid_append_lists};
use sia_journal::{Journal, RecordBuf};
use sia_shelf::Shelf;

/// Puts sectors into the first free slots, brings them onto their disk, and then appends the record that names them. A sector has the
/// shelf's size, and the journal has room for the record. It takes no memory.
///
/// After an error the journal and the shelf have to be opened again: they open as the records before, or as those and the new one.
pub fn keep<J: Disk, S: Disk>(
    journal: &mut Journal<J>,
    shelf: &mut Shelf<S>,
    puts: &[PutJob],
    framed: &RecordBuf,
) -> Result<(), StoreFault>
    requires ready { IsReady J.standing journal.old }
    requires within { need_for J.standing journal.old framed.now ≤ journal.old.limit }
    requires slots { put_slots puts.now ≡ take (length puts.now) (free_slots shelf.old.marks) }
    requires sizes { All (λ (put : Put). length put.bytes ≡ shelf.old.sector) puts.now }
    ensures ready { OnOk result (IsReady J.standing journal.new) }
    ensures limit { journal.new.limit ≡ journal.old.limit }
    ensures end { OnOk result (length (J.standing journal.new.disk).seen ≡ need_for J.standing journal.old framed.now) }
    ensures sector { shelf.new.sector ≡ shelf.old.sector }
    ensures count { length shelf.new.marks ≡ length shelf.old.marks }
    ensures marks { OnOk result (MarksPut (put_slots puts.now) shelf.old.marks shelf.new.marks) }
    ensures unappended { result ≡ Err StoreFault.Shelf → journal.new ≡ journal.old }
    ensures put { result ≡ Err StoreFault.Journal → MarksPut (put_slots puts.now) shelf.old.marks shelf.new.marks }
    ensures files { IsTrue J.tells → (header : List ℕ) (records : List (List ℕ)) → Holds header records (J.standing journal.old.disk)
        → Leaves (ListsEither header journal.old.limit records framed.now) (J.standing journal.old.disk) (J.standing journal.new.disk) }
    ensures pairs { IsTrue J.tells → IsTrue S.tells → (header : List ℕ) (lies : ℕ → List ℕ) (records : List (List ℕ)) (old new : List ℕ)
        → Stands header shelf.old.sector lies records old (J.standing journal.old.disk) (S.standing shelf.old.disk) → AreLive shelf.old.marks old → AreFrom old (put_slots puts.now) new
        → LeavesPairs (OpensAsEither header journal.old.limit shelf.old.sector (lying_over lies puts.now) (record { old = records; old_slots = old; new = records ++ framed.now ∷ []; new_slots = new }))
        (J.standing journal.old.disk) (J.standing journal.new.disk) (S.standing shelf.old.disk) (S.standing shelf.new.disk) }
    ensures kept { IsTrue J.tells → IsTrue S.tells → OnOk result ((header : List ℕ) (lies : ℕ → List ℕ) (records : List (List ℕ)) (old new : List ℕ)
        → Stands header shelf.old.sector lies records old (J.standing journal.old.disk) (S.standing shelf.old.disk) → AreLive shelf.old.marks old → AreFrom old (put_slots puts.now) new
        → Stands header shelf.old.sector (lying_over lies puts.now) (records ++ framed.now ∷ []) new (J.standing journal.new.disk) (S.standing shelf.new.disk)) }
    ensures journal_time { TimePasses (J.standing journal.old.disk) (J.standing journal.new.disk) }
    ensures shelf_time { TimePasses (S.standing shelf.old.disk) (S.standing shelf.new.disk) }
    ensures cause { IfErr result (StoreCause (J.standing journal.old.disk) (J.standing journal.new.disk) (S.standing shelf.old.disk) (S.standing shelf.new.disk)) }
{
    // what files list, for the proof alone
    at_rest_lists();
    mid_append_lists();
    let Ok(()) = put_all(shelf, puts) else {
        return Err(StoreFault::Shelf);
    };
    match journal.append(framed) {
        Ok(()) => Ok(()),
        Err(_) => Err(StoreFault::Journal),
    }
}
