//! A book is opened on its disks.
ghost use Rattle.std.specs.Prelude.{◌≡◌, ℕ, ◌*◌, ◌^◌, ◌≤◌, false, replicate, length, IsTrue, IfErr, IfOk, OnOk, None, List as Sequence};
ghost use Rattle.sia_edge.specs.Disk.{EachImage, IsSettled, Leaves, Quiet, TimePasses};
ghost use Rattle.sia_ledger.specs.Genesis.{genesis_refusal};
ghost use Rattle.sia_host.specs.Spoiling.{is_spoiled};
ghost use Rattle.sia_journal.specs.Listed.{IsFew};
ghost use Rattle.sia_journal.specs.Journal.{HoldsListed, IsReady, MidAppend};
ghost use Rattle.sia_shelf.specs.Slots.{IsSectorSize};
ghost use Rattle.sia_shelf.specs.Shelf.{mark_of};
ghost use Rattle.std.specs.List.{All};
ghost use Rattle.sia_kept.specs.State.{live_slots};
ghost use Rattle.sia_book.specs.Opening.{MarksLive, is_missing};
ghost use Rattle.sia_book.specs.Books.{BeginningCause, opened_disk, renter_after, MissingCause, JOURNAL_HEADER, IsOpened, JournalCause, OpeningCause, ShelfCause, TakesIn, TakingCause, first_host, journal_after, open_fault_of, shelf_after};

use crate::book::Book;
use crate::fault::OpenFault;
use crate::replaying::{ReplayFault, replay_all};
use crate::slots::{least_missing, mark_all};
use sia_config::HostConfig;
use sia_edge::{Did, Disk, Disks, SigCheck};
use sia_forms::own_address;
use sia_host::{Core, CoreConfig, CoreFault};
use sia_journal::{Journal, JournalFault};
use sia_shelf::{Mark, Shelf};
use sia_types::Settings;
use std::alloc::{AllocError, Global};

/// The header of a host's journal.
const HEADER: [u8; 16] = *b"sia journal v1\0\0";

// The host before its first record. The error is want of memory.
fn first_core(
    alloc: Global,
    config: HostConfig,
    key: [u8; 32],
    seed: [u8; 32],
) -> Result<Core, AllocError>
    requires size { (power : ℕ) × (power ≤ 16) × (config.settings.sector ≡ 64 * 2 ^ power) }
    requires founds { genesis_refusal config.params ≡ None }
    ensures { IfOk result (λ core. core ≡ first_host config key seed) }
{
    let address = own_address(alloc, &key)?;
    let settings = Settings {
        host_key: key,
        address,
        ..config.settings
    };
    let begins = CoreConfig {
        params: config.params,
        settings,
        margin: config.margin,
    };
    match Core::new(alloc, begins, seed) {
        Ok(core) => Ok(core),
        Err(CoreFault::Memory) => Err(AllocError),
        Err(CoreFault::Genesis(_)) => unreachable!(),
    }
}

// What a fault of a journal's opening is to whoever opens a book.
fn open_fault(fault: JournalFault) -> OpenFault
    ensures { result ≡ open_fault_of fault }
{
    match fault {
        JournalFault::Memory => OpenFault::Memory,
        JournalFault::Disk => OpenFault::Disk,
        JournalFault::Damaged { at } => OpenFault::Damaged { at, shelf: false },
        JournalFault::Full { need: _, limit: _ } => OpenFault::Disk,
    }
}

// The journal of a host.
fn open_journal<D: Disk>(alloc: Global, disk: D, limit: u64) -> Result<Journal<D>, (OpenFault, D)>
    requires low { 17 ≤ limit }
    requires high { limit ≤ 2 ^ 36 }
    ensures ready { IfOk result (λ journal. IsReady D.standing journal) }
    ensures limit { IfOk result (λ journal. journal.limit ≡ limit) }
    ensures listed { IsTrue D.tells → IfOk result (λ journal. HoldsListed JOURNAL_HEADER limit (D.standing disk) (D.standing journal.disk)) }
    ensures time { TimePasses (D.standing disk) (D.standing (opened_disk result)) }
    ensures crash { IsTrue D.tells → (records : Sequence (Sequence ℕ)) (payload : Sequence ℕ) → EachImage (MidAppend JOURNAL_HEADER limit records payload) (D.standing disk)
        → Leaves (MidAppend JOURNAL_HEADER limit records payload) (D.standing disk) (D.standing (opened_disk result)) }
    ensures few { IsTrue D.tells → EachImage IsFew (D.standing disk) → Leaves IsFew (D.standing disk) (D.standing (opened_disk result)) }
    ensures cause { IfErr result (λ refused. JournalCause D.tells limit (D.standing disk) (D.standing refused.1) refused.0) }
{
    match Journal::open(alloc, disk, &HEADER, limit) {
        Ok(journal) => Ok(journal),
        Err((fault, disk)) => Err((open_fault(fault), disk)),
    }
}

// The shelf of a host, of which nothing is pending on the disk.
fn open_shelf<D: Disk>(
    alloc: Global,
    disk: D,
    sector: u64,
    slots: u64,
) -> Result<Shelf<D>, (OpenFault, D)>
    requires size { IsSectorSize sector }
    requires few { slots ≤ 2 ^ 20 }
    ensures sector { IfOk result (λ shelf. shelf.sector ≡ sector) }
    ensures marks { IfOk result (λ shelf. shelf.marks ≡ replicate slots Mark.Free) }
    ensures quiet { IfOk result (λ shelf. Quiet (D.standing disk) (D.standing shelf.disk)) }
    ensures settled { IfOk result (λ shelf. IsSettled (D.standing shelf.disk)) }
    ensures still { IfErr result (λ refused. Quiet (D.standing disk) (D.standing refused.1)) }
    ensures cause { IfErr result (λ refused. ShelfCause (D.standing disk) (D.standing refused.1) refused.0) }
{
    let mut disk = disk;
    if disk.sync() == Did::Failed {
        return Err((OpenFault::Disk, disk));
    }
    match Shelf::new(alloc, disk, sector, slots) {
        Ok(shelf) => Ok(shelf),
        Err((AllocError, disk)) => Err((OpenFault::Memory, disk)),
    }
}

impl<D: Disk> Book<D> {
    // Takes the journal's records in, and marks the slots that they name. A sector has so many bytes, and the shelf so many slots.
    fn take_in<C: SigCheck>(
        &mut self,
        alloc: Global,
        sector: u64,
        slots: u64,
        check: &C,
    ) -> Result<(), OpenFault>
        requires ready { IsReady D.standing self.old.journal }
        requires settled { is_spoiled self.old.core.phase ≡ false }
        requires sector { self.old.shelf.sector ≡ sector }
        requires small { sector ≤ 2 ^ 22 }
        requires count { length self.old.shelf.marks ≡ slots }
        requires few { slots ≤ 2 ^ 20 }
        requires free { (slot : ℕ) → mark_of self.old.shelf.marks slot ≡ Mark.Free }
        ensures done { OnOk result (TakesIn D.standing D.tells C.verdict sector slots self.old self.new) }
        ensures quiet { Quiet (D.standing self.old.journal.disk) (D.standing self.new.journal.disk) }
        ensures shelf { self.new.shelf.disk ≡ self.old.shelf.disk }
        ensures renter { self.new.renter ≡ self.old.renter }
        ensures cause { IfErr result (TakingCause D.standing D.tells C.verdict sector slots self.old self.new) }
    {
        match replay_all(alloc, &mut self.journal, &mut self.core, check) {
            Ok(()) => self.mark_live(alloc, sector, slots),
            Err(ReplayFault::Memory) => Err(OpenFault::Memory),
            Err(ReplayFault::Disk) => Err(OpenFault::Disk),
            Err(ReplayFault::Unfit { at }) => Err(OpenFault::Damaged { at, shelf: false }),
        }
    }

    // Marks the slots that the records name.
    fn mark_live(&mut self, alloc: Global, sector: u64, slots: u64) -> Result<(), OpenFault>
        requires sector { self.old.shelf.sector ≡ sector }
        requires small { sector ≤ 2 ^ 22 }
        requires count { length self.old.shelf.marks ≡ slots }
        requires few { slots ≤ 2 ^ 20 }
        requires free { (slot : ℕ) → mark_of self.old.shelf.marks slot ≡ Mark.Free }
        ensures core { self.new.core ≡ self.old.core }
        ensures journal { self.new.journal ≡ self.old.journal }
        ensures disk { self.new.shelf.disk ≡ self.old.shelf.disk }
        ensures sector { self.new.shelf.sector ≡ self.old.shelf.sector }
        ensures renter { self.new.renter ≡ self.old.renter }
        ensures marks { OnOk result (MarksLive (live_slots self.old.core.state) slots self.new.shelf.marks) }
        ensures whole { OnOk result (All (λ (slot : ℕ). is_missing sector slots (length (D.standing self.old.shelf.disk).seen) slot ≡ false) (live_slots self.old.core.state)) }
        ensures cause { IfErr result (MissingCause sector slots (length (D.standing self.old.shelf.disk).seen) (live_slots self.old.core.state)) }
    {
        let live = self.core.live_slots(alloc)?;
        match least_missing(sector, slots, self.shelf.length(), live.as_slice()) {
            Some(slot) => Err(OpenFault::Damaged {
                at: slot.saturating_mul(sector),
                shelf: true,
            }),
            None => {
                mark_all(&mut self.shelf, live.as_slice());
                Ok(())
            }
        }
    }

    // A book over disks that are open, with the host before its first record.
    fn begin<C: SigCheck>(
        alloc: Global,
        core: Core,
        journal: Journal<D>,
        shelf: Shelf<D>,
        renter: D,
        sector: u64,
        slots: u64,
        check: &C,
    ) -> Result<Book<D>, (OpenFault, Disks<D>)>
        requires ready { IsReady D.standing journal }
        requires settled { is_spoiled core.phase ≡ false }
        requires sector { shelf.sector ≡ sector }
        requires small { sector ≤ 2 ^ 22 }
        requires marks { shelf.marks ≡ replicate slots Mark.Free }
        requires few { slots ≤ 2 ^ 20 }
        ensures begun { IfOk result (λ book. TakesIn D.standing D.tells C.verdict sector slots (record { core = core; journal = journal; shelf = shelf; renter = renter }) book) }
        ensures quiet { Quiet (D.standing journal.disk) (D.standing (journal_after result)) }
        ensures shelf { shelf_after result ≡ shelf.disk }
        ensures renter { renter_after result ≡ renter }
        ensures cause { IfErr result (λ refused. BeginningCause D.standing D.tells C.verdict sector slots core journal shelf refused.1 refused.0) }
    {
        let mut book = Book {
            core,
            journal,
            shelf,
            renter,
        };
        match book.take_in(alloc, sector, slots, check) {
            Ok(()) => Ok(book),
            Err(fault) => Err((fault, book.close())),
        }
    }

    /// Opens a host's disks, where nothing else writes them: the host is what the records of the journal make of one that begins with this
    /// configuration, key and seed, and there are no events. The journal and the shelf are synced first, and the journal's end is repaired. The limits and
    /// sizes are those of an accepted configuration. The check judges the signatures in the records.
    ///
    /// # Errors
    /// They hand the disks back. [`OpenFault::Disk`] only where the count of faults of one of the two rose; [`OpenFault::Damaged`] exactly by
    /// what the disks hold, where they tell it: the journal's own damage, then the first payload that isn't replayed, then the least slot
    /// that isn't whole on the shelf. [`OpenFault::Memory`] for want of memory.
    pub fn open<C: SigCheck>(
        alloc: Global,
        config: HostConfig,
        key: [u8; 32],
        seed: [u8; 32],
        disks: Disks<D>,
        check: &C,
    ) -> Result<Book<D>, (OpenFault, Disks<D>)>
        requires size { (power : ℕ) × (power ≤ 16) × (config.settings.sector ≡ 64 * 2 ^ power) }
        requires founds { genesis_refusal config.params ≡ None }
        requires low { 17 ≤ config.journal_limit }
        requires high { config.journal_limit ≤ 2 ^ 36 }
        requires few { config.slots ≤ 2 ^ 20 }
        ensures opened { IfOk result (λ book. IsOpened D.standing D.tells C.verdict config (first_host config key seed) disks book) }
        ensures renter { renter_after result ≡ disks.renter }
        ensures shelf { Quiet (D.standing disks.shelf) (D.standing (shelf_after result)) }
        ensures time { TimePasses (D.standing disks.journal) (D.standing (journal_after result)) }
        ensures crash { IsTrue D.tells → (records : Sequence (Sequence ℕ)) (payload : Sequence ℕ) → EachImage (MidAppend JOURNAL_HEADER config.journal_limit records payload) (D.standing disks.journal)
            → Leaves (MidAppend JOURNAL_HEADER config.journal_limit records payload) (D.standing disks.journal) (D.standing (journal_after result)) }
        ensures none { IsTrue D.tells → EachImage IsFew (D.standing disks.journal) → Leaves IsFew (D.standing disks.journal) (D.standing (journal_after result)) }
        ensures cause { IfErr result (λ refused. OpeningCause D.tells C.verdict (first_host config key seed) config (D.standing disks.journal) (D.standing refused.1.journal) (D.standing disks.shelf) (D.standing refused.1.shelf) refused.0) }
    {
        let Disks {
            journal,
            shelf,
            renter,
        } = disks;
        let sector = config.settings.sector;
        let slots = config.slots;
        let limit = config.journal_limit;
        let Ok(core) = first_core(alloc, config, key, seed) else {
            return Err((
                OpenFault::Memory,
                Disks {
                    journal,
                    shelf,
                    renter,
                },
            ));
        };
        let shelf = match open_shelf(alloc, shelf, sector, slots) {
            Ok(shelf) => shelf,
            Err((fault, shelf)) => {
                return Err((
                    fault,
                    Disks {
                        journal,
                        shelf,
                        renter,
                    },
                ));
            }
        };
        match open_journal(alloc, journal, limit) {
            Ok(journal) => Book::begin(alloc, core, journal, shelf, renter, sector, slots, check),
            Err((fault, journal)) => Err((
                fault,
                Disks {
                    journal,
                    shelf: shelf.close(),
                    renter,
                },
            )),
        }
    }
}
