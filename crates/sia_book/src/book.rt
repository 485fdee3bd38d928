//! A host on its disks.
ghost use Rattle.std.specs.Prelude.{◌≡◌};
ghost use Rattle.sia_host.specs.Spoiling.{told_now};

use sia_blake::Hash;
use sia_commands::Event;
use sia_edge::{Disk, Disks};
use sia_host::Core;
use sia_journal::Journal;
use sia_ledger::Sums;
use sia_shelf::Shelf;

/// A host on its disks: its records stand in a journal, and its sectors in the slots of a shelf.
#[derive(Drop)]
pub struct Book<D: Disk> {
    pub(crate) core: Core,
    pub(crate) journal: Journal<D>,
    pub(crate) shelf: Shelf<D>,
    pub(crate) renter: D,
}

impl<D: Disk> Book<D> {
    /// The events of this run, in order.
    pub fn events(&self) -> &[Event]
        ensures { result.now ≡ self.now.core.events }
    {
        self.core.events()
    }

    /// What the chain holds.
    pub fn sums(&self) -> Sums
        ensures { result ≡ (told_now self.now.core).sums }
    {
        self.core.sums()
    }

    /// The identifier of the chain's last block.
    pub fn tip(&self) -> Hash
        ensures { result ≡ (told_now self.now.core).tip }
    {
        self.core.tip()
    }

    /// How many records the journal keeps, as far as a number of 64 bits goes.
    pub fn records(&self) -> u64
        ensures { result ≡ (told_now self.now.core).records }
    {
        self.core.records()
    }

    /// Gives the disks back.
    pub fn close(self) -> Disks<D>
        ensures { result ≡ record { journal = self.journal.disk; shelf = self.shelf.disk; renter = self.renter } }
    {
        let Book {
            core: _,
            journal,
            shelf,
            renter,
        } = self;
        Disks {
            journal: journal.close(),
            shelf: shelf.close(),
            renter,
        }
    }
}
