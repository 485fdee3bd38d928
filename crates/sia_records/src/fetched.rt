//! The sectors that were fetched for a write or a read, which only clauses read.
ghost use Rattle.std.specs.Prelude.{◌≡◌};
ghost use Rattle.sia_records.specs.Fetched.{fetched_sectors};

use sia_encoding::{Blob, List};
use std::snapshot::Snapshot;

/// The sectors that were fetched. None of their bytes is kept at run time, since a snapshot has no bytes.
#[derive(Drop)]
pub(crate) enum Fetched {
    These { sectors: Snapshot<List<Blob>> },
    /// Those that were fetched for another.
    Same { other: Snapshot<Fetched> },
}

impl Fetched {
    /// These sectors.
    pub(crate) fn new(sectors: &List<Blob>) -> Fetched
        ensures { fetched_sectors result ≡ sectors.now }
    {
        Fetched::These {
            sectors: Snapshot::of(sectors),
        }
    }

    /// The same sectors.
    pub(crate) fn copy(&self) -> Fetched
        ensures { fetched_sectors result ≡ fetched_sectors self.now }
    {
        Fetched::Same {
            other: Snapshot::of(self),
        }
    }
}
