//! A list of bytes that only clauses read.

ghost use Rattle.std.specs.Prelude.{◌≡◌, [], ◌∷◌, ◌++◌};
ghost use Rattle.sia_blake.specs.History.{absorbed_bytes};

use std::snapshot::Snapshot;

/// The bytes that a hasher was given. None of them is kept at run time, since a snapshot has no bytes.
#[derive(Drop)]
pub(crate) enum Absorbed {
    Nothing,
    Then {
        before: Snapshot<Absorbed>,
        byte: Snapshot<u8>,
    },
    /// The bytes that another hasher was given.
    Same {
        other: Snapshot<Absorbed>,
    },
}

impl Absorbed {
    /// The same bytes.
    pub(crate) fn copy(&self) -> Absorbed
        ensures { absorbed_bytes result ≡ absorbed_bytes self.now }
    {
        Absorbed::Same {
            other: Snapshot::of(self),
        }
    }

    /// These bytes and one more.
    fn and(&self, byte: &u8) -> Absorbed
        ensures { absorbed_bytes result ≡ absorbed_bytes self.now ++ byte.now ∷ [] }
    {
        Absorbed::Then {
            before: Snapshot::of(self),
            byte: Snapshot::of(byte),
        }
    }

    /// Adds bytes to the list.
    pub(crate) fn note(&mut self, bytes: &[u8])
        ensures { absorbed_bytes self.new ≡ absorbed_bytes self.old ++ bytes.now }
    {
        for byte in bytes {
            *self = self.and(byte);
        }
    }
}
