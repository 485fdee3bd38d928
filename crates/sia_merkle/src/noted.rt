//! A list of bytes that only clauses read.
ghost use Rattle.std.specs.Prelude.{◌≡◌, [], ◌∷◌, ◌++◌};
ghost use Rattle.sia_merkle.specs.Pieces.{noted_bytes};

use std::snapshot::Snapshot;

/// The bytes that a stack was given. None of them is kept at run time, since a snapshot has no bytes.
#[derive(Drop)]
pub enum Noted {
    Nothing,
    Then {
        before: Snapshot<Noted>,
        byte: Snapshot<u8>,
    },
}

impl Noted {
    /// These bytes and one more.
    fn and(&self, byte: &u8) -> Noted
        ensures { noted_bytes result ≡ noted_bytes self.now ++ byte.now ∷ [] }
    {
        Noted::Then {
            before: Snapshot::of(self),
            byte: Snapshot::of(byte),
        }
    }

    /// Adds bytes to the list.
    pub fn note(&mut self, bytes: &[u8])
        ensures { noted_bytes self.new ≡ noted_bytes self.old ++ bytes.now }
    {
        for byte in bytes {
            *self = self.and(byte);
        }
    }
}
