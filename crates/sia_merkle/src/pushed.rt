//! A list of hashes that only clauses read.
ghost use Rattle.std.specs.Prelude.{◌≡◌, [], ◌∷◌, ◌++◌};
ghost use Rattle.sia_merkle.specs.History.{pushed_hashes};

use sia_blake::Hash;
use std::snapshot::Snapshot;

/// The hashes that were pushed. None of them is kept at run time, since a snapshot has no bytes.
#[derive(Drop)]
pub(crate) enum Pushed {
    Nothing,
    Then {
        before: Snapshot<Pushed>,
        hash: Snapshot<Hash>,
    },
}

impl Pushed {
    /// These hashes and one more.
    pub(crate) fn and(&self, hash: &Hash) -> Pushed
        ensures { pushed_hashes result ≡ pushed_hashes self.now ++ hash.now ∷ [] }
    {
        Pushed::Then {
            before: Snapshot::of(self),
            hash: Snapshot::of(hash),
        }
    }
}
