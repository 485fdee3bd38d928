//! What is kept of a chain while a block is judged.
ghost use Rattle.std.specs.Prelude.{◌≡◌, ◌<◌, length, None};
ghost use Rattle.sia_ledger.specs.Holdings.{last_id};
ghost use Rattle.sia_ledger.specs.Judging.{state_kept};
ghost use Rattle.sia_ledger.specs.State.{next};

use crate::catalog::Catalog;
use sia_blake::Hash;
use std::marker::Model;

/// The identifiers and the facts of a chain. Contracts see the state behind its last block.
#[derive(Drop)]
pub(crate) struct Base<'a> {
    ids: &'a [Hash],
    catalog: &'a Catalog,
}

impl<'a> Model for Base<'a> {
    ghost use Rattle.std.specs.Prelude.{None};
    ghost use Rattle.sia_ledger.specs.State.{State};

    ghost Value = { State };

    ghost view = { λ b. record { ids = b.ids.now; facts = b.catalog.now; twice = None } };
}

impl<'a> Base<'a> {
    /// What these identifiers and facts say.
    pub(crate) fn new(ids: &'a [Hash], catalog: &'a Catalog) -> Base<'a>
        ensures { result ≡ state_kept ids.now catalog.now }
    {
        Base { ids, catalog }
    }

    /// The identifiers of the genesis and of each block.
    pub(crate) fn ids(&self) -> &'a [Hash]
        ensures { result.now ≡ self.now.ids }
    {
        self.ids
    }

    /// What the genesis and the blocks made and did.
    pub(crate) fn catalog(&self) -> &'a Catalog
        ensures facts { result.now ≡ self.now.facts }
        ensures new { self.now.twice ≡ None }
    {
        self.catalog
    }

    /// The height of the next block.
    pub(crate) fn next(&self) -> u64
        ensures { result ≡ next self.now }
    {
        self.ids.len() as u64
    }

    /// The identifier of the last block, or of the genesis.
    pub(crate) fn tip(&self) -> Hash
        requires { 0 < length self.now.ids }
        ensures { result ≡ last_id self.now.ids }
    {
        tip_of(self.ids)
    }
}

/// The last identifier.
#[tactic(auto, using(crate::proofs::LastId::last_at))]
pub(crate) fn tip_of(ids: &[Hash]) -> Hash
    requires { 0 < length ids.now }
    ensures { result ≡ last_id ids.now }
{
    ids[ids.len() - 1]
}
