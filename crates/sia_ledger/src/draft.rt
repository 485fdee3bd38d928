//! What is known while a block is judged: the facts that are kept, and the ones that are new.
ghost use Rattle.std.specs.Prelude.{◌≡◌, ◌<◌, ◌^◌, [], slice_get, option_copied, None, IfOk, OnOk};
ghost use Rattle.sia_ledger.specs.Blocks.{ending};
ghost use Rattle.sia_ledger.specs.Facts.{claim_at, coin_at, fund_at, is_known, last_deed, terms_at};
ghost use Rattle.sia_ledger.specs.Known.{state_in};
ghost use Rattle.sia_ledger.specs.State.{add, next};

use crate::base::Base;
use crate::catalog::Catalog;
use crate::ending::ending_of;
use crate::fact::{Deed, Fact};
use crate::lookups::is_making;
use crate::register::Register;
use sia_blake::Hash;
use sia_encoding::List;
use sia_types::{CoinOutput, FundOutput, Terms};
use std::alloc::{AllocError, Global};
use std::marker::Model;

/// Facts that are kept, and new ones behind them. Judgements and effects see the state through these look-ups alone.
#[derive(Drop)]
pub(crate) struct Draft<'a> {
    ids: &'a [Hash],
    kept: &'a Catalog,
    fresh: Register,
    twice: Option<Hash>,
}

impl<'a> Model for Draft<'a> {
    ghost use Rattle.sia_ledger.specs.Known.{Known};

    ghost Value = { Known };

    ghost view = { λ d. record { ids = d.ids.now; kept = d.kept.now; fresh = d.fresh; twice = d.twice } };
}

impl<'a> Draft<'a> {
    /// What is known behind what is kept, before anything new.
    pub(crate) fn begin(alloc: Global, base: &Base<'a>) -> Draft<'a>
        ensures is { result ≡ record { ids = base.now.ids; kept = base.now.facts; fresh = []; twice = None } }
        ensures same { state_in result ≡ base.now }
    {
        Draft {
            ids: base.ids(),
            kept: base.catalog(),
            fresh: Register::new(alloc),
            twice: None,
        }
    }

    /// What is new, and the first identifier that was made a second time.
    pub(crate) fn finish(self) -> (List<Fact>, Option<Hash>)
        ensures { result ≡ (self.entry.fresh, self.entry.twice) }
    {
        let Draft { fresh, twice, .. } = self;
        (fresh.into_facts(), twice)
    }

    /// The height of the next block.
    pub(crate) fn next(&self) -> u64
        ensures { result ≡ next (state_in self.now) }
    {
        self.ids.len() as u64
    }

    /// The identifier of the block at a height.
    pub(crate) fn id_at(&self, height: u64) -> Option<&Hash>
        ensures { option_copied result ≡ slice_get self.now.ids height }
    {
        self.ids.get(height as usize)
    }

    /// Whether a fact is about an identifier.
    pub(crate) fn knows(&self, id: &Hash) -> bool
        ensures { result ≡ is_known (state_in self.now).facts id.now }
    {
        self.kept.knows(id) || self.fresh.knows(id)
    }

    /// What last happened to an identifier.
    pub(crate) fn last(&self, id: &Hash) -> Option<&Deed>
        ensures { option_copied result ≡ last_deed (state_in self.now).facts id.now }
    {
        match self.fresh.last(id) {
            Some(deed) => Some(deed),
            None => self.kept.last(id),
        }
    }

    /// The live siacoin output, and the height from which it can be spent.
    pub(crate) fn coin(&self, id: &Hash) -> Option<(CoinOutput, u64)>
        ensures { result ≡ coin_at (state_in self.now).facts id.now }
    {
        match self.last(id) {
            Some(Deed::Coin { output, from }) => {
                let output = *output;
                Some((output, *from))
            }
            _ => None,
        }
    }

    /// The live siafund output.
    pub(crate) fn fund(&self, id: &Hash) -> Option<FundOutput>
        ensures { result ≡ fund_at (state_in self.now).facts id.now }
    {
        match self.last(id) {
            Some(Deed::Fund(output)) => {
                let output = *output;
                Some(output)
            }
            _ => None,
        }
    }

    /// The terms of the running contract.
    pub(crate) fn terms(&self, id: &Hash) -> Option<&Terms>
        ensures { option_copied result ≡ terms_at (state_in self.now).facts id.now }
    {
        match self.last(id) {
            Some(Deed::Formed(terms)) => Some(terms),
            Some(Deed::Revised(terms)) => Some(terms),
            _ => None,
        }
    }

    /// What the live siafund output claims.
    pub(crate) fn claim(&self, id: &Hash) -> u128
        requires { claim_at (state_in self.now).facts id.now < 2 ^ 128 }
        ensures { result ≡ claim_at (state_in self.now).facts id.now }
    {
        if self.fresh.knows(id) {
            return self.fresh.claim(id, 0);
        }
        self.kept.claim(id, self.fresh.shares())
    }

    /// The running contracts that end at a height, by ascending identifiers.
    pub(crate) fn ending(&self, alloc: Global, height: u64) -> Result<List<Hash>, AllocError>
        ensures { IfOk result (λ ids. ids ≡ ending height (state_in self.now).facts) }
    {
        ending_of(alloc, height, self.kept, &self.fresh)
    }

    /// One fact more, unless it makes what was made before.
    #[tactic(auto, unfolding(crate::specs::State::add))]
    pub(crate) fn add(&mut self, fact: Fact) -> Result<(), AllocError>
        ensures added { OnOk result (state_in self.new ≡ add (state_in self.old) fact) }
        ensures kept { self.new.kept ≡ self.old.kept }
        ensures ids { self.new.ids ≡ self.old.ids }
    {
        if is_making(&fact.deed) && self.knows(&fact.id) {
            if self.twice.is_none() {
                let id = fact.id;
                self.twice = Some(id);
            }
            return Ok(());
        }
        self.fresh.push(fact)
    }
}
