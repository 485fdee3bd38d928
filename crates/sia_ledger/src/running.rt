//! Sums over what stands among facts, kept as facts come and go.
ghost use Rattle.std.specs.Prelude.{◌≡◌, ℕ, ◌+◌, ◌%◌, ◌^◌, ◌++◌, ◌∷◌, [], List as Sequence, option_copied};
ghost use Rattle.sia_ledger.specs.declared.fact.Fact.{Fact as Entry};
ghost use Rattle.sia_ledger.specs.Facts.{last_deed};
ghost use Rattle.sia_ledger.specs.Holdings.{coins_of, held_by};
ghost use Rattle.sia_ledger.specs.Registered.{running, last_counts};

use crate::claiming::shares_by;
use crate::fact::Deed;
use crate::holdings::{coins, held};

/// Sums over what stands, each modulo 2^128.
#[derive(Clone, Copy)]
pub(crate) struct Running {
    /// All live siacoin outputs, in hastings.
    pub outputs: u128,
    /// What running contracts hold, in hastings.
    pub escrow: u128,
    /// The taxes of all formations, in hastings for each siafund.
    pub shares: u128,
}

impl Running {
    /// The sums over no facts.
    #[tactic(auto, unfolding(crate::specs::Registered::running))]
    pub(crate) fn none() -> Running
        ensures { result ≡ running [] }
    {
        Running {
            outputs: 0,
            escrow: 0,
            shares: 0,
        }
    }

    /// One deed more, where `before` was the last one about its identifier.
    pub(crate) fn more(&mut self, deed: &Deed, before: Option<&Deed>)
        ensures { (facts : Sequence Entry) (fact : Entry) → self.old ≡ running facts → fact.deed ≡ deed.now → last_deed facts fact.id ≡ option_copied before.entry → self.new ≡ running (facts ++ fact ∷ []) }
    {
        self.outputs = moved(self.outputs, last_coins(before), coins(deed));
        self.escrow = moved(self.escrow, last_held(before), held(deed));
        self.shares = moved(self.shares, 0, shares_by(deed));
    }

    /// The last deed goes, where `before` was the last one about its identifier before it.
    pub(crate) fn less(&mut self, deed: &Deed, before: Option<&Deed>)
        ensures { (facts : Sequence Entry) (fact : Entry) → self.old ≡ running (facts ++ fact ∷ []) → fact.deed ≡ deed.now → last_deed facts fact.id ≡ option_copied before.entry → self.new ≡ running facts }
    {
        self.outputs = moved(self.outputs, coins(deed), last_coins(before));
        self.escrow = moved(self.escrow, held(deed), last_held(before));
        self.shares = moved(self.shares, shares_by(deed), 0);
    }
}

// A sum modulo 2^128 from which one number goes and to which another comes.
fn moved(sum: u128, gone: u128, come: u128) -> u128
    ensures { (before after : ℕ) → sum ≡ before % 2 ^ 128 → after + gone ≡ before + come → result ≡ after % 2 ^ 128 }
{
    sum.wrapping_sub(gone).wrapping_add(come)
}

// The value of a siacoin output, where a deed is the last one about its identifier.
fn last_coins(before: Option<&Deed>) -> u128
    ensures { result ≡ last_counts coins_of (option_copied before.entry) }
{
    match before {
        Some(deed) => coins(deed),
        None => 0,
    }
}

// What a running contract holds, where a deed is the last one about its identifier.
fn last_held(before: Option<&Deed>) -> u128
    ensures { result ≡ last_counts held_by (option_copied before.entry) }
{
    match before {
        Some(deed) => held(deed),
        None => 0,
    }
}
