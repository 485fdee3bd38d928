//! What a chain made and did, in order, and found by identifier.
ghost use Rattle.std.specs.Prelude.{◌≡◌, ℕ, ◌+◌, ◌-◌, ◌<◌, ◌^◌, ◌%◌, ◌++◌, ◌∷◌, [], List as Sequence, length, take, drop, not, false, OnOk, OnErr, option_copied, cond, slice_index_or as get_or, IsSome};
ghost use Rattle.std.specs.Str.{bytes_eq};
ghost use Rattle.std.specs.HashMap.{get as found_at};
ghost use Rattle.sia_ledger.specs.declared.fact.Fact.{Fact as Entry};
ghost use Rattle.sia_ledger.specs.Claiming.{all_shares};
ghost use Rattle.sia_ledger.specs.Facts.{claim_at, is_known, last_deed, taxes};
ghost use Rattle.sia_ledger.specs.Holdings.{outputs, escrow};
ghost use Rattle.sia_ledger.specs.Registered.{last_place};

use crate::claiming::funds;
use crate::fact::{Deed, Fact};
use crate::running::Running;
use sia_blake::Hash;
use sia_encoding::List;
use sia_rules::FUND_COUNT;
use std::alloc::{AllocError, Global};
use std::collections::HashMap;
use std::marker::Model;

/// What is kept beside a fact: all that taking it back needs.
#[derive(Clone, Copy)]
pub(crate) struct Link {
    /// The place of the last fact before it about the same identifier.
    pub earlier: Option<u64>,
    /// The taxes of the formations before it, in hastings for each siafund, modulo 2^128.
    pub shares: u128,
}

/// The facts of a chain in order. Contracts see the list of them.
///
/// The last fact about an identifier is found without a walk, and facts are taken back from the end without memory.
#[derive(Drop)]
pub(crate) struct Register {
    facts: Vec<Fact>,
    links: Vec<Link>,
    /// Where the last fact about an identifier stands.
    places: HashMap<Hash, u64>,
    sums: Running,
}

impl Model for Register {
    ghost use Rattle.std.specs.Prelude.{List as Sequence};
    ghost use Rattle.sia_ledger.specs.declared.fact.Fact.{Fact as Entry};
    ghost use Rattle.sia_ledger.specs.Registered.{IsRegistered};

    ghost Value = { Sequence Entry };

    ghost view = { λ r. r.facts.items };

    ghost invariant = { λ r. IsRegistered r.places r.links.items r.sums r.facts.items };
}

impl Register {
    /// The register without a fact. It takes no memory.
    pub(crate) fn new(alloc: Global) -> Register
        ensures { result ≡ [] }
    {
        Register {
            facts: Vec::new(alloc),
            links: Vec::new(alloc),
            places: HashMap::new(alloc),
            sums: Running::none(),
        }
    }

    /// The facts in order.
    pub(crate) fn as_slice(&self) -> &[Fact]
        ensures { result.now ≡ self.now }
    {
        self.facts.as_slice()
    }

    /// How many facts there are.
    pub(crate) fn len(&self) -> usize
        ensures { result ≡ length self.now }
    {
        self.facts.as_slice().len()
    }

    /// The facts in order, for good.
    pub(crate) fn into_facts(self) -> List<Fact>
        ensures { result ≡ self }
    {
        let Register { facts, .. } = self;
        List::from_vec(facts)
    }

    /// Whether a fact is about an identifier.
    pub(crate) fn knows(&self, id: &Hash) -> bool
        ensures { result ≡ is_known self.now id.now }
    {
        self.places.contains_key(id)
    }

    /// What last happened to an identifier.
    pub(crate) fn last(&self, id: &Hash) -> Option<&Deed>
        ensures { option_copied result ≡ last_deed self.now id.now }
    {
        deed_at(self.facts.as_slice(), self.places.get(id).copied())
    }

    /// All live siacoin outputs.
    pub(crate) fn outputs(&self) -> u128
        requires { outputs self.now < 2 ^ 128 }
        ensures { result ≡ outputs self.now }
    {
        self.sums.outputs
    }

    /// What running contracts hold.
    pub(crate) fn escrow(&self) -> u128
        requires { escrow self.now < 2 ^ 128 }
        ensures { result ≡ escrow self.now }
    {
        self.sums.escrow
    }

    /// The taxes of all formations, modulo 2^128.
    pub(crate) fn pool(&self) -> u128
        ensures { result ≡ taxes self.now % 2 ^ 128 }
    {
        self.sums.shares.wrapping_mul(FUND_COUNT)
    }

    /// The taxes of all formations, in hastings for each siafund, modulo 2^128.
    pub(crate) fn shares(&self) -> u128
        ensures { result ≡ all_shares self.now % 2 ^ 128 }
    {
        self.sums.shares
    }

    /// What the siafund output with this identifier claims, where facts behind these bring so many shares more, and none of them is
    /// about it.
    pub(crate) fn claim(&self, id: &Hash, later: u128) -> u128
        ensures { (behind : Sequence Entry) → later ≡ all_shares behind % 2 ^ 128 → is_known behind id.now ≡ false → claim_at (self.now ++ behind) id.now < 2 ^ 128 → result ≡ claim_at (self.now ++ behind) id.now }
    {
        match self.places.get(id).copied() {
            None => 0,
            Some(place) => {
                let (fact, link) = both_at(self.facts.as_slice(), self.links.as_slice(), place);
                let since = self
                    .sums
                    .shares
                    .wrapping_sub(link.shares)
                    .wrapping_add(later);
                funds(&fact.deed).wrapping_mul(since)
            }
        }
    }

    /// Whether no fact behind this place is about the same identifier.
    pub(crate) fn is_last(&self, place: usize) -> bool
        requires { place < length self.now }
        ensures { (fact : Entry) → fact ≡ get_or self.now place fact → result ≡ not (is_known (drop (place + 1) self.now) fact.id) }
    {
        match self.places.get(&self.facts[place].id) {
            Some(last) => *last == place as u64,
            None => false,
        }
    }

    /// Puts a fact behind the last one. Its error is want of memory: all stays.
    pub(crate) fn push(&mut self, fact: Fact) -> Result<(), AllocError>
        ensures ok { OnOk result (self.new ≡ self.old ++ fact ∷ []) }
        ensures err { OnErr result (self.new ≡ self.old) }
    {
        let (id, place) = (fact.id, self.len() as u64);
        self.facts.reserve(1)?;
        self.links.reserve(1)?;
        match self.places.insert(id, place) {
            Err(_) => Err(AllocError),
            Ok(earlier) => {
                let shares = self.sums.shares;
                self.sums
                    .more(&fact.deed, deed_at(self.facts.as_slice(), earlier));
                self.facts.push_reserved(fact);
                self.links.push_reserved(Link { earlier, shares });
                Ok(())
            }
        }
    }

    /// Puts facts behind the last one. Its error is want of memory: all stays.
    pub(crate) fn append(&mut self, facts: List<Fact>) -> Result<(), AllocError>
        ensures ok { OnOk result (self.new ≡ self.old ++ facts) }
        ensures err { OnErr result (self.new ≡ self.old) }
    {
        let count = self.len();
        for fact in facts.into_vec() {
            match self.push(fact) {
                Ok(()) => {}
                Err(error) => {
                    self.truncate(count);
                    return Err(error);
                }
            }
        }
        Ok(())
    }

    /// Takes back all but the first `count` facts. It takes no memory.
    pub(crate) fn truncate(&mut self, count: usize)
        ensures { self.new ≡ take count self.old }
    {
        while self.len() > count {
            self.pop();
        }
    }

    /// Takes back the last fact, if there is one. It takes no memory.
    pub(crate) fn pop(&mut self)
        ensures { self.new ≡ take (length self.old - 1) self.old }
    {
        if let (Some(fact), Some(link)) = (self.facts.pop(), self.links.pop()) {
            set_back(&mut self.places, &fact.id, link.earlier);
            self.sums
                .less(&fact.deed, deed_at(self.facts.as_slice(), link.earlier));
        }
    }
}

// The deed at a place.
fn deed_at(facts: &[Fact], place: Option<u64>) -> Option<&Deed>
    ensures { (id : Sequence ℕ) → place ≡ last_place facts.now id → option_copied result ≡ last_deed facts.now id }
{
    let place = place?;
    let fact = facts.get(place as usize)?;
    Some(&fact.deed)
}

// The fact at a place, and what is kept beside it.
fn both_at<'r>(facts: &'r [Fact], links: &'r [Link], place: u64) -> (&'r Fact, &'r Link)
    requires within { place < length facts.now }
    requires beside { length links.now ≡ length facts.now }
    ensures fact { result.0.now ≡ get_or facts.now place result.0.now }
    ensures link { result.1.now ≡ get_or links.now place result.1.now }
{
    (&facts[place as usize], &links[place as usize])
}

// What a map finds at an identifier is set back to what it found there earlier. It takes no memory.
fn set_back(places: &mut HashMap<Hash, u64>, id: &Hash, earlier: Option<u64>)
    requires { IsSome (found_at bytes_eq places.old id.now) }
    ensures { (other : Sequence ℕ) → found_at bytes_eq places.new other ≡ cond (bytes_eq id.now other) earlier (found_at bytes_eq places.old other) }
{
    match earlier {
        None => {
            places.remove(id);
        }
        Some(place) => {
            let id = *id;
            // What is there takes no memory.
            match places.insert(id, place) {
                Ok(_) | Err(_) => {}
            }
        }
    }
}
