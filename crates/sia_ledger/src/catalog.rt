//! The facts of a chain, found by identifier, by the address that they pay and by the end that they set.
ghost use Rattle.std.specs.Prelude.{◌≡◌, ◌-◌, ◌<◌, ◌^◌, ◌%◌, ◌++◌, ◌∷◌, [], List as Sequence, length, take, false, slice_get, option_copied, Some, OnOk, OnErr};
ghost use Rattle.std.specs.Ordering.{nat_cmp};
ghost use Rattle.std.specs.Cmp.Lexicographic.{slice_cmp};
ghost use Rattle.sia_ledger.specs.Cataloged.{addresses_of, ends_of, paid_address, set_end, IsCataloged};
ghost use Rattle.sia_ledger.specs.Chained.{last_keyed};
ghost use Rattle.sia_ledger.specs.Claiming.{all_shares};
ghost use Rattle.sia_ledger.specs.Facts.{claim_at, is_known, last_deed};
ghost use Rattle.sia_ledger.specs.declared.fact.Fact.{Fact as Entry};

use crate::chains::Chains;
use crate::fact::{Deed, Fact};
use crate::register::Register;
use sia_blake::Hash;
use sia_encoding::List;
use std::alloc::{AllocError, Global};
use std::marker::Model;

/// The facts of a chain in order. Contracts see the list of them.
///
/// Facts are taken back from the end without memory.
#[derive(Drop)]
pub(crate) struct Catalog {
    register: Register,
    addresses: Chains<Hash>,
    ends: Chains<u64>,
}

impl Model for Catalog {
    ghost use Rattle.std.specs.Prelude.{List as Sequence};
    ghost use Rattle.sia_ledger.specs.declared.fact.Fact.{Fact as Entry};
    ghost use Rattle.sia_ledger.specs.Cataloged.{IsCataloged};

    ghost Value = { Sequence Entry };

    ghost view = { λ c. c.register };

    ghost invariant = { λ c. IsCataloged c.addresses c.ends c.register };
}

impl Catalog {
    /// The catalog without a fact. It takes no memory.
    pub(crate) fn new(alloc: Global) -> Catalog
        ensures { result ≡ [] }
    {
        Catalog {
            register: Register::new(alloc),
            addresses: Chains::new(alloc),
            ends: Chains::new(alloc),
        }
    }

    /// The same facts, found by identifier.
    pub(crate) fn register(&self) -> &Register
        ensures { result.now ≡ self.now }
    {
        &self.register
    }

    /// The facts in order.
    pub(crate) fn as_slice(&self) -> &[Fact]
        ensures { result.now ≡ self.now }
    {
        self.register.as_slice()
    }

    /// Whether a fact is about an identifier.
    pub(crate) fn knows(&self, id: &Hash) -> bool
        ensures { result ≡ is_known self.now id.now }
    {
        self.register.knows(id)
    }

    /// What last happened to an identifier.
    pub(crate) fn last(&self, id: &Hash) -> Option<&Deed>
        ensures { option_copied result ≡ last_deed self.now id.now }
    {
        self.register.last(id)
    }

    /// What the siafund output with this identifier claims, where facts behind these bring so many shares more, and none of them is
    /// about it.
    pub(crate) fn claim(&self, id: &Hash, later: u128) -> u128
        ensures { (behind : Sequence Entry) → later ≡ all_shares behind % 2 ^ 128 → is_known behind id.now ≡ false → claim_at (self.now ++ behind) id.now < 2 ^ 128 → result ≡ claim_at (self.now ++ behind) id.now }
    {
        self.register.claim(id, later)
    }

    /// Puts a fact behind the last one. Its error is want of memory: all stays.
    pub(crate) fn push(&mut self, fact: Fact) -> Result<(), AllocError>
        ensures ok { OnOk result (self.new ≡ self.old ++ fact ∷ []) }
        ensures err { OnErr result (self.new ≡ self.old) }
    {
        let (address, end) = (address_paid(&fact.deed), end_set(&fact.deed));
        match push_keys(&mut self.addresses, &mut self.ends, address, end) {
            Err(_) => Err(AllocError),
            Ok(_) => match self.register.push(fact) {
                Ok(_) => Ok(()),
                Err(_) => {
                    pop_keys(&mut self.addresses, &mut self.ends, address, end);
                    Err(AllocError)
                }
            },
        }
    }

    /// Takes back the last fact, if there is one. It takes no memory.
    pub(crate) fn pop(&mut self)
        ensures { self.new ≡ take (length self.old - 1) self.old }
    {
        if let Some(fact) = self.register.as_slice().last() {
            let (address, end) = (address_paid(&fact.deed), end_set(&fact.deed));
            pop_keys(&mut self.addresses, &mut self.ends, address, end);
            self.register.pop();
        }
    }

    /// Puts facts behind the last one. Its error is want of memory: all stays.
    pub(crate) fn append(&mut self, facts: List<Fact>) -> Result<(), AllocError>
        ensures ok { OnOk result (self.new ≡ self.old ++ facts) }
        ensures err { OnErr result (self.new ≡ self.old) }
    {
        let count = self.register().len();
        for fact in facts.into_vec() {
            match self.push(fact) {
                Ok(_) => {}
                Err(error) => {
                    self.truncate(count);
                    return Err(error);
                }
            }
        }
        Ok(())
    }

    /// Takes back all but the first `count` facts. It takes no memory.
    pub(crate) fn truncate(&mut self, count: usize)
        ensures { self.new ≡ take count self.old }
    {
        while self.register().len() > count {
            self.pop();
        }
    }

    /// The last fact that pays an address.
    pub(crate) fn last_paying(&self, address: &Hash) -> Option<u64>
        ensures { result ≡ last_keyed (slice_cmp nat_cmp) address.now (addresses_of self.now) }
    {
        self.addresses.last(address)
    }

    /// The last fact before this one that pays the same address.
    pub(crate) fn paying_before(&self, place: u64, _address: &Hash) -> Option<u64>
        requires { slice_get (addresses_of self.now) place ≡ Some (Some _address.now) }
        ensures { result ≡ last_keyed (slice_cmp nat_cmp) _address.now (take place (addresses_of self.now)) }
    {
        self.addresses.earlier(place)
    }

    /// The last fact that sets a contract's end to a height.
    pub(crate) fn last_ending(&self, height: u64) -> Option<u64>
        ensures { result ≡ last_keyed nat_cmp height (ends_of self.now) }
    {
        self.ends.last(&height)
    }

    /// The last fact before this one that sets an end to the same height.
    pub(crate) fn ending_before(&self, place: u64, _height: u64) -> Option<u64>
        requires { slice_get (ends_of self.now) place ≡ Some (Some _height) }
        ensures { result ≡ last_keyed nat_cmp _height (take place (ends_of self.now)) }
    {
        self.ends.earlier(place)
    }
}

// One fact more, by its keys. Its error is want of memory: all stays.
fn push_keys(
    addresses: &mut Chains<Hash>,
    ends: &mut Chains<u64>,
    address: Option<Hash>,
    end: Option<u64>,
) -> Result<(), AllocError>
    ensures pushed { OnOk result ((facts : Sequence Entry) (fact : Entry) → paid_address fact.deed ≡ address → set_end fact.deed ≡ end → IsCataloged addresses.old ends.old facts → IsCataloged addresses.new ends.new (facts ++ fact ∷ [])) }
    ensures unchanged { OnErr result ((facts : Sequence Entry) → IsCataloged addresses.old ends.old facts → IsCataloged addresses.new ends.new facts) }
{
    match addresses.push(address) {
        Err(_) => Err(AllocError),
        Ok(_) => match ends.push(end) {
            Ok(_) => Ok(()),
            Err(_) => {
                addresses.pop(address);
                Err(AllocError)
            }
        },
    }
}

// The last fact taken back, by its keys. It takes no memory.
fn pop_keys(
    addresses: &mut Chains<Hash>,
    ends: &mut Chains<u64>,
    address: Option<Hash>,
    end: Option<u64>,
)
    ensures { (facts : Sequence Entry) (fact : Entry) → paid_address fact.deed ≡ address → set_end fact.deed ≡ end → IsCataloged addresses.old ends.old (facts ++ fact ∷ []) → IsCataloged addresses.new ends.new facts }
{
    addresses.pop(address);
    ends.pop(end);
}

// The address of the siacoin output that a deed makes.
fn address_paid(deed: &Deed) -> Option<Hash>
    ensures { result ≡ paid_address deed.now }
{
    match deed {
        Deed::Coin { output, .. } => {
            let address = output.address;
            Some(address)
        }
        _ => None,
    }
}

// The end of the contract that a deed forms or revises.
fn end_set(deed: &Deed) -> Option<u64>
    ensures { result ≡ set_end deed.now }
{
    match deed {
        Deed::Formed(terms) => Some(terms.end),
        Deed::Revised(terms) => Some(terms.end),
        _ => None,
    }
}
