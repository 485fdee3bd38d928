//! The running contracts that end at a height, by ascending identifiers.
ghost use Rattle.std.specs.Prelude.{◌≡◌, ◌+◌, ◌<◌, ◌≤◌, ◌++◌, ◌∷◌, length, take, drop, not, slice_index_or as get_or, Some, IfOk, OnOk};
ghost use Rattle.sia_ledger.specs.declared.fact.Fact.{Fact as Entry};
ghost use Rattle.sia_ledger.specs.Blocks.{ending, ends_at};
ghost use Rattle.sia_ledger.specs.Facts.{is_known, terms_in};
ghost use Rattle.sia_ledger.specs.Order.{put_by};

use crate::catalog::Catalog;
use crate::fact::{Deed, Fact};
use crate::register::Register;
use sia_blake::Hash;
use sia_encoding::List;
use std::alloc::{AllocError, Global};

/// The running contracts that end at a height, where new facts stand behind kept ones. It goes through the kept facts that set
/// such an end alone, from the last to the first.
pub(crate) fn ending_of(
    alloc: Global,
    height: u64,
    kept: &Catalog,
    fresh: &Register,
) -> Result<List<Hash>, AllocError>
    ensures { IfOk result (λ ids. ids ≡ ending height (kept.now ++ fresh.now)) }
{
    let mut ids = ending_among(alloc, height, fresh)?;
    let mut next = kept.last_ending(height);
    while let Some(place) = next {
        put_at(&mut ids, height, kept.register(), place as usize, fresh)?;
        next = kept.ending_before(place, height);
    }
    Ok(List::from_vec(ids))
}

// Those among new facts.
fn ending_among(alloc: Global, height: u64, fresh: &Register) -> Result<Vec<Hash>, AllocError>
    ensures { IfOk result (λ ids. ids.items ≡ ending height fresh.now) }
{
    let none = Register::new(alloc);
    let mut ids = Vec::new(alloc);
    let mut at = fresh.len();
    while at > 0 {
        at -= 1;
        put_at(&mut ids, height, fresh, at, &none)?;
    }
    Ok(ids)
}

// Puts the fact at a place to those among the facts behind it, and later ones.
#[tactic(auto, using(crate::proofs::Ordered::ending_from))]
fn put_at(
    ids: &mut Vec<Hash>,
    height: u64,
    register: &Register,
    place: usize,
    later: &Register,
) -> Result<(), AllocError>
    requires within { place < length register.now }
    requires put { ids.old.items ≡ ending height (drop (place + 1) register.now ++ later.now) }
    ensures { OnOk result (ids.new.items ≡ ending height (drop place register.now ++ later.now)) }
{
    let is_last = is_last_of(register, place, later);
    let facts = register.as_slice();
    put_one(
        ids,
        height,
        &facts[place],
        &facts[place + 1..],
        later.as_slice(),
        is_last,
    )
}

// Whether neither a fact behind a place nor a later one is about the same identifier.
fn is_last_of(register: &Register, place: usize, later: &Register) -> bool
    requires { place < length register.now }
    ensures { (fact : Entry) → fact ≡ get_or register.now place fact → result ≡ not (is_known (drop (place + 1) register.now ++ later.now) fact.id) }
{
    if register.is_last(place) {
        return !later.knows(&register.as_slice()[place].id);
    }
    false
}

// Puts one fact to those among the facts behind it, and later ones.
#[tactic(auto, using(crate::proofs::Ordered::ending_here, crate::proofs::Ordered::ending_known, crate::proofs::Ordered::ending_other))]
fn put_one(
    ids: &mut Vec<Hash>,
    height: u64,
    fact: &Fact,
    _behind: &[Fact],
    _later: &[Fact],
    is_last: bool,
) -> Result<(), AllocError>
    requires last { is_last ≡ not (is_known (_behind.now ++ _later.now) fact.now.id) }
    requires put { ids.old.items ≡ ending height (_behind.now ++ _later.now) }
    ensures { OnOk result (ids.new.items ≡ ending height (fact.now ∷ (_behind.now ++ _later.now))) }
{
    if !is_ending(height, &fact.deed) {
        return Ok(());
    }
    if !is_last {
        return Ok(());
    }
    put_id(ids, &fact.id)
}

// Whether it leaves a contract running that ends at a height.
fn is_ending(height: u64, deed: &Deed) -> bool
    ensures { result ≡ ends_at height (terms_in (Some deed.now)) }
{
    match deed {
        Deed::Formed(terms) => terms.end == height,
        Deed::Revised(terms) => terms.end == height,
        _ => false,
    }
}

// Puts an identifier among ascending ones.
fn put_id(ids: &mut Vec<Hash>, id: &Hash) -> Result<(), AllocError>
    ensures { OnOk result (ids.new.items ≡ put_by (λ i. i) id.now ids.old.items) }
{
    let place = place_of(ids.as_slice(), id);
    let own = *id;
    ids.insert(place, own)?;
    Ok(())
}

// Where an identifier stands among ascending ones.
fn place_of(ids: &[Hash], id: &Hash) -> usize
    ensures place { put_by (λ i. i) id.now ids.now ≡ take result ids.now ++ id.now ∷ drop result ids.now }
    ensures within { result ≤ length ids.now }
{
    for (at, other) in ids.iter().enumerate() {
        if id.cmp(other).is_le() {
            return at;
        }
    }
    ids.len()
}
