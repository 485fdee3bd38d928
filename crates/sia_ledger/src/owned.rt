//! The live siacoin outputs at an address, by ascending identifiers.
ghost use Rattle.std.specs.Prelude.{◌≡◌, ◌+◌, ◌<◌, ◌≤◌, ◌++◌, ◌∷◌, length, take, drop, not, Some, IfOk, OnOk};
ghost use Rattle.sia_ledger.specs.Facts.{coin_in, is_known};
ghost use Rattle.sia_ledger.specs.Holdings.{coin_of, live_coins_at};
ghost use Rattle.sia_ledger.specs.Order.{put_by};

use crate::catalog::Catalog;
use crate::fact::{Deed, Fact};
use crate::register::Register;
use sia_blake::Hash;
use sia_encoding::List;
use sia_types::Coin;
use std::alloc::{AllocError, Global};

/// The live siacoin outputs at an address. It goes through the facts that pay it alone, from the last to the first.
pub(crate) fn owned_by(
    alloc: Global,
    address: &Hash,
    catalog: &Catalog,
) -> Result<List<Coin>, AllocError>
    ensures { IfOk result (λ coins. coins ≡ live_coins_at catalog.now address.now) }
{
    let mut coins = Vec::new(alloc);
    let mut next = catalog.last_paying(address);
    while let Some(place) = next {
        put_at(&mut coins, address, catalog.register(), place as usize)?;
        next = catalog.paying_before(place, address);
    }
    Ok(List::from_vec(coins))
}

// Puts the output of the fact at a place to those of the facts behind it.
#[tactic(auto, using(crate::proofs::Ordered::owned_from))]
fn put_at(
    coins: &mut Vec<Coin>,
    address: &Hash,
    register: &Register,
    place: usize,
) -> Result<(), AllocError>
    requires within { place < length register.now }
    requires put { coins.old.items ≡ live_coins_at (drop (place + 1) register.now) address.now }
    ensures { OnOk result (coins.new.items ≡ live_coins_at (drop place register.now) address.now) }
{
    let is_last = register.is_last(place);
    let facts = register.as_slice();
    put_one(coins, address, &facts[place], &facts[place + 1..], is_last)
}

// Puts the output of a fact to those of the facts behind it.
#[tactic(auto, unfolding(crate::specs::Holdings::live_coins_at, crate::specs::Order::ascending_by))]
fn put_one(
    coins: &mut Vec<Coin>,
    address: &Hash,
    fact: &Fact,
    _behind: &[Fact],
    is_last: bool,
) -> Result<(), AllocError>
    requires last { is_last ≡ not (is_known _behind.now fact.now.id) }
    requires put { coins.old.items ≡ live_coins_at _behind.now address.now }
    ensures { OnOk result (coins.new.items ≡ live_coins_at (fact.now ∷ _behind.now) address.now) }
{
    if !is_last {
        return Ok(());
    }
    match coin_here(address, fact) {
        None => Ok(()),
        Some(coin) => put_coin(coins, coin),
    }
}

// The output that a fact makes, where it is at an address.
fn coin_here(address: &Hash, fact: &Fact) -> Option<Coin>
    ensures { result ≡ coin_of address.now fact.now.id (coin_in (Some fact.now.deed)) }
{
    let Deed::Coin { output, from } = &fact.deed else {
        return None;
    };
    if output.address != *address {
        return None;
    }
    let (id, address) = (fact.id, output.address);
    Some(Coin {
        id,
        value: output.value,
        address,
        from: *from,
    })
}

// Puts an output among ascending ones.
fn put_coin(coins: &mut Vec<Coin>, coin: Coin) -> Result<(), AllocError>
    ensures { OnOk result (coins.new.items ≡ put_by (λ (c : Coin). c.id) coin coins.old.items) }
{
    let place = place_of_coin(coins.as_slice(), &coin);
    coins.insert(place, coin)?;
    Ok(())
}

// Where an output stands among ascending ones.
fn place_of_coin(coins: &[Coin], coin: &Coin) -> usize
    ensures place { put_by (λ (c : Coin). c.id) coin.now coins.now ≡ take result coins.now ++ coin.now ∷ drop result coins.now }
    ensures within { result ≤ length coins.now }
{
    for (at, other) in coins.iter().enumerate() {
        if coin.id.cmp(&other.id).is_le() {
            return at;
        }
    }
    coins.len()
}
