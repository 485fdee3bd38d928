//! Which coins are chosen for a need.
ghost use Rattle.std.specs.Prelude.{◌≡◌, ℕ, ◌+◌, ◌<◌, map, take, IfOk, IfErr};
ghost use Rattle.sia_forms.specs.Choices.{AreChosen, AreChosenNames, AreInOrder, IsShort, IsShortest, coin_name, worth_of};

use crate::fault::FormFault;
use sia_blake::Hash;
use sia_types::{Coin, List};
use std::alloc::{AllocError, Global};
use std::cmp::Reverse;

/// The identifiers of the coins that are chosen for a need, in hastings: the shortest prefix that reaches it of the coins by
/// falling value, and those of one value by ascending identifiers; none for a need of 0.
///
/// # Errors
/// [`FormFault::NoFunds`] exactly where all coins together are worth less than is needed. Or want of memory.
pub fn choose(alloc: Global, coins: &[Coin], need: u128) -> Result<List<Hash>, FormFault>
    ensures chosen { IfOk result (λ names. AreChosenNames coins.now need names) }
    ensures refused { IfErr result (IsShort coins.now need) }
{
    let chosen = choose_coins(alloc, coins, need)?;
    Ok(names_of(alloc, &chosen.coins)?)
}

/// Chosen coins, and what they are worth above the need.
#[derive(Drop)]
pub(crate) struct Choice {
    /// The coins, in the order of choice.
    pub coins: Vec<Coin>,
    /// What they are worth above the need, in hastings.
    pub change: u128,
}

/// The coins that are chosen for a need.
pub(crate) fn choose_coins(alloc: Global, coins: &[Coin], need: u128) -> Result<Choice, FormFault>
    ensures chosen { IfOk result (λ choice. AreChosen coins.now need choice.coins.items) }
    ensures change { IfOk result (λ choice. need + choice.change ≡ worth_of choice.coins.items) }
    ensures refused { IfErr result (IsShort coins.now need) }
{
    let mut ordered = in_order(alloc, coins)?;
    let reached = shortest(&ordered, need)?;
    ordered.truncate(reached.count);
    Ok(Choice {
        coins: ordered,
        change: reached.change,
    })
}

// How many coins reach a need, and what they are worth above it.
#[derive(Clone, Copy)]
struct Reached {
    count: usize,
    change: u128,
}

// The coins in the order of choice.
fn in_order(alloc: Global, coins: &[Coin]) -> Result<Vec<Coin>, AllocError>
    ensures { IfOk result (λ ordered. AreInOrder coins.now ordered.items) }
{
    let mut ordered = Vec::from_slice(alloc, coins)?;
    ordered.sort_by_key(|coin| (Reverse(coin.value), coin.id))?;
    Ok(ordered)
}

// The shortest prefix that reaches a need.
fn shortest(ordered: &[Coin], need: u128) -> Result<Reached, FormFault>
    ensures reached { IfOk result (λ reached. IsShortest ordered.now need reached.count) }
    ensures change { IfOk result (λ reached. need + reached.change ≡ worth_of (take reached.count ordered.now)) }
    ensures refused { IfErr result (IsShort ordered.now need) }
{
    if need == 0 {
        return Ok(Reached {
            count: 0,
            change: 0,
        });
    }
    let mut missing = need;
    for (i, coin) in ordered.iter().enumerate() {
        if missing <= coin.value {
            return Ok(Reached {
                count: i + 1,
                change: coin.value - missing,
            });
        }
        missing -= coin.value;
    }
    Err(FormFault::NoFunds {
        need,
        have: need - missing,
    })
}

// The identifiers of coins.
fn names_of(alloc: Global, coins: &[Coin]) -> Result<List<Hash>, AllocError>
    ensures { IfOk result (λ names. names ≡ map coin_name coins.now) }
{
    let mut names = List::new(alloc);
    for coin in coins {
        names.push(coin.id)?;
    }
    Ok(names)
}
