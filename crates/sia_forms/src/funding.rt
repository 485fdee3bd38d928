//! What coins add to a transaction.
ghost use Rattle.std.specs.Prelude.{◌≡◌, ◌++◌, map, IfOk, IfErr};
ghost use Rattle.sia_forms.specs.Choices.{AreAdded, IsShort, input_of, output_of_some};
ghost use Rattle.sia_forms.specs.Building.{finished};

use crate::choosing::choose_coins;
use crate::fault::FormFault;
use crate::parties::own_conditions;
use sia_blake::Hash;
use sia_types::{Coin, CoinInput, CoinOutput, Item, List, Settings, Signature, Transaction};
use std::alloc::{AllocError, Global};

/// What a party adds to a transaction.
#[derive(Drop)]
pub struct Additions {
    /// The inputs that spend its coins.
    pub inputs: List<CoinInput>,
    /// The outputs that give it its change back.
    pub outputs: List<CoinOutput>,
}

/// What a host adds for its collateral, in hastings: inputs of the coins that are chosen for it, which are of its own key, and a
/// change output to its address where they are worth more.
///
/// # Errors
/// [`FormFault::NoFunds`] exactly where all coins together are worth less than the collateral. Or want of memory.
pub fn add_host_part(
    alloc: Global,
    collateral: u128,
    coins: &[Coin],
    settings: &Settings,
) -> Result<Additions, FormFault>
    ensures added { IfOk result (AreAdded coins.now collateral settings.now.host_key settings.now.address) }
    ensures refused { IfErr result (IsShort coins.now collateral) }
{
    fund(
        alloc,
        coins,
        collateral,
        &settings.host_key,
        &settings.address,
    )
}

/// The whole transaction: what the host adds stands behind what the renter has, and the renter's signatures before the host's.
/// The error is want of memory.
#[tactic(auto, unfolding(crate::specs::Building::finished))]
pub fn finish(
    tx: Transaction,
    added: Additions,
    renter: List<Signature>,
    host: List<Signature>,
) -> Result<Transaction, AllocError>
    ensures { IfOk result (λ whole. whole ≡ finished tx added renter host) }
{
    let mut whole = tx;
    let Additions {
        mut inputs,
        mut outputs,
    } = added;
    whole.coin_inputs.append(&mut inputs)?;
    whole.coin_outputs.append(&mut outputs)?;
    let mut signatures = renter;
    let mut behind = host;
    signatures.append(&mut behind)?;
    whole.signatures = signatures;
    Ok(whole)
}

/// What coins of a key's owner add for a need, with the change to an address.
pub(crate) fn fund(
    alloc: Global,
    coins: &[Coin],
    need: u128,
    key: &[u8; 32],
    address: &Hash,
) -> Result<Additions, FormFault>
    ensures added { IfOk result (AreAdded coins.now need key.now address.now) }
    ensures refused { IfErr result (IsShort coins.now need) }
{
    let choice = choose_coins(alloc, coins, need)?;
    let inputs = inputs_of(alloc, &choice.coins, key)?;
    let outputs = change_of(alloc, choice.change, address)?;
    Ok(Additions { inputs, outputs })
}

// The inputs that spend coins of a key's owner.
fn inputs_of(alloc: Global, coins: &[Coin], key: &[u8; 32]) -> Result<List<CoinInput>, AllocError>
    ensures { IfOk result (λ inputs. inputs ≡ map (input_of key.now) coins.now) }
{
    let mut inputs = List::new(alloc);
    for coin in coins {
        inputs.push(input(alloc, coin, key)?)?;
    }
    Ok(inputs)
}

// The input that spends a coin of a key's owner.
#[tactic(auto, unfolding(crate::specs::Choices::input_of))]
fn input(alloc: Global, coin: &Coin, key: &[u8; 32]) -> Result<CoinInput, AllocError>
    ensures { IfOk result (λ input. input ≡ input_of key.now coin.now) }
{
    let conditions = own_conditions(alloc, key)?;
    Ok(CoinInput {
        parent: coin.id.copy(alloc)?,
        conditions,
    })
}

// The output that gives back a change, and none of value 0.
fn change_of(alloc: Global, value: u128, address: &Hash) -> Result<List<CoinOutput>, AllocError>
    ensures { IfOk result (λ outputs. outputs ≡ output_of_some value address.now) }
{
    let mut outputs = List::new(alloc);
    if value > 0 {
        outputs.push(CoinOutput {
            value,
            address: *address,
        })?;
    }
    Ok(outputs)
}
