//! What of a transaction needs signatures.
ghost use Rattle.std.specs.Prelude.{◌≡◌, ◌++◌, map, option_copied};
ghost use Rattle.std.specs.Option.{option_map};
ghost use Rattle.sia_sign.specs.Needs.{Need, needs, need_of, count_for, coin_need, revision_need, fund_need};

use sia_types::{CoinInput, FundInput, List, Revision, Signature, Transaction, UnlockConditions};

/// What needs signatures: an input, or a revision.
pub trait Locked {
    /// Its need.
    ghost need: { Self → Need };

    /// The identifier of what is unlocked.
    fn parent(&self) -> &[u8; 32]
        ensures { result.now ≡ (need self.now).parent };

    /// The conditions that say whose signatures it needs, and how many.
    fn conditions(&self) -> &UnlockConditions
        ensures { result.now ≡ (need self.now).conditions };
}

impl Locked for CoinInput {
    ghost need = { coin_need };

    fn parent(&self) -> &[u8; 32] {
        &self.parent
    }

    fn conditions(&self) -> &UnlockConditions {
        &self.conditions
    }
}

impl Locked for Revision {
    ghost need = { revision_need };

    fn parent(&self) -> &[u8; 32] {
        &self.parent
    }

    fn conditions(&self) -> &UnlockConditions {
        &self.conditions
    }
}

impl Locked for FundInput {
    ghost need = { fund_need };

    fn parent(&self) -> &[u8; 32] {
        &self.parent
    }

    fn conditions(&self) -> &UnlockConditions {
        &self.conditions
    }
}

/// The conditions of the first of the transaction's needs that has this parent.
pub fn conditions_for<'a>(tx: &'a Transaction, parent: &[u8; 32]) -> Option<&'a UnlockConditions>
    ensures { option_copied result ≡ option_map (λ (need : Need). need.conditions) (need_of parent.now (needs tx.now)) }
{
    match conditions_in(&tx.coin_inputs, parent) {
        Some(conditions) => Some(conditions),
        None => conditions_behind(tx, parent),
    }
}

// The same among the needs behind the siacoin inputs.
fn conditions_behind<'a>(tx: &'a Transaction, parent: &[u8; 32]) -> Option<&'a UnlockConditions>
    ensures { option_copied result ≡ option_map (λ (need : Need). need.conditions) (need_of parent.now (map revision_need tx.now.revisions ++ map fund_need tx.now.fund_inputs)) }
{
    match conditions_in(&tx.revisions, parent) {
        Some(conditions) => Some(conditions),
        None => conditions_in(&tx.fund_inputs, parent),
    }
}

// The conditions of the first in the list that has this parent.
fn conditions_in<'a, T: Locked>(all: &'a List<T>, parent: &[u8; 32]) -> Option<&'a UnlockConditions>
    ensures { option_copied result ≡ option_map (λ (need : Need). need.conditions) (need_of parent.now (map T.need all.now)) }
{
    conditions_among(all.as_slice(), parent)
}

// The conditions of the first that has this parent.
fn conditions_among<'a, T: Locked>(all: &'a [T], parent: &[u8; 32]) -> Option<&'a UnlockConditions>
    ensures { option_copied result ≡ option_map (λ (need : Need). need.conditions) (need_of parent.now (map T.need all.now)) }
{
    for locked in all {
        if locked.parent() == parent {
            return Some(locked.conditions());
        }
    }
    None
}

/// How many of the signatures are for this parent.
pub fn count_signatures(signatures: &[Signature], parent: &[u8; 32]) -> usize
    ensures { result ≡ count_for parent.now signatures.now }
{
    signatures
        .iter()
        .filter(|signature| signature.parent == *parent)
        .count()
}
