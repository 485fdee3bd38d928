//! Sums of values that outsiders chose.
ghost use Rattle.std.specs.Prelude.{◌≡◌, ℕ, ◌==◌};
ghost use Rattle.std.specs.List.{sum_by, list_any};
ghost use Rattle.sia_rules.specs.Amounts.{fitting};
ghost use Rattle.sia_rules.specs.Sums.{coin_sum as coin_sum_of};

use sia_types::{CoinOutput, FileContract, FundOutput};

/// What has a value.
pub trait Valued {
    /// Its value, in hastings or in siafunds.
    ghost worth: { Self → ℕ };

    /// Its value, in hastings or in siafunds.
    fn worth(&self) -> u128
        ensures { result ≡ worth self.now };
}

impl Valued for CoinOutput {
    ghost worth = { λ output. output.value };

    fn worth(&self) -> u128 {
        self.value
    }
}

impl Valued for FundOutput {
    ghost worth = { λ output. output.value };

    fn worth(&self) -> u128 {
        self.value
    }
}

impl Valued for FileContract {
    ghost worth = { λ contract. contract.payout };

    fn worth(&self) -> u128 {
        self.payout
    }
}

impl Valued for u128 {
    ghost worth = { λ fee. fee };

    fn worth(&self) -> u128 {
        *self
    }
}

/// What siacoin outputs pay together, in hastings. `None` exactly where that is above 2^128 - 1.
pub fn coin_sum(outputs: &[CoinOutput]) -> Option<u128>
    ensures { result ≡ fitting (coin_sum_of outputs.now) }
{
    sum_of(outputs)
}

/// The sum of the values. `None` exactly where it is above 2^128 - 1.
#[tactic(auto, using(crate::proofs::Fitting::fits))]
pub(crate) fn sum_of<T: Valued>(items: &[T]) -> Option<u128>
    ensures { result ≡ fitting (sum_by T.worth items.now) }
{
    let mut sum: u128 = 0;
    for item in items {
        sum = sum.checked_add(item.worth())?;
    }
    Some(sum)
}

/// Whether one of them is worth nothing.
pub(crate) fn has_worthless<T: Valued>(items: &[T]) -> bool
    ensures { result ≡ list_any (λ item. T.worth item == 0) items.now }
{
    items.iter().any(|item| item.worth() == 0)
}
