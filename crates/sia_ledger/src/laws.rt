//! Laws of chains. The functions do nothing: their contracts are the laws.
ghost use Rattle.std.specs.Prelude.{ℕ, ◌≤◌, List as Sequence};
ghost use Rattle.sia_ledger.specs.Blocks.{facts};
ghost use Rattle.sia_ledger.specs.Chain.{Chain};
ghost use Rattle.sia_ledger.specs.Courses.{settlements};
ghost use Rattle.sia_ledger.specs.Making.{EachMakesItsSums};

use crate::ledger::Ledger;

/// No contract of a chain is settled twice, whatever its blocks hold.
pub fn contracts_are_settled_once()
    ensures { (chain : Chain) (contract : Sequence ℕ) → settlements contract (facts chain) ≤ 1 }
{}

/// Each formation, settlement and claim of a ledger's chain makes the sums that it names, by the height at which it happens:
///
/// - a formation's window lies ahead, and its valid outputs, and its missed ones, sum to the payout less its tax;
/// - a settlement makes the valid or the missed outputs of the terms that ran until then, all but those of value 0, and they can be
///   spent so many blocks later as the maturity is;
/// - a spent siafund output of v siafunds makes v of 10,000 parts of what the pool has risen since the output was made, which can be
///   spent so many blocks later as the maturity is.
pub fn sums_are_made(ledger: &Ledger)
    ensures { EachMakesItsSums ledger.now }
{
    ledger.know();
}
