//! What a siafund output claims.
ghost use Rattle.std.specs.Prelude.{◌≡◌};
ghost use Rattle.sia_ledger.specs.Claiming.{shares_in};
ghost use Rattle.sia_ledger.specs.Facts.{funds_of};

use crate::fact::Deed;
use sia_rules::{FUND_COUNT, tax};

/// What each siafund gets of the tax of a formation, and 0 of anything else.
#[tactic(auto, unfolding(sia_rules::specs::Amounts::tax))]
pub(crate) fn shares_by(deed: &Deed) -> u128
    ensures { result ≡ shares_in deed.now }
{
    match deed {
        Deed::Formed(terms) => tax(terms.payout) / FUND_COUNT,
        _ => 0,
    }
}

/// The siafunds of an output, and 0 of anything else.
pub(crate) fn funds(deed: &Deed) -> u128
    ensures { result ≡ funds_of deed.now }
{
    match deed {
        Deed::Fund(output) => output.value,
        _ => 0,
    }
}
