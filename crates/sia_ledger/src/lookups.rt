//! Looking identifiers up among facts.
ghost use Rattle.std.specs.Prelude.{◌≡◌};
ghost use Rattle.sia_ledger.specs.Facts.{is_known};
ghost use Rattle.sia_ledger.specs.State.{makes};

use crate::fact::{Deed, Fact};
use sia_blake::Hash;

/// Whether a fact is about an identifier.
pub(crate) fn is_among(facts: &[Fact], id: &Hash) -> bool
    ensures { result ≡ is_known facts.now id.now }
{
    facts.iter().any(|fact| fact.id == *id)
}

/// Whether a deed makes its identifier.
pub(crate) fn is_making(deed: &Deed) -> bool
    ensures { result ≡ makes deed.now }
{
    match deed {
        Deed::Block => true,
        Deed::Coin { .. } => true,
        Deed::Fund(_) => true,
        Deed::Formed(_) => true,
        _ => false,
    }
}
