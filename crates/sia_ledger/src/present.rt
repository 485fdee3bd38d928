//! How a contract stands, and its present terms.
ghost use Rattle.std.specs.Prelude.{◌≡◌, IfOk};
ghost use Rattle.sia_ledger.specs.Facts.{terms_at};
ghost use Rattle.sia_ledger.specs.Holdings.{contract_status};

use crate::fact::Deed;
use crate::register::Register;
use crate::sums::Status;
use sia_blake::Hash;
use sia_types::Terms;
use std::alloc::{AllocError, Global};

/// How the contract with this identifier stands.
pub(crate) fn status_among(register: &Register, contract: &Hash) -> Status
    ensures { result ≡ contract_status register.now contract.now }
{
    match register.last(contract) {
        Some(Deed::Formed(_)) => Status::Running,
        Some(Deed::Revised(_)) => Status::Running,
        Some(Deed::Settled { valid: true }) => Status::Valid,
        Some(Deed::Settled { valid: false }) => Status::Missed,
        _ => Status::Unknown,
    }
}

/// The terms of the running contract with this identifier. Its error is want of memory.
pub(crate) fn terms_among(
    alloc: Global,
    register: &Register,
    contract: &Hash,
) -> Result<Option<Terms>, AllocError>
    ensures { IfOk result (λ terms. terms ≡ terms_at register.now contract.now) }
{
    match register.last(contract) {
        Some(Deed::Formed(terms)) => Ok(Some(terms.copy(alloc)?)),
        Some(Deed::Revised(terms)) => Ok(Some(terms.copy(alloc)?)),
        _ => Ok(None),
    }
}
