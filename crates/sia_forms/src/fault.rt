//! Why a contract isn't formed or renewed.
ghost use Rattle.std.specs.Prelude.{◌≡◌};
ghost use Rattle.sia_forms.specs.declared.fault.FormFault.TheVariants as form_fault;

use std::alloc::AllocError;

/// Why a contract isn't formed or renewed.
#[derive(Clone, Copy, Debug, PartialEq, Eq)]
pub enum FormFault {
    /// The coins are worth less than is needed.
    NoFunds {
        /// What is needed, in hastings.
        need: u128,
        /// What the coins are worth together.
        have: u128,
    },
    /// The transaction isn't what the host asks for.
    BadContract {
        /// What fails first: 0 the transaction's parts, 1 what the contract begins with, 2 whom it pays, 3 its window, 4 the
        /// host's value and collateral, 5 its identifier, which the host knows already. No call of this crate answers 5.
        point: u64,
    },
    /// Memory ran out.
    Memory,
}

impl From<AllocError> for FormFault {
    ghost from_gives = { λ _ fault. fault ≡ form_fault.Memory };

    fn from(_error: AllocError) -> FormFault {
        FormFault::Memory
    }
}
