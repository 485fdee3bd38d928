//! Requests about the contract that a session holds, and how they are paid.
ghost use Rattle.std.specs.Prelude.{◌≡◌, ◌==◌, ◌^◌, ◌-◌, IfOk};
ghost use Rattle.sia_encoding.specs.Answer.{Answers as Tells};
ghost use Rattle.sia_host.specs.Paying.{holding as holding_so, is_late as is_late_so, is_low as is_low_so, open_now, unpaid as unpaid_so, was_cleared as was_cleared_so};
ghost use Rattle.sia_host.specs.Refusals.{code_told};

use crate::host_core::Core;
use crate::refusal::Refusal;
use sia_commands::codes::{BAD_PAYMENT, CLEARED, LOW_REVISION, TOO_LATE, WRONG_STATE};
use sia_kept::{KeptContract, find_contract};
use sia_price::{Priced, check_payment, cost, duration};

impl Core {
    /// The contract that a session holds, which no renewal has cleared.
    pub(crate) fn open(&self, session: u64) -> Result<&KeptContract, Refusal>
        ensures { Tells (λ c. c.now) code_told result (open_now self.now session) }
    {
        let contract = self.holding(session)?;
        if was_cleared(contract) {
            return Err(Refusal::Code(CLEARED));
        }
        Ok(contract)
    }

    // The contract that a session holds.
    fn holding(&self, session: u64) -> Result<&KeptContract, Refusal>
        ensures { Tells (λ c. c.now) code_told result (holding_so self.now session) }
    {
        let Some(id) = self.held(session) else {
            return Err(Refusal::Code(WRONG_STATE));
        };
        match find_contract(&self.contracts, &id) {
            None => Err(Refusal::Code(WRONG_STATE)),
            Some(contract) => Ok(contract),
        }
    }

    /// Whether the window of a contract begins too soon.
    pub(crate) fn is_late(&self, contract: &KeptContract) -> bool
        ensures { result ≡ is_late_so self.now contract.now }
    {
        contract.newest.start <= self.ledger.height().saturating_add(1)
    }

    /// Why a request isn't paid by the number and the values of a new revision.
    pub(crate) fn unpaid(
        &self,
        contract: &KeptContract,
        call: &Priced,
        number: u64,
        valid: &[u128],
        missed: &[u128],
    ) -> Option<u64>
        ensures { result ≡ unpaid_so self.now contract.now call.now (record { number = number; valid = valid.now; missed = missed.now }) }
    {
        if self.is_late(contract) {
            return Some(TOO_LATE);
        }
        if is_low(contract, number) {
            return Some(LOW_REVISION);
        }
        let lasts = duration(contract.newest.end, self.ledger.height());
        let price = cost(call, &self.settings.prices, self.settings.sector, lasts);
        if check_payment(&contract.newest, valid, missed, &price).is_err() {
            return Some(BAD_PAYMENT);
        }
        None
    }
}

/// Whether a renewal has cleared a contract.
pub(crate) fn was_cleared(contract: &KeptContract) -> bool
    ensures { result ≡ was_cleared_so contract.now }
{
    contract.newest.number == u64::MAX
}

/// Whether the number of a new revision isn't above the newest one, or is the greatest of all.
pub(crate) fn is_low(contract: &KeptContract, number: u64) -> bool
    ensures { result ≡ is_low_so contract.now number }
{
    number <= contract.newest.number || number == u64::MAX
}
