//! Which contract is the next for which something is to be mined.
ghost use Rattle.std.specs.Prelude.{◌≡◌, ◌+◌, ◌&&◌, ◌||◌, nat_le, option_copied, IfOk, IfSome, IsTrue};
ghost use Rattle.sia_types.specs.declared.terms.Terms.{Terms as Agreed};
ghost use Rattle.sia_host.specs.Jobs.{due_contracts, is_above as is_above_so, is_due as is_due_so, is_due_by, is_stale as is_stale_so, is_stale_by, next_after, stale_contracts};
ghost use Rattle.sia_host.specs.Least.{lesser as lesser_so};
ghost use Rattle.sia_kept.specs.State.{IsStored, Kept};

use crate::host_core::Core;
use sia_blake::Hash;
use sia_kept::KeptContract;
use sia_types::Terms;
use std::alloc::{AllocError, Global};

impl Core {
    /// The next stale contract behind an identifier, or the first of all. The error is want of memory.
    #[tactic(auto, unfolding(crate::specs::Jobs::stale_contracts))]
    pub(crate) fn next_stale_contract(
        &self,
        alloc: Global,
        id: &Hash,
        first: bool,
    ) -> Result<Option<&KeptContract>, AllocError>
        ensures { IfOk result (λ found. option_copied found ≡ next_after id.now first (stale_contracts self.now)) }
    {
        let contracts = self.contracts.as_slice();
        let mut found = None;
        for i in (0..contracts.len()).rev() {
            let contract = &contracts[i];
            if self.is_stale_behind(alloc, contract, id, first)? {
                found = lesser(contract, found);
            }
        }
        Ok(found)
    }

    /// The next due contract behind an identifier, or the first of all. The error is want of memory.
    #[tactic(auto, unfolding(crate::specs::Jobs::due_contracts))]
    pub(crate) fn next_due_contract(
        &self,
        alloc: Global,
        id: &Hash,
        first: bool,
    ) -> Result<Option<&KeptContract>, AllocError>
        ensures exact { IfOk result (λ found. option_copied found ≡ next_after id.now first (due_contracts self.now)) }
        ensures ready { IfOk result (λ found. IfSome (option_copied found) (λ c. IsTrue (is_due_so self.now c) × IsStored self.now.settings.sector self.now.settings.host_key c)) }
    {
        let contracts = self.contracts.as_slice();
        let mut found = None;
        for i in (0..contracts.len()).rev() {
            let contract = &contracts[i];
            if self.is_due_behind(alloc, contract, id, first)? {
                found = lesser(contract, found);
            }
        }
        Ok(found)
    }

    // Whether a contract is stale, and behind an identifier or any at all.
    fn is_stale_behind(
        &self,
        alloc: Global,
        contract: &KeptContract,
        id: &Hash,
        first: bool,
    ) -> Result<bool, AllocError>
        ensures { IfOk result (λ b. b ≡ (is_stale_so self.now contract.now && (first || is_above_so contract.now.id id.now))) }
    {
        Ok(self.is_stale(alloc, contract)? && (first || is_above(&contract.id, id)))
    }

    // Whether a contract is due, and behind an identifier or any at all.
    fn is_due_behind(
        &self,
        alloc: Global,
        contract: &KeptContract,
        id: &Hash,
        first: bool,
    ) -> Result<bool, AllocError>
        ensures { IfOk result (λ b. b ≡ (is_due_so self.now contract.now && (first || is_above_so contract.now.id id.now))) }
    {
        Ok(self.is_due(alloc, contract)? && (first || is_above(&contract.id, id)))
    }

    // Whether a contract is stale.
    fn is_stale(&self, alloc: Global, contract: &KeptContract) -> Result<bool, AllocError>
        ensures { IfOk result (λ b. b ≡ is_stale_so self.now contract.now) }
    {
        match self.ledger.terms(alloc, &contract.id)? {
            None => Ok(false),
            Some(terms) => Ok(self.is_stale_by(contract, &terms)),
        }
    }

    // Whether it is stale by these terms.
    fn is_stale_by(&self, contract: &KeptContract, terms: &Terms) -> bool
        ensures { result ≡ is_stale_by self.now contract.now terms.now }
    {
        let height = self.ledger.height();
        is_reached(height, terms.start.saturating_sub(self.margin))
            && !is_reached(height, terms.start)
            && terms.number < contract.newest.number
    }

    /// Whether a contract is due. The error is want of memory.
    pub(crate) fn is_due(&self, alloc: Global, contract: &KeptContract) -> Result<bool, AllocError>
        ensures { IfOk result (λ b. b ≡ is_due_so self.now contract.now) }
    {
        match self.ledger.terms(alloc, &contract.id)? {
            None => Ok(false),
            Some(terms) => Ok(self.is_due_by(contract, &terms)),
        }
    }

    // Whether it is due by these terms.
    fn is_due_by(&self, contract: &KeptContract, terms: &Terms) -> bool
        ensures { result ≡ is_due_by self.now contract.now terms.now }
    {
        let height = self.ledger.height();
        let newest = &contract.newest;
        newest.size != 0
            && is_reached(height, terms.start)
            && is_next_within(height, terms.end)
            && terms.size == newest.size
            && terms.root == newest.root
    }
}

// Whether the next height has come to this one.
fn is_reached(height: u64, at: u64) -> bool
    ensures { result ≡ nat_le at (height + 1) }
{
    at.saturating_sub(1) <= height
}

// Whether it isn't above this one.
fn is_next_within(height: u64, end: u64) -> bool
    ensures { result ≡ nat_le (height + 1) end }
{
    height < end
}

// Whether an identifier is above another.
fn is_above(id: &Hash, other: &Hash) -> bool
    ensures { result ≡ is_above_so id.now other.now }
{
    other.cmp(id).is_lt()
}

// The lesser of a contract and one that may be found; the first of equal ones.
fn lesser<'a>(
    contract: &'a KeptContract,
    found: Option<&'a KeptContract>,
) -> Option<&'a KeptContract>
    ensures { option_copied result ≡ lesser_so (λ (c : Kept). c.id) contract.now (option_copied found.entry) }
{
    match found {
        None => Some(contract),
        Some(other) => {
            if contract.id.cmp(&other.id).is_le() {
                Some(contract)
            } else {
                found
            }
        }
    }
}
