//! What a host keeps of a contract.
ghost use Rattle.std.specs.Prelude.{◌≡◌, ◌++◌, [], option_copied, option_to_list, IfOk, OnOk, OnErr};
ghost use Rattle.sia_kept.specs.State.{contract_among, first_revision as first_revision_so, formed_by};

use crate::sectors::Sectors;
use sia_blake::Hash;
use sia_forms::both_conditions;
use sia_ids::contract_id;
use sia_types::{Blob, FileContract, Item, List, Revision, Transaction};
use std::alloc::{AllocError, Global};
use std::marker::Model;

/// A contract that the host knows.
#[derive(Drop)]
pub struct KeptContract {
    /// Its identifier.
    pub id: Hash,
    /// The public key that the renter signs with.
    pub renter_key: [u8; 32],
    /// The transaction that formed it.
    pub formation: Transaction,
    /// Its newest revision.
    pub newest: Revision,
    /// The renter's and the host's signature of that revision, or none at number 0.
    pub signatures: List<Blob>,
    /// Its sectors.
    pub sectors: Sectors,
}

impl Model for KeptContract {
    ghost use Rattle.sia_kept.specs.State.{Kept};

    ghost Value = { Kept };

    ghost view = { λ c. record { id = c.id; renter_key = c.renter_key; formation = c.formation; newest = c.newest; signatures = c.signatures; sectors = c.sectors } };
}

impl KeptContract {
    /// The contract that a whole transaction forms, its first one, between the keys of host and renter, without a sector; none where
    /// it forms none. The error is want of memory.
    #[tactic(auto, unfolding(crate::specs::State::new_contract))]
    pub fn formed(
        alloc: Global,
        host_key: &[u8; 32],
        renter_key: &[u8; 32],
        tx: Transaction,
    ) -> Result<Option<KeptContract>, AllocError>
        ensures { IfOk result (λ kept. option_to_list kept ≡ formed_by host_key.now renter_key.now tx [] tx.contracts) }
    {
        let id = contract_id(alloc, &tx, 0)?;
        let Some(terms) = tx.contracts.get(0) else {
            return Ok(None);
        };
        let newest = first_revision(alloc, host_key, renter_key, &id, terms)?;
        let renter_key = *renter_key;
        Ok(Some(KeptContract {
            id,
            renter_key,
            formation: tx,
            newest,
            signatures: List::new(alloc),
            sectors: Sectors::new(alloc),
        }))
    }
}

// The newest revision of a contract that isn't revised yet.
#[tactic(auto, unfolding(crate::specs::State::first_revision))]
fn first_revision(
    alloc: Global,
    host_key: &[u8; 32],
    renter_key: &[u8; 32],
    id: &Hash,
    terms: &FileContract,
) -> Result<Revision, AllocError>
    ensures { IfOk result (λ revision. revision ≡ first_revision_so host_key.now renter_key.now id.now terms.now) }
{
    Ok(Revision {
        parent: id.copy(alloc)?,
        conditions: both_conditions(alloc, renter_key, host_key)?,
        number: terms.number,
        size: terms.size,
        root: terms.root.copy(alloc)?,
        start: terms.start,
        end: terms.end,
        valid: Item::copy(&terms.valid, alloc)?,
        missed: Item::copy(&terms.missed, alloc)?,
        address: terms.address.copy(alloc)?,
    })
}

/// The contract with an identifier.
pub fn find_contract<'a>(contracts: &'a List<KeptContract>, id: &Hash) -> Option<&'a KeptContract>
    ensures { option_copied result ≡ contract_among id.now contracts.now }
{
    contracts.as_slice().iter().find(|c| c.id == *id)
}

/// Puts a contract behind the others, if there is one. The error is want of memory: then the contracts stay.
pub fn push_kept(
    contracts: &mut List<KeptContract>,
    kept: Option<KeptContract>,
) -> Result<(), AllocError>
    ensures ok { OnOk result (contracts.new ≡ contracts.old ++ option_to_list kept) }
    ensures err { OnErr result (contracts.new ≡ contracts.old) }
{
    match kept {
        None => Ok(()),
        Some(contract) => contracts.push(contract),
    }
}
