//! A contract that is revised.
ghost use Rattle.std.specs.Prelude.{◌≡◌, ◌<◌, [], ◌∷◌, length, map, slice_set, slice_index_or, Some, IfOk, IsTrue, OnOk, OnErr};
ghost use Rattle.std.specs.Str.{bytes_eq};
ghost use Rattle.std.specs.List.{position};
ghost use Rattle.sia_diff.specs.DiffSteps.{is_fit};
ghost use Rattle.sia_records.specs.Stored.{step_of, stored_after};
ghost use Rattle.sia_kept.specs.State.{AreApart, Kept, changed_at, contract_among, revised_contract};

use crate::kept::KeptContract;
use sia_blake::Hash;
use sia_records::Change;
use sia_types::{Blob, List, Revision};
use std::alloc::{AllocError, Global};
use std::mem::replace;

/// A revision with the signatures of both parties, and what it makes of its contract's sectors.
#[derive(Drop)]
pub struct SignedRevision {
    /// The revision.
    pub revision: Revision,
    /// The renter's signature of it.
    pub renter: Blob,
    /// The host's signature of it.
    pub host: Blob,
    /// The changes of the sectors, in order.
    pub changes: List<Change>,
}

/// The contract of a revision, if it is there, has it as its newest one, and its sectors are changed by changes that are fit. The
/// error is want of memory: then the contracts stay.
pub fn revise_kept(
    alloc: Global,
    contracts: &mut List<KeptContract>,
    signed: SignedRevision,
) -> Result<(), AllocError>
    requires apart { AreApart contracts.old }
    requires fit { (c : Kept) → contract_among signed.revision.parent contracts.old ≡ Some c → IsTrue (is_fit (length c.sectors) (map step_of signed.changes)) }
    ensures ok { OnOk result (contracts.new ≡ changed_at signed.revision.parent (revised_contract signed.revision signed.renter signed.host signed.changes) contracts.old) }
    ensures err { OnErr result (contracts.new ≡ contracts.old) }
{
    let SignedRevision {
        revision,
        renter,
        host,
        changes,
    } = signed;
    let signatures = both_signatures(alloc, renter, host)?;
    match place_of(contracts, &revision.parent) {
        None => Ok(()),
        Some(place) => revise_at(alloc, contracts, place, revision, signatures, &changes),
    }
}

/// The renter's signature and the host's. The error is want of memory.
pub(crate) fn both_signatures(
    alloc: Global,
    renter: Blob,
    host: Blob,
) -> Result<List<Blob>, AllocError>
    ensures { IfOk result (λ signatures. signatures ≡ renter ∷ host ∷ []) }
{
    let mut signatures = List::new(alloc);
    signatures.push(renter)?;
    signatures.push(host)?;
    Ok(signatures)
}

// The contract at a place has this newest revision with these signatures, and its sectors are changed. The error is want of memory:
// then the contracts stay.
fn revise_at(
    alloc: Global,
    contracts: &mut List<KeptContract>,
    place: usize,
    revision: Revision,
    signatures: List<Blob>,
    changes: &List<Change>,
) -> Result<(), AllocError>
    requires place { place < length contracts.old }
    requires fit { (d : Kept) → IsTrue (is_fit (length (slice_index_or contracts.old place d).sectors) (map step_of changes.now)) }
    ensures ok { OnOk result ((d : Kept) → contracts.new ≡ slice_set contracts.old place (record (slice_index_or contracts.old place d) { newest = revision; signatures = signatures; sectors = stored_after (slice_index_or contracts.old place d).sectors changes.now })) }
    ensures err { OnErr result (contracts.new ≡ contracts.old) }
{
    let mut items = replace(contracts, List::new(alloc)).into_vec();
    let changed = revise_one(&mut items[place], revision, signatures, changes);
    *contracts = List::from_vec(items);
    changed
}

// A contract has this newest revision with these signatures, and its sectors are changed. The error is want of memory: then it stays.
fn revise_one(
    contract: &mut KeptContract,
    revision: Revision,
    signatures: List<Blob>,
    changes: &List<Change>,
) -> Result<(), AllocError>
    requires { IsTrue (is_fit (length contract.old.sectors) (map step_of changes.now)) }
    ensures ok { OnOk result (contract.new ≡ record contract.old { newest = revision; signatures = signatures; sectors = stored_after contract.old.sectors changes.now }) }
    ensures err { OnErr result (contract.new ≡ contract.old) }
{
    contract.sectors.change(changes.as_slice())?;
    contract.newest = revision;
    contract.signatures = signatures;
    Ok(())
}

/// The place of the contract with an identifier.
pub(crate) fn place_of(contracts: &List<KeptContract>, id: &Hash) -> Option<usize>
    ensures { result ≡ position (λ (c : Kept). bytes_eq c.id id.now) contracts.now }
{
    contracts.as_slice().iter().position(|c| c.id == *id)
}
