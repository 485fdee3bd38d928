//! A contract that is renewed.
ghost use Rattle.std.specs.Prelude.{◌≡◌, ◌<◌, ◌==◌, ◌&&◌, [], ◌∷◌, ◌++◌, find, length, map, option_copied, option_to_list, vec_capacity, slice_set, slice_index_or, IfOk, OnOk, OnErr};
ghost use Rattle.std.specs.Str.{bytes_eq};
ghost use Rattle.sia_types.specs.declared.signature.Signature.{Signature as Signed};
ghost use Rattle.sia_kept.specs.State.{AreApart, Kept, after_renewal, formed_by, signature_for as signature_so};

use crate::kept::KeptContract;
use crate::revising::{both_signatures, place_of};
use crate::sectors::Sectors;
use sia_blake::Hash;
use sia_types::{Blob, Item, List, Revision, Signature, Transaction};
use std::alloc::{AllocError, Global};
use std::mem::replace;

/// The contract of a renewal's revision, if it is there, has the revision as its newest one, with the signatures for it in the
/// transaction; its sectors pass to the contract that the transaction forms, which stands behind the others. Only the first
/// revision and the first contract of the transaction count. The error is want of memory: then the contracts stay.
pub fn renew_kept(
    alloc: Global,
    contracts: &mut List<KeptContract>,
    host_key: &[u8; 32],
    tx: Transaction,
) -> Result<(), AllocError>
    requires { AreApart contracts.old }
    ensures ok { OnOk result (contracts.new ≡ after_renewal host_key.now tx contracts.old tx.revisions) }
    ensures err { OnErr result (contracts.new ≡ contracts.old) }
{
    let Some(revision) = tx.revisions.get(0) else {
        return Ok(());
    };
    let Some(place) = place_of(contracts, &revision.parent) else {
        return Ok(());
    };
    let signatures = signatures_for(alloc, &revision.parent, tx.signatures.as_slice())?;
    let newest = revision.copy(alloc)?;
    renew_at(alloc, contracts, place, host_key, newest, signatures, tx)
}

// The renter's signature and the host's for a contract. The error is want of memory.
fn signatures_for(
    alloc: Global,
    contract: &Hash,
    signatures: &[Signature],
) -> Result<List<Blob>, AllocError>
    ensures { IfOk result (λ both. both ≡ signature_so contract.now 0 signatures.now ∷ signature_so contract.now 1 signatures.now ∷ []) }
{
    let renter = signature_for(alloc, contract, 0, signatures)?;
    let host = signature_for(alloc, contract, 1, signatures)?;
    both_signatures(alloc, renter, host)
}

// The signature for a contract by the key at an index; no byte where there is none. The error is want of memory.
fn signature_for(
    alloc: Global,
    contract: &Hash,
    index: u64,
    signatures: &[Signature],
) -> Result<Blob, AllocError>
    ensures { IfOk result (λ bytes. bytes ≡ signature_so contract.now index signatures.now) }
{
    match find_signature(contract, index, signatures) {
        None => Ok(Blob::new(alloc)),
        Some(found) => found.signature.copy(alloc),
    }
}

// The first signature for a contract by the key at an index.
fn find_signature<'a>(
    contract: &Hash,
    index: u64,
    signatures: &'a [Signature],
) -> Option<&'a Signature>
    ensures { option_copied result ≡ find (λ (s : Signed). bytes_eq s.parent contract.now && (s.key_index == index)) signatures.now }
{
    signatures
        .iter()
        .find(|s| s.parent == *contract && s.key_index == index)
}

// The contract at a place is renewed: it has this newest revision with these signatures, and its sectors pass on. The error is want
// of memory: then the contracts stay.
fn renew_at(
    alloc: Global,
    contracts: &mut List<KeptContract>,
    place: usize,
    host_key: &[u8; 32],
    newest: Revision,
    signatures: List<Blob>,
    tx: Transaction,
) -> Result<(), AllocError>
    requires { place < length contracts.old }
    ensures ok { OnOk result ((d : Kept) → contracts.new ≡ slice_set contracts.old place (record (slice_index_or contracts.old place d) { newest = newest; signatures = signatures; sectors = [] }) ++ formed_by host_key.now (slice_index_or contracts.old place d).renter_key tx (slice_index_or contracts.old place d).sectors tx.contracts) }
    ensures err { OnErr result (contracts.new ≡ contracts.old) }
{
    let mut items = replace(contracts, List::new(alloc)).into_vec();
    let renewed = renew_among(alloc, &mut items, place, host_key, newest, signatures, tx);
    *contracts = List::from_vec(items);
    renewed
}

// The contract at a place of these is renewed. The error is want of memory: then they stay.
fn renew_among(
    alloc: Global,
    items: &mut Vec<KeptContract>,
    place: usize,
    host_key: &[u8; 32],
    newest: Revision,
    signatures: List<Blob>,
    tx: Transaction,
) -> Result<(), AllocError>
    requires { place < length items.old.items }
    ensures ok { OnOk result ((d : Kept) → items.new.items ≡ slice_set items.old.items place (record (slice_index_or items.old.items place d) { newest = newest; signatures = signatures; sectors = [] }) ++ formed_by host_key.now (slice_index_or items.old.items place d).renter_key tx (slice_index_or items.old.items place d).sectors tx.contracts) }
    ensures err { OnErr result (items.new.items ≡ items.old.items) }
{
    items.reserve(1)?;
    let renter_key = items[place].renter_key;
    let formed = KeptContract::formed(alloc, host_key, &renter_key, tx)?;
    let sectors = clear_one(alloc, &mut items[place], newest, signatures);
    put_renewed(items, formed, sectors);
    Ok(())
}

// A contract has this newest revision with these signatures, and gives its sectors away.
fn clear_one(
    alloc: Global,
    contract: &mut KeptContract,
    newest: Revision,
    signatures: List<Blob>,
) -> Sectors
    ensures cleared { contract.new ≡ record contract.old { newest = newest; signatures = signatures; sectors = [] } }
    ensures gives { result ≡ contract.old.sectors }
{
    contract.newest = newest;
    contract.signatures = signatures;
    replace(&mut contract.sectors, Sectors::new(alloc))
}

// Puts the contract that renews another one, if there is one, behind the others in room that is there; it has these sectors.
fn put_renewed(items: &mut Vec<KeptContract>, formed: Option<KeptContract>, sectors: Sectors)
    requires { length items.old.items < vec_capacity items.old }
    ensures { items.new.items ≡ items.old.items ++ map (λ (c : Kept). record c { sectors = sectors }) (option_to_list formed) }
{
    let Some(mut renewed) = formed else {
        return;
    };
    renewed.sectors = sectors;
    let Ok(()) = items.push(renewed) else {
        unreachable!()
    };
}
