//! Identifiers of an empty transaction and of what stands beside it, computed by a Python script over hashlib.
use hex::FromHex;
use sia_blake::Hash;
use sia_encoding::{Blob, List};
use sia_ids::{
    claim_id, coin_id, contract_id, fund_id, payout_id, segment_index, settle_id, tx_id,
    unlock_hash,
};
use sia_types::{PublicKey, Transaction, UnlockConditions};
use std::alloc::Global;
use std::test::Fail;

const SEVENS: Hash = [7; 32];

/// The hash of 64 hexadecimal digits.
pub(crate) fn hash(digits: &str) -> Result<Hash, Fail> {
    Ok(<[u8; 32] as FromHex>::from_hex(digits)?)
}

/// A transaction without anything.
pub(crate) fn empty_transaction(alloc: Global) -> Transaction {
    Transaction {
        coin_inputs: List::new(alloc),
        coin_outputs: List::new(alloc),
        contracts: List::new(alloc),
        revisions: List::new(alloc),
        proofs: List::new(alloc),
        fund_inputs: List::new(alloc),
        fund_outputs: List::new(alloc),
        fees: List::new(alloc),
        notes: List::new(alloc),
        signatures: List::new(alloc),
    }
}

#[test]
fn what_a_transaction_makes_is_named_by_its_label(rt: HostRuntime) -> Result<(), Fail> {
    let alloc = rt.alloc();
    let tx = empty_transaction(alloc);
    let cases = [
        (
            "the transaction",
            tx_id(alloc, &tx)?,
            "b3633a1370a72002ae2a956d21e8d481c3a69e146633470cf625ecd83fdeaa24",
        ),
        (
            "siacoin output 0",
            coin_id(alloc, &tx, 0)?,
            "b0f5ef08afed4bf238d3eb1af5581676b9a998455c70b2b299693efed9a50fbf",
        ),
        (
            "siafund output 1",
            fund_id(alloc, &tx, 1)?,
            "c681f20f2867c6161bafceef50e5bcb8e7a24dfa2d9ab341624f51fd287261d8",
        ),
        (
            "file contract 2",
            contract_id(alloc, &tx, 2)?,
            "5d633abeb77ef6ed74374b8070708352aabe8453dc404642475b0d03d92cb6a5",
        ),
        (
            "the claim of an output",
            claim_id(&SEVENS),
            "f8f155aa46c6ab5a9aca8c7487846c17411e49ada27f3c74f220f43fe17a0eb6",
        ),
        (
            "valid output 3",
            settle_id(&SEVENS, true, 3),
            "76534a0119d76ca75b1b0705d35e7dbc0222fb5727657cc1dd9c1974945f044d",
        ),
        (
            "missed output 3",
            settle_id(&SEVENS, false, 3),
            "07abc85301cd7df3cbf8082b05ebafc2107f21d8e1b82fab0895d0dcad2650ec",
        ),
        (
            "miner payout 5",
            payout_id(&SEVENS, 5),
            "af5cd8e678f248be2fa10122ecc9a5b45d4a9a31ac50315294c5eebf5d4ed067",
        ),
    ];
    for (name, id, digits) in cases {
        assert!(rt; id == hash(digits)?, "{name}");
    }
    Ok(())
}

#[test]
fn an_address_is_the_root_over_its_conditions(rt: HostRuntime) -> Result<(), Fail> {
    let alloc = rt.alloc();
    let mut conditions = UnlockConditions {
        timelock: 0,
        keys: List::new(alloc),
        required: 0,
    };
    let none = hash("10628d8f8233d6a5afe65df26e6f82d61cbb8e7083056a061ce30705ec68dffb")?;
    assert!(rt; unlock_hash(alloc, &conditions)? == none, "no key");
    conditions.keys.push(PublicKey {
        algorithm: *b"seal\0\0\0\0\0\0\0\0\0\0\0\0",
        key: Blob::from_slice(alloc, &[9; 32])?,
    })?;
    conditions.required = 1;
    let one = hash("3ceaff5be9afda4b9473f49cb22d3bbb29ce0b0d9886db4cdc2a047ee3728420")?;
    assert!(rt; unlock_hash(alloc, &conditions)? == one, "one key");
    Ok(())
}

#[test]
fn a_storage_proof_has_its_place(rt: HostRuntime) {
    assert_eq!(rt; segment_index(&[1; 32], &[2; 32], 1000), 75);
}
