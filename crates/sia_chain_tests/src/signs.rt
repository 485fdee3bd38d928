//! Seals, the hashes that signatures sign, and each fault of signatures, computed by a Python script over hashlib.
use crate::ids::{empty_transaction, hash};
use sia_blake::Hash;
use sia_encoding::{Blob, List};
use sia_sign::{Seal, SealSigner, SigCheck, SigFault, Signer, check_signatures, sig_hash};
use sia_types::{
    CoinInput, CoinOutput, Covered, PublicKey, Signature, Transaction, UnlockConditions,
};
use std::alloc::{AllocError, Global};
use std::test::Fail;

/// The key of the output that is spent.
const KEY: [u8; 32] = [1; 32];

/// The identifier of that output.
const PARENT: Hash = [7; 32];

/// The conditions of the key.
fn conditions(alloc: Global) -> Result<UnlockConditions, AllocError> {
    let mut keys = List::new(alloc);
    keys.push(PublicKey {
        algorithm: *b"seal\0\0\0\0\0\0\0\0\0\0\0\0",
        key: Blob::from_slice(alloc, &KEY)?,
    })?;
    Ok(UnlockConditions {
        timelock: 0,
        keys,
        required: 1,
    })
}

/// A transaction that spends the output, and pays 5 and 6 hastings.
fn spend(alloc: Global) -> Result<Transaction, AllocError> {
    let mut tx = empty_transaction(alloc);
    tx.coin_inputs.push(CoinInput {
        parent: PARENT,
        conditions: conditions(alloc)?,
    })?;
    tx.coin_outputs.push(CoinOutput {
        value: 5,
        address: [8; 32],
    })?;
    tx.coin_outputs.push(CoinOutput {
        value: 6,
        address: [9; 32],
    })?;
    Ok(tx)
}

/// Everything but the signatures, or these siacoin outputs.
fn covered(alloc: Global, whole: bool, coin_outputs: &[u64]) -> Result<Covered, AllocError> {
    Ok(Covered {
        whole,
        coin_inputs: List::new(alloc),
        coin_outputs: List::from_slice(alloc, coin_outputs)?,
        contracts: List::new(alloc),
        revisions: List::new(alloc),
        proofs: List::new(alloc),
        fund_inputs: List::new(alloc),
        fund_outputs: List::new(alloc),
        fees: List::new(alloc),
        notes: List::new(alloc),
        signatures: List::new(alloc),
    })
}

/// The hash that a signature signs that covers this much of the transaction.
fn signed_hash(alloc: Global, covered: Covered) -> Result<Hash, Fail> {
    let mut tx = spend(alloc)?;
    tx.signatures.push(Signature {
        parent: PARENT,
        key_index: 0,
        timelock: 0,
        covered,
        signature: Blob::new(alloc),
    })?;
    if tx.signatures.is_empty() {
        return Err("no signature")?;
    }
    Ok(sig_hash(alloc, &tx, 0)?)
}

#[test]
fn a_signature_signs_everything_or_what_it_names(rt: HostRuntime) -> Result<(), Fail> {
    let whole = signed_hash(rt.alloc(), covered(rt.alloc(), true, &[])?)?;
    assert!(rt; whole == hash("6aec9f6b2cb978acab06a83c9dbd59bf8f5eeadcd690caaac2c884546d41102e")?);
    let part = signed_hash(rt.alloc(), covered(rt.alloc(), false, &[1])?)?;
    assert!(rt; part == hash("33acf749b42609697ebfd9092ee46dfd8dce05cd5f7c68647ea208dfe55fc73b")?);
    Ok(())
}

/// A digest, and 32 zero bytes.
fn seal_of(digits: &str) -> Result<[u8; 64], Fail> {
    let digest = hash(digits)?;
    let mut seal = [0; 64];
    seal[..32].copy_from_slice(&digest);
    Ok(seal)
}

/// Whether the signer signs a hash by this seal, and the check accepts it of that hash and not of another one.
fn is_sealed<S: Signer, C: SigCheck>(
    alloc: Global,
    signer: &S,
    check: &C,
    seal: &[u8; 64],
) -> Result<bool, AllocError> {
    let signature = signer.sign(alloc, &[2; 32])?;
    let bytes = signature.as_slice();
    Ok(
        bytes == seal.as_slice()
            && check.accepts(&signer.key(), &[2; 32], bytes)
            && !check.accepts(&signer.key(), &[3; 32], bytes),
    )
}

#[test]
fn a_signer_makes_the_seal_that_the_check_accepts(rt: HostRuntime) -> Result<(), Fail> {
    let seal = seal_of("295520257fb1300d55fa2de94b10fb24e0de1a7ee982648dd632be8ccade9998")?;
    assert!(rt; is_sealed(rt.alloc(), &SealSigner::new(KEY), &Seal, &seal)?);
    Ok(())
}

/// The fault at the height 100 of the transaction with one signature of everything.
fn fault_of<C: SigCheck>(
    alloc: Global,
    check: &C,
    parent: Hash,
    timelock: u64,
    seal: &[u8; 64],
) -> Result<Option<SigFault>, AllocError> {
    let mut tx = spend(alloc)?;
    tx.signatures.push(Signature {
        parent,
        key_index: 0,
        timelock,
        covered: covered(alloc, true, &[])?,
        signature: Blob::from_slice(alloc, seal)?,
    })?;
    Ok(check_signatures(alloc, &tx, 100, check).err())
}

#[test]
fn a_signed_transaction_has_no_fault(rt: HostRuntime) -> Result<(), Fail> {
    let seal = seal_of("279c6970689683b6160aef7f3b15b7767949c7c69b5bd5be08d39bc1feb7de72")?;
    assert_eq!(rt; fault_of(rt.alloc(), &Seal, PARENT, 0, &seal)?, None);
    Ok(())
}

#[test]
fn each_fault_of_signatures_is_told(rt: HostRuntime) -> Result<(), Fail> {
    let alloc = rt.alloc();
    let unsigned = check_signatures(alloc, &spend(alloc)?, 100, &Seal).err();
    assert_eq!(rt; unsigned, Some(SigFault::MissingSig { i: 0 }));
    let other = fault_of(alloc, &Seal, [6; 32], 0, &[0; 64])?;
    assert_eq!(rt; other, Some(SigFault::Frivolous { i: 0 }));
    let early = fault_of(alloc, &Seal, PARENT, 101, &[0; 64])?;
    assert_eq!(rt; early, Some(SigFault::Timelock { i: 0 }));
    let wrong = fault_of(alloc, &Seal, PARENT, 100, &[0; 64])?;
    assert_eq!(rt; wrong, Some(SigFault::BadSig { i: 0 }));
    Ok(())
}
