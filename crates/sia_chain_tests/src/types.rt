//! Records worked out by hand from the rules of the encoding.
use sia_encoding::{Blob, DecodeFault, Item, List};
use sia_types::{DiffProof, UpdateProof};
use std::test::Fail;

#[test]
fn a_proof_is_its_two_lists_of_hashes(rt: HostRuntime) -> Result<(), Fail> {
    let mut inner = List::new(rt.alloc());
    inner.push([7; 32])?;
    let proof = UpdateProof {
        inner,
        outer: List::new(rt.alloc()),
    };
    let mut out = Blob::new(rt.alloc());
    Item::copy(&proof, rt.alloc())?.encode(&mut out)?;
    let mut spelled = Blob::from_slice(rt.alloc(), &[1, 0, 0, 0, 0, 0, 0, 0])?;
    spelled.extend(&[7; 32])?;
    spelled.extend(&[0; 8])?;
    assert_eq!(rt; out.as_slice(), spelled.as_slice());
    spelled.push(9)?;
    let (taken, count) = UpdateProof::decode(rt.alloc(), spelled.as_slice(), 1).map_err(
        |_| "a fault",
    )?;
    assert_eq!(rt; taken.inner.as_slice(), [[7; 32]].as_slice());
    assert_eq!(rt; taken.outer.len(), 0);
    assert_eq!(rt; count, 48);
    Ok(())
}

/// Bytes that spell no diff proof, the first fault at the limit 1, and a name.
const BAD_PROOFS: [(&[u8], DecodeFault, &str); 2] = [
    (
        &[0, 0, 0, 0, 0, 0, 0, 0, 2, 0, 0, 0, 0, 0, 0, 0],
        DecodeFault::TooLong { at: 8 },
        "the second count above the limit",
    ),
    (
        &[1, 0, 0, 0, 0, 0, 0, 0, 2, 0, 0, 0, 0, 0, 0, 0],
        DecodeFault::Short { at: 8 },
        "no hash, and then a count above the limit",
    ),
];

#[test]
fn the_first_fault_of_a_proof_is_told(rt: HostRuntime) {
    for (bytes, fault, name) in BAD_PROOFS {
        assert_eq!(rt;
            DiffProof::decode(rt.alloc(), bytes, 1).err(),
            Some(fault),
            "{name}"
        );
    }
}
