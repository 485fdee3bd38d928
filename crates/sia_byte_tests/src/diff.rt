//! Diffs of five hashes, steps that aren't fit, and proofs that are refused.
use sia_blake::Hash;
use sia_diff::{DiffStep, check_diff, prove_diff, touched};
use sia_encoding::List;
use sia_merkle::PlainNodes;
use sia_types::DiffProof;
use std::alloc::Global;
use std::test::Fail;

/// Five hashes: each byte of the one at place i is i + 1.
fn five() -> [Hash; 5] {
    [[1; 32], [2; 32], [3; 32], [4; 32], [5; 32]]
}

/// The root over them.
fn old_root() -> Hash {
    [
        0x98, 0xb5, 0x72, 0xc0, 0x89, 0xe7, 0x8c, 0xbe, 0x8a, 0x86, 0x34, 0xe8, 0xe6, 0x44, 0x40,
        0x65, 0x1c, 0x8c, 0xef, 0x8f, 0x98, 0x2e, 0x71, 0x54, 0xaa, 0x0a, 0x2e, 0xbd, 0x75, 0x03,
        0xd6, 0x56,
    ]
}

/// The node over those at the places 2 and 3.
fn pair() -> Hash {
    [
        0xe1, 0xb2, 0x43, 0xe8, 0xbf, 0x58, 0x7d, 0xba, 0xba, 0x9e, 0xd5, 0x10, 0x2b, 0x25, 0x6a,
        0x61, 0xe7, 0x4a, 0x22, 0x54, 0x34, 0xae, 0xde, 0x23, 0xd7, 0xe4, 0x00, 0x02, 0x42, 0x07,
        0x66, 0x5e,
    ]
}

/// The root over the hashes of 3, 2, 1, 4 and 9.
fn written_root() -> Hash {
    [
        0x5c, 0xd0, 0xae, 0xec, 0xfa, 0x55, 0x0f, 0x57, 0xf1, 0xf6, 0x02, 0xea, 0x57, 0x63, 0xbc,
        0x50, 0x85, 0xa6, 0x4b, 0x66, 0x68, 0xa7, 0x71, 0xe0, 0x09, 0xe8, 0x21, 0x57, 0x7c, 0x60,
        0x6c, 0x4b,
    ]
}

/// The root over the hashes of 1, 9, 3, 4 and 5.
fn updated_root() -> Hash {
    [
        0x83, 0xe5, 0x87, 0x59, 0xec, 0xe3, 0xfd, 0x74, 0x31, 0xc0, 0xb5, 0x9a, 0x7e, 0x32, 0x73,
        0x33, 0x4e, 0xd7, 0xed, 0x46, 0xd7, 0xe3, 0x0d, 0xef, 0x55, 0xbc, 0xcc, 0x5f, 0xad, 0x69,
        0xa9, 0x8b,
    ]
}

/// A write that appends behind a swap and a trim.
fn write() -> [DiffStep; 3] {
    [
        DiffStep::Swap(0, 2),
        DiffStep::Trim(1),
        DiffStep::Append([9; 32]),
    ]
}

/// An update of one hash.
fn update() -> [DiffStep; 1] {
    [DiffStep::Set(1, [9; 32])]
}

fn touches(alloc: Global, n: u64, steps: &[DiffStep], places: &[u64]) -> Result<bool, Fail> {
    match touched(alloc, n, steps)? {
        Some(found) => Ok(found.as_slice() == places),
        None => Ok(false),
    }
}

fn is_unfit(alloc: Global, n: u64, first: DiffStep, second: DiffStep) -> Result<bool, Fail> {
    Ok(touched(alloc, n, &[first, second])?.is_none())
}

/// The answer of a check, where the steps are fit.
fn answer(
    alloc: Global,
    old: &Hash,
    n: u64,
    proof: &DiffProof,
    steps: &[DiffStep],
) -> Result<Option<Hash>, Fail> {
    match touched(alloc, n, steps)? {
        Some(_) => Ok(check_diff(alloc, old, n, proof, steps)?),
        None => Err("the steps aren't fit")?,
    }
}

/// The answer of a check to a proof of these hashes and roots.
fn answer_to(
    alloc: Global,
    n: u64,
    leaves: &[Hash],
    nodes: &[Hash],
    steps: &[DiffStep],
) -> Result<Option<Hash>, Fail> {
    let proof = DiffProof {
        leaves: List::from_slice(alloc, leaves)?,
        nodes: List::from_slice(alloc, nodes)?,
    };
    answer(alloc, &old_root(), n, &proof, steps)
}

/// The proof of a diff, where the steps are fit.
fn proof_of(alloc: Global, hashes: &[Hash], steps: &[DiffStep]) -> Result<DiffProof, Fail> {
    match touched(alloc, hashes.len() as u64, steps)? {
        Some(_) => Ok(prove_diff(alloc, &PlainNodes { hashes }, steps)?),
        None => Err("the steps aren't fit")?,
    }
}

#[test]
fn places_that_are_named_or_removed_are_touched(rt: HostRuntime) -> Result<(), Fail> {
    assert!(rt; touches(rt.alloc(), 5, &write(), &[0, 2, 4])?);
    assert!(rt; touches(rt.alloc(), 5, &update(), &[1])?);
    assert!(rt;
        touches(
            rt.alloc(),
            5,
            &[DiffStep::Trim(2), DiffStep::Swap(0, 2)],
            &[0, 2, 3, 4]
        )?
    );
    assert!(rt; touches(rt.alloc(), 65_536, &[], &[])?);
    Ok(())
}

#[test]
fn steps_that_are_not_fit_are_refused(rt: HostRuntime) -> Result<(), Fail> {
    let none = DiffStep::Trim(0);
    let append = DiffStep::Append([9; 32]);
    let set = DiffStep::Set(4, [9; 32]);
    assert!(rt; is_unfit(rt.alloc(), 5, DiffStep::Swap(0, 5), none)?);
    assert!(rt; is_unfit(rt.alloc(), 5, DiffStep::Trim(6), none)?);
    assert!(rt; is_unfit(rt.alloc(), 5, set, DiffStep::Set(4, [8; 32]))?);
    assert!(rt; is_unfit(rt.alloc(), 5, set, DiffStep::Trim(1))?);
    assert!(rt; is_unfit(rt.alloc(), 4, append, set)?);
    assert!(rt; is_unfit(rt.alloc(), 65_536, append, DiffStep::Trim(1))?);
    assert!(rt; is_unfit(rt.alloc(), 65_537, none, none)?);
    assert!(rt; is_unfit(rt.alloc(), 1025, DiffStep::Trim(1024), DiffStep::Trim(1))?);
    assert!(rt; !is_unfit(rt.alloc(), 1025, DiffStep::Trim(1023), DiffStep::Trim(1))?);
    Ok(())
}

#[test]
fn a_write_is_proved_by_what_it_touches_and_the_cover_of_the_rest(
    rt: HostRuntime,
) -> Result<(), Fail> {
    let hashes = five();
    let proof = proof_of(rt.alloc(), &hashes, &write())?;
    assert!(rt; proof.leaves.as_slice() == &[hashes[0], hashes[2], hashes[4]][..]);
    assert!(rt; proof.nodes.as_slice() == &[hashes[1], hashes[3]][..]);
    assert!(rt; answer(rt.alloc(), &old_root(), 5, &proof, &write())? == Some(written_root()));
    assert!(rt; answer(rt.alloc(), &written_root(), 5, &proof, &write())?.is_none());
    Ok(())
}

#[test]
fn an_update_is_proved_by_larger_subtrees(rt: HostRuntime) -> Result<(), Fail> {
    let hashes = five();
    let proof = proof_of(rt.alloc(), &hashes, &update())?;
    assert!(rt; proof.leaves.as_slice() == &[hashes[1]][..]);
    assert!(rt; proof.nodes.as_slice() == &[hashes[0], pair(), hashes[4]][..]);
    assert!(rt; answer(rt.alloc(), &old_root(), 5, &proof, &update())? == Some(updated_root()));
    Ok(())
}

#[test]
fn a_proof_with_a_hash_more_or_less_or_changed_is_refused(rt: HostRuntime) -> Result<(), Fail> {
    let hashes = five();
    let leaves = [hashes[0], hashes[2], hashes[4], [0; 32]];
    let nodes = [hashes[1], hashes[3], [0; 32]];
    let mut changed = hashes[2];
    changed[31] ^= 1;
    let other = [hashes[0], changed, hashes[4]];
    let steps = write();
    assert!(rt;
        answer_to(rt.alloc(), 5, &leaves[..3], &nodes[..2], &steps)? == Some(written_root())
    );
    assert!(rt; answer_to(rt.alloc(), 5, &leaves, &nodes[..2], &steps)?.is_none());
    assert!(rt; answer_to(rt.alloc(), 5, &leaves[..2], &nodes[..2], &steps)?.is_none());
    assert!(rt; answer_to(rt.alloc(), 5, &leaves[..3], &nodes, &steps)?.is_none());
    assert!(rt; answer_to(rt.alloc(), 5, &leaves[..3], &nodes[..1], &steps)?.is_none());
    assert!(rt; answer_to(rt.alloc(), 5, &other, &nodes[..2], &steps)?.is_none());
    Ok(())
}

#[test]
fn a_list_without_hashes_has_the_root_of_nothing(rt: HostRuntime) -> Result<(), Fail> {
    let none = proof_of(rt.alloc(), &[], &[DiffStep::Append([9; 32])])?;
    let first = answer(rt.alloc(), &[0; 32], 0, &none, &[DiffStep::Append([9; 32])])?;
    assert!(rt; first == Some([9; 32]));
    let all = proof_of(rt.alloc(), &five(), &[DiffStep::Trim(5)])?;
    let last = answer(rt.alloc(), &old_root(), 5, &all, &[DiffStep::Trim(5)])?;
    assert!(rt; last == Some([0; 32]));
    Ok(())
}
