//! A tree that keeps its nodes, beside the plain list: many changes in a row, and proofs that read it.
ghost use Rattle.std.specs.Prelude.{◌≡◌};

use crate::bytes::hash;
use sia_blake::Hash;
use sia_diff::{DiffStep, prove_diff, touched};
use sia_encoding::Steps;
use sia_encoding::limits::CONTRACT_SECTORS;
use sia_merkle::node_root;
use sia_range::prove_nodes;
use sia_roottree::RootTree;
use std::alloc::Global;
use std::marker::Brand;
use std::sync::ledger::{Blank, Ledger};
use std::test::Fail;

/// Five hashes: each byte of the one at place i is i + 1.
const FIVE: [Hash; 5] = [[1; 32], [2; 32], [3; 32], [4; 32], [5; 32]];

/// The root over them.
const ROOT: &str = "98b572c089e78cbe8a8634e8e64440651c8cef8f982e7154aa0a2ebd7503d656";

/// The node over those at the places 2 and 3.
const PAIR: &str = "e1b243e8bf587dbaba9ed5102b256a61e74a225434aede23d7e400024207665e";

/// The root over the hashes of 3, 2, 1, 4 and 9.
const WRITTEN: &str = "5cd0aeecfa550f57f1f602ea5763bc5085a64b6668a771e009e821577c606c4b";

/// Puts a hash behind the last one, and finds the room for it.
fn push<L: Ledger>(tree: &mut RootTree, hash: Hash, steps: &mut Steps<L>) -> Result<(), Fail> {
    if tree.count() >= CONTRACT_SECTORS {
        return Err("the tree is full")?;
    }
    tree.reserve(1)?;
    tree.push(hash, steps);
    Ok(())
}

/// The tree over the five hashes.
fn tree_of_five<L: Ledger>(alloc: Global, steps: &mut Steps<L>) -> Result<RootTree, Fail> {
    let mut tree = RootTree::new(alloc);
    for hash in FIVE {
        push(&mut tree, hash, steps)?;
    }
    Ok(tree)
}

/// Whether the tree over the five hashes has the roots of another program before and after a write: the hashes at the
/// places 0 and 2 are swapped, the last one is cut off, and another one is put behind.
fn is_written<L: Ledger>(alloc: Global, blank: Blank) -> Result<bool, Fail>
    requires name { blank.name ≡ L.name }
    requires parts { blank.parts ≡ L.parts }
    requires one { L.parts ≡ 1 }
{
    let mut steps = Steps::<L>::new(blank);
    let mut tree = tree_of_five(alloc, &mut steps)?;
    let before = tree.root(&mut steps);
    if tree.count() != 5 {
        return Ok(false);
    }
    tree.swap(0, 2, &mut steps);
    tree.pop();
    push(&mut tree, [9; 32], &mut steps)?;
    let after = tree.root(&mut steps);
    Ok(before == hash(ROOT)? && after == hash(WRITTEN)?)
}

#[test]
fn a_written_tree_has_the_roots_of_another_program(rt: HostRuntime) -> Result<(), Fail> {
    assert!(rt; is_written::<Brand>(rt.alloc(), Blank::new(1))?);
    Ok(())
}

/// Whether the proofs of a range and of a diff read the nodes of a tree as those of its list.
fn is_read<L: Ledger>(alloc: Global, blank: Blank) -> Result<bool, Fail>
    requires name { blank.name ≡ L.name }
    requires parts { blank.parts ≡ L.parts }
    requires one { L.parts ≡ 1 }
{
    let mut steps = Steps::<L>::new(blank);
    let tree = tree_of_five(alloc, &mut steps)?;
    let write = [
        DiffStep::Swap(0, 2),
        DiffStep::Trim(1),
        DiffStep::Append([9; 32]),
    ];
    if tree.count() != 5 || touched(alloc, tree.count(), &write)?.is_none() {
        return Ok(false);
    }
    let range = prove_nodes(alloc, &tree, 0, 2)?;
    let diff = prove_diff(alloc, &tree, &write)?;
    Ok(
        range.as_slice() == [hash(PAIR)?, FIVE[4]].as_slice()
            && diff.leaves.as_slice() == [FIVE[0], FIVE[2], FIVE[4]].as_slice()
            && diff.nodes.as_slice() == [FIVE[1], FIVE[3]].as_slice(),
    )
}

#[test]
fn proofs_read_the_nodes_that_a_tree_keeps(rt: HostRuntime) -> Result<(), Fail> {
    assert!(rt; is_read::<Brand>(rt.alloc(), Blank::new(1))?);
    Ok(())
}

/// The number after this one in a row that looks random (Marsaglia's xorshift).
fn next(random: u64) -> u64 {
    let random = random ^ (random << 13);
    let random = random ^ (random >> 7);
    random ^ (random << 17)
}

/// A hash that begins with the number.
fn hash_of(random: u64) -> Hash {
    let mut hash = [0; 32];
    hash[..8].copy_from_slice(&random.to_le_bytes());
    hash
}

/// Changes the tree and the list alike, as a random number says.
fn change<L: Ledger>(
    tree: &mut RootTree,
    list: &mut Vec<Hash>,
    random: u64,
    steps: &mut Steps<L>,
) -> Result<(), Fail> {
    let count = tree.count();
    let hash = hash_of(random);
    if count == 0 || random % 4 == 0 {
        list.push(hash)?;
        return push(tree, hash, steps);
    }
    let place = (random >> 8) % count;
    let other = (random >> 32) % count;
    match random % 4 {
        1 => {
            tree.pop();
            let _ = list.pop();
        }
        2 => {
            tree.set(place, hash, steps);
            if let Some(slot) = list.get_mut(place as usize) {
                *slot = hash;
            }
        }
        _ => {
            tree.swap(place, other, steps);
            if list.len() as u64 == count {
                list.swap(place as usize, other as usize);
            }
        }
    }
    Ok(())
}

/// Whether a tree that begins with so many hashes has the root of the plain list through 10,000 random changes, at every
/// 500th.
fn stays_the_list<L: Ledger>(alloc: Global, start: u64, blank: Blank) -> Result<bool, Fail>
    requires name { blank.name ≡ L.name }
    requires parts { blank.parts ≡ L.parts }
    requires one { L.parts ≡ 1 }
{
    let mut steps = Steps::<L>::new(blank);
    let mut tree = RootTree::new(alloc);
    let mut list: Vec<Hash> = Vec::new(alloc);
    let mut random: u64 = 88_172_645_463_325_252;
    for _ in 0..start {
        random = next(random);
        list.push(hash_of(random))?;
        push(&mut tree, hash_of(random), &mut steps)?;
    }
    for turn in 0..10_000 {
        random = next(random);
        change(&mut tree, &mut list, random, &mut steps)?;
        if turn % 500 == 499 && tree.root(&mut steps) != node_root(list.as_slice()) {
            return Ok(false);
        }
    }
    Ok(tree.count() == list.len() as u64)
}

#[test]
fn ten_thousand_changes_of_a_small_tree_leave_the_root_of_its_list(
    rt: HostRuntime,
) -> Result<(), Fail> {
    assert!(rt; stays_the_list::<Brand>(rt.alloc(), 0, Blank::new(1))?);
    Ok(())
}

#[test]
fn ten_thousand_changes_of_a_large_tree_leave_the_root_of_its_list(
    rt: HostRuntime,
) -> Result<(), Fail> {
    assert!(rt; stays_the_list::<Brand>(rt.alloc(), 65_000, Blank::new(1))?);
    Ok(())
}
