//! Storage proofs of one leaf: the leaf, and the hashes beside its path, from the leaf up to the root.
ghost use Rattle.std.specs.Prelude.{◌≡◌, ◌<◌, ◌≤◌, ◌^◌, ◌++◌, ◌↔◌, length, map, IsTrue, IfOk, OnOk, option_map};
ghost use Rattle.sia_merkle.specs.Paths.{IsCorrect, hashes_beside, joined_upwards, leaf_proof, sides};
ghost use Rattle.sia_merkle.specs.Roots.{leaf_count, leaf_digest, leaves_of, node_digest};

use crate::hashing::{leaf_hash, node};
use crate::whole::{HEIGHT, leaves, power, root};
use sia_blake::Hash;
use sia_encoding::List;
use std::alloc::{AllocError, Global};

/// Whether the hashes join the leaf at a place of a byte string of so many bytes to this root, and none is missing or
/// left over. The leaf has 64 bytes, of which those behind the byte string's end aren't looked at.
pub fn check_leaf(root: &Hash, size: u64, place: u64, leaf: &[u8; 64], hashes: &[Hash]) -> bool
    requires { place < leaf_count size }
    ensures { IsTrue result ↔ IsCorrect root.now size place leaf.now hashes.now }
{
    let length = (size - place * 64).min(64);
    let below = leaf_hash(&leaf[..length as usize]);
    match climb(HEIGHT, leaves(size), place, &below, hashes) {
        Some(found) => found == *root,
        None => false,
    }
}

/// The proof of the leaf at a place of a byte string: the hashes beside its path, upwards.
pub fn prove_leaf(alloc: Global, bytes: &[u8], place: u64) -> Result<List<Hash>, AllocError>
    requires { place < leaf_count (length bytes.now) }
    ensures { IfOk result (λ hashes. hashes ≡ leaf_proof (map leaf_digest (leaves_of bytes.now)) place) }
{
    let mut hashes = List::new(alloc);
    append_beside(&mut hashes, HEIGHT, bytes, place)?;
    Ok(hashes)
}

/// Appends the hashes beside the path of a place, upwards, in the tree over the leaves of a byte string, which are at
/// most 2^`height`.
fn append_beside(
    hashes: &mut List<Hash>,
    height: u32,
    bytes: &[u8],
    place: u64,
) -> Result<(), AllocError>
    requires height { height ≤ 64 }
    requires fits { leaf_count (length bytes.now) ≤ 2 ^ height }
    ensures { OnOk result (hashes.new ≡ hashes.old ++ hashes_beside height (map leaf_digest (leaves_of bytes.now)) place) }
{
    if height == 0 {
        return Ok(());
    }
    let half = power(height - 1);
    if leaves(bytes.len() as u64) <= half {
        return append_beside(hashes, height - 1, bytes, place);
    }
    let (left, right) = bytes.split_at(half as usize * 64);
    if place < half {
        append_beside(hashes, height - 1, left, place)?;
        hashes.push(root(right))?;
        Ok(())
    } else {
        append_beside(hashes, height - 1, right, place - half)?;
        hashes.push(root(left))?;
        Ok(())
    }
}

/// Joins a leaf's hash with the hashes beside the path of its place, upwards in a tree of `count` leaves, which are at
/// most 2^`height`. `None` where a hash is missing or left over.
fn climb(height: u32, count: u64, place: u64, below: &Hash, hashes: &[Hash]) -> Option<Hash>
    requires { height ≤ 64 }
    ensures { result ≡ joined_upwards below.now (sides height count place) hashes.now }
{
    if height == 0 {
        return if hashes.is_empty() {
            Some(*below)
        } else {
            None
        };
    }
    let half = power(height - 1);
    if count <= half {
        return climb(height - 1, count, place, below, hashes);
    }
    let Some((beside, inner)) = hashes.split_last() else {
        return None;
    };
    if place < half {
        left_of(climb(height - 1, half, place, below, inner), beside)
    } else {
        right_of(
            beside,
            climb(height - 1, count - half, place - half, below, inner),
        )
    }
}

/// The node of a left part that may be missing, and a right one.
fn left_of(left: Option<Hash>, right: &Hash) -> Option<Hash>
    ensures { result ≡ option_map (λ hash. node_digest hash right.now) left }
{
    match left {
        Some(left) => Some(node(&left, right)),
        None => None,
    }
}

/// The node of a left part, and a right one that may be missing.
fn right_of(left: &Hash, right: Option<Hash>) -> Option<Hash>
    ensures { result ≡ option_map (λ hash. node_digest left.now hash) right }
{
    match right {
        Some(right) => Some(node(left, &right)),
        None => None,
    }
}
