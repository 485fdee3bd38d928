//! The root of what stands whole in memory.
ghost use Rattle.std.specs.Prelude.{◌≡◌, ◌*◌, ◌^◌, ◌<◌, ◌≤◌, length, take, drop};
ghost use Rattle.sia_merkle.specs.Roots.{leaf_count, leaves_of, node_digest, node_root_of, root_of};

use crate::groups::{GROUP, GROUP_LEN, group_root, leaf_group_root};
use crate::hashing::leaf_hash;
use crate::pieces::PieceStack;
use crate::stack::RootStack;
use sia_blake::Hash;

/// How many bytes a leaf has, or the last one at most.
const LEAF_LEN: usize = 64;

/// How many leaves so many bytes have.
pub fn leaves(size: u64) -> u64
    ensures { result ≡ leaf_count size }
{
    size.div_ceil(64)
}

/// The height that every tree of fewer than 2^64 hashes fits.
pub const HEIGHT: u32 = 64;

/// A power of two.
pub fn power(exponent: u32) -> u64
    requires { exponent < 64 }
    ensures { result ≡ 2 ^ exponent }
{
    1 << exponent
}

/// The part of a byte string at a place, where each has so many bytes: that many, or what is left of them in the last one.
pub(crate) fn part_of(bytes: &[u8], size: usize, place: usize) -> &[u8]
    requires { size * place ≤ length bytes.now }
    ensures { result.now ≡ take size (drop (size * place) bytes.now) }
{
    let (_, rest) = bytes.split_at(size * place);
    let (part, _) = rest.split_at(rest.len().min(size));
    part
}

/// The group of hashes at a place: 64 of them, or what is left of them in the last one.
fn group_of(hashes: &[Hash], place: usize) -> &[Hash]
    requires { 64 * place ≤ length hashes.now }
    ensures { result.now ≡ take 64 (drop (64 * place) hashes.now) }
{
    let (_, rest) = hashes.split_at(GROUP * place);
    let (group, _) = rest.split_at(rest.len().min(GROUP));
    group
}

/// The root over leaves that are pushed one by one.
fn root_by_leaf(bytes: &[u8]) -> Hash
    ensures { result ≡ root_of (leaves_of bytes.now) }
{
    let mut stack = RootStack::new();
    for place in 0..bytes.len().div_ceil(64) {
        stack.push_leaf(part_of(bytes, 64, place));
    }
    stack.root()
}

/// The root over hashes that are pushed one by one.
fn root_by_hash(hashes: &[Hash]) -> Hash
    ensures { result ≡ node_root_of hashes.now }
{
    let mut stack = RootStack::new();
    for hash in hashes {
        stack.push_hash(hash);
    }
    stack.root()
}

/// The root over a group of leaves, of which the last group may lack some.
pub(crate) fn leaf_part_root(bytes: &[u8]) -> Hash
    ensures { result ≡ root_of (leaves_of bytes.now) }
{
    if bytes.len() == GROUP_LEN {
        leaf_group_root(bytes)
    } else if 0 < bytes.len() && bytes.len() <= LEAF_LEN {
        leaf_hash(bytes)
    } else {
        root_by_leaf(bytes)
    }
}

/// The root over a group of hashes, of which the last group may lack some.
fn part_root(hashes: &[Hash]) -> Hash
    ensures { result ≡ node_root_of hashes.now }
{
    if hashes.len() == GROUP {
        group_root(hashes)
    } else {
        root_by_hash(hashes)
    }
}

/// The root over groups of hashes.
fn root_by_group(hashes: &[Hash]) -> Hash
    ensures { result ≡ node_root_of hashes.now }
{
    let mut stack = RootStack::new();
    for place in 0..hashes.len().div_ceil(GROUP) {
        stack.push_hash(&part_root(group_of(hashes, place)));
    }
    stack.root()
}

/// The root over the leaves of a byte string; 32 zero bytes for no bytes.
pub fn root(bytes: &[u8]) -> Hash
    ensures { result ≡ root_of (leaves_of bytes.now) }
{
    if bytes.len() <= GROUP_LEN {
        leaf_part_root(bytes)
    } else {
        PieceStack::new().root(bytes)
    }
}

/// The root over hashes, which may be those of leaves or the roots of subtrees of one height; 32 zero bytes for none.
pub fn node_root(hashes: &[Hash]) -> Hash
    ensures { result ≡ node_root_of hashes.now }
{
    if hashes.len() <= GROUP {
        part_root(hashes)
    } else {
        root_by_group(hashes)
    }
}
