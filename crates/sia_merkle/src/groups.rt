//! The roots of groups of 64 leaves or hashes, four digests side by side.
ghost use Rattle.std.specs.Prelude.{◌≡◌, ◌+◌, ◌*◌, ◌<◌, ℕ, [], ◌++◌, length, map, take, drop, slice_index_or};
ghost use Rattle.sia_merkle.specs.Levels.{pairs, levels_up};
ghost use Rattle.sia_merkle.specs.Roots.{leaf_digest, leaves_of, node_root_of, root_of};

use crate::hashing::node;
use sia_blake::{Hash, digest_four};

/// How many leaves or hashes a group has.
pub(crate) const GROUP: usize = 64;

/// How many bytes a group of leaves has.
pub(crate) const GROUP_LEN: usize = 4096;

/// Writes the bytes of a node behind its first one: the hashes of its two parts.
fn put_node(text: &mut [u8], left: &Hash, right: &Hash)
    requires { length text.old ≡ 64 }
    ensures parts { text.new ≡ left.now ++ right.now }
    ensures size { length (left.now ++ right.now) ≡ 64 }
{
    let (first, second) = text.split_at_mut(32);
    first.copy_from_slice(left);
    second.copy_from_slice(right);
}

/// The bytes of the four nodes over eight hashes, each without its first one.
fn text_of_nodes(left: &[Hash], right: &[Hash]) -> [u8; 256]
    requires left { length left.now ≡ 4 }
    requires right { length right.now ≡ 4 }
    ensures { (j : ℕ) → j < 4
        → take 64 (drop (64 * j) result) ≡ slice_index_or (left.now ++ right.now) (2 * j) [] ++ slice_index_or (left.now ++ right.now) (2 * j + 1) [] }
{
    let mut text = [0; 256];
    let (first, rest) = text.split_at_mut(64);
    let (second, rest) = rest.split_at_mut(64);
    let (third, fourth) = rest.split_at_mut(64);
    put_node(first, &left[0], &left[1]);
    put_node(second, &left[2], &left[3]);
    put_node(third, &right[0], &right[1]);
    put_node(fourth, &right[2], &right[3]);
    text
}

/// The nodes over eight hashes, of which the first four come apart from the others.
fn four_nodes(left: &[Hash], right: &[Hash]) -> [Hash; 4]
    requires left { length left.now ≡ 4 }
    requires right { length right.now ≡ 4 }
    ensures { result ≡ pairs (left.now ++ right.now) }
{
    digest_four(1, &text_of_nodes(left, right))
}

/// The nodes two levels above sixteen hashes, which come in quarters.
fn over_quarters(a: &[Hash], b: &[Hash], c: &[Hash], d: &[Hash]) -> [Hash; 4]
    requires a { length a.now ≡ 4 }
    requires b { length b.now ≡ 4 }
    requires c { length c.now ≡ 4 }
    requires d { length d.now ≡ 4 }
    ensures { result ≡ levels_up 2 ((a.now ++ b.now) ++ (c.now ++ d.now)) }
{
    let left = four_nodes(a, b);
    let right = four_nodes(c, d);
    four_nodes(&left, &right)
}

/// The digests of four leaves.
fn four_leaves(bytes: &[u8]) -> [Hash; 4]
    requires { length bytes.now ≡ 256 }
    ensures { result ≡ map leaf_digest (leaves_of bytes.now) }
{
    digest_four(0, bytes)
}

/// The nodes two levels above sixteen leaves.
fn over_sixteen_leaves(bytes: &[u8]) -> [Hash; 4]
    requires { length bytes.now ≡ 1024 }
    ensures { result ≡ levels_up 2 (map leaf_digest (leaves_of bytes.now)) }
{
    let (left, right) = bytes.split_at(512);
    let (a, b) = left.split_at(256);
    let (c, d) = right.split_at(256);
    let a = four_leaves(a);
    let b = four_leaves(b);
    let c = four_leaves(c);
    let d = four_leaves(d);
    over_quarters(&a, &b, &c, &d)
}

/// The nodes two levels above sixteen hashes.
fn over_sixteen(hashes: &[Hash]) -> [Hash; 4]
    requires { length hashes.now ≡ 16 }
    ensures { result ≡ levels_up 2 hashes.now }
{
    let (left, right) = hashes.split_at(8);
    let (a, b) = left.split_at(4);
    let (c, d) = right.split_at(4);
    over_quarters(a, b, c, d)
}

/// The root over four hashes.
fn over_four(hashes: &[Hash]) -> Hash
    requires { length hashes.now ≡ 4 }
    ensures { result ≡ node_root_of hashes.now }
{
    let left = node(&hashes[0], &hashes[1]);
    let right = node(&hashes[2], &hashes[3]);
    node(&left, &right)
}

/// The root over a group of leaves.
pub(crate) fn leaf_group_root(bytes: &[u8]) -> Hash
    requires { length bytes.now ≡ 4096 }
    ensures { result ≡ root_of (leaves_of bytes.now) }
{
    let (left, right) = bytes.split_at(2048);
    let (a, b) = left.split_at(1024);
    let (c, d) = right.split_at(1024);
    let a = over_sixteen_leaves(a);
    let b = over_sixteen_leaves(b);
    let c = over_sixteen_leaves(c);
    let d = over_sixteen_leaves(d);
    over_four(&over_quarters(&a, &b, &c, &d))
}

/// The root over a group of hashes.
pub(crate) fn group_root(hashes: &[Hash]) -> Hash
    requires { length hashes.now ≡ 64 }
    ensures { result ≡ node_root_of hashes.now }
{
    let (left, right) = hashes.split_at(32);
    let (a, b) = left.split_at(16);
    let (c, d) = right.split_at(16);
    let a = over_sixteen(a);
    let b = over_sixteen(b);
    let c = over_sixteen(c);
    let d = over_sixteen(d);
    over_four(&over_quarters(&a, &b, &c, &d))
}
