//! A byte string as the tree over its leaves.
ghost use Rattle.std.specs.Prelude.{◌≡◌, ◌+◌, ◌^◌, ◌≤◌, length, map, take, drop};
ghost use Rattle.sia_merkle.specs.Roots.{leaf_count, leaf_digest, leaves_of, tree_root};

use sia_blake::Hash;
use sia_cover::Row;
use sia_merkle::{Nodes, leaves, power, root};

/// The tree over the leaves of a byte string: each root is computed when it is asked for.
#[derive(Clone, Copy)]
pub(crate) struct LeafNodes<'a> {
    pub bytes: &'a [u8],
}

impl<'a> Nodes for LeafNodes<'a> {
    ghost hashes = { λ nodes. map leaf_digest (leaves_of nodes.bytes.now) };

    fn count(&self) -> u64 {
        leaves(self.bytes.len() as u64)
    }

    fn node(&self, level: u32, index: u64) -> Hash {
        // That the count fits 64 bits bounds the level.
        let _count = self.bytes.len();
        root_of_leaves(self.bytes, index * power(level), level)
    }
}

impl<'a> Row for LeafNodes<'a> {
    ghost hashes = { λ nodes. map leaf_digest (leaves_of nodes.bytes.now) };

    fn len(&self) -> u64 {
        leaves(self.bytes.len() as u64)
    }

    fn root_from(&self, place: u64, height: u32) -> Hash {
        root_of_leaves(self.bytes, place, height)
    }
}

/// The root over the 2^`height` leaves from `place` on.
fn root_of_leaves(bytes: &[u8], place: u64, height: u32) -> Hash
    requires { place + 2 ^ height ≤ leaf_count (length bytes.now) }
    ensures { result ≡ tree_root height (take (2 ^ height) (drop place (map leaf_digest (leaves_of bytes.now)))) }
{
    // That the count fits 64 bits bounds the height.
    let _count = bytes.len();
    let width = power(height);
    let (_, rest) = bytes.split_at(place as usize * 64);
    let len = (rest.len() as u64).min(width.saturating_mul(64));
    root(&rest[..len as usize])
}
