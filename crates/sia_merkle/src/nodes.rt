//! Trees whose subtrees' roots can be asked for.
ghost use Rattle.std.specs.Prelude.{◌≡◌, ◌+◌, ◌*◌, ◌^◌, ◌≤◌, ℕ, List, length, take, drop};
ghost use Rattle.sia_merkle.specs.Segments.{segment_root};

use crate::whole::{node_root, power};
use sia_blake::Hash;

/// A tree over a list of hashes, each of which may be the root of a tree itself.
pub trait Nodes {
    /// The hashes.
    ghost hashes: { Self → List (List ℕ) };

    /// How many hashes there are.
    fn count(&self) -> u64
        ensures { result ≡ length (hashes self.now) };

    /// The root over the 2^`level` hashes from `index` * 2^`level` on, all of which are there.
    fn node(&self, level: u32, index: u64) -> Hash
        requires { (index + 1) * 2 ^ level ≤ length (hashes self.now) }
        ensures { result ≡ segment_root (hashes self.now) level index };
}

/// The tree over a slice of hashes: each root is computed when it is asked for.
#[derive(Clone, Copy)]
pub struct PlainNodes<'a> {
    pub hashes: &'a [Hash],
}

impl<'a> Nodes for PlainNodes<'a> {
    ghost hashes = { λ nodes. nodes.hashes.now };

    fn count(&self) -> u64 {
        self.hashes.len() as u64
    }

    fn node(&self, level: u32, index: u64) -> Hash {
        node_root(segment(self.hashes, level, index))
    }
}

/// The 2^`level` hashes from `index` * 2^`level` on.
fn segment(hashes: &[Hash], level: u32, index: u64) -> &[Hash]
    requires { (index + 1) * 2 ^ level ≤ length hashes.now }
    ensures { result.now ≡ take (2 ^ level) (drop (index * 2 ^ level) hashes.now) }
{
    // That the count fits 64 bits bounds the level.
    let _count = hashes.len();
    let width = power(level);
    let (_, rest) = hashes.split_at((index * width) as usize);
    let (segment, _) = rest.split_at(width as usize);
    segment
}
