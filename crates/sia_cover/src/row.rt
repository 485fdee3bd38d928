//! Hashes in a row, which stand at the places of a set in order.
ghost use Rattle.std.specs.Prelude.{◌≡◌, ◌+◌, ◌^◌, ◌≤◌, ℕ, List, length, take, drop};
ghost use Rattle.sia_merkle.specs.Roots.{tree_root};

use sia_blake::Hash;
use sia_merkle::{PlainNodes, node_root, power};

/// Hashes in a row, of which the root over any part can be asked for.
pub trait Row {
    /// The hashes.
    ghost hashes: { Self → List (List ℕ) };

    /// How many hashes there are.
    fn len(&self) -> u64
        ensures { result ≡ length (hashes self.now) };

    /// The root over the 2^`height` hashes from `place` on, all of which are there.
    fn root_from(&self, place: u64, height: u32) -> Hash
        requires { place + 2 ^ height ≤ length (hashes self.now) }
        ensures { result ≡ tree_root height (take (2 ^ height) (drop place (hashes self.now))) };
}

impl<'a> Row for PlainNodes<'a> {
    ghost hashes = { λ nodes. nodes.hashes.now };

    fn len(&self) -> u64 {
        self.hashes.len() as u64
    }

    fn root_from(&self, place: u64, height: u32) -> Hash {
        node_root(part_from(self.hashes, place, height))
    }
}

/// The 2^`height` hashes from `place` on.
fn part_from(hashes: &[Hash], place: u64, height: u32) -> &[Hash]
    requires { place + 2 ^ height ≤ length hashes.now }
    ensures { result.now ≡ take (2 ^ height) (drop place hashes.now) }
{
    // That the count fits 64 bits bounds the height.
    let _count = hashes.len();
    let width = power(height);
    let (_, rest) = hashes.split_at(place as usize);
    let (part, _) = rest.split_at(width as usize);
    part
}
