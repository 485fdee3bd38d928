//! The digests of a leaf and of a node.
ghost use Rattle.std.specs.Prelude.{◌≡◌, ◌+◌, ◌∷◌, ◌++◌};
ghost use Rattle.sia_merkle.specs.Roots.{leaf_digest, node_digest};

use sia_blake::{Hash, Hasher, digest};
use sia_encoding::Steps;
use std::sync::ledger::Ledger;

/// The hash of a leaf of any length.
#[tactic(auto, unfolding(crate::specs::Roots::leaf_digest))]
pub fn leaf_hash(leaf: &[u8]) -> Hash
    ensures { result ≡ leaf_digest leaf.now }
{
    let mut hasher = Hasher::new();
    hasher.update(&[0]);
    hasher.update(leaf);
    hasher.finish()
}

/// The bytes of a node: a 1, and the hashes of its two parts.
fn text_of_node(left: &Hash, right: &Hash) -> [u8; 65]
    ensures { result ≡ 1 ∷ left.now ++ right.now }
{
    let mut text = [1; 65];
    let (_, parts) = text.split_at_mut(1);
    let (first, second) = parts.split_at_mut(32);
    first.copy_from_slice(left);
    second.copy_from_slice(right);
    text
}

/// The hash of a node over the hashes of its left and right part, for who counts no steps.
#[tactic(auto, unfolding(crate::specs::Roots::node_digest))]
pub fn node(left: &Hash, right: &Hash) -> Hash
    ensures { result ≡ node_digest left.now right.now }
{
    let text = text_of_node(left, right);
    digest(&text)
}

/// The hash of a node over the hashes of its left and right part. It counts one step.
pub fn node_hash<L: Ledger>(left: &Hash, right: &Hash, steps: &mut Steps<L>) -> Hash
    ensures hash { result ≡ node_digest left.now right.now }
    ensures step { steps.new ≡ steps.old + 1 }
{
    steps.tick();
    node(left, right)
}
