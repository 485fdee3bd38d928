//! Proofs of a range of places under the root of a Merkle tree.
//!
//! A range of leaves, or of hashes, is proved by the roots of the largest subtrees that cover all other places, from left to
//! right (RHP2; the range proofs of Sia's Go library merkletree). With them the root is computed again from the range alone.
//! A proof can be made of bytes that come in pieces, so that a file is read once and never held whole.
//! The leaves of a range may be replaced: the root after that is computed from the same roots, once those of the range and
//! the others were seen to give the old root.
//!
//! ```
//! let hashes = prove_range(alloc, bytes, a, b)?;
//! let accepted = check_range(&root, n, a, b, part, hashes.as_slice()).is_some();
//! let after = root_after_update(&root, n, a, b, &proof, new);
//! ```
//!
//! # Promises
//!
//! - [`prove_range`], and [`prove_nodes`] of a list of hashes, give exactly the roots of the cover of all other places.
//! - [`RangeProver`] gives exactly the same proof, and the root, of a byte string that comes in pieces of [`PIECE_LEN`] bytes.
//! - [`check_range`] and [`check_nodes`] accept a range exactly where it joins with the hashes to the root, and no hash is
//!   missing or left over. They take no memory.
//! - [`prove_update`] gives the roots of both covers: that of the range, and that of all other places.
//! - [`root_after_update`] gives the join with the new leaves in the range's place, exactly where the roots of both covers
//!   join to the old root. It takes no memory.
//! - [`another_range_collides`], [`other_nodes_collide`], [`another_update_collides`]: where a list has the root, what is
//!   accepted under that root is the list's own, and the root after an update that of the list after it, or a collision of
//!   the digest is shown.
//! - [`own_range_is_accepted`], [`own_nodes_are_accepted`], [`own_update_is_accepted`]: what a list has is accepted, with
//!   the proof that is made of it.
//! - [`leaves_after_update`]: where whole leaves replace whole ones, or the range is the last one, the byte string with the
//!   new bytes in place has the new leaves in place of the old.
//!
//! # Stands on
//!
//! sia_cover for covers and joins, sia_merkle for the tree, sia_types for the proof of an update, sia_encoding for lists,
//! sia_blake for the digest's type.
#![tactic(auto)]

mod between;
mod check;
mod laws;
mod leaf_nodes;
mod prove;
mod prover;
mod update;

pub use check::{check_nodes, check_range};
pub use laws::{
    another_range_collides, another_update_collides, leaves_after_update, other_nodes_collide,
    own_nodes_are_accepted, own_range_is_accepted, own_update_is_accepted,
};
pub use prove::{prove_nodes, prove_range, prove_update};
pub use prover::{PIECE_LEN, RangeProof, RangeProver};
pub use update::root_after_update;
