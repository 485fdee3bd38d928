//! Merkle trees over BLAKE2b-256.
//!
//! They are those of the Sia whitepaper ("Storage proofs") and of Sia's Go library merkletree. A leaf is hashed behind a
//! byte 0, a node behind a byte 1. A tree of more than one leaf is split at the largest power of two below the number of its
//! leaves. A byte string has leaves of 64 bytes, of which only the last may be short, and is hashed as it is.
//!
//! ```
//! let root = root(bytes);
//! let hashes = prove_leaf(alloc, bytes, place)?;
//! let accepted = check_leaf(&root, size, place, &leaf, hashes.as_slice());
//! ```
//!
//! # Promises
//!
//! - [`root`] of a byte string, [`node_root`] of hashes, [`RootStack`] of hashes that come one by one and [`PieceStack`] of
//!   bytes that come in pieces give the root of the definition, and none takes memory.
//! - [`prove_leaf`] gives the hashes beside the path of a leaf, upwards.
//! - [`check_leaf`] accepts a leaf exactly where these hashes join it to the root and none is missing or left over.
//! - [`another_leaf_collides`]: who has a leaf accepted that is not the byte string's own shows a collision of the digest.
//! - [`root_splits`]: above one hash, the root is the node over the roots of two parts.
//! - [`parts_have_the_root`]: the root over the roots of whole parts, as sectors, is the root over all their leaves.
//! - [`path_goes_through_its_part`]: the path of a leaf, and the hashes beside it, are those of its part and then those of
//!   the part's root.
//! - [`PlainNodes`] is a tree over hashes that answers for the root of each subtree, as each [`Nodes`] does.
//! - [`Noted`] is a list of bytes that only clauses read, so that what comes in pieces can be seen whole.
//!
//! # Stands on
//!
//! sia_blake for the digest, sia_encoding for lists and the count of steps.
#![tactic(auto)]

mod groups;
mod hashing;
mod laws;
mod leaf_proof;
mod nodes;
mod noted;
mod pieces;
mod pushed;
mod stack;
mod whole;

pub use hashing::{leaf_hash, node, node_hash};
pub use laws::{
    another_leaf_collides, parts_have_the_root, path_goes_through_its_part, root_splits,
};
pub use leaf_proof::{check_leaf, prove_leaf};
pub use nodes::{Nodes, PlainNodes};
pub use noted::Noted;
pub use pieces::PieceStack;
pub use stack::RootStack;
pub use whole::{HEIGHT, leaves, node_root, power, root};
