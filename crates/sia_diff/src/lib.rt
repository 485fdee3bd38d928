//! Proofs of a diff: from the root over a list of hashes to the root over the list after some steps.
//!
//! A host that changes a list of hashes by steps proves the change to a renter that knows the list's root and count alone
//! (RHP2; siad's Merkle diff proofs). The proof has the old hashes at the places that the steps name or remove, and the roots
//! of the largest subtrees that hold no such place. With them the old root is computed, and then, with the hashes moved by
//! the steps, the new one.
//!
//! ```
//! let places = touched(alloc, n, steps)?;
//! let proof = prove_diff(alloc, &nodes, steps)?;
//! let after = check_diff(alloc, &root, n, &proof, steps)?;
//! ```
//!
//! # Promises
//!
//! - [`touched`] gives the old places that the steps touch, in ascending order, exactly where the steps are fit: at most
//!   65,536 hashes at any time, at most 1,024 touched places, and no hash set twice.
//! - [`prove_diff`] gives exactly the old hashes at the touched places and the roots of the cover of the untouched ones, of
//!   steps that are fit.
//! - [`check_diff`] accepts a proof of fit steps exactly where these join to the old root and none is missing or left over;
//!   the answer is the join of the hashes after the steps with the same roots.
//! - [`own_diff_is_accepted`]: a list's own proof is accepted, and its answer is the root over the list after the steps.
//! - [`another_diff_collides`]: who has another proof accepted under a list's root shows a collision of the digest.
//!
//! # Stands on
//!
//! sia_cover for covers and joins, sia_merkle for the tree, sia_types for the proof, sia_encoding for lists and the limits,
//! sia_blake for the digest's type.
#![tactic(auto)]

mod check;
mod chosen;
mod laws;
mod moving;
mod places;
mod prove;
mod steps;

pub use check::check_diff;
pub use laws::{another_diff_collides, own_diff_is_accepted};
pub use places::touched;
pub use prove::prove_diff;
pub use steps::DiffStep;
