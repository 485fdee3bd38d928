//! Covers of a set of places of a Merkle tree, and the join of what stands at the places with the cover of all others.
//!
//! A proof about some places of a tree has the roots of the largest subtrees that hold none of them, from left to right
//! (RHP2; the range and diff proofs of Sia's Go library merkletree). With what stands at the places, the root is computed
//! again from these. Ranges and diffs differ only in which places they are about, so the recursion stands here once, over a
//! set that knows how many of its places are below a place.
//!
//! ```
//! let others = Others(&set);
//! let roots = cover_roots(alloc, &nodes, &others)?;
//! let accepted = joins_to(&set, count, &row, roots.as_slice(), &root);
//! ```
//!
//! # Promises
//!
//! - [`cover_roots`] gives the roots of the cover of a set, from left to right, for each [`PlaceSet`] and for its [`Others`].
//! - [`append_part`] makes the roots of a cover those of the tree that has a row of hashes more: a tree whose hashes come in
//!   parts needs none of them twice.
//! - [`joins_to`] answers yes exactly where the hashes of a [`Row`] at the places and the roots of the cover of all others
//!   join to a root, and none is missing or left over. It takes no memory.
//! - [`segments_join_to`] answers so for the roots of both covers. It takes no memory.
//! - [`join`] gives the root that hashes and roots join to. It takes no memory, and a subtree whose places are all in the set
//!   is one root of the row.
//! - [`segments_are_largest`]: each segment of a cover is a largest one that holds no place outside the set.
//! - [`each_place_is_covered_once`]: each place is in exactly one segment of the cover, or outside the set and in none.
//!
//! # Stands on
//!
//! sia_merkle for the tree and its definitions, sia_blake for the digest's type, sia_encoding for lists.
#![tactic(auto)]

mod cover;
mod growing;
mod joining;
mod laws;
mod place_set;
mod row;
mod segments;

pub use cover::cover_roots;
pub use growing::append_part;
pub use joining::{join, joins_to};
pub use laws::{each_place_is_covered_once, segments_are_largest};
pub use place_set::{Others, PlaceSet};
pub use row::Row;
pub use segments::segments_join_to;
