//! A list of hashes whose Merkle root is had in a few steps after a change.
//!
//! A contract's root is the root over the roots of its sectors (the Sia whitepaper, "Storage proofs"; RHP2). A host that
//! changes one sector of many must not hash all nodes anew, so the nodes over whole subtrees are kept: a change makes those
//! over its place anew, at most one a level, and the root joins the largest subtrees. There are at most 65,536 hashes.
//!
//! ```
//! tree.reserve(1)?;
//! tree.push(sector_root, &mut steps);
//! let root = tree.root(&mut steps);
//! ```
//!
//! # Promises
//!
//! - [`RootTree::root`] gives the root over the list, whatever calls made it.
//! - [`RootTree::push`], [`RootTree::pop`], [`RootTree::set`] and [`RootTree::swap`] change the list alone, each by its
//!   own formula.
//! - [`RootTree::push`], [`RootTree::set`] and [`RootTree::root`] hash at most 17 nodes each, and [`RootTree::swap`] at
//!   most 34: so k changes and one root hash at most 34k + 17.
//! - [`RootTree::reserve`] alone takes memory, and makes room for as many pushes as were asked for.
//! - A [`RootTree`] is a `Nodes`: proofs of ranges and of diffs read its subtrees' roots, and none is hashed anew.
//!
//! # Stands on
//!
//! sia_merkle for the tree and its roots, sia_blake for the digest, sia_encoding for the count of steps and the limit.
#![tactic(auto)]

mod places;
mod raise;
mod root;
mod tree;

pub use tree::RootTree;
