//! Storage proofs of a contract: that its host stores the leaf that is asked for.
//!
//! Which leaf is asked for is chosen by the identifiers of the contract and of the block before its window (Sia whitepaper,
//! "Storage proofs"; siad's types/filecontracts.go). The contract's root is that over all leaves of its sectors, which is the
//! root over the sectors' roots. So the proof goes up through the one sector that has the leaf, and then through the list of
//! roots, and no other sector is read.
//!
//! ```
//! let proof = make_proof(alloc, sector, place, &roots, &trigger, &contract)?;
//! let accepted = check_leaf(&root, size, index, &proof.leaf, proof.hashes.as_slice());
//! ```
//!
//! # Promises
//!
//! - [`make_proof`] gives exactly the leaf that is chosen, and the hashes beside its path through the sector and through the
//!   list of roots. Where the list has the sector's root at its place, the proof is right: it joins to the root over the list,
//!   in the tree over all leaves of all sectors.
//!
//! # Stands on
//!
//! sia_merkle for the tree, sia_ids for the leaf's place, sia_types for the proof, sia_encoding for lists, sia_blake for the
//! digest's type.
#![tactic(auto)]

mod path;
mod proof;

pub use proof::make_proof;
