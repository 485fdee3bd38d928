//! Tests of digests, trees, ranges, diffs and storage proofs, a table for each theme. Each case has its expected values from
//! outside of this repository's code: they are those of Python's hashlib, with the recursion of the trees written out.
#![tactic(auto)]

#[cfg(test)]
mod blake;
#[cfg(test)]
mod bytes;
#[cfg(test)]
mod diff;
#[cfg(test)]
mod encoding;
#[cfg(test)]
mod merkle;
#[cfg(test)]
mod pieces;
#[cfg(test)]
mod prover;
#[cfg(test)]
mod range;
#[cfg(test)]
mod roottree;
