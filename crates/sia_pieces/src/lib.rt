//! A file as pieces of which any k of n give it back, and the field of 256 elements that they are computed in.
//!
//! Reed and Solomon's code: J. S. Plank, 'A Tutorial on Reed-Solomon Coding for Fault-Tolerance in RAID-like Systems' (1997).
//!
//! ```
//! let cut = cut_pieces(alloc, bytes, 10, 16)?; // 16 pieces, of which any 10 give the bytes back
//! let joined = join_pieces(alloc, chosen, 10, bytes.len() as u64)?; // `chosen` are 10 of them, with their places
//! let product = gf_mul(0x80, 2); // 0x1d
//! ```
//!
//! # Promises
//!
//! - [`gf_mul`] is the product of two bytes as polynomials over two elements, modulo x^8 + x^4 + x^3 + x^2 + 1.
//! - [`cut_pieces`] cuts bytes into pieces: byte t of piece j is the value at j of the polynomial whose coefficients are the k
//!   bytes of group t, the last group filled with zeros.
//! - [`join_pieces`] gives the first bytes of groups whose values at the pieces' places are the pieces' bytes.
//!   [`laws::pieces_stand_for_one`]: no other bytes are those.
//! - [`laws::pieces_come_back`]: of any bytes, any k and n up to 16 and any k of the n pieces, what [`join_pieces`] promises of
//!   its answer holds of the bytes alone.
//!
//! # Stands on
//!
//! `sia_encoding`: lists and byte strings.
#![tactic(auto)]

mod cut;
mod field;
mod join;
pub mod laws;
mod piece;
mod products;
mod solve;

pub use cut::cut_pieces;
pub use field::gf_mul;
pub use join::join_pieces;
pub use piece::Piece;
