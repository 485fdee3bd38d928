//! BLAKE2b with a digest of 32 bytes and no key: of a whole message, of one that comes in pieces, and of four side by side.
//!
//! The standard is RFC 7693. specs/Blake2b.antt has it as functions on lists of numbers, section by section; its vectors are
//! proved by computation in proofs/Vectors.antt.
//!
//! ```
//! let mut hasher = Hasher::new();
//! hasher.update(&piece);
//! let hash = hasher.finish();
//! ```
//!
//! # Promises
//!
//! - [`digest`] is the BLAKE2b-256 digest of its bytes, however many they are.
//! - A [`Hasher`] is seen as the bytes that it was given: [`Hasher::update`] puts more behind them, fewer than 2^64 in all, and
//!   [`Hasher::finish`] gives the digest of all. So how a message is cut into pieces changes nothing. [`Hasher::copy`] is one
//!   that was given the same.
//! - [`digest_four`] gives the digests of four messages of 65 bytes each, a first byte that all have and 64 bytes of their own:
//!   what a leaf or a node of a Merkle tree hashes.
//! - Neither [`digest`] nor [`digest_four`] nor a [`Hasher`] takes memory, and none of their calls can be refused.
//!
//! # Stands on
//!
//! std alone.
#![tactic(auto)]

ghost use Rattle.std.specs.Prelude.{◌≡◌};
ghost use Rattle.sia_blake.specs.Blake2b.{blake2b_256};

mod absorbed;
mod compression;
mod edges;
mod four;
mod hasher;
mod state;

use compression::{BLOCK_LEN, INITIAL_HASH, compress};
use edges::{compress_last, digest_bytes};
pub use four::digest_four;
pub use hasher::Hasher;

/// A digest: 32 bytes.
pub type Hash = [u8; 32];

/// The BLAKE2b-256 digest of the bytes (RFC 7693).
pub fn digest(bytes: &[u8]) -> Hash
    ensures { result ≡ blake2b_256 bytes.now }
{
    let before_last = bytes.len().saturating_sub(1) / BLOCK_LEN;
    let mut h = INITIAL_HASH;
    'blocks: for i in 0..before_last {
        let at = i * BLOCK_LEN;
        let end = at + BLOCK_LEN;
        let next = compress(h, &bytes[at..end], end as u64, false);
        h = next;
    }
    digest_bytes(compress_last(h, &bytes[before_last * BLOCK_LEN..], bytes.len() as u64))
}
