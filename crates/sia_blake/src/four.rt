//! The digests of four messages side by side, each word a vector with one lane for each message. The functions
//! are those of `compression`, word for word.

ghost use Rattle.std.specs.Prelude.{◌≡◌, ℕ, [], ◌∷◌, ◌*◌, ◌<◌, ◌^◌, length, take, drop, slice_index, slice_index_or, bit_xor, true};
ghost use Rattle.sia_blake.specs.Blake2b.{add64, xor_rotate, mixed, round, rounds, schedule, words, initial_hash, working_words, folded, filled_block, blake2b_256};
ghost use Rattle.sia_blake.specs.Lanes.{lane};

use crate::Hash;
use crate::compression::{BLOCK_LEN, INITIAL_HASH, round_in_order, words, working_words};
use crate::edges::digest_bytes;
use std::simd::u64x4;

/// How many bytes of a message come after its first one.
const PIECE_LEN: usize = 64;

#[inline(always)]
fn add(a: u64x4, b: u64x4) -> u64x4
    ensures { (j : ℕ) → j < 4 → slice_index result j ≡ add64 (slice_index a j) (slice_index b j) }
{
    a + b
}

#[inline(always)]
fn xor_rotate(a: u64x4, b: u64x4, bits: u64) -> u64x4
    requires { (0 < bits) × (bits < 64) }
    ensures { (j : ℕ) → j < 4 → slice_index result j ≡ xor_rotate (slice_index a j) (slice_index b j) bits }
{
    let x = a ^ b;
    (x >> u64x4::splat(bits)) | (x << u64x4::splat(64 - bits))
}

#[inline(always)]
fn mixed(a: u64x4, b: u64x4, c: u64x4, d: u64x4, x: u64x4, y: u64x4) -> (u64x4, u64x4, u64x4, u64x4)
    ensures { (j : ℕ) → j < 4
        → (slice_index result.0 j, slice_index result.1 j, slice_index result.2 j, slice_index result.3 j)
        ≡ mixed (slice_index a j) (slice_index b j) (slice_index c j) (slice_index d j) (slice_index x j) (slice_index y j) }
{
    let a1 = add(add(a, b), x);
    let d1 = xor_rotate(d, a1, 32);
    let c1 = add(c, d1);
    let b1 = xor_rotate(b, c1, 24);
    let a2 = add(add(a1, b1), y);
    let d2 = xor_rotate(d1, a2, 16);
    let c2 = add(c1, d2);
    let b2 = xor_rotate(b1, c2, 63);
    (a2, b2, c2, d2)
}

#[inline(always)]
fn round(v: [u64x4; 16], m: [u64x4; 16]) -> [u64x4; 16]
    ensures { (j : ℕ) → j < 4 → lane 16 j result ≡ round (lane 16 j v) (lane 16 j m) }
{
    let [
        v0,
        v1,
        v2,
        v3,
        v4,
        v5,
        v6,
        v7,
        v8,
        v9,
        v10,
        v11,
        v12,
        v13,
        v14,
        v15,
    ] = v;
    let (v0, v4, v8, v12) = mixed(v0, v4, v8, v12, m[0], m[1]);
    let (v1, v5, v9, v13) = mixed(v1, v5, v9, v13, m[2], m[3]);
    let (v2, v6, v10, v14) = mixed(v2, v6, v10, v14, m[4], m[5]);
    let (v3, v7, v11, v15) = mixed(v3, v7, v11, v15, m[6], m[7]);
    let (v0, v5, v10, v15) = mixed(v0, v5, v10, v15, m[8], m[9]);
    let (v1, v6, v11, v12) = mixed(v1, v6, v11, v12, m[10], m[11]);
    let (v2, v7, v8, v13) = mixed(v2, v7, v8, v13, m[12], m[13]);
    let (v3, v4, v9, v14) = mixed(v3, v4, v9, v14, m[14], m[15]);
    [
        v0, v1, v2, v3, v4, v5, v6, v7, v8, v9, v10, v11, v12, v13, v14, v15,
    ]
}

/// The twelve rounds.
#[inline(always)]
fn rounds(v: [u64x4; 16], m: [u64x4; 16]) -> [u64x4; 16]
    ensures { (j : ℕ) → j < 4 → lane 16 j result ≡ rounds (lane 16 j v) (lane 16 j m) schedule }
{
    let v = round_in_order!(v, m, 0 1 2 3 4 5 6 7 8 9 10 11 12 13 14 15);
    let v = round_in_order!(v, m, 14 10 4 8 9 15 13 6 1 12 0 2 11 7 5 3);
    let v = round_in_order!(v, m, 11 8 12 0 5 2 15 13 10 14 3 6 7 1 9 4);
    let v = round_in_order!(v, m, 7 9 3 1 13 12 11 14 2 6 5 10 4 0 15 8);
    let v = round_in_order!(v, m, 9 0 5 7 2 4 10 15 14 1 11 12 6 8 3 13);
    let v = round_in_order!(v, m, 2 12 6 10 0 11 8 3 4 13 7 5 15 14 1 9);
    let v = round_in_order!(v, m, 12 5 1 15 14 13 4 10 0 7 6 3 9 2 8 11);
    let v = round_in_order!(v, m, 13 11 7 14 12 1 3 9 5 0 15 4 8 6 2 10);
    let v = round_in_order!(v, m, 6 15 14 9 11 3 0 8 12 2 13 7 1 4 10 5);
    let v = round_in_order!(v, m, 10 2 8 4 7 6 1 5 15 11 9 14 3 12 13 0);
    let v = round_in_order!(v, m, 0 1 2 3 4 5 6 7 8 9 10 11 12 13 14 15);
    let v = round_in_order!(v, m, 14 10 4 8 9 15 13 6 1 12 0 2 11 7 5 3);
    v
}

/// The words before the rounds of a message's only block: the same for each of the four.
#[inline(always)]
fn first_words() -> [u64x4; 16]
    ensures { (j : ℕ) → j < 4 → lane 16 j result ≡ working_words initial_hash 65 true }
{
    let w = working_words(INITIAL_HASH, PIECE_LEN as u64 + 1, true);
    [
        u64x4::splat(w[0]),
        u64x4::splat(w[1]),
        u64x4::splat(w[2]),
        u64x4::splat(w[3]),
        u64x4::splat(w[4]),
        u64x4::splat(w[5]),
        u64x4::splat(w[6]),
        u64x4::splat(w[7]),
        u64x4::splat(w[8]),
        u64x4::splat(w[9]),
        u64x4::splat(w[10]),
        u64x4::splat(w[11]),
        u64x4::splat(w[12]),
        u64x4::splat(w[13]),
        u64x4::splat(w[14]),
        u64x4::splat(w[15]),
    ]
}

/// The words of the only block of the message of a byte and a piece of 64 bytes.
#[inline(always)]
fn message_words(first: u8, piece: &[u8]) -> [u64; 16]
    requires { length piece.now ≡ 64 }
    ensures { result ≡ words (filled_block (first ∷ piece.now)) }
{
    let mut block = [0; BLOCK_LEN];
    block[0] = first;
    block[1..PIECE_LEN + 1].copy_from_slice(piece);
    words(&block)
}

#[inline(always)]
fn four_words(first: u8, pieces: &[u8]) -> [u64x4; 16]
    requires { length pieces.now ≡ 256 }
    ensures { (j : ℕ) → j < 4
        → lane 16 j result ≡ words (filled_block (first ∷ take 64 (drop (64 * j) pieces.now))) }
{
    let a = message_words(first, &pieces[..64]);
    let b = message_words(first, &pieces[64..128]);
    let c = message_words(first, &pieces[128..192]);
    let d = message_words(first, &pieces[192..256]);
    [
        u64x4::from_array([a[0], b[0], c[0], d[0]]),
        u64x4::from_array([a[1], b[1], c[1], d[1]]),
        u64x4::from_array([a[2], b[2], c[2], d[2]]),
        u64x4::from_array([a[3], b[3], c[3], d[3]]),
        u64x4::from_array([a[4], b[4], c[4], d[4]]),
        u64x4::from_array([a[5], b[5], c[5], d[5]]),
        u64x4::from_array([a[6], b[6], c[6], d[6]]),
        u64x4::from_array([a[7], b[7], c[7], d[7]]),
        u64x4::from_array([a[8], b[8], c[8], d[8]]),
        u64x4::from_array([a[9], b[9], c[9], d[9]]),
        u64x4::from_array([a[10], b[10], c[10], d[10]]),
        u64x4::from_array([a[11], b[11], c[11], d[11]]),
        u64x4::from_array([a[12], b[12], c[12], d[12]]),
        u64x4::from_array([a[13], b[13], c[13], d[13]]),
        u64x4::from_array([a[14], b[14], c[14], d[14]]),
        u64x4::from_array([a[15], b[15], c[15], d[15]]),
    ]
}

/// A word of the hashes after the blocks, from the one before and the working words.
#[inline(always)]
fn fold(h: u64, low: u64x4, high: u64x4) -> u64x4
    ensures { (j : ℕ) → j < 4 → slice_index result j ≡ bit_xor (bit_xor h (slice_index low j)) (slice_index high j) }
{
    u64x4::splat(h) ^ low ^ high
}

/// The hashes after the blocks.
#[inline(always)]
fn folded(v: [u64x4; 16]) -> [u64x4; 8]
    ensures { (j : ℕ) → j < 4 → lane 8 j result ≡ folded initial_hash (lane 16 j v) }
{
    let [h0, h1, h2, h3, h4, h5, h6, h7] = INITIAL_HASH;
    [
        fold(h0, v[0], v[8]),
        fold(h1, v[1], v[9]),
        fold(h2, v[2], v[10]),
        fold(h3, v[3], v[11]),
        fold(h4, v[4], v[12]),
        fold(h5, v[5], v[13]),
        fold(h6, v[6], v[14]),
        fold(h7, v[7], v[15]),
    ]
}

/// The hash of each message.
#[inline(always)]
fn hashes(v: [u64x4; 8]) -> [[u64; 8]; 4]
    ensures { (j : ℕ) → j < 4 → slice_index_or result j [] ≡ lane 8 j v }
{
    let h0 = v[0].to_array();
    let h1 = v[1].to_array();
    let h2 = v[2].to_array();
    let h3 = v[3].to_array();
    let h4 = v[4].to_array();
    let h5 = v[5].to_array();
    let h6 = v[6].to_array();
    let h7 = v[7].to_array();
    [
        [h0[0], h1[0], h2[0], h3[0], h4[0], h5[0], h6[0], h7[0]],
        [h0[1], h1[1], h2[1], h3[1], h4[1], h5[1], h6[1], h7[1]],
        [h0[2], h1[2], h2[2], h3[2], h4[2], h5[2], h6[2], h7[2]],
        [h0[3], h1[3], h2[3], h3[3], h4[3], h5[3], h6[3], h7[3]],
    ]
}

/// The digests of the four messages that begin with the byte `first` and go on with 64 bytes of `pieces` each, as
/// the leaves (0) and the inner nodes (1) of a Merkle tree do.
pub fn digest_four(first: u8, pieces: &[u8]) -> [Hash; 4]
    requires { length pieces.now ≡ 256 }
    ensures { (j : ℕ) → j < 4
        → slice_index_or result j [] ≡ blake2b_256 (first ∷ take 64 (drop (64 * j) pieces.now)) }
{
    let [a, b, c, d] = hashes(folded(rounds(first_words(), four_words(first, pieces))));
    [
        digest_bytes(a),
        digest_bytes(b),
        digest_bytes(c),
        digest_bytes(d),
    ]
}
