//! A message's last block and a digest's bytes.

ghost use Rattle.std.specs.Prelude.{◌≡◌, ◌≤◌, length, true};
ghost use Rattle.sia_blake.specs.Blake2b.{compress, digest_bytes, filled_block};

use crate::compression::{BLOCK_LEN, compress};

/// The hash after the last bytes of a message, filled with zero bytes to a block, where the whole message has
/// `taken` bytes.
#[inline(always)]
pub(crate) fn compress_last(h: [u64; 8], bytes: &[u8], taken: u64) -> [u64; 8]
    requires { length bytes.now ≤ 128 }
    ensures { result ≡ compress h (filled_block bytes.now) taken true }
{
    let mut block = [0; BLOCK_LEN];
    block[..bytes.len()].copy_from_slice(bytes);
    compress(h, &block, taken, true)
}

/// The first four words of a hash, low byte first.
#[inline(always)]
pub(crate) fn digest_bytes(h: [u64; 8]) -> [u8; 32]
    ensures { result ≡ digest_bytes h }
{
    let mut out = [0; 32];
    out[..8].copy_from_slice(&h[0].to_le_bytes());
    out[8..16].copy_from_slice(&h[1].to_le_bytes());
    out[16..24].copy_from_slice(&h[2].to_le_bytes());
    out[24..].copy_from_slice(&h[3].to_le_bytes());
    out
}
