//! A hash between two pieces of its message.

ghost use Rattle.std.specs.Prelude.{◌≡◌, ℕ, List, [], ◌+◌, ◌<◌, ◌≤◌, ◌++◌, ◌^◌, length};
ghost use Rattle.sia_blake.specs.Blake2b.{blake2b_256};
ghost use Rattle.sia_blake.specs.Absorbing.{IsAbsorbed, IsPassed};

use crate::compression::{BLOCK_LEN, INITIAL_HASH, compress};
use crate::edges::{compress_last, digest_bytes};

/// The hash after the blocks that are done, and the bytes that came after them. A full buffer is kept until more
/// bytes come, since the last block is compressed in another way.
#[derive(Clone, Copy, Drop)]
pub(crate) struct HashState {
    h: [u64; 8],
    buffer: [u8; 128],
    used: usize,
    taken: u64,
}

impl HashState {
    pub(crate) fn new() -> HashState
        ensures { IsAbsorbed result [] }
    {
        HashState {
            h: INITIAL_HASH,
            buffer: [0; 128],
            used: 0,
            taken: 0,
        }
    }

    /// Adds bytes for which the buffer has room.
    fn fill(&mut self, bytes: &[u8])
        requires { self.old.used + length bytes.now ≤ 128 }
        ensures absorbed { (m : List ℕ) → IsAbsorbed self.old m → IsAbsorbed self.new (m ++ bytes.now) }
        ensures used { self.new.used ≡ self.old.used + length bytes.now }
        ensures taken { self.new.taken ≡ self.old.taken }
    {
        let end = self.used + bytes.len();
        self.buffer[self.used..end].copy_from_slice(bytes);
        self.used = end;
    }

    /// Takes the full buffer into the hash.
    fn pass_buffer(&mut self)
        requires full { self.old.used ≡ 128 }
        requires fits { self.old.taken + 128 < 2 ^ 64 }
        ensures passed { (m : List ℕ) → IsAbsorbed self.old m → IsPassed self.new m }
        ensures taken { self.new.taken ≡ self.old.taken + 128 }
    {
        self.taken += BLOCK_LEN as u64;
        let h = compress(self.h, &self.buffer, self.taken, false);
        self.h = h;
    }

    /// Takes a block into the hash.
    #[inline(always)]
    fn pass_block(&mut self, block: &[u8])
        requires block { length block.now ≡ 128 }
        requires fits { self.old.taken + 128 < 2 ^ 64 }
        ensures passed { (m : List ℕ) → IsPassed self.old m → IsPassed self.new (m ++ block.now) }
        ensures taken { self.new.taken ≡ self.old.taken + 128 }
    {
        self.taken += BLOCK_LEN as u64;
        let h = compress(self.h, block, self.taken, false);
        self.h = h;
    }

    /// Keeps the last bytes in the buffer.
    fn keep(&mut self, bytes: &[u8])
        requires some { 0 < length bytes.now }
        requires few { length bytes.now ≤ 128 }
        ensures { (m : List ℕ) → IsPassed self.old m → IsAbsorbed self.new (m ++ bytes.now) }
    {
        self.buffer[..bytes.len()].copy_from_slice(bytes);
        self.used = bytes.len();
    }

    pub(crate) fn update(&mut self, bytes: &[u8])
        requires room { self.old.used ≤ 128 }
        requires fits { self.old.taken + self.old.used + length bytes.now < 2 ^ 64 }
        ensures { (m : List ℕ) → IsAbsorbed self.old m → IsAbsorbed self.new (m ++ bytes.now) }
    {
        let room = BLOCK_LEN - self.used;
        if bytes.len() <= room {
            self.fill(bytes);
            return;
        }
        self.fill(&bytes[..room]);
        self.pass_buffer();
        let count = (bytes.len() - room - 1) / BLOCK_LEN;
        'blocks: for i in 0..count {
            let at = room + BLOCK_LEN * i;
            self.pass_block(&bytes[at..at + BLOCK_LEN]);
        }
        self.keep(&bytes[room + BLOCK_LEN * count..]);
    }

    /// The digest of the message.
    pub(crate) fn finish(self) -> [u8; 32]
        requires room { self.used ≤ 128 }
        requires fits { self.taken + self.used < 2 ^ 64 }
        ensures { (m : List ℕ) → IsAbsorbed self m → result ≡ blake2b_256 m }
    {
        let h = self.h;
        let used = self.used;
        let buffer = self.buffer;
        digest_bytes(compress_last(h, &buffer[..used], self.taken + used as u64))
    }
}
