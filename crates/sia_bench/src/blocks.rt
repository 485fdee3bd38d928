//! A block's bytes: decoded, encoded and hashed as many times.

ghost use Rattle.std.specs.Prelude.{◌≡◌, ◌<◌, IfOk};
ghost use Rattle.sia_types.specs.Block.{block as block_codec};

use crate::run::digest_again;
use sia_encoding::limits::BLOCK_BYTES;
use sia_encoding::{Blob, DecodeFault, Item};
use sia_types::Block;
use std::alloc::{AllocError, Global};
use std::io::{self, ErrorKind};
use std::rt::Clock;
use std::time::Instant;

/// How many nanoseconds it took, and how many blocks were both decoded and encoded.
#[derive(Clone, Copy)]
pub(crate) struct Spelling {
    /// For decoding the blocks.
    pub decode: u128,
    /// For encoding them.
    pub encode: u128,
    /// For hashing their bytes.
    pub digest: u128,
    pub blocks: u64,
}

/// The last of the blocks, and how many were decoded.
#[derive(Drop)]
struct Decoded {
    last: Block,
    count: u64,
}

/// The last of the spellings, and how many were made.
#[derive(Drop)]
struct Encoded {
    last: Blob,
    count: u64,
}

/// What a fault of the bytes is to the program.
fn error_of(fault: DecodeFault) -> io::Error {
    io::Error::from(match fault {
        DecodeFault::Memory => ErrorKind::OutOfMemory,
        _ => ErrorKind::InvalidData,
    })
}

/// The block that all the bytes spell.
fn decode_whole(alloc: Global, bytes: &[u8]) -> io::Result<Block>
    ensures { IfOk result (λ block. block_codec.spelled block ≡ bytes.now) }
{
    let (block, taken) = Block::decode(alloc, bytes, BLOCK_BYTES).map_err(error_of)?;
    if taken != bytes.len() as u64 {
        return Err(io::Error::from(ErrorKind::InvalidData));
    }
    Ok(block)
}

/// Decodes the bytes as many times, at least once.
fn decode_again(alloc: Global, bytes: &[u8], times: u64) -> io::Result<Decoded>
    ensures last { IfOk result (λ decoded. block_codec.spelled decoded.last ≡ bytes.now) }
    ensures count { 0 < times → IfOk result (λ decoded. decoded.count ≡ times) }
{
    let mut last = decode_whole(alloc, bytes)?;
    let mut count = 1;
    'again: for _ in 1..times {
        let next = decode_whole(alloc, bytes)?;
        last = next;
        count += 1;
    }
    Ok(Decoded { last, count })
}

/// The spelling of a block.
fn encode_whole(alloc: Global, block: &Block) -> Result<Blob, AllocError>
    ensures { IfOk result (λ bytes. bytes ≡ block_codec.spelled block.now) }
{
    let mut out = Blob::new(alloc);
    block.encode(&mut out)?;
    Ok(out)
}

/// Encodes the block as many times, at least once.
fn encode_again(alloc: Global, block: &Block, times: u64) -> Result<Encoded, AllocError>
    ensures last { IfOk result (λ encoded. encoded.last ≡ block_codec.spelled block.now) }
    ensures count { 0 < times → IfOk result (λ encoded. encoded.count ≡ times) }
{
    let mut last = encode_whole(alloc, block)?;
    let mut count = 1;
    'again: for _ in 1..times {
        let next = encode_whole(alloc, block)?;
        last = next;
        count += 1;
    }
    Ok(Encoded { last, count })
}

/// How long a block's bytes take to be decoded, encoded and hashed as many times.
pub(crate) fn spell_nanos<R: Clock>(
    rt: &R,
    alloc: Global,
    bytes: &[u8],
    times: u64,
) -> io::Result<Spelling> {
    let start = Instant::now(rt)?;
    let decoded = decode_again(alloc, bytes, times)?;
    let decode = start.elapsed(rt)?.as_nanos();
    let start = Instant::now(rt)?;
    let encoded = encode_again(alloc, &decoded.last, times)?;
    let encode = start.elapsed(rt)?.as_nanos();
    let start = Instant::now(rt)?;
    let digests = digest_again(encoded.last.as_slice(), times);
    let digest = start.elapsed(rt)?.as_nanos();
    Ok(Spelling {
        decode,
        encode,
        digest,
        blocks: decoded.count.min(encoded.count).min(digests.count),
    })
}
