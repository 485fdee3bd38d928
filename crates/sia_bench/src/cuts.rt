//! A file cut into pieces, and joined again of the last ones.
ghost use Rattle.std.specs.Prelude.{◌≡◌, ◌-◌, ◌<◌, ◌≤◌, IfOk, IsTrue, length};
ghost use Rattle.std.specs.Int.{div_ceil};
ghost use Rattle.sia_pieces.specs.Joined.{AreSoMany, HaveLength, HaveOwnPlaces};
ghost use Rattle.sia_bench.specs.Cuts.{ArePlaced};

use sia_blake::{Hash, digest};
use sia_encoding::{Blob, List};
use sia_pieces::{Piece, cut_pieces, join_pieces};
use std::alloc::{AllocError, Global};
use std::io::{self, ErrorKind};
use std::rt::Clock;
use std::time::Instant;

/// How many pieces, of which how many give the file back, and how often it is cut and joined.
#[derive(Clone, Copy)]
pub(crate) struct Cuts {
    k: u64,
    n: u64,
    times: u64,
    ghost some: { 1 ≤ k },
    ghost enough: { k ≤ n },
    ghost within: { n ≤ 16 },
}

impl Cuts {
    /// These numbers, where there are so many pieces as may be, and the file is cut at least once.
    pub(crate) fn of(k: u64, n: u64, times: u64) -> Option<Cuts> {
        if k == 0 || k > n || n > 16 || times == 0 {
            return None;
        }
        Some(Cuts { k, n, times })
    }
}

/// How long the cutting took, and how long the joining.
#[derive(Clone, Copy)]
pub(crate) struct Cutting {
    /// For the cuts.
    pub cut: u128,
    /// For the joins.
    pub join: u128,
    /// How many pieces were cut.
    pub pieces: u64,
    /// The digest of the last piece.
    pub digest: Hash,
}

/// The last k pieces, with their places.
fn last_pieces(alloc: Global, cut: &[Blob], k: usize) -> Result<Vec<Piece>, AllocError>
    requires { k ≤ length cut.now }
    ensures count { IfOk result (λ chosen. length chosen.items ≡ k) }
    ensures placed { IfOk result (λ chosen. ArePlaced (length cut.now - k) chosen.items) }
{
    let mut chosen = Vec::new(alloc);
    for place in cut.len() - k..cut.len() {
        let bytes = cut[place].copy(alloc)?;
        let place = place as u64;
        chosen.push(Piece { place, bytes })?;
    }
    Ok(chosen)
}

/// Whether each piece has so many bytes.
fn have_length(pieces: &[Piece], count: u64) -> bool
    ensures { IsTrue result → HaveLength count pieces.now }
{
    for piece in pieces {
        if piece.bytes.len() as u64 != count {
            return false;
        }
    }
    true
}

/// Cuts the bytes as many times: the pieces of the last time.
fn cut_again(alloc: Global, bytes: &[u8], asked: Cuts) -> Result<List<Blob>, AllocError> {
    let mut last = cut_pieces(alloc, bytes, asked.k, asked.n)?;
    for _ in 1..asked.times {
        last = cut_pieces(alloc, bytes, asked.k, asked.n)?;
    }
    Ok(last)
}

/// Joins the pieces as many times, and answers how many bytes that gave in all.
fn join_again(
    alloc: Global,
    chosen: &[Piece],
    k: u64,
    length: u64,
    times: u64,
) -> Result<u64, AllocError>
    requires some { 1 ≤ k }
    requires within { k ≤ 16 }
    requires all { AreSoMany k chosen.now }
    requires apart { HaveOwnPlaces 16 chosen.now }
    requires long { HaveLength (div_ceil length k) chosen.now }
{
    let mut joined: u64 = 0;
    for _ in 0..times {
        let bytes = join_pieces(alloc, chosen, k, length)?;
        joined = joined.saturating_add(bytes.len() as u64);
    }
    Ok(joined)
}

/// How long the cuts of some bytes take, and the joins of their last pieces.
pub(crate) fn cut_nanos<R: Clock>(
    rt: &R,
    alloc: Global,
    bytes: &[u8],
    asked: Cuts,
) -> io::Result<Cutting> {
    let start = Instant::now(rt)?;
    let cut = cut_again(alloc, bytes, asked)?;
    let cut_nanos = start.elapsed(rt)?.as_nanos();
    if cut.len() as u64 != asked.n {
        return Err(io::Error::from(ErrorKind::InvalidData));
    }
    let chosen = last_pieces(alloc, cut.as_slice(), asked.k as usize)?;
    let length = bytes.len() as u64;
    if !have_length(chosen.as_slice(), length.div_ceil(asked.k)) {
        return Err(io::Error::from(ErrorKind::InvalidData));
    }
    let start = Instant::now(rt)?;
    let joined = join_again(alloc, chosen.as_slice(), asked.k, length, asked.times)?;
    let join = start.elapsed(rt)?.as_nanos();
    if joined != length.saturating_mul(asked.times) {
        return Err(io::Error::from(ErrorKind::InvalidData));
    }
    let digest = match chosen.last() {
        Some(piece) => digest(piece.bytes.as_slice()),
        None => [0; 32],
    };
    Ok(Cutting {
        cut: cut_nanos,
        join,
        pieces: asked.n.saturating_mul(asked.times),
        digest,
    })
}
