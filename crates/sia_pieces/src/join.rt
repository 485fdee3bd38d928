//! The bytes that some pieces stand for.
ghost use Rattle.std.specs.Prelude.{◌≡◌, ◌<◌, ◌≤◌, ◌++◌, ℕ, length, IfOk, OnOk, map, slice_index};
ghost use Rattle.std.specs.Int.{div_ceil};
ghost use Rattle.std.specs.List.{concat, range_with_len};
ghost use Rattle.sia_pieces.specs.Joined.{HaveOwnPlaces, AreSoMany, AreBelow, HaveLength, IsJoined};
ghost use Rattle.sia_pieces.specs.Solving.{solved, places, column};

use crate::Piece;
use crate::solve::{put_bytes, solve};
use sia_encoding::Blob;
use std::alloc::{AllocError, Global};

/// The first `length` bytes of the groups of k bytes whose values at each of k pieces' places are the piece's bytes; there is
/// one list of such groups. Of k pieces of a byte string of that length it is the byte string. Its error is want of memory.
pub fn join_pieces(alloc: Global, pieces: &[Piece], k: u64, length: u64) -> Result<Blob, AllocError>
    requires some { 1 ≤ k }
    requires within { k ≤ 16 }
    requires all { AreSoMany k pieces.now }
    requires apart { HaveOwnPlaces 16 pieces.now }
    requires long { HaveLength (div_ceil length k) pieces.now }
    ensures { IfOk result (λ joined. IsJoined k pieces.now length joined) }
{
    let mut group = [0; 16];
    let mut joined = Blob::new(alloc);
    let count = length.div_ceil(k) as usize;
    join_groups(pieces, count, &mut group[..k as usize], &mut joined)?;
    joined.truncate(length as usize);
    Ok(joined)
}

/// Puts the groups behind the bytes, one after another, each worked out in `group`. Its error is want of memory.
fn join_groups(
    pieces: &[Piece],
    count: usize,
    group: &mut [u8],
    joined: &mut Blob,
) -> Result<(), AllocError>
    requires same { length pieces.now ≡ length group.old }
    requires within { AreBelow 16 pieces.now }
    requires long { HaveLength count pieces.now }
    ensures bytes { OnOk result ((t : ℕ) → t < count → (i : ℕ) → slice_index (column t pieces.now) i < 256) }
    ensures groups { OnOk result (joined.new ≡ joined.old ++ concat (map (λ t. solved (places pieces.now) (column t pieces.now)) (range_with_len 0 count))) }
{
    for t in 0..count {
        put_bytes(t, pieces, group);
        solve(pieces, group);
        joined.extend(group)?;
    }
    Ok(())
}
