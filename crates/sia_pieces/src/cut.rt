//! The pieces of a byte string.
ghost use Rattle.std.specs.Prelude.{◌≡◌, ℕ, ◌<◌, ◌≤◌, ◌*◌, length, take, drop, IfOk};
ghost use Rattle.sia_pieces.specs.Pieces.{groups, values_at, pieces};

use crate::products::Products;
use sia_encoding::{Blob, List};
use std::alloc::{AllocError, Global};

/// The pieces 0 to n - 1 of a byte string, of which any k give it back: byte t of piece j is the value at j of the polynomial
/// whose coefficients are the k bytes of group t, that of the power 0 first, the last group filled with zeros (Plank, 'A
/// Tutorial on Reed-Solomon Coding', 1997). Each piece has as many bytes as there are groups. Its error is want of memory.
pub fn cut_pieces(alloc: Global, bytes: &[u8], k: u64, n: u64) -> Result<List<Blob>, AllocError>
    requires some { 1 ≤ k }
    requires enough { k ≤ n }
    requires within { n ≤ 16 }
    ensures { IfOk result (λ cut. cut ≡ pieces k n bytes.now) }
{
    let mut cut = List::new(alloc);
    for place in 0..n {
        cut.push(cut_piece(alloc, bytes, k as usize, place as u8)?)?;
    }
    Ok(cut)
}

/// One piece. Its error is want of memory.
fn cut_piece(alloc: Global, bytes: &[u8], k: usize, place: u8) -> Result<Blob, AllocError>
    requires { 0 < k }
    ensures { IfOk result (λ piece. piece ≡ values_at place (groups k bytes.now)) }
{
    let products = Products::new(place);
    let count = bytes.len().div_ceil(k);
    let mut piece = Vec::with_capacity(alloc, count)?;
    for t in 0..count {
        piece.push(products.value(group_of(bytes, k, t)))?;
    }
    Ok(Blob::from_vec(piece))
}

/// The bytes of group t, without the zeros behind them.
fn group_of(bytes: &[u8], k: usize, t: usize) -> &[u8]
    requires { t * k ≤ length bytes.now }
    ensures { result.now ≡ take k (drop (t * k) bytes.now) }
{
    let rest = &bytes[t * k..];
    if rest.len() < k { rest } else { &rest[..k] }
}
