//! Ranges of a byte string's leaves, proved and checked, beside the root of the same bytes.

ghost use Rattle.std.specs.Prelude.{◌≡◌, ◌<◌, ◌≤◌, length};
ghost use Rattle.sia_merkle.specs.Roots.{leaf_count, leaves_of, root_of};

use sia_blake::Hash;
use sia_merkle::{leaves, root};
use sia_range::{check_range, prove_range};
use std::alloc::{AllocError, Global};
use std::io::{self, ErrorKind};
use std::rt::Clock;
use std::time::Instant;

/// How many nanoseconds it took, and how many ranges were accepted.
#[derive(Clone, Copy)]
pub(crate) struct Ranging {
    /// For the roots.
    pub root: u128,
    /// For the ranges of all leaves.
    pub all: u128,
    /// For the ranges of all leaves but the first and the last.
    pub inner: u128,
    pub accepted: u64,
}

/// The last of as many roots of the bytes, of which there is at least one.
fn root_again(bytes: &[u8], times: u64) -> Hash
    ensures { result ≡ root_of (leaves_of bytes.now) }
{
    let first = root(bytes);
    let mut last = first;
    'again: for _ in 1..times {
        let next = root(bytes);
        last = next;
    }
    last
}

/// Proves and checks the range of the leaves from `a` to `b` as many times, and counts how often it was accepted.
fn accept_again(
    alloc: Global,
    root: &Hash,
    bytes: &[u8],
    a: u64,
    b: u64,
    times: u64,
) -> Result<u64, AllocError>
    requires some { a < b }
    requires within { b ≤ leaf_count (length bytes.now) }
{
    let (_, rest) = bytes.split_at(a as usize * 64);
    let (range, _) = rest.split_at(rest.len().min((b - a) as usize * 64));
    let n = leaves(bytes.len() as u64);
    let mut accepted: u64 = 0;
    for _ in 0..times {
        let proof = prove_range(alloc, bytes, a, b)?;
        if check_range(root, n, a, b, range, proof.as_slice()).is_some() {
            accepted = accepted.saturating_add(1);
        }
    }
    Ok(accepted)
}

/// How many nanoseconds as many roots of the bytes take, and as many ranges of their leaves, of which there are at least
/// three.
pub(crate) fn range_nanos<R: Clock>(
    rt: &R,
    alloc: Global,
    bytes: &[u8],
    times: u64,
) -> io::Result<Ranging> {
    let n = leaves(bytes.len() as u64);
    if n < 3 {
        return Err(io::Error::from(ErrorKind::InvalidData));
    }
    let start = Instant::now(rt)?;
    let root = root_again(bytes, times);
    let root_nanos = start.elapsed(rt)?.as_nanos();
    let start = Instant::now(rt)?;
    let whole = accept_again(alloc, &root, bytes, 0, n, times)?;
    let all = start.elapsed(rt)?.as_nanos();
    let start = Instant::now(rt)?;
    let part = accept_again(alloc, &root, bytes, 1, n - 1, times)?;
    let inner = start.elapsed(rt)?.as_nanos();
    Ok(Ranging {
        root: root_nanos,
        all,
        inner,
        accepted: whole.saturating_add(part),
    })
}
