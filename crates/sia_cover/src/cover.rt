//! The cover of a set of places: how many segments it has, and their roots.
//!
//! In a tree over 11 hashes the places 3 to 9, seven of them, are covered by three segments: 3, then 4 to 7, then 8 and 9.
//! All others are covered by three more: 0 and 1, then 2, then 10. A proof of the range 3 to 9 has the roots of the latter.
ghost use Rattle.std.specs.Prelude.{◌≡◌, ◌<◌, ◌≤◌, ◌++◌, length, IfOk, OnOk};
ghost use Rattle.sia_merkle.specs.Segments.{cover, cover_within, segment_roots};

use crate::place_set::{PlaceSet, is_clear, is_full};
use sia_blake::Hash;
use sia_encoding::List;
use sia_merkle::{HEIGHT, Nodes, power};
use std::alloc::{AllocError, Global};

/// How many segments cover the places of a set, in a tree over `count` hashes.
pub(crate) fn cover_len<P: PlaceSet>(set: &P, count: u64) -> u64
    ensures { result ≡ length (cover (P.holds set.now) count) }
{
    if count == 0 {
        return 0;
    }
    cover_len_within(set, count, HEIGHT, 0)
}

/// How many of them are among the 2^`height` places from `low` on.
pub(crate) fn cover_len_within<P: PlaceSet>(set: &P, count: u64, height: u32, low: u64) -> u64
    requires height { height ≤ 64 }
    requires low { low < count }
    ensures { result ≡ length (cover_within (P.holds set.now) count height low) }
{
    if is_full(set, count, height, low) {
        return 1;
    }
    if is_clear(set, count, height, low) {
        return 0;
    }
    let half = power(height - 1);
    let left = cover_len_within(set, count, height - 1, low);
    if count - low <= half {
        return left;
    }
    let right = cover_len_within(set, count, height - 1, low + half);
    left + right
}

/// The roots of the segments that cover the places of a set, from left to right. Its error is want of memory.
pub fn cover_roots<N: Nodes, P: PlaceSet>(
    alloc: Global,
    nodes: &N,
    set: &P,
) -> Result<List<Hash>, AllocError>
    ensures { IfOk result (λ roots. roots ≡ segment_roots (N.hashes nodes.now) (cover (P.holds set.now) (length (N.hashes nodes.now)))) }
{
    let count = nodes.count();
    let mut roots = List::new(alloc);
    if count > 0 {
        append_cover(&mut roots, nodes, set, count, HEIGHT, 0)?;
    }
    Ok(roots)
}

/// Appends the roots of those among the 2^`height` places from `low` on.
fn append_cover<N: Nodes, P: PlaceSet>(
    roots: &mut List<Hash>,
    nodes: &N,
    set: &P,
    count: u64,
    height: u32,
    low: u64,
) -> Result<(), AllocError>
    requires height { height ≤ 64 }
    requires low { low < count }
    requires count { count ≡ length (N.hashes nodes.now) }
    ensures { OnOk result (roots.new ≡ roots.old ++ segment_roots (N.hashes nodes.now) (cover_within (P.holds set.now) count height low)) }
{
    if is_full(set, count, height, low) {
        let root = nodes.node(height, low / power(height));
        roots.push(root)?;
        return Ok(());
    }
    if is_clear(set, count, height, low) {
        return Ok(());
    }
    let half = power(height - 1);
    append_cover(roots, nodes, set, count, height - 1, low)?;
    if count - low <= half {
        return Ok(());
    }
    append_cover(roots, nodes, set, count, height - 1, low + half)
}
