//! The join of the roots of two covers: that of a set of places, and that of all others.
ghost use Rattle.std.specs.Prelude.{◌≡◌, ◌<◌, ◌≤◌, ◌↔◌, IsTrue, length};
ghost use Rattle.sia_merkle.specs.Computations.{hash_of};
ghost use Rattle.sia_merkle.specs.Segments.{cover_within, joined_segments_within, others};
ghost use Rattle.sia_cover.specs.Joined.{SegmentsJoinTo};

use crate::cover::{cover_len, cover_len_within};
use crate::place_set::{Others, PlaceSet, is_clear, is_full};
use sia_blake::Hash;
use sia_merkle::{HEIGHT, node, power};

/// Whether the roots of the cover of a set of places, in a tree over `count` hashes, join with those of the cover of all
/// others to a root, and none is missing or left over. It takes no memory.
pub fn segments_join_to<P: PlaceSet>(
    set: &P,
    count: u64,
    inner: &[Hash],
    outer: &[Hash],
    root: &Hash,
) -> bool
    requires { 0 < count }
    ensures { IsTrue result ↔ SegmentsJoinTo (P.holds set.now) count inner.now outer.now root.now }
{
    if inner.len() as u64 != cover_len(set, count) {
        return false;
    }
    if outer.len() as u64 != cover_len(&Others(set), count) {
        return false;
    }
    let found = join_segments(set, count, HEIGHT, 0, inner, outer);
    found == *root
}

/// The root that the roots among the 2^`height` places from `low` on join to.
fn join_segments<P: PlaceSet>(
    set: &P,
    count: u64,
    height: u32,
    low: u64,
    inner: &[Hash],
    outer: &[Hash],
) -> Hash
    requires height { height ≤ 64 }
    requires low { low < count }
    requires inner { length inner.now ≡ length (cover_within (P.holds set.now) count height low) }
    requires outer { length outer.now ≡ length (cover_within (others (P.holds set.now)) count height low) }
    ensures { result ≡ hash_of (joined_segments_within (P.holds set.now) count height low inner.now outer.now) }
{
    if is_full(set, count, height, low) {
        return inner[0];
    }
    if is_clear(set, count, height, low) {
        return outer[0];
    }
    let half = power(height - 1);
    if count - low <= half {
        return join_segments(set, count, height - 1, low, inner, outer);
    }
    let inner_len = cover_len_within(set, count, height - 1, low);
    let (inner_left, inner_right) = inner.split_at(inner_len as usize);
    let outer_len = cover_len_within(&Others(set), count, height - 1, low);
    let (outer_left, outer_right) = outer.split_at(outer_len as usize);
    let first = join_segments(set, count, height - 1, low, inner_left, outer_left);
    let second = join_segments(set, count, height - 1, low + half, inner_right, outer_right);
    node(&first, &second)
}
