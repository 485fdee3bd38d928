//! The join of the hashes at the places of a set with the roots of the cover of all others.
ghost use Rattle.std.specs.Prelude.{◌≡◌, ◌<◌, ◌≤◌, ◌↔◌, IsTrue, length, map, drop};
ghost use Rattle.sia_merkle.specs.Computations.{hash_of};
ghost use Rattle.sia_merkle.specs.Computations.Tree.{Given};
ghost use Rattle.sia_merkle.specs.Segments.{cover, cover_within, joined_within, others};
ghost use Rattle.sia_cover.specs.Joined.{JoinTo, count_below};

use crate::cover::{cover_len, cover_len_within};
use crate::place_set::{Others, PlaceSet, is_clear, is_full};
use crate::row::Row;
use sia_blake::Hash;
use sia_merkle::{HEIGHT, node, power};

/// Whether the hashes of a row, at the places of a set in a tree over `count` hashes, join with the roots of the cover of
/// all others to a root, and none is missing or left over. It takes no memory.
pub fn joins_to<P: PlaceSet, R: Row>(
    set: &P,
    count: u64,
    row: &R,
    outer: &[Hash],
    root: &Hash,
) -> bool
    ensures { IsTrue result ↔ JoinTo (P.holds set.now) count (map Given (R.hashes row.now)) outer.now root.now }
{
    if row.len() != set.below(count) {
        return false;
    }
    if outer.len() as u64 != cover_len(&Others(set), count) {
        return false;
    }
    let found = join(set, count, row, outer);
    found == *root
}

/// The root that they join to; 32 zero bytes where the tree is over no hashes. It takes no memory.
pub fn join<P: PlaceSet, R: Row>(set: &P, count: u64, row: &R, outer: &[Hash]) -> Hash
    requires row { length (R.hashes row.now) ≡ count_below (P.holds set.now) count }
    requires outer { length outer.now ≡ length (cover (others (P.holds set.now)) count) }
    ensures { result ≡ hash_of (joined_within (P.holds set.now) count count 0 (map Given (R.hashes row.now)) outer.now) }
{
    if count == 0 {
        return [0; 32];
    }
    join_within(set, count, row, HEIGHT, 0, outer)
}

/// The root over the 2^`height` places from `low` on, where `outer` has the roots of the cover among them.
fn join_within<P: PlaceSet, R: Row>(
    set: &P,
    count: u64,
    row: &R,
    height: u32,
    low: u64,
    outer: &[Hash],
) -> Hash
    requires height { height ≤ 64 }
    requires low { low < count }
    requires row { length (R.hashes row.now) ≡ count_below (P.holds set.now) count }
    requires outer { length outer.now ≡ length (cover_within (others (P.holds set.now)) count height low) }
    ensures { result ≡ hash_of (joined_within (P.holds set.now) count height low (drop (count_below (P.holds set.now) low) (map Given (R.hashes row.now))) outer.now) }
{
    if is_clear(set, count, height, low) {
        return outer[0];
    }
    if is_full(set, count, height, low) {
        return row.root_from(set.below(low), height);
    }
    let half = power(height - 1);
    if count - low <= half {
        return join_within(set, count, row, height - 1, low, outer);
    }
    let left_len = cover_len_within(&Others(set), count, height - 1, low);
    let (left, right) = outer.split_at(left_len as usize);
    let first = join_within(set, count, row, height - 1, low, left);
    let second = join_within(set, count, row, height - 1, low + half, right);
    node(&first, &second)
}
