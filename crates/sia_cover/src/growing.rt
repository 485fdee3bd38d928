//! The cover of a set of places in a tree whose hashes come in parts.
//!
//! The roots of the cover are kept at the end of each part. A part of 2^10 hashes whose places are all in the set is one
//! root. Behind such a root the next one makes a pair, and two of them that are a segment together become one: so after 5
//! parts, all of whose places are in the set, two roots are kept, that of the parts 0 to 3, and that of part 4.
ghost use Rattle.std.specs.Prelude.{◌≡◌, ◌+◌, ◌*◌, ◌^◌, ◌<◌, ◌≤◌, ◌++◌, ◌∷◌, [], ℕ, List as Sequence, length, drop, OnOk};
ghost use Rattle.sia_merkle.specs.Roots.{node_digest, tree_root};
ghost use Rattle.sia_merkle.specs.Segments.{cover, cover_within, segment_roots};

use crate::place_set::{PlaceSet, is_clear, is_full};
use crate::row::Row;
use sia_blake::Hash;
use sia_encoding::List;
use sia_merkle::{HEIGHT, node, power};
use std::alloc::AllocError;

/// Makes the roots of the cover of a set, in a tree of `before` parts of 2^`level` hashes each, those of the cover in the
/// tree that has a row of hashes behind them. The row has as many hashes as a part, or fewer and is then the last one, and
/// `root` is its root. Its error is want of memory.
pub fn append_part<P: PlaceSet, R: Row>(
    roots: &mut List<Hash>,
    set: &P,
    row: &R,
    root: &Hash,
    before: u64,
    level: u32,
) -> Result<(), AllocError>
    requires level { level < 64 }
    requires part { length (R.hashes row.now) ≤ 2 ^ level }
    requires root { root.now ≡ tree_root level (R.hashes row.now) }
    requires room { (before + 1) * 2 ^ level < 2 ^ 64 }
    ensures { (hashes : Sequence (Sequence ℕ)) → drop (before * 2 ^ level) hashes ≡ R.hashes row.now → length hashes ≡ before * 2 ^ level + length (R.hashes row.now)
        → roots.old ≡ segment_roots hashes (cover (P.holds set.now) (before * 2 ^ level))
        → OnOk result (roots.new ≡ segment_roots hashes (cover (P.holds set.now) (length hashes))) }
{
    append_own(roots, set, row, root, before * power(level), level)?;
    if row.len() == power(level) {
        join_ends(roots, set, before, level)
    } else {
        Ok(())
    }
}

/// Appends the roots of the segments of the cover among the hashes of a row, which stand from `base` on and are the last
/// ones of the tree.
fn append_own<P: PlaceSet, R: Row>(
    roots: &mut List<Hash>,
    set: &P,
    row: &R,
    root: &Hash,
    base: u64,
    level: u32,
) -> Result<(), AllocError>
    requires level { level < 64 }
    requires part { length (R.hashes row.now) ≤ 2 ^ level }
    requires root { root.now ≡ tree_root level (R.hashes row.now) }
    requires room { base + length (R.hashes row.now) < 2 ^ 64 }
    ensures { (hashes : Sequence (Sequence ℕ)) → (index : ℕ) → base ≡ index * 2 ^ level → drop base hashes ≡ R.hashes row.now → length hashes ≡ base + length (R.hashes row.now)
        → OnOk result (roots.new ≡ roots.old ++ segment_roots hashes (cover_within (P.holds set.now) (length hashes) level base)) }
{
    let count = base + row.len();
    if is_full(set, count, level, base) {
        return roots.push(*root);
    }
    if row.len() == 0 {
        return Ok(());
    }
    append_row(roots, set, row, base, level, 0)
}

/// The same of the 2^`height` hashes of the row from `at` on.
fn append_row<P: PlaceSet, R: Row>(
    roots: &mut List<Hash>,
    set: &P,
    row: &R,
    base: u64,
    height: u32,
    at: u64,
) -> Result<(), AllocError>
    requires height { height ≤ 64 }
    requires at { at < length (R.hashes row.now) }
    requires room { base + length (R.hashes row.now) < 2 ^ 64 }
    ensures { (hashes : Sequence (Sequence ℕ)) → (index : ℕ) → base + at ≡ index * 2 ^ height → drop base hashes ≡ R.hashes row.now → length hashes ≡ base + length (R.hashes row.now)
        → OnOk result (roots.new ≡ roots.old ++ segment_roots hashes (cover_within (P.holds set.now) (length hashes) height (base + at))) }
{
    let low = base + at;
    let count = base + row.len();
    if is_full(set, count, height, low) {
        let root = row.root_from(at, height);
        return roots.push(root);
    }
    if is_clear(set, count, height, low) {
        return Ok(());
    }
    let half = power(height - 1);
    append_row(roots, set, row, base, height - 1, at)?;
    if count - low <= half {
        return Ok(());
    }
    append_row(roots, set, row, base, height - 1, at + half)
}

/// Joins the roots at the end of a tree of `before` parts and one more, where two are those of the halves of a segment of
/// the cover.
fn join_ends<P: PlaceSet>(
    roots: &mut List<Hash>,
    set: &P,
    before: u64,
    level: u32,
) -> Result<(), AllocError>
    requires level { level < 64 }
    requires room { (before + 1) * 2 ^ level < 2 ^ 64 }
    ensures { (hashes : Sequence (Sequence ℕ)) → length hashes ≡ (before + 1) * 2 ^ level
        → roots.old ≡ segment_roots hashes (cover (P.holds set.now) (before * 2 ^ level) ++ cover_within (P.holds set.now) (length hashes) level (before * 2 ^ level))
        → OnOk result (roots.new ≡ segment_roots hashes (cover (P.holds set.now) (length hashes))) }
{
    let count = (before + 1) * power(level);
    let mut rest = before;
    for height in level..HEIGHT {
        if rest % 2 == 0 {
            return Ok(());
        }
        rest /= 2;
        if is_full(set, count, height + 1, rest * power(height + 1)) {
            join_last(roots)?;
        }
    }
    Ok(())
}

/// Joins the last two roots.
fn join_last(roots: &mut List<Hash>) -> Result<(), AllocError>
    ensures { (front : Sequence (Sequence ℕ)) → (left right : Sequence ℕ) → roots.old ≡ front ++ left ∷ right ∷ [] → OnOk result (roots.new ≡ front ++ node_digest left right ∷ []) }
{
    let [.., left, right] = roots.as_slice() else {
        return Ok(());
    };
    let joined = node(left, right);
    roots.truncate(roots.len() - 2);
    roots.push(joined)
}
