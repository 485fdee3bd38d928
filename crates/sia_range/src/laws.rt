//! What an accepted proof of a range shows, and that a list's own is accepted, as laws over any lists. The functions here do
//! nothing: their contracts are the laws, and a caller that wants one calls its function.
ghost use Rattle.std.specs.Prelude.{◌≡◌, ◌-◌, ◌*◌, ◌<◌, ◌≤◌, ◌⊎◌, ℕ, List, length, map};
ghost use Rattle.sia_merkle.specs.Computations.{AreHashes, Collides};
ghost use Rattle.sia_merkle.specs.Computations.Tree.{Given, Leaf};
ghost use Rattle.sia_merkle.specs.Roots.{leaf_count, leaf_digest, leaves_of, node_root_of, root_of};
ghost use Rattle.sia_range.specs.Ranges.{IsOwnUpdate, IsRangeProof, IsUpdateOf, own_nodes_tree, own_range_tree, own_update_tree, part_between, range_tree, replaced, roots_inside, roots_outside, segments_tree};

/// Where a byte string has the root, and a range is accepted under that root for the number of its leaves and the places
/// from a to b, the range and its proof are the byte string's own, or the computation of the root from these and that
/// from what was accepted clash in a collision: two different byte strings of one digest. So whoever can't find a
/// collision has only the byte string's own leaves accepted. A short leaf where the byte string has a whole one is no
/// leaf of its own.
pub fn another_range_collides()
    ensures { (bytes root range : List ℕ) → (hashes : List (List ℕ)) → (a b : ℕ) → a < b → b ≤ leaf_count (length bytes) → root_of (leaves_of bytes) ≡ root
        → AreHashes hashes → IsRangeProof root (leaf_count (length bytes)) a b (map Leaf (leaves_of range)) hashes
        → ((leaves_of range ≡ part_between a b (leaves_of bytes)) × (hashes ≡ roots_outside (map leaf_digest (leaves_of bytes)) (leaf_count (length bytes)) a b))
        ⊎ Collides (own_range_tree bytes a b) (range_tree (leaf_count (length bytes)) a b (map Leaf (leaves_of range)) hashes) }
{}

/// The same of hashes: where a list of hashes has the root, and hashes are accepted under that root for their number and
/// the places from a to b, they and their proof are the list's own, or the two computations clash in a collision.
pub fn other_nodes_collide()
    ensures { (list : List (List ℕ)) → (root : List ℕ) → (roots hashes : List (List ℕ)) → (a b : ℕ) → a < b → b ≤ length list → node_root_of list ≡ root
        → AreHashes list → AreHashes roots → AreHashes hashes → IsRangeProof root (length list) a b (map Given roots) hashes
        → ((roots ≡ part_between a b list) × (hashes ≡ roots_outside list (length list) a b))
        ⊎ Collides (own_nodes_tree list a b) (range_tree (length list) a b (map Given roots) hashes) }
{}

/// Where a byte string has the root, and an update of the leaves at the places from a to b is accepted under that root
/// for their number, its roots are the byte string's own and the root after it is that of the list of leaves with the new
/// ones in place, or the two computations of the old root clash in a collision.
pub fn another_update_collides()
    ensures { (bytes root new : List ℕ) → (inner outer : List (List ℕ)) → (a b : ℕ) → a < b → b ≤ leaf_count (length bytes) → leaf_count (length new) ≡ b - a → root_of (leaves_of bytes) ≡ root
        → AreHashes inner → AreHashes outer → IsUpdateOf root (leaf_count (length bytes)) a b inner outer
        → IsOwnUpdate bytes new a b inner outer ⊎ Collides (own_update_tree bytes a b) (segments_tree (leaf_count (length bytes)) a b inner outer) }
{}

/// A byte string's own bytes at the places of a range are accepted under its root, with the proof that [`prove_range`]
/// makes.
///
/// [`prove_range`]: crate::prove_range
pub fn own_range_is_accepted()
    ensures { (bytes : List ℕ) → (a b : ℕ) → a < b → b ≤ leaf_count (length bytes)
        → IsRangeProof (root_of (leaves_of bytes)) (leaf_count (length bytes)) a b (map Leaf (leaves_of (part_between (64 * a) (64 * b) bytes))) (roots_outside (map leaf_digest (leaves_of bytes)) (leaf_count (length bytes)) a b) }
{}

/// The same of a list's own hashes.
pub fn own_nodes_are_accepted()
    ensures { (list : List (List ℕ)) → (a b : ℕ) → a < b → b ≤ length list
        → IsRangeProof (node_root_of list) (length list) a b (map Given (part_between a b list)) (roots_outside list (length list) a b) }
{}

/// The roots of both covers of a byte string's leaves are accepted for an update under its root.
pub fn own_update_is_accepted()
    ensures { (bytes : List ℕ) → (a b : ℕ) → a < b → b ≤ leaf_count (length bytes)
        → IsUpdateOf (root_of (leaves_of bytes)) (leaf_count (length bytes)) a b
        (roots_inside (map leaf_digest (leaves_of bytes)) (leaf_count (length bytes)) a b) (roots_outside (map leaf_digest (leaves_of bytes)) (leaf_count (length bytes)) a b) }
{}

/// The leaves of a byte string after an update: where whole leaves replace whole ones, or the range is the last one, the
/// byte string with the new bytes in place has the new leaves in place of the old.
pub fn leaves_after_update()
    ensures { (bytes new : List ℕ) → (a b : ℕ) → a < b → b ≤ leaf_count (length bytes) → (b ≡ leaf_count (length bytes)) ⊎ (length new ≡ 64 * (b - a))
        → leaves_of (replaced (64 * a) (64 * b) new bytes) ≡ replaced a b (leaves_of new) (leaves_of bytes) }
{}
