//! Laws of roots, paths and proofs, over any lists. The functions here do nothing: their contracts are the laws, and a
//! caller that wants one calls its function.
ghost use Rattle.std.specs.Prelude.{◌≡◌, ◌≢◌, ◌+◌, ◌*◌, ◌^◌, ◌<◌, ◌≤◌, ◌++◌, ℕ, List, [], length, map, take, drop, slice_index_or};
ghost use Rattle.std.specs.List.{All, concat, flat_map};
ghost use Rattle.sia_merkle.specs.Computations.{AreHashes, Collides};
ghost use Rattle.sia_merkle.specs.Paths.{IsCorrect, cut_leaf, leaf_proof, leaf_tree, own_leaf_tree, path_of};
ghost use Rattle.sia_merkle.specs.Roots.{leaf_at, leaf_count, leaves_of, node_digest, node_root_of, root_of};

/// The law of the split: the root over more than one hash is the node over the roots of its two parts, of which the left
/// one holds the largest power of two below their number.
pub fn root_splits()
    ensures { (hashes : List (List ℕ)) → (height : ℕ) → 2 ^ height < length hashes → length hashes ≤ 2 * 2 ^ height
        → node_root_of hashes ≡ node_digest (node_root_of (take (2 ^ height) hashes)) (node_root_of (drop (2 ^ height) hashes)) }
{}

/// The law of parts: the root over the roots of parts of 2^`level` hashes each is the root over all their hashes. So the
/// root over the roots of sectors, of 64 * 2^`level` bytes each, is the root over the leaves of all their bytes.
pub fn parts_have_the_root()
    ensures hashes { (level : ℕ) → (parts : List (List (List ℕ))) → All (λ part. length part ≡ 2 ^ level) parts
        → node_root_of (map node_root_of parts) ≡ node_root_of (flat_map (λ part. part) parts) }
    ensures bytes { (level : ℕ) → (sectors : List (List ℕ)) → All (λ sector. length sector ≡ 64 * 2 ^ level) sectors
        → node_root_of (map (λ sector. root_of (leaves_of sector)) sectors) ≡ root_of (leaves_of (concat sectors)) }
{}

/// The law of paths: where all parts have 2^`level` hashes, the path of a hash goes up through its part, and then as the
/// part's root does; and so do the hashes beside it.
pub fn path_goes_through_its_part()
    ensures path { (level count index place : ℕ) → index < count → place < 2 ^ level
        → path_of (count * 2 ^ level) (index * 2 ^ level + place) ≡ path_of (2 ^ level) place ++ path_of count index }
    ensures hashes { (level : ℕ) → (parts : List (List (List ℕ))) → (index place : ℕ) → All (λ part. length part ≡ 2 ^ level) parts → index < length parts → place < 2 ^ level
        → leaf_proof (flat_map (λ part. part) parts) (index * 2 ^ level + place) ≡ leaf_proof (slice_index_or parts index []) place ++ leaf_proof (map node_root_of parts) index }
{}

/// Where a byte string has the root, and another leaf than its own is accepted under that root for its size and a place,
/// the computation of the root from the byte string and that from the accepted proof clash in a collision: two different
/// byte strings of one digest. So whoever can't find a collision has only the byte string's own leaves accepted.
pub fn another_leaf_collides()
    ensures { (bytes root leaf : List ℕ) → (place : ℕ) → (hashes : List (List ℕ)) → place < leaf_count (length bytes) → root_of (leaves_of bytes) ≡ root
        → AreHashes hashes → IsCorrect root (length bytes) place leaf hashes → cut_leaf (length bytes) place leaf ≢ leaf_at bytes place
        → Collides (own_leaf_tree bytes place) (leaf_tree (length bytes) place leaf hashes) }
{}
