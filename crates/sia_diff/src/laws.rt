//! What an accepted diff shows, and that a list's own proof is accepted, as laws over any lists. The functions here do
//! nothing: their contracts are the laws, and a caller that wants one calls its function.
ghost use Rattle.std.specs.Prelude.{◌≡◌, ◌⊎◌, ℕ, List, IsTrue, length};
ghost use Rattle.sia_merkle.specs.Computations.{AreHashes, Collides, hash_of};
ghost use Rattle.sia_merkle.specs.Roots.{node_root_of};
ghost use Rattle.sia_diff.specs.declared.steps.DiffStep.{DiffStep as Step};
ghost use Rattle.sia_diff.specs.Diffs.{IsDiffOf, IsOwnDiff, new_tree, old_tree, own_leaves, own_nodes};
ghost use Rattle.sia_diff.specs.DiffSteps.{after, is_fit};

/// Where a list of hashes has the root, and a diff by fit steps is accepted under that root for their number, its proof is
/// the list's own and the new root is that over the list after the steps, or the computation of the old root from the
/// list's own proof and that from the accepted one clash in a collision: two different byte strings of one digest.
pub fn another_diff_collides()
    ensures { (hashes leaves nodes : List (List ℕ)) → (root : List ℕ) → (steps : List Step) → IsTrue (is_fit (length hashes) steps) → node_root_of hashes ≡ root
        → AreHashes hashes → AreHashes leaves → AreHashes nodes → IsDiffOf root (length hashes) steps leaves nodes
        → IsOwnDiff hashes steps leaves nodes
        ⊎ Collides (old_tree (length hashes) steps (own_leaves hashes steps) (own_nodes hashes steps)) (old_tree (length hashes) steps leaves nodes) }
{}

/// The proof that a list of hashes makes of fit steps is accepted under its root, and gives the root over the list after
/// the steps.
pub fn own_diff_is_accepted()
    ensures accepted { (hashes : List (List ℕ)) → (steps : List Step) → IsTrue (is_fit (length hashes) steps)
        → IsDiffOf (node_root_of hashes) (length hashes) steps (own_leaves hashes steps) (own_nodes hashes steps) }
    ensures root { (hashes : List (List ℕ)) → (steps : List Step) → IsTrue (is_fit (length hashes) steps)
        → hash_of (new_tree (length hashes) steps (own_leaves hashes steps) (own_nodes hashes steps)) ≡ node_root_of (after hashes steps) }
{}
