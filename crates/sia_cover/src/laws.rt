//! What a cover is, as laws. The functions here do nothing: their contracts are the laws, and a caller that wants one calls
//! its function.
ghost use Rattle.std.specs.Prelude.{◌≡◌, ◌<◌, ◌⊎◌, ℕ, Bool, IsTrue};
ghost use Rattle.std.specs.List.{list_all};
ghost use Rattle.sia_merkle.specs.Segments.{cover, others};
ghost use Rattle.sia_cover.specs.Covering.{is_largest, segments_over};

/// Each segment of a cover is a largest one that holds no place outside the set.
pub fn segments_are_largest()
    ensures { (chosen : ℕ → Bool) → (count : ℕ) → IsTrue (list_all (is_largest chosen count) (cover chosen count)) }
{}

/// Each place of the tree is in exactly one segment of the cover, or it is outside the set and in none.
pub fn each_place_is_covered_once()
    ensures { (chosen : ℕ → Bool) → (count place : ℕ) → place < count
        → (IsTrue (chosen place) × (segments_over place (cover chosen count) ≡ 1)) ⊎ (IsTrue (others chosen place) × (segments_over place (cover chosen count) ≡ 0)) }
{}
