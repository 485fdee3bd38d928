//! A law of marks. The function does nothing: its contract is the law.
ghost use Rattle.std.specs.Prelude.{◌≡◌, ◌≢◌, ◌∷◌, ℕ, List, slice_set};
ghost use Rattle.sia_shelf.specs.Shelf.{IsFirstFree, free_slots};

use crate::mark::Mark;

/// The first of the free slots may be put, and once it isn't free the free slots are the others.
pub fn first_free_may_be_put()
    ensures { (marks : List Mark) (slot : ℕ) (others : List ℕ) → free_slots marks ≡ slot ∷ others
        → IsFirstFree marks slot × ((to : Mark) → to ≢ Mark.Free → free_slots (slice_set marks slot to) ≡ others) }
{}
