//! Sets of places, and how a set stands to the places of a subtree.
ghost use Rattle.std.specs.Prelude.{◌≡◌, ◌+◌, ◌<◌, ◌≤◌, ◌^◌, ℕ, Bool, nat_le};
ghost use Rattle.sia_merkle.specs.Segments.{is_covered, others};
ghost use Rattle.sia_cover.specs.Joined.{count_below};

use sia_merkle::power;

/// A set of places of a tree, which count from 0.
pub trait PlaceSet {
    /// Whether a place is in the set.
    ghost holds: { Self → ℕ → Bool };

    /// How many places of the set are below a place.
    fn below(&self, place: u64) -> u64
        ensures { result ≡ count_below (holds self.now) place };
}

/// All places that are not in a set.
#[derive(Clone, Copy)]
pub struct Others<'a, P>(pub &'a P);

impl<'a, P: PlaceSet> PlaceSet for Others<'a, P> {
    ghost holds = { λ set. others (P.holds set.0.now) };

    fn below(&self, place: u64) -> u64 {
        place - self.0.below(place)
    }
}

/// Whether the 2^`height` places from `low` on end at `limit` or before.
fn ends_by(height: u32, low: u64, limit: u64) -> bool
    requires { height ≤ 64 }
    ensures { result ≡ nat_le (low + 2 ^ height) limit }
{
    low as u128 + (1u128 << height) <= limit as u128
}

/// Whether the 2^`height` places from `low` on are below `count`, and all of them in the set.
pub(crate) fn is_full<P: PlaceSet>(set: &P, count: u64, height: u32, low: u64) -> bool
    requires { height ≤ 64 }
    ensures { result ≡ is_covered (P.holds set.now) count height low }
{
    if !ends_by(height, low, count) {
        return false;
    }
    let width = power(height);
    let before = set.below(low);
    set.below(low + width) - before == width
}

/// Whether the 2^`height` places from `low` on are below `count`, and none of them in the set.
pub(crate) fn is_clear<P: PlaceSet>(set: &P, count: u64, height: u32, low: u64) -> bool
    requires { height ≤ 64 }
    ensures { result ≡ is_covered (others (P.holds set.now)) count height low }
{
    if !ends_by(height, low, count) {
        return false;
    }
    let before = set.below(low);
    set.below(low + power(height)) == before
}
