//! The places of a range, as a set.
ghost use Rattle.std.specs.Prelude.{◌≡◌};
ghost use Rattle.sia_merkle.specs.Segments.{places_between};

use sia_cover::PlaceSet;

/// The places from `start` to `end`, without `end`.
#[derive(Clone, Copy)]
pub(crate) struct Between {
    pub start: u64,
    pub end: u64,
}

impl PlaceSet for Between {
    ghost holds = { λ places. places_between places.start places.end };

    fn below(&self, place: u64) -> u64 {
        place.min(self.end).saturating_sub(self.start)
    }
}
