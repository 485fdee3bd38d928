//! The places whose hashes are joined one by one: the old ones that are touched, and all new ones.
ghost use Rattle.std.specs.Prelude.{◌≡◌, ◌+◌, ◌<◌, ◌^◌};
ghost use Rattle.sia_diff.specs.Chosen.{ArePlaces, is_chosen};

use sia_cover::PlaceSet;

/// The chosen places of a tree, as a set.
#[derive(Clone, Copy)]
pub(crate) struct Chosen<'a> {
    /// How many hashes there were before the steps: the places from there on are chosen.
    pub old: u64,
    /// The other chosen places, in ascending order.
    pub touched: &'a [u64],
    ghost places: { ArePlaces old touched.now },
}

impl<'a> PlaceSet for Chosen<'a> {
    ghost holds = { λ chosen. is_chosen chosen.old chosen.touched.now };

    fn below(&self, place: u64) -> u64 {
        if place > self.old {
            self.touched.len() as u64 + (place - self.old)
        } else {
            self.touched.partition_point(|other| *other < place) as u64
        }
    }
}

impl<'a> Chosen<'a> {
    /// Whether a place is chosen.
    pub(crate) fn contains(&self, place: u64) -> bool
        requires { place + 1 < 2 ^ 64 }
        ensures { result ≡ is_chosen self.now.old self.now.touched.now place }
    {
        let before = self.below(place);
        before < self.below(place + 1)
    }
}
