//! The products of one element with each other, as a table, and the value of a polynomial by it.
ghost use Rattle.std.specs.Prelude.{◌≡◌, ℕ, ◌<◌, slice_index};
ghost use Rattle.sia_pieces.specs.Field.{product};
ghost use Rattle.sia_pieces.specs.Pieces.{value};

use crate::gf_mul;

/// The products of `place` with each element, by that element.
#[derive(Drop)]
pub(crate) struct Products {
    place: u8,
    table: [u8; 256],
    ghost exact: { (a : ℕ) → a < 256 → slice_index table a ≡ product place a },
}

impl Products {
    /// The products of a place.
    pub(crate) fn new(place: u8) -> Self
        ensures { result.place ≡ place }
    {
        let mut table = [0; 256];
        for a in 0..256 {
            table[a] = gf_mul(place, a as u8);
        }
        Products { place, table }
    }

    /// The value at the place of the polynomial of some coefficients, taken from the last one down.
    pub(crate) fn value(&self, coefficients: &[u8]) -> u8
        ensures { result ≡ value coefficients.now self.now.place }
    {
        let mut sum = 0;
        for i in (0..coefficients.len()).rev() {
            sum = coefficients[i] ^ self.table[sum as usize];
        }
        sum
    }
}
