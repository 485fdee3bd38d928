//! The coefficients of a polynomial from its values, by divided differences, in place of the values.
ghost use Rattle.std.specs.Prelude.{◌≡◌, ◌<◌, ℕ, length, slice_index};
ghost use Rattle.sia_pieces.specs.Joined.{AreBelow, HaveByte};
ghost use Rattle.sia_pieces.specs.Solving.{slopes, raised, solved, places, column};

use crate::field::inverse;
use crate::{Piece, gf_mul};

/// Puts the coefficients of the polynomial with some values at the pieces' places in the values' place.
pub(crate) fn solve(pieces: &[Piece], values: &mut [u8])
    requires same { length pieces.now ≡ length values.old }
    requires within { AreBelow 16 pieces.now }
    ensures { values.new ≡ solved (places pieces.now) values.old }
{
    if pieces.is_empty() {
        return;
    }
    let place = pieces[0].place as u8;
    let value = values[0];
    put_slopes(place, value, &pieces[1..], &mut values[1..]);
    solve(&pieces[1..], &mut values[1..]);
    raise(place, values);
}

/// Puts the slopes from a value at a place to the values in their place.
fn put_slopes(place: u8, value: u8, pieces: &[Piece], values: &mut [u8])
    requires same { length pieces.now ≡ length values.old }
    requires within { AreBelow 16 pieces.now }
    ensures { values.new ≡ slopes place value (places pieces.now) values.old }
{
    for i in 0..values.len() {
        let other = pieces[i].place as u8;
        values[i] = gf_mul(values[i] ^ value, inverse(other ^ place));
    }
}

/// Multiplies the polynomial behind the first coefficient by x + place, and adds that coefficient.
fn raise(place: u8, values: &mut [u8])
    ensures { values.new ≡ raised place values.old }
{
    for i in 1..values.len() {
        values[i - 1] ^= gf_mul(place, values[i]);
    }
}

/// Puts byte t of each piece into the values.
pub(crate) fn put_bytes(t: usize, pieces: &[Piece], values: &mut [u8])
    requires same { length pieces.now ≡ length values.old }
    requires long { HaveByte t pieces.now }
    ensures bytes { values.new ≡ column t pieces.now }
    ensures elements { (i : ℕ) → slice_index values.new i < 256 }
{
    for i in 0..values.len() {
        values[i] = byte_at(pieces[i].bytes.as_slice(), t);
    }
}

/// Byte t.
fn byte_at(bytes: &[u8], t: usize) -> u8
    requires { t < length bytes.now }
    ensures { result ≡ slice_index bytes.now t }
{
    bytes[t]
}
