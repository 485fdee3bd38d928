//! Numbers in decimal digits.
ghost use Rattle.std.specs.Prelude.{◌≡◌, get_or, nat_eq, ◌||◌};
ghost use Rattle.sia_config.specs.Decimal.{decimal_number, has_leading_zero};

/// Whether a sign, or a zero before other digits, stands at the front.
fn begins_otherwise(text: &[u8]) -> bool
    ensures { result ≡ (nat_eq (get_or text.now 0 0) 43 || has_leading_zero text.now) }
{
    match text {
        [b'+', ..] => true,
        [b'0', _, ..] => true,
        _ => false,
    }
}

/// The number below 2^128 that a text of decimal digits writes. `None` where the text is empty, has anything but digits (a
/// sign too), has a zero before other digits, or writes a greater number.
pub fn read_decimal(text: &[u8]) -> Option<u128>
    ensures { result ≡ decimal_number text.now }
{
    if begins_otherwise(text) {
        return None;
    }
    match str::from_utf8(text) {
        Ok(text) => text.parse::<u128>().ok(),
        Err(_) => None,
    }
}
