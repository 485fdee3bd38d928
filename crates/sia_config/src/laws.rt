//! Laws of numbers in decimal digits. The functions do nothing: their contracts are the laws.
ghost use Rattle.std.specs.Prelude.{◌≡◌, ℕ, ◌<◌, ◌^◌, List, Some, decimal};
ghost use Rattle.sia_config.specs.Decimal.{decimal_number};

/// What is printed of a number below 2^128, [`crate::read_decimal`] reads.
pub fn printed_numbers_are_read()
    ensures { (n : ℕ) → n < 2 ^ 128 → decimal_number (decimal n) ≡ Some n }
{}

/// A text that [`crate::read_decimal`] reads is what is printed of the number: no number has two texts.
pub fn read_texts_are_printed()
    ensures { (text : List ℕ) (n : ℕ) → decimal_number text ≡ Some n → text ≡ decimal n }
{}
