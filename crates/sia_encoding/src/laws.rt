//! Laws of the encoding: each value has one spelling, what is read is spelled so, what is spelled so within the limit
//! is read whatever follows, and no spelling is a proper prefix of another. The functions do nothing: their contracts
//! are the laws.
ghost use Rattle.std.specs.Prelude.{ℕ, ◌<◌, ◌^◌};
ghost use Rattle.sia_encoding.specs.Spelling.{spelled_u64};
ghost use Rattle.sia_encoding.specs.Reading.{count_at};
ghost use Rattle.sia_encoding.specs.Codec.{IsCodec, IsCount, Lawful};

use crate::item::Item;

/// Every item: a fixed array, an integer, a bool, a currency, a byte string, and with each item a list of such and one
/// that may be missing. Each record of items is one too.
pub fn of<T: Item>()
    ensures { Lawful T.codec }
{}

/// A count or a length.
pub fn of_count()
    ensures { IsCodec IsCount spelled_u64 count_at }
{}
