//! The items: fixed arrays, integers, bools, currencies, byte strings, and values that may be missing.
ghost use Rattle.std.specs.Prelude.{◌≡◌, ℕ, ◌++◌, length, take};
ghost use Rattle.sia_encoding.specs.Items.{byte_string, currency, fixed, number, option_of, truth};
ghost use Rattle.sia_encoding.specs.CodecLaws.{fixed_law};
ghost use Rattle.sia_encoding.specs.ItemLaws.{byte_string_law, currency_law, number_law, truth_law};
ghost use Rattle.sia_encoding.specs.RecordLaws.{option_law};

use crate::blob::Blob;
use crate::cursor::Cursor;
use crate::fault::DecodeFault;
use crate::item::Item;
use crate::put::{put_bool, put_bytes, put_currency, put_fixed, put_u64};
use std::alloc::{AllocError, Global};

/// A fixed array: its bytes. A hash is one of 32.
impl<const N: usize> Item for [u8; N] {
    ghost codec = { fixed N };

    ghost law = { fixed_law N };

    fn read(_alloc: Global, cursor: &mut Cursor<'_>) -> Result<[u8; N], DecodeFault> {
        cursor.take_fixed::<N>()
    }

    fn write(&self, out: &mut Blob) -> Result<(), AllocError> {
        put_fixed(out, self)
    }

    fn copy(&self, _alloc: Global) -> Result<[u8; N], AllocError> {
        Ok(*self)
    }
}

/// An integer: 8 bytes.
impl Item for u64 {
    ghost codec = { number };

    ghost law = { number_law };

    fn read(_alloc: Global, cursor: &mut Cursor<'_>) -> Result<u64, DecodeFault> {
        cursor.take_u64()
    }

    fn write(&self, out: &mut Blob) -> Result<(), AllocError> {
        put_u64(out, *self)
    }

    fn copy(&self, _alloc: Global) -> Result<u64, AllocError> {
        Ok(*self)
    }
}

/// A bool: one byte.
impl Item for bool {
    ghost codec = { truth };

    ghost law = { truth_law };

    fn read(_alloc: Global, cursor: &mut Cursor<'_>) -> Result<bool, DecodeFault> {
        cursor.take_bool()
    }

    fn write(&self, out: &mut Blob) -> Result<(), AllocError> {
        put_bool(out, *self)
    }

    fn copy(&self, _alloc: Global) -> Result<bool, AllocError> {
        Ok(*self)
    }
}

/// A currency in hastings: the byte string of its digits.
impl Item for u128 {
    ghost codec = { currency };

    ghost law = { currency_law };

    fn read(_alloc: Global, cursor: &mut Cursor<'_>) -> Result<u128, DecodeFault> {
        cursor.take_currency()
    }

    fn write(&self, out: &mut Blob) -> Result<(), AllocError> {
        put_currency(out, *self)
    }

    fn copy(&self, _alloc: Global) -> Result<u128, AllocError> {
        Ok(*self)
    }
}

/// A byte string: its length and its bytes.
impl Item for Blob {
    ghost codec = { byte_string };

    ghost law = { byte_string_law };

    fn read(alloc: Global, cursor: &mut Cursor<'_>) -> Result<Blob, DecodeFault> {
        Ok(Blob::from_slice(alloc, cursor.take_bytes()?)?)
    }

    fn write(&self, out: &mut Blob) -> Result<(), AllocError> {
        put_bytes(out, self.as_slice())
    }

    fn copy(&self, alloc: Global) -> Result<Blob, AllocError> {
        Blob::from_slice(alloc, self.as_slice())
    }
}

/// A value that may be missing: 0, or 1 and the value.
impl<T: Item> Item for Option<T> {
    ghost codec = { option_of T.codec };

    ghost law = { option_law T.law };

    #[tactic(auto, unfolding(crate::specs::Items::option_at))]
    fn read(alloc: Global, cursor: &mut Cursor<'_>) -> Result<Option<T>, DecodeFault> {
        if cursor.take_bool()? {
            Ok(Some(T::read(alloc, cursor)?))
        } else {
            Ok(None)
        }
    }

    fn write(&self, out: &mut Blob) -> Result<(), AllocError> {
        match self {
            None => put_bool(out, false),
            Some(value) => {
                put_bool(out, true)?;
                value.write(out)
            }
        }
    }

    fn copy(&self, alloc: Global) -> Result<Option<T>, AllocError> {
        match self {
            None => Ok(None),
            Some(value) => Ok(Some(value.copy(alloc)?)),
        }
    }
}
