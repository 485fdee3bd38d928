//! Values that are spelled one behind the other.
ghost use Rattle.std.specs.Prelude.{◌≡◌, ℕ, List as Sequence, ◌++◌, length, take, OnOk, OnErr};

use crate::blob::Blob;
use crate::item::Item;
use std::alloc::AllocError;

/// What is spelled: an item that is lent, or two of these, one behind the other. [`behind!`](crate::behind) makes one of
/// the fields of a record.
pub trait Spelled: Drop {
    /// The bytes that it is spelled by.
    ghost spelling: { Self → Sequence ℕ };

    /// Appends the spelling. Its error is want of memory: some of it may then stand behind what was there.
    fn write_each(self, out: &mut Blob) -> Result<(), AllocError>
        ensures ok { OnOk result (out.new ≡ out.old ++ spelling self) }
        ensures err { OnErr result (take (length out.old) out.new ≡ out.old) };
}

impl<T: Item> Spelled for &T {
    ghost spelling = { λ item. T.codec.spelled item.now };

    fn write_each(self, out: &mut Blob) -> Result<(), AllocError> {
        self.write(out)
    }
}

impl<A: Spelled, B: Spelled> Spelled for (A, B) {
    ghost spelling = { λ both. A.spelling both.0 ++ B.spelling both.1 };

    fn write_each(self, out: &mut Blob) -> Result<(), AllocError> {
        let (first, second) = self;
        first.write_each(out)?;
        second.write_each(out)
    }
}

/// The fields of a record, each lent, as values that are spelled one behind the other, in the order given.
#[macro_export]
macro_rules! behind {
    ($field:expr) => { &$field };
    ($field:expr, $($rest:expr),+) => { (&$field, $crate::behind!($($rest),+)) };
}
