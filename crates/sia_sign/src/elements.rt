//! Elements of a list that are named by their indices.
ghost use Rattle.std.specs.Prelude.{◌≡◌, ℕ, ◌++◌, length, take, OnOk, OnErr};
ghost use Rattle.sia_sign.specs.SignedText.{spelled_at, spelled_each};

use sia_encoding::{Blob, Item, List, Spelled};
use std::alloc::AllocError;

/// The elements of a list at some indices.
#[derive(Drop)]
pub struct Elements<'a, T> {
    /// The list.
    pub all: &'a List<T>,
    /// The indices. One past the end names nothing.
    pub indices: &'a List<u64>,
}

impl<T: Item> Spelled for Elements<'_, T> {
    ghost spelling = { λ elements. spelled_each T.codec elements.all.now elements.indices.now };

    fn write_each(self, out: &mut Blob) -> Result<(), AllocError> {
        write_named(out, self.all.as_slice(), self.indices.as_slice())
    }
}

// The elements at the indices, one behind the other. After an error some of them stand behind what was there.
fn write_named<T: Item>(out: &mut Blob, all: &[T], indices: &[u64]) -> Result<(), AllocError>
    ensures ok { OnOk result (out.new ≡ out.old ++ spelled_each T.codec all.now indices.now) }
    ensures err { OnErr result (take (length out.old) out.new ≡ out.old) }
{
    for index in indices {
        write_at(out, all, *index)?;
    }
    Ok(())
}

// The element at the index, or nothing past the end.
fn write_at<T: Item>(out: &mut Blob, all: &[T], index: u64) -> Result<(), AllocError>
    ensures ok { OnOk result (out.new ≡ out.old ++ spelled_at T.codec all.now index) }
    ensures err { OnErr result (take (length out.old) out.new ≡ out.old) }
{
    match all.get(index as usize) {
        None => Ok(()),
        Some(element) => element.write(out),
    }
}
