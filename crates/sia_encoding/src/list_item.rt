//! A list of items is an item.
ghost use Rattle.std.specs.Prelude.{◌≡◌, ℕ, ◌++◌, length, take, OnOk, OnErr};
ghost use Rattle.std.specs.List.{flat_map};
ghost use Rattle.sia_encoding.specs.Answer.{Answers};
ghost use Rattle.sia_encoding.specs.Items.{list_of};
ghost use Rattle.sia_encoding.specs.ItemLaws.{list_law};
ghost use Rattle.sia_encoding.specs.Reading.{elements_at, fault_told};

use crate::blob::Blob;
use crate::cursor::Cursor;
use crate::fault::DecodeFault;
use crate::item::Item;
use crate::list::List;
use crate::put::put_u64;
use std::alloc::{AllocError, Global};

/// A list: its count and its elements.
impl<T: Item> Item for List<T> {
    ghost codec = { list_of T.codec };

    ghost law = { list_law T.law };

    #[tactic(auto, unfolding(crate::specs::Reading::list_at))]
    fn read(alloc: Global, cursor: &mut Cursor<'_>) -> Result<List<T>, DecodeFault> {
        let count = cursor.take_count()?;
        read_elements(alloc, cursor, count)
    }

    #[tactic(auto, unfolding(crate::specs::Spelling::spelled_list))]
    fn write(&self, out: &mut Blob) -> Result<(), AllocError> {
        put_u64(out, self.len() as u64)?;
        write_elements(out, self.as_slice())
    }

    fn copy(&self, alloc: Global) -> Result<List<T>, AllocError> {
        let mut copied = List::new(alloc);
        for item in self.as_slice() {
            copied.push(item.copy(alloc)?)?;
        }
        Ok(copied)
    }
}

// The most elements that get room before they are read: a count that tells too many takes little memory.
const FIRST_ROOM: u64 = 64;

// So many elements, one behind the other.
fn read_elements<T: Item>(
    alloc: Global,
    cursor: &mut Cursor<'_>,
    count: u64,
) -> Result<List<T>, DecodeFault>
    ensures { Answers (λ value. (value, cursor.new)) fault_told result (elements_at T.codec.reading count cursor.old) }
{
    let mut items = List::with_room(alloc, count.min(FIRST_ROOM) as usize)?;
    for _ in 0..count {
        items.push(T::read(alloc, cursor)?)?;
    }
    Ok(items)
}

// The elements' spellings. After an error some of them stand behind what was there.
fn write_elements<T: Item>(out: &mut Blob, items: &[T]) -> Result<(), AllocError>
    ensures ok { OnOk result (out.new ≡ out.old ++ flat_map T.codec.spelled items.now) }
    ensures err { OnErr result (take (length out.old) out.new ≡ out.old) }
{
    for item in items {
        item.write(out)?;
    }
    Ok(())
}
