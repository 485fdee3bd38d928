//! What a revision does to the sectors of a contract, as a host keeps it (RHP2's write actions).
ghost use Rattle.std.specs.Prelude.{ℕ, ◌++◌};

use sia_blake::Hash;
use sia_encoding::{Blob, Cursor, DecodeFault, Item, Spelled, behind};
use std::alloc::{AllocError, Global};

/// One change of a contract's sectors. Each sector is known by its root and by the slot of the disk in which its bytes lie.
#[derive(Clone, Copy)]
pub enum Change {
    /// A sector more, behind the last one.
    Append {
        /// Its root.
        root: Hash,
        /// Where its bytes lie.
        slot: u64,
    },
    /// So many sectors fewer, from the end.
    Trim(u64),
    /// The sectors at two places, each in the other's place.
    Swap(u64, u64),
    /// Another sector at a place.
    Set {
        /// The place, from 0.
        place: u64,
        /// Its root.
        root: Hash,
        /// Where its bytes lie.
        slot: u64,
    },
}

impl Item for Change {
    ghost use Rattle.sia_records.specs.Changes.{change};
    ghost use Rattle.sia_records.specs.ChangeLaws.{change_law};

    ghost codec = { change };

    ghost law = { change_law };

    fn read(alloc: Global, cursor: &mut Cursor<'_>) -> Result<Change, DecodeFault> {
        let at = cursor.at();
        match cursor.take_u64()? {
            0 => Ok(Change::Append {
                root: Item::read(alloc, cursor)?,
                slot: Item::read(alloc, cursor)?,
            }),
            1 => Ok(Change::Trim(Item::read(alloc, cursor)?)),
            2 => Ok(Change::Swap(Item::read(alloc, cursor)?, Item::read(alloc, cursor)?)),
            3 => Ok(Change::Set {
                place: Item::read(alloc, cursor)?,
                root: Item::read(alloc, cursor)?,
                slot: Item::read(alloc, cursor)?,
            }),
            _ => Err(DecodeFault::BadKind { at }),
        }
    }

    fn write(&self, out: &mut Blob) -> Result<(), AllocError> {
        match self {
            Change::Append { root, slot } => behind!(0u64, *root, *slot).write_each(out),
            Change::Trim(count) => behind!(1u64, *count).write_each(out),
            Change::Swap(one, other) => behind!(2u64, *one, *other).write_each(out),
            Change::Set { place, root, slot } => {
                behind!(3u64, *place, *root, *slot).write_each(out)
            }
        }
    }

    fn copy(&self, _alloc: Global) -> Result<Change, AllocError> {
        Ok(*self)
    }
}
