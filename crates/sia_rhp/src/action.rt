//! What a write does to the sectors of a contract, step by step (RHP2's write actions).
ghost use Rattle.std.specs.Prelude.{ℕ, ◌++◌};

use sia_encoding::{Blob, Cursor, DecodeFault, Item, Spelled, behind};
use std::alloc::{AllocError, Global};

/// One step of a write.
#[derive(Drop)]
pub enum Action {
    /// A sector more, behind the last one.
    Append(Blob),
    /// So many sectors fewer, from the end.
    Trim(u64),
    /// The sectors at two places, each in the other's place.
    Swap(u64, u64),
    /// Other bytes in the sector at a place, from an offset on.
    Update {
        /// The place of the sector, from 0.
        place: u64,
        /// Where the bytes begin in it.
        offset: u64,
        /// The bytes.
        bytes: Blob,
    },
}

impl Item for Action {
    ghost use Rattle.sia_rhp.specs.Actions.{action};
    ghost use Rattle.sia_rhp.specs.ActionLaws.{action_law};

    ghost codec = { action };

    ghost law = { action_law };

    fn read(alloc: Global, cursor: &mut Cursor<'_>) -> Result<Action, DecodeFault> {
        let at = cursor.at();
        match cursor.take_u64()? {
            0 => Ok(Action::Append(Item::read(alloc, cursor)?)),
            1 => Ok(Action::Trim(Item::read(alloc, cursor)?)),
            2 => Ok(Action::Swap(Item::read(alloc, cursor)?, Item::read(alloc, cursor)?)),
            3 => Ok(Action::Update {
                place: Item::read(alloc, cursor)?,
                offset: Item::read(alloc, cursor)?,
                bytes: Item::read(alloc, cursor)?,
            }),
            _ => Err(DecodeFault::BadKind { at }),
        }
    }

    fn write(&self, out: &mut Blob) -> Result<(), AllocError> {
        match self {
            Action::Append(bytes) => behind!(0u64, *bytes).write_each(out),
            Action::Trim(count) => behind!(1u64, *count).write_each(out),
            Action::Swap(one, other) => behind!(2u64, *one, *other).write_each(out),
            Action::Update {
                place,
                offset,
                bytes,
            } => behind!(3u64, *place, *offset, *bytes).write_each(out),
        }
    }

    fn copy(&self, alloc: Global) -> Result<Action, AllocError> {
        match self {
            Action::Append(bytes) => Ok(Action::Append(bytes.copy(alloc)?)),
            Action::Trim(count) => Ok(Action::Trim(*count)),
            Action::Swap(one, other) => Ok(Action::Swap(*one, *other)),
            Action::Update {
                place,
                offset,
                bytes,
            } => Ok(Action::Update {
                place: *place,
                offset: *offset,
                bytes: bytes.copy(alloc)?,
            }),
        }
    }
}
