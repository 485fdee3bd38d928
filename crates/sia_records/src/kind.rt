//! The kinds of a host's records: what a record begins with.
ghost use Rattle.std.specs.Prelude.{◌≡◌, ℕ, ◌++◌, Option};
ghost use Rattle.sia_records.specs.Kinds.{record_kind_of, record_kind_text};

use sia_encoding::{Blob, Cursor, DecodeFault, Item, put_fixed};
use std::alloc::{AllocError, Global};

/// What a record of a host's journal tells of. It is spelled by one byte.
#[derive(Clone, Copy, Debug, PartialEq, Eq)]
pub(crate) enum RecordKind {
    /// A block.
    Block,
    /// A revert.
    Revert,
    /// A contract that was formed.
    Formed,
    /// A contract that was revised.
    Revised,
    /// A contract that was renewed.
    Renewed,
}

impl RecordKind {
    /// Every kind.
    const ALL: [RecordKind; 5] = [
        RecordKind::Block,
        RecordKind::Revert,
        RecordKind::Formed,
        RecordKind::Revised,
        RecordKind::Renewed,
    ];

    /// The byte of the kind.
    fn text(self) -> [u8; 1]
        ensures { result ≡ record_kind_text self }
    {
        match self {
            RecordKind::Block => [1],
            RecordKind::Revert => [2],
            RecordKind::Formed => [3],
            RecordKind::Revised => [4],
            RecordKind::Renewed => [5],
        }
    }

    /// The kind that has this byte, if one has.
    fn of(text: &[u8; 1]) -> Option<RecordKind>
        ensures { result ≡ record_kind_of text.now }
    {
        RecordKind::ALL
            .iter()
            .copied()
            .find(|kind| kind.text() == *text)
    }
}

impl Item for RecordKind {
    ghost use Rattle.sia_records.specs.Kinds.{record_kinds};
    ghost use Rattle.sia_records.specs.KindLaws.{record_kinds_law};

    ghost codec = { record_kinds };

    ghost law = { record_kinds_law };

    fn read(_alloc: Global, cursor: &mut Cursor<'_>) -> Result<RecordKind, DecodeFault> {
        let at = cursor.at();
        let text = cursor.take_fixed::<1>()?;
        match RecordKind::of(&text) {
            Some(kind) => Ok(kind),
            None => Err(DecodeFault::BadKind { at }),
        }
    }

    fn write(&self, out: &mut Blob) -> Result<(), AllocError> {
        put_fixed(out, &self.text())
    }

    fn copy(&self, _alloc: Global) -> Result<RecordKind, AllocError> {
        Ok(*self)
    }
}
