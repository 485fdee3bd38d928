//! The labels of requests (RHP2's specifiers; siad's modules/negotiate.go).
ghost use Rattle.std.specs.Prelude.{◌≡◌, ℕ, ◌++◌, Option};
ghost use Rattle.sia_rhp.specs.Labels.{label_of, label_text};

use sia_encoding::{Blob, Cursor, DecodeFault, Item, put_fixed};
use std::alloc::{AllocError, Global};

/// What a request asks for. It is spelled by a text of 16 bytes.
#[derive(Clone, Copy, Debug, PartialEq, Eq)]
pub enum Label {
    /// The host's settings.
    Settings,
    /// A new contract.
    FormContract,
    /// The renter's signatures for a new contract.
    FormSign,
    /// The lock of a contract.
    Lock,
    /// The end of the lock.
    Unlock,
    /// A change of a contract's sectors.
    Write,
    /// The renter's signature for a change.
    WriteSign,
    /// Parts of sectors.
    Read,
    /// Roots of a contract's sectors.
    Roots,
    /// A contract in the place of another.
    Renew,
    /// The renter's signatures for a renewal.
    RenewSign,
    /// The end of the session, which isn't answered.
    LoopExit,
}

impl Label {
    /// Every label.
    pub const ALL: [Label; 12] = [
        Label::Settings,
        Label::FormContract,
        Label::FormSign,
        Label::Lock,
        Label::Unlock,
        Label::Write,
        Label::WriteSign,
        Label::Read,
        Label::Roots,
        Label::Renew,
        Label::RenewSign,
        Label::LoopExit,
    ];

    /// The text of the label.
    pub fn text(self) -> [u8; 16]
        ensures { result ≡ label_text self }
    {
        match self {
            Label::Settings => *b"settings\0\0\0\0\0\0\0\0",
            Label::FormContract => *b"form contract\0\0\0",
            Label::FormSign => *b"form sign\0\0\0\0\0\0\0",
            Label::Lock => *b"lock\0\0\0\0\0\0\0\0\0\0\0\0",
            Label::Unlock => *b"unlock\0\0\0\0\0\0\0\0\0\0",
            Label::Write => *b"write\0\0\0\0\0\0\0\0\0\0\0",
            Label::WriteSign => *b"write sign\0\0\0\0\0\0",
            Label::Read => *b"read\0\0\0\0\0\0\0\0\0\0\0\0",
            Label::Roots => *b"sector roots\0\0\0\0",
            Label::Renew => *b"renew and clear\0",
            Label::RenewSign => *b"renew sign\0\0\0\0\0\0",
            Label::LoopExit => *b"loop exit\0\0\0\0\0\0\0",
        }
    }

    /// The label that has this text, if one has.
    pub fn of(text: &[u8; 16]) -> Option<Label>
        ensures { result ≡ label_of text.now }
    {
        Label::ALL
            .iter()
            .copied()
            .find(|label| label.text() == *text)
    }
}

impl Item for Label {
    ghost use Rattle.sia_rhp.specs.Labels.{labels};
    ghost use Rattle.sia_rhp.specs.LabelLaws.{labels_law};

    ghost codec = { labels };

    ghost law = { labels_law };

    fn read(_alloc: Global, cursor: &mut Cursor<'_>) -> Result<Label, DecodeFault> {
        let at = cursor.at();
        let text = cursor.take_fixed::<16>()?;
        match Label::of(&text) {
            Some(label) => Ok(label),
            None => Err(DecodeFault::BadKind { at }),
        }
    }

    fn write(&self, out: &mut Blob) -> Result<(), AllocError> {
        put_fixed(out, &self.text())
    }

    fn copy(&self, _alloc: Global) -> Result<Label, AllocError> {
        Ok(*self)
    }
}
