//! Why bytes are no message.
use sia_encoding::DecodeFault;

/// The first thing, from the left, that is wrong with a message. `at` is its offset in the message, in bytes.
#[derive(Clone, Copy, Debug, PartialEq, Eq)]
pub enum MessageFault {
    /// The message is as long as a label, and no request has the label.
    UnknownRpc,
    /// What begins at this byte is wrong, or left over.
    BadMessage { at: u64 },
    /// There was no memory for the message. It may be right or wrong.
    Memory,
}

impl From<DecodeFault> for MessageFault {
    ghost use Rattle.std.specs.Prelude.{◌≡◌};
    ghost use Rattle.sia_rhp.specs.Messages.{wrong_by};

    ghost from_gives = { λ fault told. told ≡ wrong_by fault };

    fn from(fault: DecodeFault) -> MessageFault {
        match fault {
            DecodeFault::BadKind { at: 0 } => MessageFault::UnknownRpc,
            DecodeFault::Short { at }
            | DecodeFault::BadBool { at }
            | DecodeFault::BadKind { at }
            | DecodeFault::BadCurrency { at }
            | DecodeFault::TooLong { at }
            | DecodeFault::Rest { at } => MessageFault::BadMessage { at },
            DecodeFault::Memory => MessageFault::Memory,
        }
    }
}
