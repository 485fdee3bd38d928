//! Sessions that have begun and not ended.
ghost use Rattle.std.specs.Prelude.{◌≡◌};
ghost use Rattle.sia_kept.specs.Sessions.{effect_of as effect_so};

use sia_blake::Hash;
use sia_commands::{Kind, Outcome};

/// A live session.
#[derive(Clone, Copy, Debug, PartialEq, Eq)]
pub struct Session {
    /// Its number, from 1.
    pub number: u64,
    /// What its next request for a lock signs.
    pub challenge: [u8; 16],
    /// The contract that it holds.
    pub held: Option<Hash>,
}

/// What an event does to its session.
#[derive(Clone, Copy, Debug, PartialEq, Eq)]
pub enum Effect {
    /// The session begins.
    Begins,
    /// It acquires a lock, and has a new challenge.
    Acquires,
    /// It has a new challenge.
    AsksAnew,
    /// It gives its lock back.
    Frees,
    /// It ends.
    Ends,
    /// Nothing.
    Stays,
}

/// What an event of this kind and outcome does to its session.
pub fn effect_of(kind: Kind, outcome: Outcome) -> Effect
    ensures { result ≡ effect_so kind outcome }
{
    match kind {
        Kind::Enter => Effect::Begins,
        Kind::Lock => match outcome {
            Outcome::Fine => Effect::Acquires,
            Outcome::Held(_) => Effect::AsksAnew,
            Outcome::Code(_) => Effect::Stays,
            Outcome::Block(_) => Effect::Stays,
            Outcome::NoBlock => Effect::Stays,
            Outcome::Nothing => Effect::Stays,
        },
        Kind::Unlock => match outcome {
            Outcome::Fine => Effect::Frees,
            Outcome::Held(_) => Effect::Stays,
            Outcome::Code(_) => Effect::Stays,
            Outcome::Block(_) => Effect::Stays,
            Outcome::NoBlock => Effect::Stays,
            Outcome::Nothing => Effect::Stays,
        },
        Kind::Leave => Effect::Ends,
        Kind::Settings => Effect::Stays,
        Kind::Form => Effect::Stays,
        Kind::FormSign => Effect::Stays,
        Kind::Fetch => Effect::Stays,
        Kind::Write => Effect::Stays,
        Kind::WriteSign => Effect::Stays,
        Kind::Read => Effect::Stays,
        Kind::Roots => Effect::Stays,
        Kind::Renew => Effect::Stays,
        Kind::RenewSign => Effect::Stays,
        Kind::Apply => Effect::Stays,
        Kind::Revert => Effect::Stays,
        Kind::Stale => Effect::Stays,
        Kind::Due => Effect::Stays,
        Kind::Fault => Effect::Stays,
    }
}
