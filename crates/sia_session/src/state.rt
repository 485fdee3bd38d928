//! What a session knows: whether it holds a contract, and what it proposed.
ghost use Rattle.std.specs.Prelude.{◌≡◌};
ghost use Rattle.sia_session.specs.Replies.{dropped, form_in, renewal_in, state_before, write_in};

use sia_records::PreparedWrite;
use sia_rhp::FormRequest;
use sia_types::{Blob, Transaction};
use std::marker::Model;

/// What may be proposed.
#[derive(Drop)]
pub enum Kept {
    /// A formation.
    Form(FormRequest),
    /// A change of the contract's sectors.
    Write(PreparedWrite),
    /// A renewal.
    Renew(Transaction),
}

/// What was proposed and waits for its signatures. Contracts see it as what was proposed.
#[derive(Drop)]
pub struct Proposal {
    kept: Kept,
}

impl Model for Proposal {
    ghost use Rattle.sia_session.specs.declared.state.Kept.{Kept as Waits};

    ghost Value = { Waits };

    ghost view = { λ p. p.kept };
}

impl Proposal {
    /// A formation.
    pub(crate) fn form(request: FormRequest) -> Proposal
        ensures { result ≡ Kept.Form request }
    {
        Proposal {
            kept: Kept::Form(request),
        }
    }

    /// A change of sectors.
    pub(crate) fn write(write: PreparedWrite) -> Proposal
        ensures { result ≡ Kept.Write write }
    {
        Proposal {
            kept: Kept::Write(write),
        }
    }

    /// A renewal.
    pub(crate) fn renewal(tx: Transaction) -> Proposal
        ensures { result ≡ Kept.Renew tx }
    {
        Proposal {
            kept: Kept::Renew(tx),
        }
    }

    /// The formation, if it is one.
    pub(crate) fn into_form(self) -> Option<FormRequest>
        ensures { result ≡ form_in self }
    {
        match self.kept {
            Kept::Form(request) => Some(request),
            Kept::Write(_) => None,
            Kept::Renew(_) => None,
        }
    }

    /// The change of sectors, if it is one.
    pub(crate) fn into_write(self) -> Option<PreparedWrite>
        ensures { result ≡ write_in self }
    {
        match self.kept {
            Kept::Form(_) => None,
            Kept::Write(write) => Some(write),
            Kept::Renew(_) => None,
        }
    }

    /// The renewal, if it is one.
    pub(crate) fn into_renewal(self) -> Option<Transaction>
        ensures { result ≡ renewal_in self }
    {
        match self.kept {
            Kept::Form(_) => None,
            Kept::Write(_) => None,
            Kept::Renew(tx) => Some(tx),
        }
    }

    /// The state in which such a proposal is made.
    pub(crate) fn state_before(&self) -> State
        ensures { result ≡ state_before self.now }
    {
        match &self.kept {
            Kept::Form(_) => State::Idle,
            Kept::Write(_) | Kept::Renew(_) => State::Locked,
        }
    }
}

/// The state of a session.
#[derive(Drop)]
pub enum State {
    /// It holds no contract.
    Idle,
    /// It holds a contract.
    Locked,
    /// A proposal waits for its signatures.
    Proposed(Proposal),
}

impl State {
    /// The state without its proposal.
    pub(crate) fn dropped(self) -> State
        ensures { result ≡ dropped self }
    {
        match self {
            State::Idle => State::Idle,
            State::Locked => State::Locked,
            State::Proposed(proposal) => proposal.state_before(),
        }
    }
}

/// What a body led to.
#[derive(Drop)]
pub enum Taken {
    /// This is sent.
    Send(Blob),
    /// The session ends, and nothing more is sent.
    Exit,
}

/// What a body led to, and the state of the session then.
#[derive(Drop)]
pub struct Done {
    /// What it led to.
    pub taken: Taken,
    /// The state.
    pub state: State,
}
