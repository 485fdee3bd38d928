//! A reply that a session was given.
ghost use Rattle.std.specs.Prelude.{◌≡◌, IfOk};
ghost use Rattle.sia_rhp.specs.Answers.{spelled_answer};
ghost use Rattle.sia_session.specs.Replies.{after_lock, after_proposal, after_unlock, is_acquired as acquired_by, is_lock as lock_in, is_said as said_by, spelled_reply};

use crate::state::{Proposal, State};
use sia_commands::Reply;
use sia_rhp::Answer;
use sia_types::Blob;
use std::alloc::{AllocError, Global};
use std::marker::Model;

/// A reply that a session was given. Contracts see it as that reply.
#[derive(Drop)]
pub(crate) struct Heard {
    reply: Reply,
}

impl Model for Heard {
    ghost use Rattle.sia_commands.specs.declared.reply.Reply.{Reply as Said};

    ghost Value = { Said };

    ghost view = { λ h. h.reply };
}

impl Heard {
    /// This reply.
    pub(crate) fn new(reply: Reply) -> Heard
        ensures { result ≡ reply }
    {
        Heard { reply }
    }

    /// Whether it is no refusal.
    fn is_said(&self) -> bool
        ensures { result ≡ said_by self.now }
    {
        match &self.reply {
            Reply::Said(_) => true,
            _ => false,
        }
    }

    /// Whether it tells of a lock that was acquired.
    fn is_acquired(&self) -> bool
        ensures { result ≡ acquired_by self.now }
    {
        match &self.reply {
            Reply::Said(answer) => is_lock(answer),
            _ => false,
        }
    }

    /// The state after this reply to a request for a lock.
    pub(crate) fn after_lock(&self, before: State) -> State
        ensures { result ≡ after_lock before self.now }
    {
        if self.is_acquired() {
            State::Locked
        } else {
            before
        }
    }

    /// The state after this reply to a request to end a lock.
    pub(crate) fn after_unlock(&self, before: State) -> State
        ensures { result ≡ after_unlock before self.now }
    {
        if self.is_said() { State::Idle } else { before }
    }

    /// The state after this reply to a proposal.
    pub(crate) fn after_proposal(&self, proposal: Proposal, before: State) -> State
        ensures { result ≡ after_proposal proposal before self.now }
    {
        if self.is_said() {
            State::Proposed(proposal)
        } else {
            before
        }
    }

    /// The answer that it is sent as. Its error is want of memory.
    pub(crate) fn spelled(&self, alloc: Global) -> Result<Blob, AllocError>
        ensures { IfOk result (λ bytes. bytes ≡ spelled_reply self.now) }
    {
        match &self.reply {
            Reply::Said(answer) => spelled(alloc, answer),
            Reply::Error { code } => spelled_code(alloc, *code),
            _ => Ok(Blob::new(alloc)),
        }
    }
}

/// Whether an answer tells of a lock that was acquired.
fn is_lock(answer: &Answer) -> bool
    ensures { result ≡ lock_in answer.now }
{
    match answer {
        Answer::Lock(lock) => lock.acquired,
        _ => false,
    }
}

/// The bytes of an answer. Its error is want of memory.
fn spelled(alloc: Global, answer: &Answer) -> Result<Blob, AllocError>
    ensures { IfOk result (λ bytes. bytes ≡ spelled_answer answer.now) }
{
    let mut bytes = Blob::new(alloc);
    answer.encode(&mut bytes)?;
    Ok(bytes)
}

/// The bytes of the code of an error. Its error is want of memory.
pub(crate) fn spelled_code(alloc: Global, code: u64) -> Result<Blob, AllocError>
    ensures { IfOk result (λ bytes. bytes ≡ spelled_answer (Answer.Error code)) }
{
    spelled(alloc, &Answer::Error { code })
}
