//! Answers (RHP2; siad's modules/negotiate.go).
ghost use Rattle.std.specs.Prelude.{◌≡◌, ◌≢◌, ℕ, ◌++◌, length, take, IfSome, IsSomeAnd, OnOk, OnErr};
ghost use Rattle.sia_encoding.specs.Answer.{Answers};
ghost use Rattle.sia_encoding.specs.Reading.{fault_told};
ghost use Rattle.sia_rhp.specs.Labels.{label_of};
ghost use Rattle.sia_rhp.specs.Messages.{IsMessage, message_in, message_told};
ghost use Rattle.sia_rhp.specs.Answers.{answer_behind, answer_to, spelled_answer};

use crate::answer_bodies::{LockAnswer, ReadAnswer, RootsAnswer, WriteAnswer};
use crate::label::Label;
use crate::message_fault::MessageFault;
use sia_encoding::{Blob, Cursor, DecodeFault, Item, List, Spelled, behind};
use sia_types::{CoinInput, CoinOutput, Settings, Signature};
use std::alloc::{AllocError, Global};

/// What a host answers a renter.
#[derive(Drop)]
pub enum Answer {
    /// The host's settings.
    Settings(Settings),
    /// The inputs and outputs that the host adds to a formation.
    Form {
        /// The siacoin outputs that the host spends.
        inputs: List<CoinInput>,
        /// The siacoin outputs that it makes.
        outputs: List<CoinOutput>,
    },
    /// The host's signatures of a formation.
    FormSign(List<Signature>),
    /// Whether the lock was acquired.
    Lock(LockAnswer),
    /// The lock has ended.
    Unlock,
    /// The proof of a change.
    Write(WriteAnswer),
    /// The host's signature of the new revision.
    WriteSign(Blob),
    /// The parts of sectors.
    Read(ReadAnswer),
    /// The roots.
    Roots(RootsAnswer),
    /// The inputs and outputs that the host adds to a renewal.
    Renew {
        /// The siacoin outputs that the host spends.
        inputs: List<CoinInput>,
        /// The siacoin outputs that it makes.
        outputs: List<CoinOutput>,
    },
    /// The host's signatures of a renewal.
    RenewSign(List<Signature>),
    /// The code of what was wrong.
    Error {
        code: u64,
    },
}

impl Answer {
    /// Reads the answer that the bytes spell, all of them, to a request with this label, which is one that is answered. No length
    /// and no count may pass the limit. `BadMessage`: the first thing that is wrong, or the first byte of a rest. `Memory` is
    /// want of memory, and says nothing of the bytes.
    pub fn decode(
        alloc: Global,
        bytes: &[u8],
        limit: u64,
        label: &[u8; 16],
    ) -> Result<Answer, MessageFault>
        requires { IsSomeAnd (label_of label.now) (λ named. named ≢ Label.LoopExit) }
        ensures { IfSome (label_of label.now) (λ named. IsMessage (answer_to named) bytes.now limit result) }
    {
        let label = Label::of(label).unwrap();
        decode_answer(alloc, bytes, limit, label)
    }

    /// Appends the answer's spelling to the bytes that are there. Its error is want of memory: `out` stays.
    pub fn encode(&self, out: &mut Blob) -> Result<(), AllocError>
        ensures ok { OnOk result (out.new ≡ out.old ++ spelled_answer self.now) }
        ensures err { OnErr result (out.new ≡ out.old) }
    {
        let before = out.len();
        if write_answer(self, out).is_err() {
            out.truncate(before);
            return Err(AllocError);
        }
        Ok(())
    }
}

// Reads what answers to the requests of a label hold, where they tell no error.
fn read_behind(alloc: Global, cursor: &mut Cursor<'_>, label: Label) -> Result<Answer, DecodeFault>
    ensures { Answers (λ read. (read, cursor.new)) fault_told result ((answer_behind label).reading cursor.old) }
{
    match label {
        Label::Settings => Ok(Answer::Settings(Item::read(alloc, cursor)?)),
        Label::FormContract => Ok(Answer::Form {
            inputs: Item::read(alloc, cursor)?,
            outputs: Item::read(alloc, cursor)?,
        }),
        Label::FormSign => Ok(Answer::FormSign(Item::read(alloc, cursor)?)),
        Label::Lock => Ok(Answer::Lock(Item::read(alloc, cursor)?)),
        Label::Unlock => Ok(Answer::Unlock),
        Label::Write => Ok(Answer::Write(Item::read(alloc, cursor)?)),
        Label::WriteSign => Ok(Answer::WriteSign(Item::read(alloc, cursor)?)),
        Label::Read => Ok(Answer::Read(Item::read(alloc, cursor)?)),
        Label::Roots => Ok(Answer::Roots(Item::read(alloc, cursor)?)),
        Label::Renew => Ok(Answer::Renew {
            inputs: Item::read(alloc, cursor)?,
            outputs: Item::read(alloc, cursor)?,
        }),
        Label::RenewSign => Ok(Answer::RenewSign(Item::read(alloc, cursor)?)),
        Label::LoopExit => Err(DecodeFault::BadKind { at: cursor.at() }),
    }
}

// Reads an answer to a request with this label, and goes on behind it.
fn read_answer(alloc: Global, cursor: &mut Cursor<'_>, label: Label) -> Result<Answer, DecodeFault>
    ensures { Answers (λ read. (read, cursor.new)) fault_told result ((answer_to label).reading cursor.old) }
{
    if cursor.take_bool()? {
        return Ok(Answer::Error {
            code: cursor.take_u64()?,
        });
    }
    read_behind(alloc, cursor, label)
}

// Reads an answer without a rest.
fn decode_answer(
    alloc: Global,
    bytes: &[u8],
    limit: u64,
    label: Label,
) -> Result<Answer, MessageFault>
    ensures { Answers (λ read. read) message_told result (message_in (answer_to label) bytes.now limit) }
{
    let mut cursor = Cursor::new(bytes, limit);
    let answer = read_answer(alloc, &mut cursor, label)?;
    cursor.end()?;
    Ok(answer)
}

// Appends an answer's spelling. At an error some of it may stand behind what was there.
fn write_answer(answer: &Answer, out: &mut Blob) -> Result<(), AllocError>
    ensures ok { OnOk result (out.new ≡ out.old ++ spelled_answer answer.now) }
    ensures err { OnErr result (take (length out.old) out.new ≡ out.old) }
{
    match answer {
        Answer::Settings(body) => behind!(false, *body).write_each(out),
        Answer::Form { inputs, outputs } => behind!(false, *inputs, *outputs).write_each(out),
        Answer::FormSign(body) => behind!(false, *body).write_each(out),
        Answer::Lock(body) => behind!(false, *body).write_each(out),
        Answer::Unlock => false.write(out),
        Answer::Write(body) => behind!(false, *body).write_each(out),
        Answer::WriteSign(body) => behind!(false, *body).write_each(out),
        Answer::Read(body) => behind!(false, *body).write_each(out),
        Answer::Roots(body) => behind!(false, *body).write_each(out),
        Answer::Renew { inputs, outputs } => behind!(false, *inputs, *outputs).write_each(out),
        Answer::RenewSign(body) => behind!(false, *body).write_each(out),
        Answer::Error { code } => behind!(true, *code).write_each(out),
    }
}
