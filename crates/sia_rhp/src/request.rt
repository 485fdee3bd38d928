//! Requests (RHP2; siad's modules/negotiate.go).
ghost use Rattle.std.specs.Prelude.{◌≡◌, ℕ, ◌++◌, length, take, OnOk, OnErr};
ghost use Rattle.sia_encoding.specs.Answer.{Answers};
ghost use Rattle.sia_encoding.specs.Reading.{fault_told};
ghost use Rattle.sia_rhp.specs.Messages.{IsMessage, message_in, message_told};
ghost use Rattle.sia_rhp.specs.Requests.{request, request_behind};

use crate::label::Label;
use crate::message_fault::MessageFault;
use crate::request_bodies::{FormRequest, LockRequest, PaidRoots, ReadRequest, WriteRequest};
use sia_encoding::{Blob, Cursor, DecodeFault, Item, List, Spelled, behind};
use sia_types::{Signature, Transaction};
use std::alloc::{AllocError, Global};

/// What a renter asks of a host.
#[derive(Drop)]
pub enum Request {
    /// The host's settings.
    Settings,
    /// A new contract.
    FormContract(FormRequest),
    /// The renter's signatures for the new contract that was asked for.
    FormSign(List<Signature>),
    /// The lock of a contract.
    Lock(LockRequest),
    /// The end of the lock.
    Unlock,
    /// A change of the sectors of the contract.
    Write(WriteRequest),
    /// The renter's signature for the change that was asked for.
    WriteSign(Blob),
    /// Parts of sectors.
    Read(ReadRequest),
    /// Roots of the sectors of the contract.
    Roots(PaidRoots),
    /// A contract in the place of the one that is held: the renter's part of the transaction that renews it.
    Renew(Transaction),
    /// The renter's signatures for the renewal that was asked for.
    RenewSign(List<Signature>),
    /// The end of the session. It isn't answered.
    LoopExit,
}

impl Request {
    /// Reads the request that the bytes spell, all of them. No length and no count may pass the limit. `UnknownRpc`: no label
    /// fits. `BadMessage`: the first thing that is wrong, or the first byte of a rest. `Memory` is want of memory, and says
    /// nothing of the bytes.
    pub fn decode(alloc: Global, bytes: &[u8], limit: u64) -> Result<Request, MessageFault>
        ensures { IsMessage request bytes.now limit result }
    {
        decode_request(alloc, bytes, limit)
    }

    /// Appends the request's spelling to the bytes that are there. Its error is want of memory: `out` stays.
    pub fn encode(&self, out: &mut Blob) -> Result<(), AllocError>
        ensures ok { OnOk result (out.new ≡ out.old ++ request.spelled self.now) }
        ensures err { OnErr result (out.new ≡ out.old) }
    {
        let before = out.len();
        if write_request(self, out).is_err() {
            out.truncate(before);
            return Err(AllocError);
        }
        Ok(())
    }
}

// Reads what the requests of a label hold.
fn read_behind(alloc: Global, cursor: &mut Cursor<'_>, label: Label) -> Result<Request, DecodeFault>
    ensures { Answers (λ read. (read, cursor.new)) fault_told result ((request_behind label).reading cursor.old) }
{
    match label {
        Label::Settings => Ok(Request::Settings),
        Label::FormContract => Ok(Request::FormContract(Item::read(alloc, cursor)?)),
        Label::FormSign => Ok(Request::FormSign(Item::read(alloc, cursor)?)),
        Label::Lock => Ok(Request::Lock(Item::read(alloc, cursor)?)),
        Label::Unlock => Ok(Request::Unlock),
        Label::Write => Ok(Request::Write(Item::read(alloc, cursor)?)),
        Label::WriteSign => Ok(Request::WriteSign(Item::read(alloc, cursor)?)),
        Label::Read => Ok(Request::Read(Item::read(alloc, cursor)?)),
        Label::Roots => Ok(Request::Roots(Item::read(alloc, cursor)?)),
        Label::Renew => Ok(Request::Renew(Item::read(alloc, cursor)?)),
        Label::RenewSign => Ok(Request::RenewSign(Item::read(alloc, cursor)?)),
        Label::LoopExit => Ok(Request::LoopExit),
    }
}

// Reads a request and goes on behind it.
fn read_request(alloc: Global, cursor: &mut Cursor<'_>) -> Result<Request, DecodeFault>
    ensures { Answers (λ read. (read, cursor.new)) fault_told result (request.reading cursor.old) }
{
    let label = Label::read(alloc, cursor)?;
    read_behind(alloc, cursor, label)
}

// Reads a request without a rest.
fn decode_request(alloc: Global, bytes: &[u8], limit: u64) -> Result<Request, MessageFault>
    ensures { Answers (λ read. read) message_told result (message_in request bytes.now limit) }
{
    let mut cursor = Cursor::new(bytes, limit);
    let request = read_request(alloc, &mut cursor)?;
    cursor.end()?;
    Ok(request)
}

// Appends a request's spelling. At an error some of it may stand behind what was there.
fn write_request(asked: &Request, out: &mut Blob) -> Result<(), AllocError>
    ensures ok { OnOk result (out.new ≡ out.old ++ request.spelled asked.now) }
    ensures err { OnErr result (take (length out.old) out.new ≡ out.old) }
{
    match asked {
        Request::Settings => Label::Settings.write(out),
        Request::FormContract(body) => behind!(Label::FormContract, *body).write_each(out),
        Request::FormSign(body) => behind!(Label::FormSign, *body).write_each(out),
        Request::Lock(body) => behind!(Label::Lock, *body).write_each(out),
        Request::Unlock => Label::Unlock.write(out),
        Request::Write(body) => behind!(Label::Write, *body).write_each(out),
        Request::WriteSign(body) => behind!(Label::WriteSign, *body).write_each(out),
        Request::Read(body) => behind!(Label::Read, *body).write_each(out),
        Request::Roots(body) => behind!(Label::Roots, *body).write_each(out),
        Request::Renew(body) => behind!(Label::Renew, *body).write_each(out),
        Request::RenewSign(body) => behind!(Label::RenewSign, *body).write_each(out),
        Request::LoopExit => Label::LoopExit.write(out),
    }
}
