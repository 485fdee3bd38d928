//! A record in the form in which it stands in the file.
ghost use Rattle.std.specs.Prelude.{◌≡◌, ◌+◌, ◌^◌, ◌<◌, ◌++◌, ◌∷◌, [], IfOk, length};
ghost use Rattle.sia_encoding.specs.Spelling.{spelled_bytes};

use sia_encoding::{Blob, put_bytes};
use std::alloc::{AllocError, Global};
use std::marker::Model;

/// A record, framed. Contracts see its payload.
#[derive(Drop)]
pub struct RecordBuf {
    // the payload's length, the payload, and a closed gate
    body: Blob,
}

impl Model for RecordBuf {
    ghost use Rattle.std.specs.Prelude.{◌≡◌, ◌++◌, ◌∷◌, [], List, ℕ};
    ghost use Rattle.std.specs.Coded.{coded_list, coded_ℕ};
    ghost use Rattle.sia_encoding.specs.Spelling.{spelled_bytes};
    ghost use Rattle.sia_journal.specs.Listed.{payload_of};

    ghost Value = { List ℕ };

    ghost coded = { coded_list coded_ℕ };

    ghost view = { λ record_. payload_of record_.body };

    ghost invariant = { λ record_. record_.body ≡ spelled_bytes (payload_of record_.body) ++ 0 ∷ [] };
}

impl RecordBuf {
    /// Frames a payload. Its error is want of memory.
    pub fn new(alloc: Global, payload: &[u8]) -> Result<RecordBuf, AllocError>
        ensures { IfOk result (λ framed. framed ≡ payload.now) }
    {
        let mut body = Blob::new(alloc);
        put_bytes(&mut body, payload)?;
        body.push(0)?;
        Ok(RecordBuf { body })
    }

    /// The payload that it frames.
    pub fn payload(&self) -> &[u8]
        ensures { result.now ≡ self.now }
    {
        let body = self.body.as_slice();
        &body[8..body.len() - 1]
    }

    /// What stands behind the gate: the payload's length, the payload, and a closed gate.
    pub(crate) fn body(&self) -> &[u8]
        ensures { result.now ≡ spelled_bytes self.now ++ 0 ∷ [] }
    {
        self.body.as_slice()
    }

    /// How long a journal grows by it, in bytes: 9 more than its payload is.
    pub(crate) fn size(&self) -> u64
        ensures exact { result ≡ 9 + length self.now }
        ensures small { result < 2 ^ 63 }
    {
        self.body.as_slice().len() as u64
    }
}
