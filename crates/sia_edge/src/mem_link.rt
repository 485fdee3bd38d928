//! A link in memory. Contracts see its bytes, and which of its calls fail.
ghost use Rattle.std.specs.Prelude.{◌≡◌, ◌<◌, [], Some, IsTrue, length, if◌then◌else◌};
ghost use Rattle.sia_edge.specs.Edge.{GotWithin, Reads, GotCause, PutWithin, Writes, PutCause};
ghost use Rattle.sia_edge.specs.Memory.{fresh_plan, fails_next, after_call, given_of, left_after, TakesWhole, plan_after_write};

use crate::fault_plan::FaultPlan;
use crate::memory::SureSource;
use crate::{Got, Link, Put, Source};
use sia_encoding::{Blob, List};
use std::alloc::Global;

/// A link that gives the bytes of a byte string and keeps what is written to it, with calls that fail by number. It takes each
/// piece whole or not at all.
#[derive(Drop)]
pub struct MemLink {
    rest: SureSource,
    bytes: Blob,
    plan: FaultPlan,
}

impl MemLink {
    /// All of these bytes are left, and nothing was written so far. The calls with these numbers, counted from 0 over reads and
    /// writes together, will fail.
    pub fn new(alloc: Global, bytes: Blob, fails: List<u64>) -> MemLink
        ensures left { result.rest ≡ bytes }
        ensures taken { result.bytes ≡ [] }
        ensures plan { result.plan ≡ fresh_plan fails }
    {
        MemLink {
            rest: SureSource::new(bytes),
            bytes: Blob::new(alloc),
            plan: FaultPlan::new(fails),
        }
    }

    /// What was written so far.
    pub fn bytes(&self) -> &[u8]
        ensures { result.now ≡ self.now.bytes }
    {
        self.bytes.as_slice()
    }
}

impl Link for MemLink {
    ghost left = { λ link. Some link.rest };

    ghost taken = { λ link. Some link.bytes };

    ghost faults = { λ link. link.plan.faults };

    fn read(&mut self, buffer: &mut [u8]) -> Got
        requires { 0 < length buffer.old }
        ensures bound { GotWithin result (length buffer.new) }
        ensures bytes { Reads (Some self.old.rest) (Some self.new.rest) result buffer.new }
        ensures apart { Some self.new.bytes ≡ Some self.old.bytes }
        ensures cause { GotCause self.old.plan.faults self.new.plan.faults result }
        ensures exact { result ≡ (if fails_next self.old.plan then Got.Failed else given_of self.old.rest (length buffer.old)) }
        ensures left { self.new.rest ≡ (if fails_next self.old.plan then self.old.rest else left_after self.old.rest (length buffer.old)) }
        ensures counted { self.new.plan ≡ after_call self.old.plan }
    {
        if self.plan.count_call() {
            return Got::Failed;
        }
        self.rest.read(buffer)
    }

    /// Fails where its number is one of those that fail, and else only for want of memory.
    fn write(&mut self, piece: &[u8]) -> Put
        ensures bound { PutWithin result (length piece.now) }
        ensures bytes { Writes (Some self.old.bytes) (Some self.new.bytes) result piece.now }
        ensures apart { Some self.new.rest ≡ Some self.old.rest }
        ensures cause { PutCause self.old.plan.faults self.new.plan.faults result }
        ensures whole { TakesWhole result (length piece.now) }
        ensures fails { IsTrue (fails_next self.old.plan) → result ≡ Put.Failed }
        ensures counted { self.new.plan ≡ plan_after_write self.old.plan result }
    {
        if self.plan.count_call() {
            return Put::Failed;
        }
        match self.bytes.extend(piece) {
            Ok(()) => Put::Taken(piece.len()),
            Err(_) => {
                self.plan.count_fault();
                Put::Failed
            }
        }
    }
}
