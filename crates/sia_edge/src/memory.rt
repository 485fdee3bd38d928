//! Sources and sinks in memory. Contracts see their bytes, and which of their calls fail.
ghost use Rattle.std.specs.Prelude.{◌≡◌, ◌<◌, ◌≤◌, ◌++◌, [], Some, IsTrue, length, take, min, if◌then◌else◌};
ghost use Rattle.sia_edge.specs.Edge.{GotWithin, Reads, GotCause, PutWithin, Writes, PutCause};
ghost use Rattle.sia_edge.specs.Memory.{fresh_plan, fails_next, after_call, given, given_of, left_after, TakesWhole, plan_after_write};

use crate::fault_plan::FaultPlan;
use crate::{Got, Put, Sink, Source};
use sia_encoding::{Blob, List};
use std::alloc::Global;
use std::marker::Model;

/// The bytes of a byte string, one after another. It never fails.
#[derive(Drop)]
pub struct SureSource {
    bytes: Blob,
    at: usize,
}

impl Model for SureSource {
    ghost use Rattle.std.specs.Prelude.{List, ℕ, ◌≤◌, length, drop};
    ghost use Rattle.std.specs.Coded.{coded_list, coded_ℕ};

    ghost Value = { List ℕ };

    ghost coded = { coded_list coded_ℕ };

    ghost view = { λ source. drop source.at source.bytes };

    ghost invariant = { λ source. source.at ≤ length source.bytes };
}

/// Puts as much of `from` at the front of `buffer` as there is room for, and answers how much.
pub(crate) fn copy_front(from: &[u8], buffer: &mut [u8]) -> usize
    ensures count { result ≡ min (length buffer.old) (length from.now) }
    ensures copied { take result buffer.new ≡ take result from.now }
{
    let count = buffer.len().min(from.len());
    let (front, _) = buffer.split_at_mut(count);
    let (piece, _) = from.split_at(count);
    front.copy_from_slice(piece);
    count
}

/// What a read that gives so many bytes answers.
pub(crate) fn got_of(count: usize) -> Got
    ensures { result ≡ given count }
{
    if count == 0 {
        Got::End
    } else {
        Got::Bytes(count)
    }
}

impl SureSource {
    /// All of these bytes are left. It takes no memory.
    pub fn new(bytes: Blob) -> SureSource
        ensures { result ≡ bytes }
    {
        SureSource { bytes, at: 0 }
    }
}

impl Source for SureSource {
    ghost left = { λ source. Some source };

    ghost faults = { λ source. 0 };

    fn read(&mut self, buffer: &mut [u8]) -> Got
        requires { 0 < length buffer.old }
        ensures bound { GotWithin result (length buffer.new) }
        ensures bytes { Reads (Some self.old) (Some self.new) result buffer.new }
        ensures cause { GotCause 0 0 result }
        ensures exact { result ≡ given_of self.old (length buffer.old) }
        ensures left { self.new ≡ left_after self.old (length buffer.old) }
    {
        let (_, left) = self.bytes.as_slice().split_at(self.at);
        let count = copy_front(left, buffer);
        self.at += count;
        got_of(count)
    }
}

/// The bytes of a byte string, one after another, with calls that fail by number.
#[derive(Drop)]
pub struct MemSource {
    rest: SureSource,
    plan: FaultPlan,
}

impl MemSource {
    /// All of these bytes are left, and the reads with these numbers, counted from 0, will fail. It takes no memory.
    pub fn new(bytes: Blob, fails: List<u64>) -> MemSource
        ensures bytes { result.rest ≡ bytes }
        ensures plan { result.plan ≡ fresh_plan fails }
    {
        MemSource {
            rest: SureSource::new(bytes),
            plan: FaultPlan::new(fails),
        }
    }
}

impl Source for MemSource {
    ghost left = { λ source. Some source.rest };

    ghost faults = { λ source. source.plan.faults };

    fn read(&mut self, buffer: &mut [u8]) -> Got
        requires { 0 < length buffer.old }
        ensures bound { GotWithin result (length buffer.new) }
        ensures bytes { Reads (Some self.old.rest) (Some self.new.rest) result buffer.new }
        ensures cause { GotCause self.old.plan.faults self.new.plan.faults result }
        ensures exact { result ≡ (if fails_next self.old.plan then Got.Failed else given_of self.old.rest (length buffer.old)) }
        ensures left { self.new.rest ≡ (if fails_next self.old.plan then self.old.rest else left_after self.old.rest (length buffer.old)) }
        ensures counted { self.new.plan ≡ after_call self.old.plan }
    {
        if self.plan.count_call() {
            return Got::Failed;
        }
        self.rest.read(buffer)
    }
}

/// Keeps what is written to it, with calls that fail by number. It takes each piece whole or not at all.
#[derive(Drop)]
pub struct MemSink {
    bytes: Blob,
    plan: FaultPlan,
}

impl MemSink {
    /// Nothing was taken so far, and the writes with these numbers, counted from 0, will fail.
    pub fn new(alloc: Global, fails: List<u64>) -> MemSink
        ensures bytes { result.bytes ≡ [] }
        ensures plan { result.plan ≡ fresh_plan fails }
    {
        MemSink {
            bytes: Blob::new(alloc),
            plan: FaultPlan::new(fails),
        }
    }

    /// What was taken so far.
    pub fn bytes(&self) -> &[u8]
        ensures { result.now ≡ self.now.bytes }
    {
        self.bytes.as_slice()
    }
}

impl Sink for MemSink {
    ghost taken = { λ sink. Some sink.bytes };

    ghost faults = { λ sink. sink.plan.faults };

    /// Fails where its number is one of those that fail, and else only for want of memory.
    fn write(&mut self, piece: &[u8]) -> Put
        ensures bound { PutWithin result (length piece.now) }
        ensures bytes { Writes (Some self.old.bytes) (Some self.new.bytes) result piece.now }
        ensures cause { PutCause self.old.plan.faults self.new.plan.faults result }
        ensures whole { TakesWhole result (length piece.now) }
        ensures fails { IsTrue (fails_next self.old.plan) → result ≡ Put.Failed }
        ensures counted { self.new.plan ≡ plan_after_write self.old.plan result }
    {
        if self.plan.count_call() {
            return Put::Failed;
        }
        match self.bytes.extend(piece) {
            Ok(()) => Put::Taken(piece.len()),
            Err(_) => {
                self.plan.count_fault();
                Put::Failed
            }
        }
    }
}
