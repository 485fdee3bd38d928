//! A disk in memory, which tells all images that a crash may leave.
ghost use Rattle.std.specs.Prelude.{◌≡◌, ◌+◌, ◌<◌, ◌≤◌, ◌↔◌, ◌++◌, ◌∷◌, [], true, IsTrue, IfOk, OnOk, OnErr, length, take, drop, if◌then◌else◌};
ghost use Rattle.sia_edge.specs.Edge.{Rose};
ghost use Rattle.sia_edge.specs.Disk.{GivesWithin, Gives, Quiet, Faulted, Lengthens, Overwrites, Changes, Torn, Cuts, Shortened, Settles, overwritten};
ghost use Rattle.sia_edge.specs.Memory.{fresh_plan, fails_next, after_call, given_of};
ghost use Rattle.sia_edge.specs.MemDisk.{standing_of, plan_after, OverwritesOrKeeps, CutsOrKeeps, KeepsSync};
ghost use Rattle.sia_edge.specs.Event.{Wrote, Cut};

use crate::event_log::EventLog;
use crate::fault_plan::FaultPlan;
use crate::memory::{copy_front, got_of};
use crate::{Did, Disk, Got};
use sia_encoding::{Blob, List};
use std::alloc::AllocError;
use std::marker::Model;

/// A disk in memory, with calls that fail by number. Clauses see its writes, cuts and syncs; at run time it keeps its bytes
/// alone.
#[derive(Drop)]
pub struct MemDisk {
    bytes: Vec<u8>,
    event_log: EventLog,
    plan: FaultPlan,
}

impl Model for MemDisk {
    ghost use Rattle.sia_edge.specs.EventLog.{start_of, events_of};
    ghost use Rattle.sia_edge.specs.MemDisk.{DiskState, ReadIsImage};

    ghost Value = { DiskState };

    ghost view = { λ disk. record { bytes = disk.bytes.items; start = start_of disk.event_log; events = events_of disk.event_log; plan = disk.plan } };

    ghost invariant = { λ disk. ReadIsImage (start_of disk.event_log) (events_of disk.event_log) disk.bytes.items };
}

impl MemDisk {
    /// A disk with these bytes, all of them settled. The calls with these numbers, counted from 0 over reads, writes, cuts
    /// and syncs, will fail. It takes no memory.
    pub fn new(bytes: Blob, fails: List<u64>) -> MemDisk
        ensures { result ≡ record { bytes = bytes; start = bytes; events = []; plan = fresh_plan fails } }
    {
        let bytes = bytes.into_vec();
        MemDisk {
            event_log: EventLog::new(&bytes),
            bytes,
            plan: FaultPlan::new(fails),
        }
    }

    /// What a read gives.
    pub fn bytes(&self) -> &[u8]
        ensures { result.now ≡ self.now.bytes }
    {
        self.bytes.as_slice()
    }
}

/// Puts the bytes over what is there from a place on, and past the end. An `Err` is want of memory, and changes nothing.
fn overwrite(bytes: &mut Vec<u8>, at: usize, piece: &[u8]) -> Result<(), AllocError>
    requires { at ≤ length bytes.old.items }
    ensures ok { OnOk result (bytes.new.items ≡ overwritten bytes.old.items at piece.now) }
    ensures err { OnErr result (bytes.new.items ≡ bytes.old.items) }
{
    let Some(end) = at.checked_add(piece.len()) else {
        return Err(AllocError);
    };
    if end > bytes.len() {
        bytes.resize(end, 0)?;
    }
    bytes[at..end].copy_from_slice(piece);
    Ok(())
}

/// The write that is told by the trait, after it was noted.
fn write_begun(bytes: &mut Vec<u8>, plan: &mut FaultPlan, at: usize, piece: &[u8]) -> Did
    requires { at ≤ length bytes.old.items }
    ensures bytes { OverwritesOrKeeps result at piece.now bytes.old.items bytes.new.items }
    ensures plan { plan.new ≡ plan_after plan.old result }
    ensures fails { IsTrue (fails_next plan.old) → result ≡ Did.Failed }
    ensures later { plan.old.faults ≤ plan.new.faults }
    ensures cause { result ≡ Did.Failed → Rose plan.old.faults plan.new.faults }
{
    if plan.count_call() {
        return Did::Failed;
    }
    match overwrite(bytes, at, piece) {
        Ok(()) => Did::Done,
        Err(_) => {
            plan.count_fault();
            Did::Failed
        }
    }
}

/// The cut that is told by the trait, after it was noted.
fn cut_begun(bytes: &mut Vec<u8>, plan: &mut FaultPlan, len: usize) -> Did
    ensures bytes { CutsOrKeeps result len bytes.old.items bytes.new.items }
    ensures plan { plan.new ≡ plan_after plan.old result }
    ensures fails { result ≡ Did.Failed ↔ IsTrue (fails_next plan.old) }
    ensures later { plan.old.faults ≤ plan.new.faults }
    ensures cause { result ≡ Did.Failed → Rose plan.old.faults plan.new.faults }
{
    if plan.count_call() {
        return Did::Failed;
    }
    bytes.truncate(len);
    Did::Done
}

impl Disk for MemDisk {
    ghost use Rattle.sia_edge.specs.MemDisk.{read_is_image};

    ghost tells = { true };

    ghost standing = { standing_of };

    ghost as_read = { λ disk told. read_is_image disk };

    fn length(&self) -> u64 {
        self.bytes.len() as u64
    }

    /// Fails exactly where its number is one of those that fail. It gives as many bytes as there are and as fit.
    fn read(&mut self, at: u64, buffer: &mut [u8]) -> Got
        requires room { 0 < length buffer.old }
        requires inside { at ≤ length self.old.bytes }
        ensures bound { GivesWithin result (length buffer.new) at (length self.old.bytes) }
        ensures bytes { Gives result buffer.new at self.old.bytes }
        ensures quiet { Quiet (standing_of self.old) (standing_of self.new) }
        ensures cause { result ≡ Got.Failed → Faulted (standing_of self.old) (standing_of self.new) }
        ensures exact { result ≡ (if fails_next self.old.plan then Got.Failed else given_of (drop at self.old.bytes) (length buffer.old)) }
        ensures counted { self.new.plan ≡ after_call self.old.plan }
    {
        if self.plan.count_call() {
            return Got::Failed;
        }
        let (_, behind) = self.bytes.as_slice().split_at(at as usize);
        got_of(copy_front(behind, buffer))
    }

    /// Fails where its number is one of those that fail, and else only for want of memory. What is read has the write whole
    /// or not at all. It is noted also where it fails.
    fn write_at(&mut self, at: u64, bytes: &[u8]) -> Did
        requires { at ≤ length self.old.bytes }
        ensures end { Lengthens result (at + length bytes.now) (length self.old.bytes) (length self.new.bytes) }
        ensures bytes { Overwrites result at bytes.now self.old.bytes self.new.bytes }
        ensures changes { Changes (Torn at (length bytes.now)) (standing_of self.old) (standing_of self.new) }
        ensures cause { result ≡ Did.Failed → Faulted (standing_of self.old) (standing_of self.new) }
        ensures whole { OverwritesOrKeeps result at bytes.now self.old.bytes self.new.bytes }
        ensures fails { IsTrue (fails_next self.old.plan) → result ≡ Did.Failed }
        ensures counted { self.new.plan ≡ plan_after self.old.plan result }
        ensures kept { self.new.events ≡ self.old.events ++ Wrote at (length bytes.now) ∷ [] }
    {
        self.event_log.note_write(at, bytes.len() as u64);
        write_begun(&mut self.bytes, &mut self.plan, at as usize, bytes)
    }

    /// Fails exactly where its number is one of those that fail, and is noted then too.
    fn cut(&mut self, len: u64) -> Did
        requires { len ≤ length self.old.bytes }
        ensures bytes { Cuts result len self.old.bytes self.new.bytes }
        ensures changes { Changes (Shortened len) (standing_of self.old) (standing_of self.new) }
        ensures cause { result ≡ Did.Failed → Faulted (standing_of self.old) (standing_of self.new) }
        ensures whole { CutsOrKeeps result len self.old.bytes self.new.bytes }
        ensures fails { result ≡ Did.Failed ↔ IsTrue (fails_next self.old.plan) }
        ensures counted { self.new.plan ≡ plan_after self.old.plan result }
        ensures kept { self.new.events ≡ self.old.events ++ Cut len ∷ [] }
    {
        self.event_log.note_cut(len);
        cut_begun(&mut self.bytes, &mut self.plan, len as usize)
    }

    /// Fails exactly where its number is one of those that fail. It is noted where it is done.
    fn sync(&mut self) -> Did
        ensures settled { Settles result (standing_of self.new) }
        ensures quiet { Quiet (standing_of self.old) (standing_of self.new) }
        ensures cause { result ≡ Did.Failed → Faulted (standing_of self.old) (standing_of self.new) }
        ensures fails { result ≡ Did.Failed ↔ IsTrue (fails_next self.old.plan) }
        ensures counted { self.new.plan ≡ plan_after self.old.plan result }
        ensures kept { KeepsSync result self.old.bytes self.old.events self.new.events }
    {
        if self.plan.count_call() {
            return Did::Failed;
        }
        self.event_log.note_sync(&self.bytes);
        Did::Done
    }
}
