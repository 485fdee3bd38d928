//! A file of the system as a disk. No contract says which bytes it holds.
ghost use Rattle.std.specs.Prelude.{◌≡◌, ◌+◌, ◌-◌, ◌^◌, ◌<◌, ◌≤◌, ℕ, false, Some, IfOk, IfSome, IsNone, IsTrue, length, option_map, take, drop, max};
ghost use Rattle.sia_edge.specs.Disk.{GivesWithin, Gives, Quiet, Faulted, Lengthens, Overwrites, Changes, Torn, Cuts, Shortened, Settles, overwritten};
ghost use Rattle.sia_edge.specs.Edge.{PutWithin};
ghost use Rattle.sia_edge.specs.OpenedFile.{PutsAt, told_of};
ghost use Rattle.sia_edge.specs.FileDisk.{untold, untold_standing, FailsForGood};

use crate::fault_count::FaultCount;
use crate::opened_file::OpenedFile;
use crate::opening::open_settled;
use crate::{Did, Disk, Got, Put};
use std::fs::File;
use std::io;
use std::rt::Files;

/// Whether the system's length of a file is this one.
fn has_size<F: OpenedFile>(file: &F, end: u64) -> bool
    ensures { IsTrue result → IfSome (F.held file.now) (λ held. length held ≡ end) }
{
    match file.size() {
        Some(size) => size == end,
        None => false,
    }
}

/// One write of what is left behind the first `done` of the bytes that go to a place.
fn write_rest<F: OpenedFile>(file: &mut F, at: u64, bytes: &[u8], done: usize) -> Put
    requires left { done < length bytes.now }
    requires room { at + length bytes.now < 2 ^ 64 }
    requires inside { IfSome (F.held file.old) (λ held. at + done ≤ length held) }
    ensures bound { PutWithin result (length (drop done bytes.now)) }
    ensures bytes { PutsAt result (at + done) (drop done bytes.now) (F.held file.old) (F.held file.new) }
{
    let (_, rest) = bytes.split_at(done);
    file.write_at(at + done as u64, rest)
}

/// Writes all the bytes at a place.
fn write_whole_at<F: OpenedFile>(file: &mut F, at: u64, bytes: &[u8]) -> Did
    requires room { at + length bytes.now < 2 ^ 64 }
    requires inside { IfSome (F.held file.old) (λ held. at ≤ length held) }
    ensures { result ≡ Did.Done → F.held file.new ≡ option_map (λ held. overwritten held at bytes.now) (F.held file.old) }
{
    let mut done = 0;
    while done < bytes.len() {
        match write_rest(file, at, bytes, done) {
            Put::Taken(count) => done += count,
            Put::Failed => return Did::Failed,
        }
    }
    Did::Done
}

/// Writes all the bytes at a place of a file of this length.
fn write_own<F: OpenedFile>(file: &mut F, end: u64, at: u64, bytes: &[u8]) -> Did
    requires room { at + length bytes.now < 2 ^ 64 }
    requires inside { at ≤ end }
    ensures own { result ≡ Did.Done → IfSome (F.held file.old) (λ held. length held ≡ end) }
    ensures told { result ≡ Did.Done → F.held file.new ≡ option_map (λ held. overwritten held at bytes.now) (F.held file.old) }
{
    if !has_size(file, end) {
        return Did::Failed;
    }
    write_whole_at(file, at, bytes)
}

/// Cuts a file of this length.
fn cut_own<F: OpenedFile>(file: &mut F, end: u64, len: u64) -> Did
    ensures own { result ≡ Did.Done → IfSome (F.held file.old) (λ held. length held ≡ end) }
    ensures told { result ≡ Did.Done → F.held file.new ≡ option_map (take len) (F.held file.old) }
{
    if !has_size(file, end) {
        return Did::Failed;
    }
    file.cut(len)
}

/// Syncs a file, which has this length afterwards.
fn sync_own<F: OpenedFile>(file: &mut F, end: u64) -> Did
    ensures own { result ≡ Did.Done → IfSome (F.held file.old) (λ held. length held ≡ end) }
    ensures same { result ≡ Did.Done → F.held file.new ≡ F.held file.old }
    ensures synced { result ≡ Did.Done → F.synced file.new ≡ F.held file.old }
{
    if file.sync() == Did::Failed {
        return Did::Failed;
    }
    if has_size(file, end) {
        Did::Done
    } else {
        Did::Failed
    }
}

/// A file that is read and written at places, or none, for a file that didn't open. Its length is a number that it keeps: a
/// file of another length in the system has failed. A call that failed lets the file go, since the system may count bytes as
/// synced that a failed sync has lost; each later call fails, until the file is opened anew.
#[derive(Drop)]
pub struct FileDisk<F: OpenedFile = File> {
    file: Option<F>,
    end: u64,
    faults: FaultCount,
}

impl FileDisk<File> {
    /// The file, whose length is asked of the system. It is neither locked nor synced, as `open` does.
    pub fn new(file: File) -> io::Result<FileDisk>
        ensures file { IfOk result (λ disk. disk.file ≡ Some file) }
        ensures faults { IfOk result (λ disk. disk.faults ≡ 0) }
    {
        let end = file.metadata()?.len();
        Ok(FileDisk {
            file: Some(file),
            end,
            faults: FaultCount::none(),
        })
    }

    /// No file: each call fails and counts, and the length is 0.
    pub fn empty() -> FileDisk
        ensures file { IsNone result.file }
        ensures end { result.end ≡ 0 }
        ensures faults { result.faults ≡ 0 }
    {
        FileDisk {
            file: None,
            end: 0,
            faults: FaultCount::none(),
        }
    }

    /// Opens the file of this name, makes it where it is missing, and locks it. It is empty where it can't be opened, and
    /// where another program holds it locked. A name that isn't UTF-8 can't be opened.
    pub fn open<R: Files<File = File>>(rt: &R, name: &[u8]) -> FileDisk
        ensures { result.faults ≡ 0 }
    {
        match open_settled(rt, name) {
            Ok(file) => FileDisk::new(file).unwrap_or(FileDisk::empty()),
            Err(_) => FileDisk::empty(),
        }
    }
}

impl<F: OpenedFile + Drop> FileDisk<F> {
    /// Counts a call that failed, and lets the file go.
    fn stop(&mut self)
        ensures file { IsNone self.new.file }
        ensures end { self.new.end ≡ self.old.end }
        ensures later { self.old.faults ≤ self.new.faults }
        ensures rose { Faulted (untold_standing self.old.end self.old.faults) (untold_standing self.new.end self.new.faults) }
    {
        self.file = None;
        self.faults.add();
    }

    /// Reads at a place, and no byte past the end. A file that ends below it has failed.
    fn read_inside(&self, at: u64, buffer: &mut [u8]) -> Got
        requires room { 0 < length buffer.old }
        requires inside { at ≤ self.now.end }
        ensures bound { GivesWithin result (length buffer.new) at self.now.end }
        ensures told { IfSome (told_of F.held self.now.file) (Gives result buffer.new at) }
        ensures empty { IsNone self.now.file → result ≡ Got.Failed }
    {
        let Some(file) = &self.file else {
            return Got::Failed;
        };
        if at == self.end {
            return Got::End;
        }
        let want = buffer.len().min((self.end - at) as usize);
        match file.read_at(at, &mut buffer[..want]) {
            Got::End => Got::Failed,
            got => got,
        }
    }
}

impl<F: OpenedFile + Drop> Disk for FileDisk<F> {
    ghost use Rattle.sia_edge.specs.FileDisk.{nothing_told};

    ghost tells = { false };

    ghost standing = { λ disk. untold_standing disk.end disk.faults };

    ghost as_read = { λ disk told. absurd (nothing_told told) };

    fn length(&self) -> u64
        ensures length { result ≡ length (untold self.now.end) }
        ensures end { result ≡ self.now.end }
    {
        self.end
    }

    fn read(&mut self, at: u64, buffer: &mut [u8]) -> Got
        requires room { 0 < length buffer.old }
        requires inside { at ≤ length (untold self.old.end) }
        ensures bound { GivesWithin result (length buffer.new) at (length (untold self.old.end)) }
        ensures bytes { IsTrue false → Gives result buffer.new at (untold self.old.end) }
        ensures quiet { Quiet (untold_standing self.old.end self.old.faults) (untold_standing self.new.end self.new.faults) }
        ensures cause { result ≡ Got.Failed → Faulted (untold_standing self.old.end self.old.faults) (untold_standing self.new.end self.new.faults) }
        ensures told { IfSome (told_of F.held self.old.file) (Gives result buffer.new at) }
        ensures fails { FailsForGood self.old.file self.new.file self.old.end self.new.end (result ≡ Got.Failed) }
    {
        let got = self.read_inside(at, buffer);
        if got == Got::Failed {
            self.stop();
        }
        got
    }

    fn write_at(&mut self, at: u64, bytes: &[u8]) -> Did
        requires { at ≤ length (untold self.old.end) }
        ensures end { Lengthens result (at + length bytes.now) (length (untold self.old.end)) (length (untold self.new.end)) }
        ensures bytes { IsTrue false → Overwrites result at bytes.now (untold self.old.end) (untold self.new.end) }
        ensures changes { Changes (Torn at (length bytes.now)) (untold_standing self.old.end self.old.faults) (untold_standing self.new.end self.new.faults) }
        ensures cause { result ≡ Did.Failed → Faulted (untold_standing self.old.end self.old.faults) (untold_standing self.new.end self.new.faults) }
        ensures own { result ≡ Did.Done → IfSome (told_of F.held self.old.file) (λ held. length held ≡ self.old.end) }
        ensures told { result ≡ Did.Done → told_of F.held self.new.file ≡ option_map (λ held. overwritten held at bytes.now) (told_of F.held self.old.file) }
        ensures fails { FailsForGood self.old.file self.new.file self.old.end self.new.end (result ≡ Did.Failed) }
    {
        let end = at.checked_add(bytes.len() as u64);
        let did = match (&mut self.file, end) {
            (Some(file), Some(_)) => write_own(file, self.end, at, bytes),
            _ => Did::Failed,
        };
        match (did, end) {
            (Did::Done, Some(end)) => self.end = self.end.max(end),
            _ => self.stop(),
        }
        did
    }

    fn cut(&mut self, len: u64) -> Did
        requires { len ≤ length (untold self.old.end) }
        ensures bytes { Cuts result len (untold self.old.end) (untold self.new.end) }
        ensures changes { Changes (Shortened len) (untold_standing self.old.end self.old.faults) (untold_standing self.new.end self.new.faults) }
        ensures cause { result ≡ Did.Failed → Faulted (untold_standing self.old.end self.old.faults) (untold_standing self.new.end self.new.faults) }
        ensures own { result ≡ Did.Done → IfSome (told_of F.held self.old.file) (λ held. length held ≡ self.old.end) }
        ensures told { result ≡ Did.Done → told_of F.held self.new.file ≡ option_map (take len) (told_of F.held self.old.file) }
        ensures fails { FailsForGood self.old.file self.new.file self.old.end self.new.end (result ≡ Did.Failed) }
    {
        let did = match &mut self.file {
            Some(file) => cut_own(file, self.end, len),
            None => Did::Failed,
        };
        match did {
            Did::Done => self.end = len,
            Did::Failed => self.stop(),
        }
        did
    }

    fn sync(&mut self) -> Did
        ensures settled { Settles result (untold_standing self.new.end self.new.faults) }
        ensures quiet { Quiet (untold_standing self.old.end self.old.faults) (untold_standing self.new.end self.new.faults) }
        ensures cause { result ≡ Did.Failed → Faulted (untold_standing self.old.end self.old.faults) (untold_standing self.new.end self.new.faults) }
        ensures own { result ≡ Did.Done → IfSome (told_of F.held self.old.file) (λ held. length held ≡ self.old.end) }
        ensures same { result ≡ Did.Done → told_of F.held self.new.file ≡ told_of F.held self.old.file }
        ensures synced { result ≡ Did.Done → told_of F.synced self.new.file ≡ told_of F.held self.old.file }
        ensures fails { FailsForGood self.old.file self.new.file self.old.end self.new.end (result ≡ Did.Failed) }
    {
        let did = match &mut self.file {
            Some(file) => sync_own(file, self.end),
            None => Did::Failed,
        };
        if did == Did::Failed {
            self.stop();
        }
        did
    }
}

/// The disks of a host or a renter.
#[derive(Drop)]
pub struct Disks<D: Disk> {
    /// Where the host keeps its records.
    pub journal: D,
    /// Where the host keeps its sectors.
    pub shelf: D,
    /// Where the renter keeps its records.
    pub renter: D,
}
