//! Files and standard streams as sources and sinks. No contract says which bytes they give or take.
ghost use Rattle.std.specs.Prelude.{◌≡◌, ◌<◌, ◌≤◌, ◌⊎◌, None, Some, IsNone, IsSome, IsTrue, false, length};
ghost use Rattle.sia_edge.specs.Edge.{Rose, GotWithin, Reads, GotCause, PutWithin, Writes, PutCause};

use crate::attempts::{read_some, write_some};
use crate::fault_count::FaultCount;
use crate::opening::{open_named, open_or_make};
use crate::{Did, Got, Put, Sink, Source};
use std::fs::{File, OpenOptions};
use std::io::{self, Stderr, Stdout};
use std::rt::Files;

/// A file that is read from its start to its end, or none, for a file that didn't open.
#[derive(Drop)]
pub struct FileSource {
    file: Option<File>,
    faults: FaultCount,
}

impl FileSource {
    /// Reads this file from where it stands.
    pub fn new(file: File) -> FileSource
        ensures file { result.file ≡ Some file }
        ensures faults { result.faults ≡ 0 }
    {
        FileSource {
            file: Some(file),
            faults: FaultCount::none(),
        }
    }

    /// No file: each read fails and counts.
    pub fn empty() -> FileSource
        ensures file { IsNone result.file }
        ensures faults { result.faults ≡ 0 }
    {
        FileSource {
            file: None,
            faults: FaultCount::none(),
        }
    }

    /// Opens the file of this name for reading, and is empty where it can't be opened. A name that isn't UTF-8 can't.
    pub fn open<R: Files<File = File>>(rt: &R, name: &[u8]) -> FileSource
        ensures { result.faults ≡ 0 }
    {
        match open_named(rt, OpenOptions::new().read(true), name) {
            Ok(file) => FileSource::new(file),
            Err(_) => FileSource::empty(),
        }
    }
}

impl Source for FileSource {
    ghost left = { λ source. None };

    ghost faults = { λ source. source.faults };

    fn read(&mut self, buffer: &mut [u8]) -> Got
        requires { 0 < length buffer.old }
        ensures bound { GotWithin result (length buffer.new) }
        ensures bytes { Reads None None result buffer.new }
        ensures cause { GotCause self.old.faults self.new.faults result }
        ensures empty { IsNone self.old.file → (result ≡ Got.Failed) × IsNone self.new.file }
    {
        let got = match &mut self.file {
            Some(file) => read_some(file, buffer),
            None => Got::Failed,
        };
        if got == Got::Failed {
            self.faults.add();
        }
        got
    }
}

/// A file that is written from its start, or none, for a file that didn't open. What it held before stands until the first
/// write or `finish`, whichever comes first, empties it: so a run that is refused before it wrote anything leaves it as it was.
#[derive(Drop)]
pub struct FileSink {
    file: Option<File>,
    holds_old: bool,
    faults: FaultCount,
}

/// Empties a file. One that isn't a regular file, as a pipe, keeps nothing.
fn empty_out(file: &File) -> io::Result<()> {
    if file.metadata()?.is_file() {
        file.set_len(0)?;
    }
    Ok(())
}

/// Syncs a file. One that isn't a regular file, as a pipe, keeps nothing.
fn sync_kept(file: &File) -> io::Result<()> {
    if file.metadata()?.is_file() {
        file.sync_all()?;
    }
    Ok(())
}

impl FileSink {
    /// Writes to this file from where it stands.
    pub fn new(file: File) -> FileSink
        ensures file { result.file ≡ Some file }
        ensures new { result.holds_old ≡ false }
        ensures faults { result.faults ≡ 0 }
    {
        FileSink {
            file: Some(file),
            holds_old: false,
            faults: FaultCount::none(),
        }
    }

    /// No file: each call fails and counts.
    pub fn empty() -> FileSink
        ensures file { IsNone result.file }
        ensures faults { result.faults ≡ 0 }
    {
        FileSink {
            file: None,
            holds_old: false,
            faults: FaultCount::none(),
        }
    }

    /// Opens the file of this name, and makes it and syncs its folder where it is missing. It is empty where that can't be
    /// done. A name that isn't UTF-8 can't be opened.
    pub fn create<R: Files<File = File>>(rt: &R, name: &[u8]) -> FileSink
        ensures old { IsSome result.file → IsTrue result.holds_old }
        ensures faults { result.faults ≡ 0 }
    {
        match open_or_make(rt, name) {
            Ok(file) => FileSink {
                file: Some(file),
                holds_old: true,
                faults: FaultCount::none(),
            },
            Err(_) => FileSink::empty(),
        }
    }

    /// Empties the file where it still holds what it held before.
    fn begin(&mut self) -> Did
        ensures empty { IsNone self.old.file → (result ≡ Did.Failed) × IsNone self.new.file }
        ensures begun { result ≡ Did.Done → self.new.holds_old ≡ false }
        ensures same { self.new.faults ≡ self.old.faults }
    {
        let Some(file) = &self.file else {
            return Did::Failed;
        };
        if self.holds_old && empty_out(file).is_err() {
            return Did::Failed;
        }
        self.holds_old = false;
        Did::Done
    }

    /// Ends the writing: the file holds what was written and nothing else, and is synced. It fails where the system does, and
    /// counts then.
    pub fn finish(&mut self) -> Did
        ensures empty { IsNone self.old.file → (result ≡ Did.Failed) × IsNone self.new.file }
        ensures begun { result ≡ Did.Done → self.new.holds_old ≡ false }
        ensures later { self.old.faults ≤ self.new.faults }
        ensures failed { result ≡ Did.Failed → Rose self.old.faults self.new.faults }
    {
        let begun = self.begin();
        let did = match &self.file {
            Some(file) if begun == Did::Done && sync_kept(file).is_ok() => Did::Done,
            _ => Did::Failed,
        };
        if did == Did::Failed {
            self.faults.add();
        }
        did
    }
}

impl Sink for FileSink {
    ghost taken = { λ sink. None };

    ghost faults = { λ sink. sink.faults };

    fn write(&mut self, piece: &[u8]) -> Put
        ensures bound { PutWithin result (length piece.now) }
        ensures bytes { Writes None None result piece.now }
        ensures cause { PutCause self.old.faults self.new.faults result }
        ensures empty { IsNone self.old.file → (result ≡ Put.Failed) × IsNone self.new.file }
        ensures begun { result ≡ Put.Failed ⊎ (self.new.holds_old ≡ false) }
    {
        let begun = self.begin();
        let put = match &mut self.file {
            Some(file) if begun == Did::Done => write_some(file, piece),
            _ => Put::Failed,
        };
        if put == Put::Failed {
            self.faults.add();
        }
        put
    }
}

/// Which standard stream.
#[derive(Drop)]
enum Stream {
    Output(Stdout),
    Error(Stderr),
}

/// Standard output or standard error, as one type. Each write goes to the system at once.
#[derive(Drop)]
pub struct StdSink {
    stream: Stream,
    faults: FaultCount,
}

impl StdSink {
    /// Standard output.
    pub fn output(stream: Stdout) -> StdSink
        ensures { result.faults ≡ 0 }
    {
        StdSink {
            stream: Stream::Output(stream),
            faults: FaultCount::none(),
        }
    }

    /// Standard error.
    pub fn error(stream: Stderr) -> StdSink
        ensures { result.faults ≡ 0 }
    {
        StdSink {
            stream: Stream::Error(stream),
            faults: FaultCount::none(),
        }
    }
}

impl Sink for StdSink {
    ghost taken = { λ sink. None };

    ghost faults = { λ sink. sink.faults };

    fn write(&mut self, piece: &[u8]) -> Put {
        let put = match &mut self.stream {
            Stream::Output(stream) => write_some(stream, piece),
            Stream::Error(stream) => write_some(stream, piece),
        };
        if put == Put::Failed {
            self.faults.add();
        }
        put
    }
}
