//! A journal over a file: records are appended one after another, or all are read.

ghost use Rattle.std.specs.Prelude.{◌≡◌, ◌+◌, ◌*◌, ◌++◌, ℕ, List, IsTrue, IfOk, OnOk, length, replicate};
ghost use Rattle.sia_journal.specs.Journal.{Holds, IsReady};

use sia_edge::{Disk, FileDisk};
use sia_encoding::Blob;
use sia_journal::{Journal, JournalFault, RecordBuf};
use std::alloc::Global;
use std::fs::File;
use std::io::{self, ErrorKind};
use std::rt::{Clock, Files};
use std::time::Instant;

/// What stands at the front of a host's journal.
const HOST_HEADER: [u8; 16] = *b"sia journal v1\0\0";

/// The greatest length of the file, in bytes.
const LIMIT: u64 = 1 << 36;

/// How many bytes a payload has.
const PAYLOAD: usize = 200;

/// How many bytes a journal grows by with each record: the payload, its length of 8 bytes and a gate.
const RECORD: u64 = 209;

/// What a journal's fault is to the program.
fn error_of(fault: JournalFault) -> io::Error {
    io::Error::from(match fault {
        JournalFault::Memory => ErrorKind::OutOfMemory,
        JournalFault::Disk => ErrorKind::Other,
        JournalFault::Damaged { .. } => ErrorKind::InvalidData,
        JournalFault::Full { .. } => ErrorKind::FileTooLarge,
    })
}

/// Opens the journal of a disk.
fn open<D: Disk + Drop>(alloc: Global, disk: D) -> io::Result<Journal<D>>
    ensures ready { IfOk result (λ journal. IsReady D.standing journal) }
{
    match Journal::open(alloc, disk, &HOST_HEADER, LIMIT) {
        Ok(journal) => Ok(journal),
        Err((fault, _)) => Err(error_of(fault)),
    }
}

/// Appends the record as many times, and answers how many records the journal has grown by.
fn append_often<D: Disk>(
    journal: &mut Journal<D>,
    framed: &RecordBuf,
    times: u64,
) -> Result<u64, JournalFault>
    requires ready { IsReady D.standing journal.old }
    requires size { length framed.now ≡ PAYLOAD }
    ensures count { IfOk result (λ count. count ≡ times) }
    ensures grown { OnOk result (length (D.standing journal.new.disk).seen ≡ length (D.standing journal.old.disk).seen + times * RECORD) }
    ensures kept { IsTrue D.tells → OnOk result ((header : List ℕ) (records : List (List ℕ))
        → Holds header records (D.standing journal.old.disk)
        → Holds header (records ++ replicate times framed.now) (D.standing journal.new.disk)) }
{
    let before = journal.length();
    for _ in 0..times {
        journal.append(framed)?;
    }
    Ok((journal.length() - before) / RECORD)
}

/// Reads all records, and answers how many there are.
fn count_records<D: Disk>(alloc: Global, journal: &mut Journal<D>) -> Result<u64, JournalFault>
    requires { IsReady D.standing journal.old }
    ensures count { IsTrue D.tells → (header : List ℕ) (records : List (List ℕ))
        → Holds header records (D.standing journal.old.disk)
        → IfOk result (λ count. count ≡ length records) }
{
    let mut place = 16;
    let mut payload = Blob::new(alloc);
    let most = journal.length();
    for count in 0..most {
        if !journal.read_next(alloc, &mut place, &mut payload)? {
            return Ok(count);
        }
    }
    Ok(most)
}

/// How many appends were made, and how many nanoseconds they took.
#[derive(Clone, Copy)]
pub(crate) struct Appending {
    pub(crate) appends: u64,
    pub(crate) nanos: u128,
}

/// Appends as many records to the journal of a file, which is made where it is missing.
pub(crate) fn append_nanos<R: Files<File = File> + Clock>(
    rt: &R,
    alloc: Global,
    file: &str,
    times: u64,
) -> io::Result<Appending>
    ensures { IfOk result (λ appending. appending.appends ≡ times) }
{
    let framed = RecordBuf::new(alloc, &[7; PAYLOAD])?;
    let mut journal = open(alloc, FileDisk::open(rt, file.as_bytes()))?;
    let start = Instant::now(rt)?;
    let appends = append_often(&mut journal, &framed, times).map_err(error_of)?;
    let nanos = start.elapsed(rt)?.as_nanos();
    Ok(Appending { appends, nanos })
}

/// How long the opening of a journal takes, and the reading of its records.
#[derive(Clone, Copy)]
pub(crate) struct Opening {
    /// How many records it has.
    pub(crate) records: u64,
    /// How many nanoseconds the opening takes.
    pub(crate) open: u128,
    /// How many nanoseconds the reading of all records takes.
    pub(crate) read: u128,
}

/// Opens the journal of a file, and reads all its records.
pub(crate) fn open_nanos<R: Files<File = File> + Clock>(
    rt: &R,
    alloc: Global,
    file: &str,
) -> io::Result<Opening> {
    let disk = FileDisk::open(rt, file.as_bytes());
    let start = Instant::now(rt)?;
    let mut journal = open(alloc, disk)?;
    let opened = start.elapsed(rt)?.as_nanos();
    let start = Instant::now(rt)?;
    let records = count_records(alloc, &mut journal).map_err(error_of)?;
    Ok(Opening {
        records,
        open: opened,
        read: start.elapsed(rt)?.as_nanos(),
    })
}

#[cfg(test)]
mod tests {
    use super::*;
    use std::test::Fail;
    use std::{fs, process};

    #[test]
    fn what_was_appended_is_read(rt: HostRuntime) -> Result<(), Fail> {
        let name = format!(in rt.alloc(); "/tmp/sia_bench_records_{}", process::id(rt.process()))?;
        append_nanos(&rt, rt.alloc(), name.as_str(), 3)?;
        append_nanos(&rt, rt.alloc(), name.as_str(), 2)?;
        let opening = open_nanos(&rt, rt.alloc(), name.as_str())?;
        fs::remove_file(&rt, name.as_str())?;
        assert_eq!(rt; opening.records, 5);
        Ok(())
    }
}
