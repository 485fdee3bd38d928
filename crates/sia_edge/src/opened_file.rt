//! An open file of the system, one call at a time.
ghost use Rattle.std.specs.Prelude.{◌≡◌, ◌≤◌, ◌<◌, ℕ, List, Option, None, IfSome, length, option_map, take};
ghost use Rattle.sia_edge.specs.Edge.{GotWithin, PutWithin};
ghost use Rattle.sia_edge.specs.OpenedFile.{ReadsAt, PutsAt};

use crate::attempts::{read_some, write_some};
use crate::{Did, Got, Put};
use std::fs::File;
use std::io::{self, Read, Seek, SeekFrom, Write};
use std::os::unix::fs::FileExt;

/// An open file, by the calls that a system has for it: those of POSIX's `pread`, `pwrite`, `ftruncate`, `fdatasync` and
/// `lseek`.
/// Where its bytes are told, contracts see what each call makes of them, and what it held as it was last synced.
pub trait OpenedFile {
    /// The bytes that it holds, where they are told.
    ghost held: { Self → Option (List ℕ) };

    /// The bytes that it held as it was last synced, where they are told.
    ghost synced: { Self → Option (List ℕ) };

    /// How many bytes it holds, or none where the system doesn't say.
    fn size(&self) -> Option<u64>
        ensures { IfSome result (λ size. IfSome (held self.now) (λ bytes. length bytes ≡ size)) };

    /// Puts the bytes at a place at the front of the buffer, which isn't empty.
    fn read_at(&self, at: u64, buffer: &mut [u8]) -> Got
        requires { 0 < length buffer.old }
        ensures bound { GotWithin result (length buffer.new) }
        ensures bytes { IfSome (held self.now) (ReadsAt result buffer.new at) };

    /// Puts the piece, which isn't empty, or a front part of it over what is there at a place and past the end.
    fn write_at(&mut self, at: u64, piece: &[u8]) -> Put
        requires some { 0 < length piece.now }
        requires inside { IfSome (held self.old) (λ bytes. at ≤ length bytes) }
        ensures bound { PutWithin result (length piece.now) }
        ensures bytes { PutsAt result at piece.now (held self.old) (held self.new) };

    /// Cuts it to this length, in bytes.
    fn cut(&mut self, len: u64) -> Did
        ensures { result ≡ Did.Done → held self.new ≡ option_map (take len) (held self.old) };

    /// Brings what it holds to the disk.
    fn sync(&mut self) -> Did
        ensures same { held self.new ≡ held self.old }
        ensures synced { result ≡ Did.Done → synced self.new ≡ held self.old };
}

/// A file from a place on.
#[derive(Drop)]
struct Behind<'a> {
    file: &'a File,
    at: u64,
}

impl Read for Behind<'_> {
    fn read(&mut self, buf: &mut [u8]) -> io::Result<usize> {
        FileExt::read_at(self.file, buf, self.at)
    }
}

impl Write for Behind<'_> {
    fn write(&mut self, buf: &[u8]) -> io::Result<usize> {
        FileExt::write_at(self.file, buf, self.at)
    }

    fn flush(&mut self) -> io::Result<()> {
        Ok(())
    }
}

/// What a call that answers nothing else answers.
fn did_of(answer: io::Result<()>) -> Did {
    match answer {
        Ok(()) => Did::Done,
        Err(_) => Did::Failed,
    }
}

impl OpenedFile for File {
    ghost held = { λ file. None };

    ghost synced = { λ file. None };

    // The end is sought rather than fstat called: since Linux 6.13 a fstat makes the next write give the file a new time of
    // its own, which costs a write of the inode. No call reads or writes at the place that is left.
    fn size(&self) -> Option<u64> {
        let mut file = self;
        file.seek(SeekFrom::End(0)).ok()
    }

    fn read_at(&self, at: u64, buffer: &mut [u8]) -> Got {
        read_some(&mut Behind { file: self, at }, buffer)
    }

    fn write_at(&mut self, at: u64, piece: &[u8]) -> Put {
        write_some(&mut Behind { file: self, at }, piece)
    }

    fn cut(&mut self, len: u64) -> Did {
        did_of(self.set_len(len))
    }

    fn sync(&mut self) -> Did {
        did_of(self.sync_data())
    }
}
