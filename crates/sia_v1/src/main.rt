//! The program `sia-v1`: opens what its words name, runs the command, and ends with its status.
//!
//! It stands on `sia_program`, whose `run_plain` does the work and carries what is promised of it.
#![tactic(auto)]

use sia_edge::{FileSource, StdSink, write_all};
use sia_encoding::{Blob, List};
use sia_program::{read_form, run_plain};
use sia_sign::Seal;
use std::alloc::{AllocError, Global};
use std::env::{Env, FillError};
use std::fs::File;
use std::process::ExitCode;
use std::rt::Files;

/// The bytes of the argument at an index, if there is one.
fn argument<R: Env>(rt: &R, alloc: Global, index: usize) -> Result<Option<Blob>, AllocError> {
    let mut room = 256usize;
    for _ in 0..usize::BITS {
        let mut bytes = Vec::new(alloc);
        bytes.resize(room, 0u8)?;
        match rt.arg(index, bytes.as_mut_slice()) {
            Ok(count) => {
                bytes.truncate(count);
                return Ok(Some(Blob::from_vec(bytes)));
            }
            Err(FillError::NotPresent) => return Ok(None),
            Err(FillError::TooLong) => room = room.saturating_mul(2),
        }
    }
    Err(AllocError)
}

/// The words behind the program's name.
fn arguments<R: Env>(rt: &R, alloc: Global) -> Result<List<Blob>, AllocError> {
    let mut words = List::new(alloc);
    for index in 1..usize::MAX {
        match argument(rt, alloc, index)? {
            Some(word) => words.push(word)?,
            None => break,
        }
    }
    Ok(words)
}

/// The file that the word at a place names. It fails at its first read where there is no such word, or the file doesn't open.
fn open_file<R: Files<File = File>>(rt: &R, words: &[Blob], place: Option<usize>) -> FileSource {
    let Some(place) = place else {
        return FileSource::empty();
    };
    match words.get(place) {
        Some(name) => FileSource::open(rt, name.as_slice()),
        None => FileSource::empty(),
    }
}

/// The configuration and the input that the words name. Words without a form name none.
fn open_files<R: Files<File = File>>(rt: &R, words: &[Blob]) -> (FileSource, FileSource) {
    let Some(form) = read_form(words) else {
        return (FileSource::empty(), FileSource::empty());
    };
    let places = form.files();
    (
        open_file(rt, words, places.config),
        open_file(rt, words, places.input),
    )
}

fn main(rt: HostRuntime) -> ExitCode {
    let alloc = rt.alloc();
    let mut out = StdSink::output(rt.stdout());
    let mut err = StdSink::error(rt.stderr());
    match arguments(&rt, alloc) {
        Ok(words) => {
            let (mut config, mut input) = open_files(&rt, words.as_slice());
            let status = run_plain(
                alloc,
                words.as_slice(),
                &mut config,
                &mut input,
                &Seal,
                &mut out,
                &mut err,
            );
            ExitCode::from(status)
        }
        Err(_) => {
            let _ = write_all(&mut err, "sia-v1: no memory\n".as_bytes());
            ExitCode::from(5)
        }
    }
}
