//! A call of the program over sources and sinks in memory, and the answer that is wanted of it.
use sia_edge::{MemSink, MemSource};
use sia_encoding::{Blob, List};
use sia_program::run_plain;
use sia_sign::Seal;
use std::alloc::Global;
use std::process::Abort;
use std::test::Fail;

/// The words of a call, the bytes that its files hold, and which calls of the outside fail, by number.
#[derive(Clone, Copy)]
pub struct Call<'a> {
    pub words: &'a [&'a str],
    pub config: &'a [u8],
    pub input: &'a [u8],
    pub config_fails: &'a [u64],
    pub input_fails: &'a [u64],
    pub out_fails: &'a [u64],
    pub err_fails: &'a [u64],
}

/// What a call is to answer, and what it is to write.
#[derive(Clone, Copy)]
pub struct Answer<'a> {
    pub status: u8,
    pub out: &'a str,
    pub err: &'a str,
}

/// A call of these words over an input, where no call of the outside fails but the first read of a configuration.
pub fn over<'a>(words: &'a [&'a str], input: &'a [u8]) -> Call<'a> {
    Call {
        words,
        config: &[],
        input,
        config_fails: &[0],
        input_fails: &[],
        out_fails: &[],
        err_fails: &[],
    }
}

/// The work is done, and this is printed.
pub fn printed(out: &str) -> Answer<'_> {
    Answer {
        status: 0,
        out,
        err: "",
    }
}

/// Nothing is printed, and this is told.
pub fn told(status: u8, err: &str) -> Answer<'_> {
    Answer {
        status,
        out: "",
        err,
    }
}

/// The bytes of a file: each is its place modulo 251.
pub fn file(alloc: Global, length: usize) -> Result<Vec<u8>, Fail> {
    let mut bytes = Vec::new(alloc);
    for place in 0..length {
        bytes.push((place % 251) as u8)?;
    }
    Ok(bytes)
}

/// A source of bytes, of which the calls with these numbers fail.
fn source(alloc: Global, bytes: &[u8], fails: &[u64]) -> Result<MemSource, Fail> {
    let fails = List::from_vec(fails.to_vec(alloc)?);
    Ok(MemSource::new(Blob::from_slice(alloc, bytes)?, fails))
}

/// An empty sink, of which the calls with these numbers fail.
fn sink(alloc: Global, fails: &[u64]) -> Result<MemSink, Fail> {
    let fails = List::from_vec(fails.to_vec(alloc)?);
    Ok(MemSink::new(alloc, fails))
}

/// The words behind the program's name.
fn words(alloc: Global, texts: &[&str]) -> Result<List<Blob>, Fail> {
    let mut words = List::new(alloc);
    for text in texts {
        words.push(Blob::from_slice(alloc, text.as_bytes())?)?;
    }
    Ok(words)
}

/// Makes the call, and compares its answer with the one that is wanted. The name says what the case shows.
pub fn check(
    rt: &(impl Alloc<A = Global> + Abort),
    name: &str,
    call: &Call,
    wanted: &Answer,
) -> Result<(), Fail> {
    let alloc = rt.alloc();
    let words = words(alloc, call.words)?;
    let mut config = source(alloc, call.config, call.config_fails)?;
    let mut input = source(alloc, call.input, call.input_fails)?;
    let mut out = sink(alloc, call.out_fails)?;
    let mut err = sink(alloc, call.err_fails)?;
    let status = run_plain(
        alloc,
        words.as_slice(),
        &mut config,
        &mut input,
        &Seal,
        &mut out,
        &mut err,
    );
    assert_eq!(rt; status, wanted.status, "{name}");
    assert_eq!(rt; out.bytes(), wanted.out.as_bytes(), "{name}");
    assert_eq!(rt; err.bytes(), wanted.err.as_bytes(), "{name}");
    Ok(())
}
